//! Rules that hide others that ask for equal values.

ghost use Rattle.std.specs.Prelude.{◌≡◌, ◌++◌, IfOk, OnOk};
ghost use Rattle.std.specs.HashMap.{get_by_text};
ghost use Rattle.isle_check_overlaps.specs.Candidates.{hides_with_equals};
ghost use Rattle.isle_check_overlaps.specs.Faults.{equal_shadows, hidden_by, shadow_at};
ghost use Rattle.isle_check_overlaps.specs.Faults.{shadows_with_equals};
ghost use Rattle.isle_check_overlaps.specs.Groups.{AreGroups, near};
ghost use Rattle.isle_check_overlaps.specs.Views.{candidate_of, candidates_at, candidates_of};
ghost use Rattle.isle_check_overlaps.specs.Views.{faults_of};

use crate::candidates::{Candidate, hides_with_equals};
use crate::fault::{Fault, Kind};
use crate::groups::{Groups, near};
use crate::overlaps::{MOST_TOLD, told_positions};
use isle_base_source::pos::Pos;
use std::alloc::{AllocError, Global};

/// Adds the rules that hide others that ask for equal values. An `Err` means out of memory.
pub fn add_equal_shadows<'c, 'm, 'a>(
    alloc: Global,
    groups: &Groups<'c, 'm, 'a>,
    candidates: &'c [Candidate<'m, 'a>],
    found: &mut Vec<Fault>,
) -> Result<(), AllocError>
    requires { AreGroups groups.now (candidates_of candidates.now) }
    ensures { OnOk result (faults_of found.new.items ≡ faults_of found.old.items
        ++ equal_shadows (candidates_of candidates.now)) }
{
    for candidate in candidates {
        let hidden = hidden_by(alloc, candidate, groups)?;
        add_shadow(alloc, candidate, &hidden, found)?;
    }
    Ok(())
}

/// Returns the positions of the rules that a rule hides and that ask for equal values.
fn hidden_by<'c, 'm, 'a>(
    alloc: Global,
    high: &'c Candidate<'m, 'a>,
    groups: &Groups<'c, 'm, 'a>,
) -> Result<Vec<Pos>, AllocError>
    ensures { IfOk result (λ made. made.items ≡ hidden_by hides_with_equals (candidate_of high.now)
        (near (get_by_text groups.now high.now.term.now) (candidate_of high.now))) }
{
    let near = near(alloc, groups, high)?;
    hidden_in(alloc, high, &near)
}

fn hidden_in<'c, 'm, 'a>(
    alloc: Global,
    high: &'c Candidate<'m, 'a>,
    group: &[&'c Candidate<'m, 'a>],
) -> Result<Vec<Pos>, AllocError>
    ensures { IfOk result (λ made. made.items
        ≡ hidden_by hides_with_equals (candidate_of high.now) (candidates_at group.now)) }
{
    let mut hidden = Vec::new(alloc);
    for low in group {
        if hides_with_equals(alloc, high, low)? {
            hidden.push(low.pos)?;
        }
    }
    Ok(hidden)
}

fn add_shadow(
    alloc: Global,
    candidate: &Candidate,
    hidden: &[Pos],
    found: &mut Vec<Fault>,
) -> Result<(), AllocError>
    ensures { OnOk result (faults_of found.new.items ≡ faults_of found.old.items
        ++ shadow_at shadows_with_equals (candidate_of candidate.now) hidden.now) }
{
    if hidden.is_empty() {
        return Ok(());
    }
    let told = told_positions(alloc, hidden)?;
    let left_out = hidden.len().saturating_sub(MOST_TOLD);
    found.push(Fault {
        kind: Kind::ShadowsWithEquals(told, left_out),
        pos: candidate.pos,
    })?;
    Ok(())
}
