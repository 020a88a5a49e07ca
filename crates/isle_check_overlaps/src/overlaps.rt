//! Rules, compared with one another.

ghost use Rattle.std.specs.Prelude.{◌≡◌, ◌++◌, IfOk, OnOk, map, take};
ghost use Rattle.std.specs.HashMap.{get_by_text};
ghost use Rattle.std.specs.List.{flat_map};
ghost use Rattle.isle_check_overlaps.specs.Faults.{hidden_by, meetings, met_at, comparison_of};
ghost use Rattle.isle_check_overlaps.specs.Candidates.{hides};
ghost use Rattle.isle_check_overlaps.specs.Faults.{meetings_by, most_told, shadow_at, shadows};
ghost use Rattle.isle_check_overlaps.specs.Faults.{star_at};
ghost use Rattle.isle_check_overlaps.specs.Groups.{AreGroups, near};
ghost use Rattle.isle_check_overlaps.specs.Stars.{pairs};
ghost use Rattle.isle_check_overlaps.specs.Faults as told;
ghost use Rattle.isle_check_overlaps.specs.Views as views;
ghost use Rattle.isle_check_environment.specs.signatures.Views.{environment_of};
ghost use Rattle.isle_check_overlaps.specs.Views.{candidate_of, candidates_at, candidates_of};
ghost use Rattle.isle_check_overlaps.specs.Views.{faults_of, other_of, others_of};
ghost use Rattle.isle_check_overlaps.specs.Views.{matchings_of, pairs_of, star_of, stars_of};

use crate::candidates::{Candidate, candidates, hides};
use crate::equal_shadows::add_equal_shadows;
use crate::fault::{Comparison, Fault, Kind, Other};
use crate::groups::{Groups, near};
use crate::matching::Matching;
use crate::stars::{Pair, Star, grouped, stars};
use crate::unreachable::{add_unreachable, endless_rules};
use isle_base_source::pos::Pos;
use isle_check_environment::signatures::Environment;
use isle_check_places::values::{Value, value_of_both};
use std::alloc::{AllocError, Global};

/// How many of the rules that overlap with a rule, or that it hides, are told.
pub const MOST_TOLD: usize = 10;

/// Returns what is wrong with the rules of a program: those that match nothing, in order, and then
/// those that overlap with others or hide others, in order.
///
/// Of the pairs of rules that overlap, the rule that overlaps with most is told with all of those,
/// of equals the later one; then the same without it, and so on. An `Err` means out of memory.
pub fn compare(
    alloc: Global,
    env: &Environment,
    matchings: &[Matching],
) -> Result<Comparison, AllocError>
    ensures { IfOk result (λ made. views.comparison_of made
        ≡ comparison_of (environment_of env.now).terms (matchings_of matchings.now)) }
{
    let mut faults = Vec::new(alloc);
    add_unreachable(alloc, matchings, &mut faults)?;
    let candidates = candidates(alloc, matchings)?;
    let mut pairs = Vec::new(alloc);
    let groups = grouped(alloc, &candidates, &mut pairs)?;
    add_meetings(
        alloc,
        env,
        matchings.len(),
        pairs,
        &groups,
        &candidates,
        &mut faults,
    )?;
    let mut warnings = endless_rules(alloc, matchings)?;
    add_equal_shadows(alloc, &groups, &candidates, &mut warnings)?;
    Ok(Comparison { faults, warnings })
}

/// Adds the rules that overlap with others, in these pairs, or hide others, among so many rules.
fn add_meetings<'c, 'm, 'a>(
    alloc: Global,
    env: &Environment,
    count: usize,
    overlapping: Vec<Pair<'c, 'm, 'a>>,
    groups: &Groups<'c, 'm, 'a>,
    candidates: &'c [Candidate<'m, 'a>],
    found: &mut Vec<Fault>,
) -> Result<(), AllocError>
    requires are_groups { AreGroups groups.now (candidates_of candidates.now) }
    requires are_pairs { pairs_of overlapping.items ≡ pairs (candidates_of candidates.now) }
    ensures { OnOk result (faults_of found.new.items ≡ faults_of found.old.items
        ++ meetings (environment_of env.now).terms count (candidates_of candidates.now)) }
{
    let stars = stars(alloc, count, overlapping)?;
    add_met_all(alloc, env, &stars, groups, candidates, found)
}

fn add_met_all<'c, 'm, 'a>(
    alloc: Global,
    env: &Environment,
    stars: &[Star],
    groups: &Groups<'c, 'm, 'a>,
    candidates: &'c [Candidate<'m, 'a>],
    found: &mut Vec<Fault>,
) -> Result<(), AllocError>
    requires { AreGroups groups.now (candidates_of candidates.now) }
    ensures { OnOk result (faults_of found.new.items ≡ faults_of found.old.items
        ++ meetings_by (environment_of env.now).terms (stars_of stars.now)
        (candidates_of candidates.now)) }
{
    for candidate in candidates {
        add_met(alloc, env, stars, groups, candidate, found)?;
    }
    Ok(())
}

fn add_met<'c, 'm, 'a>(
    alloc: Global,
    env: &Environment,
    stars: &[Star],
    groups: &Groups<'c, 'm, 'a>,
    candidate: &'c Candidate<'m, 'a>,
    found: &mut Vec<Fault>,
) -> Result<(), AllocError>
    ensures { OnOk result (faults_of found.new.items ≡ faults_of found.old.items
        ++ met_at (environment_of env.now).terms (stars_of stars.now)
        (near (get_by_text groups.now candidate.now.term.now) (candidate_of candidate.now))
        (candidate_of candidate.now)) }
{
    add_stars(alloc, env, stars, candidate, found)?;
    let hidden = hidden_by(alloc, candidate, groups)?;
    add_shadow(alloc, candidate, &hidden, found)
}

fn add_stars(
    alloc: Global,
    env: &Environment,
    stars: &[Star],
    candidate: &Candidate,
    found: &mut Vec<Fault>,
) -> Result<(), AllocError>
    ensures { OnOk result (faults_of found.new.items ≡ faults_of found.old.items
        ++ flat_map (star_at (environment_of env.now).terms (candidate_of candidate.now))
        (stars_of stars.now)) }
{
    for star in stars {
        add_star(alloc, env, star, candidate, found)?;
    }
    Ok(())
}

fn add_star(
    alloc: Global,
    env: &Environment,
    star: &Star,
    candidate: &Candidate,
    found: &mut Vec<Fault>,
) -> Result<(), AllocError>
    ensures { OnOk result (faults_of found.new.items ≡ faults_of found.old.items
        ++ star_at (environment_of env.now).terms (candidate_of candidate.now)
        (star_of star.now)) }
{
    if star.center != candidate.number {
        return Ok(());
    }
    found.push(star_fault(alloc, env, candidate, &star.others)?)?;
    Ok(())
}

/// Returns what is told of a rule that overlaps with others.
fn star_fault(
    alloc: Global,
    env: &Environment,
    candidate: &Candidate,
    others: &[&Candidate],
) -> Result<Fault, AllocError>
    ensures { IfOk result (λ made. views.fault_of made
        ≡ told.star_of (environment_of env.now).terms (candidate_of candidate.now)
        (candidates_at others.now)) }
{
    let count = others.len().min(MOST_TOLD);
    let told = told_others(alloc, env, candidate, &others[..count])?;
    Ok(Fault {
        kind: Kind::Overlaps(told, others.len() - count),
        pos: candidate.pos,
    })
}

fn told_others(
    alloc: Global,
    env: &Environment,
    candidate: &Candidate,
    others: &[&Candidate],
) -> Result<Vec<Other>, AllocError>
    ensures { IfOk result (λ made. others_of made.items
        ≡ map (told.other (environment_of env.now).terms (candidate_of candidate.now))
        (candidates_at others.now)) }
{
    let mut made = Vec::new(alloc);
    for other in others {
        made.push(told_other(alloc, env, candidate, other)?)?;
    }
    Ok(made)
}

fn told_other(
    alloc: Global,
    env: &Environment,
    candidate: &Candidate,
    other: &Candidate,
) -> Result<Other, AllocError>
    ensures { IfOk result (λ made. other_of made
        ≡ told.other (environment_of env.now).terms (candidate_of candidate.now)
        (candidate_of other.now)) }
{
    let value = value_of_both(
        alloc,
        env,
        candidate.term,
        candidate.constraints,
        other.constraints,
    )?;
    Ok(Other {
        pos: other.pos,
        value: Value {
            text: value.text,
            is_sure: value.is_sure && is_exact(candidate) && is_exact(other),
        },
    })
}

/// Returns whether a rule matches whatever satisfies its constraints.
fn is_exact(candidate: &Candidate) -> bool
    ensures { result ≡ told.is_exact (candidate_of candidate.now) }
{
    candidate.is_plain && !candidate.has_several
}

/// Returns the positions of the rules that a rule hides.
fn hidden_by<'c, 'm, 'a>(
    alloc: Global,
    high: &'c Candidate<'m, 'a>,
    groups: &Groups<'c, 'm, 'a>,
) -> Result<Vec<Pos>, AllocError>
    ensures { IfOk result (λ made. made.items ≡ hidden_by hides (candidate_of high.now)
        (near (get_by_text groups.now high.now.term.now) (candidate_of high.now))) }
{
    let near = near(alloc, groups, high)?;
    hidden_in(alloc, high, &near)
}

fn hidden_in(alloc: Global, high: &Candidate, group: &[&Candidate]) -> Result<Vec<Pos>, AllocError>
    ensures { IfOk result
        (λ made. made.items ≡ hidden_by hides (candidate_of high.now) (candidates_at group.now)) }
{
    let mut hidden = Vec::new(alloc);
    for low in group {
        if hides(high, low) {
            hidden.push(low.pos)?;
        }
    }
    Ok(hidden)
}

fn add_shadow(
    alloc: Global,
    candidate: &Candidate,
    hidden: &[Pos],
    found: &mut Vec<Fault>,
) -> Result<(), AllocError>
    ensures { OnOk result (faults_of found.new.items ≡ faults_of found.old.items
        ++ shadow_at shadows (candidate_of candidate.now) hidden.now) }
{
    if hidden.is_empty() {
        return Ok(());
    }
    let told = told_positions(alloc, hidden)?;
    let left_out = hidden.len().saturating_sub(MOST_TOLD);
    found.push(Fault {
        kind: Kind::Shadows(told, left_out),
        pos: candidate.pos,
    })?;
    Ok(())
}

/// Returns the positions that are told of these. It has room for no others, since many rules may
/// hide many.
pub fn told_positions(alloc: Global, hidden: &[Pos]) -> Result<Vec<Pos>, AllocError>
    ensures { IfOk result (λ made. made.items ≡ take most_told hidden.now) }
{
    let count = hidden.len().min(MOST_TOLD);
    let mut told = Vec::with_capacity(alloc, count)?;
    told.extend_from_slice(&hidden[..count])?;
    Ok(told)
}
