//! Rules that match nothing.

ghost use Rattle.std.specs.Prelude.{◌≡◌, ◌++◌, IfOk, OnOk, map, string_bytes};
ghost use Rattle.isle_check_overlaps.specs.Faults.{endless_by, endless_rules, of_clash};
ghost use Rattle.isle_check_overlaps.specs.Faults.{of_settled, shown, unreachable};
ghost use Rattle.isle_check_overlaps.specs.Faults.{unreachable_rules};
ghost use Rattle.isle_check_overlaps.specs.Views.{faults_of, matching_of, matchings_of};
ghost use Rattle.isle_check_places.specs.Views.{clashes_of, constraint_of, settled_of};

use crate::fault::{Fault, Kind};
use crate::matching::Matching;
use isle_base_source::pos::Pos;
use isle_check_places::{Clash, Constraint, Settled};
use std::alloc::{AllocError, Global};

/// Adds the errors of rules that match nothing. An `Err` means out of memory.
pub fn add_unreachable(
    alloc: Global,
    matchings: &[Matching],
    found: &mut Vec<Fault>,
) -> Result<(), AllocError>
    ensures { OnOk result (faults_of found.new.items ≡ faults_of found.old.items
        ++ unreachable_rules (matchings_of matchings.now)) }
{
    for matching in matchings {
        add_of_rule(alloc, matching, found)?;
    }
    Ok(())
}

fn add_of_rule(alloc: Global, matching: &Matching, found: &mut Vec<Fault>) -> Result<(), AllocError>
    ensures { OnOk result (faults_of found.new.items ≡ faults_of found.old.items
        ++ unreachable (matching_of matching.now)) }
{
    add_clashes(alloc, matching.pos, &matching.clashes, found)?;
    add_unequal(matching.pos, &matching.settled, found)
}

fn add_clashes(
    alloc: Global,
    pos: Pos,
    clashes: &[Clash],
    found: &mut Vec<Fault>,
) -> Result<(), AllocError>
    ensures { OnOk result (faults_of found.new.items ≡ faults_of found.old.items
        ++ map (of_clash pos) (clashes_of clashes.now)) }
{
    for clash in clashes {
        let first = shown(alloc, clash.first)?;
        let second = shown(alloc, clash.second)?;
        found.push(Fault {
            kind: Kind::TwoConstraints(first, second),
            pos,
        })?;
    }
    Ok(())
}

/// Returns a constraint as it is written.
pub fn shown(alloc: Global, constraint: Constraint) -> Result<String, AllocError>
    ensures { IfOk result
        (λ text. string_bytes text ≡ shown (constraint_of constraint.entry)) }
{
    match constraint {
        Constraint::Variant(name, _) => format!(in alloc; "{name}"),
        Constraint::Bool(true) => format!(in alloc; "true"),
        Constraint::Bool(false) => format!(in alloc; "false"),
        Constraint::Int(val) => format!(in alloc; "{val}"),
        Constraint::Const(name) => format!(in alloc; "${name}"),
        Constraint::Present => format!(in alloc; "Some"),
    }
}

fn add_unequal(pos: Pos, settled: &Settled, found: &mut Vec<Fault>) -> Result<(), AllocError>
    ensures { OnOk result (faults_of found.new.items ≡ faults_of found.old.items
        ++ of_settled pos (settled_of settled.now)) }
{
    match settled {
        Settled::Unequal => {
            found.push(Fault {
                kind: Kind::UnequalConstraints,
                pos,
            })?;
            Ok(())
        }
        Settled::Settled(..) | Settled::Endless => Ok(()),
    }
}

/// Returns the warnings of rules that would match a value that is a part of itself. An `Err` means
/// out of memory.
pub fn endless_rules(alloc: Global, matchings: &[Matching]) -> Result<Vec<Fault>, AllocError>
    ensures { IfOk result
        (λ made. faults_of made.items ≡ endless_rules (matchings_of matchings.now)) }
{
    let mut found = Vec::new(alloc);
    for matching in matchings {
        add_endless(matching.pos, &matching.settled, &mut found)?;
    }
    Ok(found)
}

fn add_endless(pos: Pos, settled: &Settled, found: &mut Vec<Fault>) -> Result<(), AllocError>
    ensures { OnOk result (faults_of found.new.items ≡ faults_of found.old.items
        ++ endless_by pos (settled_of settled.now)) }
{
    match settled {
        Settled::Endless => {
            found.push(Fault {
                kind: Kind::PartOfItself,
                pos,
            })?;
            Ok(())
        }
        Settled::Settled(..) | Settled::Unequal => Ok(()),
    }
}
