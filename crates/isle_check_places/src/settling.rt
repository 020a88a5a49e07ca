//! Equal places have equal constraints and equal parts.

ghost use Rattle.std.specs.Prelude.{◌≡◌, ◌++◌, ◌∷◌, [], IfOk, OnOk, length, nat_lt};
ghost use Rattle.std.specs.Prelude.{option_map};
ghost use Rattle.isle_check_places.specs.Settling.{begun, constraint_at, equal_fields};
ghost use Rattle.isle_check_places.specs.Settling.{equal_part, equal_parts, most_equal};
ghost use Rattle.isle_check_places.specs.Settling.{most_sweeps, settle};
ghost use Rattle.isle_check_places.specs.Settling.{opened, sweep, swept, swept_by, with_constraint};
ghost use Rattle.isle_check_places.specs.Views.{all_constrained_of, all_equalities_of};
ghost use Rattle.isle_check_places.specs.Views.{constraint_of, equality_of, place_of, step_of};
ghost use Rattle.isle_check_places.specs.Views.{settled_of, sweep_of};

use crate::places::{
    Constrained, Constraint, Place, Step, copied, same_constraint, same_place, step_on,
};
use std::alloc::{AllocError, Global};

/// How often equal places are gone over. A rule that exceeds this counts as endless.
const MOST_SWEEPS: usize = 64;

/// How many equal places there may be after each time if more can be made of them. A rule that
/// exceeds this counts as endless, too.
const MOST_EQUAL: usize = 1024;

/// Two places that are equal.
#[derive(Drop)]
pub struct Equality<'a> {
    pub left: Place<'a>,
    pub right: Place<'a>,
}

/// What one sweep over equal places makes of them.
#[derive(Drop)]
pub struct Sweep<'a> {
    pub constraints: Vec<Constrained<'a>>,
    /// The equal places that are left.
    pub equal: Vec<Equality<'a>>,
    /// Whether more can be made of them.
    pub is_opened: bool,
    /// Whether constraints of equal places differ.
    pub clashes: bool,
}

/// What the constraints and the equal places of a rule come to.
#[derive(Drop)]
pub enum Settled<'a> {
    /// The constraints of all places, and the equal places that are not constrained.
    Settled(Vec<Constrained<'a>>, Vec<Equality<'a>>),
    /// Two constraints of equal places differ.
    Unequal,
    /// There is no end of equal parts within a bound, as where a value would be a part of itself.
    /// Rules with more than 1,024 equal parts may exceed it, too.
    Endless,
}

/// Returns the first constraint of a place.
pub fn constraint_at<'a>(constraints: &[Constrained<'a>], at: &[Step]) -> Option<Constraint<'a>>
    ensures { option_map constraint_of result
        ≡ constraint_at (all_constrained_of constraints.now) (place_of at.now) }
{
    for constrained in constraints {
        if same_place(&constrained.at, at) {
            return Some(constrained.constraint);
        }
    }
    None
}

/// Returns what constraints and equal places come to. An `Err` means out of memory.
pub fn settle<'a>(
    alloc: Global,
    constraints: Vec<Constrained<'a>>,
    equal: Vec<Equality<'a>>,
) -> Result<Settled<'a>, AllocError>
    ensures { IfOk result (λ made. settled_of made ≡ settle most_sweeps
        (all_constrained_of constraints.entry.items) (all_equalities_of equal.entry.items)) }
{
    settle_within(alloc, MOST_SWEEPS, constraints, equal)
}

/// Returns what they come to within so many sweeps.
fn settle_within<'a>(
    alloc: Global,
    sweeps: usize,
    constraints: Vec<Constrained<'a>>,
    equal: Vec<Equality<'a>>,
) -> Result<Settled<'a>, AllocError>
    ensures { IfOk result (λ made. settled_of made ≡ settle sweeps
        (all_constrained_of constraints.entry.items) (all_equalities_of equal.entry.items)) }
{
    if sweeps == 0 {
        return Ok(Settled::Endless);
    }
    let swept = sweep_over(alloc, constraints, equal)?;
    if swept.clashes {
        return Ok(Settled::Unequal);
    }
    if !swept.is_opened {
        return Ok(Settled::Settled(swept.constraints, swept.equal));
    }
    if are_too_many(&swept.equal) {
        return Ok(Settled::Endless);
    }
    settle_within(alloc, sweeps - 1, swept.constraints, swept.equal)
}

fn are_too_many(equal: &Vec<Equality>) -> bool
    ensures { result ≡ nat_lt most_equal (length (all_equalities_of equal.now.items)) }
{
    MOST_EQUAL < equal.len()
}

fn sweep_over<'a>(
    alloc: Global,
    constraints: Vec<Constrained<'a>>,
    equal: Vec<Equality<'a>>,
) -> Result<Sweep<'a>, AllocError>
    ensures { IfOk result (λ made. sweep_of made
        ≡ sweep (begun (all_constrained_of constraints.entry.items))
        (all_equalities_of equal.entry.items)) }
{
    let mut made = Sweep {
        constraints,
        equal: Vec::new(alloc),
        is_opened: false,
        clashes: false,
    };
    for equality in equal {
        add_equality(alloc, equality, &mut made)?;
    }
    Ok(made)
}

fn add_equality<'a>(
    alloc: Global,
    equality: Equality<'a>,
    made: &mut Sweep<'a>,
) -> Result<(), AllocError>
    ensures { OnOk result
        (sweep_of made.new ≡ swept (sweep_of made.old) (equality_of equality.entry)) }
{
    if same_place(&equality.left, &equality.right) {
        return Ok(());
    }
    let left = constraint_at(&made.constraints, &equality.left);
    let right = constraint_at(&made.constraints, &equality.right);
    add_by(alloc, left, right, equality, made)
}

fn add_by<'a>(
    alloc: Global,
    left: Option<Constraint<'a>>,
    right: Option<Constraint<'a>>,
    equality: Equality<'a>,
    made: &mut Sweep<'a>,
) -> Result<(), AllocError>
    ensures { OnOk result (sweep_of made.new
        ≡ swept_by (option_map constraint_of left.entry) (option_map constraint_of right.entry)
        (sweep_of made.old) (equality_of equality.entry)) }
{
    match left {
        None => match right {
            None => {
                made.equal.push(equality)?;
                Ok(())
            }
            Some(constraint) => {
                constrain(alloc, &equality.left, constraint, made)?;
                open_equality(alloc, &equality, constraint, made)
            }
        },
        Some(constraint) => match right {
            None => {
                constrain(alloc, &equality.right, constraint, made)?;
                open_equality(alloc, &equality, constraint, made)
            }
            Some(other) => {
                if same_constraint(&constraint, &other) {
                    open_equality(alloc, &equality, constraint, made)
                } else {
                    made.clashes = true;
                    Ok(())
                }
            }
        },
    }
}

fn constrain<'a>(
    alloc: Global,
    at: &[Step<'a>],
    constraint: Constraint<'a>,
    made: &mut Sweep<'a>,
) -> Result<(), AllocError>
    ensures { OnOk result (sweep_of made.new
        ≡ with_constraint (sweep_of made.old) (place_of at.now)
        (constraint_of constraint.entry)) }
{
    let at = copied(alloc, at)?;
    made.constraints.push(Constrained { at, constraint })?;
    Ok(())
}

/// Puts the equal parts of equal places in their place.
fn open_equality<'a>(
    alloc: Global,
    equality: &Equality<'a>,
    constraint: Constraint<'a>,
    made: &mut Sweep<'a>,
) -> Result<(), AllocError>
    ensures { OnOk result (sweep_of made.new
        ≡ opened (sweep_of made.old) (equality_of equality.now)
        (constraint_of constraint.entry)) }
{
    made.is_opened = true;
    add_parts(alloc, equality, constraint, &mut made.equal)
}

fn add_parts<'a>(
    alloc: Global,
    equality: &Equality<'a>,
    constraint: Constraint<'a>,
    equal: &mut Vec<Equality<'a>>,
) -> Result<(), AllocError>
    ensures { OnOk result (all_equalities_of equal.new.items ≡ all_equalities_of equal.old.items
        ++ equal_parts (equality_of equality.now) (constraint_of constraint.entry)) }
{
    match constraint {
        Constraint::Variant(variant, count) => {
            for index in 0..count {
                add_part(alloc, equality, Step::Field(variant, index), equal)?;
            }
            Ok(())
        }
        Constraint::Present => add_part(alloc, equality, Step::Content, equal),
        Constraint::Bool(_) | Constraint::Int(_) | Constraint::Const(_) => Ok(()),
    }
}

fn add_part<'a>(
    alloc: Global,
    equality: &Equality<'a>,
    step: Step<'a>,
    equal: &mut Vec<Equality<'a>>,
) -> Result<(), AllocError>
    ensures { OnOk result (all_equalities_of equal.new.items ≡ all_equalities_of equal.old.items
        ++ equal_part (equality_of equality.now) (step_of step.entry) ∷ []) }
{
    let left = step_on(alloc, &equality.left, step)?;
    let right = step_on(alloc, &equality.right, step)?;
    equal.push(Equality { left, right })?;
    Ok(())
}
