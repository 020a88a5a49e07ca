//! Places, and constraints of the values there.

ghost use Rattle.std.specs.Prelude.{◌≡◌, ◌∷◌, [], IfOk};
ghost use Rattle.isle_check_places.specs.Places.{same_constraint, same_place, same_step, step_on};
ghost use Rattle.isle_check_places.specs.Views.{constraint_of, place_of, step_of};

use std::alloc::{AllocError, Global};

/// The name of a value that the rules of a term look at: the steps that lead to it. Two places are
/// the same if their steps are.
pub type Place<'a> = Vec<Step<'a>>;

/// A step of a place. `Computed` stands behind the places of its arguments; the others stand behind
/// one place or begin it.
#[derive(Clone, Copy)]
pub enum Step<'a> {
    /// An argument of the rule's term.
    Argument(usize),
    /// A field of a variant.
    Field(&'a str, usize),
    /// What an answer holds that is there.
    Content,
    /// A part of the answer of an extractor of several patterns.
    Part(usize),
    /// Each answer of a multi term.
    Each,
    /// What an external extractor gives.
    Extracted(&'a str),
    /// What a term gives for so many arguments.
    Computed(&'a str, usize),
    /// `true` or `false`, with its type.
    Bool(bool, &'a str),
    /// An integer, with its type.
    Int(i128, &'a str),
    /// A constant.
    Const(&'a str),
}

/// What the value at a place must be.
#[derive(Clone, Copy)]
pub enum Constraint<'a> {
    /// A value of a variant that has so many fields.
    Variant(&'a str, usize),
    /// `true` or `false`.
    Bool(bool),
    /// An integer.
    Int(i128),
    /// A constant.
    Const(&'a str),
    /// An answer that is there.
    Present,
}

/// A place with a constraint of its value.
#[derive(Drop)]
pub struct Constrained<'a> {
    /// The place.
    pub at: Place<'a>,
    /// What its value must be.
    pub constraint: Constraint<'a>,
}

/// Returns whether two places are the same. Most that differ do so in length.
#[tactic(auto, using(crate::proofs::PlaceLemmas::other_lengths))]
pub fn same_place(a: &[Step], b: &[Step]) -> bool
    ensures { result ≡ same_place (place_of a.now) (place_of b.now) }
{
    a.len() == b.len() && same_steps(a, b)
}

/// Returns whether two places have the same steps. Most that differ do so at their ends, so it
/// begins there.
fn same_steps(a: &[Step], b: &[Step]) -> bool
    ensures { result ≡ same_place (place_of a.now) (place_of b.now) }
{
    match a.split_last() {
        None => b.is_empty(),
        Some((step, more)) => match b.split_last() {
            None => false,
            Some((other, others)) => same_step(step, other) && same_steps(more, others),
        },
    }
}

fn same_step(a: &Step, b: &Step) -> bool
    ensures { result ≡ same_step (step_of a.now) (step_of b.now) }
{
    match a {
        Step::Argument(i) => matches!(b, Step::Argument(j) if i == j),
        Step::Field(variant, i) => {
            matches!(b, Step::Field(other, j) if i == j && variant == other)
        }
        Step::Content => matches!(b, Step::Content),
        Step::Part(i) => matches!(b, Step::Part(j) if i == j),
        Step::Each => matches!(b, Step::Each),
        Step::Extracted(term) => matches!(b, Step::Extracted(other) if term == other),
        Step::Computed(term, count) => {
            matches!(b, Step::Computed(other, n) if count == n && term == other)
        }
        Step::Bool(val, ty) => {
            matches!(b, Step::Bool(other, wanted) if val == other && ty == wanted)
        }
        Step::Int(val, ty) => {
            matches!(b, Step::Int(other, wanted) if val == other && ty == wanted)
        }
        Step::Const(name) => matches!(b, Step::Const(other) if name == other),
    }
}

/// Returns whether two constraints are the same.
pub fn same_constraint(a: &Constraint, b: &Constraint) -> bool
    ensures { result ≡ same_constraint (constraint_of a.now) (constraint_of b.now) }
{
    match a {
        Constraint::Variant(variant, count) => {
            matches!(b, Constraint::Variant(other, n) if count == n && variant == other)
        }
        Constraint::Bool(val) => matches!(b, Constraint::Bool(other) if val == other),
        Constraint::Int(val) => matches!(b, Constraint::Int(other) if val == other),
        Constraint::Const(name) => matches!(b, Constraint::Const(other) if name == other),
        Constraint::Present => matches!(b, Constraint::Present),
    }
}

/// Returns a copy of a place.
pub fn copied<'a>(alloc: Global, at: &[Step<'a>]) -> Result<Place<'a>, AllocError>
    ensures { IfOk result (λ made. place_of made.items ≡ place_of at.now) }
{
    let mut made = Vec::with_capacity(alloc, at.len())?;
    made.extend_from_slice(at)?;
    Ok(made)
}

/// Returns the place one step on.
pub fn step_on<'a>(alloc: Global, at: &[Step<'a>], step: Step<'a>) -> Result<Place<'a>, AllocError>
    ensures { IfOk result (λ made. place_of made.items
        ≡ step_on (place_of at.now) (step_of step.entry)) }
{
    let mut made = Vec::with_capacity(alloc, at.len() + 1)?;
    made.extend_from_slice(at)?;
    made.push(step)?;
    Ok(made)
}

/// Returns the place of one step.
pub fn begin<'a>(alloc: Global, step: Step<'a>) -> Result<Place<'a>, AllocError>
    ensures { IfOk result (λ made. place_of made.items ≡ step_of step.entry ∷ []) }
{
    let mut made = Vec::with_capacity(alloc, 1)?;
    made.push(step)?;
    Ok(made)
}
