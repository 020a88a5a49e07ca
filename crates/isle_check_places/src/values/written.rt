//! Values that are written, and what is asked of them.

ghost use Rattle.std.specs.Prelude.{◌≡◌, ◌++◌, ◌∷◌, [], IfOk, OnOk, string_bytes};
ghost use Rattle.isle_check_places.specs.Settling.{constrained};
ghost use Rattle.isle_check_places.specs.Views.{all_constrained_of, constraint_of, place_of};
ghost use Rattle.isle_check_places.specs.values.Shapes.{answer_asks, answer_place};
ghost use Rattle.isle_check_places.specs.values.Views.{answer_of};

use crate::{Constrained, Constraint, Place, Step, copied, step_on};
use std::alloc::{AllocError, Global};

/// The text of a value so far, and what it asks.
#[derive(Drop)]
pub struct Written<'a> {
    pub text: String,
    pub asked: Vec<Constrained<'a>>,
}

/// How an extractor answers.
#[derive(Clone, Copy)]
pub enum Answer {
    /// Its answer must be there.
    MayFail,
    /// It has several answers, of which each is looked at.
    HasSeveral,
    /// Its answer is always there.
    IsThere,
}

/// Adds what is asked of an answer at a place.
pub fn add_answer<'a>(
    alloc: Global,
    answer: Answer,
    at: &[Step<'a>],
    made: &mut Written<'a>,
) -> Result<(), AllocError>
    ensures text { OnOk result (string_bytes made.new.text ≡ string_bytes made.old.text) }
    ensures asked { OnOk result (all_constrained_of made.new.asked.items
        ≡ all_constrained_of made.old.asked.items
        ++ answer_asks (answer_of answer) (place_of at.now)) }
{
    match answer {
        Answer::MayFail => constrain(alloc, at, Constraint::Present, made),
        Answer::HasSeveral | Answer::IsThere => Ok(()),
    }
}

/// Returns where the value is that an answer at a place gives.
pub fn answer_place<'a>(
    alloc: Global,
    answer: Answer,
    at: Place<'a>,
) -> Result<Place<'a>, AllocError>
    ensures { IfOk result (λ made. place_of made.items
        ≡ answer_place (answer_of answer) (place_of at.entry.items)) }
{
    match answer {
        Answer::MayFail => step_on(alloc, &at, Step::Content),
        Answer::HasSeveral => step_on(alloc, &at, Step::Each),
        Answer::IsThere => Ok(at),
    }
}

/// Adds what is asked of the value at a place.
pub fn constrain<'a>(
    alloc: Global,
    at: &[Step<'a>],
    constraint: Constraint<'a>,
    made: &mut Written<'a>,
) -> Result<(), AllocError>
    ensures text { OnOk result (string_bytes made.new.text ≡ string_bytes made.old.text) }
    ensures asked { OnOk result (all_constrained_of made.new.asked.items
        ≡ all_constrained_of made.old.asked.items
        ++ constrained (place_of at.now) (constraint_of constraint.entry) ∷ []) }
{
    let at = copied(alloc, at)?;
    made.asked.push(Constrained { at, constraint })?;
    Ok(())
}
