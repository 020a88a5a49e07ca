//! Shapes of values, written as patterns. What they ask is collected on the way.

ghost use Rattle.std.specs.Prelude.{◌≡◌, ◌++◌, ◌∷◌, [], OnOk, string_bytes};
ghost use Rattle.isle_check_places.specs.Under.{same};
ghost use Rattle.isle_check_places.specs.UnderView.{under_of};
ghost use Rattle.isle_check_places.specs.Views.{all_constrained_of, place_of};
ghost use Rattle.isle_check_places.specs.values.Said.{said_extractor};
ghost use Rattle.isle_check_places.specs.values.Shapes.{list_asks, list_text, shape_asks};
ghost use Rattle.isle_check_places.specs.values.Shapes.{shape_text, term_text};
ghost use Rattle.isle_check_places.specs.values.Values.{answer_at, argument_count, joined};
ghost use Rattle.isle_check_places.specs.values.Values.{said_shape};
ghost use Rattle.isle_check_places.specs.values.Values.{said_shapes, shape, shapes_under};
ghost use Rattle.isle_check_places.specs.values.Views.{all_said_of, answer_of, known_of, said_of};

use crate::values::next::goes_on_with_each;
use crate::values::said::{Said, said_at};
use crate::values::written::{Answer, Written, add_answer, answer_place, constrain};
use crate::{Constrained, Constraint, Step, Under, constraint_at, parts_of, place_under, step_on};
use isle_check_environment::signatures::Environment;
use std::alloc::{AllocError, Global};

/// What shapes are made from.
#[derive(Clone, Copy)]
pub struct Known<'e, 'd, 'a> {
    /// The environment of the program.
    pub env: &'e Environment<'d>,
    /// What is asked of the value.
    pub constraints: &'e [Constrained<'a>],
}

/// Returns how many arguments a term has; one that is not known has none.
pub fn argument_count(known: Known, term: &str) -> usize
    ensures { result ≡ argument_count (known_of known.entry) term.now }
{
    match known.env.term(term) {
        Some(declared) => declared.args.len(),
        None => 0,
    }
}

/// Returns how an extractor answers, by what is asked of the place of its answer.
fn answer_at(constraints: &[Constrained], at: &[Step]) -> Answer
    ensures { answer_of result ≡ answer_at (all_constrained_of constraints.now) (place_of at.now) }
{
    if matches!(constraint_at(constraints, at), Some(Constraint::Present)) {
        Answer::MayFail
    } else if goes_on_with_each(constraints, at) {
        Answer::HasSeveral
    } else {
        Answer::IsThere
    }
}

/// Writes the shape of the value at a place, to this depth.
#[cycle(shape)]
fn put_shape<'a>(
    alloc: Global,
    known: Known<'_, '_, 'a>,
    depth: usize,
    at: &[Step<'a>],
    made: &mut Written<'a>,
) -> Result<(), AllocError>
    ensures text { OnOk result (string_bytes made.new.text ≡ string_bytes made.old.text
        ++ shape_text (shape (known_of known.entry) depth (place_of at.now))) }
    ensures asked { OnOk result (all_constrained_of made.new.asked.items
        ≡ all_constrained_of made.old.asked.items
        ++ shape_asks (shape (known_of known.entry) depth (place_of at.now)) (place_of at.now)) }
{
    if depth == 0 {
        return made.text.push_str("_");
    }
    let said = said_at(alloc, known.constraints, at)?;
    put_joined(alloc, known, depth - 1, &said, at, made)
}

/// Writes all that is said of the value at a place.
#[cycle(shape)]
fn put_joined<'a>(
    alloc: Global,
    known: Known<'_, '_, 'a>,
    depth: usize,
    said: &[Said<'a>],
    at: &[Step<'a>],
    made: &mut Written<'a>,
) -> Result<(), AllocError>
    ensures text { OnOk result (string_bytes made.new.text ≡ string_bytes made.old.text
        ++ shape_text (joined (said_shapes (known_of known.entry)
        (λ p. shape (known_of known.entry) depth p) (place_of at.now) (all_said_of said.now)))) }
    ensures asked { OnOk result (all_constrained_of made.new.asked.items
        ≡ all_constrained_of made.old.asked.items
        ++ shape_asks (joined (said_shapes (known_of known.entry)
        (λ p. shape (known_of known.entry) depth p) (place_of at.now) (all_said_of said.now)))
        (place_of at.now)) }
{
    match said.len() {
        0 => made.text.push_str("_"),
        1 => put_said(alloc, known, depth, said[0], at, made),
        _ => {
            made.text.push_str("(and")?;
            put_each(alloc, known, depth, said, at, made)?;
            made.text.push_str(")")
        }
    }
}

/// Writes each of what is said of the value at a place, behind a space.
#[cycle(shape)]
fn put_each<'a>(
    alloc: Global,
    known: Known<'_, '_, 'a>,
    depth: usize,
    said: &[Said<'a>],
    at: &[Step<'a>],
    made: &mut Written<'a>,
) -> Result<(), AllocError>
    ensures text { OnOk result (string_bytes made.new.text ≡ string_bytes made.old.text
        ++ list_text (said_shapes (known_of known.entry)
        (λ p. shape (known_of known.entry) depth p) (place_of at.now) (all_said_of said.now))) }
    ensures asked { OnOk result (all_constrained_of made.new.asked.items
        ≡ all_constrained_of made.old.asked.items
        ++ list_asks same 0 (said_shapes (known_of known.entry)
        (λ p. shape (known_of known.entry) depth p) (place_of at.now) (all_said_of said.now))
        (place_of at.now)) }
{
    for one in said {
        made.text.push_str(" ")?;
        put_said(alloc, known, depth, *one, at, made)?;
    }
    Ok(())
}

/// Writes one of what is said of the value at a place.
#[cycle(shape)]
fn put_said<'a>(
    alloc: Global,
    known: Known<'_, '_, 'a>,
    depth: usize,
    said: Said<'a>,
    at: &[Step<'a>],
    made: &mut Written<'a>,
) -> Result<(), AllocError>
    ensures text { OnOk result (string_bytes made.new.text ≡ string_bytes made.old.text
        ++ shape_text (said_shape (known_of known.entry)
        (λ p. shape (known_of known.entry) depth p) (place_of at.now) (said_of said.entry))) }
    ensures asked { OnOk result (all_constrained_of made.new.asked.items
        ≡ all_constrained_of made.old.asked.items
        ++ shape_asks (said_shape (known_of known.entry)
        (λ p. shape (known_of known.entry) depth p) (place_of at.now) (said_of said.entry))
        (place_of at.now)) }
{
    match said {
        Said::Variant(variant, count) => {
            constrain(alloc, at, Constraint::Variant(variant, count), made)?;
            put_term(
                alloc,
                known,
                depth,
                variant,
                Under::Fields(variant),
                count,
                at,
                made,
            )
        }
        Said::Bool(val) => {
            write!(made.text, "{val}")?;
            constrain(alloc, at, Constraint::Bool(val), made)
        }
        Said::Int(val) => {
            write!(made.text, "{val}")?;
            constrain(alloc, at, Constraint::Int(val), made)
        }
        Said::Const(name) => {
            made.text.push_str("$")?;
            made.text.push_str(name)?;
            constrain(alloc, at, Constraint::Const(name), made)
        }
        Said::Extractor(term) => put_extractor(alloc, known, depth, term, at, made),
    }
}

/// Writes an extractor that the value at a place is given to.
#[cycle(shape)]
fn put_extractor<'a>(
    alloc: Global,
    known: Known<'_, '_, 'a>,
    depth: usize,
    term: &'a str,
    at: &[Step<'a>],
    made: &mut Written<'a>,
) -> Result<(), AllocError>
    ensures text { OnOk result (string_bytes made.new.text ≡ string_bytes made.old.text
        ++ shape_text (said_shape (known_of known.entry)
        (λ p. shape (known_of known.entry) depth p) (place_of at.now)
        (said_extractor term.now))) }
    ensures asked { OnOk result (all_constrained_of made.new.asked.items
        ≡ all_constrained_of made.old.asked.items
        ++ shape_asks (said_shape (known_of known.entry)
        (λ p. shape (known_of known.entry) depth p) (place_of at.now)
        (said_extractor term.now)) (place_of at.now)) }
{
    let count = argument_count(known, term);
    let at = step_on(alloc, at, Step::Extracted(term))?;
    let answer = answer_at(known.constraints, &at);
    add_answer(alloc, answer, &at, made)?;
    let at = answer_place(alloc, answer, at)?;
    put_term(alloc, known, depth, term, parts_of(count), count, &at, made)
}

/// Writes a term and the shapes of so many values under a place.
#[cycle(shape)]
pub fn put_term<'a>(
    alloc: Global,
    known: Known<'_, '_, 'a>,
    depth: usize,
    term: &str,
    under: Under<'a>,
    count: usize,
    at: &[Step<'a>],
    made: &mut Written<'a>,
) -> Result<(), AllocError>
    ensures text { OnOk result (string_bytes made.new.text ≡ string_bytes made.old.text
        ++ term_text term.now (shapes_under (λ p. shape (known_of known.entry) depth p)
        (under_of under.entry) 0 count (place_of at.now))) }
    ensures asked { OnOk result (all_constrained_of made.new.asked.items
        ≡ all_constrained_of made.old.asked.items
        ++ list_asks (under_of under.entry) 0
        (shapes_under (λ p. shape (known_of known.entry) depth p)
        (under_of under.entry) 0 count (place_of at.now)) (place_of at.now)) }
{
    made.text.push_str("(")?;
    made.text.push_str(term)?;
    put_under(alloc, known, depth, under, count, at, made)?;
    made.text.push_str(")")
}

/// Writes the shapes of so many values under a place, each behind a space.
#[cycle(shape)]
fn put_under<'a>(
    alloc: Global,
    known: Known<'_, '_, 'a>,
    depth: usize,
    under: Under<'a>,
    count: usize,
    at: &[Step<'a>],
    made: &mut Written<'a>,
) -> Result<(), AllocError>
    ensures text { OnOk result (string_bytes made.new.text ≡ string_bytes made.old.text
        ++ list_text (shapes_under (λ p. shape (known_of known.entry) depth p)
        (under_of under.entry) 0 count (place_of at.now))) }
    ensures asked { OnOk result (all_constrained_of made.new.asked.items
        ≡ all_constrained_of made.old.asked.items
        ++ list_asks (under_of under.entry) 0
        (shapes_under (λ p. shape (known_of known.entry) depth p)
        (under_of under.entry) 0 count (place_of at.now)) (place_of at.now)) }
{
    for index in 0..count {
        made.text.push_str(" ")?;
        let inner = place_under(alloc, under, index, at)?;
        put_shape(alloc, known, depth, &inner, made)?;
    }
    Ok(())
}
