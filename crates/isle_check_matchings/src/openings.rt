//! What terms in patterns ask by themselves, and where the values of their arguments are.

ghost use Rattle.std.specs.Prelude.{◌≡◌, ◌++◌, IfOk, OnOk};
ghost use Rattle.isle_check_matchings.specs.Asks.{answer, term_opening};
ghost use Rattle.isle_check_matchings.specs.Views.{asks_of, terms_of};
ghost use Rattle.isle_check_places.specs.UnderView.{under_of};
ghost use Rattle.isle_check_places.specs.Views.{place_of};

use crate::asks::{Ask, constrain};
use isle_check_environment::names::{Names, has};
use isle_check_environment::signatures::{Environment, Term};
use isle_check_places::{Constraint, Place, Step, Under, copied, parts_of, step_on};
use std::alloc::{AllocError, Global};

/// The terms of a program.
#[derive(Clone, Copy)]
pub struct Terms<'e, 'a> {
    /// The environment of the program.
    pub env: &'e Environment<'a>,
    /// The terms whose external extractor always matches.
    pub infallible: &'e Names,
}

/// Where the values of a term's arguments are.
#[derive(Drop)]
pub struct Opening<'a> {
    pub at: Place<'a>,
    pub under: Under<'a>,
}

/// Adds what a term with so many patterns asks by itself of the value at a place.
pub fn term_opening<'a>(
    alloc: Global,
    terms: Terms,
    term: &'a str,
    count: usize,
    at: &[Step<'a>],
    asks: &mut Vec<Ask<'a>>,
) -> Result<Opening<'a>, AllocError>
    ensures asked { OnOk result (asks_of asks.new.items ≡ asks_of asks.old.items
        ++ (term_opening (terms_of terms.entry) term.now count (place_of at.now)).asked) }
    ensures at { IfOk result (λ made. place_of made.at.items
        ≡ (term_opening (terms_of terms.entry) term.now count (place_of at.now)).at) }
    ensures under { IfOk result (λ made. under_of made.under
        ≡ (term_opening (terms_of terms.entry) term.now count (place_of at.now)).under) }
{
    let Some(known) = terms.env.term(term) else {
        let at = copied(alloc, at)?;
        return Ok(Opening {
            at,
            under: Under::Same,
        });
    };
    if known.is_variant {
        constrain(alloc, at, Constraint::Variant(term, known.args.len()), asks)?;
        let at = copied(alloc, at)?;
        return Ok(Opening {
            at,
            under: Under::Fields(term),
        });
    }
    let at = step_on(alloc, at, Step::Extracted(term))?;
    let at = answer(alloc, terms, known.multi, term, at, asks)?;
    Ok(Opening {
        at,
        under: parts_of(count),
    })
}

/// Adds what is asked of an extractor's answer, and returns the place of what it holds.
fn answer<'a>(
    alloc: Global,
    terms: Terms,
    multi: bool,
    term: &str,
    at: Place<'a>,
    asks: &mut Vec<Ask<'a>>,
) -> Result<Place<'a>, AllocError>
    ensures asked { OnOk result (asks_of asks.new.items ≡ asks_of asks.old.items
        ++ (answer (terms_of terms.entry) multi term.now (place_of at.entry.items)).asked) }
    ensures at { IfOk result (λ made. place_of made.items
        ≡ (answer (terms_of terms.entry) multi term.now (place_of at.entry.items)).at) }
{
    if multi {
        return step_on(alloc, &at, Step::Each);
    }
    if has(terms.infallible, term) {
        return Ok(at);
    }
    constrain(alloc, &at, Constraint::Present, asks)?;
    step_on(alloc, &at, Step::Content)
}
