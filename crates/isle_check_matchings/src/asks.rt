//! What typed patterns ask of the values at places.

ghost use Rattle.std.specs.Prelude.{◌≡◌, ◌++◌, ◌∷◌, [], OnOk};
ghost use Rattle.isle_check_typing.specs.TypedView.{all_typed_of, typed_list_of, typed_of};
ghost use Rattle.isle_check_matchings.specs.Asks.{binds, constrains, equals, list_asks};
ghost use Rattle.isle_check_matchings.specs.Asks.{pattern_asks, term_asks};
ghost use Rattle.isle_check_matchings.specs.Views.{asks_of, terms_of};
ghost use Rattle.isle_check_places.specs.UnderView.{under_of};
ghost use Rattle.isle_check_places.specs.Views.{constraint_of, place_of};

use crate::openings::{Terms, term_opening};
use crate::values::Value;
use isle_check_places::{Constraint, Place, Step, Under, copied, place_under};
use isle_check_typing::TypedPattern;
use std::alloc::{AllocError, Global};

/// What a part of a rule says of the value at a place.
#[derive(Drop)]
pub enum Ask<'a> {
    /// The value is constrained.
    Constrains(Place<'a>, Constraint<'a>),
    /// A variable has this value from here on.
    Binds(usize, Value<'a>),
    /// The value equals that of a variable.
    Equals(usize, Place<'a>),
}

/// Adds a constraint of the value at a place.
pub fn constrain<'a>(
    alloc: Global,
    at: &[Step<'a>],
    constraint: Constraint<'a>,
    asks: &mut Vec<Ask<'a>>,
) -> Result<(), AllocError>
    ensures { OnOk result (asks_of asks.new.items ≡ asks_of asks.old.items
        ++ constrains (place_of at.now) (constraint_of constraint.entry) ∷ []) }
{
    let at = copied(alloc, at)?;
    asks.push(Ask::Constrains(at, constraint))?;
    Ok(())
}

/// Adds that a variable has the value at a place.
fn bind<'a>(
    alloc: Global,
    variable: usize,
    at: &[Step<'a>],
    asks: &mut Vec<Ask<'a>>,
) -> Result<(), AllocError>
    ensures { OnOk result (asks_of asks.new.items ≡ asks_of asks.old.items
        ++ binds variable (place_of at.now) [] ∷ []) }
{
    let at = copied(alloc, at)?;
    let value = Value {
        at,
        needs: Vec::new(alloc),
    };
    asks.push(Ask::Binds(variable, value))?;
    Ok(())
}

/// Adds that the value at a place equals that of a variable.
fn equate<'a>(
    alloc: Global,
    variable: usize,
    at: &[Step<'a>],
    asks: &mut Vec<Ask<'a>>,
) -> Result<(), AllocError>
    ensures { OnOk result (asks_of asks.new.items ≡ asks_of asks.old.items
        ++ equals variable (place_of at.now) ∷ []) }
{
    let at = copied(alloc, at)?;
    asks.push(Ask::Equals(variable, at))?;
    Ok(())
}

/// Adds what a pattern asks of the value at a place.
#[cycle(pattern)]
pub fn add_asks<'a>(
    alloc: Global,
    terms: Terms,
    pattern: &'a TypedPattern,
    at: &[Step<'a>],
    asks: &mut Vec<Ask<'a>>,
) -> Result<(), AllocError>
    ensures { OnOk result (asks_of asks.new.items ≡ asks_of asks.old.items
        ++ pattern_asks (terms_of terms.entry) (typed_of pattern.now) (place_of at.now)) }
{
    match pattern {
        TypedPattern::Bind {
            variable,
            subpat,
            ..
        } => {
            bind(alloc, *variable, at, asks)?;
            add_asks(alloc, terms, subpat, at, asks)
        }
        TypedPattern::Var { variable, .. } => equate(alloc, *variable, at, asks),
        TypedPattern::Bool { val, .. } => constrain(alloc, at, Constraint::Bool(*val), asks),
        TypedPattern::Int { val, .. } => constrain(alloc, at, Constraint::Int(*val), asks),
        TypedPattern::Const { name, .. } => { constrain(alloc, at, Constraint::Const(name), asks) }
        TypedPattern::Term { term, args, .. } => {
            add_term_asks(alloc, terms, term, args, at, asks)
        }
        TypedPattern::Wildcard { .. } => Ok(()),
        TypedPattern::And { subpats, .. } => {
            add_list_asks(alloc, terms, Under::Same, subpats, at, asks)
        }
    }
}

/// Adds what a term and its arguments ask.
#[cycle(pattern)]
fn add_term_asks<'a>(
    alloc: Global,
    terms: Terms,
    term: &'a str,
    args: &'a Vec<TypedPattern>,
    at: &[Step<'a>],
    asks: &mut Vec<Ask<'a>>,
) -> Result<(), AllocError>
    ensures { OnOk result (asks_of asks.new.items ≡ asks_of asks.old.items
        ++ term_asks (terms_of terms.entry) term.now
        (typed_list_of (all_typed_of args.now.items)) (place_of at.now)) }
{
    let opening = term_opening(alloc, terms, term, args.len(), at, asks)?;
    add_list_asks(alloc, terms, opening.under, args, &opening.at, asks)
}

/// Adds what patterns ask, in order, whose values lie so in the value at a place.
#[cycle(pattern)]
pub fn add_list_asks<'a>(
    alloc: Global,
    terms: Terms,
    under: Under<'a>,
    patterns: &'a Vec<TypedPattern>,
    at: &[Step<'a>],
    asks: &mut Vec<Ask<'a>>,
) -> Result<(), AllocError>
    ensures { OnOk result (asks_of asks.new.items ≡ asks_of asks.old.items
        ++ list_asks (terms_of terms.entry) (under_of under.entry) 0
        (typed_list_of (all_typed_of patterns.now.items)) (place_of at.now)) }
{
    for (index, pattern) in patterns.iter().enumerate() {
        let inner = place_under(alloc, under, index, at)?;
        add_asks(alloc, terms, pattern, &inner, asks)?;
    }
    Ok(())
}
