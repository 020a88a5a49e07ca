//! The value that two rules match.

ghost use Rattle.std.specs.Prelude.{◌≡◌, ◌++◌, IfOk, OnOk};
ghost use Rattle.isle_check_places.specs.Views.{all_constrained_of};
ghost use Rattle.isle_check_environment.specs.signatures.Views.{environment_of};
ghost use Rattle.isle_check_places.specs.values.Values.{known_value, longest, value};
ghost use Rattle.isle_check_places.specs.values.Views.{known_of, value_of};

use crate::values::shapes::{Known, argument_count, put_term};
use crate::values::written::Written;
use crate::{Constrained, Under, copied, within};
use isle_check_environment::signatures::Environment;
use std::alloc::{AllocError, Global};

/// A value, written as a pattern.
#[derive(Drop)]
pub struct Value {
    /// The pattern, such as `(f (T.A) _)`.
    pub text: String,
    /// Whether each value that matches the pattern satisfies all constraints of both rules.
    pub is_sure: bool,
}

/// Returns the value that two rules of a term match, by the constraints of both. It is not sure if
/// two of these differ at one place, or if one is of a computed value. Equal places are not looked
/// at: a rule with some that are not constrained may match fewer values. An `Err` means out of
/// memory.
pub fn value_of_both(
    alloc: Global,
    env: &Environment,
    term: &str,
    first: &[Constrained],
    second: &[Constrained],
) -> Result<Value, AllocError>
    ensures { IfOk result (λ made. value_of made ≡ value (environment_of env.now).terms term.now
        (all_constrained_of first.now) (all_constrained_of second.now)) }
{
    let constraints = joined(alloc, first, second)?;
    let known = Known {
        env,
        constraints: &constraints,
    };
    known_value(alloc, known, term)
}

fn known_value(alloc: Global, known: Known, term: &str) -> Result<Value, AllocError>
    ensures { IfOk result
        (λ made. value_of made ≡ known_value (known_of known.entry) term.now) }
{
    let mut made = Written {
        text: String::new(alloc),
        asked: Vec::new(alloc),
    };
    let depth = longest(known.constraints);
    let count = argument_count(known, term);
    put_term(
        alloc,
        known,
        depth,
        term,
        Under::Arguments,
        count,
        &[],
        &mut made,
    )?;
    let is_sure = within(known.constraints, &made.asked);
    Ok(Value {
        text: made.text,
        is_sure,
    })
}

/// Returns copies of the constraints of both.
fn joined<'a>(
    alloc: Global,
    first: &[Constrained<'a>],
    second: &[Constrained<'a>],
) -> Result<Vec<Constrained<'a>>, AllocError>
    ensures { IfOk result (λ made. all_constrained_of made.items
        ≡ all_constrained_of first.now ++ all_constrained_of second.now) }
{
    let mut made = Vec::new(alloc);
    add_copies(alloc, first, &mut made)?;
    add_copies(alloc, second, &mut made)?;
    Ok(made)
}

fn add_copies<'a>(
    alloc: Global,
    constraints: &[Constrained<'a>],
    made: &mut Vec<Constrained<'a>>,
) -> Result<(), AllocError>
    ensures { OnOk result (all_constrained_of made.new.items
        ≡ all_constrained_of made.old.items ++ all_constrained_of constraints.now) }
{
    for constrained in constraints {
        let at = copied(alloc, &constrained.at)?;
        made.push(Constrained {
            at,
            constraint: constrained.constraint,
        })?;
    }
    Ok(())
}

/// Returns the length of the longest place.
fn longest(constraints: &[Constrained]) -> usize
    ensures { result ≡ longest (all_constrained_of constraints.now) }
{
    let mut most = 0;
    for constrained in constraints {
        most = most.max(constrained.at.len());
    }
    most
}
