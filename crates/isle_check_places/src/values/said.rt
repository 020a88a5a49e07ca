//! What constraints say of the value at a place by itself.

ghost use Rattle.std.specs.Prelude.{◌≡◌, ◌++◌, IfOk, OnOk, map, not, option_map};
ghost use Rattle.std.specs.List.{filter, list_any};
ghost use Rattle.std.specs.Str.{bytes_eq};
ghost use Rattle.isle_check_places.specs.Views.{all_constrained_of, constraint_of, place_of};
ghost use Rattle.isle_check_places.specs.Views.{step_of};
ghost use Rattle.isle_check_places.specs.values.Said.{distinct, extractor_by, extractors_from};
ghost use Rattle.isle_check_places.specs.values.Said.{said_at, said_by, said_extractor};
ghost use Rattle.isle_check_places.specs.values.Views.{all_said_of, texts_of};

use crate::values::next::next_step;
use crate::{Constrained, Constraint, Step, constraint_at};
use std::alloc::{AllocError, Global};

/// What is said of a value: that it is of a variant, with so many fields, or a literal; or the
/// extractor that it is given to.
#[derive(Clone, Copy)]
pub enum Said<'a> {
    Variant(&'a str, usize),
    Bool(bool),
    Int(i128),
    Const(&'a str),
    Extractor(&'a str),
}

/// Returns what constraints say of the value at a place.
pub fn said_at<'a>(
    alloc: Global,
    constraints: &[Constrained<'a>],
    at: &[Step],
) -> Result<Vec<Said<'a>>, AllocError>
    ensures { IfOk result (λ made. all_said_of made.items
        ≡ said_at (all_constrained_of constraints.now) (place_of at.now)) }
{
    let mut made = said_by(alloc, constraint_at(constraints, at))?;
    let extractors = extractors_from(alloc, constraints, at)?;
    add_said(&extractors, &mut made)?;
    Ok(made)
}

fn add_said<'a>(extractors: &[&'a str], made: &mut Vec<Said<'a>>) -> Result<(), AllocError>
    ensures { OnOk result (all_said_of made.new.items ≡ all_said_of made.old.items
        ++ map said_extractor (texts_of extractors.now)) }
{
    for term in extractors {
        made.push(Said::Extractor(*term))?;
    }
    Ok(())
}

fn said_by<'a>(
    alloc: Global,
    constraint: Option<Constraint<'a>>,
) -> Result<Vec<Said<'a>>, AllocError>
    ensures { IfOk result (λ made. all_said_of made.items
        ≡ said_by (option_map constraint_of constraint.entry)) }
{
    let mut made = Vec::new(alloc);
    match constraint {
        Some(Constraint::Variant(variant, count)) => made.push(Said::Variant(variant, count))?,
        Some(Constraint::Bool(val)) => made.push(Said::Bool(val))?,
        Some(Constraint::Int(val)) => made.push(Said::Int(val))?,
        Some(Constraint::Const(name)) => made.push(Said::Const(name))?,
        None | Some(Constraint::Present) => {}
    }
    Ok(made)
}

/// Returns the extractors by which places go on from this one, each once.
fn extractors_from<'a>(
    alloc: Global,
    constraints: &[Constrained<'a>],
    at: &[Step],
) -> Result<Vec<&'a str>, AllocError>
    ensures { IfOk result (λ made. texts_of made.items
        ≡ distinct (extractors_from (all_constrained_of constraints.now) (place_of at.now))) }
{
    let mut made = Vec::new(alloc);
    for constrained in constraints {
        add_extractor(next_step(at, &constrained.at), &mut made)?;
    }
    Ok(made)
}

fn add_extractor<'a>(step: Option<Step<'a>>, made: &mut Vec<&'a str>) -> Result<(), AllocError>
    ensures { OnOk result (texts_of made.new.items ≡ texts_of made.old.items
        ++ filter (λ text. not (list_any (bytes_eq text) (texts_of made.old.items)))
        (extractor_by (option_map step_of step.entry))) }
{
    if let Some(Step::Extracted(term)) = step {
        if !has_text(made, term) {
            made.push(term)?;
        }
    }
    Ok(())
}

fn has_text(texts: &[&str], text: &str) -> bool
    ensures { result ≡ list_any (bytes_eq text.now) (texts_of texts.now) }
{
    for other in texts {
        if text == *other {
            return true;
        }
    }
    false
}
