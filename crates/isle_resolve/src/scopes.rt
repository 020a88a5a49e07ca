//! Scopes: which event binds the variable of an event.

ghost use Rattle.std.specs.Prelude.{◌≡◌, OnOk};
ghost use Rattle.isle_resolve.specs.Scopes.{after, binder, bound_more, bounds_of, last_bound};
ghost use Rattle.isle_resolve.specs.EventView.{event_of, word_of};

use crate::event::{Event, Word};
use std::alloc::AllocError;

/// A variable that is bound.
#[derive(Clone, Copy)]
pub struct Bound<'a> {
    pub text: &'a str,
    /// The number of the event that binds it.
    pub number: usize,
}

/// An event among those of a program.
#[derive(Clone, Copy)]
pub struct Seen<'a> {
    pub event: Event<'a>,
    /// Its place among them, from 0.
    pub number: usize,
    /// The number of the event that binds its variable, if it has a bound variable.
    pub binder: Option<usize>,
}

/// The number of the event that binds the variable of an event, if it has a bound variable.
pub fn binder(event: &Event, number: usize, bound: &[Bound]) -> Option<usize>
    ensures { result ≡ binder (event_of event.now) number (bounds_of bound.now) }
{
    match event {
        Event::Occurs(_, word) => Some(last_binder(bound, word.text).unwrap_or(number)),
        Event::Binds(_) => Some(number),
        Event::Reads(word) => last_binder(bound, word.text),
        Event::Defines(..)
        | Event::Uses(..)
        | Event::DefinesVariant { .. }
        | Event::Closes
        | Event::Ends => None,
    }
}

/// The number of the event that binds the last of the variables of this name.
pub fn last_binder(bound: &[Bound], text: &str) -> Option<usize>
    ensures { result ≡ last_bound (bounds_of bound.now) text.now }
{
    let mut last = None;
    for variable in bound {
        if variable.text == text {
            last = Some(variable.number);
        }
    }
    last
}

/// Updates the bound variables: adds the one that an event binds, and drops those whose scope it
/// ends.
pub fn bind<'a>(
    event: &Event<'a>,
    number: usize,
    bound: &mut Vec<Bound<'a>>,
) -> Result<(), AllocError>
    ensures { OnOk result (bounds_of bound.new.items
        ≡ after (event_of event.now) number (bounds_of bound.old.items)) }
{
    match event {
        Event::Occurs(_, word) => {
            if last_binder(bound, word.text).is_none() {
                bind_word(word, number, bound)?;
            }
        }
        Event::Binds(word) => bind_word(word, number, bound)?,
        Event::Closes => {
            bound.pop();
        }
        Event::Ends => bound.clear(),
        Event::Defines(..) | Event::Uses(..) | Event::DefinesVariant { .. } | Event::Reads(_) => {}
    }
    Ok(())
}

fn bind_word<'a>(
    word: &Word<'a>,
    number: usize,
    bound: &mut Vec<Bound<'a>>,
) -> Result<(), AllocError>
    ensures { OnOk result (bounds_of bound.new.items
        ≡ bound_more (bounds_of bound.old.items) (word_of word.now) number) }
{
    bound.push(Bound {
        text: word.text,
        number,
    })?;
    Ok(())
}
