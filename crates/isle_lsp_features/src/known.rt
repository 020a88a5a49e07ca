//! The texts whose known definitions an index has.

ghost use Rattle.std.specs.Prelude.{◌≡◌, ◌≤◌, ◌+◌, ◌++◌, ◌∷◌, IfOk, OnOk, Some, drop, length, map};
ghost use Rattle.std.specs.Prelude.{take, true};
ghost use Rattle.std.specs.List.{slice_get};
ghost use Rattle.isle_lsp_features.specs.Gathered.{bytes_in, events_in, kept_of, refused_in};

use std::alloc::AllocError;

/// A text whose known definitions an index has.
#[derive(Drop)]
pub struct Known {
    /// The text.
    pub text: String,
    /// The number of events of its known definitions.
    pub events: usize,
    /// Whether it does not parse, or nests too deeply.
    pub is_refused: bool,
}

/// Returns whether this is the text at a place of a list.
pub fn is_text(texts: &[Known], place: usize, text: &str) -> bool
    ensures { result ≡ true → slice_get (bytes_in (map kept_of texts.now)) place ≡ Some text.now }
{
    match texts.get(place) {
        Some(known) => known.text.as_str() == text,
        None => false,
    }
}

/// The number of events of the texts before a place. One past `usize::MAX` counts as out of memory.
pub fn events_before(texts: &[Known], place: usize) -> Result<usize, AllocError>
    ensures { IfOk result (λ events. events ≡ events_in (take place (map kept_of texts.now))) }
{
    match texts.split_at_checked(place) {
        Some((before, _)) => events_in(before),
        None => events_in(texts),
    }
}

/// The number of events of texts.
fn events_in(texts: &[Known]) -> Result<usize, AllocError>
    ensures { IfOk result (λ events. events ≡ events_in (map kept_of texts.now)) }
{
    let mut events: usize = 0;
    for known in texts {
        events = events.checked_add(known.events).ok_or(AllocError)?;
    }
    Ok(events)
}

/// The number of texts that do not parse, or nest too deeply.
pub fn refused_in(texts: &[Known]) -> usize
    ensures { result ≡ refused_in (map kept_of texts.now) }
{
    let mut refused = 0;
    for known in texts {
        if known.is_refused {
            refused += 1;
        }
    }
    refused
}

/// Puts a text at a place, instead of the one that is there, or at the end.
pub fn put(texts: &mut Vec<Known>, place: usize, known: Known) -> Result<(), AllocError>
    requires { place ≤ length texts.old.items }
    ensures { OnOk result (texts.new.items
        ≡ take place texts.old.items ++ known ∷ drop (place + 1) texts.old.items) }
{
    if place < texts.len() {
        texts[place] = known;
    } else {
        texts.push(known)?;
    }
    Ok(())
}
