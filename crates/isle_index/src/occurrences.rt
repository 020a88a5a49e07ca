//! Where names occur in the source.

ghost use Rattle.std.specs.Prelude.{◌≡◌, IfOk, option_map};
ghost use Rattle.isle_index.specs.Entries.{all_of, unpacked};
ghost use Rattle.isle_resolve.specs.Names.{named_of};
ghost use Rattle.isle_index.specs.Occurrences.{covers, definitions, is_covered, occurrence};
ghost use Rattle.isle_index.specs.Occurrences.{occurrences, place, seen_at, written_len};
ghost use Rattle.isle_resolve.specs.Scopes.{seen_of};
ghost use Rattle.isle_resolve.specs.EventView.{word_of};

use crate::entries::{Entries, Entry};
use isle_base::lexer::Pos;
use isle_resolve::event::{Event, Kind, Word};
use isle_resolve::names::{Name, is_number};
use isle_resolve::scopes::Seen;
use std::alloc::{AllocError, Global};

/// A name as it occurs in the source. Occurrences are ordered by position.
#[derive(Clone, Copy, PartialEq, Eq, PartialOrd, Ord)]
pub struct Occurrence {
    /// The position of its first byte, which for a constant is the `$`.
    pub pos: Pos,
    /// Its length in bytes. The `$` of a constant counts, and a variant's definition has only its
    /// own name, without the type.
    pub len: usize,
    /// Whether the name is defined here, or the variable bound here.
    pub is_definition: bool,
}

/// The occurrences of a name, in the order of the events.
pub fn occurrences(
    alloc: Global,
    entries: &Entries,
    name: &Name,
) -> Result<Vec<Occurrence>, AllocError>
    ensures { IfOk result
        (λ found. found.items ≡ occurrences (named_of name.now) (all_of entries.now)) }
{
    let mut found = Vec::new(alloc);
    for (number, entry) in entries.items.iter().enumerate() {
        if entries.is_of(name, number, entry) {
            if let Some(occurrence) = occurrence_in(&entries.unpack(number, entry)) {
                found.push(occurrence)?;
            }
        }
    }
    Ok(found)
}

/// The occurrences that define a name, in the order of the events.
pub fn definitions(
    alloc: Global,
    entries: &Entries,
    name: &Name,
) -> Result<Vec<Occurrence>, AllocError>
    ensures { IfOk result
        (λ found. found.items ≡ definitions (named_of name.now) (all_of entries.now)) }
{
    let all = occurrences(alloc, entries, name)?;
    let mut found = Vec::new(alloc);
    for occurrence in &all {
        if occurrence.is_definition {
            found.push(*occurrence)?;
        }
    }
    Ok(found)
}

/// The occurrence of an event's name, if it has one.
pub fn occurrence_in(seen: &Seen) -> Option<Occurrence>
    ensures { result ≡ occurrence (seen_of seen.now) }
{
    let own = is_number(seen.number, seen.binder);
    match &seen.event {
        Event::Defines(kind, word) => place(word, written_len(*kind, word), true),
        Event::Uses(kind, word) => place(word, written_len(*kind, word), false),
        Event::DefinesVariant { member, .. } => place(member, member.text.len(), true),
        Event::Occurs(_, word) | Event::Binds(word) | Event::Reads(word) => {
            place(word, word.text.len(), own)
        }
        Event::Closes | Event::Ends => None,
    }
}

/// The length of a name in the source, in bytes.
pub fn written_len(kind: Kind, word: &Word) -> usize
    ensures { result ≡ written_len kind (word_of word.now) }
{
    match kind {
        Kind::Term | Kind::Type => word.text.len(),
        Kind::Constant => word.text.len() + 1,
    }
}

fn place(word: &Word, len: usize, is_definition: bool) -> Option<Occurrence>
    ensures { result ≡ place (word_of word.now) len is_definition }
{
    Some(Occurrence {
        pos: word.pos,
        len,
        is_definition,
    })
}

/// The first event whose name covers `place`.
pub fn event_at<'a>(entries: &Entries<'a>, place: Pos) -> Option<Seen<'a>>
    ensures { option_map seen_of result ≡ seen_at place (all_of entries.now) }
{
    for (number, entry) in entries.items.iter().enumerate() {
        if is_at(entries, number, entry, place) {
            return Some(entries.unpack(number, entry));
        }
    }
    None
}

/// Returns whether the name of the event of `entry`, whose number is `number`, covers `place`. Only
/// an event of the same file is unpacked.
fn is_at(entries: &Entries, number: usize, entry: &Entry, place: Pos) -> bool
    ensures { result
        ≡ is_covered place (occurrence (unpacked entries.now.texts.now number entry.now)) }
{
    match entry {
        Entry::Defines(_, spot)
        | Entry::Uses(_, spot)
        | Entry::DefinesVariant { member: spot, .. }
        | Entry::Occurs(_, spot, _)
        | Entry::Binds(spot)
        | Entry::Reads(spot, _) => {
            spot.file as usize == place.file
                && is_covered(place, occurrence_in(&entries.unpack(number, entry)))
        }
        Entry::Closes | Entry::Ends => false,
    }
}

fn is_covered(place: Pos, occurrence: Option<Occurrence>) -> bool
    ensures { result ≡ is_covered place occurrence }
{
    match occurrence {
        Some(occurrence) => covers(place, &occurrence),
        None => false,
    }
}

/// Returns whether `place` is at a byte of the occurrence or right after its last one.
fn covers(place: Pos, occurrence: &Occurrence) -> bool
    ensures { result ≡ covers place occurrence.now }
{
    occurrence.pos.file == place.file
        && occurrence.pos.offset <= place.offset
        && place.offset - occurrence.pos.offset <= occurrence.len
}
