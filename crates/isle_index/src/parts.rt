//! The part of a name that a renaming changes: all of it, or of a variant's name, `TYPE.VARIANT`,
//! what is behind the dot.

ghost use Rattle.std.specs.Prelude.{◌≡◌, IfOk, length, option_map};
ghost use Rattle.std.specs.List.{list_any};
ghost use Rattle.isle_index.specs.Entries.{all_of, event_in};
ghost use Rattle.isle_index.specs.Renamed.{front, same_place};
ghost use Rattle.isle_index.specs.Renaming.{alone_places, first_variant, gives_variant, part_by};
ghost use Rattle.isle_index.specs.Renaming.{part_of, part_text, part_view, variant_of};
ghost use Rattle.isle_index.specs.Renaming.{variant_view, whole_text};
ghost use Rattle.isle_resolve.specs.Names.{named_of};

use crate::entries::{Entries, Entry};
use crate::rename::position;
use isle_base::lexer::Pos;
use isle_resolve::event::Kind;
use isle_resolve::names::{Name, is_full_name};
use std::alloc::{AllocError, Global};

/// The part of a name that gets the new text.
#[derive(Drop)]
pub enum Part {
    /// All of this text.
    WholeText(String),
    /// The name of a variant, behind its type and a dot.
    BehindType {
        owner: String,
        text: String,
        /// The positions where the variant is defined, so that its name stands alone.
        alone: Vec<Pos>,
    },
}

impl Part {
    /// The length of its text, in bytes.
    pub fn len(&self) -> usize
        ensures { result ≡ length (part_text (part_view self.now)) }
    {
        match self {
            Part::WholeText(text) | Part::BehindType { text, .. } => text.len(),
        }
    }

    /// The number of bytes of the name in front of it, where the name is at `pos`. The `$` of a
    /// constant is no byte of its name.
    pub fn front_len(&self, pos: Pos) -> usize
        ensures { result ≡ length (front (part_view self.now) pos) }
    {
        match self {
            Part::WholeText(_) => 0,
            Part::BehindType { owner, alone, .. } => {
                if is_among(pos, alone) {
                    0
                } else {
                    owner.len() + 1
                }
            }
        }
    }
}

/// Returns whether `pos` is one of these positions.
fn is_among(pos: Pos, places: &[Pos]) -> bool
    ensures { result ≡ list_any (same_place pos) places.now }
{
    for place in places {
        if pos.file == place.file && pos.offset == place.offset {
            return true;
        }
    }
    false
}

/// A variant of a type.
#[derive(Clone, Copy)]
pub struct Variant<'a> {
    pub owner: &'a str,
    pub member: &'a str,
}

/// The part of `name` that gets the new text.
pub fn part_of(alloc: Global, entries: &Entries, name: &Name) -> Result<Part, AllocError>
    ensures { IfOk result
        (λ part. part_view part ≡ part_of (named_of name.now) (all_of entries.now)) }
{
    match name {
        Name::Global {
            kind: Kind::Term,
            text,
        } => part_of_term(alloc, entries, text.as_str()),
        _ => all_of_text(alloc, name.text()),
    }
}

fn part_of_term(alloc: Global, entries: &Entries, term: &str) -> Result<Part, AllocError>
    ensures { IfOk result (λ part. part_view part
        ≡ part_by term.now (first_variant term.now (all_of entries.now)) (all_of entries.now)) }
{
    match first_variant(entries, term) {
        Some(variant) => Ok(Part::BehindType {
            owner: String::from_str(alloc, variant.owner)?,
            text: String::from_str(alloc, variant.member)?,
            alone: alone_places(alloc, entries, term)?,
        }),
        None => all_of_text(alloc, term),
    }
}

fn all_of_text(alloc: Global, text: &str) -> Result<Part, AllocError>
    ensures { IfOk result (λ part. part_view part ≡ whole_text text.now) }
{
    Ok(Part::WholeText(String::from_str(alloc, text)?))
}

/// The first variant that is this term, if one is.
pub fn first_variant<'a>(entries: &Entries<'a>, term: &str) -> Option<Variant<'a>>
    ensures { option_map variant_view result ≡ first_variant term.now (all_of entries.now) }
{
    for entry in entries.items {
        if let Some(variant) = variant_of(entries, entry, term) {
            return Some(variant);
        }
    }
    None
}

/// The variant that the event of an entry defines, if it is this term.
fn variant_of<'a>(entries: &Entries<'a>, entry: &Entry, term: &str) -> Option<Variant<'a>>
    ensures { option_map variant_view result
        ≡ variant_of term.now (event_in entries.now.texts.now entry.now) }
{
    match entry {
        Entry::DefinesVariant { owner, member } => {
            let owner = entries.text_of(owner);
            let member = entries.text_of(member);
            if is_full_name(term, owner, member) {
                Some(Variant { owner, member })
            } else {
                None
            }
        }
        _ => None,
    }
}

/// The positions where the variants are defined that are this term.
fn alone_places(alloc: Global, entries: &Entries, term: &str) -> Result<Vec<Pos>, AllocError>
    ensures { IfOk result
        (λ places. places.items ≡ alone_places term.now (all_of entries.now)) }
{
    let mut places = Vec::new(alloc);
    for entry in entries.items {
        if gives_variant(entries, entry, term) {
            if let Some(place) = position(&entries.event_of(entry)) {
                places.push(place)?;
            }
        }
    }
    Ok(places)
}

/// Returns whether the event of an entry defines a variant that is this term.
fn gives_variant(entries: &Entries, entry: &Entry, term: &str) -> bool
    ensures { result ≡ gives_variant term.now (event_in entries.now.texts.now entry.now) }
{
    match entry {
        Entry::DefinesVariant { owner, member } => {
            is_full_name(term, entries.text_of(owner), entries.text_of(member))
        }
        _ => false,
    }
}
