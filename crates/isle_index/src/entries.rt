//! Events as an index stores them: an entry holds the numbers of its texts, and `Entries::unpack`
//! makes its event.

ghost use Rattle.std.specs.Prelude.{◌≡◌};
ghost use Rattle.isle_index.specs.Entries.{binder_in, event_in, text_at, unpacked, word_at};
ghost use Rattle.isle_resolve.specs.Names.{gives, is_of, named_of};
ghost use Rattle.isle_resolve.specs.Scopes.{seen_of};
ghost use Rattle.isle_resolve.specs.EventView.{event_of, word_of};

use isle_base::lexer::Pos;
use isle_resolve::event::{Event, Kind, Role, Word};
use isle_resolve::names::{Name, is_full_name, is_number};
use isle_resolve::scopes::Seen;

/// A name as it occurs in the source, packed.
#[derive(Clone, Copy)]
pub struct Spot {
    /// The number of its text in the index.
    pub text: u32,
    /// The number of its file.
    pub file: u32,
    /// The byte offset of its first byte in the file.
    pub offset: u32,
}

/// A packed `Event`, whose number is the index of its entry. `Occurs` and `Reads` also hold the
/// number of the event that binds the variable, if one does.
#[derive(Clone, Copy)]
pub enum Entry {
    Defines(Kind, Spot),
    Uses(Kind, Spot),
    DefinesVariant { owner: Spot, member: Spot },
    Occurs(Role, Spot, u32),
    Binds(Spot),
    Reads(Spot, Option<u32>),
    Closes,
    Ends,
}

/// The entries of an index, and their texts by number.
#[derive(Clone, Copy)]
pub struct Entries<'a> {
    pub texts: &'a [String],
    pub items: &'a [Entry],
}

impl<'a> Entries<'a> {
    /// The event of `entry`, whose number is `number`.
    pub fn unpack(&self, number: usize, entry: &Entry) -> Seen<'a>
        ensures { seen_of result ≡ unpacked self.now.texts.now number entry.now }
    {
        Seen {
            event: self.event_of(entry),
            number,
            binder: binder_of(number, entry),
        }
    }

    /// The event of `entry`, without its number.
    pub fn event_of(&self, entry: &Entry) -> Event<'a>
        ensures { event_of result ≡ event_in self.now.texts.now entry.now }
    {
        match entry {
            Entry::Defines(kind, spot) => Event::Defines(*kind, self.word_at(spot)),
            Entry::Uses(kind, spot) => Event::Uses(*kind, self.word_at(spot)),
            Entry::DefinesVariant { owner, member } => {
                let owner = self.word_at(owner);
                let member = self.word_at(member);
                Event::DefinesVariant { owner, member }
            }
            Entry::Occurs(role, spot, _) => Event::Occurs(*role, self.word_at(spot)),
            Entry::Binds(spot) => Event::Binds(self.word_at(spot)),
            Entry::Reads(spot, _) => Event::Reads(self.word_at(spot)),
            Entry::Closes => Event::Closes,
            Entry::Ends => Event::Ends,
        }
    }

    /// Returns whether the event of `entry`, whose number is `number`, is one of a name. Nothing is
    /// unpacked but the texts of names of its kind.
    pub fn is_of(&self, name: &Name, number: usize, entry: &Entry) -> bool
        ensures { result
            ≡ is_of (named_of name.now) (unpacked self.now.texts.now number entry.now) }
    {
        match name {
            Name::Global { kind, text } => self.gives(entry, *kind, text.as_str()),
            Name::Variable { binder, .. } => is_number(*binder, binder_of(number, entry)),
        }
    }

    /// Returns whether the event of `entry` defines or uses the global name of this kind and text.
    pub fn gives(&self, entry: &Entry, kind: Kind, text: &str) -> bool
        ensures { result ≡ gives kind text.now (event_in self.now.texts.now entry.now) }
    {
        match entry {
            Entry::Defines(other, spot) | Entry::Uses(other, spot) => {
                kind == *other && self.text_of(spot) == text
            }
            Entry::DefinesVariant { owner, member } => {
                kind == Kind::Term && is_full_name(text, self.text_of(owner), self.text_of(member))
            }
            Entry::Occurs(..) | Entry::Binds(_) | Entry::Reads(..) | Entry::Closes | Entry::Ends =>
                false,
        }
    }

    fn word_at(&self, spot: &Spot) -> Word<'a>
        ensures { word_of result ≡ word_at self.now.texts.now spot.now }
    {
        Word {
            text: self.text_of(spot),
            pos: Pos::new(spot.file as usize, spot.offset as usize),
        }
    }

    /// The text of a packed name, empty if there is none.
    pub fn text_of(&self, spot: &Spot) -> &'a str
        ensures { result.now ≡ text_at self.now.texts.now spot.now.text }
    {
        match self.texts.get(spot.text as usize) {
            Some(text) => text.as_str(),
            None => "",
        }
    }
}

/// The number of the event that binds the variable of `entry`, whose number is `number`, if it has
/// a bound variable.
fn binder_of(number: usize, entry: &Entry) -> Option<usize>
    ensures { result ≡ binder_in number entry.now }
{
    match entry {
        Entry::Occurs(_, _, binder) => Some(*binder as usize),
        Entry::Binds(_) => Some(number),
        Entry::Reads(_, binder) => binder.map(|binder| binder as usize),
        Entry::Defines(..)
        | Entry::Uses(..)
        | Entry::DefinesVariant { .. }
        | Entry::Closes
        | Entry::Ends => None,
    }
}
