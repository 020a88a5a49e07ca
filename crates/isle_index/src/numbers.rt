//! The texts of an index, each stored once and known by a number.

ghost use Rattle.std.specs.Prelude.{◌≡◌, [], IfOk, IfSome, OnOk, Some};
ghost use Rattle.isle_index.specs.Entries.{text_in, with_binder};
ghost use Rattle.isle_index.specs.Held.{Extends, IsEntryOf, IsSpotOf};
ghost use Rattle.isle_resolve.specs.Scopes.{binder, bounds_of};
ghost use Rattle.isle_resolve.specs.EventView.{event_of, word_of};

use crate::entries::{Entry, Spot};
use isle_resolve::event::{Event, Word};
use isle_resolve::scopes::{Bound, last_binder};
use std::alloc::{AllocError, Global};
use std::collections::HashMap;
use std::hash::{DefaultHasher, Hasher};

#[derive(Drop)]
pub struct Texts {
    /// The text of each number.
    pub items: Vec<String>,
    /// The number of the last text with each hash, so that no text is stored twice.
    numbers: HashMap<u64, u32>,
}

impl Texts {
    pub fn new(alloc: Global) -> Self
        ensures { result.items.items ≡ [] }
    {
        Self {
            items: Vec::new(alloc),
            numbers: HashMap::new(alloc),
        }
    }

    /// Packs an event that has this number and stores its texts. The variables `bound` are bound
    /// before it.
    pub fn entry_of(
        &mut self,
        alloc: Global,
        event: &Event,
        number: usize,
        bound: &[Bound],
    ) -> Result<Entry, AllocError>
        ensures is { IfOk result (IsEntryOf self.new.items.items number
            (with_binder (event_of event.now) number
            (binder (event_of event.now) number (bounds_of bound.now)))) }
        ensures kept { OnOk result (Extends self.old.items.items self.new.items.items) }
    {
        match event {
            Event::Defines(kind, word) => Ok(Entry::Defines(*kind, self.spot_of(alloc, word)?)),
            Event::Uses(kind, word) => Ok(Entry::Uses(*kind, self.spot_of(alloc, word)?)),
            Event::DefinesVariant { owner, member } => {
                let owner = self.spot_of(alloc, owner)?;
                let member = self.spot_of(alloc, member)?;
                Ok(Entry::DefinesVariant { owner, member })
            }
            Event::Occurs(role, word) => {
                let binder = last_binder(bound, word.text).unwrap_or(number);
                let binder = narrow(binder)?;
                Ok(Entry::Occurs(*role, self.spot_of(alloc, word)?, binder))
            }
            Event::Binds(word) => Ok(Entry::Binds(self.spot_of(alloc, word)?)),
            Event::Reads(word) => {
                let binder = narrow_option(last_binder(bound, word.text))?;
                Ok(Entry::Reads(self.spot_of(alloc, word)?, binder))
            }
            Event::Closes => Ok(Entry::Closes),
            Event::Ends => Ok(Entry::Ends),
        }
    }

    /// Packs a name and stores its text.
    fn spot_of(&mut self, alloc: Global, word: &Word) -> Result<Spot, AllocError>
        ensures is { IfOk result (IsSpotOf self.new.items.items (word_of word.now)) }
        ensures kept { OnOk result (Extends self.old.items.items self.new.items.items) }
    {
        let text = self.number_of(alloc, word.text)?;
        let file = narrow(word.pos.file)?;
        let offset = narrow(word.pos.offset)?;
        Ok(Spot { text, file, offset })
    }

    /// The number of a text, which is stored unless it was before.
    fn number_of(&mut self, alloc: Global, text: &str) -> Result<u32, AllocError>
        ensures is { IfOk result (λ number. text_in self.new.items.items number ≡ Some text.now) }
        ensures kept { OnOk result (Extends self.old.items.items self.new.items.items) }
    {
        match self.find(text) {
            Some(number) => Ok(number),
            None => self.store(alloc, text),
        }
    }

    /// The number of a stored text.
    fn find(&self, text: &str) -> Option<u32>
        ensures { IfSome result (λ number. text_in self.now.items.items number ≡ Some text.now) }
    {
        let number = self.numbers.get(&hash_of(text))?;
        match self.items.get(*number as usize) {
            Some(held) if held.as_str() == text => Some(*number),
            _ => None,
        }
    }

    /// Stores a new text and returns its number.
    fn store(&mut self, alloc: Global, text: &str) -> Result<u32, AllocError>
        ensures is { IfOk result (λ number. text_in self.new.items.items number ≡ Some text.now) }
        ensures kept { OnOk result (Extends self.old.items.items self.new.items.items) }
    {
        let number = narrow(self.items.len())?;
        self.items.push(String::from_str(alloc, text)?)?;
        self.numbers.insert(hash_of(text), number)?;
        Ok(number)
    }
}

/// The hash of a text. A text whose hash another one has taken since is stored again.
fn hash_of(text: &str) -> u64 {
    let mut hasher = DefaultHasher::new();
    hasher.write(text.as_bytes());
    hasher.finish()
}

/// Converts a number to `u32`. A larger one counts as out of memory.
pub fn narrow(number: usize) -> Result<u32, AllocError>
    ensures { IfOk result (λ same. same ≡ number) }
{
    u32::try_from(number).map_err(|_| AllocError)
}

fn narrow_option(number: Option<usize>) -> Result<Option<u32>, AllocError>
    ensures { IfOk result (λ same. same ≡ number) }
{
    match number {
        Some(number) => Ok(Some(narrow(number)?)),
        None => Ok(None),
    }
}
