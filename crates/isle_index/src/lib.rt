//! The index of an ISLE program: its names, and where each is defined and used by ISLE's scopes.
//!
//! A name is a term (or a variant of a type, as `TYPE.VARIANT`), a type, a constant, or a variable
//! of a rule or an extractor. The first occurrence of a variable in a rule's patterns binds it, and
//! every later one uses it. A condition's expression comes before its pattern. A definition of a
//! `let` is in scope in the later ones and in the body. The parameters of an extractor and the
//! variables of its template are local to the extractor: extractors are not expanded. Names inside
//! specs and models are not indexed.
#![tactic(auto)]

ghost use Rattle.std.specs.Prelude.{◌≡◌, ◌++◌, [], IfOk, List, OnOk, length, map, option_map};
ghost use Rattle.std.specs.List.Sorted.{IsPermutation, IsSortedByKey};
ghost use Rattle.isle_ast.specs.Tree.{Definition};
ghost use Rattle.isle_ast.specs.TreeView.{definitions_of};
ghost use Rattle.isle_base_source.specs.PositionOrder.{position_cmp};
ghost use Rattle.isle_index.specs.Candidates.{candidate_of, candidates};
ghost use Rattle.isle_index.specs.Entries.{all_of};
ghost use Rattle.isle_index.specs.Held.{Adds, IsIndexOf, all_in, event_count};
ghost use Rattle.isle_resolve.specs.Names.{named_of};
ghost use Rattle.isle_index.specs.Occurrences.{definitions, name_at, occurrence_at, occurrences};
ghost use Rattle.isle_index.specs.Renaming.{IsAnswer, can_be_renamed, part_of, part_view};
ghost use Rattle.isle_resolve.specs.Scopes.{seen_from};
ghost use Rattle.isle_index.specs.Symbols.{symbol_of, symbols};
ghost use Rattle.isle_resolve.specs.EventView.{events_of};

mod candidates;
mod entries;
mod moving;
mod numbers;
mod occurrences;
mod parts;
mod rename;
mod symbols;

pub use candidates::Candidate;
use candidates::{add_globals, add_variables, visible_variables};
use entries::{Entries, Entry};
use isle_ast::ast::Def;
use isle_base::lexer::Pos;
use isle_resolve::event::Event;
pub use isle_resolve::event::Kind;
use isle_resolve::events;
pub use isle_resolve::names::Name;
use isle_resolve::names::meaning;
use isle_resolve::scopes::bind;
use moving::{add_moved, split};
use numbers::Texts;
pub use occurrences::Occurrence;
use occurrences::{event_at, occurrence_in};
pub use parts::Part;
use parts::part_of;
pub use rename::Refusal;
use rename::{can_be_renamed, changed_places, refusal_for};
use std::alloc::{AllocError, Global};
use std::slice;
use symbols::defined_symbol;
pub use symbols::{Symbol, SymbolKind};

/// The index of a program. It borrows no tree.
#[derive(Drop)]
pub struct Index {
    texts: Texts,
    entries: Vec<Entry>,
}

impl Index {
    /// Makes an empty index.
    pub fn new(alloc: Global) -> Self
        ensures { IsIndexOf [] result }
    {
        Self {
            texts: Texts::new(alloc),
            entries: Vec::new(alloc),
        }
    }

    /// Adds definitions after those in the index. Files are numbered as in the positions of the
    /// definitions, and a file that does not parse can be left out. An `Err` means out of memory,
    /// and that some of the definitions may have been added, so drop the index then. Numbers of
    /// texts, names and files and byte offsets past `u32::MAX` count as out of memory.
    pub fn add(&mut self, alloc: Global, defs: &[Def]) -> Result<(), AllocError>
        ensures { OnOk result ((ds : List Definition) → IsIndexOf ds self.old
            → IsIndexOf (ds ++ definitions_of defs.now) self.new) }
    {
        for def in defs {
            let events = events(alloc, slice::from_ref(def))?;
            self.add_events(alloc, &events)?;
        }
        Ok(())
    }

    /// Adds events, with no variable in scope before them.
    fn add_events(&mut self, alloc: Global, events: &[Event]) -> Result<(), AllocError>
        ensures { OnOk result (Adds (seen_from (length self.old.entries.items) []
            (events_of events.now)) self.old self.new) }
    {
        let mut bound = Vec::new(alloc);
        for event in events {
            let number = self.entries.len();
            let entry = self.texts.entry_of(alloc, event, number, &bound)?;
            self.entries.push(entry)?;
            bind(event, number, &mut bound)?;
        }
        Ok(())
    }

    /// The number of events that the definitions in the index have.
    pub fn event_count(&self) -> usize
        ensures { (ds : List Definition) → IsIndexOf ds self.now → result ≡ event_count ds }
    {
        self.entries.len()
    }

    /// Moves the definitions at the end of the index, those of the events from number `end` on,
    /// into the place of those of the events `start..stop`, which are dropped. Texts of names stay.
    /// An `Err` means out of memory: drop the index then.
    pub fn replace(
        &mut self,
        alloc: Global,
        start: usize,
        stop: usize,
        end: usize,
    ) -> Result<(), AllocError>
        ensures { OnOk result ((before old after new : List Definition)
            → IsIndexOf (before ++ old ++ after ++ new) self.old
            → start ≡ event_count before → stop ≡ event_count (before ++ old)
            → end ≡ event_count (before ++ old ++ after)
            → IsIndexOf (before ++ new ++ after) self.new) }
    {
        let new = split(alloc, &mut self.entries, end)?;
        let after = split(alloc, &mut self.entries, stop)?;
        self.entries.truncate(start);
        add_moved(&mut self.entries, &new, end)?;
        add_moved(&mut self.entries, &after, stop)?;
        Ok(())
    }

    fn entries(&self) -> Entries<'_>
        ensures { all_of result ≡ all_in self.now }
    {
        Entries {
            texts: &self.texts.items,
            items: &self.entries,
        }
    }

    /// The occurrence of a name at `place`: one of its bytes is there, or it ends there.
    pub fn occurrence_at(&self, place: Pos) -> Option<Occurrence>
        ensures { result ≡ occurrence_at place (all_in self.now) }
    {
        match event_at(&self.entries(), place) {
            Some(event) => occurrence_in(&event),
            None => None,
        }
    }

    /// The name at `place`: `None` if no name is there, or a variable that nothing binds. An `Err`
    /// means out of memory.
    pub fn name_at(&self, alloc: Global, place: Pos) -> Result<Option<Name>, AllocError>
        ensures { IfOk result (λ name. option_map named_of name
            ≡ name_at place (all_in self.now)) }
    {
        match event_at(&self.entries(), place) {
            Some(event) => meaning(alloc, &event),
            None => Ok(None),
        }
    }

    /// All occurrences of a name of this index, each once, in order of position. An `Err` means out
    /// of memory.
    pub fn occurrences(&self, alloc: Global, name: &Name) -> Result<Vec<Occurrence>, AllocError>
        ensures exact { IfOk result (λ found. IsPermutation
            (occurrences (named_of name.now) (all_in self.now)) found.items) }
        ensures in_order { IfOk result
            (λ found. IsSortedByKey (λ o. o.pos) position_cmp found.items) }
    {
        let mut found = occurrences::occurrences(alloc, &self.entries(), name)?;
        found.sort()?;
        Ok(found)
    }

    /// The definitions of a name of this index, in order of position: the `decl` or variant of a
    /// term, the `type` of a type, the `extern const` of a constant, the binding occurrence of a
    /// variable. In a complete program there is one. An `Err` means out of memory.
    pub fn definitions(&self, alloc: Global, name: &Name) -> Result<Vec<Occurrence>, AllocError>
        ensures exact { IfOk result (λ found. IsPermutation
            (definitions (named_of name.now) (all_in self.now)) found.items) }
        ensures in_order { IfOk result
            (λ found. IsSortedByKey (λ o. o.pos) position_cmp found.items) }
    {
        let mut found = occurrences::definitions(alloc, &self.entries(), name)?;
        found.sort()?;
        Ok(found)
    }

    /// The names that the file of this number defines, in source order. An `Err` means out of
    /// memory.
    pub fn symbols(&self, alloc: Global, file: usize) -> Result<Vec<Symbol>, AllocError>
        ensures { IfOk result (λ found. map symbol_of found.items
            ≡ symbols file (all_in self.now)) }
    {
        let entries = self.entries();
        let mut found = Vec::new(alloc);
        for (number, entry) in entries.items.iter().enumerate() {
            let event = entries.unpack(number, entry);
            if let Some(symbol) = defined_symbol(alloc, &event.event)? {
                if symbol.pos.file == file {
                    found.push(symbol)?;
                }
            }
        }
        Ok(found)
    }

    /// Completion candidates at `place` that start with `prefix`: every name that the program
    /// defines, and the variables in scope at the last name that begins in `from..=place.offset`.
    /// Pass the byte offset of the enclosing definition as `from`. May contain duplicates. An `Err`
    /// means out of memory.
    pub fn candidates(
        &self,
        alloc: Global,
        place: Pos,
        from: usize,
        prefix: &[u8],
    ) -> Result<Vec<Candidate>, AllocError>
        ensures { IfOk result (λ found. map candidate_of found.items
            ≡ candidates place from prefix.now (all_in self.now)) }
    {
        let entries = self.entries();
        let mut found = Vec::new(alloc);
        add_globals(alloc, &entries, prefix, &mut found)?;
        let bound = visible_variables(alloc, &entries, place, from)?;
        add_variables(alloc, &bound, prefix, &mut found)?;
        Ok(found)
    }

    /// Returns whether `name`, a name of this index, can be renamed at all. If not, `rename`
    /// rejects it whatever the new text: nothing defines it, a variant of another type is the same
    /// term, or renaming it would change another definition's meaning. An `Err` means out of
    /// memory.
    pub fn can_be_renamed(&self, alloc: Global, name: &Name) -> Result<bool, AllocError>
        ensures { IfOk result
            (λ can. can ≡ can_be_renamed (named_of name.now) (all_in self.now)) }
    {
        can_be_renamed(alloc, &self.entries(), name)
    }

    /// The positions of the names to edit to rename `name`, a name of this index, to `new`, in
    /// order, or why it cannot be renamed. Each edit replaces the old text of the part of the name
    /// that `part_of` returns by the new one; a constant's edit starts after its `$`. Renaming a
    /// type also edits the first part of its variants' names, `TYPE.VARIANT`. A variable is not
    /// renamed from or to the name of a variable that rules get from a template. An `Err` means out
    /// of memory.
    pub fn rename(
        &self,
        alloc: Global,
        name: &Name,
        new: &str,
    ) -> Result<Result<Vec<Pos>, Refusal>, AllocError>
        ensures { IfOk result
            (IsAnswer (named_of name.now) new.now (all_in self.now)) }
    {
        let entries = self.entries();
        match refusal_for(alloc, &entries, name, new)? {
            Some(refusal) => Ok(Err(refusal)),
            None => {
                let mut places = changed_places(alloc, &entries, name)?;
                places.sort()?;
                Ok(Ok(places))
            }
        }
    }

    /// The part of `name`, a name of this index, that gets the new text when it is renamed: of a
    /// variant, `TYPE.VARIANT`, what is behind the dot, and all of another name. An `Err` means out
    /// of memory.
    pub fn part_of(&self, alloc: Global, name: &Name) -> Result<Part, AllocError>
        ensures { IfOk result
            (λ part. part_view part ≡ part_of (named_of name.now) (all_in self.now)) }
    {
        part_of(alloc, &self.entries(), name)
    }
}
