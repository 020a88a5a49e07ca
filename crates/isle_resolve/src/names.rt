//! Names, and which events name which.

ghost use Rattle.std.specs.Prelude.{◌≡◌, ◌++◌, IfOk, codes, option_map, string_bytes};
ghost use Rattle.std.specs.Str.{bytes_eq};
ghost use Rattle.isle_resolve.specs.Names.{global, is_number, joined, meaning, name_text};
ghost use Rattle.isle_resolve.specs.Names.{named_of, variable};
ghost use Rattle.isle_resolve.specs.EventView.{event_of};

use crate::event::{Event, Kind, Word};
use crate::scopes::Seen;
use std::alloc::{AllocError, Global};

/// A name, by what it means.
#[derive(Drop)]
pub enum Name {
    /// A name that is visible in the whole program.
    Global {
        kind: Kind,
        /// Its text: `TYPE.VARIANT` for a variant, and without its `$` for a constant.
        text: String,
    },
    /// A variable of a rule or an extractor.
    Variable {
        /// The number of the event that binds it.
        binder: usize,
        text: String,
    },
}

impl Name {
    /// Its text.
    pub fn text(&self) -> &str
        ensures { result.now ≡ name_text (named_of self.now) }
    {
        match self {
            Name::Global { text, .. } | Name::Variable { text, .. } => text.as_str(),
        }
    }
}

/// The name of an event. There is none for an unbound variable and for the end of a scope.
pub fn meaning(alloc: Global, seen: &Seen) -> Result<Option<Name>, AllocError>
    ensures { IfOk result (λ name. option_map named_of name
        ≡ meaning (event_of seen.now.event) seen.now.binder) }
{
    match &seen.event {
        Event::Defines(kind, word) | Event::Uses(kind, word) => global_name(
            alloc, *kind, word.text,
        ),
        Event::DefinesVariant { owner, member } => {
            let text = full_name(alloc, owner.text, member.text)?;
            Ok(Some(Name::Global {
                kind: Kind::Term,
                text,
            }))
        }
        Event::Occurs(_, word) | Event::Binds(word) | Event::Reads(word) => {
            variable_name(alloc, seen.binder, word)
        }
        Event::Closes | Event::Ends => Ok(None),
    }
}

fn global_name(alloc: Global, kind: Kind, text: &str) -> Result<Option<Name>, AllocError>
    ensures { IfOk result (λ name. option_map named_of name ≡ Some (global kind text.now)) }
{
    let text = String::from_str(alloc, text)?;
    Ok(Some(Name::Global { kind, text }))
}

/// The name of a variable, if it is bound.
fn variable_name(
    alloc: Global,
    binder: Option<usize>,
    word: &Word,
) -> Result<Option<Name>, AllocError>
    ensures { IfOk result (λ name. option_map named_of name
        ≡ option_map (λ b. variable b word.now.text.now) binder) }
{
    match binder {
        Some(binder) => {
            let text = String::from_str(alloc, word.text)?;
            Ok(Some(Name::Variable { binder, text }))
        }
        None => Ok(None),
    }
}

/// The name of a variant as a term, `OWNER.MEMBER`.
pub fn full_name(alloc: Global, owner: &str, member: &str) -> Result<String, AllocError>
    ensures { IfOk result (λ text. string_bytes text ≡ joined owner.now member.now) }
{
    let mut text = String::from_str(alloc, owner)?;
    text.push_str(".")?;
    text.push_str(member)?;
    Ok(text)
}

/// Returns whether `text` is `OWNER.MEMBER`.
pub fn is_full_name(text: &str, owner: &str, member: &str) -> bool
    ensures { result ≡ bytes_eq (joined owner.now member.now) text.now }
{
    is_dotted(text.as_bytes(), owner.as_bytes(), member.as_bytes())
}

/// Returns whether `bytes` are `first`, a dot and `last`.
fn is_dotted(bytes: &[u8], first: &[u8], last: &[u8]) -> bool
    ensures { result ≡ bytes_eq (first.now ++ codes "." ++ last.now) bytes.now }
{
    match bytes.strip_prefix(first) {
        Some(rest) => match rest.strip_prefix(b".") {
            Some(name) => last == name,
            None => false,
        },
        None => false,
    }
}

/// Returns whether `other` is this number.
pub fn is_number(number: usize, other: Option<usize>) -> bool
    ensures { result ≡ is_number number other }
{
    other == Some(number)
}
