//! The classes of names, by what happens to them in the definitions of a text.

ghost use Rattle.std.specs.Prelude.{◌≡◌, OnOk, Some, map};
ghost use Rattle.std.specs.List.{list_any};
ghost use Rattle.std.specs.Str.{bytes_eq};
ghost use Rattle.isle_ast.specs.TreeView.{definition_of};
ghost use Rattle.isle_ast_names.specs.WritableDeciders.{has_dot};
ghost use Rattle.isle_resolve.specs.EventView.{event_of, word_of};
ghost use Rattle.isle_lsp_colours.specs.Classes as classes;
ghost use Rattle.isle_lsp_colours.specs.Names as wanted;
ghost use Rattle.isle_lsp_colours.specs.Names.{Adds, Puts, global_kind, parameters_after};
ghost use Rattle.isle_lsp_colours.specs.Names.{placed, variable_kind};

use crate::classes::{Class, TokenKind};
use isle_ast::ast::Def;
use isle_resolve::event::{Event, Kind, Role, Word};
use isle_resolve::events;
use std::alloc::{AllocError, Global};
use std::slice;

/// A name of a text.
#[derive(Clone, Copy)]
pub struct NameAt {
    /// The byte offset at which it begins.
    pub offset: usize,
    /// What it is.
    pub class: Class,
}

/// Gives the names of a definition their classes, by byte offset. A class that is there stays.
pub fn add_names(alloc: Global, def: &Def, classes: &mut [Option<Class>]) -> Result<(), AllocError>
    ensures { OnOk result (Adds (definition_of def.now) classes.old classes.new) }
{
    let found = events(alloc, slice::from_ref(def))?;
    let mut parameters = Vec::new(alloc);
    for event in &found {
        put_if(classes, name_of(event, &parameters));
        add_parameter(event, &mut parameters)?;
    }
    Ok(())
}

/// Gives a name its class, if there is a name, and no class at its place.
fn put_if(classes: &mut [Option<Class>], name: Option<NameAt>)
    ensures { Puts name classes.old classes.new }
{
    match name {
        Some(name) => put(classes, name),
        None => {}
    }
}

/// Gives a name its class, unless there is one at its place.
fn put(classes: &mut [Option<Class>], name: NameAt)
    ensures { Puts (Some name) classes.old classes.new }
{
    if name.offset < classes.len() && classes[name.offset].is_none() {
        classes[name.offset] = Some(name.class);
    }
}

/// Adds the parameter of an extractor that an event is of, if it is.
fn add_parameter<'a>(event: &Event<'a>, parameters: &mut Vec<&'a str>) -> Result<(), AllocError>
    ensures { OnOk result (map (λ p. p.now) parameters.new.items
        ≡ parameters_after (event_of event.now) (map (λ p. p.now) parameters.old.items)) }
{
    match event {
        Event::Occurs(Role::Parameter, word) => parameters.push(word.text)?,
        _ => {}
    }
    Ok(())
}

/// The name of an event, where these are the parameters so far.
fn name_of(event: &Event, parameters: &[&str]) -> Option<NameAt>
    ensures { result ≡ wanted.name_of (map (λ p. p.now) parameters.now) (event_of event.now) }
{
    match event {
        Event::Defines(kind, word) => Some(declared(word, global_kind(*kind, word.text))),
        Event::Uses(kind, word) => Some(used(word, global_kind(*kind, word.text))),
        Event::DefinesVariant { member, .. } => Some(declared(member, TokenKind::Variant)),
        Event::Occurs(role, word) => {
            Some(used(word, variable_kind(*role, word.text, parameters)))
        }
        Event::Binds(word) => Some(declared(word, TokenKind::Variable)),
        Event::Reads(word) => Some(used(word, TokenKind::Variable)),
        Event::Closes | Event::Ends => None,
    }
}

/// A name that is used.
fn used(word: &Word, kind: TokenKind) -> NameAt
    ensures { result ≡ placed (word_of word.now) (classes.used kind) }
{
    NameAt {
        offset: word.pos.offset,
        class: Class {
            kind,
            is_declaration: false,
        },
    }
}

/// A name that is defined or bound.
fn declared(word: &Word, kind: TokenKind) -> NameAt
    ensures { result ≡ placed (word_of word.now) (classes.declared kind) }
{
    NameAt {
        offset: word.pos.offset,
        class: Class {
            kind,
            is_declaration: true,
        },
    }
}

/// What a name is that is visible in the whole program.
fn global_kind(kind: Kind, text: &str) -> TokenKind
    ensures { result ≡ global_kind kind text.now }
{
    match kind {
        Kind::Type => TokenKind::Type,
        Kind::Constant => TokenKind::Constant,
        Kind::Term => {
            if has_dot(text) {
                TokenKind::Variant
            } else {
                TokenKind::Term
            }
        }
    }
}

fn has_dot(text: &str) -> bool
    ensures { result ≡ has_dot text.now }
{
    text.as_bytes().contains(&b'.')
}

/// What a variable of a pattern is.
fn variable_kind(role: Role, text: &str, parameters: &[&str]) -> TokenKind
    ensures { result ≡ variable_kind role (map (λ p. p.now) parameters.now) text.now }
{
    match role {
        Role::Plain => TokenKind::Variable,
        Role::Parameter => TokenKind::Parameter,
        Role::Template | Role::Named => {
            if has_text(parameters, text) {
                TokenKind::Parameter
            } else {
                TokenKind::Variable
            }
        }
    }
}

fn has_text(texts: &[&str], text: &str) -> bool
    ensures { result ≡ list_any (bytes_eq text.now) (map (λ t. t.now) texts.now) }
{
    for other in texts {
        if text == *other {
            return true;
        }
    }
    false
}
