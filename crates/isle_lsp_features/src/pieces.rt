//! What is known of a text that is being written: all definitions but those that are broken.
//!
//! A text is read in pieces. A piece ends with a definition that is broken, and the next one begins
//! at the first line behind the start of that definition that begins with `(`.

ghost use Rattle.std.specs.Prelude.{◌≡◌, IfErr, IfOk, None, OnOk, Some, option_map};
ghost use Rattle.std.specs.Prelude.{string_bytes};
ghost use Rattle.isle_cli.specs.declared.failure.Failure.TheVariants.{Memory};
ghost use Rattle.isle_lsp_features.specs.Pieces.{AddsDefinitions, AddsFront, AddsPiece};
ghost use Rattle.isle_lsp_features.specs.Pieces.{AddsText, AreRefusals};
ghost use Rattle.isle_program.specs.Nesting.{FirstDeep};

use crate::rests::rest_behind;
use isle_base::lexer::{Fault, Lexer};
use isle_base_source::error::Error;
use isle_cli::failure::Failure;
use isle_index::Index;
use isle_parser::dropping::drop_definition;
use isle_parser::parser::Parser;
use isle_program::nesting::deep_list;
use std::alloc::{AllocError, Global};
use std::slice;

/// How many pieces of a text are read: each may take as long as the whole text.
const MOST_PIECES: usize = 100;

/// Why a piece of a text is refused.
#[derive(Drop)]
pub enum Refusal {
    /// It does not parse.
    Error(Error),
    /// Its first token that nests too deeply is at this byte offset.
    Deep(usize),
}

/// Why the pieces of a text are refused, in their order: one refusal for each definition that is
/// broken, and none if the text parses. A piece that nests too deeply is the last one, and so is
/// the piece of number 100. The only `Err` is `Memory`.
pub fn refusals(alloc: Global, text: &str) -> Result<Vec<Refusal>, Failure>
    ensures ok { IfOk result (λ refusals. AreRefusals text.now refusals.items) }
    ensures err { IfErr result (λ failure. failure ≡ Memory) }
{
    let mut index = Index::new(alloc);
    add_text(alloc, 0, text, &mut index)
}

/// Adds the definitions of the pieces of a text, and returns why pieces are refused.
pub(crate) fn add_text(
    alloc: Global,
    file: usize,
    text: &str,
    index: &mut Index,
) -> Result<Vec<Refusal>, Failure>
    ensures ok { IfOk result
        (λ refusals. AddsText file text.now index.old index.new refusals.items) }
    ensures err { IfErr result (λ failure. failure ≡ Memory) }
{
    let mut refusals = Vec::new(alloc);
    let mut piece = String::from_str(alloc, text)?;
    let mut left = MOST_PIECES;
    while left > 0 {
        match add_piece(alloc, file, piece.as_str(), index, &mut refusals)? {
            Some(rest) => piece = rest,
            None => return Ok(refusals),
        }
        left -= 1;
    }
    Ok(refusals)
}

/// Adds the definitions that a text begins with, and why it is refused, if it is. Returns what is
/// left of it behind a definition that is broken.
fn add_piece(
    alloc: Global,
    file: usize,
    text: &str,
    index: &mut Index,
    refusals: &mut Vec<Refusal>,
) -> Result<Option<String>, Failure>
    ensures ok { IfOk result (λ rest. AddsPiece file text.now index.old index.new
        refusals.old.items refusals.new.items (option_map string_bytes rest)) }
    ensures err { IfErr result (λ failure. failure ≡ Memory) }
{
    match deep_list(alloc, text)? {
        Some(offset) => {
            add_deep(alloc, file, text, offset, index, refusals)?;
            Ok(None)
        }
        None => add_shallow(alloc, file, text, index, refusals),
    }
}

/// The same for a text whose first token that nests too deeply is at this byte offset: nothing is
/// left of it.
fn add_deep(
    alloc: Global,
    file: usize,
    text: &str,
    offset: usize,
    index: &mut Index,
    refusals: &mut Vec<Refusal>,
) -> Result<(), Failure>
    requires { FirstDeep text.now (Some offset) }
    ensures ok { OnOk result (AddsPiece file text.now index.old index.new
        refusals.old.items refusals.new.items None) }
    ensures err { IfErr result (λ failure. failure ≡ Memory) }
{
    add_front(alloc, file, text, offset, index)?;
    refusals.push(Refusal::Deep(offset))?;
    Ok(())
}

/// Adds the definitions that the bytes before an offset begin with, or none if that splits a
/// character.
fn add_front(
    alloc: Global,
    file: usize,
    text: &str,
    offset: usize,
    index: &mut Index,
) -> Result<(), Failure>
    ensures ok { OnOk result (AddsFront file text.now offset index.old index.new) }
    ensures err { IfErr result (λ failure. failure ≡ Memory) }
{
    let mut count = 0;
    match text.split_at_checked(offset) {
        Some((front, _)) => match add_definitions(alloc, file, front, index, &mut count) {
            Ok(()) => Ok(()),
            Err(Fault::Error(_)) => Ok(()),
            Err(Fault::Failed | Fault::Memory) => Err(Failure::Memory),
        },
        None => Ok(()),
    }
}

/// The same for a text that does not nest too deeply.
fn add_shallow(
    alloc: Global,
    file: usize,
    text: &str,
    index: &mut Index,
    refusals: &mut Vec<Refusal>,
) -> Result<Option<String>, Failure>
    requires { FirstDeep text.now None }
    ensures ok { IfOk result (λ rest. AddsPiece file text.now index.old index.new
        refusals.old.items refusals.new.items (option_map string_bytes rest)) }
    ensures err { IfErr result (λ failure. failure ≡ Memory) }
{
    let mut count = 0;
    match add_definitions(alloc, file, text, index, &mut count) {
        Ok(()) => Ok(None),
        Err(Fault::Error(error)) => {
            refusals.push(Refusal::Error(error))?;
            Ok(rest_behind(alloc, text, count)?)
        }
        Err(Fault::Failed | Fault::Memory) => Err(Failure::Memory),
    }
}

/// Adds the definitions of a text, one after another, up to its first error, and counts them. A
/// count past `usize::MAX` is out of memory.
fn add_definitions(
    alloc: Global,
    file: usize,
    text: &str,
    index: &mut Index,
    count: &mut usize,
) -> Result<(), Fault>
    requires { count.old ≡ 0 }
    ensures { AddsDefinitions file text.now index.old index.new count.new result }
{
    let mut parser = Parser::new(Lexer::new(alloc, file, text)?);
    while let Some(def) = parser.next_def(alloc)? {
        let added = index.add(alloc, slice::from_ref(&def));
        drop_definition(def);
        added?;
        *count = count.checked_add(1).ok_or(AllocError)?;
    }
    Ok(())
}
