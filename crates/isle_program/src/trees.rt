//! Parsing the texts of a program.

ghost use Rattle.std.specs.Prelude.{◌≡◌, ◌≢◌, ◌++◌, ◌∷◌, [], Err, IfErr, IfOk, length, map, min};
ghost use Rattle.std.specs.Prelude.{string_bytes};
ghost use Rattle.isle_base.specs.Place.{in_file};
ghost use Rattle.isle_base.specs.declared.fault.Fault.TheVariants.{Failed};
ghost use Rattle.isle_ast.specs.TreeView.{definitions_of};
ghost use Rattle.isle_cli.specs.Sources.{source_of};
ghost use Rattle.isle_cli.specs.declared.failure.Failure.TheVariants.{Memory};
ghost use Rattle.isle_program.specs.Reading.{Adds, IsReadAs, IsReading, IsTooDeep};
ghost use Rattle.isle_program.specs.Reading.{IsWellReadAs, refused_count};

use crate::nesting::{TOO_DEEP, deep_list};
use isle_ast::ast::Def;
use isle_base::lexer::{Fault, Lexer, Pos};
use isle_base_source::error::{Error, Span};
use isle_cli::failure::Failure;
use isle_cli::sources::Source;
use isle_parser::dropping::drop_definitions;
use isle_parser::parser::parse;
use std::alloc::{AllocError, Global};

/// A program that is parsed.
#[derive(Drop)]
pub struct Reading {
    /// The definitions of the texts that are not refused, in order.
    pub defs: Vec<Def>,
    /// For each text, why it is refused, if it is: it nests too deeply, or does not parse.
    pub refusals: Vec<Option<Error>>,
}

/// Parses the texts of a program, each as the file with its index. A text that nests too deeply is
/// refused, like one that does not parse. The only error is `Memory`.
pub fn read_all(alloc: Global, sources: &[Source]) -> Result<Reading, Failure>
    ensures ok { IfOk result (λ reading. IsReading (map source_of sources.now)
        (definitions_of reading.defs.items) reading.refusals.items) }
    ensures err { IfErr result (λ failure. failure ≡ Memory) }
{
    let mut reading = Reading {
        defs: Vec::new(alloc),
        refusals: Vec::new(alloc),
    };
    for (file, source) in sources.iter().enumerate() {
        let read = read_shallow_defs(alloc, file, source.text.as_str());
        reading = with(reading, read)?;
    }
    Ok(reading)
}

/// Adds the outcome of parsing one text.
fn with(reading: Reading, read: Result<Vec<Def>, Fault>) -> Result<Reading, Failure>
    ensures ok { IfOk result (Adds reading read) }
    ensures err { IfErr result (λ failure. failure ≡ Memory) }
{
    match read {
        Ok(defs) => Ok(with_tree(reading, defs)?),
        Err(Fault::Error(error)) => Ok(with_refusal(reading, Some(error))?),
        Err(Fault::Failed | Fault::Memory) => {
            drop_reading(reading);
            Err(Failure::Memory)
        }
    }
}

/// Adds the definitions of a text that is not refused.
fn with_tree(mut reading: Reading, mut defs: Vec<Def>) -> Result<Reading, AllocError>
    ensures defs { IfOk result (λ more. definitions_of more.defs.items
        ≡ definitions_of reading.defs.items ++ definitions_of defs.items) }
    ensures refusals { IfOk result (λ more. more.refusals.items
        ≡ reading.refusals.items ++ None ∷ []) }
{
    let appended = reading.defs.append(&mut defs);
    drop_definitions(defs);
    match appended {
        Ok(()) => with_refusal(reading, None),
        Err(error) => {
            drop_reading(reading);
            Err(error)
        }
    }
}

/// Adds why a text is refused, if it is.
fn with_refusal(mut reading: Reading, refusal: Option<Error>) -> Result<Reading, AllocError>
    ensures defs { IfOk result (λ more. more.defs.items ≡ reading.defs.items) }
    ensures refusals { IfOk result (λ more. more.refusals.items
        ≡ reading.refusals.items ++ refusal ∷ []) }
{
    match reading.refusals.push(refusal) {
        Ok(()) => Ok(reading),
        Err(_) => {
            drop_reading(reading);
            Err(AllocError)
        }
    }
}

/// Drops a program. A crate that drops one itself has to prove how, node by node.
pub fn drop_reading(reading: Reading) {
    drop_definitions(reading.defs);
}

/// The number of texts that are refused.
pub fn refused_count(refusals: &[Option<Error>]) -> usize
    ensures { result ≡ refused_count refusals.now }
{
    let mut count = 0;
    for refusal in refusals {
        if refusal.is_some() {
            count += 1;
        }
    }
    count
}

/// Parses a text as the file with this number, unless it nests too deeply. Then the error is at the
/// first token that does. It is never `Failed`.
pub fn read_shallow_defs(alloc: Global, file: usize, text: &str) -> Result<Vec<Def>, Fault>
    ensures read { IsWellReadAs file text.now result }
    ensures never_failed { result ≢ Err Failed }
{
    match deep_list(alloc, text)? {
        Some(offset) => Err(Fault::Error(too_deep(alloc, file, text, offset)?)),
        None => read_defs(alloc, file, text),
    }
}

/// The error of a text whose first token that nests too deeply is at this byte offset.
fn too_deep(alloc: Global, file: usize, text: &str, offset: usize) -> Result<Error, AllocError>
    ensures { IfOk result (IsTooDeep (in_file file (min offset (length text.now)))) }
{
    let pos = Pos::new(file, offset.min(text.len()));
    Ok(Error::ParseError {
        msg: String::from_str(alloc, TOO_DEEP)?,
        span: Span::new_single(pos),
    })
}

/// Parses a text as the file with this number. Nested lists take stack, so call `deep_list` first.
/// Returns `Error` if the text does not parse and `Memory` if memory runs out, and never `Failed`.
pub fn read_defs(alloc: Global, file: usize, text: &str) -> Result<Vec<Def>, Fault>
    ensures read { IsReadAs file text.now result }
    ensures never_failed { result ≢ Err Failed }
{
    let lexer = Lexer::new(alloc, file, text)?;
    parse(alloc, lexer)
}
