//! The output of the export that parses, before it is written to the caller's slice.

ghost use Rattle.std.specs.Prelude.{◌≡◌, ◌↔◌, IfErr, IfOk, IsErrOf, IsUtf8, List, Ok, OnOk, ℕ};
ghost use Rattle.std.specs.Prelude.{false, string_bytes, true};
ghost use Rattle.isle_base.specs.Steps.{IfError};
ghost use Rattle.isle_base.specs.declared.fault.Fault.TheVariants.{Failed};
ghost use Rattle.isle_c.specs.NoAnswers.{IsFormatFailure};
ghost use Rattle.isle_c.specs.Parsing.{ArePut, IsAtStartIn, IsEncodedTree, IsPutNext};
ghost use Rattle.isle_parser.specs.NextDefinition.{RefusesNext, has_failed};
ghost use Rattle.isle_syntax.specs.Format.{IsRefused};
ghost use Rattle.isle_syntax.specs.Streaming.{IsDone};

use crate::calls::NoAnswer;
use crate::slices::text_of;
use isle_encoding::{put_definition, put_end, put_start};
use isle_parser::dropping::drop_definition;
use isle_syntax::lexer::{Fault, Lexer};
use isle_syntax::parser::Parser;
use std::alloc::Global;

/// The encoding of the tree of these bytes, whose positions are in this file.
pub fn encoded_tree(alloc: Global, bytes: &[u8], file: usize) -> Result<String, NoAnswer>
    ensures ok { IfOk result (λ answer. IsEncodedTree file bytes.now (string_bytes answer)) }
    ensures utf8 { OnOk result (IsUtf8 bytes.now) }
    ensures err { IfErr result (IsFormatFailure bytes.now) }
{
    let text = text_of(bytes)?;
    let answer = encoding_of(alloc, text, file)?;
    Ok(answer)
}

/// The encoding of a text's tree.
fn encoding_of(alloc: Global, text: &str, file: usize) -> Result<String, NoAnswer>
    ensures ok { IfOk result (λ answer. IsEncodedTree file text.now (string_bytes answer)) }
    ensures err { IfErr result (IsFormatFailure text.now) }
{
    match parsed(alloc, text, file) {
        Ok(answer) => Ok(answer),
        Err(Fault::Error(_)) => Err(NoAnswer::Refused),
        Err(Fault::Failed) => unreachable!(),
        Err(Fault::Memory) => Err(NoAnswer::Memory),
    }
}

/// Parses a text, and encodes each definition as soon as it is read, so that memory holds one.
fn parsed(alloc: Global, text: &str, file: usize) -> Result<String, Fault>
    ensures encoded { IfOk result (λ answer. IsEncodedTree file text.now (string_bytes answer)) }
    ensures refused { IfErr result (IfError (λ _. IsRefused text.now)) }
    ensures never_failed { IsErrOf result Failed → ⊥ }
{
    let lexer = Lexer::new(alloc, file, text)?;
    let mut parser = Parser::new(lexer);
    let mut answer = String::with_capacity(alloc, text.len())?;
    put_start(&mut answer)?;
    put_all(alloc, &mut parser, &mut answer)?;
    put_end(&mut answer)?;
    Ok(answer)
}

/// Encodes the remaining definitions of a parser.
fn put_all(alloc: Global, parser: &mut Parser, answer: &mut String) -> Result<(), Fault>
    requires ready { has_failed parser.old ≡ false }
    ensures put { (file : ℕ) (text : List ℕ) → IsAtStartIn file text parser.old
        → OnOk result (ArePut file text (string_bytes answer.old) (string_bytes answer.new)) }
    ensures refused { (file : ℕ) (text : List ℕ) → IsAtStartIn file text parser.old
        → IfErr result (IfError (λ _. IsRefused text)) }
    ensures never_failed { IsErrOf result Failed → ⊥ }
{
    while put_next(alloc, parser, answer)? {}
    Ok(())
}

/// Encodes the next definition, and returns whether there was one.
fn put_next(alloc: Global, parser: &mut Parser, answer: &mut String) -> Result<bool, Fault>
    ensures put { result ≡ Ok true
        → IsPutNext parser.old parser.new (string_bytes answer.old) (string_bytes answer.new) }
    ensures done { result ≡ Ok false → IsDone parser.old parser.new }
    ensures kept { result ≡ Ok false → string_bytes answer.new ≡ string_bytes answer.old }
    ensures refused { IfErr result (IfError (RefusesNext parser.old.cursor)) }
    ensures failed { IsErrOf result Failed ↔ (has_failed parser.old ≡ true) }
{
    let next = parser.next_def(alloc)?;
    let Some(def) = next else {
        return Ok(false);
    };
    let put = put_definition(answer, &def);
    drop_definition(def);
    match put {
        Ok(()) => Ok(true),
        Err(_) => Err(Fault::Memory),
    }
}
