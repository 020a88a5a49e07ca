//! Writing a tidy text piece by piece, so that memory never holds all of it; and, for a diff, the
//! whole of it.

ghost use Rattle.std.specs.Prelude.{◌≡◌, ◌≢◌, ◌<◌, List, Ok, ℕ, IfErr, IfOk, OnOk, false, length};
ghost use Rattle.std.specs.Prelude.{string_bytes, true};
ghost use Rattle.isle_base.specs.Steps.{IfError};
ghost use Rattle.isle_base.specs.declared.fault.Fault.TheVariants.{Failed};
ghost use Rattle.std.specs.Io.KnownBytes.{Appends};
ghost use Rattle.isle_cli.specs.Streams.{AppendsBeginning, Writes};
ghost use Rattle.isle_cli.specs.declared.failure.Failure.TheVariants.{Output};
ghost use Rattle.isle_tidy_core.specs.Refused.{HasNoDocument, IsRefusedFor, IsWithin};
ghost use Rattle.isle_tidy_core.specs.Streams.{HasWritten};
ghost use Rattle.isle_tidy_core.specs.Tidied.{IsTidyTextOf};
ghost use Rattle.isle_tidy.specs.Doing.{IsJudged, IsTidyFailure};
ghost use Rattle.isle_tidy.specs.Pieces.{CutsRest, FailsPiece, FailsTidied, PutsPiece, PutsRest};

use crate::in_place::{WriteFault, write_fault_of};
use isle_base::lexer::Fault;
use isle_cli::failure::Failure;
use isle_cli::messages::error_line;
use isle_cli::streams::write_whole;
use isle_tidy_core::tidying::Tidying;
use isle_tidy_core::{is_tidy, tidy};
use std::alloc::Global;
use std::io::Write;

/// The fewest bytes that are written at once, except at the end.
const PIECE: usize = 64 * 1024;

/// The failure for a fault in a text of this name.
fn failure_of(alloc: Global, name: &str, text: &str, fault: Fault) -> Failure
    requires refused { IfError (λ e. HasNoDocument text.now
        × IsRefusedFor text.now e × IsWithin (length text.now) e) fault }
    requires never_failed { fault ≢ Failed }
    ensures { IsTidyFailure result name.now text.now }
{
    match fault {
        Fault::Error(error) => match error_line(alloc, name, text, &error) {
            Ok(line) => Failure::Refused(line),
            Err(_) => Failure::Memory,
        },
        Fault::Failed => unreachable!(),
        Fault::Memory => Failure::Memory,
    }
}

/// Returns whether a text is untidy, or why it can't be tidied.
pub fn is_untidy(alloc: Global, name: &str, text: &str) -> Result<bool, Failure>
    ensures ok { IfOk result (λ is_untidy. IsJudged text.now is_untidy) }
    ensures err { IfErr result (λ failure. IsTidyFailure failure name.now text.now) }
{
    match is_tidy(alloc, text) {
        Ok(is_tidy) => Ok(!is_tidy),
        Err(fault) => Err(failure_of(alloc, name, text, fault)),
    }
}

/// The tidy text of a text, or why it can't be tidied.
pub fn tidied(alloc: Global, name: &str, text: &str) -> Result<String, Failure>
    ensures ok { IfOk result (λ tidy. IsTidyTextOf text.now (string_bytes tidy)) }
    ensures err { IfErr result (λ failure. IsTidyFailure failure name.now text.now) }
{
    match tidy(alloc, text) {
        Ok(tidy) => Ok(tidy),
        Err(fault) => Err(failure_of(alloc, name, text, fault)),
    }
}

/// Writes a text to the output. After an error the output has a beginning of it, and `fault` is
/// why.
fn put_noting<W: Write>(output: &mut W, text: &str, fault: &mut WriteFault) -> Result<(), Failure>
    ensures ok { OnOk result (Appends (W.contents output.old) (W.contents output.new) text.now) }
    ensures err { IfErr result (λ failure. (failure ≡ Output)
        × AppendsBeginning (W.contents output.old) (W.contents output.new) text.now) }
{
    match write_whole(output, text.as_bytes()) {
        Ok(()) => Ok(()),
        Err(error) => {
            *fault = write_fault_of(&error);
            Err(Failure::Output)
        }
    }
}

/// Writes the next piece of a tidy text, and returns whether there are more.
fn put_piece<W: Write>(
    tidying: &mut Tidying<'_>,
    piece: &mut String,
    output: &mut W,
    fault: &mut WriteFault,
) -> Result<bool, Failure>
    requires { (text before : List ℕ) × HasWritten text before tidying.old }
    ensures more { result ≡ Ok true → PutsPiece tidying.old tidying.new
        (W.contents output.old) (W.contents output.new) }
    ensures moves { result ≡ Ok true → tidying.old.at < tidying.new.at }
    ensures last { result ≡ Ok false
        → PutsRest tidying.old (W.contents output.old) (W.contents output.new) }
    ensures err { IfErr result (λ failure. FailsPiece failure tidying.old
        (W.contents output.old) (W.contents output.new)) }
{
    piece.clear();
    match tidying.put_some(piece, PIECE) {
        Ok(more) => match put_noting(output, piece.as_str(), fault) {
            Ok(()) => Ok(more),
            Err(failure) => Err(failure),
        },
        Err(_) => Err(Failure::Memory),
    }
}

/// Writes the pieces of a tidy text after the first. If memory runs out, it fails with `Output`,
/// since the output then has a beginning of the text.
fn put_others<W: Write>(
    tidying: &mut Tidying<'_>,
    piece: &mut String,
    output: &mut W,
    fault: &mut WriteFault,
) -> Result<(), Failure>
    requires { (text before : List ℕ) × HasWritten text before tidying.old }
    ensures ok { OnOk result (PutsRest tidying.old
        (W.contents output.old) (W.contents output.new)) }
    ensures err { IfErr result (λ failure. (failure ≡ Output)
        × CutsRest tidying.old (W.contents output.old) (W.contents output.new)) }
{
    loop {
        match put_piece(tidying, piece, output, fault) {
            Ok(true) => {}
            Ok(false) => return Ok(()),
            Err(_) => return Err(Failure::Output),
        }
    }
}

/// Writes the pieces of a tidy text.
fn put_pieces<W: Write>(
    alloc: Global,
    tidying: &mut Tidying<'_>,
    output: &mut W,
    fault: &mut WriteFault,
) -> Result<(), Failure>
    requires { (text before : List ℕ) × HasWritten text before tidying.old }
    ensures ok { OnOk result (PutsRest tidying.old
        (W.contents output.old) (W.contents output.new)) }
    ensures err { IfErr result (λ failure. FailsPiece failure tidying.old
        (W.contents output.old) (W.contents output.new)) }
{
    let mut piece = String::new(alloc);
    match put_piece(tidying, &mut piece, output, fault) {
        Ok(true) => put_others(tidying, &mut piece, output, fault),
        Ok(false) => Ok(()),
        Err(failure) => Err(failure),
    }
}

/// Writes the tidy text of a text. `name` is the text's name in messages. If the output fails,
/// `fault` is why.
pub fn put_tidied<W: Write>(
    alloc: Global,
    name: &str,
    text: &str,
    output: &mut W,
    fault: &mut WriteFault,
) -> Result<(), Failure>
    ensures ok { OnOk result (Writes (W.contents output.old) (W.contents output.new)
        (IsTidyTextOf text.now)) }
    ensures err { IfErr result (λ failure. FailsTidied failure name.now text.now
        (W.contents output.old) (W.contents output.new)) }
{
    match Tidying::new(alloc, text) {
        Ok(tidying) => {
            let mut tidying = tidying;
            put_pieces(alloc, &mut tidying, output, fault)
        }
        Err(fault) => Err(failure_of(alloc, name, text, fault)),
    }
}
