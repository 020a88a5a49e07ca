//! The outputs of the exports, before they are written to the caller's slice.

ghost use Rattle.std.specs.Prelude.{◌≡◌, ◌≤◌, ◌-◌, ◌==◌, if◌then◌else◌, IfErr};
ghost use Rattle.std.specs.Prelude.{IfOk, IsUtf8, OnOk, length, slice_index, string_bytes};
ghost use Rattle.isle_c.specs.NoAnswers.{IsDiagnosticFailure, IsFormatFailure, IsRefusalFailure};
ghost use Rattle.isle_c.specs.NoAnswers.{status_of};
ghost use Rattle.isle_c.specs.Refusals.{IsDiagnosticOf, IsRefusedAt, Tells, place_at};
ghost use Rattle.isle_c.specs.declared.calls.NoAnswer.TheVariants.{Memory};
ghost use Rattle.isle_base.specs.Refusal.{RefusesIn};
ghost use Rattle.isle_syntax.specs.Format.{IsFormatted, IsRefused};
ghost use Rattle.isle_syntax.specs.Streaming.{IsRefusedWith};

use crate::slices::text_of;
use crate::{ACCEPTED, Answer, BAD_LENGTHS, MEMORY, NOT_UTF8, Place, REFUSED};
use isle_base::diagnostics::diagnostic;
use isle_syntax::error::Error;
use isle_syntax::files::LineMap;
use isle_syntax::lexer::Fault;
use std::alloc::{AllocError, AllocFailed, Global};

/// Why there is no output.
#[derive(Drop)]
pub enum NoAnswer {
    /// The text is valid, so that no error can be reported.
    Accepted,
    /// The text is rejected.
    Refused,
    /// A text isn't UTF-8.
    NotUtf8,
    /// Out of memory.
    Memory,
    /// The lengths of several texts do not add up to the slice's.
    BadLengths,
}

impl From<AllocError> for NoAnswer {
    ghost from_gives = { λ _ why. why ≡ Memory };

    fn from(_error: AllocError) -> NoAnswer {
        NoAnswer::Memory
    }
}

impl<T: Drop> From<AllocFailed<T>> for NoAnswer {
    ghost from_gives = { λ _ why. why ≡ Memory };

    fn from(_error: AllocFailed<T>) -> NoAnswer {
        NoAnswer::Memory
    }
}

impl NoAnswer {
    /// Its status.
    pub fn status(&self) -> u32
        ensures { result ≡ status_of self.now }
    {
        match self {
            NoAnswer::Accepted => ACCEPTED,
            NoAnswer::Refused => REFUSED,
            NoAnswer::NotUtf8 => NOT_UTF8,
            NoAnswer::Memory => MEMORY,
            NoAnswer::BadLengths => BAD_LENGTHS,
        }
    }

    /// The answer of a call without output.
    pub fn answer(&self) -> Answer
        ensures { result ≡ record { status = status_of self.now; len = 0 } }
    {
        Answer {
            status: self.status(),
            len: 0,
        }
    }
}

/// Why a text is rejected, and where.
#[derive(Drop)]
pub struct Refusal {
    /// The message of the error, without its kind.
    pub reason: String,
    /// The position of the error.
    pub place: Place,
}

pub fn formatted(alloc: Global, bytes: &[u8], width: usize) -> Result<String, NoAnswer>
    ensures ok { IfOk result (λ answer. IsFormatted width bytes.now (string_bytes answer)) }
    ensures utf8 { OnOk result (IsUtf8 bytes.now) }
    ensures err { IfErr result (IsFormatFailure bytes.now) }
{
    let text = text_of(bytes)?;
    let answer = print_of(alloc, text, width)?;
    Ok(answer)
}

/// The error with which the bytes are rejected.
pub fn refused(alloc: Global, bytes: &[u8]) -> Result<Error, NoAnswer>
    ensures ok { OnOk result (IsUtf8 bytes.now × IsRefused bytes.now) }
    ensures err { IfErr result (IsRefusalFailure bytes.now) }
{
    let text = text_of(bytes)?;
    let error = error_of(alloc, text)?;
    Ok(error)
}

/// Why and where the bytes are rejected.
pub fn refusal_of(alloc: Global, bytes: &[u8]) -> Result<Refusal, NoAnswer>
    ensures ok { IfOk result
        (λ refusal. IsRefusedAt bytes.now refusal.place (string_bytes refusal.reason)) }
    ensures utf8 { OnOk result (IsUtf8 bytes.now) }
    ensures err { IfErr result (IsRefusalFailure bytes.now) }
{
    let text = text_of(bytes)?;
    let error = error_of(alloc, text)?;
    let refusal = parts(alloc, text, error)?;
    Ok(refusal)
}

/// The diagnostic of a text that is rejected, under this file name.
pub fn diagnostic_of(alloc: Global, name: &[u8], text: &[u8]) -> Result<String, NoAnswer>
    ensures ok { IfOk result (λ shown. IsDiagnosticOf name.now text.now (string_bytes shown)) }
    ensures utf8 { OnOk result (IsUtf8 name.now × IsUtf8 text.now) }
    ensures err { IfErr result (IsDiagnosticFailure name.now text.now) }
{
    let name = text_of(name)?;
    let text = text_of(text)?;
    let error = error_of(alloc, text)?;
    let shown = diagnostic(alloc, name, text, error)?;
    Ok(shown)
}

/// The print of a text's tree.
fn print_of(alloc: Global, text: &str, width: usize) -> Result<String, NoAnswer>
    ensures ok { IfOk result (λ answer. IsFormatted width text.now (string_bytes answer)) }
    ensures err { IfErr result (IsFormatFailure text.now) }
{
    match isle_syntax::format(alloc, text, width) {
        Ok(answer) => Ok(answer),
        Err(Fault::Error(_)) => Err(NoAnswer::Refused),
        Err(Fault::Failed) => unreachable!(),
        Err(Fault::Memory) => Err(NoAnswer::Memory),
    }
}

/// The error with which a text is rejected.
fn error_of(alloc: Global, text: &str) -> Result<Error, NoAnswer>
    ensures ok { IfOk result (IsRefusedWith text.now) }
    ensures err { IfErr result (IsRefusalFailure text.now) }
{
    match isle_syntax::check(alloc, text) {
        Ok(()) => Err(NoAnswer::Accepted),
        Err(Fault::Error(error)) => Ok(error),
        Err(Fault::Failed) => unreachable!(),
        Err(Fault::Memory) => Err(NoAnswer::Memory),
    }
}

/// The reason and the place of an error.
pub fn parts(alloc: Global, text: &str, error: Error) -> Result<Refusal, AllocError>
    requires { RefusesIn 0 (length text.now) error }
    ensures { IfOk result
        (λ refusal. Tells text.now error refusal.place (string_bytes refusal.reason)) }
{
    match error {
        Error::ParseError { msg, span } => {
            let place = place_of(alloc, text, span.from.offset)?;
            Ok(Refusal { reason: msg, place })
        }
        _ => unreachable!(),
    }
}

fn place_of(alloc: Global, text: &str, offset: usize) -> Result<Place, AllocError>
    requires { offset ≤ length text.now }
    ensures { IfOk result (λ place. place ≡ place_at text.now offset) }
{
    let map = LineMap::from_str(alloc, text)?;
    let line = map.line(offset);
    let line_begin = line_begin(&map, line);
    Ok(Place {
        offset,
        line: line + 1,
        column: offset - line_begin + 1,
        line_begin,
        line_end: map.get(line).copied().unwrap_or(text.len()),
    })
}

fn line_begin(map: &LineMap, line: usize) -> usize
    requires { line ≤ length map.now }
    ensures { result ≡ (if line == 0 then 0 else slice_index map.now (line - 1)) }
{
    match line.checked_sub(1) {
        None => 0,
        Some(previous) => map[previous],
    }
}
