//! The errors of texts that do not parse, and the line that counts what is told.

ghost use Rattle.std.specs.Prelude.{◌≡◌, IfOk, map, slice_get, string_bytes};
ghost use Rattle.isle_base_source.specs.Lines.{line_ends};
ghost use Rattle.isle_cli.specs.Sources.{source_of};
ghost use Rattle.isle_program.specs.reports.Refusals.{is_refused, told_count, told_refusal};
ghost use Rattle.isle_program.specs.reports.Refusals.{told_refusal_of, told_refusals};

use crate::reports::format::Format;
use crate::reports::lines::told_line;
use crate::reports::message::{Message, Severity};
use isle_base_source::error::Error;
use isle_base_source::files::LineMap;
use isle_cli::messages::count_line;
use isle_cli::sources::Source;
use std::alloc::{AllocError, Global};

/// The lines of the texts that do not parse, in order: the error of each, at its position.
pub fn told_refusals(
    alloc: Global,
    format: Format,
    sources: &[Source],
    refusals: &[Option<Error>],
) -> Result<String, AllocError>
    ensures { IfOk result (λ lines. string_bytes lines
        ≡ told_refusals format 0 (map source_of sources.now) refusals.now) }
{
    let mut lines = String::new(alloc);
    for (file, source) in sources.iter().enumerate() {
        let line = told_refusal_of(alloc, format, source, file, refusals)?;
        lines.push_str(line.as_str())?;
    }
    Ok(lines)
}

/// Returns whether the text with this number does not parse.
pub fn is_refused(refusals: &[Option<Error>], file: usize) -> bool
    ensures { result ≡ is_refused (slice_get refusals.now file) }
{
    match refusals.get(file) {
        Some(Some(_)) => true,
        Some(None) | None => false,
    }
}

/// The line of the text with this number; empty if it parses.
pub fn told_refusal_of(
    alloc: Global,
    format: Format,
    source: &Source,
    file: usize,
    refusals: &[Option<Error>],
) -> Result<String, AllocError>
    ensures { IfOk result (λ line. string_bytes line
        ≡ told_refusal_of format (source_of source.now) (slice_get refusals.now file)) }
{
    match refusals.get(file) {
        Some(Some(error)) => {
            let lines = LineMap::from_str(alloc, source.text.as_str())?;
            told_refusal(alloc, format, source, &lines, error)
        }
        _ => Ok(String::new(alloc)),
    }
}

/// The line of a text that does not parse. `lines` are the text's.
pub fn told_refusal(
    alloc: Global,
    format: Format,
    source: &Source,
    lines: &LineMap,
    error: &Error,
) -> Result<String, AllocError>
    requires { lines.now ≡ line_ends (string_bytes source.now.text) }
    ensures { IfOk result (λ line. string_bytes line
        ≡ told_refusal format (source_of source.now) error.now) }
{
    match error {
        Error::ParseError { msg, span } => {
            let message = Message {
                severity: Severity::Error,
                kind: "",
                text: msg.as_str(),
                programs: "",
            };
            told_line(alloc, format, source, lines, span.from.offset, &message)
        }
        _ => Ok(String::new(alloc)),
    }
}

/// The line that counts errors and warnings, for people; empty in the other formats, and if there
/// are none.
pub fn told_count(
    alloc: Global,
    format: Format,
    errors: usize,
    warnings: usize,
) -> Result<String, AllocError>
    ensures { IfOk result (λ line. string_bytes line ≡ told_count format errors warnings) }
{
    match format {
        Format::Human | Format::Coloured => count_line(alloc, errors, warnings),
        Format::Json | Format::Github => Ok(String::new(alloc)),
    }
}
