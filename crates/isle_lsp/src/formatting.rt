//! The edits that format a document.

ghost use Rattle.std.specs.Prelude.{◌≡◌, IfErr, IfOk};
ghost use Rattle.serde_json.specs.View.{view};
ghost use Rattle.isle_cli.specs.declared.failure.Failure.TheVariants.{Memory};
ghost use Rattle.isle_lsp.specs.Alone.{IsFormattingWithin};
ghost use Rattle.isle_lsp.specs.Formatted.{IsChange, IsFormatting, is_blank_at, is_blank_line};

use isle_base::lexer::Fault;
use isle_cli::failure::Failure;
use isle_lsp_ranges::lines::{edits_value, range_formatting};
use isle_lsp_text::edits::edits;
use isle_lsp_text::positions::{PositionEncoding, Range, offset_of};
use isle_tidy_core::tidy;
use serde_json::Value;
use std::alloc::{AllocError, Global};

/// The edits that format a text, or null if it cannot be formatted. The only error is `Memory`.
pub fn formatting(alloc: Global, encoding: PositionEncoding, text: &str) -> Result<Value, Failure>
    ensures ok { IfOk result (λ value. IsFormatting encoding text.now (view value)) }
    ensures err { IfErr result (λ failure. failure ≡ Memory) }
{
    match tidy(alloc, text) {
        Ok(tidy) => Ok(edits_between(alloc, encoding, text, tidy.as_str())?),
        Err(Fault::Error(_)) => Ok(Value::Null),
        Err(Fault::Failed | Fault::Memory) => Err(Failure::Memory),
    }
}

/// The edits that format the lines of a range of a text, or null if the text cannot be formatted.
/// The only error is `Memory`.
pub fn formatting_within(
    alloc: Global,
    encoding: PositionEncoding,
    text: &str,
    range: Range,
) -> Result<Value, Failure>
    ensures ok { IfOk result (λ value. IsFormattingWithin encoding text.now range (view value)) }
    ensures err { IfErr result (λ failure. failure ≡ Memory) }
{
    match tidy(alloc, text) {
        Ok(tidy) => Ok(range_formatting(alloc, encoding, text, tidy.as_str(), range)?),
        Err(Fault::Error(_)) => Ok(Value::Null),
        Err(Fault::Failed | Fault::Memory) => Err(Failure::Memory),
    }
}

/// Returns whether the line at which a range begins is blank.
pub fn is_blank_at(encoding: PositionEncoding, text: &str, range: Option<Range>) -> bool
    ensures { result ≡ is_blank_at encoding text.now range }
{
    match range {
        Some(range) => is_blank_line(&text.as_bytes()[offset_of(encoding, text, range.start)..]),
        None => false,
    }
}

/// Returns whether a line is blank, by the text from its start on.
fn is_blank_line(bytes: &[u8]) -> bool
    ensures { result ≡ is_blank_line bytes.now }
{
    for byte in bytes {
        match byte {
            b'\n' | b'\r' => return true,
            b' ' | b'\t' => {}
            _ => return false,
        }
    }
    true
}

/// The edits that turn one text into another.
fn edits_between(
    alloc: Global,
    encoding: PositionEncoding,
    old: &str,
    new: &str,
) -> Result<Value, AllocError>
    ensures { IfOk result (λ value. IsChange encoding old.now new.now (view value)) }
{
    let edits = edits(alloc, old, new)?;
    edits_value(alloc, encoding, old, new, &edits)
}
