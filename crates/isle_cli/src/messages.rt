//! Messages of one line: `FILE:LINE:COLUMN: error: MESSAGE`, and the line that counts them.

ghost use Rattle.std.specs.Prelude.{◌≡◌, ◌+◌, ◌-◌, ◌^◌, ◌<◌, ◌≤◌, ◌==◌, IfOk, length};
ghost use Rattle.std.specs.Prelude.{if◌then◌else◌, slice_index, string_bytes};
ghost use Rattle.isle_base_source.specs.Lines.{column, line_ends};
ghost use Rattle.isle_base.specs.Refusal.{RefusesIn};
ghost use Rattle.isle_cli.specs.Messages.{count_text, counted, error_line, message_line};

use isle_base_source::error::Error;
use isle_base_source::files::LineMap;
use std::alloc::{AllocError, Global};

/// The line of a message about a place: `FILE:LINE:COLUMN: KIND: MESSAGE`, with its line end.
///
/// The place is a byte offset in the text, and `lines` are the text's. Lines are counted from 1,
/// and so are columns, in bytes.
pub fn message_line(
    alloc: Global,
    name: &str,
    text: &str,
    lines: &LineMap,
    offset: usize,
    kind: &str,
    message: &str,
) -> Result<String, AllocError>
    requires lines { lines.now ≡ line_ends text.now }
    requires small { offset + 1 < 2 ^ 64 }
    ensures { IfOk result (λ line. string_bytes line
        ≡ message_line (record { name = name.now; text = text.now }) offset kind.now message.now) }
{
    let number = lines.line(offset) + 1;
    let column = column_of(text, lines, offset) + 1;
    format!(in alloc; "{name}:{number}:{column}: {kind}: {message}\n")
}

/// The number of bytes before an offset in its line.
fn column_of(text: &str, lines: &LineMap, offset: usize) -> usize
    requires { lines.now ≡ line_ends text.now }
    ensures { result ≡ column text.now offset }
{
    offset - line_begin(lines, lines.line(offset))
}

/// The byte offset at which a line begins.
fn line_begin(lines: &LineMap, number: usize) -> usize
    requires { number ≤ length lines.now }
    ensures { result ≡ (if number == 0 then 0 else slice_index lines.now (number - 1)) }
{
    match number.checked_sub(1) {
        None => 0,
        Some(previous) => lines[previous],
    }
}

/// The line of an error in a text: `FILE:LINE:COLUMN: error: MESSAGE`, with its line end.
///
/// The text must have been rejected with this error, as file 0.
pub fn error_line(
    alloc: Global,
    name: &str,
    text: &str,
    error: &Error,
) -> Result<String, AllocError>
    requires { RefusesIn 0 (length text.now) error.now }
    ensures { IfOk result (λ line. string_bytes line
        ≡ error_line (record { name = name.now; text = text.now }) error.now) }
{
    let lines = LineMap::from_str(alloc, text)?;
    match error {
        Error::ParseError { msg, span } => {
            message_line(
                alloc,
                name,
                text,
                &lines,
                span.from.offset,
                "error",
                msg.as_str(),
            )
        }
        _ => unreachable!(),
    }
}

/// The line that counts errors and warnings, `found 2 errors and 1 warning`, with its line end;
/// empty if there are none.
pub fn count_line(alloc: Global, errors: usize, warnings: usize) -> Result<String, AllocError>
    ensures { IfOk result (λ line. string_bytes line ≡ count_text errors warnings) }
{
    if errors == 0 {
        if warnings == 0 {
            return Ok(String::new(alloc));
        }
        let warned = counted(alloc, warnings, "warning")?;
        return format!(in alloc; "found {warned}\n");
    }
    let refused = counted(alloc, errors, "error")?;
    if warnings == 0 {
        return format!(in alloc; "found {refused}\n");
    }
    let warned = counted(alloc, warnings, "warning")?;
    format!(in alloc; "found {refused} and {warned}\n")
}

/// A number and a noun, in the plural unless the number is 1.
pub fn counted(alloc: Global, number: usize, noun: &str) -> Result<String, AllocError>
    ensures { IfOk result (λ text. string_bytes text ≡ counted number noun.now) }
{
    if number == 1 {
        return format!(in alloc; "{number} {noun}");
    }
    format!(in alloc; "{number} {noun}s")
}
