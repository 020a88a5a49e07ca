//! Messages about places, in each format.

ghost use Rattle.std.specs.Prelude.{◌≡◌, ◌+◌, ◌-◌, ◌^◌, ◌<◌, ◌≤◌, ◌==◌, IfOk, length};
ghost use Rattle.std.specs.Prelude.{if◌then◌else◌, slice_index, string_bytes};
ghost use Rattle.isle_base_source.specs.Lines.{column, line, line_ends};
ghost use Rattle.isle_cli.specs.Sources.{source_of};
ghost use Rattle.isle_program.specs.reports.Lines.{IsInFormat, told_line};
ghost use Rattle.isle_program.specs.reports.Messages.{message_of};

use crate::reports::annotations::annotation;
use crate::reports::colours::coloured_line;
use crate::reports::format::Format;
use crate::reports::message::{Message, shown_text};
use crate::reports::objects::object_line;
use isle_base_source::files::LineMap;
use isle_cli::messages::message_line;
use isle_cli::sources::Source;
use std::alloc::{AllocError, Global};

/// A place in a text: its line and its column, both counted from 1. Columns are in bytes.
#[derive(Clone, Copy)]
pub(crate) struct Place {
    pub line: usize,
    pub column: usize,
}

/// The line of a message about a byte offset, with its line end. `lines` are the text's.
pub fn told_line(
    alloc: Global,
    format: Format,
    source: &Source,
    lines: &LineMap,
    offset: usize,
    message: &Message,
) -> Result<String, AllocError>
    requires { lines.now ≡ line_ends (string_bytes source.now.text) }
    ensures line { IfOk result (λ line. string_bytes line
        ≡ told_line format (source_of source.now) offset (message_of message.now)) }
    ensures format { IfOk result (λ line. IsInFormat format (source_of source.now) offset
        (message_of message.now) (string_bytes line)) }
{
    let name = source.name.as_str();
    let text = source.text.as_str();
    let offset = offset.min(usize::MAX - 1);
    match format {
        Format::Human => {
            let shown = shown_text(alloc, message)?;
            let severity = message.severity.word();
            message_line(alloc, name, text, lines, offset, severity, shown.as_str())
        }
        Format::Coloured => coloured_line(alloc, name, place_of(text, lines, offset), message),
        Format::Json => object_line(alloc, name, place_of(text, lines, offset), message),
        Format::Github => annotation(alloc, name, place_of(text, lines, offset), message),
    }
}

/// The place of a byte offset. `lines` are the text's.
fn place_of(text: &str, lines: &LineMap, offset: usize) -> Place
    requires lines { lines.now ≡ line_ends text.now }
    requires small { offset + 1 < 2 ^ 64 }
    ensures line { result.line ≡ line text.now offset + 1 }
    ensures column { result.column ≡ column text.now offset + 1 }
{
    let number = lines.line(offset);
    Place {
        line: number + 1,
        column: offset - line_begin(lines, number) + 1,
    }
}

/// The byte offset at which a line begins.
fn line_begin(lines: &LineMap, number: usize) -> usize
    requires { number ≤ length lines.now }
    ensures { result ≡ (if number == 0 then 0 else slice_index lines.now (number - 1)) }
{
    match number.checked_sub(1) {
        None => 0,
        Some(previous) => lines[previous],
    }
}
