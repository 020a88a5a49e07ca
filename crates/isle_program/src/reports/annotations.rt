//! Messages as workflow commands of GitHub, which it shows as annotations.

ghost use Rattle.std.specs.Prelude.{◌≡◌, ◌++◌, IfOk, OnOk, option_map, string_bytes};
ghost use Rattle.isle_program.specs.reports.Annotations.{annotation, command_word, escape_of};
ghost use Rattle.isle_program.specs.reports.Annotations.{escaped_char, escaped_text, title_text};
ghost use Rattle.isle_program.specs.reports.Annotations.{property_escape_of};
ghost use Rattle.isle_program.specs.reports.Messages.{message_of};

use crate::reports::lines::Place;
use crate::reports::message::{Message, Severity, plain_text};
use std::alloc::{AllocError, Global};

/// The command that annotates a place, with a line end:
/// `::error file=FILE,line=LINE,col=COLUMN,title=KIND::MESSAGE`.
pub fn annotation(
    alloc: Global,
    name: &str,
    place: Place,
    message: &Message,
) -> Result<String, AllocError>
    ensures { IfOk result (λ text. string_bytes text
        ≡ annotation name.now place.line place.column (message_of message.now)) }
{
    let command = command_word(message.severity);
    let (line, column) = (place.line, place.column);
    let file = escaped_text(alloc, name, true)?;
    let title = title_text(alloc, message.kind)?;
    let plain = plain_text(alloc, message)?;
    let text = escaped_text(alloc, plain.as_str(), false)?;
    format!(in alloc; "::{command} file={file},line={line},col={column}{title}::{text}\n")
}

/// The name of the command.
fn command_word(severity: Severity) -> &'static str
    ensures { result.now ≡ command_word severity }
{
    match severity {
        Severity::Error => "error",
        Severity::Warning => "warning",
        Severity::Note => "notice",
    }
}

/// The property that has the kind; nothing for none.
fn title_text(alloc: Global, kind: &str) -> Result<String, AllocError>
    ensures { IfOk result (λ text. string_bytes text ≡ title_text kind.now) }
{
    if kind.is_empty() {
        return Ok(String::new(alloc));
    }
    let title = escaped_text(alloc, kind, true)?;
    format!(in alloc; ",title={title}")
}

/// The text with its escapes, as the value of a property or as the message.
fn escaped_text(alloc: Global, text: &str, is_property: bool) -> Result<String, AllocError>
    ensures { IfOk result (λ escaped. string_bytes escaped ≡ escaped_text is_property text.now) }
{
    let mut escaped = String::new(alloc);
    for char in text.chars() {
        push_escaped(&mut escaped, char, is_property)?;
    }
    Ok(escaped)
}

/// Adds a character, or its escape.
fn push_escaped(text: &mut String, char: char, is_property: bool) -> Result<(), AllocError>
    ensures { OnOk result (string_bytes text.new
        ≡ string_bytes text.old ++ escaped_char is_property char) }
{
    let escape = if is_property {
        property_escape_of(char)
    } else {
        escape_of(char)
    };
    match escape {
        Some(escape) => text.push_str(escape),
        None => text.push(char),
    }
}

/// The escape of a character, if it needs one in the value of a property.
fn property_escape_of(char: char) -> Option<&'static str>
    ensures { option_map (λ escape. escape.now) result ≡ property_escape_of char }
{
    match char {
        ':' => Some("%3A"),
        ',' => Some("%2C"),
        _ => escape_of(char),
    }
}

/// The escape of a character, if it needs one in a message.
fn escape_of(char: char) -> Option<&'static str>
    ensures { option_map (λ escape. escape.now) result ≡ escape_of char }
{
    match char {
        '%' => Some("%25"),
        '\r' => Some("%0D"),
        '\n' => Some("%0A"),
        _ => None,
    }
}
