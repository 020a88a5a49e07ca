//! Messages as JSON objects.

ghost use Rattle.std.specs.Prelude.{◌≡◌, IfOk, string_bytes};
ghost use Rattle.serde_json.specs.View.{view};
ghost use Rattle.isle_program.specs.reports.Messages.{message_of};
ghost use Rattle.isle_program.specs.reports.Objects.{IsObjectLine, kind_data, object_data};
ghost use Rattle.isle_program.specs.reports.Objects.{object_line};

use crate::reports::lines::Place;
use crate::reports::message::{Message, plain_text};
use serde_json::{Value, json};
use std::alloc::{AllocError, Global};

/// The object of a message about a place, with a line end. Its members are `column`, `file`,
/// `kind`, `line`, `message` and `severity`, in this order.
pub fn object_line(
    alloc: Global,
    name: &str,
    place: Place,
    message: &Message,
) -> Result<String, AllocError>
    ensures line { IfOk result (λ line. string_bytes line
        ≡ object_line name.now place.line place.column (message_of message.now)) }
    ensures reads_back { IfOk result (λ line. IsObjectLine
        (object_data name.now place.line place.column (message_of message.now))
        (string_bytes line)) }
{
    let object = object_value(alloc, name, place, message)?;
    let mut line = object.to_string(alloc)?;
    line.push_str("\n")?;
    Ok(line)
}

fn object_value(
    alloc: Global,
    name: &str,
    place: Place,
    message: &Message,
) -> Result<Value, AllocError>
    ensures { IfOk result (λ value. view value
        ≡ object_data name.now place.line place.column (message_of message.now)) }
{
    let text = plain_text(alloc, message)?;
    let kind = kind_value(alloc, message.kind)?;
    let severity = message.severity.word();
    let (line, column) = (place.line, place.column);
    json!(in alloc; {
        "file": name,
        "line": line,
        "column": column,
        "severity": severity,
        "kind": kind,
        "message": &text
    })
}

/// The name of a kind; null for none.
fn kind_value(alloc: Global, kind: &str) -> Result<Value, AllocError>
    ensures { IfOk result (λ value. view value ≡ kind_data kind.now) }
{
    if kind.is_empty() {
        return Ok(Value::Null);
    }
    Value::try_from_str(alloc, kind)
}
