//! The results of requests, and their parts.

ghost use Rattle.std.specs.Prelude.{◌≡◌, IfOk};
ghost use Rattle.serde_json.specs.View.{view};
ghost use Rattle.isle_lsp_protocol.specs.Results as wanted;

use isle_lsp_text::positions::{Position, Range};
use serde_json::{Value, json, put};
use std::alloc::{AllocError, Global};

fn position_value(alloc: Global, position: Position) -> Result<Value, AllocError>
    ensures { IfOk result (λ value. view value ≡ wanted.position_data position) }
{
    json!(in alloc; {"line": position.line, "character": position.unit})
}

/// A range as JSON.
pub fn range_value(alloc: Global, range: Range) -> Result<Value, AllocError>
    ensures { IfOk result (λ value. view value ≡ wanted.range_data range) }
{
    let start = position_value(alloc, range.start)?;
    let end = position_value(alloc, range.end)?;
    json!(in alloc; {"start": start, "end": end})
}

/// An edit that replaces a range with a text.
pub fn text_edit(alloc: Global, range: Range, text: &str) -> Result<Value, AllocError>
    ensures { IfOk result (λ value. view value ≡ wanted.text_edit range text.now) }
{
    let range = range_value(alloc, range)?;
    json!(in alloc; {"range": range, "newText": text})
}

/// Sets the documentation of a completion item, in Markdown.
pub fn with_documentation(alloc: Global, item: &Value, shown: &str) -> Result<Value, AllocError>
    ensures { IfOk result
        (λ value. view value ≡ wanted.with_documentation (view item.now) shown.now) }
{
    match item.clone()? {
        Value::Object(mut members) => {
            let documentation = markdown(alloc, shown)?;
            put(&mut members, alloc, "documentation", documentation)?;
            Ok(Value::Object(members))
        }
        other => Ok(other),
    }
}

/// A text in Markdown.
fn markdown(alloc: Global, shown: &str) -> Result<Value, AllocError>
    ensures { IfOk result (λ value. view value ≡ wanted.markdown shown.now) }
{
    json!(in alloc; {"kind": "markdown", "value": shown})
}

/// The hover of the name in a range, in Markdown.
pub fn hover_value(alloc: Global, shown: &str, range: Range) -> Result<Value, AllocError>
    ensures { IfOk result (λ value. view value ≡ wanted.hover shown.now range) }
{
    let range = range_value(alloc, range)?;
    let contents = markdown(alloc, shown)?;
    json!(in alloc; {"contents": contents, "range": range})
}

/// A definition whose calls may be asked about.
#[derive(Clone, Copy)]
pub struct CallItem<'a> {
    /// The defined name.
    pub name: &'a str,
    /// The document's URI.
    pub uri: &'a str,
    /// The whole definition.
    pub range: Range,
    /// The name.
    pub selection: Range,
}

/// An item of the call hierarchy. Its kind is 12, that of functions.
pub fn call_item(alloc: Global, item: CallItem) -> Result<Value, AllocError>
    ensures { IfOk result (λ value. view value ≡ wanted.call_item item.entry.name.now
        item.entry.uri.now item.entry.range item.entry.selection) }
{
    let range = range_value(alloc, item.range)?;
    let selection = range_value(alloc, item.selection)?;
    json!(in alloc; {
        "kind": 12,
        "name": item.name,
        "range": range,
        "selectionRange": selection,
        "uri": item.uri
    })
}

/// The calls in these ranges, by the item that makes them.
pub fn incoming_call(alloc: Global, from: Value, ranges: &[Range]) -> Result<Value, AllocError>
    ensures { IfOk result
        (λ value. view value ≡ wanted.incoming_call (view from) ranges.now) }
{
    let ranges = ranges_value(alloc, ranges)?;
    json!(in alloc; {"from": from, "fromRanges": ranges})
}

/// The calls in these ranges, of this item.
pub fn outgoing_call(alloc: Global, to: Value, ranges: &[Range]) -> Result<Value, AllocError>
    ensures { IfOk result
        (λ value. view value ≡ wanted.outgoing_call (view to) ranges.now) }
{
    let ranges = ranges_value(alloc, ranges)?;
    json!(in alloc; {"fromRanges": ranges, "to": to})
}

fn ranges_value(alloc: Global, ranges: &[Range]) -> Result<Value, AllocError>
    ensures { IfOk result (λ value. view value ≡ wanted.ranges_data ranges.now) }
{
    let mut values = Vec::new(alloc);
    for range in ranges {
        values.push(range_value(alloc, *range)?)?;
    }
    Ok(Value::Array(values))
}
