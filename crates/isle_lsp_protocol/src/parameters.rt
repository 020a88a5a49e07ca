//! The parameters of a client's messages.

ghost use Rattle.std.specs.Prelude.{◌≡◌, ◌∷◌, [], IfOk, Some, map, option_and_then};
ghost use Rattle.std.specs.Prelude.{option_map, string_bytes};
ghost use Rattle.serde_json.specs.Find.{as_array, as_str, pointer};
ghost use Rattle.serde_json.specs.View.{items_view, view};
ghost use Rattle.isle_lsp_protocol.specs.Parameters as wanted;

use isle_lsp_frames::uris;
use isle_lsp_text::changes::apply_change;
use isle_lsp_text::positions::{Position, PositionEncoding, Range};
use serde_json::Value;
use std::alloc::{AllocError, Global};

/// The URI of the document that a message names, or that of the item of the call hierarchy in it.
pub fn uri_of(message: &Value) -> Option<&str>
    ensures { option_map (λ uri. uri.now) result ≡ wanted.uri_of (view message.now) }
{
    match at_either(message, "/params/textDocument/uri", "/params/item/uri") {
        Some(uri) => uri.as_str(),
        None => None,
    }
}

/// What a message has at the first of these paths, or else at the second.
fn at_either<'a>(message: &'a Value, first: &str, second: &str) -> Option<&'a Value>
    ensures { option_map (λ value. view value.now) result
        ≡ wanted.at_either first.now second.now (view message.now) }
{
    match message.pointer(first) {
        Some(value) => Some(value),
        None => message.pointer(second),
    }
}

/// The text of the opened document.
pub fn text_of(message: &Value) -> Option<&str>
    ensures { option_map (λ text. text.now) result ≡ wanted.text_of (view message.now) }
{
    message
        .pointer("/params/textDocument/text")
        .and_then(Value::as_str)
}

/// The position in a message, or where the name begins of the item of the call hierarchy in it.
pub fn position_of(message: &Value) -> Option<Position>
    ensures { result ≡ wanted.position_of (view message.now) }
{
    match at_either(
        message,
        "/params/position",
        "/params/item/selectionRange/start",
    ) {
        Some(position) => position_in(position),
        None => None,
    }
}

/// The range in a message.
pub fn range_of(message: &Value) -> Option<Range>
    ensures { result ≡ wanted.range_of (view message.now) }
{
    match message.pointer("/params/range") {
        Some(range) => range_in(range),
        None => None,
    }
}

/// The range of the line to format after a character is typed: after a line break the line before
/// the position in the message, and otherwise the line of this position.
pub fn typed_range(message: &Value) -> Option<Range>
    ensures { result ≡ wanted.typed_range (view message.now) }
{
    match position_of(message) {
        Some(position) => Some(typed_line(breaks_line(message), position)),
        None => None,
    }
}

/// Returns whether a message tells that a line break is typed.
fn breaks_line(message: &Value) -> bool
    ensures { result ≡ wanted.breaks_line (view message.now) }
{
    match message.pointer("/params/ch").and_then(Value::as_str) {
        Some(typed) => typed == "\n",
        None => false,
    }
}

/// The range of the line before a position, or of its own line up to it.
fn typed_line(breaks_line: bool, position: Position) -> Range
    ensures { result ≡ wanted.typed_line breaks_line position }
{
    let line = position.line;
    if breaks_line {
        Range {
            start: Position {
                line: line.saturating_sub(1),
                unit: 0,
            },
            end: Position { line, unit: 0 },
        }
    } else {
        Range {
            start: Position { line, unit: 0 },
            end: position,
        }
    }
}

/// The positions in a message, or `None` if it has none or if one of them is not a position.
pub fn positions_of(alloc: Global, message: &Value) -> Result<Option<Vec<Position>>, AllocError>
    ensures { IfOk result (λ positions. option_map (λ found. found.items) positions
        ≡ wanted.positions_of (view message.now)) }
{
    match array_at(message, "/params/positions") {
        Some(values) => positions_in(alloc, values),
        None => Ok(None),
    }
}

fn positions_in(alloc: Global, values: &[Value]) -> Result<Option<Vec<Position>>, AllocError>
    ensures { IfOk result (λ positions. option_map (λ found. found.items) positions
        ≡ wanted.positions_in (items_view values.now)) }
{
    let mut positions = Vec::new(alloc);
    for value in values {
        match position_in(value) {
            Some(position) => positions.push(position)?,
            None => return Ok(None),
        }
    }
    Ok(Some(positions))
}

/// The new name in a request to rename.
pub fn new_name_of(message: &Value) -> Option<&str>
    ensures { option_map (λ name. name.now) result ≡ wanted.new_name_of (view message.now) }
{
    message.pointer("/params/newName").and_then(Value::as_str)
}

/// The completion item in a request to resolve it.
pub fn item_of(message: &Value) -> Option<&Value>
    ensures { option_map (λ item. view item.now) result ≡ wanted.item_of (view message.now) }
{
    match message.get("params") {
        Some(item) if item.is_object() => Some(item),
        _ => None,
    }
}

/// The label of a completion item, which is its name as written.
pub fn label_of(item: &Value) -> Option<&str>
    ensures { option_map (λ label. label.now) result ≡ wanted.label_of (view item.now) }
{
    item.get("label").and_then(Value::as_str)
}

/// The protocol's number of the kind of a completion item.
pub fn kind_of(item: &Value) -> Option<u64>
    ensures { result ≡ wanted.kind_of (view item.now) }
{
    item.get("kind").and_then(Value::as_u64)
}

/// The query of a request for workspace symbols.
pub fn query_of(message: &Value) -> Option<&str>
    ensures { option_map (λ query. query.now) result ≡ wanted.query_of (view message.now) }
{
    message.pointer("/params/query").and_then(Value::as_str)
}

/// Returns whether a request for references asks for definitions too.
pub fn wants_definitions(message: &Value) -> bool
    ensures { result ≡ wanted.wants_definitions (view message.now) }
{
    match message.pointer("/params/context/includeDeclaration") {
        Some(value) => value.as_bool() == Some(true),
        None => false,
    }
}

/// The version of the document that a message names.
pub fn version_of(message: &Value) -> Option<i64>
    ensures { result ≡ wanted.version_of (view message.now) }
{
    message
        .pointer("/params/textDocument/version")
        .and_then(Value::as_i64)
}

/// Returns whether the client of an `initialize` takes edits of documents that have versions.
pub fn takes_document_changes(message: &Value) -> bool
    ensures { result ≡ wanted.takes_document_changes (view message.now) }
{
    match message.pointer("/params/capabilities/workspace/workspaceEdit/documentChanges") {
        Some(value) => value.as_bool() == Some(true),
        None => false,
    }
}

/// Returns whether the client of an `initialize` watches the files that a server names.
pub fn watches_files(message: &Value) -> bool
    ensures { result ≡ wanted.watches_files (view message.now) }
{
    let path = "/params/capabilities/workspace/didChangeWatchedFiles/dynamicRegistration";
    match message.pointer(path) {
        Some(value) => value.as_bool() == Some(true),
        None => false,
    }
}

/// The encoding of positions in a session: UTF-8 if the client of an `initialize` offers it, and
/// else UTF-16, which every client supports.
pub fn encoding_of(message: &Value) -> PositionEncoding
    ensures { result ≡ wanted.encoding_of (view message.now) }
{
    match array_at(message, "/params/capabilities/general/positionEncodings") {
        Some(offered) if has_text(offered, "utf-8") => PositionEncoding::Utf8,
        _ => PositionEncoding::Utf16,
    }
}

/// Returns whether one of these values is this text.
fn has_text(values: &[Value], text: &str) -> bool
    ensures { result ≡ wanted.has_text text.now (items_view values.now) }
{
    for value in values {
        if value.as_str() == Some(text) {
            return true;
        }
    }
    false
}

/// The URIs of the folders that the client of an `initialize` works in.
///
/// Those of `workspaceFolders`; if there are none, `rootUri`, or else the URI of `rootPath`.
pub fn folders_of(alloc: Global, message: &Value) -> Result<Vec<String>, AllocError>
    ensures { IfOk result
        (λ folders. map string_bytes folders.items ≡ wanted.folders_of (view message.now)) }
{
    match array_at(message, "/params/workspaceFolders") {
        Some(folders) => folders_with(alloc, folders, message),
        None => root_of(alloc, message),
    }
}

/// The folders of a message with this `workspaceFolders`.
fn folders_with(
    alloc: Global,
    folders: &[Value],
    message: &Value,
) -> Result<Vec<String>, AllocError>
    ensures { IfOk result (λ found. map string_bytes found.items
        ≡ wanted.folders_with (Some (items_view folders.now)) (view message.now)) }
{
    if folders.is_empty() {
        return root_of(alloc, message);
    }
    uris_in(alloc, folders)
}

/// The URIs of the folders after `workspace/didChangeWorkspaceFolders`: those of before without the
/// removed ones, and the added ones that are not among them.
pub fn folders_after(
    alloc: Global,
    message: &Value,
    folders: &[String],
) -> Result<Vec<String>, AllocError>
    ensures { IfOk result (λ after. map string_bytes after.items
        ≡ wanted.folders_after (view message.now) (map string_bytes folders.now)) }
{
    let removed = uris_at(alloc, message, "/params/event/removed")?;
    let added = uris_at(alloc, message, "/params/event/added")?;
    let kept = without(alloc, &removed, folders)?;
    with_all(alloc, kept, &added)
}

fn array_at<'a>(message: &'a Value, path: &str) -> Option<&'a [Value]>
    ensures { option_map (λ items. items_view items.now) result
        ≡ option_and_then as_array (pointer path.now (view message.now)) }
{
    match message.pointer(path).and_then(Value::as_array) {
        Some(items) => Some(items.as_slice()),
        None => None,
    }
}

fn text_at<'a>(message: &'a Value, path: &str) -> Option<&'a str>
    ensures { option_map (λ text. text.now) result
        ≡ option_and_then as_str (pointer path.now (view message.now)) }
{
    message.pointer(path).and_then(Value::as_str)
}

/// The URI of the one folder of a client that knows no others.
fn root_of(alloc: Global, message: &Value) -> Result<Vec<String>, AllocError>
    ensures { IfOk result
        (λ folders. map string_bytes folders.items ≡ wanted.root_of (view message.now)) }
{
    match (
        text_at(message, "/params/rootUri"),
        text_at(message, "/params/rootPath"),
    ) {
        (Some(uri), _) => only(alloc, String::from_str(alloc, uri)?),
        (None, Some(path)) => only(alloc, uris::uri_of(alloc, path)?),
        (None, None) => Ok(Vec::new(alloc)),
    }
}

fn only(alloc: Global, uri: String) -> Result<Vec<String>, AllocError>
    ensures { IfOk result (λ uris. uris.items ≡ uri ∷ []) }
{
    let mut uris = Vec::new(alloc);
    uris.push(uri)?;
    Ok(uris)
}

/// The URIs of the folders at this place of a message.
fn uris_at(alloc: Global, message: &Value, path: &str) -> Result<Vec<String>, AllocError>
    ensures { IfOk result
        (λ uris. map string_bytes uris.items ≡ wanted.uris_at path.now (view message.now)) }
{
    match array_at(message, path) {
        Some(folders) => uris_in(alloc, folders),
        None => Ok(Vec::new(alloc)),
    }
}

fn uris_in(alloc: Global, folders: &[Value]) -> Result<Vec<String>, AllocError>
    ensures { IfOk result
        (λ uris. map string_bytes uris.items ≡ wanted.uris_in (items_view folders.now)) }
{
    let mut uris = Vec::new(alloc);
    for folder in folders {
        if let Some(uri) = folder.get("uri").and_then(Value::as_str) {
            uris.push(String::from_str(alloc, uri)?)?;
        }
    }
    Ok(uris)
}

fn is_among(uris: &[String], uri: &str) -> bool
    ensures { result ≡ wanted.is_among (map string_bytes uris.now) uri.now }
{
    for known in uris {
        if known.as_str() == uri {
            return true;
        }
    }
    false
}

/// The URIs that are not among the removed ones.
fn without(alloc: Global, removed: &[String], uris: &[String]) -> Result<Vec<String>, AllocError>
    ensures { IfOk result (λ kept. map string_bytes kept.items
        ≡ wanted.without (map string_bytes removed.now) (map string_bytes uris.now)) }
{
    let mut kept = Vec::new(alloc);
    for uri in uris {
        let uri = uri.as_str();
        if !is_among(removed, uri) {
            kept.push(String::from_str(alloc, uri)?)?;
        }
    }
    Ok(kept)
}

/// The URIs with each added one that is not among them.
fn with_all(alloc: Global, uris: Vec<String>, added: &[String]) -> Result<Vec<String>, AllocError>
    ensures { IfOk result (λ all. map string_bytes all.items
        ≡ wanted.with_all (map string_bytes uris.items) (map string_bytes added.now)) }
{
    let mut all = uris;
    for uri in added {
        let uri = uri.as_str();
        if !is_among(&all, uri) {
            all.push(String::from_str(alloc, uri)?)?;
        }
    }
    Ok(all)
}

/// Reads a position.
#[tactic(auto, unfolding(crate::specs::Parameters::position_in))]
pub fn position_in(value: &Value) -> Option<Position>
    ensures { result ≡ wanted.position_in (view value.now) }
{
    let line = value.get("line").and_then(Value::as_u64);
    let unit = value.get("character").and_then(Value::as_u64);
    match (line, unit) {
        (Some(line), Some(unit)) => Some(Position {
            line: line as usize,
            unit: unit as usize,
        }),
        _ => None,
    }
}

/// Reads the position in the member of this name.
fn position_at(value: &Value, name: &str) -> Option<Position>
    ensures { result ≡ wanted.position_at name.now (view value.now) }
{
    match value.get(name) {
        Some(position) => position_in(position),
        None => None,
    }
}

fn range_in(value: &Value) -> Option<Range>
    ensures { result ≡ wanted.range_in (view value.now) }
{
    match (position_at(value, "start"), position_at(value, "end")) {
        (Some(start), Some(end)) => Some(Range { start, end }),
        _ => None,
    }
}

/// The text after the changes in a message, which apply one after another.
///
/// A change that does not follow the protocol is ignored.
#[tactic(auto, unfolding(crate::specs::Parameters::text_after))]
pub fn text_after(
    alloc: Global,
    encoding: PositionEncoding,
    message: &Value,
    text: &str,
) -> Result<String, AllocError>
    ensures { IfOk result
        (λ after. string_bytes after ≡ wanted.text_after encoding (view message.now) text.now) }
{
    let changes = message
        .pointer("/params/contentChanges")
        .and_then(Value::as_array);
    match changes {
        Some(changes) => text_after_all(alloc, encoding, changes, text),
        None => String::from_str(alloc, text),
    }
}

fn text_after_all(
    alloc: Global,
    encoding: PositionEncoding,
    changes: &[Value],
    text: &str,
) -> Result<String, AllocError>
    ensures { IfOk result (λ after. string_bytes after
        ≡ wanted.text_after_all encoding (items_view changes.now) text.now) }
{
    let mut after = String::from_str(alloc, text)?;
    for change in changes {
        after = text_after_one(alloc, encoding, change, after)?;
    }
    Ok(after)
}

#[tactic(auto, unfolding(crate::specs::Parameters::text_after_one))]
fn text_after_one(
    alloc: Global,
    encoding: PositionEncoding,
    change: &Value,
    text: String,
) -> Result<String, AllocError>
    ensures { IfOk result (λ after. string_bytes after
        ≡ wanted.text_after_one encoding (view change.now) (string_bytes text)) }
{
    let Some(new) = change.get("text").and_then(Value::as_str) else {
        return Ok(text);
    };
    match change.get("range") {
        None => apply_change(alloc, encoding, text.as_str(), None, new),
        Some(value) => match range_in(value) {
            Some(range) => apply_change(alloc, encoding, text.as_str(), Some(range), new),
            None => Ok(text),
        },
    }
}
