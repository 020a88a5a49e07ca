//! The items of a list in a response. A long list takes many times the memory of its text as JSON
//! values, but not as items.

ghost use Rattle.std.specs.Prelude.{◌≡◌, ◌++◌, ◌∷◌, IfOk, OnOk, codes};
ghost use Rattle.json.specs.Token.{key};
ghost use Rattle.json.specs.Tree.{json_tokens};
ghost use Rattle.serde_json.specs.View.{view};
ghost use Rattle.serde_json.specs.Written.{outline};
ghost use Rattle.isle_lsp_protocol.specs.Items as lists;
ghost use Rattle.isle_lsp_protocol.specs.Items.{edits_data, item_data, items_data, list_data};
ghost use Rattle.isle_lsp_protocol.specs.Results as wanted;
ghost use Rattle.isle_lsp_protocol.specs.Written.{Reads};

use crate::results::text_edit;
use crate::writing::{put_number, put_position, put_range, put_text};
use isle_lsp_text::positions::{Position, Range};
use json::Writer;
use serde_json::{Map, Value, json, put};
use std::alloc::{AllocError, Global};

/// A result that is a list.
#[derive(Drop)]
pub enum Listing<'a> {
    /// A list.
    Items(Vec<Item<'a>>),
    /// The changes to a program, with an item for each changed document.
    Changes(Vec<Item<'a>>),
    /// The same for a client that does not take versions of documents.
    PlainChanges(Vec<Item<'a>>),
}

/// An item of a list.
#[derive(Drop)]
pub enum Item<'a> {
    /// A part of a document.
    Location {
        /// The document's URI.
        uri: &'a str,
        /// The part.
        range: Range,
    },
    /// A part of the document of the request.
    Highlight {
        /// The part.
        range: Range,
    },
    /// A definition in the document of the request.
    DocumentSymbol {
        /// The defined name.
        name: String,
        /// The protocol's number of its kind.
        kind: usize,
        /// The whole definition.
        range: Range,
        /// The name.
        selection: Range,
    },
    /// A definition in a program.
    WorkspaceSymbol {
        /// The defined name.
        name: String,
        /// The protocol's number of its kind.
        kind: usize,
        /// The document's URI.
        uri: &'a str,
        /// The range of the name.
        range: Range,
    },
    /// A name that completes a partly written one.
    Completion {
        /// The name.
        name: String,
        /// The protocol's number of its kind.
        kind: usize,
        /// The part that it replaces.
        range: Range,
    },
    /// What is shown in the document of the request.
    InlayHint {
        /// Where.
        position: Position,
        /// The text that is shown.
        label: String,
    },
    /// The changes to a document: the same text replaces each part.
    Edits {
        /// The document's URI.
        uri: &'a str,
        /// The version of the document that is changed, or `None` if it has none.
        version: Option<i64>,
        /// The parts.
        ranges: Vec<Range>,
        /// The text.
        text: String,
    },
}

/// Writes a list of items, or the changes to their documents.
pub fn put_list(out: &mut Writer, items: &[Item], are_changes: bool) -> Result<(), AllocError>
    ensures before { out.new.before ≡ out.old.before }
    ensures tokens { OnOk result (out.new.tokens ≡ out.old.tokens
        ++ json_tokens (outline (list_data are_changes items.now))) }
    ensures reads { OnOk result (Reads (list_data are_changes items.now)) }
{
    if are_changes {
        put_changes(out, items)
    } else {
        put_items(out, items)
    }
}

/// The changes to the documents of the items, without versions. If two items have one URI, the last
/// counts.
pub fn plain_changes(alloc: Global, items: &[Item]) -> Result<Value, AllocError>
    ensures { IfOk result (λ value. view value ≡ lists.plain_changes items.now) }
{
    let mut changes = Map::new(alloc);
    for item in items {
        if let Item::Edits {
            uri,
            ranges,
            text,
            ..
        } = item
        {
            let edits = edits_value(alloc, ranges, text.as_str())?;
            put(&mut changes, alloc, uri, edits)?;
        }
    }
    let changes = Value::Object(changes);
    json!(in alloc; {"changes": changes})
}

/// An edit for each range, which this text replaces.
fn edits_value(alloc: Global, ranges: &[Range], text: &str) -> Result<Value, AllocError>
    ensures { IfOk result (λ value. view value ≡ edits_data text.now ranges.now) }
{
    let mut edits = Vec::new(alloc);
    for range in ranges {
        edits.push(text_edit(alloc, *range, text)?)?;
    }
    Ok(Value::Array(edits))
}

#[tactic(auto, using(crate::proofs::Tokens::appended))]
fn put_changes(out: &mut Writer, items: &[Item]) -> Result<(), AllocError>
    ensures before { out.new.before ≡ out.old.before }
    ensures tokens { OnOk result (out.new.tokens ≡ out.old.tokens
        ++ json_tokens (outline (wanted.workspace_edit (items_data items.now)))) }
    ensures reads { OnOk result (Reads (wanted.workspace_edit (items_data items.now))) }
{
    out.begin_object()?;
    out.key("documentChanges")?;
    put_items(out, items)?;
    out.end_object()
}

fn put_items(out: &mut Writer, items: &[Item]) -> Result<(), AllocError>
    ensures before { out.new.before ≡ out.old.before }
    ensures tokens { OnOk result (out.new.tokens ≡ out.old.tokens
        ++ json_tokens (outline (items_data items.now))) }
    ensures reads { OnOk result (Reads (items_data items.now)) }
{
    out.begin_array()?;
    for item in items {
        put_item(out, item)?;
    }
    out.end_array()
}

fn put_item(out: &mut Writer, item: &Item) -> Result<(), AllocError>
    ensures before { out.new.before ≡ out.old.before }
    ensures tokens { OnOk result (out.new.tokens ≡ out.old.tokens
        ++ json_tokens (outline (item_data item.now))) }
    ensures reads { OnOk result (Reads (item_data item.now)) }
{
    match item {
        Item::Location { uri, range } => put_location(out, uri, *range),
        Item::Highlight { range } => put_highlight(out, *range),
        Item::DocumentSymbol {
            name,
            kind,
            range,
            selection,
        } => put_document_symbol(out, name.as_str(), *kind, *range, *selection),
        Item::WorkspaceSymbol {
            name,
            kind,
            uri,
            range,
        } => put_workspace_symbol(out, name.as_str(), *kind, uri, *range),
        Item::Completion { name, kind, range } => {
            put_completion(out, name.as_str(), *kind, *range)
        }
        Item::InlayHint { position, label } => put_inlay_hint(out, *position, label.as_str()),
        Item::Edits {
            uri,
            version,
            ranges,
            text,
        } => put_document_edits(out, uri, *version, ranges, text.as_str()),
    }
}

#[tactic(auto, using(crate::proofs::Tokens::appended))]
fn put_location(out: &mut Writer, uri: &str, range: Range) -> Result<(), AllocError>
    ensures before { out.new.before ≡ out.old.before }
    ensures tokens { OnOk result (out.new.tokens ≡ out.old.tokens
        ++ json_tokens (outline (wanted.location uri.now range))) }
    ensures reads { OnOk result (Reads (wanted.location uri.now range)) }
{
    out.begin_object()?;
    put_range(out, "range", range)?;
    put_text(out, "uri", uri)?;
    out.end_object()
}

#[tactic(auto, using(crate::proofs::Tokens::appended))]
fn put_highlight(out: &mut Writer, range: Range) -> Result<(), AllocError>
    ensures before { out.new.before ≡ out.old.before }
    ensures tokens { OnOk result (out.new.tokens ≡ out.old.tokens
        ++ json_tokens (outline (wanted.ranged range))) }
    ensures reads { OnOk result (Reads (wanted.ranged range)) }
{
    out.begin_object()?;
    put_range(out, "range", range)?;
    out.end_object()
}

#[tactic(auto, using(crate::proofs::Tokens::appended))]
fn put_document_symbol(
    out: &mut Writer,
    name: &str,
    kind: usize,
    range: Range,
    selection: Range,
) -> Result<(), AllocError>
    ensures before { out.new.before ≡ out.old.before }
    ensures tokens { OnOk result (out.new.tokens ≡ out.old.tokens
        ++ json_tokens (outline (wanted.document_symbol name.now kind range selection))) }
    ensures reads { OnOk result (Reads (wanted.document_symbol name.now kind range selection)) }
{
    out.begin_object()?;
    put_number(out, "kind", kind)?;
    put_text(out, "name", name)?;
    put_range(out, "range", range)?;
    put_range(out, "selectionRange", selection)?;
    out.end_object()
}

#[tactic(auto, using(crate::proofs::Tokens::appended))]
fn put_workspace_symbol(
    out: &mut Writer,
    name: &str,
    kind: usize,
    uri: &str,
    range: Range,
) -> Result<(), AllocError>
    ensures before { out.new.before ≡ out.old.before }
    ensures tokens { OnOk result (out.new.tokens ≡ out.old.tokens
        ++ json_tokens (outline (wanted.workspace_symbol name.now kind uri.now range))) }
    ensures reads { OnOk result (Reads (wanted.workspace_symbol name.now kind uri.now range)) }
{
    out.begin_object()?;
    put_number(out, "kind", kind)?;
    out.key("location")?;
    put_location(out, uri, range)?;
    put_text(out, "name", name)?;
    out.end_object()
}

#[tactic(auto, using(crate::proofs::Tokens::appended))]
fn put_completion(out: &mut Writer, name: &str, kind: usize, range: Range) -> Result<(), AllocError>
    ensures before { out.new.before ≡ out.old.before }
    ensures tokens { OnOk result (out.new.tokens ≡ out.old.tokens
        ++ json_tokens (outline (wanted.completion_item name.now kind range))) }
    ensures reads { OnOk result (Reads (wanted.completion_item name.now kind range)) }
{
    out.begin_object()?;
    put_number(out, "kind", kind)?;
    put_text(out, "label", name)?;
    out.key("textEdit")?;
    put_edit(out, name, range)?;
    out.end_object()
}

/// Writes a hint. It is one of types, whose kind is 1.
#[tactic(auto, using(crate::proofs::Tokens::appended))]
fn put_inlay_hint(out: &mut Writer, position: Position, label: &str) -> Result<(), AllocError>
    ensures before { out.new.before ≡ out.old.before }
    ensures tokens { OnOk result (out.new.tokens ≡ out.old.tokens
        ++ json_tokens (outline (wanted.inlay_hint position label.now))) }
    ensures reads { OnOk result (Reads (wanted.inlay_hint position label.now)) }
{
    out.begin_object()?;
    put_number(out, "kind", 1)?;
    put_text(out, "label", label)?;
    put_position(out, "position", position)?;
    out.end_object()
}

#[tactic(auto, using(crate::proofs::Tokens::appended))]
fn put_document_edits(
    out: &mut Writer,
    uri: &str,
    version: Option<i64>,
    ranges: &[Range],
    text: &str,
) -> Result<(), AllocError>
    ensures before { out.new.before ≡ out.old.before }
    ensures tokens { OnOk result (out.new.tokens ≡ out.old.tokens ++ json_tokens (outline
        (wanted.document_edits uri.now version (edits_data text.now ranges.now)))) }
    ensures reads { OnOk result
        (Reads (wanted.document_edits uri.now version (edits_data text.now ranges.now))) }
{
    out.begin_object()?;
    out.key("edits")?;
    put_edits(out, ranges, text)?;
    put_document_identifier(out, uri, version)?;
    out.end_object()
}

/// Writes the member `textDocument`, which identifies the changed document.
#[tactic(auto, using(crate::proofs::Tokens::appended))]
fn put_document_identifier(
    out: &mut Writer,
    uri: &str,
    version: Option<i64>,
) -> Result<(), AllocError>
    ensures before { out.new.before ≡ out.old.before }
    ensures tokens { OnOk result (out.new.tokens ≡ out.old.tokens
        ++ key (codes "textDocument")
        ∷ json_tokens (outline (wanted.document_identifier uri.now version))) }
    ensures reads { OnOk result (Reads (wanted.document_identifier uri.now version)) }
{
    out.key("textDocument")?;
    out.begin_object()?;
    put_text(out, "uri", uri)?;
    out.key("version")?;
    put_version(out, version)?;
    out.end_object()
}

/// Writes a version, or null if there is none.
fn put_version(out: &mut Writer, version: Option<i64>) -> Result<(), AllocError>
    ensures before { out.new.before ≡ out.old.before }
    ensures tokens { OnOk result (out.new.tokens ≡ out.old.tokens
        ++ json_tokens (outline (wanted.version_data version))) }
    ensures reads { OnOk result (Reads (wanted.version_data version)) }
{
    match version {
        Some(version) => out.i64(version),
        None => out.null(),
    }
}

/// Writes an edit for each range.
fn put_edits(out: &mut Writer, ranges: &[Range], text: &str) -> Result<(), AllocError>
    ensures before { out.new.before ≡ out.old.before }
    ensures tokens { OnOk result (out.new.tokens ≡ out.old.tokens
        ++ json_tokens (outline (edits_data text.now ranges.now))) }
    ensures reads { OnOk result (Reads (edits_data text.now ranges.now)) }
{
    out.begin_array()?;
    for range in ranges {
        put_edit(out, text, *range)?;
    }
    out.end_array()
}

/// Writes an edit that replaces a range with a text.
#[tactic(auto, using(crate::proofs::Tokens::appended))]
fn put_edit(out: &mut Writer, text: &str, range: Range) -> Result<(), AllocError>
    ensures before { out.new.before ≡ out.old.before }
    ensures tokens { OnOk result (out.new.tokens ≡ out.old.tokens
        ++ json_tokens (outline (wanted.text_edit range text.now))) }
    ensures reads { OnOk result (Reads (wanted.text_edit range text.now)) }
{
    out.begin_object()?;
    put_text(out, "newText", text)?;
    put_range(out, "range", range)?;
    out.end_object()
}
