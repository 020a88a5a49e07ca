//! Actions as JSON.

ghost use Rattle.std.specs.Prelude.{◌≡◌, IfOk, map};
ghost use Rattle.serde_json.specs.View.{view};
ghost use Rattle.isle_lsp_actions.specs.Actions.{action_of};
ghost use Rattle.isle_lsp_actions.specs.Answers as wanted;
ghost use Rattle.isle_lsp_protocol.specs.Results.{document_identifier, version_data};

use crate::Document;
use crate::actions::{Action, ActionKind};
use isle_lsp_protocol::results::text_edit;
use isle_lsp_text::positions::{PositionEncoding, START};
use isle_lsp_text::ranges::range_between;
use serde_json::{Map, Number, Value, json, put};
use std::alloc::{AllocError, Global};

/// These actions in a document, as JSON.
pub fn actions_value(
    alloc: Global,
    encoding: PositionEncoding,
    document: Document,
    actions: &[Action],
    takes_document_changes: bool,
) -> Result<Value, AllocError>
    ensures { IfOk result (λ value. view value
        ≡ wanted.actions_data encoding takes_document_changes document.entry.uri.now
        document.entry.version document.entry.text.now (map action_of actions.now)) }
{
    let mut values = Vec::new(alloc);
    for action in actions {
        values.push(action_value(alloc, encoding, document, action, takes_document_changes)?)?;
    }
    Ok(Value::Array(values))
}

fn action_value(
    alloc: Global,
    encoding: PositionEncoding,
    document: Document,
    action: &Action,
    takes_document_changes: bool,
) -> Result<Value, AllocError>
    ensures { IfOk result (λ value. view value
        ≡ wanted.action_data encoding takes_document_changes document.entry.uri.now
        document.entry.version document.entry.text.now (action_of action.now)) }
{
    let title = action.title.as_str();
    let kind = kind_name(action.kind);
    let edits = replacement_value(alloc, encoding, document.text, action)?;
    let edit = edit_value(alloc, document, edits, takes_document_changes)?;
    json!(in alloc; {"title": title, "kind": kind, "edit": edit})
}

/// The name of a kind in the protocol.
fn kind_name(kind: ActionKind) -> &'static str
    ensures { result.now ≡ wanted.kind_name kind }
{
    match kind {
        ActionKind::QuickFix => "quickfix",
        ActionKind::Inlining => "refactor.inline",
    }
}

/// The edit of an action, in an array of its own.
#[tactic(auto, using(isle_lsp_text::proofs::Places::start_place))]
fn replacement_value(
    alloc: Global,
    encoding: PositionEncoding,
    text: &str,
    action: &Action,
) -> Result<Value, AllocError>
    ensures { IfOk result
        (λ value. view value ≡ wanted.replacement_data encoding text.now (action_of action.now)) }
{
    let mut near = START;
    let range = range_between(encoding, text, &mut near, action.from, action.to);
    let edit = text_edit(alloc, range, action.new_text.as_str())?;
    json!(in alloc; [edit])
}

/// The edits of a document as those of a workspace.
fn edit_value(
    alloc: Global,
    document: Document,
    edits: Value,
    takes_document_changes: bool,
) -> Result<Value, AllocError>
    ensures { IfOk result (λ value. view value
        ≡ wanted.edit_data takes_document_changes document.entry.uri.now document.entry.version
        (view edits)) }
{
    if takes_document_changes {
        let identifier = identifier_value(alloc, document)?;
        json!(in alloc; {"documentChanges": [{"textDocument": identifier, "edits": edits}]})
    } else {
        let mut changes = Map::new(alloc);
        put(&mut changes, alloc, document.uri, edits)?;
        let changes = Value::Object(changes);
        json!(in alloc; {"changes": changes})
    }
}

fn identifier_value(alloc: Global, document: Document) -> Result<Value, AllocError>
    ensures { IfOk result (λ value. view value
        ≡ document_identifier document.entry.uri.now document.entry.version) }
{
    let uri = document.uri;
    let version = version_value(document.version);
    json!(in alloc; {"uri": uri, "version": version})
}

/// A version, or null if it is not known.
fn version_value(version: Option<i64>) -> Value
    ensures { view result ≡ version_data version }
{
    match version {
        Some(version) => Value::Number(Number::from(version)),
        None => Value::Null,
    }
}
