//! The code actions of the Language Server Protocol: quick fixes for the findings of `isle-lint`,
//! which a client offers at a diagnostic, and the expansion of a use of an internal extractor.
//!
//! Quick fixes come from the text of the document and from the client's message alone, which has
//! the diagnostics that the client shows at the place. A diagnostic may be older than the text, so
//! an action is offered only if it is right for the text as it is. An expansion comes from the
//! tokens of the document and of the programs that have it, also of texts that do not parse.
#![tactic(auto)]

ghost use Rattle.std.specs.Prelude.{◌≤◌, IfOk, map, option_map};
ghost use Rattle.serde_json.specs.Data.{depth};
ghost use Rattle.serde_json.specs.View.{view};
ghost use Rattle.isle_lsp_actions.specs.Actions.{action_of};
ghost use Rattle.isle_lsp_actions.specs.Answers.{AreActions, AreFixesIf, IsExpandingIf};
ghost use Rattle.isle_lsp_actions.specs.Told.{wants_fixes, wants_inlining};

mod actions;
mod answers;
mod expansions;
mod extractors;
mod insertions;
mod items;
pub mod laws;
mod names;
mod templates;
mod tokens;
mod told;

use actions::{Action, all_actions};
use answers::actions_value;
use expansions::expanding;
use isle_lsp_text::lists::lists;
use isle_lsp_text::positions::PositionEncoding;
use names::names_in;
use serde_json::Value;
use std::alloc::{AllocError, Global};
use told::{asked_at, diagnostics_in, wants_fixes, wants_inlining};

/// An open document.
#[derive(Clone, Copy)]
pub struct Document<'a> {
    /// Its URI, as the client spells it.
    pub uri: &'a str,
    /// Its version, or `None` if that is not known.
    pub version: Option<i64>,
    /// Its text.
    pub text: &'a str,
}

/// The answer to a `textDocument/codeAction`: an array with the actions for each diagnostic of a
/// lint in the message, in their order, and then the one that expands a use of an extractor.
///
/// - For the `unused-` lints: puts `_` before the name. It is offered if the name stands once in
///   its definition, and the new name not at all.
/// - For each lint: puts the line `; isle-lint: allow LINT` above the definition. It is offered if
///   nothing but blanks is before the definition on its line.
/// - At a use `(E p q)` of an internal extractor in a pattern: puts in its place what it stands
///   for, with `p` and `q` as they are written. It is offered if the range begins between the `(`
///   and the end of the name, the document is in a program, and each program that has it has just
///   one extractor `E`, which makes the same of the use.
///
/// The programs that have the document are given by their texts. A definition is an outermost list.
/// A diagnostic of another form or from another source has no actions. A message that wants other
/// kinds of actions only gets none of these. The edits name the document's version if the client
/// takes document changes.
pub fn code_actions(
    alloc: Global,
    encoding: PositionEncoding,
    document: Document,
    programs: &[Vec<&str>],
    message: &Value,
    takes_document_changes: bool,
) -> Result<Value, AllocError>
    ensures actions { let texts = map (λ p. map (λ t. t.now) p.items) programs.now in
        IfOk result (λ value. AreActions encoding takes_document_changes document.entry.uri.now
        document.entry.version document.entry.text.now texts (view message.now) (view value)) }
    ensures shallow { IfOk result (λ value. depth (view value) ≤ 120) }
{
    let mut actions = fixes(alloc, encoding, document.text, message)?;
    if let Some(action) = expansion(alloc, encoding, document.text, programs, message)? {
        actions.push(action)?;
    }
    actions_value(alloc, encoding, document, &actions, takes_document_changes)
}

/// The actions for the diagnostics in a message, if it wants quick fixes.
fn fixes(
    alloc: Global,
    encoding: PositionEncoding,
    text: &str,
    message: &Value,
) -> Result<Vec<Action>, AllocError>
    ensures { IfOk result (λ actions. AreFixesIf encoding (wants_fixes (view message.now)) text.now
        (view message.now) (map action_of actions.items)) }
{
    if !wants_fixes(message) {
        return Ok(Vec::new(alloc));
    }
    let names = names_in(alloc, text)?;
    let lists = lists(alloc, text)?;
    all_actions(
        alloc,
        encoding,
        text,
        &names,
        &lists,
        diagnostics_in(message),
    )
}

/// The action that expands the use at the place of a message, if it wants such actions.
fn expansion(
    alloc: Global,
    encoding: PositionEncoding,
    text: &str,
    programs: &[Vec<&str>],
    message: &Value,
) -> Result<Option<Action>, AllocError>
    ensures { let texts = map (λ p. map (λ t. t.now) p.items) programs.now in
        IfOk result (λ action. IsExpandingIf encoding
        (wants_inlining (view message.now)) text.now texts
        (view message.now) (option_map action_of action)) }
{
    if !wants_inlining(message) {
        return Ok(None);
    }
    match asked_at(encoding, text, message) {
        Some(place) => expanding(alloc, text, programs, place),
        None => Ok(None),
    }
}
