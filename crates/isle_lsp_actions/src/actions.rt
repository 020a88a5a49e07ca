//! Actions, and those for the diagnostics of lints, which insert a text.

ghost use Rattle.std.specs.Prelude.{◌≡◌, ◌++◌, IfOk, OnOk, map, option_map};
ghost use Rattle.std.specs.Prelude.{Some, option_to_list, string_bytes};
ghost use Rattle.serde_json.specs.View.{items_view};
ghost use Rattle.isle_lsp_actions.specs.Actions as wanted;
ghost use Rattle.isle_lsp_actions.specs.Actions.{action_of};
ghost use Rattle.isle_lsp_actions.specs.Insertions.{line_of};
ghost use Rattle.isle_lsp_actions.specs.Names.{name_of};

use crate::insertions::{is_marked, line_end, line_of, stands_apart};
use crate::names::{Name, count_in, name_at};
use crate::told::{Told, told_in};
use isle_lint_core::Lint;
use isle_lsp_text::lists::{ListSpan, outer_list};
use isle_lsp_text::positions::PositionEncoding;
use serde_json::Value;
use std::alloc::{AllocError, Global};

/// A kind of actions.
#[derive(Clone, Copy)]
pub enum ActionKind {
    /// An action that corrects what a lint finds.
    QuickFix,
    /// An action that puts in place of a use what it stands for.
    Inlining,
}

/// An action: it puts a text in place of a part of the document.
#[derive(Drop)]
pub struct Action {
    /// What the client shows.
    pub title: String,
    /// Its kind.
    pub kind: ActionKind,
    /// The byte offset at which the part begins.
    pub from: usize,
    /// The byte offset at which it ends.
    pub to: usize,
    /// The text.
    pub new_text: String,
}

/// The actions for each of these diagnostics, given the names and the lists of the text.
pub fn all_actions(
    alloc: Global,
    encoding: PositionEncoding,
    text: &str,
    names: &[Name],
    lists: &[ListSpan],
    diagnostics: &[Value],
) -> Result<Vec<Action>, AllocError>
    ensures { IfOk result (λ actions. map action_of actions.items
        ≡ wanted.all_actions encoding text.now (map name_of names.now) lists.now
        (items_view diagnostics.now)) }
{
    let mut actions = Vec::new(alloc);
    for diagnostic in diagnostics {
        if let Some(told) = told_in(encoding, text, diagnostic) {
            add_actions(alloc, text, names, lists, told, &mut actions)?;
        }
    }
    Ok(actions)
}

/// Adds the actions for a diagnostic.
fn add_actions(
    alloc: Global,
    text: &str,
    names: &[Name],
    lists: &[ListSpan],
    told: Told,
    actions: &mut Vec<Action>,
) -> Result<(), AllocError>
    ensures { OnOk result (map action_of actions.new.items ≡ map action_of actions.old.items
        ++ wanted.actions_for text.now (map name_of names.now) lists.now (Some told)) }
{
    let Some(definition) = outer_list(lists, told.from) else {
        return Ok(());
    };
    if let Some(action) = prefixing(alloc, text, names, told, definition)? {
        actions.push(action)?;
    }
    if let Some(action) = allowing(alloc, text, told.lint, definition)? {
        actions.push(action)?;
    }
    Ok(())
}

/// The action that puts `_` before the name that nothing uses.
fn prefixing(
    alloc: Global,
    text: &str,
    names: &[Name],
    told: Told,
    definition: ListSpan,
) -> Result<Option<Action>, AllocError>
    ensures { IfOk result (λ action. option_to_list (option_map action_of action)
        ≡ wanted.prefixing text.now (map name_of names.now) told definition) }
{
    match name_at(names, told.from) {
        Some(name) => prefixing_of(alloc, text, names, told, definition, name),
        None => Ok(None),
    }
}

/// The same for this name.
fn prefixing_of(
    alloc: Global,
    text: &str,
    names: &[Name],
    told: Told,
    definition: ListSpan,
    name: &str,
) -> Result<Option<Action>, AllocError>
    ensures { IfOk result (λ action. option_to_list (option_map action_of action)
        ≡ wanted.prefixing_of text.now (map name_of names.now) told definition (Some name.now)) }
{
    if !is_unused(told.lint) {
        return Ok(None);
    }
    let new = format!(in alloc; "_{name}")?;
    if can_become(text, names, told, definition, name, new.as_str()) {
        Ok(Some(prefix_of(alloc, told, name)?))
    } else {
        Ok(None)
    }
}

/// Returns whether a lint finds names that nothing uses.
fn is_unused(lint: Lint) -> bool
    ensures { result ≡ wanted.is_unused lint }
{
    match lint {
        Lint::UnusedLet | Lint::UnusedBinding | Lint::UnusedPatternVariable => true,
        Lint::DuplicateRuleName | Lint::ShadowedVariable => false,
    }
}

/// Returns whether a name can become a new one, which has a `_` more.
///
/// It can if it fills the range of the diagnostic, has no `_` or `$` yet, stands apart and once in
/// its definition, and if the new one does not stand there.
fn can_become(
    text: &str,
    names: &[Name],
    told: Told,
    definition: ListSpan,
    name: &str,
    new: &str,
) -> bool
    ensures { result
        ≡ wanted.can_become text.now (map name_of names.now) told definition name.now new.now }
{
    told.from <= told.to
        && told.to - told.from == name.len()
        && !is_marked(name)
        && stands_apart(text, told.from)
        && count_in(names, definition, name) == 1
        && count_in(names, definition, new) == 0
}

fn prefix_of(alloc: Global, told: Told, name: &str) -> Result<Action, AllocError>
    ensures { IfOk result (λ action. action_of action ≡ wanted.prefix_of told name.now) }
{
    let title = format!(in alloc; "Prefix `{name}` with `_`")?;
    let text = String::from_str(alloc, "_")?;
    Ok(insertion(title, told.from, text))
}

/// The action that puts a comment above a definition, which disables a lint for it.
fn allowing(
    alloc: Global,
    text: &str,
    lint: Lint,
    definition: ListSpan,
) -> Result<Option<Action>, AllocError>
    ensures { IfOk result (λ action. option_to_list (option_map action_of action)
        ≡ wanted.allowing_at text.now lint (line_of text.now definition.from)) }
{
    match line_of(text, definition.from) {
        Some(offset) => Ok(Some(allowance_of(alloc, text, lint, offset)?)),
        None => Ok(None),
    }
}

fn allowance_of(alloc: Global, text: &str, lint: Lint, offset: usize) -> Result<Action, AllocError>
    ensures { IfOk result
        (λ action. action_of action ≡ wanted.allowance_of text.now lint offset) }
{
    let lint = lint.name();
    let end = line_end(text);
    let title = format!(in alloc; "Allow `{lint}` for this definition")?;
    let text = format!(in alloc; "; isle-lint: allow {lint}{end}")?;
    Ok(insertion(title, offset, text))
}

/// The action that corrects what a lint finds, and inserts a text at an offset.
fn insertion(title: String, offset: usize, text: String) -> Action
    ensures { action_of result
        ≡ wanted.insertion (string_bytes title) offset (string_bytes text) }
{
    Action {
        title,
        kind: ActionKind::QuickFix,
        from: offset,
        to: offset,
        new_text: text,
    }
}
