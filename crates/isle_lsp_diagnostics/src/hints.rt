//! The types of a file's variables, each shown behind the variable's first mention.

ghost use Rattle.std.specs.Prelude.{◌≡◌, ◌++◌, IfErr, IfOk, OnOk, Some, codes, false, map};
ghost use Rattle.std.specs.Prelude.{option_map, string_bytes};
ghost use Rattle.std.specs.List.{flat_map};
ghost use Rattle.isle_ast.specs.MacroArgs.{definitions_have_macro_arg};
ghost use Rattle.isle_ast.specs.TreeView.{definitions_of};
ghost use Rattle.isle_ast_names.specs.TreeView.{name_of};
ghost use Rattle.isle_ast_rules.specs.TreeView.{rule_of};
ghost use Rattle.isle_check_environment.specs.Views.{rules_at};
ghost use Rattle.isle_check_environment.specs.signatures.Views.{environment_of};
ghost use Rattle.isle_check_typing.specs.Views.{found_of, variables_of};
ghost use Rattle.isle_cli.specs.declared.failure.Failure.TheVariants.{Memory};
ghost use Rattle.isle_lint_core.specs.Names.{names_at};
ghost use Rattle.isle_lsp_diagnostics.specs.Hints as wanted;
ghost use Rattle.isle_lsp_diagnostics.specs.Hints.{AreHints, AreHintsOf, hint_of};
ghost use Rattle.isle_lsp_features.specs.Places as places;
ghost use Rattle.isle_lsp_features.specs.Programs.{text_of};
ghost use Rattle.isle_lsp_protocol.specs.Items.{item_data, items_data};

use crate::mentions::first_mentions;
use crate::rules::{first_of, read, typed_rules, variables};
use isle_ast::ast::{Def, Ident, Rule};
use isle_check_environment::signatures::Environment;
use isle_check_typing::{Found, Variable, find};
use isle_cli::failure::Failure;
use isle_lsp_features::Text;
use isle_lsp_features::places::{File, file_of};
use isle_lsp_protocol::items::Item;
use isle_lsp_text::positions::{PositionEncoding, Range, START, offset_of, place_at};
use isle_program::trees::drop_reading;
use std::alloc::{AllocError, Global};

/// A type that is shown.
#[derive(Clone, Copy)]
pub struct Hint<'e> {
    /// The byte offset at which it is shown.
    pub offset: usize,
    /// The type.
    pub ty: &'e str,
}

/// The types of the variables that the rules of a file bind in patterns, each behind the first
/// mention of its variable. Only those that lie within the range are given, those at its bounds
/// included.
///
/// The types are those of the first of these programs, which are those that have the file. A text
/// that does not parse contributes nothing. There are no hints while an internal extractor uses
/// itself, or is one of a variant, since then its patterns may have no end. The only error is
/// `Memory`.
pub fn inlay_hints<'a>(
    alloc: Global,
    programs: &[Vec<Text>],
    file: &str,
    range: Range,
) -> Result<Vec<Item<'a>>, Failure>
    ensures ok { IfOk result (λ items. AreHints (map (λ p. map text_of p.items) programs.now)
        file.now range (items_data items.items)) }
    ensures err { IfErr result (λ failure. failure ≡ Memory) }
{
    let program = first_of(programs);
    match file_of(program, file) {
        Some(file) => file_hints(alloc, program, file, range),
        None => Ok(Vec::new(alloc)),
    }
}

fn file_hints<'a>(
    alloc: Global,
    program: &[Text],
    file: File,
    range: Range,
) -> Result<Vec<Item<'a>>, Failure>
    ensures ok { IfOk result (λ items. AreHintsOf (map text_of program.now)
        (Some (places.file_of file.entry)) range (items_data items.items)) }
    ensures err { IfErr result (λ failure. failure ≡ Memory) }
{
    let reading = read(alloc, program)?;
    let items = items_in(alloc, &reading.defs, file, range);
    drop_reading(reading);
    Ok(items?)
}

/// The hints in a file of a program with these definitions, as items.
fn items_in<'a>(
    alloc: Global,
    defs: &[Def],
    file: File,
    range: Range,
) -> Result<Vec<Item<'a>>, AllocError>
    requires { definitions_have_macro_arg (definitions_of defs.now) ≡ false }
    ensures { IfOk result (λ items. items_data items.items
        ≡ wanted.hints_data file.entry.encoding file.entry.text.now range
        (wanted.hints_in (places.file_of file.entry) (definitions_of defs.now))) }
{
    let env = Environment::new(alloc, defs)?;
    let rules = typed_rules(alloc, &env, file, defs)?;
    let hints = rules_hints(alloc, file.text, &env, &rules)?;
    let found = within(alloc, file.encoding, file.text, range, &hints)?;
    items(alloc, file.encoding, file.text, &found)
}

/// The hints of these rules of a text.
fn rules_hints<'e>(
    alloc: Global,
    text: &str,
    env: &'e Environment,
    rules: &[&Rule],
) -> Result<Vec<Hint<'e>>, AllocError>
    ensures { IfOk result (λ hints. map hint_of hints.items
        ≡ wanted.rules_hints text.now (environment_of env.now) (rules_at rules.now)) }
{
    let mut hints = Vec::new(alloc);
    for rule in rules {
        add_rule_hints(alloc, text, env, rule, &mut hints)?;
    }
    Ok(hints)
}

#[tactic(auto, unfolding(crate::specs::Hints::rule_hints))]
fn add_rule_hints<'e>(
    alloc: Global,
    text: &str,
    env: &'e Environment,
    rule: &Rule,
    hints: &mut Vec<Hint<'e>>,
) -> Result<(), AllocError>
    ensures { OnOk result (map hint_of hints.new.items ≡ map hint_of hints.old.items
        ++ wanted.rule_hints text.now (environment_of env.now) (rule_of rule.now)) }
{
    let variables = variables(alloc, env, rule)?;
    let names = first_mentions(alloc, rule)?;
    add_hints(text, &variables, &names, hints)
}

/// Adds the types of the variables that have these names.
fn add_hints<'e>(
    text: &str,
    variables: &[Variable<'e>],
    names: &[&Ident],
    hints: &mut Vec<Hint<'e>>,
) -> Result<(), AllocError>
    ensures { OnOk result (map hint_of hints.new.items ≡ map hint_of hints.old.items
        ++ flat_map (wanted.hint text.now (variables_of variables.now)) (names_at names.now)) }
{
    for name in names {
        let found = find(variables, name.0.as_str());
        add_hint(found, end_of(text, name), hints)?;
    }
    Ok(())
}

fn add_hint<'e>(
    found: Option<Found<'e>>,
    offset: usize,
    hints: &mut Vec<Hint<'e>>,
) -> Result<(), AllocError>
    ensures { OnOk result (map hint_of hints.new.items ≡ map hint_of hints.old.items
        ++ wanted.hint_by (option_map found_of found.entry) offset) }
{
    if let Some(found) = found {
        hints.push(Hint {
            offset,
            ty: found.ty,
        })?;
    }
    Ok(())
}

/// The end of a name in a text.
fn end_of(text: &str, name: &Ident) -> usize
    ensures { result ≡ wanted.end_of text.now (name_of name.now) }
{
    name.1.offset.min(text.len()) + name.0.len()
}

/// The hints that lie within a range of a text.
fn within<'e>(
    alloc: Global,
    encoding: PositionEncoding,
    text: &str,
    range: Range,
    hints: &[Hint<'e>],
) -> Result<Vec<Hint<'e>>, AllocError>
    ensures { IfOk result (λ found. map hint_of found.items
        ≡ wanted.are_within encoding text.now range (map hint_of hints.now)) }
{
    let from = offset_of(encoding, text, range.start);
    let to = offset_of(encoding, text, range.end);
    let mut found = Vec::new(alloc);
    for hint in hints {
        if from <= hint.offset && hint.offset <= to {
            found.push(*hint)?;
        }
    }
    Ok(found)
}

/// Hints in a text as items.
fn items<'a>(
    alloc: Global,
    encoding: PositionEncoding,
    text: &str,
    hints: &[Hint],
) -> Result<Vec<Item<'a>>, AllocError>
    ensures { IfOk result (λ items. map item_data items.items
        ≡ map (wanted.hint_data encoding text.now) (map hint_of hints.now)) }
{
    let mut near = START;
    let mut items = Vec::new(alloc);
    for hint in hints {
        near = place_at(encoding, text, near, hint.offset);
        items.push(Item::InlayHint {
            position: near.position,
            label: label_of(alloc, hint.ty)?,
        })?;
    }
    Ok(items)
}

/// What is shown of a type.
fn label_of(alloc: Global, ty: &str) -> Result<String, AllocError>
    ensures { IfOk result (λ label. string_bytes label ≡ codes ": " ++ ty.now) }
{
    format!(in alloc; ": {ty}")
}
