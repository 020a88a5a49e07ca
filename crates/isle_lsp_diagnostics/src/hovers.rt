//! The type of a variable, shown above what a hover shows of it.

ghost use Rattle.std.specs.Prelude.{◌≡◌, IfErr, IfOk, Some, false, map, option_map, string_bytes};
ghost use Rattle.serde_json.specs.View.{view};
ghost use Rattle.isle_ast.specs.MacroArgs.{definitions_have_macro_arg};
ghost use Rattle.isle_ast.specs.TreeView.{definitions_of};
ghost use Rattle.isle_ast_names.specs.TreeView.{name_of};
ghost use Rattle.isle_ast_rules.specs.TreeView.{rule_of};
ghost use Rattle.isle_check_environment.specs.Views.{rules_at};
ghost use Rattle.isle_check_environment.specs.signatures.Views.{environment_of};
ghost use Rattle.isle_check_typing.specs.Views.{found_of};
ghost use Rattle.isle_cli.specs.declared.failure.Failure.TheVariants.{Memory};
ghost use Rattle.isle_lsp_diagnostics.specs.Hovers as wanted;
ghost use Rattle.isle_lsp_diagnostics.specs.Hovers.{IsTypeAt, IsTypeIf, IsTypeIn, IsTypeOf};
ghost use Rattle.isle_lsp_diagnostics.specs.Hovers.{IsTypeWhere, IsTypedHover, IsTypedShown};
ghost use Rattle.isle_lsp_features.specs.Places as places;
ghost use Rattle.isle_lsp_features.specs.Programs.{text_of};
ghost use Rattle.isle_lsp_protocol.specs.Results.{markdown};

use crate::mentions::mention_at;
use crate::rules::{first_of, read, typed_rules, variables};
use isle_ast::ast::{Def, Ident, Rule};
use isle_check_environment::signatures::Environment;
use isle_check_typing::{Found, find};
use isle_cli::failure::Failure;
use isle_lsp_context::offers::{Names, names_of};
use isle_lsp_context::places::slot_at;
use isle_lsp_features::Text;
use isle_lsp_features::places::{File, file_of};
use isle_lsp_text::positions::{Position, offset_of};
use isle_program::trees::drop_reading;
use serde_json::{Value, json, put};
use std::alloc::{AllocError, Global};

/// A hover with the type of the variable at a position of a file, in a block above what else it
/// shows. It stays as it is if it shows nothing, if the position is missing, or if `type_at` gives
/// no type. The only error is `Memory`.
pub fn hover_with_type(
    alloc: Global,
    programs: &[Vec<Text>],
    file: &str,
    position: Option<Position>,
    hover: &Value,
) -> Result<Value, Failure>
    ensures ok { IfOk result (λ value. IsTypedHover
        (map (λ p. map text_of p.items) programs.now) file.now position
        (view hover.now) (view value)) }
    ensures err { IfErr result (λ failure. failure ≡ Memory) }
{
    match position {
        Some(position) => hover_with_type_at(alloc, programs, file, position, hover),
        None => Ok(hover.clone()?),
    }
}

fn hover_with_type_at(
    alloc: Global,
    programs: &[Vec<Text>],
    file: &str,
    position: Position,
    hover: &Value,
) -> Result<Value, Failure>
    ensures ok { IfOk result (λ value. IsTypedShown
        (map (λ p. map text_of p.items) programs.now) file.now position
        (wanted.shown_in (view hover.now)) (view hover.now) (view value)) }
    ensures err { IfErr result (λ failure. failure ≡ Memory) }
{
    match shown_in(hover) {
        Some(shown) => {
            let ty = type_at(alloc, programs, file, position)?;
            Ok(with_type(alloc, ty, shown, hover)?)
        }
        None => Ok(hover.clone()?),
    }
}

/// The Markdown of a hover, if it has any.
fn shown_in(hover: &Value) -> Option<&str>
    ensures { option_map (λ shown. shown.now) result ≡ wanted.shown_in (view hover.now) }
{
    match hover.get("contents") {
        Some(contents) => contents.get("value").and_then(Value::as_str),
        None => None,
    }
}

/// A hover with a type, if there is one, above what else it shows.
fn with_type(
    alloc: Global,
    ty: Option<String>,
    shown: &str,
    hover: &Value,
) -> Result<Value, AllocError>
    ensures { IfOk result (λ value. view value
        ≡ wanted.with_type (option_map string_bytes ty) shown.now (view hover.now)) }
{
    match ty {
        Some(ty) => {
            let text = above(alloc, ty.as_str(), shown)?;
            showing(alloc, text.as_str(), hover)
        }
        None => hover.clone(),
    }
}

/// A type in a block of its own, above what else is shown.
fn above(alloc: Global, ty: &str, shown: &str) -> Result<String, AllocError>
    ensures { IfOk result (λ text. string_bytes text ≡ wanted.above ty.now shown.now) }
{
    format!(in alloc; "```isle\n{ty}\n```\n\n{shown}")
}

/// A hover that shows this.
fn showing(alloc: Global, text: &str, hover: &Value) -> Result<Value, AllocError>
    ensures { IfOk result (λ value. view value ≡ wanted.showing text.now (view hover.now)) }
{
    match hover.clone()? {
        Value::Object(mut members) => {
            let contents = markdown(alloc, text)?;
            put(&mut members, alloc, "contents", contents)?;
            Ok(Value::Object(members))
        }
        other => Ok(other),
    }
}

/// A text in Markdown.
fn markdown(alloc: Global, text: &str) -> Result<Value, AllocError>
    ensures { IfOk result (λ value. view value ≡ markdown text.now) }
{
    json!(in alloc; {"kind": "markdown", "value": text})
}

/// The variable that a rule of a file mentions at a position, or right before it, with its type:
/// `x : T`. It is mentioned in a pattern, or in an expression, unless a `let` binds it there.
///
/// The type is that of the first of these programs, which are those that have the file. A variable
/// of a text that does not parse has none, nor has any while an internal extractor uses itself, or
/// is one of a variant, since then its patterns may have no end. The only error is `Memory`.
pub fn type_at(
    alloc: Global,
    programs: &[Vec<Text>],
    file: &str,
    position: Position,
) -> Result<Option<String>, Failure>
    ensures ok { IfOk result (λ ty. IsTypeAt (map (λ p. map text_of p.items) programs.now)
        file.now position (option_map string_bytes ty)) }
    ensures err { IfErr result (λ failure. failure ≡ Memory) }
{
    let program = first_of(programs);
    match file_of(program, file) {
        Some(file) => type_of_file(alloc, program, file, position),
        None => Ok(None),
    }
}

fn type_of_file(
    alloc: Global,
    program: &[Text],
    file: File,
    position: Position,
) -> Result<Option<String>, Failure>
    ensures ok { IfOk result (λ ty. IsTypeIn (map text_of program.now)
        (Some (places.file_of file.entry)) position (option_map string_bytes ty)) }
    ensures err { IfErr result (λ failure. failure ≡ Memory) }
{
    type_where(
        alloc,
        program,
        file,
        offset_of(file.encoding, file.text, position),
    )
}

/// The typed variable at an offset of a file. Elsewhere than in patterns and expressions there is
/// none, so nothing is parsed there.
fn type_where(
    alloc: Global,
    program: &[Text],
    file: File,
    offset: usize,
) -> Result<Option<String>, Failure>
    ensures ok { IfOk result (λ ty. IsTypeWhere (map text_of program.now)
        (places.file_of file.entry) offset (option_map string_bytes ty)) }
    ensures err { IfErr result (λ failure. failure ≡ Memory) }
{
    let names = names_of(slot_at(alloc, file.text, offset)?);
    type_if(alloc, are_of_rules(names), program, file, offset)
}

/// Returns whether a rule mentions variables where these kinds of names may stand.
fn are_of_rules(names: Names) -> bool
    ensures { result ≡ wanted.are_of_rules names }
{
    match names {
        Names::Values => true,
        Names::All | Names::Nothing | Names::Types | Names::Terms => false,
    }
}

/// The typed variable at an offset of a file, if one may be mentioned there.
fn type_if(
    alloc: Global,
    mentioned: bool,
    program: &[Text],
    file: File,
    offset: usize,
) -> Result<Option<String>, Failure>
    ensures ok { IfOk result (λ ty. IsTypeIf mentioned (map text_of program.now)
        (places.file_of file.entry) offset (option_map string_bytes ty)) }
    ensures err { IfErr result (λ failure. failure ≡ Memory) }
{
    if mentioned {
        return type_of(alloc, program, file, offset);
    }
    Ok(None)
}

/// The typed variable at an offset of a file of a program.
fn type_of(
    alloc: Global,
    program: &[Text],
    file: File,
    offset: usize,
) -> Result<Option<String>, Failure>
    ensures ok { IfOk result (λ ty. IsTypeOf (map text_of program.now)
        (places.file_of file.entry) offset (option_map string_bytes ty)) }
    ensures err { IfErr result (λ failure. failure ≡ Memory) }
{
    let reading = read(alloc, program)?;
    let ty = type_in(alloc, &reading.defs, file, offset);
    drop_reading(reading);
    Ok(ty?)
}

/// The typed variable at an offset of a file of a program with these definitions.
fn type_in(
    alloc: Global,
    defs: &[Def],
    file: File,
    offset: usize,
) -> Result<Option<String>, AllocError>
    requires { definitions_have_macro_arg (definitions_of defs.now) ≡ false }
    ensures { IfOk result (λ ty. option_map string_bytes ty
        ≡ wanted.type_in (places.file_of file.entry) offset (definitions_of defs.now)) }
{
    let env = Environment::new(alloc, defs)?;
    let rules = typed_rules(alloc, &env, file, defs)?;
    typed_at(alloc, &env, offset, &rules)
}

/// The variable at an offset in one of these rules, with its type.
fn typed_at(
    alloc: Global,
    env: &Environment,
    offset: usize,
    rules: &[&Rule],
) -> Result<Option<String>, AllocError>
    ensures { IfOk result (λ ty. option_map string_bytes ty
        ≡ wanted.typed_at (environment_of env.now) offset (rules_at rules.now)) }
{
    for rule in rules {
        if let Some(name) = mention_at(alloc, rule, offset)? {
            return typed_in(alloc, env, rule, name);
        }
    }
    Ok(None)
}

/// A variable of a rule with its type, if it has one.
#[tactic(auto, unfolding(crate::specs::Hovers::typed_in))]
fn typed_in(
    alloc: Global,
    env: &Environment,
    rule: &Rule,
    name: &Ident,
) -> Result<Option<String>, AllocError>
    ensures { IfOk result (λ ty. option_map string_bytes ty
        ≡ wanted.typed_in (environment_of env.now) (rule_of rule.now) (name_of name.now)) }
{
    let variables = variables(alloc, env, rule)?;
    typed_as(alloc, name, find(&variables, name.0.as_str()))
}

fn typed_as(alloc: Global, name: &Ident, found: Option<Found>) -> Result<Option<String>, AllocError>
    ensures { IfOk result (λ ty. option_map string_bytes ty
        ≡ option_map (λ v. wanted.typed (name_of name.now) v.ty) (option_map found_of found.entry)) }
{
    match found {
        Some(found) => {
            let text = typed(alloc, name, found.ty)?;
            Ok(Some(text))
        }
        None => Ok(None),
    }
}

/// A name with its type.
fn typed(alloc: Global, name: &Ident, ty: &str) -> Result<String, AllocError>
    ensures { IfOk result
        (λ text. string_bytes text ≡ wanted.typed (name_of name.now) ty.now) }
{
    format!(in alloc; "{} : {ty}", name.0)
}
