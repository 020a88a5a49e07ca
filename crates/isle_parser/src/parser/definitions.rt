//! Definitions.
#![tactic(auto, unfolding(isle_parser_cursor::specs::Reading::closed, crate::specs::DefinitionReaders::as_definition))]

ghost use Rattle.std.specs.Prelude.{None, OnOk};
ghost use Rattle.isle_ast.specs.Tree.{attr, converter, decl, external, extractor, form};
ghost use Rattle.isle_ast.specs.Tree.{instantiation, model, rule, spec, spec_macro, state};
ghost use Rattle.isle_ast.specs.Tree.{type_def};
ghost use Rattle.isle_ast.specs.TreeView.{definition_of};
ghost use Rattle.isle_parser.specs.DefinitionReaders.{as_definition, behind_keyword, conversion};
ghost use Rattle.isle_parser.specs.DefinitionReaders.{declaration, definition, keyword_form};
ghost use Rattle.isle_parser.specs.DefinitionReaders.{pragma};
ghost use Rattle.isle_parser_cursor.specs.Reading.{closed};
ghost use Rattle.isle_parser.specs.FormReaders.{form_definition, instantiation_of_term};
ghost use Rattle.isle_parser.specs.ModelReaders.{model_definition};
ghost use Rattle.isle_parser.specs.TermReaders.{attribute, extern_definition};
ghost use Rattle.isle_parser.specs.TypeReaders.{type_definition};
ghost use Rattle.isle_parser_cursor.specs.Outcomes.{GoesOn, IsPlace, MatchesRead, ReadsOff};
ghost use Rattle.isle_parser_cursor.specs.Outcomes.{source};
ghost use Rattle.isle_parser_rules.specs.RuleReaders.{extractor_definition, rule_definition};
ghost use Rattle.isle_parser_verification.specs.SpecDefinitionReaders.{spec_definition};
ghost use Rattle.isle_parser_verification.specs.SpecDefinitionReaders.{spec_macro_definition};
ghost use Rattle.isle_parser_verification.specs.SpecDefinitionReaders.{state_definition};

use crate::parser::forms::{parse_form, parse_instantiation};
use crate::parser::models::parse_model;
use crate::parser::terms::{parse_attr, parse_converter, parse_decl, parse_extern, parse_pragma};
use crate::parser::types::parse_type;
use isle_ast::ast::Def;
use isle_base::lexer::Pos;
use isle_parser_cursor::cursor::{Cursor, Stop};
use isle_parser_rules::rules::{parse_etor, parse_rule};
use isle_parser_verification::spec_definitions::{parse_spec, parse_spec_macro, parse_state};
use std::alloc::Global;

#[tactic(auto, unfolding(isle_parser_cursor::specs::Reading::closed, crate::specs::DefinitionReaders::definition, isle_parser_cursor::specs::Reading::in_parentheses))]
pub(super) fn parse_def(cursor: &mut Cursor, alloc: Global) -> Result<Def, Stop>
    ensures reads { ReadsOff definition_of definition cursor.old result cursor.new }
    ensures goes_on { OnOk result (GoesOn cursor.new) }
{
    cursor.expect_lparen(alloc)?;
    parse_keyword_form(cursor, alloc)
}

/// Parses a keyword, the rest of its definition, and the closing parenthesis.
#[tactic(auto, unfolding(isle_parser_cursor::specs::Reading::closed, crate::specs::DefinitionReaders::keyword_form))]
fn parse_keyword_form(cursor: &mut Cursor, alloc: Global) -> Result<Def, Stop>
    ensures reads { ReadsOff definition_of (closed keyword_form) cursor.old result cursor.new }
    ensures goes_on { OnOk result (GoesOn cursor.new) }
{
    let place = cursor.place();
    let word = cursor.expect_word(alloc)?;
    parse_behind(cursor, alloc, place, word)
}

/// Parses the rest of a definition after this keyword, and the closing parenthesis. The keyword is
/// at `place`. One function per kind keeps this stack frame small, and building the `Def` there
/// avoids moving it.
#[tactic(auto, unfolding(crate::specs::DefinitionReaders::behind_keyword, isle_parser_cursor::specs::Reading::closed))]
fn parse_behind(cursor: &mut Cursor, alloc: Global, place: Pos, word: &str) -> Result<Def, Stop>
    requires { IsPlace (source cursor.old) place }
    ensures reads { ReadsOff definition_of (closed (behind_keyword word.now)) cursor.old result
        cursor.new }
    ensures goes_on { OnOk result (GoesOn cursor.new) }
{
    match word {
        "pragma" => parse_pragma_def(cursor, alloc),
        "type" => parse_type_def(cursor, alloc),
        "decl" => parse_decl_def(cursor, alloc),
        "attr" => parse_attr_def(cursor, alloc),
        "spec" => parse_spec_def(cursor, alloc),
        "macro" => parse_spec_macro_def(cursor, alloc),
        "model" => parse_model_def(cursor, alloc),
        "state" => parse_state_def(cursor, alloc),
        "form" => parse_form_def(cursor, alloc),
        "instantiate" => parse_instantiation_def(cursor, alloc),
        "rule" => parse_rule_def(cursor, alloc),
        "extractor" => parse_etor_def(cursor, alloc),
        "extern" => parse_extern_def(cursor, alloc),
        "convert" => parse_converter_def(cursor, alloc),
        _ => refuse_keyword(cursor, alloc, place, word),
    }
}

#[inline(never)]
fn parse_pragma_def(cursor: &mut Cursor, alloc: Global) -> Result<Def, Stop>
    ensures { ReadsOff definition_of pragma cursor.old result cursor.new }
{
    Ok(Def::Pragma(parse_pragma(cursor, alloc)?))
}

#[inline(never)]
fn parse_type_def(cursor: &mut Cursor, alloc: Global) -> Result<Def, Stop>
    ensures reads { ReadsOff definition_of (closed (as_definition type_def type_definition))
        cursor.old result cursor.new }
    ensures goes_on { OnOk result (GoesOn cursor.new) }
{
    let ty = parse_type(cursor, alloc)?;
    cursor.expect_rparen(alloc)?;
    Ok(Def::TypeDef(ty))
}

#[inline(never)]
fn parse_decl_def(cursor: &mut Cursor, alloc: Global) -> Result<Def, Stop>
    ensures reads { ReadsOff definition_of (closed (as_definition decl declaration)) cursor.old
        result cursor.new }
    ensures goes_on { OnOk result (GoesOn cursor.new) }
{
    let decl = parse_decl(cursor, alloc)?;
    cursor.expect_rparen(alloc)?;
    Ok(Def::Decl(decl))
}

#[inline(never)]
fn parse_attr_def(cursor: &mut Cursor, alloc: Global) -> Result<Def, Stop>
    ensures reads { ReadsOff definition_of (closed (as_definition attr attribute)) cursor.old
        result cursor.new }
    ensures goes_on { OnOk result (GoesOn cursor.new) }
{
    let attr = parse_attr(cursor, alloc)?;
    cursor.expect_rparen(alloc)?;
    Ok(Def::Attr(attr))
}

#[inline(never)]
fn parse_spec_def(cursor: &mut Cursor, alloc: Global) -> Result<Def, Stop>
    ensures reads { ReadsOff definition_of (closed (as_definition spec spec_definition)) cursor.old
        result cursor.new }
    ensures goes_on { OnOk result (GoesOn cursor.new) }
{
    let spec = parse_spec(cursor, alloc)?;
    cursor.expect_rparen(alloc)?;
    Ok(Def::Spec(spec))
}

#[inline(never)]
fn parse_spec_macro_def(cursor: &mut Cursor, alloc: Global) -> Result<Def, Stop>
    ensures reads { ReadsOff definition_of (closed (as_definition spec_macro
        spec_macro_definition)) cursor.old result cursor.new }
    ensures goes_on { OnOk result (GoesOn cursor.new) }
{
    let definition = parse_spec_macro(cursor, alloc)?;
    cursor.expect_rparen(alloc)?;
    Ok(Def::SpecMacro(definition))
}

#[inline(never)]
fn parse_model_def(cursor: &mut Cursor, alloc: Global) -> Result<Def, Stop>
    ensures reads { ReadsOff definition_of (closed (as_definition model model_definition))
        cursor.old result cursor.new }
    ensures goes_on { OnOk result (GoesOn cursor.new) }
{
    let model = parse_model(cursor, alloc)?;
    cursor.expect_rparen(alloc)?;
    Ok(Def::Model(model))
}

#[inline(never)]
fn parse_state_def(cursor: &mut Cursor, alloc: Global) -> Result<Def, Stop>
    ensures reads { ReadsOff definition_of (closed (as_definition state state_definition))
        cursor.old result cursor.new }
    ensures goes_on { OnOk result (GoesOn cursor.new) }
{
    let state = parse_state(cursor, alloc)?;
    cursor.expect_rparen(alloc)?;
    Ok(Def::State(state))
}

#[inline(never)]
fn parse_form_def(cursor: &mut Cursor, alloc: Global) -> Result<Def, Stop>
    ensures reads { ReadsOff definition_of (closed (as_definition form form_definition)) cursor.old
        result cursor.new }
    ensures goes_on { OnOk result (GoesOn cursor.new) }
{
    let form = parse_form(cursor, alloc)?;
    cursor.expect_rparen(alloc)?;
    Ok(Def::Form(form))
}

#[inline(never)]
fn parse_instantiation_def(cursor: &mut Cursor, alloc: Global) -> Result<Def, Stop>
    ensures reads { ReadsOff definition_of (closed (as_definition instantiation
        instantiation_of_term)) cursor.old result cursor.new }
    ensures goes_on { OnOk result (GoesOn cursor.new) }
{
    let instantiation = parse_instantiation(cursor, alloc)?;
    cursor.expect_rparen(alloc)?;
    Ok(Def::Instantiation(instantiation))
}

#[inline(never)]
fn parse_rule_def(cursor: &mut Cursor, alloc: Global) -> Result<Def, Stop>
    ensures reads { ReadsOff definition_of (closed (as_definition rule rule_definition)) cursor.old
        result cursor.new }
    ensures goes_on { OnOk result (GoesOn cursor.new) }
{
    let rule = parse_rule(cursor, alloc)?;
    cursor.expect_rparen(alloc)?;
    Ok(Def::Rule(rule))
}

#[inline(never)]
fn parse_etor_def(cursor: &mut Cursor, alloc: Global) -> Result<Def, Stop>
    ensures reads { ReadsOff definition_of (closed (as_definition extractor extractor_definition))
        cursor.old result cursor.new }
    ensures goes_on { OnOk result (GoesOn cursor.new) }
{
    let extractor = parse_etor(cursor, alloc)?;
    cursor.expect_rparen(alloc)?;
    Ok(Def::Extractor(extractor))
}

#[inline(never)]
fn parse_extern_def(cursor: &mut Cursor, alloc: Global) -> Result<Def, Stop>
    ensures reads { ReadsOff definition_of (closed (as_definition external extern_definition))
        cursor.old result cursor.new }
    ensures goes_on { OnOk result (GoesOn cursor.new) }
{
    let external = parse_extern(cursor, alloc)?;
    cursor.expect_rparen(alloc)?;
    Ok(Def::Extern(external))
}

#[inline(never)]
fn parse_converter_def(cursor: &mut Cursor, alloc: Global) -> Result<Def, Stop>
    ensures reads { ReadsOff definition_of (closed (as_definition converter conversion)) cursor.old
        result cursor.new }
    ensures goes_on { OnOk result (GoesOn cursor.new) }
{
    let converter = parse_converter(cursor, alloc)?;
    cursor.expect_rparen(alloc)?;
    Ok(Def::Converter(converter))
}

/// Rejects this word at `place`, which begins no definition.
#[inline(never)]
fn refuse_keyword(cursor: &Cursor, alloc: Global, place: Pos, word: &str) -> Result<Def, Stop>
    requires { IsPlace (source cursor.now) place }
    ensures { MatchesRead definition_of None result cursor.now }
{
    Err(cursor.refuse_at(place, format!(in alloc; "Unexpected identifier: {word}")))
}
