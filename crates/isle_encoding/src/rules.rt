//! Encodes patterns, expressions and rules.

ghost use Rattle.std.specs.Prelude.{◌≡◌, ◌<◌, ◌++◌, ◌∷◌, OnOk, string_bytes};
ghost use Rattle.isle_ast_rules.specs.TreeView.{condition_of, conditions_of, expression_of};
ghost use Rattle.isle_ast_rules.specs.TreeView.{expression_list_of, expressions_of, extractor_of};
ghost use Rattle.isle_ast_rules.specs.TreeView.{let_list_of, pattern_list_of, pattern_of};
ghost use Rattle.isle_ast_rules.specs.TreeView.{patterns_of, rule_of, single_let_of};
ghost use Rattle.isle_ast_rules.specs.TreeView.{single_lets_of};
ghost use Rattle.isle_encoding.specs.Numbers.{integer, list, option};
ghost use Rattle.isle_encoding.specs.Rules.{condition, expression, expression_list, extractor};
ghost use Rattle.isle_encoding.specs.Rules.{let_list, pattern, pattern_list, rule, single_let};

use crate::names::{put_name, put_names, put_optional_name, put_position};
use crate::nodes::{put_bool, put_index, put_int, put_named};
use crate::numbers::{put_byte, put_flag, put_integer, put_number};
use isle_ast_rules::{Expr, Extractor, IfLet, LetDef, Pattern, Rule};
use std::alloc::AllocError;

pub fn put_rule(out: &mut String, kind: u8, value: &Rule) -> Result<(), AllocError>
    requires { kind < 128 }
    ensures { OnOk result (string_bytes out.new
        ≡ string_bytes out.old ++ (kind ∷ rule (rule_of value.now))) }
{
    put_byte(out, kind)?;
    put_pattern(out, &value.pattern)?;
    put_conditions(out, &value.iflets)?;
    put_expr(out, &value.expr)?;
    put_position(out, value.pos)?;
    put_priority(out, value.prio)?;
    put_optional_name(out, &value.name)
}

/// Appends a priority, or the mark that there is none.
fn put_priority(out: &mut String, value: Option<i64>) -> Result<(), AllocError>
    ensures { OnOk result (string_bytes out.new ≡ string_bytes out.old ++ option integer value) }
{
    put_flag(out, value.is_some())?;
    match value {
        Some(value) => put_integer(out, value as i128),
        None => Ok(()),
    }
}

fn put_conditions(out: &mut String, values: &[IfLet]) -> Result<(), AllocError>
    ensures { OnOk result (string_bytes out.new
        ≡ string_bytes out.old ++ list condition (conditions_of values.now)) }
{
    put_number(out, values.len())?;
    for value in values {
        put_condition(out, value)?;
    }
    Ok(())
}

fn put_condition(out: &mut String, value: &IfLet) -> Result<(), AllocError>
    ensures { OnOk result
        (string_bytes out.new ≡ string_bytes out.old ++ condition (condition_of value.now)) }
{
    put_pattern(out, &value.pattern)?;
    put_expr(out, &value.expr)?;
    put_position(out, value.pos)
}

pub fn put_extractor(out: &mut String, kind: u8, value: &Extractor) -> Result<(), AllocError>
    requires { kind < 128 }
    ensures { OnOk result (string_bytes out.new
        ≡ string_bytes out.old ++ (kind ∷ extractor (extractor_of value.now))) }
{
    put_byte(out, kind)?;
    put_name(out, &value.term)?;
    put_names(out, &value.args)?;
    put_pattern(out, &value.template)?;
    put_position(out, value.pos)
}

#[cycle(pattern)]
fn put_pattern(out: &mut String, value: &Pattern) -> Result<(), AllocError>
    ensures { OnOk result
        (string_bytes out.new ≡ string_bytes out.old ++ pattern (pattern_of value.now)) }
{
    match value {
        Pattern::Var { var, pos } => put_named(out, 0, var, *pos),
        Pattern::BindPattern { var, subpat, pos } => {
            put_byte(out, 1)?;
            put_name(out, var)?;
            put_pattern(out, subpat)?;
            put_position(out, *pos)
        }
        Pattern::ConstBool { val, pos } => put_bool(out, 2, *val, *pos),
        Pattern::ConstInt { val, pos } => put_int(out, 3, *val, *pos),
        Pattern::ConstPrim { val, pos } => put_named(out, 4, val, *pos),
        Pattern::Term { sym, args, pos } => {
            put_byte(out, 5)?;
            put_name(out, sym)?;
            put_patterns(out, args)?;
            put_position(out, *pos)
        }
        Pattern::Wildcard { pos } => {
            put_byte(out, 6)?;
            put_position(out, *pos)
        }
        Pattern::And { subpats, pos } => {
            put_byte(out, 7)?;
            put_patterns(out, subpats)?;
            put_position(out, *pos)
        }
        Pattern::MacroArg { index, pos } => put_index(out, 8, *index, *pos),
    }
}

#[cycle(pattern)]
fn put_patterns(out: &mut String, values: &Vec<Pattern>) -> Result<(), AllocError>
    ensures { OnOk result (string_bytes out.new
        ≡ string_bytes out.old ++ pattern_list (pattern_list_of (patterns_of values.now.items))) }
{
    put_number(out, values.len())?;
    for value in values {
        put_pattern(out, value)?;
    }
    Ok(())
}

#[cycle(expression)]
fn put_expr(out: &mut String, value: &Expr) -> Result<(), AllocError>
    ensures { OnOk result
        (string_bytes out.new ≡ string_bytes out.old ++ expression (expression_of value.now)) }
{
    match value {
        Expr::Term { sym, args, pos } => {
            put_byte(out, 0)?;
            put_name(out, sym)?;
            put_exprs(out, args)?;
            put_position(out, *pos)
        }
        Expr::Var { name, pos } => put_named(out, 1, name, *pos),
        Expr::ConstBool { val, pos } => put_bool(out, 2, *val, *pos),
        Expr::ConstInt { val, pos } => put_int(out, 3, *val, *pos),
        Expr::ConstPrim { val, pos } => put_named(out, 4, val, *pos),
        Expr::Let { defs, body, pos } => {
            put_byte(out, 5)?;
            put_lets(out, defs)?;
            put_expr(out, body)?;
            put_position(out, *pos)
        }
    }
}

#[cycle(expression)]
fn put_exprs(out: &mut String, values: &Vec<Expr>) -> Result<(), AllocError>
    ensures { OnOk result (string_bytes out.new ≡ string_bytes out.old
        ++ expression_list (expression_list_of (expressions_of values.now.items))) }
{
    put_number(out, values.len())?;
    for value in values {
        put_expr(out, value)?;
    }
    Ok(())
}

/// Appends the definitions of a `let`.
#[cycle(expression)]
fn put_lets(out: &mut String, values: &Vec<LetDef>) -> Result<(), AllocError>
    ensures { OnOk result (string_bytes out.new
        ≡ string_bytes out.old ++ let_list (let_list_of (single_lets_of values.now.items))) }
{
    put_number(out, values.len())?;
    for value in values {
        put_let(out, value)?;
    }
    Ok(())
}

#[cycle(expression)]
fn put_let(out: &mut String, value: &LetDef) -> Result<(), AllocError>
    ensures { OnOk result
        (string_bytes out.new ≡ string_bytes out.old ++ single_let (single_let_of value.now)) }
{
    put_name(out, &value.var)?;
    put_name(out, &value.ty)?;
    put_expr(out, &value.val)?;
    put_position(out, value.pos)
}
