//! Rules and extractors.
#![tactic(auto, unfolding(crate::specs::RuleReaders::extractor_definition, crate::specs::RuleReaders::rule_definition, crate::specs::RuleReaders::priority, isle_parser_cursor::specs::NumberReaders::integer_within, crate::specs::RuleReaders::condition_or_expression, isle_parser_cursor::specs::Reading::in_parentheses, isle_parser_cursor::specs::Reading::closed, crate::specs::RuleReaders::condition_match, crate::specs::RuleReaders::condition_test))]

ghost use Rattle.isle_ast_rules.specs.TreeView.{condition_of, conditions_of, expression_of};
ghost use Rattle.isle_ast_rules.specs.TreeView.{extractor_of, rule_of};
ghost use Rattle.isle_parser_cursor.specs.Outcomes.{IsPlace, ReadsOff, source};
ghost use Rattle.isle_parser_cursor.specs.Reading.{closed};
ghost use Rattle.isle_parser_rules.specs.RuleReaders.{condition_match, condition_or_expression};
ghost use Rattle.isle_parser_rules.specs.RuleReaders.{condition_test, expression_behind};
ghost use Rattle.isle_parser_rules.specs.RuleReaders.{extractor_definition, match_or_expression};
ghost use Rattle.isle_parser_rules.specs.RuleReaders.{priority, right_side, rule_definition};
ghost use Rattle.isle_parser_rules.specs.RuleParts.{part_of};

use crate::expressions::{parse_expr, parse_expr_behind_lparen};
use crate::patterns::parse_pattern;
use isle_ast_rules::{Expr, Extractor, IfLet, Pattern, Rule};
use isle_base::lexer::Pos;
use isle_parser_cursor::cursor::{Cursor, Stop};
use std::alloc::Global;

/// A part of a rule's right-hand side.
#[derive(Drop)]
enum IfLetOrExpr {
    /// A condition.
    IfLet(IfLet),
    /// The expression, which comes last.
    Expr(Expr),
}

/// Parses an extractor after its keyword.
pub fn parse_etor(cursor: &mut Cursor, alloc: Global) -> Result<Extractor, Stop>
    ensures { ReadsOff extractor_of extractor_definition cursor.old result cursor.new }
{
    let pos = cursor.pos();
    let (term, args) = cursor.parse_headed(alloc)?;
    let template = parse_pattern(cursor, alloc)?;
    Ok(Extractor {
        term,
        args,
        template,
        pos,
    })
}

/// Parses a rule after its keyword.
pub fn parse_rule(cursor: &mut Cursor, alloc: Global) -> Result<Rule, Stop>
    ensures { ReadsOff rule_of rule_definition cursor.old result cursor.new }
{
    let place = cursor.place();
    let pos = cursor.pos();
    let name = cursor.parse_optional_ident(alloc, place, "rule name")?;
    let prio = parse_priority(cursor, alloc, place)?;
    let pattern = parse_pattern(cursor, alloc)?;
    let (iflets, expr) = parse_iflets_and_expr(cursor, alloc)?;
    Ok(Rule {
        pattern,
        iflets,
        expr,
        pos,
        prio,
        name,
    })
}

/// Parses the priority of a rule if an integer is ahead. The token after the keyword is at `place`.
fn parse_priority(cursor: &mut Cursor, alloc: Global, place: Pos) -> Result<Option<i64>, Stop>
    requires { IsPlace (source cursor.old) place }
    ensures { ReadsOff (λ n. n) priority cursor.old result cursor.new }
{
    if !cursor.is_int() {
        return Ok(None);
    }
    let value = cursor.expect_int(alloc)?;
    match i64::try_from(value) {
        Ok(prio) => Ok(Some(prio)),
        Err(error) => Err(cursor.refuse_at(
            place,
            format!(in alloc; "Invalid rule priority: {error}"),
        )),
    }
}

/// Parses the conditions of a rule, and the expression after them.
fn parse_iflets_and_expr(cursor: &mut Cursor, alloc: Global) -> Result<(Vec<IfLet>, Expr), Stop>
    ensures { ReadsOff (λ r. (conditions_of r.0.items, expression_of r.1)) right_side cursor.old
        result cursor.new }
{
    let mut iflets = Vec::new(alloc);
    loop {
        match parse_iflet_or_expr(cursor, alloc)? {
            IfLetOrExpr::IfLet(iflet) => iflets.push(iflet)?,
            IfLetOrExpr::Expr(expr) => return Ok((iflets, expr)),
        }
    }
}

fn parse_iflet_or_expr(cursor: &mut Cursor, alloc: Global) -> Result<IfLetOrExpr, Stop>
    ensures { ReadsOff part_of condition_or_expression cursor.old result cursor.new }
{
    let pos = cursor.pos();
    if !cursor.is_lparen() {
        return Ok(IfLetOrExpr::Expr(parse_expr(cursor, alloc)?));
    }
    cursor.expect_lparen(alloc)?;
    parse_iflet_or_expr_behind_lparen(cursor, alloc, pos)
}

/// Parses a condition or an expression after its `(`, up to and including the `)`. The `(` is at
/// this position.
#[tactic(auto, using(crate::proofs::ClosedParts::part_behind), unfolding(crate::specs::RuleReaders::match_or_expression, crate::specs::RuleReaders::test_or_expression, isle_parser_cursor::specs::Reading::closed))]
fn parse_iflet_or_expr_behind_lparen(
    cursor: &mut Cursor,
    alloc: Global,
    pos: Pos,
) -> Result<IfLetOrExpr, Stop>
    ensures { ReadsOff part_of (closed (match_or_expression pos)) cursor.old result cursor.new }
{
    if cursor.eat_sym_str(alloc, "if-let")? {
        let iflet = parse_iflet(cursor, alloc)?;
        return cursor.close(alloc, IfLetOrExpr::IfLet(iflet));
    }
    if cursor.eat_sym_str(alloc, "if")? {
        let iflet = parse_iflet_if(cursor, alloc)?;
        return cursor.close(alloc, IfLetOrExpr::IfLet(iflet));
    }
    parse_expr_part(cursor, alloc, pos)
}

/// Parses an expression after its `(`, up to and including the `)`. The `(` is at this position.
fn parse_expr_part(cursor: &mut Cursor, alloc: Global, pos: Pos) -> Result<IfLetOrExpr, Stop>
    ensures { ReadsOff part_of (expression_behind pos) cursor.old result cursor.new }
{
    let expr = parse_expr_behind_lparen(cursor, alloc, pos)?;
    Ok(IfLetOrExpr::Expr(expr))
}

fn parse_iflet(cursor: &mut Cursor, alloc: Global) -> Result<IfLet, Stop>
    ensures { ReadsOff condition_of condition_match cursor.old result cursor.new }
{
    let pos = cursor.pos();
    let pattern = parse_pattern(cursor, alloc)?;
    let expr = parse_expr(cursor, alloc)?;
    Ok(IfLet { pattern, expr, pos })
}

/// Parses a condition of an expression only. Its pattern is a wildcard at the expression's
/// position.
fn parse_iflet_if(cursor: &mut Cursor, alloc: Global) -> Result<IfLet, Stop>
    ensures { ReadsOff condition_of condition_test cursor.old result cursor.new }
{
    let pos = cursor.pos();
    let expr = parse_expr(cursor, alloc)?;
    Ok(IfLet {
        pattern: Pattern::Wildcard { pos },
        expr,
        pos,
    })
}
