//! Expressions of rules and conditions.
#![tactic(auto, unfolding(crate::specs::ExpressionReaders::integer_expression, crate::specs::ExpressionReaders::symbol_expression, crate::specs::ExpressionReaders::word_expression, crate::specs::ExpressionReaders::false_expression, crate::specs::ExpressionReaders::variable_expression, crate::specs::ExpressionReaders::expression_inside, crate::specs::ExpressionReaders::let_behind, crate::specs::ExpressionReaders::term_behind, isle_parser_cursor::specs::Reading::closed, crate::specs::ExpressionReaders::let_definitions, isle_parser_cursor::specs::Reading::in_parentheses, crate::specs::ExpressionReaders::let_definition, crate::specs::ExpressionReaders::let_inside))]

ghost use Rattle.std.specs.Prelude.{◌≡◌, ◌++◌, [], ◌∷◌, IfErr, IfOk};
ghost use Rattle.isle_ast_rules.specs.TreeView.{expression_of, expressions_of, single_let_of};
ghost use Rattle.isle_ast_rules.specs.TreeView.{single_lets_of};
ghost use Rattle.isle_parser_cursor.specs.Outcomes.{IsParserRefusal, ReadsOff, source};
ghost use Rattle.isle_parser_cursor.specs.Reading.{at_rparen, closed, many};
ghost use Rattle.isle_parser_cursor.specs.declared.cursor.Stop.TheVariants.{Memory};
ghost use Rattle.isle_parser_rules.specs.ExpressionReaders.{expression, expression_inside};
ghost use Rattle.isle_parser_rules.specs.ExpressionReaders.{integer_expression, let_behind};
ghost use Rattle.isle_parser_rules.specs.ExpressionReaders.{let_definition, let_definitions};
ghost use Rattle.isle_parser_rules.specs.ExpressionReaders.{symbol_expression, term_behind};

use crate::names::parse_const;
use isle_ast_rules::{Expr, LetDef};
use isle_base::lexer::Pos;
use isle_parser_cursor::cursor::{Cursor, Stop};
use std::alloc::Global;

// The frames of this cycle limit the depth of nesting. So all that does not recurse is in functions
// of its own, and a frame holds few nodes.

#[cycle(expression)]
#[tactic(auto, using(crate::proofs::ExpressionParts::expression_is), unfolding(crate::specs::ExpressionReaders::expression_layer, crate::specs::ExpressionReaders::integer_expression, crate::specs::ExpressionReaders::expression_inside, crate::specs::ExpressionReaders::let_behind, crate::specs::ExpressionReaders::term_behind, isle_parser_cursor::specs::Reading::in_parentheses, isle_parser_cursor::specs::Reading::closed))]
pub(super) fn parse_expr(cursor: &mut Cursor, alloc: Global) -> Result<Expr, Stop>
    ensures { ReadsOff expression_of expression cursor.old result cursor.new }
{
    let pos = cursor.pos();
    if cursor.is_lparen() {
        cursor.expect_lparen(alloc)?;
        if cursor.eat_sym_str(alloc, "let")? {
            return parse_let(cursor, alloc, pos);
        }
        return parse_term(cursor, alloc, pos);
    }
    if cursor.is_sym() {
        return parse_expr_symbol(cursor, alloc, pos);
    }
    if cursor.is_int() {
        return parse_expr_int(cursor, alloc, pos);
    }
    Err(refuse_expr(cursor, alloc))
}

/// Parses an integer as an expression at this position.
#[inline(never)]
fn parse_expr_int(cursor: &mut Cursor, alloc: Global, pos: Pos) -> Result<Expr, Stop>
    ensures { ReadsOff expression_of (integer_expression pos) cursor.old result cursor.new }
{
    let val = cursor.parse_int(alloc)?;
    Ok(Expr::ConstInt { val, pos })
}

/// Rejects a token that begins no expression.
#[inline(never)]
fn refuse_expr(cursor: &Cursor, alloc: Global) -> Stop
    ensures { IsParserRefusal (source cursor.now) result }
{
    cursor.refuse_at(
        cursor.place(),
        String::from_str(alloc, "Invalid expression"),
    )
}

/// Parses a symbol as an expression at this position.
#[inline(never)]
fn parse_expr_symbol(cursor: &mut Cursor, alloc: Global, pos: Pos) -> Result<Expr, Stop>
    ensures { ReadsOff expression_of (symbol_expression pos) cursor.old result cursor.new }
{
    if cursor.is_const() {
        let val = parse_const(cursor, alloc)?;
        return Ok(Expr::ConstPrim { val, pos });
    }
    if cursor.eat_sym_str(alloc, "true")? {
        return Ok(Expr::ConstBool { val: true, pos });
    }
    if cursor.eat_sym_str(alloc, "false")? {
        return Ok(Expr::ConstBool { val: false, pos });
    }
    let name = cursor.parse_ident(alloc)?;
    Ok(Expr::Var { name, pos })
}

/// Parses a `let` or a term after its `(`, up to and including the `)`. The `(` is at this
/// position.
#[inline(never)]
pub(super) fn parse_expr_behind_lparen(
    cursor: &mut Cursor,
    alloc: Global,
    pos: Pos,
) -> Result<Expr, Stop>
    ensures { ReadsOff expression_of (closed (expression_inside pos expression)) cursor.old result
        cursor.new }
{
    if cursor.eat_sym_str(alloc, "let")? {
        return parse_let(cursor, alloc, pos);
    }
    parse_term(cursor, alloc, pos)
}

/// Parses a term's name, its arguments, and `)`. The `(` is at this position.
#[cycle(expression)]
#[inline(never)]
fn parse_term(cursor: &mut Cursor, alloc: Global, pos: Pos) -> Result<Expr, Stop>
    ensures { ReadsOff expression_of (closed (term_behind pos expression)) cursor.old result
        cursor.new }
{
    let sym = cursor.parse_ident(alloc)?;
    let args = parse_exprs(cursor, alloc)?;
    cursor.expect_rparen(alloc)?;
    Ok(Expr::Term { sym, args, pos })
}

/// Parses the definitions and the body of a `let`, and `)`. The `(` is at this position.
#[cycle(expression)]
#[inline(never)]
fn parse_let(cursor: &mut Cursor, alloc: Global, pos: Pos) -> Result<Expr, Stop>
    ensures { ReadsOff expression_of (closed (let_behind pos expression)) cursor.old result
        cursor.new }
{
    let defs = parse_letdefs(cursor, alloc)?;
    let expr = parse_expr(cursor, alloc)?;
    let body = boxed(alloc, expr)?;
    cursor.expect_rparen(alloc)?;
    Ok(Expr::Let { defs, body, pos })
}

/// Moves an expression to the heap.
#[inline(never)]
fn boxed(alloc: Global, expr: Expr) -> Result<Box<Expr>, Stop>
    ensures boxed { IfOk result (λ b. b.value ≡ expr) }
    ensures memory { IfErr result (λ e. e ≡ Memory) }
{
    Ok(Box::new(alloc, expr)?)
}

/// Parses expressions, up to the closing parenthesis.
#[cycle(expression)]
#[inline(always)]
fn parse_exprs(cursor: &mut Cursor, alloc: Global) -> Result<Vec<Expr>, Stop>
    ensures { ReadsOff (λ xs. expressions_of xs.items) (many at_rparen expression) cursor.old
        result cursor.new }
{
    let mut exprs = Vec::new(alloc);
    while !cursor.is_rparen() {
        let expr = parse_expr(cursor, alloc)?;
        push_expr(&mut exprs, expr)?;
    }
    Ok(exprs)
}

#[inline(never)]
fn push_expr(exprs: &mut Vec<Expr>, expr: Expr) -> Result<(), Stop>
    ensures items { IfOk result (λ _. exprs.new.items ≡ exprs.old.items ++ expr ∷ []) }
    ensures memory { IfErr result (λ e. e ≡ Memory) }
{
    exprs.push(expr)?;
    Ok(())
}

/// Parses the definitions of a `let`, in parentheses.
#[cycle(expression)]
#[inline(never)]
fn parse_letdefs(cursor: &mut Cursor, alloc: Global) -> Result<Vec<LetDef>, Stop>
    ensures { ReadsOff (λ ds. single_lets_of ds.items) (let_definitions expression) cursor.old
        result cursor.new }
{
    cursor.expect_lparen(alloc)?;
    let defs = parse_letdef_list(cursor, alloc)?;
    cursor.close(alloc, defs)
}

/// Parses definitions, up to the closing parenthesis.
#[cycle(expression)]
fn parse_letdef_list(cursor: &mut Cursor, alloc: Global) -> Result<Vec<LetDef>, Stop>
    ensures { ReadsOff (λ ds. single_lets_of ds.items) (many at_rparen (let_definition expression))
        cursor.old result cursor.new }
{
    let mut defs = Vec::new(alloc);
    while !cursor.is_rparen() {
        defs.push(parse_letdef(cursor, alloc)?)?;
    }
    Ok(defs)
}

#[cycle(expression)]
fn parse_letdef(cursor: &mut Cursor, alloc: Global) -> Result<LetDef, Stop>
    ensures { ReadsOff single_let_of (let_definition expression) cursor.old result cursor.new }
{
    let pos = cursor.pos();
    cursor.expect_lparen(alloc)?;
    let var = cursor.parse_ident(alloc)?;
    let ty = cursor.parse_ident(alloc)?;
    let expr = parse_expr(cursor, alloc)?;
    let val = boxed(alloc, expr)?;
    cursor.close(alloc, LetDef { var, ty, val, pos })
}
