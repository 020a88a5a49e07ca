//! Spec expressions, which are parts of specs, macros, states and models.
#![tactic(auto, unfolding(crate::specs::SpecReaders::behind_spec_head, crate::specs::SpecReaders::spec_pair, crate::specs::SpecReaders::spec_pair_inside, isle_parser_cursor::specs::Reading::in_parentheses, crate::specs::SpecReaders::spec_lets, crate::specs::SpecReaders::spec_let, crate::specs::SpecReaders::spec_let_inside, crate::specs::SpecReaders::arm, crate::specs::SpecReaders::arm_inside, isle_parser_cursor::specs::NameReaders::head_inside, crate::specs::SpecReaders::field_init, crate::specs::SpecReaders::field_init_inside))]

ghost use Rattle.std.specs.Prelude.{string_bytes};
ghost use Rattle.isle_ast_verification.specs.TreeView.{single_arm_of, single_arms_of};
ghost use Rattle.isle_ast_verification.specs.TreeView.{single_field_init_of, single_field_inits_of};
ghost use Rattle.isle_ast_verification.specs.TreeView.{single_spec_let_of, single_spec_lets_of};
ghost use Rattle.isle_ast_verification.specs.TreeView.{spec_of, specs_of};
ghost use Rattle.isle_parser_cursor.specs.Outcomes.{IsPlace, ReadsOff, source};
ghost use Rattle.isle_parser_cursor.specs.Reading.{at_rparen, many};
ghost use Rattle.isle_parser_verification.specs.SpecReaders.{arm, behind_spec_head, field_init};
ghost use Rattle.isle_parser_verification.specs.SpecReaders.{spec_expression, spec_inside};
ghost use Rattle.isle_parser_verification.specs.SpecReaders.{spec_let, spec_lets, spec_pair};
ghost use Rattle.isle_parser_verification.specs.SpecFormHeads.{head_view};
ghost use Rattle.isle_parser_verification.specs.SpecParts.{cases_behind};
ghost use Rattle.isle_parser_verification.specs.SpecWords.{as_head, discriminator_head};
ghost use Rattle.isle_parser_verification.specs.SpecWords.{expansion_head, field_head, let_head};
ghost use Rattle.isle_parser_verification.specs.SpecWords.{macro_head, match_head, operator_head};
ghost use Rattle.isle_parser_verification.specs.SpecWords.{struct_head, switch_head, variant_head};
ghost use Rattle.isle_parser_verification.specs.SpecWords.{with_head};

use crate::models::parse_model_type;
use crate::spec_words::{Head, parse_spec_head, parse_spec_word};
use isle_ast_names::Ident;
use isle_ast_verification::{Arm, FieldInit, SpecExpr, SpecOp};
use isle_base::lexer::Pos;
use isle_parser_cursor::cursor::{Cursor, Stop};
use std::alloc::Global;

/// Parses a spec expression.
#[cycle(spec)]
#[tactic(auto, using(crate::proofs::Reading::Parts::spec_is), unfolding(crate::specs::SpecReaders::spec_layer, isle_parser_cursor::specs::Reading::in_parentheses))]
pub fn parse_spec_expr(cursor: &mut Cursor, alloc: Global) -> Result<SpecExpr, Stop>
    ensures { ReadsOff spec_of spec_expression cursor.old result cursor.new }
{
    let place = cursor.place();
    let start = cursor.pos();
    if cursor.is_lparen() {
        cursor.expect_lparen(alloc)?;
        let expr = parse_spec_inside(cursor, alloc, place, start)?;
        return cursor.close(alloc, expr);
    }
    if cursor.is_sym() {
        return parse_spec_word(cursor, alloc);
    }
    if cursor.is_int() {
        let val = cursor.parse_int(alloc)?;
        return Ok(SpecExpr::ConstInt { val, pos: start });
    }
    Err(cursor.refuse_at(place, String::from_str(alloc, "Unexpected spec expression")))
}

/// Parses a head and the rest of its expression. The `(` is at `place`, and its position in the
/// tree is `start`.
#[cycle(spec)]
#[tactic(auto, using(crate::proofs::Reading::Parts::inside_by_head))]
fn parse_spec_inside(
    cursor: &mut Cursor,
    alloc: Global,
    place: Pos,
    start: Pos,
) -> Result<SpecExpr, Stop>
    requires { IsPlace (source cursor.old) place }
    ensures { ReadsOff spec_of (spec_inside start spec_expression) cursor.old result cursor.new }
{
    let pos = cursor.pos();
    let head = parse_spec_head(cursor, alloc, place)?;
    parse_behind_spec_head(cursor, alloc, start, pos, head)
}

/// Parses the rest of an expression after this head. The head's position is `pos`, and that of the
/// `(` before it is `start`.
#[cycle(spec)]
fn parse_behind_spec_head(
    cursor: &mut Cursor,
    alloc: Global,
    start: Pos,
    pos: Pos,
    head: Head,
) -> Result<SpecExpr, Stop>
    ensures { ReadsOff spec_of (behind_spec_head spec_expression start pos (head_view head))
        cursor.old result cursor.new }
{
    match head {
        Head::Switch => parse_switch(cursor, alloc, start),
        Head::Let => parse_spec_let(cursor, alloc, start),
        Head::With => parse_with(cursor, alloc, start),
        Head::Match => parse_match(cursor, alloc, start),
        Head::Struct => parse_spec_struct(cursor, alloc, start),
        Head::Macro => parse_macro(cursor, alloc, start),
        Head::As => parse_as(cursor, alloc, start),
        Head::Discriminator(variant) => parse_discriminator(cursor, alloc, start, pos, variant),
        Head::Expansion(name) => parse_expansion(cursor, alloc, start, pos, name),
        Head::Operator(op) => parse_operation(cursor, alloc, start, op),
        Head::Field(field) => parse_field(cursor, alloc, start, pos, field),
        Head::Variant(name, variant) => parse_variant(cursor, alloc, start, name, variant),
    }
}

#[cycle(spec)]
fn parse_switch(cursor: &mut Cursor, alloc: Global, start: Pos) -> Result<SpecExpr, Stop>
    ensures { ReadsOff spec_of (behind_spec_head spec_expression start start switch_head)
        cursor.old result cursor.new }
{
    let subject = parse_spec_expr(cursor, alloc)?;
    let args = parse_cases(cursor, alloc, subject)?;
    Ok(SpecExpr::Op {
        op: SpecOp::Switch,
        args,
        pos: start,
    })
}

/// Parses the cases of a `switch` after its subject, up to the closing parenthesis.
#[cycle(spec)]
fn parse_cases(cursor: &mut Cursor, alloc: Global, subject: SpecExpr) -> Result<Vec<SpecExpr>, Stop>
    ensures { ReadsOff (λ xs. specs_of xs.items) (cases_behind (spec_of subject)) cursor.old result
        cursor.new }
{
    let mut args = Vec::new(alloc);
    args.push(subject)?;
    while !cursor.is_rparen() {
        args.push(parse_case(cursor, alloc)?)?;
    }
    Ok(args)
}

#[cycle(spec)]
fn parse_case(cursor: &mut Cursor, alloc: Global) -> Result<SpecExpr, Stop>
    ensures { ReadsOff spec_of (spec_pair spec_expression) cursor.old result cursor.new }
{
    cursor.expect_lparen(alloc)?;
    let pos = cursor.pos();
    let l = Box::new(alloc, parse_spec_expr(cursor, alloc)?)?;
    let r = Box::new(alloc, parse_spec_expr(cursor, alloc)?)?;
    cursor.close(alloc, SpecExpr::Pair { l, r, pos })
}

#[cycle(spec)]
fn parse_spec_let(cursor: &mut Cursor, alloc: Global, start: Pos) -> Result<SpecExpr, Stop>
    ensures { ReadsOff spec_of (behind_spec_head spec_expression start start let_head) cursor.old
        result cursor.new }
{
    let defs = parse_spec_letdefs(cursor, alloc)?;
    let body = Box::new(alloc, parse_spec_expr(cursor, alloc)?)?;
    Ok(SpecExpr::Let {
        defs,
        body,
        pos: start,
    })
}

/// Parses the definitions of a `let`, in parentheses.
#[cycle(spec)]
fn parse_spec_letdefs(cursor: &mut Cursor, alloc: Global) -> Result<Vec<(Ident, SpecExpr)>, Stop>
    ensures { ReadsOff (λ ds. single_spec_lets_of ds.items) (spec_lets spec_expression) cursor.old
        result cursor.new }
{
    cursor.expect_lparen(alloc)?;
    let defs = parse_spec_letdef_list(cursor, alloc)?;
    cursor.close(alloc, defs)
}

/// Parses definitions, up to the closing parenthesis.
#[cycle(spec)]
fn parse_spec_letdef_list(
    cursor: &mut Cursor,
    alloc: Global,
) -> Result<Vec<(Ident, SpecExpr)>, Stop>
    ensures { ReadsOff (λ ds. single_spec_lets_of ds.items) (many at_rparen (spec_let
        spec_expression)) cursor.old result cursor.new }
{
    let mut defs = Vec::new(alloc);
    while !cursor.is_rparen() {
        defs.push(parse_spec_letdef(cursor, alloc)?)?;
    }
    Ok(defs)
}

#[cycle(spec)]
fn parse_spec_letdef(cursor: &mut Cursor, alloc: Global) -> Result<(Ident, SpecExpr), Stop>
    ensures { ReadsOff single_spec_let_of (spec_let spec_expression) cursor.old result cursor.new }
{
    cursor.expect_lparen(alloc)?;
    let name = cursor.parse_ident(alloc)?;
    let value = parse_spec_expr(cursor, alloc)?;
    cursor.close(alloc, (name, value))
}

#[cycle(spec)]
fn parse_with(cursor: &mut Cursor, alloc: Global, start: Pos) -> Result<SpecExpr, Stop>
    ensures { ReadsOff spec_of (behind_spec_head spec_expression start start with_head) cursor.old
        result cursor.new }
{
    let decls = cursor.parse_idents(alloc)?;
    let body = Box::new(alloc, parse_spec_expr(cursor, alloc)?)?;
    Ok(SpecExpr::With {
        decls,
        body,
        pos: start,
    })
}

#[cycle(spec)]
fn parse_match(cursor: &mut Cursor, alloc: Global, start: Pos) -> Result<SpecExpr, Stop>
    ensures { ReadsOff spec_of (behind_spec_head spec_expression start start match_head) cursor.old
        result cursor.new }
{
    let x = Box::new(alloc, parse_spec_expr(cursor, alloc)?)?;
    let arms = parse_arms(cursor, alloc)?;
    Ok(SpecExpr::Match {
        x,
        arms,
        pos: start,
    })
}

/// Parses the arms of a `match`, up to the closing parenthesis.
#[cycle(spec)]
fn parse_arms(cursor: &mut Cursor, alloc: Global) -> Result<Vec<Arm>, Stop>
    ensures { ReadsOff (λ arms. single_arms_of arms.items) (many at_rparen (arm spec_expression))
        cursor.old result cursor.new }
{
    let mut arms = Vec::new(alloc);
    while !cursor.is_rparen() {
        arms.push(parse_arm(cursor, alloc)?)?;
    }
    Ok(arms)
}

#[cycle(spec)]
fn parse_arm(cursor: &mut Cursor, alloc: Global) -> Result<Arm, Stop>
    ensures { ReadsOff single_arm_of (arm spec_expression) cursor.old result cursor.new }
{
    cursor.expect_lparen(alloc)?;
    let pos = cursor.pos();
    let (variant, args) = cursor.parse_headed(alloc)?;
    let body = parse_spec_expr(cursor, alloc)?;
    cursor.close(
        alloc,
        Arm {
            variant,
            args,
            body,
            pos,
        },
    )
}

#[cycle(spec)]
fn parse_spec_struct(cursor: &mut Cursor, alloc: Global, start: Pos) -> Result<SpecExpr, Stop>
    ensures { ReadsOff spec_of (behind_spec_head spec_expression start start struct_head)
        cursor.old result cursor.new }
{
    let fields = parse_field_inits(cursor, alloc)?;
    Ok(SpecExpr::Struct { fields, pos: start })
}

/// Parses the fields of a `struct`, up to the closing parenthesis.
#[cycle(spec)]
fn parse_field_inits(cursor: &mut Cursor, alloc: Global) -> Result<Vec<FieldInit>, Stop>
    ensures { ReadsOff (λ fs. single_field_inits_of fs.items) (many at_rparen (field_init
        spec_expression)) cursor.old result cursor.new }
{
    let mut fields = Vec::new(alloc);
    while !cursor.is_rparen() {
        fields.push(parse_field_init(cursor, alloc)?)?;
    }
    Ok(fields)
}

#[cycle(spec)]
fn parse_field_init(cursor: &mut Cursor, alloc: Global) -> Result<FieldInit, Stop>
    ensures { ReadsOff single_field_init_of (field_init spec_expression) cursor.old result
        cursor.new }
{
    cursor.expect_lparen(alloc)?;
    let pos = cursor.pos();
    let name = cursor.parse_ident(alloc)?;
    let value = Box::new(alloc, parse_spec_expr(cursor, alloc)?)?;
    cursor.close(alloc, FieldInit { name, value, pos })
}

#[cycle(spec)]
fn parse_macro(cursor: &mut Cursor, alloc: Global, start: Pos) -> Result<SpecExpr, Stop>
    ensures { ReadsOff spec_of (behind_spec_head spec_expression start start macro_head) cursor.old
        result cursor.new }
{
    let params = cursor.parse_idents(alloc)?;
    let body = Box::new(alloc, parse_spec_expr(cursor, alloc)?)?;
    Ok(SpecExpr::Macro {
        params,
        body,
        pos: start,
    })
}

#[cycle(spec)]
fn parse_as(cursor: &mut Cursor, alloc: Global, start: Pos) -> Result<SpecExpr, Stop>
    ensures { ReadsOff spec_of (behind_spec_head spec_expression start start as_head) cursor.old
        result cursor.new }
{
    let x = Box::new(alloc, parse_spec_expr(cursor, alloc)?)?;
    let ty = parse_model_type(cursor, alloc)?;
    Ok(SpecExpr::As { x, ty, pos: start })
}

#[cycle(spec)]
fn parse_discriminator(
    cursor: &mut Cursor,
    alloc: Global,
    start: Pos,
    pos: Pos,
    variant: String,
) -> Result<SpecExpr, Stop>
    ensures { ReadsOff spec_of (behind_spec_head spec_expression start pos (discriminator_head
        (string_bytes variant))) cursor.old result cursor.new }
{
    let x = Box::new(alloc, parse_spec_expr(cursor, alloc)?)?;
    Ok(SpecExpr::Discriminator {
        variant: Ident(variant, pos),
        x,
        pos: start,
    })
}

#[cycle(spec)]
fn parse_expansion(
    cursor: &mut Cursor,
    alloc: Global,
    start: Pos,
    pos: Pos,
    name: String,
) -> Result<SpecExpr, Stop>
    ensures { ReadsOff spec_of (behind_spec_head spec_expression start pos (expansion_head
        (string_bytes name))) cursor.old result cursor.new }
{
    let args = parse_spec_exprs(cursor, alloc)?;
    Ok(SpecExpr::Expand {
        name: Ident(name, pos),
        args,
        pos: start,
    })
}

#[cycle(spec)]
fn parse_operation(
    cursor: &mut Cursor,
    alloc: Global,
    start: Pos,
    op: SpecOp,
) -> Result<SpecExpr, Stop>
    ensures { ReadsOff spec_of (behind_spec_head spec_expression start start (operator_head op))
        cursor.old result cursor.new }
{
    let args = parse_spec_exprs(cursor, alloc)?;
    Ok(SpecExpr::Op {
        op,
        args,
        pos: start,
    })
}

#[cycle(spec)]
fn parse_field(
    cursor: &mut Cursor,
    alloc: Global,
    start: Pos,
    pos: Pos,
    field: String,
) -> Result<SpecExpr, Stop>
    ensures { ReadsOff spec_of (behind_spec_head spec_expression start pos (field_head
        (string_bytes field))) cursor.old result cursor.new }
{
    let x = Box::new(alloc, parse_spec_expr(cursor, alloc)?)?;
    Ok(SpecExpr::Field {
        field: Ident(field, pos),
        x,
        pos: start,
    })
}

#[cycle(spec)]
fn parse_variant(
    cursor: &mut Cursor,
    alloc: Global,
    start: Pos,
    name: String,
    variant: String,
) -> Result<SpecExpr, Stop>
    ensures { ReadsOff spec_of (behind_spec_head spec_expression start start (variant_head
        (string_bytes name) (string_bytes variant))) cursor.old result cursor.new }
{
    let args = parse_spec_exprs(cursor, alloc)?;
    Ok(SpecExpr::Enum {
        name: Ident(name, start),
        variant: Ident(variant, start),
        args,
        pos: start,
    })
}

/// Parses spec expressions, up to the closing parenthesis.
#[cycle(spec)]
pub(super) fn parse_spec_exprs(cursor: &mut Cursor, alloc: Global) -> Result<Vec<SpecExpr>, Stop>
    ensures { ReadsOff (λ xs. specs_of xs.items) (many at_rparen spec_expression) cursor.old result
        cursor.new }
{
    let mut exprs = Vec::new(alloc);
    while !cursor.is_rparen() {
        exprs.push(parse_spec_expr(cursor, alloc)?)?;
    }
    Ok(exprs)
}
