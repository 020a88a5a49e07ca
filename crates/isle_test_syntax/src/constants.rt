//! Constants of models, made by hand: operations with arguments that no text leads to, and bit
//! vectors.

use isle_syntax::ast::{Def, Model, ModelValue, SpecExpr, SpecOp};
use isle_syntax::printer::{PrintFault, print_node};
use isle_test_nodes::case::Case;
use isle_test_nodes::trees::{ident, pos};
use std::alloc::{AllocError, Global};

fn var(alloc: Global, name: &str) -> Result<SpecExpr, AllocError> {
    Ok(SpecExpr::Var {
        var: ident(alloc, name)?,
        pos: pos(),
    })
}

fn op(op: SpecOp, args: Vec<SpecExpr>) -> SpecExpr {
    SpecExpr::Op {
        op,
        args,
        pos: pos(),
    }
}

/// The pair of an expression and a variable.
fn pair(alloc: Global, l: SpecExpr, name: &str) -> Result<SpecExpr, AllocError> {
    Ok(SpecExpr::Pair {
        l: Box::new(alloc, l)?,
        r: Box::new(alloc, var(alloc, name)?)?,
        pos: pos(),
    })
}

/// The argument for a word: a variable for `NAME`, its negation for `!NAME`, a pair for `NAME
/// NAME`, and a pair of that and a variable for `NAME NAME NAME`.
fn argument(alloc: Global, text: &str) -> Result<SpecExpr, AllocError> {
    if let Some(name) = text.strip_prefix('!') {
        return Ok(op(SpecOp::Not, vec![in alloc; var(alloc, name)?]?));
    }
    match text.rsplit_once(' ') {
        Some((first, last)) => pair(alloc, couple(alloc, first)?, last),
        None => var(alloc, text),
    }
}

/// The variable, or the pair of two variables, for a text.
fn couple(alloc: Global, text: &str) -> Result<SpecExpr, AllocError> {
    match text.split_once(' ') {
        Some((first, last)) => pair(alloc, var(alloc, first)?, last),
        None => var(alloc, text),
    }
}

fn operator(name: &str) -> SpecOp {
    match name {
        "add" => SpecOp::Add,
        "sub" => SpecOp::Sub,
        "and" => SpecOp::And,
        "if" => SpecOp::If,
        "eq" => SpecOp::Eq,
        "switch" => SpecOp::Switch,
        _ => SpecOp::FPPositiveInfinity,
    }
}

/// `(OPERATOR ARGUMENT..)`
fn operation(alloc: Global, case: &Case) -> Result<SpecExpr, AllocError> {
    let mut args = Vec::new(alloc);
    for text in case.texts_from(2) {
        args.push(argument(alloc, text)?)?;
    }
    Ok(op(operator(case.text(1)), args))
}

/// The bit vector with a value and a width, each the greatest one if it is missing.
fn bits(value: &str, width: &str) -> SpecExpr {
    SpecExpr::ConstBitVec {
        val: value.parse().unwrap_or(u128::MAX),
        width: width.parse().unwrap_or(usize::MAX),
        pos: pos(),
    }
}

/// The print of such a bit vector.
pub fn print_of_bits(alloc: Global, value: &str, width: &str) -> Result<String, PrintFault> {
    print_node(alloc, &bits(value, width), 78)
}

/// The spec expression of the kind that the first text names.
fn expression(alloc: Global, case: &Case) -> Result<SpecExpr, AllocError> {
    match case.text(0) {
        "argument" => argument(alloc, case.text(1)),
        "operation" => operation(alloc, case),
        _ => Ok(bits(case.text(1), case.text(2))),
    }
}

/// `(model A (const EXPRESSION))`
pub fn constant(alloc: Global, case: &Case) -> Result<Vec<Def>, AllocError> {
    let name = ident(alloc, "A")?;
    let val = ModelValue::ConstValue(expression(alloc, case)?);
    Ok(vec![in alloc; Def::Model(Model { name, val })]?)
}
