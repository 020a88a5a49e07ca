//! The places of the values of typed expressions.

ghost use Rattle.std.specs.Prelude.{◌≡◌, ◌++◌, ◌∷◌, [], IfOk, map, option_map};
ghost use Rattle.isle_check_typing.specs.expressions.TypedExpressions.{typed_expression_list};
ghost use Rattle.isle_check_typing.specs.expressions.TypedExpressions.{typed_let_list};
ghost use Rattle.isle_check_typing.specs.expressions.TypedView.{typed_expression_of, typed_let_of};
ghost use Rattle.isle_check_environment.specs.signatures.Views.{term_of};
ghost use Rattle.isle_check_matchings.specs.Values.{answered, called, known_with};
ghost use Rattle.isle_check_matchings.specs.Values.{term_value, value};
ghost use Rattle.isle_check_matchings.specs.Values.{value_at, values, variable_value};
ghost use Rattle.isle_check_matchings.specs.Views.{ask_of, asks_of, terms_of, value_of};
ghost use Rattle.isle_check_places.specs.Views.{place_of, places_of};

use crate::asks::Ask;
use crate::openings::Terms;
use isle_check_environment::signatures::Term;
use isle_check_places::{Place, Step, begin, copied, step_on};
use isle_check_typing::expressions::{TypedExpression, TypedLet};
use std::alloc::{AllocError, Global};

/// The place of a value, and the answers that must be there for it.
#[derive(Drop)]
pub struct Value<'a> {
    /// The place of the value.
    pub at: Place<'a>,
    /// The places of the answers.
    pub needs: Vec<Place<'a>>,
}

fn copied_value<'a>(alloc: Global, value: &Value<'a>) -> Result<Value<'a>, AllocError>
    ensures { IfOk result (λ made. value_of made ≡ value_of value.now) }
{
    let at = copied(alloc, &value.at)?;
    let needs = copied_places(alloc, &value.needs)?;
    Ok(Value { at, needs })
}

fn copied_places<'a>(alloc: Global, places: &[Place<'a>]) -> Result<Vec<Place<'a>>, AllocError>
    ensures { IfOk result (λ made. places_of made.items ≡ places_of places.now) }
{
    let mut made = Vec::with_capacity(alloc, places.len())?;
    for place in places {
        made.push(copied(alloc, place)?)?;
    }
    Ok(made)
}

fn copied_ask<'a>(alloc: Global, ask: &Ask<'a>) -> Result<Ask<'a>, AllocError>
    ensures { IfOk result (λ made. ask_of made ≡ ask_of ask.now) }
{
    match ask {
        Ask::Constrains(at, constraint) => Ok(Ask::Constrains(copied(alloc, at)?, *constraint)),
        Ask::Binds(variable, value) => Ok(Ask::Binds(*variable, copied_value(alloc, value)?)),
        Ask::Equals(variable, at) => Ok(Ask::Equals(*variable, copied(alloc, at)?)),
    }
}

fn copied_asks<'a>(alloc: Global, asks: &[Ask<'a>]) -> Result<Vec<Ask<'a>>, AllocError>
    ensures { IfOk result (λ made. asks_of made.items ≡ asks_of asks.now) }
{
    let mut made = Vec::with_capacity(alloc, asks.len())?;
    for ask in asks {
        made.push(copied_ask(alloc, ask)?)?;
    }
    Ok(made)
}

/// Returns a value at a place that needs nothing.
fn plain<'a>(alloc: Global, at: Place<'a>) -> Result<Value<'a>, AllocError>
    ensures { IfOk result (λ made. value_of made ≡ value_at (place_of at.entry.items) []) }
{
    Ok(Value {
        at,
        needs: Vec::new(alloc),
    })
}

/// Returns the value of a variable that is bound by one of these.
pub fn variable_value<'a>(
    alloc: Global,
    known: &[Ask<'a>],
    variable: usize,
) -> Result<Value<'a>, AllocError>
    ensures { IfOk result
        (λ made. value_of made ≡ variable_value (asks_of known.now) variable) }
{
    for ask in known {
        if let Ask::Binds(other, value) = ask {
            if variable == *other {
                return copied_value(alloc, value);
            }
        }
    }
    plain(alloc, Vec::new(alloc))
}

/// Returns what a term gives for arguments.
fn term_value<'a>(
    alloc: Global,
    terms: Terms,
    term: &'a str,
    count: usize,
    args: Value<'a>,
) -> Result<Value<'a>, AllocError>
    ensures { IfOk result (λ made. value_of made
        ≡ term_value (terms_of terms.entry) term.now count (value_of args.entry)) }
{
    let Value { mut at, needs } = args;
    at.push(Step::Computed(term, count))?;
    answered(alloc, terms.env.term(term), Value { at, needs })
}

fn answered<'a>(
    alloc: Global,
    term: Option<&Term>,
    value: Value<'a>,
) -> Result<Value<'a>, AllocError>
    ensures { IfOk result (λ made. value_of made
        ≡ answered (option_map (λ t. term_of t.now) term.entry) (value_of value.entry)) }
{
    let Some(term) = term else {
        return Ok(value);
    };
    let Value { at, mut needs } = value;
    if term.multi {
        let at = step_on(alloc, &at, Step::Each)?;
        return Ok(Value { at, needs });
    }
    if term.partial {
        let held = step_on(alloc, &at, Step::Content)?;
        needs.push(at)?;
        return Ok(Value { at: held, needs });
    }
    Ok(Value { at, needs })
}

/// Returns the value of an expression, where variables are known.
#[cycle(value)]
pub fn expression_value<'a>(
    alloc: Global,
    terms: Terms,
    known: &[Ask<'a>],
    expr: &'a TypedExpression,
) -> Result<Value<'a>, AllocError>
    ensures { IfOk result (λ made. value_of made
        ≡ value (terms_of terms.entry) (asks_of known.now) (typed_expression_of expr.now)) }
{
    match expr {
        TypedExpression::Var { variable, .. } => variable_value(alloc, known, *variable),
        TypedExpression::Bool { val } => plain(alloc, begin(alloc, Step::Bool(*val, "bool"))?),
        TypedExpression::Int { val, ty } => plain(alloc, begin(alloc, Step::Int(*val, ty))?),
        TypedExpression::Const { name, .. } => { plain(alloc, begin(alloc, Step::Const(name))?) }
        TypedExpression::Term { term, args, .. } => { called(alloc, terms, known, term, args) }
        TypedExpression::Let { defs, body, .. } => {
            let inner = known_with(alloc, terms, known, defs)?;
            expression_value(alloc, terms, &inner, body)
        }
    }
}

/// Returns what a term gives for expressions.
#[cycle(value)]
fn called<'a>(
    alloc: Global,
    terms: Terms,
    known: &[Ask<'a>],
    term: &'a str,
    args: &'a Vec<TypedExpression>,
) -> Result<Value<'a>, AllocError>
    ensures { IfOk result (λ made. value_of made
        ≡ called (terms_of terms.entry) (asks_of known.now) term.now
        (typed_expression_list (map typed_expression_of args.now.items))) }
{
    let given = values(alloc, terms, known, args)?;
    term_value(alloc, terms, term, args.len(), given)
}

/// Returns the values of expressions, one behind the other.
#[cycle(value)]
fn values<'a>(
    alloc: Global,
    terms: Terms,
    known: &[Ask<'a>],
    exprs: &'a Vec<TypedExpression>,
) -> Result<Value<'a>, AllocError>
    ensures { IfOk result (λ made. value_of made
        ≡ values (terms_of terms.entry) (asks_of known.now)
        (typed_expression_list (map typed_expression_of exprs.now.items))) }
{
    let mut at = Vec::new(alloc);
    let mut needs = Vec::new(alloc);
    for expr in exprs {
        let mut next = expression_value(alloc, terms, known, expr)?;
        at.append(&mut next.at)?;
        needs.append(&mut next.needs)?;
    }
    Ok(Value { at, needs })
}

/// Returns the known variables and those of a `let`.
#[cycle(value)]
fn known_with<'a>(
    alloc: Global,
    terms: Terms,
    known: &[Ask<'a>],
    defs: &'a Vec<TypedLet>,
) -> Result<Vec<Ask<'a>>, AllocError>
    ensures { IfOk result (λ made. asks_of made.items
        ≡ known_with (terms_of terms.entry) (asks_of known.now)
        (typed_let_list (map typed_let_of defs.now.items))) }
{
    let mut inner = copied_asks(alloc, known)?;
    for def in defs {
        let given = expression_value(alloc, terms, &inner, &def.val)?;
        inner.push(Ask::Binds(def.variable, given))?;
    }
    Ok(inner)
}
