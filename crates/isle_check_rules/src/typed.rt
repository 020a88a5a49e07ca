//! Typed rules.

use isle_base::lexer::Pos;
use isle_check_typing::expressions::TypedExpression;
use isle_check_typing::{Fault, TypedPattern};

/// A rule whose patterns and expressions are typed. The environment of its program holds all names.
/// Its variables are numbered in the order in which they are bound, from 0.
#[derive(Drop)]
pub struct TypedRule<'e> {
    /// The term of its left side.
    pub term: &'e str,
    /// The typed patterns of the term's arguments, in order, without those that have none.
    pub args: Vec<TypedPattern<'e>>,
    /// The conditions, in order, without those that have no typed pattern or expression.
    pub iflets: Vec<TypedIfLet<'e>>,
    /// The typed expression of the right side.
    pub expr: TypedExpression<'e>,
    /// The priority: 0 if the rule has none.
    pub prio: i64,
    /// The position of the rule.
    pub pos: Pos,
}

/// A condition of a rule: the expression's value matches the pattern.
#[derive(Drop)]
pub struct TypedIfLet<'e> {
    /// The typed pattern.
    pub pattern: TypedPattern<'e>,
    /// The typed expression.
    pub expr: TypedExpression<'e>,
}

/// A rule's typed rule and its errors.
#[derive(Drop)]
pub struct RuleTyping<'e> {
    /// The typed rule, if the root of the left side is a known term and the right side is typed.
    pub typed: Option<TypedRule<'e>>,
    /// The errors, in order.
    pub faults: Vec<Fault>,
}

/// The typed rules of rules and their errors.
#[derive(Drop)]
pub struct RulesTyping<'e> {
    /// The typed rules, in order, without those that have none.
    pub typed: Vec<TypedRule<'e>>,
    /// The errors, in order.
    pub faults: Vec<Fault>,
}
