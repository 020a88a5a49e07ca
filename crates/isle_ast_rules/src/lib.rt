//! The part of ISLE's syntax tree for rewriting: patterns, expressions, conditions, rules,
//! extractors and macro templates. `isle_ast` re-exports these types under its own paths.
#![tactic(auto)]

mod clone;
mod compare;
mod macros;
mod walks;
pub mod writability;

use isle_ast_names::Ident;
use isle_base::lexer::Pos;

/// A rule. A term that matches the pattern is rewritten to the expression, if the conditions hold.
#[derive(Debug, PartialEq, Eq, Drop)]
pub struct Rule {
    /// The left side.
    pub pattern: Pattern,
    /// The conditions, in order.
    pub iflets: Vec<IfLet>,
    /// The right side.
    pub expr: Expr,
    /// The position of the token after the keyword.
    pub pos: Pos,
    /// The priority, if the rule has one.
    pub prio: Option<i64>,
    /// The name, if the rule has one.
    pub name: Option<Ident>,
}

/// A condition of a rule, `(if-let ..)`. In `(if ..)` the pattern is a wildcard.
#[derive(Debug, PartialEq, Eq, Drop)]
pub struct IfLet {
    /// The pattern that the expression's value must match.
    pub pattern: Pattern,
    /// The expression.
    pub expr: Expr,
    /// The position of the token after the keyword.
    pub pos: Pos,
}

/// An internal extractor, defined by a pattern: `(extractor (A x y) (B x _ y))`.
#[derive(Debug, PartialEq, Eq, Drop)]
pub struct Extractor {
    /// The term.
    pub term: Ident,
    /// Its parameters.
    pub args: Vec<Ident>,
    /// The pattern that defines it.
    pub template: Pattern,
    /// The position of the token after the keyword.
    pub pos: Pos,
}

/// A pattern of a rule, a condition or an extractor. Its position is that of its first token.
#[cycle(pattern)]
#[derive(Debug, Drop)]
pub enum Pattern {
    /// A variable. The first use of a name binds it, and later uses must have the same value.
    Var {
        var: Ident,
        pos: Pos,
    },
    /// A variable bound to the value that a pattern matches, `x @ ..`.
    BindPattern {
        var: Ident,
        /// The pattern.
        subpat: Box<Pattern>,
        pos: Pos,
    },
    /// `true` or `false`.
    ConstBool {
        val: bool,
        pos: Pos,
    },
    /// An integer.
    ConstInt {
        val: i128,
        pos: Pos,
    },
    /// An external constant, `$NAME`.
    ConstPrim {
        /// The name, without its `$`.
        val: Ident,
        pos: Pos,
    },
    /// A term or a variant of a type, with patterns for its arguments.
    Term {
        /// The term.
        sym: Ident,
        /// The patterns.
        args: Vec<Pattern>,
        pos: Pos,
    },
    /// The wildcard, `_`.
    Wildcard {
        pos: Pos,
    },
    /// Patterns that must all match, `(and ..)`.
    And {
        /// The patterns.
        subpats: Vec<Pattern>,
        pos: Pos,
    },
    /// An argument of a macro, in a template. It has no syntax.
    MacroArg {
        /// The index of the argument, from 0.
        index: usize,
        /// The position of the pattern that it replaces.
        pos: Pos,
    },
}

/// An expression of a rule or a condition. Its position is that of its first token.
#[cycle(expression)]
#[derive(Debug, Drop)]
pub enum Expr {
    /// A term and its arguments.
    Term {
        /// The term.
        sym: Ident,
        /// The arguments.
        args: Vec<Expr>,
        pos: Pos,
    },
    /// A variable.
    Var {
        name: Ident,
        pos: Pos,
    },
    /// `true` or `false`.
    ConstBool {
        val: bool,
        pos: Pos,
    },
    /// An integer.
    ConstInt {
        val: i128,
        pos: Pos,
    },
    /// An external constant, `$NAME`.
    ConstPrim {
        /// The name, without its `$`.
        val: Ident,
        pos: Pos,
    },
    /// An expression with definitions of variables, `(let ((x T ..) ..) ..)`.
    Let {
        /// The definitions, in order.
        defs: Vec<LetDef>,
        /// The body.
        body: Box<Expr>,
        pos: Pos,
    },
}

/// A variable of a `let`, with its type and value.
#[cycle(expression)]
#[derive(Debug, Drop)]
pub struct LetDef {
    /// The name of the variable.
    pub var: Ident,
    /// Its type.
    pub ty: Ident,
    /// Its value.
    pub val: Box<Expr>,
    /// The position of the definition's first token.
    pub pos: Pos,
}
