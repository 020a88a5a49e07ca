//! Copies of rules, extractors, patterns and expressions.

ghost use Rattle.std.specs.Prelude.{◌≡◌, IfOk};
ghost use Rattle.isle_ast_rules.specs.TreeView.{condition_of, expression_of, expressions_of};
ghost use Rattle.isle_ast_rules.specs.TreeView.{extractor_of, pattern_of, patterns_of, rule_of};
ghost use Rattle.isle_ast_rules.specs.TreeView.{single_let_of, single_lets_of};

use crate::{Expr, Extractor, IfLet, LetDef, Pattern, Rule};
use std::alloc::AllocError;

impl Clone for Rule {
    ghost is_clone = { λ rule copy. rule_of copy ≡ rule_of rule };

    fn clone(&self) -> Result<Rule, AllocError> {
        Ok(Rule {
            name: self.name.clone()?,
            iflets: self.iflets.clone()?,
            pattern: self.pattern.clone()?,
            expr: self.expr.clone()?,
            pos: self.pos,
            prio: self.prio,
        })
    }
}

impl Clone for IfLet {
    ghost is_clone = { λ iflet copy. condition_of copy ≡ condition_of iflet };

    fn clone(&self) -> Result<IfLet, AllocError> {
        Ok(IfLet {
            pattern: self.pattern.clone()?,
            expr: self.expr.clone()?,
            pos: self.pos,
        })
    }
}

impl Clone for Extractor {
    ghost is_clone = { λ extractor copy. extractor_of copy ≡ extractor_of extractor };

    fn clone(&self) -> Result<Extractor, AllocError> {
        Ok(Extractor {
            term: self.term.clone()?,
            args: self.args.clone()?,
            template: self.template.clone()?,
            pos: self.pos,
        })
    }
}

impl Clone for Pattern {
    ghost is_clone = { λ pattern copy. pattern_of copy ≡ pattern_of pattern };

    fn clone(&self) -> Result<Pattern, AllocError> {
        copy_pattern(self)
    }
}

#[cycle(pattern)]
fn copy_pattern(pattern: &Pattern) -> Result<Pattern, AllocError>
    ensures { IfOk result (λ copy. pattern_of copy ≡ pattern_of pattern.now) }
{
    match pattern {
        Pattern::Var { var, pos } => Ok(Pattern::Var {
            var: var.clone()?,
            pos: *pos,
        }),
        Pattern::BindPattern { var, subpat, pos } => {
            let copied = copy_pattern(subpat)?;
            Ok(Pattern::BindPattern {
                var: var.clone()?,
                subpat: Box::new(*Box::allocator(subpat), copied)?,
                pos: *pos,
            })
        }
        Pattern::ConstBool { val, pos } => Ok(Pattern::ConstBool {
            val: *val,
            pos: *pos,
        }),
        Pattern::ConstInt { val, pos } => Ok(Pattern::ConstInt {
            val: *val,
            pos: *pos,
        }),
        Pattern::ConstPrim { val, pos } => Ok(Pattern::ConstPrim {
            val: val.clone()?,
            pos: *pos,
        }),
        Pattern::Term { sym, args, pos } => Ok(Pattern::Term {
            sym: sym.clone()?,
            args: copy_patterns(args)?,
            pos: *pos,
        }),
        Pattern::Wildcard { pos } => Ok(Pattern::Wildcard { pos: *pos }),
        Pattern::And { subpats, pos } => Ok(Pattern::And {
            subpats: copy_patterns(subpats)?,
            pos: *pos,
        }),
        Pattern::MacroArg { index, pos } => Ok(Pattern::MacroArg {
            index: *index,
            pos: *pos,
        }),
    }
}

#[cycle(pattern)]
fn copy_patterns(patterns: &Vec<Pattern>) -> Result<Vec<Pattern>, AllocError>
    ensures { IfOk result (λ copies. patterns_of copies.items ≡ patterns_of patterns.now.items) }
{
    let mut copies = Vec::with_capacity(*patterns.allocator(), patterns.len())?;
    for pattern in patterns {
        copies.push(copy_pattern(pattern)?)?;
    }
    Ok(copies)
}

impl Clone for Expr {
    ghost is_clone = { λ expr copy. expression_of copy ≡ expression_of expr };

    fn clone(&self) -> Result<Expr, AllocError> {
        copy_expr(self)
    }
}

impl Clone for LetDef {
    ghost is_clone = { λ def copy. single_let_of copy ≡ single_let_of def };

    fn clone(&self) -> Result<LetDef, AllocError> {
        copy_let(self)
    }
}

#[cycle(expr)]
fn copy_expr(expr: &Expr) -> Result<Expr, AllocError>
    ensures { IfOk result (λ copy. expression_of copy ≡ expression_of expr.now) }
{
    match expr {
        Expr::Term { sym, args, pos } => Ok(Expr::Term {
            sym: sym.clone()?,
            args: copy_exprs(args)?,
            pos: *pos,
        }),
        Expr::Var { name, pos } => Ok(Expr::Var {
            name: name.clone()?,
            pos: *pos,
        }),
        Expr::ConstBool { val, pos } => Ok(Expr::ConstBool {
            val: *val,
            pos: *pos,
        }),
        Expr::ConstInt { val, pos } => Ok(Expr::ConstInt {
            val: *val,
            pos: *pos,
        }),
        Expr::ConstPrim { val, pos } => Ok(Expr::ConstPrim {
            val: val.clone()?,
            pos: *pos,
        }),
        Expr::Let { defs, body, pos } => {
            let copied = copy_expr(body)?;
            Ok(Expr::Let {
                defs: copy_lets(defs)?,
                body: Box::new(*Box::allocator(body), copied)?,
                pos: *pos,
            })
        }
    }
}

#[cycle(expr)]
fn copy_exprs(exprs: &Vec<Expr>) -> Result<Vec<Expr>, AllocError>
    ensures { IfOk result (λ copies. expressions_of copies.items ≡ expressions_of exprs.now.items) }
{
    let mut copies = Vec::with_capacity(*exprs.allocator(), exprs.len())?;
    for expr in exprs {
        copies.push(copy_expr(expr)?)?;
    }
    Ok(copies)
}

/// Copies the definitions of a `let`.
#[cycle(expr)]
fn copy_lets(defs: &Vec<LetDef>) -> Result<Vec<LetDef>, AllocError>
    ensures { IfOk result (λ copies. single_lets_of copies.items ≡ single_lets_of defs.now.items) }
{
    let mut copies = Vec::with_capacity(*defs.allocator(), defs.len())?;
    for def in defs {
        copies.push(copy_let(def)?)?;
    }
    Ok(copies)
}

#[cycle(expr)]
fn copy_let(def: &LetDef) -> Result<LetDef, AllocError>
    ensures { IfOk result (λ copy. single_let_of copy ≡ single_let_of def.now) }
{
    let copied = copy_expr(&def.val)?;
    Ok(LetDef {
        var: def.var.clone()?,
        ty: def.ty.clone()?,
        val: Box::new(*Box::allocator(&def.val), copied)?,
        pos: def.pos,
    })
}
