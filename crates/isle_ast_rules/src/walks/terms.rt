//! The terms of patterns and of expressions with their positions, in preorder. No walk allocates.

ghost use Rattle.std.specs.List.{FoldsTo};
ghost use Rattle.isle_ast_rules.specs.TermHeads.{CalledAtHead, expression_heads};
ghost use Rattle.isle_ast_rules.specs.TermHeads.{expression_list_heads, heads, let_list_heads};
ghost use Rattle.isle_ast_rules.specs.TermHeads.{list_heads};
ghost use Rattle.isle_ast_rules.specs.TreeView.{expression_of, expression_list_of, expressions_of};
ghost use Rattle.isle_ast_rules.specs.TreeView.{let_list_of, pattern_of, pattern_list_of};
ghost use Rattle.isle_ast_rules.specs.TreeView.{patterns_of, single_let_of, single_lets_of};
ghost use Rattle.isle_ast_names.specs.TreeView.{name_of};

use crate::{Expr, LetDef, Pattern};
use isle_ast_names::Ident;
use isle_base::lexer::Pos;

impl Pattern {
    /// Calls `f` with the position and the symbol of each term of the pattern, in the order of the
    /// text: a term comes before those of its arguments.
    ///
    /// `f` must accept any argument, at each call.
    pub fn terms<F: FnMut(Pos, &Ident)>(&self, f: &mut F)
        requires { F.IsAlwaysCallable f.old }
        ensures called { FoldsTo (CalledAtHead F.FnMut) f.old (heads (pattern_of self.now)) f.new }
        ensures callable { F.IsAlwaysCallable f.new }
    {
        pattern_terms(self, f);
    }
}

impl Expr {
    /// Calls `f` with the position and the symbol of each term of the expression, in the order of
    /// the text: a term comes before those of its arguments. In a `let`, the terms of the values
    /// come before those of the body.
    ///
    /// `f` must accept any argument, at each call.
    pub fn terms<F: FnMut(Pos, &Ident)>(&self, f: &mut F)
        requires { F.IsAlwaysCallable f.old }
        ensures called { FoldsTo (CalledAtHead F.FnMut) f.old
            (expression_heads (expression_of self.now)) f.new }
        ensures callable { F.IsAlwaysCallable f.new }
    {
        expr_terms(self, f);
    }
}

fn call_at<F: FnMut(Pos, &Ident)>(f: &mut F, pos: Pos, sym: &Ident)
    requires { F.IsAlwaysCallable f.old }
    ensures called { CalledAtHead F.FnMut f.old (pos, name_of sym.now) f.new }
    ensures callable { F.IsAlwaysCallable f.new }
{
    f(pos, sym);
}

/// Calls `f` with each term of a pattern.
#[cycle(pattern_terms)]
fn pattern_terms<F: FnMut(Pos, &Ident)>(pattern: &Pattern, f: &mut F)
    requires { F.IsAlwaysCallable f.old }
    ensures called { FoldsTo (CalledAtHead F.FnMut) f.old (heads (pattern_of pattern.now)) f.new }
    ensures callable { F.IsAlwaysCallable f.new }
{
    match pattern {
        Pattern::BindPattern { subpat, .. } => pattern_terms(subpat, f),
        Pattern::Term { sym, args, pos } => {
            call_at(f, *pos, sym);
            patterns_terms(args, f);
        }
        Pattern::And { subpats, .. } => patterns_terms(subpats, f),
        Pattern::Var { .. }
        | Pattern::ConstBool { .. }
        | Pattern::ConstInt { .. }
        | Pattern::ConstPrim { .. }
        | Pattern::Wildcard { .. }
        | Pattern::MacroArg { .. } => {}
    }
}

/// Calls `f` with each term of the patterns, in order.
#[cycle(pattern_terms)]
fn patterns_terms<F: FnMut(Pos, &Ident)>(patterns: &Vec<Pattern>, f: &mut F)
    requires { F.IsAlwaysCallable f.old }
    ensures called { FoldsTo (CalledAtHead F.FnMut) f.old
        (list_heads (pattern_list_of (patterns_of patterns.now.items))) f.new }
    ensures callable { F.IsAlwaysCallable f.new }
{
    for pattern in patterns {
        pattern_terms(pattern, f);
    }
}

/// Calls `f` with each term of an expression.
#[cycle(expr_terms)]
fn expr_terms<F: FnMut(Pos, &Ident)>(expr: &Expr, f: &mut F)
    requires { F.IsAlwaysCallable f.old }
    ensures called { FoldsTo (CalledAtHead F.FnMut) f.old
        (expression_heads (expression_of expr.now)) f.new }
    ensures callable { F.IsAlwaysCallable f.new }
{
    match expr {
        Expr::Term { sym, args, pos } => {
            call_at(f, *pos, sym);
            exprs_terms(args, f);
        }
        Expr::Let { defs, body, .. } => {
            values_terms(defs, f);
            expr_terms(body, f);
        }
        Expr::Var { .. }
        | Expr::ConstBool { .. }
        | Expr::ConstInt { .. }
        | Expr::ConstPrim { .. } => {}
    }
}

/// Calls `f` with each term of the expressions, in order.
#[cycle(expr_terms)]
fn exprs_terms<F: FnMut(Pos, &Ident)>(exprs: &Vec<Expr>, f: &mut F)
    requires { F.IsAlwaysCallable f.old }
    ensures called { FoldsTo (CalledAtHead F.FnMut) f.old
        (expression_list_heads (expression_list_of (expressions_of exprs.now.items))) f.new }
    ensures callable { F.IsAlwaysCallable f.new }
{
    for expr in exprs {
        expr_terms(expr, f);
    }
}

/// Calls `f` with each term of the values of a `let`, in order.
#[cycle(expr_terms)]
fn values_terms<F: FnMut(Pos, &Ident)>(defs: &Vec<LetDef>, f: &mut F)
    requires { F.IsAlwaysCallable f.old }
    ensures called { FoldsTo (CalledAtHead F.FnMut) f.old
        (let_list_heads (let_list_of (single_lets_of defs.now.items))) f.new }
    ensures callable { F.IsAlwaysCallable f.new }
{
    for def in defs {
        value_terms(def, f);
    }
}

/// Calls `f` with each term of the value in a definition of a `let`.
#[cycle(expr_terms)]
fn value_terms<F: FnMut(Pos, &Ident)>(def: &LetDef, f: &mut F)
    requires { F.IsAlwaysCallable f.old }
    ensures called { FoldsTo (CalledAtHead F.FnMut) f.old
        (expression_heads (single_let_of def.now).val) f.new }
    ensures callable { F.IsAlwaysCallable f.new }
{
    expr_terms(&def.val, f);
}
