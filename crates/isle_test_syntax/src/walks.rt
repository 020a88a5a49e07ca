//! Walks over the terms of patterns and expressions.

ghost use Rattle.std.specs.Prelude.{◌≡◌};
ghost use Rattle.std.specs.List.{list_any};
ghost use Rattle.isle_ast_rules.specs.TermHeads.{expression_heads, heads};
ghost use Rattle.isle_ast_rules.specs.TreeView.{expression_of, pattern_of};
ghost use Rattle.isle_test_syntax.specs.Walks.{is_of_symbol, last_pos};

use isle_syntax::ast::{Def, Expr, Ident, Pattern};
use isle_syntax::lexer::Pos;

/// The position of the last term of a pattern.
fn last_term(pattern: &Pattern) -> Option<Pos>
    ensures { result ≡ last_pos (heads (pattern_of pattern.now)) }
{
    let mut last = None;
    let mut keep = |pos: Pos, _sym: &Ident| last = Some(pos);
    pattern.terms(&mut keep);
    last
}

/// Returns whether an expression has a term with this symbol.
fn mentions(expr: &Expr, symbol: &str) -> bool
    ensures { result
        ≡ list_any (is_of_symbol symbol.now) (expression_heads (expression_of expr.now)) }
{
    let mut found = false;
    let mut look = |_pos: Pos, sym: &Ident| found |= sym.0.as_str() == symbol;
    expr.terms(&mut look);
    found
}

/// The position of the last term of the one rule's pattern, and whether its expression has terms
/// with each of two symbols; `None` unless the definitions are one rule.
pub fn told_of_rule(defs: &[Def], symbol: &str, other: &str) -> Option<(Option<Pos>, bool, bool)> {
    match defs {
        [Def::Rule(rule)] => Some((
            last_term(&rule.pattern),
            mentions(&rule.expr, symbol),
            mentions(&rule.expr, other),
        )),
        _ => None,
    }
}
