//! The position of a node, and the symbol of a term.

ghost use Rattle.std.specs.Prelude.{◌≡◌};
ghost use Rattle.std.specs.Option.{option_map};
ghost use Rattle.isle_ast_rules.specs.Roots.{expression_pos, pattern_pos, root_term};
ghost use Rattle.isle_ast_rules.specs.TreeView.{expression_of, pattern_of};
ghost use Rattle.isle_ast_names.specs.TreeView.{name_of};

use crate::{Expr, Pattern};
use isle_ast_names::Ident;
use isle_base::lexer::Pos;

impl Pattern {
    pub fn pos(&self) -> Pos
        ensures { result ≡ pattern_pos (pattern_of self.now) }
    {
        match self {
            Pattern::Var { pos, .. }
            | Pattern::BindPattern { pos, .. }
            | Pattern::ConstBool { pos, .. }
            | Pattern::ConstInt { pos, .. }
            | Pattern::ConstPrim { pos, .. }
            | Pattern::Term { pos, .. }
            | Pattern::Wildcard { pos }
            | Pattern::And { pos, .. }
            | Pattern::MacroArg { pos, .. } => *pos,
        }
    }

    /// The symbol of a term pattern, or `None` for any other pattern.
    pub fn root_term(&self) -> Option<&Ident>
        ensures { option_map (λ sym. name_of sym.now) result ≡ root_term (pattern_of self.now) }
    {
        match self {
            Pattern::Term { sym, .. } => Some(sym),
            _ => None,
        }
    }
}

impl Expr {
    pub fn pos(&self) -> Pos
        ensures { result ≡ expression_pos (expression_of self.now) }
    {
        match self {
            Expr::Term { pos, .. }
            | Expr::Var { pos, .. }
            | Expr::ConstBool { pos, .. }
            | Expr::ConstInt { pos, .. }
            | Expr::ConstPrim { pos, .. }
            | Expr::Let { pos, .. } => *pos,
        }
    }
}
