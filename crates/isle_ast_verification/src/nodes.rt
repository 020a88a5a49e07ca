//! The position of a spec expression.

ghost use Rattle.std.specs.Prelude.{◌≡◌};
ghost use Rattle.isle_ast_verification.specs.Roots.{spec_pos};
ghost use Rattle.isle_ast_verification.specs.TreeView.{spec_of};

use crate::SpecExpr;
use isle_base::lexer::Pos;

impl SpecExpr {
    pub fn pos(&self) -> Pos
        ensures { result ≡ spec_pos (spec_of self.now) }
    {
        match self {
            SpecExpr::ConstInt { pos, .. }
            | SpecExpr::ConstBitVec { pos, .. }
            | SpecExpr::ConstBool { pos, .. }
            | SpecExpr::Var { pos, .. }
            | SpecExpr::As { pos, .. }
            | SpecExpr::Field { pos, .. }
            | SpecExpr::Discriminator { pos, .. }
            | SpecExpr::Op { pos, .. }
            | SpecExpr::Match { pos, .. }
            | SpecExpr::Let { pos, .. }
            | SpecExpr::With { pos, .. }
            | SpecExpr::Macro { pos, .. }
            | SpecExpr::Expand { pos, .. }
            | SpecExpr::Pair { pos, .. }
            | SpecExpr::Enum { pos, .. }
            | SpecExpr::Struct { pos, .. } => *pos,
        }
    }
}
