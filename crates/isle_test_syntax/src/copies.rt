//! Laws of copies whose impl is derived. Each is the contract of a function that copies.

ghost use Rattle.std.specs.Prelude.{◌≡◌, IfOk};
ghost use Rattle.isle_ast_names.specs.TreeView.{name_of};

use isle_syntax::ast::{Ident, SpecOp};
use isle_syntax::lexer::Pos;
use std::alloc::AllocError;

/// A copy of an identifier has its text and its position.
pub fn copy_of_identifier(ident: &Ident) -> Result<Ident, AllocError>
    ensures { IfOk result (λ copy. name_of copy ≡ name_of ident.now) }
{
    ident.clone()
}

/// A copy of a position is the position.
pub fn copy_of_position(pos: &Pos) -> Result<Pos, AllocError>
    ensures { IfOk result (λ copy. copy ≡ pos.now) }
{
    pos.clone()
}

/// A copy of an operator is the operator.
pub fn copy_of_operator(op: &SpecOp) -> Result<SpecOp, AllocError>
    ensures { IfOk result (λ copy. copy ≡ op.now) }
{
    op.clone()
}

/// Returns whether an operator is equal to its copies, and to no other operator.
pub fn are_operators_copied() -> bool {
    let operator = SpecOp::Sub;
    let copy = operator;
    let made: Result<SpecOp, AllocError> = operator.clone();
    let is_equal = matches!(made, Ok(made) if made == SpecOp::Sub);
    copy == operator && is_equal && copy != SpecOp::Switch
}
