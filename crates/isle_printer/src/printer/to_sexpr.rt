//! Nodes that have an S-expression, the form in which a node is laid out.

ghost use Rattle.std.specs.Prelude.{IfOk, IsErrOf, IsSome, None, OnOk, Option, Some, [], ◌∷◌, ◌≡◌};
ghost use Rattle.isle_ast_names.specs.TreeView.{name_of};
ghost use Rattle.isle_printer_layout.specs.NameShapes.{name_shape};
ghost use Rattle.isle_printer_layout.specs.Pieces.{put_before};
ghost use Rattle.isle_printer_layout.specs.Sexp.{Sexp};
ghost use Rattle.isle_printer_layout.specs.SexpView.{sexp_of};
ghost use Rattle.isle_printer_layout.specs.declared.sexpr.PrintFault.TheVariants.{MacroArg, Memory};

use isle_ast::ast::Ident;
use isle_printer_layout::names::name;
use isle_printer_layout::{PrintFault, SExpr, Tape, sexpr_of};
use std::alloc::{AllocError, Global};

/// A value that has an S-expression.
///
/// Callers can implement it for their own types. `meaning` defines a value's S-expression, or that
/// it has none.
pub trait ToSExpr {
    ghost meaning: { Self → Option Sexp };

    /// Converts the value to an S-expression.
    ///
    /// The value of `Ok` is the meaning, so a value without one returns an error. `MacroArg` is
    /// returned only then: a node of the tree has no meaning if it is, or contains, a macro
    /// argument, which is tested before anything is built. Returns `Memory` if memory runs out, and
    /// only for a value with a meaning.
    fn to_sexpr(&self, alloc: Global) -> Result<SExpr, PrintFault>
        ensures meant { IfOk result (λ s. meaning self.now ≡ Some (sexp_of s)) }
        ensures refused { IsErrOf result MacroArg → meaning self.now ≡ None }
        ensures memory { IsErrOf result Memory → IsSome (meaning self.now) };
}

/// A node of the tree that always has an S-expression.
pub(super) trait Put {
    ghost shape: { Self → Sexp };

    /// Prepends the node's S-expression to the tape.
    fn put<'src>(&'src self, tape: &mut Tape<'src>) -> Result<(), AllocError>
        ensures { OnOk result (tape.new ≡ put_before (shape self.now ∷ []) tape.old) };
}

impl<N: Put> ToSExpr for N {
    ghost meaning = { λ node. Some (N.shape node) };

    fn to_sexpr(&self, alloc: Global) -> Result<SExpr, PrintFault> {
        let mut tape = Tape::new(alloc)?;
        self.put(&mut tape)?;
        Ok(sexpr_of(tape.pieces(), alloc)?)
    }
}

impl Put for Ident {
    ghost shape = { λ i. name_shape (name_of i) };

    fn put<'src>(&'src self, tape: &mut Tape<'src>) -> Result<(), AllocError> {
        name(self, tape)
    }
}
