//! The S-expressions of patterns. Functions prepend to the tape.

ghost use Rattle.std.specs.Prelude.{IfOk, IsErrOf, IsSome, None, OnOk, Some, [], false};
ghost use Rattle.std.specs.Prelude.{◌∷◌, ◌≡◌};
ghost use Rattle.isle_ast_rules.specs.MacroArgs.{has_macro_arg};
ghost use Rattle.isle_ast_rules.specs.TreeView.{pattern_list_of, pattern_of, patterns_of};
ghost use Rattle.isle_printer.specs.RuleShapes.{pattern_shape, pattern_shapes};
ghost use Rattle.isle_printer_layout.specs.Pieces.{put_before};
ghost use Rattle.isle_printer_layout.specs.Sexp.{unless};
ghost use Rattle.isle_printer_layout.specs.SexpView.{sexp_of};
ghost use Rattle.isle_printer_layout.specs.declared.sexpr.PrintFault.TheVariants.{MacroArg, Memory};

use super::to_sexpr::ToSExpr;
use isle_ast::ast::Pattern;
use isle_printer_layout::names::{boolean, constant, integer, name};
use isle_printer_layout::{PrintFault, SExpr, Tape, sexpr_of};
use std::alloc::{AllocError, Global};

impl ToSExpr for Pattern {
    ghost meaning = { λ p. unless (has_macro_arg (pattern_of p)) (pattern_shape (pattern_of p)) };

    fn to_sexpr(&self, alloc: Global) -> Result<SExpr, PrintFault>
        ensures meant { IfOk result (λ s. unless
            (has_macro_arg (pattern_of self.now))
            (pattern_shape (pattern_of self.now))
            ≡ Some (sexp_of s)) }
        ensures refused { IsErrOf result MacroArg → unless
            (has_macro_arg (pattern_of self.now))
            (pattern_shape (pattern_of self.now))
            ≡ None }
        ensures memory { IsErrOf result Memory → IsSome (unless
            (has_macro_arg (pattern_of self.now))
            (pattern_shape (pattern_of self.now))) }
        ensures plain { IsErrOf result Memory
            → has_macro_arg (pattern_of self.now) ≡ false }
    {
        if self.has_macro_arg() {
            return Err(PrintFault::MacroArg);
        }
        let mut tape = Tape::new(alloc)?;
        pattern(self, &mut tape)?;
        Ok(sexpr_of(tape.pieces(), alloc)?)
    }
}

/// Prepends a pattern. A macro argument is never printed, and its atom has no meaning.
#[cycle(patterns)]
pub(super) fn pattern<'src>(node: &'src Pattern, tape: &mut Tape<'src>) -> Result<(), AllocError>
    ensures { OnOk result
        (tape.new ≡ put_before (pattern_shape (pattern_of node.now) ∷ []) tape.old) }
{
    match node {
        Pattern::Var { var, pos: _ } => name(var, tape),
        Pattern::BindPattern {
            var,
            subpat,
            pos: _,
        } => {
            pattern(subpat, tape)?;
            tape.binding(&var.0)
        }
        Pattern::ConstBool { val, pos: _ } => boolean(*val, tape),
        Pattern::ConstInt { val, pos: _ } => integer(*val, tape),
        Pattern::ConstPrim { val, pos: _ } => constant(val, tape),
        Pattern::Term { sym, args, pos: _ } => {
            let outer = tape.close()?;
            each_pattern(args, tape)?;
            name(sym, tape)?;
            tape.open(outer)
        }
        Pattern::Wildcard { pos: _ } => tape.atom("_"),
        Pattern::And { subpats, pos: _ } => {
            let outer = tape.close()?;
            each_pattern(subpats, tape)?;
            tape.atom("and")?;
            tape.open(outer)
        }
        Pattern::MacroArg { index: _, pos: _ } => tape.atom(""),
    }
}

/// Prepends patterns.
#[cycle(patterns)]
fn each_pattern<'src>(nodes: &'src Vec<Pattern>, tape: &mut Tape<'src>) -> Result<(), AllocError>
    ensures { OnOk result (tape.new
        ≡ put_before (pattern_shapes (pattern_list_of (patterns_of nodes.now.items))) tape.old) }
{
    for at in (0..nodes.len()).rev() {
        pattern(&nodes[at], tape)?;
    }
    Ok(())
}
