//! The S-expressions of specs, their macros and states, spec expressions and operators.

ghost use Rattle.isle_ast_verification.specs.TreeView.{modified_of, single_arm_of};
ghost use Rattle.isle_ast_verification.specs.TreeView.{single_field_init_of, spec_definition_of};
ghost use Rattle.isle_ast_verification.specs.TreeView.{spec_macro_of, spec_of, state_of};
ghost use Rattle.isle_printer_verification.specs.SpecShapes.{arm_shape, field_init_shape};
ghost use Rattle.isle_printer_verification.specs.SpecShapes.{modifies_shape, operator_shape};
ghost use Rattle.isle_printer_verification.specs.SpecShapes.{spec_definition_shape};
ghost use Rattle.isle_printer_verification.specs.SpecShapes.{spec_macro_shape, spec_shape};
ghost use Rattle.isle_printer_verification.specs.SpecShapes.{state_shape};

use super::to_sexpr::Put;
use isle_ast::ast::{Arm, FieldInit, Modifies, Spec, SpecExpr, SpecMacro, SpecOp, State};
use isle_printer_layout::Tape;
use isle_printer_verification::definitions::{modifies, spec_definition, spec_macro, state};
use isle_printer_verification::operators::operator;
use isle_printer_verification::spec_expressions::{arm, field_init, spec};
use std::alloc::AllocError;

impl Put for SpecOp {
    ghost shape = { operator_shape };

    fn put<'src>(&'src self, tape: &mut Tape<'src>) -> Result<(), AllocError> {
        operator(self, tape)
    }
}

impl Put for SpecExpr {
    ghost shape = { λ x. spec_shape (spec_of x) };

    fn put<'src>(&'src self, tape: &mut Tape<'src>) -> Result<(), AllocError> {
        spec(self, tape)
    }
}

impl Put for Arm {
    ghost shape = { λ a. arm_shape (single_arm_of a) };

    fn put<'src>(&'src self, tape: &mut Tape<'src>) -> Result<(), AllocError> {
        arm(self, tape)
    }
}

impl Put for FieldInit {
    ghost shape = { λ f. field_init_shape (single_field_init_of f) };

    fn put<'src>(&'src self, tape: &mut Tape<'src>) -> Result<(), AllocError> {
        field_init(self, tape)
    }
}

impl Put for Spec {
    ghost shape = { λ s. spec_definition_shape (spec_definition_of s) };

    fn put<'src>(&'src self, tape: &mut Tape<'src>) -> Result<(), AllocError> {
        spec_definition(self, tape)
    }
}

impl Put for Modifies {
    ghost shape = { λ m. modifies_shape (modified_of m) };

    fn put<'src>(&'src self, tape: &mut Tape<'src>) -> Result<(), AllocError> {
        modifies(self, tape)
    }
}

impl Put for SpecMacro {
    ghost shape = { λ m. spec_macro_shape (spec_macro_of m) };

    fn put<'src>(&'src self, tape: &mut Tape<'src>) -> Result<(), AllocError> {
        spec_macro(self, tape)
    }
}

impl Put for State {
    ghost shape = { λ s. state_shape (state_of s) };

    fn put<'src>(&'src self, tape: &mut Tape<'src>) -> Result<(), AllocError> {
        state(self, tape)
    }
}
