//! The S-expressions of models and signatures. Functions prepend to the tape.

ghost use Rattle.std.specs.Prelude.{OnOk, [], codes, map, ◌∷◌, ◌≡◌};
ghost use Rattle.isle_ast.specs.TreeView.{model_content_of, model_definition_of, signature_of};
ghost use Rattle.isle_ast.specs.TreeView.{signatures_of};
ghost use Rattle.isle_ast_verification.specs.TreeView.{single_model_field_of, type_model_of};
ghost use Rattle.isle_printer.specs.DefinitionShapes.{model_content_shape, model_definition_shape};
ghost use Rattle.isle_printer.specs.DefinitionShapes.{signature_shape};
ghost use Rattle.isle_printer_layout.specs.NameShapes.{form_shape};
ghost use Rattle.isle_printer_layout.specs.Pieces.{put_before};
ghost use Rattle.isle_printer_verification.specs.SpecShapes.{model_field_shape, model_shape};

use super::to_sexpr::Put;
use isle_ast::ast::{Model, ModelField, ModelType, ModelValue, Signature};
use isle_printer_layout::Tape;
use isle_printer_layout::names::name;
use isle_printer_verification::models::{each_model, model_field, model_type};
use isle_printer_verification::spec_expressions::spec;
use std::alloc::AllocError;

impl Put for ModelType {
    ghost shape = { λ m. model_shape (type_model_of m) };

    fn put<'src>(&'src self, tape: &mut Tape<'src>) -> Result<(), AllocError> {
        model_type(self, tape)
    }
}

impl Put for ModelField {
    ghost shape = { λ f. model_field_shape (single_model_field_of f) };

    fn put<'src>(&'src self, tape: &mut Tape<'src>) -> Result<(), AllocError> {
        model_field(self, tape)
    }
}

impl Put for Model {
    ghost shape = { λ m. model_definition_shape (model_definition_of m) };

    fn put<'src>(&'src self, tape: &mut Tape<'src>) -> Result<(), AllocError> {
        let outer = tape.close()?;
        self.val.put(tape)?;
        name(&self.name, tape)?;
        tape.atom("model")?;
        tape.open(outer)
    }
}

impl Put for ModelValue {
    ghost shape = { λ v. model_content_shape (model_content_of v) };

    fn put<'src>(&'src self, tape: &mut Tape<'src>) -> Result<(), AllocError> {
        let outer = tape.close()?;
        match self {
            ModelValue::TypeValue(ty) => {
                model_type(ty, tape)?;
                tape.atom("type")?;
            }
            ModelValue::ConstValue(value) => {
                spec(value, tape)?;
                tape.atom("const")?;
            }
        }
        tape.open(outer)
    }
}

impl Put for Signature {
    ghost shape = { λ s. signature_shape (signature_of s) };

    fn put<'src>(&'src self, tape: &mut Tape<'src>) -> Result<(), AllocError> {
        let outer = tape.close()?;
        returned(&self.ret, tape)?;
        arguments(&self.args, tape)?;
        tape.open(outer)
    }
}

/// Prepends the list of `args` and models.
fn arguments<'src>(args: &'src [ModelType], tape: &mut Tape<'src>) -> Result<(), AllocError>
    ensures { OnOk result (tape.new
        ≡ put_before
        (form_shape (codes "args") (map model_shape (map type_model_of args.now)) ∷ []) tape.old) }
{
    let outer = tape.close()?;
    each_model(args, tape)?;
    tape.atom("args")?;
    tape.open(outer)
}

/// Prepends the list of `ret` and a model.
fn returned<'src>(ret: &'src ModelType, tape: &mut Tape<'src>) -> Result<(), AllocError>
    ensures { OnOk result (tape.new
        ≡ put_before
        (form_shape (codes "ret") (model_shape (type_model_of ret.now) ∷ []) ∷ []) tape.old) }
{
    let outer = tape.close()?;
    model_type(ret, tape)?;
    tape.atom("ret")?;
    tape.open(outer)
}

/// Prepends signatures.
pub(super) fn each_signature<'src>(
    signatures: &'src [Signature],
    tape: &mut Tape<'src>,
) -> Result<(), AllocError>
    ensures { OnOk result
        (tape.new ≡ put_before (map signature_shape (signatures_of signatures.now)) tape.old) }
{
    for at in (0..signatures.len()).rev() {
        signatures[at].put(tape)?;
    }
    Ok(())
}
