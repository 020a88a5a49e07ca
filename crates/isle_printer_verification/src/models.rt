//! The S-expressions of models of types. Each function prepends to the tape.

ghost use Rattle.std.specs.Prelude.{◌≡◌, [], ◌∷◌, codes, map, OnOk};
ghost use Rattle.isle_ast_verification.specs.TreeView.{model_list_of, single_model_field_of};
ghost use Rattle.isle_ast_verification.specs.TreeView.{single_model_fields_of, type_model_of};
ghost use Rattle.isle_printer_layout.specs.NameShapes.{form_shape};
ghost use Rattle.isle_printer_layout.specs.Pieces.{put_before};
ghost use Rattle.isle_printer_verification.specs.SpecShapes.{model_field_shape, model_field_shapes};
ghost use Rattle.isle_printer_verification.specs.SpecShapes.{model_shape, width_shape};

use isle_ast_verification::{ModelField, ModelType};
use isle_printer_layout::Tape;
use isle_printer_layout::names::{name, number};
use std::alloc::AllocError;

/// Prepends a model.
// The frames of this cycle limit the depth of nesting. So functions that build a text have frames
// of their own.
#[cycle(model_types)]
pub fn model_type<'src>(ty: &'src ModelType, tape: &mut Tape<'src>) -> Result<(), AllocError>
    ensures { OnOk result
        (tape.new ≡ put_before (model_shape (type_model_of ty.now) ∷ []) tape.old) }
{
    match ty {
        ModelType::Unspecified => tape.atom("!"),
        ModelType::Auto => tape.atom("_"),
        ModelType::Int => tape.atom("Int"),
        ModelType::Bool => tape.atom("Bool"),
        ModelType::Unit => tape.atom("Unit"),
        ModelType::BitVec(width) => bit_vector_model(*width, tape),
        ModelType::Struct(fields) => {
            let outer = tape.close()?;
            each_field(fields, tape)?;
            tape.atom("struct")?;
            tape.open(outer)
        }
        ModelType::Named(other) => {
            let outer = tape.close()?;
            name(other, tape)?;
            tape.atom("named")?;
            tape.open(outer)
        }
    }
}

/// Prepends the fields of a struct model.
#[cycle(model_types)]
fn each_field<'src>(fields: &'src [ModelField], tape: &mut Tape<'src>) -> Result<(), AllocError>
    ensures { OnOk result (tape.new
        ≡ put_before (model_field_shapes (model_list_of (single_model_fields_of fields.now)))
        tape.old) }
{
    for at in (0..fields.len()).rev() {
        model_field(&fields[at], tape)?;
    }
    Ok(())
}

/// Prepends a field of a struct model.
#[cycle(model_types)]
pub fn model_field<'src>(field: &'src ModelField, tape: &mut Tape<'src>) -> Result<(), AllocError>
    ensures { OnOk result (tape.new
        ≡ put_before (model_field_shape (single_model_field_of field.now) ∷ []) tape.old) }
{
    let outer = tape.close()?;
    model_type(&field.ty, tape)?;
    name(&field.name, tape)?;
    tape.open(outer)
}

/// Prepends the model of bit vectors, with the width in bits if it is known.
#[inline(never)]
fn bit_vector_model(width: Option<usize>, tape: &mut Tape) -> Result<(), AllocError>
    ensures { OnOk result
        (tape.new ≡ put_before (form_shape (codes "bv") (width_shape width) ∷ []) tape.old) }
{
    let outer = tape.close()?;
    if let Some(width) = width {
        number(width, tape)?;
    }
    tape.atom("bv")?;
    tape.open(outer)
}

/// Prepends models.
pub fn each_model<'src>(models: &'src [ModelType], tape: &mut Tape<'src>) -> Result<(), AllocError>
    ensures { OnOk result
        (tape.new ≡ put_before (map model_shape (map type_model_of models.now)) tape.old) }
{
    for at in (0..models.len()).rev() {
        model_type(&models[at], tape)?;
    }
    Ok(())
}
