//! The S-expressions of type definitions and their parts. Functions prepend to the tape.

ghost use Rattle.std.specs.Prelude.{OnOk, map, ◌≡◌};
ghost use Rattle.isle_ast.specs.TreeView.{fields_of, indexed_field_of, named_field_of};
ghost use Rattle.isle_ast.specs.TreeView.{type_content_of, type_definition_of, variant_of};
ghost use Rattle.isle_printer.specs.DefinitionShapes.{field_shapes, indexed_field_shape};
ghost use Rattle.isle_printer.specs.DefinitionShapes.{named_field_shape, type_content_shape};
ghost use Rattle.isle_printer.specs.DefinitionShapes.{type_shape, variant_shape};
ghost use Rattle.isle_printer_layout.specs.Pieces.{put_before};

use super::to_sexpr::Put;
use isle_ast::ast::{Fields, StructField, TupleField, TypeDef, TypeValue, Variant};
use isle_printer_layout::Tape;
use isle_printer_layout::names::{flag, name};
use std::alloc::AllocError;

impl Put for TypeDef {
    ghost shape = { λ t. type_shape (type_definition_of t) };

    fn put<'src>(&'src self, tape: &mut Tape<'src>) -> Result<(), AllocError> {
        let outer = tape.close()?;
        self.ty.put(tape)?;
        flag("nodebug", self.is_nodebug, tape)?;
        flag("extern", self.is_extern, tape)?;
        name(&self.name, tape)?;
        tape.atom("type")?;
        tape.open(outer)
    }
}

impl Put for TypeValue {
    ghost shape = { λ v. type_content_shape (type_content_of v) };

    fn put<'src>(&'src self, tape: &mut Tape<'src>) -> Result<(), AllocError> {
        let outer = tape.close()?;
        match self {
            TypeValue::Primitive(primitive, _) => {
                name(primitive, tape)?;
                tape.atom("primitive")?;
            }
            TypeValue::Enum(variants, _) => {
                each_variant(variants, tape)?;
                tape.atom("enum")?;
            }
            TypeValue::Struct(fields, _) => {
                each_field(fields, tape)?;
                tape.atom("struct")?;
            }
        }
        tape.open(outer)
    }
}

impl Put for Variant {
    ghost shape = { λ v. variant_shape (variant_of v) };

    fn put<'src>(&'src self, tape: &mut Tape<'src>) -> Result<(), AllocError> {
        let outer = tape.close()?;
        each_field(&self.fields, tape)?;
        name(&self.name, tape)?;
        tape.open(outer)
    }
}

impl Put for StructField {
    ghost shape = { λ f. named_field_shape (named_field_of f) };

    fn put<'src>(&'src self, tape: &mut Tape<'src>) -> Result<(), AllocError> {
        let outer = tape.close()?;
        name(&self.ty, tape)?;
        name(&self.name, tape)?;
        tape.open(outer)
    }
}

impl Put for TupleField {
    ghost shape = { λ f. indexed_field_shape (indexed_field_of f) };

    fn put<'src>(&'src self, tape: &mut Tape<'src>) -> Result<(), AllocError> {
        name(&self.ty, tape)
    }
}

/// Prepends the variants of an enum type.
fn each_variant<'src>(variants: &'src [Variant], tape: &mut Tape<'src>) -> Result<(), AllocError>
    ensures { OnOk result
        (tape.new ≡ put_before (map variant_shape (map variant_of variants.now)) tape.old) }
{
    for at in (0..variants.len()).rev() {
        variants[at].put(tape)?;
    }
    Ok(())
}

/// Prepends the fields of a variant or of a struct type, if there are any.
fn each_field<'src>(fields: &'src Fields, tape: &mut Tape<'src>) -> Result<(), AllocError>
    ensures { OnOk result (tape.new ≡ put_before (field_shapes (fields_of fields.now)) tape.old) }
{
    match fields {
        Fields::Unit => Ok(()),
        Fields::Struct(fields) => each_struct_field(&fields.fields, tape),
        Fields::Tuple(fields) => each_tuple_field(&fields.fields, tape),
    }
}

/// Prepends named fields.
fn each_struct_field<'src>(
    fields: &'src [StructField],
    tape: &mut Tape<'src>,
) -> Result<(), AllocError>
    ensures { OnOk result
        (tape.new ≡ put_before (map named_field_shape (map named_field_of fields.now)) tape.old) }
{
    for at in (0..fields.len()).rev() {
        fields[at].put(tape)?;
    }
    Ok(())
}

/// Prepends positional fields.
fn each_tuple_field<'src>(
    fields: &'src [TupleField],
    tape: &mut Tape<'src>,
) -> Result<(), AllocError>
    ensures { OnOk result
        (tape.new
        ≡ put_before (map indexed_field_shape (map indexed_field_of fields.now)) tape.old) }
{
    for at in (0..fields.len()).rev() {
        name(&fields[at].ty, tape)?;
    }
    Ok(())
}
