//! Copies of models of types; specs are copied in a module below. A copy is the same tree,
//! positions included, and each `clone` fails only if memory runs out.

ghost use Rattle.std.specs.Prelude.{◌≡◌, IfOk};
ghost use Rattle.isle_ast_verification.specs.TreeView.{single_model_field_of};
ghost use Rattle.isle_ast_verification.specs.TreeView.{single_model_fields_of};
ghost use Rattle.isle_ast_verification.specs.TreeView.{type_model_of};

mod specs;

use crate::{ModelField, ModelType};
use std::alloc::AllocError;

impl Clone for ModelType {
    ghost is_clone = { λ ty copy. type_model_of copy ≡ type_model_of ty };

    fn clone(&self) -> Result<ModelType, AllocError> {
        copy_model_type(self)
    }
}

impl Clone for ModelField {
    ghost is_clone = { λ field copy. single_model_field_of copy ≡ single_model_field_of field };

    fn clone(&self) -> Result<ModelField, AllocError> {
        copy_model_field(self)
    }
}

#[cycle(copy)]
fn copy_model_type(ty: &ModelType) -> Result<ModelType, AllocError>
    ensures { IfOk result (λ copy. type_model_of copy ≡ type_model_of ty.now) }
{
    match ty {
        ModelType::Unspecified => Ok(ModelType::Unspecified),
        ModelType::Auto => Ok(ModelType::Auto),
        ModelType::Int => Ok(ModelType::Int),
        ModelType::Bool => Ok(ModelType::Bool),
        ModelType::Unit => Ok(ModelType::Unit),
        ModelType::BitVec(width) => Ok(ModelType::BitVec(*width)),
        ModelType::Struct(fields) => Ok(ModelType::Struct(copy_model_fields(fields)?)),
        ModelType::Named(name) => Ok(ModelType::Named(name.clone()?)),
    }
}

#[cycle(copy)]
fn copy_model_fields(fields: &Vec<ModelField>) -> Result<Vec<ModelField>, AllocError>
    ensures { IfOk result
        (λ copies. single_model_fields_of copies.items ≡ single_model_fields_of fields.now.items) }
{
    let mut copies = Vec::with_capacity(*fields.allocator(), fields.len())?;
    for field in fields {
        copies.push(copy_model_field(field)?)?;
    }
    Ok(copies)
}

#[cycle(copy)]
fn copy_model_field(field: &ModelField) -> Result<ModelField, AllocError>
    ensures { IfOk result (λ copy. single_model_field_of copy ≡ single_model_field_of field.now) }
{
    Ok(ModelField {
        name: field.name.clone()?,
        ty: copy_model_type(&field.ty)?,
    })
}
