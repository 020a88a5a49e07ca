//! The models of types that can be written as text and read back.

ghost use Rattle.std.specs.Prelude.{◌≡◌};
ghost use Rattle.isle_ast_verification.specs.TreeView.{model_list_of, single_model_field_of};
ghost use Rattle.isle_ast_verification.specs.TreeView.{single_model_fields_of, type_model_of};
ghost use Rattle.isle_ast_verification.specs.WritableDeciders.{are_writable_model_fields};
ghost use Rattle.isle_ast_verification.specs.WritableDeciders.{is_optional_width};
ghost use Rattle.isle_ast_verification.specs.WritableDeciders.{is_writable_model};
ghost use Rattle.isle_ast_verification.specs.WritableDeciders.{is_writable_single_model_field};

use crate::{ModelField, ModelType};
use isle_ast_names::writability::is_name;

/// Returns whether a model is writable.
#[cycle(writable)]
pub fn is_writable_model(model: &ModelType) -> bool
    ensures { result ≡ is_writable_model (type_model_of model.now) }
{
    match model {
        ModelType::Unspecified
        | ModelType::Auto
        | ModelType::Int
        | ModelType::Bool
        | ModelType::Unit => true,
        ModelType::BitVec(width) => is_width(*width),
        ModelType::Struct(fields) => are_writable_fields(fields),
        ModelType::Named(name) => is_name(name),
    }
}

#[cycle(writable)]
fn are_writable_fields(fields: &Vec<ModelField>) -> bool
    ensures { result
        ≡ are_writable_model_fields (model_list_of (single_model_fields_of fields.now.items)) }
{
    for field in fields {
        if !is_writable_field(field) {
            return false;
        }
    }
    true
}

#[cycle(writable)]
fn is_writable_field(field: &ModelField) -> bool
    ensures { result ≡ is_writable_single_model_field (single_model_field_of field.now) }
{
    is_name(&field.name) && is_writable_model(&field.ty)
}

/// Every width of the type can be written.
fn is_width(_width: Option<usize>) -> bool
    ensures { result ≡ is_optional_width _width }
{
    true
}
