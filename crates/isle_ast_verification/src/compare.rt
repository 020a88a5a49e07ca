//! Comparison of models of types; spec expressions are compared in a module below. Two are equal
//! exactly if they are the same, positions included.
//!
//! The comparisons are written out, because proofs can't use derived ones of recursive types.

ghost use Rattle.std.specs.Prelude.{◌≡◌, ◌&&◌};
ghost use Rattle.std.specs.Cmp.{partial_equiv_from_equiv};
ghost use Rattle.std.specs.Ordering.{on};
ghost use Rattle.isle_ast_verification.specs.SameModel.{model_fields_equiv, model_types_equiv};
ghost use Rattle.isle_ast_verification.specs.SameModel.{same_model};
ghost use Rattle.isle_ast_verification.specs.SameModel.{same_model_fields, same_single};
ghost use Rattle.isle_ast_verification.specs.TreeView.{model_list_of, single_model_field_of};
ghost use Rattle.isle_ast_verification.specs.TreeView.{single_model_fields_of, type_model_of};

mod specs;

use crate::{ModelField, ModelType};

impl PartialEq for ModelType {
    ghost eq = { on type_model_of same_model };

    ghost laws = { partial_equiv_from_equiv model_types_equiv };

    fn eq(&self, other: &ModelType) -> bool {
        same_types(self, other)
    }
}

impl Eq for ModelType {
    ghost laws = { model_types_equiv };
}

impl PartialEq for ModelField {
    ghost eq = { on single_model_field_of same_single };

    ghost laws = { partial_equiv_from_equiv model_fields_equiv };

    fn eq(&self, other: &ModelField) -> bool {
        same_field(self, other)
    }
}

impl Eq for ModelField {
    ghost laws = { model_fields_equiv };
}

#[cycle(same)]
fn same_types(a: &ModelType, b: &ModelType) -> bool
    ensures { result ≡ same_model (type_model_of a.now) (type_model_of b.now) }
{
    match (a, b) {
        (ModelType::Unspecified, ModelType::Unspecified) => true,
        (ModelType::Auto, ModelType::Auto) => true,
        (ModelType::Int, ModelType::Int) => true,
        (ModelType::Bool, ModelType::Bool) => true,
        (ModelType::Unit, ModelType::Unit) => true,
        (ModelType::BitVec(width), ModelType::BitVec(other)) => width == other,
        (ModelType::Struct(fields), ModelType::Struct(others)) => same_fields(fields, others),
        (ModelType::Named(name), ModelType::Named(other)) => name == other,
        _ => false,
    }
}

#[cycle(same)]
fn same_fields(fields: &Vec<ModelField>, others: &Vec<ModelField>) -> bool
    ensures { result
        ≡ same_model_fields (model_list_of (single_model_fields_of fields.now.items))
        (model_list_of (single_model_fields_of others.now.items)) }
{
    if fields.len() != others.len() {
        return false;
    }
    for i in 0..fields.len() {
        if !same_field(&fields[i], &others[i]) {
            return false;
        }
    }
    true
}

#[cycle(same)]
fn same_field(field: &ModelField, other: &ModelField) -> bool
    ensures { result
        ≡ same_single (single_model_field_of field.now) (single_model_field_of other.now) }
{
    field.name == other.name && same_types(&field.ty, &other.ty)
}
