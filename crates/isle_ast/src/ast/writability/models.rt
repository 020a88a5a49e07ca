//! The models, forms and instantiations that can be written as text and read back.

ghost use Rattle.std.specs.Prelude.{◌≡◌, map};
ghost use Rattle.std.specs.List.{list_all};
ghost use Rattle.isle_ast_verification.specs.WritableDeciders.{is_writable_model};
ghost use Rattle.isle_ast.specs.TreeView.{form_of, instantiation_of, model_content_of};
ghost use Rattle.isle_ast.specs.TreeView.{model_definition_of, signature_of, signatures_of};
ghost use Rattle.isle_ast_verification.specs.TreeView.{type_model_of};
ghost use Rattle.isle_ast.specs.WritableDeciders.{are_writable_instances, is_writable_form};
ghost use Rattle.isle_ast.specs.WritableDeciders.{is_writable_instantiation};
ghost use Rattle.isle_ast.specs.WritableDeciders.{is_writable_model_content};
ghost use Rattle.isle_ast.specs.WritableDeciders.{is_writable_model_definition};
ghost use Rattle.isle_ast.specs.WritableDeciders.{is_writable_signature};

use crate::ast::{Form, Instantiation, Model, ModelType, ModelValue, Signature};
use isle_ast_names::writability::{are_names, is_name};
use isle_ast_verification::writability::models::is_writable_model;
use isle_ast_verification::writability::specs::is_writable_spec;

/// Returns whether the model of a type is writable.
pub(super) fn is_writable_definition(model: &Model) -> bool
    ensures { result ≡ is_writable_model_definition (model_definition_of model.now) }
{
    is_name(&model.name) && is_writable_value(&model.val)
}

/// Returns whether the contents of a model are writable.
fn is_writable_value(value: &ModelValue) -> bool
    ensures { result ≡ is_writable_model_content (model_content_of value.now) }
{
    match value {
        ModelValue::TypeValue(model) => is_writable_model(model),
        ModelValue::ConstValue(expr) => is_writable_spec(expr),
    }
}

pub(super) fn is_writable_form(form: &Form) -> bool
    ensures { result ≡ is_writable_form (form_of form.now) }
{
    is_name(&form.name) && are_writable_signatures(&form.signatures)
}

fn are_writable_signatures(signatures: &[Signature]) -> bool
    ensures { result ≡ list_all is_writable_signature (signatures_of signatures.now) }
{
    signatures.iter().all(is_writable_signature)
}

fn is_writable_signature(signature: &Signature) -> bool
    ensures { result ≡ is_writable_signature (signature_of signature.now) }
{
    are_writable_models(&signature.args) && is_writable_model(&signature.ret)
}

fn are_writable_models(models: &[ModelType]) -> bool
    ensures { result ≡ list_all is_writable_model (map type_model_of models.now) }
{
    models.iter().all(is_writable_model)
}

pub(super) fn is_writable_instantiation(instantiation: &Instantiation) -> bool
    ensures { result ≡ is_writable_instantiation (instantiation_of instantiation.now) }
{
    is_name(&instantiation.term) && are_writable_instances(instantiation)
}

/// Returns whether a term has a form and its tags, or else at least one signature.
fn are_writable_instances(instantiation: &Instantiation) -> bool
    ensures { result
        ≡ are_writable_instances (instantiation_of instantiation.now).form
        (instantiation_of instantiation.now).signatures (instantiation_of instantiation.now).tags }
{
    let Instantiation {
        form,
        signatures,
        tags,
        ..
    } = instantiation;
    match form {
        Some(form) => is_name(form) && signatures.is_empty() && are_names(tags),
        None => !signatures.is_empty() && are_writable_signatures(signatures) && tags.is_empty(),
    }
}
