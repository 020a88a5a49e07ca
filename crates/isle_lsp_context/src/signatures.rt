//! The signature that a declaration shows.

ghost use Rattle.std.specs.Prelude.{◌≡◌, IfOk, IsCharBoundary, IsTrue};
ghost use Rattle.serde_json.specs.View.{view};
ghost use Rattle.isle_lsp_context.specs.Signatures.{IsSignatureWith, IsDeclarationHelp, can_cut};
ghost use Rattle.isle_lsp_context.specs.Signatures.{help_data, parameter_data, written};

use crate::parameters::parameters;
use crate::units::units_before;
use isle_lsp_text::wholes::Part;
use serde_json::{Value, json};
use std::alloc::{AllocError, Global};

/// The `SignatureHelp` of the protocol for a declaration, at the argument with this number, counted
/// from 0. The declaration is a part of a text, by byte offsets.
///
/// It has one signature. Its label is the declaration as it is written; it is empty if the part is
/// not in the text, runs backwards or splits a character. The parameters are the items of the first
/// list in the declaration, or those behind the name if it is a variant of an enum. Each is given
/// by the offsets in the label at which it begins and ends, in UTF-16 units, line ends included.
/// The argument is given as it is, also if there are fewer parameters.
pub fn declaration_help(
    alloc: Global,
    text: &str,
    part: Part,
    is_variant: bool,
    argument: usize,
) -> Result<Value, AllocError>
    ensures { IfOk result
        (λ value. IsDeclarationHelp text.now part is_variant argument (view value)) }
{
    let signature = signature(alloc, written(text, part), is_variant)?;
    help_value(alloc, signature, argument)
}

/// The help that has one signature.
fn help_value(alloc: Global, signature: Value, argument: usize) -> Result<Value, AllocError>
    ensures { IfOk result (λ value. view value ≡ help_data (view signature) argument) }
{
    let signatures = json!(in alloc; [signature])?;
    json!(in alloc; {
        "activeParameter": argument,
        "activeSignature": 0,
        "signatures": signatures
    })
}

/// A part of a text as it is written; nothing if it is not in the text, runs backwards or splits a
/// character.
fn written(text: &str, part: Part) -> &str
    ensures { result.now ≡ written text.now part }
{
    if part.from <= part.to && can_cut(text, part.from) && can_cut(text, part.to) {
        &text[part.from..part.to]
    } else {
        ""
    }
}

/// Returns whether a text can be cut at an offset.
fn can_cut(text: &str, offset: usize) -> bool
    ensures value { result ≡ can_cut text.now offset }
    ensures boundary { IsTrue result → IsCharBoundary text.now offset }
{
    text.is_char_boundary(offset)
}

/// The signature with this label.
fn signature(alloc: Global, label: &str, is_variant: bool) -> Result<Value, AllocError>
    ensures { IfOk result (λ value. IsSignatureWith label.now is_variant (view value)) }
{
    let mut values = Vec::new(alloc);
    for parameter in &parameters(alloc, label, is_variant)? {
        values.push(parameter_value(alloc, label, *parameter)?)?;
    }
    let parameters = Value::Array(values);
    json!(in alloc; {"label": label, "parameters": parameters})
}

/// A parameter of the signature with this label.
fn parameter_value(alloc: Global, label: &str, parameter: Part) -> Result<Value, AllocError>
    ensures { IfOk result (λ value. view value ≡ parameter_data label.now parameter) }
{
    let from = units_before(label, parameter.from);
    let to = units_before(label, parameter.to);
    json!(in alloc; {"label": [from, to]})
}
