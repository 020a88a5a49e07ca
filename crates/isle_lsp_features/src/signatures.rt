//! The signature of the term that is called at a place.

ghost use Rattle.std.specs.Prelude.{IfOk, Some, map};
ghost use Rattle.serde_json.specs.View.{view};
ghost use Rattle.isle_index.specs.Held.{all_in};
ghost use Rattle.isle_lsp_features.specs.Programs.{text_of};
ghost use Rattle.isle_lsp_features.specs.Signatures.{IsDeclared, IsFirstSignature, IsSignature};
ghost use Rattle.isle_lsp_features.specs.Signatures.{IsSignatureOf};
ghost use Rattle.isle_lsp_context.specs.Calls.{call_of};
ghost use Rattle.isle_resolve.specs.Names.{named_of};

use crate::Text;
use crate::places::Place;
use isle_index::{Index, Kind, Name, Occurrence};
use isle_lsp_calls::items::{extent_of, is_variant};
use isle_lsp_context::calls::{Call, call_around};
use isle_lsp_context::signatures::declaration_help;
use isle_lsp_text::lists::lists;
use serde_json::Value;
use std::alloc::{AllocError, Global};

/// The signature of the term that is called around a place, and which of its arguments the place is
/// in, or null if there is none.
pub fn signature_help(
    alloc: Global,
    program: &[Text],
    index: &Index,
    place: Place,
) -> Result<Value, AllocError>
    ensures { IfOk result (λ value. IsSignature (map text_of program.now)
        place.entry.text.now place.entry.pos.offset (all_in index.now) (view value)) }
{
    match call_around(alloc, place.text, place.pos.offset)? {
        Some(call) => signature_of(alloc, program, index, call),
        None => Ok(Value::Null),
    }
}

/// The signature of the term that is called, which is its first definition.
fn signature_of(
    alloc: Global,
    program: &[Text],
    index: &Index,
    call: Call,
) -> Result<Value, AllocError>
    ensures { IfOk result (λ value. IsSignatureOf (map text_of program.now) (all_in index.now)
        (Some (call_of call.entry)) (view value)) }
{
    let text = String::from_str(alloc, call.head)?;
    let kind = Kind::Term;
    let name = Name::Global { kind, text };
    let found = index.definitions(alloc, &name)?;
    match found.first() {
        Some(definition) => signature_at(alloc, program, &name, *definition, call.arguments),
        None => Ok(Value::Null),
    }
}

/// The signature that a definition shows, or null if its text is not in the program.
fn signature_at(
    alloc: Global,
    program: &[Text],
    name: &Name,
    definition: Occurrence,
    argument: usize,
) -> Result<Value, AllocError>
    ensures { IfOk result (λ value. IsFirstSignature (map text_of program.now)
        (named_of name.now) (Some definition) argument (view value)) }
{
    match program.get(definition.pos.file) {
        Some(source) => declared(alloc, source.text, name, definition, argument),
        None => Ok(Value::Null),
    }
}

/// The signature that a definition in this text shows.
fn declared(
    alloc: Global,
    text: &str,
    name: &Name,
    definition: Occurrence,
    argument: usize,
) -> Result<Value, AllocError>
    ensures { IfOk result
        (λ value. IsDeclared text.now (named_of name.now) definition argument (view value)) }
{
    let lists = lists(alloc, text)?;
    let part = extent_of(text, &lists, name, definition);
    declaration_help(alloc, text, part, is_variant(name, definition), argument)
}
