//! The call hierarchy at a place.

ghost use Rattle.std.specs.Prelude.{◌≡◌, IfOk, map};
ghost use Rattle.serde_json.specs.View.{view};
ghost use Rattle.isle_index.specs.Held.{all_in};
ghost use Rattle.isle_lsp_calls.specs.Sources.{source_of};
ghost use Rattle.isle_lsp_features.specs.Called.{FindsCalls, source_in};
ghost use Rattle.isle_lsp_features.specs.Places as wanted;
ghost use Rattle.isle_lsp_features.specs.Programs.{text_of};

use crate::Text;
use crate::places::Place;
use isle_index::Index;
use isle_lsp_calls::Source;
use isle_lsp_calls::incoming::incoming;
use isle_lsp_calls::items::prepare;
use isle_lsp_calls::outgoing::outgoing;
use isle_lsp_protocol::machine::Request;
use serde_json::Value;
use std::alloc::{AllocError, Global};

/// The item of the term at a place, the calls of it, or those that its definitions make, as the
/// request asks; null for any other request.
pub fn calls(
    alloc: Global,
    program: &[Text],
    index: &Index,
    request: Request,
    place: Place,
) -> Result<Value, AllocError>
    ensures { IfOk result (λ value. FindsCalls request (map text_of program.now) (all_in index.now)
        (wanted.place_of place.entry) (view value)) }
{
    let sources = sources(alloc, program)?;
    match request {
        Request::PrepareCallHierarchy => prepare(alloc, &sources, index, place.pos),
        Request::IncomingCalls => incoming(alloc, &sources, index, place.pos),
        Request::OutgoingCalls => {
            outgoing(
                alloc,
                place.encoding,
                &sources,
                index,
                place.pos,
                place.text,
            )
        },
        _ => Ok(Value::Null),
    }
}

/// The texts of a program, with their encodings and their URIs alone.
fn sources<'a>(alloc: Global, program: &[Text<'a>]) -> Result<Vec<Source<'a>>, AllocError>
    ensures { IfOk result (λ sources. map source_of sources.items
        ≡ map source_in (map text_of program.now)) }
{
    let mut sources = Vec::new(alloc);
    for text in program {
        sources.push(Source {
            encoding: text.encoding,
            uri: text.uri,
            text: text.text,
        })?;
    }
    Ok(sources)
}
