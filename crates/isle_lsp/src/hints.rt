//! The types of variables, shown behind their first mentions.

ghost use Rattle.std.specs.Prelude.{◌≡◌, IfErr, IfOk, map};
ghost use Rattle.serde_json.specs.View.{view};
ghost use Rattle.isle_cli.specs.declared.failure.Failure.TheVariants.{Memory};
ghost use Rattle.isle_lsp_files.specs.Disks.{view_of};
ghost use Rattle.isle_lsp_files.specs.Documents.{document_of};
ghost use Rattle.isle_lsp_protocol.specs.Replies.{outcome_of};
ghost use Rattle.isle_lsp.specs.Alone.{Gives, GivesWithin};
ghost use Rattle.isle_lsp.specs.Serving.{AreViewHints, named_range};

use isle_cli::failure::Failure;
use isle_lsp_diagnostics::inlay_hints;
use isle_lsp_files::disk::View;
use isle_lsp_files::documents::Document;
use isle_lsp_files::texts::programs_of;
use isle_lsp_protocol::items::Listing;
use isle_lsp_protocol::machine::ErrorCode;
use isle_lsp_protocol::parameters::{range_of, uri_of};
use isle_lsp_protocol::replies::{Outcome, error_outcome};
use isle_lsp_text::positions::{PositionEncoding, Range};
use serde_json::Value;
use std::alloc::Global;

/// The hints in the range of a message, or an error if it has none or names no document. The only
/// error is `Memory`.
pub fn hints_outcome<'a>(
    alloc: Global,
    encoding: PositionEncoding,
    documents: &[Document],
    message: &Value,
    shown: &View,
) -> Result<Outcome<'a>, Failure>
    ensures ok { IfOk result (λ outcome. GivesWithin
        (AreViewHints encoding (map document_of documents.now) (view_of shown.now))
        (named_range (view message.now)) (outcome_of outcome)) }
    ensures err { IfErr result (λ failure. failure ≡ Memory) }
{
    match named_range(message) {
        Some(range) => hints_within(alloc, encoding, documents, range, shown),
        None => Ok(error_outcome(ErrorCode::InvalidParams)),
    }
}

/// The range in a message that names a document.
fn named_range(message: &Value) -> Option<Range>
    ensures { result ≡ named_range (view message.now) }
{
    match uri_of(message) {
        Some(_) => range_of(message),
        None => None,
    }
}

/// The hints in a range of the view's file.
fn hints_within<'a>(
    alloc: Global,
    encoding: PositionEncoding,
    documents: &[Document],
    range: Range,
    shown: &View,
) -> Result<Outcome<'a>, Failure>
    ensures ok { IfOk result (λ outcome. Gives
        (AreViewHints encoding (map document_of documents.now) (view_of shown.now) range)
        (outcome_of outcome)) }
    ensures err { IfErr result (λ failure. failure ≡ Memory) }
{
    let file = shown.file.as_str();
    let programs = programs_of(alloc, encoding, documents, shown, file)?;
    let items = inlay_hints(alloc, &programs, file, range)?;
    Ok(Outcome::Listed(Listing::Items(items)))
}
