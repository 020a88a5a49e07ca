//! Requests that are answered from an open document alone.

ghost use Rattle.std.specs.Prelude.{◌≡◌, IfErr, IfOk, Some, option_map};
ghost use Rattle.serde_json.specs.View.{view};
ghost use Rattle.isle_cli.specs.declared.failure.Failure.TheVariants.{Memory};
ghost use Rattle.isle_lsp_files.specs.Documents.{document_of};
ghost use Rattle.isle_lsp_protocol.specs.Parameters as parameters;
ghost use Rattle.isle_lsp_protocol.specs.Replies.{outcome_of};
ghost use Rattle.isle_lsp_colours.specs.Coloured.{AreTokens};
ghost use Rattle.isle_lsp_ranges.specs.Selections.{AreSelections};
ghost use Rattle.isle_lsp.specs.Alone.{GivesAt, GivesWithin, IsAlone, IsFormattingWithin};
ghost use Rattle.isle_lsp.specs.Alone.{IsLineFormatting, IsOfDocument};

use crate::formatting::{formatting, formatting_within, is_blank_at};
use isle_cli::failure::Failure;
use isle_lsp_colours::semantic_tokens;
use isle_lsp_files::documents::Document;
use isle_lsp_protocol::machine::{DocumentRequest, ErrorCode};
use isle_lsp_protocol::parameters::{positions_of, range_of, typed_range};
use isle_lsp_protocol::replies::{Outcome, error_outcome};
use isle_lsp_ranges::folding::folding_ranges;
use isle_lsp_ranges::selection::selection_ranges;
use isle_lsp_text::positions::{PositionEncoding, Range};
use serde_json::Value;
use std::alloc::{AllocError, Global};

/// The outcome of a request about a document, or an error if it is not open.
pub fn outcome_alone<'a>(
    alloc: Global,
    encoding: PositionEncoding,
    request: DocumentRequest,
    message: &Value,
    document: Option<&Document>,
) -> Result<Outcome<'a>, Failure>
    ensures ok { IfOk result (λ outcome. IsAlone encoding request (view message.now)
        (option_map (λ d. document_of d.now) document.entry)
        (outcome_of outcome)) }
    ensures err { IfErr result (λ failure. failure ≡ Memory) }
{
    match document {
        Some(document) => outcome_of_document(alloc, encoding, request, message, document),
        None => Ok(error_outcome(ErrorCode::InvalidParams)),
    }
}

fn outcome_of_document<'a>(
    alloc: Global,
    encoding: PositionEncoding,
    request: DocumentRequest,
    message: &Value,
    document: &Document,
) -> Result<Outcome<'a>, Failure>
    ensures ok { IfOk result (λ outcome. IsOfDocument encoding request (view message.now)
        (document_of document.now) (outcome_of outcome)) }
    ensures err { IfErr result (λ failure. failure ≡ Memory) }
{
    let text = document.text.as_str();
    match request {
        DocumentRequest::Formatting => Ok(Outcome::Done(formatting(alloc, encoding, text)?)),
        DocumentRequest::RangeFormatting => formatted_range(
            alloc,
            encoding,
            text,
            range_of(message),
        ),
        DocumentRequest::OnTypeFormatting => formatted_line(
            alloc,
            encoding,
            text,
            typed_range(message),
        ),
        DocumentRequest::FoldingRange => Ok(Outcome::Done(folding_ranges(alloc, text)?)),
        DocumentRequest::SelectionRange => Ok(selections(alloc, encoding, text, message)?),
        DocumentRequest::SemanticTokens => {
            Ok(Outcome::Done(semantic_tokens(alloc, encoding, text, None)?))
        }
        DocumentRequest::SemanticTokensRange => Ok(tokens_within(alloc, encoding, text, message)?),
    }
}

/// The edits that format the lines of a range, if a message has one.
fn formatted_range<'a>(
    alloc: Global,
    encoding: PositionEncoding,
    text: &str,
    range: Option<Range>,
) -> Result<Outcome<'a>, Failure>
    ensures ok { IfOk result (λ outcome. GivesWithin (IsFormattingWithin encoding text.now) range
        (outcome_of outcome)) }
    ensures err { IfErr result (λ failure. failure ≡ Memory) }
{
    match range {
        Some(range) => Ok(Outcome::Done(formatting_within(alloc, encoding, text, range)?)),
        None => Ok(error_outcome(ErrorCode::InvalidParams)),
    }
}

/// The edits that format the line of a range, if a message has one, or null if it is blank: they
/// would remove the line that has just been made.
fn formatted_line<'a>(
    alloc: Global,
    encoding: PositionEncoding,
    text: &str,
    range: Option<Range>,
) -> Result<Outcome<'a>, Failure>
    ensures ok { IfOk result
        (λ outcome. IsLineFormatting encoding text.now range (outcome_of outcome)) }
    ensures err { IfErr result (λ failure. failure ≡ Memory) }
{
    if is_blank_at(encoding, text, range) {
        return Ok(Outcome::Done(Value::Null));
    }
    formatted_range(alloc, encoding, text, range)
}

/// What a selection grows to from each position in a message.
fn selections<'a>(
    alloc: Global,
    encoding: PositionEncoding,
    text: &str,
    message: &Value,
) -> Result<Outcome<'a>, AllocError>
    ensures { IfOk result (λ outcome. GivesAt (AreSelections encoding text.now)
        (parameters.positions_of (view message.now)) (outcome_of outcome)) }
{
    match positions_of(alloc, message)? {
        Some(positions) => Ok(Outcome::Done(selection_ranges(alloc, encoding, text, &positions)?)),
        None => Ok(error_outcome(ErrorCode::InvalidParams)),
    }
}

/// The tokens of the range in a message.
fn tokens_within<'a>(
    alloc: Global,
    encoding: PositionEncoding,
    text: &str,
    message: &Value,
) -> Result<Outcome<'a>, AllocError>
    ensures { IfOk result (λ outcome. GivesWithin
        (λ range. AreTokens encoding text.now (Some range))
        (parameters.range_of (view message.now)) (outcome_of outcome)) }
{
    match range_of(message) {
        Some(range) => Ok(Outcome::Done(semantic_tokens(alloc, encoding, text, Some(range))?)),
        None => Ok(error_outcome(ErrorCode::InvalidParams)),
    }
}
