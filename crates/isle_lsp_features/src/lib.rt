//! Requests about the names of a program: where they are defined, implemented and used, how they
//! are declared, how a partly written one may go on, and which edits rename one.
//!
//! A program is a list of texts, each with its URI in the editor.
#![tactic(auto)]

ghost use Rattle.std.specs.Prelude.{◌≡◌, IfErr, IfOk, map};
ghost use Rattle.serde_json.specs.View.{view};
ghost use Rattle.isle_lsp_features.specs.Programs.{question_of, text_of};
ghost use Rattle.isle_cli.specs.declared.failure.Failure.TheVariants.{Memory};
ghost use Rattle.isle_index.specs.Held.{all_in};
ghost use Rattle.isle_lsp_features.specs.Answers.{IsAnswer, IsAnswerAt, IsAnswerOf, list_outcome};
ghost use Rattle.isle_lsp_features.specs.Gathered.{IsGathered};
ghost use Rattle.isle_lsp_features.specs.Places as wanted;
ghost use Rattle.isle_lsp_protocol.specs.Replies.{outcome_of};

mod calls;
mod completion;
mod gathered;
mod hover;
mod implementations;
mod known;
pub mod laws;
mod locations;
pub mod pieces;
pub mod places;
mod renaming;
pub mod rests;
mod signatures;
mod symbols;

pub use gathered::Gathered;
use isle_cli::failure::Failure;
use isle_index::Index;
use isle_lsp_protocol::items::{Item, Listing};
use isle_lsp_protocol::machine::{ErrorCode, Request};
use isle_lsp_protocol::parameters::{item_of, query_of, wants_definitions};
use isle_lsp_protocol::replies::{Outcome, error_outcome};
use isle_lsp_text::positions::PositionEncoding;
use places::{Place, file_of, place_of};
use serde_json::Value;
use std::alloc::{AllocError, Global};

/// A text of a program.
#[derive(Clone, Copy)]
pub struct Text<'a> {
    /// How positions in it are counted.
    pub encoding: PositionEncoding,
    /// Its URI, as the client spells it.
    pub uri: &'a str,
    /// The file that it is, which has one name however its URI is spelt.
    pub file: &'a str,
    /// Whether a program has that file that is not part of this one.
    pub is_shared: bool,
    /// Its version, if the client has it open.
    pub version: Option<i64>,
    /// The text.
    pub text: &'a str,
}

/// A request about the names of a program.
#[derive(Clone, Copy)]
pub struct Question<'a> {
    /// The request.
    pub request: Request,
    /// The whole message.
    pub message: &'a Value,
    /// The file of the document that the message names.
    pub file: &'a str,
    /// Whether the client takes edits with versions.
    pub takes_document_changes: bool,
}

/// Answers a request about the names of a program.
///
/// A text that does not parse contributes what the module `pieces` knows of it. While there is one,
/// `rename` and `prepareRename` fail. Only texts that differ from those of the last request about
/// the same files are parsed. The only `Err` is `Memory`.
pub fn answer<'a>(
    alloc: Global,
    gathered: &mut Gathered,
    program: &[Text<'a>],
    question: Question,
) -> Result<Outcome<'a>, Failure>
    ensures ok { IfOk result (λ outcome. IsAnswer (question_of question.entry)
        (map text_of program.now) (outcome_of outcome)) }
    ensures err { IfErr result (λ failure. failure ≡ Memory) }
{
    gathered.answer(alloc, program, question)
}

/// Answers a request about the names of a program that has this index, and this many texts that do
/// not parse or nest too deeply.
fn answer_from<'a>(
    alloc: Global,
    program: &[Text<'a>],
    index: &Index,
    refused: usize,
    question: Question,
) -> Result<Outcome<'a>, Failure>
    requires { IsGathered (map text_of program.now) index.now refused }
    ensures ok { IfOk result (λ outcome. IsAnswer (question_of question.entry)
        (map text_of program.now) (outcome_of outcome)) }
    ensures err { IfErr result (λ failure. failure ≡ Memory) }
{
    if refused > 0 && matches!(question.request, Request::Rename | Request::PrepareRename) {
        return Ok(Outcome::Failed(
            ErrorCode::RequestFailed,
            "cannot rename: a file of the workspace has a syntax error",
        ));
    }
    Ok(answer_in(alloc, program, index, question)?)
}

/// Answers a request about the names in an index.
fn answer_in<'a>(
    alloc: Global,
    program: &[Text<'a>],
    index: &Index,
    question: Question,
) -> Result<Outcome<'a>, AllocError>
    ensures { IfOk result (λ outcome. IsAnswerOf question.entry.request
        (question_of question.entry) (map text_of program.now) (all_in index.now)
        (outcome_of outcome)) }
{
    let message = question.message;
    match question.request {
        Request::WorkspaceSymbol => {
            let query = query_of(message).unwrap_or("");
            let found = symbols::workspace_symbols(alloc, program, index, query)?;
            Ok(list_outcome(Some(found)))
        }
        Request::DocumentSymbol => match file_of(program, question.file) {
            Some(file) => {
                let found = symbols::document_symbols(alloc, index, file)?;
                Ok(list_outcome(Some(found)))
            }
            None => Ok(error_outcome(ErrorCode::InvalidParams)),
        },
        Request::ResolveCompletion => match item_of(message) {
            Some(item) => Ok(Outcome::Done(hover::resolve(alloc, program, index, item)?)),
            None => Ok(error_outcome(ErrorCode::InvalidParams)),
        },
        Request::Rename => match place_of(program, question) {
            Some(place) => renaming::rename(alloc, program, index, place, question),
            None => Ok(error_outcome(ErrorCode::InvalidParams)),
        },
        request => match place_of(program, question) {
            Some(place) => answer_at(alloc, program, index, request, place, message),
            None => Ok(error_outcome(ErrorCode::InvalidParams)),
        },
    }
}

/// Answers a request about the name at a place.
fn answer_at<'a>(
    alloc: Global,
    program: &[Text<'a>],
    index: &Index,
    request: Request,
    place: Place,
    message: &Value,
) -> Result<Outcome<'a>, AllocError>
    ensures { IfOk result (λ outcome. IsAnswerAt request (map text_of program.now)
        (all_in index.now) (wanted.place_of place.entry) (view message.now)
        (outcome_of outcome)) }
{
    match request {
        Request::Definition => Ok(list_outcome(locations::definition(
            alloc, program, index, place,
        )?)),
        Request::Implementation => Ok(list_outcome(implementations::implementations(
            alloc, program, index, place,
        )?)),
        Request::References => {
            let all = wants_definitions(message);
            let found = locations::references(alloc, program, index, place, all)?;
            Ok(list_outcome(found))
        }
        Request::DocumentHighlight => Ok(list_outcome(locations::highlights(alloc, index, place)?)),
        Request::Hover => Ok(Outcome::Done(hover::hover(alloc, program, index, place)?)),
        Request::SignatureHelp => {
            let help = signatures::signature_help(alloc, program, index, place)?;
            Ok(Outcome::Done(help))
        }
        Request::Completion => Ok(list_outcome(Some(completion::completion(alloc, index, place)?))),
        Request::PrepareRename => Ok(Outcome::Done(renaming::prepare(alloc, index, place)?)),
        request => Ok(Outcome::Done(calls::calls(alloc, program, index, request, place)?)),
    }
}

/// The outcome that is a list, or null if there is none.
fn list_outcome(items: Option<Vec<Item>>) -> Outcome
    ensures { outcome_of result ≡ list_outcome items.entry }
{
    match items {
        Some(items) => Outcome::Listed(Listing::Items(items)),
        None => Outcome::Done(Value::Null),
    }
}
