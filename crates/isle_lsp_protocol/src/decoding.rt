//! Decoding of a client's messages.

ghost use Rattle.std.specs.Prelude.{◌≡◌, IfErr, IfOk, option_map};
ghost use Rattle.serde_json.specs.View.{view};
ghost use Rattle.isle_cli.specs.declared.failure.Failure.TheVariants.{Memory};
ghost use Rattle.isle_lsp_protocol.specs.Decoding.{Decodes, is_id, message_in, message_of};
ghost use Rattle.isle_lsp_protocol.specs.Decoding.{document_request_of, program_request_of};
ghost use Rattle.isle_lsp_protocol.specs.Decoding.{notification_in, notification_of, request_in};
ghost use Rattle.isle_lsp_protocol.specs.Decoding.{request_of};

use crate::machine::{DocumentRequest, Message, Notification, Request};
use isle_cli::failure::Failure;
use isle_lsp_frames::mending::mended;
use serde_json::{Category, Value};
use std::alloc::Global;

/// Parses a message as JSON, or returns `None` if it is not JSON. The only error is `Memory`.
///
/// A surrogate without its partner is read as U+FFFD.
pub fn decode(alloc: Global, body: &[u8]) -> Result<Option<Value>, Failure>
    ensures ok { IfOk result (λ value. Decodes body.now (option_map view value)) }
    ensures err { IfErr result (λ failure. failure ≡ Memory) }
{
    let body = mended(alloc, body)?;
    match Value::from_slice(alloc, &body) {
        Ok(value) => Ok(Some(value)),
        Err(error) if matches!(error.classify(), Category::Memory) => Err(Failure::Memory),
        Err(_) => Ok(None),
    }
}

/// Classifies a message.
///
/// A request has a method and an `id`, which is a string or a number; a notification has a method
/// and no `id`; an object without a method is a response. Other JSON is invalid.
pub fn message_in(value: &Option<Value>) -> Message
    ensures { result ≡ message_in (option_map view value.now) }
{
    match value {
        Some(value) => message_of(value),
        None => Message::Broken,
    }
}

#[tactic(auto, unfolding(crate::specs::Decoding::message_of))]
fn message_of(value: &Value) -> Message
    ensures { result ≡ message_of (view value.now) }
{
    if !value.is_object() {
        return Message::Invalid;
    }
    match (value.get("method"), value.get("id")) {
        (None, _) => Message::Response,
        (Some(method), None) => notification_in(method),
        (Some(method), Some(id)) if is_id(id) => request_in(method),
        (Some(_), Some(_)) => Message::Invalid,
    }
}

/// Returns whether a message may have this `id`.
fn is_id(id: &Value) -> bool
    ensures { result ≡ is_id (view id.now) }
{
    id.is_string() || id.is_number()
}

fn notification_in(method: &Value) -> Message
    ensures { result ≡ notification_in (view method.now) }
{
    match method.as_str() {
        Some(name) => Message::Notification(notification_of(name)),
        None => Message::Invalid,
    }
}

fn request_in(method: &Value) -> Message
    ensures { result ≡ request_in (view method.now) }
{
    match method.as_str() {
        Some(name) => Message::Request(request_of(name)),
        None => Message::Invalid,
    }
}

/// The notification with this method.
fn notification_of(name: &str) -> Notification
    ensures { result ≡ notification_of name.now }
{
    match name {
        "initialized" => Notification::Initialized,
        "exit" => Notification::Exit,
        "textDocument/didOpen" => Notification::DidOpen,
        "textDocument/didChange" => Notification::DidChange,
        "textDocument/didClose" => Notification::DidClose,
        "workspace/didChangeWorkspaceFolders" => Notification::DidChangeWorkspaceFolders,
        "workspace/didChangeWatchedFiles" => Notification::DidChangeWatchedFiles,
        _ => Notification::Other,
    }
}

/// The request with this method.
fn request_of(name: &str) -> Request
    ensures { result ≡ request_of name.now }
{
    match name {
        "initialize" => Request::Initialize,
        "shutdown" => Request::Shutdown,
        "workspace/symbol" => Request::WorkspaceSymbol,
        "textDocument/documentSymbol" => Request::DocumentSymbol,
        "textDocument/definition" => Request::Definition,
        "textDocument/implementation" => Request::Implementation,
        "textDocument/references" => Request::References,
        "textDocument/documentHighlight" => Request::DocumentHighlight,
        "textDocument/hover" => Request::Hover,
        "textDocument/signatureHelp" => Request::SignatureHelp,
        "textDocument/completion" => Request::Completion,
        "completionItem/resolve" => Request::ResolveCompletion,
        "textDocument/prepareRename" => Request::PrepareRename,
        "textDocument/rename" => Request::Rename,
        _ => program_request_of(name),
    }
}

/// The request about types of variables, code actions or calls with this method, or else the one
/// about a document alone.
fn program_request_of(name: &str) -> Request
    ensures { result ≡ program_request_of name.now }
{
    match name {
        "textDocument/inlayHint" => Request::InlayHint,
        "textDocument/codeAction" => Request::CodeAction,
        "textDocument/prepareCallHierarchy" => Request::PrepareCallHierarchy,
        "callHierarchy/incomingCalls" => Request::IncomingCalls,
        "callHierarchy/outgoingCalls" => Request::OutgoingCalls,
        _ => document_request_of(name),
    }
}

/// The request about a document alone with this method, or `Unknown` if there is none.
fn document_request_of(name: &str) -> Request
    ensures { result ≡ document_request_of name.now }
{
    match name {
        "textDocument/formatting" => Request::Document(DocumentRequest::Formatting),
        "textDocument/rangeFormatting" => Request::Document(DocumentRequest::RangeFormatting),
        "textDocument/onTypeFormatting" => Request::Document(DocumentRequest::OnTypeFormatting),
        "textDocument/foldingRange" => Request::Document(DocumentRequest::FoldingRange),
        "textDocument/selectionRange" => Request::Document(DocumentRequest::SelectionRange),
        "textDocument/semanticTokens/full" => Request::Document(DocumentRequest::SemanticTokens),
        "textDocument/semanticTokens/range" => {
            Request::Document(DocumentRequest::SemanticTokensRange)
        }
        _ => Request::Unknown,
    }
}
