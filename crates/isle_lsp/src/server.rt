//! The state of the server, and its handlers of messages.

ghost use Rattle.std.specs.Prelude.{◌≡◌, ◌∷◌, [], IfErr, IfOk, None, OnOk, Some, map};
ghost use Rattle.std.specs.Prelude.{option_map};
ghost use Rattle.std.specs.Prelude.{string_bytes};
ghost use Rattle.serde_json.specs.Read.{read};
ghost use Rattle.serde_json.specs.View.{view};
ghost use Rattle.isle_cli.specs.declared.failure.Failure.TheVariants.{Memory};
ghost use Rattle.isle_lsp_files.specs.Disks.{view_of};
ghost use Rattle.isle_lsp_files.specs.Documents as wanted;
ghost use Rattle.isle_lsp_files.specs.Documents.{document_of};
ghost use Rattle.isle_lsp_protocol.specs.Replies.{outcome_of};
ghost use Rattle.isle_lsp_protocol.specs.Parameters as parameters_of;
ghost use Rattle.isle_lsp_protocol.specs.Replies as replies_of;
ghost use Rattle.isle_lsp.specs.Conversations.{nothing};
ghost use Rattle.isle_lsp.specs.Serving as serving;
ghost use Rattle.isle_lsp.specs.Serving.{IsReply, IsResult, IsResultOf, IsShallow, Sends};
ghost use Rattle.isle_lsp.specs.Serving.{document_in, documents_after, documents_noted, held_of};
ghost use Rattle.isle_lsp.specs.Serving.{documents_after_notification, folders_after, takes_after};
ghost use Rattle.isle_lsp.specs.Serving.{IsReplyUnless, encoding_after, watches_after};

use crate::actions::actions_outcome;
use crate::alone::outcome_alone;
use crate::hints::hints_outcome;
use crate::names::{hover_outcome, name_outcome};
use crate::reports::handle;
use isle_cli::failure::Failure;
use isle_lsp_diagnostics::Checks;
use isle_lsp_features::Gathered;
use isle_lsp_files::disk::View;
use isle_lsp_files::documents::{Document, close, document_at, open};
use isle_lsp_protocol::capabilities::initialize_result;
use isle_lsp_protocol::machine::{Action, ErrorCode, Notification, Request, State};
use isle_lsp_protocol::parameters::{
    encoding_of, takes_document_changes, text_after, uri_of, version_of, watches_files,
};
use isle_lsp_protocol::replies::{Outcome, error_outcome, reason_of, reply_id};
use isle_lsp_protocol::{parameters, replies};
use isle_lsp_text::positions::PositionEncoding;
use serde_json::Value;
use std::alloc::{AllocError, Global};

/// The state of the server.
#[derive(Drop)]
pub struct Server {
    /// The state of the session.
    pub state: State,
    /// How positions are counted: the client and the server agree on it at the start.
    pub encoding: PositionEncoding,
    /// The open documents.
    pub documents: Vec<Document>,
    /// The URIs of the editor's folders.
    pub folders: Vec<String>,
    /// Whether the client takes edits with versions.
    pub takes_document_changes: bool,
    /// Whether the client watches the files that it is asked to watch.
    pub watches_files: bool,
}

impl Server {
    /// A server that has not received a message.
    pub fn new(alloc: Global) -> Server
        ensures { held_of result ≡ nothing }
    {
        Server {
            state: State::Fresh,
            encoding: PositionEncoding::Utf16,
            documents: Vec::new(alloc),
            folders: Vec::new(alloc),
            takes_document_changes: false,
            watches_files: false,
        }
    }
}

/// What the server keeps from one message to the next, so that it does less. No answer depends on
/// it.
#[derive(Drop)]
pub struct Kept {
    /// The indexes of the programs that were asked about last.
    pub gathered: Gathered,
    /// What was found last in documents and in their programs.
    pub checks: Checks,
}

impl Kept {
    /// Nothing is kept.
    pub fn new(alloc: Global) -> Kept {
        Kept {
            gathered: Gathered::new(alloc),
            checks: Checks::new(alloc),
        }
    }
}

/// Notes what an action changes: the documents, the folders, and what the client takes. `opened` is
/// what the disk shows of a document that is opened. An `Err` means out of memory.
pub fn note(
    alloc: Global,
    server: &mut Server,
    action: Action,
    message: &Option<Value>,
    opened: &View,
) -> Result<(), AllocError>
    ensures state { server.new.state ≡ server.old.state }
    ensures documents { OnOk result (map document_of server.new.documents.items
        ≡ documents_after server.old.encoding action (option_map view message.now)
        (view_of opened.now) (map document_of server.old.documents.items)) }
    ensures folders { OnOk result (map string_bytes server.new.folders.items
        ≡ folders_after action (option_map view message.now)
        (map string_bytes server.old.folders.items)) }
    ensures encoding { OnOk result (server.new.encoding
        ≡ encoding_after action (option_map view message.now) server.old.encoding) }
    ensures takes { OnOk result (server.new.takes_document_changes
        ≡ takes_after action (option_map view message.now) server.old.takes_document_changes) }
    ensures watches { OnOk result (server.new.watches_files
        ≡ watches_after action (option_map view message.now) server.old.watches_files) }
{
    match action {
        Action::Ignore | Action::Reject(_) => Ok(()),
        Action::Handle(notification) => {
            note_notification(alloc, server, notification, message, opened)
        }
        Action::Answer(request) => {
            if matches!(request, Request::Initialize) {
                initialize(alloc, server, message)?;
            }
            Ok(())
        }
    }
}

/// Performs a noted action on a message, with what the disk shows for it, and returns the texts to
/// send. The only error is `Memory`.
pub fn perform(
    alloc: Global,
    server: &Server,
    kept: &mut Kept,
    action: Action,
    message: &Option<Value>,
    shown: &View,
) -> Result<Vec<String>, Failure>
    // A message that was decoded is shallow.
    ensures sends { IsShallow (option_map view message.now) → IfOk result (λ sent. Sends action
        (option_map view message.now) (held_of server.now) (view_of shown.now)
        (map string_bytes sent.items)) }
    ensures err { IfErr result (λ failure. failure ≡ Memory) }
{
    match action {
        Action::Ignore => Ok(Vec::new(alloc)),
        Action::Reject(code) => Ok(one(alloc, error_response(alloc, message, code)?)?),
        Action::Handle(notification) => {
            handle(
                alloc,
                server,
                &mut kept.checks,
                notification,
                message,
                shown,
            )
        }
        Action::Answer(request) => {
            let gathered = &mut kept.gathered;
            let text = response(alloc, server, gathered, request, message, shown)?;
            Ok(one(alloc, text)?)
        }
    }
}

/// One text to send.
pub(crate) fn one(alloc: Global, text: String) -> Result<Vec<String>, AllocError>
    ensures { IfOk result (λ sent. map string_bytes sent.items ≡ string_bytes text ∷ []) }
{
    let mut sent = Vec::new(alloc);
    sent.push(text)?;
    Ok(sent)
}

/// Learns the client's folders and capabilities.
fn initialize(alloc: Global, server: &mut Server, message: &Option<Value>) -> Result<(), AllocError>
    ensures state { server.new.state ≡ server.old.state }
    ensures documents { server.new.documents ≡ server.old.documents }
    ensures folders { OnOk result (map string_bytes server.new.folders.items
        ≡ folders_after (Action.Answer Request.Initialize) (option_map view message.now)
        (map string_bytes server.old.folders.items)) }
    ensures encoding { OnOk result (server.new.encoding
        ≡ encoding_after (Action.Answer Request.Initialize) (option_map view message.now)
        server.old.encoding) }
    ensures takes { OnOk result (server.new.takes_document_changes
        ≡ takes_after (Action.Answer Request.Initialize) (option_map view message.now)
        server.old.takes_document_changes) }
    ensures watches { OnOk result (server.new.watches_files
        ≡ watches_after (Action.Answer Request.Initialize) (option_map view message.now)
        server.old.watches_files) }
{
    if let Some(message) = message {
        server.folders = parameters::folders_of(alloc, message)?;
        server.encoding = encoding_of(message);
        server.takes_document_changes = takes_document_changes(message);
        server.watches_files = watches_files(message);
    }
    Ok(())
}

/// The text of an error response to a message, with the usual message of its code.
fn error_response(
    alloc: Global,
    message: &Option<Value>,
    code: ErrorCode,
) -> Result<String, AllocError>
    ensures { IfOk result (λ text. read (string_bytes text) ≡ Some (replies_of.error_response
        (replies_of.reply_id (option_map view message.now)) code (replies_of.reason_of code))) }
{
    refusal(alloc, message, code, reason_of(code))
}

/// The text of an error response to a message.
fn refusal(
    alloc: Global,
    message: &Option<Value>,
    code: ErrorCode,
    reason: &str,
) -> Result<String, AllocError>
    ensures { IfOk result (λ text. read (string_bytes text) ≡ Some (replies_of.error_response
        (replies_of.reply_id (option_map view message.now)) code reason.now)) }
{
    let id = reply_id(message)?;
    replies::error_response(alloc, id, code, reason)
}

/// Notes what a notification changes.
fn note_notification(
    alloc: Global,
    server: &mut Server,
    notification: Notification,
    message: &Option<Value>,
    opened: &View,
) -> Result<(), AllocError>
    ensures state { server.new.state ≡ server.old.state }
    ensures encoding { server.new.encoding ≡ server.old.encoding }
    ensures takes { server.new.takes_document_changes ≡ server.old.takes_document_changes }
    ensures watches { server.new.watches_files ≡ server.old.watches_files }
    ensures folders { OnOk result (map string_bytes server.new.folders.items
        ≡ folders_after (Action.Handle notification) (option_map view message.now)
        (map string_bytes server.old.folders.items)) }
    ensures documents { OnOk result (map document_of server.new.documents.items
        ≡ documents_after_notification server.old.encoding notification
        (option_map view message.now) (view_of opened.now)
        (map document_of server.old.documents.items)) }
{
    match message {
        Some(message) => {
            if matches!(notification, Notification::DidChangeWorkspaceFolders) {
                server.folders = parameters::folders_after(alloc, message, &server.folders)?;
            }
            match uri_of(message) {
                Some(uri) => {
                    let encoding = server.encoding;
                    let documents = &mut server.documents;
                    note_for(
                        alloc,
                        encoding,
                        documents,
                        notification,
                        uri,
                        message,
                        opened,
                    )
                }
                None => Ok(()),
            }
        }
        None => Ok(()),
    }
}

/// Notes a notification about a document.
fn note_for(
    alloc: Global,
    encoding: PositionEncoding,
    documents: &mut Vec<Document>,
    notification: Notification,
    uri: &str,
    message: &Value,
    opened: &View,
) -> Result<(), AllocError>
    ensures { OnOk result (map document_of documents.new.items
        ≡ documents_noted encoding notification uri.now (view message.now) (view_of opened.now)
        (map document_of documents.old.items)) }
{
    match notification {
        Notification::DidOpen => did_open(alloc, documents, uri, message, opened),
        Notification::DidChange => did_change(alloc, encoding, documents, uri, message),
        Notification::DidClose => {
            close(documents, uri);
            Ok(())
        }
        Notification::Initialized
        | Notification::Exit
        | Notification::DidChangeWorkspaceFolders
        | Notification::DidChangeWatchedFiles
        | Notification::Other => Ok(()),
    }
}

/// Opens the document in a message.
fn did_open(
    alloc: Global,
    documents: &mut Vec<Document>,
    uri: &str,
    message: &Value,
    opened: &View,
) -> Result<(), AllocError>
    ensures { OnOk result (map document_of documents.new.items ≡ serving.did_open uri.now
        (parameters_of.text_of (view message.now)) (view message.now) (view_of opened.now)
        (map document_of documents.old.items)) }
{
    match parameters::text_of(message) {
        Some(text) => {
            let file = String::from_str(alloc, opened.file.as_str())?;
            let text = String::from_str(alloc, text)?;
            open(alloc, documents, uri, file, version_of(message), text)
        }
        None => Ok(()),
    }
}

/// Changes the document that a message names.
fn did_change(
    alloc: Global,
    encoding: PositionEncoding,
    documents: &mut Vec<Document>,
    uri: &str,
    message: &Value,
) -> Result<(), AllocError>
    ensures { OnOk result (map document_of documents.new.items ≡ serving.did_change encoding
        uri.now (wanted.document_at uri.now (map document_of documents.old.items))
        (view message.now) (map document_of documents.old.items)) }
{
    let (file, after) = match document_at(documents, uri) {
        Some(document) => {
            let file = String::from_str(alloc, document.file.as_str())?;
            (
                file,
                text_after(alloc, encoding, message, document.text.as_str())?,
            )
        }
        None => return Ok(()),
    };
    open(alloc, documents, uri, file, version_of(message), after)
}

/// The text of the response to a request. Nothing is renamed while settings are broken, since they
/// say which programs have a name.
fn response(
    alloc: Global,
    server: &Server,
    gathered: &mut Gathered,
    request: Request,
    message: &Option<Value>,
    shown: &View,
) -> Result<String, Failure>
    ensures ok { IsShallow (option_map view message.now) → IfOk result (λ text. IsReply request
        (option_map view message.now) (held_of server.now) (view_of shown.now)
        (string_bytes text)) }
    ensures err { IfErr result (λ failure. failure ≡ Memory) }
{
    match mistake_for(request, shown) {
        Some(mistake) => Ok(refusal(alloc, message, ErrorCode::RequestFailed, mistake)?),
        None => answer(alloc, server, gathered, request, message, shown),
    }
}

/// Why a request is refused, whatever the texts are: it renames, and settings are broken.
fn mistake_for<'a>(request: Request, shown: &'a View) -> Option<&'a str>
    ensures { option_map (λ mistake. mistake.now) result
        ≡ serving.mistake_for request (view_of shown.now) }
{
    match request {
        Request::Rename | Request::PrepareRename => mistake_in(shown),
        _ => None,
    }
}

/// Why nothing is renamed, if a view shows that settings are broken.
fn mistake_in(shown: &View) -> Option<&str>
    ensures { option_map (λ mistake. mistake.now) result
        ≡ option_map string_bytes shown.now.mistake }
{
    match &shown.mistake {
        Some(mistake) => Some(mistake.as_str()),
        None => None,
    }
}

/// The text of the response to a request that is not refused.
fn answer(
    alloc: Global,
    server: &Server,
    gathered: &mut Gathered,
    request: Request,
    message: &Option<Value>,
    shown: &View,
) -> Result<String, Failure>
    ensures ok { IsShallow (option_map view message.now) → IfOk result (λ text. IsReplyUnless None
        request (option_map view message.now) (held_of server.now) (view_of shown.now)
        (string_bytes text)) }
    ensures err { IfErr result (λ failure. failure ≡ Memory) }
{
    let id = reply_id(message)?;
    let outcome = outcome_for(alloc, server, gathered, request, message, shown)?;
    let text = replies::reply(alloc, id, outcome)?;
    Ok(text)
}

/// The outcome of a request, or an error if there is no message.
fn outcome_for<'a>(
    alloc: Global,
    server: &'a Server,
    gathered: &mut Gathered,
    request: Request,
    message: &Option<Value>,
    shown: &'a View,
) -> Result<Outcome<'a>, Failure>
    ensures ok { IfOk result (λ outcome. IsResultOf request (option_map view message.now)
        (held_of server.now) (view_of shown.now) (outcome_of outcome)) }
    ensures err { IfErr result (λ failure. failure ≡ Memory) }
{
    match message {
        Some(message) => outcome_in(alloc, server, gathered, request, message, shown),
        None => Ok(error_outcome(ErrorCode::InvalidParams)),
    }
}

/// The outcome of a request.
fn outcome_in<'a>(
    alloc: Global,
    server: &'a Server,
    gathered: &mut Gathered,
    request: Request,
    message: &Value,
    shown: &'a View,
) -> Result<Outcome<'a>, Failure>
    ensures ok { IfOk result (λ outcome. IsResult request (view message.now)
        (held_of server.now) (view_of shown.now) (outcome_of outcome)) }
    ensures err { IfErr result (λ failure. failure ≡ Memory) }
{
    match request {
        Request::Initialize => Ok(Outcome::Done(initialize_result(alloc, server.encoding)?)),
        Request::Shutdown => Ok(Outcome::Done(Value::Null)),
        Request::Document(request) => {
            let document = document_in(&server.documents, message);
            outcome_alone(alloc, server.encoding, request, message, document)
        }
        Request::Hover => hover_outcome(alloc, server, gathered, message, shown),
        Request::InlayHint => {
            hints_outcome(alloc, server.encoding, &server.documents, message, shown)
        },
        Request::CodeAction => actions_outcome(alloc, server, message, shown),
        Request::Unknown => Ok(error_outcome(ErrorCode::MethodNotFound)),
        _ => name_outcome(alloc, server, gathered, request, message, shown),
    }
}

/// The document that a message names, if it is open.
pub fn document_in<'a>(documents: &'a [Document], message: &Value) -> Option<&'a Document>
    ensures { option_map (λ document. document_of document.now) result
        ≡ document_in (view message.now) (map document_of documents.now) }
{
    match uri_of(message) {
        Some(uri) => document_at(documents, uri),
        None => None,
    }
}
