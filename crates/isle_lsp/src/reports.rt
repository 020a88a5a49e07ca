//! What is sent after a notification. Most are diagnostics: those of the document that it names,
//! and those of the other open documents that are in a program with its file. After a document is
//! closed they are those of all others, since its file may be in no program any more, and after
//! files on disk have changed those of all.

ghost use Rattle.std.specs.Prelude.{◌≡◌, ◌&&◌, ◌||◌, IfErr, IfOk, map, not, option_and_then};
ghost use Rattle.std.specs.Prelude.{option_map};
ghost use Rattle.std.specs.Prelude.{string_bytes};
ghost use Rattle.serde_json.specs.View.{view};
ghost use Rattle.isle_cli.specs.declared.failure.Failure.TheVariants.{Memory};
ghost use Rattle.isle_lsp_files.specs.Disks.{view_of};
ghost use Rattle.isle_lsp_files.specs.Documents.{document_of};
ghost use Rattle.isle_lsp_protocol.specs.Parameters as parameters_of;
ghost use Rattle.isle_lsp.specs.Serving as serving;
ghost use Rattle.isle_lsp.specs.Serving.{AreReports, Asks, Handles, IsReport, Publishes};
ghost use Rattle.isle_lsp.specs.Serving.{PublishesNamed, held_of};

use crate::server::{Server, one};
use isle_cli::failure::Failure;
use isle_lsp_diagnostics::{Checks, publish_diagnostics};
use isle_lsp_files::disk::View;
use isle_lsp_files::documents::{Document, document_at};
use isle_lsp_files::texts::{is_together, programs_of};
use isle_lsp_protocol::machine::Notification;
use isle_lsp_protocol::parameters::uri_of;
use isle_lsp_protocol::watching::watch_request;
use isle_lsp_text::positions::PositionEncoding;
use serde_json::Value;
use std::alloc::Global;

/// The texts to send after a noted notification. The only error is `Memory`.
pub fn handle(
    alloc: Global,
    server: &Server,
    checks: &mut Checks,
    notification: Notification,
    message: &Option<Value>,
    shown: &View,
) -> Result<Vec<String>, Failure>
    ensures ok { IfOk result (λ sent. Handles notification
        (option_and_then parameters_of.uri_of (option_map view message.now))
        (held_of server.now) (view_of shown.now) (map string_bytes sent.items)) }
    ensures err { IfErr result (λ failure. failure ≡ Memory) }
{
    let (encoding, documents) = (server.encoding, &server.documents);
    match notification {
        Notification::Initialized => ask_to_watch(alloc, server.watches_files),
        Notification::DidOpen | Notification::DidChange => {
            publish_named(alloc, encoding, checks, documents, false, message, shown)
        }
        Notification::DidClose => publish_named(
            alloc, encoding, checks, documents, true, message, shown,
        ),
        Notification::DidChangeWorkspaceFolders | Notification::DidChangeWatchedFiles => {
            checks.renew(alloc);
            publish_others(alloc, encoding, checks, documents, true, None, shown)
        }
        Notification::Exit | Notification::Other => Ok(Vec::new(alloc)),
    }
}

/// The request that the client watches files, if it does.
fn ask_to_watch(alloc: Global, watches_files: bool) -> Result<Vec<String>, Failure>
    ensures ok { IfOk result (λ sent. Asks watches_files (map string_bytes sent.items)) }
    ensures err { IfErr result (λ failure. failure ≡ Memory) }
{
    if watches_files {
        Ok(one(alloc, watch_request(alloc)?)?)
    } else {
        Ok(Vec::new(alloc))
    }
}

/// The notifications with the diagnostics of the document that a message names and of the others,
/// all of them or those that are in a program with its file.
fn publish_named(
    alloc: Global,
    encoding: PositionEncoding,
    checks: &mut Checks,
    documents: &[Document],
    all: bool,
    message: &Option<Value>,
    shown: &View,
) -> Result<Vec<String>, Failure>
    ensures ok { IfOk result (λ sent. PublishesNamed encoding all
        (option_and_then parameters_of.uri_of (option_map view message.now))
        (map document_of documents.now) (view_of shown.now) (map string_bytes sent.items)) }
    ensures err { IfErr result (λ failure. failure ≡ Memory) }
{
    match message {
        Some(message) => match uri_of(message) {
            Some(uri) => publish_all(alloc, encoding, checks, documents, all, uri, shown),
            None => Ok(Vec::new(alloc)),
        },
        None => Ok(Vec::new(alloc)),
    }
}

/// The notifications with the diagnostics of a document and of the others, all of them or those
/// that are in a program with its file.
fn publish_all(
    alloc: Global,
    encoding: PositionEncoding,
    checks: &mut Checks,
    documents: &[Document],
    all: bool,
    uri: &str,
    shown: &View,
) -> Result<Vec<String>, Failure>
    ensures ok { IfOk result (λ sent. Publishes encoding all uri.now (map document_of documents.now)
        (view_of shown.now) (map string_bytes sent.items)) }
    ensures err { IfErr result (λ failure. failure ≡ Memory) }
{
    checks.renew(alloc);
    let named = publish(
        alloc,
        encoding,
        checks,
        documents,
        uri,
        shown.file.as_str(),
        shown,
    )?;
    let mut others = publish_others(alloc, encoding, checks, documents, all, Some(uri), shown)?;
    let mut sent = Vec::new(alloc);
    sent.push(named)?;
    sent.append(&mut others)?;
    Ok(sent)
}

/// The notifications with the diagnostics of the open documents but the one that is named, all of
/// them or those that are in a program with the view's file.
fn publish_others(
    alloc: Global,
    encoding: PositionEncoding,
    checks: &mut Checks,
    documents: &[Document],
    all: bool,
    named: Option<&str>,
    shown: &View,
) -> Result<Vec<String>, Failure>
    ensures ok { IfOk result (λ sent. AreReports encoding (map document_of documents.now)
        (view_of shown.now) (serving.others all (option_map (λ uri. uri.now) named.entry)
        (view_of shown.now) (map document_of documents.now)) (map string_bytes sent.items)) }
    ensures err { IfErr result (λ failure. failure ≡ Memory) }
{
    let mut sent = Vec::new(alloc);
    for document in documents {
        if is_other(document, all, named, shown) {
            let (uri, file) = (document.uri.as_str(), document.file.as_str());
            let text = publish(alloc, encoding, checks, documents, uri, file, shown)?;
            sent.push(text)?;
        }
    }
    Ok(sent)
}

/// Returns whether a document is not the one that is named, but, unless all are wanted, in a
/// program with the view's file.
fn is_other(document: &Document, all: bool, named: Option<&str>, shown: &View) -> bool
    ensures { result ≡ serving.is_other all (option_map (λ uri. uri.now) named.entry)
        (view_of shown.now) (document_of document.now) }
{
    !is_named(document, named) && (all || is_together(shown, document.file.as_str()))
}

/// Returns whether a document is the one that is named.
fn is_named(document: &Document, named: Option<&str>) -> bool
    ensures { result ≡ serving.is_named (option_map (λ uri. uri.now) named.entry)
        (document_of document.now) }
{
    match named {
        Some(uri) => document.uri.as_str() == uri,
        None => false,
    }
}

/// The text of the notification with the diagnostics of a document, which is this file.
fn publish(
    alloc: Global,
    encoding: PositionEncoding,
    checks: &mut Checks,
    documents: &[Document],
    uri: &str,
    file: &str,
    shown: &View,
) -> Result<String, Failure>
    ensures ok { IfOk result (λ text. IsReport encoding (map document_of documents.now)
        (view_of shown.now) uri.now file.now (string_bytes text)) }
    ensures err { IfErr result (λ failure. failure ≡ Memory) }
{
    let programs = programs_of(alloc, encoding, documents, shown, file)?;
    let document = document_at(documents, uri);
    let (version, text) = (version_of(document), text_of(document));
    publish_diagnostics(alloc, encoding, checks, uri, version, &programs, file, text)
}

/// The version of a document, if it is open and the client gave one.
fn version_of(document: Option<&Document>) -> Option<i64>
    ensures { result ≡ serving.version_of (option_map (λ d. document_of d.now) document.entry) }
{
    match document {
        Some(document) => document.version,
        None => None,
    }
}

/// The text of a document, if it is open.
fn text_of(document: Option<&Document>) -> Option<&str>
    ensures { option_map (λ text. text.now) result
        ≡ serving.text_of (option_map (λ d. document_of d.now) document.entry) }
{
    match document {
        Some(document) => Some(document.text.as_str()),
        None => None,
    }
}
