//! The code actions in an open document.

ghost use Rattle.std.specs.Prelude.{◌≡◌, IfErr, IfOk, map};
ghost use Rattle.serde_json.specs.View.{view};
ghost use Rattle.isle_cli.specs.declared.failure.Failure.TheVariants.{Memory};
ghost use Rattle.isle_lsp_features.specs.Programs.{bytes_of, text_of};
ghost use Rattle.isle_lsp_files.specs.Disks.{view_of};
ghost use Rattle.isle_lsp_files.specs.Documents.{document_of};
ghost use Rattle.isle_lsp_protocol.specs.Replies.{outcome_of};
ghost use Rattle.isle_lsp.specs.Alone.{Gives};
ghost use Rattle.isle_lsp.specs.Serving as serving;
ghost use Rattle.isle_lsp.specs.Serving.{AreDocumentActions, GivesActions, document_in, held_of};

use crate::server::{Server, document_in};
use isle_cli::failure::Failure;
use isle_lsp_actions::code_actions;
use isle_lsp_features::Text;
use isle_lsp_files::disk::View;
use isle_lsp_files::documents::Document;
use isle_lsp_files::texts::programs_of;
use isle_lsp_protocol::machine::ErrorCode;
use isle_lsp_protocol::replies::{Outcome, error_outcome};
use serde_json::Value;
use std::alloc::{AllocError, Global};

/// The code actions in the document that a message names, or an error if it is not open. `shown` is
/// what the disk shows for it. The only `Err` is `Memory`.
pub fn actions_outcome<'a>(
    alloc: Global,
    server: &Server,
    message: &Value,
    shown: &View,
) -> Result<Outcome<'a>, Failure>
    ensures ok { IfOk result (λ outcome. GivesActions (view message.now) (held_of server.now)
        (view_of shown.now)
        (document_in (view message.now) (map document_of server.now.documents.items))
        (outcome_of outcome)) }
    ensures err { IfErr result (λ failure. failure ≡ Memory) }
{
    match document_in(&server.documents, message) {
        Some(document) => actions_in(alloc, server, message, shown, document),
        None => Ok(error_outcome(ErrorCode::InvalidParams)),
    }
}

/// The same for this document.
fn actions_in<'a>(
    alloc: Global,
    server: &Server,
    message: &Value,
    shown: &View,
    document: &Document,
) -> Result<Outcome<'a>, Failure>
    ensures ok { IfOk result (λ outcome. Gives (AreDocumentActions (view message.now)
        (held_of server.now) (view_of shown.now) (document_of document.now))
        (outcome_of outcome)) }
    ensures err { IfErr result (λ failure. failure ≡ Memory) }
{
    let programs = programs_of(
        alloc,
        server.encoding,
        &server.documents,
        shown,
        shown.file.as_str(),
    )?;
    let texts = texts_of(alloc, &programs)?;
    let document = isle_lsp_actions::Document {
        uri: document.uri.as_str(),
        version: document.version,
        text: document.text.as_str(),
    };
    let takes_document_changes = server.takes_document_changes;
    let actions = code_actions(
        alloc,
        server.encoding,
        document,
        &texts,
        message,
        takes_document_changes,
    )?;
    Ok(Outcome::Done(actions))
}

/// The texts of programs.
fn texts_of<'a>(alloc: Global, programs: &[Vec<Text<'a>>]) -> Result<Vec<Vec<&'a str>>, AllocError>
    ensures { IfOk result (λ texts. map (λ p. map (λ t. t.now) p.items) texts.items
        ≡ serving.texts_of (map (λ p. map text_of p.items) programs.now)) }
{
    let mut texts = Vec::new(alloc);
    for program in programs {
        texts.push(texts_in(alloc, program)?)?;
    }
    Ok(texts)
}

/// The texts of a program.
fn texts_in<'a>(alloc: Global, program: &[Text<'a>]) -> Result<Vec<&'a str>, AllocError>
    ensures { IfOk result (λ texts. map (λ t. t.now) texts.items
        ≡ map bytes_of (map text_of program.now)) }
{
    let mut texts = Vec::new(alloc);
    for text in program {
        texts.push(text.text)?;
    }
    Ok(texts)
}
