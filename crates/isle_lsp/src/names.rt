//! Requests about names, of which a hover also tells the type of a variable.

ghost use Rattle.std.specs.Prelude.{◌≡◌, IfErr, IfOk};
ghost use Rattle.serde_json.specs.View.{view};
ghost use Rattle.isle_cli.specs.declared.failure.Failure.TheVariants.{Memory};
ghost use Rattle.isle_lsp_files.specs.Disks.{view_of};
ghost use Rattle.isle_lsp_protocol.specs.Replies.{done, outcome_of};
ghost use Rattle.isle_lsp.specs.Serving.{IsHover, IsNamed, IsTyped, held_of};

use crate::server::Server;
use isle_cli::failure::Failure;
use isle_lsp_diagnostics::hover_with_type;
use isle_lsp_features::{Gathered, Question};
use isle_lsp_files::disk::View;
use isle_lsp_files::texts::{program_of, programs_of};
use isle_lsp_protocol::machine::Request;
use isle_lsp_protocol::parameters::{position_of, uri_of};
use isle_lsp_protocol::replies::Outcome;
use serde_json::Value;
use std::alloc::Global;

/// The outcome of a request about names. The only error is `Memory`.
pub fn name_outcome<'a>(
    alloc: Global,
    server: &'a Server,
    gathered: &mut Gathered,
    request: Request,
    message: &Value,
    shown: &'a View,
) -> Result<Outcome<'a>, Failure>
    ensures ok { IfOk result (λ outcome. IsNamed request (view message.now)
        (held_of server.now) (view_of shown.now) (outcome_of outcome)) }
    ensures err { IfErr result (λ failure. failure ≡ Memory) }
{
    let program = program_of(
        alloc,
        server.encoding,
        &server.documents,
        shown,
        uri_of(message).is_some(),
    )?;
    let question = Question {
        request,
        message,
        file: shown.file.as_str(),
        takes_document_changes: server.takes_document_changes,
    };
    isle_lsp_features::answer(alloc, gathered, &program, question)
}

/// The outcome of a hover: that of the name, with the type above it if it is a variable. The only
/// error is `Memory`.
pub fn hover_outcome<'a>(
    alloc: Global,
    server: &'a Server,
    gathered: &mut Gathered,
    message: &Value,
    shown: &'a View,
) -> Result<Outcome<'a>, Failure>
    ensures ok { IfOk result (λ outcome. IsHover (view message.now) (held_of server.now)
        (view_of shown.now) (outcome_of outcome)) }
    ensures err { IfErr result (λ failure. failure ≡ Memory) }
{
    let plain = name_outcome(alloc, server, gathered, Request::Hover, message, shown)?;
    with_type(alloc, server, message, shown, plain)
}

/// The outcome of a hover, with the type of the variable.
fn with_type<'a>(
    alloc: Global,
    server: &Server,
    message: &Value,
    shown: &View,
    plain: Outcome<'a>,
) -> Result<Outcome<'a>, Failure>
    ensures ok { IfOk result (λ outcome. IsTyped (view message.now) (held_of server.now)
        (view_of shown.now) (outcome_of plain.entry) (outcome_of outcome)) }
    ensures err { IfErr result (λ failure. failure ≡ Memory) }
{
    match plain {
        Outcome::Done(hover) => typed_hover(alloc, server, message, shown, &hover),
        Outcome::Listed(listing) => Ok(Outcome::Listed(listing)),
        Outcome::Failed(code, reason) => Ok(Outcome::Failed(code, reason)),
    }
}

/// A hover, with the type of the variable.
fn typed_hover<'a>(
    alloc: Global,
    server: &Server,
    message: &Value,
    shown: &View,
    hover: &Value,
) -> Result<Outcome<'a>, Failure>
    ensures ok { IfOk result (λ outcome. IsTyped (view message.now) (held_of server.now)
        (view_of shown.now) (done (view hover.now)) (outcome_of outcome)) }
    ensures err { IfErr result (λ failure. failure ≡ Memory) }
{
    let file = shown.file.as_str();
    let programs = programs_of(alloc, server.encoding, &server.documents, shown, file)?;
    let position = position_of(message);
    let typed = hover_with_type(alloc, &programs, file, position, hover)?;
    Ok(Outcome::Done(typed))
}
