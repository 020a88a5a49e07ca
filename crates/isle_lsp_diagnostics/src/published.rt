//! The notification that publishes the diagnostics of a document.

ghost use Rattle.std.specs.Prelude.{◌≡◌, ◌++◌, ◌∷◌, IfErr, IfOk, OnOk, Some, codes, map};
ghost use Rattle.std.specs.Prelude.{option_map};
ghost use Rattle.std.specs.Prelude.{string_bytes};
ghost use Rattle.json.specs.Token.{key};
ghost use Rattle.json.specs.Tree.{json_tokens, members_tokens};
ghost use Rattle.serde_json.specs.Read.{read};
ghost use Rattle.serde_json.specs.Written.{members_outline, outline};
ghost use Rattle.isle_cli.specs.declared.failure.Failure.TheVariants.{Memory};
ghost use Rattle.isle_lsp_features.specs.Programs.{text_of};
ghost use Rattle.isle_lsp_text.specs.Positions.{IsPlace};
ghost use Rattle.isle_lsp_diagnostics.specs.Marks.{finder_of, mark_of};
ghost use Rattle.isle_lsp_diagnostics.specs.Published.{IsPublished, diagnostics_data, mark_data};
ghost use Rattle.isle_lsp_diagnostics.specs.Published.{diagnostic_data_at, parameters_data};
ghost use Rattle.isle_lsp_diagnostics.specs.Published.{publishing, version_member};
ghost use Rattle.isle_lsp_diagnostics.specs.Versions.{VersionReads};

use crate::checks::Checks;
use crate::diagnostics::{Diagnostic, Finder, diagnostics};
use isle_cli::failure::Failure;
use isle_lsp_features::Text;
use isle_lsp_protocol::writing::{into_text, put_checked, put_error, put_text, put_warning};
use isle_lsp_text::positions::{Place, PositionEncoding, Range, START, place_at};
use json::Writer;
use std::alloc::{AllocError, Global};

/// The text of the notification with the diagnostics of a document, which is this file of the
/// programs, and with its version, if that is known. Without a text there are none. The only error
/// is `Memory`.
pub fn publish_diagnostics(
    alloc: Global,
    encoding: PositionEncoding,
    checks: &mut Checks,
    uri: &str,
    version: Option<i64>,
    programs: &[Vec<Text>],
    file: &str,
    text: Option<&str>,
) -> Result<String, Failure>
    ensures ok { IfOk result (λ sent. IsPublished encoding uri.now version
        (map (λ p. map text_of p.items) programs.now) file.now
        (option_map (λ t. t.now) text.entry) (string_bytes sent)) }
    ensures err { IfErr result (λ failure. failure ≡ Memory) }
{
    match text {
        Some(text) => {
            let found = diagnostics(alloc, checks, programs, file, text)?;
            Ok(notification(alloc, encoding, uri, version, text, &found)?)
        }
        None => Ok(notification(alloc, encoding, uri, version, "", &[])?),
    }
}

/// The text of the notification with these diagnostics.
fn notification(
    alloc: Global,
    encoding: PositionEncoding,
    uri: &str,
    version: Option<i64>,
    text: &str,
    diagnostics: &[Diagnostic],
) -> Result<String, AllocError>
    ensures { IfOk result (λ sent. read (string_bytes sent) ≡ Some (publishing uri.now version
        (diagnostics_data encoding text.now (map mark_of diagnostics.now)))) }
{
    let mut out = Writer::new(Vec::new(alloc));
    put_notification(encoding, &mut out, uri, version, text, diagnostics)?;
    Ok(into_text(out))
}

fn put_notification(
    encoding: PositionEncoding,
    out: &mut Writer,
    uri: &str,
    version: Option<i64>,
    text: &str,
    diagnostics: &[Diagnostic],
) -> Result<(), AllocError>
    ensures before { out.new.before ≡ out.old.before }
    ensures tokens { OnOk result (out.new.tokens ≡ out.old.tokens
        ++ json_tokens (outline (publishing uri.now version
        (diagnostics_data encoding text.now (map mark_of diagnostics.now))))) }
    ensures reads { OnOk result (VersionReads version) }
{
    out.begin_object()?;
    put_text(out, "jsonrpc", "2.0")?;
    put_text(out, "method", "textDocument/publishDiagnostics")?;
    put_parameters(encoding, out, uri, version, text, diagnostics)?;
    out.end_object()
}

/// Writes the member `params`.
fn put_parameters(
    encoding: PositionEncoding,
    out: &mut Writer,
    uri: &str,
    version: Option<i64>,
    text: &str,
    diagnostics: &[Diagnostic],
) -> Result<(), AllocError>
    ensures before { out.new.before ≡ out.old.before }
    ensures tokens { OnOk result (out.new.tokens ≡ out.old.tokens
        ++ key (codes "params") ∷ json_tokens (outline (parameters_data uri.now version
        (diagnostics_data encoding text.now (map mark_of diagnostics.now))))) }
    ensures reads { OnOk result (VersionReads version) }
{
    out.key("params")?;
    out.begin_object()?;
    put_diagnostics(encoding, out, text, diagnostics)?;
    put_text(out, "uri", uri)?;
    end_version(out, version)
}

/// Writes the version of a document, if it is known, as the last member of an object, and ends the
/// object.
fn end_version(out: &mut Writer, version: Option<i64>) -> Result<(), AllocError>
    ensures before { out.new.before ≡ out.old.before }
    ensures tokens { OnOk result (out.new.tokens ≡ out.old.tokens
        ++ members_tokens (members_outline (version_member version))) }
    ensures reads { OnOk result (VersionReads version) }
{
    match version {
        Some(version) => end_known_version(out, version),
        None => out.end_object(),
    }
}

fn end_known_version(out: &mut Writer, version: i64) -> Result<(), AllocError>
    ensures before { out.new.before ≡ out.old.before }
    ensures tokens { OnOk result (out.new.tokens ≡ out.old.tokens
        ++ members_tokens (members_outline (version_member (Some version)))) }
    ensures reads { VersionReads (Some version) }
{
    out.key("version")?;
    out.i64(version)?;
    out.end_object()
}

/// Writes the member `diagnostics`, with each diagnostic at its range.
fn put_diagnostics(
    encoding: PositionEncoding,
    out: &mut Writer,
    text: &str,
    diagnostics: &[Diagnostic],
) -> Result<(), AllocError>
    ensures before { out.new.before ≡ out.old.before }
    ensures tokens { OnOk result (out.new.tokens ≡ out.old.tokens
        ++ key (codes "diagnostics") ∷ json_tokens (outline
        (diagnostics_data encoding text.now (map mark_of diagnostics.now)))) }
{
    out.key("diagnostics")?;
    out.begin_array()?;
    let mut place = START;
    for diagnostic in diagnostics {
        place = put_diagnostic(encoding, out, text, diagnostic, place)?;
    }
    out.end_array()
}

/// Writes a diagnostic at its range, and returns the place where the range begins.
fn put_diagnostic(
    encoding: PositionEncoding,
    out: &mut Writer,
    text: &str,
    diagnostic: &Diagnostic,
    nearby: Place,
) -> Result<Place, AllocError>
    requires { IsPlace encoding text.now nearby }
    ensures before { out.new.before ≡ out.old.before }
    ensures tokens { OnOk result (out.new.tokens ≡ out.old.tokens
        ++ json_tokens (outline (mark_data encoding text.now (mark_of diagnostic.now)))) }
    ensures place { IfOk result (IsPlace encoding text.now) }
{
    let start = place_at(encoding, text, nearby, diagnostic.start);
    let end = place_at(encoding, text, start, diagnostic.end);
    let range = Range {
        start: start.position,
        end: end.position,
    };
    put_at(out, range, diagnostic.finder, diagnostic.message.as_str())?;
    Ok(start)
}

/// Writes a diagnostic of a range, as its finder tells it.
fn put_at(out: &mut Writer, range: Range, finder: Finder, message: &str) -> Result<(), AllocError>
    ensures before { out.new.before ≡ out.old.before }
    ensures tokens { OnOk result (out.new.tokens ≡ out.old.tokens
        ++ json_tokens (outline (diagnostic_data_at range (finder_of finder) message.now))) }
{
    match finder {
        Finder::Parser => put_error(out, range, message),
        Finder::Lint(lint) => put_warning(out, range, lint.name(), message),
        Finder::Check { is_error, kind } => put_checked(out, range, is_error, kind, message),
    }
}
