//! Writing JSON token by token, so that it need not be held in memory as a value.

ghost use Rattle.std.specs.Prelude.{◌≡◌, ◌++◌, ◌∷◌, [], OnOk, Some, decimal, string_bytes};
ghost use Rattle.json.specs.Lex.{tokens};
ghost use Rattle.json.specs.Token.{key, number, string};
ghost use Rattle.json.specs.Tree.{json_tokens};
ghost use Rattle.serde_json.specs.Data.{unsigned};
ghost use Rattle.serde_json.specs.Read.{number_of};
ghost use Rattle.serde_json.specs.Written.{outline};
ghost use Rattle.isle_lsp_protocol.specs.Results.{checked_data, error_data, position_data};
ghost use Rattle.isle_lsp_protocol.specs.Results.{range_data, severity, warning_data};
ghost use Rattle.isle_lsp_protocol.specs.Written.{Reads};

use isle_lsp_text::positions::{Position, Range};
use json::Writer;
use std::alloc::AllocError;

/// Writes the diagnostic of a warning. Its code is the lint's name.
#[tactic(auto, using(crate::proofs::Tokens::appended))]
pub fn put_warning(
    out: &mut Writer,
    range: Range,
    code: &str,
    message: &str,
) -> Result<(), AllocError>
    ensures before { out.new.before ≡ out.old.before }
    ensures tokens { OnOk result (out.new.tokens ≡ out.old.tokens
        ++ json_tokens (outline (warning_data range code.now message.now))) }
{
    out.begin_object()?;
    put_text(out, "code", code)?;
    put_text(out, "message", message)?;
    put_range(out, "range", range)?;
    put_number(out, "severity", 2)?;
    put_text(out, "source", "isle")?;
    out.end_object()
}

/// Writes the diagnostic of an error.
#[tactic(auto, using(crate::proofs::Tokens::appended))]
pub fn put_error(out: &mut Writer, range: Range, message: &str) -> Result<(), AllocError>
    ensures before { out.new.before ≡ out.old.before }
    ensures tokens { OnOk result (out.new.tokens ≡ out.old.tokens
        ++ json_tokens (outline (error_data range message.now))) }
{
    out.begin_object()?;
    put_text(out, "message", message)?;
    put_range(out, "range", range)?;
    put_number(out, "severity", 1)?;
    put_text(out, "source", "isle")?;
    out.end_object()
}

/// Writes a diagnostic of the check of a program. Its code is the name of its kind.
#[tactic(auto, using(crate::proofs::Tokens::appended))]
pub fn put_checked(
    out: &mut Writer,
    range: Range,
    is_error: bool,
    kind: &str,
    message: &str,
) -> Result<(), AllocError>
    ensures before { out.new.before ≡ out.old.before }
    ensures tokens { OnOk result (out.new.tokens ≡ out.old.tokens
        ++ json_tokens (outline (checked_data range is_error kind.now message.now))) }
{
    out.begin_object()?;
    put_text(out, "code", kind)?;
    put_text(out, "message", message)?;
    put_range(out, "range", range)?;
    put_number(out, "severity", severity(is_error))?;
    put_text(out, "source", "isle-check")?;
    out.end_object()
}

/// The number of a severity.
fn severity(is_error: bool) -> usize
    ensures { result ≡ severity is_error }
{
    if is_error { 1 } else { 2 }
}

/// Writes a member whose value is a range.
#[tactic(auto, using(crate::proofs::Tokens::appended))]
pub fn put_range(out: &mut Writer, name: &str, range: Range) -> Result<(), AllocError>
    ensures before { out.new.before ≡ out.old.before }
    ensures tokens { OnOk result (out.new.tokens ≡ out.old.tokens
        ++ key name.now ∷ json_tokens (outline (range_data range))) }
    ensures reads { OnOk result (Reads (range_data range)) }
{
    out.key(name)?;
    out.begin_object()?;
    put_position(out, "end", range.end)?;
    put_position(out, "start", range.start)?;
    out.end_object()
}

/// Writes a member whose value is a position.
#[tactic(auto, using(crate::proofs::Tokens::appended))]
pub fn put_position(out: &mut Writer, name: &str, position: Position) -> Result<(), AllocError>
    ensures before { out.new.before ≡ out.old.before }
    ensures tokens { OnOk result (out.new.tokens ≡ out.old.tokens
        ++ key name.now ∷ json_tokens (outline (position_data position))) }
    ensures reads { OnOk result (Reads (position_data position)) }
{
    out.key(name)?;
    out.begin_object()?;
    put_number(out, "character", position.unit)?;
    put_number(out, "line", position.line)?;
    out.end_object()
}

/// Writes a member whose value is a number.
pub fn put_number(out: &mut Writer, name: &str, n: usize) -> Result<(), AllocError>
    ensures before { out.new.before ≡ out.old.before }
    ensures tokens { OnOk result (out.new.tokens
        ≡ out.old.tokens ++ key name.now ∷ number (decimal n) ∷ []) }
    ensures reads { number_of (decimal n) ≡ Some (unsigned n) }
{
    out.key(name)?;
    out.u64(n as u64)
}

/// Writes a member whose value is a string.
pub fn put_text(out: &mut Writer, name: &str, text: &str) -> Result<(), AllocError>
    ensures before { out.new.before ≡ out.old.before }
    ensures tokens { OnOk result (out.new.tokens
        ≡ out.old.tokens ++ key name.now ∷ string text.now ∷ []) }
{
    out.key(name)?;
    out.string(text)
}

/// The text that a writer has written. Its buffer was empty at first.
pub fn into_text(out: Writer) -> String
    requires { out.before ≡ [] }
    ensures { tokens (string_bytes result) ≡ out.tokens }
{
    match String::from_utf8(out.into_inner()) {
        Ok(text) => text,
        Err(_) => unreachable!(),
    }
}
