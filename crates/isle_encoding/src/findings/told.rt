//! Encodes one finding.

ghost use Rattle.std.specs.Prelude.{◌≡◌, ◌++◌, OnOk, string_bytes};
ghost use Rattle.isle_encoding.specs.findings.Encoded.{finding, told_of};

use crate::findings::notes::put_notes;
use crate::names::{put_position, put_text};
use crate::numbers::put_flag;
use isle_base::lexer::Pos;
use isle_check_core::Note;
use std::alloc::AllocError;

/// What is told of a finding.
#[derive(Clone, Copy)]
pub struct Told<'a> {
    /// Whether it is an error, and not a warning.
    pub is_error: bool,
    /// The name of its kind or of its lint.
    pub name: &'a str,
    /// Its position.
    pub pos: Pos,
    /// Its message.
    pub message: &'a str,
    /// What is told of other places.
    pub notes: &'a [Note],
}

/// Appends the encoding of a finding.
pub fn put_told(out: &mut String, value: &Told) -> Result<(), AllocError>
    ensures { OnOk result
        (string_bytes out.new ≡ string_bytes out.old ++ finding (told_of value.now)) }
{
    put_flag(out, value.is_error)?;
    put_text(out, value.name)?;
    put_position(out, value.pos)?;
    put_text(out, value.message)?;
    put_notes(out, value.notes)
}
