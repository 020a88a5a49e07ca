//! Encodes notes, and the start of an encoding.

ghost use Rattle.std.specs.Prelude.{◌≡◌, ◌++◌, OnOk, string_bytes};
ghost use Rattle.isle_check_messages.specs.Notes.{note_of, notes_of};
ghost use Rattle.isle_encoding.specs.Numbers.{list, number};
ghost use Rattle.isle_encoding.specs.findings.Encoded.{note};
ghost use Rattle.isle_encoding.specs.findings.Encoded as encoded;

use crate::names::{put_position, put_text};
use crate::numbers::put_number;
use isle_check_core::Note;
use std::alloc::AllocError;

/// The version of the encoding.
const VERSION: usize = 1;

/// Appends the version and the number of findings, before the findings.
pub fn put_start(out: &mut String, count: usize) -> Result<(), AllocError>
    ensures { OnOk result (string_bytes out.new
        ≡ string_bytes out.old ++ number encoded.version ++ number count) }
{
    put_number(out, VERSION)?;
    put_number(out, count)
}

/// Appends the notes of a finding.
pub fn put_notes(out: &mut String, notes: &[Note]) -> Result<(), AllocError>
    ensures { OnOk result (string_bytes out.new
        ≡ string_bytes out.old ++ list note (notes_of notes.now)) }
{
    put_number(out, notes.len())?;
    for one in notes {
        put_note(out, one)?;
    }
    Ok(())
}

fn put_note(out: &mut String, value: &Note) -> Result<(), AllocError>
    ensures { OnOk result
        (string_bytes out.new ≡ string_bytes out.old ++ note (note_of value.now)) }
{
    put_position(out, value.pos)?;
    put_text(out, &value.message)
}
