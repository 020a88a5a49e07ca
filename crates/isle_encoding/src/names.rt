//! Encodes texts, positions and names.

ghost use Rattle.std.specs.Prelude.{◌≡◌, ◌++◌, OnOk, string_bytes};
ghost use Rattle.isle_ast_names.specs.TreeView.{name_of, names_of, optional_name_of};
ghost use Rattle.isle_encoding.specs.Names.{name, names, position, text};
ghost use Rattle.isle_encoding.specs.Numbers.{option};

use crate::numbers::{put_flag, put_number};
use isle_ast_names::Ident;
use isle_base::lexer::Pos;
use std::alloc::AllocError;

/// Appends a text: its length in bytes, and its bytes.
pub fn put_text(out: &mut String, value: &str) -> Result<(), AllocError>
    ensures { OnOk result (string_bytes out.new ≡ string_bytes out.old ++ text value.now) }
{
    put_number(out, value.len())?;
    out.push_str(value)
}

/// Appends a position: the number of its file, and its offset.
pub fn put_position(out: &mut String, pos: Pos) -> Result<(), AllocError>
    ensures { OnOk result (string_bytes out.new ≡ string_bytes out.old ++ position pos) }
{
    put_number(out, pos.file)?;
    put_number(out, pos.offset)
}

pub fn put_name(out: &mut String, value: &Ident) -> Result<(), AllocError>
    ensures { OnOk result
        (string_bytes out.new ≡ string_bytes out.old ++ name (name_of value.now)) }
{
    put_text(out, &value.0)?;
    put_position(out, value.1)
}

pub fn put_names(out: &mut String, values: &[Ident]) -> Result<(), AllocError>
    ensures { OnOk result
        (string_bytes out.new ≡ string_bytes out.old ++ names (names_of values.now)) }
{
    put_number(out, values.len())?;
    for value in values {
        put_name(out, value)?;
    }
    Ok(())
}

/// Appends a name, or the mark that there is none.
pub fn put_optional_name(out: &mut String, value: &Option<Ident>) -> Result<(), AllocError>
    ensures { OnOk result (string_bytes out.new
        ≡ string_bytes out.old ++ option name (optional_name_of value.now)) }
{
    put_flag(out, value.is_some())?;
    match value {
        Some(value) => put_name(out, value),
        None => Ok(()),
    }
}
