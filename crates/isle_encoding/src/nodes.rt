//! Encodes nodes that contain no other nodes: a kind, a value and a position.

ghost use Rattle.std.specs.Prelude.{◌≡◌, ◌<◌, ◌++◌, ◌∷◌, OnOk, string_bytes};
ghost use Rattle.isle_ast_names.specs.TreeView.{name_of};
ghost use Rattle.isle_encoding.specs.Names.{name, position};
ghost use Rattle.isle_encoding.specs.Numbers.{flag, integer, number};

use crate::names::{put_name, put_position};
use crate::numbers::{put_byte, put_flag, put_integer, put_number};
use isle_ast_names::Ident;
use isle_base::lexer::Pos;
use std::alloc::AllocError;

/// Appends a node with a name.
pub fn put_named(out: &mut String, kind: u8, value: &Ident, pos: Pos) -> Result<(), AllocError>
    requires { kind < 128 }
    ensures { OnOk result (string_bytes out.new
        ≡ string_bytes out.old ++ (kind ∷ name (name_of value.now) ++ position pos)) }
{
    put_byte(out, kind)?;
    put_name(out, value)?;
    put_position(out, pos)
}

/// Appends a node with a Boolean.
pub fn put_bool(out: &mut String, kind: u8, value: bool, pos: Pos) -> Result<(), AllocError>
    requires { kind < 128 }
    ensures { OnOk result (string_bytes out.new
        ≡ string_bytes out.old ++ (kind ∷ flag value ++ position pos)) }
{
    put_byte(out, kind)?;
    put_flag(out, value)?;
    put_position(out, pos)
}

/// Appends a node with an integer.
pub fn put_int(out: &mut String, kind: u8, value: i128, pos: Pos) -> Result<(), AllocError>
    requires { kind < 128 }
    ensures { OnOk result (string_bytes out.new
        ≡ string_bytes out.old ++ (kind ∷ integer value ++ position pos)) }
{
    put_byte(out, kind)?;
    put_integer(out, value)?;
    put_position(out, pos)
}

/// Appends a node with an index.
pub fn put_index(out: &mut String, kind: u8, value: usize, pos: Pos) -> Result<(), AllocError>
    requires { kind < 128 }
    ensures { OnOk result (string_bytes out.new
        ≡ string_bytes out.old ++ (kind ∷ number value ++ position pos)) }
{
    put_byte(out, kind)?;
    put_number(out, value)?;
    put_position(out, pos)
}
