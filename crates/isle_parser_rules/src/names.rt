//! Names of constants, and `@`.
#![tactic(auto, unfolding(crate::specs::ConstantReaders::constant))]

ghost use Rattle.std.specs.Prelude.{◌≡◌, ◌∷◌, string_bytes, true};
ghost use Rattle.isle_base.specs.Bytes.{dollar};
ghost use Rattle.isle_base.specs.Token.{at_sign};
ghost use Rattle.isle_ast_names.specs.TreeView.{name_of};
ghost use Rattle.isle_ast_names.specs.Words.{is_constant};
ghost use Rattle.isle_parser_cursor.specs.Outcomes.{ReadsOff};
ghost use Rattle.isle_parser_cursor.specs.Reading.{expect, is_at};
ghost use Rattle.isle_parser_rules.specs.ConstantReaders.{constant};

use isle_ast_names::Ident;
use isle_parser_cursor::cursor::{Cursor, Stop, begins_constant};
use std::alloc::Global;

/// Parses the name of a constant, and drops its `$`.
pub fn parse_const(cursor: &mut Cursor, alloc: Global) -> Result<Ident, Stop>
    ensures { ReadsOff name_of constant cursor.old result cursor.new }
{
    let place = cursor.place();
    let Ident(name, pos) = cursor.parse_ident(alloc)?;
    if begins_constant(&name) {
        return Ok(Ident(behind_dollar(name), pos));
    }
    Err(cursor.refuse_at(
        place,
        String::from_str(alloc, "Not a constant identifier; must start with a '$'"),
    ))
}

/// Removes the `$`, in the memory of the whole text.
fn behind_dollar(mut text: String) -> String
    requires { is_constant (string_bytes text) ≡ true }
    ensures { string_bytes text ≡ dollar ∷ string_bytes result }
{
    text.remove(0);
    text
}

/// Takes `@`, outside of the caller's frame.
#[inline(never)]
pub(super) fn take_at(cursor: &mut Cursor, alloc: Global) -> Result<(), Stop>
    ensures { ReadsOff (λ _. at_sign) (expect is_at) cursor.old result cursor.new }
{
    cursor.expect_at(alloc)
}
