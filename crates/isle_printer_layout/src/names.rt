//! Names, flags, words and numbers as S-expressions. Each function prepends to the tape.

ghost use Rattle.std.specs.Prelude.{◌≡◌, ◌++◌, [], ◌∷◌, OnOk};
ghost use Rattle.isle_ast_names.specs.TreeView.{name_of, names_of};
ghost use Rattle.isle_ast_names.specs.Words.{bool_word};
ghost use Rattle.isle_printer_layout.specs.NameShapes.{constant_shape, flag_shape, headed_shape};
ghost use Rattle.isle_printer_layout.specs.NameShapes.{integer_shape, name_shape, name_shapes};
ghost use Rattle.isle_printer_layout.specs.NameShapes.{number_shape};
ghost use Rattle.isle_printer_layout.specs.Pieces.{put_before};
ghost use Rattle.isle_printer_layout.specs.Sexp.{atom, list_of};

use super::tape::Tape;
use isle_ast_names::Ident;
use std::alloc::AllocError;

/// Prepends the list of some names.
pub fn names<'src>(idents: &'src [Ident], tape: &mut Tape<'src>) -> Result<(), AllocError>
    ensures { OnOk result
        (tape.new ≡ put_before (list_of (name_shapes (names_of idents.now)) ∷ []) tape.old) }
{
    let outer = tape.close()?;
    each_name(idents, tape)?;
    tape.open(outer)
}

/// Prepends the list of a name and further names.
pub fn headed_names<'src>(
    head: &'src Ident,
    idents: &'src [Ident],
    tape: &mut Tape<'src>,
) -> Result<(), AllocError>
    ensures { OnOk result (tape.new
        ≡ put_before (headed_shape (name_of head.now) (names_of idents.now) ∷ []) tape.old) }
{
    let outer = tape.close()?;
    each_name(idents, tape)?;
    name(head, tape)?;
    tape.open(outer)
}

/// Prepends a flag's word if the flag is set.
pub fn flag<'src>(word: &'src str, is_set: bool, tape: &mut Tape<'src>) -> Result<(), AllocError>
    ensures { OnOk result (tape.new ≡ put_before (flag_shape word.now is_set) tape.old) }
{
    if is_set {
        tape.atom(word)?;
    }
    Ok(())
}

/// Prepends names.
pub fn each_name<'src>(idents: &'src [Ident], tape: &mut Tape<'src>) -> Result<(), AllocError>
    ensures { OnOk result (tape.new ≡ put_before (name_shapes (names_of idents.now)) tape.old) }
{
    for at in (0..idents.len()).rev() {
        name(&idents[at], tape)?;
    }
    Ok(())
}

/// Prepends a name.
pub fn name<'src>(ident: &'src Ident, tape: &mut Tape<'src>) -> Result<(), AllocError>
    ensures { OnOk result (tape.new ≡ put_before (name_shape (name_of ident.now) ∷ []) tape.old) }
{
    tape.atom(&ident.0)
}

/// Prepends the name of a constant, with its `$`.
pub fn constant(ident: &Ident, tape: &mut Tape) -> Result<(), AllocError>
    ensures { OnOk result
        (tape.new ≡ put_before (constant_shape (name_of ident.now) ∷ []) tape.old) }
{
    joined("$", &ident.0, tape)
}

/// Prepends an atom of two texts, one after the other.
#[inline(never)]
pub fn joined(front: &str, back: &str, tape: &mut Tape) -> Result<(), AllocError>
    ensures { OnOk result (tape.new ≡ put_before (atom (front.now ++ back.now) ∷ []) tape.old) }
{
    let room = front.len().saturating_add(back.len());
    let mut text = String::with_capacity(tape.alloc(), room)?;
    text.push_str(front)?;
    text.push_str(back)?;
    tape.owned(text)
}

/// Prepends a number in decimal.
#[inline(never)]
pub fn number(value: usize, tape: &mut Tape) -> Result<(), AllocError>
    ensures { OnOk result (tape.new ≡ put_before (number_shape value ∷ []) tape.old) }
{
    tape.owned(value.to_string(tape.alloc())?)
}

/// Prepends a signed integer in decimal. `i128::MIN` is written without its sign, since a literal
/// with `-` is out of range there.
#[inline(never)]
pub fn integer(value: i128, tape: &mut Tape) -> Result<(), AllocError>
    ensures { OnOk result (tape.new ≡ put_before (integer_shape value ∷ []) tape.old) }
{
    if value == i128::MIN {
        return tape.atom("170141183460469231731687303715884105728");
    }
    tape.owned(value.to_string(tape.alloc())?)
}

/// Prepends a Boolean.
pub fn boolean(value: bool, tape: &mut Tape) -> Result<(), AllocError>
    ensures { OnOk result (tape.new ≡ put_before (atom (bool_word value) ∷ []) tape.old) }
{
    if value {
        tape.atom("true")
    } else {
        tape.atom("false")
    }
}
