//! Conversions from a tape to S-expressions that own their texts, and back. Neither adds looks.

ghost use Rattle.std.specs.Prelude.{◌≡◌, [], ◌∷◌, IfOk, OnOk};
ghost use Rattle.isle_printer_layout.specs.Pieces.{Begins, HasFirst, after_begun, begun};
ghost use Rattle.isle_printer_layout.specs.Pieces.{first_made, made_around, put_before};
ghost use Rattle.isle_printer_layout.specs.SexpView.{sexp_of, sexps_of};

use super::sexpr::SExpr;
use super::tape::{Piece, Pieces, Tape};
use std::alloc::{AllocError, Global};

/// The first S-expression, with a copy of each borrowed text.
pub fn sexpr_of(mut pieces: Pieces, alloc: Global) -> Result<SExpr, AllocError>
    requires { HasFirst pieces.0 }
    ensures { IfOk result (λ s. sexp_of s ≡ first_made pieces.entry.0) }
{
    match pieces.item() {
        Some(piece) => sexpr_at(piece, &mut pieces, alloc),
        None => unreachable!(),
    }
}

/// The S-expression that `piece` begins. It takes its other pieces.
#[cycle(sexpr_of)]
fn sexpr_at(piece: Piece, pieces: &mut Pieces, alloc: Global) -> Result<SExpr, AllocError>
    requires { Begins piece pieces.old }
    ensures made { IfOk result (λ s. sexp_of s ≡ begun piece.entry pieces.old) }
    ensures rest { OnOk result (pieces.new ≡ after_begun piece.entry pieces.old) }
{
    match piece {
        Piece::Borrowed(text) => Ok(SExpr::Atom(String::from_str(alloc, text)?)),
        Piece::Owned(text) => Ok(SExpr::Atom(text)),
        Piece::Name(name) => match pieces.item() {
            Some(inner) => {
                let inner = Box::new(alloc, sexpr_at(inner, pieces, alloc)?)?;
                Ok(SExpr::Binding(String::from_str(alloc, name)?, inner))
            }
            None => unreachable!(),
        },
        Piece::Open(_) => Ok(SExpr::List(sexprs_at(pieces, alloc)?)),
        Piece::Close => unreachable!(),
    }
}

/// The items of a list, which are the next pieces. It takes them and the end of the list.
#[cycle(sexpr_of)]
fn sexprs_at(pieces: &mut Pieces, alloc: Global) -> Result<Vec<SExpr>, AllocError>
    ensures made { IfOk result (λ ss. sexps_of ss.items ≡ pieces.old.0) }
    ensures rest { OnOk result (pieces.new ≡ made_around pieces.old.1) }
{
    let mut items = Vec::new(alloc);
    while let Some(piece) = pieces.item() {
        items.push(sexpr_at(piece, pieces, alloc)?)?;
    }
    Ok(items)
}

/// Prepends an S-expression, whose texts are borrowed.
#[cycle(put_sexpr)]
pub fn put_sexpr<'src>(sexpr: &'src SExpr, tape: &mut Tape<'src>) -> Result<(), AllocError>
    ensures { OnOk result (tape.new ≡ put_before (sexp_of sexpr.now ∷ []) tape.old) }
{
    match sexpr {
        SExpr::Atom(text) => tape.atom(text),
        SExpr::Binding(name, inner) => {
            put_sexpr(inner, tape)?;
            tape.binding(name)
        }
        SExpr::List(items) => {
            let outer = tape.close()?;
            put_sexprs(items, tape)?;
            tape.open(outer)
        }
    }
}

/// Prepends S-expressions.
#[cycle(put_sexpr)]
fn put_sexprs<'src>(sexprs: &'src Vec<SExpr>, tape: &mut Tape<'src>) -> Result<(), AllocError>
    ensures { OnOk result (tape.new ≡ put_before (sexps_of sexprs.now.items) tape.old) }
{
    for at in (0..sexprs.len()).rev() {
        put_sexpr(&sexprs[at], tape)?;
    }
    Ok(())
}
