//! The layout of S-expressions.
//!
//! Columns count the bytes written on a line, without its indentation. Each function takes the room
//! left on the line at this width, and the level of indentation. Each node is looked at once, when
//! it is written: the recorded length of a list says whether the list fits.

ghost use Rattle.std.specs.Prelude.{◌≡◌, ◌≤◌, ◌<◌, ◌+◌, ◌++◌, ◌↔◌, ℕ, IsTrue, OnOk, IfSome};
ghost use Rattle.std.specs.Prelude.{MatchOption, string_bytes, string_len};
ghost use Rattle.isle_printer_layout.specs.Flat.{flat, counted};
ghost use Rattle.isle_printer_layout.specs.Layout.{layout, layout_in, layout_broken, new_line};
ghost use Rattle.isle_printer_layout.specs.Lengths.{record_of};
ghost use Rattle.isle_printer_layout.specs.Looks.{AddsLooks, AddsOtherLooks, nodes, nodes_of_items};
ghost use Rattle.isle_printer_layout.specs.Pieces.{Begins, HasFirst, after_begun, begun};
ghost use Rattle.isle_printer_layout.specs.Pieces.{first_made, made_around};
ghost use Rattle.isle_printer_layout.specs.Sexp.{list, sexps};
ghost use Rattle.isle_printer_layout.specs.SexpView.{sexp_of};

use super::looks::Looks;
use super::sexpr::SExpr;
use super::tape::{Piece, Pieces};
use std::alloc::AllocError;

/// Appends the layout of the S-expression at a width, from the start of a line.
///
/// On success it adds one look for each node. It never adds more and never takes any away, even if
/// memory runs out.
pub fn put(
    mut pieces: Pieces,
    width: usize,
    looks: &mut Looks,
    out: &mut String,
) -> Result<(), AllocError>
    requires { HasFirst pieces.0 }
    ensures written { OnOk result (string_bytes out.new
        ≡ string_bytes out.old ++ layout width (first_made pieces.entry.0)) }
    ensures at_least { OnOk result
        (looks.old.count + nodes (first_made pieces.entry.0) ≤ looks.new.count) }
    ensures at_most { looks.new.count ≤ looks.old.count + nodes (first_made pieces.entry.0) }
    ensures none_taken { looks.old.count ≤ looks.new.count }
{
    match pieces.look(looks) {
        Some(piece) => put_node(piece, &mut pieces, width, width, 0, looks, out),
        None => unreachable!(),
    }
}

/// Appends the layout of the S-expression that `piece` begins, and takes its other pieces.
///
/// The first node has been looked at already, and each other node adds one look.
#[cycle(put)]
fn put_node(
    piece: Piece,
    pieces: &mut Pieces,
    width: usize,
    room: usize,
    level: usize,
    looks: &mut Looks,
    out: &mut String,
) -> Result<(), AllocError>
    requires nested { level ≤ string_len out.old }
    requires begins { Begins piece pieces.old }
    ensures written { OnOk result (string_bytes out.new
        ≡ string_bytes out.old ++ layout_in width (begun piece.entry pieces.old) room level) }
    ensures rest { OnOk result (pieces.new ≡ after_begun piece.entry pieces.old) }
    ensures looks { AddsOtherLooks result
        (nodes (begun piece.entry pieces.old)) looks.old.count looks.new.count }
{
    match piece {
        Piece::Borrowed(text) => {
            out.push_str(text)?;
            Ok(())
        }
        Piece::Owned(text) => {
            out.push_str(&text)?;
            Ok(())
        }
        Piece::Name(name) => {
            out.push_str(name)?;
            out.push_str(" @ ")?;
            let left = room.saturating_sub(name.len()).saturating_sub(3);
            match pieces.look(looks) {
                Some(inner) => put_node(inner, pieces, width, left, level, looks, out),
                None => unreachable!(),
            }
        }
        Piece::Open(length) => {
            if fits_in(length, room) {
                put_flat_items(pieces, looks, out)
            } else {
                put_broken(pieces, width, room, level, looks, out)
            }
        }
        Piece::Close => unreachable!(),
    }
}

/// Returns whether a recorded length is at most the room.
fn fits_in(length: Option<usize>, room: usize) -> bool
    ensures { (n : ℕ) → length ≡ record_of n → IsTrue result ↔ (n ≤ room) }
{
    match length {
        Some(length) => length <= room,
        None => false,
    }
}

/// Appends a broken list, whose items are the next pieces, and takes its pieces.
#[cycle(put)]
fn put_broken(
    pieces: &mut Pieces,
    width: usize,
    room: usize,
    level: usize,
    looks: &mut Looks,
    out: &mut String,
) -> Result<(), AllocError>
    requires { level ≤ string_len out.old }
    ensures written { OnOk result (string_bytes out.new
        ≡ string_bytes out.old ++ layout_broken width (sexps pieces.old.0) room level) }
    ensures rest { OnOk result (pieces.new ≡ made_around pieces.old.1) }
    ensures looks { AddsLooks result
        (nodes_of_items (sexps pieces.old.0)) looks.old.count looks.new.count }
{
    let Some(first) = pieces.look(looks) else {
        out.push_str("()")?;
        return Ok(());
    };
    out.push('(')?;
    let left = room.saturating_sub(1);
    put_item(first, pieces, width, left, level, looks, out)?;
    while let Some(item) = pieces.look(looks) {
        put_new_line(level + 1, out)?;
        put_item(item, pieces, width, width, level + 1, looks, out)?;
    }
    put_new_line(level, out)?;
    out.push(')')?;
    Ok(())
}

/// As `put_node`, but without a call for an atom with a text of the tree, as most items are.
#[inline(always)]
#[cycle(put)]
fn put_item(
    piece: Piece,
    pieces: &mut Pieces,
    width: usize,
    room: usize,
    level: usize,
    looks: &mut Looks,
    out: &mut String,
) -> Result<(), AllocError>
    requires nested { level ≤ string_len out.old }
    requires begins { Begins piece pieces.old }
    ensures written { OnOk result (string_bytes out.new
        ≡ string_bytes out.old ++ layout_in width (begun piece.entry pieces.old) room level) }
    ensures rest { OnOk result (pieces.new ≡ after_begun piece.entry pieces.old) }
    ensures looks { AddsOtherLooks result
        (nodes (begun piece.entry pieces.old)) looks.old.count looks.new.count }
{
    match piece {
        Piece::Borrowed(text) => {
            out.push_str(text)?;
            Ok(())
        }
        piece => put_node(piece, pieces, width, room, level, looks, out),
    }
}

/// Appends a line end and the indentation of the next line, four spaces for each level.
fn put_new_line(level: usize, out: &mut String) -> Result<(), AllocError>
    ensures { OnOk result (string_bytes out.new ≡ string_bytes out.old ++ new_line level) }
{
    out.push('\n')?;
    for _ in 0..level {
        out.push_str("    ")?;
    }
    Ok(())
}

/// Appends the S-expression that `piece` begins on one line, and takes its other pieces.
#[cycle(put_flat)]
fn put_flat(
    piece: Piece,
    pieces: &mut Pieces,
    looks: &mut Looks,
    out: &mut String,
) -> Result<(), AllocError>
    requires begins { Begins piece pieces.old }
    ensures written { OnOk result
        (string_bytes out.new ≡ string_bytes out.old ++ flat (begun piece.entry pieces.old)) }
    ensures rest { OnOk result (pieces.new ≡ after_begun piece.entry pieces.old) }
    ensures looks { AddsOtherLooks result
        (nodes (begun piece.entry pieces.old)) looks.old.count looks.new.count }
{
    match piece {
        Piece::Borrowed(text) => {
            out.push_str(text)?;
            Ok(())
        }
        Piece::Owned(text) => {
            out.push_str(&text)?;
            Ok(())
        }
        Piece::Name(name) => {
            out.push_str(name)?;
            out.push_str(" @ ")?;
            match pieces.look(looks) {
                Some(inner) => put_flat(inner, pieces, looks, out),
                None => unreachable!(),
            }
        }
        Piece::Open(_) => put_flat_items(pieces, looks, out),
        Piece::Close => unreachable!(),
    }
}

/// Appends a list, whose items are the next pieces, on one line, and takes its pieces.
#[cycle(put_flat)]
fn put_flat_items(
    pieces: &mut Pieces,
    looks: &mut Looks,
    out: &mut String,
) -> Result<(), AllocError>
    ensures written { OnOk result (string_bytes out.new
        ≡ string_bytes out.old ++ flat (list (sexps pieces.old.0))) }
    ensures rest { OnOk result (pieces.new ≡ made_around pieces.old.1) }
    ensures looks { AddsLooks result
        (nodes_of_items (sexps pieces.old.0)) looks.old.count looks.new.count }
{
    let Some(first) = pieces.look(looks) else {
        out.push_str("()")?;
        return Ok(());
    };
    out.push('(')?;
    put_flat_item(first, pieces, looks, out)?;
    while let Some(item) = pieces.look(looks) {
        out.push(' ')?;
        put_flat_item(item, pieces, looks, out)?;
    }
    out.push(')')?;
    Ok(())
}

/// As `put_flat`, but without a call for an atom with a text of the tree, as most items are.
#[inline(always)]
#[cycle(put_flat)]
fn put_flat_item(
    piece: Piece,
    pieces: &mut Pieces,
    looks: &mut Looks,
    out: &mut String,
) -> Result<(), AllocError>
    requires begins { Begins piece pieces.old }
    ensures written { OnOk result
        (string_bytes out.new ≡ string_bytes out.old ++ flat (begun piece.entry pieces.old)) }
    ensures rest { OnOk result (pieces.new ≡ after_begun piece.entry pieces.old) }
    ensures looks { AddsOtherLooks result
        (nodes (begun piece.entry pieces.old)) looks.old.count looks.new.count }
{
    match piece {
        Piece::Borrowed(text) => {
            out.push_str(text)?;
            Ok(())
        }
        piece => put_flat(piece, pieces, looks, out),
    }
}

/// Returns whether an S-expression's counted length is at most the room.
///
/// An atom counts its bytes. A binding counts the bytes of its name, 3, and the S-expression that
/// it binds. A list counts 1, and for each item the item and 1.
///
/// Each examined node adds one look. There are at least one look and at most `room` + 1. No node is
/// examined twice, and all are examined if the result is `true`. Nothing is allocated.
pub fn fits(sexpr: &SExpr, room: usize, looks: &mut Looks) -> bool
    ensures answer { IsTrue result ↔ (counted (sexp_of sexpr.now) ≤ room) }
    ensures at_most { looks.new.count ≤ looks.old.count + room + 1 }
    ensures at_least { looks.old.count + 1 ≤ looks.new.count }
    ensures once { looks.new.count ≤ looks.old.count + nodes (sexp_of sexpr.now) }
    ensures exact { IsTrue result → looks.new.count ≡ looks.old.count + nodes (sexp_of sexpr.now) }
{
    room_left(sexpr, room, looks).is_some()
}

/// The room minus the counted length, or `None` if the length is greater.
///
/// It stops when the room is used up: each look after the first takes 1 from the room.
fn room_left(sexpr: &SExpr, room: usize, looks: &mut Looks) -> Option<usize>
    ensures answer { MatchOption result
        (room < counted (sexp_of sexpr.now))
        (λ left. left + counted (sexp_of sexpr.now) ≡ room) }
    ensures at_most { MatchOption result
        (looks.new.count ≤ looks.old.count + room + 1)
        (λ left. looks.new.count + left ≤ looks.old.count + room + 1) }
    ensures at_least { looks.old.count + 1 ≤ looks.new.count }
    ensures once { looks.new.count ≤ looks.old.count + nodes (sexp_of sexpr.now) }
    ensures exact { IfSome result
        (λ left. looks.new.count ≡ looks.old.count + nodes (sexp_of sexpr.now)) }
{
    looks.look();
    match sexpr {
        SExpr::Atom(text) => room.checked_sub(text.len()),
        SExpr::Binding(name, inner) => {
            let left = room.checked_sub(name.len())?.checked_sub(3)?;
            room_left(inner, left, looks)
        }
        SExpr::List(items) => {
            let mut left = room.checked_sub(1)?;
            for item in items {
                left = room_left(item, left.checked_sub(1)?, looks)?;
            }
            Some(left)
        }
    }
}
