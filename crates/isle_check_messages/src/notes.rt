//! What is told of other rules beside an error of a rule.

ghost use Rattle.std.specs.Prelude.{◌≡◌, ◌++◌, IfOk, OnOk, map};
ghost use Rattle.isle_check_messages.specs.Notes as told;
ghost use Rattle.isle_check_messages.specs.Notes.{left_out_note, note_of, notes_of};
ghost use Rattle.isle_check_overlaps.specs.Views.{kind_of, other_of, others_of};

use crate::overlaps::put_both;
use isle_base_source::pos::Pos;
use isle_check_overlaps::{Kind, Other};
use std::alloc::{AllocError, Global};

/// A message about another place.
#[derive(Drop)]
pub struct Note {
    /// The position that it is about.
    pub pos: Pos,
    /// The message, without a newline.
    pub message: String,
}

/// Returns what is told of other rules beside an error at a position. An `Err` means out of memory.
pub fn overlap_notes(alloc: Global, pos: Pos, kind: &Kind) -> Result<Vec<Note>, AllocError>
    ensures { IfOk result
        (λ made. notes_of made.items ≡ told.overlap_notes pos (kind_of kind.now)) }
{
    let mut notes = Vec::new(alloc);
    match kind {
        Kind::Overlaps(others, left_out) => {
            add_others(alloc, others, &mut notes)?;
            add_left_out(alloc, pos, *left_out, &mut notes)?;
        }
        Kind::Shadows(hidden, left_out) | Kind::ShadowsWithEquals(hidden, left_out) => {
            add_hidden(alloc, hidden, &mut notes)?;
            add_left_out(alloc, pos, *left_out, &mut notes)?;
        }
        Kind::TwoConstraints(..) | Kind::UnequalConstraints | Kind::PartOfItself => {}
    }
    Ok(notes)
}

/// Adds the rules that overlap with a rule.
fn add_others(alloc: Global, others: &[Other], notes: &mut Vec<Note>) -> Result<(), AllocError>
    ensures { OnOk result (notes_of notes.new.items
        ≡ notes_of notes.old.items ++ map told.other_note (others_of others.now)) }
{
    for other in others {
        notes.push(other_note(alloc, other)?)?;
    }
    Ok(())
}

fn other_note(alloc: Global, other: &Other) -> Result<Note, AllocError>
    ensures { IfOk result (λ made. note_of made ≡ told.other_note (other_of other.now)) }
{
    let mut message = String::from_str(alloc, "this rule overlaps with another one: ")?;
    put_both(&other.value, &mut message)?;
    Ok(Note {
        pos: other.pos,
        message,
    })
}

/// Adds the rules at these positions, which a rule hides.
fn add_hidden(alloc: Global, hidden: &[Pos], notes: &mut Vec<Note>) -> Result<(), AllocError>
    ensures { OnOk result (notes_of notes.new.items
        ≡ notes_of notes.old.items ++ map told.hidden_note hidden.now) }
{
    for pos in hidden {
        notes.push(hidden_note(alloc, *pos)?)?;
    }
    Ok(())
}

fn hidden_note(alloc: Global, pos: Pos) -> Result<Note, AllocError>
    ensures { IfOk result (λ made. note_of made ≡ told.hidden_note pos) }
{
    let message = String::from_str(
        alloc,
        "this rule is hidden: a more general one has a higher priority",
    )?;
    Ok(Note { pos, message })
}

/// Adds how many rules are left out, if there are any.
fn add_left_out(
    alloc: Global,
    pos: Pos,
    count: usize,
    notes: &mut Vec<Note>,
) -> Result<(), AllocError>
    ensures { OnOk result (notes_of notes.new.items
        ≡ notes_of notes.old.items ++ left_out_note pos count) }
{
    if count == 0 {
        return Ok(());
    }
    let message = format!(in alloc; "more such rules: {count}")?;
    notes.push(Note { pos, message })?;
    Ok(())
}
