//! The edits that make one text of another, line by line.

ghost use Rattle.std.specs.Prelude.{◌≡◌, ◌≤◌, ◌++◌, [], ◌∷◌, IfOk, OnOk, length, map};
ghost use Rattle.isle_tidy_diff.specs.Edits.{TellsMore, added_line, edits_of, lines, new_lines};
ghost use Rattle.isle_tidy_diff.specs.Edits.{old_lines, part, texts_of};

use crate::lines::lines;
use std::alloc::{AllocError, Global};

/// What becomes of a line.
#[derive(Clone, Copy)]
pub enum Change {
    /// It is in both texts.
    Kept,
    /// It is in the old text alone.
    Removed,
    /// It is in the new text alone.
    Added,
}

/// A line with its LF, which only the last one of a text may lack, and what becomes of it.
#[derive(Clone, Copy)]
pub struct Edit<'a> {
    pub change: Change,
    pub line: &'a [u8],
}

/// How far the lines of the new text are paired with those of the old one.
#[derive(Clone, Copy)]
struct Paired {
    /// How many of them are among the edits.
    told: usize,
    /// The index of the next one to be compared.
    next: usize,
}

/// The edits that make the new text of the old one: every line of both, in order. Removed lines
/// come before those that are added in their place.
pub fn edits<'a>(alloc: Global, old: &'a [u8], new: &'a [u8]) -> Result<Vec<Edit<'a>>, AllocError>
    ensures old { IfOk result (λ edits. old_lines (edits_of edits.items) ≡ lines old.now) }
    ensures new { IfOk result (λ edits. new_lines (edits_of edits.items) ≡ lines new.now) }
{
    let old_lines = lines(alloc, old)?;
    let new_lines = lines(alloc, new)?;
    line_edits(alloc, &old_lines, &new_lines)
}

fn line_edits<'a>(
    alloc: Global,
    old: &[&'a [u8]],
    new: &[&'a [u8]],
) -> Result<Vec<Edit<'a>>, AllocError>
    ensures old { IfOk result (λ edits. old_lines (edits_of edits.items) ≡ texts_of old.now) }
    ensures new { IfOk result (λ edits. new_lines (edits_of edits.items) ≡ texts_of new.now) }
{
    let mut edits = Vec::new(alloc);
    let mut paired = Paired { told: 0, next: 0 };
    for line in old {
        paired = push_old(&mut edits, *line, new, paired)?;
    }
    push_added(&mut edits, &new[paired.told..])?;
    Ok(edits)
}

/// Adds a line of the old text, after the lines of the new text that come before it.
fn push_old<'a>(
    edits: &mut Vec<Edit<'a>>,
    line: &'a [u8],
    new: &[&'a [u8]],
    paired: Paired,
) -> Result<Paired, AllocError>
    requires order { paired.told ≤ paired.next }
    requires within { paired.next ≤ length new.now }
    ensures order { IfOk result (λ after. after.told ≤ after.next) }
    ensures within { IfOk result (λ after. after.next ≤ length new.now) }
    ensures told { IfOk result (λ after. TellsMore (edits_of edits.old.items)
        (edits_of edits.new.items) line.now (texts_of new.now) paired.told after.told) }
{
    let Paired { told, next } = paired;
    if next < new.len() && line == new[next] {
        push_added(edits, &new[told..next])?;
        edits.push(Edit {
            change: Change::Kept,
            line,
        })?;
        return Ok(Paired {
            told: next + 1,
            next: next + 1,
        });
    }
    edits.push(Edit {
        change: Change::Removed,
        line,
    })?;
    if next < new.len() && !is_left_out(line, new[next]) {
        return Ok(Paired {
            told,
            next: next + 1,
        });
    }
    Ok(paired)
}

/// Returns whether a line of the old text is blank and the line of the new text is not.
fn is_left_out(old: &[u8], new: &[u8]) -> bool {
    old.trim_ascii().is_empty() && !new.trim_ascii().is_empty()
}

/// Adds lines of the new text.
fn push_added<'a>(edits: &mut Vec<Edit<'a>>, lines: &[&'a [u8]]) -> Result<(), AllocError>
    ensures { OnOk result (edits_of edits.new.items
        ≡ edits_of edits.old.items ++ map added_line (texts_of lines.now)) }
{
    for line in lines {
        edits.push(Edit {
            change: Change::Added,
            line: *line,
        })?;
    }
    Ok(())
}
