//! The hunks of a unified diff: changes that are near each other, with the lines around them.

ghost use Rattle.std.specs.Prelude.{◌≡◌, ◌+◌, ◌-◌, ◌^◌, ◌<◌, ◌==◌, ◌++◌, IfOk};
ghost use Rattle.std.specs.Prelude.{OnOk, length, slice_index, string_bytes};
ghost use Rattle.isle_tidy_diff.specs.Edits.{edit_of, edits_of, new_lines, old_lines};
ghost use Rattle.isle_tidy_diff.specs.Unified.{first_place, has_change, header, hunk, in_new};
ghost use Rattle.isle_tidy_diff.specs.Unified.{in_old, is_change, is_shown, left_behind};
ghost use Rattle.isle_tidy_diff.specs.Unified.{next_place, range, row, rows, shown, sign};

use crate::edits::{Change, Edit};
use std::alloc::{AllocError, Global};

/// How many lines are shown in front of a change and behind it.
const CONTEXT: usize = 3;

/// A place between two edits.
#[derive(Clone, Copy)]
struct Place {
    /// Whether the edit in front of it is shown.
    is_inside: bool,
    /// How many more lines are shown behind the last change.
    behind: usize,
    /// The number of lines of the old text in front of it.
    old: usize,
    /// The number of lines of the new text in front of it.
    new: usize,
}

/// How many lines of the old text a hunk has, and how many of the new one.
#[derive(Clone, Copy)]
struct Size {
    old: usize,
    new: usize,
}

/// Adds the hunks of edits to a diff.
pub fn push_hunks(alloc: Global, edits: &[Edit<'_>], diff: &mut Vec<u8>) -> Result<(), AllocError>
    ensures { OnOk result (diff.new.items
        ≡ diff.old.items ++ rows first_place (edits_of edits.now)) }
{
    let mut place = Place {
        is_inside: false,
        behind: 0,
        old: 0,
        new: 0,
    };
    for at in 0..edits.len() {
        let rest = &edits[at..];
        push_shown(alloc, place, rest, diff)?;
        place = next_place(place, rest);
    }
    Ok(())
}

/// Adds the first one of some edits, if it is shown. In front of a hunk comes its header.
fn push_shown(
    alloc: Global,
    place: Place,
    rest: &[Edit<'_>],
    diff: &mut Vec<u8>,
) -> Result<(), AllocError>
    requires some { 0 < length rest.now }
    requires old { place.old + 1 < 2 ^ 64 }
    requires new { place.new + 1 < 2 ^ 64 }
    ensures { OnOk result (diff.new.items ≡ diff.old.items ++ shown place (edits_of rest.now)) }
{
    if !is_shown(place.behind, rest) {
        return Ok(());
    }
    if place.is_inside {
        return push_row(diff, &rest[0]);
    }
    push_header(alloc, place, rest, diff)?;
    push_row(diff, &rest[0])
}

/// The place behind the first one of some edits.
fn next_place(place: Place, rest: &[Edit<'_>]) -> Place
    requires some { 0 < length rest.now }
    requires old { place.old + 1 < 2 ^ 64 }
    requires new { place.new + 1 < 2 ^ 64 }
    ensures { result ≡ next_place place (edits_of rest.now) }
{
    let change = rest[0].change;
    Place {
        is_inside: is_shown(place.behind, rest),
        behind: left_behind(place.behind, change),
        old: place.old + in_old(change),
        new: place.new + in_new(change),
    }
}

/// Returns whether the first one of some edits is shown: it is a change, or near one.
fn is_shown(behind: usize, rest: &[Edit<'_>]) -> bool
    ensures { result ≡ is_shown behind (edits_of rest.now) }
{
    behind > 0 || has_change(&rest[..rest.len().min(CONTEXT + 1)])
}

fn has_change(edits: &[Edit<'_>]) -> bool
    ensures { result ≡ has_change (edits_of edits.now) }
{
    for edit in edits {
        if is_change(edit.change) {
            return true;
        }
    }
    false
}

fn is_change(change: Change) -> bool
    ensures { result ≡ is_change change }
{
    match change {
        Change::Kept => false,
        Change::Removed => true,
        Change::Added => true,
    }
}

/// How many more lines are shown behind an edit, where so many were to be shown in front of it.
fn left_behind(behind: usize, change: Change) -> usize
    ensures { result ≡ left_behind behind change }
{
    match change {
        Change::Kept => behind.saturating_sub(1),
        Change::Removed => CONTEXT,
        Change::Added => CONTEXT,
    }
}

/// How many lines of the old text an edit has.
fn in_old(change: Change) -> usize
    ensures { result ≡ in_old change }
{
    match change {
        Change::Kept => 1,
        Change::Removed => 1,
        Change::Added => 0,
    }
}

/// How many lines of the new text an edit has.
fn in_new(change: Change) -> usize
    ensures { result ≡ in_new change }
{
    match change {
        Change::Kept => 1,
        Change::Removed => 0,
        Change::Added => 1,
    }
}

/// Adds the header of the hunk that begins with some edits.
fn push_header(
    alloc: Global,
    place: Place,
    rest: &[Edit<'_>],
    diff: &mut Vec<u8>,
) -> Result<(), AllocError>
    requires old { place.old + 1 < 2 ^ 64 }
    requires new { place.new + 1 < 2 ^ 64 }
    ensures { OnOk result (diff.new.items ≡ diff.old.items ++ header place (edits_of rest.now)) }
{
    let size = hunk_size(place.behind, rest);
    let old = range(alloc, place.old, size.old)?;
    let new = range(alloc, place.new, size.new)?;
    let header = format!(in alloc; "@@ -{old} +{new} @@\n")?;
    diff.extend_from_slice(header.as_bytes())?;
    Ok(())
}

/// The size of the hunk that begins with some edits: it goes on as long as edits are shown.
fn hunk_size(behind: usize, rest: &[Edit<'_>]) -> Size
    ensures old { result.old ≡ length (old_lines (hunk behind (edits_of rest.now))) }
    ensures new { result.new ≡ length (new_lines (hunk behind (edits_of rest.now))) }
{
    let mut size = Size { old: 0, new: 0 };
    let mut left = behind;
    for at in 0..rest.len() {
        if !is_shown(left, &rest[at..]) {
            return size;
        }
        let change = rest[at].change;
        left = left_behind(left, change);
        size = Size {
            old: size.old + in_old(change),
            new: size.new + in_new(change),
        };
    }
    size
}

/// The lines of a hunk in one of the texts: the number of the first one, and how many they are if
/// they aren't one. Without a line the number is that of the line in front of the hunk.
fn range(alloc: Global, before: usize, count: usize) -> Result<String, AllocError>
    requires { before + 1 < 2 ^ 64 }
    ensures { IfOk result (λ text. string_bytes text ≡ range before count) }
{
    if count == 0 {
        return format!(in alloc; "{before},{count}");
    }
    let first = before + 1;
    if count == 1 {
        return format!(in alloc; "{first}");
    }
    format!(in alloc; "{first},{count}")
}

/// Adds an edit to a diff.
fn push_row(diff: &mut Vec<u8>, edit: &Edit<'_>) -> Result<(), AllocError>
    ensures { OnOk result (diff.new.items ≡ diff.old.items ++ row (edit_of edit.now)) }
{
    diff.push(sign(edit.change))?;
    diff.extend_from_slice(edit.line)?;
    if !is_whole(edit.line) {
        diff.extend_from_slice(b"\n\\ No newline at end of file\n")?;
    }
    Ok(())
}

/// What stands in front of a line.
fn sign(change: Change) -> u8
    ensures { result ≡ sign change }
{
    match change {
        Change::Kept => b' ',
        Change::Removed => b'-',
        Change::Added => b'+',
    }
}

/// Returns whether a line ends with LF.
fn is_whole(line: &[u8]) -> bool
    ensures { result ≡ (slice_index line.now (length line.now - 1) == 10) }
{
    !line.is_empty() && line[line.len() - 1] == b'\n'
}
