//! The edits that turn one text into another, one for each run of changed lines.

ghost use Rattle.std.specs.Prelude.{◌≡◌, ◌≢◌, ◌<◌, ◌≤◌, ◌++◌, [], IfOk, OnOk, ℕ, drop, length};
ghost use Rattle.std.specs.Prelude.{true, false};
ghost use Rattle.isle_lsp_text.specs.Edits.{AreEdits, IsCut, IsLineStart, applied, changed_only};
ghost use Rattle.isle_lsp_text.specs.Edits.{first_line, part};

use std::alloc::{AllocError, Global};

/// An edit: a part of the new text replaces a part of the old one. Offsets count bytes.
#[derive(Clone, Copy)]
pub struct Edit {
    /// The start of the part of the old text.
    pub start: usize,
    /// The end of the part of the old text.
    pub end: usize,
    /// The start of the part of the new text.
    pub from: usize,
    /// The end of the part of the new text.
    pub to: usize,
}

/// The edits that turn the old text into the new one, in order: one for each run of changed lines.
///
/// Lines are compared one after another. A blank line of the old text is dropped if the new text
/// goes on with another line. So the edits are small if lines change in place or blank lines go, as
/// in formatting, and they are correct for any two texts. No edit begins or ends with lines that it
/// leaves as they are.
pub fn edits(alloc: Global, old: &str, new: &str) -> Result<Vec<Edit>, AllocError>
    ensures gives { IfOk result (λ edits. applied 0 edits.items old.now new.now ≡ new.now) }
    ensures lines { IfOk result (λ edits. AreEdits 0 edits.items old.now new.now) }
    ensures none { old.now ≡ new.now → IfOk result (λ edits. edits.items ≡ []) }
{
    if old == new {
        return Ok(Vec::new(alloc));
    }
    line_edits(alloc, old, new)
}

fn line_edits(alloc: Global, old: &str, new: &str) -> Result<Vec<Edit>, AllocError>
    ensures gives { IfOk result (λ edits. applied 0 edits.items old.now new.now ≡ new.now) }
    ensures lines { IfOk result (λ edits. AreEdits 0 edits.items old.now new.now) }
{
    let (old, new) = (old.as_bytes(), new.as_bytes());
    let mut edits = Vec::new(alloc);
    let mut edit = Edit {
        start: 0,
        end: 0,
        from: 0,
        to: 0,
    };
    while edit.end < old.len() || edit.to < new.len() {
        let end = next_line(old, edit.end);
        let to = next_line(new, edit.to);
        let old_line = &old[edit.end..end];
        let new_line = &new[edit.to..to];
        if are_equal(old_line, new_line) {
            push_changed(&mut edits, cut(old, new, edit))?;
            edit = Edit {
                start: end,
                end,
                from: to,
                to,
            };
        } else {
            edit.end = end;
            if !is_left_out(old_line, new_line) {
                edit.to = to;
            }
        }
    }
    push_changed(&mut edits, cut(old, new, edit))?;
    Ok(edits)
}

/// The offset after the line that begins at `start`. Lines end with LF here.
pub fn next_line(text: &[u8], start: usize) -> usize
    requires { start ≤ length text.now }
    ensures order { start ≤ result }
    ensures within { result ≤ length text.now }
    ensures on { start < length text.now → start < result }
    ensures line { IsLineStart text.now result }
    ensures first { part text.now start result ≡ first_line (drop start text.now) }
{
    let mut end = start;
    while end < text.len() {
        let byte = text[end];
        end += 1;
        if byte == b'\n' {
            return end;
        }
    }
    text.len()
}

/// The offset where the last line of `text[start..end]` begins.
fn last_line(text: &[u8], start: usize, end: usize) -> usize
    requires order { start < end }
    requires within { end ≤ length text.now }
    requires line { IsLineStart text.now start }
    ensures order { start ≤ result }
    ensures before { result < end }
    ensures line { IsLineStart text.now result }
    ensures last { (m : ℕ) → result < m → m < end → IsLineStart text.now m → ⊥ }
{
    let mut at = end - 1;
    while at > start && text[at - 1] != b'\n' {
        at -= 1;
    }
    at
}

/// The edit without the lines at its end that are the same in both texts.
fn cut(old: &[u8], new: &[u8], edit: Edit) -> Edit
    requires old_order { edit.start ≤ edit.end }
    requires new_order { edit.from ≤ edit.to }
    requires start { IsLineStart old.now edit.start }
    requires end { IsLineStart old.now edit.end }
    requires from { IsLineStart new.now edit.from }
    requires to { IsLineStart new.now edit.to }
    ensures { IsCut old.now new.now edit result }
{
    let mut cut = edit;
    while cut.start < cut.end && cut.from < cut.to {
        let end = last_line(old, cut.start, cut.end);
        let to = last_line(new, cut.from, cut.to);
        if !are_equal(&old[end..cut.end], &new[to..cut.to]) {
            return cut;
        }
        cut.end = end;
        cut.to = to;
    }
    cut
}

fn are_equal(old_line: &[u8], new_line: &[u8]) -> bool
    ensures equal { result ≡ true → old_line.now ≡ new_line.now }
    ensures other { result ≡ false → old_line.now ≢ new_line.now }
{
    old_line == new_line
}

/// Returns whether a line of the old text is blank and the line of the new text is not.
fn is_left_out(old_line: &[u8], new_line: &[u8]) -> bool
    ensures { result ≡ true → 0 < length old_line.now }
{
    !old_line.is_empty() && old_line.trim_ascii().is_empty() && !new_line.trim_ascii().is_empty()
}

/// Adds an edit, if it changes anything.
fn push_changed(edits: &mut Vec<Edit>, edit: Edit) -> Result<(), AllocError>
    ensures { OnOk result (edits.new.items ≡ edits.old.items ++ changed_only edit) }
{
    if edit.start < edit.end || edit.from < edit.to {
        edits.push(edit)?;
    }
    Ok(())
}

/// The part of the new text that an edit inserts.
pub fn replacement<'a>(edit: Edit, new: &'a str) -> &'a str
    requires order { edit.from ≤ edit.to }
    requires from { IsLineStart new.now edit.from }
    requires to { IsLineStart new.now edit.to }
    ensures { result.now ≡ part new.now edit.from edit.to }
{
    &new[edit.from..edit.to]
}
