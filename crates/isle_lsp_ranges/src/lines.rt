//! The formatting of a part of a text, line by line.

ghost use Rattle.std.specs.Prelude.{◌≡◌, ◌≢◌, ◌⊎◌, ◌<◌, ◌≤◌, ◌++◌, ◌∷◌, [], IfOk, OnOk, ℕ};
ghost use Rattle.std.specs.Prelude.{false, filter, length, slice_index_or, true};
ghost use Rattle.serde_json.specs.Data.{depth};
ghost use Rattle.serde_json.specs.View.{view};
ghost use Rattle.isle_lsp_text.specs.Edits.{IsEdit, IsLineStart, part};
ghost use Rattle.isle_lsp_text.specs.Positions.{IsPlace};
ghost use Rattle.isle_lsp_text.specs.declared.edits.Edit as texts;
ghost use Rattle.isle_lsp_ranges.specs.LineEdits.{AreEditsWithin, IsPair, IsRangeFormatting};
ghost use Rattle.isle_lsp_ranges.specs.LineEdits.{edit_data, edits_data, is_within, lines_end};

use isle_lsp_protocol::results::text_edit;
use isle_lsp_text::edits::{Edit, next_line, replacement};
use isle_lsp_text::positions::{
    Place, Position, PositionEncoding, Range, START, offset_of, place_at,
};
use serde_json::Value;
use std::alloc::{AllocError, Global};

/// The edits that format the lines of a range, as an array of the protocol's `TextEdit`, where the
/// old text as a whole would become the new one.
///
/// A range that ends at the start of a line has nothing of that line, unless it begins there.
pub fn range_formatting(
    alloc: Global,
    encoding: PositionEncoding,
    old: &str,
    new: &str,
    range: Range,
) -> Result<Value, AllocError>
    ensures edits { IfOk result
        (λ value. IsRangeFormatting encoding old.now new.now range (view value)) }
    ensures shallow { IfOk result (λ value. depth (view value) ≤ 120) }
{
    let from = offset_of(
        encoding,
        old,
        Position {
            line: range.start.line,
            unit: 0,
        },
    );
    let to = lines_end(encoding, old, range);
    let edits = line_edits_within(alloc, old, new, from, to)?;
    edits_value(alloc, encoding, old, new, &edits)
}

/// The byte offset after the lines of a range, and after the end of the last one.
fn lines_end(encoding: PositionEncoding, text: &str, range: Range) -> usize
    ensures { result ≡ lines_end encoding text.now range }
{
    if range.end.unit == 0 && range.start.line < range.end.line {
        return offset_of(encoding, text, range.end);
    }
    // Each line but the last one has a byte at least, so the next line is past the last one.
    if range.end.line >= text.len() {
        return text.len();
    }
    let line = range.end.line + 1;
    offset_of(encoding, text, Position { line, unit: 0 })
}

/// The edits within a part of the old text, of edits that turn the whole text into the new one line
/// by line. The part is given by the byte offsets of its ends.
///
/// A line of the old text is replaced by the fewest lines of the new one that have as many bytes
/// besides white space, and a blank line by a blank one, or by nothing. So where the texts differ
/// in white space alone, one edit can be made without the others. What is left of the new text at
/// the end goes into one edit. An edit that is not wholly within the part is left out.
///
/// Lines end with LF here: a line of the protocol that ends with a CR alone is part of one.
pub fn line_edits_within(
    alloc: Global,
    old: &str,
    new: &str,
    from: usize,
    to: usize,
) -> Result<Vec<Edit>, AllocError>
    ensures { IfOk result (λ edits. AreEditsWithin old.now new.now from to edits.items) }
{
    let (old, new) = (old.as_bytes(), new.as_bytes());
    let mut edits = Vec::new(alloc);
    let mut edit = Edit {
        start: 0,
        end: 0,
        from: 0,
        to: 0,
    };
    while edit.end < old.len() || edit.to < new.len() {
        edit = next_pair(old, new, edit);
        if is_changed(old, new, edit) {
            push_within(&mut edits, edit, from, to)?;
        }
    }
    Ok(edits)
}

/// Adds an edit, if it is within a part of the old text.
fn push_within(edits: &mut Vec<Edit>, edit: Edit, from: usize, to: usize) -> Result<(), AllocError>
    ensures { OnOk result (edits.new.items
        ≡ edits.old.items ++ filter (is_within from to) (edit ∷ [])) }
{
    if from <= edit.start && edit.end <= to {
        edits.push(edit)?;
    }
    Ok(())
}

/// The next line of the old text and what replaces it, after an edit. At the end of the old text it
/// is all that is left of the new one.
fn next_pair(old: &[u8], new: &[u8], before: Edit) -> Edit
    requires end { IsLineStart old.now before.end }
    requires to { IsLineStart new.now before.to }
    requires left { (before.end < length old.now) ⊎ (before.to < length new.now) }
    ensures { IsPair old.now new.now before.end before.to result }
{
    let (start, from) = (before.end, before.to);
    if start == old.len() {
        let (end, to) = (start, new.len());
        return Edit {
            start,
            end,
            from,
            to,
        };
    }
    let end = next_line(old, start);
    let next = next_line(new, from);
    let count = visible(&old[start..end]);
    let to = if count > 0 {
        lines_with(new, from, count)
    } else if visible(&new[from..next]) > 0 {
        from
    } else {
        next
    };
    Edit {
        start,
        end,
        from,
        to,
    }
}

/// The offset after the fewest lines from `start` on that have so many bytes besides white space.
fn lines_with(text: &[u8], start: usize, count: usize) -> usize
    requires { IsLineStart text.now start }
    ensures order { start ≤ result }
    ensures line { IsLineStart text.now result }
{
    let mut end = start;
    let mut left = count;
    while left > 0 && end < text.len() {
        let next = next_line(text, end);
        left = left.saturating_sub(visible(&text[end..next]));
        end = next;
    }
    end
}

/// The number of bytes besides white space.
fn visible(bytes: &[u8]) -> usize {
    bytes
        .iter()
        .filter(|byte| !byte.is_ascii_whitespace())
        .count()
}

/// Returns whether the parts of an edit differ.
fn is_changed(old: &[u8], new: &[u8], edit: Edit) -> bool
    requires old_order { edit.start ≤ edit.end }
    requires new_order { edit.from ≤ edit.to }
    requires old_within { edit.end ≤ length old.now }
    requires new_within { edit.to ≤ length new.now }
    ensures same { result ≡ false
        → part old.now edit.start edit.end ≡ part new.now edit.from edit.to }
    ensures other { result ≡ true
        → part old.now edit.start edit.end ≢ part new.now edit.from edit.to }
{
    old[edit.start..edit.end] != new[edit.from..edit.to]
}

/// Edits as JSON, each at its range of the old text, in the order of their places.
pub fn edits_value(
    alloc: Global,
    encoding: PositionEncoding,
    old: &str,
    new: &str,
    edits: &[Edit],
) -> Result<Value, AllocError>
    requires { (i : ℕ) (d : texts.Edit) → i < length edits.now
        → IsEdit old.now new.now (slice_index_or edits.now i d) }
    ensures { IfOk result (λ value. view value ≡ edits_data encoding old.now new.now edits.now) }
{
    let mut values = Vec::new(alloc);
    let mut place = START;
    for edit in edits {
        let (value, end) = edit_value(alloc, encoding, old, new, *edit, place)?;
        values.push(value)?;
        place = end;
    }
    Ok(Value::Array(values))
}

/// An edit as JSON, and the place where its range ends.
fn edit_value(
    alloc: Global,
    encoding: PositionEncoding,
    old: &str,
    new: &str,
    edit: Edit,
    nearby: Place,
) -> Result<(Value, Place), AllocError>
    requires edit { IsEdit old.now new.now edit }
    requires nearby { IsPlace encoding old.now nearby }
    ensures value { IfOk result (λ made. view made.0 ≡ edit_data encoding old.now new.now edit) }
    ensures place { IfOk result (λ made. IsPlace encoding old.now made.1) }
{
    let start = place_at(encoding, old, nearby, edit.start);
    let end = place_at(encoding, old, start, edit.end);
    let range = Range {
        start: start.position,
        end: end.position,
    };
    let value = text_edit(alloc, range, replacement(edit, new))?;
    Ok((value, end))
}
