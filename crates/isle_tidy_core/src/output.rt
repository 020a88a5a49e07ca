//! Output. Input that stays as it is makes a pending range of bytes, copied in large chunks.

ghost use Rattle.std.specs.Prelude.{◌≡◌, ◌≤◌, ◌++◌, [], IfOk, IsUtf8};
ghost use Rattle.std.specs.Prelude.{OnOk, drop, length, string_bytes};
ghost use Rattle.std.specs.Prelude.{true};
ghost use Rattle.isle_tidy_core.specs.Finds.{AreCanonical, Stands, part as part_of};
ghost use Rattle.isle_tidy_core.specs.Pending.{IsPending, Puts};
ghost use Rattle.isle_tidy_core.specs.Streams.{entry_text, gap_text_from, text_from};
ghost use Rattle.isle_tidy_layout.specs.Columns.{IsPrintable};
ghost use Rattle.isle_tidy_layout.specs.EntriesView.{lexeme_of};
ghost use Rattle.isle_tidy_layout.specs.Placing.{tidied};
ghost use Rattle.isle_tidy_layout.specs.Writing.{gap_text, spelling};

use crate::lexemes::part;
use crate::reader::Span;
use crate::writing::{put_final, put_gap_after, put_lexeme};
use isle_tidy_layout::columns::{are_printable, is_space_or_tab};
use isle_tidy_layout::entries::{Entry, Gap, Lexeme};
use isle_tidy_layout::placing::Kind;
use std::alloc::AllocError;

/// How many bytes may be pending, beside those of one entry.
const MOST: usize = 64 * 1024;

/// A range of the text that is next in the tidy text as it is, but is not written yet.
#[derive(Clone, Copy)]
pub struct PendingRange {
    /// The byte offset of its first byte.
    pub from: usize,
    /// The byte offset after its last byte.
    pub to: usize,
}

/// Returns `true` only if all bytes of a lexeme are printable ASCII.
#[inline(always)]
pub(crate) fn is_printable_at(text: &str, lexeme: &Lexeme, span: Span) -> bool
    requires { Stands text.now (lexeme_of lexeme.now) span.start span.end }
    ensures { result ≡ true → IsPrintable (lexeme_of lexeme.now) }
{
    match lexeme {
        Lexeme::Atom(_) | Lexeme::LineComment(_) => {
            are_printable(text.as_bytes(), span.start, span.end)
        }
        _ => false,
    }
}

/// Returns `true` only if two gaps are the same.
#[inline(always)]
fn are_same(gap: Gap, other: Gap) -> bool
    ensures { result ≡ true → gap ≡ other }
{
    match (gap, other) {
        (Gap::Beside(width), Gap::Beside(wide)) => width == wide,
        (Gap::Below(empty, column), Gap::Below(bare, far)) => empty == bare && column == far,
        _ => false,
    }
}

/// Returns `true` only if the gap before an entry is written as it is in the text. The first gap of
/// a text is never taken to be.
#[inline(always)]
fn stays(before: Kind, gap: Gap, placed: Gap) -> bool
    ensures { result ≡ true → gap_text gap ≡ gap_text_from before placed }
{
    match before {
        Kind::Start => false,
        _ => are_same(gap, placed),
    }
}

/// Returns `true` only if a lexeme stays as it is. Line comments with blanks at their ends do not.
#[inline(always)]
fn is_tidy(lexeme: &Lexeme) -> bool
    ensures { result ≡ true → tidied (lexeme_of lexeme.now) ≡ lexeme_of lexeme.now }
{
    match lexeme {
        Lexeme::LineComment(text) => {
            let bytes = text.as_bytes();
            bytes.is_empty() || !is_space_or_tab(bytes[bytes.len() - 1])
        }
        _ => true,
    }
}

/// Writes the pending bytes.
#[inline(never)]
fn put_pending(out: &mut String, text: &str, pending: PendingRange) -> Result<(), AllocError>
    requires { IsPending text.now pending }
    ensures { OnOk result (Puts text.now pending pending.to pending.to
        (string_bytes out.old) (string_bytes out.new) []) }
{
    out.push_str(part(text, pending.from, pending.to))
}

/// Writes the pending bytes, and a gap in place of the one in the text.
#[inline(never)]
fn put_other_gap(
    out: &mut String,
    text: &str,
    pending: PendingRange,
    start: usize,
    before: Kind,
    placed: Gap,
) -> Result<(), AllocError>
    requires pending { IsPending text.now pending }
    requires within { start ≤ length text.now }
    requires first { IsUtf8 (drop start text.now) }
    ensures { OnOk result (Puts text.now pending start start
        (string_bytes out.old) (string_bytes out.new) (gap_text_from before placed)) }
{
    put_pending(out, text, pending)?;
    put_gap_after(out, before, placed)
}

/// Writes the pending bytes, and a tidy lexeme in place of the one in the text.
#[inline(never)]
fn put_other_lexeme(
    out: &mut String,
    text: &str,
    pending: PendingRange,
    lexeme: &Lexeme,
    end: usize,
) -> Result<(), AllocError>
    requires pending { IsPending text.now pending }
    requires stands { Stands text.now (lexeme_of lexeme.now) pending.to end }
    ensures { OnOk result (Puts text.now pending end end
        (string_bytes out.old) (string_bytes out.new)
        (spelling (tidied (lexeme_of lexeme.now)))) }
{
    put_pending(out, text, pending)?;
    put_lexeme(out, lexeme)
}

/// Writes the gap before an entry, or adds it to the pending bytes. Returns the offset from which
/// bytes are pending now, up to the lexeme.
#[inline(always)]
fn put_gap(
    out: &mut String,
    text: &str,
    pending: PendingRange,
    entry: &Entry,
    span: Span,
    before: Kind,
    placed: Gap,
) -> Result<usize, AllocError>
    requires pending { IsPending text.now pending }
    requires canonical { span.is_canonical ≡ true
        → AreCanonical text.now pending.to span.start entry.now.gap }
    requires order { pending.to ≤ span.start }
    requires stands { Stands text.now (lexeme_of entry.now.lexeme) span.start span.end }
    requires first { IsUtf8 (drop span.start text.now) }
    ensures { IfOk result (λ now. Puts text.now pending now span.start
        (string_bytes out.old) (string_bytes out.new) (gap_text_from before placed)) }
{
    if span.is_canonical && stays(before, entry.gap, placed) {
        return Ok(pending.from);
    }
    put_other_gap(out, text, pending, span.start, before, placed)?;
    Ok(span.start)
}

/// Writes a lexeme, or adds it to the pending bytes. Returns the offset from which bytes are
/// pending now, up to its end.
#[inline(always)]
fn put_lexeme_at(
    out: &mut String,
    text: &str,
    pending: PendingRange,
    lexeme: &Lexeme,
    end: usize,
) -> Result<usize, AllocError>
    requires pending { IsPending text.now pending }
    requires stands { Stands text.now (lexeme_of lexeme.now) pending.to end }
    ensures { IfOk result (λ now. Puts text.now pending now end
        (string_bytes out.old) (string_bytes out.new)
        (spelling (tidied (lexeme_of lexeme.now)))) }
{
    if is_tidy(lexeme) {
        return Ok(pending.from);
    }
    // A copy, so that most lexemes stay in registers.
    let other = *lexeme;
    put_other_lexeme(out, text, pending, &other, end)?;
    Ok(end)
}

/// Writes the pending bytes if they are many. Returns the offset from which bytes are pending now.
#[inline(always)]
fn put_much(out: &mut String, text: &str, pending: PendingRange) -> Result<usize, AllocError>
    requires { IsPending text.now pending }
    ensures { IfOk result (λ now. Puts text.now pending now pending.to
        (string_bytes out.old) (string_bytes out.new) []) }
{
    if pending.to - pending.from <= MOST {
        return Ok(pending.from);
    }
    put_pending(out, text, pending)?;
    Ok(pending.to)
}

/// Writes an entry after one of the kind `before`, or adds it to the pending bytes. Returns the
/// offset from which bytes are pending now, up to its end.
#[inline(always)]
pub(crate) fn put_entry(
    out: &mut String,
    text: &str,
    pending: PendingRange,
    entry: &Entry,
    span: Span,
    before: Kind,
    placed: Gap,
) -> Result<usize, AllocError>
    requires pending { IsPending text.now pending }
    requires canonical { span.is_canonical ≡ true
        → AreCanonical text.now pending.to span.start entry.now.gap }
    requires order { pending.to ≤ span.start }
    requires stands { Stands text.now (lexeme_of entry.now.lexeme) span.start span.end }
    requires first { IsUtf8 (drop span.start text.now) }
    ensures { IfOk result (λ now. Puts text.now pending now span.end
        (string_bytes out.old) (string_bytes out.new)
        (entry_text before placed (tidied (lexeme_of entry.now.lexeme)))) }
{
    let from = put_gap(out, text, pending, entry, span, before, placed)?;
    let to = span.start;
    let from = put_lexeme_at(
        out,
        text,
        PendingRange { from, to },
        &entry.lexeme,
        span.end,
    )?;
    let to = span.end;
    put_much(out, text, PendingRange { from, to })
}

/// Writes the pending bytes, and the end of a text whose last entry is of the kind `before`.
pub(crate) fn put_end(
    out: &mut String,
    text: &str,
    pending: PendingRange,
    before: Kind,
) -> Result<(), AllocError>
    requires { IsPending text.now pending }
    ensures { OnOk result (string_bytes out.new
        ≡ string_bytes out.old
        ++ (part_of text.now pending.from pending.to ++ text_from before [])) }
{
    put_pending(out, text, pending)?;
    put_final(out, before)
}
