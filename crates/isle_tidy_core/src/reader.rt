//! Reading the entries of a text.

ghost use Rattle.std.specs.Prelude.{◌≡◌, ◌==◌, ◌+◌, ◌<◌, ◌≤◌, ◌^◌, IfSome, IsUtf8, drop, length};
ghost use Rattle.std.specs.List.{prefix_len};
ghost use Rattle.isle_base.specs.Skips.{is_blank};
ghost use Rattle.isle_tidy_core.specs.Finds.{FindsBlanks, FindsCanonicalBlanks, FindsCanonicalGap};
ghost use Rattle.isle_tidy_core.specs.Finds.{FindsEntry};
ghost use Rattle.isle_tidy_core.specs.Sizes.{size_of};
ghost use Rattle.isle_tidy_layout.specs.declared.entries.Gap.TheVariants.{Beside};

use crate::gaps::gap_of;
use crate::lexemes::lexeme_at;
use isle_base::lexer::blank_end;
use isle_tidy_layout::entries::{Entry, Gap};

/// A run of blanks before a lexeme. It is canonical if it has the very bytes that its gap is
/// written as.
#[derive(Clone, Copy)]
pub struct Blanks {
    /// The gap that they make.
    pub gap: Gap,
    /// The byte offset after them.
    pub end: usize,
    /// Whether they are known to be canonical.
    pub are_canonical: bool,
}

/// The place of an entry.
#[derive(Clone, Copy)]
pub struct Span {
    /// The byte offset of its lexeme.
    pub start: usize,
    /// The byte offset after its lexeme.
    pub end: usize,
    /// Whether the blanks before it are known to be canonical.
    pub is_canonical: bool,
}

/// What `step_at` found.
#[derive(Drop)]
pub enum Step<'src> {
    /// An entry, and its place.
    More(Entry<'src>, Span),
    /// The end of the text.
    End,
    /// No lexeme, so the text has no document.
    Refused,
}

/// Finds the first byte at or after `from` that is not `byte`, or the end.
#[inline(always)]
fn run_end(bytes: &[u8], from: usize, byte: u8) -> usize
    requires { from ≤ length bytes.now }
    ensures end { result ≡ from + prefix_len (λ b. b == byte) (drop from bytes.now) }
    ensures within { result ≤ length bytes.now }
{
    let mut at = from;
    while at < bytes.len() && bytes[at] == byte {
        at += 1;
    }
    at
}

/// Reads the blanks at an offset, if they are canonical: line ends, and then spaces.
#[inline(always)]
fn canonical_blanks_at(bytes: &[u8], from: usize) -> Option<Blanks>
    requires { from ≤ length bytes.now }
    ensures { IfSome result (FindsCanonicalBlanks bytes.now from) }
{
    let line = run_end(bytes, from, b'\n');
    let end = run_end(bytes, line, b' ');
    if end < bytes.len() && bytes[end] <= b' ' {
        return None;
    }
    let gap = if line == from {
        Gap::Beside(end - line)
    } else {
        Gap::Below(line - from - 1, end - line)
    };
    Some(Blanks {
        gap,
        end,
        are_canonical: true,
    })
}

/// Returns the number of spaces at an offset, if it is 0 or 1 and no other blank follows. It is so
/// before most entries.
#[inline(always)]
pub fn common_width_at(bytes: &[u8], from: usize) -> Option<usize>
    requires { from ≤ length bytes.now }
    ensures { IfSome result (λ width. (from + width < length bytes.now)
        × FindsCanonicalGap bytes.now from (Beside width) (from + width)) }
{
    if from + 1 < bytes.len() {
        if bytes[from] > b' ' {
            return Some(0);
        }
        if bytes[from] == b' ' && bytes[from + 1] > b' ' {
            return Some(1);
        }
    }
    None
}

/// Finds the first byte at or after `from` that is not a blank, or the end.
pub(crate) fn blanks_end(bytes: &[u8], from: usize) -> usize
    requires { from ≤ length bytes.now }
    ensures end { result ≡ from + prefix_len is_blank (drop from bytes.now) }
    ensures within { result ≤ length bytes.now }
{
    blank_end(bytes, from)
}

/// Reads the blanks at an offset, byte by byte.
#[inline(never)]
fn any_blanks_at(bytes: &[u8], gap: Gap, from: usize) -> Blanks
    requires within { from ≤ length bytes.now }
    requires short { length bytes.now + 1 < 2 ^ 64 }
    requires none { size_of gap ≡ 0 }
    ensures { FindsBlanks bytes.now gap from result }
{
    let end = blanks_end(bytes, from);
    Blanks {
        gap: gap_of(gap, &bytes[from..end]),
        end,
        are_canonical: false,
    }
}

/// Reads the blanks at an offset. `gap` is the gap so far: none, or the start of the text.
#[inline(always)]
fn blanks_at(bytes: &[u8], gap: Gap, from: usize) -> Blanks
    requires within { from ≤ length bytes.now }
    requires short { length bytes.now + 1 < 2 ^ 64 }
    requires none { size_of gap ≡ 0 }
    ensures { FindsBlanks bytes.now gap from result }
{
    if let Gap::Beside(_) = gap {
        if let Some(blanks) = canonical_blanks_at(bytes, from) {
            return blanks;
        }
    }
    any_blanks_at(bytes, gap, from)
}

/// Reads the next entry from an offset. `gap` is the gap so far: none, or the start of the text.
#[inline(always)]
pub fn step_at<'src>(text: &'src str, gap: Gap, from: usize) -> Step<'src>
    requires within { from ≤ length text.now }
    requires first { IsUtf8 (drop from text.now) }
    requires none { size_of gap ≡ 0 }
    ensures { FindsEntry text.now gap from result }
{
    let blanks = blanks_at(text.as_bytes(), gap, from);
    if blanks.end == text.len() {
        return Step::End;
    }
    match lexeme_at(text, blanks.end) {
        Some((lexeme, end)) => {
            let gap = blanks.gap;
            let span = Span {
                start: blanks.end,
                end,
                is_canonical: blanks.are_canonical,
            };
            Step::More(Entry { gap, lexeme }, span)
        }
        None => Step::Refused,
    }
}
