//! The comments above a place.

ghost use Rattle.std.specs.Prelude.{◌≡◌, ◌-◌, ◌<◌, ◌≤◌, IfOk, drop, false, length, replicate};
ghost use Rattle.std.specs.Prelude.{slice_range, true};
ghost use Rattle.isle_base.specs.Bytes.{left_parenthesis};
ghost use Rattle.isle_base.specs.Skips.{opens};
ghost use Rattle.isle_lsp_text.specs.Comments.{Covers, IsCommentsStart, IsCovered, comments};
ghost use Rattle.isle_lsp_text.specs.Comments.{line_after, line_with, start_after};

use isle_base::ends::{block_comment_end, opens_at};
use isle_base::lexer::line_comment_end;
use std::alloc::{AllocError, Global};

/// The contents of a line so far.
#[derive(Clone, Copy)]
pub enum Line {
    /// Blanks alone, or nothing.
    Blank,
    /// A comment that goes on, after blanks and comments.
    Comment,
    /// Comments, and blanks after the last one.
    Commented,
    /// Anything else.
    Other,
}

/// The start of the comment lines directly above `offset`; of `offset`'s own line if there are
/// none; `offset` itself if other code precedes it on its line.
///
/// A line with a block comment is not a comment line. A line ends with LF; a line comment ends with
/// LF or CR. An offset past the end of the text means its end.
pub fn comments_start(alloc: Global, text: &str, offset: usize) -> Result<usize, AllocError>
    ensures { IfOk result (λ start. IsCommentsStart text.now offset start) }
{
    let covered = cover_block_comments(alloc, text.as_bytes())?;
    let end = offset.min(covered.len());
    Ok(start_of_comments(&covered[..end]))
}

/// Copies a text with a `(` in place of each byte of its block comments.
fn cover_block_comments(alloc: Global, text: &[u8]) -> Result<Vec<u8>, AllocError>
    ensures { IfOk result (λ covered. IsCovered text.now covered.items) }
{
    let mut covered = Vec::new(alloc);
    while covered.len() < text.len() {
        let at = covered.len();
        if opens_at(text, at) {
            covered.resize(block_end(text, at), b'(')?;
        } else {
            covered.extend_from_slice(&text[at..bare_end(text, at)])?;
        }
    }
    Ok(covered)
}

/// The offset after the block comment at `at`, or the end of the text if it is not closed.
fn block_end(text: &[u8], at: usize) -> usize
    requires at { at < length text.now }
    requires opens { opens (drop at text.now) ≡ true }
    ensures on { at < result }
    ensures within { result ≤ length text.now }
    ensures covers { Covers text.now at result (replicate (result - at) left_parenthesis) }
{
    match block_comment_end(text, at + 2) {
        Some(end) => end,
        None => text.len(),
    }
}

/// The offset after the line comment or the byte at `at`.
fn bare_end(text: &[u8], at: usize) -> usize
    requires at { at < length text.now }
    requires opens { opens (drop at text.now) ≡ false }
    ensures on { at < result }
    ensures within { result ≤ length text.now }
    ensures covers { Covers text.now at result (slice_range text.now at result) }
{
    if text[at] == b';' {
        line_comment_end(text, at + 1)
    } else {
        at + 1
    }
}

/// The start of the comment lines at the end of these bytes.
fn start_of_comments(before: &[u8]) -> usize
    ensures start { drop result before.now ≡ comments true before.now }
    ensures within { result ≤ length before.now }
{
    let mut start = 0;
    let mut line = Line::Blank;
    for (i, byte) in before.iter().enumerate() {
        start = start_after(start, line, *byte, i + 1);
        line = line_after(line, *byte);
    }
    match line {
        Line::Blank => start,
        Line::Comment | Line::Commented | Line::Other => before.len(),
    }
}

/// The start of the comment lines after a byte: past a line without a comment.
fn start_after(start: usize, line: Line, byte: u8, next: usize) -> usize
    ensures { result ≡ start_after start line byte next }
{
    match line {
        Line::Comment | Line::Commented => start,
        Line::Blank | Line::Other => { if byte == b'\n' { next } else { start } }
    }
}

/// The contents of the line after a byte.
fn line_after(line: Line, byte: u8) -> Line
    ensures { result ≡ line_after line byte }
{
    if byte == b'\n' {
        Line::Blank
    } else {
        line_with(line, byte)
    }
}

/// The contents of a line after one more byte of it.
fn line_with(line: Line, byte: u8) -> Line
    ensures { result ≡ line_with line byte }
{
    match line {
        Line::Blank | Line::Commented if byte == b';' => Line::Comment,
        Line::Blank | Line::Commented if byte == b' ' || byte == b'\t' || byte == b'\r' => line,
        Line::Comment if byte == b'\r' => Line::Commented,
        Line::Comment => Line::Comment,
        Line::Blank | Line::Commented | Line::Other => Line::Other,
    }
}
