//! The line ends of a text, and the byte order mark before it.

ghost use Rattle.std.specs.Prelude.{◌≡◌, ◌<◌, ◌≤◌, ◌++◌, IsUtf8, OnOk, drop, false, length};
ghost use Rattle.std.specs.Prelude.{string_bytes, true};
ghost use Rattle.std.specs.List.{list_all};
ghost use Rattle.isle_base.specs.Skips.{begins_with, in_line};
ghost use Rattle.isle_tidy_core.specs.Ends.{end_bytes, is_feed, is_no_return};
ghost use Rattle.isle_tidy_core.specs.Ends.{line_end_of, mark_size, with_ends};

use crate::lexemes::part;
use isle_base::lexer::line_comment_end;
use std::alloc::AllocError;

/// What ends a line.
#[derive(Clone, Copy)]
pub enum LineEnd {
    /// LF.
    Lf,
    /// CR and LF.
    CrLf,
}

/// Returns whether a text has a CR. The loop has no other end than that of the text, so that many
/// bytes are compared at once.
pub(crate) fn has_return(bytes: &[u8]) -> bool
    ensures { result ≡ false → list_all is_no_return bytes.now ≡ true }
{
    let mut found = false;
    let mut at = 0;
    while at < bytes.len() {
        found = found | (bytes[at] == b'\r');
        at += 1;
    }
    found
}

/// Returns whether a LF is at an offset.
#[inline(always)]
fn is_feed_at(bytes: &[u8], at: usize) -> bool
    requires { at ≤ length bytes.now }
    ensures { result ≡ begins_with is_feed (drop at bytes.now) }
{
    at < bytes.len() && bytes[at] == b'\n'
}

/// Returns the line end of a text, which its first LF decides.
pub(crate) fn line_end_of(bytes: &[u8]) -> LineEnd
    ensures { result ≡ line_end_of bytes.now }
{
    let mut at = 0;
    while at < bytes.len() {
        if bytes[at] == b'\n' {
            return LineEnd::Lf;
        }
        if bytes[at] == b'\r' && is_feed_at(bytes, at + 1) {
            return LineEnd::CrLf;
        }
        at += 1;
    }
    LineEnd::Lf
}

/// Returns the byte offset after the LF or CR at an offset, and after the LF behind that CR.
fn line_end_after(bytes: &[u8], at: usize) -> usize
    requires within { at < length bytes.now }
    requires ends { begins_with in_line (drop at bytes.now) ≡ false }
    ensures ended { (line_end : LineEnd) → with_ends line_end (drop at bytes.now)
        ≡ end_bytes line_end ++ with_ends line_end (drop result bytes.now) }
    ensures further { at < result }
    ensures last { result ≤ length bytes.now }
    ensures utf8 { IsUtf8 (drop at bytes.now) → IsUtf8 (drop result bytes.now) }
{
    if bytes[at] == b'\r' && is_feed_at(bytes, at + 1) {
        at + 2
    } else {
        at + 1
    }
}

/// Appends a line end.
fn put_line_end(out: &mut String, line_end: LineEnd) -> Result<(), AllocError>
    ensures { OnOk result (string_bytes out.new ≡ string_bytes out.old ++ end_bytes line_end) }
{
    match line_end {
        LineEnd::Lf => out.push_str("\n"),
        LineEnd::CrLf => out.push_str("\r\n"),
    }
}

/// Appends a text with another line end in the place of each of its own.
pub(crate) fn put_with_ends(
    out: &mut String,
    text: &str,
    line_end: LineEnd,
) -> Result<(), AllocError>
    ensures { OnOk result (string_bytes out.new
        ≡ string_bytes out.old ++ with_ends line_end text.now) }
{
    let mut at = 0;
    loop {
        let stop = line_comment_end(text.as_bytes(), at);
        out.push_str(part(text, at, stop))?;
        if stop == text.len() {
            return Ok(());
        }
        put_line_end(out, line_end)?;
        at = line_end_after(text.as_bytes(), stop);
    }
}

/// Returns the size of the byte order mark of a text, if it stands apart from what follows it: the
/// text ends there, or goes on with `(` or `;`. Otherwise returns 0.
pub(crate) fn mark_size(bytes: &[u8]) -> usize
    ensures { result ≡ mark_size bytes.now }
{
    if bytes.len() < 3 || bytes[0] != 0xef || bytes[1] != 0xbb || bytes[2] != 0xbf {
        return 0;
    }
    if bytes.len() == 3 || bytes[3] == b'(' || bytes[3] == b';' {
        3
    } else {
        0
    }
}
