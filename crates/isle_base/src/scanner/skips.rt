//! The blanks and comments between the tokens of a text.

ghost use Rattle.std.specs.Prelude.{◌≡◌, ◌≤◌, ◌+◌, drop, length};
ghost use Rattle.std.specs.List.{prefix_len};
ghost use Rattle.isle_base.specs.Skips.{closes, is_blank, opens};
ghost use Rattle.isle_base.specs.Reads.{EndsComment, EndsSkip, ShowsByte};

use crate::scanner::lanes::{blank_end, line_comment_end};

pub(crate) fn byte_at(bytes: &[u8], at: usize) -> Option<u8>
    requires { at ≤ length bytes.now }
    ensures { ShowsByte bytes.now at result }
{
    if at < bytes.len() {
        Some(bytes[at])
    } else {
        None
    }
}

/// Returns whether `(;` is at an offset.
#[tactic(auto, using(crate::proofs::Places::opens_pair, crate::proofs::Places::opens_end))]
pub fn opens_at(bytes: &[u8], at: usize) -> bool
    requires { at ≤ length bytes.now }
    ensures { result ≡ opens (drop at bytes.now) }
{
    at + 1 < bytes.len() && bytes[at] == b'(' && bytes[at + 1] == b';'
}

/// Returns whether `;)` is at an offset.
#[tactic(auto, using(crate::proofs::Places::closes_pair, crate::proofs::Places::closes_end))]
fn closes_at(bytes: &[u8], at: usize) -> bool
    requires { at ≤ length bytes.now }
    ensures { result ≡ closes (drop at bytes.now) }
{
    at + 1 < bytes.len() && bytes[at] == b';' && bytes[at + 1] == b')'
}

/// The offset after the `;)` of the block comment whose inside begins at an offset.
#[inline(never)]
pub fn block_comment_end(bytes: &[u8], from: usize) -> Option<usize>
    requires { from ≤ length bytes.now }
    ensures { EndsComment bytes.now from result }
{
    let mut at = from;
    let mut depth: usize = 1;
    while depth > 0 {
        if opens_at(bytes, at) {
            at += 2;
            depth += 1;
        } else if closes_at(bytes, at) {
            at += 2;
            depth -= 1;
        } else if at < bytes.len() {
            at += 1;
        } else {
            return None;
        }
    }
    Some(at)
}

/// The end of blanks. Most blanks are single, which the byte after one shows.
#[inline(always)]
#[tactic(auto, unfolding(crate::specs::Skips::is_blank))]
fn blanks_behind(bytes: &[u8], from: usize) -> usize
    requires { from ≤ length bytes.now }
    ensures { result ≡ from + prefix_len is_blank (drop from bytes.now) }
{
    if from < bytes.len() && bytes[from] > b' ' {
        return from;
    }
    blank_end(bytes, from)
}

/// The first offset from `from` on that is in no blank and no comment, or the end of the text. The
/// error is the offset of a block comment that is never closed.
#[inline(always)]
pub(crate) fn skip_end(bytes: &[u8], from: usize) -> Result<usize, usize>
    requires { from ≤ length bytes.now }
    ensures { EndsSkip bytes.now from result }
{
    let mut at = from;
    loop {
        let Some(byte) = byte_at(bytes, at) else {
            return Ok(at);
        };
        match byte {
            b' ' | b'\t' | b'\n' | b'\r' => at = blanks_behind(bytes, at + 1),
            b';' => at = line_comment_end(bytes, at + 1),
            b'(' => {
                if !opens_at(bytes, at) {
                    return Ok(at);
                }
                let Some(end) = block_comment_end(bytes, at + 2) else {
                    return Err(at);
                };
                at = end;
            }
            _ => return Ok(at),
        }
    }
}
