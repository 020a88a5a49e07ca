//! The lines of a text, as the protocol counts them, and which of them are comments.

ghost use Rattle.std.specs.Prelude.{◌≡◌, ◌≤◌, IfOk, length};
ghost use Rattle.isle_lsp_text.specs.Positions.{ends_line};
ghost use Rattle.isle_lsp_ranges.specs.Foldings as wanted;

use std::alloc::{AllocError, Global};

/// The byte offsets at which the lines of a text begin after the first one.
pub fn breaks(alloc: Global, text: &[u8]) -> Result<Vec<usize>, AllocError>
    ensures { IfOk result (λ found. found.items ≡ wanted.breaks text.now) }
{
    let mut found = Vec::new(alloc);
    for (i, byte) in text.iter().enumerate() {
        if ends_line(*byte, &text[i + 1..]) {
            found.push(i + 1)?;
        }
    }
    Ok(found)
}

/// Returns whether a line ends after this byte, if these follow it.
fn ends_line(byte: u8, rest: &[u8]) -> bool
    ensures { result ≡ ends_line byte rest.now }
{
    byte == b'\n' || (byte == b'\r' && (rest.is_empty() || rest[0] != b'\n'))
}

/// The line of a byte offset. An offset past the end of the text is on the last line.
pub fn line_in(text: &[u8], breaks: &[usize], offset: usize) -> usize
    requires { breaks.now ≡ wanted.breaks text.now }
    ensures line { result ≡ wanted.line_in breaks.now offset }
    ensures within { result ≤ length breaks.now }
{
    breaks.partition_point(|&start| start <= offset)
}

/// For each line of a text whether it is a comment.
pub fn comments(alloc: Global, text: &[u8], breaks: &[usize]) -> Result<Vec<bool>, AllocError>
    requires { breaks.now ≡ wanted.breaks text.now }
    ensures { IfOk result (λ found. found.items ≡ wanted.comments text.now) }
{
    let mut found = Vec::new(alloc);
    found.push(is_comment(text))?;
    for start in breaks {
        found.push(is_comment(&text[*start..]))?;
    }
    Ok(found)
}

/// Returns whether a line that begins with these bytes is a comment: its first byte that is neither
/// a space nor a tab is a `;`.
fn is_comment(bytes: &[u8]) -> bool
    ensures { result ≡ wanted.is_comment bytes.now }
{
    for byte in bytes {
        if *byte != b' ' && *byte != b'\t' {
            return *byte == b';';
        }
    }
    false
}
