//! Names that are only partly written.

ghost use Rattle.std.specs.Prelude.{◌≡◌, ◌≤◌, drop, length, min};
ghost use Rattle.isle_lsp_text.specs.Names.{is_name_byte, name_before, name_end};

/// The part of a name right before a byte offset: the longest run of ASCII letters and digits, `_`,
/// `.`, `$` and bytes above 127 that ends there. An offset past the end of the text means its end.
pub fn name_before(text: &str, offset: usize) -> &[u8]
    ensures name { result.now ≡ name_before text.now offset }
    ensures within { length result.now ≤ min offset (length text.now) }
{
    let bytes = text.as_bytes();
    let before = &bytes[..offset.min(bytes.len())];
    &before[name_start(before)..]
}

/// The start of the part of a name at the end of these bytes.
fn name_start(before: &[u8]) -> usize
    ensures start { drop result before.now ≡ name_end before.now }
    ensures within { result ≤ length before.now }
{
    let mut start = before.len();
    while start > 0 && is_name_byte(before[start - 1]) {
        start -= 1;
    }
    start
}

/// Returns whether a byte may be part of a name.
fn is_name_byte(byte: u8) -> bool
    ensures { result ≡ is_name_byte byte }
{
    byte.is_ascii_alphanumeric() || matches!(byte, b'_' | b'.' | b'$') || !byte.is_ascii()
}
