//! What directly follows a number.

ghost use Rattle.std.specs.Prelude.{◌≡◌};
ghost use Rattle.isle_lsp_text.specs.Numbers.{ends_number, is_behind_number};

/// Returns whether a byte with which a number can end stands right before an offset.
pub fn is_behind_number(text: &str, offset: usize) -> bool
    ensures { result ≡ is_behind_number text.now offset }
{
    if offset == 0 {
        return false;
    }
    match text.as_bytes().get(offset - 1) {
        Some(byte) => ends_number(*byte),
        None => false,
    }
}

/// Returns whether a number can end with a byte.
fn ends_number(byte: u8) -> bool
    ensures { result ≡ ends_number byte }
{
    byte.is_ascii_alphanumeric() || byte == b'_'
}
