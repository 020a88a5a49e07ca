//! Units of UTF-16.

ghost use Rattle.std.specs.Prelude.{◌≡◌, take};
ghost use Rattle.isle_lsp_text.specs.Positions.{units};
ghost use Rattle.isle_lsp_text.specs.declared.positions.PositionEncoding.TheVariants.{Utf16};

use isle_lsp_text::positions::utf16_count;

/// The number of UTF-16 units of the characters that begin before a byte offset of a text, line
/// ends included. An offset past the end of the text means its end.
pub fn units_before(text: &str, offset: usize) -> usize
    ensures { result ≡ units Utf16 (take offset text.now) }
{
    let bytes = text.as_bytes();
    let mut units = 0;
    for byte in &bytes[..offset.min(bytes.len())] {
        units += utf16_count(*byte);
    }
    units
}
