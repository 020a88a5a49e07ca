//! Laws of positions, each stated as the contract of a function that does nothing.

ghost use Rattle.std.specs.Prelude.{◌≡◌, ℕ, List, length, true};
ghost use Rattle.std.specs.Str.{all_scalars, encode_utf8_all};
ghost use Rattle.isle_lsp_text.specs.Positions.{IsWhole, offset_at, position_at, units, units_of};
ghost use Rattle.isle_lsp_text.specs.declared.positions.PositionEncoding.{PositionEncoding};
ghost use Rattle.isle_lsp_text.specs.declared.positions.PositionEncoding.TheVariants.{Utf16, Utf8};

/// The offset of an offset's position is that offset, unless it is inside a character or a CR LF.
pub fn inverse()
    ensures { (enc : PositionEncoding) (text : List ℕ) (n : ℕ) → IsWhole text n
        → offset_at enc (position_at enc n text) text ≡ n }
{}

/// The units counted from bytes are those of UTF-16.
pub fn are_utf16()
    ensures { (cs : List ℕ) → all_scalars cs ≡ true
        → units Utf16 (encode_utf8_all cs) ≡ units_of cs }
{}

/// In UTF-8 the units are the bytes.
pub fn are_bytes()
    ensures { (bytes : List ℕ) → units Utf8 bytes ≡ length bytes }
{}
