//! Ranges of a text, from the byte offsets of their ends.

ghost use Rattle.std.specs.Prelude.{◌≡◌};
ghost use Rattle.isle_lsp_text.specs.Positions.{IsPlace};
ghost use Rattle.isle_lsp_text.specs.Ranges.{range_at, range_between};

use crate::positions::{Place, PositionEncoding, Range, START, place_at};

/// The range of `len` bytes of a text from an offset on, cut at the end of the text.
pub fn range_at(encoding: PositionEncoding, text: &str, offset: usize, len: usize) -> Range
    ensures { result ≡ range_at encoding text.now offset len }
{
    let mut near = START;
    range_near(encoding, text, &mut near, offset, len)
}

/// The same range, found by a walk from a place nearby, which becomes the start of the range.
pub fn range_near(
    encoding: PositionEncoding,
    text: &str,
    near: &mut Place,
    offset: usize,
    len: usize,
) -> Range
    requires { IsPlace encoding text.now near.old }
    ensures range { result ≡ range_at encoding text.now offset len }
    ensures near { IsPlace encoding text.now near.new }
{
    let from = offset.min(text.len());
    let left = text.len() - from;
    let start = place_at(encoding, text, *near, from);
    let end = place_at(encoding, text, start, from + len.min(left));
    *near = start;
    Range {
        start: start.position,
        end: end.position,
    }
}

/// The range from one offset of a text to another, cut at the end of the text. It is found by a
/// walk from a place nearby, which becomes the start of the range.
pub fn range_between(
    encoding: PositionEncoding,
    text: &str,
    near: &mut Place,
    from: usize,
    to: usize,
) -> Range
    requires { IsPlace encoding text.now near.old }
    ensures range { result ≡ range_between encoding text.now from to }
    ensures near { IsPlace encoding text.now near.new }
{
    let start = place_at(encoding, text, *near, from);
    let end = place_at(encoding, text, start, to);
    *near = start;
    Range {
        start: start.position,
        end: end.position,
    }
}
