//! Rulers of texts, by which ranges are found without long walks.

ghost use Rattle.std.specs.Prelude.{◌≡◌, IfOk};
ghost use Rattle.std.specs.List.{All};
ghost use Rattle.isle_lsp_calls.specs.Rulers.{IsRuler};
ghost use Rattle.isle_lsp_text.specs.Positions.{IsPlace};
ghost use Rattle.isle_lsp_text.specs.Ranges as ranges;

use isle_lsp_text::positions::{Place, PositionEncoding, Range, START, place_at};
use isle_lsp_text::ranges::{range_between, range_near};
use std::alloc::{AllocError, Global};

/// How many bytes the marks of a ruler are apart.
const STEP: usize = 1024;

/// A text, with places in it that are not far apart.
#[derive(Drop)]
pub(crate) struct Ruler<'a> {
    /// How positions in the text are counted.
    pub encoding: PositionEncoding,
    /// The text.
    pub text: &'a str,
    /// The places at its start and behind every so many bytes.
    pub marks: Vec<Place>,
}

/// The ruler of a text.
pub(crate) fn ruler_of<'a>(
    alloc: Global,
    encoding: PositionEncoding,
    text: &'a str,
) -> Result<Ruler<'a>, AllocError>
    ensures ruler { IfOk result (λ ruler. IsRuler ruler) }
    ensures encoding { IfOk result (λ ruler. ruler.encoding ≡ encoding) }
    ensures text { IfOk result (λ ruler. ruler.text.now ≡ text.now) }
{
    let marks = marks(alloc, encoding, text)?;
    Ok(Ruler {
        encoding,
        text,
        marks,
    })
}

/// The places at the start of a text and behind every so many bytes.
fn marks(alloc: Global, encoding: PositionEncoding, text: &str) -> Result<Vec<Place>, AllocError>
    ensures { IfOk result (λ marks. All (IsPlace encoding text.now) marks.items) }
{
    let mut marks = Vec::new(alloc);
    let mut near = START;
    for number in 0..text.len() / STEP {
        marks.push(near)?;
        near = place_at(encoding, text, near, (number + 1).saturating_mul(STEP));
    }
    marks.push(near)?;
    Ok(marks)
}

/// The place of a text that the ruler has next before an offset.
fn mark_before(ruler: &Ruler, offset: usize) -> Place
    requires { IsRuler ruler.now }
    ensures { IsPlace ruler.now.encoding ruler.now.text.now result }
{
    match ruler.marks.get(offset / STEP) {
        Some(place) => *place,
        None => START,
    }
}

/// The range of `len` bytes of the text from an offset on, cut at the end of the text.
pub(crate) fn range_at(ruler: &Ruler, offset: usize, len: usize) -> Range
    requires { IsRuler ruler.now }
    ensures { result ≡ ranges.range_at ruler.now.encoding ruler.now.text.now offset len }
{
    let mut near = mark_before(ruler, offset);
    range_near(ruler.encoding, ruler.text, &mut near, offset, len)
}

/// The range from one offset of the text to another, cut at the end of the text.
pub(crate) fn range_from(ruler: &Ruler, from: usize, to: usize) -> Range
    requires { IsRuler ruler.now }
    ensures { result ≡ ranges.range_between ruler.now.encoding ruler.now.text.now from to }
{
    let mut near = mark_before(ruler, from);
    range_between(ruler.encoding, ruler.text, &mut near, from, to)
}
