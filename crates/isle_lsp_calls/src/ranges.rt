//! The ranges of calls.

ghost use Rattle.std.specs.Prelude.{◌≡◌, IfOk, option_to_list};
ghost use Rattle.std.specs.List.{list_any};
ghost use Rattle.isle_lsp_calls.specs.Ranges as wanted;
ghost use Rattle.isle_lsp_calls.specs.Rulers.{IsRuler};

use crate::rulers::{Ruler, range_at};
use isle_index::Occurrence;
use isle_lsp_text::calls::{Caller, some_calls_at};
use isle_lsp_text::positions::Range;
use std::alloc::{AllocError, Global};

/// Returns whether one of these occurrences is in the text with this number.
pub fn has_some(number: usize, found: &[Occurrence]) -> bool
    ensures { result ≡ list_any (wanted.is_in number) found.now }
{
    for occurrence in found {
        if occurrence.pos.file == number {
            return true;
        }
    }
    false
}

/// The ranges of those occurrences in the text with this number at which one of these definitions
/// calls.
pub(crate) fn calls_in(
    alloc: Global,
    number: usize,
    ruler: &Ruler,
    callers: &[Caller],
    found: &[Occurrence],
) -> Result<Vec<Range>, AllocError>
    requires { IsRuler ruler.now }
    ensures { IfOk result (λ ranges. ranges.items
        ≡ wanted.calls_in ruler.now.encoding number ruler.now.text.now callers.now found.now) }
{
    let mut ranges = Vec::new(alloc);
    for occurrence in found {
        if let Some(range) = call_in(number, ruler, callers, *occurrence) {
            ranges.push(range)?;
        }
    }
    Ok(ranges)
}

/// The range of an occurrence, if it is in the text with this number, and a call there.
fn call_in(
    number: usize,
    ruler: &Ruler,
    callers: &[Caller],
    occurrence: Occurrence,
) -> Option<Range>
    requires { IsRuler ruler.now }
    ensures { option_to_list result
        ≡ wanted.call_in ruler.now.encoding number ruler.now.text.now callers.now occurrence }
{
    if occurrence.pos.file == number && some_calls_at(callers, occurrence.pos.offset) {
        Some(range_at(ruler, occurrence.pos.offset, occurrence.len))
    } else {
        None
    }
}
