//! Changes to a text.

ghost use Rattle.std.specs.Prelude.{◌≡◌, ◌≤◌, IfOk, string_bytes};
ghost use Rattle.std.specs.Str.{IsCharBoundary};
ghost use Rattle.isle_lsp_text.specs.Changes.{apply_change, splice};

use crate::positions::{PositionEncoding, Range, offset_of};
use std::alloc::{AllocError, Global};

/// Applies a change: the new text replaces the range or, if there is none, the whole text.
///
/// A range that ends before it begins is read the other way round.
pub fn apply_change(
    alloc: Global,
    encoding: PositionEncoding,
    text: &str,
    range: Option<Range>,
    new: &str,
) -> Result<String, AllocError>
    ensures { IfOk result
        (λ after. string_bytes after ≡ apply_change encoding text.now range new.now) }
{
    match range {
        Some(range) => {
            let start = offset_of(encoding, text, range.start);
            let end = offset_of(encoding, text, range.end);
            splice(alloc, text, start.min(end), start.max(end), new)
        }
        None => String::from_str(alloc, new),
    }
}

/// Replaces the part of a text between two byte offsets.
fn splice(
    alloc: Global,
    text: &str,
    start: usize,
    end: usize,
    new: &str,
) -> Result<String, AllocError>
    requires order { start ≤ end }
    requires start { IsCharBoundary text.now start }
    requires end { IsCharBoundary text.now end }
    ensures { IfOk result (λ after. string_bytes after ≡ splice text.now start end new.now) }
{
    let mut after = String::from_str(alloc, &text[..start])?;
    after.push_str(new)?;
    after.push_str(&text[end..])?;
    Ok(after)
}
