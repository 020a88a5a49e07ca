//! The lines of a text.

ghost use Rattle.std.specs.Prelude.{◌≡◌, IfOk};
ghost use Rattle.isle_tidy_diff.specs.Edits.{lines, texts_of};

use std::alloc::{AllocError, Global};

/// The lines of a text, each with its LF, which only the last one may lack.
pub fn lines<'a>(alloc: Global, text: &'a [u8]) -> Result<Vec<&'a [u8]>, AllocError>
    ensures { IfOk result (λ made. texts_of made.items ≡ lines text.now) }
{
    let mut made = Vec::new(alloc);
    let mut begin = 0;
    for at in 0..text.len() {
        if text[at] == b'\n' {
            made.push(&text[begin..at + 1])?;
            begin = at + 1;
        }
    }
    if begin < text.len() {
        made.push(&text[begin..])?;
    }
    Ok(made)
}
