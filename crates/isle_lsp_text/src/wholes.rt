//! The extent of a definition, from where its name is.

ghost use Rattle.std.specs.Prelude.{◌≡◌};
ghost use Rattle.isle_lsp_text.specs.Wholes.{part_at, whole_of};

use crate::lists::{ListSpan, list_around};

/// A part of a text.
#[derive(Clone, Copy)]
pub struct Part {
    /// The byte offset at which it begins.
    pub from: usize,
    /// The byte offset at which it ends.
    pub to: usize,
}

/// The number of lists around the list of a variant: those of the `enum` and of the type.
const VARIANT_DEPTH: usize = 2;

/// The extent of the definition whose name has `len` bytes from an offset on: the innermost list
/// around it. A variant without fields has no list of its own; its extent is its name.
pub fn whole_of(text: &str, lists: &[ListSpan], is_variant: bool, offset: usize, len: usize) -> Part
    ensures { result ≡ whole_of text.now lists.now is_variant offset len }
{
    let depth = if is_variant { VARIANT_DEPTH } else { 0 };
    match list_around(lists, depth, offset) {
        Some(list) => Part {
            from: list.from,
            to: list.to,
        },
        None => part_at(text, offset, len),
    }
}

/// The part of `len` bytes from an offset on, cut at the end of the text.
fn part_at(text: &str, offset: usize, len: usize) -> Part
    ensures { result ≡ part_at text.now offset len }
{
    let from = offset.min(text.len());
    let left = text.len() - from;
    Part {
        from,
        to: from + len.min(left),
    }
}
