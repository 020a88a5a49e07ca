//! Outlines of texts: what is read of a text once, for all items of its definitions.

ghost use Rattle.std.specs.Prelude.{◌≡◌, IfOk, map};
ghost use Rattle.std.specs.List.{All};
ghost use Rattle.isle_lsp_calls.specs.Outlines.{IsOutline, outlined};
ghost use Rattle.isle_lsp_calls.specs.Sources.{source_of};

use crate::Source;
use crate::rulers::{Ruler, ruler_of};
use isle_lsp_text::lists::{ListSpan, lists};
use std::alloc::{AllocError, Global};

/// A text of a program, with its lists.
#[derive(Drop)]
pub(crate) struct Outline<'a> {
    /// Its URI, as the client spells it.
    pub uri: &'a str,
    /// The ruler of the text.
    pub ruler: Ruler<'a>,
    /// Its lists.
    pub lists: Vec<ListSpan>,
}

/// The outlines of the texts of a program.
pub(crate) fn outlines<'a>(
    alloc: Global,
    program: &[Source<'a>],
) -> Result<Vec<Outline<'a>>, AllocError>
    ensures outlines { IfOk result (λ outlines. All IsOutline outlines.items) }
    ensures texts { IfOk result
        (λ outlines. map outlined outlines.items ≡ map source_of program.now) }
{
    let mut outlines = Vec::new(alloc);
    for source in program {
        let outline = outline_of(alloc, *source)?;
        outlines.push(outline)?;
    }
    Ok(outlines)
}

/// The outline of a text.
pub(crate) fn outline_of<'a>(alloc: Global, source: Source<'a>) -> Result<Outline<'a>, AllocError>
    ensures outline { IfOk result (λ outline. IsOutline outline) }
    ensures text { IfOk result (λ outline. outlined outline ≡ source_of source.entry) }
{
    let uri = source.uri;
    let ruler = ruler_of(alloc, source.encoding, source.text)?;
    let lists = lists(alloc, source.text)?;
    Ok(Outline { uri, ruler, lists })
}
