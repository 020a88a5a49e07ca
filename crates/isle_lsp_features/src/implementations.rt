//! The locations where names are implemented.

ghost use Rattle.std.specs.Prelude.{◌≡◌, ◌++◌, IfOk, OnOk, List, filter, map};
ghost use Rattle.serde_json.specs.Data.{Data};
ghost use Rattle.isle_index.specs.Held.{all_in};
ghost use Rattle.isle_index.specs.Occurrences.{name_at};
ghost use Rattle.isle_lsp_features.specs.Answers.{list_data};
ghost use Rattle.isle_lsp_features.specs.Implemented as wanted;
ghost use Rattle.isle_lsp_features.specs.Implemented.{AreImplementations, AreImplementationsFrom};
ghost use Rattle.isle_lsp_features.specs.Implemented.{AreImplementationsIn};
ghost use Rattle.isle_lsp_features.specs.Programs.{text_of};
ghost use Rattle.isle_lsp_protocol.specs.Items.{item_data};

use crate::Text;
use crate::locations::add_locations;
use crate::places::Place;
use isle_index::{Index, Occurrence};
use isle_lsp_calls::items::is_term;
use isle_lsp_calls::ranges::has_some;
use isle_lsp_protocol::items::Item;
use isle_lsp_text::implementations::implemented;
use std::alloc::{AllocError, Global};

/// The rules, the extractor and the `extern` definitions of the term at a place, each by the name
/// in it; `None` if there is no name. Other names have no implementations.
pub fn implementations<'a>(
    alloc: Global,
    program: &[Text<'a>],
    index: &Index,
    place: Place,
) -> Result<Option<Vec<Item<'a>>>, AllocError>
    ensures { let all = all_in index.now in IfOk result (λ items. AreImplementations
        (map text_of program.now) (name_at place.entry.pos all) all (list_data items)) }
{
    match index.name_at(alloc, place.pos)? {
        Some(name) if is_term(&name) => {
            let found = index.occurrences(alloc, &name)?;
            Ok(Some(implementations_in(alloc, program, &found)?))
        }
        Some(_) => Ok(Some(Vec::new(alloc))),
        None => Ok(None),
    }
}

/// The locations of those occurrences at which the texts implement a name, text by text.
fn implementations_in<'a>(
    alloc: Global,
    program: &[Text<'a>],
    found: &[Occurrence],
) -> Result<Vec<Item<'a>>, AllocError>
    ensures { IfOk result (λ items. AreImplementationsFrom 0 (map text_of program.now)
        found.now (map item_data items.items)) }
{
    let mut items = Vec::new(alloc);
    for (number, source) in program.iter().enumerate() {
        add_implementations(alloc, number, *source, found, &mut items)?;
    }
    Ok(items)
}

/// Adds the locations of the occurrences at which the text with this number implements a name. A
/// text without an occurrence is not read.
fn add_implementations<'a>(
    alloc: Global,
    number: usize,
    source: Text<'a>,
    found: &[Occurrence],
    items: &mut Vec<Item<'a>>,
) -> Result<(), AllocError>
    ensures { OnOk result ((here : List Data)
        × AreImplementationsIn number (text_of source.entry) found.now here
        × (map item_data items.new.items ≡ map item_data items.old.items ++ here)) }
{
    if has_some(number, found) {
        let marks = implemented(alloc, source.text)?;
        let marked = implementations_of(alloc, number, &marks, found)?;
        add_locations(number, source, true, &marked, items)?;
    }
    Ok(())
}

/// The occurrences in the text with this number that are at its marks.
fn implementations_of(
    alloc: Global,
    number: usize,
    marks: &[usize],
    found: &[Occurrence],
) -> Result<Vec<Occurrence>, AllocError>
    ensures { IfOk result (λ marked. marked.items
        ≡ filter (wanted.is_implementation number marks.now) found.now) }
{
    let mut marked = Vec::new(alloc);
    for occurrence in found {
        if occurrence.pos.file == number && marks.contains(&occurrence.pos.offset) {
            marked.push(*occurrence)?;
        }
    }
    Ok(marked)
}
