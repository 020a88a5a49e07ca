//! The locations of names.

ghost use Rattle.std.specs.Prelude.{◌≡◌, ◌++◌, IfOk, OnOk, map, option_map, option_to_list};
ghost use Rattle.std.specs.List.{flat_map};
ghost use Rattle.isle_lsp_features.specs.Programs.{text_of};
ghost use Rattle.isle_index.specs.Occurrences.{name_at};
ghost use Rattle.isle_index.specs.Held.{all_in};
ghost use Rattle.isle_lsp_protocol.specs.Items.{item_data, items_data};
ghost use Rattle.isle_lsp_features.specs.Answers.{list_data};
ghost use Rattle.isle_lsp_features.specs.Located as wanted;
ghost use Rattle.isle_lsp_text.specs.Positions.{IsPlace};
ghost use Rattle.isle_lsp_features.specs.Located.{AreHighlights, AreReferences, IsDefinition};

use crate::Text;
use crate::places::Place;
use isle_index::{Index, Occurrence};
use isle_lsp_protocol::items::Item;
use isle_lsp_text::positions::{Place as TextPlace, START};
use isle_lsp_text::ranges::range_near;
use std::alloc::{AllocError, Global};

/// The definitions of the name at a place, or `None` if there is no name.
pub fn definition<'a>(
    alloc: Global,
    program: &[Text<'a>],
    index: &Index,
    place: Place,
) -> Result<Option<Vec<Item<'a>>>, AllocError>
    ensures { let all = all_in index.now in IfOk result (λ items. IsDefinition
        (map text_of program.now) (name_at place.entry.pos all) all (list_data items)) }
{
    match index.name_at(alloc, place.pos)? {
        Some(name) => {
            let found = index.definitions(alloc, &name)?;
            Ok(Some(locations(alloc, program, true, &found)?))
        }
        None => Ok(None),
    }
}

/// The uses of the name at a place, with its definitions if they are asked for, or `None` if there
/// is no name.
pub fn references<'a>(
    alloc: Global,
    program: &[Text<'a>],
    index: &Index,
    place: Place,
    with_definitions: bool,
) -> Result<Option<Vec<Item<'a>>>, AllocError>
    ensures { let all = all_in index.now in IfOk result (λ items.
        AreReferences (map text_of program.now) with_definitions (name_at place.entry.pos all) all
        (list_data items)) }
{
    match index.name_at(alloc, place.pos)? {
        Some(name) => {
            let found = index.occurrences(alloc, &name)?;
            Ok(Some(locations(alloc, program, with_definitions, &found)?))
        }
        None => Ok(None),
    }
}

/// The uses of the name at a place in its file, or `None` if there is no name.
pub fn highlights<'a>(
    alloc: Global,
    index: &Index,
    place: Place,
) -> Result<Option<Vec<Item<'a>>>, AllocError>
    ensures { let all = all_in index.now in IfOk result (λ items.
        AreHighlights place.entry.encoding place.entry.pos.file place.entry.text.now
        (name_at place.entry.pos all) all (list_data items)) }
{
    match index.name_at(alloc, place.pos)? {
        Some(name) => {
            let found = index.occurrences(alloc, &name)?;
            Ok(Some(highlights_in(alloc, place, &found)?))
        }
        None => Ok(None),
    }
}

/// The locations of occurrences, text by text, without definitions if they are not asked for.
fn locations<'a>(
    alloc: Global,
    program: &[Text<'a>],
    with_definitions: bool,
    found: &[Occurrence],
) -> Result<Vec<Item<'a>>, AllocError>
    ensures { IfOk result (λ items. items_data items.items
        ≡ wanted.locations (map text_of program.now) with_definitions found.now) }
{
    let mut items = Vec::new(alloc);
    for (number, source) in program.iter().enumerate() {
        add_locations(number, *source, with_definitions, found, &mut items)?;
    }
    Ok(items)
}

/// Adds the locations of the occurrences in the text with this number.
pub(crate) fn add_locations<'a>(
    number: usize,
    source: Text<'a>,
    with_definitions: bool,
    found: &[Occurrence],
    items: &mut Vec<Item<'a>>,
) -> Result<(), AllocError>
    ensures { OnOk result (map item_data items.new.items ≡ map item_data items.old.items
        ++ flat_map (wanted.location_in number (text_of source.entry) with_definitions)
        found.now) }
{
    let mut near = START;
    for occurrence in found {
        if let Some(item) = location_in(number, source, with_definitions, &mut near, *occurrence) {
            items.push(item)?;
        }
    }
    Ok(())
}

/// The location of an occurrence, if it is in the text with this number and is asked for.
fn location_in<'a>(
    number: usize,
    source: Text<'a>,
    with_definitions: bool,
    near: &mut TextPlace,
    occurrence: Occurrence,
) -> Option<Item<'a>>
    requires { IsPlace source.encoding source.text.now near.old }
    ensures item { option_to_list (option_map item_data result)
        ≡ wanted.location_in number (text_of source.entry) with_definitions occurrence }
    ensures near { IsPlace source.entry.encoding source.entry.text.now near.new }
{
    if occurrence.pos.file != number {
        return None;
    }
    if !with_definitions && occurrence.is_definition {
        return None;
    }
    let uri = source.uri;
    let range = range_near(
        source.encoding,
        source.text,
        near,
        occurrence.pos.offset,
        occurrence.len,
    );
    Some(Item::Location { uri, range })
}

/// The highlights of the occurrences in the text of a place.
fn highlights_in<'a>(
    alloc: Global,
    place: Place,
    found: &[Occurrence],
) -> Result<Vec<Item<'a>>, AllocError>
    ensures { IfOk result (λ items. items_data items.items ≡ wanted.highlights
        place.entry.encoding place.entry.pos.file place.entry.text.now found.now) }
{
    let mut items = Vec::new(alloc);
    let mut near = START;
    for occurrence in found {
        if let Some(item) = highlight_of(place, &mut near, *occurrence) {
            items.push(item)?;
        }
    }
    Ok(items)
}

/// The highlight of an occurrence, if it is in the text of a place.
fn highlight_of<'a>(place: Place, near: &mut TextPlace, occurrence: Occurrence) -> Option<Item<'a>>
    requires { IsPlace place.encoding place.text.now near.old }
    ensures item { option_to_list (option_map item_data result) ≡ wanted.highlight_of
        place.entry.encoding place.entry.pos.file place.entry.text.now occurrence }
    ensures near { IsPlace place.entry.encoding place.entry.text.now near.new }
{
    if occurrence.pos.file != place.pos.file {
        return None;
    }
    let range = range_near(
        place.encoding,
        place.text,
        near,
        occurrence.pos.offset,
        occurrence.len,
    );
    Some(Item::Highlight { range })
}
