//! The edits that rename a name.

ghost use Rattle.std.specs.Prelude.{◌≡◌, IfOk, Some, if◌then◌else◌, map, option_map};
ghost use Rattle.std.specs.Prelude.{option_to_list};
ghost use Rattle.serde_json.specs.Data.{Members};
ghost use Rattle.serde_json.specs.View.{view};
ghost use Rattle.std.specs.List.{flat_map};
ghost use Rattle.isle_lsp_features.specs.Programs.{text_of};
ghost use Rattle.isle_resolve.specs.Names.{named_of};
ghost use Rattle.isle_index.specs.Occurrences.{name_at, occurrence_at};
ghost use Rattle.isle_index.specs.Held.{all_in};
ghost use Rattle.isle_index.specs.Renaming.{part_view};
ghost use Rattle.isle_lsp_features.specs.Answers.{ArePlaced, IsRenaming, IsRenamingOf};
ghost use Rattle.isle_lsp_features.specs.Renamed as wanted;
ghost use Rattle.isle_lsp_protocol.specs.Items.{item_data, items_data, listing_data};
ghost use Rattle.isle_lsp_protocol.specs.Items.{plain_changes, with_changes};
ghost use Rattle.isle_lsp_protocol.specs.Parameters as parameters;
ghost use Rattle.isle_lsp_protocol.specs.Replies.{outcome_of};
ghost use Rattle.isle_lsp_protocol.specs.Results.{workspace_edit};
ghost use Rattle.isle_lsp_text.specs.Positions.{IsPlace};

use crate::places::Place;
use crate::{Question, Text};
use isle_base::lexer::Pos;
use isle_index::{Index, Kind, Name, Occurrence, Part, Refusal};
use isle_lsp_protocol::items::{Item, Listing};
use isle_lsp_protocol::machine::ErrorCode;
use isle_lsp_protocol::parameters::new_name_of;
use isle_lsp_protocol::replies::{Outcome, error_outcome};
use isle_lsp_protocol::results::range_value;
use isle_lsp_text::numbers::is_behind_number;
use isle_lsp_text::positions::{Place as TextPlace, Range, START};
use isle_lsp_text::ranges::{range_at, range_near};
use serde_json::Value;
use std::alloc::{AllocError, Global};

/// The message if a rename would edit a text that other programs share.
const SHARED: &str = "the name is used in a file that other programs share: rename it there";

/// The message if a rename would edit a name that directly follows a number.
const GLUED: &str = "a use of the name directly follows a number: put a space between them";

/// The range of the part of the name at a place that a renaming changes, or null if there is no
/// name that can be renamed.
pub fn prepare(alloc: Global, index: &Index, place: Place) -> Result<Value, AllocError>
    ensures { let all = all_in index.now in IfOk result (λ value. view value
        ≡ wanted.prepared place.entry.encoding place.entry.text.now all
        (wanted.renamable (name_at place.entry.pos all) all)
        (occurrence_at place.entry.pos all)) }
{
    match renamable_at(alloc, index, place.pos)? {
        Some(name) => {
            let part = index.part_of(alloc, &name)?;
            name_range(alloc, place, &name, &part, index.occurrence_at(place.pos))
        }
        None => Ok(Value::Null),
    }
}

/// The name at a position, if it can be renamed at all.
fn renamable_at(alloc: Global, index: &Index, pos: Pos) -> Result<Option<Name>, AllocError>
    ensures { let all = all_in index.now in IfOk result (λ name. option_map named_of name
        ≡ wanted.renamable (name_at pos all) all) }
{
    match index.name_at(alloc, pos)? {
        Some(name) => {
            if index.can_be_renamed(alloc, &name)? {
                Ok(Some(name))
            } else {
                Ok(None)
            }
        }
        None => Ok(None),
    }
}

/// The range of the part of a name that a renaming changes at an occurrence, or null if there is
/// none.
fn name_range(
    alloc: Global,
    place: Place,
    name: &Name,
    part: &Part,
    occurrence: Option<Occurrence>,
) -> Result<Value, AllocError>
    ensures { IfOk result (λ value. view value ≡ wanted.place_range place.entry.encoding
        place.entry.text.now (named_of name.now) (part_view part.now) occurrence) }
{
    match occurrence {
        Some(occurrence) => {
            let offset = part_offset(place.text, name, part, occurrence.pos);
            let range = range_at(place.encoding, place.text, offset, part.len());
            range_value(alloc, range)
        }
        None => Ok(Value::Null),
    }
}

/// The number of bytes in front of the part of a name that gets the new text, where the name is at
/// `pos`: the `$` of a constant, and of a variant its type and the dot.
fn skipped(name: &Name, part: &Part, pos: Pos) -> usize
    ensures { result ≡ wanted.skipped (named_of name.now) (part_view part.now) pos }
{
    match name {
        Name::Global {
            kind: Kind::Constant,
            ..
        } => 1,
        _ => part.front_len(pos),
    }
}

/// The offset of the part in a text, where the name is at `pos`.
fn part_offset(text: &str, name: &Name, part: &Part, pos: Pos) -> usize
    ensures { result
        ≡ wanted.part_offset text.now (named_of name.now) (part_view part.now) pos }
{
    pos.offset.min(text.len()) + skipped(name, part, pos).min(text.len())
}

/// The edits that rename the name at a place, or why it cannot be renamed.
pub fn rename<'a>(
    alloc: Global,
    program: &[Text<'a>],
    index: &Index,
    place: Place,
    question: Question,
) -> Result<Outcome<'a>, AllocError>
    ensures { let all = all_in index.now in IfOk result (λ outcome. IsRenamingOf
        question.entry.takes_document_changes (map text_of program.now) all
        (name_at place.entry.pos all)
        (parameters.new_name_of (view question.entry.message.now)) (outcome_of outcome)) }
{
    let Some(new) = new_name_of(question.message) else {
        return Ok(error_outcome(ErrorCode::InvalidParams));
    };
    match index.name_at(alloc, place.pos)? {
        Some(name) => {
            let takes = question.takes_document_changes;
            rename_name(alloc, program, index, &name, new, takes)
        }
        None => Ok(Outcome::Failed(ErrorCode::RequestFailed, "there is no name to rename")),
    }
}

/// The edits that rename a name, or why it cannot be renamed.
fn rename_name<'a>(
    alloc: Global,
    program: &[Text<'a>],
    index: &Index,
    name: &Name,
    new: &str,
    takes_document_changes: bool,
) -> Result<Outcome<'a>, AllocError>
    ensures { IfOk result (λ outcome. IsRenaming takes_document_changes (map text_of program.now)
        (all_in index.now) (named_of name.now) new.now (outcome_of outcome)) }
{
    let part = index.part_of(alloc, name)?;
    match index.rename(alloc, name, new)? {
        Ok(places) => edits_at(
            alloc,
            program,
            name,
            &part,
            new,
            &places,
            takes_document_changes,
        ),
        Err(refusal) => Ok(Outcome::Failed(ErrorCode::RequestFailed, reason_of(refusal))),
    }
}

/// The edits that put the new text at these positions, or why it can't be put there.
fn edits_at<'a>(
    alloc: Global,
    program: &[Text<'a>],
    name: &Name,
    part: &Part,
    new: &str,
    places: &[Pos],
    takes_document_changes: bool,
) -> Result<Outcome<'a>, AllocError>
    ensures { IfOk result (λ outcome. ArePlaced takes_document_changes (map text_of program.now)
        (named_of name.now) (part_view part.now) new.now places.now (outcome_of outcome)) }
{
    if are_shared(program, places) {
        return Ok(Outcome::Failed(ErrorCode::RequestFailed, SHARED));
    }
    if are_glued(program, name, part, places) {
        return Ok(Outcome::Failed(ErrorCode::RequestFailed, GLUED));
    }
    let changes = changes(alloc, program, name, part, new, places)?;
    Ok(Outcome::Listed(listing_of(takes_document_changes, changes)))
}

/// Returns whether one of the positions is in a text that other programs share.
fn are_shared(program: &[Text], places: &[Pos]) -> bool
    ensures { result ≡ wanted.are_shared (map text_of program.now) places.now }
{
    for pos in places {
        if is_shared_at(program, *pos) {
            return true;
        }
    }
    false
}

/// Returns whether a position is in a text that other programs share.
fn is_shared_at(program: &[Text], pos: Pos) -> bool
    ensures { result ≡ wanted.is_shared_at (map text_of program.now) pos }
{
    match program.get(pos.file) {
        Some(text) => text.is_shared,
        None => false,
    }
}

/// Returns whether the part of a name that gets the new text directly follows a number at one of
/// the positions.
fn are_glued(program: &[Text], name: &Name, part: &Part, places: &[Pos]) -> bool
    ensures { result ≡ wanted.are_glued (map text_of program.now) (named_of name.now)
        (part_view part.now) places.now }
{
    for pos in places {
        if is_glued_at(program, name, part, *pos) {
            return true;
        }
    }
    false
}

/// Returns whether the part of a name directly follows a number at a position.
fn is_glued_at(program: &[Text], name: &Name, part: &Part, pos: Pos) -> bool
    ensures { result ≡ wanted.is_glued_at (map text_of program.now) (named_of name.now)
        (part_view part.now) pos }
{
    is_glued_text(program.get(pos.file), name, part, pos)
}

/// Returns whether the part of a name that is at `pos` directly follows a number in a text.
fn is_glued_text(source: Option<&Text>, name: &Name, part: &Part, pos: Pos) -> bool
    ensures { result ≡ wanted.is_glued_text (option_map (λ s. text_of s.now) source.entry)
        (named_of name.now) (part_view part.now) pos }
{
    match source {
        Some(source) => is_glued_in(source.text, name, part, pos),
        None => false,
    }
}

/// Returns whether the part of a name that is at `pos` directly follows a number.
fn is_glued_in(text: &str, name: &Name, part: &Part, pos: Pos) -> bool
    ensures { result
        ≡ wanted.is_glued_in text.now (named_of name.now) (part_view part.now) pos }
{
    is_behind_number(text, part_offset(text, name, part, pos))
}

/// Changes as the client takes them.
fn listing_of(takes_document_changes: bool, changes: Vec<Item>) -> Listing
    ensures { listing_data result ≡ if takes_document_changes
        then workspace_edit (items_data changes.entry.items)
        else plain_changes changes.entry.items }
{
    if takes_document_changes {
        Listing::Changes(changes)
    } else {
        Listing::PlainChanges(changes)
    }
}

/// The message of a refusal.
fn reason_of(refusal: Refusal) -> &'static str
    ensures { result.now ≡ wanted.reason_of refusal }
{
    match refusal {
        Refusal::NotAName => "not a valid ISLE identifier",
        Refusal::Undefined => "the name is not defined in the workspace",
        Refusal::Variant => "a variant of another type is the same term",
        Refusal::Taken => "the new name is already in use",
        Refusal::Captured => "the new name would shadow, or be shadowed by, another variable",
    }
}

/// The edits at these places, text by text.
fn changes<'a>(
    alloc: Global,
    program: &[Text<'a>],
    name: &Name,
    part: &Part,
    new: &str,
    places: &[Pos],
) -> Result<Vec<Item<'a>>, AllocError>
    ensures documents { IfOk result (λ items. workspace_edit (items_data items.items)
        ≡ wanted.document_changes (map text_of program.now) (named_of name.now)
        (part_view part.now) new.now
        places.now) }
    ensures plain { IfOk result (λ items. plain_changes items.items
        ≡ wanted.plain_changes (map text_of program.now) (named_of name.now)
        (part_view part.now) new.now places.now) }
{
    let mut items = Vec::new(alloc);
    for (number, source) in program.iter().enumerate() {
        if let Some(item) = change_in(alloc, number, *source, name, part, new, places)? {
            items.push(item)?;
        }
    }
    Ok(items)
}

/// The edits in a text, if there are any.
fn change_in<'a>(
    alloc: Global,
    number: usize,
    source: Text<'a>,
    name: &Name,
    part: &Part,
    new: &str,
    places: &[Pos],
) -> Result<Option<Item<'a>>, AllocError>
    ensures documents { IfOk result (λ item. option_to_list (option_map item_data item)
        ≡ wanted.change_in number (text_of source.entry) (named_of name.now)
        (part_view part.now) new.now places.now) }
    ensures plain { IfOk result (λ item. (changes : Members)
        → with_changes (option_to_list item) changes
        ≡ wanted.with_change (text_of source.entry) new.now
        (flat_map (wanted.range_in source.entry.encoding number source.entry.text.now
        (named_of name.now) (part_view part.now)) places.now)
        changes) }
{
    let ranges = ranges_in(alloc, number, source, name, part, places)?;
    if ranges.is_empty() {
        return Ok(None);
    }
    Ok(Some(Item::Edits {
        uri: source.uri,
        version: source.version,
        ranges,
        text: String::from_str(alloc, new)?,
    }))
}

/// The ranges at those places that are in the text with this number.
fn ranges_in(
    alloc: Global,
    number: usize,
    source: Text,
    name: &Name,
    part: &Part,
    places: &[Pos],
) -> Result<Vec<Range>, AllocError>
    ensures { IfOk result (λ ranges. ranges.items ≡ flat_map (wanted.range_in
        source.entry.encoding number source.entry.text.now (named_of name.now)
        (part_view part.now)) places.now) }
{
    let mut ranges = Vec::new(alloc);
    let mut near = START;
    for pos in places {
        if let Some(range) = range_in(number, source, &mut near, name, part, *pos) {
            ranges.push(range)?;
        }
    }
    Ok(ranges)
}

/// The range at a place, if it is in the text with this number.
fn range_in(
    number: usize,
    source: Text,
    near: &mut TextPlace,
    name: &Name,
    part: &Part,
    pos: Pos,
) -> Option<Range>
    requires { IsPlace source.encoding source.text.now near.old }
    ensures range { option_to_list result ≡ wanted.range_in source.entry.encoding number
        source.entry.text.now (named_of name.now) (part_view part.now) pos }
    ensures near { IsPlace source.entry.encoding source.entry.text.now near.new }
{
    if pos.file != number {
        return None;
    }
    let offset = part_offset(source.text, name, part, pos);
    let len = part.len();
    Some(range_near(source.encoding, source.text, near, offset, len))
}
