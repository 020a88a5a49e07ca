//! The completions at a place.

ghost use Rattle.std.specs.Prelude.{◌≡◌, ◌≤◌, ◌++◌, IfOk, None, OnOk, Some, filter, length};
ghost use Rattle.std.specs.Prelude.{map, min, nat_eq, option_map, string_bytes};
ghost use Rattle.std.specs.List.{starts_with};
ghost use Rattle.std.specs.List.Sorted.{IsPermutation, IsSortedByKey};
ghost use Rattle.isle_index.specs.Candidates.{candidate_of};
ghost use Rattle.isle_index.specs.Held.{all_in};
ghost use Rattle.isle_resolve.specs.Names.{global, named_of};
ghost use Rattle.serde_json.specs.View.{view};
ghost use Rattle.isle_lsp_protocol.specs.Items.{item_data, items_data};
ghost use Rattle.isle_lsp_text.specs.Names.{name_before};
ghost use Rattle.isle_lsp_features.specs.Completed as wanted;
ghost use Rattle.isle_lsp_features.specs.Completed.{AreCompletions, word_of};

use crate::places::Place;
use isle_base::lexer::Pos;
use isle_index::{Candidate, Index, Kind, Name, SymbolKind};
use isle_lsp_context::offers::{Names, keywords_of, names_of};
use isle_lsp_context::places::slot_at;
use isle_lsp_context::slot::Slot;
use isle_lsp_protocol::items::Item;
use isle_lsp_protocol::parameters::{kind_of, label_of};
use isle_lsp_text::lists::{ListSpan, lists, outer_list};
use isle_lsp_text::names::name_before;
use isle_lsp_text::positions::{Range, START};
use isle_lsp_text::ranges::range_between;
use serde_json::Value;
use std::alloc::{AllocError, Global};

/// A text that may stand at a place.
#[derive(Drop)]
struct Word {
    /// The protocol's number of its kind.
    kind: usize,
    text: String,
}

/// The completions at a place: the names and the keywords that may stand there, and that begin with
/// the partly written name before it, each once, sorted. The variables among them are those in
/// scope at the last name before the place, if that name is in the outermost list around the place.
pub fn completion<'a>(
    alloc: Global,
    index: &Index,
    place: Place,
) -> Result<Vec<Item<'a>>, AllocError>
    ensures { IfOk result (λ items. AreCompletions place.entry.encoding place.entry.pos
        place.entry.text.now (all_in index.now) (items_data items.items)) }
{
    let lists = lists(alloc, place.text)?;
    let from = outer_start(place.text, &lists, place.pos.offset);
    let prefix = name_before(place.text, place.pos.offset);
    let found = index.candidates(alloc, place.pos, from, prefix)?;
    let slot = slot_at(alloc, place.text, place.pos.offset)?;
    let words = sorted_words(alloc, found, slot, prefix)?;
    let range = range_before(place, prefix);
    items(alloc, words, range)
}

/// The start of the outermost list around an offset, or the end of the text if there is none.
fn outer_start(text: &str, lists: &[ListSpan], offset: usize) -> usize
    ensures { result ≡ wanted.outer_start text.now lists.now offset }
{
    match outer_list(lists, offset) {
        Some(list) => list.from,
        None => text.len(),
    }
}

/// The range of the partly written name right before a place, which is this prefix.
fn range_before(place: Place, prefix: &[u8]) -> Range
    requires name { prefix.now ≡ name_before place.text.now place.pos.offset }
    requires within { length prefix.now ≤ min place.pos.offset (length place.text.now) }
    ensures { result
        ≡ wanted.range_before place.entry.encoding place.entry.text.now place.entry.pos.offset }
{
    let text = place.text;
    let end = place.pos.offset.min(text.len());
    let mut near = START;
    range_between(place.encoding, text, &mut near, end - prefix.len(), end)
}

/// The candidates that may stand in a slot and the keywords that begin with a prefix, sorted.
fn sorted_words(
    alloc: Global,
    found: Vec<Candidate>,
    slot: Slot,
    prefix: &[u8],
) -> Result<Vec<Word>, AllocError>
    ensures exact { IfOk result (λ words. IsPermutation
        (wanted.words slot prefix.now (map candidate_of found.items)) (map word_of words.items)) }
    ensures in_order { IfOk result
        (λ words. IsSortedByKey (λ w. string_bytes w.text) wanted.text_order words.items) }
{
    let mut words = all_words(alloc, found, slot, prefix)?;
    words.sort_by(|a, b| a.text.cmp(&b.text))?;
    Ok(words)
}

/// The candidates that may stand in a slot, and then the keywords that begin with a prefix.
fn all_words(
    alloc: Global,
    found: Vec<Candidate>,
    slot: Slot,
    prefix: &[u8],
) -> Result<Vec<Word>, AllocError>
    ensures { IfOk result (λ words. map word_of words.items
        ≡ wanted.words slot prefix.now (map candidate_of found.items)) }
{
    let mut words = Vec::new(alloc);
    add_names(found, names_of(slot), &mut words)?;
    add_keywords(alloc, keywords_of(slot), prefix, &mut words)?;
    Ok(words)
}

/// Adds the candidates that are of these kinds.
fn add_names(found: Vec<Candidate>, names: Names, words: &mut Vec<Word>) -> Result<(), AllocError>
    ensures { OnOk result (map word_of words.new.items ≡ map word_of words.old.items
        ++ map wanted.name_word (filter (wanted.is_of names) (map candidate_of found.items))) }
{
    for candidate in found {
        if is_of(names, candidate.kind) {
            words.push(name_word(candidate))?;
        }
    }
    Ok(())
}

/// Returns whether a name of a kind is one of these.
fn is_of(names: Names, kind: SymbolKind) -> bool
    ensures { result ≡ wanted.is_kind_of names kind }
{
    match names {
        Names::All => true,
        Names::Nothing => false,
        Names::Types => matches!(kind, SymbolKind::Type),
        Names::Terms => matches!(kind, SymbolKind::Term | SymbolKind::Variant),
        Names::Values => !matches!(kind, SymbolKind::Type),
    }
}

/// A candidate as a word.
fn name_word(candidate: Candidate) -> Word
    ensures { word_of result ≡ wanted.name_word (candidate_of candidate) }
{
    Word {
        kind: number_of(candidate.kind),
        text: candidate.text,
    }
}

/// Adds the keywords that begin with a prefix.
fn add_keywords(
    alloc: Global,
    keywords: &[&str],
    prefix: &[u8],
    words: &mut Vec<Word>,
) -> Result<(), AllocError>
    ensures { OnOk result (map word_of words.new.items ≡ map word_of words.old.items
        ++ map wanted.keyword_word (filter (λ text. starts_with nat_eq text prefix.now)
        (map (λ keyword. keyword.now) keywords.now))) }
{
    for keyword in keywords {
        if keyword.as_bytes().starts_with(prefix) {
            let text = String::from_str(alloc, keyword)?;
            let kind = KEYWORD;
            words.push(Word { kind, text })?;
        }
    }
    Ok(())
}

/// Words as items that replace a range, each text once. They are sorted.
fn items<'a>(alloc: Global, mut words: Vec<Word>, range: Range) -> Result<Vec<Item<'a>>, AllocError>
    ensures { IfOk result
        (λ items. items_data items.items ≡ wanted.items range (map word_of words.items)) }
{
    drop_repeats(&mut words);
    let mut items = Vec::new(alloc);
    for word in words {
        items.push(word_item(word, range))?;
    }
    Ok(items)
}

/// Drops each word with the same text as the one before.
fn drop_repeats(words: &mut Vec<Word>)
    ensures { map word_of words.new.items ≡ wanted.once None (map word_of words.old.items) }
{
    words.dedup_by(|word, last| last.text == word.text);
}

/// A word as an item that replaces a range.
fn word_item<'a>(word: Word, range: Range) -> Item<'a>
    ensures { item_data result ≡ wanted.item range (word_of word) }
{
    Item::Completion {
        name: word.text,
        kind: word.kind,
        range,
    }
}

/// The protocol's number of a keyword.
const KEYWORD: usize = 14;

/// The protocol's number of a kind of completion.
fn number_of(kind: SymbolKind) -> usize
    ensures { result ≡ wanted.number_of kind }
{
    match kind {
        SymbolKind::Term => 3,
        SymbolKind::Type => 22,
        SymbolKind::Variant => 20,
        SymbolKind::Constant => 21,
        SymbolKind::Variable => 6,
    }
}

/// The name in a completion item, if it is global. The kind of the item is a number of `number_of`.
pub fn item_name(alloc: Global, item: &Value) -> Result<Option<Name>, AllocError>
    ensures { IfOk result
        (λ name. option_map named_of name ≡ wanted.item_name (view item.now)) }
{
    match (label_of(item), kind_of(item)) {
        (Some(label), Some(3 | 20)) => global(alloc, Kind::Term, label),
        (Some(label), Some(22)) => global(alloc, Kind::Type, label),
        (Some(label), Some(21)) => constant(alloc, label),
        _ => Ok(None),
    }
}

/// The name of a constant from its label, or `None` if that does not begin with `$`.
fn constant(alloc: Global, label: &str) -> Result<Option<Name>, AllocError>
    ensures { IfOk result (λ name. option_map named_of name ≡ wanted.constant_of label.now) }
{
    match label.strip_prefix("$") {
        Some(text) => global(alloc, Kind::Constant, text),
        None => Ok(None),
    }
}

fn global(alloc: Global, kind: Kind, text: &str) -> Result<Option<Name>, AllocError>
    ensures { IfOk result (λ name. option_map named_of name ≡ Some (global kind text.now)) }
{
    let text = String::from_str(alloc, text)?;
    Ok(Some(Name::Global { kind, text }))
}
