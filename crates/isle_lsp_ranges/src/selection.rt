//! What a selection grows to from a position.

ghost use Rattle.std.specs.Prelude.{◌≡◌, ◌∷◌, ◌++◌, ◌≤◌, [], IfOk, List, OnOk};
ghost use Rattle.serde_json.specs.Data.{depth};
ghost use Rattle.serde_json.specs.View.{view};
ghost use Rattle.isle_lsp_text.specs.declared.wholes.Part as wholes;
ghost use Rattle.isle_lsp_ranges.specs.Selections.{AreSelections, exceeds, growing, grown};
ghost use Rattle.isle_lsp_ranges.specs.Selections.{parts_around, selection};

use crate::words::{word_at, words};
use isle_lsp_protocol::results::range_value;
use isle_lsp_text::lists::{ListSpan, lists};
use isle_lsp_text::positions::{Position, PositionEncoding, Range, START, offset_of};
use isle_lsp_text::ranges::range_between;
use isle_lsp_text::wholes::Part;
use serde_json::{Value, json};
use std::alloc::{AllocError, Global};

/// The most parts of a text around a position that a selection grows to before the whole text. Each
/// nests in the next one, and a reply can nest only so deeply.
const MOST: usize = 100;

/// What a selection grows to from each position, as an array of the protocol's `SelectionRange`:
/// the word that the position touches, each list around that, from the innermost outwards, and the
/// whole text.
///
/// Each has more in it than the one before. Of the words and lists at most 100 are given.
pub fn selection_ranges(
    alloc: Global,
    encoding: PositionEncoding,
    text: &str,
    positions: &[Position],
) -> Result<Value, AllocError>
    ensures selections { IfOk result
        (λ value. AreSelections encoding text.now positions.now (view value)) }
    ensures shallow { IfOk result (λ value. depth (view value) ≤ 120) }
{
    let words = words(alloc, text)?;
    let lists = lists(alloc, text)?;
    let mut values = Vec::new(alloc);
    for position in positions {
        let offset = offset_of(encoding, text, *position);
        let parts = parts_around(alloc, text, &words, &lists, offset)?;
        values.push(selection(alloc, encoding, text, &parts)?)?;
    }
    Ok(Value::Array(values))
}

/// The word that an offset touches, and the lists around that, the innermost first.
fn parts_around(
    alloc: Global,
    text: &str,
    words: &[Part],
    lists: &[ListSpan],
    offset: usize,
) -> Result<Vec<Part>, AllocError>
    ensures { IfOk result
        (λ parts. parts.items ≡ parts_around text.now words.now lists.now offset) }
{
    let whole = Part {
        from: 0,
        to: text.len(),
    };
    let mut inner = Part {
        from: offset,
        to: offset,
    };
    let mut parts = Vec::new(alloc);
    for word in word_at(words, offset) {
        grow(&mut parts, &mut inner, whole, *word)?;
    }
    for list in lists {
        let part = Part {
            from: list.from,
            to: list.to,
        };
        grow(&mut parts, &mut inner, whole, part)?;
    }
    parts.truncate(MOST);
    Ok(parts)
}

/// Adds a part that exceeds the one added last, and becomes that.
fn grow(parts: &mut Vec<Part>, inner: &mut Part, whole: Part, part: Part) -> Result<(), AllocError>
    ensures { OnOk result ((rest : List wholes.Part)
        → parts.new.items ++ grown whole inner.new rest
        ≡ parts.old.items ++ grown whole inner.old (part ∷ rest)) }
{
    if exceeds(part, *inner) && exceeds(whole, part) {
        parts.push(part)?;
        *inner = part;
    }
    Ok(())
}

/// Returns whether a part has all of another one in it, and more.
fn exceeds(outer: Part, inner: Part) -> bool
    ensures { result ≡ exceeds outer inner }
{
    outer.from <= inner.from
        && inner.to <= outer.to
        && inner.to.saturating_sub(inner.from) < outer.to.saturating_sub(outer.from)
}

/// The innermost of these parts, and around it the others in turn, and around them all the whole
/// text.
fn selection(
    alloc: Global,
    encoding: PositionEncoding,
    text: &str,
    parts: &[Part],
) -> Result<Value, AllocError>
    ensures { IfOk result (λ value. view value ≡ selection encoding text.now parts.now) }
{
    let mut near = START;
    let mut value = whole(alloc, encoding, text)?;
    let mut left = parts.len();
    while left > 0 {
        left -= 1;
        let range = range_between(encoding, text, &mut near, parts[left].from, parts[left].to);
        value = growing(alloc, range, value)?;
    }
    Ok(value)
}

/// The whole text.
fn whole(alloc: Global, encoding: PositionEncoding, text: &str) -> Result<Value, AllocError>
    ensures { IfOk result (λ value. view value ≡ selection encoding text.now []) }
{
    let mut near = START;
    let range = range_value(
        alloc,
        range_between(encoding, text, &mut near, 0, text.len()),
    )?;
    json!(in alloc; {"range": range})
}

/// A range, and what a selection grows to from it.
fn growing(alloc: Global, range: Range, parent: Value) -> Result<Value, AllocError>
    ensures { IfOk result (λ value. view value ≡ growing range (view parent)) }
{
    let range = range_value(alloc, range)?;
    json!(in alloc; {"range": range, "parent": parent})
}
