//! Completion: the names that can be written at a position.

ghost use Rattle.std.specs.Prelude.{◌≡◌, ◌++◌, ◌∷◌, [], IfOk, OnOk, filter, map, string_bytes};
ghost use Rattle.std.specs.List.{filter_map};
ghost use Rattle.isle_index.specs.Candidates.{begins_with, bound_at, candidate_of};
ghost use Rattle.isle_index.specs.Candidates.{global_candidate, is_behind, is_nearer, nearer_by};
ghost use Rattle.isle_index.specs.Candidates.{nearest, variable_candidate, visible, written};
ghost use Rattle.isle_index.specs.Entries.{all_of};
ghost use Rattle.isle_resolve.specs.Scopes.{bounds_of};
ghost use Rattle.isle_index.specs.Symbols.{symbol};

use crate::entries::Entries;
use crate::occurrences::{Occurrence, occurrence_in};
use crate::symbols::{SymbolKind, defined_symbol};
use isle_base::lexer::Pos;
use isle_resolve::scopes::{Bound, bind};
use std::alloc::{AllocError, Global};

/// A name that can be written at a position.
#[derive(Drop)]
pub struct Candidate {
    pub kind: SymbolKind,
    /// Its text in the source of a rule: `TYPE.VARIANT` for a variant, and with its `$` for a
    /// constant.
    pub text: String,
}

/// The number of an event, and the byte offset of its name.
#[derive(Clone, Copy)]
pub struct Near {
    pub number: usize,
    pub offset: usize,
}

/// Adds the names that the program defines and that start with `prefix`.
pub fn add_globals(
    alloc: Global,
    entries: &Entries,
    prefix: &[u8],
    found: &mut Vec<Candidate>,
) -> Result<(), AllocError>
    ensures { OnOk result (map candidate_of found.new.items
        ≡ map candidate_of found.old.items ++ filter (begins_with prefix.now)
        (map global_candidate (filter_map (λ s. symbol s.event) (all_of entries.now)))) }
{
    for (number, entry) in entries.items.iter().enumerate() {
        let event = entries.unpack(number, entry);
        if let Some(symbol) = defined_symbol(alloc, &event.event)? {
            let text = source_text(alloc, symbol.kind, symbol.text)?;
            add(symbol.kind, text, prefix, found)?;
        }
    }
    Ok(())
}

/// The text of a symbol in the source of a rule.
fn source_text(alloc: Global, kind: SymbolKind, text: String) -> Result<String, AllocError>
    ensures { IfOk result
        (λ written_text. string_bytes written_text ≡ written kind (string_bytes text)) }
{
    match kind {
        SymbolKind::Constant => {
            let mut signed = String::from_str(alloc, "$")?;
            signed.push_str(text.as_str())?;
            Ok(signed)
        }
        _ => Ok(text),
    }
}

/// Adds the variables that start with `prefix`.
pub fn add_variables(
    alloc: Global,
    bound: &[Bound],
    prefix: &[u8],
    found: &mut Vec<Candidate>,
) -> Result<(), AllocError>
    ensures { OnOk result (map candidate_of found.new.items
        ≡ map candidate_of found.old.items ++ filter (begins_with prefix.now)
        (map variable_candidate (bounds_of bound.now))) }
{
    for variable in bound {
        let text = String::from_str(alloc, variable.text)?;
        add(SymbolKind::Variable, text, prefix, found)?;
    }
    Ok(())
}

/// Adds a name if it starts with `prefix`.
fn add(
    kind: SymbolKind,
    text: String,
    prefix: &[u8],
    found: &mut Vec<Candidate>,
) -> Result<(), AllocError>
    ensures { OnOk result (map candidate_of found.new.items
        ≡ map candidate_of found.old.items ++ filter (begins_with prefix.now)
        (record { kind = kind; text = string_bytes text } ∷ [])) }
{
    if text.as_bytes().starts_with(prefix) {
        found.push(Candidate { kind, text })?;
    }
    Ok(())
}

/// The variables in scope at the last name that begins at or before `place`, if that name begins at
/// the byte offset `from` or after it.
pub fn visible_variables<'a>(
    alloc: Global,
    entries: &Entries<'a>,
    place: Pos,
    from: usize,
) -> Result<Vec<Bound<'a>>, AllocError>
    ensures { IfOk result
        (λ bound. bounds_of bound.items ≡ visible place from (all_of entries.now)) }
{
    match nearest_name(entries, place) {
        Some(near) if from <= near.offset => variables_at(alloc, entries, near.number),
        _ => Ok(Vec::new(alloc)),
    }
}

/// The last name that begins at or before `place`, in its file.
fn nearest_name(entries: &Entries, place: Pos) -> Option<Near>
    ensures { result ≡ nearest place None (all_of entries.now) }
{
    let mut best = None;
    for (number, entry) in entries.items.iter().enumerate() {
        let event = entries.unpack(number, entry);
        best = nearer_of(place, best, event.number, occurrence_in(&event));
    }
    best
}

fn nearer_of(
    place: Pos,
    best: Option<Near>,
    number: usize,
    occurrence: Option<Occurrence>,
) -> Option<Near>
    ensures { result ≡ nearer_by place best number occurrence }
{
    match occurrence {
        Some(occurrence) if is_nearer(place, best, &occurrence) => Some(Near {
            number,
            offset: occurrence.pos.offset,
        }),
        _ => best,
    }
}

/// Returns whether a name begins at or before `place`, and not before the best one so far.
fn is_nearer(place: Pos, best: Option<Near>, occurrence: &Occurrence) -> bool
    ensures { result ≡ is_nearer place best occurrence.now }
{
    occurrence.pos.file == place.file
        && occurrence.pos.offset <= place.offset
        && is_not_before(best, occurrence.pos.offset)
}

fn is_not_before(best: Option<Near>, offset: usize) -> bool
    ensures { result ≡ is_behind best offset }
{
    match best {
        Some(best) => best.offset <= offset,
        None => true,
    }
}

/// The variables in scope after the event of this number.
fn variables_at<'a>(
    alloc: Global,
    entries: &Entries<'a>,
    number: usize,
) -> Result<Vec<Bound<'a>>, AllocError>
    ensures { IfOk result
        (λ bound. bounds_of bound.items ≡ bound_at number [] (all_of entries.now)) }
{
    let mut bound = Vec::new(alloc);
    for (index, entry) in entries.items.iter().enumerate() {
        let event = entries.unpack(index, entry);
        bind(&event.event, event.number, &mut bound)?;
        if event.number == number {
            return Ok(bound);
        }
    }
    bound.clear();
    Ok(bound)
}
