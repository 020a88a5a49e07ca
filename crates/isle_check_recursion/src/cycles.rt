//! Which walks through a graph come to an end.

ghost use Rattle.std.specs.Prelude.{◌≡◌, ◌&&◌, ◌+◌, ◌<◌, ◌≤◌, IfOk, OnOk, [], false, get_or};
ghost use Rattle.std.specs.Prelude.{length};
ghost use Rattle.std.specs.Prelude.{map, not, suc, true};
ghost use Rattle.isle_check_recursion.specs.Walks.{AreEnds, IsClosed, IsSound, all_end, unended};

use std::alloc::{AllocError, Global};

/// Returns, for each place, whether every walk from it comes to an end. A walk goes from a place
/// to one of those that `next` has for it. A place beyond `next` has no end.
///
/// Each place is looked at twice, and once more for each place that it goes on to.
pub fn ends(alloc: Global, next: &[Vec<usize>]) -> Result<Vec<bool>, AllocError>
    ensures { IfOk result (λ ends. AreEnds (map (λ v. v.items) next.now) ends.items) }
{
    let before = places_before(alloc, next)?;
    let mut ends = vec![in alloc; false; next.len()]?;
    loop {
        let more = add_ended(alloc, next, &before, &mut ends)?;
        if !more {
            return Ok(ends);
        }
    }
}

/// Returns, for each place, the places that go on to it.
fn places_before(alloc: Global, next: &[Vec<usize>]) -> Result<Vec<Vec<usize>>, AllocError> {
    let mut before = Vec::new(alloc);
    for _ in next {
        before.push(Vec::new(alloc))?;
    }
    for (place, steps) in next.iter().enumerate() {
        put_before(place, steps, &mut before)?;
    }
    Ok(before)
}

/// Adds a place to those that go on to each of these.
fn put_before(
    place: usize,
    steps: &[usize],
    before: &mut Vec<Vec<usize>>,
) -> Result<(), AllocError> {
    for step in steps {
        if let Some(places) = before.get_mut(*step) {
            places.push(place)?;
        }
    }
    Ok(())
}

/// Marks the places whose next ones are all marked. Returns whether there were any.
fn add_ended(
    alloc: Global,
    next: &[Vec<usize>],
    before: &[Vec<usize>],
    ends: &mut Vec<bool>,
) -> Result<bool, AllocError>
    requires { IsSound (map (λ v. v.items) next.now) ends.old.items }
    ensures sound { IfOk result
        (λ _. IsSound (map (λ v. v.items) next.now) ends.new.items) }
    ensures closed { IfOk result (λ more. more ≡ false
        → IsClosed (map (λ v. v.items) next.now) ends.new.items (length next.now)) }
    ensures fewer { IfOk result (λ more. more ≡ true
        → unended ends.new.items < unended ends.old.items) }
{
    let mut more = false;
    for place in 0..next.len() {
        if is_ended(next, ends, place) {
            mark(next, ends, place);
            mark_before(alloc, next, before, place, ends)?;
            more = true;
        }
    }
    Ok(more)
}

/// Marks the places that go on to a marked one if their next ones are all marked, then those that
/// go on to these, and so on.
fn mark_before(
    alloc: Global,
    next: &[Vec<usize>],
    before: &[Vec<usize>],
    place: usize,
    ends: &mut Vec<bool>,
) -> Result<(), AllocError>
    requires { IsSound (map (λ v. v.items) next.now) ends.old.items }
    ensures sound { OnOk result (IsSound (map (λ v. v.items) next.now) ends.new.items) }
    ensures no_more { OnOk result (unended ends.new.items ≤ unended ends.old.items) }
{
    let mut marked = Vec::new(alloc);
    marked.push(place)?;
    while let Some(place) = marked.pop() {
        if place < before.len() {
            mark_ended(next, &before[place], ends, &mut marked)?;
        }
    }
    Ok(())
}

/// Marks those of these places whose next ones are all marked, and adds them to `marked`.
fn mark_ended(
    next: &[Vec<usize>],
    places: &[usize],
    ends: &mut Vec<bool>,
    marked: &mut Vec<usize>,
) -> Result<(), AllocError>
    requires { IsSound (map (λ v. v.items) next.now) ends.old.items }
    ensures sound { OnOk result (IsSound (map (λ v. v.items) next.now) ends.new.items) }
    ensures no_more { OnOk result (unended ends.new.items ≤ unended ends.old.items) }
    ensures count { OnOk result (unended ends.new.items + length marked.new.items
        ≡ unended ends.old.items + length marked.old.items) }
{
    for place in places {
        mark_if_ended(next, *place, ends, marked)?;
    }
    Ok(())
}

/// Marks a place whose next ones are all marked, and adds it to `marked`.
fn mark_if_ended(
    next: &[Vec<usize>],
    place: usize,
    ends: &mut Vec<bool>,
    marked: &mut Vec<usize>,
) -> Result<(), AllocError>
    requires { IsSound (map (λ v. v.items) next.now) ends.old.items }
    ensures sound { OnOk result (IsSound (map (λ v. v.items) next.now) ends.new.items) }
    ensures no_more { OnOk result (unended ends.new.items ≤ unended ends.old.items) }
    ensures count { OnOk result (unended ends.new.items + length marked.new.items
        ≡ unended ends.old.items + length marked.old.items) }
{
    if place < next.len() && is_ended(next, ends, place) {
        mark(next, ends, place);
        marked.push(place)?;
    }
    Ok(())
}

/// Returns whether a place is not marked, but all its next ones are.
fn is_ended(next: &[Vec<usize>], ends: &[bool], place: usize) -> bool
    requires within { place < length next.now }
    requires count { length ends.now ≡ length next.now }
    ensures { result ≡ (not (get_or ends.now place false)
        && all_end ends.now (get_or (map (λ v. v.items) next.now) place [])) }
{
    !ends[place] && all_end(&next[place], ends)
}

fn mark(next: &[Vec<usize>], ends: &mut Vec<bool>, place: usize)
    requires sound { IsSound (map (λ v. v.items) next.now) ends.old.items }
    requires within { place < length next.now }
    requires ended { (not (get_or ends.old.items place false)
        && all_end ends.old.items (get_or (map (λ v. v.items) next.now) place [])) ≡ true }
    ensures sound { IsSound (map (λ v. v.items) next.now) ends.new.items }
    ensures fewer { suc (unended ends.new.items) ≡ unended ends.old.items }
{
    ends[place] = true;
}

/// Returns whether all these places are marked.
fn all_end(places: &[usize], ends: &[bool]) -> bool
    ensures { result ≡ all_end ends.now places.now }
{
    places.iter().all(|place| is_set(ends, *place))
}

/// Returns the flag at an index, or `false` if there is none.
pub fn is_set(flags: &[bool], place: usize) -> bool
    ensures { result ≡ get_or flags.now place false }
{
    place < flags.len() && flags[place]
}
