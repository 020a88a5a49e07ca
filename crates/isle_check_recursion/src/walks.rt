//! Walks that do not come to an end.

ghost use Rattle.std.specs.Prelude.{◌≡◌, ◌==◌, IfOk, [], false, get_or, map};
ghost use Rattle.std.specs.List.{list_any};
ghost use Rattle.isle_check_recursion.specs.Walks.{AreEnds};
ghost use Rattle.isle_check_recursion.specs.Recursion.{endless, endless_walk};

use crate::cycles::is_set;
use std::alloc::{AllocError, Global};

/// Returns a walk from a place: always on to the greatest of the next places from which a walk
/// needn't end, until a place comes again. `ends` are those of `next`.
pub fn endless_walk(
    alloc: Global,
    next: &[Vec<usize>],
    ends: &[bool],
    root: usize,
) -> Result<Vec<usize>, AllocError>
    requires { AreEnds (map (λ v. v.items) next.now) ends.now }
    ensures { IfOk result (λ path. path.items ≡ endless_walk (map (λ v. v.items) next.now) root) }
{
    let mut path = Vec::new(alloc);
    let mut place = root;
    for taken in 0..next.len() {
        if has(&path, place) {
            path.push(place)?;
            return Ok(path);
        }
        path.push(place)?;
        place = step(next, ends, place);
    }
    path.push(place)?;
    Ok(path)
}

fn has(path: &[usize], place: usize) -> bool
    ensures { result ≡ list_any (λ p. p == place) path.now }
{
    path.iter().any(|other| *other == place)
}

/// Returns the greatest of the next places from which a walk needn't end, or 0.
fn step(next: &[Vec<usize>], ends: &[bool], place: usize) -> usize
    ensures { result ≡ endless (λ p. get_or ends.now p false)
        (get_or (map (λ v. v.items) next.now) place []) }
{
    if place < next.len() {
        endless(ends, &next[place])
    } else {
        0
    }
}

fn endless(ends: &[bool], places: &[usize]) -> usize
    ensures { result ≡ endless (λ p. get_or ends.now p false) places.now }
{
    let mut greatest = 0;
    for place in places {
        if !is_set(ends, *place) {
            greatest = greatest.max(*place);
        }
    }
    greatest
}
