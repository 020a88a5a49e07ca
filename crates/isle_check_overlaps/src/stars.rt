//! The pairs of rules that overlap, told as stars.

ghost use Rattle.std.specs.Prelude.{◌≡◌, ◌==◌, ◌<◌, ◌++◌, ◌∷◌, ℕ, [], IfOk, OnOk};
ghost use Rattle.std.specs.Prelude.{get_or, length, map};
ghost use Rattle.std.specs.HashMap.{get_by_text};
ghost use Rattle.std.specs.List.{filter};
ghost use Rattle.isle_check_overlaps.specs.Degrees.{AreDegrees, counted, counted_pair};
ghost use Rattle.isle_check_overlaps.specs.Groups.{AreGroups, near};
ghost use Rattle.isle_check_overlaps.specs.Stars.{other_than, pair, pairs, pairs_before};
ghost use Rattle.isle_check_overlaps.specs.Stars.{star, stars, top, touches, without};
ghost use Rattle.isle_check_overlaps.specs.Views.{candidate_of, candidates_at, candidates_of};
ghost use Rattle.isle_check_overlaps.specs.Views.{pair_of, pairs_of, star_of, stars_of};

use crate::candidates::{Candidate, overlap};
use crate::groups::{Groups, add_to_group, near};
use crate::telling::terms;
use isle_check_environment::by_text::ByText;
use std::alloc::{AllocError, Global};

/// Two rules that overlap.
#[derive(Clone, Copy)]
pub struct Pair<'c, 'm, 'a> {
    pub first: &'c Candidate<'m, 'a>,
    pub second: &'c Candidate<'m, 'a>,
}

/// A rule, and those that it overlaps with.
#[derive(Drop)]
pub struct Star<'c, 'm, 'a> {
    pub center: usize,
    pub others: Vec<&'c Candidate<'m, 'a>>,
}

/// Returns the rules of each term, and adds the pairs of rules that overlap. An `Err` means out of
/// memory.
pub fn grouped<'c, 'm, 'a>(
    alloc: Global,
    candidates: &'c [Candidate<'m, 'a>],
    made: &mut Vec<Pair<'c, 'm, 'a>>,
) -> Result<Groups<'c, 'm, 'a>, AllocError>
    ensures groups { IfOk result (λ groups. AreGroups groups (candidates_of candidates.now)) }
    ensures pairs { IfOk result (λ _. pairs_of made.new.items ≡ pairs_of made.old.items
        ++ pairs (candidates_of candidates.now)) }
{
    let terms = terms(alloc, candidates)?;
    let mut groups = no_groups(alloc);
    for candidate in candidates {
        add_pairs(alloc, &groups, candidate, made)?;
        add_to_group(alloc, &terms, candidate, &mut groups)?;
    }
    Ok(groups)
}

fn no_groups<'c, 'm, 'a>(alloc: Global) -> Groups<'c, 'm, 'a>
    ensures { AreGroups result [] }
{
    ByText::new(alloc)
}

/// Adds the pairs of a rule with those before it.
fn add_pairs<'c, 'm, 'a>(
    alloc: Global,
    earlier: &Groups<'c, 'm, 'a>,
    candidate: &'c Candidate<'m, 'a>,
    made: &mut Vec<Pair<'c, 'm, 'a>>,
) -> Result<(), AllocError>
    ensures { OnOk result (pairs_of made.new.items ≡ pairs_of made.old.items
        ++ pairs_before (near (get_by_text earlier.now candidate.now.term.now)
        (candidate_of candidate.now)) (candidate_of candidate.now)) }
{
    let near = near(alloc, earlier, candidate)?;
    add_pairs_in(&near, candidate, made)
}

fn add_pairs_in<'c, 'm, 'a>(
    group: &[&'c Candidate<'m, 'a>],
    candidate: &'c Candidate<'m, 'a>,
    made: &mut Vec<Pair<'c, 'm, 'a>>,
) -> Result<(), AllocError>
    ensures { OnOk result (pairs_of made.new.items ≡ pairs_of made.old.items
        ++ pairs_before (candidates_at group.now) (candidate_of candidate.now)) }
{
    for other in group {
        add_pair(other, candidate, made)?;
    }
    Ok(())
}

fn add_pair<'c, 'm, 'a>(
    first: &'c Candidate<'m, 'a>,
    second: &'c Candidate<'m, 'a>,
    made: &mut Vec<Pair<'c, 'm, 'a>>,
) -> Result<(), AllocError>
    ensures { OnOk result (pairs_of made.new.items ≡ pairs_of made.old.items
        ++ pair (candidate_of first.now) (candidate_of second.now)) }
{
    if overlap(first, second) {
        made.push(Pair { first, second })?;
    }
    Ok(())
}

fn touches(pair: &Pair, number: usize) -> bool
    ensures { result ≡ touches number (pair_of pair.now) }
{
    pair.first.number == number || pair.second.number == number
}

/// Returns, for each of so many numbers, how many rules overlap with the rule of that number.
fn degrees(alloc: Global, pairs: &[Pair], count: usize) -> Result<Vec<usize>, AllocError>
    ensures count { IfOk result (λ made. length made.items ≡ count) }
    ensures each { IfOk result (λ made. AreDegrees made.items (pairs_of pairs.now)) }
{
    let mut degrees = vec![in alloc; 0; count]?;
    for pair in pairs {
        count_pair(pair, &mut degrees);
    }
    Ok(degrees)
}

/// Counts the rules of a pair.
fn count_pair(pair: &Pair, counts: &mut Vec<usize>)
    requires { (number : ℕ) → number < length counts.old.items
        → get_or counts.old.items number 0 < 18446744073709551615 }
    ensures { counts.new.items ≡ counted_pair counts.old.items (pair_of pair.now) }
{
    count_rule(pair.first.number, counts);
    if pair.second.number != pair.first.number {
        count_rule(pair.second.number, counts);
    }
}

/// Adds one to the count of a number, if it has one.
fn count_rule(number: usize, counts: &mut Vec<usize>)
    requires { number < length counts.old.items
        → get_or counts.old.items number 0 < 18446744073709551615 }
    ensures { counts.new.items ≡ counted counts.old.items number }
{
    if number < counts.len() {
        counts[number] += 1;
    }
}

/// Returns the rule that overlaps with most, of equals the last one, of so many rules. An `Err`
/// means out of memory.
fn top(alloc: Global, pairs: &[Pair], count: usize) -> Result<usize, AllocError>
    ensures { IfOk result (λ best. best ≡ top (pairs_of pairs.now) count) }
{
    let degrees = degrees(alloc, pairs, count)?;
    let mut best = 0;
    for number in 0..count {
        if degrees[best] <= degrees[number] {
            best = number;
        }
    }
    Ok(best)
}

/// Returns a rule with those that it overlaps with.
fn star_around<'c, 'm, 'a>(
    alloc: Global,
    pairs: &[Pair<'c, 'm, 'a>],
    number: usize,
) -> Result<Star<'c, 'm, 'a>, AllocError>
    ensures { IfOk result (λ made. star_of made ≡ star number (pairs_of pairs.now)) }
{
    let mut others = Vec::new(alloc);
    for pair in pairs {
        add_other(pair, number, &mut others)?;
    }
    Ok(Star {
        center: number,
        others,
    })
}

fn add_other<'c, 'm, 'a>(
    pair: &Pair<'c, 'm, 'a>,
    number: usize,
    others: &mut Vec<&'c Candidate<'m, 'a>>,
) -> Result<(), AllocError>
    ensures { OnOk result (candidates_at others.new.items ≡ candidates_at others.old.items
        ++ map (other_than number) (filter (touches number) (pair_of pair.now ∷ []))) }
{
    if pair.first.number == number {
        others.push(pair.second)?;
        return Ok(());
    }
    if pair.second.number == number {
        others.push(pair.first)?;
        return Ok(());
    }
    Ok(())
}

/// Returns the pairs without those of a rule.
fn without<'c, 'm, 'a>(
    alloc: Global,
    pairs: &[Pair<'c, 'm, 'a>],
    number: usize,
) -> Result<Vec<Pair<'c, 'm, 'a>>, AllocError>
    ensures { IfOk result (λ made. pairs_of made.items ≡ without number (pairs_of pairs.now)) }
{
    let mut made = Vec::new(alloc);
    for pair in pairs {
        if !touches(pair, number) {
            made.push(*pair)?;
        }
    }
    Ok(made)
}

/// Returns the stars of pairs among so many rules: the rule that overlaps with most, then the same
/// without it, and so on. An `Err` means out of memory.
pub fn stars<'c, 'm, 'a>(
    alloc: Global,
    count: usize,
    pairs: Vec<Pair<'c, 'm, 'a>>,
) -> Result<Vec<Star<'c, 'm, 'a>>, AllocError>
    ensures { IfOk result (λ made. stars_of made.items
        ≡ stars (length (pairs_of pairs.entry.items)) count (pairs_of pairs.entry.items)) }
{
    let mut made = Vec::new(alloc);
    let mut left = pairs;
    for _step in 0..left.len() {
        if are_none(&left) {
            return Ok(made);
        }
        left = add_star(alloc, count, &left, &mut made)?;
    }
    Ok(made)
}

fn are_none(pairs: &Vec<Pair>) -> bool
    ensures { result ≡ (length pairs.now.items == 0) }
{
    pairs.is_empty()
}

/// Adds the star of the rule that overlaps with most, and returns the pairs without it.
fn add_star<'c, 'm, 'a>(
    alloc: Global,
    count: usize,
    pairs: &Vec<Pair<'c, 'm, 'a>>,
    made: &mut Vec<Star<'c, 'm, 'a>>,
) -> Result<Vec<Pair<'c, 'm, 'a>>, AllocError>
    ensures told { IfOk result (λ _. stars_of made.new.items ≡ stars_of made.old.items
        ++ star (top (pairs_of pairs.now.items) count) (pairs_of pairs.now.items) ∷ []) }
    ensures left { IfOk result (λ left. pairs_of left.items
        ≡ without (top (pairs_of pairs.now.items) count) (pairs_of pairs.now.items)) }
{
    let center = top(alloc, pairs, count)?;
    made.push(star_around(alloc, pairs, center)?)?;
    without(alloc, pairs, center)
}
