//! The place at which the rules of a term ask for different things. Rules are compared as the
//! contracts say whatever the place is; a better one leaves fewer pairs.

use crate::candidates::Candidate;
use crate::groups::asked;
use isle_check_environment::by_text::ByText;
use isle_check_places::Place;
use std::alloc::{AllocError, Global};

/// The rules of each term, in order.
pub type Terms<'c, 'm, 'a> = ByText<Vec<&'c Candidate<'m, 'a>>>;

/// How many rules a term has at least whose rules are told apart by a place.
const FEWEST_RULES: usize = 100;

/// How many of the rules the place is chosen by, or a few less.
const SAMPLE: usize = 32;

/// How many places are tried.
const MOST_PLACES: usize = 16;

/// Returns the rules of each term. An `Err` means out of memory.
pub fn terms<'c, 'm, 'a>(
    alloc: Global,
    candidates: &'c [Candidate<'m, 'a>],
) -> Result<Terms<'c, 'm, 'a>, AllocError> {
    let mut terms = ByText::new(alloc);
    for candidate in candidates {
        add_to_term(alloc, candidate, &mut terms)?;
    }
    Ok(terms)
}

fn add_to_term<'c, 'm, 'a>(
    alloc: Global,
    candidate: &'c Candidate<'m, 'a>,
    terms: &mut Terms<'c, 'm, 'a>,
) -> Result<(), AllocError> {
    let mut rules = match terms.remove(candidate.term) {
        Some(rules) => rules,
        None => Vec::new(alloc),
    };
    rules.push(candidate)?;
    terms.insert(String::from_str(alloc, candidate.term)?, rules)?;
    Ok(())
}

/// Returns the place by which most pairs of a term's rules are told apart, as far as a sample of
/// them shows, or `None` if the rules are few. An `Err` means out of memory.
pub fn telling_place<'c, 'm, 'a>(
    alloc: Global,
    terms: &Terms<'c, 'm, 'a>,
    term: &str,
) -> Result<Option<&'m Place<'a>>, AllocError> {
    let Some(rules) = terms.get(term) else {
        return Ok(None);
    };
    if rules.len() < FEWEST_RULES {
        return Ok(None);
    }
    best_place(alloc, &sample(alloc, rules)?)
}

/// Returns rules from all parts of the list: one of each part, at another place in each, so that no
/// period of the list is met.
fn sample<'c, 'm, 'a>(
    alloc: Global,
    rules: &[&'c Candidate<'m, 'a>],
) -> Result<Vec<&'c Candidate<'m, 'a>>, AllocError> {
    let step = rules.len() / SAMPLE + 1;
    let mut made = Vec::new(alloc);
    for index in 0..rules.len() {
        let part = index / step;
        if index % step == part.saturating_mul(part) % step {
            made.push(rules[index])?;
        }
    }
    Ok(made)
}

/// Returns the place of the rule with most constraints that leaves the fewest pairs.
fn best_place<'c, 'm, 'a>(
    alloc: Global,
    rules: &[&'c Candidate<'m, 'a>],
) -> Result<Option<&'m Place<'a>>, AllocError> {
    let Some(fullest) = fullest(rules) else {
        return Ok(None);
    };
    let count = fullest.constraints.len().min(MOST_PLACES);
    let mut best = None;
    let mut least = usize::MAX;
    for index in 0..count {
        let left = pairs_left(alloc, rules, &fullest.constraints[index].at)?;
        if left < least {
            best = Some(index);
            least = left;
        }
    }
    Ok(place_at(fullest, best))
}

/// Returns the first of the rules that have most constraints.
fn fullest<'c, 'm, 'a>(rules: &[&'c Candidate<'m, 'a>]) -> Option<&'c Candidate<'m, 'a>> {
    let mut fullest = 0;
    let mut most = 0;
    for index in 0..rules.len() {
        if most < rules[index].constraints.len() {
            fullest = index;
            most = rules[index].constraints.len();
        }
    }
    rules.get(fullest).copied()
}

fn place_at<'m, 'a>(rule: &Candidate<'m, 'a>, index: Option<usize>) -> Option<&'m Place<'a>> {
    let constrained = rule.constraints.get(index?)?;
    Some(&constrained.at)
}

/// Returns how many pairs of rules are compared if the rules are told apart by this place.
fn pairs_left(alloc: Global, rules: &[&Candidate], place: &Place) -> Result<usize, AllocError> {
    let mut counts = ByText::new(alloc);
    let mut free: usize = 0;
    let mut left: usize = 0;
    for index in 0..rules.len() {
        match asked(alloc, rules[index], Some(place))? {
            Some(text) => {
                let same = count(text, &mut counts)?;
                left = left.saturating_add(free).saturating_add(same);
            }
            None => {
                left = left.saturating_add(index);
                free = free.saturating_add(1);
            }
        }
    }
    Ok(left)
}

/// Counts a text, and returns how often it was counted before.
fn count(text: String, counts: &mut ByText<usize>) -> Result<usize, AllocError> {
    let before = match counts.get(text.as_str()) {
        Some(count) => *count,
        None => 0,
    };
    counts.insert(text, before.saturating_add(1))?;
    Ok(before)
}
