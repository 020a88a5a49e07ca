//! The rules that are compared with one another.

ghost use Rattle.std.specs.Prelude.{◌≡◌, ◌++◌, IfOk, OnOk, true};
ghost use Rattle.std.specs.Str.{bytes_eq};
ghost use Rattle.isle_check_overlaps.specs.Candidates.{candidate_by, candidate_of, candidates};
ghost use Rattle.isle_check_overlaps.specs.Candidates.{comes_first_and, hides};
ghost use Rattle.isle_check_overlaps.specs.Candidates.{hides_with_equals, overlap};
ghost use Rattle.isle_check_overlaps.specs.Views as views;
ghost use Rattle.isle_check_overlaps.specs.Views.{candidates_of, matching_of, matchings_of};
ghost use Rattle.isle_check_places.specs.Views.{settled_of};

use crate::matching::Matching;
use isle_base_source::pos::Pos;
use isle_check_places::{Constrained, Equality, Settled, all_follow, apart, within};
use std::alloc::{AllocError, Global};

/// A rule that is compared with others.
#[derive(Clone, Copy)]
pub struct Candidate<'m, 'a> {
    /// Its number among the rules of the program.
    pub number: usize,
    pub term: &'a str,
    pub prio: i64,
    pub pos: Pos,
    pub constraints: &'m Vec<Constrained<'a>>,
    /// The equal places without a constraint.
    pub equal: &'m Vec<Equality<'a>>,
    /// Whether there are none.
    pub is_plain: bool,
    /// Whether it looks at each of several answers, of which there may be none.
    pub has_several: bool,
}

/// Returns the rules that are compared, in order. An `Err` means out of memory.
pub fn candidates<'m, 'a>(
    alloc: Global,
    matchings: &'m [Matching<'a>],
) -> Result<Vec<Candidate<'m, 'a>>, AllocError>
    ensures { IfOk result (λ made. candidates_of made.items
        ≡ candidates 0 (matchings_of matchings.now)) }
{
    let mut made = Vec::new(alloc);
    for number in 0..matchings.len() {
        add_candidate(number, &matchings[number], &mut made)?;
    }
    Ok(made)
}

fn add_candidate<'m, 'a>(
    number: usize,
    matching: &'m Matching<'a>,
    made: &mut Vec<Candidate<'m, 'a>>,
) -> Result<(), AllocError>
    ensures { OnOk result (candidates_of made.new.items ≡ candidates_of made.old.items
        ++ candidate_of number (matching_of matching.now)) }
{
    if !matching.clashes.is_empty() || matching.is_multi {
        return Ok(());
    }
    add_settled(number, matching, &matching.settled, made)
}

fn add_settled<'m, 'a>(
    number: usize,
    matching: &'m Matching<'a>,
    settled: &'m Settled<'a>,
    made: &mut Vec<Candidate<'m, 'a>>,
) -> Result<(), AllocError>
    ensures { OnOk result (candidates_of made.new.items ≡ candidates_of made.old.items
        ++ candidate_by number (matching_of matching.now) (settled_of settled.now)) }
{
    match settled {
        Settled::Settled(constraints, equal) => {
            made.push(Candidate {
                number,
                term: matching.term,
                prio: matching.prio,
                pos: matching.pos,
                constraints,
                equal,
                is_plain: equal.is_empty(),
                has_several: matching.has_several,
            })?;
            Ok(())
        }
        Settled::Unequal | Settled::Endless => Ok(()),
    }
}

/// Returns whether two rules are of one term. Most terms differ in length, which is found at once.
#[tactic(auto, using(crate::proofs::TermLemmas::other_lengths))]
fn is_of_one_term(a: &Candidate, b: &Candidate) -> bool
    ensures { result
        ≡ bytes_eq (views.candidate_of a.now).term (views.candidate_of b.now).term }
{
    a.term.len() == b.term.len() && a.term == b.term
}

/// Returns whether two rules of one term and priority may match one value.
pub fn overlap(a: &Candidate, b: &Candidate) -> bool
    ensures { result ≡ overlap (views.candidate_of a.now) (views.candidate_of b.now) }
{
    a.prio == b.prio && is_of_one_term(a, b) && !apart(a.constraints, b.constraints)
}

/// Returns whether the first rule hides the second one.
pub fn hides(high: &Candidate, low: &Candidate) -> bool
    ensures { result ≡ hides (views.candidate_of high.now) (views.candidate_of low.now) }
{
    high.is_plain
        && low.is_plain
        && comes_first(high, low)
        && within(high.constraints, low.constraints)
}

/// Returns whether the first rule hides the second one, which has equal places without a
/// constraint. An `Err` means out of memory.
pub fn hides_with_equals<'c, 'm, 'a>(
    alloc: Global,
    high: &'c Candidate<'m, 'a>,
    low: &'c Candidate<'m, 'a>,
) -> Result<bool, AllocError>
    ensures { IfOk result (λ hides. hides
        ≡ hides_with_equals (views.candidate_of high.now) (views.candidate_of low.now)) }
{
    if low.is_plain || high.has_several || !comes_first(high, low) {
        return Ok(false);
    }
    if !within(high.constraints, low.constraints) {
        return Ok(false);
    }
    all_follow(alloc, high.equal, low.equal)
}

/// Returns whether the first rule is of a higher priority than the second one, and of its term.
fn comes_first(high: &Candidate, low: &Candidate) -> bool
    ensures { result
        ≡ comes_first_and true (views.candidate_of high.now) (views.candidate_of low.now) }
{
    low.prio < high.prio && is_of_one_term(high, low)
}
