//! The rules of each term, told apart by what they ask for at one place.

ghost use Rattle.std.specs.Prelude.{◌≡◌, ◌++◌, ◌∷◌, [], IfOk, List, None, OnOk};
ghost use Rattle.std.specs.Prelude.{if◌then◌else◌, option_map, string_bytes, ℕ};
ghost use Rattle.std.specs.HashMap.{UpdatesBy, get_by_text};
ghost use Rattle.std.specs.Str.{bytes_eq};
ghost use Rattle.std.specs.String.{string_eq};
ghost use Rattle.isle_check_overlaps.specs.Candidates.{CandidateNode};
ghost use Rattle.isle_check_overlaps.specs.Groups.{AreGroups, HasGroup, IsGroup, alike, alike_by};
ghost use Rattle.isle_check_overlaps.specs.Groups.{all_ranked_of, asked, asks_at, between};
ghost use Rattle.isle_check_overlaps.specs.Groups.{mixed, near, near_by, only_at, place_by};
ghost use Rattle.isle_check_overlaps.specs.Groups.{ranked_of};
ghost use Rattle.isle_check_overlaps.specs.Views.{candidate_of, candidates_at};
ghost use Rattle.isle_check_places.specs.Views.{all_constrained_of, constraint_of, place_of};

use crate::candidates::Candidate;
use crate::telling::{Terms, telling_place};
use crate::unreachable::shown;
use isle_check_environment::by_text::ByText;
use isle_check_places::{Constrained, Constraint, Place, Step, same_place};
use std::alloc::{AllocError, Global};

/// The rules of each term, in order.
pub type Groups<'c, 'm, 'a> = ByText<Group<'c, 'm, 'a>>;

/// The rules of a term.
#[derive(Drop)]
pub struct Group<'c, 'm, 'a> {
    /// A place at which many of them ask for different things.
    pub place: Option<&'m Place<'a>>,
    /// All of them.
    pub all: Vec<&'c Candidate<'m, 'a>>,
    /// Those that are free at the place: they ask for nothing there, or for several things.
    pub free: Vec<&'c Candidate<'m, 'a>>,
    /// The others, by what they ask for.
    pub alike: ByText<Vec<Ranked<'c, 'm, 'a>>>,
}

/// A rule that asks for something at the place of its group.
#[derive(Clone, Copy)]
pub struct Ranked<'c, 'm, 'a> {
    pub candidate: &'c Candidate<'m, 'a>,
    /// How many of the rules that are free there stand before it.
    pub before: usize,
}

/// Adds a rule to those of its term. An `Err` means out of memory.
pub fn add_to_group<'c, 'm, 'a>(
    alloc: Global,
    terms: &Terms<'c, 'm, 'a>,
    candidate: &'c Candidate<'m, 'a>,
    groups: &mut Groups<'c, 'm, 'a>,
) -> Result<(), AllocError>
    ensures { OnOk result ((cs : List CandidateNode) → AreGroups groups.old cs
        → AreGroups groups.new (cs ++ candidate_of candidate.now ∷ [])) }
{
    let mut group = taken(alloc, terms, candidate.term, groups)?;
    add(alloc, candidate, &mut group)?;
    groups.insert(String::from_str(alloc, candidate.term)?, group)?;
    Ok(())
}

/// Takes the group of a term away, and returns it.
fn taken<'c, 'm, 'a>(
    alloc: Global,
    terms: &Terms<'c, 'm, 'a>,
    term: &str,
    groups: &mut Groups<'c, 'm, 'a>,
) -> Result<Group<'c, 'm, 'a>, AllocError>
    ensures group { IfOk result (λ group. (cs : List CandidateNode)
        → HasGroup (get_by_text groups.old term.now) cs → IsGroup group cs) }
    ensures left { UpdatesBy string_eq (λ k. bytes_eq term.now (string_bytes k))
        groups.old groups.new None }
{
    match groups.remove(term) {
        Some(group) => Ok(group),
        None => new_group(alloc, terms, term),
    }
}

/// Returns a group of a term that has no rule yet.
fn new_group<'c, 'm, 'a>(
    alloc: Global,
    terms: &Terms<'c, 'm, 'a>,
    term: &str,
) -> Result<Group<'c, 'm, 'a>, AllocError>
    ensures { IfOk result (λ made. IsGroup made []) }
{
    Ok(Group {
        place: telling_place(alloc, terms, term)?,
        all: Vec::new(alloc),
        free: Vec::new(alloc),
        alike: ByText::new(alloc),
    })
}

fn add<'c, 'm, 'a>(
    alloc: Global,
    candidate: &'c Candidate<'m, 'a>,
    group: &mut Group<'c, 'm, 'a>,
) -> Result<(), AllocError>
    ensures { OnOk result ((cs : List CandidateNode) → IsGroup group.old cs
        → IsGroup group.new (cs ++ candidate_of candidate.now ∷ [])) }
{
    group.all.push(candidate)?;
    match asked(alloc, candidate, group.place)? {
        Some(text) => {
            let before = group.free.as_slice().len();
            add_alike(alloc, text, Ranked { candidate, before }, &mut group.alike)
        }
        None => {
            group.free.push(candidate)?;
            Ok(())
        }
    }
}

/// Adds a rule to those that ask for the same.
fn add_alike<'c, 'm, 'a>(
    alloc: Global,
    text: String,
    ranked: Ranked<'c, 'm, 'a>,
    alike: &mut ByText<Vec<Ranked<'c, 'm, 'a>>>,
) -> Result<(), AllocError>
    ensures { OnOk result ((other : List ℕ) → alike_by (get_by_text alike.new other)
        ≡ alike_by (get_by_text alike.old other)
        ++ (if bytes_eq (string_bytes text) other then ranked_of ranked.entry ∷ [] else [])) }
{
    let mut same = taken_alike(alloc, text.as_str(), alike);
    same.push(ranked)?;
    alike.insert(text, same)?;
    Ok(())
}

/// Takes the rules that ask for the same away, and returns them.
fn taken_alike<'c, 'm, 'a>(
    alloc: Global,
    text: &str,
    alike: &mut ByText<Vec<Ranked<'c, 'm, 'a>>>,
) -> Vec<Ranked<'c, 'm, 'a>>
    ensures items { all_ranked_of result.items ≡ alike_by (get_by_text alike.old text.now) }
    ensures left { UpdatesBy string_eq (λ k. bytes_eq text.now (string_bytes k))
        alike.old alike.new None }
{
    match alike.remove(text) {
        Some(same) => same,
        None => Vec::new(alloc),
    }
}

/// Returns what a rule asks for at a place, if it asks for one thing there.
pub fn asked(
    alloc: Global,
    candidate: &Candidate,
    place: Option<&Place>,
) -> Result<Option<String>, AllocError>
    ensures { IfOk result (λ text. option_map string_bytes text
        ≡ asked (place_by place.entry) (candidate_of candidate.now)) }
{
    let Some(place) = place else {
        return Ok(None);
    };
    match only_at(candidate.constraints, place) {
        Some(constraint) => Ok(Some(shown(alloc, constraint)?)),
        None => Ok(None),
    }
}

/// Returns the constraint of a place that has no other one.
fn only_at<'a>(constraints: &[Constrained<'a>], place: &[Step]) -> Option<Constraint<'a>>
    ensures { option_map constraint_of result
        ≡ only_at (place_of place.now) (all_constrained_of constraints.now) }
{
    for index in 0..constraints.len() {
        if same_place(&constraints[index].at, place) {
            if asks_at(&constraints[index + 1..], place) {
                return None;
            }
            return Some(constraints[index].constraint);
        }
    }
    None
}

fn asks_at(constraints: &[Constrained], place: &[Step]) -> bool
    ensures { result ≡ asks_at (place_of place.now) (all_constrained_of constraints.now) }
{
    for constrained in constraints {
        if same_place(&constrained.at, place) {
            return true;
        }
    }
    false
}

/// Returns the rules that a rule is compared with: those of its term that do not ask for something
/// else than it does at the place of the term. An `Err` means out of memory.
pub fn near<'c, 'm, 'a>(
    alloc: Global,
    groups: &Groups<'c, 'm, 'a>,
    candidate: &Candidate<'m, 'a>,
) -> Result<Vec<&'c Candidate<'m, 'a>>, AllocError>
    ensures { IfOk result (λ made. candidates_at made.items
        ≡ near (get_by_text groups.now candidate.now.term.now) (candidate_of candidate.now)) }
{
    let Some(group) = groups.get(candidate.term) else {
        return Ok(Vec::new(alloc));
    };
    near_by(alloc, group, asked(alloc, candidate, group.place)?)
}

fn near_by<'c, 'm, 'a>(
    alloc: Global,
    group: &Group<'c, 'm, 'a>,
    text: Option<String>,
) -> Result<Vec<&'c Candidate<'m, 'a>>, AllocError>
    ensures { IfOk result (λ made. candidates_at made.items
        ≡ near_by group.now (option_map string_bytes text)) }
{
    let mut made = Vec::new(alloc);
    let Some(text) = text else {
        made.extend_from_slice(&group.all)?;
        return Ok(made);
    };
    add_alike_and_free(text.as_str(), group, &mut made)?;
    Ok(made)
}

fn add_alike_and_free<'c, 'm, 'a>(
    text: &str,
    group: &Group<'c, 'm, 'a>,
    made: &mut Vec<&'c Candidate<'m, 'a>>,
) -> Result<(), AllocError>
    ensures { OnOk result (candidates_at made.new.items ≡ candidates_at made.old.items
        ++ mixed 0 (alike group.now text.now) (candidates_at group.now.free.items)) }
{
    match group.alike.get(text) {
        Some(same) => add_mixed(same, &group.free, made),
        None => {
            made.extend_from_slice(&group.free)?;
            Ok(())
        }
    }
}

/// Adds these rules and those that are free, in order.
fn add_mixed<'c, 'm, 'a>(
    same: &[Ranked<'c, 'm, 'a>],
    free: &[&'c Candidate<'m, 'a>],
    made: &mut Vec<&'c Candidate<'m, 'a>>,
) -> Result<(), AllocError>
    ensures { OnOk result (candidates_at made.new.items ≡ candidates_at made.old.items
        ++ mixed 0 (all_ranked_of same.now) (candidates_at free.now)) }
{
    let mut passed = 0;
    for ranked in same {
        add_between(passed, ranked.before, free, made)?;
        made.push(ranked.candidate)?;
        passed = ranked.before;
    }
    add_between(passed, free.len(), free, made)
}

/// Adds the rules from one index up to another one.
fn add_between<'c, 'm, 'a>(
    from: usize,
    to: usize,
    rules: &[&'c Candidate<'m, 'a>],
    made: &mut Vec<&'c Candidate<'m, 'a>>,
) -> Result<(), AllocError>
    ensures { OnOk result (candidates_at made.new.items ≡ candidates_at made.old.items
        ++ between from to (candidates_at rules.now)) }
{
    let to = to.min(rules.len());
    let from = from.min(to);
    made.extend_from_slice(&rules[from..to])?;
    Ok(())
}
