//! Equal places that follow from others.

ghost use Rattle.std.specs.Prelude.{◌≡◌, [], IfOk};
ghost use Rattle.std.specs.List.{list_all};
ghost use Rattle.isle_check_places.specs.Following.{all_follow, are_joined, joins_after};
ghost use Rattle.isle_check_places.specs.Following.{stands_for};
ghost use Rattle.isle_check_places.specs.JoinView.{joins_of};
ghost use Rattle.isle_check_places.specs.Views.{all_equalities_of, place_of};

use crate::places::{Step, same_place};
use crate::settling::Equality;
use std::alloc::{AllocError, Global};

/// A place, and the one that stands for it.
#[derive(Clone, Copy)]
pub struct Join<'e, 'a> {
    pub from: &'e [Step<'a>],
    pub to: &'e [Step<'a>],
}

/// Returns whether each of these equalities follows from those of `from`. An `Err` means out of
/// memory.
pub fn all_follow<'e, 'a>(
    alloc: Global,
    equal: &'e [Equality<'a>],
    from: &'e [Equality<'a>],
) -> Result<bool, AllocError>
    ensures { IfOk result (λ all. all
        ≡ all_follow (all_equalities_of equal.now) (all_equalities_of from.now)) }
{
    let joins = joins(alloc, from)?;
    Ok(are_all_joined(equal, &joins))
}

/// Returns the places that stand for others: of each two that are equal, what stands for the second
/// one stands for what stands for the first one.
fn joins<'e, 'a>(alloc: Global, equal: &'e [Equality<'a>]) -> Result<Vec<Join<'e, 'a>>, AllocError>
    ensures { IfOk result
        (λ made. joins_of made.items ≡ joins_after [] (all_equalities_of equal.now)) }
{
    let mut made = Vec::new(alloc);
    for equality in equal {
        let join = Join {
            from: stands_for(&made, &equality.left),
            to: stands_for(&made, &equality.right),
        };
        made.push(join)?;
    }
    Ok(made)
}

/// Returns the place that stands for a place.
fn stands_for<'e, 'a>(joins: &[Join<'e, 'a>], at: &'e [Step<'a>]) -> &'e [Step<'a>]
    ensures { place_of result.now ≡ stands_for (joins_of joins.now) (place_of at.now) }
{
    let mut place = at;
    for join in joins {
        if same_place(place, join.from) {
            place = join.to;
        }
    }
    place
}

fn are_all_joined<'e, 'a>(equal: &'e [Equality<'a>], joins: &[Join<'e, 'a>]) -> bool
    ensures { result
        ≡ list_all (are_joined (joins_of joins.now)) (all_equalities_of equal.now) }
{
    for equality in equal {
        let left = stands_for(joins, &equality.left);
        let right = stands_for(joins, &equality.right);
        if !same_place(left, right) {
            return false;
        }
    }
    true
}
