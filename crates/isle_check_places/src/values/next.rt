//! How places go on from another one.

ghost use Rattle.std.specs.Prelude.{◌≡◌, option_map};
ghost use Rattle.isle_check_places.specs.Views.{all_constrained_of, place_of, step_of};
ghost use Rattle.isle_check_places.specs.values.Next.{goes_on_with_each, next_step};

use crate::{Constrained, Step, same_place};

/// Returns the step of a place behind those of another one, if it begins with these and goes on.
pub fn next_step<'a>(at: &[Step], place: &[Step<'a>]) -> Option<Step<'a>>
    ensures { option_map step_of result ≡ next_step (place_of at.now) (place_of place.now) }
{
    let count = at.len();
    if place.len() <= count {
        return None;
    }
    if same_place(at, &place[..count]) {
        Some(place[count])
    } else {
        None
    }
}

/// Returns whether some constrained place goes on from this one with each of several answers.
pub fn goes_on_with_each(constraints: &[Constrained], at: &[Step]) -> bool
    ensures { result
        ≡ goes_on_with_each (all_constrained_of constraints.now) (place_of at.now) }
{
    for constrained in constraints {
        if matches!(next_step(at, &constrained.at), Some(Step::Each)) {
            return true;
        }
    }
    false
}
