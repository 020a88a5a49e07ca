//! Constraints of rules, compared.

ghost use Rattle.std.specs.Prelude.{◌≡◌};
ghost use Rattle.std.specs.List.{list_any};
ghost use Rattle.isle_check_places.specs.Comparing.{apart, differ, is_in, within};
ghost use Rattle.isle_check_places.specs.Views.{all_constrained_of, constrained_of};

use crate::places::{Constrained, same_constraint, same_place};

/// Returns whether some place has different constraints.
pub fn apart(a: &[Constrained], b: &[Constrained]) -> bool
    ensures { result ≡ apart (all_constrained_of a.now) (all_constrained_of b.now) }
{
    for constrained in a {
        if differs(constrained, b) {
            return true;
        }
    }
    false
}

fn differs(constrained: &Constrained, others: &[Constrained]) -> bool
    ensures { result ≡ list_any (λ d. differ (constrained_of constrained.now) d)
        (all_constrained_of others.now) }
{
    for other in others {
        if !same_constraint(&constrained.constraint, &other.constraint)
            && same_place(&constrained.at, &other.at)
        {
            return true;
        }
    }
    false
}

/// Returns whether each of the first constraints is one of the second.
pub fn within(a: &[Constrained], b: &[Constrained]) -> bool
    ensures { result ≡ within (all_constrained_of a.now) (all_constrained_of b.now) }
{
    for constrained in a {
        if !is_in(constrained, b) {
            return false;
        }
    }
    true
}

fn is_in(constrained: &Constrained, others: &[Constrained]) -> bool
    ensures { result ≡ is_in (constrained_of constrained.now) (all_constrained_of others.now) }
{
    for other in others {
        if same_constraint(&constrained.constraint, &other.constraint)
            && same_place(&constrained.at, &other.at)
        {
            return true;
        }
    }
    false
}
