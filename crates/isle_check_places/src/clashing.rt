//! Places that have two constraints.

ghost use Rattle.std.specs.Prelude.{◌≡◌, ◌++◌, [], IfOk, OnOk, option_map};
ghost use Rattle.isle_check_places.specs.Clashes.{clash, clashes_after};
ghost use Rattle.isle_check_places.specs.Views.{all_constrained_of, clashes_of, constraint_of};

use crate::places::{Constrained, Constraint, same_constraint};
use crate::settling::constraint_at;
use std::alloc::{AllocError, Global};

/// Two constraints of one place that differ.
#[derive(Clone, Copy)]
pub struct Clash<'a> {
    pub first: Constraint<'a>,
    pub second: Constraint<'a>,
}

/// Returns the constraints that differ from the first one of their place, in order. An `Err` means
/// out of memory.
pub fn clashes<'a>(
    alloc: Global,
    constraints: &[Constrained<'a>],
) -> Result<Vec<Clash<'a>>, AllocError>
    ensures { IfOk result (λ made. clashes_of made.items
        ≡ clashes_after [] (all_constrained_of constraints.now)) }
{
    let mut made = Vec::new(alloc);
    for index in 0..constraints.len() {
        let constrained = &constraints[index];
        let first = constraint_at(&constraints[..index], &constrained.at);
        add_clash(first, constrained.constraint, &mut made)?;
    }
    Ok(made)
}

fn add_clash<'a>(
    first: Option<Constraint<'a>>,
    second: Constraint<'a>,
    made: &mut Vec<Clash<'a>>,
) -> Result<(), AllocError>
    ensures { OnOk result (clashes_of made.new.items ≡ clashes_of made.old.items
        ++ clash (option_map constraint_of first.entry) (constraint_of second.entry)) }
{
    let Some(first) = first else {
        return Ok(());
    };
    if same_constraint(&first, &second) {
        return Ok(());
    }
    made.push(Clash { first, second })?;
    Ok(())
}
