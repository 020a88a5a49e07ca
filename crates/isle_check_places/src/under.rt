//! Where the values of patterns lie in the value of a place.

ghost use Rattle.std.specs.Prelude.{◌≡◌, IfOk};
ghost use Rattle.isle_check_places.specs.Under.{parts_of, place_under};
ghost use Rattle.isle_check_places.specs.UnderView.{under_of};
ghost use Rattle.isle_check_places.specs.Views.{place_of};

use crate::places::{Place, Step, begin, copied, step_on};
use std::alloc::{AllocError, Global};

/// Where the values of patterns lie in the value of a place.
#[derive(Clone, Copy)]
pub enum Under<'a> {
    /// The value itself.
    Same,
    /// The arguments of the rule's term.
    Arguments,
    /// The fields of a variant.
    Fields(&'a str),
    /// The parts of an answer.
    Parts,
}

/// Returns the place of the value of the pattern with this index. An `Err` means out of memory.
pub fn place_under<'a>(
    alloc: Global,
    under: Under<'a>,
    index: usize,
    at: &[Step<'a>],
) -> Result<Place<'a>, AllocError>
    ensures { IfOk result
        (λ made. place_of made.items ≡ place_under (under_of under.entry) index (place_of at.now)) }
{
    match under {
        Under::Same => copied(alloc, at),
        Under::Arguments => begin(alloc, Step::Argument(index)),
        Under::Fields(variant) => step_on(alloc, at, Step::Field(variant, index)),
        Under::Parts => step_on(alloc, at, Step::Part(index)),
    }
}

/// Returns where the values of so many patterns of an extractor lie in its answer.
pub fn parts_of<'a>(count: usize) -> Under<'a>
    ensures { under_of result ≡ parts_of count }
{
    if count == 1 {
        Under::Same
    } else {
        Under::Parts
    }
}
