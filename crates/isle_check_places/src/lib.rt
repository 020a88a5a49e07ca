//! Places, which name the values that the rules of a term look at; what the values must be; and
//! what follows from places that are equal.
#![tactic(auto)]

mod clashing;
mod comparing;
mod following;
mod places;
mod settling;
mod under;
pub mod values;

pub use clashing::{Clash, clashes};
pub use comparing::{apart, within};
pub use following::all_follow;
pub use places::{
    Constrained, Constraint, Place, Step, begin, copied, same_constraint, same_place, step_on,
};
pub use settling::{Equality, Settled, constraint_at, settle};
pub use under::{Under, parts_of, place_under};
