//! Rules that match nothing, that overlap with others, or that hide others.
#![tactic(auto)]

mod candidates;
mod equal_shadows;
mod fault;
mod groups;
mod matching;
mod overlaps;
mod stars;
mod telling;
mod unreachable;

pub use fault::{Comparison, Fault, Kind, Other};
pub use matching::Matching;
pub use overlaps::{MOST_TOLD, compare};
