//! The errors of a program, as upstream's compiler reports them, and warnings.
#![tactic(auto)]

mod checks;
mod finding;
mod kinds;
mod warnings;

pub use checks::{RULE_DEPTH, check};
pub use finding::{Finding, Kind};
pub use isle_check_messages::{Note, Words};
pub use kinds::is_kind;
