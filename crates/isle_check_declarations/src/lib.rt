//! The errors of the declarations of a program. Upstream reports them in groups: those of a group
//! only if no earlier group has any.
#![tactic(auto)]

mod fault;
pub mod lookup;
pub mod naming;
mod terms;
mod types;

pub use fault::{Fault, Kind, add_fault};
pub use terms::term_faults;
pub use types::type_faults;
