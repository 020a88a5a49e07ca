//! The types of patterns: the typed pattern of a pattern, the variables that it binds and its
//! errors, as upstream reports them.
#![tactic(auto)]

pub mod expressions;
mod fault;
pub mod laws;
mod leaves;
mod names;
mod parts;
mod patterns;
mod progress;
mod refusal;
mod tells;
mod typed;

pub use fault::{Fault, Kind};
pub use names::known_term;
pub use patterns::{type_arguments, type_pattern};
pub use progress::{Found, Progress, Variable, bind, find, hide_since, no_progress, tell};
pub use refusal::Refusal;
pub use typed::TypedPattern;
