//! Which name of ISLE definitions means which definition. The definitions and uses of names, and
//! the ends of scopes, are one flat list of events, in the order in which scopes are entered. What
//! each name means follows from this list alone.
#![tactic(auto)]

mod definitions;
pub mod event;
pub mod laws;
pub mod names;
mod rules;
pub mod scopes;
mod types;

pub use definitions::{add_events, events};
