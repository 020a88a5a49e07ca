//! Source files, positions in them, and errors.
#![tactic(auto)]

pub mod error;
pub mod files;
pub mod laws;
pub mod messages;
pub mod pos;
