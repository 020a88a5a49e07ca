//! The printer of ISLE.
#![tactic(auto)]

pub mod lines;
pub mod printer;
