//! The parser of the ISLE language.
#![tactic(auto)]

pub mod dropping;
pub mod parser;
