//! The syntax tree of ISLE.
#![tactic(auto)]

pub mod ast;
