//! The parser of ISLE's specs: models of types, spec expressions, and the definitions made of them.
#![tactic(auto)]

pub mod models;
mod operators;
pub mod spec_definitions;
pub mod spec_expressions;
mod spec_words;
