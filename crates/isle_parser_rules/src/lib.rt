//! The parser of ISLE's rules: patterns, expressions, conditions, rules and extractors.
#![tactic(auto)]

mod expressions;
pub mod names;
mod patterns;
pub mod rules;
