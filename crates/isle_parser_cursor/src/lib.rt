//! The part of the parser that takes tokens from a text: single tokens, numbers and names. The
//! parsers of specs, rules and definitions build on it.
#![tactic(auto)]

pub mod cursor;
