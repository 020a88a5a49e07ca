//! The base of the ISLE syntax layer: source positions, tokens, the lexer and errors.
//!
//! Positions, source files and errors are defined in `isle_base_source`, and re-exported here under
//! their upstream names.
#![tactic(auto)]

pub mod diagnostics;
pub mod ends;
pub mod fault;
pub mod lexer;
pub mod scanner;
pub mod token;

pub use isle_base_source::{error, files};
