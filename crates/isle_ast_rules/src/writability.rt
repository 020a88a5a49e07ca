//! The patterns, expressions and rules that can be written as text and read back. Use `writable` of
//! `isle_ast`, which tests whole trees, rather than these parts of it. No function allocates.

mod expressions;
mod names;
mod patterns;
pub mod rules;
