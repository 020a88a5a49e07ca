//! Comparison of patterns and of expressions. Two are equal exactly if they are the same, positions
//! included.
//!
//! The comparisons are written out, because proofs can't use derived ones of recursive types.

mod expressions;
mod patterns;
