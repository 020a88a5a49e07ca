//! The part of ISLE's printer that turns specs into S-expressions.
#![tactic(auto)]

pub mod bit_vectors;
pub mod definitions;
pub mod models;
pub mod operators;
pub mod spec_expressions;
