//! The implicit conversions that an expansion of extractors may lose.
//!
//! If a term in a pattern has another type than is wanted there, the compiler wraps it in the term
//! of a `convert`. `warnings` finds where the expansion of extractors may lose that.
#![tactic(auto)]

mod conversions;
mod placed;
mod types;
pub mod variants;

pub use conversions::{Warning, warnings};
