//! Values that two rules of one term match, written as patterns.

pub mod laws;
mod next;
mod said;
mod shapes;
mod values;
mod written;

pub use values::{Value, value_of_both};
