//! The message of an error without its place, for crates that display errors in their own way.
//!
//! `isle_syntax` does not export this module.

pub use crate::error::show::write_message;
