//! The ends of a text's comments and integers, and whether a `-` is a symbol, for crates that read
//! a text together with its comments.
//!
//! `isle_syntax` does not export this module. Offsets are in bytes.

pub use crate::scanner::literal::integer_end;
pub use crate::scanner::read::is_lone_minus_at;
pub use crate::scanner::skips::{block_comment_end, opens_at};
