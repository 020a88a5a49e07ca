//! What the definitions of a program declare: its types and terms by name, and its definitions by
//! kind. Lookups take constant time.
#![tactic(auto)]

pub mod by_text;
pub mod names;
pub mod parts;
pub mod signatures;
pub mod terms;
pub mod types;
