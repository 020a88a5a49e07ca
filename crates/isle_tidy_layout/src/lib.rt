//! The layout of `isle_tidy_core`: where the entries of a document are placed.
//!
//! A document is a flat list of entries. Each is a lexeme as it is written (`(`, `)`, `@`, an atom,
//! a line comment or a block comment) with the gap before it. The layout keeps the author's lines,
//! and fixes columns and gaps. It knows nothing of definitions. Columns count characters.
#![tactic(auto)]

mod changes;
pub mod columns;
pub mod entries;
pub mod laws;
pub mod placer;
pub mod placing;
mod stack;
