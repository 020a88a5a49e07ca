//! Parts of a document of the Language Server Protocol: what folds, what a selection grows to from
//! a position, and the formatting of a part.
//!
//! Each result is made from the text of the document alone, also from one that does not parse.
//! Offsets count bytes from 0, as everywhere else.
#![tactic(auto)]

pub mod breaks;
pub mod folding;
pub mod lines;
pub mod selection;
pub mod words;
