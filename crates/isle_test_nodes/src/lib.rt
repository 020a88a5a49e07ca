//! What the tests of the syntax layer share: cases and their answers, trees of texts, and a walk
//! over the parts of trees.
//!
//! A crate that drops a tree, or puts a node into a list or a box, has to prove how each part is
//! dropped. So programs pass trees to the calls of `trees` instead.
#![tactic(auto)]

pub mod answer;
pub mod case;
pub mod parts;
pub mod trees;
