//! Several files read as one program: their trees, how deep their texts nest, messages about
//! positions in them, the comments that disable lints, and whether they look like several programs.
#![tactic(auto)]

pub mod allowances;
pub mod messages;
pub mod nesting;
pub mod openings;
pub mod reports;
pub mod several_programs;
pub mod trees;
