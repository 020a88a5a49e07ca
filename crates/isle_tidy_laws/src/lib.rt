//! Laws of tidy texts, trees and prints: `tidy` keeps the tree of a text, the lines of a list have
//! one column, and the output of the printer is tidy at every width.
#![tactic(auto)]

pub mod formatting;
pub mod laws;
