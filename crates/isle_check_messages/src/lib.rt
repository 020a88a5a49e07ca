//! The messages of errors and warnings.
#![tactic(auto)]

mod declarations;
mod notes;
mod overlaps;
mod rules;
mod words;

pub use declarations::declaration_words;
pub use notes::{Note, overlap_notes};
pub use overlaps::overlap_words;
pub use rules::rule_words;
pub use words::{Words, about, about_three, about_two, no_words, plain};
