//! Laws of names. Those of renaming are about trees, tokens (`laws`) and texts (`edits`), and about
//! which names can be renamed, and what they mean afterwards (`names`). `scopes` says what each
//! variable means, and what each lint finds; `actions` what a code action leaves.
#![tactic(auto)]

pub mod actions;
pub mod edits;
pub mod laws;
pub mod names;
pub mod scopes;
