//! Laws of code actions: what the tokens of a text are after an action is applied.

pub mod laws;
