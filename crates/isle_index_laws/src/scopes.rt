//! Laws of scopes: which variables of rules are in scope where one is read, said of trees, and that
//! the events of the trees say the same.

pub mod laws;
pub mod lints;
