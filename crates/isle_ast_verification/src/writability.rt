//! The models and specs that can be written as text and read back. Use `writable` of `isle_ast`,
//! which tests whole trees, rather than these parts of it. No function allocates.

pub mod models;
pub mod specs;
