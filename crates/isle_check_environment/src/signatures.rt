//! What the definitions of a program declare for the typing of its rules, by text: types,
//! constants, terms, templates and converters. Lookups take constant time.

pub mod by_texts;
mod constants;
mod converters;
mod environment;
mod externals;
mod templates;
mod terms;
mod types;

pub use environment::Environment;
pub use terms::Term;
