//! Answers about trees, for the cases of `isle_test_conformance`, also about trees that no text
//! leads to; and laws, which are contracts.
//!
//! A tree that no text leads to is the tree of a text with an edit, or a model's constant made by
//! hand. The kinds, with their numbers and words, and their trees:
//!
//! - `text TEXT`: the tree of the text
//! - `renamed TEXT FROM TO`: with the second name in place of the first, as a definition's name
//!   and in its parts
//! - `without_priority TEXT`: with rules without a priority
//! - `without_fields TEXT`: with structs and variants whose lists of fields are empty
//! - `at_places NUMBER.. TEXT`: with the fields of tuples at these places
//! - `with_form TEXT NAME`, `without_form TEXT`, `with_tag TEXT NAME`: with instantiations that
//!   have this form or none, or one more tag
//! - `with_macro_argument TEXT`: with the argument of a macro in place of the name `x`, in the
//!   patterns and conditions of rules and in the templates of extractors
//! - `argument WORD`: a variable `NAME`, its negation `!NAME`, a pair `NAME NAME`, or a pair of
//!   that and a variable
//! - `operation OPERATOR WORD..`: an operator with such arguments
//! - `bits VALUE WIDTH`: a bit vector
#![tactic(auto)]

mod apart;
mod arguments;
pub mod constants;
pub mod copies;
mod edits;
pub mod looks;
mod renaming;
pub mod templates;
pub mod told;
mod walks;
mod written;
