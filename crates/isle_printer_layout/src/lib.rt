//! The base of ISLE's printer: S-expressions and their layout.
#![tactic(auto)]

pub mod laws;
mod layout;
mod looks;
pub mod names;
mod sexpr;
mod sexprs;
mod tape;

pub use layout::{fits, put};
pub use looks::Looks;
pub use sexpr::{PrintFault, SExpr};
pub use sexprs::{put_sexpr, sexpr_of};
pub use tape::{Pieces, Tape};
