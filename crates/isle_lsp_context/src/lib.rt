//! The context of a place in an ISLE text, for the Language Server Protocol: what may stand there,
//! and which call it is in; and the signature that a declaration shows.
//!
//! All are made from the tokens of a text alone, also of one that does not parse. Offsets count
//! bytes from 0, as everywhere else.
#![tactic(auto)]

pub mod calls;
pub mod offers;
mod parameters;
pub mod places;
mod scanning;
pub mod signatures;
pub mod slot;
mod steps;
mod units;
