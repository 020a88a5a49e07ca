//! The texts of the Language Server Protocol: positions by lines and units of an encoding, changes,
//! and the edits that turn one text into another; and what an ISLE text has at a byte offset.
//!
//! Offsets count bytes from 0, as everywhere else. Lines and units are counted from 0. A line ends
//! with LF, with CR LF, or with a CR that no LF follows.
#![tactic(auto)]

pub mod calls;
pub mod changes;
pub mod comments;
pub mod definitions;
pub mod edits;
pub mod implementations;
pub mod laws;
pub mod lists;
pub mod names;
pub mod numbers;
pub mod positions;
pub mod ranges;
pub mod wholes;
