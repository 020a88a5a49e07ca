//! The messages of the Language Server Protocol as JSON, and the life of a session.
#![tactic(auto)]

pub mod capabilities;
pub mod decoding;
pub mod items;
pub mod machine;
pub mod parameters;
pub mod replies;
pub mod results;
pub mod watching;
pub mod writing;
