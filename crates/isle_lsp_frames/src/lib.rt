//! The frames of the Language Server Protocol, each message with a header that has its length, and
//! escapes in what a client sends: those of the URIs of files, and those of JSON that no UTF-8 text
//! can hold.
#![tactic(auto)]

mod frames;
pub mod mending;
pub mod uris;

pub use frames::{FrameFault, read_frame, reads_back, write_frame};
