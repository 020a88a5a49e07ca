//! The command-line parts that the programs share: arguments, the files that they name, whole reads
//! and writes of streams, and the messages of failures.
#![tactic(auto)]

pub mod arguments;
pub mod failure;
pub mod folders;
pub mod messages;
pub mod patterns;
pub mod program;
pub mod sources;
pub mod streams;
pub mod usage;
pub mod words;
