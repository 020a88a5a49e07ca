//! What the programs that find mistakes share: calls, options with names, programs that share
//! texts, and whole reports.
#![tactic(auto)]

pub mod calls;
pub mod naming;
pub mod programs;
pub mod report;
