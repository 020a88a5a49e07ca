//! The texts that a language server answers from: the documents that an editor has open, and the
//! files of its folders, which are read anew at each look at the disk.
#![tactic(auto)]

pub mod disk;
pub mod documents;
pub mod folders;
pub mod texts;
