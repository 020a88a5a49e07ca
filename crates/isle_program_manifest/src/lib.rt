//! The file `isle.toml`: which files make a program, and what findings count for.
//!
//! ISLE has no imports, so a manifest lists the programs of a folder:
//!
//! ```toml
//! exclude = ["target/old"]
//!
//! [lints.isle-lint]
//! unused-let = "warn"
//!
//! [[program]]
//! name = "x64"
//! files = ["src/prelude.isle", "src/isa/x64", "target/isle/*.isle"]
//! ```
//!
//! The entries of `files` are paths relative to the manifest's folder, with `/`. A folder stands
//! for each `.isle` file below it, in order of path, and `*` for any characters of a name but `/`.
//! What an entry of `exclude` covers is in no program, but for a path that is itself an entry of
//! `files`. `lints` has a table for each of two tools, with the levels of what it finds.
//!
//! | To | Call |
//! |---|---|
//! | find the manifest of a folder, which is at or above it | `disk::find` |
//! | get the programs and the levels of its text, or its first mistake | `manifest::manifest_of` |
//! | use levels as options | `levels::add_levels` |
//! | tell that a tool does not know the name of a level | `choice::unknown_level` |
//! | list the files of a program, and the entries that stand for none | `disk::paths_of` |
//! | know whether an entry stands for a path, also of a new file | `isle_cli::patterns::covers` |
//! | know whether a program has a path, also of a new file | `disk::is_listed` |
//! | know which of several programs have a file | `membership::programs_with` |
//! | list the files of all programs that have a file | `membership::union_with` |
//! | choose programs by name, for a command line | `choice::choose` |
//! | choose those that a command line asks for, and read them | `asking::chosen_programs` |
//! | choose them with the levels of their manifest | `asking::asked_choice` |
//!
//! All but `disk`, `choice` and `asking` are functions of texts, whose contracts say exactly what
//! they return. No contract can say what is on the disk. Only `asking::tell_choice` prints.
#![tactic(auto)]

pub mod asking;
pub mod choice;
pub mod disk;
pub mod levels;
pub mod manifest;
pub mod membership;
mod mistakes;
mod places;
mod values;
