//! `isle-tidy [OPTION ..] [FILE ..]`: fixes the indentation and spacing of ISLE source, and keeps
//! all comments and line breaks.
#![tactic(auto)]

mod in_place;
mod listings;
mod manifests;
mod pieces;
mod program;

use isle_cli::program::report;
use isle_cli::streams::Streams;
use isle_cli::words::taken_words;
use isle_program_manifest::asking::asked_programs;
use manifests::OPTIONS;
pub use manifests::run_programs;
use program::PROGRAM;
pub use program::run;
use std::process::ExitCode;

fn main(rt: HostRuntime) -> ExitCode {
    let mut streams = Streams::new(rt.stdin(), rt.stdout(), rt.stderr());
    let status = match taken_words(&rt) {
        Ok(words) => match asked_programs(rt.alloc(), &OPTIONS, &words) {
            Some(arguments) => run_programs(&rt, &arguments, &mut streams),
            None => run(&rt, &words, &mut streams),
        },
        Err(failure) => report(&PROGRAM, &failure, &mut streams.faults),
    };
    ExitCode::from(status)
}
