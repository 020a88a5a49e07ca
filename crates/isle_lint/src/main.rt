//! `isle-lint [OPTION ..] [FILE ..]`: lints ISLE source.
#![tactic(auto)]

mod linted;
mod manifests;
mod options;
mod program;
mod programs;
mod report;

use isle_cli::program::report as report_failure;
use isle_cli::streams::Streams;
use isle_cli::words::taken_words;
use isle_program::reports::terminals::shows_colours;
use isle_program_manifest::asking::asked_programs;
use manifests::OPTIONS;
pub use manifests::run_programs;
use program::PROGRAM;
pub use program::run;
use std::env::Env;
use std::fs::Files;
use std::io::{Read, Write};
use std::process::ExitCode;

fn main(rt: HostRuntime) -> ExitCode {
    let mut streams = Streams::new(rt.stdin(), rt.stdout(), rt.stderr());
    let status = match taken_words(&rt) {
        Ok(words) => run_words(&rt, &words, &mut streams),
        Err(failure) => report_failure(&PROGRAM, &failure, &mut streams.faults),
    };
    ExitCode::from(status)
}

/// Does what the words ask for, and returns the exit status.
fn run_words<R: Files + Env + AllocGlobal + Clone + Drop, I: Read, W: Write, E: Write>(
    rt: &R,
    words: &[String],
    streams: &mut Streams<I, W, E>,
) -> u8 {
    let shows_colours = shows_colours(rt);
    match asked_programs(rt.alloc(), &OPTIONS, words) {
        Some(arguments) => run_programs(rt, arguments, shows_colours, streams),
        None => run(rt, words, shows_colours, streams),
    }
}
