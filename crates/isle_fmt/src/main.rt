//! `isle-fmt [WIDTH]`: formats ISLE source from standard input to standard output.
#![tactic(auto)]

mod program;

use isle_cli::program::report;
use isle_cli::streams::Streams;
use isle_cli::words::taken_words;
use program::PROGRAM;
pub use program::run;
use std::process::ExitCode;

fn main(rt: HostRuntime) -> ExitCode {
    let mut streams = Streams::new(rt.stdin(), rt.stdout(), rt.stderr());
    let status = match taken_words(&rt) {
        Ok(words) => run(rt.alloc(), &words, &mut streams),
        Err(failure) => report(&PROGRAM, &failure, &mut streams.faults),
    };
    ExitCode::from(status)
}
