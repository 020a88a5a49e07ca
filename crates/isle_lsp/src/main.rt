//! `isle-lsp`: a language server for ISLE, on standard input and output.
#![tactic(auto)]

mod actions;
mod alone;
mod conversation;
mod formatting;
mod hints;
mod names;
mod program;
mod reports;
mod server;

pub use conversation::converse;
use isle_cli::failure::Failure;
use isle_cli::program::report;
use isle_cli::words::taken_words;
use isle_lsp_files::folders::Folders;
use program::PROGRAM;
pub use program::run;
use std::io::BufReader;
use std::process::ExitCode;

fn main(rt: HostRuntime) -> ExitCode {
    let (mut output, mut faults) = (rt.stdout(), rt.stderr());
    let Ok(mut input) = BufReader::new(rt.alloc(), rt.stdin()) else {
        return ExitCode::from(report(&PROGRAM, &Failure::Memory, &mut faults));
    };
    let status = match taken_words(&rt) {
        Ok(words) => run(
            rt.alloc(),
            &mut Folders::new(&rt),
            &words,
            &mut input,
            &mut output,
            &mut faults,
        ),
        Err(failure) => report(&PROGRAM, &failure, &mut faults),
    };
    ExitCode::from(status)
}
