//! Calls of a program: what the words ask for, and what is told where that is no work.

ghost use Rattle.std.specs.Prelude.{◌≡◌, IfErr, IfOk, Some, map, string_bytes};
ghost use Rattle.isle_cli.specs.Arguments.{asked, given_of, work_asked};
ghost use Rattle.isle_program_findings.specs.Calls.{IsAside, TellsAside};

use isle_cli::arguments::{Argument, Options, Request, requested};
use isle_cli::failure::Failure;
use isle_cli::program::{Program, tell};
use isle_cli::usage::report_words;
use std::alloc::Global;
use std::io::Write;

/// What the words of a call ask for, where that is no work.
#[derive(Drop)]
pub enum Aside {
    Help,
    Version,
    /// Nothing, for this reason: `Usage` or `Memory`.
    Failed(Failure),
}

/// The arguments of a call that asks for work.
///
/// `words` are the command line without the program's name. The error says what they ask for in
/// place of work, or why they ask for nothing.
pub fn requested_work(
    alloc: Global,
    options: &Options,
    words: &[String],
) -> Result<Vec<Argument>, Aside>
    ensures work { IfOk result (λ arguments. asked options.now (map string_bytes words.now)
        ≡ Some (work_asked (map given_of arguments.items))) }
    ensures aside { IfErr result (IsAside options.now (map string_bytes words.now)) }
{
    match requested(alloc, options, words) {
        Ok(Request::Work(arguments)) => Ok(arguments),
        Ok(Request::Help) => Err(Aside::Help),
        Ok(Request::Version) => Err(Aside::Version),
        Err(failure) => Err(Aside::Failed(failure)),
    }
}

/// Writes the help or the version to the output, or the message of a failure of the words to
/// standard error, and returns the exit status: 0, or 5 after an error of the output, or that of
/// the failure.
///
/// An option that is none of `options` is unknown. Errors of standard error do not change the
/// status.
pub fn tell_aside<W: Write, E: Write>(
    program: &Program,
    options: &Options,
    words: &[String],
    aside: &Aside,
    output: &mut W,
    faults: &mut E,
) -> u8
    ensures { TellsAside program.now options.now (map string_bytes words.now) aside.now result
        (W.contents output.old) (W.contents output.new)
        (E.contents faults.old) (E.contents faults.new) }
{
    match aside {
        Aside::Help => tell(program, program.help, output, faults),
        Aside::Version => tell(program, program.version, output, faults),
        Aside::Failed(failure) => report_words(program, options, words, failure, faults),
    }
}
