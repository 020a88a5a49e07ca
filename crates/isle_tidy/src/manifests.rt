//! The files of the programs of a manifest.

ghost use Rattle.std.specs.Prelude.{◌≡◌, ◌≤◌, ◌⊎◌, IfErr, IfOk, None, map};
ghost use Rattle.std.specs.Io.KnownBytes.{Keeps};
ghost use Rattle.isle_cli.specs.Arguments.{given_of};
ghost use Rattle.isle_cli.specs.declared.failure.Failure.TheVariants.{Memory, Usage};
ghost use Rattle.isle_tidy.specs.Doing.{EndsPrograms, listing_of};

use crate::listings::listing_of;
use crate::program::{PROGRAM, Task, run_on_paths, tell_changes, this_program};
use isle_cli::arguments::{Argument, EXCLUDE_OPTION, Options, stdin_name_of};
use isle_cli::failure::Failure;
use isle_cli::program::report;
use isle_cli::streams::{Streams, write_whole};
use isle_program_manifest::asking::{
    ALL_OPTION, NAME_OPTION, all_paths, chosen_programs, tell_choice,
};
use isle_program_manifest::choice::missing_notes;
use std::env::Env;
use std::fs::Files;
use std::io::Write;

/// The options with those that ask for programs of a manifest.
pub const OPTIONS: Options = Options {
    flags: &["--check", "--diff", ALL_OPTION],
    settings: &[EXCLUDE_OPTION, NAME_OPTION],
};

/// Tidies the files of programs of the nearest manifest in place, each once, and returns the exit
/// status, which is that of `run`; it is 2 for a manifest with a mistake, and 3 without a manifest.
///
/// Standard error gets a line for each entry without a file, and with `--check` or `--diff` how
/// many files would change, if any would. No contract can say which files there are.
pub fn run_programs<R: Files + Env + AllocGlobal + Clone + Drop, I, W: Write, E: Write>(
    rt: &R,
    arguments: &[Argument],
    streams: &mut Streams<I, W, E>,
) -> u8
    ensures statuses { result ≤ 5 }
    ensures ends { EndsPrograms (listing_of (map given_of arguments.now)) result
        (W.contents streams.old.output) (W.contents streams.new.output) }
    // Where nothing is found, and where files are tidied in place, the output is left alone.
    ensures unwritten { result ≡ 0
        → Keeps (W.contents streams.old.output) (W.contents streams.new.output) }
    ensures in_place { listing_of (map given_of arguments.now) ≡ None
        → Keeps (W.contents streams.old.output) (W.contents streams.new.output) }
{
    match tidy_programs(rt, arguments, streams) {
        Ok(status) => status,
        Err(failure) => report(&PROGRAM, &failure, &mut streams.faults),
    }
}

fn tidy_programs<R: Files + Env + AllocGlobal + Clone + Drop, I, W: Write, E: Write>(
    rt: &R,
    arguments: &[Argument],
    streams: &mut Streams<I, W, E>,
) -> Result<u8, Failure>
    ensures ok { IfOk result (λ status.
        EndsPrograms (listing_of (map given_of arguments.now)) status
        (W.contents streams.old.output) (W.contents streams.new.output)) }
    ensures err { IfErr result (λ failure. (failure ≡ Memory) ⊎ (failure ≡ Usage)) }
    ensures kept { IfErr result
        (λ _. Keeps (W.contents streams.old.output) (W.contents streams.new.output)) }
{
    let programs = match chosen_programs(rt, &PROGRAM, arguments)? {
        Ok(programs) => programs,
        Err(fault) => {
            let status = tell_choice(fault, &mut streams.faults)?;
            return Ok(status);
        }
    };
    let notes = missing_notes(rt, &PROGRAM, &programs)?;
    let paths = all_paths(rt.alloc(), &programs)?;
    let _ = write_whole(&mut streams.faults, notes.as_bytes());
    let program = this_program();
    let task = Task {
        program: &program,
        listing: listing_of(arguments),
        stdin_name: stdin_name_of(arguments),
        arguments,
    };
    let (output, faults) = (&mut streams.output, &mut streams.faults);
    let mut untidy = 0;
    let status = run_on_paths(rt, &task, &paths, output, faults, &mut untidy);
    tell_changes(rt.alloc(), &task, status, untidy, faults);
    Ok(status)
}
