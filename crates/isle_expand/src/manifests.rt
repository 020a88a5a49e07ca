//! A program of a manifest.

ghost use Rattle.std.specs.Prelude.{◌≡◌, ◌≢◌, ◌≤◌, IfErr, IfOk, map};
ghost use Rattle.std.specs.Io.KnownBytes.{Keeps};
ghost use Rattle.isle_cli.specs.Arguments.{given_of};
ghost use Rattle.isle_expand.specs.Doing.{CutsTexts, EndsTexts, ExpandsTexts, ExplainsTexts};

use crate::options::{PROGRAM, width_of};
use crate::program::{Taken, put_program};
use isle_cli::arguments::{Argument, EXCLUDE_OPTION, Options};
use isle_cli::failure::Failure;
use isle_cli::program::report;
use isle_cli::streams::{Streams, write_whole};
use isle_program_manifest::asking::{NAME_OPTION, chosen_programs, read_texts, tell_choice};
use isle_program_manifest::choice::missing_notes;
use std::env::Env;
use std::fs::Files;
use std::io::Write;

/// The options with that which asks for a program of a manifest.
pub const OPTIONS: Options = Options {
    flags: &[],
    settings: &["--width", EXCLUDE_OPTION, NAME_OPTION],
};

/// Inlines the extractors of a program of the nearest manifest, prints the result, and returns the
/// exit status, which is that of `run`; it is 2 for a manifest with a mistake and where several
/// programs are named, and 3 without a manifest.
///
/// Standard error also gets a line for each entry without a file. No contract can say which files
/// there are. For those that are read it says what is written.
pub fn run_program<R: Files + Env + AllocGlobal + Clone + Drop, I, W: Write, E: Write>(
    rt: &R,
    arguments: &[Argument],
    streams: &mut Streams<I, W, E>,
) -> u8
    ensures statuses { result ≤ 5 }
    ensures expanded { result ≡ 0 → ExpandsTexts (map given_of arguments.now)
        (W.contents streams.old.output) (W.contents streams.new.output) }
    ensures cut { result ≡ 5 → CutsTexts (map given_of arguments.now)
        (W.contents streams.old.output) (W.contents streams.new.output) }
    ensures unwritten { result ≢ 0 → result ≢ 5
        → Keeps (W.contents streams.old.output) (W.contents streams.new.output) }
{
    match expand_program(rt, arguments, streams) {
        Ok(status) => status,
        Err(failure) => report(&PROGRAM, &failure, &mut streams.faults),
    }
}

fn expand_program<R: Files + Env + AllocGlobal + Clone + Drop, I, W: Write, E: Write>(
    rt: &R,
    arguments: &[Argument],
    streams: &mut Streams<I, W, E>,
) -> Result<u8, Failure>
    ensures ok { IfOk result (λ status. EndsTexts (map given_of arguments.now) status
        (W.contents streams.old.output) (W.contents streams.new.output)) }
    ensures err { IfErr result (λ failure. ExplainsTexts failure (map given_of arguments.now)
        (W.contents streams.old.output) (W.contents streams.new.output)) }
{
    let width = width_of(arguments)?;
    let programs = match chosen_programs(rt, &PROGRAM, arguments)? {
        Ok(programs) if programs.len() > 1 => return Err(Failure::Usage),
        Ok(programs) => programs,
        Err(fault) => {
            let status = tell_choice(fault, &mut streams.faults)?;
            return Ok(status);
        }
    };
    let notes = missing_notes(rt, &PROGRAM, &programs)?;
    let sources = read_texts(rt, &PROGRAM, &programs)?;
    let _ = write_whole(&mut streams.faults, notes.as_bytes());
    let read = Taken { width, sources };
    put_program(rt.alloc(), read, &mut streams.output, &mut streams.faults)
}
