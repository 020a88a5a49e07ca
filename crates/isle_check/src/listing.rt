//! The list of the programs of a manifest.

ghost use Rattle.std.specs.Prelude.{◌≡◌, ◌++◌, ◌≤◌, ◌⊎◌, IfErr, IfOk, List, OnOk, map};
ghost use Rattle.std.specs.Prelude.{string_bytes};
ghost use Rattle.std.specs.Io.KnownBytes.{Keeps};
ghost use Rattle.isle_cli.specs.declared.failure.Failure.TheVariants.{Memory, Usage};
ghost use Rattle.isle_check.specs.Listing.{Lists, ProgramNode, file_line, file_lines, listing};
ghost use Rattle.isle_check.specs.Listing.{program_lines, program_of};

use crate::program::PROGRAM;
use isle_cli::arguments::{Argument, EXCLUDE_OPTION, Options, Request, has_flag, requested};
use isle_cli::failure::Failure;
use isle_cli::program::{report, tell};
use isle_cli::streams::{Streams, write_whole};
use isle_program::reports::colours::COLOUR_OPTION;
use isle_program::reports::format::FORMAT_OPTION;
use isle_program_manifest::asking::{ALL_OPTION, NAME_OPTION, chosen_programs, tell_choice};
use isle_program_manifest::choice::{Chosen, missing_notes};
use std::alloc::{AllocError, Global};
use std::env::Env;
use std::fs::Files;
use std::io::Write;

/// The option that asks for the list.
const LIST_OPTION: &str = "--print-programs";

/// All options: those of `run_programs`, and this one.
pub const OPTIONS: Options = Options {
    flags: &[LIST_OPTION, ALL_OPTION],
    settings: &[
        "--allow",
        "--warn",
        "--deny",
        FORMAT_OPTION,
        COLOUR_OPTION,
        EXCLUDE_OPTION,
        NAME_OPTION,
    ],
};

/// Returns the arguments of a command line that asks for the list of the programs.
pub fn asked_list(alloc: Global, words: &[String]) -> Option<Vec<Argument>> {
    match requested(alloc, &OPTIONS, words).ok()? {
        Request::Work(arguments) if has_flag(&arguments, LIST_OPTION) => Some(arguments),
        _ => None,
    }
}

/// Writes a line `NAME: FILE` for each file of the programs of the nearest manifest to the output,
/// or of those that the arguments name, and returns the exit status, which is that of
/// `run_programs`. Standard error gets a line for each entry without a file.
pub fn print_programs<R: Files + Env + AllocGlobal + Clone + Drop, I, W: Write, E: Write>(
    rt: &R,
    arguments: &[Argument],
    streams: &mut Streams<I, W, E>,
) -> u8
    ensures statuses { result ≤ 5 }
    ensures done { result ≡ 0
        → Lists (W.contents streams.old.output) (W.contents streams.new.output) }
    ensures unwritten { result ≡ 2 ⊎ result ≡ 3 ⊎ result ≡ 4
        → Keeps (W.contents streams.old.output) (W.contents streams.new.output) }
{
    match list_of(rt, arguments, &mut streams.faults) {
        Ok(Ok(text)) => tell(
            &PROGRAM,
            text.as_str(),
            &mut streams.output,
            &mut streams.faults,
        ),
        Ok(Err(status)) => status,
        Err(failure) => report(&PROGRAM, &failure, &mut streams.faults),
    }
}

/// Returns the list of the programs, or the exit status where there are none, once standard error
/// has a line that says why.
fn list_of<R: Files + Env + AllocGlobal + Clone + Drop, E: Write>(
    rt: &R,
    arguments: &[Argument],
    faults: &mut E,
) -> Result<Result<String, u8>, Failure>
    ensures list { IfOk result (λ list. IfOk list
        (λ text. (programs : List ProgramNode) × (string_bytes text ≡ listing programs))) }
    ensures status { IfOk result
        (λ list. IfErr list (λ status. (status ≡ 2) ⊎ (status ≡ 3))) }
    ensures err { IfErr result (λ failure. (failure ≡ Memory) ⊎ (failure ≡ Usage)) }
{
    let programs = match chosen_programs(rt, &PROGRAM, arguments)? {
        Ok(programs) => programs,
        Err(fault) => {
            let status = tell_choice(fault, faults)?;
            return Ok(Err(status));
        }
    };
    let notes = missing_notes(rt, &PROGRAM, &programs)?;
    let text = listing(rt.alloc(), &programs)?;
    let _ = write_whole(faults, notes.as_bytes());
    Ok(Ok(text))
}

fn listing(alloc: Global, programs: &[Chosen]) -> Result<String, AllocError>
    ensures { IfOk result
        (λ text. string_bytes text ≡ listing (map program_of programs.now)) }
{
    let mut text = String::new(alloc);
    for program in programs {
        add_program(&mut text, program)?;
    }
    Ok(text)
}

/// Adds the lines of a program.
fn add_program(text: &mut String, program: &Chosen) -> Result<(), AllocError>
    ensures { OnOk result (string_bytes text.new
        ≡ string_bytes text.old ++ program_lines (program_of program.now)) }
{
    for path in &program.listed.paths {
        add_line(text, program, path)?;
    }
    Ok(())
}

fn add_line(text: &mut String, program: &Chosen, path: &String) -> Result<(), AllocError>
    ensures { OnOk result (string_bytes text.new
        ≡ string_bytes text.old ++ file_line (program_of program.now) (string_bytes path.now)) }
{
    text.push_str(program.name.as_str())?;
    text.push_str(": ")?;
    text.push_str(path.as_str())?;
    text.push_str("\n")
}
