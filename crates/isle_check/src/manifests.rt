//! The programs of a manifest, for any files and writers.

ghost use Rattle.std.specs.Prelude.{◌≡◌, ◌≤◌, ◌⊎◌, IfErr, IfOk, map, true};
ghost use Rattle.std.specs.Io.KnownBytes.{Keeps};
ghost use Rattle.isle_cli.specs.Arguments.{given_of};
ghost use Rattle.isle_check.specs.Doing.{CutsPrograms, Ends, EndsReport, ExplainsEnd};
ghost use Rattle.isle_check.specs.Doing.{ExplainsReport, TellsPrograms};
ghost use Rattle.isle_check.specs.Options.{are_usable};
ghost use Rattle.isle_program_manifest.specs.Levels.{name_level_of, with_levels};
ghost use Rattle.isle_program.specs.reports.Colours.{settled};

use crate::options::{are_usable, unknown_kind};
use crate::program::{PROGRAM, status_of};
use crate::programs::report_on_programs;
use isle_cli::arguments::{Argument, EXCLUDE_OPTION, Options};
use isle_cli::failure::Failure;
use isle_cli::program::{put, report};
use isle_cli::sources::Source;
use isle_cli::streams::{Streams, write_whole};
use isle_program::reports::colours::{COLOUR_OPTION, settle};
use isle_program::reports::format::FORMAT_OPTION;
use isle_program_findings::programs::Part;
use isle_program_manifest::asking::{
    ALL_OPTION, NAME_OPTION, asked_choice, read_texts, tell_choice,
};
use isle_program_manifest::choice::{Choice, Chosen, missing_notes, unknown_level};
use isle_program_manifest::levels::{Tool, add_levels};
use isle_program_manifest::membership::has_file;
use std::alloc::{AllocError, Global};
use std::env::Env;
use std::fs::Files;
use std::io::Write;

/// The options with those that ask for programs of a manifest.
pub const OPTIONS: Options = Options {
    flags: &[ALL_OPTION],
    settings: &[
        "--allow",
        "--warn",
        "--deny",
        FORMAT_OPTION,
        COLOUR_OPTION,
        EXCLUDE_OPTION,
        NAME_OPTION,
    ],
};

/// Checks programs of the nearest manifest, each by itself, writes the findings to the output, and
/// returns the exit status, which is that of `run`; it is 2 for a manifest with a mistake, and 3
/// without a manifest.
///
/// The levels that the manifest has for this program count as options, but for those whose kind an
/// option names. Standard error also gets a line for each entry without a file, and for each
/// program that has one: it is not checked, since it would lack what its missing files declare. No
/// contract can say which files there are, and what the manifest says. For the levels and the texts
/// that are read it says what is written. `shows_colours` is that of `run`.
pub fn run_programs<R: Files + Env + AllocGlobal + Clone + Drop, I, W: Write, E: Write>(
    rt: &R,
    arguments: Vec<Argument>,
    shows_colours: bool,
    streams: &mut Streams<I, W, E>,
) -> u8
    ensures statuses { result ≤ 5 }
    ensures done { result ≤ 1 → TellsPrograms
        (settled shows_colours (map given_of arguments.items)) result
        (W.contents streams.old.output) (W.contents streams.new.output) }
    ensures unwritten { result ≡ 2 ⊎ result ≡ 3 ⊎ result ≡ 4
        → Keeps (W.contents streams.old.output) (W.contents streams.new.output) }
    ensures cut { result ≡ 5 → CutsPrograms (settled shows_colours (map given_of arguments.items))
        (W.contents streams.old.output) (W.contents streams.new.output) }
{
    match check_programs(rt, arguments, shows_colours, streams) {
        Ok(status) => status,
        Err(failure) => report(&PROGRAM, &failure, &mut streams.faults),
    }
}

fn check_programs<R: Files + Env + AllocGlobal + Clone + Drop, I, W: Write, E: Write>(
    rt: &R,
    arguments: Vec<Argument>,
    shows_colours: bool,
    streams: &mut Streams<I, W, E>,
) -> Result<u8, Failure>
    ensures ok { IfOk result (λ status. Ends
        (settled shows_colours (map given_of arguments.items)) status
        (W.contents streams.old.output) (W.contents streams.new.output)) }
    ensures err { IfErr result (λ failure. ExplainsEnd failure
        (settled shows_colours (map given_of arguments.items))
        (W.contents streams.old.output) (W.contents streams.new.output)) }
{
    let mut arguments = arguments;
    settle(rt.alloc(), shows_colours, &mut arguments)?;
    if !are_usable(&arguments) {
        return Err(Failure::Usage);
    }
    match asked_choice(rt, &PROGRAM, &arguments)? {
        Ok(choice) => check_choice(rt, &choice, arguments, streams),
        Err(fault) => Ok(tell_choice(fault, &mut streams.faults)?),
    }
}

/// Checks the programs of a manifest, with its levels.
fn check_choice<R: Files + AllocGlobal + Clone + Drop, I, W: Write, E: Write>(
    rt: &R,
    choice: &Choice,
    arguments: Vec<Argument>,
    streams: &mut Streams<I, W, E>,
) -> Result<u8, Failure>
    ensures ok { IfOk result (λ status. EndsReport
        (with_levels (map given_of arguments.items)
        (map name_level_of choice.now.check_levels.items)) status
        (W.contents streams.old.output) (W.contents streams.new.output)) }
    ensures err { IfErr result (λ failure. ExplainsReport failure
        (with_levels (map given_of arguments.items)
        (map name_level_of choice.now.check_levels.items))
        (W.contents streams.old.output) (W.contents streams.new.output)) }
{
    if let Some(name) = unknown_kind(&choice.check_levels) {
        let fault = unknown_level(rt.alloc(), choice, Tool::IsleCheck, name);
        return Ok(tell_choice(fault, &mut streams.faults)?);
    }
    let mut arguments = arguments;
    add_levels(rt.alloc(), &choice.check_levels, &mut arguments)?;
    check_chosen(rt, &choice.programs, &arguments, streams)
}

/// Checks programs as the arguments say.
fn check_chosen<R: Files + AllocGlobal + Clone + Drop, I, W: Write, E: Write>(
    rt: &R,
    programs: &[Chosen],
    arguments: &[Argument],
    streams: &mut Streams<I, W, E>,
) -> Result<u8, Failure>
    ensures ok { IfOk result (λ status. EndsReport (map given_of arguments.now) status
        (W.contents streams.old.output) (W.contents streams.new.output)) }
    ensures err { IfErr result (λ failure. ExplainsReport failure (map given_of arguments.now)
        (W.contents streams.old.output) (W.contents streams.new.output)) }
{
    if !are_usable(arguments) {
        return Err(Failure::Usage);
    }
    let notes = notes_on(rt, programs)?;
    let texts = read_texts(rt, &PROGRAM, programs)?;
    let _ = write_whole(&mut streams.faults, notes.as_bytes());
    if !texts.faults.is_empty() {
        let _ = write_whole(&mut streams.faults, texts.faults.as_bytes());
        return Ok(3);
    }
    check_texts(
        rt.alloc(),
        programs,
        &texts.list,
        arguments,
        &mut streams.output,
    )
}

/// Checks programs among texts as the arguments say, and returns the exit status.
fn check_texts<W: Write>(
    alloc: Global,
    programs: &[Chosen],
    texts: &[Source],
    arguments: &[Argument],
    output: &mut W,
) -> Result<u8, Failure>
    requires { are_usable (map given_of arguments.now) ≡ true }
    ensures ok { IfOk result (λ status. EndsReport (map given_of arguments.now) status
        (W.contents output.old) (W.contents output.new)) }
    ensures err { IfErr result (λ failure. ExplainsReport failure (map given_of arguments.now)
        (W.contents output.old) (W.contents output.new)) }
{
    let parts = parts_of(alloc, programs, texts)?;
    let told = report_on_programs(alloc, texts, &parts, arguments)?;
    match put(output, told.text.as_str()) {
        Ok(()) => Ok(status_of(told.is_clean)),
        Err(failure) => Err(failure),
    }
}

/// Returns a line for each entry without a file, and for each program that lacks files.
fn notes_on<R: Files + AllocGlobal + Clone + Drop>(
    rt: &R,
    programs: &[Chosen],
) -> Result<String, AllocError> {
    let mut notes = missing_notes(rt, &PROGRAM, programs)?;
    for program in programs {
        if !is_whole(program) {
            add_unchecked(rt.alloc(), program, &mut notes)?;
        }
    }
    Ok(notes)
}

/// Adds a line for a program that lacks files.
fn add_unchecked(alloc: Global, program: &Chosen, notes: &mut String) -> Result<(), AllocError> {
    let tool = PROGRAM.name;
    let name = program.name.as_str();
    let note = format!(in alloc; "{tool}: note: program '{name}' lacks files: not checked\n")?;
    notes.push_str(note.as_str())
}

/// Returns whether each entry of a program stands for a file.
fn is_whole(program: &Chosen) -> bool {
    program.listed.missing.is_empty()
}

/// Returns the programs that lack no files, each by which of the texts are its own.
fn parts_of(alloc: Global, programs: &[Chosen], texts: &[Source]) -> Result<Vec<Part>, AllocError> {
    let mut parts = Vec::new(alloc);
    for program in programs {
        if is_whole(program) {
            parts.push(part_of(alloc, program, texts)?)?;
        }
    }
    Ok(parts)
}

/// Returns a program by which of the texts are its own.
fn part_of(alloc: Global, program: &Chosen, texts: &[Source]) -> Result<Part, AllocError> {
    let has = has_texts(alloc, &program.listed.paths, texts)?;
    let name = program.name.clone()?;
    Ok(Part { name, has })
}

/// Returns for each text whether it is one of these files.
fn has_texts(alloc: Global, paths: &[String], texts: &[Source]) -> Result<Vec<bool>, AllocError> {
    let mut has = Vec::new(alloc);
    for text in texts {
        has.push(has_file(paths, text.name.as_str()))?;
    }
    Ok(has)
}
