//! The programs of a manifest, for any files and writers.

ghost use Rattle.std.specs.Prelude.{◌≡◌, ◌≤◌, ◌⊎◌, IfErr, IfOk, map, true};
ghost use Rattle.std.specs.Io.KnownBytes.{Keeps};
ghost use Rattle.isle_cli.specs.Arguments.{given_of};
ghost use Rattle.isle_lint.specs.Doing.{CutsPrograms, Ends, EndsReport, ExplainsEnd};
ghost use Rattle.isle_lint.specs.Doing.{ExplainsReport, TellsPrograms, TellsReport};
ghost use Rattle.isle_lint.specs.Options.{are_usable, lints_on};
ghost use Rattle.isle_program_manifest.specs.Levels.{name_level_of, with_levels};
ghost use Rattle.isle_program.specs.reports.Colours.{settled};

use crate::options::{are_usable, lints_of, unknown_lint};
use crate::program::{PROGRAM, status_of};
use crate::programs::report_on_programs;
use isle_cli::arguments::{Argument, EXCLUDE_OPTION, Options};
use isle_cli::failure::Failure;
use isle_cli::program::report;
use isle_cli::sources::{Source, Sources};
use isle_cli::streams::{Streams, write_whole};
use isle_lint_core::Lint;
use isle_program::reports::colours::{COLOUR_OPTION, settle};
use isle_program::reports::format::FORMAT_OPTION;
use isle_program_findings::programs::Part;
use isle_program_findings::report::write_report;
use isle_program_manifest::asking::{
    ALL_OPTION, NAME_OPTION, asked_choice, read_texts, tell_choice,
};
use isle_program_manifest::choice::{Choice, Chosen, missing_notes, unknown_level};
use isle_program_manifest::levels::{Tool, add_levels};
use isle_program_manifest::membership::has_file;
use std::alloc::{AllocError, Global};
use std::env::Env;
use std::fs::Files;
use std::io::Write;

/// The options with those that ask for programs of a manifest.
pub const OPTIONS: Options = Options {
    flags: &["--all", ALL_OPTION],
    settings: &[
        "--lint",
        "--allow",
        "--warn",
        "--deny",
        FORMAT_OPTION,
        COLOUR_OPTION,
        EXCLUDE_OPTION,
        NAME_OPTION,
    ],
};

/// Lints programs of the nearest manifest, each by itself, writes the findings to the output, and
/// returns the exit status, which is that of `run`; it is 2 for a manifest with a mistake, and 3
/// without a manifest.
///
/// The levels that the manifest has for this program count as options, but for those whose lint an
/// option names. No contract can say which files there are, and what the manifest says. For the
/// levels and the texts that are read it says what is written. `shows_colours` is that of `run`.
pub fn run_programs<R: Files + Env + AllocGlobal + Clone + Drop, I, W: Write, E: Write>(
    rt: &R,
    arguments: Vec<Argument>,
    shows_colours: bool,
    streams: &mut Streams<I, W, E>,
) -> u8
    ensures statuses { result ≤ 5 }
    ensures done { result ≤ 1 → TellsPrograms
        (settled shows_colours (map given_of arguments.items)) result
        (W.contents streams.old.output) (W.contents streams.new.output) }
    ensures unread { result ≡ 3
        → Keeps (W.contents streams.old.output) (W.contents streams.new.output)
        ⊎ TellsPrograms (settled shows_colours (map given_of arguments.items)) result
        (W.contents streams.old.output) (W.contents streams.new.output) }
    ensures unwritten { result ≡ 2 ⊎ result ≡ 4
        → Keeps (W.contents streams.old.output) (W.contents streams.new.output) }
    ensures cut { result ≡ 5 → CutsPrograms (settled shows_colours (map given_of arguments.items))
        (W.contents streams.old.output) (W.contents streams.new.output) }
{
    let mut arguments = arguments;
    match lint_programs(rt, &mut arguments, shows_colours, streams) {
        Ok(status) => status,
        Err(failure) => report(&PROGRAM, &failure, &mut streams.faults),
    }
}

/// Lints programs as the arguments say, among which colours are settled and the levels of the
/// manifest are added.
fn lint_programs<R: Files + Env + AllocGlobal + Clone + Drop, I, W: Write, E: Write>(
    rt: &R,
    arguments: &mut Vec<Argument>,
    shows_colours: bool,
    streams: &mut Streams<I, W, E>,
) -> Result<u8, Failure>
    ensures ok { IfOk result (λ status. Ends
        (settled shows_colours (map given_of arguments.old.items)) status
        (W.contents streams.old.output) (W.contents streams.new.output)) }
    ensures err { IfErr result (λ failure. ExplainsEnd failure
        (settled shows_colours (map given_of arguments.old.items))
        (W.contents streams.old.output) (W.contents streams.new.output)) }
{
    settle(rt.alloc(), shows_colours, arguments)?;
    if !are_usable(arguments) {
        return Err(Failure::Usage);
    }
    match asked_choice(rt, &PROGRAM, arguments)? {
        Ok(choice) => lint_choice(rt, &choice, arguments, streams),
        Err(fault) => Ok(tell_choice(fault, &mut streams.faults)?),
    }
}

/// Lints the programs of a manifest, with its levels.
fn lint_choice<R: Files + AllocGlobal + Clone + Drop, I, W: Write, E: Write>(
    rt: &R,
    choice: &Choice,
    arguments: &mut Vec<Argument>,
    streams: &mut Streams<I, W, E>,
) -> Result<u8, Failure>
    ensures ok { IfOk result (λ status. EndsReport
        (with_levels (map given_of arguments.old.items)
        (map name_level_of choice.now.lint_levels.items)) status
        (W.contents streams.old.output) (W.contents streams.new.output)) }
    ensures err { IfErr result (λ failure. ExplainsReport failure
        (with_levels (map given_of arguments.old.items)
        (map name_level_of choice.now.lint_levels.items))
        (W.contents streams.old.output) (W.contents streams.new.output)) }
{
    if let Some(name) = unknown_lint(&choice.lint_levels) {
        let fault = unknown_level(rt.alloc(), choice, Tool::IsleLint, name);
        return Ok(tell_choice(fault, &mut streams.faults)?);
    }
    add_levels(rt.alloc(), &choice.lint_levels, arguments)?;
    lint_chosen(rt, &choice.programs, arguments, streams)
}

/// Lints programs as the arguments say.
fn lint_chosen<R: Files + AllocGlobal + Clone + Drop, I, W: Write, E: Write>(
    rt: &R,
    programs: &[Chosen],
    arguments: &[Argument],
    streams: &mut Streams<I, W, E>,
) -> Result<u8, Failure>
    ensures ok { IfOk result (λ status. TellsReport (map given_of arguments.now) status
        (W.contents streams.old.output) (W.contents streams.new.output)) }
    ensures err { IfErr result (λ failure. ExplainsReport failure (map given_of arguments.now)
        (W.contents streams.old.output) (W.contents streams.new.output)) }
{
    let lints = lints_of(rt.alloc(), arguments)?;
    let texts = texts_of(rt, programs)?;
    lint_texts(
        rt.alloc(),
        arguments,
        &lints,
        &texts,
        &mut streams.output,
        &mut streams.faults,
    )
}

/// The texts of programs.
#[derive(Drop)]
struct Texts {
    /// Those that could be read, and a line for each other file.
    read: Sources,
    /// The programs among them.
    parts: Vec<Part>,
    /// A line for each entry of a program without a file.
    notes: String,
}

/// Reads the texts of programs.
fn texts_of<R: Files + AllocGlobal + Clone + Drop>(
    rt: &R,
    programs: &[Chosen],
) -> Result<Texts, AllocError> {
    let notes = missing_notes(rt, &PROGRAM, programs)?;
    let read = read_texts(rt, &PROGRAM, programs)?;
    let parts = parts_of(rt.alloc(), programs, &read.list)?;
    Ok(Texts { read, parts, notes })
}

/// The programs among texts.
fn parts_of(alloc: Global, programs: &[Chosen], texts: &[Source]) -> Result<Vec<Part>, AllocError> {
    let mut parts = Vec::new(alloc);
    for program in programs {
        parts.push(part_of(alloc, program, texts)?)?;
    }
    Ok(parts)
}

/// A program among texts.
fn part_of(alloc: Global, program: &Chosen, texts: &[Source]) -> Result<Part, AllocError> {
    let has = has_texts(alloc, &program.listed.paths, texts)?;
    let name = program.name.clone()?;
    Ok(Part { name, has })
}

/// For each text, whether it is one of these files.
fn has_texts(alloc: Global, paths: &[String], texts: &[Source]) -> Result<Vec<bool>, AllocError> {
    let mut has = Vec::new(alloc);
    for text in texts {
        has.push(has_file(paths, text.name.as_str()))?;
    }
    Ok(has)
}

/// Lints the programs among texts, with the lints that the arguments enable, and returns the exit
/// status.
fn lint_texts<W: Write, E: Write>(
    alloc: Global,
    arguments: &[Argument],
    lints: &[Lint],
    texts: &Texts,
    output: &mut W,
    faults: &mut E,
) -> Result<u8, Failure>
    requires usable { are_usable (map given_of arguments.now) ≡ true }
    requires lints { lints.now ≡ lints_on (map given_of arguments.now) }
    ensures ok { IfOk result (λ status. TellsReport (map given_of arguments.now) status
        (W.contents output.old) (W.contents output.new)) }
    ensures err { IfErr result (λ failure. ExplainsReport failure (map given_of arguments.now)
        (W.contents output.old) (W.contents output.new)) }
{
    let told = report_on_programs(alloc, arguments, &texts.read.list, &texts.parts, lints)?;
    let _ = write_whole(faults, texts.notes.as_bytes());
    match write_report(
        told.text.as_str(),
        texts.read.faults.as_str(),
        output,
        faults,
    ) {
        Ok(()) => Ok(status_of(texts.read.faults.is_empty(), told.is_clean)),
        Err(failure) => Err(failure),
    }
}
