//! The program, for any files, reader and writers.

ghost use Rattle.std.specs.Prelude.{◌≡◌, ◌≢◌, ◌≤◌, ◌⊎◌, IfErr, IfOk, MatchResult, false, map};
ghost use Rattle.std.specs.Prelude.{string_bytes};
ghost use Rattle.std.specs.Io.KnownBytes.{Keeps};
ghost use Rattle.isle_cli.specs.Arguments.{given_of};
ghost use Rattle.isle_cli.specs.Sources.{source_of};
ghost use Rattle.isle_cli.specs.Streams.{WritesBeginning};
ghost use Rattle.isle_check.specs.Doing.{AsAsked, Cuts, CutsAsked, Does, Explains, ExplainsTexts};
ghost use Rattle.isle_check.specs.Doing.{IsFailureText, IsFailureTextOf, IsMisuse, Tells};
ghost use Rattle.isle_check.specs.Doing.{ToldReport, told_status};
ghost use Rattle.isle_check.specs.Options.{are_usable};
ghost use Rattle.isle_program.specs.SeveralPrograms.{IsNote};
ghost use Rattle.isle_program.specs.reports.Colours.{settled};

use crate::listing;
use crate::options::{HELP, VERSION, are_usable};
use crate::report::report_on;
use isle_cli::arguments::{Argument, EXCLUDE_OPTION, Options};
use isle_cli::failure::Failure;
use isle_cli::program::{Program, report};
use isle_cli::sources::{Source, read_sources};
use isle_cli::streams::{Streams, write_whole};
use isle_program::reports::colours::{COLOUR_OPTION, settle};
use isle_program::reports::format::FORMAT_OPTION;
use isle_program_findings::calls::{requested_work, tell_aside};
use isle_program_findings::report::write_report;
use std::alloc::Global;
use std::fs::Files;
use std::io::{Read, Write};

/// This program.
pub const PROGRAM: Program = Program {
    name: "isle-check",
    usage: "usage: isle-check [--allow KIND] [--warn KIND] [--deny KIND] \
            [--message-format FORMAT] [--color WHEN] [--exclude PATTERN] [--stdin-name NAME] \
            [--program NAME] [--all-programs] [FILE ..]\n",
    help: HELP,
    version: VERSION,
};

/// Its options.
pub const OPTIONS: Options = Options {
    flags: &[],
    settings: &[
        "--allow",
        "--warn",
        "--deny",
        FORMAT_OPTION,
        COLOUR_OPTION,
        EXCLUDE_OPTION,
    ],
};

/// | Status | When |
/// |---|---|
/// | 0 | no error is found, or the help or the version is printed |
/// | 1 | an error is found, or a text does not parse |
/// | 2 | usage error; standard error gets the unknown option, if one is unknown, and the usage |
/// | 3 | an input can't be read or isn't UTF-8, or a folder has no ISLE file |
/// | 4 | `isle-check: out of memory` |
/// | 5 | `isle-check: output failed` |
///
/// With status 3 standard error gets a line for each. With status 0 and 1 it gets the note that the
/// files look like several programs, if they do.
///
/// With status 0 and 1 the output gets a line for each text that does not parse, or else a line for
/// each finding, in the format that is asked for, and for people a line that counts them; with
/// status 5 a beginning of that. With status 2, 3 and 4 it gets nothing.
///
/// Errors of standard error do not change the status. `shows_colours` says whether lines for people
/// have colours if no option says so.
pub fn run<R: Files + AllocGlobal + Clone + Drop, I: Read, W: Write, E: Write>(
    rt: &R,
    words: &[String],
    shows_colours: bool,
    streams: &mut Streams<I, W, E>,
) -> u8
    // Status 2 is a usage error, and then nothing is read.
    ensures usage { result ≡ 2 → IsMisuse (map string_bytes words.now) }
    ensures unread { result ≡ 2
        → Keeps (I.remaining streams.old.input) (I.remaining streams.new.input) }

    // With status 0, 1 or 3 the request is done, as far as texts can be read; with 3 standard error
    // gets a line for each text that can't be read, and else the note on several programs, or a
    // beginning.
    ensures done { result ≢ 2 → result ≢ 4 → result ≢ 5 → AsAsked (map string_bytes words.now)
        (λ what. Does shows_colours what result
        (I.remaining streams.old.input) (I.remaining streams.new.input)
        (W.contents streams.old.output) (W.contents streams.new.output)
        (E.contents streams.old.faults) (E.contents streams.new.faults)) }

    // The output is left alone, or has a beginning.
    ensures unwritten { result ≡ 2 ⊎ result ≡ 4
        → Keeps (W.contents streams.old.output) (W.contents streams.new.output) }
    ensures cut { result ≡ 5 → AsAsked (map string_bytes words.now)
        (λ what. CutsAsked shows_colours what
        (I.remaining streams.old.input) (I.remaining streams.new.input)
        (W.contents streams.old.output) (W.contents streams.new.output)) }

    // Else standard error gets nothing but the note on several programs, or the message of the
    // status.
    ensures quiet { result ≤ 1 → WritesBeginning (E.contents streams.old.faults)
        (E.contents streams.new.faults) IsNote }
    ensures told { 2 ≤ result → result ≢ 3 → WritesBeginning (E.contents streams.old.faults)
        (E.contents streams.new.faults) (IsFailureTextOf (map string_bytes words.now) result) }
    ensures statuses { result ≤ 5 }
{
    match requested_work(rt.alloc(), &OPTIONS, words) {
        Ok(arguments) => work(rt, arguments, shows_colours, streams),
        Err(aside) => {
            tell_aside(
                &PROGRAM,
                &listing::OPTIONS,
                words,
                &aside,
                &mut streams.output,
                &mut streams.faults,
            )
        }
    }
}

/// Does what the arguments ask for, and returns the exit status.
fn work<R: Files + AllocGlobal + Clone + Drop, I: Read, W: Write, E: Write>(
    rt: &R,
    arguments: Vec<Argument>,
    shows_colours: bool,
    streams: &mut Streams<I, W, E>,
) -> u8
    ensures statuses { result ≤ 5 }
    ensures usage { result ≡ 2 → (are_usable
        (settled shows_colours (map given_of arguments.items)) ≡ false)
        × Keeps (I.remaining streams.old.input) (I.remaining streams.new.input) }
    ensures done { result ≢ 2 → result ≢ 4 → result ≢ 5 → Tells
        (settled shows_colours (map given_of arguments.items)) result
        (I.remaining streams.old.input) (I.remaining streams.new.input)
        (W.contents streams.old.output) (W.contents streams.new.output)
        (E.contents streams.old.faults) (E.contents streams.new.faults) }
    ensures unwritten { result ≡ 2 ⊎ result ≡ 4
        → Keeps (W.contents streams.old.output) (W.contents streams.new.output) }
    ensures cut { result ≡ 5 → Cuts
        (settled shows_colours (map given_of arguments.items))
        (I.remaining streams.old.input) (I.remaining streams.new.input)
        (W.contents streams.old.output) (W.contents streams.new.output) }
    ensures quiet { result ≤ 1 → WritesBeginning (E.contents streams.old.faults)
        (E.contents streams.new.faults) IsNote }
    ensures told { 2 ≤ result → result ≢ 3 → WritesBeginning (E.contents streams.old.faults)
        (E.contents streams.new.faults) (IsFailureText result) }
{
    match check_files(rt, arguments, shows_colours, streams) {
        Ok(status) => status,
        Err(failure) => report(&PROGRAM, &failure, &mut streams.faults),
    }
}

/// Checks the files that the arguments name, and returns the exit status.
fn check_files<R: Files + AllocGlobal + Clone + Drop, I: Read, W: Write, E: Write>(
    rt: &R,
    arguments: Vec<Argument>,
    shows_colours: bool,
    streams: &mut Streams<I, W, E>,
) -> Result<u8, Failure>
    ensures ok { IfOk result (λ status. Tells
        (settled shows_colours (map given_of arguments.items)) status
        (I.remaining streams.old.input) (I.remaining streams.new.input)
        (W.contents streams.old.output) (W.contents streams.new.output)
        (E.contents streams.old.faults) (E.contents streams.new.faults)) }
    ensures err { IfErr result (λ failure. Explains failure
        (settled shows_colours (map given_of arguments.items))
        (I.remaining streams.old.input) (I.remaining streams.new.input)
        (W.contents streams.old.output) (W.contents streams.new.output)) }
    ensures quiet { MatchResult result
        (λ status. (status ≤ 3) × (status ≢ 2))
        (λ _. Keeps (E.contents streams.old.faults) (E.contents streams.new.faults)) }
{
    let mut arguments = arguments;
    settle(rt.alloc(), shows_colours, &mut arguments)?;
    check_files_settled(rt, &arguments, streams)
}

/// Checks the files that the arguments name, and returns the exit status. Colours are settled.
fn check_files_settled<R: Files + AllocGlobal + Clone + Drop, I: Read, W: Write, E: Write>(
    rt: &R,
    arguments: &[Argument],
    streams: &mut Streams<I, W, E>,
) -> Result<u8, Failure>
    ensures ok { IfOk result (λ status. Tells (map given_of arguments.now) status
        (I.remaining streams.old.input) (I.remaining streams.new.input)
        (W.contents streams.old.output) (W.contents streams.new.output)
        (E.contents streams.old.faults) (E.contents streams.new.faults)) }
    ensures err { IfErr result (λ failure. Explains failure (map given_of arguments.now)
        (I.remaining streams.old.input) (I.remaining streams.new.input)
        (W.contents streams.old.output) (W.contents streams.new.output)) }
    ensures quiet { MatchResult result
        (λ status. (status ≤ 3) × (status ≢ 2))
        (λ _. Keeps (E.contents streams.old.faults) (E.contents streams.new.faults)) }
{
    if !are_usable(arguments) {
        return Err(Failure::Usage);
    }
    let sources = read_sources(rt, &PROGRAM, arguments, &mut streams.input)?;
    if !sources.faults.is_empty() {
        let _ = write_whole(&mut streams.faults, sources.faults.as_bytes());
        return Ok(3);
    }
    check_texts(
        rt.alloc(),
        &sources.list,
        arguments,
        &mut streams.output,
        &mut streams.faults,
    )
}

/// Checks texts as the arguments say, and returns the exit status.
fn check_texts<W: Write, E: Write>(
    alloc: Global,
    sources: &[Source],
    arguments: &[Argument],
    output: &mut W,
    faults: &mut E,
) -> Result<u8, Failure>
    ensures ok { IfOk result (λ status. ToldReport (map given_of arguments.now) status
        (W.contents output.old) (W.contents output.new)
        (E.contents faults.old) (E.contents faults.new) (map source_of sources.now)) }
    ensures err { IfErr result (λ failure. ExplainsTexts failure (map given_of arguments.now)
        (W.contents output.old) (W.contents output.new) (map source_of sources.now)) }
    ensures quiet { MatchResult result
        (λ status. (status ≤ 3) × (status ≢ 2))
        (λ _. Keeps (E.contents faults.old) (E.contents faults.new)) }
{
    let told = report_on(alloc, sources, arguments)?;
    match write_report(
        told.report.text.as_str(),
        told.note.as_str(),
        output,
        faults,
    ) {
        Ok(()) => Ok(status_of(told.report.is_clean)),
        Err(failure) => Err(failure),
    }
}

/// Returns the exit status of a report that is clean, or not.
pub fn status_of(is_clean: bool) -> u8
    ensures { result ≡ told_status is_clean }
{
    if is_clean { 0 } else { 1 }
}
