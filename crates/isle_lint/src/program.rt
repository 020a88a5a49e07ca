//! The program, for any files, reader and writers.

ghost use Rattle.std.specs.Prelude.{◌≡◌, ◌≢◌, ◌≤◌, ◌⊎◌, ◌++◌, IfErr, IfOk, MatchResult, false, map};
ghost use Rattle.std.specs.Prelude.{string_bytes};
ghost use Rattle.std.specs.Io.KnownBytes.{Keeps};
ghost use Rattle.isle_cli.specs.Arguments.{given_of};
ghost use Rattle.isle_cli.specs.Streams.{WritesBeginning};
ghost use Rattle.isle_cli.specs.Sources.{source_of};
ghost use Rattle.isle_lint.specs.Doing.{AsAsked, Cuts, CutsAsked, Does, Explains, ExplainsTexts};
ghost use Rattle.isle_lint.specs.Doing.{IsFailureText, IsFailureTextOf, IsMisuse, Tells, Told};
ghost use Rattle.isle_lint.specs.Doing.{told_status};
ghost use Rattle.isle_lint.specs.Options.{are_usable, lints_on};
ghost use Rattle.isle_program.specs.SeveralPrograms.{IsNote};
ghost use Rattle.isle_program.specs.reports.Colours.{settled};

use crate::manifests;
use crate::options::{HELP, VERSION, lints_of};
use crate::report::report_on;
use isle_cli::arguments::{Argument, EXCLUDE_OPTION, Options};
use isle_cli::failure::Failure;
use isle_cli::program::{Program, report};
use isle_cli::sources::{Sources, read_sources};
use isle_cli::streams::Streams;
use isle_lint_core::Lint;
use isle_program::reports::colours::{COLOUR_OPTION, settle};
use isle_program::reports::format::FORMAT_OPTION;
use isle_program_findings::calls::{requested_work, tell_aside};
use isle_program_findings::report::write_report;
use std::alloc::{AllocError, Global};
use std::fs::Files;
use std::io::{Read, Write};

/// This program.
pub const PROGRAM: Program = Program {
    name: "isle-lint",
    usage: "usage: isle-lint [--all] [--lint NAME] [--allow NAME] [--warn NAME] [--deny NAME] \
            [--message-format FORMAT] [--color WHEN] [--exclude PATTERN] [--stdin-name NAME] \
            [--program NAME] [--all-programs] [FILE ..]\n",
    help: HELP,
    version: VERSION,
};

/// Its options.
pub const OPTIONS: Options = Options {
    flags: &["--all"],
    settings: &[
        "--lint",
        "--allow",
        "--warn",
        "--deny",
        FORMAT_OPTION,
        COLOUR_OPTION,
        EXCLUDE_OPTION,
    ],
};

/// Lints a program, writes the findings to the output, and returns the exit status.
///
/// | Status | When |
/// |---|---|
/// | 0 | nothing is found, or only what `--warn` names, or the help or the version is printed |
/// | 1 | something else is found, or a text does not parse |
/// | 2 | usage error; standard error gets the unknown option, if one is unknown, and the usage |
/// | 3 | an input can't be read or isn't UTF-8, or a folder has no ISLE file |
/// | 4 | `isle-lint: out of memory` |
/// | 5 | `isle-lint: output failed` |
///
/// With status 3 standard error gets a line for each. With status 0, 1 and 3 it then gets the note
/// that the files look like several programs, if they do.
///
/// With status 0, 1 and 3 the output gets a line for each finding and each text that does not
/// parse, in order of file and position, in the format that is asked for, and for people a line
/// that counts them; with status 5 a beginning of that. With status 2 and 4 it gets nothing.
///
/// Errors of standard error do not change the status. `shows_colours` says whether lines for people
/// have colours if no option says so.
pub fn run<R: Files + AllocGlobal + Clone + Drop, I: Read, W: Write, E: Write>(
    rt: &R,
    words: &[String],
    shows_colours: bool,
    streams: &mut Streams<I, W, E>,
) -> u8
    // Status 2 is a usage error, and then nothing is read.
    ensures usage { result ≡ 2 → IsMisuse (map string_bytes words.now) }
    ensures unread { result ≡ 2
        → Keeps (I.remaining streams.old.input) (I.remaining streams.new.input) }

    // With status 0, 1 or 3 the request is done, as far as texts can be read; standard error gets a
    // line for each text that can't be read, and the note on several programs, or a beginning.
    ensures done { result ≢ 2 → result ≢ 4 → result ≢ 5 → AsAsked (map string_bytes words.now)
        (λ what. Does shows_colours what result
        (I.remaining streams.old.input) (I.remaining streams.new.input)
        (W.contents streams.old.output) (W.contents streams.new.output)
        (E.contents streams.old.faults) (E.contents streams.new.faults)) }

    // The output is left alone, or has a beginning.
    ensures unwritten { result ≡ 2 ⊎ result ≡ 4
        → Keeps (W.contents streams.old.output) (W.contents streams.new.output) }
    ensures cut { result ≡ 5 → AsAsked (map string_bytes words.now)
        (λ what. CutsAsked shows_colours what
        (I.remaining streams.old.input) (I.remaining streams.new.input)
        (W.contents streams.old.output) (W.contents streams.new.output)) }

    // Else standard error gets nothing but the note on several programs, or the message of the
    // status.
    ensures quiet { result ≤ 1 → WritesBeginning (E.contents streams.old.faults)
        (E.contents streams.new.faults) IsNote }
    ensures told { 2 ≤ result → result ≢ 3 → WritesBeginning (E.contents streams.old.faults)
        (E.contents streams.new.faults) (IsFailureTextOf (map string_bytes words.now) result) }
    ensures statuses { result ≤ 5 }
{
    match requested_work(rt.alloc(), &OPTIONS, words) {
        Ok(arguments) => work(rt, arguments, shows_colours, streams),
        Err(aside) => {
            tell_aside(
                &PROGRAM,
                &manifests::OPTIONS,
                words,
                &aside,
                &mut streams.output,
                &mut streams.faults,
            )
        }
    }
}

/// Does what the arguments ask for, and returns the exit status.
fn work<R: Files + AllocGlobal + Clone + Drop, I: Read, W: Write, E: Write>(
    rt: &R,
    arguments: Vec<Argument>,
    shows_colours: bool,
    streams: &mut Streams<I, W, E>,
) -> u8
    ensures statuses { result ≤ 5 }
    ensures usage { result ≡ 2 → (are_usable
        (settled shows_colours (map given_of arguments.items)) ≡ false)
        × Keeps (I.remaining streams.old.input) (I.remaining streams.new.input) }
    ensures done { result ≢ 2 → result ≢ 4 → result ≢ 5 → Tells
        (settled shows_colours (map given_of arguments.items)) result
        (I.remaining streams.old.input) (I.remaining streams.new.input)
        (W.contents streams.old.output) (W.contents streams.new.output)
        (E.contents streams.old.faults) (E.contents streams.new.faults) }
    ensures unwritten { result ≡ 2 ⊎ result ≡ 4
        → Keeps (W.contents streams.old.output) (W.contents streams.new.output) }
    ensures cut { result ≡ 5 → Cuts
        (settled shows_colours (map given_of arguments.items))
        (I.remaining streams.old.input) (I.remaining streams.new.input)
        (W.contents streams.old.output) (W.contents streams.new.output) }
    ensures quiet { result ≤ 1 → WritesBeginning (E.contents streams.old.faults)
        (E.contents streams.new.faults) IsNote }
    ensures told { 2 ≤ result → result ≢ 3 → WritesBeginning (E.contents streams.old.faults)
        (E.contents streams.new.faults) (IsFailureText result) }
{
    let mut arguments = arguments;
    match lint(rt, &mut arguments, shows_colours, streams) {
        Ok(status) => status,
        Err(failure) => report(&PROGRAM, &failure, &mut streams.faults),
    }
}

/// Lints the files that the arguments name, and returns the exit status. Colours are settled among
/// the arguments.
fn lint<R: Files + AllocGlobal + Clone + Drop, I: Read, W: Write, E: Write>(
    rt: &R,
    arguments: &mut Vec<Argument>,
    shows_colours: bool,
    streams: &mut Streams<I, W, E>,
) -> Result<u8, Failure>
    ensures ok { IfOk result (λ status. Tells
        (settled shows_colours (map given_of arguments.old.items)) status
        (I.remaining streams.old.input) (I.remaining streams.new.input)
        (W.contents streams.old.output) (W.contents streams.new.output)
        (E.contents streams.old.faults) (E.contents streams.new.faults)) }
    ensures err { IfErr result (λ failure. Explains failure
        (settled shows_colours (map given_of arguments.old.items))
        (I.remaining streams.old.input) (I.remaining streams.new.input)
        (W.contents streams.old.output) (W.contents streams.new.output)) }
    ensures quiet { MatchResult result
        (λ status. (status ≤ 3) × (status ≢ 2))
        (λ _. Keeps (E.contents streams.old.faults) (E.contents streams.new.faults)) }
{
    settle(rt.alloc(), shows_colours, arguments)?;
    lint_files(rt, arguments, streams)
}

/// Lints the files that the arguments name, and returns the exit status.
fn lint_files<R: Files + AllocGlobal + Clone + Drop, I: Read, W: Write, E: Write>(
    rt: &R,
    arguments: &[Argument],
    streams: &mut Streams<I, W, E>,
) -> Result<u8, Failure>
    ensures ok { IfOk result (λ status. Tells (map given_of arguments.now) status
        (I.remaining streams.old.input) (I.remaining streams.new.input)
        (W.contents streams.old.output) (W.contents streams.new.output)
        (E.contents streams.old.faults) (E.contents streams.new.faults)) }
    ensures err { IfErr result (λ failure. Explains failure (map given_of arguments.now)
        (I.remaining streams.old.input) (I.remaining streams.new.input)
        (W.contents streams.old.output) (W.contents streams.new.output)) }
    ensures quiet { MatchResult result
        (λ status. (status ≤ 3) × (status ≢ 2))
        (λ _. Keeps (E.contents streams.old.faults) (E.contents streams.new.faults)) }
{
    let lints = lints_of(rt.alloc(), arguments)?;
    let sources = read_sources(rt, &PROGRAM, arguments, &mut streams.input)?;
    lint_texts(
        rt.alloc(),
        arguments,
        &lints,
        &sources,
        &mut streams.output,
        &mut streams.faults,
    )
}

/// Lints texts, with the lints that the arguments enable, and returns the exit status.
fn lint_texts<W: Write, E: Write>(
    alloc: Global,
    arguments: &[Argument],
    lints: &[Lint],
    sources: &Sources,
    output: &mut W,
    faults: &mut E,
) -> Result<u8, Failure>
    requires { lints.now ≡ lints_on (map given_of arguments.now) }
    ensures ok { IfOk result (λ status. Told (map given_of arguments.now) status
        (W.contents output.old) (W.contents output.new)
        (E.contents faults.old) (E.contents faults.new)
        (string_bytes sources.now.faults) (map source_of sources.now.list.items)) }
    ensures err { IfErr result (λ failure. ExplainsTexts failure (map given_of arguments.now)
        (W.contents output.old) (W.contents output.new)
        (string_bytes sources.now.faults) (map source_of sources.now.list.items)) }
    ensures quiet { MatchResult result
        (λ status. (status ≤ 3) × (status ≢ 2))
        (λ _. Keeps (E.contents faults.old) (E.contents faults.new)) }
{
    let told = report_on(alloc, arguments, &sources.list, lints)?;
    let lines = with_note(alloc, sources.faults.as_str(), told.note.as_str())?;
    match write_report(told.report.text.as_str(), lines.as_str(), output, faults) {
        Ok(()) => Ok(status_of(sources.faults.is_empty(), told.report.is_clean)),
        Err(failure) => Err(failure),
    }
}

/// The lines about what can't be read, and the note behind them.
fn with_note(alloc: Global, lines: &str, note: &str) -> Result<String, AllocError>
    ensures { IfOk result (λ both. string_bytes both ≡ lines.now ++ note.now) }
{
    let mut both = String::from_str(alloc, lines)?;
    both.push_str(note)?;
    Ok(both)
}

/// The exit status if all could be read, or not, and nothing was found that counts, or something.
pub fn status_of(is_read: bool, is_clean: bool) -> u8
    ensures { result ≡ told_status is_read is_clean }
{
    if !is_read {
        3
    } else if is_clean {
        0
    } else {
        1
    }
}
