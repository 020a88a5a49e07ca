//! The program, for any files, reader and writers.

ghost use Rattle.std.specs.Prelude.{◌≡◌, ◌≢◌, ◌≤◌, IfErr, IfOk, OnOk, map, string_bytes};
ghost use Rattle.std.specs.Io.KnownBytes.{Keeps};
ghost use Rattle.isle_cli.specs.Arguments.{given_of};
ghost use Rattle.isle_cli.specs.Sources.{source_of};
ghost use Rattle.isle_cli.specs.Streams.{Writes, WritesBeginning};
ghost use Rattle.isle_expand.specs.Doing.{CutsAsked, DoesAsked, Ends, EndsAs, Explains, ExplainsAs};
ghost use Rattle.isle_expand.specs.Doing.{IsPutFailure, IsReadFailure, MissesAsked, RefusesAsked};
ghost use Rattle.isle_expand.specs.Doing.{Takes};
ghost use Rattle.isle_expand.specs.Expansion.{AreWarnings, IsPrintOfExpansion};
ghost use Rattle.isle_expand.specs.Program.{AsAsked, AskForNothing, IsDiagnostic};

use crate::expansion::answer_to;
use crate::manifests;
use crate::options::{PROGRAM, own_options, this_program, width_of};
use isle_cli::arguments::{Argument, Request, requested};
use isle_cli::failure::Failure;
use isle_cli::program::{Program, put, report, tell};
use isle_cli::sources::{Source, Sources, read_sources};
use isle_cli::streams::{Streams, write_whole};
use isle_cli::usage::report_words;
use std::alloc::Global;
use std::fs::Files;
use std::io::{Read, Write};

/// Inlines the extractors of a program, prints the result, and returns the exit status.
///
/// `words` is the command line without the program's name. It is checked before anything is read.
/// All texts are read whole before they are expanded, and nothing is written before the whole
/// output is ready.
///
/// | Status | When | Standard error gets |
/// |---|---|---|
/// | 0 | the expansion, the help or the version is printed | warnings |
/// | 1 | a text does not parse, or an extractor is misused | a line for each, or the first |
/// | 2 | usage error | the unknown option, if one is unknown, and the usage |
/// | 3 | an input can't be read or isn't UTF-8, or a folder has no ISLE file | a line for each |
/// | 4 | out of memory | `isle-expand: out of memory` |
/// | 5 | the output fails, after a beginning of the print | `isle-expand: output failed` |
///
/// There is a warning, of one line, for each implicit conversion that the expansion may lose.
///
/// A width is one or more ASCII digits, for a number of bytes that fits `usize`. Errors of standard
/// error do not change the status.
pub fn run<R: Files + AllocGlobal + Clone + Drop, I: Read, W: Write, E: Write>(
    rt: &R,
    words: &[String],
    streams: &mut Streams<I, W, E>,
) -> u8
    // The request is done, or the output has a beginning. Any other status leaves it alone.
    ensures expanded { result ≡ 0 → AsAsked (map string_bytes words.now)
        (λ program request. DoesAsked program request
        (I.remaining streams.old.input) (I.remaining streams.new.input)
        (W.contents streams.old.output) (W.contents streams.new.output)
        (E.contents streams.old.faults) (E.contents streams.new.faults)) }
    ensures cut { result ≡ 5 → AsAsked (map string_bytes words.now)
        (λ program request. CutsAsked program request
        (I.remaining streams.old.input) (I.remaining streams.new.input)
        (W.contents streams.old.output) (W.contents streams.new.output)) }
    ensures unwritten { result ≢ 0 → result ≢ 5
        → Keeps (W.contents streams.old.output) (W.contents streams.new.output) }

    // The program is rejected, or can't be read.
    ensures refused { result ≡ 1 → AsAsked (map string_bytes words.now)
        (λ program request. RefusesAsked program request
        (I.remaining streams.old.input) (I.remaining streams.new.input)
        (E.contents streams.old.faults) (E.contents streams.new.faults)) }
    ensures missed { result ≡ 3 → AsAsked (map string_bytes words.now)
        (λ program request. MissesAsked program request
        (I.remaining streams.old.input) (I.remaining streams.new.input)
        (E.contents streams.old.faults) (E.contents streams.new.faults)) }

    // With status 2, 4 or 5 standard error gets the message of the status.
    ensures told { 2 ≤ result → result ≢ 3
        → WritesBeginning (E.contents streams.old.faults) (E.contents streams.new.faults)
        (IsDiagnostic (map string_bytes words.now) result) }
    ensures statuses { result ≤ 5 }

    // Status 2 depends on the command line alone, and then nothing is read.
    ensures usage { result ≡ 2 → AskForNothing (map string_bytes words.now) }
    ensures unread { result ≡ 2
        → Keeps (I.remaining streams.old.input) (I.remaining streams.new.input) }
{
    let (program, options) = (this_program(), own_options());
    let arguments = match requested(rt.alloc(), &options, words) {
        Ok(Request::Work(arguments)) => arguments,
        Ok(Request::Help) => {
            return tell(
                &program,
                PROGRAM.help,
                &mut streams.output,
                &mut streams.faults,
            );
        }
        Ok(Request::Version) => {
            return tell(
                &program,
                PROGRAM.version,
                &mut streams.output,
                &mut streams.faults,
            );
        }
        Err(failure) => {
            let faults = &mut streams.faults;
            return report_words(&program, &manifests::OPTIONS, words, &failure, faults);
        }
    };
    match expand(rt, &program, &arguments, streams) {
        Ok(status) => status,
        Err(failure) => report(&program, &failure, &mut streams.faults),
    }
}

/// The width that the arguments give, and the texts that they name.
#[derive(Drop)]
pub struct Taken {
    /// The width.
    pub width: usize,
    /// The texts.
    pub sources: Sources,
}

/// Expands the program that the arguments name, and returns the exit status, 0 or 3.
fn expand<R: Files + AllocGlobal + Clone + Drop, I: Read, W: Write, E: Write>(
    rt: &R,
    program: &Program,
    arguments: &[Argument],
    streams: &mut Streams<I, W, E>,
) -> Result<u8, Failure>
    ensures ok { IfOk result (λ status. Ends program.now (map given_of arguments.now) status
        (I.remaining streams.old.input) (I.remaining streams.new.input)
        (W.contents streams.old.output) (W.contents streams.new.output)
        (E.contents streams.old.faults) (E.contents streams.new.faults)) }
    ensures err { IfErr result (λ failure. Explains failure program.now
        (map given_of arguments.now) (I.remaining streams.old.input) (I.remaining streams.new.input)
        (W.contents streams.old.output) (W.contents streams.new.output)) }
    ensures quiet { IfErr result
        (λ _. Keeps (E.contents streams.old.faults) (E.contents streams.new.faults)) }
{
    match read_program(rt, program, arguments, &mut streams.input) {
        Ok(read) => put_program(rt.alloc(), read, &mut streams.output, &mut streams.faults),
        Err(failure) => Err(failure),
    }
}

/// Reads the texts that the arguments name. It fails with `Usage`, before it reads, if the width is
/// none.
fn read_program<R: Files + AllocGlobal + Clone + Drop, I: Read>(
    rt: &R,
    program: &Program,
    arguments: &[Argument],
    input: &mut I,
) -> Result<Taken, Failure>
    ensures ok { IfOk result (λ read. Takes program.now (map given_of arguments.now)
        (I.remaining input.old) (I.remaining input.new) read) }
    ensures err { IfErr result (λ failure. IsReadFailure failure (map given_of arguments.now)
        (I.remaining input.old) (I.remaining input.new)) }
{
    let width = width_of(arguments)?;
    let sources = read_sources(rt, program, arguments, input)?;
    Ok(Taken { width, sources })
}

/// Prints the expansion, if all texts could be read, and returns the exit status, 0 or 3.
pub fn put_program<W: Write, E: Write>(
    alloc: Global,
    read: Taken,
    output: &mut W,
    faults: &mut E,
) -> Result<u8, Failure>
    ensures ok { IfOk result (λ status. EndsAs status read
        (W.contents output.old) (W.contents output.new)
        (E.contents faults.old) (E.contents faults.new)) }
    ensures err { IfErr result (λ failure. ExplainsAs failure read
        (W.contents output.old) (W.contents output.new)) }
    ensures quiet { IfErr result
        (λ _. Keeps (E.contents faults.old) (E.contents faults.new)) }
{
    if !read.sources.faults.is_empty() {
        let _ = write_whole(faults, read.sources.faults.as_bytes());
        return Ok(3);
    }
    match put_expansion(alloc, &read.sources.list, read.width, output, faults) {
        Ok(()) => Ok(0),
        Err(failure) => Err(failure),
    }
}

/// Prints the expansion of a program, and its warnings.
fn put_expansion<W: Write, E: Write>(
    alloc: Global,
    sources: &[Source],
    width: usize,
    output: &mut W,
    faults: &mut E,
) -> Result<(), Failure>
    ensures print { OnOk result (Writes (W.contents output.old) (W.contents output.new)
        (IsPrintOfExpansion width (map source_of sources.now))) }
    ensures warnings { OnOk result (WritesBeginning (E.contents faults.old)
        (E.contents faults.new) (AreWarnings (map source_of sources.now))) }
    ensures err { IfErr result (λ failure. IsPutFailure failure width (map source_of sources.now)
        (W.contents output.old) (W.contents output.new)) }
    ensures quiet { IfErr result
        (λ _. Keeps (E.contents faults.old) (E.contents faults.new)) }
{
    let answer = match answer_to(alloc, sources, width) {
        Ok(answer) => answer,
        Err(failure) => return Err(failure),
    };
    match put(output, answer.print.as_str()) {
        Ok(()) => {
            let _ = write_whole(faults, answer.warnings.as_bytes());
            Ok(())
        }
        Err(failure) => Err(failure),
    }
}
