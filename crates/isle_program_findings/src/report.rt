//! A whole report, and the note beside it.

ghost use Rattle.std.specs.Prelude.{◌≡◌, ◌++◌, IfErr, IfOk, OnOk, map, string_bytes};
ghost use Rattle.std.specs.Io.KnownBytes.{Appends, Keeps};
ghost use Rattle.isle_ast.specs.TreeView.{definitions_of};
ghost use Rattle.isle_cli.specs.Sources.{source_of};
ghost use Rattle.isle_cli.specs.Streams.{AppendsBeginning};
ghost use Rattle.isle_cli.specs.declared.failure.Failure.TheVariants.{Output};
ghost use Rattle.isle_program.specs.SeveralPrograms as SeveralPrograms;
ghost use Rattle.isle_program.specs.reports.Refusals.{told_count};

use isle_cli::failure::Failure;
use isle_cli::program::put;
use isle_cli::sources::Source;
use isle_cli::streams::write_whole;
use isle_program::reports::format::Format;
use isle_program::reports::refusals::told_count;
use isle_program::several_programs::several_programs_note;
use isle_program::trees::Reading;
use std::alloc::{AllocError, Global};
use std::io::Write;

/// A report.
#[derive(Drop)]
pub struct Report {
    /// The lines, and for people one that counts them. It is empty if there are none.
    pub text: String,
    /// Whether nothing is told that counts.
    pub is_clean: bool,
}

/// A report on texts that are taken for one program.
#[derive(Drop)]
pub struct NotedReport {
    pub report: Report,
    /// The note that they look like several programs; empty if they do not.
    pub note: String,
}

/// The report on a program that is parsed, with the note on it. An `Err` means out of memory.
pub fn noted(
    alloc: Global,
    sources: &[Source],
    reading: &Reading,
    report: Report,
) -> Result<NotedReport, AllocError>
    ensures { IfOk result (λ noted. (noted.report ≡ report) × (string_bytes noted.note
        ≡ SeveralPrograms.several_programs_note (map source_of sources.now)
        (definitions_of reading.now.defs.items))) }
{
    let note = several_programs_note(alloc, sources, &reading.defs)?;
    Ok(NotedReport { report, note })
}

/// Adds the line that counts errors and warnings, as `told_count` makes it, to a text. After an
/// `Err`, which means out of memory, the text is as before.
pub fn add_count(
    alloc: Global,
    format: Format,
    errors: usize,
    warnings: usize,
    text: &mut String,
) -> Result<(), AllocError>
    ensures { OnOk result (string_bytes text.new
        ≡ string_bytes text.old ++ told_count format errors warnings) }
{
    let count = told_count(alloc, format, errors, warnings)?;
    text.push_str(count.as_str())
}

/// Writes the text of a report to the output, and then lines to standard error, whose errors are
/// ignored: it then has a beginning of them.
///
/// It fails with `Output` if the output can't be written. Then the output has a beginning of the
/// text, and standard error gets nothing.
pub fn write_report<W: Write, E: Write>(
    text: &str,
    lines: &str,
    output: &mut W,
    faults: &mut E,
) -> Result<(), Failure>
    ensures written { OnOk result
        (Appends (W.contents output.old) (W.contents output.new) text.now) }
    ensures told { OnOk result
        (AppendsBeginning (E.contents faults.old) (E.contents faults.new) lines.now) }
    ensures err { IfErr result (λ failure. (failure ≡ Output)
        × AppendsBeginning (W.contents output.old) (W.contents output.new) text.now) }
    ensures quiet { IfErr result (λ _. Keeps (E.contents faults.old) (E.contents faults.new)) }
{
    match put(output, text) {
        Ok(()) => {
            let _ = write_whole(faults, lines.as_bytes());
            Ok(())
        }
        Err(failure) => Err(failure),
    }
}
