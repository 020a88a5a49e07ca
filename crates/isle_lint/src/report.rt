//! The report on a program.

ghost use Rattle.std.specs.Prelude.{◌≡◌, ◌++◌, [], IfErr, IfOk, OnOk, map};
ghost use Rattle.std.specs.Prelude.{string_bytes};
ghost use Rattle.isle_base_source.specs.Lines.{line_ends};
ghost use Rattle.isle_ast.specs.TreeView.{definitions_of};
ghost use Rattle.isle_cli.specs.Arguments.{given_of};
ghost use Rattle.isle_cli.specs.Sources.{source_of};
ghost use Rattle.isle_cli.specs.declared.failure.Failure.TheVariants.{Memory};
ghost use Rattle.isle_lint_core.specs.Finding.{finding_of};
ghost use Rattle.isle_lint.specs.Doing.{IsReport};
ghost use Rattle.isle_lint.specs.Linted.{linted_of};
ghost use Rattle.isle_lint.specs.Report.{AddsTold, AreTold, AreToldIn, are_warned, finding_line};
ghost use Rattle.isle_lint.specs.Report.{is_clean, is_told, kept_if, report_in};
ghost use Rattle.isle_lint.specs.Report.{report_text, source_text, sources_text, tagged_line};
ghost use Rattle.isle_lint.specs.Report.{tagged_lines, told_in};
ghost use Rattle.isle_program.specs.Reading.{IsReading};
ghost use Rattle.isle_program_findings.specs.ReportView.{report_of};

use crate::linted::{Linted, programs_of};
use crate::options::is_warned;
use isle_base_source::error::Error;
use isle_base_source::files::LineMap;
use isle_cli::arguments::Argument;
use isle_cli::failure::Failure;
use isle_cli::sources::Source;
use isle_lint_core::{Finding, Lint, findings};
use isle_program::allowances::Allowances;
use isle_program::reports::format::{Format, format_of};
use isle_program::reports::lines::told_line;
use isle_program::reports::message::{Message, Severity};
use isle_program::reports::refusals::told_refusal_of;
use isle_program::trees::{Reading, drop_reading, read_all, refused_count};
use isle_program_findings::report::{NotedReport, Report, add_count, noted};
use std::alloc::{AllocError, Global};

/// The report of these lints on a program: a line for each finding and for each text that does not
/// parse, in order of file and position, and for people a line that counts them. It is clean if
/// each text parses, and `--warn` names the lint of each finding.
pub fn report_on(
    alloc: Global,
    arguments: &[Argument],
    sources: &[Source],
    lints: &[Lint],
) -> Result<NotedReport, Failure>
    ensures ok { IfOk result (λ noted. IsReport (map given_of arguments.now) lints.now
        (map source_of sources.now) (report_of noted.report) (string_bytes noted.note)) }
    ensures err { IfErr result (λ failure. failure ≡ Memory) }
{
    let reading = read_all(alloc, sources)?;
    let report = report_on_reading(alloc, arguments, sources, lints, &reading);
    drop_reading(reading);
    Ok(report?)
}

/// The report on a program that is parsed.
fn report_on_reading(
    alloc: Global,
    arguments: &[Argument],
    sources: &[Source],
    lints: &[Lint],
    reading: &Reading,
) -> Result<NotedReport, AllocError>
    requires { IsReading (map source_of sources.now) (definitions_of reading.now.defs.items)
        reading.now.refusals.items }
    ensures { IfOk result (λ noted. IsReport (map given_of arguments.now) lints.now
        (map source_of sources.now) (report_of noted.report) (string_bytes noted.note)) }
{
    let told = told_in_reading(alloc, sources, lints, reading)?;
    let report = report_in(alloc, arguments, sources, &[], &reading.refusals, &told)?;
    noted(alloc, sources, reading, report)
}

/// The findings of these lints in a program that is parsed, but for what comments disable, in order
/// of file and position.
pub fn told_in_reading<'a>(
    alloc: Global,
    sources: &[Source],
    lints: &[Lint],
    reading: &'a Reading,
) -> Result<Vec<Finding<'a>>, AllocError>
    ensures { IfOk result (λ all. AreToldIn lints.now (map source_of sources.now)
        (definitions_of reading.now.defs.items) (map finding_of all.items)) }
{
    let found = findings(alloc, &reading.defs, lints)?;
    let told = told(alloc, sources, &found)?;
    Ok(told)
}

/// The report of these parse errors and findings. `linted` are the programs, if each is linted by
/// itself.
pub fn report_in(
    alloc: Global,
    arguments: &[Argument],
    sources: &[Source],
    linted: &[Linted],
    refusals: &[Option<Error>],
    found: &[Finding],
) -> Result<Report, AllocError>
    ensures { IfOk result (λ report. report_of report ≡ report_in (map given_of arguments.now)
        (map linted_of linted.now) (map source_of sources.now) refusals.now
        (map finding_of found.now)) }
{
    let format = format_of(arguments);
    let text = report_text(alloc, format, sources, linted, refusals, found)?;
    let is_clean = is_clean(arguments, refusals, found);
    Ok(Report { text, is_clean })
}

/// The text of the report of these parse errors and findings.
fn report_text(
    alloc: Global,
    format: Format,
    sources: &[Source],
    linted: &[Linted],
    refusals: &[Option<Error>],
    found: &[Finding],
) -> Result<String, AllocError>
    ensures { IfOk result (λ text. string_bytes text ≡ report_text format
        (map linted_of linted.now) (map source_of sources.now) refusals.now
        (map finding_of found.now)) }
{
    let mut text = String::new(alloc);
    add_sources(alloc, format, sources, linted, refusals, found, &mut text)?;
    add_count(
        alloc,
        format,
        refused_count(refusals),
        found.len(),
        &mut text,
    )?;
    Ok(text)
}

/// Returns whether each text parses, and `--warn` names the lint of each finding.
fn is_clean(arguments: &[Argument], refusals: &[Option<Error>], told: &[Finding]) -> bool
    ensures { result
        ≡ is_clean (map given_of arguments.now) refusals.now (map finding_of told.now) }
{
    refused_count(refusals) == 0 && are_warned(arguments, told)
}

/// Returns whether `--warn` names the lint of each finding.
fn are_warned(arguments: &[Argument], told: &[Finding]) -> bool
    ensures { result ≡ are_warned (map given_of arguments.now) (map finding_of told.now) }
{
    for finding in told {
        if !is_warned(arguments, finding.lint) {
            return false;
        }
    }
    true
}

/// The findings that no comment disables, in order.
fn told<'a>(
    alloc: Global,
    sources: &[Source],
    found: &[Finding<'a>],
) -> Result<Vec<Finding<'a>>, AllocError>
    ensures { IfOk result (λ all. AreTold 0 (map source_of sources.now) (map finding_of found.now)
        (map finding_of all.items)) }
{
    let mut told = Vec::new(alloc);
    for (file, source) in sources.iter().enumerate() {
        add_told_in(alloc, file, source, found, &mut told)?;
    }
    Ok(told)
}

/// Adds the findings in the file with this number that no comment of its text disables.
fn add_told_in<'a>(
    alloc: Global,
    file: usize,
    source: &Source,
    found: &[Finding<'a>],
    told: &mut Vec<Finding<'a>>,
) -> Result<(), AllocError>
    ensures { OnOk result (AddsTold file (source_of source.now) (map finding_of found.now)
        (map finding_of told.old.items) (map finding_of told.new.items)) }
{
    let allowances = Allowances::of(alloc, source.text.as_str())?;
    add_told(file, &allowances, found, told)?;
    Ok(())
}

/// Adds the findings in the file with this number that no comment disables.
fn add_told<'a>(
    file: usize,
    allowances: &Allowances,
    found: &[Finding<'a>],
    told: &mut Vec<Finding<'a>>,
) -> Result<(), AllocError>
    ensures { OnOk result (map finding_of told.new.items ≡ map finding_of told.old.items
        ++ told_in file allowances.now (map finding_of found.now)) }
{
    for finding in found {
        let is_told = is_told(file, allowances, finding);
        push_if(is_told, finding, told)?;
    }
    Ok(())
}

/// Adds a finding, if it counts.
fn push_if<'a>(
    counts: bool,
    finding: &Finding<'a>,
    told: &mut Vec<Finding<'a>>,
) -> Result<(), AllocError>
    ensures { OnOk result (map finding_of told.new.items
        ≡ map finding_of told.old.items ++ kept_if counts (finding_of finding.now)) }
{
    if counts {
        told.push(*finding)?;
    }
    Ok(())
}

/// Returns whether a finding is in the file with this number, and no comment disables it.
fn is_told(file: usize, allowances: &Allowances, finding: &Finding) -> bool
    ensures { result ≡ is_told file allowances.now (finding_of finding.now) }
{
    finding.pos.file == file && !allowances.allow(finding)
}

/// Adds the lines of the parse errors and of the findings.
fn add_sources(
    alloc: Global,
    format: Format,
    sources: &[Source],
    linted: &[Linted],
    refusals: &[Option<Error>],
    found: &[Finding],
    text: &mut String,
) -> Result<(), AllocError>
    ensures { OnOk result (string_bytes text.new ≡ string_bytes text.old
        ++ sources_text format (map linted_of linted.now) 0 (map source_of sources.now)
        refusals.now (map finding_of found.now)) }
{
    for (file, source) in sources.iter().enumerate() {
        add_source(alloc, format, linted, file, source, refusals, found, text)?;
    }
    Ok(())
}

/// Adds the lines of the file with this number.
fn add_source(
    alloc: Global,
    format: Format,
    linted: &[Linted],
    file: usize,
    source: &Source,
    refusals: &[Option<Error>],
    found: &[Finding],
    text: &mut String,
) -> Result<(), AllocError>
    ensures { OnOk result (string_bytes text.new ≡ string_bytes text.old
        ++ source_text format (map linted_of linted.now) file (source_of source.now)
        refusals.now (map finding_of found.now)) }
{
    let refusal = told_refusal_of(alloc, format, source, file, refusals)?;
    text.push_str(refusal.as_str())?;
    add_findings(alloc, format, linted, file, source, found, text)
}

/// Adds the lines of the findings in the file with this number.
fn add_findings(
    alloc: Global,
    format: Format,
    linted: &[Linted],
    file: usize,
    source: &Source,
    found: &[Finding],
    text: &mut String,
) -> Result<(), AllocError>
    ensures { OnOk result (string_bytes text.new ≡ string_bytes text.old
        ++ tagged_lines format (map linted_of linted.now) file (source_of source.now)
        (map finding_of found.now)) }
{
    let lines = LineMap::from_str(alloc, source.text.as_str())?;
    for finding in found {
        if finding.pos.file == file {
            add_finding(alloc, format, linted, source, &lines, finding, text)?;
        }
    }
    Ok(())
}

/// Adds the line of a finding. `lines` are the text's.
fn add_finding(
    alloc: Global,
    format: Format,
    linted: &[Linted],
    source: &Source,
    lines: &LineMap,
    finding: &Finding,
    text: &mut String,
) -> Result<(), AllocError>
    requires { lines.now ≡ line_ends (string_bytes source.now.text) }
    ensures { OnOk result (string_bytes text.new ≡ string_bytes text.old ++ tagged_line format
        (map linted_of linted.now) (source_of source.now) (finding_of finding.now)) }
{
    let programs = programs_of(alloc, linted, finding)?;
    let line = finding_line(alloc, format, source, lines, finding, programs.as_str())?;
    text.push_str(line.as_str())
}

/// The line of a finding, which is told of these programs.
fn finding_line(
    alloc: Global,
    format: Format,
    source: &Source,
    lines: &LineMap,
    finding: &Finding,
    programs: &str,
) -> Result<String, AllocError>
    requires { lines.now ≡ line_ends (string_bytes source.now.text) }
    ensures { IfOk result (λ line. string_bytes line
        ≡ finding_line format programs.now (source_of source.now) (finding_of finding.now)) }
{
    let text = finding.message(alloc)?;
    let message = Message {
        severity: Severity::Warning,
        kind: finding.lint.name(),
        text: text.as_str(),
        programs,
    };
    told_line(alloc, format, source, lines, finding.pos.offset, &message)
}
