//! The report on a program.

ghost use Rattle.std.specs.Prelude.{◌≡◌, ◌++◌, ◌∷◌, [], IfErr, IfOk, OnOk, false, map};
ghost use Rattle.std.specs.Prelude.{string_bytes};
ghost use Rattle.isle_ast.specs.MacroArgs.{definitions_have_macro_arg};
ghost use Rattle.isle_ast.specs.TreeView.{definitions_of};
ghost use Rattle.std.specs.List.{flat_map};
ghost use Rattle.isle_check_messages.specs.Notes.{notes_of};
ghost use Rattle.isle_cli.specs.Arguments.{given_of};
ghost use Rattle.isle_cli.specs.Sources.{source_of};
ghost use Rattle.isle_cli.specs.declared.failure.Failure.TheVariants.{Memory};
ghost use Rattle.isle_check_core.specs.FindingWords.{finding_notes};
ghost use Rattle.isle_check_core.specs.Views.{finding_of, findings_of};
ghost use Rattle.isle_check.specs.Report.{IsReport, count_of, finding_line, finding_lines, joined};
ghost use Rattle.isle_check.specs.Report.{line_maps, lines_of, note_line, refused, refused_lines};
ghost use Rattle.isle_check.specs.Report.{rendered, report_in, severity, told_all, told_at};
ghost use Rattle.isle_check.specs.Report.{told_for, told_in};
ghost use Rattle.isle_check.specs.ReportView.{lines_at, told_node};
ghost use Rattle.isle_program.specs.Reading.{IsReading};
ghost use Rattle.isle_program.specs.reports.Messages.{message_of};
ghost use Rattle.isle_program_findings.specs.ReportView.{report_of};

use isle_ast::ast::Def;
use isle_base::lexer::Pos;
use isle_base_source::error::Error;
use isle_base_source::files::LineMap;
use isle_check_core::{Finding, Note, Words, check};
use isle_cli::arguments::Argument;
use isle_cli::failure::Failure;
use isle_cli::sources::Source;
use isle_program::reports::format::{Format, format_of};
use isle_program::reports::lines::told_line;
use isle_program::reports::message::{Message, Severity};
use isle_program::reports::refusals::{is_refused, told_refusal_of};
use isle_program::trees::{Reading, drop_reading, read_all, refused_count};
use isle_program_findings::naming::{counts, is_named};
use isle_program_findings::report::{NotedReport, Report, add_count, noted};
use std::alloc::{AllocError, Global};

/// A line of a report.
#[derive(Drop)]
pub struct Line {
    /// Whether it tells an error, and not a warning.
    pub is_error: bool,
    /// The line of a finding, and those of its notes, each with its newline.
    pub text: String,
}

/// What is told of a finding.
#[derive(Drop)]
pub struct Told {
    pub pos: Pos,
    /// Whether it is told as an error, and not as a warning.
    pub is_error: bool,
    pub words: Words,
    /// The lines of its notes, each with its newline.
    pub notes: String,
}

/// Returns the report on a program: a line for each text that does not parse, or else one for each
/// finding, in order, without the kinds that `--allow` names, in the format that
/// `--message-format` names. It is clean if no line tells an error. The only failure is `Memory`.
pub fn report_on(
    alloc: Global,
    sources: &[Source],
    arguments: &[Argument],
) -> Result<NotedReport, Failure>
    ensures ok { IfOk result (λ noted. IsReport (map given_of arguments.now)
        (map source_of sources.now) (report_of noted.report) (string_bytes noted.note)) }
    ensures err { IfErr result (λ failure. failure ≡ Memory) }
{
    let reading = read_all(alloc, sources)?;
    let report = report_on_reading(alloc, sources, arguments, &reading);
    drop_reading(reading);
    Ok(report?)
}

/// Returns the report on a program that is parsed.
fn report_on_reading(
    alloc: Global,
    sources: &[Source],
    arguments: &[Argument],
    reading: &Reading,
) -> Result<NotedReport, AllocError>
    requires { IsReading (map source_of sources.now) (definitions_of reading.now.defs.items)
        reading.now.refusals.items }
    ensures { IfOk result (λ noted. IsReport (map given_of arguments.now)
        (map source_of sources.now) (report_of noted.report) (string_bytes noted.note)) }
{
    let report = report_in(alloc, sources, arguments, reading)?;
    noted(alloc, sources, reading, report)
}

fn report_in(
    alloc: Global,
    sources: &[Source],
    arguments: &[Argument],
    reading: &Reading,
) -> Result<Report, AllocError>
    requires { definitions_have_macro_arg (definitions_of reading.now.defs.items) ≡ false }
    ensures { IfOk result (λ report. report_of report
        ≡ report_in (map given_of arguments.now) (map source_of sources.now)
        (definitions_of reading.now.defs.items) reading.now.refusals.items) }
{
    let format = format_of(arguments);
    if refused_count(&reading.refusals) != 0 {
        return refused_report(alloc, format, sources, &reading.refusals);
    }
    let lines = lines_of(alloc, sources, arguments, &reading.defs)?;
    rendered(alloc, format, &lines)
}

/// Returns the report on texts some of which do not parse.
fn refused_report(
    alloc: Global,
    format: Format,
    sources: &[Source],
    refusals: &[Option<Error>],
) -> Result<Report, AllocError>
    ensures { IfOk result
        (λ report. report_of report ≡ refused format (map source_of sources.now) refusals.now) }
{
    let lines = refused_lines(alloc, format, sources, refusals)?;
    rendered(alloc, format, &lines)
}

/// Returns a line for each text that does not parse, in order.
pub fn refused_lines(
    alloc: Global,
    format: Format,
    sources: &[Source],
    refusals: &[Option<Error>],
) -> Result<Vec<Line>, AllocError>
    ensures { IfOk result (λ lines. lines_at lines.items
        ≡ refused_lines format 0 (map source_of sources.now) refusals.now) }
{
    let mut lines = Vec::new(alloc);
    for (file, source) in sources.iter().enumerate() {
        if is_refused(refusals, file) {
            let text = told_refusal_of(alloc, format, source, file, refusals)?;
            lines.push(Line {
                is_error: true,
                text,
            })?;
        }
    }
    Ok(lines)
}

/// Returns the lines of the findings in these definitions.
fn lines_of(
    alloc: Global,
    sources: &[Source],
    arguments: &[Argument],
    defs: &[Def],
) -> Result<Vec<Line>, AllocError>
    requires { definitions_have_macro_arg (definitions_of defs.now) ≡ false }
    ensures { IfOk result (λ lines. lines_at lines.items
        ≡ lines_of (map given_of arguments.now) (map source_of sources.now)
        (definitions_of defs.now)) }
{
    let told = told_in(alloc, sources, arguments, defs)?;
    if told.is_empty() {
        return Ok(Vec::new(alloc));
    }
    let maps = line_maps(alloc, sources)?;
    finding_lines(alloc, format_of(arguments), sources, &maps, &told)
}

/// Returns the line map of each text.
pub fn line_maps(alloc: Global, sources: &[Source]) -> Result<Vec<LineMap>, AllocError>
    ensures { IfOk result (λ maps. maps.items ≡ line_maps (map source_of sources.now)) }
{
    let mut maps = Vec::new(alloc);
    for source in sources {
        maps.push(LineMap::from_str(alloc, source.text.as_str())?)?;
    }
    Ok(maps)
}

/// Returns what is told of the findings in these definitions, in order, without the kinds that
/// `--allow` names.
pub fn told_in(
    alloc: Global,
    sources: &[Source],
    arguments: &[Argument],
    defs: &[Def],
) -> Result<Vec<Told>, AllocError>
    requires { definitions_have_macro_arg (definitions_of defs.now) ≡ false }
    ensures { IfOk result (λ told. map told_node told.items
        ≡ told_in (map given_of arguments.now) (map source_of sources.now)
        (definitions_of defs.now)) }
{
    let found = check(alloc, defs)?;
    if found.is_empty() {
        return Ok(Vec::new(alloc));
    }
    let maps = line_maps(alloc, sources)?;
    told_all(alloc, sources, &maps, arguments, &found)
}

/// Returns what is told of findings. `maps` are the line maps of the texts.
fn told_all(
    alloc: Global,
    sources: &[Source],
    maps: &[LineMap],
    arguments: &[Argument],
    found: &[Finding],
) -> Result<Vec<Told>, AllocError>
    requires { maps.now ≡ line_maps (map source_of sources.now) }
    ensures { IfOk result (λ told. map told_node told.items
        ≡ told_all (map given_of arguments.now) (map source_of sources.now)
        (findings_of found.now)) }
{
    let mut told = Vec::new(alloc);
    for finding in found {
        add_told(alloc, sources, maps, arguments, finding, &mut told)?;
    }
    Ok(told)
}

/// Adds what is told of a finding, unless `--allow` names its kind.
fn add_told(
    alloc: Global,
    sources: &[Source],
    maps: &[LineMap],
    arguments: &[Argument],
    finding: &Finding,
    told: &mut Vec<Told>,
) -> Result<(), AllocError>
    requires { maps.now ≡ line_maps (map source_of sources.now) }
    ensures { OnOk result (map told_node told.new.items ≡ map told_node told.old.items
        ++ told_for (map given_of arguments.now) (map source_of sources.now)
        (finding_of finding.now)) }
{
    let words = finding.kind.words(alloc)?;
    if is_named(arguments, "--allow", words.name) {
        return Ok(());
    }
    let is_error = counts(arguments, words.name, finding.kind.is_error());
    let notes = notes_text(alloc, format_of(arguments), sources, maps, finding)?;
    told.push(Told {
        pos: finding.pos,
        is_error,
        words,
        notes,
    })?;
    Ok(())
}

/// Returns the lines of the notes of a finding. `maps` are the line maps of the texts.
fn notes_text(
    alloc: Global,
    format: Format,
    sources: &[Source],
    maps: &[LineMap],
    finding: &Finding,
) -> Result<String, AllocError>
    requires { maps.now ≡ line_maps (map source_of sources.now) }
    ensures { IfOk result (λ text. string_bytes text
        ≡ flat_map (note_line format (map source_of sources.now))
        (finding_notes (finding_of finding.now))) }
{
    let notes = finding.notes(alloc)?;
    let mut text = String::new(alloc);
    add_notes(alloc, format, sources, maps, &notes, &mut text)?;
    Ok(text)
}

/// Returns the lines of what is told. `maps` are the line maps of the texts.
fn finding_lines(
    alloc: Global,
    format: Format,
    sources: &[Source],
    maps: &[LineMap],
    told: &[Told],
) -> Result<Vec<Line>, AllocError>
    requires { maps.now ≡ line_maps (map source_of sources.now) }
    ensures { IfOk result (λ lines. lines_at lines.items
        ≡ finding_lines format (map source_of sources.now) (map told_node told.now)) }
{
    let mut lines = Vec::new(alloc);
    for one in told {
        add_line(alloc, format, sources, maps, one, "", &mut lines)?;
    }
    Ok(lines)
}

/// Adds the lines of a finding, which is told of these programs. `maps` are the line maps of the
/// texts.
pub fn add_line(
    alloc: Global,
    format: Format,
    sources: &[Source],
    maps: &[LineMap],
    told: &Told,
    programs: &str,
    lines: &mut Vec<Line>,
) -> Result<(), AllocError>
    requires { maps.now ≡ line_maps (map source_of sources.now) }
    ensures { OnOk result (lines_at lines.new.items ≡ lines_at lines.old.items
        ++ finding_line format programs.now (map source_of sources.now) (told_node told.now)
        ∷ []) }
{
    let message = Message {
        severity: severity_of(told.is_error),
        kind: told.words.name,
        text: told.words.message.as_str(),
        programs,
    };
    let mut text = told_at(alloc, format, sources, maps, told.pos, &message)?;
    text.push_str(told.notes.as_str())?;
    lines.push(Line {
        is_error: told.is_error,
        text,
    })?;
    Ok(())
}

/// The severity of a finding.
fn severity_of(is_error: bool) -> Severity
    ensures { result ≡ severity is_error }
{
    if is_error {
        Severity::Error
    } else {
        Severity::Warning
    }
}

/// Adds a line for each note. `maps` are the line maps of the texts.
fn add_notes(
    alloc: Global,
    format: Format,
    sources: &[Source],
    maps: &[LineMap],
    notes: &[Note],
    text: &mut String,
) -> Result<(), AllocError>
    requires { maps.now ≡ line_maps (map source_of sources.now) }
    ensures { OnOk result (string_bytes text.new ≡ string_bytes text.old
        ++ flat_map (note_line format (map source_of sources.now)) (notes_of notes.now)) }
{
    for note in notes {
        let message = Message {
            severity: Severity::Note,
            kind: "",
            text: note.message.as_str(),
            programs: "",
        };
        let line = told_at(alloc, format, sources, maps, note.pos, &message)?;
        text.push_str(line.as_str())?;
    }
    Ok(())
}

/// Returns the line of a message about a position; empty if no text has the number of its file.
/// `maps` are the line maps of the texts.
fn told_at(
    alloc: Global,
    format: Format,
    sources: &[Source],
    maps: &[LineMap],
    pos: Pos,
    message: &Message,
) -> Result<String, AllocError>
    requires { maps.now ≡ line_maps (map source_of sources.now) }
    ensures { IfOk result (λ line. string_bytes line
        ≡ told_at format (map source_of sources.now) pos (message_of message.now)) }
{
    if pos.file >= sources.len() {
        return Ok(String::new(alloc));
    }
    let source = &sources[pos.file];
    let lines = &maps[pos.file];
    told_line(alloc, format, source, lines, pos.offset, message)
}

/// Returns the report of these lines.
pub fn rendered(alloc: Global, format: Format, lines: &[Line]) -> Result<Report, AllocError>
    ensures { IfOk result (λ report. report_of report ≡ rendered format (lines_at lines.now)) }
{
    let errors = count_of(lines, true);
    let mut text = joined(alloc, lines)?;
    add_count(alloc, format, errors, count_of(lines, false), &mut text)?;
    let is_clean = errors == 0;
    Ok(Report { text, is_clean })
}

fn joined(alloc: Global, lines: &[Line]) -> Result<String, AllocError>
    ensures { IfOk result (λ text. string_bytes text ≡ joined (lines_at lines.now)) }
{
    let mut text = String::new(alloc);
    for line in lines {
        text.push_str(line.text.as_str())?;
    }
    Ok(text)
}

/// Returns how many lines tell errors, or how many tell warnings.
fn count_of(lines: &[Line], is_error: bool) -> usize
    ensures { result ≡ count_of is_error (lines_at lines.now) }
{
    let mut count = 0;
    for line in lines {
        if line.is_error == is_error {
            count += 1;
        }
    }
    count
}
