//! The report on several programs, which may share texts.

ghost use Rattle.std.specs.Prelude.{◌≡◌, ◌++◌, ◌∷◌, [], IfErr, IfOk, OnOk, map, string_bytes};
ghost use Rattle.isle_ast.specs.TreeView.{definitions_of};
ghost use Rattle.isle_cli.specs.Arguments.{given_of};
ghost use Rattle.isle_cli.specs.Sources.{source_of};
ghost use Rattle.isle_cli.specs.declared.failure.Failure.TheVariants.{Memory};
ghost use Rattle.isle_check.specs.Programs as Programs;
ghost use Rattle.isle_check.specs.Programs.{AddsChecked, AreChecked, IsProgramsReport, IsToldIn};
ghost use Rattle.isle_check.specs.Programs.{checked_of, has_same_words, is_as_bad, is_same};
ghost use Rattle.isle_check.specs.Programs.{once_of, programs_lines, programs_of, share_of_checked};
ghost use Rattle.isle_check.specs.Programs.{tagged_line, tagged_lines};
ghost use Rattle.isle_check.specs.Report.{line_maps};
ghost use Rattle.isle_check.specs.ReportView.{lines_at, told_node};
ghost use Rattle.isle_program_findings.specs.Programs as shared;
ghost use Rattle.isle_program_findings.specs.Programs.{part_of, share_of};
ghost use Rattle.isle_program.specs.Reading.{IsReading};
ghost use Rattle.isle_program_findings.specs.ReportView.{report_of};

use crate::report::{Line, Told, add_line, line_maps, refused_lines, rendered, told_in};
use isle_base_source::error::Error;
use isle_base_source::files::LineMap;
use isle_cli::arguments::Argument;
use isle_cli::failure::Failure;
use isle_cli::sources::Source;
use isle_program::reports::format::{Format, format_of};
use isle_program::trees::{Reading, drop_reading, read_all};
use isle_program_findings::programs::{Part, Share, is_own, own_texts, tag};
use isle_program_findings::report::Report;
use std::alloc::{AllocError, Global};

/// A program that is checked.
#[derive(Drop)]
struct Checked<'a> {
    part: &'a Part,
    told: Vec<Told>,
}

/// What is told once, however many programs have it.
#[derive(Clone, Copy)]
struct Once<'a> {
    told: &'a Told,
}

/// Returns the report on several programs: a line for each text that does not parse, and then one
/// for each finding, program by program. Each program whose own texts parse is checked by itself.
///
/// A finding of several programs is told once; where another program that is checked has its file
/// but not the finding, their names follow it. The only failure is `Memory`.
pub fn report_on_programs(
    alloc: Global,
    sources: &[Source],
    parts: &[Part],
    arguments: &[Argument],
) -> Result<Report, Failure>
    ensures ok { IfOk result (λ report. IsProgramsReport (map given_of arguments.now)
        (map source_of sources.now) (map part_of parts.now) (report_of report)) }
    ensures err { IfErr result (λ failure. failure ≡ Memory) }
{
    let reading = read_all(alloc, sources)?;
    let report = report_on_reading(alloc, sources, parts, arguments, &reading);
    drop_reading(reading);
    report
}

/// Returns the report on several programs whose texts are parsed.
fn report_on_reading(
    alloc: Global,
    sources: &[Source],
    parts: &[Part],
    arguments: &[Argument],
    reading: &Reading,
) -> Result<Report, Failure>
    requires { IsReading (map source_of sources.now) (definitions_of reading.now.defs.items)
        reading.now.refusals.items }
    ensures ok { IfOk result (λ report. IsProgramsReport (map given_of arguments.now)
        (map source_of sources.now) (map part_of parts.now) (report_of report)) }
    ensures err { IfErr result (λ failure. failure ≡ Memory) }
{
    let format = format_of(arguments);
    let checked = check_all(alloc, sources, parts, arguments, &reading.refusals)?;
    let lines = programs_lines(alloc, format, sources, &checked, &reading.refusals)?;
    Ok(rendered(alloc, format, &lines)?)
}

/// Returns the programs whose own texts parse, with what is told of each.
fn check_all<'a>(
    alloc: Global,
    sources: &[Source],
    parts: &'a [Part],
    arguments: &[Argument],
    refusals: &[Option<Error>],
) -> Result<Vec<Checked<'a>>, Failure>
    ensures ok { IfOk result (λ checked. AreChecked (map given_of arguments.now)
        (map source_of sources.now) (map part_of parts.now) refusals.now
        (map checked_of checked.items)) }
    ensures err { IfErr result (λ failure. failure ≡ Memory) }
{
    let mut checked = Vec::new(alloc);
    for part in parts {
        if is_read(refusals, &part.has) {
            add_checked(alloc, sources, part, arguments, &mut checked)?;
        }
    }
    Ok(checked)
}

/// Returns whether each text that is the program's parses.
fn is_read(refusals: &[Option<Error>], has: &[bool]) -> bool
    ensures { result ≡ Programs.is_read refusals.now 0 has.now }
{
    for (number, refusal) in refusals.iter().enumerate() {
        if is_own(has, number) && refusal.is_some() {
            return false;
        }
    }
    true
}

/// Adds a program with what is told of it.
fn add_checked<'a>(
    alloc: Global,
    sources: &[Source],
    part: &'a Part,
    arguments: &[Argument],
    checked: &mut Vec<Checked<'a>>,
) -> Result<(), Failure>
    ensures ok { OnOk result (AddsChecked (map given_of arguments.now) (map source_of sources.now)
        (part_of part.now) (map checked_of checked.old.items) (map checked_of checked.new.items)) }
    ensures err { IfErr result (λ failure. failure ≡ Memory) }
{
    let own = own_texts(alloc, sources, &part.has)?;
    let told = told_of(alloc, &own, arguments)?;
    checked.push(Checked { part, told })?;
    Ok(())
}

/// Returns what is told of the findings in one program.
fn told_of(alloc: Global, own: &[Source], arguments: &[Argument]) -> Result<Vec<Told>, Failure>
    ensures ok { IfOk result (λ told. IsToldIn (map given_of arguments.now)
        (map source_of own.now) (map told_node told.items)) }
    ensures err { IfErr result (λ failure. failure ≡ Memory) }
{
    let reading = read_all(alloc, own)?;
    let told = told_in_reading(alloc, own, arguments, &reading);
    drop_reading(reading);
    Ok(told?)
}

/// Returns what is told of the findings in a program that is parsed.
fn told_in_reading(
    alloc: Global,
    own: &[Source],
    arguments: &[Argument],
    reading: &Reading,
) -> Result<Vec<Told>, AllocError>
    requires { IsReading (map source_of own.now) (definitions_of reading.now.defs.items)
        reading.now.refusals.items }
    ensures { IfOk result (λ told. IsToldIn (map given_of arguments.now)
        (map source_of own.now) (map told_node told.items)) }
{
    told_in(alloc, own, arguments, &reading.defs)
}

/// Returns the lines about the texts that do not parse, and then those of the findings in the
/// programs, each finding once.
fn programs_lines(
    alloc: Global,
    format: Format,
    sources: &[Source],
    checked: &[Checked],
    refusals: &[Option<Error>],
) -> Result<Vec<Line>, AllocError>
    ensures { IfOk result (λ lines. lines_at lines.items ≡ programs_lines format
        (map checked_of checked.now) (map source_of sources.now) refusals.now) }
{
    let mut lines = refused_lines(alloc, format, sources, refusals)?;
    add_checked_lines(alloc, format, sources, checked, &mut lines)?;
    Ok(lines)
}

/// Adds the lines of the findings in the programs, each finding once.
fn add_checked_lines(
    alloc: Global,
    format: Format,
    sources: &[Source],
    checked: &[Checked],
    lines: &mut Vec<Line>,
) -> Result<(), AllocError>
    ensures { OnOk result (lines_at lines.new.items ≡ lines_at lines.old.items
        ++ tagged_lines format (map checked_of checked.now) (map source_of sources.now)
        (shared.each_once is_same [] (map checked_of checked.now))) }
{
    let all = each_once(alloc, checked)?;
    if all.is_empty() {
        return Ok(());
    }
    let maps = line_maps(alloc, sources)?;
    add_tagged(alloc, format, sources, &maps, checked, &all, lines)
}

/// Adds the lines of findings, with the names of the programs that have them. `maps` are the line
/// maps of the texts.
fn add_tagged(
    alloc: Global,
    format: Format,
    sources: &[Source],
    maps: &[LineMap],
    checked: &[Checked],
    all: &[Once],
    lines: &mut Vec<Line>,
) -> Result<(), AllocError>
    requires { maps.now ≡ line_maps (map source_of sources.now) }
    ensures { OnOk result (lines_at lines.new.items ≡ lines_at lines.old.items
        ++ tagged_lines format (map checked_of checked.now) (map source_of sources.now)
        (map once_of all.now)) }
{
    for one in all {
        add_tagged_line(alloc, format, sources, maps, checked, one.told, lines)?;
    }
    Ok(())
}

/// Adds the lines of a finding, with the names of the programs that have it. `maps` are the line
/// maps of the texts.
fn add_tagged_line(
    alloc: Global,
    format: Format,
    sources: &[Source],
    maps: &[LineMap],
    checked: &[Checked],
    told: &Told,
    lines: &mut Vec<Line>,
) -> Result<(), AllocError>
    requires { maps.now ≡ line_maps (map source_of sources.now) }
    ensures { OnOk result (lines_at lines.new.items ≡ lines_at lines.old.items ++ tagged_line format
        (map checked_of checked.now) (map source_of sources.now) (told_node told.now) ∷ []) }
{
    let programs = programs_of(alloc, checked, told)?;
    add_line(alloc, format, sources, maps, told, programs.as_str(), lines)
}

/// Returns the names of the programs that have a finding, as ` [x64, aarch64]`; nothing if each
/// program that has its file has it.
fn programs_of(alloc: Global, checked: &[Checked], told: &Told) -> Result<String, AllocError>
    ensures { IfOk result (λ text. string_bytes text
        ≡ programs_of (told_node told.now) (map checked_of checked.now)) }
{
    let shares = shares_of(alloc, checked, told)?;
    tag(alloc, &shares)
}

/// Returns each program, and whether it has the file of a finding, and the finding.
fn shares_of<'a>(
    alloc: Global,
    checked: &'a [Checked],
    told: &Told,
) -> Result<Vec<Share<'a>>, AllocError>
    ensures { IfOk result (λ shares. map share_of shares.items
        ≡ map (share_of_checked (told_node told.now)) (map checked_of checked.now)) }
{
    let mut shares = Vec::new(alloc);
    for program in checked {
        shares.push(share_in(program, told))?;
    }
    Ok(shares)
}

/// Returns a program, and whether it has the file of a finding, and the finding.
fn share_in<'a>(program: &'a Checked, told: &Told) -> Share<'a>
    ensures { share_of result ≡ share_of_checked (told_node told.now) (checked_of program.now) }
{
    Share {
        name: program.part.name.as_str(),
        has_file: is_own(&program.part.has, told.pos.file),
        has_finding: has_told(&program.told, told),
    }
}

/// Returns what is told of all programs, each finding once.
fn each_once<'a>(alloc: Global, checked: &'a [Checked]) -> Result<Vec<Once<'a>>, AllocError>
    ensures { IfOk result (λ all. map once_of all.items
        ≡ shared.each_once is_same [] (map checked_of checked.now)) }
{
    let mut all = Vec::new(alloc);
    for program in checked {
        add_all(&mut all, &program.told)?;
    }
    Ok(all)
}

/// Adds what is not there yet.
fn add_all<'a>(all: &mut Vec<Once<'a>>, told: &'a [Told]) -> Result<(), AllocError>
    ensures { OnOk result (map once_of all.new.items
        ≡ shared.all_added is_same (map once_of all.old.items) (map told_node told.now)) }
{
    for one in told {
        if !is_among(all, one) {
            all.push(Once { told: one })?;
        }
    }
    Ok(())
}

fn is_among(all: &[Once], told: &Told) -> bool
    ensures { result ≡ Programs.is_among (map once_of all.now) (told_node told.now) }
{
    for other in all {
        if is_same(told, other.told) {
            return true;
        }
    }
    false
}

/// Returns whether a finding is told of a program.
fn has_told(all: &[Told], told: &Told) -> bool
    ensures { result ≡ Programs.is_among (map told_node all.now) (told_node told.now) }
{
    for other in all {
        if is_same(told, other) {
            return true;
        }
    }
    false
}

/// Returns whether the same is told at the same place.
fn is_same(a: &Told, b: &Told) -> bool
    ensures { result ≡ is_same (told_node a.now) (told_node b.now) }
{
    a.pos.file == b.pos.file
        && a.pos.offset == b.pos.offset
        && is_as_bad(a, b)
        && has_same_words(a, b)
}

/// Returns whether both are told as errors, or both as warnings.
fn is_as_bad(a: &Told, b: &Told) -> bool
    ensures { result ≡ is_as_bad (told_node a.now) (told_node b.now) }
{
    if a.is_error { b.is_error } else { !b.is_error }
}

fn has_same_words(a: &Told, b: &Told) -> bool
    ensures { result ≡ has_same_words (told_node a.now) (told_node b.now) }
{
    a.words.name == b.words.name
        && a.words.message.as_str() == b.words.message.as_str()
        && a.notes.as_str() == b.notes.as_str()
}
