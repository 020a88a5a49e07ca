//! The report on several programs, which may share texts.

ghost use Rattle.std.specs.Prelude.{◌≡◌, ◌++◌, ◌∷◌, [], IfErr, IfOk, OnOk, map};
ghost use Rattle.isle_ast.specs.TreeView.{definitions_of};
ghost use Rattle.isle_cli.specs.Arguments.{given_of};
ghost use Rattle.isle_cli.specs.Sources.{source_of};
ghost use Rattle.isle_cli.specs.declared.failure.Failure.TheVariants.{Memory};
ghost use Rattle.isle_lint_core.specs.Finding.{finding_of};
ghost use Rattle.isle_program_findings.specs.Programs as shared;
ghost use Rattle.isle_program_findings.specs.Programs.{part_of};
ghost use Rattle.isle_program.specs.Reading.{IsReading};
ghost use Rattle.isle_program_findings.specs.ReportView.{report_of};
ghost use Rattle.isle_lint.specs.Linted.{found_of, is_among, is_same, linted_of};
ghost use Rattle.isle_lint.specs.Programs.{AddsLinted, AreLinted, IsProgramsReport, IsShown};
ghost use Rattle.isle_lint.specs.Programs.{IsToldIn};

use crate::linted::{Linted, Told, is_same};
use crate::report::{report_in, told_in_reading};
use isle_base_source::error::Error;
use isle_cli::arguments::Argument;
use isle_cli::failure::Failure;
use isle_cli::sources::Source;
use isle_lint_core::{Finding, Lint};
use isle_program::trees::{Reading, drop_reading, read_all};
use isle_program_findings::programs::{Part, own_texts};
use isle_program_findings::report::Report;
use std::alloc::{AllocError, Global};

/// The report of these lints on several programs: a line for each text that does not parse, and
/// for each finding, in order of file and position, and for people a line that counts them.
///
/// Each program is linted by itself, as `report_on` does it. A finding of several programs is told
/// once; where a program has its file but not the finding, the names of the others follow it.
pub fn report_on_programs(
    alloc: Global,
    arguments: &[Argument],
    sources: &[Source],
    parts: &[Part],
    lints: &[Lint],
) -> Result<Report, Failure>
    ensures ok { IfOk result (λ report. IsProgramsReport (map given_of arguments.now) lints.now
        (map source_of sources.now) (map part_of parts.now) (report_of report)) }
    ensures err { IfErr result (λ failure. failure ≡ Memory) }
{
    let linted = lint_all(alloc, sources, parts, lints)?;
    let reading = read_all(alloc, sources)?;
    let report = report_on_linted(alloc, arguments, sources, &linted, &reading.refusals);
    drop_reading(reading);
    Ok(report?)
}

/// The programs with their findings.
fn lint_all<'a>(
    alloc: Global,
    sources: &[Source],
    parts: &'a [Part],
    lints: &[Lint],
) -> Result<Vec<Linted<'a>>, Failure>
    ensures ok { IfOk result (λ linted. AreLinted lints.now (map source_of sources.now)
        (map part_of parts.now) (map linted_of linted.items)) }
    ensures err { IfErr result (λ failure. failure ≡ Memory) }
{
    let mut linted = Vec::new(alloc);
    for part in parts {
        add_linted(alloc, sources, part, lints, &mut linted)?;
    }
    Ok(linted)
}

/// Adds a program with its findings.
fn add_linted<'a>(
    alloc: Global,
    sources: &[Source],
    part: &'a Part,
    lints: &[Lint],
    linted: &mut Vec<Linted<'a>>,
) -> Result<(), Failure>
    ensures ok { OnOk result (AddsLinted lints.now (map source_of sources.now) (part_of part.now)
        (map linted_of linted.old.items) (map linted_of linted.new.items)) }
    ensures err { IfErr result (λ failure. failure ≡ Memory) }
{
    let own = own_texts(alloc, sources, &part.has)?;
    let told = told_of(alloc, &own, lints)?;
    linted.push(Linted { part, told })?;
    Ok(())
}

/// The findings that are told of one program.
fn told_of(alloc: Global, own: &[Source], lints: &[Lint]) -> Result<Vec<Told>, Failure>
    ensures ok { IfOk result (λ all. IsToldIn lints.now (map source_of own.now)
        (map found_of all.items)) }
    ensures err { IfErr result (λ failure. failure ≡ Memory) }
{
    let reading = read_all(alloc, own)?;
    let told = copied_from(alloc, own, lints, &reading);
    drop_reading(reading);
    Ok(told?)
}

/// Copies of the findings in a program that is parsed.
fn copied_from(
    alloc: Global,
    own: &[Source],
    lints: &[Lint],
    reading: &Reading,
) -> Result<Vec<Told>, AllocError>
    requires { IsReading (map source_of own.now) (definitions_of reading.now.defs.items)
        reading.now.refusals.items }
    ensures { IfOk result (λ all. IsToldIn lints.now (map source_of own.now)
        (map found_of all.items)) }
{
    let told = told_in_reading(alloc, own, lints, reading)?;
    copied(alloc, &told)
}

/// Copies of findings.
fn copied(alloc: Global, told: &[Finding]) -> Result<Vec<Told>, AllocError>
    ensures { IfOk result (λ all. map found_of all.items ≡ map finding_of told.now) }
{
    let mut all = Vec::new(alloc);
    for finding in told {
        add_copy(alloc, finding, &mut all)?;
    }
    Ok(all)
}

fn add_copy(alloc: Global, finding: &Finding, all: &mut Vec<Told>) -> Result<(), AllocError>
    ensures { OnOk result (map found_of all.new.items
        ≡ map found_of all.old.items ++ finding_of finding.now ∷ []) }
{
    let name = String::from_str(alloc, finding.name)?;
    all.push(Told {
        pos: finding.pos,
        lint: finding.lint,
        name,
    })?;
    Ok(())
}

/// The report on the findings of these programs, and on the texts that do not parse.
fn report_on_linted(
    alloc: Global,
    arguments: &[Argument],
    sources: &[Source],
    linted: &[Linted],
    refusals: &[Option<Error>],
) -> Result<Report, AllocError>
    ensures { IfOk result (λ report. IsShown (map given_of arguments.now)
        (map source_of sources.now) (map linted_of linted.now) refusals.now (report_of report)) }
{
    let mut found = each_once(alloc, linted)?;
    found.sort()?;
    report_in(alloc, arguments, sources, linted, refusals, &found)
}

/// The findings of all programs, each once.
fn each_once<'a>(alloc: Global, linted: &'a [Linted]) -> Result<Vec<Finding<'a>>, AllocError>
    ensures { IfOk result (λ all. map finding_of all.items
        ≡ shared.each_once is_same [] (map linted_of linted.now)) }
{
    let mut all = Vec::new(alloc);
    for program in linted {
        add_all(&mut all, &program.told)?;
    }
    Ok(all)
}

/// Adds the findings that are not there yet.
fn add_all<'a>(all: &mut Vec<Finding<'a>>, told: &'a [Told]) -> Result<(), AllocError>
    ensures { OnOk result (map finding_of all.new.items
        ≡ shared.all_added is_same (map finding_of all.old.items) (map found_of told.now)) }
{
    for one in told {
        let finding = one.finding();
        if !is_among(all, &finding) {
            all.push(finding)?;
        }
    }
    Ok(())
}

/// Returns whether a finding is one of these.
fn is_among(all: &[Finding], finding: &Finding) -> bool
    ensures { result ≡ is_among (map finding_of all.now) (finding_of finding.now) }
{
    for other in all {
        if is_same(finding, other) {
            return true;
        }
    }
    false
}
