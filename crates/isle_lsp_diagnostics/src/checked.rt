//! What the check of programs tells of one of their files.

ghost use Rattle.std.specs.Prelude.{◌≡◌, ◌≤◌, ◌++◌, [], IfErr, IfOk, OnOk, length, map};
ghost use Rattle.isle_cli.specs.declared.failure.Failure.TheVariants.{Memory};
ghost use Rattle.isle_lsp_features.specs.Programs.{text_of};
ghost use Rattle.isle_lsp_diagnostics.specs.Checked as wanted;
ghost use Rattle.isle_lsp_diagnostics.specs.Checked.{AreChecked, AreProgramMarks, told_of};
ghost use Rattle.isle_lsp_diagnostics.specs.Marks.{mark_of};

use crate::checks::{Checks, Told};
use crate::diagnostics::{Diagnostic, Finder, copy_of};
use isle_base::lexer::{Pos, symbol_end};
use isle_cli::failure::Failure;
use isle_lsp_features::Text;
use std::alloc::{AllocError, Global};

/// The diagnostics of what `isle-check` finds in these programs in one of their files, which has
/// this text. Each program is checked by itself, if all its texts parse, and what several of them
/// tell stands once. The only error is `Memory`.
pub fn check_diagnostics(
    alloc: Global,
    checks: &mut Checks,
    programs: &[Vec<Text>],
    file: &str,
    text: &str,
) -> Result<Vec<Diagnostic>, Failure>
    ensures ok { IfOk result (λ found. AreChecked (map (λ p. map text_of p.items) programs.now)
        file.now text.now [] (map mark_of found.items)) }
    ensures err { IfErr result (λ failure. failure ≡ Memory) }
{
    let mut diagnostics = Vec::new(alloc);
    for program in programs {
        let more = program_diagnostics(alloc, checks, program, file, text)?;
        add_each_once(&mut diagnostics, &more)?;
    }
    Ok(diagnostics)
}

/// The diagnostics of what is found in one program.
fn program_diagnostics(
    alloc: Global,
    checks: &mut Checks,
    program: &[Text],
    file: &str,
    text: &str,
) -> Result<Vec<Diagnostic>, Failure>
    ensures ok { IfOk result (λ found. AreProgramMarks (map text_of program.now) file.now
        text.now (map mark_of found.items)) }
    ensures err { IfErr result (λ failure. failure ≡ Memory) }
{
    let checked = checks.take(alloc, program)?;
    let found = finding_diagnostics(alloc, program, file, text, checked.all())?;
    checks.programs.put(checked)?;
    Ok(found)
}

/// The diagnostics of what is told in a file.
fn finding_diagnostics(
    alloc: Global,
    program: &[Text],
    file: &str,
    text: &str,
    all: &[Told],
) -> Result<Vec<Diagnostic>, AllocError>
    ensures { IfOk result (λ diagnostics. map mark_of diagnostics.items
        ≡ wanted.marks_in (map text_of program.now) file.now text.now (map told_of all.now)) }
{
    let mut diagnostics = Vec::new(alloc);
    for told in all {
        add_diagnostic(alloc, program, file, text, told, &mut diagnostics)?;
    }
    Ok(diagnostics)
}

/// Adds the diagnostic of what is told, if it is in a file.
fn add_diagnostic(
    alloc: Global,
    program: &[Text],
    file: &str,
    text: &str,
    told: &Told,
    diagnostics: &mut Vec<Diagnostic>,
) -> Result<(), AllocError>
    ensures { OnOk result (map mark_of diagnostics.new.items
        ≡ map mark_of diagnostics.old.items ++ wanted.marks_for (map text_of program.now)
        file.now text.now (told_of told.now)) }
{
    if is_in(program, file, told.pos) {
        diagnostics.push(checked_diagnostic(alloc, text, told)?)?;
    }
    Ok(())
}

/// Returns whether a position in a program is in this file.
fn is_in(program: &[Text], file: &str, pos: Pos) -> bool
    ensures { result ≡ wanted.is_in (map text_of program.now) file.now pos }
{
    match program.get(pos.file) {
        Some(text) => text.file == file,
        None => false,
    }
}

/// The diagnostic of what is told, cut at the end of the text.
fn checked_diagnostic(alloc: Global, text: &str, told: &Told) -> Result<Diagnostic, AllocError>
    ensures { IfOk result
        (λ diagnostic. mark_of diagnostic ≡ wanted.checked_mark text.now (told_of told.now)) }
{
    let start = told.pos.offset.min(text.len());
    Ok(Diagnostic {
        start,
        end: part_end(text, start),
        finder: Finder::Check {
            is_error: told.is_error,
            kind: told.kind,
        },
        message: String::from_str(alloc, told.message.as_str())?,
    })
}

/// The end of what begins at a byte offset: that of a symbol, and otherwise one byte on, if there
/// is one.
fn part_end(text: &str, start: usize) -> usize
    requires { start ≤ length text.now }
    ensures { result ≡ wanted.part_end text.now start }
{
    let left = text.len() - start;
    let symbol = symbol_end(text.as_bytes(), start) - start;
    start + symbol.max(1.min(left))
}

/// Adds the diagnostics that are not there yet.
pub fn add_each_once(
    diagnostics: &mut Vec<Diagnostic>,
    more: &[Diagnostic],
) -> Result<(), AllocError>
    ensures { OnOk result (map mark_of diagnostics.new.items
        ≡ wanted.all_added (map mark_of diagnostics.old.items) (map mark_of more.now)) }
{
    for diagnostic in more {
        if !is_among(diagnostics, diagnostic) {
            diagnostics.push(copy_of(diagnostic)?)?;
        }
    }
    Ok(())
}

/// Returns whether one of the diagnostics tells the same of the same place.
fn is_among(diagnostics: &[Diagnostic], diagnostic: &Diagnostic) -> bool
    ensures { result ≡ wanted.is_among (map mark_of diagnostics.now) (mark_of diagnostic.now) }
{
    for other in diagnostics {
        if other.start == diagnostic.start
            && other.message.as_str() == diagnostic.message.as_str()
        {
            return true;
        }
    }
    false
}
