//! The diagnostics of an ISLE text: its parse errors, or that it nests too deeply. Or else what the
//! check of its programs finds in it, and then the findings of the lints that are on by default,
//! except those that comments allow.
//!
//! Lints see this text alone: of two rules with one name, in two files, none is found.

ghost use Rattle.std.specs.Prelude.{◌≡◌, ◌∷◌, [], IfErr, IfOk, filter, length, map};
ghost use Rattle.std.specs.List.{flat_map};
ghost use Rattle.isle_ast.specs.TreeView.{definitions_of};
ghost use Rattle.isle_base_source.specs.declared.error.Error as errors;
ghost use Rattle.isle_cli.specs.declared.failure.Failure.TheVariants.{Memory};
ghost use Rattle.isle_lint_core.specs.Finding.{finding_of};
ghost use Rattle.isle_lint_core.specs.Lint.{all_lints, is_default};
ghost use Rattle.isle_lsp_features.specs.Programs.{text_of};
ghost use Rattle.isle_lsp_diagnostics.specs.Diagnostics.{AreMarks, AreMarksOf, AreRefusedMarks};
ghost use Rattle.isle_lsp_diagnostics.specs.Diagnostics.{deep_mark, error_mark, found_mark};
ghost use Rattle.isle_lsp_diagnostics.specs.Diagnostics.{refusal_marks, shown};
ghost use Rattle.isle_lsp_diagnostics.specs.Marks.{mark_of};

use crate::checked::{add_each_once, check_diagnostics};
use crate::checks::Checks;
use crate::rules::first_of;
use crate::texts::{Place, own_diagnostics};
use isle_ast::ast::Def;
use isle_base_source::error::Error;
use isle_cli::failure::Failure;
use isle_lint_core::{Finding, Lint, findings};
use isle_lsp_features::Text;
use isle_lsp_features::pieces::{Refusal, refusals};
use isle_lsp_features::places::file_of;
use isle_program::allowances::Allowances;
use std::alloc::{AllocError, Global};

/// Who found what a diagnostic tells.
#[derive(Clone, Copy)]
pub enum Finder {
    /// The parser: the text nests too deeply, or has a parse error.
    Parser,
    /// A lint.
    Lint(Lint),
    /// The check of a program.
    Check {
        /// Whether it is an error, and not a warning.
        is_error: bool,
        /// The name of its kind, such as `unknown-term`.
        kind: &'static str,
    },
}

/// A message about a part of a text.
#[derive(Drop)]
pub struct Diagnostic {
    /// The byte offset at which the part begins.
    pub start: usize,
    /// The byte offset at which it ends.
    pub end: usize,
    /// Who found it.
    pub finder: Finder,
    /// The message.
    pub message: String,
}

/// What is wrong with a text that nests more deeply than `deep_list` takes.
const DEEP: &str = "more than 500 lists in one another, or '@' in one definition";

/// The diagnostics of a text, which is this file of the programs: the parse error of each piece,
/// in the order of the pieces, and where one nests too deeply. Or else what `isle-check` tells of
/// it in these programs, and then the findings of `isle-lint` without options, in order of
/// position. The only error is `Memory`.
pub fn diagnostics(
    alloc: Global,
    checks: &mut Checks,
    programs: &[Vec<Text>],
    file: &str,
    text: &str,
) -> Result<Vec<Diagnostic>, Failure>
    ensures ok { IfOk result (λ found. AreMarks (map (λ p. map text_of p.items) programs.now)
        file.now text.now (map mark_of found.items)) }
    ensures err { IfErr result (λ failure. failure ≡ Memory) }
{
    checks.keep(programs)?;
    let number = match file_of(first_of(programs), file) {
        Some(found) => found.number,
        None => 0,
    };
    let place = Place { number, file };
    let own = own_diagnostics(alloc, &mut checks.texts, place, text, programs.is_empty())?;
    if own.are_refusals {
        return Ok(own.found);
    }
    let mut found = check_diagnostics(alloc, checks, programs, file, text)?;
    let mut lints = own.found;
    found.append(&mut lints)?;
    Ok(found)
}

/// The diagnostics of a text that does not parse, or nests too deeply. What several pieces are
/// refused with stands once.
pub fn refused_diagnostics(alloc: Global, text: &str) -> Result<Vec<Diagnostic>, Failure>
    ensures ok { IfOk result (λ found. AreRefusedMarks text.now (map mark_of found.items)) }
    ensures err { IfErr result (λ failure. failure ≡ Memory) }
{
    let all = all_refusals(alloc, text, refusals(alloc, text)?)?;
    let mut diagnostics = Vec::new(alloc);
    add_each_once(&mut diagnostics, &all)?;
    Ok(diagnostics)
}

/// The diagnostics of all refusals of a text.
fn all_refusals(
    alloc: Global,
    text: &str,
    refusals: Vec<Refusal>,
) -> Result<Vec<Diagnostic>, AllocError>
    ensures { IfOk result (λ diagnostics. map mark_of diagnostics.items
        ≡ flat_map (refusal_marks text.now) refusals.items) }
{
    let mut diagnostics = Vec::new(alloc);
    for refusal in refusals {
        let mut more = refusal_diagnostics(alloc, text, refusal)?;
        diagnostics.append(&mut more)?;
    }
    Ok(diagnostics)
}

fn refusal_diagnostics(
    alloc: Global,
    text: &str,
    refusal: Refusal,
) -> Result<Vec<Diagnostic>, AllocError>
    ensures { IfOk result
        (λ diagnostics. map mark_of diagnostics.items ≡ refusal_marks text.now refusal) }
{
    match refusal {
        Refusal::Error(error) => error_diagnostics(alloc, text, error),
        Refusal::Deep(offset) => deep_diagnostics(alloc, text, offset),
    }
}

/// The diagnostic of a text that nests too deeply at this byte offset.
fn deep_diagnostics(alloc: Global, text: &str, offset: usize) -> Result<Vec<Diagnostic>, AllocError>
    ensures { IfOk result
        (λ diagnostics. map mark_of diagnostics.items ≡ deep_mark text.now offset ∷ []) }
{
    let start = offset.min(text.len());
    let left = text.len() - start;
    let message = String::from_str(alloc, DEEP)?;
    let mut diagnostics = Vec::new(alloc);
    diagnostics.push(Diagnostic {
        start,
        end: start + 1.min(left),
        finder: Finder::Parser,
        message,
    })?;
    Ok(diagnostics)
}

/// Copies of diagnostics.
pub fn copies_of(alloc: Global, diagnostics: &[Diagnostic]) -> Result<Vec<Diagnostic>, AllocError>
    ensures { IfOk result (λ copies. map mark_of copies.items ≡ map mark_of diagnostics.now) }
{
    let mut copies = Vec::new(alloc);
    for diagnostic in diagnostics {
        copies.push(copy_of(diagnostic)?)?;
    }
    Ok(copies)
}

/// A copy of a diagnostic.
pub fn copy_of(diagnostic: &Diagnostic) -> Result<Diagnostic, AllocError>
    ensures { IfOk result (λ copy. mark_of copy ≡ mark_of diagnostic.now) }
{
    Ok(Diagnostic {
        start: diagnostic.start,
        end: diagnostic.end,
        finder: diagnostic.finder,
        message: diagnostic.message.clone()?,
    })
}

/// The diagnostic of a parse error.
fn error_diagnostics(alloc: Global, text: &str, error: Error) -> Result<Vec<Diagnostic>, AllocError>
    ensures { IfOk result
        (λ diagnostics. map mark_of diagnostics.items ≡ error_mark text.now error) }
{
    let mut diagnostics = Vec::new(alloc);
    if let Error::ParseError { msg, span } = error {
        diagnostics.push(Diagnostic {
            start: span.from.offset.min(text.len()),
            end: span.to.offset.min(text.len()),
            finder: Finder::Parser,
            message: msg,
        })?;
    }
    Ok(diagnostics)
}

/// The diagnostics of the lints in a text with these definitions.
pub fn lint_diagnostics(
    alloc: Global,
    text: &str,
    defs: &[Def],
) -> Result<Vec<Diagnostic>, AllocError>
    ensures { IfOk result (λ diagnostics. AreMarksOf text.now (definitions_of defs.now)
        (map mark_of diagnostics.items)) }
{
    let lints = default_lints(alloc)?;
    let found = findings(alloc, defs, &lints)?;
    let allowances = Allowances::of(alloc, text)?;
    let diagnostics = finding_diagnostics(alloc, text, &allowances, &found)?;
    Ok(diagnostics)
}

/// The lints that are on by default.
fn default_lints(alloc: Global) -> Result<Vec<Lint>, AllocError>
    ensures { IfOk result (λ lints. lints.items ≡ filter is_default all_lints) }
{
    defaults_among(alloc, &Lint::ALL)
}

/// The lints in a list that are on by default.
fn defaults_among(alloc: Global, lints: &[Lint]) -> Result<Vec<Lint>, AllocError>
    ensures { IfOk result (λ chosen. chosen.items ≡ filter is_default lints.now) }
{
    let mut chosen = Vec::new(alloc);
    for lint in lints {
        if lint.is_default() {
            chosen.push(*lint)?;
        }
    }
    Ok(chosen)
}

/// The diagnostics of these findings, except those that comments allow.
fn finding_diagnostics(
    alloc: Global,
    text: &str,
    allowances: &Allowances,
    found: &[Finding],
) -> Result<Vec<Diagnostic>, AllocError>
    ensures { IfOk result (λ diagnostics. map mark_of diagnostics.items
        ≡ map (found_mark text.now) (shown allowances.now (map finding_of found.now))) }
{
    let mut diagnostics = Vec::new(alloc);
    for finding in found {
        if !allowances.allow(finding) {
            let diagnostic = diagnostic_of(alloc, text, finding)?;
            diagnostics.push(diagnostic)?;
        }
    }
    Ok(diagnostics)
}

fn diagnostic_of(alloc: Global, text: &str, finding: &Finding) -> Result<Diagnostic, AllocError>
    ensures { IfOk result
        (λ diagnostic. mark_of diagnostic ≡ found_mark text.now (finding_of finding.now)) }
{
    let start = finding.pos.offset.min(text.len());
    let left = text.len() - start;
    Ok(Diagnostic {
        start,
        end: start + finding.name.len().min(left),
        finder: Finder::Lint(finding.lint),
        message: finding.message(alloc)?,
    })
}
