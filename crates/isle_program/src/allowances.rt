//! The comments that disable a lint for a definition.

ghost use Rattle.std.specs.Prelude.{◌≡◌, ◌≤◌, ◌++◌, [], IfOk, drop, filter, length, map};
ghost use Rattle.std.specs.List.Sorted.{IsNonDecreasingBy};
ghost use Rattle.std.specs.Str.{bytes_eq};
ghost use Rattle.isle_base.specs.Skips.{is_blank};
ghost use Rattle.isle_lint_core.specs.Finding.{finding_of};
ghost use Rattle.isle_lint_core.specs.Lint.{all_lints};
ghost use Rattle.isle_program.specs.Allowances.{AllowEach, AreAllowances, AreOff, Comments};
ghost use Rattle.isle_program.specs.Allowances.{Passes, after_semicolons, allows, begins_with};
ghost use Rattle.isle_program.specs.Allowances.{allowance_of, is_allowed, is_off, off_at};
ghost use Rattle.isle_program.specs.Allowances.{one_allows};
ghost use Rattle.isle_program.specs.Openings.{Ascend};

use crate::openings::{Opening, openings};
use isle_base::ends::{block_comment_end, opens_at};
use isle_base::lexer::line_comment_end;
use isle_lint_core::{Finding, Lint};
use std::alloc::{AllocError, Global};
use std::marker::Model;

/// The text between the semicolons of a comment that disables a lint and the lint's name.
const ALLOW: &[u8] = b" isle-lint: allow ";

/// The definitions of a text, each with the lints that comments disable for it.
///
/// These are the line comments between the end of the definition before, or the beginning of the
/// text, and the definition's `(`.
#[derive(Drop)]
pub struct Allowances {
    /// In order.
    list: Vec<Allowed>,
}

impl Model for Allowances {
    ghost use Rattle.std.specs.Prelude.{List, map};
    ghost use Rattle.std.specs.List.Sorted.{IsNonDecreasingBy};
    ghost use Rattle.isle_program.specs.Allowances.{Allowance, allowance_of};
    ghost use Rattle.isle_program.specs.declared.allowances.Allowed.{Allowed};

    ghost Value = { List Allowance };

    ghost view = { λ allowances. map allowance_of allowances.list.items };

    ghost invariant = { λ allowances.
        IsNonDecreasingBy (λ (allowed : Allowed). allowed.start) allowances.list.items };
}

/// A definition, and the lints that are disabled for it, each once.
#[derive(Drop)]
struct Allowed {
    /// The byte offset of its `(`.
    start: usize,
    lints: Vec<Lint>,
}

impl Allowances {
    /// The definitions of a text. It has none after a lexical error.
    pub fn of(alloc: Global, text: &str) -> Result<Allowances, AllocError>
        ensures { IfOk result (λ allowances. AreAllowances text.now allowances) }
    {
        let openings = openings(alloc, text)?;
        let list = allowed_at(alloc, text.as_bytes(), &openings)?;
        Ok(Allowances { list })
    }

    /// Returns whether a comment disables the lint of a finding in the text: for the last
    /// definition that begins at or before it.
    pub fn allow(&self, finding: &Finding) -> bool
        ensures { result ≡ is_allowed self.now (finding_of finding.now) }
    {
        is_off(self.lints_at(finding.pos.offset), finding.lint)
    }

    /// The lints that are disabled at a byte offset.
    fn lints_at(&self, offset: usize) -> &[Lint]
        ensures { result.now ≡ off_at [] offset self.now }
    {
        let count = self.list.partition_point(|allowed| allowed.start <= offset);
        if count == 0 {
            return &[];
        }
        &self.list[count - 1].lints
    }
}

/// The definitions with these beginnings.
fn allowed_at(alloc: Global, text: &[u8], openings: &[Opening]) -> Result<Vec<Allowed>, AllocError>
    requires { Ascend (length text.now) 0 openings.now }
    ensures each { IfOk result
        (λ list. AllowEach text.now openings.now (map allowance_of list.items)) }
    ensures in_order { IfOk result
        (λ list. IsNonDecreasingBy (λ (allowed : Allowed). allowed.start) list.items) }
{
    let mut list = Vec::new(alloc);
    for opening in openings {
        let lints = lints_behind(alloc, text, opening.before)?;
        let start = opening.start;
        list.push(Allowed { start, lints })?;
    }
    Ok(list)
}

/// The lints that the comments behind an offset disable.
fn lints_behind(alloc: Global, text: &[u8], from: usize) -> Result<Vec<Lint>, AllocError>
    requires { from ≤ length text.now }
    ensures { IfOk result (λ lints. AreOff text.now from lints.items) }
{
    let comments = comments_behind(alloc, text, from)?;
    let lints = allowed_by(alloc, &comments, &Lint::ALL)?;
    Ok(lints)
}

/// The line comments behind an offset, before the next token, each with its `;`.
fn comments_behind(alloc: Global, text: &[u8], from: usize) -> Result<Vec<&[u8]>, AllocError>
    requires { from ≤ length text.now }
    ensures { IfOk result (λ comments. Comments (drop from text.now)
        (map (λ comment. comment.now) comments.items)) }
{
    let mut comments = Vec::new(alloc);
    let mut at = from;
    while let Some(end) = passed(text, at) {
        if text[at] == b';' {
            comments.push(&text[at..end])?;
        }
        at = end;
    }
    Ok(comments)
}

/// The offset after the blank or the comment at an offset. `None` if there is neither, or a block
/// comment that is not closed.
fn passed(text: &[u8], at: usize) -> Option<usize>
    requires { at ≤ length text.now }
    ensures { Passes text.now at result }
{
    if at == text.len() {
        return None;
    }
    if is_blank(text[at]) {
        Some(at + 1)
    } else if text[at] == b';' {
        Some(line_comment_end(text, at + 1))
    } else if opens_at(text, at) {
        block_comment_end(text, at + 2)
    } else {
        None
    }
}

#[tactic(auto, unfolding(isle_base::specs::Skips::is_blank))]
fn is_blank(byte: u8) -> bool
    ensures { result ≡ is_blank byte }
{
    matches!(byte, b' ' | b'\t' | b'\n' | b'\r')
}

/// Those of the lints that one of the comments disables.
fn allowed_by(alloc: Global, comments: &[&[u8]], lints: &[Lint]) -> Result<Vec<Lint>, AllocError>
    ensures { IfOk result (λ allowed. allowed.items
        ≡ filter (one_allows (map (λ comment. comment.now) comments.now)) lints.now) }
{
    let mut allowed = Vec::new(alloc);
    for lint in lints {
        if one_allows(comments, *lint) {
            allowed.push(*lint)?;
        }
    }
    Ok(allowed)
}

/// Returns whether one of the comments disables a lint.
fn one_allows(comments: &[&[u8]], lint: Lint) -> bool
    ensures { result ≡ one_allows (map (λ comment. comment.now) comments.now) lint }
{
    for comment in comments {
        if allows(comment, lint) {
            return true;
        }
    }
    false
}

/// Returns whether a lint is one of these.
fn is_off(lints: &[Lint], lint: Lint) -> bool
    ensures { result ≡ is_off lints.now lint }
{
    for other in lints {
        if other.name() == lint.name() {
            return true;
        }
    }
    false
}

fn begins_with(line: &[u8], byte: u8) -> bool
    ensures { result ≡ begins_with byte line.now }
{
    match line {
        [first, ..] => *first == byte,
        [] => false,
    }
}

/// Returns whether a line is a comment that disables this lint: semicolons, ` isle-lint: allow `
/// and the lint's name.
pub fn allows(line: &[u8], lint: Lint) -> bool
    ensures { result ≡ allows line.now lint }
{
    let rest = after_semicolons(line);
    begins_with(line, b';') && is_joined(rest, ALLOW, lint.name().as_bytes())
}

/// The rest of a line after the semicolons at its start.
fn after_semicolons(line: &[u8]) -> &[u8]
    ensures { result.now ≡ after_semicolons line.now }
{
    let mut rest = line;
    while let [b';', more @ ..] = rest {
        rest = more;
    }
    rest
}

/// Returns whether bytes are these two texts, one after the other.
#[tactic(auto, using(crate::proofs::AllowanceLemmas::joined))]
fn is_joined(bytes: &[u8], first: &[u8], second: &[u8]) -> bool
    ensures { result ≡ bytes_eq bytes.now (first.now ++ second.now) }
{
    match bytes.strip_prefix(first) {
        Some(rest) => rest == second,
        None => false,
    }
}
