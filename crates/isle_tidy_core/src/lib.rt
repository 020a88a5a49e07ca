//! The tidier: it keeps the author's lines, and indents them as Cranelift's authors do.
//!
//! A text has a document if it lexes and its parentheses match; it need not parse as definitions.
//! The entries of a document, and the place of each, are those of `isle_tidy_layout`.
#![tactic(auto)]

ghost use Rattle.std.specs.Prelude.{◌≡◌, ◌≢◌, ◌≤◌, ◌++◌, Err, IfErr, IfOk, IfSome};
ghost use Rattle.std.specs.Prelude.{List, None, Ok, ℕ};
ghost use Rattle.std.specs.Prelude.{false, length, string_bytes, take, true};
ghost use Rattle.isle_base.specs.Steps.{IfError};
ghost use Rattle.isle_base.specs.declared.fault.Fault.TheVariants.{Failed};
ghost use Rattle.isle_tidy_core.specs.Refused.{HasNoDocument, IsRefusedFor, IsWithin};
ghost use Rattle.isle_tidy_core.specs.Tidied.{IsTidyTextOf, IsUntidy};

mod check_lexemes;
mod closings;
mod ends;
mod gaps;
pub mod laws;
mod lexemes;
mod output;
mod parentheses;
mod reader;
pub mod tidying;
mod writing;

use isle_base::lexer::Fault;
use std::alloc::Global;
use tidying::Tidying;

/// Tidies a text of ISLE: keeps the author's lines and every comment, and fixes columns and gaps.
///
/// The result has the same lexemes in the same order, as they are written: `0x10` stays `0x10`.
/// Only comments change: line comments lose the spaces and tabs at their ends, and block comments
/// get the line ends of the text. The same lexemes begin lines. At most two empty lines stand in a
/// row, and none at the start. Tidying the result again changes nothing.
///
/// Each line ends alike, the last one too: with CR and LF if the first LF of the text has a CR
/// before it, and otherwise with LF. A byte order mark at the start stays, with nothing after it,
/// if the text ends there or goes on with `(` or `;`. Any other is a symbol, or part of one.
///
/// `Error` means that the text has no document. It is a parse error in file 0, whose span is one
/// byte: the one where the lexical error begins, the first `)` without its `(`, or a `(` without
/// its `)` that is in no other list. `Memory` means out of memory. `Failed` is never returned.
pub fn tidy(alloc: Global, text: &str) -> Result<String, Fault>
    ensures tidied { IfOk result (λ answer. IsTidyTextOf text.now (string_bytes answer)) }
    ensures refused { IfErr result (IfError (λ e. HasNoDocument text.now
        × IsRefusedFor text.now e × IsWithin (length text.now) e)) }
    ensures never_failed { result ≢ Err Failed }
{
    let mut tidying = Tidying::new(alloc, text)?;
    let mut answer = String::new(alloc);
    while tidying.put_next(&mut answer)? {}
    Ok(answer)
}

/// At least this many bytes of a tidy text are compared at once.
const COMPARED: usize = 64 * 1024;

/// Returns whether a text is its own tidy text, which is compared in parts. It is held whole only if
/// the text has a CR, or a byte order mark that stands apart.
///
/// The errors are those of `tidy`. The result is `true` exactly if `tidy` returns the text itself.
pub fn is_tidy(alloc: Global, text: &str) -> Result<bool, Fault>
    ensures tidy { result ≡ Ok true → IsTidyTextOf text.now text.now }
    ensures untidy { result ≡ Ok false → IsUntidy text.now }
    ensures refused { IfErr result (IfError (λ e. HasNoDocument text.now
        × IsRefusedFor text.now e × IsWithin (length text.now) e)) }
    ensures never_failed { result ≢ Err Failed }
{
    let mut tidying = Tidying::new(alloc, text)?;
    let mut part = String::new(alloc);
    let mut at = 0;
    while tidying.put_some(&mut part, COMPARED)? {
        match goes_on(text, at, part.as_str()) {
            Some(next) => at = next,
            None => return Ok(false),
        }
        part.clear();
    }
    match goes_on(text, at, part.as_str()) {
        Some(end) => Ok(end == text.len()),
        None => Ok(false),
    }
}

/// Returns the byte offset after `part`, if the text has it at the byte offset `at`.
fn goes_on(text: &str, at: usize, part: &str) -> Option<usize>
    requires { at ≤ length text.now }
    ensures some { IfSome result (λ next. (next ≤ length text.now)
        × (take next text.now ≡ take at text.now ++ part.now)) }
    ensures none { result ≡ None → (rest : List ℕ)
        → text.now ≢ take at text.now ++ (part.now ++ rest) }
{
    let end = at + part.len();
    if end <= text.len() && &text.as_bytes()[at..end] == part.as_bytes() {
        Some(end)
    } else {
        None
    }
}
