//! The syntax layer of ISLE, tidying, checking and linting as a static library, for callers in C
//! and other languages.
//!
//! Texts are passed as slices of bytes. The output is written to a slice of the caller's, and its
//! whole length is returned, even if the slice is too short. No pointer is handed out, no state is
//! kept between calls, and the caller frees nothing. Every call checks its arguments, so none has a
//! `requires`. `bindings/c/isle.h` has the obligations of a caller.
#![tactic(auto)]

ghost use Rattle.std.specs.Prelude.{◌≡◌, ◌≢◌, ◌↔◌, ◌≤◌, IsUtf8, length};
ghost use Rattle.std.specs.List.{All, sum};
ghost use Rattle.isle_c.specs.Answers.{Wants, Writes};
ghost use Rattle.isle_c.specs.Parsing.{IsEncodedTree};
ghost use Rattle.isle_c.specs.Programs.{IsCheck, IsLint, IsRefusedProgram, parts};
ghost use Rattle.isle_c.specs.Refusals.{IsDiagnosticOf, IsRefusedAt, IsUntidiableAt};
ghost use Rattle.isle_tidy_core.specs.Refused.{HasDocument, HasNoDocument};
ghost use Rattle.isle_tidy_core.specs.Tidied.{IsTidyTextOf, IsUntidy};
ghost use Rattle.isle_syntax.specs.Format.{IsFormatted, IsRefused, SpellsTree};

mod calls;
pub mod laws;
mod parsing;
mod programs;
mod slices;
mod tidying;

use calls::{diagnostic_of, formatted, refusal_of, refused};
use parsing::encoded_tree;
use programs::{checked, linted};
use slices::write;
use std::alloc::Global;
use tidying::{is_tidy, tidied, tidy_refusal_of};

/// The whole output is at the front of the caller's slice.
pub const WRITTEN: u32 = 0;

/// The caller's slice is too short for the output, and unchanged.
pub const TOO_SHORT: u32 = 1;

/// The text is valid.
pub const ACCEPTED: u32 = 2;

/// The text is rejected: it does not parse, or, in the calls that tidy, can't be tidied.
pub const REFUSED: u32 = 3;

/// A text isn't UTF-8.
pub const NOT_UTF8: u32 = 4;

/// Out of memory.
pub const MEMORY: u32 = 5;

/// The text can be tidied, but isn't tidy.
pub const UNTIDY: u32 = 6;

/// The lengths of several texts do not add up to the slice's.
pub const BAD_LENGTHS: u32 = 7;

/// The status of a call, and the length of its output.
#[repr(C)]
#[derive(Clone, Copy)]
pub struct Answer {
    /// One of the constants of this crate.
    pub status: u32,
    /// The number of bytes of the whole output, even if it does not fit; 0 if there is none.
    pub len: usize,
}

/// The position of an error. Offsets and columns count bytes.
#[repr(C)]
#[derive(Clone, Copy)]
pub struct Place {
    /// The offset of the error, from 0; the text's length if the text ends too early.
    pub offset: usize,
    /// Its line, from 1.
    pub line: usize,
    /// Its column, from 1.
    pub column: usize,
    /// The offset at which that line begins.
    pub line_begin: usize,
    /// The offset at which that line ends, after its line feed if it has one.
    pub line_end: usize,
}

/// A version.
#[repr(C)]
#[derive(Clone, Copy)]
pub struct Version {
    pub major: u32,
    pub minor: u32,
    pub patch: u32,
}

/// Formats a text at a width in bytes, as `isle_syntax::format` does.
///
/// The output is the formatted text, in UTF-8. The status is `REFUSED` if the text does not parse;
/// `isle_c_refusal` and `isle_c_diagnostic` say why.
#[unsafe(no_mangle)]
pub extern "C" fn isle_c_format(alloc: Global, text: &[u8], width: usize, into: &mut [u8]) -> Answer
    // The output is that of `format`, with all that its clauses say.
    ensures written { result.status ≡ WRITTEN
        → Writes into.old into.new result.len (IsFormatted width text.now) }
    ensures too_short { result.status ≡ TOO_SHORT
        → Wants into.old result.len (IsFormatted width text.now) }

    // Why there is no output.
    ensures refused { result.status ≡ REFUSED → IsRefused text.now }
    ensures not_utf8 { (result.status ≡ NOT_UTF8) ↔ (¬ (IsUtf8 text.now)) }
    ensures statuses { (result.status ≢ ACCEPTED) × (result.status ≤ MEMORY) }
    ensures kept { result.status ≢ WRITTEN → into.new ≡ into.old }
{
    match formatted(alloc, text, width) {
        Ok(answer) => write(&answer, into),
        Err(why) => why.answer(),
    }
}

/// Parses a text, and writes the encoding of its tree.
///
/// Each position is a byte offset in the text, with this number for its file. The crate
/// `isle_encoding` describes the encoding, which is UTF-8. The status is `REFUSED` if the text does
/// not parse; `isle_c_refusal` and `isle_c_diagnostic` say why.
#[unsafe(no_mangle)]
pub extern "C" fn isle_c_parse(alloc: Global, text: &[u8], file: usize, into: &mut [u8]) -> Answer
    ensures written { result.status ≡ WRITTEN
        → Writes into.old into.new result.len (IsEncodedTree file text.now) }
    ensures too_short { result.status ≡ TOO_SHORT
        → Wants into.old result.len (IsEncodedTree file text.now) }

    // Why there is no output.
    ensures refused { result.status ≡ REFUSED → IsRefused text.now }
    ensures not_utf8 { (result.status ≡ NOT_UTF8) ↔ (¬ (IsUtf8 text.now)) }
    ensures statuses { (result.status ≢ ACCEPTED) × (result.status ≤ MEMORY) }
    ensures kept { result.status ≢ WRITTEN → into.new ≡ into.old }
{
    match encoded_tree(alloc, text, file) {
        Ok(answer) => write(&answer, into),
        Err(why) => why.answer(),
    }
}

/// Returns `ACCEPTED` if a text parses, and otherwise why it does not.
#[unsafe(no_mangle)]
pub extern "C" fn isle_c_check(alloc: Global, text: &[u8]) -> u32
    ensures accepted { result ≡ ACCEPTED → SpellsTree text.now }
    ensures refused { result ≡ REFUSED → IsRefused text.now }
    ensures not_utf8 { (result ≡ NOT_UTF8) ↔ (¬ (IsUtf8 text.now)) }
    ensures statuses { (ACCEPTED ≤ result) × (result ≤ MEMORY) }
{
    match refused(alloc, text) {
        Ok(_) => REFUSED,
        Err(why) => why.status(),
    }
}

/// Writes why a text does not parse, in UTF-8, and sets `place` to the position of the error.
///
/// The reason is the message of the error without its kind, which is always a parse error. The
/// status is `ACCEPTED` if the text parses.
#[unsafe(no_mangle)]
pub extern "C" fn isle_c_refusal(
    alloc: Global,
    text: &[u8],
    reason: &mut [u8],
    place: &mut Place,
) -> Answer
    ensures written { result.status ≡ WRITTEN
        → Writes reason.old reason.new result.len (IsRefusedAt text.now place.new) }
    ensures too_short { result.status ≡ TOO_SHORT
        → Wants reason.old result.len (IsRefusedAt text.now place.new) }

    // Why there is no output.
    ensures accepted { result.status ≡ ACCEPTED → SpellsTree text.now }
    ensures not_utf8 { (result.status ≡ NOT_UTF8) ↔ (¬ (IsUtf8 text.now)) }
    ensures statuses { (result.status ≢ REFUSED) × (result.status ≤ MEMORY) }
    ensures kept { result.status ≢ WRITTEN → reason.new ≡ reason.old }
    ensures place_kept { ACCEPTED ≤ result.status → place.new ≡ place.old }
{
    match refusal_of(alloc, text) {
        Ok(refusal) => {
            *place = refusal.place;
            write(&refusal.reason, reason)
        }
        Err(why) => why.answer(),
    }
}

/// Writes the diagnostic of a text that does not parse, in UTF-8, as `Errors` shows it: the
/// message, then this file name, line and column, both counted from 1, and the line itself.
///
/// The status is `ACCEPTED` if the text parses, and `NOT_UTF8` also if the name isn't UTF-8.
#[unsafe(no_mangle)]
pub extern "C" fn isle_c_diagnostic(
    alloc: Global,
    name: &[u8],
    text: &[u8],
    into: &mut [u8],
) -> Answer
    ensures written { result.status ≡ WRITTEN
        → Writes into.old into.new result.len (IsDiagnosticOf name.now text.now) }
    ensures too_short { result.status ≡ TOO_SHORT
        → Wants into.old result.len (IsDiagnosticOf name.now text.now) }

    // Why there is no output.
    ensures accepted { result.status ≡ ACCEPTED → SpellsTree text.now }
    ensures not_utf8 { (result.status ≡ NOT_UTF8) ↔ (¬ (IsUtf8 name.now × IsUtf8 text.now)) }
    ensures statuses { (result.status ≢ REFUSED) × (result.status ≤ MEMORY) }
    ensures kept { result.status ≢ WRITTEN → into.new ≡ into.old }
{
    match diagnostic_of(alloc, name, text) {
        Ok(answer) => write(&answer, into),
        Err(why) => why.answer(),
    }
}

/// Tidies a text, as `isle_tidy_core::tidy` does. All comments and line breaks are kept.
///
/// The output is the tidy text, in UTF-8. A text need not parse: the status is `REFUSED` only if it
/// doesn't lex or its parentheses don't match, and `isle_c_tidy_refusal` says why.
#[unsafe(no_mangle)]
pub extern "C" fn isle_c_tidy(alloc: Global, text: &[u8], into: &mut [u8]) -> Answer
    ensures written { result.status ≡ WRITTEN
        → Writes into.old into.new result.len (IsTidyTextOf text.now) }
    ensures too_short { result.status ≡ TOO_SHORT
        → Wants into.old result.len (IsTidyTextOf text.now) }

    // Why there is no output.
    ensures refused { result.status ≡ REFUSED → HasNoDocument text.now }
    ensures not_utf8 { (result.status ≡ NOT_UTF8) ↔ (¬ (IsUtf8 text.now)) }
    ensures statuses { (result.status ≢ ACCEPTED) × (result.status ≤ MEMORY) }
    ensures kept { result.status ≢ WRITTEN → into.new ≡ into.old }
{
    match tidied(alloc, text) {
        Ok(answer) => write(&answer, into),
        Err(why) => why.answer(),
    }
}

/// Returns `ACCEPTED` if tidying leaves a text as it is, `UNTIDY` if not, and otherwise why it
/// can't be tidied.
#[unsafe(no_mangle)]
pub extern "C" fn isle_c_is_tidy(alloc: Global, text: &[u8]) -> u32
    ensures accepted { result ≡ ACCEPTED → IsTidyTextOf text.now text.now }
    ensures untidy { result ≡ UNTIDY → IsUntidy text.now }
    ensures refused { result ≡ REFUSED → HasNoDocument text.now }
    ensures not_utf8 { (result ≡ NOT_UTF8) ↔ (¬ (IsUtf8 text.now)) }
    ensures statuses { (ACCEPTED ≤ result) × (result ≤ UNTIDY) }
{
    match is_tidy(alloc, text) {
        Ok(true) => ACCEPTED,
        Ok(false) => UNTIDY,
        Err(why) => why.status(),
    }
}

/// Writes why a text can't be tidied, in UTF-8, and sets `place` to the position of the error.
///
/// The reason is the lexer's message, `unmatched ')'` or `unclosed '('`. The status is `ACCEPTED`
/// if the text can be tidied.
#[unsafe(no_mangle)]
pub extern "C" fn isle_c_tidy_refusal(
    alloc: Global,
    text: &[u8],
    reason: &mut [u8],
    place: &mut Place,
) -> Answer
    ensures written { result.status ≡ WRITTEN
        → Writes reason.old reason.new result.len (IsUntidiableAt text.now place.new) }
    ensures too_short { result.status ≡ TOO_SHORT
        → Wants reason.old result.len (IsUntidiableAt text.now place.new) }

    // Why there is no output.
    ensures accepted { result.status ≡ ACCEPTED → HasDocument text.now }
    ensures not_utf8 { (result.status ≡ NOT_UTF8) ↔ (¬ (IsUtf8 text.now)) }
    ensures statuses { (result.status ≢ REFUSED) × (result.status ≤ MEMORY) }
    ensures kept { result.status ≢ WRITTEN → reason.new ≡ reason.old }
    ensures place_kept { ACCEPTED ≤ result.status → place.new ≡ place.old }
{
    match tidy_refusal_of(alloc, text) {
        Ok(refusal) => {
            *place = refusal.place;
            write(&refusal.reason, reason)
        }
        Err(why) => why.answer(),
    }
}

/// Checks a program as `isle_check_core::check` does, and writes the encoding of what is found: its
/// errors, or without an error its warnings.
///
/// The texts of its files stand one behind the other, and have these lengths. Each position is a
/// byte offset in a text, with the index of the text for its file. The module
/// `isle_encoding::findings` describes the encoding, which is UTF-8. The status is `REFUSED` if a
/// text does not parse, which `isle_c_refusal` of that text explains; and `BAD_LENGTHS` if the sum
/// of the lengths is not the length of the slice.
#[unsafe(no_mangle)]
pub extern "C" fn isle_c_check_program(
    alloc: Global,
    texts: &[u8],
    lengths: &[usize],
    into: &mut [u8],
) -> Answer
    ensures written { result.status ≡ WRITTEN
        → Writes into.old into.new result.len (IsCheck (parts lengths.now texts.now)) }
    ensures too_short { result.status ≡ TOO_SHORT
        → Wants into.old result.len (IsCheck (parts lengths.now texts.now)) }

    // Why there is no output.
    ensures refused { result.status ≡ REFUSED → IsRefusedProgram (parts lengths.now texts.now) }
    ensures not_utf8 { result.status ≡ NOT_UTF8
        → (¬ (All IsUtf8 (parts lengths.now texts.now))) }
    ensures utf8 { result.status ≤ REFUSED → All IsUtf8 (parts lengths.now texts.now) }
    ensures bad_lengths { (result.status ≡ BAD_LENGTHS) ↔ (sum lengths.now ≢ length texts.now) }
    ensures statuses { (result.status ≢ ACCEPTED) × (result.status ≢ UNTIDY)
        × (result.status ≤ BAD_LENGTHS) }
    ensures kept { result.status ≢ WRITTEN → into.new ≡ into.old }
{
    match checked(alloc, texts, lengths) {
        Ok(answer) => write(&answer, into),
        Err(why) => why.answer(),
    }
}

/// Runs lints on a program as `isle_lint_core::findings` does, and writes the encoding of what they
/// find: the lints that are on by default if `all` is 0, and otherwise all lints.
///
/// Comments that allow a lint change nothing. All else is as for `isle_c_check_program`.
#[unsafe(no_mangle)]
pub extern "C" fn isle_c_lint_program(
    alloc: Global,
    texts: &[u8],
    lengths: &[usize],
    all: u32,
    into: &mut [u8],
) -> Answer
    ensures written { result.status ≡ WRITTEN
        → Writes into.old into.new result.len (IsLint all (parts lengths.now texts.now)) }
    ensures too_short { result.status ≡ TOO_SHORT
        → Wants into.old result.len (IsLint all (parts lengths.now texts.now)) }

    // Why there is no output.
    ensures refused { result.status ≡ REFUSED → IsRefusedProgram (parts lengths.now texts.now) }
    ensures not_utf8 { result.status ≡ NOT_UTF8
        → (¬ (All IsUtf8 (parts lengths.now texts.now))) }
    ensures utf8 { result.status ≤ REFUSED → All IsUtf8 (parts lengths.now texts.now) }
    ensures bad_lengths { (result.status ≡ BAD_LENGTHS) ↔ (sum lengths.now ≢ length texts.now) }
    ensures statuses { (result.status ≢ ACCEPTED) × (result.status ≢ UNTIDY)
        × (result.status ≤ BAD_LENGTHS) }
    ensures kept { result.status ≢ WRITTEN → into.new ≡ into.old }
{
    match linted(alloc, texts, lengths, all) {
        Ok(answer) => write(&answer, into),
        Err(why) => why.answer(),
    }
}

/// The version of `cranelift-isle` whose behavior this library has.
#[unsafe(no_mangle)]
pub extern "C" fn isle_c_version() -> Version
    ensures { result ≡ record { major = 0; minor = 137; patch = 1 } }
{
    Version {
        major: 0,
        minor: 137,
        patch: 1,
    }
}

#[cfg(test)]
mod tests;
