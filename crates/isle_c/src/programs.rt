//! The outputs of the exports about programs, before they are written to the caller's slice.

ghost use Rattle.std.specs.Prelude.{◌≡◌, ◌++◌, ◌∷◌, [], ◌==◌, IfErr, IfOk, IsUtf8, OnOk};
ghost use Rattle.std.specs.Prelude.{false, filter, length, map, string_bytes};
ghost use Rattle.std.specs.List.{All, sum};
ghost use Rattle.isle_ast.specs.MacroArgs.{definitions_have_macro_arg};
ghost use Rattle.isle_ast.specs.TreeView.{definitions_of};
ghost use Rattle.isle_base.specs.Steps.{IfError};
ghost use Rattle.isle_c.specs.Programs.{Adds, IsCheck, IsLint, IsProgram, IsProgramFailure};
ghost use Rattle.isle_c.specs.Programs.{IsReadingFailure, IsTextsFailure, IsTreeOf, Stops};
ghost use Rattle.isle_c.specs.Programs.{is_chosen, lints_for, parts};
ghost use Rattle.isle_encoding.specs.findings.Encoded.{IsEncodedLints};
ghost use Rattle.isle_syntax.specs.Format.{IsRefused};

use crate::calls::NoAnswer;
use crate::slices::text_of;
use isle_encoding::findings::{encode_checks, encode_lints};
use isle_lint_core::Lint;
use isle_parser::dropping::drop_definitions;
use isle_parser::parser::parse;
use isle_syntax::ast::Def;
use isle_syntax::lexer::{Fault, Lexer};
use std::alloc::{AllocError, Global};

/// The encoding of what `isle-check` finds in a program.
pub fn checked(alloc: Global, bytes: &[u8], lengths: &[usize]) -> Result<String, NoAnswer>
    ensures ok { IfOk result
        (λ answer. IsCheck (parts lengths.now bytes.now) (string_bytes answer)) }
    ensures add_up { OnOk result (sum lengths.now ≡ length bytes.now) }
    ensures utf8 { OnOk result (All IsUtf8 (parts lengths.now bytes.now)) }
    ensures err { IfErr result (IsProgramFailure lengths.now bytes.now) }
{
    let texts = program_texts(alloc, bytes, lengths)?;
    let answer = check_of(alloc, &texts)?;
    Ok(answer)
}

/// The encoding of what lints find in a program: those that are on by default, or all.
pub fn linted(alloc: Global, bytes: &[u8], lengths: &[usize], all: u32) -> Result<String, NoAnswer>
    ensures ok { IfOk result
        (λ answer. IsLint all (parts lengths.now bytes.now) (string_bytes answer)) }
    ensures add_up { OnOk result (sum lengths.now ≡ length bytes.now) }
    ensures utf8 { OnOk result (All IsUtf8 (parts lengths.now bytes.now)) }
    ensures err { IfErr result (IsProgramFailure lengths.now bytes.now) }
{
    let texts = program_texts(alloc, bytes, lengths)?;
    let answer = lint_of(alloc, &texts, all)?;
    Ok(answer)
}

/// The texts of a program, if their lengths add up.
fn program_texts<'a>(
    alloc: Global,
    bytes: &'a [u8],
    lengths: &[usize],
) -> Result<Vec<&'a str>, NoAnswer>
    ensures ok { IfOk result
        (λ texts. map (λ text. text.now) texts.items ≡ parts lengths.now bytes.now) }
    ensures add_up { OnOk result (sum lengths.now ≡ length bytes.now) }
    ensures utf8 { OnOk result (All IsUtf8 (parts lengths.now bytes.now)) }
    ensures err { IfErr result (IsProgramFailure lengths.now bytes.now) }
{
    if !add_up(lengths, bytes.len()) {
        return Err(NoAnswer::BadLengths);
    }
    texts_of(alloc, bytes, lengths)
}

/// Whether the sum of the lengths is this number.
fn add_up(lengths: &[usize], total: usize) -> bool
    ensures { result ≡ (sum lengths.now == total) }
{
    let mut left = total;
    for len in lengths {
        match left.checked_sub(*len) {
            Some(rest) => left = rest,
            None => return false,
        }
    }
    left == 0
}

/// The texts with these lengths that the bytes are, one behind the other.
fn texts_of<'a>(alloc: Global, bytes: &'a [u8], lengths: &[usize]) -> Result<Vec<&'a str>, NoAnswer>
    requires { sum lengths.now ≡ length bytes.now }
    ensures ok { IfOk result
        (λ texts. map (λ text. text.now) texts.items ≡ parts lengths.now bytes.now) }
    ensures utf8 { OnOk result (All IsUtf8 (parts lengths.now bytes.now)) }
    ensures err { IfErr result (IsTextsFailure (parts lengths.now bytes.now)) }
{
    let mut texts = Vec::new(alloc);
    let mut rest = bytes;
    for len in lengths {
        let (text, behind) = rest.split_at(*len);
        add_text(&mut texts, text)?;
        rest = behind;
    }
    Ok(texts)
}

/// Adds bytes as a text.
fn add_text<'a>(texts: &mut Vec<&'a str>, bytes: &'a [u8]) -> Result<(), NoAnswer>
    ensures ok { OnOk result (map (λ text. text.now) texts.new.items
        ≡ map (λ text. text.now) texts.old.items ++ bytes.now ∷ []) }
    ensures utf8 { OnOk result (IsUtf8 bytes.now) }
    ensures err { IfErr result (IsTextsFailure (bytes.now ∷ [])) }
{
    let text = text_of(bytes)?;
    texts.push(text)?;
    Ok(())
}

fn check_of(alloc: Global, texts: &[&str]) -> Result<String, NoAnswer>
    ensures ok { IfOk result
        (λ answer. IsCheck (map (λ text. text.now) texts.now) (string_bytes answer)) }
    ensures err { IfErr result (IsReadingFailure (map (λ text. text.now) texts.now)) }
{
    let defs = definitions(alloc, texts)?;
    let answer = encode_checks(alloc, &defs);
    drop_definitions(defs);
    Ok(answer?)
}

fn lint_of(alloc: Global, texts: &[&str], all: u32) -> Result<String, NoAnswer>
    ensures ok { IfOk result
        (λ answer. IsLint all (map (λ text. text.now) texts.now) (string_bytes answer)) }
    ensures err { IfErr result (IsReadingFailure (map (λ text. text.now) texts.now)) }
{
    let defs = definitions(alloc, texts)?;
    let answer = lint_defs(alloc, &defs, all);
    drop_definitions(defs);
    Ok(answer?)
}

/// The encoding of what lints find in definitions: those that are on by default, if this is 0, and
/// otherwise all.
fn lint_defs(alloc: Global, defs: &[Def], all: u32) -> Result<String, AllocError>
    ensures { IfOk result (λ answer.
        IsEncodedLints (lints_for all) (definitions_of defs.now) (string_bytes answer)) }
{
    let lints = lints_for(alloc, all)?;
    encode_lints(alloc, defs, &lints)
}

/// The lints that are on by default, if this is 0, and otherwise all.
fn lints_for(alloc: Global, all: u32) -> Result<Vec<Lint>, AllocError>
    ensures { IfOk result (λ lints. lints.items ≡ lints_for all) }
{
    lints_among(alloc, all, &Lint::ALL)
}

/// Those of the lints that are on by default, if this is 0, and otherwise all of them.
fn lints_among(alloc: Global, all: u32, lints: &[Lint]) -> Result<Vec<Lint>, AllocError>
    ensures { IfOk result (λ chosen. chosen.items ≡ filter (is_chosen all) lints.now) }
{
    let mut chosen = Vec::new(alloc);
    for lint in lints {
        if all != 0 || lint.is_default() {
            chosen.push(*lint)?;
        }
    }
    Ok(chosen)
}

/// The definitions of these texts, each of which is the file with its index.
fn definitions(alloc: Global, texts: &[&str]) -> Result<Vec<Def>, NoAnswer>
    ensures ok { IfOk result
        (λ defs. IsProgram (map (λ text. text.now) texts.now) (definitions_of defs.items)) }
    ensures no_macro_arg { IfOk result
        (λ defs. definitions_have_macro_arg (definitions_of defs.items) ≡ false) }
    ensures err { IfErr result (IsReadingFailure (map (λ text. text.now) texts.now)) }
{
    let mut defs = Vec::new(alloc);
    for (file, text) in texts.iter().enumerate() {
        let read = tree_of(alloc, file, text);
        defs = with_tree(defs, read)?;
    }
    Ok(defs)
}

/// Adds the definitions of a text that is parsed.
fn with_tree(defs: Vec<Def>, read: Result<Vec<Def>, Fault>) -> Result<Vec<Def>, NoAnswer>
    ensures ok { IfOk result (Adds defs read) }
    ensures err { IfErr result (Stops read) }
{
    match read {
        Ok(more) => Ok(appended(defs, more)?),
        Err(fault) => {
            drop_definitions(defs);
            match fault {
                Fault::Error(_) => Err(NoAnswer::Refused),
                Fault::Failed | Fault::Memory => Err(NoAnswer::Memory),
            }
        }
    }
}

fn appended(mut defs: Vec<Def>, mut more: Vec<Def>) -> Result<Vec<Def>, AllocError>
    ensures { IfOk result (λ all. definitions_of all.items
        ≡ definitions_of defs.items ++ definitions_of more.items) }
{
    let appended = defs.append(&mut more);
    drop_definitions(more);
    match appended {
        Ok(()) => Ok(defs),
        Err(error) => {
            drop_definitions(defs);
            Err(error)
        }
    }
}

/// The tree of a text, which is the file with this number.
fn tree_of(alloc: Global, file: usize, text: &str) -> Result<Vec<Def>, Fault>
    ensures ok { IfOk result (λ defs. IsTreeOf file text.now (definitions_of defs.items)) }
    ensures no_macro_arg { IfOk result
        (λ defs. definitions_have_macro_arg (definitions_of defs.items) ≡ false) }
    ensures refused { IfErr result (IfError (λ _. IsRefused text.now)) }
{
    let lexer = Lexer::new(alloc, file, text)?;
    parse(alloc, lexer)
}
