//! Programs among texts, some of which they share: what is a program's own, and the names of the
//! programs that have a finding.

ghost use Rattle.std.specs.Prelude.{◌≡◌, ◌++◌, ◌∷◌, [], IfOk, OnOk, map, string_bytes};
ghost use Rattle.std.specs.List.{list_any};
ghost use Rattle.isle_cli.specs.Sources.{source_of};
ghost use Rattle.isle_program_findings.specs.Programs as Programs;
ghost use Rattle.isle_program_findings.specs.Programs.{names_after, share_of, text_if, with_name};

use isle_cli::sources::Source;
use std::alloc::{AllocError, Global};

/// A program among texts.
#[derive(Drop)]
pub struct Part {
    pub name: String,
    /// For each text, whether it is the program's.
    pub has: Vec<bool>,
}

/// A program, where a finding is in a file.
#[derive(Clone, Copy)]
pub struct Share<'a> {
    /// Its name.
    pub name: &'a str,
    /// Whether it has the file.
    pub has_file: bool,
    /// Whether the finding is told of it.
    pub has_finding: bool,
}

/// The texts, those that are not the program's as empty ones. `has` says which are its own. An
/// `Err` means out of memory.
pub fn own_texts(alloc: Global, sources: &[Source], has: &[bool]) -> Result<Vec<Source>, AllocError>
    ensures { IfOk result (λ own. map source_of own.items
        ≡ Programs.own has.now 0 (map source_of sources.now)) }
{
    let mut own = Vec::new(alloc);
    for (number, source) in sources.iter().enumerate() {
        add_text(alloc, source, is_own(has, number), &mut own)?;
    }
    Ok(own)
}

/// Adds a text, or an empty one of its name.
fn add_text(
    alloc: Global,
    source: &Source,
    is_own: bool,
    texts: &mut Vec<Source>,
) -> Result<(), AllocError>
    ensures { OnOk result (map source_of texts.new.items
        ≡ map source_of texts.old.items ++ text_if is_own (source_of source.now) ∷ []) }
{
    let text = if is_own { source.text.as_str() } else { "" };
    let text = String::from_str(alloc, text)?;
    let name = source.name.clone()?;
    texts.push(Source { name, text })?;
    Ok(())
}

/// Returns whether the text with this number is the program's.
pub fn is_own(has: &[bool], number: usize) -> bool
    ensures { result ≡ Programs.is_own has.now number }
{
    has.get(number).copied().unwrap_or(false)
}

/// The names of the programs that have a finding, as ` [x64, aarch64]`; empty if each program that
/// has its file has it. An `Err` means out of memory.
pub fn tag(alloc: Global, shares: &[Share]) -> Result<String, AllocError>
    ensures { IfOk result (λ text. string_bytes text ≡ Programs.tag (map share_of shares.now)) }
{
    if !some_lacks(shares) {
        return Ok(String::new(alloc));
    }
    let names = names_with(alloc, shares)?;
    format!(in alloc; " [{names}]")
}

/// Returns whether some program has the file of a finding, but not the finding.
fn some_lacks(shares: &[Share]) -> bool
    ensures { result ≡ list_any Programs.lacks (map share_of shares.now) }
{
    for share in shares {
        if share.has_file && !share.has_finding {
            return true;
        }
    }
    false
}

/// The names of the programs that have a finding, with commas.
fn names_with(alloc: Global, shares: &[Share]) -> Result<String, AllocError>
    ensures { IfOk result (λ names. string_bytes names ≡ names_after [] (map share_of shares.now)) }
{
    let mut names = String::new(alloc);
    for share in shares {
        if share.has_finding {
            add_name(&mut names, share.name)?;
        }
    }
    Ok(names)
}

fn add_name(names: &mut String, name: &str) -> Result<(), AllocError>
    ensures { OnOk result (string_bytes names.new ≡ with_name (string_bytes names.old) name.now) }
{
    if !names.is_empty() {
        names.push_str(", ")?;
    }
    names.push_str(name)?;
    Ok(())
}
