//! The note on texts that look like several programs.

ghost use Rattle.std.specs.Prelude.{◌≡◌, ◌∷◌, [], IfOk, List, OnOk, map, option_map};
ghost use Rattle.std.specs.Prelude.{string_bytes};
ghost use Rattle.isle_ast.specs.TreeView.{declaration_of, definitions_of};
ghost use Rattle.isle_ast_names.specs.Tree.{Name};
ghost use Rattle.isle_cli.specs.Sources.{source_of};
ghost use Rattle.isle_program.specs.SeveralPrograms as SeveralPrograms;
ghost use Rattle.isle_program.specs.SeveralPrograms.{declared, declared_terms, first_shared};
ghost use Rattle.isle_program.specs.SharedView.{Knows, shared_of, terms_at};

use crate::messages::line_at;
use isle_ast::ast::{Decl, Def};
use isle_base::lexer::Pos;
use isle_cli::sources::Source;
use std::alloc::{AllocError, Global};
use std::collections::HashMap;

/// A declared term, and a declaration of it in another text.
#[derive(Clone, Copy)]
struct SharedTerm<'a> {
    name: &'a str,
    /// The position of its declaration.
    pos: Pos,
    /// The position of the other one.
    other: Pos,
}

/// The note that two texts declare one term, which makes them look like several programs; empty if
/// no two do.
///
/// It is a line about the first declaration of a term that a text of another name declares before.
pub fn several_programs_note(
    alloc: Global,
    sources: &[Source],
    defs: &[Def],
) -> Result<String, AllocError>
    ensures { IfOk result (λ note. string_bytes note ≡ SeveralPrograms.several_programs_note
        (map source_of sources.now) (definitions_of defs.now)) }
{
    let decls = declarations(alloc, defs)?;
    let shared = first_shared(alloc, sources, &decls)?;
    note_on(alloc, sources, shared)
}

/// The declarations of terms, in order.
fn declarations(alloc: Global, defs: &[Def]) -> Result<Vec<&Decl>, AllocError>
    ensures { IfOk result
        (λ decls. terms_at decls.items ≡ declared_terms (definitions_of defs.now)) }
{
    let mut decls = Vec::new(alloc);
    for def in defs {
        if let Def::Decl(decl) = def {
            decls.push(decl)?;
        }
    }
    Ok(decls)
}

/// The first of the declarations whose term a text of another name declares before.
fn first_shared<'a>(
    alloc: Global,
    sources: &[Source],
    decls: &[&'a Decl],
) -> Result<Option<SharedTerm<'a>>, AllocError>
    ensures { IfOk result (λ shared. option_map shared_of shared
        ≡ first_shared (map source_of sources.now) [] (terms_at decls.now)) }
{
    let mut places = HashMap::new(alloc);
    for decl in decls {
        let shared = shared_with(sources, decl, place_of(&places, decl));
        if shared.is_some() {
            return Ok(shared);
        }
        put(&mut places, decl)?;
    }
    Ok(None)
}

/// The place of the last declaration of a term that was added.
fn place_of(places: &HashMap<&str, Pos>, decl: &Decl) -> Option<Pos>
    ensures { (terms : List Name) → Knows places.now terms
        → result ≡ SeveralPrograms.place_of terms (string_bytes decl.now.term.0) }
{
    places.get(decl.term.0.as_str()).copied()
}

/// Adds the place of a declaration.
fn put<'a>(places: &mut HashMap<&'a str, Pos>, decl: &'a Decl) -> Result<(), AllocError>
    ensures { OnOk result ((terms : List Name) → Knows places.old terms
        → Knows places.new (declared (declaration_of decl.now) ∷ terms)) }
{
    places.insert(decl.term.0.as_str(), decl.pos)?;
    Ok(())
}

/// A declared term, if another declaration of it is in a text of another name.
fn shared_with<'a>(sources: &[Source], decl: &'a Decl, other: Option<Pos>) -> Option<SharedTerm<'a>>
    ensures { option_map shared_of result ≡ SeveralPrograms.shared_with
        (map source_of sources.now) (declared (declaration_of decl.now)) other }
{
    match other {
        Some(other) if are_apart(sources, decl.pos, other) => Some(SharedTerm {
            name: decl.term.0.as_str(),
            pos: decl.pos,
            other,
        }),
        _ => None,
    }
}

/// Returns whether two positions are in texts of different names.
fn are_apart(sources: &[Source], here: Pos, there: Pos) -> bool
    ensures { result ≡ SeveralPrograms.are_apart (map source_of sources.now) here there }
{
    file_name(sources, here.file) != file_name(sources, there.file)
}

/// The name of the text with this number; empty without one.
fn file_name(sources: &[Source], file: usize) -> &str
    ensures { result.now ≡ SeveralPrograms.file_name (map source_of sources.now) file }
{
    match sources.get(file) {
        Some(source) => source.name.as_str(),
        None => "",
    }
}

/// The note on a term that two texts declare; empty without one.
fn note_on(
    alloc: Global,
    sources: &[Source],
    shared: Option<SharedTerm>,
) -> Result<String, AllocError>
    ensures { IfOk result (λ note. string_bytes note
        ≡ SeveralPrograms.note_on (map source_of sources.now) (option_map shared_of shared.entry)) }
{
    match shared {
        Some(shared) => {
            let file = file_name(sources, shared.other.file);
            let message = shared_message(alloc, shared.name, file)?;
            line_at(alloc, sources, shared.pos, "note", message.as_str())
        }
        None => Ok(String::new(alloc)),
    }
}

/// What the note makes of a term that two texts declare.
const ADVICE: &str = ": these look like several programs; list them in isle.toml and use \
                      --program (docs/EDITORS.md#which-files-make-a-program)";

fn shared_message(alloc: Global, term: &str, file: &str) -> Result<String, AllocError>
    ensures { IfOk result
        (λ text. string_bytes text ≡ SeveralPrograms.shared_message term.now file.now) }
{
    format!(in alloc; "'{term}' is also declared in {file}{ADVICE}")
}
