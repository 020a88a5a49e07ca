//! The terms of a program, by their names.

ghost use Rattle.std.specs.Prelude.{◌≡◌, ◌++◌, IfOk, List, OnOk};
ghost use Rattle.isle_ast.specs.Tree.{Declaration};
ghost use Rattle.isle_ast.specs.TreeView.{declaration_of, definitions_of};
ghost use Rattle.isle_check_environment.specs.Types.{is_type_in};
ghost use Rattle.isle_check_environment.specs.Views.{decls_at};
ghost use Rattle.isle_check_declarations.specs.Terms.{counted_decl, counted_decls, is_unknown};
ghost use Rattle.isle_check_declarations.specs.Terms.{terms};
ghost use Rattle.isle_check_declarations.specs.Views.{Declares, term_in, term_of};

use crate::terms::{declare, signature_fault};
use isle_ast::ast::{Decl, Def};
use isle_check_environment::by_text::ByText;
use isle_check_environment::names::{Names, has, no_names};
use isle_check_environment::parts::{decls_in, types_in};
use isle_check_environment::types::type_names;
use std::alloc::{AllocError, Global};

/// Declarations by the names of their terms.
pub type Decls<'a> = ByText<&'a Decl>;

/// The terms of a program.
#[derive(Drop)]
pub struct TermLookup<'a> {
    /// The terms that are declared, each with its last declaration whose types are known.
    pub decls: Decls<'a>,
    /// The names of these terms and of variants.
    pub names: Names,
}

/// What a text means as the name of a term.
#[derive(Clone, Copy)]
pub enum Term<'a> {
    /// No term.
    Unknown,
    /// A variant of a type.
    Variant,
    /// A term that is declared.
    Declared(&'a Decl),
}

impl<'a> TermLookup<'a> {
    /// Returns the terms of a program. An `Err` means out of memory.
    pub fn new(alloc: Global, defs: &'a [Def]) -> Result<TermLookup<'a>, AllocError>
        ensures { IfOk result (λ made. term_in made ≡ terms (definitions_of defs.now)) }
    {
        let types = types_in(alloc, defs)?;
        let decls = decls_in(alloc, defs)?;
        let known = type_names(alloc, &types)?;
        let mut names = no_names(alloc);
        declare(alloc, &known, &types, &decls, &mut names)?;
        let decls = counted_decls(alloc, &known, &decls)?;
        Ok(TermLookup { decls, names })
    }

    /// Returns what a text means as the name of a term.
    pub fn term(&self, text: &str) -> Term<'a>
        ensures { term_of result ≡ term_in self.now text.now }
    {
        match self.decls.get(text) {
            Some(decl) => Term::Declared(*decl),
            None if has(&self.names, text) => Term::Variant,
            None => Term::Unknown,
        }
    }

    /// Returns whether a text is the name of no term.
    pub fn lacks(&self, text: &str) -> bool
        ensures { result ≡ is_unknown (term_in self.now text.now) }
    {
        matches!(self.term(text), Term::Unknown)
    }
}

fn counted_decls<'a>(
    alloc: Global,
    known: &Names,
    decls: &[&'a Decl],
) -> Result<Decls<'a>, AllocError>
    ensures { IfOk result
        (λ found. Declares found (counted_decls (is_type_in known.now) (decls_at decls.now))) }
{
    let mut found = ByText::new(alloc);
    for decl in decls {
        add_counted(known, decl, &mut found)?;
    }
    Ok(found)
}

/// Adds a declaration if its types are known.
fn add_counted<'a>(known: &Names, decl: &'a Decl, decls: &mut Decls<'a>) -> Result<(), AllocError>
    ensures { OnOk result ((earlier : List Declaration) → Declares decls.old earlier
        → Declares decls.new
        (earlier ++ counted_decl (is_type_in known.now) (declaration_of decl.now))) }
{
    match signature_fault(known, decl) {
        Some(_) => {}
        None => {
            decls.insert(decl.term.0.clone()?, decl)?;
        }
    }
    Ok(())
}
