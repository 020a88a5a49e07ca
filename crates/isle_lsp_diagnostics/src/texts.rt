//! What is known of texts, kept from one message to the next: their trees, and what is found in
//! them by themselves.

ghost use Rattle.std.specs.Prelude.{◌≡◌, IfErr, IfOk, OnOk, is_none, map, option_map, true};
ghost use Rattle.isle_cli.specs.declared.failure.Failure.TheVariants.{Memory};
ghost use Rattle.isle_lsp_features.specs.Programs.{text_of};
ghost use Rattle.isle_lsp_diagnostics.specs.Checked.{HasRefused, HasTree, IsRefusedText};
ghost use Rattle.isle_lsp_diagnostics.specs.Checked.{sources_of};
ghost use Rattle.isle_lsp_diagnostics.specs.Diagnostics.{AreOwnMarks};
ghost use Rattle.isle_lsp_diagnostics.specs.Known.{IsRead, tree_of};
ghost use Rattle.isle_lsp_diagnostics.specs.Marks.{mark_of};

use crate::diagnostics::{Diagnostic, copies_of, lint_diagnostics, refused_diagnostics};
use crate::kept::{About, Kept};
use isle_ast::ast::Def;
use isle_base::lexer::Fault;
use isle_cli::failure::Failure;
use isle_lsp_features::Text;
use isle_parser::dropping::drop_definitions;
use isle_program::trees::read_shallow_defs;
use std::alloc::{AllocError, Global};
use std::marker::Model;

/// Definitions that are dropped by a call. A crate that drops them itself has to prove how, node by
/// node.
pub struct Tree {
    /// The definitions.
    pub defs: Vec<Def>,
}

impl Drop for Tree {
    fn drop(self) {
        let Tree { defs } = self;
        drop_definitions(defs);
    }
}

/// Where a text stands in a program.
#[derive(Clone, Copy)]
pub struct Place<'a> {
    /// Its number there, which the positions in its tree have.
    pub number: usize,
    /// The file that it is.
    pub file: &'a str,
}

/// What is known of a text at a place.
#[derive(Drop)]
pub struct Known {
    number: usize,
    file: String,
    text: String,
    /// Whether it is known that the text does not parse, or nests too deeply.
    is_refused: bool,
    /// The tree, if it is kept.
    tree: Option<Tree>,
    /// Why the text is refused, if it is, or else what lints find in it, once that was looked for.
    found: Option<Vec<Diagnostic>>,
}

impl Model for Known {
    ghost use Rattle.std.specs.Prelude.{map, option_map, string_bytes};
    ghost use Rattle.isle_lsp_diagnostics.specs.Known.{IsKnown, KnownText, tree_of};
    ghost use Rattle.isle_lsp_diagnostics.specs.Marks.{mark_of};

    ghost Value = { KnownText };

    ghost view = { λ k. record {
      number = k.number;
      text = string_bytes k.text;
      is_refused = k.is_refused;
    } };

    ghost invariant = { λ k. IsKnown k.number (string_bytes k.text) k.is_refused
        (option_map tree_of k.tree) (option_map (λ found. map mark_of found.items) k.found) };
}

impl About<Place<'_>> for Known {
    ghost is_about = { λ known place. known.number ≡ place.number };

    fn is_about(&self, place: Place) -> bool {
        self.number == place.number && self.file.as_str() == place.file
    }
}

/// A text that is refused is wanted, wherever it stands.
impl About<&str> for Known {
    ghost is_about = { λ known text. IsRefusedText text.now };

    fn is_about(&self, text: &str) -> bool {
        self.is_refused && self.text.as_str() == text
    }
}

impl Known {
    /// Takes out the tree of the text, which is parsed now if it is not kept. There is none if the
    /// text is refused. The only error is `Memory`.
    pub fn take_tree(&mut self, alloc: Global) -> Result<Option<Tree>, Failure>
        ensures read { IfOk result (λ tree. IsRead self.old.number self.old.text
            (option_map tree_of tree)) }
        ensures refused { IfOk result (λ tree. self.new.is_refused ≡ is_none tree) }
        ensures number { OnOk result (self.new.number ≡ self.old.number) }
        ensures text { OnOk result (self.new.text ≡ self.old.text) }
        ensures err { IfErr result (λ failure. failure ≡ Memory) }
    {
        if self.is_refused {
            return Ok(None);
        }
        if let Some(tree) = self.tree.take() {
            return Ok(Some(tree));
        }
        let tree = read_tree(alloc, self.number, self.text.as_str())?;
        if tree.is_none() {
            self.found = None;
            self.is_refused = true;
        }
        Ok(tree)
    }

    /// Puts back the tree of the text.
    pub fn put_tree(&mut self, tree: Tree)
        requires { HasTree self.old.number self.old.text (tree_of tree) }
        ensures text { self.new.text ≡ self.old.text }
        ensures refused { self.new.is_refused ≡ self.old.is_refused }
    {
        self.tree = Some(tree);
    }

    /// Why the text is refused, if it is, or else what lints find in it. The only error is
    /// `Memory`.
    fn found(&mut self, alloc: Global) -> Result<Vec<Diagnostic>, Failure>
        ensures ok { IfOk result (λ found. AreOwnMarks self.old.text self.new.is_refused
            (map mark_of found.items)) }
        ensures err { IfErr result (λ failure. failure ≡ Memory) }
    {
        if let Some(found) = &self.found {
            return Ok(copies_of(alloc, found)?);
        }
        match self.take_tree(alloc)? {
            Some(tree) => {
                let found = lint_diagnostics(alloc, self.text.as_str(), &tree.defs)?;
                self.put_tree(tree);
                Ok(self.with_found(alloc, found)?)
            }
            None => {
                let found = refused_diagnostics(alloc, self.text.as_str())?;
                Ok(self.with_found(alloc, found)?)
            }
        }
    }

    /// Keeps a copy of what is found in the text.
    fn with_found(
        &mut self,
        alloc: Global,
        found: Vec<Diagnostic>,
    ) -> Result<Vec<Diagnostic>, AllocError>
        requires { AreOwnMarks self.old.text self.old.is_refused (map mark_of found.items) }
        ensures { IfOk result (λ found. AreOwnMarks self.old.text self.new.is_refused
            (map mark_of found.items)) }
    {
        self.found = Some(copies_of(alloc, &found)?);
        Ok(found)
    }
}

/// Parses a text as the file of this number. There is no tree if it is refused. The only error is
/// `Memory`.
fn read_tree(alloc: Global, number: usize, text: &str) -> Result<Option<Tree>, Failure>
    ensures ok { IfOk result (λ tree. IsRead number text.now (option_map tree_of tree)) }
    ensures err { IfErr result (λ failure. failure ≡ Memory) }
{
    match read_shallow_defs(alloc, number, text) {
        Ok(defs) => Ok(Some(Tree { defs })),
        Err(Fault::Error(_)) => Ok(None),
        Err(Fault::Failed | Fault::Memory) => Err(Failure::Memory),
    }
}

/// Takes out what is known of the text at a place. What is known of another text there is dropped.
pub fn take_known(
    alloc: Global,
    texts: &mut Kept<Known>,
    place: Place,
    text: &str,
) -> Result<Known, AllocError>
    ensures number { IfOk result (λ known. known.number ≡ place.entry.number) }
    ensures text { IfOk result (λ known. known.text ≡ text.now) }
{
    match texts.take(place) {
        Some(known) if known.text.as_str() == text => Ok(known),
        _ => Ok(Known {
            number: place.number,
            file: String::from_str(alloc, place.file)?,
            text: String::from_str(alloc, text)?,
            is_refused: false,
            tree: None,
            found: None,
        }),
    }
}

/// What is found in a text by itself.
#[derive(Drop)]
pub struct OwnDiagnostics {
    /// Whether the text is refused.
    pub are_refusals: bool,
    /// Why it is refused, if it is, or else what lints find in it.
    pub found: Vec<Diagnostic>,
}

/// What is found by itself in the text at a place. If it is in no program, its tree is not kept.
/// The only error is `Memory`.
pub fn own_diagnostics(
    alloc: Global,
    texts: &mut Kept<Known>,
    place: Place,
    text: &str,
    is_alone: bool,
) -> Result<OwnDiagnostics, Failure>
    ensures ok { IfOk result (λ own. AreOwnMarks text.now own.are_refusals
        (map mark_of own.found.items)) }
    ensures err { IfErr result (λ failure. failure ≡ Memory) }
{
    let mut known = take_known(alloc, texts, place, text)?;
    let found = known.found(alloc)?;
    let are_refusals = known.is_refused;
    if is_alone {
        known.tree = None;
    }
    texts.put(known)?;
    Ok(OwnDiagnostics {
        are_refusals,
        found,
    })
}

/// Returns whether one of the texts of a program is known to be refused.
pub fn refuses_one(texts: &mut Kept<Known>, program: &[Text]) -> Result<bool, AllocError>
    ensures { IfOk result (λ refuses. refuses ≡ true
        → HasRefused (sources_of (map text_of program.now))) }
{
    match program {
        [] => Ok(false),
        [text, more @ ..] => match texts.take(text.text) {
            Some(known) => {
                texts.put(known)?;
                Ok(true)
            }
            None => refuses_one(texts, more),
        },
    }
}
