//! Parser for the ISLE language.

ghost use Rattle.std.specs.Prelude.{◌≡◌, ◌↔◌, IfErr, IfOk, IsErrOf, List, None, Ok, OnErr, OnOk};
ghost use Rattle.std.specs.Prelude.{Some, false, true};
ghost use Rattle.isle_ast.specs.Grammar.{SpellsDefinition};
ghost use Rattle.isle_ast.specs.Erased.{erase};
ghost use Rattle.isle_ast.specs.MacroArgs.{definition_has_macro_arg, definitions_have_macro_arg};
ghost use Rattle.isle_ast.specs.Spelt.{Spells};
ghost use Rattle.isle_ast.specs.Tree.{Definition};
ghost use Rattle.isle_ast.specs.TreeView.{definition_of, definitions_of};
ghost use Rattle.isle_base.specs.Place.{Placed, in_file, nowhere};
ghost use Rattle.isle_base.specs.Steps.{IfError, Rises, is_at_end, is_failed};
ghost use Rattle.isle_base.specs.declared.fault.Fault.TheVariants.{Failed};
ghost use Rattle.isle_parser.specs.DefinitionReaders.{definition};
ghost use Rattle.isle_parser.specs.NextDefinition.{IfFound, RefusesNext, has_failed};
ghost use Rattle.isle_parser.specs.Parsed.{Parses, RefusesText};
ghost use Rattle.isle_parser.specs.Positions.{HasKnownPositions, HasPositions};
ghost use Rattle.isle_parser.specs.Positions.{OneHasKnownPositions, OneHasPositions};
ghost use Rattle.isle_parser_cursor.specs.Outcomes.{placing, source, tokens};

mod definitions;
mod forms;
pub mod laws;
mod models;
mod terms;
mod types;

use crate::dropping::drop_definition;
use crate::parser::definitions::parse_def;
use isle_ast::ast::Def;
use isle_base::lexer::{Fault, Lexer};
use isle_base::scanner::Scanner;
use isle_parser_cursor::cursor::{Cursor, Stop};
use std::alloc::{AllocError, Global};

/// Parse the top-level ISLE definitions and return their AST.
///
/// For every text and every width, want of memory aside, `parse` and `parse_without_pos` accept
/// exactly the texts that the grammar of ISLE spells and give the one tree so spelt; two accepted
/// texts spell the same tree, positions erased, exactly if their prints at that width are equal
/// bytes, and such a print is accepted and prints as itself.
///
/// What is before the semicolon is in the clauses here, what follows it in those of `isle_syntax`'s
/// `format`.
///
/// Parsing starts at the lexer's current token, its lookahead. The grammar is that of the ISLE
/// language reference, for the definitions `type`, `rule`, `extractor`, `decl`, `attr`, `spec`,
/// `macro`, `state`, `model`, `form`, `instantiate`, `extern` and `convert`. Pragmas are rejected,
/// whatever their names.
///
/// The result is the only list of definitions that the tokens spell. No pattern in it is, or
/// contains, a macro argument. Each position in it is a byte offset in the lexer's text, with the
/// number of the lexer's file: the first byte of a token other than the first.
///
/// Returns an error exactly if the tokens spell no list of definitions or the lexer rejects its
/// text. The error is a parse error at one byte of the text or at its end. It is `Failed` exactly
/// if the lexer had failed before, and `Memory` if memory runs out. The lexer is dropped in any
/// case.
pub fn parse(alloc: Global, lexer: Lexer) -> Result<Vec<Def>, Fault>
    // The value of `Ok`.
    ensures spelt { IfOk result
        (λ defs. Spells (in_file lexer.entry.file) lexer.entry (definitions_of defs.items)) }
    ensures only { IfOk result
        (λ defs. (ds : List Definition) → Spells (in_file lexer.entry.file) lexer.entry ds
        → ds ≡ definitions_of defs.items) }
    ensures positions { IfOk result
        (λ defs. HasPositions lexer.entry.file lexer.entry.coming (definitions_of defs.items)) }
    ensures known { IfOk result (λ defs. HasKnownPositions (definitions_of defs.items)) }
    ensures no_macro_arg { IfOk result
        (λ defs. definitions_have_macro_arg (definitions_of defs.items) ≡ false) }

    // When each error is returned.
    ensures refused { IfErr result (RefusesText (in_file lexer.entry.file) lexer.entry) }
    ensures failed { IsErrOf result Failed ↔ (is_failed lexer.entry ≡ true) }
{
    let mut parser = Parser::new(lexer);
    parser.parse_all(alloc)
}

/// Parse without positional information. Provided mainly to support testing, to enable equality
/// testing on structure alone.
///
/// Returns the same tree as `parse`, but with the default position everywhere. It returns an error
/// exactly if `parse` does, unless memory runs out. The error is a parse error at one byte of the
/// text or at its end. It is `Failed` exactly if the lexer had failed before, and `Memory` if
/// memory runs out. The lexer is dropped in any case.
pub fn parse_without_pos(alloc: Global, lexer: Lexer) -> Result<Vec<Def>, Fault>
    // The value of `Ok`.
    ensures spelt { IfOk result (λ defs. Spells nowhere lexer.entry (definitions_of defs.items)) }
    ensures only { IfOk result
        (λ defs. (ds : List Definition) → Spells nowhere lexer.entry ds
        → ds ≡ definitions_of defs.items) }
    ensures erased { IfOk result
        (λ defs. (ds : List Definition) × Spells (in_file lexer.entry.file) lexer.entry ds
        × (definitions_of defs.items ≡ erase ds)) }
    ensures no_macro_arg { IfOk result
        (λ defs. definitions_have_macro_arg (definitions_of defs.items) ≡ false) }

    // When each error is returned.
    ensures refused { IfErr result (RefusesText nowhere lexer.entry) }
    ensures refused_by_parse { IfErr result (RefusesText (in_file lexer.entry.file) lexer.entry) }
    ensures failed { IsErrOf result Failed ↔ (is_failed lexer.entry ≡ true) }
{
    let mut parser = Parser::new_without_pos_tracking(lexer);
    parser.parse_all(alloc)
}

/// The ISLE parser.
///
/// It creates an AST from a lexer. `next_def` returns one definition after another, and `parse`
/// returns all of them at once.
#[derive(Debug, Drop)]
pub struct Parser<'src> {
    cursor: Cursor<'src>,
    /// Whether an earlier call returned an error.
    refused: bool,
}

impl<'src> Clone for Parser<'src> {
    ghost is_clone = { λ parser copy. copy ≡ parser };

    fn clone(&self) -> Result<Parser<'src>, AllocError> {
        Ok(Parser {
            cursor: self.cursor.clone()?,
            refused: self.refused,
        })
    }
}

impl<'src> Parser<'src> {
    /// Creates a parser that keeps positions, without allocating.
    pub fn new(lexer: Lexer<'src>) -> Parser<'src>
        ensures lexer { result.cursor.scanner ≡ lexer.entry }
        ensures positions { result.cursor.disable_pos ≡ false }
        ensures ready { result.refused ≡ false }
    {
        Parser {
            cursor: Cursor {
                scanner: Scanner::from(lexer),
                disable_pos: false,
                is_spent: false,
            },
            refused: false,
        }
    }

    /// Creates a parser that replaces every position by the default one.
    fn new_without_pos_tracking(lexer: Lexer<'src>) -> Parser<'src>
        ensures lexer { result.cursor.scanner ≡ lexer.entry }
        ensures positions { result.cursor.disable_pos ≡ true }
        ensures ready { result.refused ≡ false }
    {
        Parser {
            cursor: Cursor {
                scanner: Scanner::from(lexer),
                disable_pos: true,
                is_spent: false,
            },
            refused: false,
        }
    }

    /// Parses the next definition. Returns `None` at the end of the text.
    ///
    /// It takes the tokens of the definition, and the next call continues after them. No prefix of
    /// the remaining tokens spells another definition. No pattern in it is, or contains, a macro
    /// argument. Each position in it is a byte offset in the lexer's text, with the number of the
    /// lexer's file: the first byte of a remaining token other than the first. Returns `None`, and
    /// changes nothing, exactly if no token remains and the parser has not failed.
    ///
    /// Returns an error only if no prefix of the remaining tokens spells a definition, or if the
    /// lexer rejects its text right after the definition. In the second case the error is at that
    /// fault, and the definition takes all tokens before it. The error is a parse error at one byte
    /// of the text or at its end, or `Memory` if memory runs out.
    ///
    /// After either error the parser has failed. It has also failed from the start if its lexer
    /// had. Each later call then returns `Failed`, and no other call does.
    pub fn next_def(&mut self, alloc: Global) -> Result<Option<Def>, Fault>
        // The value of `Ok`.
        ensures end { (result ≡ Ok None)
            ↔ ((has_failed self.old ≡ false) × (is_at_end self.old.cursor.scanner ≡ true)) }
        ensures spelt { IfFound result
            (λ d. SpellsDefinition d (tokens self.old.cursor) (tokens self.new.cursor)) }
        ensures only { IfFound result
            (λ d. (e : Definition) (rest : List Placed)
            → SpellsDefinition e (tokens self.old.cursor) rest
            → (e ≡ d) × (rest ≡ tokens self.new.cursor)) }
        ensures positions { self.old.cursor.disable_pos ≡ false → IfFound result
            (OneHasPositions self.old.cursor.scanner.file self.old.cursor.scanner.coming) }
        ensures known { self.old.cursor.disable_pos ≡ false
            → IfFound result OneHasKnownPositions }
        ensures no_macro_arg { IfFound result (λ d. definition_has_macro_arg d ≡ false) }

        // When each error is returned.
        ensures refused { IfErr result (IfError (RefusesNext self.old.cursor)) }
        ensures failed { IsErrOf result Failed ↔ (has_failed self.old ≡ true) }

        // The parser after the call.
        ensures same { source self.new.cursor ≡ source self.old.cursor }
        ensures at_end { result ≡ Ok None → self.new ≡ self.old }
        ensures ready { OnOk result (has_failed self.new ≡ false) }
        ensures stays_failed { OnErr result (has_failed self.new ≡ true) }
        ensures rising { Rises 0 self.old.cursor.scanner.coming }
    {
        if self.has_failed() {
            return Err(Fault::Failed);
        }
        if self.cursor.is_at_end() {
            return Ok(None);
        }
        let read = read_def(&mut self.cursor, alloc);
        self.refused = read.is_err();
        Ok(Some(read?))
    }

    /// Returns whether the lexer failed, or an earlier call returned an error.
    fn has_failed(&self) -> bool
        ensures failed { result ≡ has_failed self.now }
        ensures rising { Rises 0 self.now.cursor.scanner.coming }
    {
        self.cursor.is_failed() || self.refused
    }

    /// Parses all remaining definitions.
    fn parse_all(&mut self, alloc: Global) -> Result<Vec<Def>, Fault>
        requires { self.old.refused ≡ false }
        ensures parses { Parses (placing self.old.cursor.disable_pos self.old.cursor.scanner.file)
            self.old.cursor.scanner result }
        ensures rising { Rises 0 self.old.cursor.scanner.coming }
    {
        let mut defs = Vec::new(alloc);
        while let Some(def) = self.next_def(alloc)? {
            defs.push(def)?;
        }
        Ok(defs)
    }
}

/// Parses the first of the remaining definitions. If it takes the last token before a fault of the
/// lexer, the lexer's error is returned: it comes before the parser's own.
fn read_def(cursor: &mut Cursor, alloc: Global) -> Result<Def, Fault>
    requires { is_at_end cursor.old.scanner ≡ false }
    ensures read { IfOk result (λ def. definition (tokens cursor.old)
        ≡ Some (definition_of def, tokens cursor.new)) }
    ensures goes_on { OnOk result (is_failed cursor.new.scanner ≡ false) }
    ensures refused { IfErr result (IfError (RefusesNext cursor.old)) }
    ensures never_failed { IsErrOf result Failed → ⊥ }
    ensures same { source cursor.new ≡ source cursor.old }
{
    cursor.is_spent = false;
    match parse_def(cursor, alloc) {
        Ok(def) => match cursor.fault(alloc) {
            None => Ok(def),
            Some(fault) => {
                drop_definition(def);
                Err(fault)
            }
        },
        Err(Stop::Parser(error)) => match cursor.fault(alloc) {
            None => Err(Fault::Error(Box::into_inner(error))),
            Some(fault) => Err(fault),
        },
        Err(Stop::Memory) => Err(Fault::Memory),
    }
}
