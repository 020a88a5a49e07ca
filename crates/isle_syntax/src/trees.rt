//! The tree of a whole text.

ghost use Rattle.std.specs.Prelude.{◌≡◌, ◌≢◌, ◌↔◌, Err, IfErr, IfOk, IsErrOf, List, Ok, OnOk, ℕ};
ghost use Rattle.std.specs.Prelude.{false, length, true};
ghost use Rattle.isle_ast.specs.MacroArgs.{definitions_have_macro_arg};
ghost use Rattle.isle_ast.specs.TreeView.{definitions_of};
ghost use Rattle.isle_base.specs.Steps.{IfError};
ghost use Rattle.isle_base.specs.declared.fault.Fault.TheVariants.{Failed};
ghost use Rattle.isle_parser.specs.NextDefinition.{RefusesNext, has_failed};
ghost use Rattle.isle_base.specs.Refusal.{RefusesIn};
ghost use Rattle.isle_syntax.specs.Format.{IsRefused, SpellsTree};
ghost use Rattle.isle_syntax.specs.Streaming.{IsAtStart, IsDone, IsRead, IsRefusedWith};
ghost use Rattle.isle_syntax.specs.Trees.{IsTreeOf};

use isle_ast::ast::Def;
use isle_base::lexer::{Fault, Lexer};
use isle_parser::dropping::drop_definition;
use isle_parser::parser;
use isle_parser::parser::Parser;
use std::alloc::Global;

/// Parses a whole text of ISLE, as file 0: returns the definitions of the one tree that it spells,
/// with the positions of their tokens.
///
/// Returns `Error` if the text spells no tree: a parse error whose span begins in file 0, at a byte
/// of the text or at its end. Returns `Memory` if memory runs out, and never `Failed`.
pub fn parse(alloc: Global, text: &str) -> Result<Vec<Def>, Fault>
    ensures tree { IfOk result (λ defs. IsTreeOf text.now (definitions_of defs.items)) }
    ensures no_macro_arg { IfOk result
        (λ defs. definitions_have_macro_arg (definitions_of defs.items) ≡ false) }
    ensures refused { IfErr result (IfError (λ e.
        IsRefused text.now × RefusesIn 0 (length text.now) e)) }
    ensures never_failed { result ≢ Err Failed }
{
    let lexer = Lexer::new(alloc, 0, text)?;
    let defs = parser::parse(alloc, lexer)?;
    Ok(defs)
}

/// Checks a text of ISLE: returns `Ok` exactly if it spells a tree, unless memory runs out.
///
/// It keeps one definition at a time in memory. Its errors are those of `parse`.
pub fn check(alloc: Global, text: &str) -> Result<(), Fault>
    ensures spelt { OnOk result (SpellsTree text.now) }
    ensures refused { IfErr result (IfError (λ e.
        IsRefused text.now × RefusesIn 0 (length text.now) e)) }
    ensures never_failed { result ≢ Err Failed }
{
    let lexer = Lexer::new(alloc, 0, text)?;
    let mut parser = Parser::new(lexer);
    read_all(alloc, &mut parser)
}

/// Parses and drops each remaining definition of a parser.
fn read_all(alloc: Global, parser: &mut Parser) -> Result<(), Fault>
    requires ready { has_failed parser.old ≡ false }
    ensures spelt { (text : List ℕ) → IsAtStart text parser.old → OnOk result (SpellsTree text) }
    ensures refused { (text : List ℕ) → IsAtStart text parser.old
        → IfErr result (IfError (IsRefusedWith text)) }
    ensures never_failed { IsErrOf result Failed → ⊥ }
{
    while read_next(alloc, parser)? {}
    Ok(())
}

/// Parses and drops the next definition, and returns whether there was one.
fn read_next(alloc: Global, parser: &mut Parser) -> Result<bool, Fault>
    ensures read { result ≡ Ok true → IsRead parser.old parser.new }
    ensures done { result ≡ Ok false → IsDone parser.old parser.new }
    ensures refused { IfErr result (IfError (RefusesNext parser.old.cursor)) }
    ensures failed { IsErrOf result Failed ↔ (has_failed parser.old ≡ true) }
{
    let next = parser.next_def(alloc)?;
    match next {
        Some(def) => {
            drop_definition(def);
            Ok(true)
        }
        None => Ok(false),
    }
}
