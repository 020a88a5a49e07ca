//! The syntax layer of ISLE, the rewriting language of Cranelift's instruction selection.
//!
//! `format` formats a text, `parse` returns its tree, and `check` tests whether it is valid. The
//! modules have the names and the behaviour of those in `cranelift-isle`.
#![tactic(auto)]

ghost use Rattle.std.specs.Prelude.{◌≢◌, ◌≤◌, Err, IfErr, IfOk, length, string_bytes};
ghost use Rattle.isle_ast.specs.Spelt.{IsSpelt};
ghost use Rattle.isle_base.specs.Place.{nowhere};
ghost use Rattle.isle_base.specs.Steps.{IfError};
ghost use Rattle.isle_base.specs.declared.fault.Fault.TheVariants.{Failed};
ghost use Rattle.isle_base.specs.Refusal.{RefusesIn};
ghost use Rattle.isle_printer.specs.Lines.{WiderHasNoMoreLines};
ghost use Rattle.isle_printer.specs.Printed.{IsPrinted};
ghost use Rattle.isle_printer_layout.specs.ShortLines.{HasShortLines};
ghost use Rattle.isle_syntax.specs.Format.{HasPrintOfItsOwn, IsOnlyTree, IsRefused, OfItsTree};
ghost use Rattle.isle_syntax.specs.Format.{ReadsBackAtOtherWidths, SpellsTree};

mod streaming;
mod trees;

pub use isle_ast::ast;
use isle_base::lexer::{Fault, Lexer};
pub use isle_base::{error, files, lexer};
pub use isle_parser::parser;
use isle_parser::parser::Parser;
pub use isle_printer::printer;
use std::alloc::Global;
use streaming::put_all;
pub use trees::{check, parse};

/// Formats a text of ISLE: the print, at this width in bytes, of the one tree that the text spells.
///
/// The promise: for every text and every width, want of memory aside, `parse` and
/// `parse_without_pos` accept exactly the texts that the grammar of ISLE spells and give the one
/// tree so spelt; two accepted texts spell the same tree, positions erased, exactly if their prints
/// at that width are equal bytes, and such a print is accepted and prints as itself.
///
/// Comments and blank lines are no part of the tree, and are dropped. The result is valid and
/// formats to itself at this width. Another text has the same result exactly if it spells the same
/// tree, positions aside. At every other width, the print of the tree spells the same tree too,
/// with the same tokens, offsets aside.
///
/// At width 1 or more, a line of the result that contains a whole list is at most as long as the
/// width, its indentation, and one byte for each empty list on it. At a greater width the result
/// has no more lines.
///
/// Returns `Error` if the text spells no tree: a parse error whose span begins in file 0, at a byte
/// of the text or at its end. Returns `Memory` if memory runs out, and never `Failed`.
pub fn format(alloc: Global, text: &str, width: usize) -> Result<String, Fault>
    // The value of `Ok`: the text spells one tree, positions erased.
    ensures spelt { IfOk result (λ _. SpellsTree text.now) }
    ensures only { IfOk result (λ _. OfItsTree text.now (IsOnlyTree text.now)) }
    // The result is its print, which is accepted and prints as itself.
    ensures printed { IfOk result (λ answer. OfItsTree text.now
        (λ tree. IsPrinted width tree (string_bytes answer))) }
    ensures read_back { IfOk result (λ answer. OfItsTree text.now
        (IsSpelt nowhere (string_bytes answer))) }
    ensures equal_prints { IfOk result (λ answer. OfItsTree text.now
        (HasPrintOfItsOwn width (string_bytes answer))) }
    // The lengths of its lines, and the results at other widths.
    ensures short_lines { IfOk result (λ answer. 1 ≤ width
        → HasShortLines width (string_bytes answer)) }
    ensures fewer_lines { IfOk result (λ answer. OfItsTree text.now
        (λ tree. WiderHasNoMoreLines width tree (string_bytes answer))) }
    ensures other_widths { IfOk result (λ answer. OfItsTree text.now
        (ReadsBackAtOtherWidths (string_bytes answer))) }

    // When each error is returned.
    ensures refused { IfErr result (IfError (λ e.
        IsRefused text.now × RefusesIn 0 (length text.now) e)) }
    ensures never_failed { result ≢ Err Failed }
{
    let lexer = Lexer::new(alloc, 0, text)?;
    let mut parser = Parser::new(lexer);
    let mut answer = String::new(alloc);
    put_all(alloc, &mut parser, width, &mut answer)?;
    Ok(answer)
}
