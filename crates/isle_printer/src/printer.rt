//! Printer for the ISLE language.
//!
//! Each node of the tree becomes an S-expression, which is laid out at a width. Widths and columns
//! are in bytes, and a line's indentation does not count. The layout is that of `cranelift-isle`'s
//! printer, with two differences. An empty list is `()` even if it doesn't fit. Functions return a
//! `String`, where that printer writes to a writer.

pub(crate) mod definitions;
mod expressions;
pub mod laws;
mod models;
mod patterns;
mod rules;
mod specs;
mod terms;
mod to_sexpr;
mod types;

ghost use Rattle.std.specs.Prelude.{◌≡◌, ◌≤◌, ◌+◌, IfOk, IfSome, IsSome, IsErrOf};
ghost use Rattle.std.specs.Prelude.{None, OnOk, [], true, false, string_bytes};
ghost use Rattle.isle_ast.specs.MacroArgs.{definitions_have_macro_arg};
ghost use Rattle.isle_ast.specs.TreeView.{definitions_of};
ghost use Rattle.isle_ast.specs.Writable.{AreWritable};
ghost use Rattle.isle_printer.specs.Lines.{WiderHasNoMoreLines};
ghost use Rattle.isle_printer.specs.Printed.{IsPrinted, printed_text};
ghost use Rattle.isle_printer.specs.PrintedNodes.{nodes_of_definitions};
ghost use Rattle.isle_printer.specs.ReadBack.{ReadsBack, ReadsBackIfWritable};
ghost use Rattle.isle_printer_layout.specs.Choices.{IsLayout};
ghost use Rattle.isle_printer_layout.specs.Lines.{HasFewestLines};
ghost use Rattle.isle_printer_layout.specs.declared.sexpr.PrintFault.TheVariants.{MacroArg};
ghost use Rattle.isle_printer_layout.specs.declared.sexpr.PrintFault.TheVariants.{Memory};

use crate::lines::put_definition;
use isle_ast::ast::Def;
use isle_printer_layout::{Tape, put, put_sexpr};
pub use isle_printer_layout::{Looks, PrintFault, SExpr, fits};
use std::alloc::Global;
pub use to_sexpr::ToSExpr;

/// Prints definitions: each one's layout at the width and a line end, with an empty line between
/// two.
///
/// An empty list prints as the empty text. The width is in bytes, and may be any number from 0. A
/// list is broken exactly if it does not end within the width and the lists around it are broken.
/// So no layout within the width has fewer lines.
///
/// The text spells the definitions, positions aside, exactly if they are writable.
///
/// Returns `MacroArg` exactly if a definition contains a macro argument, which also makes it
/// unwritable. This is tested before anything is built. Returns `Memory` if memory runs out. After
/// an error, all that was printed is dropped.
pub fn print(alloc: Global, defs: &[Def], width: usize) -> Result<String, PrintFault>
    // The value of `Ok`.
    ensures printed { IfOk result
        (λ text. IsPrinted width (definitions_of defs.now) (string_bytes text)) }
    ensures lines { IfOk result
        (λ text. WiderHasNoMoreLines width (definitions_of defs.now) (string_bytes text)) }
    ensures reads_back { IfOk result
        (λ text. ReadsBack (definitions_of defs.now) (string_bytes text)) }
    ensures writable { IfOk result
        (λ text. ReadsBackIfWritable (definitions_of defs.now) (string_bytes text)) }

    // When `MacroArg` is returned, and when no other error is.
    ensures refused { IsErrOf result MacroArg
        → definitions_have_macro_arg (definitions_of defs.now) ≡ true }
    ensures memory { IsErrOf result Memory
        → definitions_have_macro_arg (definitions_of defs.now) ≡ false }
    ensures unwritable { IsErrOf result MacroArg → AreWritable (definitions_of defs.now) → ⊥ }
{
    print_counted(alloc, defs, width, &mut Looks::new())
}

/// Prints definitions like `print`, and counts the nodes of S-expressions that it looks at.
///
/// On success it adds as many looks as the definitions' S-expressions have nodes. It never adds
/// more, never takes any away, and adds none if it returns `MacroArg`. A definition that contains a
/// macro argument has no S-expression, and so no nodes.
pub fn print_counted(
    alloc: Global,
    defs: &[Def],
    width: usize,
    looks: &mut Looks,
) -> Result<String, PrintFault>
    // The value of `Ok`.
    ensures printed { IfOk result
        (λ text. IsPrinted width (definitions_of defs.now) (string_bytes text)) }
    ensures lines { IfOk result
        (λ text. WiderHasNoMoreLines width (definitions_of defs.now) (string_bytes text)) }
    ensures reads_back { IfOk result
        (λ text. ReadsBack (definitions_of defs.now) (string_bytes text)) }
    ensures writable { IfOk result
        (λ text. ReadsBackIfWritable (definitions_of defs.now) (string_bytes text)) }

    // When `MacroArg` is returned, and when no other error is.
    ensures refused { IsErrOf result MacroArg
        → definitions_have_macro_arg (definitions_of defs.now) ≡ true }
    ensures memory { IsErrOf result Memory
        → definitions_have_macro_arg (definitions_of defs.now) ≡ false }
    ensures unwritable { IsErrOf result MacroArg → AreWritable (definitions_of defs.now) → ⊥ }

    // The number of looks.
    ensures once { IfOk result
        (λ _. looks.new.count ≡ looks.old.count + nodes_of_definitions (definitions_of defs.now)) }
    ensures at_most { looks.new.count
        ≤ looks.old.count + nodes_of_definitions (definitions_of defs.now) }
    ensures none_taken { looks.old.count ≤ looks.new.count }
    ensures unlooked { IsErrOf result MacroArg → looks.new.count ≡ looks.old.count }
{
    if any_has_macro_arg(defs) {
        return Err(PrintFault::MacroArg);
    }
    let mut out = String::new(alloc);
    put_definitions(alloc, defs, width, looks, &mut out)?;
    Ok(out)
}

/// Prints a single node: its layout at the width, without a line end.
///
/// The width is in bytes, and may be any number from 0. A line can be longer if it contains a long
/// name or an empty list.
///
/// Returns `MacroArg` only if the node has no S-expression: a node of the tree has none if it is,
/// or contains, a macro argument. Returns `Memory` if memory runs out. After an error, all that was
/// printed is dropped.
pub fn print_node<N: ToSExpr>(alloc: Global, node: &N, width: usize) -> Result<String, PrintFault>
    // The value of `Ok`.
    ensures meant { IfOk result (λ text. IsSome (N.meaning node.now)) }
    ensures layout { IfOk result
        (λ text. IfSome (N.meaning node.now) (λ s. IsLayout width s (string_bytes text))) }
    ensures lines { IfOk result
        (λ text. IfSome (N.meaning node.now) (λ s. HasFewestLines width s (string_bytes text))) }

    // When `MacroArg` is returned, and when no other error is.
    ensures refused { IsErrOf result MacroArg → N.meaning node.now ≡ None }
    ensures memory { IsErrOf result Memory → IsSome (N.meaning node.now) }
{
    let sexpr = node.to_sexpr(alloc)?;
    let mut tape = Tape::new(alloc)?;
    put_sexpr(&sexpr, &mut tape)?;
    let mut out = String::new(alloc);
    put(tape.pieces(), width, &mut Looks::new(), &mut out)?;
    Ok(out)
}

/// Returns whether one of the definitions contains a macro argument.
fn any_has_macro_arg(defs: &[Def]) -> bool
    ensures { result ≡ definitions_have_macro_arg (definitions_of defs.now) }
{
    for def in defs {
        if def.has_macro_arg() {
            return true;
        }
    }
    false
}

/// Prints definitions to a text that is empty.
fn put_definitions(
    alloc: Global,
    defs: &[Def],
    width: usize,
    looks: &mut Looks,
    out: &mut String,
) -> Result<(), PrintFault>
    requires { string_bytes out.old ≡ [] }
    ensures plain { OnOk result (definitions_have_macro_arg (definitions_of defs.now) ≡ false) }
    ensures printed { OnOk result
        (string_bytes out.new ≡ printed_text width (definitions_of defs.now)) }
    ensures refused { IsErrOf result MacroArg
        → definitions_have_macro_arg (definitions_of defs.now) ≡ true }
    ensures once { OnOk result
        (looks.new.count ≡ looks.old.count + nodes_of_definitions (definitions_of defs.now)) }
    ensures at_most { looks.new.count
        ≤ looks.old.count + nodes_of_definitions (definitions_of defs.now) }
    ensures none_taken { looks.old.count ≤ looks.new.count }
{
    for def in defs {
        put_definition(alloc, def, width, looks, out)?;
    }
    Ok(())
}
