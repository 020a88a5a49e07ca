//! Prints definitions, one after another.

ghost use Rattle.std.specs.Prelude.{◌≡◌, ◌≤◌, ◌+◌, ◌++◌, [], ◌∷◌, List, OnOk, IsErrOf, true, false};
ghost use Rattle.std.specs.Prelude.{string_bytes};
ghost use Rattle.isle_ast.specs.MacroArgs.{definition_has_macro_arg};
ghost use Rattle.isle_ast.specs.Tree.{Definition};
ghost use Rattle.isle_ast.specs.TreeView.{definition_of};
ghost use Rattle.isle_printer.specs.Printed.{printed_text};
ghost use Rattle.isle_printer.specs.PrintedNodes.{nodes_of_definition};
ghost use Rattle.isle_printer_layout.specs.declared.sexpr.PrintFault.TheVariants.{MacroArg};
ghost use Rattle.isle_printer_layout.specs.declared.sexpr.PrintFault.TheVariants.{Memory};

use crate::printer::definitions::pieces_of;
use isle_ast::ast::Def;
use isle_printer_layout::{Looks, PrintFault, put};
use std::alloc::Global;

/// Appends a definition's lines to the printed text of the definitions before it. An empty line
/// comes first, unless it is the first definition.
///
/// On success it adds one look for each node of the definition's S-expression. It never adds more
/// and never takes any away, even if memory runs out. A definition that contains a macro argument
/// has no S-expression, and so no nodes.
pub fn put_definition(
    alloc: Global,
    def: &Def,
    width: usize,
    looks: &mut Looks,
    out: &mut String,
) -> Result<(), PrintFault>
    ensures plain { OnOk result (definition_has_macro_arg (definition_of def.now) ≡ false) }
    ensures printed { (before : List Definition) → string_bytes out.old ≡ printed_text width before
        → OnOk result (string_bytes out.new
        ≡ printed_text width (before ++ definition_of def.now ∷ [])) }
    ensures refused { IsErrOf result MacroArg
        → definition_has_macro_arg (definition_of def.now) ≡ true }
    ensures memory { IsErrOf result Memory
        → definition_has_macro_arg (definition_of def.now) ≡ false }
    ensures once { OnOk result
        (looks.new.count ≡ looks.old.count + nodes_of_definition (definition_of def.now)) }
    ensures at_most { looks.new.count
        ≤ looks.old.count + nodes_of_definition (definition_of def.now) }
    ensures none_taken { looks.old.count ≤ looks.new.count }
{
    let pieces = pieces_of(alloc, def)?;
    if !out.is_empty() {
        out.push('\n')?;
    }
    put(pieces, width, looks, out)?;
    out.push('\n')?;
    Ok(())
}
