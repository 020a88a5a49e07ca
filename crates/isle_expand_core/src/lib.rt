//! The expansion of extractors that are macros of patterns.
//!
//! `(extractor (E a b) (F a (G b)))` defines a macro: the use `(E p q)` of it in a pattern stands
//! for `(F p (G q))`. `expand` replaces each use by what it stands for, and drops the definitions
//! of the macros.
#![tactic(auto)]

ghost use Rattle.std.specs.Prelude.{◌≡◌, IfErr, IfOk, List, false};
ghost use Rattle.isle_ast.specs.MacroArgs.{definitions_have_macro_arg};
ghost use Rattle.isle_ast.specs.Tree.{Definition};
ghost use Rattle.isle_ast.specs.TreeView.{definitions_of};
ghost use Rattle.isle_expand_core.specs.Definitions.{AreExpanded, AreFree};
ghost use Rattle.isle_expand_core.specs.Macros.{macros_in};
ghost use Rattle.isle_expand_core.specs.Misuses.{IsFirstMisuse};
ghost use Rattle.isle_expand_core.specs.Views.{IfMisuse, misuse_of};

mod declarations;
mod definitions;
pub mod depth;
pub mod laws;
mod macros;
mod mentions;
mod misuse;
mod order;
mod patterns;
mod search;

use definitions::expand_definitions;
use isle_ast::ast::Def;
pub use isle_expand_warnings::{Warning, warnings};
use macros::{expansions, templates};
pub use misuse::{ExpandFault, Misuse};
use order::callee_order;
use patterns::Refusal;
use search::first_misuse;
use std::alloc::Global;

/// Returns the definitions with each use of an extractor replaced by what it stands for, without
/// the extractors and the declarations of terms that only they define.
///
/// A use of `E` is a term whose symbol is the term of an `extractor`, in a condition of a rule or
/// below its root, at any depth. The root itself is no use, since it names the term that the rule
/// defines; a root that is not a term stays as it is. A use stands for its extractor's template,
/// expanded, with the arguments of the use, also expanded, in place of the parameters. In the
/// template a parameter is a variable `x`, or `x @ _`, as for `Pattern::make_macro_template`. The
/// positions are those of the template and of the arguments.
///
/// A declaration is dropped if its term has an extractor and nothing else defines the term: it is
/// the root of no rule, no `extern` names it, and it is not a variant of a type.
///
/// `Misuse` means that there is no expansion. It holds the first misuse, in the order of the
/// definitions and of the places in them. There are three kinds:
///
/// - a use with another number of arguments than the extractor has parameters,
/// - a use of an extractor that comes back to itself, or uses one that does,
/// - an extractor of a term that already has one.
///
/// Extractors that nothing uses are checked too. `Memory` means out of memory.
///
/// No definition may hold a macro argument, `Pattern::MacroArg`. The parser never makes one.
pub fn expand(alloc: Global, defs: &[Def]) -> Result<Vec<Def>, ExpandFault>
    requires { definitions_have_macro_arg (definitions_of defs.now) ≡ false }
    // The result.
    ensures expansion { IfOk result
        (λ made. AreExpanded (definitions_of defs.now) (definitions_of made.items)) }
    ensures only { IfOk result
        (λ made. (es : List Definition) → AreExpanded (definitions_of defs.now) es
        → es ≡ definitions_of made.items) }
    ensures free { IfOk result
        (λ made. AreFree (macros_in (definitions_of defs.now)) (definitions_of made.items)) }

    // The misuse.
    ensures refused { IfErr result
        (λ fault. IfMisuse fault
        (λ _. (es : List Definition) → AreExpanded (definitions_of defs.now) es → ⊥)) }
    ensures first { IfErr result
        (λ fault. IfMisuse fault
        (λ misuse. IsFirstMisuse (definitions_of defs.now) (misuse_of misuse))) }
{
    let templates = templates(alloc, defs)?;
    let order = callee_order(alloc, &templates)?;
    if let Some(misuse) = first_misuse(alloc, defs, &templates, &order.ends)? {
        return Err(ExpandFault::Misuse(misuse));
    }
    let macros = expansions(alloc, &templates, &order.places)?;
    match expand_definitions(alloc, defs, &macros) {
        Ok(made) => Ok(made),
        Err(Refusal::Memory) => Err(ExpandFault::Memory),
        Err(Refusal::Use) => unreachable!(),
    }
}
