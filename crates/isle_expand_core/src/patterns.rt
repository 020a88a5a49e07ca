//! The expansion of patterns by macros.

ghost use Rattle.std.specs.Prelude.{◌≡◌, IfOk, option_map};
ghost use Rattle.isle_ast_names.specs.TreeView.{name_of};
ghost use Rattle.isle_ast_rules.specs.TreeView.{pattern_of, pattern_list_of, patterns_of};
ghost use Rattle.isle_expand_core.specs.Expansion.{expand, expand_list, expand_use, filled};
ghost use Rattle.isle_expand_core.specs.Macros.{meant};
ghost use Rattle.isle_expand_core.specs.Views.{Gives, macro_of, macros_of};
ghost use Rattle.isle_expand_core.specs.declared.patterns.Refusal.TheVariants.{Memory};

use crate::macros::{Macro, find_macro};
use isle_ast::ast::{Ident, Pattern};
use isle_base::lexer::Pos;
use std::alloc::{AllocError, AllocFailed, Global};

/// Why a pattern is not expanded.
#[derive(Clone, Copy)]
pub enum Refusal {
    /// A use has another number of arguments than its macro has parameters, or the expansion of its
    /// macro is not known.
    Use,
    /// Out of memory.
    Memory,
}

impl From<AllocError> for Refusal {
    ghost from_gives = { λ _ refusal. refusal ≡ Memory };

    fn from(_error: AllocError) -> Refusal {
        Refusal::Memory
    }
}

impl<T: Drop> From<AllocFailed<T>> for Refusal {
    ghost from_gives = { λ _ refusal. refusal ≡ Memory };

    fn from(_error: AllocFailed<T>) -> Refusal {
        Refusal::Memory
    }
}

#[cycle(expand)]
pub fn expand(pattern: &Pattern, alloc: Global, macros: &[Macro]) -> Result<Pattern, Refusal>
    ensures { Gives pattern_of result (expand (pattern_of pattern.now) (macros_of macros.now)) }
{
    match pattern {
        Pattern::BindPattern { var, subpat, pos } => {
            let made = expand(subpat, alloc, macros)?;
            Ok(Pattern::BindPattern {
                var: var.clone()?,
                subpat: Box::new(alloc, made)?,
                pos: *pos,
            })
        }
        Pattern::Term { sym, args, pos } => {
            let args = expand_list(args, alloc, macros)?;
            expand_use(sym, args, *pos, alloc, macros)
        }
        Pattern::And { subpats, pos } => Ok(Pattern::And {
            subpats: expand_list(subpats, alloc, macros)?,
            pos: *pos,
        }),
        Pattern::Var { .. }
        | Pattern::ConstBool { .. }
        | Pattern::ConstInt { .. }
        | Pattern::ConstPrim { .. }
        | Pattern::Wildcard { .. }
        | Pattern::MacroArg { .. } => Ok(pattern.clone()?),
    }
}

#[cycle(expand)]
pub fn expand_list(
    patterns: &Vec<Pattern>,
    alloc: Global,
    macros: &[Macro],
) -> Result<Vec<Pattern>, Refusal>
    ensures { Gives (λ made. pattern_list_of (patterns_of made.items)) result
        (expand_list (pattern_list_of (patterns_of patterns.now.items)) (macros_of macros.now)) }
{
    let mut made = Vec::with_capacity(alloc, patterns.len())?;
    for pattern in patterns {
        made.push(expand(pattern, alloc, macros)?)?;
    }
    Ok(made)
}

/// Expands a term whose arguments are expanded already.
fn expand_use(
    sym: &Ident,
    args: Vec<Pattern>,
    pos: Pos,
    alloc: Global,
    macros: &[Macro],
) -> Result<Pattern, Refusal>
    ensures { Gives pattern_of result
        (expand_use (name_of sym.now) pos (meant (name_of sym.now).text (macros_of macros.now))
        (pattern_list_of (patterns_of args.items))) }
{
    match find_macro(sym, macros) {
        None => Ok(Pattern::Term {
            sym: sym.clone()?,
            args,
            pos,
        }),
        Some(used) => match fill_template(used, &args, alloc)? {
            Some(made) => Ok(made),
            None => Err(Refusal::Use),
        },
    }
}

/// Returns what a macro stands for with these arguments, or `None` if it takes another number of
/// them or its expansion is not known.
fn fill_template(
    known: &Macro,
    args: &[Pattern],
    alloc: Global,
) -> Result<Option<Pattern>, AllocError>
    ensures { IfOk result
        (λ made. option_map pattern_of made
        ≡ filled (macro_of known.now) (patterns_of args.now)) }
{
    if args.len() != known.arity {
        return Ok(None);
    }
    match &known.expansion {
        Some(template) => template.subst_macro_args(alloc, args),
        None => Ok(None),
    }
}
