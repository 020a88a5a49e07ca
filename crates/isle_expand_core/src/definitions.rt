//! The expansion of definitions by macros.

ghost use Rattle.std.specs.Prelude.{◌≡◌, false, option_to_list};
ghost use Rattle.isle_ast.specs.MacroArgs.{definition_has_macro_arg, definitions_have_macro_arg};
ghost use Rattle.isle_ast.specs.TreeView.{definition_of, definitions_of};
ghost use Rattle.isle_ast_rules.specs.MacroArgs.{extractor_has_macro_arg};
ghost use Rattle.isle_ast_rules.specs.TreeView.{conditions_of, extractor_of, pattern_of, rule_of};
ghost use Rattle.isle_expand_core.specs.Definitions.{expand_conditions, expand_definition};
ghost use Rattle.isle_expand_core.specs.Definitions.{expand_definitions, expand_root};
ghost use Rattle.isle_expand_core.specs.Definitions.{expand_rule};
ghost use Rattle.isle_expand_core.specs.Expansion.{expand};
ghost use Rattle.isle_expand_core.specs.Macros.{template_of};
ghost use Rattle.isle_expand_core.specs.Views.{Gives, macros_of};

use crate::declarations::is_only_extracted;
use crate::macros::Macro;
use crate::patterns::{Refusal, expand, expand_list};
use isle_ast::ast::{Def, Extractor, IfLet, Pattern, Rule};
use std::alloc::Global;

pub fn expand_definitions(
    alloc: Global,
    defs: &[Def],
    macros: &[Macro],
) -> Result<Vec<Def>, Refusal>
    requires { definitions_have_macro_arg (definitions_of defs.now) ≡ false }
    ensures { Gives (λ made. definitions_of made.items) result
        (expand_definitions (definitions_of defs.now) (definitions_of defs.now)
        (macros_of macros.now)) }
{
    let mut made = Vec::new(alloc);
    for def in defs {
        if let Some(left) = expand_definition(def, alloc, defs, macros)? {
            made.push(left)?;
        }
    }
    Ok(made)
}

/// Expands one of the definitions `defs`. Returns `None` for an extractor, whose template must have
/// an expansion too, and for the declaration of a term that only an extractor defines.
fn expand_definition(
    def: &Def,
    alloc: Global,
    defs: &[Def],
    macros: &[Macro],
) -> Result<Option<Def>, Refusal>
    requires { definition_has_macro_arg (definition_of def.now) ≡ false }
    ensures { Gives (λ left. definitions_of (option_to_list left)) result
        (expand_definition (definitions_of defs.now) (definition_of def.now)
        (macros_of macros.now)) }
{
    match def {
        Def::Rule(rule) => Ok(Some(Def::Rule(expand_rule(rule, alloc, macros)?))),
        Def::Extractor(extractor) => {
            expand_template(extractor, alloc, macros)?;
            Ok(None)
        }
        Def::Decl(decl) if is_only_extracted(decl, defs, macros) => Ok(None),
        _ => Ok(Some(def.clone()?)),
    }
}

/// Expands the patterns of a rule.
fn expand_rule(rule: &Rule, alloc: Global, macros: &[Macro]) -> Result<Rule, Refusal>
    ensures { Gives rule_of result (expand_rule (rule_of rule.now) (macros_of macros.now)) }
{
    let pattern = expand_root(&rule.pattern, alloc, macros)?;
    let iflets = expand_conditions(&rule.iflets, alloc, macros)?;
    Ok(Rule {
        pattern,
        iflets,
        expr: rule.expr.clone()?,
        pos: rule.pos,
        prio: rule.prio,
        name: rule.name.clone()?,
    })
}

/// Expands the arguments of a rule's root. A root that is not a term stays as it is.
fn expand_root(pattern: &Pattern, alloc: Global, macros: &[Macro]) -> Result<Pattern, Refusal>
    ensures { Gives pattern_of result
        (expand_root (pattern_of pattern.now) (macros_of macros.now)) }
{
    match pattern {
        Pattern::Term { sym, args, pos } => Ok(Pattern::Term {
            sym: sym.clone()?,
            args: expand_list(args, alloc, macros)?,
            pos: *pos,
        }),
        _ => Ok(pattern.clone()?),
    }
}

/// Expands the patterns of conditions.
fn expand_conditions(
    conditions: &[IfLet],
    alloc: Global,
    macros: &[Macro],
) -> Result<Vec<IfLet>, Refusal>
    ensures { Gives (λ made. conditions_of made.items) result
        (expand_conditions (conditions_of conditions.now) (macros_of macros.now)) }
{
    let mut made = Vec::with_capacity(alloc, conditions.len())?;
    for condition in conditions {
        made.push(IfLet {
            pattern: expand(&condition.pattern, alloc, macros)?,
            expr: condition.expr.clone()?,
            pos: condition.pos,
        })?;
    }
    Ok(made)
}

fn expand_template(
    extractor: &Extractor,
    alloc: Global,
    macros: &[Macro],
) -> Result<Pattern, Refusal>
    requires { extractor_has_macro_arg (extractor_of extractor.now) ≡ false }
    ensures { Gives pattern_of result
        (expand (template_of (extractor_of extractor.now)) (macros_of macros.now)) }
{
    let template = extractor
        .template
        .make_macro_template(alloc, &extractor.args)?;
    expand(&template, alloc, macros)
}
