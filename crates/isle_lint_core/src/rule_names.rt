//! The names of rules.

ghost use Rattle.std.specs.Prelude.{◌≡◌, [], IfOk};
ghost use Rattle.std.specs.Option.{option_map};
ghost use Rattle.isle_ast.specs.TreeView.{definition_of, definitions_of};
ghost use Rattle.isle_ast_names.specs.TreeView.{name_of};
ghost use Rattle.isle_lint_core.specs.RuleNames.{rule_name, rule_names};
ghost use Rattle.isle_lint_core.specs.Names.{names_at, repeated};

use crate::names::repeats;
use isle_ast::ast::{Def, Ident};
use std::alloc::{AllocError, Global};

/// The names of rules that an earlier rule has too.
pub fn repeated_rule_names(alloc: Global, defs: &[Def]) -> Result<Vec<&Ident>, AllocError>
    ensures { IfOk result (λ found. names_at found.items
        ≡ repeated [] (rule_names (definitions_of defs.now))) }
{
    let names = rule_names(alloc, defs)?;
    repeats(alloc, &names)
}

/// The names that rules have.
fn rule_names(alloc: Global, defs: &[Def]) -> Result<Vec<&Ident>, AllocError>
    ensures { IfOk result
        (λ names. names_at names.items ≡ rule_names (definitions_of defs.now)) }
{
    let mut names = Vec::new(alloc);
    for def in defs {
        if let Some(name) = rule_name(def) {
            names.push(name)?;
        }
    }
    Ok(names)
}

fn rule_name(def: &Def) -> Option<&Ident>
    ensures { option_map (λ name. name_of name.now) result ≡ rule_name (definition_of def.now) }
{
    match def {
        Def::Rule(rule) => rule.name.as_ref(),
        _ => None,
    }
}
