//! The variables of rules, with their types.

ghost use Rattle.std.specs.Prelude.{Some};
ghost use Rattle.isle_ast_rules.specs.TreeView.{pattern_list_of, patterns_of, rule_of};
ghost use Rattle.isle_check_environment.specs.signatures.Views.{environment_of, term_of};
ghost use Rattle.isle_check_typing.specs.Views.{Gives, variables_of};
ghost use Rattle.isle_check_rules.specs.RuleTypes.{rule_variables, variables_by};

use crate::rules::type_sides;
use isle_ast_rules::{Pattern, Rule};
use isle_check_environment::signatures::{Environment, Term};
use isle_check_typing::{Refusal, Variable, known_term, no_progress};
use std::alloc::Global;

/// Returns the variables that a rule binds, in the order in which they are bound, each with its
/// type. Of those with errors in the rule, only some may be there. Those of a `let` are not visible
/// any more. There are none if the left side is no term that is known.
///
/// `TooDeep` means that more than `depth` patterns or expressions lie in one another once templates
/// are filled and conversions are written out. `Memory` means out of memory.
pub fn rule_variables<'e>(
    alloc: Global,
    depth: usize,
    env: &'e Environment,
    rule: &Rule,
) -> Result<Vec<Variable<'e>>, Refusal>
    ensures { Gives (λ found. variables_of found.items) result
        (rule_variables depth (environment_of env.now) (rule_of rule.now)) }
{
    match &rule.pattern {
        Pattern::Term { sym, args, .. } => match known_term(env, sym.0.as_str()) {
            None => Ok(Vec::new(alloc)),
            Some((name, term)) => root_variables(alloc, depth, env, term, name, args, rule),
        },
        _ => Ok(Vec::new(alloc)),
    }
}

/// Returns the variables of a rule of a term that is known.
fn root_variables<'e>(
    alloc: Global,
    depth: usize,
    env: &'e Environment,
    term: &'e Term,
    sym: &'e str,
    args: &Vec<Pattern>,
    rule: &Rule,
) -> Result<Vec<Variable<'e>>, Refusal>
    ensures { Gives (λ found. variables_of found.items) result
        (variables_by depth (environment_of env.now) (Some (term_of term.now)) sym.now
        (pattern_list_of (patterns_of args.now.items)) (rule_of rule.now)) }
{
    let mut progress = no_progress(alloc);
    type_sides(alloc, depth, env, term, sym, args, rule, &mut progress)?;
    Ok(progress.bound)
}
