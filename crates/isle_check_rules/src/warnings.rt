//! What upstream accepts in rules without an error, and does not compile.

ghost use Rattle.std.specs.Prelude.{◌≡◌, ◌++◌, IfOk, OnOk, map};
ghost use Rattle.isle_ast.specs.TreeView.{definitions_of};
ghost use Rattle.isle_ast_rules.specs.TreeView.{expression_of, rule_of};
ghost use Rattle.isle_check_environment.specs.Parts.{rules_in};
ghost use Rattle.isle_check_environment.specs.Views.{rules_at};
ghost use Rattle.isle_check_environment.specs.signatures.Views.{environment_of};
ghost use Rattle.isle_check_rules.specs.Constructors.{without_constructor};
ghost use Rattle.isle_check_rules.specs.Views.{heads_at, warnings_of};
ghost use Rattle.isle_check_rules.specs.Warnings.{conditions_without_constructor};
ghost use Rattle.isle_check_rules.specs.Warnings.{constructor_warning, rule_conditions};

use crate::constructors::{Head, add_without_constructor};
use isle_ast::ast::Def;
use isle_ast_rules::{Expr, Rule};
use isle_base::lexer::Pos;
use isle_check_environment::parts::rules_in;
use isle_check_environment::signatures::Environment;
use std::alloc::{AllocError, Global};

/// Something in a rule that upstream accepts without an error, and does not compile.
#[derive(Drop)]
pub struct Warning {
    /// What is wrong.
    pub kind: WarningKind,
    /// The position that the warning is reported at.
    pub pos: Pos,
}

/// What is wrong in a rule that upstream accepts.
#[derive(Drop)]
pub enum WarningKind {
    /// A term in the expression of a condition has no constructor. It is reported at the term.
    NoConstructor(String),
    /// The extractor of a multi term stands in a rule whose term is not multi. It is reported at
    /// the rule.
    MultiExtractor(String),
}

/// Returns a warning for each term that has no constructor in the expressions of conditions, in the
/// order of the text. `env` is the environment of the program. An `Err` means out of memory.
pub fn conditions_without_constructor(
    alloc: Global,
    env: &Environment,
    defs: &[Def],
) -> Result<Vec<Warning>, AllocError>
    ensures { IfOk result (λ found. warnings_of found.items
        ≡ conditions_without_constructor (environment_of env.now)
        (rules_in (definitions_of defs.now))) }
{
    let rules = rules_in(alloc, defs)?;
    let mut found = Vec::new(alloc);
    add_conditions(alloc, env, &rules, &mut found)?;
    Ok(found)
}

fn add_conditions(
    alloc: Global,
    env: &Environment,
    rules: &[&Rule],
    found: &mut Vec<Warning>,
) -> Result<(), AllocError>
    ensures { OnOk result (warnings_of found.new.items ≡ warnings_of found.old.items
        ++ conditions_without_constructor (environment_of env.now) (rules_at rules.now)) }
{
    for rule in rules {
        add_rule_conditions(alloc, env, rule, found)?;
    }
    Ok(())
}

fn add_rule_conditions(
    alloc: Global,
    env: &Environment,
    rule: &Rule,
    found: &mut Vec<Warning>,
) -> Result<(), AllocError>
    ensures { OnOk result (warnings_of found.new.items ≡ warnings_of found.old.items
        ++ rule_conditions (environment_of env.now) (rule_of rule.now)) }
{
    for iflet in &rule.iflets {
        add_condition(alloc, env, &iflet.expr, found)?;
    }
    Ok(())
}

/// Adds a warning for each term of a condition's expression that has no constructor.
fn add_condition(
    alloc: Global,
    env: &Environment,
    expr: &Expr,
    found: &mut Vec<Warning>,
) -> Result<(), AllocError>
    ensures { OnOk result (warnings_of found.new.items ≡ warnings_of found.old.items
        ++ map constructor_warning
        (without_constructor (environment_of env.now) (expression_of expr.now))) }
{
    let mut heads = Vec::new(alloc);
    add_without_constructor(env, expr, &mut heads)?;
    add_constructor_warnings(&heads, found)
}

fn add_constructor_warnings(heads: &[Head], found: &mut Vec<Warning>) -> Result<(), AllocError>
    ensures { OnOk result (warnings_of found.new.items
        ≡ warnings_of found.old.items ++ map constructor_warning (heads_at heads.now)) }
{
    for (pos, term) in heads {
        found.push(Warning {
            kind: WarningKind::NoConstructor(term.0.clone()?),
            pos: *pos,
        })?;
    }
    Ok(())
}
