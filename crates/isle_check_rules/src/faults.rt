//! The errors of a program's rules.

ghost use Rattle.std.specs.Prelude.{◌≡◌, ◌++◌, [], OnOk, map};
ghost use Rattle.isle_ast.specs.TreeView.{declaration_of, definitions_of};
ghost use Rattle.isle_ast_rules.specs.TreeView.{expression_of};
ghost use Rattle.isle_check_environment.specs.Views.{decls_at, rules_at};
ghost use Rattle.isle_check_environment.specs.signatures.Views.{environment_of};
ghost use Rattle.isle_check_typing.specs.Views.{faults_of};
ghost use Rattle.isle_check_rules.specs.Constructors.{without_constructor};
ghost use Rattle.isle_check_rules.specs.RuleFaults.{constructor_fault, rule_faults};
ghost use Rattle.isle_check_rules.specs.RuleFaults.{terms_without_constructor, undefined_term};
ghost use Rattle.isle_check_rules.specs.RuleFaults.{undefined_terms};
ghost use Rattle.isle_check_rules.specs.RuleTypes.{type_rules, with_typing};
ghost use Rattle.isle_check_rules.specs.Views.{GivesRules, heads_at, rule_typing_of};
ghost use Rattle.isle_check_rules.specs.Views.{rules_typing_of};

use crate::constructors::{Head, add_without_constructor};
use crate::refusal::RuleRefusal;
use crate::rules::type_rule;
use crate::typed::{RuleTyping, RulesTyping};
use isle_ast::ast::{Decl, Def};
use isle_ast_rules::{Expr, Rule};
use isle_check_environment::parts::{decls_in, rules_in};
use isle_check_environment::signatures::Environment;
use isle_check_typing::{Fault, Kind, Refusal};
use std::alloc::{AllocError, Global};

/// Types the rules of a program, and returns the typed rules with the errors: those of the rules'
/// types, then declared terms that nothing defines, then terms of right sides that have no
/// constructor. `env` is the environment of the program.
///
/// `TooDeep` gives the position of the first rule in which more than `depth` patterns or
/// expressions lie in one another once templates are filled and conversions are written out.
/// `Memory` means out of memory.
pub fn rule_faults<'e>(
    alloc: Global,
    depth: usize,
    env: &'e Environment,
    defs: &[Def],
) -> Result<RulesTyping<'e>, RuleRefusal>
    ensures { GivesRules rules_typing_of result
        (rule_faults depth (environment_of env.now) (definitions_of defs.now)) }
{
    let rules = rules_in(alloc, defs)?;
    let decls = decls_in(alloc, defs)?;
    let mut made = type_rules(alloc, depth, env, &rules)?;
    add_undefined_terms(env, &decls, &mut made.faults)?;
    add_terms_without_constructor(alloc, env, &rules, &mut made.faults)?;
    Ok(made)
}

fn type_rules<'e>(
    alloc: Global,
    depth: usize,
    env: &'e Environment,
    rules: &[&Rule],
) -> Result<RulesTyping<'e>, RuleRefusal>
    ensures { GivesRules rules_typing_of result
        (type_rules depth (environment_of env.now) (rules_at rules.now)
        (record { typed = []; faults = [] })) }
{
    let mut made = RulesTyping {
        typed: Vec::with_capacity(alloc, rules.len())?,
        faults: Vec::new(alloc),
    };
    for rule in rules {
        match type_rule(alloc, depth, env, rule) {
            Ok(typing) => add_typing(typing, &mut made)?,
            Err(Refusal::TooDeep) => return Err(RuleRefusal::TooDeep(rule.pos)),
            Err(Refusal::Memory) => return Err(RuleRefusal::Memory),
        }
    }
    Ok(made)
}

/// Adds the typed rule and the errors of a rule.
fn add_typing<'e>(typing: RuleTyping<'e>, made: &mut RulesTyping<'e>) -> Result<(), AllocError>
    ensures { OnOk result (rules_typing_of made.new
        ≡ with_typing (rules_typing_of made.old) (rule_typing_of typing.entry)) }
{
    let RuleTyping { typed, mut faults } = typing;
    if let Some(rule) = typed {
        made.typed.push(rule)?;
    }
    made.faults.append(&mut faults)?;
    Ok(())
}

fn add_undefined_terms(
    env: &Environment,
    decls: &[&Decl],
    found: &mut Vec<Fault>,
) -> Result<(), AllocError>
    ensures { OnOk result (faults_of found.new.items ≡ faults_of found.old.items
        ++ undefined_terms (environment_of env.now) (decls_at decls.now)) }
{
    for decl in decls {
        add_undefined_term(env, decl, found)?;
    }
    Ok(())
}

fn add_undefined_term(
    env: &Environment,
    decl: &Decl,
    found: &mut Vec<Fault>,
) -> Result<(), AllocError>
    ensures { OnOk result (faults_of found.new.items ≡ faults_of found.old.items
        ++ undefined_term (environment_of env.now) (declaration_of decl.now)) }
{
    let term = &decl.term.0;
    if env.has_constructor(term.as_str()) || env.has_extractor(term.as_str()) {
        return Ok(());
    }
    found.push(Fault {
        kind: Kind::TermUndefined(term.clone()?),
        pos: decl.pos,
    })?;
    Ok(())
}

fn add_terms_without_constructor(
    alloc: Global,
    env: &Environment,
    rules: &[&Rule],
    found: &mut Vec<Fault>,
) -> Result<(), AllocError>
    ensures { OnOk result (faults_of found.new.items ≡ faults_of found.old.items
        ++ terms_without_constructor (environment_of env.now) (rules_at rules.now)) }
{
    for rule in rules {
        add_of_right(alloc, env, &rule.expr, found)?;
    }
    Ok(())
}

/// Adds the errors of the terms of a right side.
fn add_of_right(
    alloc: Global,
    env: &Environment,
    expr: &Expr,
    found: &mut Vec<Fault>,
) -> Result<(), AllocError>
    ensures { OnOk result (faults_of found.new.items ≡ faults_of found.old.items
        ++ map constructor_fault
        (without_constructor (environment_of env.now) (expression_of expr.now))) }
{
    let mut heads = Vec::new(alloc);
    add_without_constructor(env, expr, &mut heads)?;
    add_constructor_faults(&heads, found)
}

fn add_constructor_faults(heads: &[Head], found: &mut Vec<Fault>) -> Result<(), AllocError>
    ensures { OnOk result (faults_of found.new.items
        ≡ faults_of found.old.items ++ map constructor_fault (heads_at heads.now)) }
{
    for (pos, term) in heads {
        found.push(Fault {
            kind: Kind::NoConstructor(term.0.clone()?),
            pos: *pos,
        })?;
    }
    Ok(())
}
