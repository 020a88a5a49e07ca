//! The groups of errors.

ghost use Rattle.std.specs.Prelude.{◌≡◌, ◌++◌, ◌∷◌, [], IfOk, Ok, OnOk, false, map};
ghost use Rattle.isle_ast.specs.MacroArgs.{definitions_have_macro_arg};
ghost use Rattle.isle_ast.specs.TreeView.{definitions_of};
ghost use Rattle.isle_check_core.specs.Findings.{after_rules, deep_rule, finding, findings};
ghost use Rattle.isle_check_core.specs.Findings.{endless_converters, has_error, of_overlap};
ghost use Rattle.isle_check_core.specs.Findings.{later_findings_by, of_faults, of_recursion};
ghost use Rattle.isle_check_core.specs.Findings.{of_rule_fault, of_rules, root_errors_by};
ghost use Rattle.isle_check_core.specs.Findings.{root_findings, root_findings_by};
ghost use Rattle.isle_check_core.specs.Findings.{rule_findings_by};
ghost use Rattle.isle_check_core.specs.Views.{findings_of};
ghost use Rattle.isle_check_declarations.specs.Views.{faults_of, term_in};
ghost use Rattle.isle_check_overlaps.specs.Views as overlaps;
ghost use Rattle.isle_check_recursion.specs.Views.{names_at, recursions_at};
ghost use Rattle.isle_check_rules.specs.Views.{rules_typing_of, typed_rules_of};
ghost use Rattle.isle_check_environment.specs.signatures.Environment.{environment};
ghost use Rattle.isle_check_environment.specs.signatures.Views.{environment_of};
ghost use Rattle.isle_check_typing.specs.Views as typing;

use crate::finding::{Finding, Kind};
use crate::warnings::{add_endless_converters, add_warnings};
use isle_ast::ast::{Def, Ident};
use isle_base::lexer::Pos;
use isle_check_declarations::lookup::TermLookup;
use isle_check_declarations::naming::{
    converter_faults, extern_faults, extractor_faults, root_faults,
};
use isle_check_declarations::{Fault, term_faults, type_faults};
use isle_check_environment::signatures::Environment;
use isle_check_matchings::rule_overlaps;
use isle_check_overlaps::Comparison;
use isle_check_recursion::{Recursion, recursions};
use isle_check_rules::{RuleRefusal, RulesTyping, TypedRule, rule_faults};
use std::alloc::{AllocError, Global};

/// How many patterns or expressions of a rule may lie in one another once templates are filled and
/// conversions are written out.
pub const RULE_DEPTH: usize = 500;

/// Returns the errors of a program: those of the first group that has any, in the order in which
/// upstream reports them. The groups are types and constants; declared terms; the left sides of
/// rules, and internal extractors; converters; external definitions; rules; rules beside one
/// another. Without an error it returns the warnings.
///
/// No template may hold a macro argument, `Pattern::MacroArg`, which the parser never makes. An
/// `Err` means out of memory.
#[tactic(auto, using(crate::proofs::GroupLemmas::group_told, crate::proofs::GroupLemmas::group_passed))]
pub fn check(alloc: Global, defs: &[Def]) -> Result<Vec<Finding<'_>>, AllocError>
    requires { definitions_have_macro_arg (definitions_of defs.now) ≡ false }
    ensures { IfOk result
        (λ found. findings_of found.items ≡ findings (definitions_of defs.now)) }
{
    let found = of_faults(alloc, &type_faults(alloc, defs)?)?;
    if !found.is_empty() {
        return Ok(found);
    }
    let found = of_faults(alloc, &term_faults(alloc, defs)?)?;
    if !found.is_empty() {
        return Ok(found);
    }
    root_findings(alloc, defs)
}

/// Returns the errors of the left sides of rules and of internal extractors, or else what is found
/// after them.
fn root_findings(alloc: Global, defs: &[Def]) -> Result<Vec<Finding<'_>>, AllocError>
    requires { definitions_have_macro_arg (definitions_of defs.now) ≡ false }
    ensures { IfOk result
        (λ found. findings_of found.items ≡ root_findings (definitions_of defs.now)) }
{
    let env = Environment::new(alloc, defs)?;
    let terms = TermLookup::new(alloc, defs)?;
    root_findings_by(alloc, &env, &terms, defs)
}

#[tactic(auto, using(crate::proofs::GroupLemmas::group_told, crate::proofs::GroupLemmas::group_passed))]
fn root_findings_by<'a>(
    alloc: Global,
    env: &Environment,
    terms: &TermLookup,
    defs: &'a [Def],
) -> Result<Vec<Finding<'a>>, AllocError>
    requires { environment_of env.now ≡ environment (definitions_of defs.now) }
    ensures { IfOk result (λ found. findings_of found.items
        ≡ root_findings_by (term_in terms.now) (environment_of env.now)
        (definitions_of defs.now)) }
{
    let found = root_errors(alloc, env, terms, defs)?;
    if !found.is_empty() {
        return Ok(found);
    }
    later_findings(alloc, env, terms, defs)
}

#[tactic(auto, using(crate::proofs::GroupLemmas::group_told, crate::proofs::GroupLemmas::group_passed))]
fn later_findings<'a>(
    alloc: Global,
    env: &Environment,
    terms: &TermLookup,
    defs: &'a [Def],
) -> Result<Vec<Finding<'a>>, AllocError>
    ensures { IfOk result (λ found. findings_of found.items
        ≡ later_findings_by (term_in terms.now) (environment_of env.now)
        (definitions_of defs.now)) }
{
    let found = of_faults(alloc, &converter_faults(alloc, terms, defs)?)?;
    if !found.is_empty() {
        return Ok(found);
    }
    let found = of_faults(alloc, &extern_faults(alloc, terms, defs)?)?;
    if !found.is_empty() {
        return Ok(found);
    }
    rule_findings(alloc, env, defs)
}

/// Returns the errors of rules, or the first rule that is too deep, or the warnings.
fn rule_findings<'a>(
    alloc: Global,
    env: &Environment,
    defs: &'a [Def],
) -> Result<Vec<Finding<'a>>, AllocError>
    ensures { IfOk result (λ found. findings_of found.items
        ≡ rule_findings_by (environment_of env.now) (definitions_of defs.now)) }
{
    match rule_faults(alloc, RULE_DEPTH, env, defs) {
        Ok(made) => of_typing(alloc, env, made, defs),
        Err(RuleRefusal::TooDeep(pos)) => deep_rule(alloc, env, pos, defs),
        Err(RuleRefusal::Memory) => Err(AllocError),
    }
}

fn of_typing<'a>(
    alloc: Global,
    env: &Environment,
    made: RulesTyping,
    defs: &'a [Def],
) -> Result<Vec<Finding<'a>>, AllocError>
    ensures { IfOk result (λ found. findings_of found.items
        ≡ of_rules (environment_of env.now) (definitions_of defs.now)
        (Ok (rules_typing_of made.entry))) }
{
    let RulesTyping { typed, faults } = made;
    let mut found = of_rule_faults(alloc, faults)?;
    if !has_error(&found) {
        add_later(alloc, env, &typed, defs, &mut found)?;
    }
    Ok(found)
}

/// Adds the errors of rules beside one another, or else the warnings.
fn add_later<'a>(
    alloc: Global,
    env: &Environment,
    rules: &[TypedRule],
    defs: &'a [Def],
    found: &mut Vec<Finding<'a>>,
) -> Result<(), AllocError>
    ensures { OnOk result (findings_of found.new.items ≡ findings_of found.old.items
        ++ after_rules (environment_of env.now) (typed_rules_of rules.now)
        (definitions_of defs.now)) }
{
    let Comparison { faults, warnings } = rule_overlaps(alloc, env, defs, rules)?;
    if !faults.is_empty() {
        return add_overlaps(faults, found);
    }
    add_warnings(alloc, env, rules, defs, found)?;
    add_overlaps(warnings, found)
}

fn add_overlaps(
    faults: Vec<isle_check_overlaps::Fault>,
    found: &mut Vec<Finding>,
) -> Result<(), AllocError>
    ensures { OnOk result (findings_of found.new.items ≡ findings_of found.old.items
        ++ map of_overlap (overlaps.faults_of faults.items)) }
{
    for fault in faults {
        found.push(Finding {
            kind: Kind::Overlap(fault.kind),
            pos: fault.pos,
        })?;
    }
    Ok(())
}

fn of_rule_faults<'a>(
    alloc: Global,
    faults: Vec<isle_check_typing::Fault>,
) -> Result<Vec<Finding<'a>>, AllocError>
    ensures { IfOk result (λ found. findings_of found.items
        ≡ map of_rule_fault (typing.faults_of faults.items)) }
{
    let mut found = Vec::new(alloc);
    for fault in faults {
        found.push(Finding {
            kind: Kind::Rule(fault.kind),
            pos: fault.pos,
        })?;
    }
    Ok(found)
}

fn has_error(found: &[Finding]) -> bool
    ensures { result ≡ has_error (findings_of found.now) }
{
    for finding in found {
        if finding.kind.is_error() {
            return true;
        }
    }
    false
}

/// Returns the rule that is too deep, and the conversions that may make it so.
fn deep_rule<'a>(
    alloc: Global,
    env: &Environment,
    pos: Pos,
    defs: &'a [Def],
) -> Result<Vec<Finding<'a>>, AllocError>
    ensures { IfOk result (λ found. findings_of found.items ≡ finding deep_rule pos
        ∷ endless_converters (environment_of env.now) (definitions_of defs.now)) }
{
    let mut found = Vec::new(alloc);
    found.push(Finding {
        kind: Kind::DeepRule,
        pos,
    })?;
    add_endless_converters(alloc, env, defs, &mut found)?;
    Ok(found)
}

/// Returns the errors of the left sides of rules and of internal extractors.
fn root_errors<'a>(
    alloc: Global,
    env: &Environment,
    terms: &TermLookup,
    defs: &'a [Def],
) -> Result<Vec<Finding<'a>>, AllocError>
    requires { environment_of env.now ≡ environment (definitions_of defs.now) }
    ensures { IfOk result (λ found. findings_of found.items
        ≡ root_errors_by (term_in terms.now) (definitions_of defs.now)) }
{
    let mut found = of_faults(alloc, &root_faults(alloc, terms, defs)?)?;
    add_faults(&extractor_faults(alloc, terms, defs)?, &mut found)?;
    add_recursions(alloc, &recursions(alloc, env, defs)?, &mut found)?;
    Ok(found)
}

fn of_faults<'a>(alloc: Global, faults: &[Fault<'a>]) -> Result<Vec<Finding<'a>>, AllocError>
    ensures { IfOk result
        (λ found. findings_of found.items ≡ of_faults (faults_of faults.now)) }
{
    let mut found = Vec::new(alloc);
    add_faults(faults, &mut found)?;
    Ok(found)
}

fn add_faults<'a>(faults: &[Fault<'a>], found: &mut Vec<Finding<'a>>) -> Result<(), AllocError>
    ensures { OnOk result (findings_of found.new.items
        ≡ findings_of found.old.items ++ of_faults (faults_of faults.now)) }
{
    for fault in faults {
        found.push(Finding {
            kind: Kind::Declaration(fault.kind),
            pos: fault.pos,
        })?;
    }
    Ok(())
}

fn add_recursions<'a>(
    alloc: Global,
    recursions: &[Recursion<'a>],
    found: &mut Vec<Finding<'a>>,
) -> Result<(), AllocError>
    ensures { OnOk result (findings_of found.new.items
        ≡ findings_of found.old.items ++ map of_recursion (recursions_at recursions.now)) }
{
    for recursion in recursions {
        let path = copied(alloc, &recursion.path)?;
        found.push(Finding {
            kind: Kind::RecursiveExtractor(path),
            pos: recursion.pos,
        })?;
    }
    Ok(())
}

fn copied<'a>(alloc: Global, path: &[&'a Ident]) -> Result<Vec<&'a Ident>, AllocError>
    ensures { IfOk result (λ made. names_at made.items ≡ names_at path.now) }
{
    let mut made = Vec::new(alloc);
    for name in path {
        made.push(*name)?;
    }
    Ok(made)
}
