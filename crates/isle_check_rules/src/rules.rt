//! The types of rules.

ghost use Rattle.std.specs.Prelude.{◌≡◌, ◌==◌, ◌||◌, [], IfOk, OnOk, is_none, length, not};
ghost use Rattle.std.specs.Prelude.{option_map, pos, string_bytes, unwrap_or};
ghost use Rattle.isle_ast_rules.specs.TreeView.{condition_of, conditions_of, pattern_list_of};
ghost use Rattle.isle_ast_rules.specs.TreeView.{pattern_of, patterns_of, rule_of};
ghost use Rattle.isle_check_environment.specs.signatures.Views.{environment_of, term_of};
ghost use Rattle.isle_check_typing.specs.Faults.{argument_count, priority_in_multi};
ghost use Rattle.isle_check_typing.specs.PatternTypes.{count_patterns};
ghost use Rattle.isle_check_typing.specs.Progress.{unless};
ghost use Rattle.isle_check_typing.specs.TypedView.{all_typed_of};
ghost use Rattle.isle_check_typing.specs.Views.{Gives, GivesTyping, GivesTypings, progress_of};
ghost use Rattle.isle_check_typing.specs.expressions.TypedView.{typed_expression_of};
ghost use Rattle.isle_check_rules.specs.RuleTypes.{condition_flags, pattern_by, right_by};
ghost use Rattle.isle_check_rules.specs.RuleTypes.{rule_by, rule_flags, type_condition};
ghost use Rattle.isle_check_rules.specs.RuleTypes.{type_conditions, type_right, type_rule};
ghost use Rattle.isle_check_rules.specs.RuleTypes.{type_sides};
ghost use Rattle.isle_check_rules.specs.Views.{rule_typing_of, typed_condition_of};
ghost use Rattle.isle_check_rules.specs.Views.{typed_conditions_of, typed_rule_of};

use crate::typed::{RuleTyping, TypedIfLet, TypedRule};
use isle_ast_rules::{IfLet, Pattern, Rule};
use isle_base::lexer::Pos;
use isle_check_environment::signatures::{Environment, Term};
use isle_check_typing::expressions::{Flags, TypedExpression, type_expression};
use isle_check_typing::{
    Kind, Progress, Refusal, TypedPattern, known_term, no_progress, tell, type_arguments,
    type_pattern,
};
use std::alloc::{AllocError, Global};

/// Types a rule. Its left side must be a term that is known: if it isn't, that is an error of other
/// calls, and the answer has neither a typed rule nor an error.
///
/// `TooDeep` means that more than `depth` patterns or expressions lie in one another once templates
/// are filled and conversions are written out. `Memory` means out of memory.
pub fn type_rule<'e>(
    alloc: Global,
    depth: usize,
    env: &'e Environment,
    rule: &Rule,
) -> Result<RuleTyping<'e>, Refusal>
    ensures { Gives rule_typing_of result
        (type_rule depth (environment_of env.now) (rule_of rule.now)) }
{
    match &rule.pattern {
        Pattern::Term { sym, args, .. } => match known_term(env, sym.0.as_str()) {
            None => Ok(no_typing(alloc)),
            Some((name, term)) => type_root(alloc, depth, env, term, name, args, rule),
        },
        _ => Ok(no_typing(alloc)),
    }
}

/// Returns the answer for a rule whose left side is no term that is known.
fn no_typing<'e>(alloc: Global) -> RuleTyping<'e>
    ensures { rule_typing_of result ≡ record { typed = None; faults = [] } }
{
    RuleTyping {
        typed: None,
        faults: Vec::new(alloc),
    }
}

/// Types a rule of a term that is known.
fn type_root<'e>(
    alloc: Global,
    depth: usize,
    env: &'e Environment,
    term: &'e Term,
    sym: &'e str,
    args: &Vec<Pattern>,
    rule: &Rule,
) -> Result<RuleTyping<'e>, Refusal>
    ensures { Gives rule_typing_of result
        (rule_by depth (environment_of env.now) (Some (term_of term.now)) sym.now
        (pattern_list_of (patterns_of args.now.items)) (rule_of rule.now)) }
{
    let mut progress = no_progress(alloc);
    let typed = type_sides(alloc, depth, env, term, sym, args, rule, &mut progress)?;
    Ok(RuleTyping {
        typed,
        faults: progress.faults,
    })
}

/// Types the arguments, the conditions and the right side of a rule.
pub(crate) fn type_sides<'e>(
    alloc: Global,
    depth: usize,
    env: &'e Environment,
    term: &'e Term,
    sym: &'e str,
    args: &Vec<Pattern>,
    rule: &Rule,
    progress: &mut Progress<'e>,
) -> Result<Option<TypedRule<'e>>, Refusal>
    ensures { GivesTyping typed_rule_of result progress.new
        (type_sides depth (environment_of env.now) (term_of term.now) sym.now
        (pattern_list_of (patterns_of args.now.items)) (rule_of rule.now)
        (progress_of progress.old)) }
{
    tell_count(alloc, term, sym, count_patterns(args), rule.pos, progress)?;
    let args = type_arguments(alloc, depth, env, args, &term.args, progress)?;
    let flags = condition_flags(term);
    let iflets = type_conditions(alloc, depth, env, flags, &rule.iflets, progress)?;
    type_right(alloc, depth, env, term, sym, args, iflets, rule, progress)
}

/// Counts patterns.
#[tactic(auto, using(isle_check_typing::proofs::Counts::count_of))]
fn count_patterns(patterns: &Vec<Pattern>) -> usize
    ensures { result ≡ count_patterns (pattern_list_of (patterns_of patterns.now.items)) }
{
    patterns.len()
}

/// Tells if a term has another number of arguments than are declared.
fn tell_count(
    alloc: Global,
    term: &Term,
    sym: &str,
    given: usize,
    pos: Pos,
    progress: &mut Progress,
) -> Result<(), AllocError>
    ensures { OnOk result (progress_of progress.new
        ≡ unless (length (term_of term.now).args == given)
        (argument_count sym.now given (length (term_of term.now).args)) pos
        (progress_of progress.old)) }
{
    let expected = term.args.len();
    if expected != given {
        let kind = Kind::ArgumentCount {
            term: String::from_str(alloc, sym)?,
            given,
            expected,
        };
        tell(progress, kind, pos)?;
    }
    Ok(())
}

/// Returns what the conditions of a rule of this term may use.
fn condition_flags(term: &Term) -> Flags
    ensures { result ≡ condition_flags (term_of term.now) }
{
    Flags {
        pure: true,
        multi: term.multi,
        partial: true,
    }
}

/// Returns what the right side of a rule of this term may use.
fn rule_flags(term: &Term) -> Flags
    ensures { result ≡ rule_flags (term_of term.now) }
{
    Flags {
        pure: term.pure,
        multi: term.multi,
        partial: term.partial,
    }
}

/// Types conditions, one after another. Returns the typed conditions of those that have one.
fn type_conditions<'e>(
    alloc: Global,
    depth: usize,
    env: &'e Environment,
    flags: Flags,
    iflets: &[IfLet],
    progress: &mut Progress<'e>,
) -> Result<Vec<TypedIfLet<'e>>, Refusal>
    ensures { GivesTypings typed_condition_of result progress.new
        (type_conditions depth (environment_of env.now) flags
        (conditions_of iflets.now) [] (progress_of progress.old)) }
{
    let mut typed = Vec::with_capacity(alloc, iflets.len())?;
    for iflet in iflets {
        if let Some(made) = type_condition(alloc, depth, env, flags, iflet, progress)? {
            typed.push(made)?;
        }
    }
    Ok(typed)
}

/// Types a condition: first the expression, and then the pattern by the expression's type.
fn type_condition<'e>(
    alloc: Global,
    depth: usize,
    env: &'e Environment,
    flags: Flags,
    iflet: &IfLet,
    progress: &mut Progress<'e>,
) -> Result<Option<TypedIfLet<'e>>, Refusal>
    ensures { GivesTyping typed_condition_of result progress.new
        (type_condition depth (environment_of env.now) flags
        (condition_of iflet.now) (progress_of progress.old)) }
{
    match type_expression(alloc, depth, env, flags, &iflet.expr, None, progress)? {
        None => Ok(None),
        Some(expr) => type_matched(alloc, depth, env, &iflet.pattern, expr, progress),
    }
}

/// Types the pattern of a condition by the type of its typed expression.
fn type_matched<'e>(
    alloc: Global,
    depth: usize,
    env: &'e Environment,
    pattern: &Pattern,
    expr: TypedExpression<'e>,
    progress: &mut Progress<'e>,
) -> Result<Option<TypedIfLet<'e>>, Refusal>
    ensures { GivesTyping typed_condition_of result progress.new
        (pattern_by depth (environment_of env.now) (pattern_of pattern.now)
        (Some (typed_expression_of expr.entry)) (progress_of progress.old)) }
{
    match type_pattern(alloc, depth, env, pattern, expr.ty(), progress)? {
        None => Ok(None),
        Some(pattern) => Ok(Some(TypedIfLet { pattern, expr })),
    }
}

/// Types the right side of a rule.
fn type_right<'e>(
    alloc: Global,
    depth: usize,
    env: &'e Environment,
    term: &'e Term,
    sym: &'e str,
    args: Vec<TypedPattern<'e>>,
    iflets: Vec<TypedIfLet<'e>>,
    rule: &Rule,
    progress: &mut Progress<'e>,
) -> Result<Option<TypedRule<'e>>, Refusal>
    ensures { GivesTyping typed_rule_of result progress.new
        (type_right depth (environment_of env.now) (term_of term.now) sym.now
        (all_typed_of args.entry.items) (typed_conditions_of iflets.entry.items) (rule_of rule.now)
        (progress_of progress.old)) }
{
    let flags = rule_flags(term);
    let wanted = Some(term.ret.as_str());
    let expr = type_expression(alloc, depth, env, flags, &rule.expr, wanted, progress)?;
    Ok(finish(term, sym, args, iflets, rule, expr, progress)?)
}

/// Returns the typed rule, if the right side is typed. Tells its priority then, if it must have
/// none.
fn finish<'e>(
    term: &'e Term,
    sym: &'e str,
    args: Vec<TypedPattern<'e>>,
    iflets: Vec<TypedIfLet<'e>>,
    rule: &Rule,
    expr: Option<TypedExpression<'e>>,
    progress: &mut Progress<'e>,
) -> Result<Option<TypedRule<'e>>, AllocError>
    ensures { IfOk result (λ made. record {
      typed = option_map typed_rule_of made;
      after = progress_of progress.new;
    }
        ≡ right_by (term_of term.now) sym.now (all_typed_of args.entry.items)
        (typed_conditions_of iflets.entry.items) (rule_of rule.now)
        (option_map typed_expression_of expr.entry) (progress_of progress.old)) }
{
    let Some(expr) = expr else {
        return Ok(None);
    };
    tell_priority(term, rule.prio, rule.pos, progress)?;
    Ok(Some(TypedRule {
        term: sym,
        args,
        iflets,
        expr,
        prio: priority(rule.prio),
        pos: rule.pos,
    }))
}

/// Returns the priority of a rule.
fn priority(prio: Option<i64>) -> i64
    ensures { result ≡ unwrap_or prio (pos 0) }
{
    prio.unwrap_or(0)
}

/// Tells if a rule of a multi term has a priority.
fn tell_priority(
    term: &Term,
    prio: Option<i64>,
    pos: Pos,
    progress: &mut Progress,
) -> Result<(), AllocError>
    ensures { OnOk result (progress_of progress.new
        ≡ unless (not (term_of term.now).multi || is_none prio) priority_in_multi pos
        (progress_of progress.old)) }
{
    if term.multi && prio.is_some() {
        tell(progress, Kind::PriorityInMulti, pos)?;
    }
    Ok(())
}
