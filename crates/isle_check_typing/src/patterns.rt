//! The types of patterns.

ghost use Rattle.std.specs.Prelude.{◌≡◌, [], IfOk, map, option_map, string_bytes};
ghost use Rattle.isle_ast_names.specs.TreeView.{name_of};
ghost use Rattle.isle_ast_rules.specs.Templates.{plug};
ghost use Rattle.isle_ast_rules.specs.TreeView.{pattern_list_of, pattern_of, patterns_of};
ghost use Rattle.isle_check_environment.specs.signatures.Views.{environment_of, term_of};
ghost use Rattle.isle_check_typing.specs.PatternTypes.{arguments_by, converting, count_patterns};
ghost use Rattle.isle_check_typing.specs.PatternTypes.{each_by, extracted_by, filled_by, found_by};
ghost use Rattle.isle_check_typing.specs.PatternTypes.{list_list, own_by, put_by, step};
ghost use Rattle.isle_check_typing.specs.PatternTypes.{term_by, type_and, type_at};
ghost use Rattle.isle_check_typing.specs.TypedView.{typed_of};
ghost use Rattle.isle_check_typing.specs.Views.{GivesTyping, GivesTypings, progress_of};

use crate::fault::Kind;
use crate::leaves::{type_bool, type_constant, type_integer, type_variable};
use crate::names::known_term;
use crate::parts::{add_pattern, bound_by, own_converter, put};
use crate::progress::{Progress, tell};
use crate::refusal::Refusal;
use crate::tells::{tell_count, tell_extractor, tell_parameter, tell_term_type, tell_term_unknown};
use crate::typed::TypedPattern;
use isle_ast_names::Ident;
use isle_ast_rules::Pattern;
use isle_base::lexer::Pos;
use isle_check_environment::signatures::{Environment, Term};
use std::alloc::{AllocError, Global};
use std::slice;

/// Types a pattern that matches values of the type `ty`. Binds its variables and tells its errors
/// in `progress`. Returns its typed pattern, if it has one.
///
/// `TooDeep` means that more than `depth` patterns lie in one another once templates are filled and
/// conversions are written out. `Memory` means out of memory. After both nothing is known of
/// `progress`.
#[cycle(pattern)]
pub fn type_pattern<'e>(
    alloc: Global,
    depth: usize,
    env: &'e Environment,
    pattern: &Pattern,
    ty: &'e str,
    progress: &mut Progress<'e>,
) -> Result<Option<TypedPattern<'e>>, Refusal>
    ensures { GivesTyping typed_of result progress.new
        (type_at depth (environment_of env.now) (pattern_of pattern.now) ty.now
        (progress_of progress.old)) }
{
    if depth == 0 {
        return Err(Refusal::TooDeep);
    }
    type_step(alloc, depth - 1, env, pattern, ty, progress)
}

#[cycle(pattern)]
fn type_step<'e>(
    alloc: Global,
    depth: usize,
    env: &'e Environment,
    pattern: &Pattern,
    ty: &'e str,
    progress: &mut Progress<'e>,
) -> Result<Option<TypedPattern<'e>>, Refusal>
    ensures { GivesTyping typed_of result progress.new
        (step (type_at depth (environment_of env.now)) (environment_of env.now)
        (pattern_of pattern.now) ty.now (progress_of progress.old)) }
{
    match pattern {
        Pattern::Var { var, pos } => Ok(Some(type_variable(alloc, var, *pos, ty, progress)?)),
        Pattern::BindPattern { var, subpat, pos } => {
            let inner = type_pattern(alloc, depth, env, subpat, ty, progress)?;
            Ok(bound_by(alloc, inner, var, *pos, progress)?)
        }
        Pattern::ConstBool { val, pos } => Ok(Some(type_bool(alloc, *val, *pos, ty, progress)?)),
        Pattern::ConstInt { val, pos } => Ok(Some(type_integer(
            alloc, env, *val, *pos, ty, progress,
        )?)),
        Pattern::ConstPrim { val, pos } => Ok(type_constant(alloc, env, val, *pos, ty, progress)?),
        Pattern::Term { sym, args, pos } => {
            type_term(alloc, depth, env, pattern, sym, args, *pos, ty, progress)
        }
        Pattern::Wildcard { .. } => Ok(Some(TypedPattern::Wildcard { ty })),
        Pattern::And { subpats, .. } => type_and(alloc, depth, env, subpats, ty, progress),
        Pattern::MacroArg { pos, .. } => {
            tell(progress, Kind::MacroArgument, *pos)?;
            Ok(None)
        }
    }
}

#[cycle(pattern)]
fn type_and<'e>(
    alloc: Global,
    depth: usize,
    env: &'e Environment,
    subpats: &Vec<Pattern>,
    ty: &'e str,
    progress: &mut Progress<'e>,
) -> Result<Option<TypedPattern<'e>>, Refusal>
    ensures { GivesTyping typed_of result progress.new
        (type_and (type_at depth (environment_of env.now))
        (pattern_list_of (patterns_of subpats.now.items)) ty.now
        (progress_of progress.old)) }
{
    let subpats = type_each(alloc, depth, env, subpats, ty, progress)?;
    Ok(Some(TypedPattern::And { ty, subpats }))
}

/// Types a term with arguments.
#[cycle(pattern)]
fn type_term<'e>(
    alloc: Global,
    depth: usize,
    env: &'e Environment,
    pattern: &Pattern,
    sym: &Ident,
    args: &[Pattern],
    pos: Pos,
    ty: &'e str,
    progress: &mut Progress<'e>,
) -> Result<Option<TypedPattern<'e>>, Refusal>
    ensures { GivesTyping typed_of result progress.new
        (term_by (type_at depth (environment_of env.now)) (environment_of env.now)
        ((environment_of env.now).terms (name_of sym.now).text) (pattern_of pattern.now)
        (name_of sym.now).text (pattern_list_of (patterns_of args.now)) pos
        ty.now (progress_of progress.old)) }
{
    match known_term(env, sym.0.as_str()) {
        None => {
            tell_term_unknown(sym, pos, progress)?;
            Ok(None)
        }
        Some((name, term)) => {
            type_found(
                alloc, depth, env, pattern, term, name, args, pos, ty, progress,
            )
        }
    }
}

/// Types a term that is known.
#[cycle(pattern)]
fn type_found<'e>(
    alloc: Global,
    depth: usize,
    env: &'e Environment,
    pattern: &Pattern,
    term: &'e Term,
    sym: &'e str,
    args: &[Pattern],
    pos: Pos,
    ty: &'e str,
    progress: &mut Progress<'e>,
) -> Result<Option<TypedPattern<'e>>, Refusal>
    ensures { GivesTyping typed_of result progress.new
        (found_by (type_at depth (environment_of env.now)) (environment_of env.now)
        (pattern_of pattern.now) (term_of term.now) sym.now
        (pattern_list_of (patterns_of args.now)) pos ty.now
        (progress_of progress.old)) }
{
    if term.ret.as_str() == ty {
        return type_own(alloc, depth, env, term, sym, args, pos, ty, progress);
    }
    match converting(env, term.ret.as_str(), ty) {
        Some(converter) => type_put(alloc, depth, env, converter, pattern, pos, ty, progress),
        None => {
            tell_term_type(alloc, term, ty, pos, progress)?;
            type_own(alloc, depth, env, term, sym, args, pos, ty, progress)
        }
    }
}

/// Types a pattern that is put into a converter. One that matches values of the wanted type needs
/// no conversion, so the pattern isn't copied for it.
#[cycle(pattern)]
fn type_put<'e>(
    alloc: Global,
    depth: usize,
    env: &'e Environment,
    converter: &String,
    pattern: &Pattern,
    pos: Pos,
    ty: &'e str,
    progress: &mut Progress<'e>,
) -> Result<Option<TypedPattern<'e>>, Refusal>
    ensures { GivesTyping typed_of result progress.new
        (put_by (type_at depth (environment_of env.now)) (string_bytes converter.now)
        (pattern_of pattern.now) pos ty.now (progress_of progress.old)) }
{
    match own_converter(depth, env, converter, ty) {
        None => type_copied(alloc, depth, env, converter, pattern, pos, ty, progress),
        Some((name, term)) => {
            let args = slice::from_ref(pattern);
            type_own(alloc, depth - 1, env, term, name, args, pos, ty, progress)
        }
    }
}

/// Types the term of a converter with a copy of a pattern.
#[cycle(pattern)]
fn type_copied<'e>(
    alloc: Global,
    depth: usize,
    env: &'e Environment,
    converter: &String,
    pattern: &Pattern,
    pos: Pos,
    ty: &'e str,
    progress: &mut Progress<'e>,
) -> Result<Option<TypedPattern<'e>>, Refusal>
    ensures { GivesTyping typed_of result progress.new
        (put_by (type_at depth (environment_of env.now)) (string_bytes converter.now)
        (pattern_of pattern.now) pos ty.now (progress_of progress.old)) }
{
    let put = put(alloc, converter, pattern, pos)?;
    type_pattern(alloc, depth, env, &put, ty, progress)
}

/// Types a term that isn't converted.
#[cycle(pattern)]
fn type_own<'e>(
    alloc: Global,
    depth: usize,
    env: &'e Environment,
    term: &'e Term,
    sym: &'e str,
    args: &[Pattern],
    pos: Pos,
    ty: &'e str,
    progress: &mut Progress<'e>,
) -> Result<Option<TypedPattern<'e>>, Refusal>
    ensures { GivesTyping typed_of result progress.new
        (own_by (type_at depth (environment_of env.now)) (environment_of env.now)
        (term_of term.now) sym.now (pattern_list_of (patterns_of args.now))
        pos ty.now (progress_of progress.old)) }
{
    let given = count_patterns(args);
    let counts = tell_count(alloc, term, sym, given, pos, progress)?;
    match env.template(sym) {
        None => type_extracted(alloc, depth, env, term, sym, args, pos, progress),
        Some(template) => {
            type_filled(
                alloc, depth, env, template, args, counts, sym, pos, ty, progress,
            )
        }
    }
}

/// Types what a template stands for with these arguments.
#[cycle(pattern)]
fn type_filled<'e>(
    alloc: Global,
    depth: usize,
    env: &'e Environment,
    template: &Pattern,
    args: &[Pattern],
    counts: bool,
    sym: &'e str,
    pos: Pos,
    ty: &'e str,
    progress: &mut Progress<'e>,
) -> Result<Option<TypedPattern<'e>>, Refusal>
    ensures { GivesTyping typed_of result progress.new
        (filled_by (type_at depth (environment_of env.now)) (plug (pattern_of template.now)
        (list_list (pattern_list_of (patterns_of args.now)))) counts
        sym.now pos ty.now (progress_of progress.old)) }
{
    match filled(alloc, template, args)? {
        None => {
            tell_parameter(alloc, counts, sym, pos, progress)?;
            Ok(None)
        }
        Some(made) => type_pattern(alloc, depth, env, &made, ty, progress),
    }
}

/// Types a term that has no template.
#[cycle(pattern)]
fn type_extracted<'e>(
    alloc: Global,
    depth: usize,
    env: &'e Environment,
    term: &'e Term,
    sym: &'e str,
    args: &[Pattern],
    pos: Pos,
    progress: &mut Progress<'e>,
) -> Result<Option<TypedPattern<'e>>, Refusal>
    ensures { GivesTyping typed_of result progress.new
        (extracted_by (type_at depth (environment_of env.now)) (environment_of env.now)
        (term_of term.now) sym.now (pattern_list_of (patterns_of args.now))
        pos (progress_of progress.old)) }
{
    tell_extractor(alloc, env, sym, pos, progress)?;
    let args = type_arguments(alloc, depth, env, args, &term.args, progress)?;
    Ok(Some(TypedPattern::Term {
        term: sym,
        ty: term.ret.as_str(),
        args,
    }))
}

/// Types patterns that match one value.
#[cycle(pattern)]
fn type_each<'e>(
    alloc: Global,
    depth: usize,
    env: &'e Environment,
    patterns: &Vec<Pattern>,
    ty: &'e str,
    progress: &mut Progress<'e>,
) -> Result<Vec<TypedPattern<'e>>, Refusal>
    ensures { GivesTypings typed_of result progress.new
        (each_by (type_at depth (environment_of env.now))
        (pattern_list_of (patterns_of patterns.now.items)) ty.now []
        (progress_of progress.old)) }
{
    let mut typed = Vec::with_capacity(alloc, patterns.len())?;
    for pattern in patterns {
        let made = type_pattern(alloc, depth, env, pattern, ty, progress)?;
        add_pattern(&mut typed, made)?;
    }
    Ok(typed)
}

/// Types patterns, each for a value of its type, as many as there are types. Returns the typed
/// patterns of those that have one, in order. Errors are those of `type_pattern`.
#[cycle(pattern)]
pub fn type_arguments<'e>(
    alloc: Global,
    depth: usize,
    env: &'e Environment,
    patterns: &[Pattern],
    types: &'e Vec<String>,
    progress: &mut Progress<'e>,
) -> Result<Vec<TypedPattern<'e>>, Refusal>
    ensures { GivesTypings typed_of result progress.new
        (arguments_by (type_at depth (environment_of env.now))
        (pattern_list_of (patterns_of patterns.now)) (map string_bytes types.now.items) []
        (progress_of progress.old)) }
{
    let mut typed = Vec::with_capacity(alloc, patterns.len())?;
    for (number, pattern) in patterns.iter().enumerate() {
        if number >= types.len() {
            return Ok(typed);
        }
        let ty = types[number].as_str();
        let made = type_pattern(alloc, depth, env, pattern, ty, progress)?;
        add_pattern(&mut typed, made)?;
    }
    Ok(typed)
}

/// Puts arguments into a template.
fn filled(
    alloc: Global,
    template: &Pattern,
    args: &[Pattern],
) -> Result<Option<Pattern>, AllocError>
    ensures { IfOk result (λ made. option_map pattern_of made
        ≡ plug (pattern_of template.now)
        (list_list (pattern_list_of (patterns_of args.now)))) }
{
    template.subst_macro_args(alloc, args)
}

/// Counts patterns.
#[tactic(auto, using(crate::proofs::Counts::count_of))]
fn count_patterns(patterns: &[Pattern]) -> usize
    ensures { result ≡ count_patterns (pattern_list_of (patterns_of patterns.now)) }
{
    patterns.len()
}

/// Returns the term that converts in patterns, if there is one.
fn converting<'a>(env: &'a Environment, inner: &str, outer: &str) -> Option<&'a String>
    ensures { option_map (λ c. string_bytes c.now) result
        ≡ converting (environment_of env.now) inner.now outer.now }
{
    match env.converter(inner, outer) {
        Some(converter) => {
            if env.has_extractor(converter.as_str()) {
                Some(converter)
            } else {
                None
            }
        }
        None => None,
    }
}
