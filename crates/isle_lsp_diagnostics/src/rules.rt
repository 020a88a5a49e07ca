//! The rules of a file, and the types of their variables.

ghost use Rattle.std.specs.Prelude.{◌≡◌, ◌==◌, IfErr, IfOk, false, filter, map, option_map};
ghost use Rattle.isle_ast.specs.MacroArgs.{definitions_have_macro_arg};
ghost use Rattle.isle_ast.specs.TreeView.{definitions_of};
ghost use Rattle.isle_ast_rules.specs.TreeView.{rule_of};
ghost use Rattle.isle_check_environment.specs.Views.{extractors_at, rules_at};
ghost use Rattle.isle_check_environment.specs.signatures.Environment.{environment};
ghost use Rattle.isle_check_environment.specs.signatures.Views.{environment_of, term_of};
ghost use Rattle.isle_check_typing.specs.Views.{variables_of};
ghost use Rattle.isle_cli.specs.declared.failure.Failure.TheVariants.{Memory};
ghost use Rattle.isle_lsp_diagnostics.specs.Rules as wanted;
ghost use Rattle.isle_lsp_features.specs.Places.{file_of};
ghost use Rattle.isle_lsp_features.specs.Programs.{text_of};

use crate::checks::sources_of;
use isle_ast::ast::{Def, Extractor, Rule};
use isle_check_core::RULE_DEPTH;
use isle_check_environment::parts::{extractors_in, rules_in};
use isle_check_environment::signatures::{Environment, Term};
use isle_check_recursion::recursions;
use isle_check_rules::rule_variables;
use isle_check_typing::{Refusal, Variable};
use isle_cli::failure::Failure;
use isle_lsp_features::Text;
use isle_lsp_features::places::File;
use isle_program::trees::{Reading, read_all};
use std::alloc::{AllocError, Global};

/// The first of these programs. If there is none, it is one without texts.
pub fn first_of<'p, 'a>(programs: &'p [Vec<Text<'a>>]) -> &'p [Text<'a>]
    ensures { map text_of result.now
        ≡ wanted.first_of (map (λ p. map text_of p.items) programs.now) }
{
    match programs {
        [program, ..] => program,
        [] => &[],
    }
}

/// Parses the texts of a program. The only error is `Memory`.
pub fn read(alloc: Global, program: &[Text]) -> Result<Reading, Failure>
    ensures ok { IfOk result (λ reading. wanted.AreDefinitions (map text_of program.now)
        (definitions_of reading.defs.items)) }
    // The parser makes no arguments of macros.
    ensures plain { IfOk result
        (λ reading. definitions_have_macro_arg (definitions_of reading.defs.items) ≡ false) }
    ensures err { IfErr result (λ failure. failure ≡ Memory) }
{
    let sources = sources_of(alloc, program)?;
    read_all(alloc, &sources)
}

/// The rules of a file whose variables have types: none, if writing out an internal extractor may
/// have no end. `env` is the environment of the program, which has these definitions.
pub fn typed_rules<'d>(
    alloc: Global,
    env: &Environment,
    file: File,
    defs: &'d [Def],
) -> Result<Vec<&'d Rule>, AllocError>
    requires { environment_of env.now ≡ environment (definitions_of defs.now) }
    ensures { IfOk result (λ rules. rules_at rules.items
        ≡ wanted.typed_rules (file_of file.entry) (definitions_of defs.now)) }
{
    if are_endless(alloc, env, defs)? {
        return Ok(Vec::new(alloc));
    }
    let rules = rules_in(alloc, defs)?;
    rules_at_file(alloc, file.number, &rules)
}

/// Those of these rules that stand in the file of this number.
fn rules_at_file<'d>(
    alloc: Global,
    number: usize,
    rules: &[&'d Rule],
) -> Result<Vec<&'d Rule>, AllocError>
    ensures { IfOk result (λ found. rules_at found.items
        ≡ wanted.rules_at_file number (rules_at rules.now)) }
{
    let mut found = Vec::new(alloc);
    for rule in rules {
        if rule.pos.file == number {
            found.push(*rule)?;
        }
    }
    Ok(found)
}

/// Returns whether writing out an internal extractor may have no end: one uses itself, or is one of
/// a variant. `env` is the environment of the program.
fn are_endless(alloc: Global, env: &Environment, defs: &[Def]) -> Result<bool, AllocError>
    requires { environment_of env.now ≡ environment (definitions_of defs.now) }
    ensures { IfOk result (λ are. are ≡ wanted.are_endless (definitions_of defs.now)) }
{
    let extractors = extractors_in(alloc, defs)?;
    if have_variant(env, &extractors) {
        return Ok(true);
    }
    let recursions = recursions(alloc, env, defs)?;
    Ok(!recursions.is_empty())
}

/// Returns whether one of these internal extractors is one of a variant.
fn have_variant(env: &Environment, extractors: &[&Extractor]) -> bool
    ensures { result
        ≡ wanted.have_variant (environment_of env.now) (extractors_at extractors.now) }
{
    for extractor in extractors {
        if is_variant(env.term(extractor.term.0.as_str())) {
            return true;
        }
    }
    false
}

fn is_variant(term: Option<&Term>) -> bool
    ensures { result ≡ wanted.is_variant (option_map (λ t. term_of t.now) term.entry) }
{
    match term {
        Some(term) => term.is_variant,
        None => false,
    }
}

/// The variables of a rule, with their types. There are none if more patterns or expressions lie in
/// one another than `isle-check` types.
#[tactic(auto, unfolding(crate::specs::Rules::variables))]
pub fn variables<'e>(
    alloc: Global,
    env: &'e Environment,
    rule: &Rule,
) -> Result<Vec<Variable<'e>>, AllocError>
    ensures { IfOk result (λ found. variables_of found.items
        ≡ wanted.variables (environment_of env.now) (rule_of rule.now)) }
{
    match rule_variables(alloc, RULE_DEPTH, env, rule) {
        Ok(found) => Ok(found),
        Err(Refusal::TooDeep) => Ok(Vec::new(alloc)),
        Err(Refusal::Memory) => Err(AllocError),
    }
}
