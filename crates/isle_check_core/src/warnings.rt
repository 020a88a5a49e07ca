//! Warnings.

ghost use Rattle.std.specs.Prelude.{◌≡◌, ◌++◌, [], List, OnOk, map, option_map};
ghost use Rattle.isle_ast.specs.TreeView.{definitions_of};
ghost use Rattle.isle_ast_names.specs.Tree.{Name};
ghost use Rattle.isle_ast_rules.specs.TreeView.{extractor_of};
ghost use Rattle.isle_check_core.specs.Findings.{doubled_constant, doubled_constants};
ghost use Rattle.isle_check_core.specs.Findings.{endless_converters, of_converter, of_warning};
ghost use Rattle.isle_check_core.specs.Findings.{warnings, wrong_count, wrong_counts};
ghost use Rattle.isle_check_core.specs.Views.{findings_of};
ghost use Rattle.isle_check_environment.specs.Names.{Knows};
ghost use Rattle.isle_check_environment.specs.Views.{constant_of, constants_at};
ghost use Rattle.isle_check_environment.specs.Views.{converters_at, extractors_at};
ghost use Rattle.isle_check_rules.specs.Views.{typed_rules_of, warnings_of};
ghost use Rattle.isle_check_environment.specs.signatures.Views.{environment_of, term_of};

use crate::finding::{Finding, Kind};
use isle_ast::ast::{Converter, Def, Extractor};
use isle_check_environment::names::{Names, add_name, has, no_names};
use isle_check_environment::parts::{Constant, constants_in, extractors_in};
use isle_check_environment::signatures::{Environment, Term};
use isle_check_recursion::endless_conversions;
use isle_check_rules::{TypedRule, Warning, conditions_without_constructor, multi_extractors};
use std::alloc::{AllocError, Global};

/// Adds the warnings of a program without an error to `found`. `env` is the environment of the
/// program, and `rules` are its typed rules. An `Err` means out of memory.
pub fn add_warnings<'a>(
    alloc: Global,
    env: &Environment,
    rules: &[TypedRule],
    defs: &'a [Def],
    found: &mut Vec<Finding<'a>>,
) -> Result<(), AllocError>
    ensures { OnOk result (findings_of found.new.items ≡ findings_of found.old.items
        ++ warnings (environment_of env.now) (typed_rules_of rules.now)
        (definitions_of defs.now)) }
{
    let constants = constants_in(alloc, defs)?;
    add_doubled_constants(alloc, &constants, found)?;
    let extractors = extractors_in(alloc, defs)?;
    add_wrong_counts(env, &extractors, found)?;
    add_endless_converters(alloc, env, defs, found)?;
    add_rule_warnings(conditions_without_constructor(alloc, env, defs)?, found)?;
    add_rule_warnings(multi_extractors(alloc, env, rules)?, found)
}

/// Adds the converters whose conversion does not come to an end.
pub fn add_endless_converters<'a>(
    alloc: Global,
    env: &Environment,
    defs: &'a [Def],
    found: &mut Vec<Finding<'a>>,
) -> Result<(), AllocError>
    ensures { OnOk result (findings_of found.new.items ≡ findings_of found.old.items
        ++ endless_converters (environment_of env.now) (definitions_of defs.now)) }
{
    let converters = endless_conversions(alloc, env, defs)?;
    add_converters(&converters, found)
}

fn add_converters<'a>(
    converters: &[&'a Converter],
    found: &mut Vec<Finding<'a>>,
) -> Result<(), AllocError>
    ensures { OnOk result (findings_of found.new.items ≡ findings_of found.old.items
        ++ map of_converter (converters_at converters.now)) }
{
    for converter in converters {
        found.push(Finding {
            kind: Kind::EndlessConversion(&converter.inner_ty, &converter.outer_ty),
            pos: converter.pos,
        })?;
    }
    Ok(())
}

fn add_rule_warnings(warnings: Vec<Warning>, found: &mut Vec<Finding>) -> Result<(), AllocError>
    ensures { OnOk result (findings_of found.new.items
        ≡ findings_of found.old.items ++ map of_warning (warnings_of warnings.items)) }
{
    for warning in warnings {
        found.push(Finding {
            kind: Kind::RuleWarning(warning.kind),
            pos: warning.pos,
        })?;
    }
    Ok(())
}

fn add_doubled_constants<'a>(
    alloc: Global,
    constants: &[Constant<'a>],
    found: &mut Vec<Finding<'a>>,
) -> Result<(), AllocError>
    ensures { OnOk result (findings_of found.new.items ≡ findings_of found.old.items
        ++ doubled_constants [] (constants_at constants.now)) }
{
    let mut earlier = no_names(alloc);
    for constant in constants {
        add_doubled_constant(&earlier, constant, found)?;
        add_name(&mut earlier, constant.name)?;
    }
    Ok(())
}

fn add_doubled_constant<'a>(
    earlier: &Names,
    constant: &Constant<'a>,
    found: &mut Vec<Finding<'a>>,
) -> Result<(), AllocError>
    ensures { OnOk result ((known : List Name) → Knows earlier.now known
        → findings_of found.new.items ≡ findings_of found.old.items
        ++ doubled_constant known (constant_of constant.now)) }
{
    if has(earlier, constant.name.0.as_str()) {
        found.push(Finding {
            kind: Kind::ConstantAgain(constant.name),
            pos: constant.pos,
        })?;
    }
    Ok(())
}

fn add_wrong_counts<'a>(
    env: &Environment,
    extractors: &[&'a Extractor],
    found: &mut Vec<Finding<'a>>,
) -> Result<(), AllocError>
    ensures { OnOk result (findings_of found.new.items ≡ findings_of found.old.items
        ++ wrong_counts (environment_of env.now) (extractors_at extractors.now)) }
{
    for extractor in extractors {
        add_wrong_count(env.term(extractor.term.0.as_str()), extractor, found)?;
    }
    Ok(())
}

fn add_wrong_count<'a>(
    term: Option<&Term>,
    extractor: &'a Extractor,
    found: &mut Vec<Finding<'a>>,
) -> Result<(), AllocError>
    ensures { OnOk result (findings_of found.new.items ≡ findings_of found.old.items
        ++ wrong_count (option_map (λ t. term_of t.now) term.entry) (extractor_of extractor.now)) }
{
    let Some(term) = term else {
        return Ok(());
    };
    let parameters = extractor.args.len();
    let arguments = term.args.len();
    if parameters != arguments {
        let kind = Kind::ParameterCount {
            extractor: &extractor.term,
            parameters,
            arguments,
        };
        found.push(Finding {
            kind,
            pos: extractor.pos,
        })?;
    }
    Ok(())
}
