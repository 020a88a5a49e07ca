//! The words of errors of rules.

ghost use Rattle.std.specs.Prelude.{◌≡◌, IfOk, option_map};
ghost use Rattle.isle_check_messages.specs.RuleWords.{bool_text, other_words, partial_term_end};
ghost use Rattle.isle_check_messages.specs.RuleWords.{rule_words, term_words, unknown_term_end};
ghost use Rattle.isle_check_messages.specs.RuleWords.{use_words, value_words, variable_words};
ghost use Rattle.isle_check_messages.specs.Words.{words_of};
ghost use Rattle.isle_check_typing.specs.Views.{kind_of};

use crate::words::{Words, about, about_three, about_two, no_words, plain};
use isle_check_typing::Kind;
use std::alloc::{AllocError, Global};

/// Returns the words of an error of a rule. An `Err` means out of memory.
pub fn rule_words(alloc: Global, kind: &Kind) -> Result<Words, AllocError>
    ensures { IfOk result (λ made. words_of made ≡ rule_words (kind_of kind.now)) }
{
    if let Some(made) = value_words(alloc, kind)? {
        return Ok(made);
    }
    if let Some(made) = variable_words(alloc, kind)? {
        return Ok(made);
    }
    if let Some(made) = term_words(alloc, kind)? {
        return Ok(made);
    }
    if let Some(made) = use_words(alloc, kind)? {
        return Ok(made);
    }
    other_words(alloc, kind)
}

fn value_words(alloc: Global, kind: &Kind) -> Result<Option<Words>, AllocError>
    ensures { IfOk result
        (λ made. option_map words_of made ≡ value_words (kind_of kind.now)) }
{
    let made = match kind {
        Kind::IntegerType { val, ty } => {
            let val = format!(in alloc; "{val}")?;
            about_two(
                alloc,
                "integer-type",
                "expected non-integer type ",
                ty.as_str(),
                ", but found integer literal '",
                val.as_str(),
                "'",
            )?
        }
        Kind::IntegerWithoutType => plain(
            alloc,
            "integer-without-type",
            "integer literal in a context that needs an explicit type",
        )?,
        Kind::BoolType { val, ty } => about_two(
            alloc,
            "boolean-type",
            "Boolean literal '",
            bool_text(*val),
            "' has type bool but we need ",
            ty.as_str(),
            " in context",
        )?,
        Kind::ConstantUnknown(_) => plain(alloc, "unknown-constant", "Unknown constant")?,
        Kind::ConstantType { .. } => plain(alloc, "constant-type", "Type mismatch for constant")?,
        Kind::ExpressionConstantType {
            name,
            expected,
            found,
        } => about_three(
            alloc,
            "constant-type",
            "Constant '",
            name.as_str(),
            "' has wrong type: expected ",
            expected.as_str(),
            ", but is actually ",
            found.as_str(),
            "",
        )?,
        _ => return Ok(None),
    };
    Ok(Some(made))
}

fn bool_text(val: bool) -> &'static str
    ensures { result.now ≡ bool_text val }
{
    if val { "true" } else { "false" }
}

fn variable_words(alloc: Global, kind: &Kind) -> Result<Option<Words>, AllocError>
    ensures { IfOk result
        (λ made. option_map words_of made ≡ variable_words (kind_of kind.now)) }
{
    let made = match kind {
        Kind::VariableBound(name) => about(
            alloc,
            "rebound-variable",
            "Re-bound variable name in LHS pattern: '",
            name.as_str(),
            "'",
        )?,
        Kind::VariableType {
            name,
            expected,
            found,
        } => about_three(
            alloc,
            "variable-type",
            "Mismatched types: pattern expects type '",
            expected.as_str(),
            "' but already-bound var '",
            name.as_str(),
            "' has type '",
            found.as_str(),
            "'",
        )?,
        Kind::VariableUnknown(name) => about(
            alloc,
            "unknown-variable",
            "Unknown variable '",
            name.as_str(),
            "'",
        )?,
        Kind::ExpressionVariableType {
            name,
            expected,
            found,
        } => about_three(
            alloc,
            "variable-type",
            "Variable '",
            name.as_str(),
            "' has type ",
            found.as_str(),
            " but we need ",
            expected.as_str(),
            " in context",
        )?,
        Kind::LetTypeUnknown { name, ty } => about_two(
            alloc,
            "unknown-variable-type",
            "Unknown type ",
            ty.as_str(),
            " for variable '",
            name.as_str(),
            "'",
        )?,
        _ => return Ok(None),
    };
    Ok(Some(made))
}

fn term_words(alloc: Global, kind: &Kind) -> Result<Option<Words>, AllocError>
    ensures { IfOk result
        (λ made. option_map words_of made ≡ term_words (kind_of kind.now)) }
{
    let made = match kind {
        Kind::TermUnknown(term) => about(
            alloc,
            "unknown-term",
            "Unknown term in pattern: '",
            term.as_str(),
            "'",
        )?,
        Kind::ExpressionTermUnknown { term, is_variable } => about(
            alloc,
            "unknown-term",
            "Unknown term in expression: '",
            term.as_str(),
            unknown_term_end(*is_variable),
        )?,
        Kind::TermType { expected, found } => about_two(
            alloc,
            "term-type",
            "Mismatched types: pattern expects type '",
            expected.as_str(),
            "' but term has return type '",
            found.as_str(),
            "'",
        )?,
        Kind::ExpressionTermType { expected, found } => about_two(
            alloc,
            "term-type",
            "Mismatched types: expression expects type '",
            expected.as_str(),
            "' but term has return type '",
            found.as_str(),
            "'",
        )?,
        Kind::ArgumentCount {
            term,
            given,
            expected,
        } => {
            let given = format!(in alloc; "{given}")?;
            let expected = format!(in alloc; "{expected}")?;
            about_three(
                alloc,
                "argument-count",
                "Incorrect argument count for term '",
                term.as_str(),
                "': got ",
                given.as_str(),
                ", expect ",
                expected.as_str(),
                "",
            )?
        }
        _ => return Ok(None),
    };
    Ok(Some(made))
}

fn unknown_term_end(is_variable: bool) -> &'static str
    ensures { result.now ≡ unknown_term_end is_variable }
{
    if is_variable {
        "'. Variable binding under this name exists; try removing the parens?"
    } else {
        "'"
    }
}

fn use_words(alloc: Global, kind: &Kind) -> Result<Option<Words>, AllocError>
    ensures { IfOk result
        (λ made. option_map words_of made ≡ use_words (kind_of kind.now)) }
{
    let made = match kind {
        Kind::NoExtractor(term) => about(
            alloc,
            "no-extractor",
            "Cannot use term '",
            term.as_str(),
            "' that does not have a defined extractor in a left-hand side pattern",
        )?,
        Kind::NoConstructor(term) => about(
            alloc,
            "no-constructor",
            "term `",
            term.as_str(),
            "` cannot be used in an expression because it does not have a constructor",
        )?,
        Kind::TermUndefined(term) => about(
            alloc,
            "undefined-term",
            "no rules, extractor, or external definition for declaration '",
            term.as_str(),
            "'",
        )?,
        Kind::ImpureTerm(term) => about(
            alloc,
            "impure-term",
            "Used non-pure constructor '",
            term.as_str(),
            "' in pure expression context",
        )?,
        Kind::MultiTerm(term) => about(
            alloc,
            "multi-term",
            "Used multi-constructor '",
            term.as_str(),
            "' but this rule is not in a multi-term",
        )?,
        Kind::PartialTerm { term, is_multi } => about(
            alloc,
            "partial-term",
            "Rule can't use partial constructor '",
            term.as_str(),
            partial_term_end(*is_multi),
        )?,
        Kind::PriorityInMulti => plain(
            alloc,
            "multi-priority",
            "Cannot set rule priorities in multi-terms",
        )?,
        _ => return Ok(None),
    };
    Ok(Some(made))
}

fn partial_term_end(is_multi: bool) -> &'static str
    ensures { result.now ≡ partial_term_end is_multi }
{
    if is_multi {
        "' on RHS; try moving it to if-let"
    } else {
        "' on RHS; try moving it to if-let or make this rule's term partial too"
    }
}

fn other_words(alloc: Global, kind: &Kind) -> Result<Words, AllocError>
    ensures { IfOk result (λ made. words_of made ≡ other_words (kind_of kind.now)) }
{
    match kind {
        Kind::ParameterWithoutArgument(term) => about(
            alloc,
            "dropped-pattern",
            "This pattern of '",
            term.as_str(),
            "' is left out: its extractor has more parameters than the term has arguments",
        ),
        Kind::MacroArgument => plain(alloc, "macro-argument", "Macro argument in a rule"),
        _ => Ok(no_words(alloc)),
    }
}
