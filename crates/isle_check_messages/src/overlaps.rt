//! The words of errors of rules beside one another.

ghost use Rattle.std.specs.Prelude.{◌≡◌, ◌++◌, IfOk, OnOk, codes, string_bytes};
ghost use Rattle.isle_check_messages.specs.OverlapWords.{both_text, first_text, overlap_words};
ghost use Rattle.isle_check_messages.specs.Words as Node;
ghost use Rattle.isle_check_messages.specs.Words.{words_of};
ghost use Rattle.isle_check_overlaps.specs.Views.{kind_of, others_of};
ghost use Rattle.isle_check_places.specs.values.Views.{value_of};

use crate::words::{Words, about_two, plain};
use isle_check_overlaps::{Kind, Other};
use isle_check_places::values::Value;
use std::alloc::{AllocError, Global};

/// Returns the words of an error of rules beside one another, or of a warning. An `Err` means out
/// of memory.
pub fn overlap_words(alloc: Global, kind: &Kind) -> Result<Words, AllocError>
    ensures { IfOk result (λ made. words_of made ≡ overlap_words (kind_of kind.now)) }
{
    match kind {
        Kind::TwoConstraints(first, second) => about_two(
            alloc,
            "unreachable-rule",
            "rule requires binding to match both ",
            first.as_str(),
            " and ",
            second.as_str(),
            "",
        ),
        Kind::UnequalConstraints => plain(
            alloc,
            "unreachable-rule",
            "rule requires equal bindings to match both of two",
        ),
        Kind::PartOfItself => plain(
            alloc,
            "part-of-itself",
            "rule requires a value that is a part of itself",
        ),
        Kind::Overlaps(others, _) => star_words(alloc, others),
        Kind::Shadows(..) => plain(
            alloc,
            "rule-shadow",
            "more general higher-priority rule shadows other rules",
        ),
        Kind::ShadowsWithEquals(..) => plain(
            alloc,
            "shadow-with-equal-values",
            "more general higher-priority rule shadows other rules that ask for equal values",
        ),
    }
}

/// Returns the words of a rule that overlaps with others: what it and the first of them match.
fn star_words(alloc: Global, others: &[Other]) -> Result<Words, AllocError>
    ensures { IfOk result (λ made. words_of made ≡ Node.words (codes "rule-overlap")
        (codes "rules are overlapping" ++ first_text (others_of others.now))) }
{
    let mut message = String::from_str(alloc, "rules are overlapping")?;
    if let Some(other) = others.first() {
        message.push_str(": ")?;
        put_both(&other.value, &mut message)?;
    }
    Ok(Words {
        name: "rule-overlap",
        message,
    })
}

/// Writes the value that two rules match.
pub fn put_both(value: &Value, text: &mut String) -> Result<(), AllocError>
    ensures { OnOk result
        (string_bytes text.new ≡ string_bytes text.old ++ both_text (value_of value.now)) }
{
    text.push_str(if value.is_sure {
        "both match "
    } else {
        "both may match "
    })?;
    text.push_str(value.text.as_str())
}
