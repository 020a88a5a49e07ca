//! The names of the kinds of findings.

ghost use Rattle.std.specs.Prelude.{◌≡◌};
ghost use Rattle.isle_check_core.specs.Kinds as Kinds;

/// Returns whether a text is the name of a kind of finding.
pub fn is_kind(text: &str) -> bool
    ensures { result ≡ Kinds.is_kind text.now }
{
    is_type_kind(text)
        || is_field_kind(text)
        || is_term_kind(text)
        || is_root_kind(text)
        || is_extractor_kind(text)
        || is_converter_kind(text)
        || is_constructor_kind(text)
        || is_external_kind(text)
        || is_rule_kind(text)
        || is_overlap_kind(text)
        || is_warning_kind(text)
}

fn is_type_kind(text: &str) -> bool
    ensures { result ≡ Kinds.is_type_kind text.now }
{
    text == "duplicate-type"
        || text == "built-in-type"
        || text == "nodebug-primitive"
        || text == "extern-primitive"
        || text == "extern-nodebug"
        || text == "duplicate-variant"
        || text == "unknown-constant-type"
}

fn is_field_kind(text: &str) -> bool
    ensures { result ≡ Kinds.is_field_kind text.now }
{
    text == "duplicate-field" || text == "unknown-field-type"
}

fn is_term_kind(text: &str) -> bool
    ensures { result ≡ Kinds.is_term_kind text.now }
{
    text == "duplicate-declaration"
        || text == "multi-partial"
        || text == "unknown-argument-type"
        || text == "unknown-result-type"
        || text == "duplicate-variant-term"
}

fn is_root_kind(text: &str) -> bool
    ensures { result ≡ Kinds.is_root_kind text.now }
{
    text == "rule-without-term" || text == "rule-for-unknown-term" || text == "rule-for-variant"
}

fn is_extractor_kind(text: &str) -> bool
    ensures { result ≡ Kinds.is_extractor_kind text.now }
{
    text == "extractor-for-unknown-term"
        || text == "unknown-term-in-extractor"
        || text == "extractor-for-variant"
        || text == "extractor-for-multi-term"
        || text == "duplicate-extractor"
        || text == "recursive-extractor"
}

fn is_converter_kind(text: &str) -> bool
    ensures { result ≡ Kinds.is_converter_kind text.now }
{
    text == "unknown-inner-type"
        || text == "unknown-outer-type"
        || text == "unknown-converter"
        || text == "duplicate-converter"
}

fn is_constructor_kind(text: &str) -> bool
    ensures { result ≡ Kinds.is_constructor_kind text.now }
{
    text == "constructor-for-unknown-term"
        || text == "constructor-for-variant"
        || text == "constructor-with-rules"
        || text == "duplicate-constructor"
}

fn is_external_kind(text: &str) -> bool
    ensures { result ≡ Kinds.is_external_kind text.now }
{
    text == "external-extractor-for-unknown-term"
        || text == "external-extractor-for-variant"
        || text == "two-extractors"
        || text == "duplicate-external-extractor"
}

fn is_rule_kind(text: &str) -> bool
    ensures { result ≡ Kinds.is_rule_kind text.now }
{
    is_value_kind(text) || is_variable_kind(text) || is_used_term_kind(text) || is_use_kind(text)
}

fn is_value_kind(text: &str) -> bool
    ensures { result ≡ Kinds.is_value_kind text.now }
{
    text == "integer-type"
        || text == "integer-without-type"
        || text == "boolean-type"
        || text == "unknown-constant"
        || text == "constant-type"
}

fn is_variable_kind(text: &str) -> bool
    ensures { result ≡ Kinds.is_variable_kind text.now }
{
    text == "rebound-variable"
        || text == "variable-type"
        || text == "unknown-variable"
        || text == "unknown-variable-type"
}

fn is_used_term_kind(text: &str) -> bool
    ensures { result ≡ Kinds.is_used_term_kind text.now }
{
    text == "unknown-term"
        || text == "term-type"
        || text == "argument-count"
        || text == "no-extractor"
        || text == "no-constructor"
        || text == "undefined-term"
}

fn is_use_kind(text: &str) -> bool
    ensures { result ≡ Kinds.is_use_kind text.now }
{
    text == "impure-term"
        || text == "multi-term"
        || text == "partial-term"
        || text == "multi-priority"
        || text == "macro-argument"
        || text == "deep-rule"
}

fn is_overlap_kind(text: &str) -> bool
    ensures { result ≡ Kinds.is_overlap_kind text.now }
{
    text == "unreachable-rule" || text == "rule-overlap" || text == "rule-shadow"
}

fn is_warning_kind(text: &str) -> bool
    ensures { result ≡ Kinds.is_warning_kind text.now }
{
    text == "duplicate-constant"
        || text == "extractor-parameters"
        || text == "dropped-pattern"
        || text == "condition-without-constructor"
        || text == "multi-extractor"
        || text == "part-of-itself"
        || text == "shadow-with-equal-values"
        || text == "endless-conversion"
}
