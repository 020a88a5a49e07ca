//! What stands next in a list, after each item of it.

ghost use Rattle.std.specs.Prelude.{◌≡◌};
ghost use Rattle.isle_lsp_context.specs.Steps.{behind_at, behind_body, behind_definition};
ghost use Rattle.isle_lsp_context.specs.Steps.{behind_expression, behind_extern};
ghost use Rattle.isle_lsp_context.specs.Steps.{behind_extractor, behind_integer, behind_list};
ghost use Rattle.isle_lsp_context.specs.Steps.{behind_symbol, behind_value, inner};

use crate::slot::Slot;

/// What a list begins with that stands in a slot of another list.
pub fn inner(slot: Slot) -> Slot
    ensures { result ≡ inner slot }
{
    match slot {
        Slot::Declaration => Slot::Type,
        Slot::TypeDefinition => Slot::TypeValue,
        Slot::Variant => Slot::VariantName,
        Slot::Field => Slot::FieldName,
        Slot::Rule | Slot::Pattern | Slot::IfLet => Slot::PatternHead,
        Slot::RuleBody => Slot::RuleBodyHead,
        Slot::Extractor => Slot::ExtractorTerm,
        Slot::Expression => Slot::ExpressionHead,
        Slot::Let => Slot::LetDefinition,
        Slot::LetDefinition => Slot::LetVariable,
        _ => Slot::Any,
    }
}

/// What stands next in a list behind a symbol.
pub fn behind_symbol(symbol: &str, slot: Slot) -> Slot
    ensures { result ≡ behind_symbol symbol.now slot }
{
    match slot {
        Slot::Definition => behind_definition(symbol),
        Slot::TypeValue => behind_value(symbol),
        Slot::Extern => behind_extern(symbol),
        Slot::ExternExtractor => behind_extractor(symbol),
        Slot::RuleBodyHead => behind_body(symbol),
        Slot::ExpressionHead => behind_expression(symbol),
        Slot::VariantName => Slot::Field,
        Slot::FieldName | Slot::ExternConstant => Slot::Type,
        Slot::FromType => Slot::ToType,
        Slot::ToType => Slot::Term,
        Slot::Term => Slot::Any,
        Slot::ExtractorTerm | Slot::PatternHead => Slot::Pattern,
        Slot::LetVariable => Slot::LetType,
        Slot::LetType | Slot::IfLet => Slot::Expression,
        _ => slot,
    }
}

/// What stands next in a definition that begins with a symbol.
fn behind_definition(symbol: &str) -> Slot
    ensures { result ≡ behind_definition symbol.now }
{
    match symbol {
        "decl" => Slot::Declaration,
        "type" => Slot::TypeDefinition,
        "rule" => Slot::Rule,
        "extractor" => Slot::Extractor,
        "extern" => Slot::Extern,
        "convert" => Slot::FromType,
        _ => Slot::Any,
    }
}

/// What stands next in the value of a type.
fn behind_value(symbol: &str) -> Slot
    ensures { result ≡ behind_value symbol.now }
{
    match symbol {
        "enum" => Slot::Variant,
        "struct" => Slot::Field,
        _ => Slot::Any,
    }
}

/// What stands next in an `extern`.
fn behind_extern(symbol: &str) -> Slot
    ensures { result ≡ behind_extern symbol.now }
{
    match symbol {
        "constructor" => Slot::Term,
        "extractor" => Slot::ExternExtractor,
        "const" => Slot::ExternConstant,
        _ => Slot::Any,
    }
}

/// What stands next in an `extern extractor`.
fn behind_extractor(symbol: &str) -> Slot
    ensures { result ≡ behind_extractor symbol.now }
{
    match symbol {
        "infallible" => Slot::Term,
        _ => Slot::Any,
    }
}

/// What stands next in an expression.
fn behind_expression(symbol: &str) -> Slot
    ensures { result ≡ behind_expression symbol.now }
{
    match symbol {
        "let" => Slot::Let,
        _ => Slot::Expression,
    }
}

/// What stands next in a condition or the expression of a rule.
fn behind_body(symbol: &str) -> Slot
    ensures { result ≡ behind_body symbol.now }
{
    match symbol {
        "if-let" => Slot::IfLet,
        _ => behind_expression(symbol),
    }
}

/// What stands next in a list behind a list in it.
pub fn behind_list(slot: Slot) -> Slot
    ensures { result ≡ behind_list slot }
{
    match slot {
        Slot::Declaration => Slot::Type,
        Slot::Rule => Slot::RuleBody,
        Slot::Extractor => Slot::Pattern,
        Slot::Let | Slot::IfLet => Slot::Expression,
        _ => slot,
    }
}

/// What stands next in a list behind an integer.
pub fn behind_integer(slot: Slot) -> Slot
    ensures { result ≡ behind_integer slot }
{
    match slot {
        Slot::IfLet => Slot::Expression,
        _ => slot,
    }
}

/// What stands next in a list behind an `@`.
pub fn behind_at(slot: Slot) -> Slot
    ensures { result ≡ behind_at slot }
{
    match slot {
        Slot::Expression => Slot::IfLet,
        _ => slot,
    }
}
