//! The words of errors of declarations.

ghost use Rattle.std.specs.Prelude.{◌≡◌, IfOk, option_map};
ghost use Rattle.isle_check_messages.specs.DeclarationWords.{constructor_words, converter_words};
ghost use Rattle.isle_check_messages.specs.DeclarationWords.{declaration_words, external_words};
ghost use Rattle.isle_check_messages.specs.DeclarationWords.{extractor_words, field_words};
ghost use Rattle.isle_check_messages.specs.DeclarationWords.{root_words, term_words, type_words};
ghost use Rattle.isle_check_messages.specs.Words.{words_of};
ghost use Rattle.isle_check_declarations.specs.Views.{kind_of};

use crate::words::{Words, about, about_three, about_two, no_words, plain};
use isle_check_declarations::Kind;
use std::alloc::{AllocError, Global};

/// Returns the words of an error of a declaration. An `Err` means out of memory.
pub fn declaration_words(alloc: Global, kind: &Kind) -> Result<Words, AllocError>
    ensures { IfOk result (λ made. words_of made ≡ declaration_words (kind_of kind.now)) }
{
    if let Some(made) = type_words(alloc, kind)? {
        return Ok(made);
    }
    if let Some(made) = field_words(alloc, kind)? {
        return Ok(made);
    }
    if let Some(made) = term_words(alloc, kind)? {
        return Ok(made);
    }
    if let Some(made) = root_words(alloc, kind)? {
        return Ok(made);
    }
    if let Some(made) = extractor_words(alloc, kind)? {
        return Ok(made);
    }
    if let Some(made) = converter_words(alloc, kind)? {
        return Ok(made);
    }
    if let Some(made) = constructor_words(alloc, kind)? {
        return Ok(made);
    }
    if let Some(made) = external_words(alloc, kind)? {
        return Ok(made);
    }
    Ok(no_words(alloc))
}

fn type_words(alloc: Global, kind: &Kind) -> Result<Option<Words>, AllocError>
    ensures { IfOk result
        (λ made. option_map words_of made ≡ type_words (kind_of kind.now)) }
{
    let made = match kind {
        Kind::TypeAgain(name) => about(
            alloc,
            "duplicate-type",
            "Type with name '",
            name.0.as_str(),
            "' defined more than once",
        )?,
        Kind::TypeBuiltIn(name) => about(
            alloc,
            "built-in-type",
            "Type with name '",
            name.0.as_str(),
            "' is a built-in type",
        )?,
        Kind::PrimitiveNodebug => plain(
            alloc,
            "nodebug-primitive",
            "primitive types cannot be marked `nodebug`",
        )?,
        Kind::PrimitiveExtern => plain(
            alloc,
            "extern-primitive",
            "primitive types cannot be marked `extern`",
        )?,
        Kind::ExternNodebug => plain(
            alloc,
            "extern-nodebug",
            "external types cannot be marked `nodebug`",
        )?,
        Kind::VariantAgain(name) => about(
            alloc,
            "duplicate-variant",
            "Duplicate variant name in type: '",
            name.0.as_str(),
            "'",
        )?,
        Kind::ConstantTypeUnknown => plain(
            alloc,
            "unknown-constant-type",
            "Unknown type for constant",
        )?,
        _ => return Ok(None),
    };
    Ok(Some(made))
}

fn field_words(alloc: Global, kind: &Kind) -> Result<Option<Words>, AllocError>
    ensures { IfOk result
        (λ made. option_map words_of made ≡ field_words (kind_of kind.now)) }
{
    let made = match kind {
        Kind::FieldAgain { field, variant } => about_two(
            alloc,
            "duplicate-field",
            "Duplicate field name '",
            field.0.as_str(),
            "' in variant '",
            variant.0.as_str(),
            "' of type",
        )?,
        Kind::FieldTypeUnknown { ty, field, variant } => about_three(
            alloc,
            "unknown-field-type",
            "Unknown type '",
            ty.0.as_str(),
            "' for field '",
            field.0.as_str(),
            "' in variant '",
            variant.0.as_str(),
            "'",
        )?,
        Kind::IndexTypeUnknown { ty, index, variant } => {
            let index = format!(in alloc; "{index}")?;
            about_three(
                alloc,
                "unknown-field-type",
                "Unknown type '",
                ty.0.as_str(),
                "' for field '",
                index.as_str(),
                "' in variant '",
                variant.0.as_str(),
                "'",
            )?
        }
        _ => return Ok(None),
    };
    Ok(Some(made))
}

fn term_words(alloc: Global, kind: &Kind) -> Result<Option<Words>, AllocError>
    ensures { IfOk result
        (λ made. option_map words_of made ≡ term_words (kind_of kind.now)) }
{
    let made = match kind {
        Kind::TermAgain(name) => about(
            alloc,
            "duplicate-declaration",
            "Duplicate decl for '",
            name.0.as_str(),
            "'",
        )?,
        Kind::MultiAndPartial(name) => about(
            alloc,
            "multi-partial",
            "Term '",
            name.0.as_str(),
            "' can't be both multi and partial",
        )?,
        Kind::ArgumentTypeUnknown(name) => about(
            alloc,
            "unknown-argument-type",
            "Unknown arg type: '",
            name.0.as_str(),
            "'",
        )?,
        Kind::ResultTypeUnknown(name) => about(
            alloc,
            "unknown-result-type",
            "Unknown return type: '",
            name.0.as_str(),
            "'",
        )?,
        Kind::VariantTaken { ty, variant } => about_two(
            alloc,
            "duplicate-variant-term",
            "Duplicate enum variant constructor: '",
            ty.0.as_str(),
            ".",
            variant.0.as_str(),
            "'",
        )?,
        _ => return Ok(None),
    };
    Ok(Some(made))
}

fn root_words(alloc: Global, kind: &Kind) -> Result<Option<Words>, AllocError>
    ensures { IfOk result
        (λ made. option_map words_of made ≡ root_words (kind_of kind.now)) }
{
    let made = match kind {
        Kind::RootNoTerm => plain(
            alloc,
            "rule-without-term",
            "Rule does not have a term at the LHS root",
        )?,
        Kind::RootUnknown(_) => plain(
            alloc,
            "rule-for-unknown-term",
            "Rule LHS root term is not defined",
        )?,
        Kind::RootVariant(_) => plain(
            alloc,
            "rule-for-variant",
            "Rule LHS root term is incorrect kind; cannot be enum variant",
        )?,
        _ => return Ok(None),
    };
    Ok(Some(made))
}

fn extractor_words(alloc: Global, kind: &Kind) -> Result<Option<Words>, AllocError>
    ensures { IfOk result
        (λ made. option_map words_of made ≡ extractor_words (kind_of kind.now)) }
{
    let made = match kind {
        Kind::ExtractorUnknown(_) => plain(
            alloc,
            "extractor-for-unknown-term",
            "Extractor macro body definition on a non-existent term",
        )?,
        Kind::TemplateUnknown { term, extractor } => about_two(
            alloc,
            "unknown-term-in-extractor",
            "`",
            extractor.0.as_str(),
            "` extractor definition references unknown term `",
            term.0.as_str(),
            "`",
        )?,
        Kind::ExtractorVariant(_) => plain(
            alloc,
            "extractor-for-variant",
            "Extractor macro body defined on term of incorrect kind; cannot be an \
             enum variant",
        )?,
        Kind::ExtractorMulti(_) => plain(
            alloc,
            "extractor-for-multi-term",
            "A term declared with `multi` cannot have an internal extractor.",
        )?,
        Kind::ExtractorAgain(_) => plain(
            alloc,
            "duplicate-extractor",
            "Duplicate extractor definition",
        )?,
        Kind::ExtractorBefore(_) => plain(
            alloc,
            "duplicate-extractor",
            "Extractor was already defined here",
        )?,
        _ => return Ok(None),
    };
    Ok(Some(made))
}

fn converter_words(alloc: Global, kind: &Kind) -> Result<Option<Words>, AllocError>
    ensures { IfOk result
        (λ made. option_map words_of made ≡ converter_words (kind_of kind.now)) }
{
    let made = match kind {
        Kind::InnerTypeUnknown(name) => about(
            alloc,
            "unknown-inner-type",
            "Unknown inner type for converter: '",
            name.0.as_str(),
            "'",
        )?,
        Kind::OuterTypeUnknown(name) => about(
            alloc,
            "unknown-outer-type",
            "Unknown outer type for converter: '",
            name.0.as_str(),
            "'",
        )?,
        Kind::ConverterUnknown(name) => about(
            alloc,
            "unknown-converter",
            "Unknown term for converter: '",
            name.0.as_str(),
            "'",
        )?,
        Kind::ConverterAgain { inner, outer } => about_two(
            alloc,
            "duplicate-converter",
            "Converter already exists for this type pair: '",
            inner.0.as_str(),
            "', '",
            outer.0.as_str(),
            "'",
        )?,
        _ => return Ok(None),
    };
    Ok(Some(made))
}

fn constructor_words(alloc: Global, kind: &Kind) -> Result<Option<Words>, AllocError>
    ensures { IfOk result
        (λ made. option_map words_of made ≡ constructor_words (kind_of kind.now)) }
{
    let made = match kind {
        Kind::ConstructorUnknown(name) => about(
            alloc,
            "constructor-for-unknown-term",
            "Constructor declared on undefined term '",
            name.0.as_str(),
            "'",
        )?,
        Kind::ConstructorVariant(name) => about(
            alloc,
            "constructor-for-variant",
            "External constructor cannot be defined on enum variant: ",
            name.0.as_str(),
            "",
        )?,
        Kind::ConstructorRuled(name) => about(
            alloc,
            "constructor-with-rules",
            "External constructor declared on term that already has rules: ",
            name.0.as_str(),
            "",
        )?,
        Kind::ConstructorAgain(_) => plain(
            alloc,
            "duplicate-constructor",
            "Duplicate external constructor definition",
        )?,
        _ => return Ok(None),
    };
    Ok(Some(made))
}

fn external_words(alloc: Global, kind: &Kind) -> Result<Option<Words>, AllocError>
    ensures { IfOk result
        (λ made. option_map words_of made ≡ external_words (kind_of kind.now)) }
{
    let made = match kind {
        Kind::ExternalUnknown(name) => about(
            alloc,
            "external-extractor-for-unknown-term",
            "Extractor declared on undefined term '",
            name.0.as_str(),
            "'",
        )?,
        Kind::ExternalVariant(name) => about(
            alloc,
            "external-extractor-for-variant",
            "Cannot define extractor for enum variant '",
            name.0.as_str(),
            "'",
        )?,
        Kind::ExternalInternal(_) => plain(
            alloc,
            "two-extractors",
            "Cannot define external extractor for term that already has an \
             internal extractor macro body defined",
        )?,
        Kind::InternalBefore(_) => plain(
            alloc,
            "two-extractors",
            "Internal extractor macro body already defined",
        )?,
        Kind::ExternalAgain(_) => plain(
            alloc,
            "duplicate-external-extractor",
            "Duplicate external extractor definition",
        )?,
        Kind::ExternalBefore(_) => plain(
            alloc,
            "duplicate-external-extractor",
            "External extractor already defined",
        )?,
        _ => return Ok(None),
    };
    Ok(Some(made))
}
