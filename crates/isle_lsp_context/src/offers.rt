//! The names and keywords that may stand in a slot.

ghost use Rattle.std.specs.Prelude.{◌≡◌, map};
ghost use Rattle.isle_lsp_context.specs.Offers.{keywords_of, names_of};

use crate::slot::Slot;

/// Which kinds of names may stand somewhere.
#[derive(Clone, Copy)]
pub enum Names {
    /// Those of every kind.
    All,
    /// None.
    Nothing,
    /// Types.
    Types,
    /// Terms, and the variants of enums.
    Terms,
    /// All but types.
    Values,
}

/// The kinds of names that may stand in a slot. Where a new name is defined it is all of them.
pub fn names_of(slot: Slot) -> Names
    ensures { result ≡ names_of slot }
{
    match slot {
        Slot::Definition | Slot::TypeValue | Slot::Extern => Names::Nothing,
        Slot::Type | Slot::Field | Slot::FromType | Slot::ToType | Slot::LetType => Names::Types,
        Slot::Term
        | Slot::ExternExtractor
        | Slot::RuleBodyHead
        | Slot::ExtractorTerm
        | Slot::PatternHead
        | Slot::ExpressionHead => Names::Terms,
        Slot::Rule | Slot::RuleBody | Slot::Pattern | Slot::Expression | Slot::IfLet => {
            Names::Values
        }
        Slot::Any
        | Slot::Declaration
        | Slot::TypeDefinition
        | Slot::Variant
        | Slot::VariantName
        | Slot::FieldName
        | Slot::ExternConstant
        | Slot::Extractor
        | Slot::Let
        | Slot::LetDefinition
        | Slot::LetVariable => Names::All,
    }
}

/// The keywords that may stand in a slot. There are none where a name of any kind may stand.
pub fn keywords_of(slot: Slot) -> &'static [&'static str]
    ensures { map (λ word. word.now) result.now ≡ keywords_of slot }
{
    match slot {
        Slot::Definition => &[
            "attr",
            "convert",
            "decl",
            "extern",
            "extractor",
            "form",
            "instantiate",
            "macro",
            "model",
            "rule",
            "spec",
            "state",
            "type",
        ],
        Slot::TypeValue => &["enum", "primitive", "struct"],
        Slot::Extern => &["const", "constructor", "extractor"],
        Slot::ExternExtractor => &["infallible"],
        Slot::PatternHead => &["and"],
        Slot::ExpressionHead => &["let"],
        Slot::RuleBodyHead => &["if", "if-let", "let"],
        _ => &[],
    }
}
