//! Errors of definitions.

ghost use Rattle.std.specs.Prelude.{◌≡◌, ◌∷◌, ◌++◌, [], OnOk};
ghost use Rattle.isle_check_declarations.specs.Faults.{fault};
ghost use Rattle.isle_check_declarations.specs.Views.{faults_of, kind_of};

use isle_ast::ast::Ident;
use isle_base::lexer::Pos;
use std::alloc::AllocError;

/// An error of a definition.
#[derive(Clone, Copy)]
pub struct Fault<'a> {
    /// What is wrong.
    pub kind: Kind<'a>,
    /// The position that the error is reported at.
    pub pos: Pos,
}

/// What is wrong in a definition.
#[derive(Clone, Copy)]
pub enum Kind<'a> {
    /// A type has the name of an earlier type or of a built-in type.
    TypeAgain(&'a Ident),
    /// A type has the name of a built-in type. It comes after a `TypeAgain`.
    TypeBuiltIn(&'a Ident),
    /// A primitive type is marked `nodebug`.
    PrimitiveNodebug,
    /// A primitive type is marked `extern`.
    PrimitiveExtern,
    /// A type is marked both `extern` and `nodebug`.
    ExternNodebug,
    /// A variant has the name of an earlier variant of its type.
    VariantAgain(&'a Ident),
    /// A field has the name of an earlier field of its variant.
    FieldAgain {
        /// The field.
        field: &'a Ident,
        /// The variant, or the struct type.
        variant: &'a Ident,
    },
    /// A named field has a type that is not known. The position is that of the type.
    FieldTypeUnknown {
        /// The type.
        ty: &'a Ident,
        /// The field.
        field: &'a Ident,
        /// The variant, or the struct type.
        variant: &'a Ident,
    },
    /// A positional field has a type that is not known. The position is that of the type.
    IndexTypeUnknown {
        /// The type.
        ty: &'a Ident,
        /// The index of the field, from 0.
        index: usize,
        /// The variant, or the struct type.
        variant: &'a Ident,
    },
    /// The type of a constant is not known.
    ConstantTypeUnknown,
    /// A term is declared twice. One error is reported at each of the two declarations.
    TermAgain(&'a Ident),
    /// A term is declared both multi and partial.
    MultiAndPartial(&'a Ident),
    /// An argument of a term has a type that is not known. The position is that of the type.
    ArgumentTypeUnknown(&'a Ident),
    /// The result of a term has a type that is not known. The position is that of the type.
    ResultTypeUnknown(&'a Ident),
    /// The name of a variant as a term is taken. The position is that of its type.
    VariantTaken {
        /// The type.
        ty: &'a Ident,
        /// The variant.
        variant: &'a Ident,
    },
    /// The left side of a rule is not a term.
    RootNoTerm,
    /// The term that a rule defines is not known.
    RootUnknown(&'a Ident),
    /// The term that a rule defines is a variant.
    RootVariant(&'a Ident),
    /// An internal extractor is that of a term that is not known. Later extractors are not checked.
    ExtractorUnknown(&'a Ident),
    /// The template of an internal extractor has a term that is not known. The position is that of
    /// the pattern.
    TemplateUnknown {
        /// The term in the template.
        term: &'a Ident,
        /// The term of the extractor.
        extractor: &'a Ident,
    },
    /// An internal extractor is that of a variant.
    ExtractorVariant(&'a Ident),
    /// An internal extractor is that of a term that is declared multi.
    ExtractorMulti(&'a Ident),
    /// A term has a second internal extractor.
    ExtractorAgain(&'a Ident),
    /// The template of the first one. It comes after an `ExtractorAgain`.
    ExtractorBefore(&'a Ident),
    /// The inner type of a converter is not known. The position is that of the type.
    InnerTypeUnknown(&'a Ident),
    /// The outer type of a converter is not known. The position is that of the type.
    OuterTypeUnknown(&'a Ident),
    /// The term of a converter is not known. The position is that of the term.
    ConverterUnknown(&'a Ident),
    /// A pair of types has a second converter.
    ConverterAgain {
        /// The inner type.
        inner: &'a Ident,
        /// The outer type.
        outer: &'a Ident,
    },
    /// An external constructor is that of a term that is not known.
    ConstructorUnknown(&'a Ident),
    /// An external constructor is that of a variant.
    ConstructorVariant(&'a Ident),
    /// An external constructor is that of a term that has rules.
    ConstructorRuled(&'a Ident),
    /// A term has a second external constructor.
    ConstructorAgain(&'a Ident),
    /// An external extractor is that of a term that is not known.
    ExternalUnknown(&'a Ident),
    /// An external extractor is that of a variant.
    ExternalVariant(&'a Ident),
    /// An external extractor is that of a term that has an internal one.
    ExternalInternal(&'a Ident),
    /// The template of the internal one. It comes after an `ExternalInternal`.
    InternalBefore(&'a Ident),
    /// A term has a second external extractor.
    ExternalAgain(&'a Ident),
    /// The first one. It comes after an `ExternalAgain`.
    ExternalBefore(&'a Ident),
}

/// Adds an error. An `Err` means out of memory.
pub fn add_fault<'a>(kind: Kind<'a>, pos: Pos, found: &mut Vec<Fault<'a>>) -> Result<(), AllocError>
    ensures { OnOk result (faults_of found.new.items
        ≡ faults_of found.old.items ++ fault (kind_of kind.entry) pos ∷ []) }
{
    found.push(Fault { kind, pos })?;
    Ok(())
}
