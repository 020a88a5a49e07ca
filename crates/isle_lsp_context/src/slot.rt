//! What stands next in a list.

/// What stands next in a list, by the keywords and the number of items before it.
#[derive(Clone, Copy)]
pub enum Slot {
    /// Anything: nothing more is known.
    Any,
    /// The keyword of a definition.
    Definition,
    /// A flag, the name or the parameters of a `decl`.
    Declaration,
    /// A type, and more types.
    Type,
    /// The name, a modifier or the value of a `type`.
    TypeDefinition,
    /// The keyword of the value of a `type`.
    TypeValue,
    /// A variant of an `enum`.
    Variant,
    /// The name of a variant with fields.
    VariantName,
    /// A field of a variant or of a `struct`.
    Field,
    /// The name of a field.
    FieldName,
    /// The type from which a `convert` leads.
    FromType,
    /// The type to which a `convert` leads.
    ToType,
    /// A term.
    Term,
    /// The keyword of an `extern`.
    Extern,
    /// The flag or the term of an `extern extractor`.
    ExternExtractor,
    /// The constant of an `extern const`.
    ExternConstant,
    /// The name, the priority or the pattern of a `rule`.
    Rule,
    /// A condition or the expression of a `rule`.
    RuleBody,
    /// What a condition or the expression of a `rule` begins with.
    RuleBodyHead,
    /// The head of an `extractor`.
    Extractor,
    /// The term of an `extractor`.
    ExtractorTerm,
    /// What a pattern begins with.
    PatternHead,
    /// A pattern, and more patterns.
    Pattern,
    /// What an expression begins with.
    ExpressionHead,
    /// An expression, and more expressions.
    Expression,
    /// The definitions of a `let`.
    Let,
    /// A definition of a `let`.
    LetDefinition,
    /// The variable that a `let` defines.
    LetVariable,
    /// The type of that variable.
    LetType,
    /// The pattern of an `if-let`.
    IfLet,
}
