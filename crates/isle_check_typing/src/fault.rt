//! Errors of rules.

use isle_base::lexer::Pos;

/// An error of a rule.
#[derive(Drop)]
pub struct Fault {
    /// What is wrong.
    pub kind: Kind,
    /// The position that the error is reported at.
    pub pos: Pos,
}

/// What is wrong in a rule.
#[derive(Drop)]
pub enum Kind {
    /// An integer stands for a value of a type that has no integers.
    IntegerType {
        /// The integer.
        val: i128,
        /// The type.
        ty: String,
    },
    /// `true` or `false` stands for a value of a type that is not `bool`.
    BoolType {
        /// Whether it is `true`.
        val: bool,
        /// The type.
        ty: String,
    },
    /// A constant is not known.
    ConstantUnknown(String),
    /// A constant stands in a pattern for a value of another type.
    ConstantType {
        /// The type that is wanted.
        expected: String,
        /// The type of the constant.
        found: String,
    },
    /// The variable of `x @ ..` is bound already.
    VariableBound(String),
    /// A variable that is bound already stands in a pattern for a value of another type.
    VariableType {
        /// The variable.
        name: String,
        /// The type that is wanted.
        expected: String,
        /// The type of the variable.
        found: String,
    },
    /// A term in a pattern is not known.
    TermUnknown(String),
    /// A term stands in a pattern for a value of another type, and no converter of the two types
    /// can be used.
    TermType {
        /// The type that is wanted.
        expected: String,
        /// The type of the term's result.
        found: String,
    },
    /// A term has another number of arguments than are declared.
    ArgumentCount {
        /// The term.
        term: String,
        /// The number of its arguments.
        given: usize,
        /// The number of arguments that are declared.
        expected: usize,
    },
    /// A term in a pattern has no extractor.
    NoExtractor(String),
    /// The internal extractor of a term has more parameters than arguments are declared.
    ParameterWithoutArgument(String),
    /// A macro argument stands outside a template. No text has one.
    MacroArgument,
    /// An integer stands in an expression for a value of any type.
    IntegerWithoutType,
    /// A constant stands in an expression for a value of another type.
    ExpressionConstantType {
        /// The constant.
        name: String,
        /// The type that is wanted.
        expected: String,
        /// The type of the constant.
        found: String,
    },
    /// A variable is not known.
    VariableUnknown(String),
    /// A variable stands in an expression for a value of another type, and no converter of the two
    /// types can be used.
    ExpressionVariableType {
        /// The variable.
        name: String,
        /// The type that is wanted.
        expected: String,
        /// The type of the variable.
        found: String,
    },
    /// The type of a variable of a `let` is not known.
    LetTypeUnknown {
        /// The variable.
        name: String,
        /// The type.
        ty: String,
    },
    /// A term in an expression is not known.
    ExpressionTermUnknown {
        /// The term.
        term: String,
        /// Whether a variable of its name is known.
        is_variable: bool,
    },
    /// A term stands in an expression for a value of another type, and no converter of the two
    /// types can be used.
    ExpressionTermType {
        /// The type that is wanted.
        expected: String,
        /// The type of the term's result.
        found: String,
    },
    /// A term that is not pure stands in an expression that must be pure.
    ImpureTerm(String),
    /// A multi term stands in an expression of a rule whose term is not multi.
    MultiTerm(String),
    /// A partial term stands in an expression that must not be partial.
    PartialTerm {
        /// The term.
        term: String,
        /// Whether the rule's term is multi.
        is_multi: bool,
    },
    /// A rule of a multi term has a priority.
    PriorityInMulti,
    /// A term is declared, but has no rules, no extractor and no external definition.
    TermUndefined(String),
    /// A term in an expression has no constructor.
    NoConstructor(String),
}
