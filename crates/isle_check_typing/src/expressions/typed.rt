//! Typed expressions.

ghost use Rattle.std.specs.Prelude.{◌≡◌};
ghost use Rattle.isle_check_typing.specs.expressions.TypedExpressions.{type_of_expression};
ghost use Rattle.isle_check_typing.specs.expressions.TypedView.{typed_expression_of};

/// An expression in which conversions are written out, with the type of each part. The environment
/// of the program holds all names. A variable is its number among the variables of its rule, in
/// the order in which they are bound, from 0.
#[cycle(typed_expression)]
#[derive(Drop)]
pub enum TypedExpression<'e> {
    /// A variable.
    Var {
        variable: usize,
        ty: &'e str,
    },
    /// `true` or `false`.
    Bool {
        val: bool,
    },
    /// An integer.
    Int {
        val: i128,
        ty: &'e str,
    },
    /// A constant.
    Const {
        name: &'e str,
        ty: &'e str,
    },
    /// A term with its arguments.
    Term {
        term: &'e str,
        ty: &'e str,
        args: Vec<TypedExpression<'e>>,
    },
    /// An expression with variables of its own.
    Let {
        ty: &'e str,
        defs: Vec<TypedLet<'e>>,
        body: Box<TypedExpression<'e>>,
    },
}

/// A variable of a `let`, and its value.
#[cycle(typed_expression)]
#[derive(Drop)]
pub struct TypedLet<'e> {
    /// The number of the variable.
    pub variable: usize,
    /// Its value.
    pub val: Box<TypedExpression<'e>>,
}

impl<'e> TypedExpression<'e> {
    /// Returns the type of a typed expression.
    pub fn ty(&self) -> &'e str
        ensures { result.now ≡ type_of_expression (typed_expression_of self.now) }
    {
        match self {
            TypedExpression::Var { ty, .. } => ty,
            TypedExpression::Bool { .. } => "bool",
            TypedExpression::Int { ty, .. } => ty,
            TypedExpression::Const { ty, .. } => ty,
            TypedExpression::Term { ty, .. } => ty,
            TypedExpression::Let { ty, .. } => ty,
        }
    }
}
