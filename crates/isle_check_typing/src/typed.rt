//! Typed patterns.

ghost use Rattle.std.specs.Prelude.{◌≡◌};
ghost use Rattle.isle_check_typing.specs.Typed.{type_of};
ghost use Rattle.isle_check_typing.specs.TypedView.{typed_of};

/// A pattern in which templates are filled and conversions are written out, with the type of each
/// part. The environment of the program holds all names. A variable is its number among the
/// variables of its rule, in the order in which they are bound, from 0.
#[cycle(typed)]
#[derive(Drop)]
pub enum TypedPattern<'e> {
    /// A variable that is bound to the value that a pattern matches.
    Bind {
        variable: usize,
        ty: &'e str,
        subpat: Box<TypedPattern<'e>>,
    },
    /// A variable that is bound before: the value must be the same.
    Var {
        variable: usize,
        ty: &'e str,
    },
    /// `true` or `false`.
    Bool {
        val: bool,
    },
    /// An integer.
    Int {
        val: i128,
        ty: &'e str,
    },
    /// A constant.
    Const {
        name: &'e str,
        ty: &'e str,
    },
    /// A term that matches by an external extractor, or a variant.
    Term {
        term: &'e str,
        ty: &'e str,
        args: Vec<TypedPattern<'e>>,
    },
    /// The wildcard.
    Wildcard {
        ty: &'e str,
    },
    /// Patterns that must all match.
    And {
        ty: &'e str,
        subpats: Vec<TypedPattern<'e>>,
    },
}

impl<'e> TypedPattern<'e> {
    /// Returns the type of a typed pattern.
    pub fn ty(&self) -> &'e str
        ensures { result.now ≡ type_of (typed_of self.now) }
    {
        match self {
            TypedPattern::Bind { ty, .. } => ty,
            TypedPattern::Var { ty, .. } => ty,
            TypedPattern::Bool { .. } => "bool",
            TypedPattern::Int { ty, .. } => ty,
            TypedPattern::Const { ty, .. } => ty,
            TypedPattern::Term { ty, .. } => ty,
            TypedPattern::Wildcard { ty } => ty,
            TypedPattern::And { ty, .. } => ty,
        }
    }
}
