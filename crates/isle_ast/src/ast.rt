//! The abstract syntax tree (AST) of ISLE.

mod clone;
pub mod laws;
mod nodes;
mod writability;

pub use isle_ast_names::{Ident, identifier};
pub use isle_ast_rules::{Expr, Extractor, IfLet, LetDef, Pattern, Rule};
pub use isle_ast_verification::{
    Arm, FieldInit, ModelField, ModelType, Modifies, Spec, SpecExpr, SpecMacro, SpecOp, State,
};
use isle_base::lexer::Pos;
use std::convert::Infallible;
pub use writability::writable;

/// A definition, the top-level form of ISLE source.
#[derive(Debug, PartialEq, Eq, Drop)]
pub enum Def {
    /// A pragma. None exists yet, so this variant has no values.
    Pragma(Pragma),
    /// A type definition, `(type ..)`.
    TypeDef(TypeDef),
    /// A rewrite rule, `(rule ..)`.
    Rule(Rule),
    /// An internal extractor, `(extractor ..)`.
    Extractor(Extractor),
    /// A term declaration, `(decl ..)`.
    Decl(Decl),
    /// Attributes of a term or a rule, `(attr ..)`.
    Attr(Attr),
    /// The specification of a term, `(spec ..)`.
    Spec(Spec),
    /// A macro of spec expressions, `(macro ..)`.
    SpecMacro(SpecMacro),
    /// A model of a type, `(model ..)`.
    Model(Model),
    /// A state of specs, `(state ..)`.
    State(State),
    /// Named signatures, `(form ..)`.
    Form(Form),
    /// The signatures of a term, `(instantiate ..)`.
    Instantiation(Instantiation),
    /// An external extractor, constructor or constant, `(extern ..)`.
    Extern(Extern),
    /// An automatic conversion between types, `(convert ..)`.
    Converter(Converter),
}

/// A pragma. None is defined, so the type has no values. Upstream has an empty enum of its own for
/// it.
pub type Pragma = Infallible;

/// A type definition. Upstream calls it `Type`, which is a reserved word in contracts.
#[derive(Debug, PartialEq, Eq, Drop)]
pub struct TypeDef {
    /// The name of the type.
    pub name: Ident,
    /// Whether the type is external.
    pub is_extern: bool,
    /// Whether the type derives no `Debug`.
    pub is_nodebug: bool,
    /// The contents of the type.
    pub ty: TypeValue,
    /// The position of the token after the keyword.
    pub pos: Pos,
}

/// The contents of a type. The position is that of the first token.
#[derive(Debug, PartialEq, Eq, Drop)]
pub enum TypeValue {
    /// A primitive type and its name.
    Primitive(Ident, Pos),
    /// An enum type and its variants.
    Enum(Vec<Variant>, Pos),
    /// A struct type and its fields.
    Struct(Fields, Pos),
}

/// A variant of an enum type.
#[derive(Debug, PartialEq, Eq, Drop)]
pub struct Variant {
    /// The name of the variant.
    pub name: Ident,
    /// Its fields.
    pub fields: Fields,
    /// The position of its first token.
    pub pos: Pos,
}

/// The fields of a variant or of a struct type.
#[derive(Debug, PartialEq, Eq, Drop)]
pub enum Fields {
    /// No fields.
    Unit,
    /// Named fields.
    Struct(StructFields),
    /// Positional fields.
    Tuple(TupleFields),
}

/// Named fields.
#[derive(Debug, PartialEq, Eq, Drop)]
pub struct StructFields {
    /// The fields, in order.
    pub fields: Vec<StructField>,
    /// The position of the first token of the first field.
    pub pos: Pos,
}

/// A named field.
#[derive(Debug, PartialEq, Eq, Drop)]
pub struct StructField {
    /// The name of the field.
    pub name: Ident,
    /// Its type.
    pub ty: Ident,
    /// The position of its first token.
    pub pos: Pos,
}

/// Positional fields.
#[derive(Debug, PartialEq, Eq, Drop)]
pub struct TupleFields {
    /// The fields, in order.
    pub fields: Vec<TupleField>,
    /// The position of the first token of the first field.
    pub pos: Pos,
}

/// A positional field.
#[derive(Debug, PartialEq, Eq, Drop)]
pub struct TupleField {
    /// The index of the field, from 0.
    pub index: usize,
    /// Its type.
    pub ty: Ident,
    /// The position of its first token.
    pub pos: Pos,
}

/// A declaration of a term, with its argument types and its return type.
#[derive(Debug, PartialEq, Eq, Drop)]
pub struct Decl {
    /// The term.
    pub term: Ident,
    /// The types of its arguments, in order.
    pub arg_tys: Vec<Ident>,
    /// The type of its result.
    pub ret_ty: Ident,
    /// Whether the term is pure.
    pub pure: bool,
    /// Whether the term is a multi-term.
    pub multi: bool,
    /// Whether the term is partial: it may have no result.
    pub partial: bool,
    /// Whether the term may be recursive.
    pub rec: bool,
    /// The position of the token after the keyword.
    pub pos: Pos,
}

/// The signatures of a term: its own, or those of a form.
#[derive(Debug, PartialEq, Eq, Drop)]
pub struct Instantiation {
    /// The term.
    pub term: Ident,
    /// The form that gives the term its signatures, if any.
    pub form: Option<Ident>,
    /// The term's signatures, if it has no form.
    pub signatures: Vec<Signature>,
    /// The tags under which the form's signatures apply.
    pub tags: Vec<Ident>,
    /// The position of the token after the keyword.
    pub pos: Pos,
}

/// Attributes of a term or a rule.
#[derive(Debug, PartialEq, Eq, Drop)]
pub struct Attr {
    /// The term or the rule.
    pub target: AttrTarget,
    /// The attributes, in order.
    pub kinds: Vec<AttrKind>,
    /// The position of the token after the keyword.
    pub pos: Pos,
}

/// The target of an attribute.
#[derive(Debug, PartialEq, Eq, Drop)]
pub enum AttrTarget {
    /// A term.
    Term(Ident),
    /// A rule.
    Rule(Ident),
}

/// An attribute.
#[derive(Debug, PartialEq, Eq, Drop)]
pub enum AttrKind {
    /// Verification chains the term, `(veri chain)`.
    Chain,
    /// Verification respects the rule's priority, `(veri priority)`.
    Priority,
    /// A tag, `(tag ..)`.
    Tag(Ident),
}

/// The contents of a model.
#[derive(Debug, PartialEq, Eq, Drop)]
pub enum ModelValue {
    /// A model of the type, `(type ..)`.
    TypeValue(ModelType),
    /// A constant, `(const ..)`.
    ConstValue(SpecExpr),
}

/// The model of a type.
#[derive(Debug, PartialEq, Eq, Drop)]
pub struct Model {
    /// The name of the type.
    pub name: Ident,
    /// The model.
    pub val: ModelValue,
}

/// The models of a term's arguments and of its result.
#[derive(Debug, PartialEq, Eq, Drop)]
pub struct Signature {
    /// The models of the arguments.
    pub args: Vec<ModelType>,
    /// The model of the result.
    pub ret: ModelType,
    /// The position of the token after its `(`.
    pub pos: Pos,
}

/// A form: named signatures.
#[derive(Debug, PartialEq, Eq, Drop)]
pub struct Form {
    /// The name of the form.
    pub name: Ident,
    /// Its signatures.
    pub signatures: Vec<Signature>,
    /// The position of the token after the keyword.
    pub pos: Pos,
}

/// An external extractor, constructor or constant.
#[derive(Debug, PartialEq, Eq, Drop)]
pub enum Extern {
    /// An external extractor: `(extern extractor Term func)`.
    Extractor {
        /// The term that it extracts.
        term: Ident,
        /// The external function.
        func: Ident,
        /// The position of the token after the keyword.
        pos: Pos,
        /// Whether it always succeeds, `infallible`.
        infallible: bool,
    },
    /// An external constructor: `(extern constructor Term func)`.
    Constructor {
        /// The term that it constructs.
        term: Ident,
        /// The external function.
        func: Ident,
        /// The position of the token after the keyword.
        pos: Pos,
    },
    /// An external constant: `(extern const $NAME type)`.
    Const {
        /// The name, without its `$`.
        name: Ident,
        ty: Ident,
        /// The position of the constant.
        pos: Pos,
    },
}

/// An automatic conversion: a term that converts values of one type to another.
#[derive(Debug, PartialEq, Eq, Drop)]
pub struct Converter {
    /// The term that converts.
    pub term: Ident,
    /// The type of the converted expression.
    pub inner_ty: Ident,
    /// The type that is expected in its place.
    pub outer_ty: Ident,
    /// The position of the token after the keyword.
    pub pos: Pos,
}
