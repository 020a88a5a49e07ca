//! The part of ISLE's syntax tree for verification: models of types, spec expressions with their
//! operators, and the definitions made of them. `isle_ast` re-exports these types under its own
//! paths.
#![tactic(auto)]

mod clone;
mod compare;
mod nodes;
mod spec;
pub mod writability;

use isle_ast_names::Ident;
pub use spec::{Arm, FieldInit, Modifies, Spec, SpecExpr, SpecMacro, SpecOp, State};

/// A model of a type, for verification.
#[cycle(model)]
#[derive(Debug, Drop)]
pub enum ModelType {
    /// Not specified, `!`.
    Unspecified,
    /// Inferred, `_`.
    Auto,
    /// Mathematical integers.
    Int,
    /// Booleans.
    Bool,
    /// The unit type, which has one value.
    Unit,
    /// Bit vectors, and their width in bits if it is known.
    BitVec(Option<usize>),
    /// Structs with these fields.
    Struct(Vec<ModelField>),
    /// A named model.
    Named(Ident),
}

/// A field of a struct model.
#[cycle(model)]
#[derive(Debug, Drop)]
pub struct ModelField {
    /// The name of the field.
    pub name: Ident,
    /// The model of its type.
    pub ty: ModelType,
}
