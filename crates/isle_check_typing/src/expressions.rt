//! The types of expressions: the typed expression of an expression, the numbers of its variables
//! and its errors, as upstream reports them.

mod expressions;
mod flags;
pub mod laws;
mod leaves;
mod parts;
mod tells;
mod typed;
mod uses;

pub use expressions::type_expression;
pub use flags::Flags;
pub use typed::{TypedExpression, TypedLet};
