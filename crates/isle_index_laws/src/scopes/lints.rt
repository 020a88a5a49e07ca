//! Laws of lints: what each lint finds, said by the scopes of trees that `scopes` defines.

pub mod laws;
