//! Functions that drop trees.
//!
//! Each crate that drops a tree has to prove it, node by node. Crates that call these functions
//! need not prove it again.

use isle_ast::ast::Def;

pub fn drop_definition(def: Def) {
    drop(def);
}

pub fn drop_definitions(defs: Vec<Def>) {
    drop(defs);
}
