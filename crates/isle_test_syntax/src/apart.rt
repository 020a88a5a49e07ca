//! Comparisons of nodes with their copies and with other nodes.

use isle_syntax::ast::{Def, SpecExpr};
use isle_test_nodes::answer::{Answer, is_copied};
use isle_test_nodes::trees::{drop_tree, parsed};
use std::alloc::Global;

/// Returns whether each node is equal to its copy and to no other node.
fn are_apart<T: Clone + PartialEq + Drop>(nodes: &[T], out: &mut Answer) -> bool {
    let mut are_apart = true;
    for (i, one) in nodes.iter().enumerate() {
        are_apart &= is_copied(one, out);
        for (j, other) in nodes.iter().enumerate() {
            are_apart &= (one == other) == (i == j);
        }
    }
    are_apart
}

/// Adds whether each definition is equal to its copy and to no other definition.
pub fn put_definitions_apart(defs: &[Def], out: &mut Answer) {
    let are_apart = are_apart(defs, out);
    out.show_ok(&are_apart);
}

/// Returns the same for the items of the lists in a spec expression.
fn lists_are_apart(spec: &SpecExpr, out: &mut Answer) -> bool {
    match spec {
        SpecExpr::Match { arms, .. } => are_apart(arms, out),
        SpecExpr::Struct { fields, .. } => are_apart(fields, out),
        SpecExpr::Op { args, .. } => are_apart(args, out),
        _ => true,
    }
}

/// Returns the same for spec expressions, and for the items of their lists.
fn expressions_are_apart(exprs: &[SpecExpr], out: &mut Answer) -> bool {
    let mut are_all = are_apart(exprs, out);
    for expr in exprs {
        are_all &= lists_are_apart(expr, out);
    }
    are_all
}

/// Adds the same for the spec expressions of each spec.
pub fn put_specs_apart(defs: &[Def], out: &mut Answer) {
    let mut are_all = true;
    for def in defs {
        if let Def::Spec(spec) = def {
            are_all &= expressions_are_apart(&spec.provides, out);
        }
    }
    out.show_ok(&are_all);
}

/// Returns whether definitions differ from those of a text in a file.
pub fn differ_from(alloc: Global, defs: &Vec<Def>, file: usize, text: &str) -> bool {
    let others = parsed(alloc, file, text);
    let differ = matches!(&others, Ok(others) if others != defs);
    drop_tree(others);
    differ
}
