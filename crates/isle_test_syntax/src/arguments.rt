//! What is asked of nodes that hold the argument of a macro.

use isle_syntax::ast::Def;
use isle_syntax::printer::{PrintFault, ToSExpr, print_node};
use isle_test_nodes::answer::Answer;
use std::alloc::Global;

/// Returns whether the printer rejects a node for the argument of a macro.
fn is_refused<N: ToSExpr>(alloc: Global, node: &N) -> bool {
    matches!(node.to_sexpr(alloc), Err(PrintFault::MacroArg))
        && matches!(print_node(alloc, node, 78), Err(PrintFault::MacroArg))
}

/// Adds whether the argument is found in a node, and whether the printer rejects the node for it.
fn put_node<N: ToSExpr>(alloc: Global, is_found: bool, node: &N, out: &mut Answer) {
    out.show(&(is_found, is_refused(alloc, node)));
    out.put(" ");
}

/// Adds the same for the parts of a definition that may hold an argument, and then for itself.
fn put_parts(alloc: Global, def: &Def, out: &mut Answer) {
    match def {
        Def::Rule(rule) => {
            put_node(alloc, rule.pattern.has_macro_arg(), &rule.pattern, out);
            for iflet in &rule.iflets {
                put_node(alloc, iflet.has_macro_arg(), iflet, out);
            }
            put_node(alloc, rule.has_macro_arg(), rule, out);
        }
        Def::Extractor(extractor) => {
            let template = &extractor.template;
            put_node(alloc, template.has_macro_arg(), template, out);
            put_node(alloc, extractor.has_macro_arg(), extractor, out);
        }
        _ => {}
    }
    put_node(alloc, def.has_macro_arg(), def, out);
}

/// Adds the same for each definition.
pub fn put_arguments(alloc: Global, defs: &[Def], out: &mut Answer) {
    for def in defs {
        put_parts(alloc, def, out);
    }
}
