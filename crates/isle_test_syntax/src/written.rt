//! Whether trees are writable, and whether their prints parse as the trees.

use isle_syntax::ast::{Def, writable};
use isle_syntax::printer::print;
use isle_test_nodes::trees::{drop_tree, read};
use std::alloc::Global;

/// Returns whether a text parses as these definitions, positions aside.
fn spells(alloc: Global, text: &str, defs: &Vec<Def>) -> bool {
    let tree = read(alloc, text);
    let is_same = matches!(&tree, Ok(others) if others == defs);
    drop_tree(tree);
    is_same
}

/// Returns whether the print of definitions at a width parses as them; `None` if they have no
/// print.
fn reads_back(alloc: Global, defs: &Vec<Def>, width: usize) -> Option<bool> {
    match print(alloc, defs, width) {
        Ok(text) => Some(spells(alloc, &text, defs)),
        Err(_) => None,
    }
}

fn word_of(is_writable: bool) -> &'static str {
    if is_writable {
        "writable"
    } else {
        "unwritable"
    }
}

/// Whether definitions are writable, or an error if their prints parse as them and they aren't, or
/// the other way round.
pub fn told_of_prints(alloc: Global, defs: &Vec<Def>) -> &'static str {
    let is_writable = writable(defs);
    for width in [0, 5, 78, usize::MAX] {
        match reads_back(alloc, defs, width) {
            Some(answer) if answer == is_writable => {}
            Some(_) => return "its print tells otherwise",
            None => return "it has no print",
        }
    }
    word_of(is_writable)
}

/// Whether each of the definitions is writable, without printing.
pub fn told_alone(defs: &[Def]) -> &'static str {
    word_of(defs.iter().all(|def| def.is_writable()))
}
