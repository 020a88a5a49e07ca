//! Answers about trees.

use crate::apart::{differ_from, put_definitions_apart, put_specs_apart};
use crate::arguments::put_arguments;
use crate::edits::built;
use crate::walks::told_of_rule;
use crate::written::{told_alone, told_of_prints};
use isle_syntax::ast::{Def, Ident, TypeDef, TypeValue, Variant, writable};
use isle_syntax::lexer::Pos;
use isle_syntax::printer::{Looks, ToSExpr, fits, print, print_counted};
use isle_test_nodes::answer::Answer;
use isle_test_nodes::case::Case;
use isle_test_nodes::parts::{Way, put_parts};
use isle_test_nodes::trees::{Tree, drop_tree, parsed_of, read_of};
use std::alloc::Global;

/// The tree that a case asks about.
fn tree_of(alloc: Global, case: &Case, out: &mut Answer) -> Tree {
    let call = case.call.as_str();
    if call.starts_with("built") {
        return built(alloc, case, out);
    }
    if call.starts_with("apart") || call == "parse_without_pos" {
        return read_of(alloc, case);
    }
    parsed_of(alloc, case)
}

/// Adds the answer of a call about a tree.
pub fn put_told(alloc: Global, case: &Case, out: &mut Answer) {
    let tree = tree_of(alloc, case, out);
    match &tree {
        Ok(defs) => put_answer(alloc, case, defs, out),
        Err(fault) => out.show_error(fault),
    }
    drop_tree(tree);
}

/// Adds the answer of a call that prints or copies definitions.
fn put_answer(alloc: Global, case: &Case, defs: &Vec<Def>, out: &mut Answer) {
    match case.call.as_str() {
        "parse" | "parse_without_pos" => out.show_ok(defs),
        "nodes" => put_parts(alloc, Way::Line, defs, out),
        "print_nodes" => put_parts(alloc, Way::Print, defs, out),
        "to_sexprs" => put_parts(alloc, Way::Shape, defs, out),
        "copies" => put_parts(alloc, Way::Copy, defs, out),
        "print" => out.show_print(&print(alloc, defs, case.number(0))),
        "print_counted" => put_counted(alloc, defs, case.number(0), out),
        "built_print" => {
            out.show(&writable(defs));
            out.put(" ");
            out.show_print(&print(alloc, defs, 78));
        }
        "built_arguments" => put_arguments(alloc, defs, out),
        "fits" => put_fitting(alloc, defs, case.number(0), out),
        "shape" => put_shape(alloc, defs, out),
        _ => put_question(alloc, case, defs, out),
    }
}

/// Adds the answer of a call that asks something of definitions.
fn put_question(alloc: Global, case: &Case, defs: &Vec<Def>, out: &mut Answer) {
    match case.call.as_str() {
        "built" => out.put(told_of_prints(alloc, defs)),
        "built_alone" => out.put(told_alone(defs)),
        "writable" => out.show_ok(&writable(defs)),
        "terms" => put_terms(defs, out),
        "full_names" => put_full_names(alloc, defs, out),
        "walk" => out.show_ok(&told_of_rule(defs, case.text(1), case.text(2))),
        "apart" => put_definitions_apart(defs, out),
        "apart_specs" => put_specs_apart(defs, out),
        "apart_places" => {
            out.show_ok(&differ_from(alloc, defs, case.number(0), case.text(0)));
        }
        "holds_argument" => out.show_ok(&defs.iter().any(|def| def.has_macro_arg())),
        _ => out.put("no call"),
    }
}

fn put_counted(alloc: Global, defs: &[Def], width: usize, out: &mut Answer) {
    let mut looks = Looks::new();
    out.show_print(&print_counted(alloc, defs, width, &mut looks));
}

/// Adds whether the S-expression of each definition fits the room.
fn put_fitting(alloc: Global, defs: &[Def], room: usize, out: &mut Answer) {
    let mut looks = Looks::new();
    for def in defs {
        match def.to_sexpr(alloc) {
            Ok(sexpr) => out.show_ok(&[fits(&sexpr, room, &mut looks)]),
            Err(fault) => out.show_print_fault(&fault),
        }
    }
}

/// Adds the S-expression of a node.
fn put_sexpr<N: ToSExpr>(alloc: Global, node: &N, out: &mut Answer) {
    match node.to_sexpr(alloc) {
        Ok(sexpr) => out.show(&sexpr),
        Err(fault) => out.show_print_fault(&fault),
    }
}

/// Adds the S-expression of a conversion, or of a rule's one condition.
fn put_shape(alloc: Global, defs: &[Def], out: &mut Answer) {
    match defs {
        [Def::Converter(converter)] => put_sexpr(alloc, converter, out),
        [Def::Rule(rule)] => {
            for iflet in &rule.iflets {
                put_sexpr(alloc, iflet, out);
            }
        }
        _ => out.put("no shape"),
    }
}

/// Adds the position and the symbol of each term in rules and extractors.
fn put_terms(defs: &[Def], out: &mut Answer) {
    let mut note = |pos: Pos, sym: &Ident| {
        out.show(&(pos, sym));
        out.put(" ");
    };
    for def in defs {
        match def {
            Def::Rule(rule) => {
                rule.pattern.terms(&mut note);
                rule.expr.terms(&mut note);
            }
            Def::Extractor(extractor) => extractor.template.terms(&mut note),
            _ => {}
        }
    }
}

fn put_names(alloc: Global, def: &TypeDef, out: &mut Answer) {
    if let TypeValue::Enum(variants, _) = &def.ty {
        for variant in variants {
            out.show_made(&Variant::full_name(alloc, &def.name, &variant.name));
            out.put(" ");
        }
    }
}

/// Adds the full name of each variant.
fn put_full_names(alloc: Global, defs: &[Def], out: &mut Answer) {
    for def in defs {
        if let Def::TypeDef(def) = def {
            put_names(alloc, def, out);
        }
    }
}
