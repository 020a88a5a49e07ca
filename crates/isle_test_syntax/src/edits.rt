//! Trees of texts, each with an edit that makes it a tree that no text leads to.

use crate::constants::constant;
use crate::renaming::Renaming;
use crate::templates::filled;
use isle_syntax::ast::{Def, Fields, Ident, Pattern, Rule, TypeDef, TypeValue};
use isle_syntax::lexer::Fault;
use isle_test_nodes::answer::Answer;
use isle_test_nodes::case::Case;
use isle_test_nodes::trees::{Tree, ident, read};
use std::alloc::{AllocError, Global};

/// Removes the fields of a struct or of a variant.
fn clear_fields(fields: &mut Fields) {
    match fields {
        Fields::Unit => {}
        Fields::Struct(fields) => fields.fields.clear(),
        Fields::Tuple(fields) => fields.fields.clear(),
    }
}

fn clear_type(def: &mut TypeDef) {
    match &mut def.ty {
        TypeValue::Primitive(_, _) => {}
        TypeValue::Struct(fields, _) => clear_fields(fields),
        TypeValue::Enum(variants, _) => {
            for variant in variants {
                clear_fields(&mut variant.fields);
            }
        }
    }
}

/// Sets the places of the fields of a tuple.
fn place_fields(def: &mut TypeDef, places: &[usize]) {
    if let TypeValue::Struct(Fields::Tuple(fields), _) = &mut def.ty {
        for (field, place) in fields.fields.iter_mut().zip(places) {
            field.index = *place;
        }
    }
}

/// Puts the argument of a macro in place of a name in a pattern.
fn fill(alloc: Global, pattern: &mut Pattern, names: &[Ident]) -> Result<(), Fault> {
    *pattern = filled(alloc, pattern, names)?;
    Ok(())
}

/// Puts it into the conditions and the pattern of a rule.
fn fill_rule(alloc: Global, rule: &mut Rule, names: &[Ident]) -> Result<(), Fault> {
    for iflet in &mut rule.iflets {
        fill(alloc, &mut iflet.pattern, names)?;
    }
    fill(alloc, &mut rule.pattern, names)
}

/// Puts the argument of a macro in place of the name `x`.
fn fill_definition(alloc: Global, def: &mut Def) -> Result<(), Fault> {
    let names = vec![in alloc; ident(alloc, "x")?]?;
    match def {
        Def::Rule(rule) => fill_rule(alloc, rule, &names),
        Def::Extractor(extractor) => fill(alloc, &mut extractor.template, &names),
        _ => Ok(()),
    }
}

/// Gives an instantiation a form or one more tag.
fn add_name(alloc: Global, kind: &str, def: &mut Def, name: &str) -> Result<(), AllocError> {
    if let Def::Instantiation(def) = def {
        let name = ident(alloc, name)?;
        match kind {
            "with_form" => def.form = Some(name),
            _ => def.tags.push(name)?,
        }
    }
    Ok(())
}

/// Replaces the first name by the second.
fn rename(def: &mut Def, from: &str, to: &str) -> Result<(), AllocError> {
    let mut renaming = Renaming {
        from,
        to,
        is_whole: true,
    };
    renaming.definition(def);
    if renaming.is_whole {
        Ok(())
    } else {
        Err(AllocError)
    }
}

/// Makes the edit that the first text names, if it applies to the kind of a definition.
fn edit(alloc: Global, def: &mut Def, case: &Case) -> Result<(), Fault> {
    let word = case.text(2);
    match case.text(0) {
        "renamed" => Ok(rename(def, word, case.text(3))?),
        "with_macro_argument" => fill_definition(alloc, def),
        kind @ ("with_form" | "with_tag") => Ok(add_name(alloc, kind, def, word)?),
        kind => {
            edit_in_place(kind, def, &case.numbers);
            Ok(())
        }
    }
}

/// Makes an edit that takes no memory.
fn edit_in_place(kind: &str, def: &mut Def, places: &[usize]) {
    match (kind, def) {
        ("without_priority", Def::Rule(rule)) => rule.prio = None,
        ("without_fields", Def::TypeDef(def)) => clear_type(def),
        ("at_places", Def::TypeDef(def)) => place_fields(def, places),
        ("without_form", Def::Instantiation(def)) => def.form = None,
        _ => {}
    }
}

fn edit_all(alloc: Global, defs: &mut [Def], case: &Case) -> Result<(), Fault> {
    for def in defs {
        edit(alloc, def, case)?;
    }
    Ok(())
}

/// The tree of the second text, with the edit that the first one names.
fn edited(alloc: Global, case: &Case, out: &mut Answer) -> Tree {
    let mut tree = read(alloc, case.text(1));
    if let Ok(defs) = &mut tree {
        if let Err(fault) = edit_all(alloc, defs, case) {
            out.show_fault(&fault);
        }
    }
    tree
}

/// The tree of the kind that the first text names.
pub fn built(alloc: Global, case: &Case, out: &mut Answer) -> Tree {
    match case.text(0) {
        "argument" | "operation" | "bits" => Ok(constant(alloc, case)?),
        _ => edited(alloc, case, out),
    }
}
