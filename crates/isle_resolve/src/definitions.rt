//! The events of definitions.

ghost use Rattle.std.specs.Prelude.{◌≡◌, ◌++◌, IfOk, OnOk, map};
ghost use Rattle.isle_ast.specs.TreeView.{conversion_of, declaration_of, definition_of};
ghost use Rattle.isle_ast.specs.TreeView.{definitions_of, extern_of, model_content_of, target_of};
ghost use Rattle.isle_ast_names.specs.TreeView.{name_of, names_of};
ghost use Rattle.isle_resolve.specs.Event.{uses};
ghost use Rattle.isle_resolve.specs.EventView.{events_of};
ghost use Rattle.isle_resolve.specs.Events.{conversion_events, declaration_events};
ghost use Rattle.isle_resolve.specs.Events.{definition_events, events, extern_events};
ghost use Rattle.isle_resolve.specs.Events.{model_events, target_events};
ghost use Rattle.isle_resolve.specs.declared.event.Kind.TheVariants as kinds;

use crate::event::{Event, Kind, Word, add};
use crate::rules::{add_extractor, add_rule};
use crate::types::add_type;
use isle_ast::ast::{AttrTarget, Converter, Decl, Def, Extern, Ident, Model, ModelValue};
use std::alloc::{AllocError, Global};

/// The events of `defs`, in order. An `Err` means out of memory.
pub fn events(alloc: Global, defs: &[Def]) -> Result<Vec<Event<'_>>, AllocError>
    ensures { IfOk result (λ found. events_of found.items ≡ events (definitions_of defs.now)) }
{
    let mut found = Vec::new(alloc);
    add_events(defs, &mut found)?;
    Ok(found)
}

/// Appends the events of `defs` to `found`, in order. An `Err` means out of memory, and that some
/// of them may have been appended.
pub fn add_events<'a>(defs: &'a [Def], found: &mut Vec<Event<'a>>) -> Result<(), AllocError>
    ensures { OnOk result (events_of found.new.items
        ≡ events_of found.old.items ++ events (definitions_of defs.now)) }
{
    for def in defs {
        add_definition(def, found)?;
    }
    Ok(())
}

fn add_definition<'a>(def: &'a Def, found: &mut Vec<Event<'a>>) -> Result<(), AllocError>
    ensures { OnOk result (events_of found.new.items
        ≡ events_of found.old.items ++ definition_events (definition_of def.now)) }
{
    match def {
        Def::TypeDef(type_def) => add_type(type_def, found),
        Def::Rule(rule) => add_rule(rule, found),
        Def::Extractor(extractor) => add_extractor(extractor, found),
        Def::Decl(decl) => add_declaration(decl, found),
        Def::Attr(attr) => add_target(&attr.target, found),
        Def::Spec(spec) => add(Event::Uses(Kind::Term, Word::new(&spec.term)), found),
        Def::Model(model) => add_model(model, found),
        Def::Instantiation(instantiation) => {
            add(
                Event::Uses(Kind::Term, Word::new(&instantiation.term)),
                found,
            )
        }
        Def::Extern(external) => add_extern(external, found),
        Def::Converter(converter) => add_converter(converter, found),
        _ => Ok(()),
    }
}

/// Adds the definition of the term, and the uses of its argument types and its return type.
fn add_declaration<'a>(decl: &'a Decl, found: &mut Vec<Event<'a>>) -> Result<(), AllocError>
    ensures { OnOk result (events_of found.new.items
        ≡ events_of found.old.items ++ declaration_events (declaration_of decl.now)) }
{
    add(Event::Defines(Kind::Term, Word::new(&decl.term)), found)?;
    add_types(&decl.arg_tys, found)?;
    add(Event::Uses(Kind::Type, Word::new(&decl.ret_ty)), found)
}

/// Adds a use of each type.
fn add_types<'a>(types: &'a [Ident], found: &mut Vec<Event<'a>>) -> Result<(), AllocError>
    ensures { OnOk result (events_of found.new.items
        ≡ events_of found.old.items ++ map (uses kinds.Type) (names_of types.now)) }
{
    for ty in types {
        add(Event::Uses(Kind::Type, Word::new(ty)), found)?;
    }
    Ok(())
}

/// Adds a use of the term that has the attributes. The names of rules have no events.
fn add_target<'a>(target: &'a AttrTarget, found: &mut Vec<Event<'a>>) -> Result<(), AllocError>
    ensures { OnOk result (events_of found.new.items
        ≡ events_of found.old.items ++ target_events (target_of target.now)) }
{
    match target {
        AttrTarget::Term(term) => add(Event::Uses(Kind::Term, Word::new(term)), found),
        AttrTarget::Rule(_) => Ok(()),
    }
}

/// Adds a use of the type that is modelled. A model of a constant has no events.
fn add_model<'a>(model: &'a Model, found: &mut Vec<Event<'a>>) -> Result<(), AllocError>
    ensures { OnOk result (events_of found.new.items ≡ events_of found.old.items
        ++ model_events (name_of model.now.name) (model_content_of model.now.val)) }
{
    match model.val {
        ModelValue::TypeValue(_) => add(Event::Uses(Kind::Type, Word::new(&model.name)), found),
        ModelValue::ConstValue(_) => Ok(()),
    }
}

fn add_extern<'a>(external: &'a Extern, found: &mut Vec<Event<'a>>) -> Result<(), AllocError>
    ensures { OnOk result (events_of found.new.items
        ≡ events_of found.old.items ++ extern_events (extern_of external.now)) }
{
    match external {
        Extern::Extractor { term, .. } | Extern::Constructor { term, .. } => {
            add(Event::Uses(Kind::Term, Word::new(term)), found)
        }
        Extern::Const { name, ty, .. } => {
            add(Event::Defines(Kind::Constant, Word::new(name)), found)?;
            add(Event::Uses(Kind::Type, Word::new(ty)), found)
        }
    }
}

fn add_converter<'a>(converter: &'a Converter, found: &mut Vec<Event<'a>>) -> Result<(), AllocError>
    ensures { OnOk result (events_of found.new.items
        ≡ events_of found.old.items ++ conversion_events (conversion_of converter.now)) }
{
    add(
        Event::Uses(Kind::Type, Word::new(&converter.inner_ty)),
        found,
    )?;
    add(
        Event::Uses(Kind::Type, Word::new(&converter.outer_ty)),
        found,
    )?;
    add(Event::Uses(Kind::Term, Word::new(&converter.term)), found)
}
