//! The events of type definitions.

ghost use Rattle.std.specs.Prelude.{◌≡◌, ◌++◌, OnOk, map};
ghost use Rattle.std.specs.List.{flat_map};
ghost use Rattle.isle_ast.specs.TreeView.{fields_of, indexed_field_of, named_field_of};
ghost use Rattle.isle_ast.specs.TreeView.{type_content_of, type_definition_of, variant_of};
ghost use Rattle.isle_ast_names.specs.TreeView.{name_of};
ghost use Rattle.isle_resolve.specs.Event.{uses};
ghost use Rattle.isle_resolve.specs.EventView.{events_of};
ghost use Rattle.isle_resolve.specs.Events.{content_events, field_events, type_events};
ghost use Rattle.isle_resolve.specs.Events.{variant_events};
ghost use Rattle.isle_resolve.specs.declared.event.Kind.TheVariants as kinds;

use crate::event::{Event, Kind, Word, add};
use isle_ast::ast::{Fields, Ident, StructField, TupleField, TypeDef, TypeValue, Variant};
use std::alloc::AllocError;

pub fn add_type<'a>(type_def: &'a TypeDef, found: &mut Vec<Event<'a>>) -> Result<(), AllocError>
    ensures { OnOk result (events_of found.new.items
        ≡ events_of found.old.items ++ type_events (type_definition_of type_def.now)) }
{
    add(Event::Defines(Kind::Type, Word::new(&type_def.name)), found)?;
    add_content(&type_def.name, &type_def.ty, found)
}

fn add_content<'a>(
    owner: &'a Ident,
    content: &'a TypeValue,
    found: &mut Vec<Event<'a>>,
) -> Result<(), AllocError>
    ensures { OnOk result (events_of found.new.items ≡ events_of found.old.items
        ++ content_events (name_of owner.now) (type_content_of content.now)) }
{
    match content {
        TypeValue::Primitive(..) => Ok(()),
        TypeValue::Enum(variants, _) => add_variants(owner, variants, found),
        TypeValue::Struct(fields, _) => add_fields(fields, found),
    }
}

fn add_variants<'a>(
    owner: &'a Ident,
    variants: &'a [Variant],
    found: &mut Vec<Event<'a>>,
) -> Result<(), AllocError>
    ensures { OnOk result (events_of found.new.items ≡ events_of found.old.items
        ++ flat_map (variant_events (name_of owner.now)) (map variant_of variants.now)) }
{
    for variant in variants {
        add_variant(owner, variant, found)?;
    }
    Ok(())
}

fn add_variant<'a>(
    owner: &'a Ident,
    variant: &'a Variant,
    found: &mut Vec<Event<'a>>,
) -> Result<(), AllocError>
    ensures { OnOk result (events_of found.new.items ≡ events_of found.old.items
        ++ variant_events (name_of owner.now) (variant_of variant.now)) }
{
    let event = Event::DefinesVariant {
        owner: Word::new(owner),
        member: Word::new(&variant.name),
    };
    add(event, found)?;
    add_fields(&variant.fields, found)
}

/// Adds a use of the type of each field.
fn add_fields<'a>(fields: &'a Fields, found: &mut Vec<Event<'a>>) -> Result<(), AllocError>
    ensures { OnOk result (events_of found.new.items
        ≡ events_of found.old.items ++ field_events (fields_of fields.now)) }
{
    match fields {
        Fields::Unit => Ok(()),
        Fields::Struct(fields) => add_named_fields(&fields.fields, found),
        Fields::Tuple(fields) => add_indexed_fields(&fields.fields, found),
    }
}

fn add_named_fields<'a>(
    fields: &'a [StructField],
    found: &mut Vec<Event<'a>>,
) -> Result<(), AllocError>
    ensures { OnOk result (events_of found.new.items ≡ events_of found.old.items
        ++ map (λ f. uses kinds.Type f.ty) (map named_field_of fields.now)) }
{
    for field in fields {
        add(Event::Uses(Kind::Type, Word::new(&field.ty)), found)?;
    }
    Ok(())
}

fn add_indexed_fields<'a>(
    fields: &'a [TupleField],
    found: &mut Vec<Event<'a>>,
) -> Result<(), AllocError>
    ensures { OnOk result (events_of found.new.items ≡ events_of found.old.items
        ++ map (λ f. uses kinds.Type f.ty) (map indexed_field_of fields.now)) }
{
    for field in fields {
        add(Event::Uses(Kind::Type, Word::new(&field.ty)), found)?;
    }
    Ok(())
}
