//! The errors of types and constants.

ghost use Rattle.std.specs.Prelude.{◌≡◌, ◌++◌, [], IfOk, OnOk, List, map};
ghost use Rattle.std.specs.Option.{option_map};
ghost use Rattle.isle_ast.specs.TreeView.{definitions_of, fields_of, indexed_field_of};
ghost use Rattle.isle_ast.specs.TreeView.{named_field_of, type_definition_of, variant_of};
ghost use Rattle.isle_ast_names.specs.Tree.{Name};
ghost use Rattle.isle_ast_names.specs.TreeView.{name_of};
ghost use Rattle.isle_check_environment.specs.Names.{Knows};
ghost use Rattle.isle_check_environment.specs.Parts.{type_names};
ghost use Rattle.isle_check_environment.specs.Types.{is_type, is_type_in};
ghost use Rattle.isle_check_environment.specs.Views.{constants_at, types_at};
ghost use Rattle.isle_check_declarations.specs.TypeFaults.{content_fault, doubled_type};
ghost use Rattle.isle_check_declarations.specs.TypeFaults.{doubled_types, fields_fault};
ghost use Rattle.isle_check_declarations.specs.TypeFaults.{indexed_fields_fault};
ghost use Rattle.isle_check_declarations.specs.TypeFaults.{named_fields_fault, primitive_fault};
ghost use Rattle.isle_check_declarations.specs.TypeFaults.{type_faults, type_faults_of};
ghost use Rattle.isle_check_declarations.specs.TypeFaults.{variants_fault};
ghost use Rattle.isle_check_declarations.specs.TypeFaults.{wrong_constants, wrong_type};
ghost use Rattle.isle_check_declarations.specs.TypeFaults.{wrong_types};
ghost use Rattle.isle_check_declarations.specs.Views.{fault_of, faults_of};

use crate::fault::{Fault, Kind};
use isle_ast::ast::{Def, Fields, Ident, StructField, TupleField, TypeDef, TypeValue, Variant};
use isle_check_environment::names::{Names, add_name, has, no_names};
use isle_check_environment::parts::{Constant, constants_in, types_in};
use isle_check_environment::types::{is_built_in, is_type, type_names};
use std::alloc::{AllocError, Global};

/// Returns the errors of the types and constants among the definitions of a program: first the
/// types whose name is taken, then the first fault of each type, then the constants whose type is
/// not known. An `Err` means out of memory.
pub fn type_faults(alloc: Global, defs: &[Def]) -> Result<Vec<Fault<'_>>, AllocError>
    ensures { IfOk result
        (λ found. faults_of found.items ≡ type_faults (definitions_of defs.now)) }
{
    let types = types_in(alloc, defs)?;
    let constants = constants_in(alloc, defs)?;
    collect_faults(alloc, &types, &constants)
}

fn collect_faults<'a>(
    alloc: Global,
    types: &[&'a TypeDef],
    constants: &[Constant<'a>],
) -> Result<Vec<Fault<'a>>, AllocError>
    ensures { IfOk result (λ found. faults_of found.items
        ≡ type_faults_of (is_type (type_names (types_at types.now))) (types_at types.now)
        (constants_at constants.now)) }
{
    let known = type_names(alloc, types)?;
    let mut found = Vec::new(alloc);
    add_doubled_types(alloc, types, &mut found)?;
    add_wrong_types(alloc, &known, types, &mut found)?;
    add_wrong_constants(&known, constants, &mut found)?;
    Ok(found)
}

fn add_doubled_types<'a>(
    alloc: Global,
    types: &[&'a TypeDef],
    found: &mut Vec<Fault<'a>>,
) -> Result<(), AllocError>
    ensures { OnOk result (faults_of found.new.items
        ≡ faults_of found.old.items ++ doubled_types [] (types_at types.now)) }
{
    let mut earlier = no_names(alloc);
    for ty in types {
        add_doubled_type(&earlier, ty, found)?;
        add_name(&mut earlier, &ty.name)?;
    }
    Ok(())
}

/// Adds the errors of a type whose name is built in or one of `earlier`.
fn add_doubled_type<'a>(
    earlier: &Names,
    ty: &'a TypeDef,
    found: &mut Vec<Fault<'a>>,
) -> Result<(), AllocError>
    ensures { OnOk result ((known : List Name) → Knows earlier.now known
        → faults_of found.new.items
        ≡ faults_of found.old.items ++ doubled_type known (type_definition_of ty.now)) }
{
    let pos = ty.pos;
    if is_built_in(ty.name.0.as_str()) {
        found.push(Fault {
            kind: Kind::TypeAgain(&ty.name),
            pos,
        })?;
        found.push(Fault {
            kind: Kind::TypeBuiltIn(&ty.name),
            pos,
        })?;
    } else if has(earlier, ty.name.0.as_str()) {
        found.push(Fault {
            kind: Kind::TypeAgain(&ty.name),
            pos,
        })?;
    }
    Ok(())
}

fn add_wrong_types<'a>(
    alloc: Global,
    known: &Names,
    types: &[&'a TypeDef],
    found: &mut Vec<Fault<'a>>,
) -> Result<(), AllocError>
    ensures { OnOk result (faults_of found.new.items
        ≡ faults_of found.old.items ++ wrong_types (is_type_in known.now) (types_at types.now)) }
{
    for ty in types {
        add_wrong_type(alloc, known, ty, found)?;
    }
    Ok(())
}

fn add_wrong_type<'a>(
    alloc: Global,
    known: &Names,
    ty: &'a TypeDef,
    found: &mut Vec<Fault<'a>>,
) -> Result<(), AllocError>
    ensures { OnOk result (faults_of found.new.items
        ≡ faults_of found.old.items
        ++ wrong_type (is_type_in known.now) (type_definition_of ty.now)) }
{
    match type_fault(alloc, known, ty)? {
        Some(fault) => found.push(fault)?,
        None => {}
    }
    Ok(())
}

fn add_wrong_constants<'a>(
    known: &Names,
    constants: &[Constant<'a>],
    found: &mut Vec<Fault<'a>>,
) -> Result<(), AllocError>
    ensures { OnOk result (faults_of found.new.items
        ≡ faults_of found.old.items
        ++ wrong_constants (is_type_in known.now) (constants_at constants.now)) }
{
    for constant in constants {
        if !is_type(known, constant.ty.0.as_str()) {
            let pos = constant.pos;
            found.push(Fault {
                kind: Kind::ConstantTypeUnknown,
                pos,
            })?;
        }
    }
    Ok(())
}

/// Returns the first fault of a type.
fn type_fault<'a>(
    alloc: Global,
    known: &Names,
    ty: &'a TypeDef,
) -> Result<Option<Fault<'a>>, AllocError>
    ensures { IfOk result (λ fault. option_map fault_of fault
        ≡ content_fault (is_type_in known.now) (type_definition_of ty.now)
        (type_definition_of ty.now).ty) }
{
    if let TypeValue::Primitive(_, _) = &ty.ty {
        return Ok(primitive_fault(ty));
    }
    if ty.is_extern && ty.is_nodebug {
        return Ok(Some(Fault {
            kind: Kind::ExternNodebug,
            pos: ty.pos,
        }));
    }
    match &ty.ty {
        TypeValue::Primitive(_, _) => Ok(None),
        TypeValue::Enum(variants, _) => variants_fault(alloc, known, variants),
        TypeValue::Struct(fields, _) => fields_fault(alloc, known, &ty.name, fields),
    }
}

/// Returns the first of the flags that a primitive type has.
fn primitive_fault(ty: &TypeDef) -> Option<Fault<'_>>
    ensures { option_map fault_of result
        ≡ primitive_fault (type_definition_of ty.now) }
{
    if ty.is_nodebug {
        return Some(Fault {
            kind: Kind::PrimitiveNodebug,
            pos: ty.pos,
        });
    }
    if ty.is_extern {
        return Some(Fault {
            kind: Kind::PrimitiveExtern,
            pos: ty.pos,
        });
    }
    None
}

fn variants_fault<'a>(
    alloc: Global,
    known: &Names,
    variants: &'a [Variant],
) -> Result<Option<Fault<'a>>, AllocError>
    ensures { IfOk result (λ fault. option_map fault_of fault
        ≡ variants_fault (is_type_in known.now) [] (map variant_of variants.now)) }
{
    let mut earlier = no_names(alloc);
    for variant in variants {
        let name = &variant.name;
        if has(&earlier, name.0.as_str()) {
            return Ok(Some(Fault {
                kind: Kind::VariantAgain(name),
                pos: variant.pos,
            }));
        }
        if let Some(fault) = fields_fault(alloc, known, name, &variant.fields)? {
            return Ok(Some(fault));
        }
        add_name(&mut earlier, name)?;
    }
    Ok(None)
}

fn fields_fault<'a>(
    alloc: Global,
    known: &Names,
    variant: &'a Ident,
    fields: &'a Fields,
) -> Result<Option<Fault<'a>>, AllocError>
    ensures { IfOk result (λ fault. option_map fault_of fault
        ≡ fields_fault (is_type_in known.now) (name_of variant.now) (fields_of fields.now)) }
{
    match fields {
        Fields::Unit => Ok(None),
        Fields::Struct(fields) => named_fields_fault(alloc, known, variant, &fields.fields),
        Fields::Tuple(fields) => Ok(indexed_fields_fault(known, variant, &fields.fields)),
    }
}

fn named_fields_fault<'a>(
    alloc: Global,
    known: &Names,
    variant: &'a Ident,
    fields: &'a [StructField],
) -> Result<Option<Fault<'a>>, AllocError>
    ensures { IfOk result (λ fault. option_map fault_of fault
        ≡ named_fields_fault (is_type_in known.now) (name_of variant.now) []
        (map named_field_of fields.now)) }
{
    let mut earlier = no_names(alloc);
    for field in fields {
        let StructField { name, ty, pos } = field;
        if has(&earlier, name.0.as_str()) {
            let kind = Kind::FieldAgain {
                field: name,
                variant,
            };
            return Ok(Some(Fault { kind, pos: *pos }));
        }
        if !is_type(known, ty.0.as_str()) {
            let kind = Kind::FieldTypeUnknown {
                ty,
                field: name,
                variant,
            };
            return Ok(Some(Fault { kind, pos: ty.1 }));
        }
        add_name(&mut earlier, name)?;
    }
    Ok(None)
}

fn indexed_fields_fault<'a>(
    known: &Names,
    variant: &'a Ident,
    fields: &'a [TupleField],
) -> Option<Fault<'a>>
    ensures { option_map fault_of result
        ≡ indexed_fields_fault (is_type_in known.now) (name_of variant.now)
        (map indexed_field_of fields.now) }
{
    for field in fields {
        let TupleField { index, ty, .. } = field;
        if !is_type(known, ty.0.as_str()) {
            let kind = Kind::IndexTypeUnknown {
                ty,
                index: *index,
                variant,
            };
            return Some(Fault { kind, pos: ty.1 });
        }
    }
    None
}
