//! Copies of specs, macros, states and spec expressions.

ghost use Rattle.std.specs.Prelude.{◌≡◌, IfOk};
ghost use Rattle.isle_ast_verification.specs.TreeView.{field_init_list_of, modified_of};
ghost use Rattle.isle_ast_verification.specs.TreeView.{single_arm_of};
ghost use Rattle.isle_ast_verification.specs.TreeView.{single_arms_of, single_field_init_of};
ghost use Rattle.isle_ast_verification.specs.TreeView.{single_field_inits_of, single_spec_lets_of};
ghost use Rattle.isle_ast_verification.specs.TreeView.{spec_definition_of, spec_macro_of, spec_of};
ghost use Rattle.isle_ast_verification.specs.TreeView.{spec_list_of, specs_of, state_of};
ghost use Rattle.isle_ast_verification.specs.TreeView.{type_model_of};
ghost use Rattle.isle_ast_names.specs.TreeView.{name_of, names_of};
ghost use Rattle.isle_ast_verification.specs.Tree.{as_spec, discriminator_spec, enum_spec};
ghost use Rattle.isle_ast_verification.specs.Tree.{expand_spec};
ghost use Rattle.isle_ast_verification.specs.Tree.{field_spec, macro_spec, op_spec, struct_spec};
ghost use Rattle.isle_ast_verification.specs.Tree.{var_spec};
ghost use Rattle.isle_ast_verification.specs.Tree.{with_spec};

use crate::{Arm, FieldInit, ModelType, Modifies, Spec, SpecExpr, SpecMacro, SpecOp, State};
use isle_ast_names::Ident;
use isle_base::lexer::Pos;
use std::alloc::AllocError;

impl Clone for Spec {
    ghost is_clone = { λ spec copy. spec_definition_of copy ≡ spec_definition_of spec };

    fn clone(&self) -> Result<Spec, AllocError> {
        Ok(Spec {
            term: self.term.clone()?,
            args: self.args.clone()?,
            provides: self.provides.clone()?,
            requires_: self.requires_.clone()?,
            matches: self.matches.clone()?,
            modifies: self.modifies.clone()?,
            pos: self.pos,
        })
    }
}

impl Clone for Modifies {
    ghost is_clone = { λ modifies copy. modified_of copy ≡ modified_of modifies };

    fn clone(&self) -> Result<Modifies, AllocError> {
        Ok(Modifies {
            state: self.state.clone()?,
            cond: self.cond.clone()?,
        })
    }
}

impl Clone for SpecMacro {
    ghost is_clone = { λ spec_macro copy. spec_macro_of copy ≡ spec_macro_of spec_macro };

    fn clone(&self) -> Result<SpecMacro, AllocError> {
        Ok(SpecMacro {
            name: self.name.clone()?,
            params: self.params.clone()?,
            body: self.body.clone()?,
            pos: self.pos,
        })
    }
}

impl Clone for State {
    ghost is_clone = { λ state copy. state_of copy ≡ state_of state };

    fn clone(&self) -> Result<State, AllocError> {
        Ok(State {
            name: self.name.clone()?,
            ty: self.ty.clone()?,
            default: self.default.clone()?,
            pos: self.pos,
        })
    }
}

impl Clone for SpecExpr {
    ghost is_clone = { λ expr copy. spec_of copy ≡ spec_of expr };

    fn clone(&self) -> Result<SpecExpr, AllocError> {
        copy_spec(self)
    }
}

impl Clone for Arm {
    ghost is_clone = { λ arm copy. single_arm_of copy ≡ single_arm_of arm };

    fn clone(&self) -> Result<Arm, AllocError> {
        copy_arm(self)
    }
}

impl Clone for FieldInit {
    ghost is_clone = { λ field copy. single_field_init_of copy ≡ single_field_init_of field };

    fn clone(&self) -> Result<FieldInit, AllocError> {
        copy_field_init(self)
    }
}

fn copy_names(names: &Vec<Ident>) -> Result<Vec<Ident>, AllocError>
    ensures { IfOk result (λ copies. names_of copies.items ≡ names_of names.now.items) }
{
    let copies = names.clone()?;
    Ok(copies)
}

#[cycle(copy_spec)]
fn copy_spec(expr: &SpecExpr) -> Result<SpecExpr, AllocError>
    ensures { IfOk result (λ copy. spec_of copy ≡ spec_of expr.now) }
{
    match expr {
        &SpecExpr::ConstInt { val, pos } => Ok(SpecExpr::ConstInt { val, pos }),
        &SpecExpr::ConstBitVec { val, width, pos } => {
            Ok(SpecExpr::ConstBitVec { val, width, pos })
        }
        &SpecExpr::ConstBool { val, pos } => Ok(SpecExpr::ConstBool { val, pos }),
        SpecExpr::Var { var, pos } => copy_var(var, *pos),
        SpecExpr::As { x, ty, pos } => copy_as(x, ty, *pos),
        SpecExpr::Field { field, x, pos } => copy_field(field, x, *pos),
        SpecExpr::Discriminator { variant, x, pos } => copy_discriminator(variant, x, *pos),
        SpecExpr::Op { op, args, pos } => copy_operation(op, args, *pos),
        SpecExpr::Match { x, arms, pos } => Ok(SpecExpr::Match {
            x: copy_boxed(x)?,
            arms: copy_arms(arms)?,
            pos: *pos,
        }),
        SpecExpr::Let { defs, body, pos } => Ok(SpecExpr::Let {
            defs: copy_spec_lets(defs)?,
            body: copy_boxed(body)?,
            pos: *pos,
        }),
        SpecExpr::With { decls, body, pos } => copy_with(decls, body, *pos),
        SpecExpr::Macro { params, body, pos } => copy_macro(params, body, *pos),
        SpecExpr::Expand { name, args, pos } => copy_expansion(name, args, *pos),
        SpecExpr::Pair { l, r, pos } => Ok(SpecExpr::Pair {
            l: copy_boxed(l)?,
            r: copy_boxed(r)?,
            pos: *pos,
        }),
        SpecExpr::Enum {
            name,
            variant,
            args,
            pos,
        } => copy_enum(name, variant, args, *pos),
        SpecExpr::Struct { fields, pos } => copy_struct(fields, *pos),
    }
}

/// Copies a spec expression together with its box.
#[cycle(copy_spec)]
fn copy_boxed(expr: &Box<SpecExpr>) -> Result<Box<SpecExpr>, AllocError>
    ensures { IfOk result (λ copy. spec_of copy.value ≡ spec_of expr.now.value) }
{
    let copied = copy_spec(expr)?;
    Ok(Box::new(*Box::allocator(expr), copied)?)
}

fn copy_var(var: &Ident, pos: Pos) -> Result<SpecExpr, AllocError>
    ensures { IfOk result (λ copy. spec_of copy ≡ var_spec (name_of var.now) pos) }
{
    Ok(SpecExpr::Var {
        var: var.clone()?,
        pos,
    })
}

/// Copies an `as`.
#[cycle(copy_spec)]
fn copy_as(x: &Box<SpecExpr>, ty: &ModelType, pos: Pos) -> Result<SpecExpr, AllocError>
    ensures { IfOk result
        (λ copy. spec_of copy ≡ as_spec (spec_of x.now.value) (type_model_of ty.now) pos) }
{
    Ok(SpecExpr::As {
        x: copy_boxed(x)?,
        ty: ty.clone()?,
        pos,
    })
}

#[cycle(copy_spec)]
fn copy_field(field: &Ident, x: &Box<SpecExpr>, pos: Pos) -> Result<SpecExpr, AllocError>
    ensures { IfOk result
        (λ copy. spec_of copy ≡ field_spec (name_of field.now) (spec_of x.now.value) pos) }
{
    Ok(SpecExpr::Field {
        field: field.clone()?,
        x: copy_boxed(x)?,
        pos,
    })
}

#[cycle(copy_spec)]
fn copy_discriminator(variant: &Ident, x: &Box<SpecExpr>, pos: Pos) -> Result<SpecExpr, AllocError>
    ensures { IfOk result
        (λ copy. spec_of copy
        ≡ discriminator_spec (name_of variant.now) (spec_of x.now.value) pos) }
{
    Ok(SpecExpr::Discriminator {
        variant: variant.clone()?,
        x: copy_boxed(x)?,
        pos,
    })
}

#[cycle(copy_spec)]
fn copy_operation(op: &SpecOp, args: &Vec<SpecExpr>, pos: Pos) -> Result<SpecExpr, AllocError>
    ensures { IfOk result
        (λ copy. spec_of copy ≡ op_spec op.now (spec_list_of (specs_of args.now.items)) pos) }
{
    Ok(SpecExpr::Op {
        op: *op,
        args: copy_specs(args)?,
        pos,
    })
}

#[cycle(copy_spec)]
fn copy_with(decls: &Vec<Ident>, body: &Box<SpecExpr>, pos: Pos) -> Result<SpecExpr, AllocError>
    ensures { IfOk result
        (λ copy. spec_of copy ≡ with_spec (names_of decls.now.items) (spec_of body.now.value) pos) }
{
    Ok(SpecExpr::With {
        decls: copy_names(decls)?,
        body: copy_boxed(body)?,
        pos,
    })
}

#[cycle(copy_spec)]
fn copy_macro(params: &Vec<Ident>, body: &Box<SpecExpr>, pos: Pos) -> Result<SpecExpr, AllocError>
    ensures { IfOk result
        (λ copy. spec_of copy
        ≡ macro_spec (names_of params.now.items) (spec_of body.now.value) pos) }
{
    Ok(SpecExpr::Macro {
        params: copy_names(params)?,
        body: copy_boxed(body)?,
        pos,
    })
}

#[cycle(copy_spec)]
fn copy_expansion(name: &Ident, args: &Vec<SpecExpr>, pos: Pos) -> Result<SpecExpr, AllocError>
    ensures { IfOk result
        (λ copy. spec_of copy
        ≡ expand_spec (name_of name.now) (spec_list_of (specs_of args.now.items)) pos) }
{
    Ok(SpecExpr::Expand {
        name: name.clone()?,
        args: copy_specs(args)?,
        pos,
    })
}

#[cycle(copy_spec)]
fn copy_enum(
    name: &Ident,
    variant: &Ident,
    args: &Vec<SpecExpr>,
    pos: Pos,
) -> Result<SpecExpr, AllocError>
    ensures { IfOk result
        (λ copy. spec_of copy
        ≡ enum_spec (name_of name.now) (name_of variant.now)
        (spec_list_of (specs_of args.now.items)) pos) }
{
    Ok(SpecExpr::Enum {
        name: name.clone()?,
        variant: variant.clone()?,
        args: copy_specs(args)?,
        pos,
    })
}

#[cycle(copy_spec)]
fn copy_struct(fields: &Vec<FieldInit>, pos: Pos) -> Result<SpecExpr, AllocError>
    ensures { IfOk result
        (λ copy. spec_of copy
        ≡ struct_spec (field_init_list_of (single_field_inits_of fields.now.items)) pos) }
{
    Ok(SpecExpr::Struct {
        fields: copy_field_inits(fields)?,
        pos,
    })
}

#[cycle(copy_spec)]
fn copy_specs(exprs: &Vec<SpecExpr>) -> Result<Vec<SpecExpr>, AllocError>
    ensures { IfOk result (λ copies. specs_of copies.items ≡ specs_of exprs.now.items) }
{
    let mut copies = Vec::with_capacity(*exprs.allocator(), exprs.len())?;
    for expr in exprs {
        copies.push(copy_spec(expr)?)?;
    }
    Ok(copies)
}

/// Copies the arms of a `match`.
#[cycle(copy_spec)]
fn copy_arms(arms: &Vec<Arm>) -> Result<Vec<Arm>, AllocError>
    ensures { IfOk result (λ copies. single_arms_of copies.items ≡ single_arms_of arms.now.items) }
{
    let mut copies = Vec::with_capacity(*arms.allocator(), arms.len())?;
    for arm in arms {
        copies.push(copy_arm(arm)?)?;
    }
    Ok(copies)
}

#[cycle(copy_spec)]
fn copy_arm(arm: &Arm) -> Result<Arm, AllocError>
    ensures { IfOk result (λ copy. single_arm_of copy ≡ single_arm_of arm.now) }
{
    Ok(Arm {
        variant: arm.variant.clone()?,
        args: copy_names(&arm.args)?,
        body: copy_spec(&arm.body)?,
        pos: arm.pos,
    })
}

/// Copies the definitions of a `let`.
#[cycle(copy_spec)]
fn copy_spec_lets(defs: &Vec<(Ident, SpecExpr)>) -> Result<Vec<(Ident, SpecExpr)>, AllocError>
    ensures { IfOk result
        (λ copies. single_spec_lets_of copies.items ≡ single_spec_lets_of defs.now.items) }
{
    let mut copies = Vec::with_capacity(*defs.allocator(), defs.len())?;
    for def in defs {
        copies.push((def.0.clone()?, copy_spec(&def.1)?))?;
    }
    Ok(copies)
}

/// Copies the fields of a struct.
#[cycle(copy_spec)]
fn copy_field_inits(fields: &Vec<FieldInit>) -> Result<Vec<FieldInit>, AllocError>
    ensures { IfOk result
        (λ copies. single_field_inits_of copies.items ≡ single_field_inits_of fields.now.items) }
{
    let mut copies = Vec::with_capacity(*fields.allocator(), fields.len())?;
    for field in fields {
        copies.push(copy_field_init(field)?)?;
    }
    Ok(copies)
}

#[cycle(copy_spec)]
fn copy_field_init(field: &FieldInit) -> Result<FieldInit, AllocError>
    ensures { IfOk result (λ copy. single_field_init_of copy ≡ single_field_init_of field.now) }
{
    Ok(FieldInit {
        name: field.name.clone()?,
        value: copy_boxed(&field.value)?,
        pos: field.pos,
    })
}
