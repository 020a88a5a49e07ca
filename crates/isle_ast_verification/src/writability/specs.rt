//! The specs that can be written as text and read back.

ghost use Rattle.std.specs.Prelude.{◌≡◌, map};
ghost use Rattle.std.specs.List.{list_all};
ghost use Rattle.isle_ast_verification.specs.TreeView.{arm_list_of, field_init_list_of};
ghost use Rattle.isle_ast_verification.specs.TreeView.{modified_of};
ghost use Rattle.isle_ast_verification.specs.TreeView.{single_arm_of, single_arms_of};
ghost use Rattle.isle_ast_verification.specs.TreeView.{single_field_init_of, single_field_inits_of};
ghost use Rattle.isle_ast_verification.specs.TreeView.{single_spec_lets_of, spec_let_list_of};
ghost use Rattle.isle_ast_verification.specs.TreeView.{spec_definition_of, spec_macro_of, spec_of};
ghost use Rattle.isle_ast_verification.specs.TreeView.{spec_list_of, specs_of, state_of};
ghost use Rattle.isle_ast_verification.specs.WritableDeciders.{are_writable_arms};
ghost use Rattle.isle_ast_verification.specs.WritableDeciders.{are_writable_cases};
ghost use Rattle.isle_ast_verification.specs.WritableDeciders.{are_writable_field_inits};
ghost use Rattle.isle_ast_verification.specs.WritableDeciders.{are_writable_spec_lets};
ghost use Rattle.isle_ast_verification.specs.WritableDeciders.{are_writable_specs};
ghost use Rattle.isle_ast_verification.specs.WritableDeciders.{is_writable_bit_vector};
ghost use Rattle.isle_ast_verification.specs.WritableDeciders.{is_writable_modified};
ghost use Rattle.isle_ast_verification.specs.WritableDeciders.{is_writable_pair};
ghost use Rattle.isle_ast_verification.specs.WritableDeciders.{is_writable_single_arm};
ghost use Rattle.isle_ast_verification.specs.WritableDeciders.{is_writable_single_field_init};
ghost use Rattle.isle_ast_verification.specs.WritableDeciders.{is_writable_spec};
ghost use Rattle.isle_ast_verification.specs.WritableDeciders.{is_writable_spec_definition};
ghost use Rattle.isle_ast_verification.specs.WritableDeciders.{is_writable_spec_macro};
ghost use Rattle.isle_ast_verification.specs.WritableDeciders.{is_writable_state};

use crate::writability::models::is_writable_model;
use crate::{Arm, FieldInit, Modifies, Spec, SpecExpr, SpecMacro, SpecOp, State};
use isle_ast_names::Ident;
use isle_ast_names::writability::{
    are_names, is_bool_name, is_name, is_optional_name, is_variant_name, is_whole_number,
};

/// Returns whether a spec expression is writable.
#[cycle(writable)]
#[tactic(auto, using(crate::proofs::SpecLets::let_seen))]
pub fn is_writable_spec(expr: &SpecExpr) -> bool
    ensures { result ≡ is_writable_spec (spec_of expr.now) }
{
    match expr {
        SpecExpr::ConstInt { val, .. } => is_whole_number(*val),
        SpecExpr::ConstBitVec { val, width, .. } => is_bit_vector(*val, *width),
        SpecExpr::ConstBool { .. } => true,
        SpecExpr::Var { var, .. } => is_name(var) && !is_bool_name(var),
        SpecExpr::As { x, ty, .. } => is_writable_spec(x) && is_writable_model(ty),
        SpecExpr::Field { field, x, .. } => is_name(field) && is_writable_spec(x),
        SpecExpr::Discriminator { variant, x, .. } => is_name(variant) && is_writable_spec(x),
        SpecExpr::Op { op, args, .. } => match op {
            SpecOp::Switch => are_writable_cases(args),
            _ => are_writable_specs(args),
        },
        SpecExpr::Match { x, arms, .. } => is_writable_spec(x) && are_writable_arms(arms),
        SpecExpr::Let { defs, body, .. } => are_writable_lets(defs) && is_writable_spec(body),
        SpecExpr::With { decls, body, .. } => are_names(decls) && is_writable_spec(body),
        SpecExpr::Macro { params, body, .. } => are_names(params) && is_writable_spec(body),
        SpecExpr::Expand { name, args, .. } => is_name(name) && are_writable_specs(args),
        SpecExpr::Pair { .. } => false,
        SpecExpr::Enum {
            name,
            variant,
            args,
            ..
        } => { is_variant_name(name, variant) && are_writable_specs(args) }
        SpecExpr::Struct { fields, .. } => are_writable_fields(fields),
    }
}

/// Returns whether each spec expression is writable.
#[cycle(writable)]
pub(super) fn are_writable_specs(exprs: &Vec<SpecExpr>) -> bool
    ensures { result ≡ are_writable_specs (spec_list_of (specs_of exprs.now.items)) }
{
    for expr in exprs {
        if !is_writable_spec(expr) {
            return false;
        }
    }
    true
}

/// Returns whether the arguments of a `switch` are writable: the first, and each other one as a
/// pair.
#[cycle(writable)]
fn are_writable_cases(exprs: &Vec<SpecExpr>) -> bool
    ensures { result ≡ are_writable_cases (spec_list_of (specs_of exprs.now.items)) }
{
    if exprs.is_empty() || !is_writable_spec(&exprs[0]) {
        return false;
    }
    for i in 1..exprs.len() {
        if !is_writable_pair(&exprs[i]) {
            return false;
        }
    }
    true
}

/// Returns whether a spec expression is a pair of two writable ones.
#[cycle(writable)]
fn is_writable_pair(expr: &SpecExpr) -> bool
    ensures { result ≡ is_writable_pair (spec_of expr.now) }
{
    match expr {
        SpecExpr::Pair { l, r, .. } => is_writable_spec(l) && is_writable_spec(r),
        _ => false,
    }
}

#[cycle(writable)]
fn are_writable_arms(arms: &Vec<Arm>) -> bool
    ensures { result ≡ are_writable_arms (arm_list_of (single_arms_of arms.now.items)) }
{
    for arm in arms {
        if !is_writable_arm(arm) {
            return false;
        }
    }
    true
}

#[cycle(writable)]
fn is_writable_arm(arm: &Arm) -> bool
    ensures { result ≡ is_writable_single_arm (single_arm_of arm.now) }
{
    is_name(&arm.variant) && are_names(&arm.args) && is_writable_spec(&arm.body)
}

/// Returns whether each name and value of a `let` is writable.
#[cycle(writable)]
fn are_writable_lets(defs: &Vec<(Ident, SpecExpr)>) -> bool
    ensures { result
        ≡ are_writable_spec_lets (spec_let_list_of (single_spec_lets_of defs.now.items)) }
{
    for def in defs {
        if !is_name(&def.0) || !is_writable_spec(&def.1) {
            return false;
        }
    }
    true
}

/// Returns whether each field of a `struct` is writable.
#[cycle(writable)]
fn are_writable_fields(fields: &Vec<FieldInit>) -> bool
    ensures { result
        ≡ are_writable_field_inits (field_init_list_of (single_field_inits_of fields.now.items)) }
{
    for field in fields {
        if !is_writable_field(field) {
            return false;
        }
    }
    true
}

#[cycle(writable)]
fn is_writable_field(field: &FieldInit) -> bool
    ensures { result ≡ is_writable_single_field_init (single_field_init_of field.now) }
{
    is_name(&field.name) && is_writable_spec(&field.value)
}

/// Returns whether a bit vector has at least one bit, and its value fits.
fn is_bit_vector(val: u128, width: usize) -> bool
    ensures { result ≡ is_writable_bit_vector val width }
{
    width >= 1 && (width >= 128 || val < 1 << width)
}

/// Returns whether the specification of a term is writable.
pub fn is_writable_definition(spec: &Spec) -> bool
    ensures { result ≡ is_writable_spec_definition (spec_definition_of spec.now) }
{
    is_name(&spec.term)
        && are_names(&spec.args)
        && are_writable_specs(&spec.provides)
        && are_writable_specs(&spec.requires_)
        && are_writable_specs(&spec.matches)
        && are_writable_modifies(&spec.modifies)
}

fn are_writable_modifies(modifies: &[Modifies]) -> bool
    ensures { result ≡ list_all is_writable_modified (map modified_of modifies.now) }
{
    modifies.iter().all(is_writable_modified)
}

/// Returns whether a state that a term modifies is writable.
fn is_writable_modified(modified: &Modifies) -> bool
    ensures { result ≡ is_writable_modified (modified_of modified.now) }
{
    is_name(&modified.state) && is_optional_name(&modified.cond)
}

/// Returns whether a macro of spec expressions is writable.
pub fn is_writable_macro(spec_macro: &SpecMacro) -> bool
    ensures { result ≡ is_writable_spec_macro (spec_macro_of spec_macro.now) }
{
    is_name(&spec_macro.name) && are_names(&spec_macro.params) && is_writable_spec(&spec_macro.body)
}

/// Returns whether a state of specs is writable.
pub fn is_writable_state(state: &State) -> bool
    ensures { result ≡ is_writable_state (state_of state.now) }
{
    is_name(&state.name) && is_writable_model(&state.ty) && is_writable_spec(&state.default)
}
