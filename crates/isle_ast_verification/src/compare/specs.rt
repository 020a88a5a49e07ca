//! Comparison of spec expressions.

ghost use Rattle.std.specs.Prelude.{◌≡◌, ◌&&◌, true};
ghost use Rattle.std.specs.Cmp.{partial_equiv_from_equiv};
ghost use Rattle.std.specs.Ordering.{on};
ghost use Rattle.isle_ast_verification.specs.SameSpec.{arms_equiv, field_inits_equiv, has_parts};
ghost use Rattle.isle_ast_verification.specs.SameSpec.{same_arms};
ghost use Rattle.isle_ast_verification.specs.SameSpec.{same_field_inits, same_names};
ghost use Rattle.isle_ast_verification.specs.SameSpec.{same_single_arm};
ghost use Rattle.isle_ast_verification.specs.SameSpec.{same_single_field_init};
ghost use Rattle.isle_ast_verification.specs.SameSpec.{same_single_spec_let};
ghost use Rattle.isle_ast_verification.specs.SameSpec.{same_spec, same_spec_lets, same_specs};
ghost use Rattle.isle_ast_verification.specs.SameSpec.{spec_exprs_equiv};
ghost use Rattle.isle_ast_verification.specs.TreeView.{arm_list_of, field_init_list_of};
ghost use Rattle.isle_ast_verification.specs.TreeView.{single_arm_of};
ghost use Rattle.isle_ast_verification.specs.TreeView.{single_arms_of, single_field_init_of};
ghost use Rattle.isle_ast_verification.specs.TreeView.{single_field_inits_of, single_spec_let_of};
ghost use Rattle.isle_ast_verification.specs.TreeView.{single_spec_lets_of, spec_let_list_of};
ghost use Rattle.isle_ast_verification.specs.TreeView.{spec_of};
ghost use Rattle.isle_ast_verification.specs.TreeView.{spec_list_of, specs_of};
ghost use Rattle.isle_ast_names.specs.TreeView.{names_of};

use crate::{Arm, FieldInit, SpecExpr};
use isle_ast_names::Ident;

impl PartialEq for SpecExpr {
    ghost eq = { on spec_of same_spec };

    ghost laws = { partial_equiv_from_equiv spec_exprs_equiv };

    fn eq(&self, other: &SpecExpr) -> bool {
        same_spec(self, other)
    }
}

impl Eq for SpecExpr {
    ghost laws = { spec_exprs_equiv };
}

impl PartialEq for Arm {
    ghost eq = { on single_arm_of same_single_arm };

    ghost laws = { partial_equiv_from_equiv arms_equiv };

    fn eq(&self, other: &Arm) -> bool {
        same_arm(self, other)
    }
}

impl Eq for Arm {
    ghost laws = { arms_equiv };
}

impl PartialEq for FieldInit {
    ghost eq = { on single_field_init_of same_single_field_init };

    ghost laws = { partial_equiv_from_equiv field_inits_equiv };

    fn eq(&self, other: &FieldInit) -> bool {
        same_field_init(self, other)
    }
}

impl Eq for FieldInit {
    ghost laws = { field_inits_equiv };
}

fn same_names(names: &Vec<Ident>, others: &Vec<Ident>) -> bool
    ensures { result ≡ same_names (names_of names.now.items) (names_of others.now.items) }
{
    names == others
}

#[cycle(same)]
#[tactic(auto, using(crate::proofs::SpecLets::let_seen))]
fn same_spec(a: &SpecExpr, b: &SpecExpr) -> bool
    ensures { result ≡ same_spec (spec_of a.now) (spec_of b.now) }
{
    match a {
        SpecExpr::ConstInt { val, pos } => {
            matches!(b, SpecExpr::ConstInt { val: other, pos: place }
                if val == other && pos == place)
        }
        SpecExpr::ConstBitVec { val, width, pos } => {
            matches!(b, SpecExpr::ConstBitVec { val: other, width: bits, pos: place }
                if val == other && width == bits && pos == place)
        }
        SpecExpr::ConstBool { val, pos } => {
            matches!(b, SpecExpr::ConstBool { val: other, pos: place }
                if val == other && pos == place)
        }
        SpecExpr::Var { var, pos } => {
            matches!(b, SpecExpr::Var { var: other, pos: place } if var == other && pos == place)
        }
        SpecExpr::As { x, ty, pos } => {
            matches!(b, SpecExpr::As { x: y, ty: model, pos: place }
                if same_spec(x, y) && ty == model && pos == place)
        }
        SpecExpr::Field { field, x, pos } => {
            matches!(b, SpecExpr::Field { field: other, x: y, pos: place }
                if field == other && same_spec(x, y) && pos == place)
        }
        SpecExpr::Discriminator { variant, x, pos } => {
            matches!(b, SpecExpr::Discriminator { variant: other, x: y, pos: place }
                if variant == other && same_spec(x, y) && pos == place)
        }
        SpecExpr::Pair { l, r, pos } => {
            matches!(b, SpecExpr::Pair { l: left, r: right, pos: place }
                if same_spec(l, left) && same_spec(r, right) && pos == place)
        }
        _ => same_parts(a, b),
    }
}

/// Returns whether two spec expressions are equal, if the first has lists of parts.
#[cycle(same)]
#[tactic(auto, using(crate::proofs::SpecLets::let_seen))]
fn same_parts(a: &SpecExpr, b: &SpecExpr) -> bool
    requires { has_parts (spec_of a.now) ≡ true }
    ensures { result ≡ same_spec (spec_of a.now) (spec_of b.now) }
{
    match a {
        SpecExpr::Op { op, args, pos } => {
            matches!(b, SpecExpr::Op { op: other, args: others, pos: place }
                if op == other && same_specs(args, others) && pos == place)
        }
        SpecExpr::Match { x, arms, pos } => {
            matches!(b, SpecExpr::Match { x: y, arms: others, pos: place }
                if same_spec(x, y) && same_arms(arms, others) && pos == place)
        }
        SpecExpr::Let { defs, body, pos } => {
            matches!(b, SpecExpr::Let { defs: others, body: inner, pos: place }
                if same_spec_lets(defs, others) && same_spec(body, inner) && pos == place)
        }
        SpecExpr::With { decls, body, pos } => {
            matches!(b, SpecExpr::With { decls: others, body: inner, pos: place }
                if same_names(decls, others) && same_spec(body, inner) && pos == place)
        }
        SpecExpr::Macro { params, body, pos } => {
            matches!(b, SpecExpr::Macro { params: others, body: inner, pos: place }
                if same_names(params, others) && same_spec(body, inner) && pos == place)
        }
        SpecExpr::Expand { name, args, pos } => {
            matches!(b, SpecExpr::Expand { name: other, args: others, pos: place }
                if name == other && same_specs(args, others) && pos == place)
        }
        SpecExpr::Enum {
            name,
            variant,
            args,
            pos,
        } => {
            matches!(b, SpecExpr::Enum { name: other, variant: case, args: others, pos: place }
                if name == other && variant == case && same_specs(args, others) && pos == place)
        }
        SpecExpr::Struct { fields, pos } => {
            matches!(b, SpecExpr::Struct { fields: others, pos: place }
                if same_field_inits(fields, others) && pos == place)
        }
        _ => false,
    }
}

#[cycle(same)]
fn same_specs(exprs: &Vec<SpecExpr>, others: &Vec<SpecExpr>) -> bool
    ensures { result
        ≡ same_specs (spec_list_of (specs_of exprs.now.items))
        (spec_list_of (specs_of others.now.items)) }
{
    if exprs.len() != others.len() {
        return false;
    }
    for i in 0..exprs.len() {
        if !same_spec(&exprs[i], &others[i]) {
            return false;
        }
    }
    true
}

#[cycle(same)]
fn same_arms(arms: &Vec<Arm>, others: &Vec<Arm>) -> bool
    ensures { result
        ≡ same_arms (arm_list_of (single_arms_of arms.now.items))
        (arm_list_of (single_arms_of others.now.items)) }
{
    if arms.len() != others.len() {
        return false;
    }
    for i in 0..arms.len() {
        if !same_arm(&arms[i], &others[i]) {
            return false;
        }
    }
    true
}

#[cycle(same)]
fn same_arm(arm: &Arm, other: &Arm) -> bool
    ensures { result ≡ same_single_arm (single_arm_of arm.now) (single_arm_of other.now) }
{
    arm.variant == other.variant
        && same_names(&arm.args, &other.args)
        && same_spec(&arm.body, &other.body)
        && arm.pos == other.pos
}

#[cycle(same)]
fn same_spec_lets(defs: &Vec<(Ident, SpecExpr)>, others: &Vec<(Ident, SpecExpr)>) -> bool
    ensures { result
        ≡ same_spec_lets (spec_let_list_of (single_spec_lets_of defs.now.items))
        (spec_let_list_of (single_spec_lets_of others.now.items)) }
{
    if defs.len() != others.len() {
        return false;
    }
    for i in 0..defs.len() {
        if !same_spec_let(&defs[i], &others[i]) {
            return false;
        }
    }
    true
}

#[cycle(same)]
fn same_spec_let(def: &(Ident, SpecExpr), other: &(Ident, SpecExpr)) -> bool
    ensures { result
        ≡ same_single_spec_let (single_spec_let_of def.now) (single_spec_let_of other.now) }
{
    def.0 == other.0 && same_spec(&def.1, &other.1)
}

#[cycle(same)]
fn same_field_inits(fields: &Vec<FieldInit>, others: &Vec<FieldInit>) -> bool
    ensures { result
        ≡ same_field_inits (field_init_list_of (single_field_inits_of fields.now.items))
        (field_init_list_of (single_field_inits_of others.now.items)) }
{
    if fields.len() != others.len() {
        return false;
    }
    for i in 0..fields.len() {
        if !same_field_init(&fields[i], &others[i]) {
            return false;
        }
    }
    true
}

#[cycle(same)]
fn same_field_init(field: &FieldInit, other: &FieldInit) -> bool
    ensures { result
        ≡ same_single_field_init (single_field_init_of field.now) (single_field_init_of other.now) }
{
    field.name == other.name && same_spec(&field.value, &other.value) && field.pos == other.pos
}
