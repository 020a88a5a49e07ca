//! Specifications of terms, types and states, for verification.

use super::ModelType;
use isle_ast_names::Ident;
use isle_base::lexer::Pos;

/// A spec expression. Its position is that of its first token, but that of a `Pair` is the position
/// of the token after its `(`.
#[cycle(spec)]
#[derive(Debug, Drop)]
pub enum SpecExpr {
    /// An integer.
    ConstInt {
        val: i128,
        pos: Pos,
    },
    /// A bit vector, `#b..` or `#x..`.
    ConstBitVec {
        val: u128,
        /// The width in bits.
        width: usize,
        pos: Pos,
    },
    /// `true` or `false`.
    ConstBool {
        val: bool,
        pos: Pos,
    },
    /// A variable.
    Var {
        var: Ident,
        pos: Pos,
    },
    /// An expression with a model of its type, `(as x T)`.
    As {
        x: Box<SpecExpr>,
        /// The model.
        ty: ModelType,
        pos: Pos,
    },
    /// A field of a struct, `(:field x)`.
    Field {
        /// The name of the field, without its `:`.
        field: Ident,
        /// The struct.
        x: Box<SpecExpr>,
        pos: Pos,
    },
    /// A test of a value's variant, `(variant? x)`.
    Discriminator {
        /// The name of the variant, without its `?`.
        variant: Ident,
        x: Box<SpecExpr>,
        pos: Pos,
    },
    /// An operator and its arguments.
    Op {
        /// The operator.
        op: SpecOp,
        /// The arguments.
        args: Vec<SpecExpr>,
        pos: Pos,
    },
    /// A choice by variant, `(match x ((variant field ..) body) ..)`.
    Match {
        x: Box<SpecExpr>,
        /// The arms, in order.
        arms: Vec<Arm>,
        pos: Pos,
    },
    /// An expression with definitions of names, `(let ((x value) ..) body)`.
    Let {
        /// The names and their values, in order.
        defs: Vec<(Ident, SpecExpr)>,
        /// The body.
        body: Box<SpecExpr>,
        pos: Pos,
    },
    /// An expression with declarations of names, `(with (x ..) body)`.
    With {
        /// The names, in order.
        decls: Vec<Ident>,
        /// The body.
        body: Box<SpecExpr>,
        pos: Pos,
    },
    /// An anonymous macro, `(macro (x ..) body)`.
    Macro {
        /// The parameters, in order.
        params: Vec<Ident>,
        /// The expansion.
        body: Box<SpecExpr>,
        pos: Pos,
    },
    /// The expansion of a macro, `(name! arg ..)`.
    Expand {
        /// The name of the macro, without its `!`.
        name: Ident,
        /// The arguments.
        args: Vec<SpecExpr>,
        pos: Pos,
    },
    /// A case of a `switch`, `(value result)`.
    Pair {
        l: Box<SpecExpr>,
        /// The result.
        r: Box<SpecExpr>,
        pos: Pos,
    },
    /// A variant of an enum, `(name.variant arg ..)`.
    Enum {
        /// The name of the enum. Its position is that of the `(`.
        name: Ident,
        /// The name of the variant. Its position is that of the `(`.
        variant: Ident,
        /// The values of its fields.
        args: Vec<SpecExpr>,
        pos: Pos,
    },
    /// A struct, `(struct (field value) ..)`.
    Struct {
        /// The fields, in order.
        fields: Vec<FieldInit>,
        pos: Pos,
    },
}

/// An operator of spec expressions. Operators are only symbols here, and are never evaluated.
#[derive(Clone, Copy, Debug, PartialEq, Eq)]
pub enum SpecOp {
    /// `=`
    Eq,
    /// `and`
    And,
    /// `or`
    Or,
    /// `not`
    Not,
    /// `=>`
    Imp,
    /// `+`
    Add,
    /// `-`
    Sub,
    /// `*`
    Mul,
    /// `<`
    Lt,
    /// `<=`
    Lte,
    /// `>`
    Gt,
    /// `>=`
    Gte,
    /// `bvnot`
    BVNot,
    /// `bvand`
    BVAnd,
    /// `bvor`
    BVOr,
    /// `bvxor`
    BVXor,
    /// `bvneg`
    BVNeg,
    /// `bvadd`
    BVAdd,
    /// `bvsub`
    BVSub,
    /// `bvmul`
    BVMul,
    /// `bvudiv`
    BVUdiv,
    /// `bvurem`
    BVUrem,
    /// `bvsdiv`
    BVSdiv,
    /// `bvsrem`
    BVSrem,
    /// `bvshl`
    BVShl,
    /// `bvlshr`
    BVLshr,
    /// `bvashr`
    BVAshr,
    /// `bvule`
    BVUle,
    /// `bvult`
    BVUlt,
    /// `bvugt`
    BVUgt,
    /// `bvuge`
    BVUge,
    /// `bvslt`
    BVSlt,
    /// `bvsle`
    BVSle,
    /// `bvsgt`
    BVSgt,
    /// `bvsge`
    BVSge,
    /// `bvsaddo`
    BVSaddo,
    /// `rotr`
    Rotr,
    /// `rotl`
    Rotl,
    /// `extract`
    Extract,
    /// `zero_ext`
    ZeroExt,
    /// `sign_ext`
    SignExt,
    /// `concat`
    Concat,
    /// `replicate`
    Replicate,
    /// `fp.eq`
    FPEq,
    /// `fp.ne`
    FPNe,
    /// `fp.lt`
    FPLt,
    /// `fp.gt`
    FPGt,
    /// `fp.le`
    FPLe,
    /// `fp.ge`
    FPGe,
    /// `fp.+oo`
    FPPositiveInfinity,
    /// `fp.-oo`
    FPNegativeInfinity,
    /// `fp.+zero`
    FPPositiveZero,
    /// `fp.-zero`
    FPNegativeZero,
    /// `fp.NaN`
    FPNaN,
    /// `fp.add`
    FPAdd,
    /// `fp.sub`
    FPSub,
    /// `fp.mul`
    FPMul,
    /// `fp.div`
    FPDiv,
    /// `fp.min`
    FPMin,
    /// `fp.max`
    FPMax,
    /// `fp.neg`
    FPNeg,
    /// `fp.ceil`
    FPCeil,
    /// `fp.floor`
    FPFloor,
    /// `fp.sqrt`
    FPSqrt,
    /// `fp.trunc`
    FPTrunc,
    /// `fp.nearest`
    FPNearest,
    /// `fp.isZero`
    FPIsZero,
    /// `fp.isInfinite`
    FPIsInfinite,
    /// `fp.isNaN`
    FPIsNaN,
    /// `fp.isNegative`
    FPIsNegative,
    /// `fp.isPositive`
    FPIsPositive,
    /// `popcnt`
    Popcnt,
    /// `clz`
    Clz,
    /// `cls`
    Cls,
    /// `rev`
    Rev,
    /// `conv_to`
    ConvTo,
    /// `int2bv`
    Int2BV,
    /// `bv2nat`
    BV2Nat,
    /// `to_fp`
    ToFP,
    /// `to_fp_unsigned`
    ToFPUnsigned,
    /// `to_fp_from_fp`
    ToFPFromFP,
    /// `fp.to_ubv`
    FPToUBV,
    /// `fp.to_sbv`
    FPToSBV,
    /// `widthof`
    WidthOf,
    /// `if`
    If,
    /// `switch`
    Switch,
}

/// An arm of a `match`, `((variant field ..) body)`.
#[cycle(spec)]
#[derive(Debug, Drop)]
pub struct Arm {
    /// The name of the variant.
    pub variant: Ident,
    /// The names of its fields.
    pub args: Vec<Ident>,
    /// The value of the arm.
    pub body: SpecExpr,
    /// The position of the token after its `(`.
    pub pos: Pos,
}

/// A field of a struct and its value, `(name value)`.
#[cycle(spec)]
#[derive(Debug, Drop)]
pub struct FieldInit {
    /// The name of the field.
    pub name: Ident,
    /// Its value.
    pub value: Box<SpecExpr>,
    /// The position of the token after its `(`.
    pub pos: Pos,
}

/// A macro of spec expressions, `(macro (name x ..) body)`.
#[derive(Debug, PartialEq, Eq, Drop)]
pub struct SpecMacro {
    /// The name of the macro.
    pub name: Ident,
    /// The parameters, in order.
    pub params: Vec<Ident>,
    /// The expansion.
    pub body: SpecExpr,
    /// The position of the token after the keyword.
    pub pos: Pos,
}

/// A state that a term modifies, `(modifies state)` or `(modifies state cond)`.
#[derive(Debug, PartialEq, Eq, Drop)]
pub struct Modifies {
    /// The state.
    pub state: Ident,
    /// The name of the condition under which it is modified, if any.
    pub cond: Option<Ident>,
}

/// The specification of a term, `(spec (term x ..) ..)`.
#[derive(Debug, PartialEq, Eq, Drop)]
pub struct Spec {
    /// The term.
    pub term: Ident,
    /// The names of its arguments.
    pub args: Vec<Ident>,
    /// The expressions of all `provide` clauses, in order.
    pub provides: Vec<SpecExpr>,
    /// The expressions of all `require` clauses, in order. Upstream's name, `requires`, is a
    /// keyword here.
    pub requires_: Vec<SpecExpr>,
    /// The expressions of all `match` clauses, in order.
    pub matches: Vec<SpecExpr>,
    /// The states that it modifies, in order.
    pub modifies: Vec<Modifies>,
    /// The position of the token after the keyword.
    pub pos: Pos,
}

/// A state of specs, `(state name (type T) (default value))`.
#[derive(Debug, PartialEq, Eq, Drop)]
pub struct State {
    /// The name of the state.
    pub name: Ident,
    /// The model of its values.
    pub ty: ModelType,
    /// Its value if no term modifies it.
    pub default: SpecExpr,
    /// The position of the token after the keyword.
    pub pos: Pos,
}
