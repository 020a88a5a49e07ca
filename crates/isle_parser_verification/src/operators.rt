//! The operators of spec expressions, by their texts.
//!
//! The tables are by the length of the text, in the order of the type, so a text is compared only
//! with those of its own length. `switch` has syntax of its own, and is in no table.
#![tactic(auto, unfolding(crate::specs::OperatorRows::rows_of_length))]

ghost use Rattle.std.specs.Prelude.{◌≡◌, map};
ghost use Rattle.isle_parser_verification.specs.OperatorRows.{rows_of_length};
ghost use Rattle.isle_parser_verification.specs.SpecWords.{in_table, operator_of};

use isle_ast_verification::SpecOp;

/// The operators of one byte.
const OF_ONE: [(&str, SpecOp); 6] = [
    ("=", SpecOp::Eq),
    ("+", SpecOp::Add),
    ("-", SpecOp::Sub),
    ("*", SpecOp::Mul),
    ("<", SpecOp::Lt),
    (">", SpecOp::Gt),
];

/// The operators of two bytes.
const OF_TWO: [(&str, SpecOp); 5] = [
    ("or", SpecOp::Or),
    ("=>", SpecOp::Imp),
    ("<=", SpecOp::Lte),
    (">=", SpecOp::Gte),
    ("if", SpecOp::If),
];

/// The operators of three bytes.
const OF_THREE: [(&str, SpecOp); 5] = [
    ("and", SpecOp::And),
    ("not", SpecOp::Not),
    ("clz", SpecOp::Clz),
    ("cls", SpecOp::Cls),
    ("rev", SpecOp::Rev),
];

/// The operators of four bytes.
const OF_FOUR: [(&str, SpecOp); 3] = [
    ("bvor", SpecOp::BVOr),
    ("rotr", SpecOp::Rotr),
    ("rotl", SpecOp::Rotl),
];

/// The operators of five bytes.
const OF_FIVE: [(&str, SpecOp); 23] = [
    ("bvnot", SpecOp::BVNot),
    ("bvand", SpecOp::BVAnd),
    ("bvxor", SpecOp::BVXor),
    ("bvneg", SpecOp::BVNeg),
    ("bvadd", SpecOp::BVAdd),
    ("bvsub", SpecOp::BVSub),
    ("bvmul", SpecOp::BVMul),
    ("bvshl", SpecOp::BVShl),
    ("bvule", SpecOp::BVUle),
    ("bvult", SpecOp::BVUlt),
    ("bvugt", SpecOp::BVUgt),
    ("bvuge", SpecOp::BVUge),
    ("bvslt", SpecOp::BVSlt),
    ("bvsle", SpecOp::BVSle),
    ("bvsgt", SpecOp::BVSgt),
    ("bvsge", SpecOp::BVSge),
    ("fp.eq", SpecOp::FPEq),
    ("fp.ne", SpecOp::FPNe),
    ("fp.lt", SpecOp::FPLt),
    ("fp.gt", SpecOp::FPGt),
    ("fp.le", SpecOp::FPLe),
    ("fp.ge", SpecOp::FPGe),
    ("to_fp", SpecOp::ToFP),
];

/// The operators of six bytes.
const OF_SIX: [(&str, SpecOp); 20] = [
    ("bvudiv", SpecOp::BVUdiv),
    ("bvurem", SpecOp::BVUrem),
    ("bvsdiv", SpecOp::BVSdiv),
    ("bvsrem", SpecOp::BVSrem),
    ("bvlshr", SpecOp::BVLshr),
    ("bvashr", SpecOp::BVAshr),
    ("concat", SpecOp::Concat),
    ("fp.+oo", SpecOp::FPPositiveInfinity),
    ("fp.-oo", SpecOp::FPNegativeInfinity),
    ("fp.NaN", SpecOp::FPNaN),
    ("fp.add", SpecOp::FPAdd),
    ("fp.sub", SpecOp::FPSub),
    ("fp.mul", SpecOp::FPMul),
    ("fp.div", SpecOp::FPDiv),
    ("fp.min", SpecOp::FPMin),
    ("fp.max", SpecOp::FPMax),
    ("fp.neg", SpecOp::FPNeg),
    ("popcnt", SpecOp::Popcnt),
    ("int2bv", SpecOp::Int2BV),
    ("bv2nat", SpecOp::BV2Nat),
];

/// The operators of seven bytes.
const OF_SEVEN: [(&str, SpecOp); 6] = [
    ("bvsaddo", SpecOp::BVSaddo),
    ("extract", SpecOp::Extract),
    ("fp.ceil", SpecOp::FPCeil),
    ("fp.sqrt", SpecOp::FPSqrt),
    ("conv_to", SpecOp::ConvTo),
    ("widthof", SpecOp::WidthOf),
];

/// The operators of eight bytes.
const OF_EIGHT: [(&str, SpecOp); 7] = [
    ("zero_ext", SpecOp::ZeroExt),
    ("sign_ext", SpecOp::SignExt),
    ("fp.+zero", SpecOp::FPPositiveZero),
    ("fp.-zero", SpecOp::FPNegativeZero),
    ("fp.floor", SpecOp::FPFloor),
    ("fp.trunc", SpecOp::FPTrunc),
    ("fp.isNaN", SpecOp::FPIsNaN),
];

/// The operators of nine bytes.
const OF_NINE: [(&str, SpecOp); 4] = [
    ("replicate", SpecOp::Replicate),
    ("fp.isZero", SpecOp::FPIsZero),
    ("fp.to_ubv", SpecOp::FPToUBV),
    ("fp.to_sbv", SpecOp::FPToSBV),
];

/// The operators of ten bytes.
const OF_TEN: [(&str, SpecOp); 1] = [("fp.nearest", SpecOp::FPNearest)];

/// The operators of thirteen bytes.
const OF_THIRTEEN: [(&str, SpecOp); 4] = [
    ("fp.isInfinite", SpecOp::FPIsInfinite),
    ("fp.isNegative", SpecOp::FPIsNegative),
    ("fp.isPositive", SpecOp::FPIsPositive),
    ("to_fp_from_fp", SpecOp::ToFPFromFP),
];

/// The operators of fourteen bytes.
const OF_FOURTEEN: [(&str, SpecOp); 1] = [("to_fp_unsigned", SpecOp::ToFPUnsigned)];

/// The operators of `len` bytes.
fn of_length(len: usize) -> &'static [(&'static str, SpecOp)]
    ensures { map (λ row. (row.0.now, row.1)) result.now ≡ rows_of_length len }
{
    match len {
        1 => &OF_ONE,
        2 => &OF_TWO,
        3 => &OF_THREE,
        4 => &OF_FOUR,
        5 => &OF_FIVE,
        6 => &OF_SIX,
        7 => &OF_SEVEN,
        8 => &OF_EIGHT,
        9 => &OF_NINE,
        10 => &OF_TEN,
        13 => &OF_THIRTEEN,
        14 => &OF_FOURTEEN,
        _ => &[],
    }
}

/// The operator with this text.
#[tactic(auto, using(crate::proofs::Words::Lengths::found_by_length))]
pub(super) fn operator_of(text: &str) -> Option<SpecOp>
    ensures { result ≡ operator_of text.now }
{
    in_table(of_length(text.len()), text)
}

/// The operator in the first row with this text.
fn in_table(rows: &[(&str, SpecOp)], text: &str) -> Option<SpecOp>
    ensures { result ≡ in_table (map (λ row. (row.0.now, row.1)) rows.now) text.now }
{
    for (name, operator) in rows {
        if text == *name {
            return Some(*operator);
        }
    }
    None
}
