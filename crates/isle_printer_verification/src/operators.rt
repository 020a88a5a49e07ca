//! The S-expressions of operators of spec expressions.

ghost use Rattle.std.specs.Prelude.{◌≡◌, [], ◌∷◌, OnOk};
ghost use Rattle.isle_ast_verification.specs.Operators.{operator_text};
ghost use Rattle.isle_printer_layout.specs.Pieces.{put_before};
ghost use Rattle.isle_printer_verification.specs.SpecShapes.{operator_shape};

use isle_ast_verification::SpecOp;
use isle_printer_layout::Tape;
use std::alloc::AllocError;

/// The texts of the operators, in the order of the type.
const TEXTS: [&str; 86] = [
    "=",
    "and",
    "or",
    "not",
    "=>",
    "+",
    "-",
    "*",
    "<",
    "<=",
    ">",
    ">=",
    "bvnot",
    "bvand",
    "bvor",
    "bvxor",
    "bvneg",
    "bvadd",
    "bvsub",
    "bvmul",
    "bvudiv",
    "bvurem",
    "bvsdiv",
    "bvsrem",
    "bvshl",
    "bvlshr",
    "bvashr",
    "bvule",
    "bvult",
    "bvugt",
    "bvuge",
    "bvslt",
    "bvsle",
    "bvsgt",
    "bvsge",
    "bvsaddo",
    "rotr",
    "rotl",
    "extract",
    "zero_ext",
    "sign_ext",
    "concat",
    "replicate",
    "fp.eq",
    "fp.ne",
    "fp.lt",
    "fp.gt",
    "fp.le",
    "fp.ge",
    "fp.+oo",
    "fp.-oo",
    "fp.+zero",
    "fp.-zero",
    "fp.NaN",
    "fp.add",
    "fp.sub",
    "fp.mul",
    "fp.div",
    "fp.min",
    "fp.max",
    "fp.neg",
    "fp.ceil",
    "fp.floor",
    "fp.sqrt",
    "fp.trunc",
    "fp.nearest",
    "fp.isZero",
    "fp.isInfinite",
    "fp.isNaN",
    "fp.isNegative",
    "fp.isPositive",
    "popcnt",
    "clz",
    "cls",
    "rev",
    "conv_to",
    "int2bv",
    "bv2nat",
    "to_fp",
    "to_fp_unsigned",
    "to_fp_from_fp",
    "fp.to_ubv",
    "fp.to_sbv",
    "widthof",
    "if",
    "switch",
];

/// Prepends an operator.
pub fn operator<'src>(op: &'src SpecOp, tape: &mut Tape<'src>) -> Result<(), AllocError>
    ensures { OnOk result (tape.new ≡ put_before (operator_shape op.now ∷ []) tape.old) }
{
    tape.atom(text(op))
}

fn text(op: &SpecOp) -> &'static str
    ensures { result.now ≡ operator_text op.now }
{
    TEXTS[*op as usize]
}
