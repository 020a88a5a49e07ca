//! Encodes numbers, flags and integers.

ghost use Rattle.std.specs.Prelude.{◌≡◌, ◌<◌, ◌++◌, [], ◌∷◌, OnOk, string_bytes};
ghost use Rattle.isle_encoding.specs.Numbers.{flag, integer, number};

use std::alloc::AllocError;

/// Appends an ASCII byte.
#[inline(always)]
pub fn put_byte(out: &mut String, byte: u8) -> Result<(), AllocError>
    requires { byte < 128 }
    ensures { OnOk result (string_bytes out.new ≡ string_bytes out.old ++ byte ∷ []) }
{
    out.push(byte as char)
}

/// Appends a number.
#[tactic(auto, using(crate::proofs::Digits::number_few))]
pub fn put_number(out: &mut String, value: usize) -> Result<(), AllocError>
    ensures { OnOk result (string_bytes out.new ≡ string_bytes out.old ++ number value) }
{
    let mut rest = value;
    while rest >= 64 {
        put_byte(out, (64 + rest % 64) as u8)?;
        rest /= 64;
    }
    put_byte(out, rest as u8)
}

/// Appends a number of up to 128 bits.
#[tactic(auto, using(crate::proofs::Digits::number_few))]
pub fn put_large_number(out: &mut String, value: u128) -> Result<(), AllocError>
    ensures { OnOk result (string_bytes out.new ≡ string_bytes out.old ++ number value) }
{
    let mut rest = value;
    while rest >= 64 {
        put_byte(out, (64 + rest % 64) as u8)?;
        rest /= 64;
    }
    put_byte(out, rest as u8)
}

/// Appends a flag: 1 if it is true, and 0 if not.
pub fn put_flag(out: &mut String, value: bool) -> Result<(), AllocError>
    ensures { OnOk result (string_bytes out.new ≡ string_bytes out.old ++ flag value) }
{
    put_byte(out, value as u8)
}

pub fn put_integer(out: &mut String, value: i128) -> Result<(), AllocError>
    ensures { OnOk result (string_bytes out.new ≡ string_bytes out.old ++ integer value) }
{
    if value < 0 {
        put_byte(out, 1)?;
        put_large_number(out, (-(value + 1)) as u128)
    } else {
        put_byte(out, 0)?;
        put_large_number(out, value as u128)
    }
}
