//! Bit vectors as atoms: digits in a radix, with leading zeros up to the width.

ghost use Rattle.std.specs.Prelude.{◌≡◌, ◌≤◌, ◌<◌, [], ◌∷◌, ◌++◌, replicate, string_bytes, OnOk};
ghost use Rattle.std.specs.Char.{digit_char};
ghost use Rattle.isle_printer_layout.specs.Pieces.{put_before};
ghost use Rattle.isle_printer_layout.specs.Sexp.{atom};
ghost use Rattle.isle_printer_verification.specs.SpecShapes.{bit_vector_text, radix_text};
ghost use Rattle.isle_printer_verification.specs.SpecShapes.{zero_padded};

use isle_printer_layout::Tape;
use std::alloc::AllocError;

/// The maximum number of digits of a number, in any radix.
const MOST_DIGITS: usize = 128;

/// Prepends a bit vector of this value and width: in hexadecimal if the width is a multiple of 4,
/// else in binary.
pub fn bit_vector(val: u128, width: usize, tape: &mut Tape) -> Result<(), AllocError>
    ensures { OnOk result
        (tape.new ≡ put_before (atom (bit_vector_text val width) ∷ []) tape.old) }
{
    if width % 4 == 0 {
        marked_digits("#x", 16, val, width / 4, tape)
    } else {
        marked_digits("#b", 2, val, width, tape)
    }
}

/// Prepends an atom of a mark and the digits of a number, at least `least` of them.
fn marked_digits(
    mark: &str,
    radix: u32,
    val: u128,
    least: usize,
    tape: &mut Tape,
) -> Result<(), AllocError>
    requires low { 2 ≤ radix }
    requires high { radix ≤ 16 }
    ensures { OnOk result (tape.new
        ≡ put_before (atom (mark.now ++ zero_padded least (radix_text radix val)) ∷ []) tape.old) }
{
    let mut digits = String::with_capacity(tape.alloc(), least.min(MOST_DIGITS))?;
    push_digits(&mut digits, radix, val)?;
    let room = mark.len().saturating_add(least.max(digits.len()));
    let mut text = String::with_capacity(tape.alloc(), room)?;
    text.push_str(mark)?;
    push_zeros(&mut text, least.saturating_sub(digits.len()))?;
    text.push_str(&digits)?;
    tape.owned(text)
}

fn push_zeros(out: &mut String, count: usize) -> Result<(), AllocError>
    ensures { OnOk result (string_bytes out.new ≡ string_bytes out.old ++ replicate count 48) }
{
    for _ in 0..count {
        out.push('0')?;
    }
    Ok(())
}

/// Appends the digits of a number in a radix, the highest first.
fn push_digits(out: &mut String, radix: u32, val: u128) -> Result<(), AllocError>
    requires low { 2 ≤ radix }
    requires high { radix ≤ 16 }
    ensures { OnOk result (string_bytes out.new ≡ string_bytes out.old ++ radix_text radix val) }
{
    let base = u128::from(radix);
    if val >= base {
        push_digits(out, radix, val / base)?;
    }
    push_digit(out, (val % base) as u32)?;
    Ok(())
}

/// Appends a digit. From ten on, these are `a` to `f`.
fn push_digit(out: &mut String, digit: u32) -> Result<(), AllocError>
    requires { digit < 16 }
    ensures { OnOk result (string_bytes out.new ≡ string_bytes out.old ++ digit_char digit ∷ []) }
{
    let written = char::from_digit(digit, 16).unwrap();
    out.push(written)?;
    Ok(())
}
