//! Integer literals.

ghost use Rattle.std.specs.Prelude.{◌≡◌, ◌+◌, ◌<◌, ◌≤◌, false, true, drop, length};
ghost use Rattle.std.specs.List.{prefix_len};
ghost use Rattle.isle_base.specs.Literals.{begins_literal, behind_minus, behind_prefix, digits_of};
ghost use Rattle.isle_base.specs.Literals.{has_minus, in_literal, prefix_radix, radix_at};
ghost use Rattle.isle_base.specs.Literals.{radix_of as letter_radix};
ghost use Rattle.isle_base.specs.Spellings.{is_lone_minus};
ghost use Rattle.isle_base.specs.Reads.{EndsLiteral, HasSign, IsRadix, ReadsLiteral, WritesNumber};
ghost use Rattle.isle_base.specs.Skips.{begins_with};

use crate::scanner::read::Reason;
use crate::scanner::skips::byte_at;

/// Returns whether a byte is a hexadecimal digit or `_`.
#[tactic(auto, unfolding(crate::specs::Literals::in_literal))]
fn is_in_literal(byte: u8) -> bool
    ensures { result ≡ in_literal byte }
{
    byte.is_ascii_hexdigit() || byte == b'_'
}

/// The first offset from `from` on whose byte cannot be in a literal, or the end of the text.
fn literal_end(bytes: &[u8], from: usize) -> usize
    requires { from ≤ length bytes.now }
    ensures end { result ≡ from + prefix_len in_literal (drop from bytes.now) }
    ensures within { result ≤ length bytes.now }
{
    let mut at = from;
    while at < bytes.len() && is_in_literal(bytes[at]) {
        at += 1;
    }
    at
}

/// The radix of the prefix `0` and this letter.
#[tactic(auto, unfolding(crate::specs::Literals::radix_of))]
fn radix_of(letter: u8) -> Option<u32>
    ensures { result ≡ letter_radix letter }
{
    match letter {
        b'x' | b'X' => Some(16),
        b'o' | b'O' => Some(8),
        b'b' | b'B' => Some(2),
        _ => None,
    }
}

/// The radix of the prefix at an offset.
#[tactic(auto, using(crate::proofs::Places::prefix_pair, crate::proofs::Places::prefix_end))]
fn prefix_at(bytes: &[u8], at: usize) -> Option<u32>
    requires { at ≤ length bytes.now }
    ensures { result ≡ prefix_radix (drop at bytes.now) }
{
    if at + 1 < bytes.len() && bytes[at] == b'0' {
        radix_of(bytes[at + 1])
    } else {
        None
    }
}

/// The radix of the digits at an offset, and the offset of the first of them.
#[tactic(auto, using(crate::proofs::Values::prefix_passed, crate::proofs::Values::prefix_absent, crate::proofs::Values::prefix_room, crate::proofs::Values::radix_known))]
fn digits_at(bytes: &[u8], at: usize) -> (u32, usize)
    requires { at ≤ length bytes.now }
    ensures radix { result.0 ≡ radix_at (drop at bytes.now) }
    ensures known { IsRadix result.0 }
    ensures start { drop result.1 bytes.now ≡ behind_prefix (drop at bytes.now) }
    ensures within { result.1 ≤ length bytes.now }
{
    match prefix_at(bytes, at) {
        Some(radix) => (radix, at + 2),
        None => (10, at),
    }
}

fn minus_at(bytes: &[u8], at: usize) -> bool
    requires { at < length bytes.now }
    ensures { result ≡ has_minus (drop at bytes.now) }
{
    bytes[at] == b'-'
}

/// Reads the number written by digits of a radix, ignoring underscores.
fn number_of(radix: u32, run: &[u8]) -> Result<u128, Reason>
    requires { IsRadix radix }
    ensures { WritesNumber radix (digits_of run.now) result }
{
    let mut number: u128 = 0;
    let mut is_empty = true;
    for byte in run {
        if *byte == b'_' {
            continue;
        }
        let Some(digit) = (*byte as char).to_digit(radix) else {
            return Err(Reason::InvalidDigit);
        };
        let Some(higher) = number.checked_mul(radix as u128) else {
            return Err(Reason::TooLarge);
        };
        let Some(sum) = higher.checked_add(digit as u128) else {
            return Err(Reason::TooLarge);
        };
        number = sum;
        is_empty = false;
    }
    if is_empty {
        Err(Reason::Empty)
    } else {
        Ok(number)
    }
}

/// Gives a number its sign.
fn signed(minus: bool, number: u128) -> Result<i128, Reason>
    ensures { HasSign minus number result }
{
    if number <= i128::MAX as u128 {
        let value = number as i128;
        Ok(if minus { -value } else { value })
    } else if minus {
        Err(Reason::NotInI128)
    } else {
        Ok(-1 - ((u128::MAX - number) as i128))
    }
}

/// The offset after the `-` at `from`, or `from` if there is none.
#[tactic(auto, using(crate::proofs::Values::sign_passed, crate::proofs::Values::sign_absent))]
fn sign_end(bytes: &[u8], from: usize) -> usize
    requires { from < length bytes.now }
    ensures start { drop result bytes.now ≡ behind_minus (drop from bytes.now) }
    ensures within { result ≤ length bytes.now }
{
    if minus_at(bytes, from) {
        from + 1
    } else {
        from
    }
}

/// Reads the integer literal at an offset: its value, and the offset after it.
#[inline(never)]
pub(crate) fn literal_at(bytes: &[u8], from: usize) -> Result<(i128, usize), Reason>
    requires within { from < length bytes.now }
    requires begins { begins_with begins_literal (drop from bytes.now) ≡ true }
    requires whole { is_lone_minus (drop from bytes.now) ≡ false }
    ensures { ReadsLiteral bytes.now from result }
{
    let minus = minus_at(bytes, from);
    let unsigned = sign_end(bytes, from);
    let (radix, start) = digits_at(bytes, unsigned);
    let end = literal_end(bytes, start);
    match number_of(radix, &bytes[start..end]) {
        Err(reason) => Err(reason),
        Ok(number) => match signed(minus, number) {
            Err(reason) => Err(reason),
            Ok(value) => Ok((value, end)),
        },
    }
}

/// The end of the integer literal at an offset, or `None` if it has no value.
pub fn integer_end(bytes: &[u8], from: usize) -> Option<usize>
    requires within { from < length bytes.now }
    requires begins { begins_with begins_literal (drop from bytes.now) ≡ true }
    requires whole { is_lone_minus (drop from bytes.now) ≡ false }
    ensures { EndsLiteral bytes.now from result }
{
    match literal_at(bytes, from) {
        Ok((_, end)) => Some(end),
        Err(_) => None,
    }
}
