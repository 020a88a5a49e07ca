//! Surrogates without a partner, in the escapes of JSON.
//!
//! A client may send `\ud83d` without the `\ude00` behind it, when an edit cuts a character in two.
//! JSON allows it, but no UTF-8 text has it.

ghost use Rattle.std.specs.Prelude.{◌≡◌, ◌≤◌, ◌<◌, ◌==◌, ℕ, List, IfOk, Some, drop};
ghost use Rattle.std.specs.Prelude.{false, length, slice_index};
ghost use Rattle.std.specs.Char.{digit_value};
ghost use Rattle.json.specs.Text.{content, plain};
ghost use Rattle.isle_lsp_frames.specs.Mending as wanted;

use std::alloc::{AllocError, Global};

/// What stands in the place of a surrogate without its partner.
const REPLACEMENT: &[u8] = b"\\ufffd";

/// The length of the escape of a surrogate in bytes.
const ESCAPE_LEN: usize = 6;

/// The body with `\ufffd` in place of each surrogate without its partner. Its length stays.
pub fn mended(alloc: Global, body: &[u8]) -> Result<Vec<u8>, AllocError>
    ensures { IfOk result (λ mended. mended.items ≡ wanted.mended body.now) }
{
    let mut mended = Vec::with_capacity(alloc, body.len())?;
    let mut rest = body;
    let mut paired = false;
    while rest.len() >= ESCAPE_LEN {
        let run = run_len(rest);
        if run > 0 {
            mended.extend_from_slice(&rest[..run])?;
            paired = false;
            (_, rest) = rest.split_at(run);
        } else {
            mended.extend_from_slice(mended_front(paired, rest))?;
            paired = is_high(rest);
            (_, rest) = rest.split_at(front_len(rest));
        }
    }
    mended.extend_from_slice(rest)?;
    Ok(mended)
}

/// The number of bytes before the first backslash.
fn run_len(bytes: &[u8]) -> usize
    ensures within { result ≤ length bytes.now }
    ensures clean { (k : ℕ) → k < result → (slice_index bytes.now k == 92) ≡ false }
{
    for (i, &byte) in bytes.iter().enumerate() {
        if byte == b'\\' {
            return i;
        }
    }
    bytes.len()
}

/// What is at the front, or its replacement.
fn mended_front(paired: bool, bytes: &[u8]) -> &[u8]
    requires { 6 ≤ length bytes.now }
    ensures { result.now ≡ wanted.mended_front paired bytes.now }
{
    if is_lone(paired, bytes) {
        REPLACEMENT
    } else {
        &bytes[..front_len(bytes)]
    }
}

/// The length of what is at the front: the escape of a surrogate, the backslash and the letter of
/// another escape, or a byte.
#[tactic(auto, unfolding(crate::specs::Mending::front_len))]
fn front_len(bytes: &[u8]) -> usize
    requires { 6 ≤ length bytes.now }
    ensures value { result ≡ wanted.front_len bytes.now }
    ensures within { (1 ≤ result) × (result ≤ 6) }
{
    if is_high(bytes) || is_low(bytes) {
        ESCAPE_LEN
    } else if bytes[0] == b'\\' {
        2
    } else {
        1
    }
}

/// Returns whether a surrogate without its partner is at the front.
#[tactic(auto, unfolding(crate::specs::Mending::is_lone))]
fn is_lone(paired: bool, bytes: &[u8]) -> bool
    requires { 6 ≤ length bytes.now }
    ensures { result ≡ wanted.is_lone paired bytes.now }
{
    (is_high(bytes) && !is_low(&bytes[ESCAPE_LEN..])) || (is_low(bytes) && !paired)
}

/// Returns whether the first half of a surrogate pair is at the front.
#[tactic(auto, unfolding(crate::specs::Mending::is_high))]
fn is_high(bytes: &[u8]) -> bool
    ensures { result ≡ wanted.is_high bytes.now }
{
    is_escape(bytes, 8, 12)
}

/// Returns whether the second half of a surrogate pair is at the front.
#[tactic(auto, unfolding(crate::specs::Mending::is_low))]
fn is_low(bytes: &[u8]) -> bool
    ensures { result ≡ wanted.is_low bytes.now }
{
    is_escape(bytes, 12, 16)
}

/// Returns whether an escape from `\ud000` to `\udfff` is at the front whose second digit is at
/// least `least` and below `below`.
fn is_escape(bytes: &[u8], least: u32, below: u32) -> bool
    ensures { result ≡ wanted.is_escape least below bytes.now }
{
    match bytes {
        [b'\\', b'u', x, y, z, w, ..] => {
            digit(*x) == 13
                && least <= digit(*y)
                && digit(*y) < below
                && digit(*z) < 16
                && digit(*w) < 16
        }
        _ => false,
    }
}

/// The value of a digit or a letter, from 0 for `0` to 35 for `z`; 36 for any other byte.
fn digit(byte: u8) -> u32
    ensures { result ≡ digit_value byte }
{
    char::from(byte).to_digit(36).unwrap_or(36)
}

/// A law: the length stays.
pub fn keeps_length()
    ensures { (body : List ℕ) → length (wanted.mended body) ≡ length body }
{}

/// A law: bytes with no escape of a surrogate stay as they are.
pub fn keeps_other_texts()
    ensures { (body : List ℕ) → ((n : ℕ) → wanted.is_half (drop n body) ≡ false)
        → wanted.mended body ≡ body }
{}

/// A law: a string whose content can be read has the same content. The bytes begin behind its
/// opening quote.
pub fn keeps_strings()
    ensures { (bytes text : List ℕ) → content plain bytes ≡ Some text
        → content plain (wanted.mended bytes) ≡ Some text }
{}
