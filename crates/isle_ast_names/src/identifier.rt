//! The rule for identifiers.
//!
//! An identifier is a non-empty text. Its first character is a letter, `_` or `$`, and its other
//! characters are letters, digits, `_`, `.` or `$`. In ASCII the letters are `A` to `Z` and `a` to
//! `z`, and the digits `0` to `9`. Outside ASCII a letter is an Alphabetic character of Unicode
//! 18.0, and a digit is one of its categories Nd, Nl and No. Upstream's parser has the same rule:
//! it asks Rust for letters and numbers. The tables here are those of the crate `unicode`.

ghost use Rattle.std.specs.Prelude.{◌≡◌, ◌||◌, ◌==◌, drop, slice_get};
ghost use Rattle.std.specs.Char.{is_ascii_digit};
ghost use Rattle.std.specs.List.{list_all};
ghost use Rattle.std.specs.Str.{chars};
ghost use Rattle.isle_base.specs.Bytes.{dollar, dot, underscore};
ghost use Rattle.isle_base.specs.Skips.{begins_with};
ghost use Rattle.isle_ast_names.specs.Identifier.{begins_identifier, continues_identifier};
ghost use Rattle.isle_ast_names.specs.Identifier.{continues_in_ascii, is_ascii_identifier};
ghost use Rattle.isle_ast_names.specs.Identifier.{is_digit, is_identifier, is_letter, is_number};

use unicode::properties::{GeneralCategory, is_alphabetic};

/// Returns whether a text is an identifier, by the rule of this module.
pub fn is_identifier(text: &str) -> bool
    ensures { result ≡ is_identifier text.now }
{
    is_ascii_identifier(text) || is_identifier_by_chars(text)
}

/// Returns whether an identifier may begin with a character: a letter, `_` or `$`.
pub fn begins_identifier(c: char) -> bool
    ensures { result ≡ begins_identifier c }
{
    is_letter(c) || c == '_' || c == '$'
}

/// Returns whether a character may follow the first one of an identifier: a letter, a digit, `_`,
/// `.` or `$`.
pub fn continues_identifier(c: char) -> bool
    ensures { result ≡ continues_identifier c }
{
    is_letter(c) || is_digit(c) || c == '_' || c == '.' || c == '$'
}

fn is_letter(c: char) -> bool
    ensures { result ≡ is_letter c }
{
    if c.is_ascii() {
        c.is_ascii_alphabetic()
    } else {
        is_alphabetic(c)
    }
}

fn is_digit(c: char) -> bool
    ensures { result ≡ is_digit c }
{
    if c.is_ascii() {
        c.is_ascii_digit()
    } else {
        is_number(GeneralCategory::for_char(c))
    }
}

fn is_number(category: GeneralCategory) -> bool
    ensures { result ≡ is_number category }
{
    match category {
        GeneralCategory::DecimalNumber
        | GeneralCategory::LetterNumber
        | GeneralCategory::OtherNumber => true,
        _ => false,
    }
}

/// Returns whether a text is an identifier of ASCII characters only.
fn is_ascii_identifier(text: &str) -> bool
    ensures { result ≡ is_ascii_identifier text.now }
{
    begins_in_ascii(text) && continue_in_ascii(text)
}

/// Returns whether the first byte, as a character, may begin an identifier.
fn begins_in_ascii(text: &str) -> bool
    ensures { result ≡ begins_with begins_identifier text.now }
{
    match text.as_bytes() {
        [first, ..] => begins_identifier(*first as char),
        [] => false,
    }
}

fn continue_in_ascii(text: &str) -> bool
    ensures { result ≡ list_all continues_in_ascii text.now }
{
    text.bytes().all(continues_in_ascii)
}

/// Returns whether a byte is an ASCII character that may follow the first one of an identifier.
/// Most are letters, which need one comparison.
fn continues_in_ascii(byte: u8) -> bool
    ensures { result ≡ continues_in_ascii byte }
{
    byte.is_ascii_alphabetic() || is_ascii_digit_or_sign(byte)
}

/// Returns whether a byte is an ASCII digit, `_`, `.` or `$`. It is not inlined, and never called
/// for a letter.
#[inline(never)]
fn is_ascii_digit_or_sign(byte: u8) -> bool
    ensures { result
        ≡ (is_ascii_digit byte || byte == underscore || byte == dot || byte == dollar) }
{
    byte.is_ascii_digit() || byte == b'_' || byte == b'.' || byte == b'$'
}

/// Returns whether a text is an identifier, of any characters.
fn is_identifier_by_chars(text: &str) -> bool
    ensures { result ≡ is_identifier text.now }
{
    match first_char(text) {
        Some(first) => begins_identifier(first) && others_continue(text),
        None => false,
    }
}

fn first_char(text: &str) -> Option<char>
    ensures { result ≡ slice_get (chars text.now) 0 }
{
    text.chars().next()
}

fn others_continue(text: &str) -> bool
    ensures { result ≡ list_all continues_identifier (drop 1 (chars text.now)) }
{
    text.chars().skip(1).all(continues_identifier)
}
