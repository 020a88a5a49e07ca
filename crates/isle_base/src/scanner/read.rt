//! The next token of a text.

ghost use Rattle.std.specs.Prelude.{◌≡◌, ◌+◌, ◌^◌, ◌<◌, ◌≤◌, false, true, drop, length};
ghost use Rattle.std.specs.Prelude.{IfOk, IsUtf8};
ghost use Rattle.isle_base.specs.Literals.{begins_literal as starts_literal};
ghost use Rattle.isle_base.specs.Literals.{has_minus};
ghost use Rattle.isle_base.specs.Spellings.{is_lone_minus, symbol_here};
ghost use Rattle.isle_base.specs.Reads.{Finds, FindsHere, IsUnskipped};
ghost use Rattle.isle_base.specs.Skips.{begins_with};
ghost use Rattle.isle_base.specs.Steps.{RefusesAt};

use crate::scanner::lanes::{FORM_FEED, symbol_end};
use crate::scanner::literal::literal_at;
use crate::scanner::skips::skip_end;
use crate::token::TokenRef;
use isle_base_source::error::{Error, Span};
use isle_base_source::pos::Pos;
use std::alloc::{AllocError, Global};

/// Why a text is rejected.
#[derive(Clone, Copy)]
pub(crate) enum Reason {
    /// A block comment is never closed.
    UnclosedComment,
    /// There is a form feed outside of comments.
    FormFeed,
    /// A literal has no digits.
    Empty,
    /// A digit is too large for the radix.
    InvalidDigit,
    /// A number does not fit in 128 bits.
    TooLarge,
    /// A number after `-` is not below 2^127.
    NotInI128,
}

impl Reason {
    /// The message for users.
    fn message(self) -> &'static str {
        match self {
            Reason::UnclosedComment => "unterminated block comment",
            Reason::FormFeed => "Unexpected character '12'",
            Reason::Empty => "cannot parse integer from empty string",
            Reason::InvalidDigit => "invalid digit found in string",
            Reason::TooLarge => "number too large to fit in target type",
            Reason::NotInI128 => "integer literal cannot fit in i128",
        }
    }
}

/// The next token, end or fault of a text from an offset on, after blanks and comments.
#[derive(Clone, Copy)]
pub(crate) enum Found<'src> {
    /// A token: the offset of its first byte, the token, and the offset after its last byte.
    Token(usize, TokenRef<'src>, usize),
    /// The end of the text.
    End,
    /// A fault: the offset of its first byte, and the reason.
    Fault(usize, Reason),
}

#[inline(always)]
fn symbol_at<'src>(src: &'src str, start: usize) -> Found<'src>
    requires within { start < length src.now }
    requires text { IsUtf8 (drop start src.now) }
    requires begins { symbol_here (drop start src.now) ≡ true }
    ensures { FindsHere src.now start result }
{
    let end = symbol_end(src.as_bytes(), start);
    Found::Token(start, TokenRef::Symbol(&src[start..end]), end)
}

#[inline(always)]
fn integer_at<'src>(bytes: &[u8], start: usize) -> Found<'src>
    requires within { start < length bytes.now }
    requires begins { begins_with starts_literal (drop start bytes.now) ≡ true }
    requires whole { is_lone_minus (drop start bytes.now) ≡ false }
    ensures { FindsHere bytes.now start result }
{
    match literal_at(bytes, start) {
        Ok((value, end)) => Found::Token(start, TokenRef::Int(value), end),
        Err(reason) => Found::Fault(start, reason),
    }
}

/// Returns whether the `-` at an offset is a symbol by itself: no byte of a symbol follows it.
pub fn is_lone_minus_at(bytes: &[u8], at: usize) -> bool
    requires within { at < length bytes.now }
    requires minus { has_minus (drop at bytes.now) ≡ true }
    ensures { result ≡ is_lone_minus (drop at bytes.now) }
{
    symbol_end(bytes, at + 1) == at + 1
}

/// Reads the symbol or literal that begins with the `-` at an offset.
#[inline(always)]
fn from_minus_at<'src>(src: &'src str, start: usize) -> Found<'src>
    requires within { start < length src.now }
    requires text { IsUtf8 (drop start src.now) }
    requires minus { has_minus (drop start src.now) ≡ true }
    ensures { FindsHere src.now start result }
{
    if is_lone_minus_at(src.as_bytes(), start) {
        symbol_at(src, start)
    } else {
        integer_at(src.as_bytes(), start)
    }
}

/// Reads the token at an offset where no blank and no comment begins.
#[inline(always)]
fn token_at<'src>(src: &'src str, start: usize) -> Found<'src>
    requires within { start < length src.now }
    requires text { IsUtf8 (drop start src.now) }
    requires unskipped { IsUnskipped (drop start src.now) }
    ensures { FindsHere src.now start result }
{
    match src.as_bytes()[start] {
        b'(' => Found::Token(start, TokenRef::LParen, start + 1),
        b')' => Found::Token(start, TokenRef::RParen, start + 1),
        b'@' => Found::Token(start, TokenRef::At, start + 1),
        FORM_FEED => Found::Fault(start, Reason::FormFeed),
        b'-' => from_minus_at(src, start),
        b'0'..=b'9' => integer_at(src.as_bytes(), start),
        _ => symbol_at(src, start),
    }
}

/// Finds the next token, end or fault of a text from an offset on.
#[inline(always)]
pub(crate) fn read<'src>(src: &'src str, from: usize) -> Found<'src>
    requires within { from ≤ length src.now }
    requires text { IsUtf8 (drop from src.now) }
    ensures { Finds src.now from result }
{
    match skip_end(src.as_bytes(), from) {
        Err(at) => Found::Fault(at, Reason::UnclosedComment),
        Ok(start) => {
            if start < src.len() {
                token_at(src, start)
            } else {
                Found::End
            }
        }
    }
}

/// Builds the error of a rejected text.
#[inline(never)]
pub(crate) fn error(alloc: Global, pos: Pos, reason: Reason) -> Result<Error, AllocError>
    requires { pos.offset + 1 < 2 ^ 64 }
    ensures { IfOk result (RefusesAt pos) }
{
    let msg = String::from_str(alloc, reason.message())?;
    let span = Span::new_single(pos);
    Ok(Error::ParseError { msg, span })
}
