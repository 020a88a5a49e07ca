//! Reading the lexemes of a text. Each call returns a lexeme with the byte offset after it.

ghost use Rattle.std.specs.Prelude.{◌≡◌, ◌==◌, ◌-◌, ◌<◌, ◌≤◌, IsUtf8, drop, false, length, take};
ghost use Rattle.std.specs.Prelude.{true};
ghost use Rattle.isle_base.specs.Literals.{begins_literal, has_minus};
ghost use Rattle.isle_base.specs.Spellings.{is_lone_minus, symbol_here};
ghost use Rattle.isle_base.specs.Skips.{begins_with, is_blank, opens};
ghost use Rattle.isle_base.specs.Bytes.{left_parenthesis, semicolon};
ghost use Rattle.isle_tidy_layout.specs.EntriesView.{lexeme_of};
ghost use Rattle.isle_tidy_core.specs.Finds.{FindsLexeme, Stands};

use isle_base::ends::{block_comment_end, integer_end, is_lone_minus_at, opens_at};
use isle_base::lexer::{line_comment_end, symbol_end};
use isle_tidy_layout::entries::Lexeme;

/// Returns the part of a text between two byte offsets.
#[inline(always)]
pub(crate) fn part<'src>(text: &'src str, from: usize, to: usize) -> &'src str
    requires order { from ≤ to }
    requires within { to ≤ length text.now }
    requires first { IsUtf8 (drop from text.now) }
    requires last { IsUtf8 (drop to text.now) }
    ensures { result.now ≡ take (to - from) (drop from text.now) }
{
    &text[from..to]
}

#[inline(always)]
fn symbol_at<'src>(text: &'src str, start: usize) -> (Lexeme<'src>, usize)
    requires within { start < length text.now }
    requires first { IsUtf8 (drop start text.now) }
    requires begins { symbol_here (drop start text.now) ≡ true }
    ensures { Stands text.now (lexeme_of result.0) start result.1 }
{
    let end = symbol_end(text.as_bytes(), start);
    (Lexeme::Atom(part(text, start, end)), end)
}

/// Reads the integer at an offset, if it is well formed and fits in 128 bits.
#[inline(always)]
fn integer_at<'src>(text: &'src str, start: usize) -> Option<(Lexeme<'src>, usize)>
    requires within { start < length text.now }
    requires first { IsUtf8 (drop start text.now) }
    requires begins { begins_with begins_literal (drop start text.now) ≡ true }
    requires whole { is_lone_minus (drop start text.now) ≡ false }
    ensures { FindsLexeme text.now start result }
{
    match integer_end(text.as_bytes(), start) {
        Some(end) => Some((Lexeme::Atom(part(text, start, end)), end)),
        None => None,
    }
}

/// Reads the symbol or integer that begins with the `-` at an offset.
#[inline(always)]
fn minus_at<'src>(text: &'src str, start: usize) -> Option<(Lexeme<'src>, usize)>
    requires within { start < length text.now }
    requires first { IsUtf8 (drop start text.now) }
    requires minus { has_minus (drop start text.now) ≡ true }
    ensures { FindsLexeme text.now start result }
{
    if is_lone_minus_at(text.as_bytes(), start) {
        Some(symbol_at(text, start))
    } else {
        integer_at(text, start)
    }
}

/// Reads the line comment whose `;` is at an offset.
#[inline(always)]
fn line_comment_at<'src>(text: &'src str, start: usize) -> (Lexeme<'src>, usize)
    requires within { start < length text.now }
    requires first { IsUtf8 (drop start text.now) }
    requires begins { begins_with (λ b. b == semicolon) (drop start text.now) ≡ true }
    ensures { Stands text.now (lexeme_of result.0) start result.1 }
{
    let end = line_comment_end(text.as_bytes(), start + 1);
    (Lexeme::LineComment(part(text, start + 1, end)), end)
}

/// Reads the block comment whose `(;` is at an offset, if it has its `;)`.
#[inline(always)]
fn block_comment_at<'src>(text: &'src str, start: usize) -> Option<(Lexeme<'src>, usize)>
    requires within { start < length text.now }
    requires first { IsUtf8 (drop start text.now) }
    requires begins { opens (drop start text.now) ≡ true }
    ensures { FindsLexeme text.now start result }
{
    match block_comment_end(text.as_bytes(), start + 2) {
        Some(end) => Some((Lexeme::BlockComment(part(text, start + 2, end)), end)),
        None => None,
    }
}

/// Reads the `(` at an offset, or the block comment that begins with it.
#[inline(always)]
fn parenthesis_at<'src>(text: &'src str, start: usize) -> Option<(Lexeme<'src>, usize)>
    requires within { start < length text.now }
    requires first { IsUtf8 (drop start text.now) }
    requires begins { begins_with (λ b. b == left_parenthesis) (drop start text.now) ≡ true }
    ensures { FindsLexeme text.now start result }
{
    if opens_at(text.as_bytes(), start) {
        block_comment_at(text, start)
    } else {
        Some((Lexeme::Opening, start + 1))
    }
}

/// Reads the lexeme at an offset, where no blank is. Returns `None` at a form feed, at a block
/// comment without its `;)`, and at an integer that is malformed or does not fit in 128 bits.
#[inline(always)]
pub fn lexeme_at<'src>(text: &'src str, start: usize) -> Option<(Lexeme<'src>, usize)>
    requires within { start < length text.now }
    requires first { IsUtf8 (drop start text.now) }
    requires not_blank { begins_with is_blank (drop start text.now) ≡ false }
    ensures { FindsLexeme text.now start result }
{
    match text.as_bytes()[start] {
        b'(' => parenthesis_at(text, start),
        b')' => Some((Lexeme::Closing, start + 1)),
        b';' => Some(line_comment_at(text, start)),
        b'@' => Some((Lexeme::At, start + 1)),
        b'\x0c' => None,
        b'-' => minus_at(text, start),
        b'0'..=b'9' => integer_at(text, start),
        _ => Some(symbol_at(text, start)),
    }
}
