//! Where definitions begin in an ISLE text, whatever lists are open before them.

ghost use Rattle.std.specs.Prelude.{◌≡◌, ◌≤◌, length};
ghost use Rattle.isle_lsp_text.specs.Definitions.{begins_definition, begins_line, is_keyword};
ghost use Rattle.isle_lsp_text.specs.Definitions.{word_at};

use crate::positions::is_line_end;
use isle_base::lexer::symbol_end;

/// The words that a definition begins with.
const KEYWORDS: [&[u8]; 14] = [
    b"pragma",
    b"type",
    b"decl",
    b"attr",
    b"spec",
    b"macro",
    b"model",
    b"state",
    b"form",
    b"instantiate",
    b"rule",
    b"extractor",
    b"extern",
    b"convert",
];

/// Returns whether a definition begins at a byte offset: a `(` with which a line begins, directly
/// before a keyword of definitions.
///
/// So a list that is still open does not hide what follows it. An indented definition, or one with
/// a blank behind its `(`, does not count.
#[tactic(auto, unfolding(crate::specs::Definitions::begins_definition))]
pub fn begins_definition(text: &str, offset: usize) -> bool
    ensures { result ≡ begins_definition text.now offset }
{
    let bytes = text.as_bytes();
    begins_line(bytes, offset)
        && offset < bytes.len()
        && bytes[offset] == b'('
        && is_keyword(word_at(bytes, offset + 1))
}

/// Returns whether a line begins at an offset.
fn begins_line(bytes: &[u8], offset: usize) -> bool
    ensures { result ≡ begins_line bytes.now offset }
{
    if offset == 0 {
        return true;
    }
    match bytes.get(offset - 1) {
        Some(byte) => is_line_end(*byte),
        None => false,
    }
}

/// The word at an offset: all bytes from there on that a symbol can have.
fn word_at(bytes: &[u8], offset: usize) -> &[u8]
    requires { offset ≤ length bytes.now }
    ensures { result.now ≡ word_at bytes.now offset }
{
    &bytes[offset..symbol_end(bytes, offset)]
}

/// Returns whether a word is one of those that a definition begins with.
fn is_keyword(word: &[u8]) -> bool
    ensures { result ≡ is_keyword word.now }
{
    KEYWORDS.contains(&word)
}
