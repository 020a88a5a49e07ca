//! The words of an ISLE text: its symbols and integers.

ghost use Rattle.std.specs.Prelude.{◌≡◌, ◌++◌, IfOk, OnOk};
ghost use Rattle.isle_base.specs.TokenView.{token_of_ref};
ghost use Rattle.isle_lsp_ranges.specs.Selections.{AreWords, word_at, word_of, words_of};
ghost use Rattle.isle_lsp_ranges.specs.Selections.{touches};

use isle_base::lexer::Fault;
use isle_base::scanner::{Scanner, TokenRef};
use isle_lsp_text::wholes::Part;
use std::alloc::{AllocError, Global};

/// The words of a text, in order. After a lexical error there are no more.
pub fn words(alloc: Global, text: &str) -> Result<Vec<Part>, AllocError>
    ensures { IfOk result (λ found. AreWords text.now found.items) }
{
    match Scanner::new(alloc, 0, text) {
        Ok(scanner) => words_ahead(alloc, scanner),
        Err(Fault::Error(_)) => Ok(Vec::new(alloc)),
        Err(Fault::Failed | Fault::Memory) => Err(AllocError),
    }
}

/// The words among the tokens that a scanner has not read yet.
fn words_ahead(alloc: Global, mut scanner: Scanner) -> Result<Vec<Part>, AllocError>
    ensures { IfOk result (λ found. found.items ≡ words_of scanner.entry.coming) }
{
    let mut found = Vec::new(alloc);
    while let Some(ahead) = scanner.peek() {
        let (pos, token) = *ahead;
        let to = scanner.pos().offset;
        add_word(&mut found, token, pos.offset, to)?;
        if scanner.step().is_none() {
            return Ok(found);
        }
    }
    Ok(found)
}

/// Adds the part of a token, if it is a word.
fn add_word(
    found: &mut Vec<Part>,
    token: TokenRef,
    from: usize,
    to: usize,
) -> Result<(), AllocError>
    ensures { OnOk result (found.new.items
        ≡ found.old.items ++ word_of (token_of_ref token.entry) from to) }
{
    match token {
        TokenRef::Symbol(_) | TokenRef::Int(_) => found.push(Part { from, to })?,
        TokenRef::LParen | TokenRef::RParen | TokenRef::At => {}
    }
    Ok(())
}

/// The first of these words that an offset is in, at its start or at its end.
pub fn word_at(words: &[Part], offset: usize) -> &[Part]
    ensures { result.now ≡ word_at offset words.now }
{
    for (i, word) in words.iter().enumerate() {
        if word.from <= offset && offset <= word.to {
            return &words[i..i + 1];
        }
    }
    &[]
}
