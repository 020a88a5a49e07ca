//! Trees of texts, and calls that drop trees.

use crate::case::Case;
use isle_syntax::ast::{Def, Ident, Pattern};
use isle_syntax::lexer::{Fault, Lexer, Pos};
use isle_syntax::parser::{parse, parse_without_pos};
use std::alloc::{AllocError, Global};

/// The definitions of a text, or why it has none.
pub type Tree = Result<Vec<Def>, Fault>;

/// The tree of a text in a file.
pub fn parsed(alloc: Global, file: usize, text: &str) -> Tree {
    parse(alloc, Lexer::new(alloc, file, text)?)
}

/// The tree of a text, without positions.
pub fn read(alloc: Global, text: &str) -> Tree {
    parse_without_pos(alloc, Lexer::new(alloc, 0, text)?)
}

/// A lexer for the first text, in the file of the first number, after as many calls of `next` as
/// the second number says.
pub fn lexer<'a>(alloc: Global, case: &'a Case) -> Result<Lexer<'a>, Fault> {
    let mut lexer = Lexer::new(alloc, case.number(0), case.text(0))?;
    for _ in 0..case.number(1) {
        drop(lexer.next(alloc));
    }
    Ok(lexer)
}

/// The tree of what that lexer has ahead.
pub fn parsed_of(alloc: Global, case: &Case) -> Tree {
    parse(alloc, lexer(alloc, case)?)
}

/// The same, without positions.
pub fn read_of(alloc: Global, case: &Case) -> Tree {
    parse_without_pos(alloc, lexer(alloc, case)?)
}

pub fn drop_tree(tree: Tree) {
    drop(tree);
}

pub fn drop_definition(def: Def) {
    drop(def);
}

pub fn drop_pattern(pattern: Pattern) {
    drop(pattern);
}

/// A word for an answer of `next_def`. The answer is dropped.
pub fn next_word(answer: Result<Option<Def>, Fault>) -> &'static str {
    let word = match &answer {
        Ok(Some(Def::Decl(_))) => "decl",
        Ok(Some(Def::Converter(_))) => "convert",
        Ok(Some(_)) => "another definition",
        Ok(None) => "end",
        Err(Fault::Error(_)) => "error",
        Err(Fault::Failed) => "failed",
        Err(Fault::Memory) => "memory",
    };
    drop(answer);
    word
}

/// The position of nodes made by hand.
pub fn pos() -> Pos {
    Pos::default()
}

pub fn ident(alloc: Global, text: &str) -> Result<Ident, AllocError> {
    Ok(Ident(text.to_string(alloc)?, pos()))
}
