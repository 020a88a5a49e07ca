//! Answers of lexers and parsers, positions, and kinds of tokens.

use isle_syntax::lexer::{Fault, Lexer, Pos};
use isle_syntax::parser::Parser;
use isle_test_nodes::answer::{Answer, is_copied};
use isle_test_nodes::case::Case;
use isle_test_nodes::trees::{lexer, next_word};
use std::alloc::{AllocError, Global};

/// The position of an offset of a file, and whether it is unknown.
pub fn put_unknown(case: &Case, out: &mut Answer) {
    let pos = Pos::new(case.number(0), case.number(1));
    out.show(&pos);
    out.put(" ");
    out.show(&pos.is_unknown());
}

/// A lexer's state in brackets: its position, and whether it has failed or is at its end.
fn put_state(lexer: &Lexer, out: &mut Answer) {
    out.put("[");
    out.show(&lexer.pos());
    out.put(match (lexer.peek().is_some(), lexer.eof()) {
        (true, false) => "]",
        (false, true) => " at the end]",
        (false, false) => " failed]",
        (true, true) => " at a token and at the end]",
    });
}

/// Calls `next`, and adds the lexer's state before the call and the answer.
fn put_step(alloc: Global, lexer: &mut Lexer, out: &mut Answer) {
    put_state(lexer, out);
    out.put(" ");
    match lexer.next(alloc) {
        Ok(Some((pos, token))) => {
            out.show(&pos);
            out.put(" ");
            out.show(&token);
        }
        Ok(None) => out.put("end"),
        Err(fault) => out.show_fault(&fault),
    }
    out.put(" ");
}

/// The answers of `next` up to the second one with nothing ahead, each after the lexer's state.
fn put_steps(alloc: Global, mut lexer: Lexer, most: usize, out: &mut Answer) {
    let mut was_end = false;
    for _ in 0..most {
        let is_end = lexer.peek().is_none();
        put_step(alloc, &mut lexer, out);
        if is_end && was_end {
            break;
        }
        was_end = is_end;
    }
}

/// What the copy of a lexer answers, between its states; and the state of the lexer.
fn put_copied(alloc: Global, lexer: &Lexer, out: &mut Answer) -> Result<(), AllocError> {
    let mut copy = lexer.clone()?;
    put_step(alloc, &mut copy, out);
    put_state(&copy, out);
    out.put(", kept ");
    put_state(lexer, out);
    Ok(())
}

/// Whether the token ahead is a symbol, whether it is an integer, and whether it is equal to its
/// copy.
fn put_kinds(lexer: &Lexer, out: &mut Answer) {
    match lexer.peek() {
        Some((_, token)) => {
            let is_copied = is_copied(token, out);
            out.show(&Some([token.is_sym(), token.is_int(), is_copied]));
        }
        None => out.put("no token"),
    }
}

/// A word for each of the first answers of `next_def`.
fn put_next_words(alloc: Global, mut parser: Parser, count: usize, out: &mut Answer) {
    for _ in 0..count {
        let word = next_word(parser.next_def(alloc));
        out.is_whole &= word != "memory";
        out.put(word);
        out.put(" ");
    }
}

/// A word for each of the first answers of `next_def`, or of the copy of a parser.
pub fn put_next_defs(alloc: Global, case: &Case, out: &mut Answer) -> Result<(), Fault> {
    let parser = Parser::new(Lexer::new(alloc, case.number(0), case.text(0))?);
    let parser = if case.call.as_str() == "next_def_of_copy" {
        parser.clone()?
    } else {
        parser
    };
    put_next_words(alloc, parser, case.number(1), out);
    Ok(())
}

/// The answer of a call about a lexer, or about the parser on it.
pub fn put_lexer_answer(alloc: Global, case: &Case, out: &mut Answer) -> Result<(), Fault> {
    let lexer = lexer(alloc, case)?;
    match case.call.as_str() {
        "tokens" => put_steps(alloc, lexer, case.text(0).len() + 2, out),
        "copied" => put_copied(alloc, &lexer, out)?,
        _ => put_kinds(&lexer, out),
    }
    Ok(())
}
