//! Calls that are made again when they run out of memory. Answers are printed at once, so that only
//! the calls allocate.

use isle_syntax::ast::Def;
use isle_syntax::lexer::{Fault, Lexer, Pos, Token};
use isle_syntax::parser::Parser;
use isle_test_nodes::trees::{drop_definition, next_word};
use std::alloc::Global;
use std::io::{self, ErrorKind, Write};

/// A number for a token: an integer's absolute value, or the FNV-1a hash of a symbol.
fn number_of(token: &Token) -> u128 {
    match token {
        Token::LParen => 1,
        Token::RParen => 2,
        Token::At => 3,
        Token::Int(number) => number.unsigned_abs(),
        Token::Symbol(text) => {
            let mut hash: u64 = 14_695_981_039_346_656_037;
            for byte in text.bytes() {
                hash = (hash ^ u64::from(byte)).wrapping_mul(1_099_511_628_211);
            }
            u128::from(hash)
        }
    }
}

/// A lexer as its caller sees it: its lookahead's position and number, its own position, and
/// whether it is at its end.
#[derive(Clone, Copy, PartialEq, Drop)]
struct State {
    ahead: Option<(Pos, u128)>,
    pos: Pos,
    eof: bool,
}

fn state_of(lexer: &Lexer) -> State {
    State {
        ahead: lexer.peek().map(|next| (next.0, number_of(&next.1))),
        pos: lexer.pos(),
        eof: lexer.eof(),
    }
}

fn want_of_memory() -> io::Error {
    io::Error::from(ErrorKind::OutOfMemory)
}

/// A word for an answer about the next token. The answer is dropped.
pub fn word_of(next: Result<Option<(Pos, Token)>, Fault>) -> &'static str {
    let word = match &next {
        Ok(Some(_)) => "token",
        Ok(None) => "end",
        Err(Fault::Error(_)) => "error",
        Err(Fault::Failed) => "failed",
        Err(Fault::Memory) => "memory",
    };
    drop(next);
    word
}

/// Prints a token's offset and number.
fn write_token<W: Write>(output: &mut W, pos: Pos, token: &Token) -> io::Result<()> {
    let number = number_of(token);
    writeln!(output, "{} {number}", pos.offset)
}

/// Calls `next`, and again if it runs out of memory; the lexer must then be unchanged.
fn next<E: Write>(
    alloc: Global,
    lexer: &mut Lexer,
    faults: &mut E,
) -> io::Result<Result<Option<(Pos, Token)>, Fault>> {
    let before = state_of(lexer);
    match lexer.next(alloc) {
        Err(Fault::Memory) => {
            if state_of(lexer) != before {
                faults.write_all(b"changed\n")?;
            }
            faults.write_all(b"retried\n")?;
            Ok(lexer.next(alloc))
        }
        other => Ok(other),
    }
}

/// Makes a lexer, with a second attempt if memory runs out.
fn lexer_of<'a, E: Write>(
    alloc: Global,
    text: &'a str,
    faults: &mut E,
) -> io::Result<Result<Lexer<'a>, Fault>> {
    let made = Lexer::new(alloc, 1, text);
    if !matches!(&made, Err(Fault::Memory)) {
        return Ok(made);
    }
    drop(made);
    faults.write_all(b"retried\n")?;
    Ok(Lexer::new(alloc, 1, text))
}

/// Prints each token of a text, and the end or the fault after them.
pub fn retried<W: Write, E: Write>(
    alloc: Global,
    text: &str,
    output: &mut W,
    faults: &mut E,
) -> io::Result<()> {
    let mut lexer = match lexer_of(alloc, text, faults)? {
        Ok(lexer) => lexer,
        Err(fault) => return write_fault(output, &fault),
    };
    for _ in 0..text.len() + 1 {
        match next(alloc, &mut lexer, faults)? {
            Ok(Some((pos, token))) => write_token(output, pos, &token)?,
            Ok(None) => return output.write_all(b"end\n"),
            Err(fault) => return write_fault(output, &fault),
        }
    }
    Ok(())
}

/// Prints a word for a fault; running out of memory is an error.
fn write_fault<W: Write>(output: &mut W, fault: &Fault) -> io::Result<()> {
    match fault {
        Fault::Error(_) => output.write_all(b"error\n"),
        Fault::Failed => output.write_all(b"failed\n"),
        Fault::Memory => Err(want_of_memory()),
    }
}

/// Returns whether a parser answers `Failed` to two calls.
fn has_failed(alloc: Global, parser: &mut Parser) -> bool {
    let first = next_word(parser.next_def(alloc));
    first == "failed" && next_word(parser.next_def(alloc)) == "failed"
}

/// A definition's byte offset, or 0 for a kind without a position.
fn place_of(def: &Def) -> usize {
    match def {
        Def::Decl(decl) => decl.pos.offset,
        Def::Rule(rule) => rule.pos.offset,
        Def::Extractor(extractor) => extractor.pos.offset,
        Def::TypeDef(def) => def.pos.offset,
        Def::Spec(spec) => spec.pos.offset,
        Def::Converter(converter) => converter.pos.offset,
        _ => 0,
    }
}

/// Prints the offset of each definition of a text, and the end or the fault after them. Once memory
/// runs out, the parser must answer `Failed`.
pub fn definitions<W: Write, E: Write>(
    alloc: Global,
    text: &str,
    output: &mut W,
    faults: &mut E,
) -> io::Result<()> {
    let mut parser = match Lexer::new(alloc, 1, text) {
        Ok(lexer) => Parser::new(lexer),
        Err(fault) => return write_fault(output, &fault),
    };
    for _ in 0..text.len() + 1 {
        match parser.next_def(alloc) {
            Ok(Some(def)) => {
                let place = place_of(&def);
                drop_definition(def);
                writeln!(output, "{place}")?;
            }
            Ok(None) => return output.write_all(b"end\n"),
            Err(fault) => {
                if matches!(fault, Fault::Memory) && has_failed(alloc, &mut parser) {
                    faults.write_all(b"failed\n")?;
                }
                return write_fault(output, &fault);
            }
        }
    }
    Ok(())
}
