//! `isle_test_memory CALL [NUMBER] < TEXT` makes calls of the syntax layer again where memory runs
//! out, makes calls that never allocate, or repeats one, so that it can be timed. Calls that are
//! made once, with each of their allocations failing in turn, are cases of `isle_test_conformance`.
//!
//! It prints the answer and exits with 0. If the call or the program itself runs out of memory, it
//! exits with 4 and prints nothing; if a stream fails, with 3.
//!
//! CALL is one of these; for any other, `wrong` is printed:
//!
//! - `next_def`: `next_def` up to the end. Each definition's offset is printed at once. If memory
//!   runs out and the parser then answers `Failed`, `failed` is printed to standard error.
//! - `retry`: `next` up to the end. Each token is printed at once. If memory runs out, the lexer
//!   must be unchanged; the call is made again, and `retried` is printed to standard error.
//! - `lex`, `parse`, `format`: `next` up to the end, `parse`, or `format` at the width 78, NUMBER
//!   times. Printed are how many tokens, definitions or bytes were found in all, or `rejected`.
//! - `lexer`, `tree`, `layout`, `places`, `builder`, `display`: calls that never allocate. They
//!   print `right`, or `wrong` after a wrong answer. If NUMBER is 0, the values that they work on
//!   are made, but no call: as many allocations then show that the calls make none.
#![tactic(auto)]

mod retry;
mod rounds;
mod still;

use retry::{definitions, retried};
use rounds::rounds;
use std::alloc::Global;
use std::env::Env;
use std::io::{ErrorKind, Read, Write};
use std::process::ExitCode;
use std::{env, io};
use still::told_still;

/// The words of the command line, without the program's name.
fn words<R: Env + AllocGlobal>(rt: &R) -> io::Result<Vec<String>> {
    Ok(env::args(rt)?.skip(1).collect(rt.alloc())?)
}

/// Makes the call named by the first word, on a text.
fn call<W: Write, E: Write>(
    alloc: Global,
    words: &[String],
    text: &str,
    output: &mut W,
    faults: &mut E,
) -> io::Result<()> {
    let name = words.first().map_or("", |word| word.as_str());
    let number = words.get(1).and_then(|word| word.parse().ok()).unwrap_or(1);
    match name {
        "next_def" => definitions(alloc, text, output, faults),
        "retry" => retried(alloc, text, output, faults),
        "lex" | "parse" | "format" => {
            let sum = rounds(alloc, name, number, text)?;
            output.write_all(sum.as_bytes())
        }
        _ => {
            let told = told_still(alloc, name, text, number > 0)?;
            output.write_all(told.as_bytes())
        }
    }
}

/// Makes the call, with the input as its text.
fn sweep<R: Read, W: Write, E: Write>(
    alloc: Global,
    words: &[String],
    input: &mut R,
    output: &mut W,
    faults: &mut E,
) -> io::Result<()> {
    let mut text = String::new(alloc);
    input.read_to_string(&mut text)?;
    call(alloc, words, &text, output, faults)
}

fn main(rt: HostRuntime) -> ExitCode {
    let swept = match words(&rt) {
        Ok(words) => sweep(
            rt.alloc(),
            &words,
            &mut rt.stdin(),
            &mut rt.stdout(),
            &mut rt.stderr(),
        ),
        Err(error) => Err(error),
    };
    match swept {
        Ok(()) => ExitCode::from(0),
        Err(error) if error.kind() == ErrorKind::OutOfMemory => ExitCode::from(4),
        Err(_) => ExitCode::from(3),
    }
}
