//! Steps of formatting a text, repeated so that they can be timed from outside.

use isle_syntax::format;
use isle_syntax::lexer::{Fault, Lexer};
use isle_test_nodes::trees::{drop_tree, parsed};
use std::alloc::{AllocError, Global};

/// The number of tokens of a text.
fn count_tokens(alloc: Global, text: &str) -> Result<usize, Fault> {
    let mut lexer = Lexer::new(alloc, 0, text)?;
    let mut count: usize = 0;
    for _ in 0..u64::MAX {
        if lexer.next(alloc)?.is_none() {
            break;
        }
        count = count.saturating_add(1);
    }
    Ok(count)
}

/// The number of definitions of a text.
fn count_definitions(alloc: Global, text: &str) -> Result<usize, Fault> {
    let defs = parsed(alloc, 0, text)?;
    let count = defs.len();
    drop_tree(Ok(defs));
    Ok(count)
}

/// Makes one step, and returns how many tokens, definitions or bytes it found.
fn step(alloc: Global, name: &str, text: &str) -> Result<usize, Fault> {
    match name {
        "lex" => count_tokens(alloc, text),
        "parse" => count_definitions(alloc, text),
        _ => Ok(format(alloc, text, 78)?.len()),
    }
}

fn sum_of(alloc: Global, name: &str, times: usize, text: &str) -> Result<usize, Fault> {
    let mut sum: usize = 0;
    for _ in 0..times {
        sum = sum.saturating_add(step(alloc, name, text)?);
    }
    Ok(sum)
}

/// Repeats a step, and returns the sum of what it found, or `rejected`.
pub fn rounds(alloc: Global, name: &str, times: usize, text: &str) -> Result<String, AllocError> {
    match sum_of(alloc, name, times, text) {
        Ok(sum) => format!(in alloc; "{sum}\n"),
        Err(Fault::Memory) => Err(AllocError),
        Err(_) => "rejected\n".to_string(alloc),
    }
}
