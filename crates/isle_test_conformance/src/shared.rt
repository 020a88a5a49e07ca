//! Calls of what the programs share: tidying entry by entry, expansion, programs that share files,
//! and output that can't be flushed.

use isle_cli::streams::write_whole;
use isle_expand_core::expand;
use isle_program_manifest::membership::{programs_with, union_with};
use isle_syntax::lexer::Fault;
use isle_syntax::parse;
use isle_test_nodes::answer::Answer;
use isle_test_nodes::case::Case;
use isle_test_nodes::trees::{Tree, drop_tree};
use isle_tidy_core::tidying::Tidying;
use std::alloc::{AllocError, Global};
use std::io;
use std::io::{ErrorKind, Write};

/// The output for each entry of a text, followed by a `|`, and for the end of the text.
pub fn entries(alloc: Global, text: &str) -> Result<String, Fault> {
    let mut tidying = Tidying::new(alloc, text)?;
    let mut entries = String::new(alloc);
    for _ in 0..9 {
        if !tidying.put_next(&mut entries)? {
            break;
        }
        entries.push_str("|")?;
    }
    Ok(entries)
}

/// The expansion of the definitions of a text.
fn expanded(alloc: Global, text: &str) -> Tree {
    let defs = parse(alloc, text)?;
    let outcome = expand(alloc, &defs);
    drop_tree(Ok(defs));
    match outcome {
        Ok(defs) => Ok(defs),
        Err(fault) => {
            drop(fault);
            Err(Fault::Failed)
        }
    }
}

/// Adds the expansion of the definitions of a text.
pub fn put_expanded(alloc: Global, text: &str, out: &mut Answer) {
    let tree = expanded(alloc, text);
    out.show_answer(&tree);
    drop_tree(tree);
}

/// Adds the numbers of the programs that have the file of the first text, and all their paths. Each
/// other text is the paths of a program, separated by blanks.
pub fn put_programs(alloc: Global, case: &Case, out: &mut Answer) -> Result<(), AllocError> {
    let mut programs = Vec::new(alloc);
    for paths in case.texts_from(1) {
        programs.push(words(alloc, paths)?)?;
    }
    out.show(&programs_with(alloc, case.text(0), &programs)?);
    out.put(" ");
    out.show(&union_with(alloc, case.text(0), &programs)?);
    Ok(())
}

fn words(alloc: Global, text: &str) -> Result<Vec<String>, AllocError> {
    let mut words = Vec::new(alloc);
    for word in text.split(' ') {
        words.push(word.to_string(alloc)?)?;
    }
    Ok(words)
}

/// A writer that holds what it gets, and can't be flushed.
#[derive(Drop)]
struct Unflushed(Vec<u8>);

impl Write for Unflushed {
    fn write(&mut self, buf: &[u8]) -> io::Result<usize> {
        self.0.extend_from_slice(buf)?;
        Ok(buf.len())
    }

    fn flush(&mut self) -> io::Result<()> {
        Err(io::Error::from(ErrorKind::Other))
    }
}

/// Adds the error of writing a text to it, and whether it then holds the text.
pub fn put_unflushed(alloc: Global, text: &str, out: &mut Answer) {
    let mut writer = Unflushed(Vec::new(alloc));
    match write_whole(&mut writer, text.as_bytes()) {
        Ok(()) => out.put("written"),
        Err(error) => out.show(&error.kind()),
    }
    out.put(" ");
    out.show(&(writer.0.as_slice() == text.as_bytes()));
}
