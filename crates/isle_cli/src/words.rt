//! The words of the command line.

ghost use Rattle.std.specs.Prelude.{◌≡◌, ◌⊎◌, drop, map, string_bytes, IfErr, IfOk, IsErr, IsOkAnd};
ghost use Rattle.std.specs.Vec.Iter.{into_iter_items};
ghost use Rattle.std.specs.Option.{SomeIff};
ghost use Rattle.std.specs.Str.Parse.{digits_value};
ghost use Rattle.isle_cli.specs.Words.{GiveWidth, IsWidth, given_width};
ghost use Rattle.isle_cli.specs.declared.failure.Failure.TheVariants.{Memory, Usage};

use crate::failure::Failure;
use std::alloc::{AllocError, Global};
use std::env::{Args, Env, FillError};
use std::io::ErrorKind;
use std::{env, io};

/// The width of the output if the command line has none, in bytes.
pub const DEFAULT_WIDTH: usize = 78;

/// The words of the command line, without the program's name, which may be any bytes.
///
/// It fails with `Usage` if a word isn't UTF-8, and with `Memory`.
pub fn taken_words<R: Env + AllocGlobal>(rt: &R) -> Result<Vec<String>, Failure>
    ensures { IfErr result (λ failure. (failure ≡ Memory) ⊎ (failure ≡ Usage)) }
{
    words_of(rt.alloc(), env::args(&(Unnamed(rt), rt.alloc())))
}

/// The arguments that were read, without the first.
fn words_of(alloc: Global, args: io::Result<Args>) -> Result<Vec<String>, Failure>
    ensures ok { IfOk result
        (λ words. IsOkAnd args (λ all. words.items ≡ drop 1 (into_iter_items all))) }
    ensures err { IfErr result (λ failure. (failure ≡ Memory) ⊎ (failure ≡ Usage) × IsErr args) }
{
    match args {
        Ok(args) => Ok(after_first(list_of(alloc, args)?)),
        Err(error) if error.kind() == ErrorKind::OutOfMemory => Err(Failure::Memory),
        Err(_) => Err(Failure::Usage),
    }
}

fn list_of(alloc: Global, args: Args) -> Result<Vec<String>, AllocError>
    ensures { IfOk result (λ list. list.items ≡ into_iter_items args) }
{
    args.collect(alloc)
}

/// The arguments after the first, which is the program's name.
fn after_first(mut args: Vec<String>) -> Vec<String>
    ensures { result.items ≡ drop 1 args.items }
{
    if !args.is_empty() {
        drop(args.remove(0));
    }
    args
}

/// The value of a word of decimal digits, if it fits in `usize`.
pub fn parsed_width(word: &str) -> Option<usize>
    ensures { SomeIff result (IsWidth word.now) (digits_value 10 word.now) }
{
    if word.starts_with('+') {
        return None;
    }
    word.parse::<usize>().ok()
}

/// The width in the words `[WIDTH]`, or 78 if there is none.
///
/// It fails with `Usage` if there is more than one word, or the word is no width.
pub fn width_of(words: &[String]) -> Result<usize, Failure>
    ensures ok { IfOk result (λ width. GiveWidth (map string_bytes words.now)
        × (width ≡ given_width (map string_bytes words.now))) }
    ensures err { IfErr result (λ failure. (failure ≡ Usage)
        × (¬ (GiveWidth (map string_bytes words.now)))) }
{
    match words {
        [] => Ok(DEFAULT_WIDTH),
        [word] => parsed_width(word.as_str()).ok_or(Failure::Usage),
        _ => Err(Failure::Usage),
    }
}

/// An environment whose command line has an empty first word: no program uses its own name, which
/// need not be UTF-8.
#[derive(Drop)]
struct Unnamed<'a, R>(&'a R);

impl<R: Env> Env for Unnamed<'_, R> {
    fn arg(&self, i: usize, buf: &mut [u8]) -> Result<usize, FillError> {
        if i == 0 {
            return Ok(0);
        }
        self.0.arg(i, buf)
    }

    fn var(&self, name: &str, buf: &mut [u8]) -> Result<usize, FillError> {
        self.0.var(name, buf)
    }

    fn var_at(&self, i: usize, buf: &mut [u8]) -> Result<usize, FillError> {
        self.0.var_at(i, buf)
    }
}
