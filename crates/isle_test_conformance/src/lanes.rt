//! The ends of symbols, blanks and line comments, at each place of short and long texts.

ghost use Rattle.std.specs.Prelude.{◌≤◌, length};

use isle_syntax::lexer::{blank_end, line_comment_end, symbol_end};

/// A run of bytes whose end one of three calls finds.
#[derive(Clone, Copy)]
enum Run {
    Symbol,
    Blanks,
    LineComment,
}

const RUNS: [Run; 3] = [Run::Symbol, Run::Blanks, Run::LineComment];

impl Run {
    fn end(self, bytes: &[u8], from: usize) -> usize
        requires { from ≤ length bytes.now }
    {
        match self {
            Run::Symbol => symbol_end(bytes, from),
            Run::Blanks => blank_end(bytes, from),
            Run::LineComment => line_comment_end(bytes, from),
        }
    }

    /// A byte that continues the run.
    fn inner(self) -> u8 {
        match self {
            Run::Symbol => b'a',
            Run::Blanks => b' ',
            Run::LineComment => b';',
        }
    }

    /// A byte that ends the run.
    fn ending(self) -> u8 {
        match self {
            Run::Symbol => b')',
            Run::Blanks => b'(',
            Run::LineComment => b'\n',
        }
    }

    /// Returns whether a byte ends the run.
    fn is_ended_by(self, byte: u8) -> bool {
        match self {
            Run::Symbol => b"();@ \t\n\x0c\r".contains(&byte),
            Run::Blanks => !b" \t\n\r".contains(&byte),
            Run::LineComment => b"\n\r".contains(&byte),
        }
    }
}

/// A run with `byte` at the place `at`, if that is inside.
fn run_with(run: Run, at: usize, byte: u8) -> [u8; 65] {
    let mut bytes = [run.inner(); 65];
    if let Some(place) = bytes.get_mut(at) {
        *place = byte;
    }
    bytes
}

/// The ends of two symbols, of two runs of blanks, and of two line comments.
pub fn ends() -> [usize; 6] {
    [
        symbol_end(b"iadd.x y", 0),
        symbol_end(b"a\0\x0b\x80\xff\x0cb", 0),
        blank_end(b"x \t\r\n(y)", 1),
        blank_end(b"\x0c", 0),
        line_comment_end(b"; (x)\x0c @\r\ny", 0),
        line_comment_end(b"x\n", 1),
    ]
}

/// Returns whether the run ends at `at` from each place up to there, and at the end of the bytes
/// from each place after.
fn ends_from_each_place(run: Run, bytes: &[u8], at: usize) -> bool {
    let mut ends = true;
    for from in 0..=bytes.len() {
        ends &= run.end(bytes, from) == if from <= at { at } else { bytes.len() };
    }
    ends
}

/// Returns whether the same holds with the ending byte at each place in turn, and with none.
fn ends_at_each_place(run: Run, length: usize) -> bool {
    let mut ends = true;
    for at in 0..=length {
        let bytes = run_with(run, at, run.ending());
        ends &= ends_from_each_place(run, bytes.get(..length).unwrap_or(&[]), at);
    }
    ends
}

/// Returns whether each run ends where it should, at each place of short and long texts.
pub fn each_run_ends_at_each_place() -> bool {
    let mut ends = true;
    for length in [0, 1, 31, 32, 33, 64, 65] {
        for run in RUNS {
            ends &= ends_at_each_place(run, length);
        }
    }
    ends
}

/// Returns whether the byte ends the run if it should: at the beginning, within lanes, and in the
/// rest after them.
fn ends_at_byte(run: Run, byte: u8) -> bool {
    let mut ends = true;
    for at in [0, 40, 64] {
        let end = if run.is_ended_by(byte) { at } else { 65 };
        ends &= run.end(&run_with(run, at, byte), 0) == end;
    }
    ends
}

/// Returns whether each run ends at the bytes that end it, and at no others.
pub fn each_run_ends_at_its_bytes() -> bool {
    let mut ends = true;
    for byte in 0..=255 {
        for run in RUNS {
            ends &= ends_at_byte(run, byte);
        }
    }
    ends
}
