//! Positions in source files.

ghost use Rattle.std.specs.Prelude.{◌≡◌, ◌↔◌, ◌<◌, IfOk, IsTrue, length, string_bytes};
ghost use Rattle.isle_base_source.specs.PrettyLine.{pretty_line};
ghost use Rattle.isle_base_source.specs.Source.{source_at};

use crate::files::Files;
use std::alloc::{AllocError, Global};

/// A source position.
///
/// The default position, file 0 at offset 0, stands for an unknown position. Positions are ordered
/// by file, then by offset.
#[derive(Clone, Copy, Debug, Default, PartialEq, Eq, PartialOrd, Ord, Hash)]
pub struct Pos {
    /// The index of the file, from 0.
    pub file: usize,
    /// The byte offset in the file, from 0.
    pub offset: usize,
}

impl Pos {
    pub fn new(file: usize, offset: usize) -> Self
        ensures file { result.file ≡ file }
        ensures offset { result.offset ≡ offset }
    {
        Self { file, offset }
    }

    /// Returns whether this is the default position, which stands for an unknown position.
    pub fn is_unknown(&self) -> bool
        ensures { IsTrue result ↔ (self.now ≡ record { file = 0; offset = 0 }) }
    {
        *self == Self::default()
    }

    /// The position as text: the file's name, the word `line` and the line number, here counted
    /// from 0.
    ///
    /// The file must be known; check with `Files::file_name`.
    pub fn pretty_print_line(&self, alloc: Global, files: &Files) -> Result<String, AllocError>
        requires { self.now.file < length files.now }
        ensures { IfOk result (λ text. string_bytes text
            ≡ pretty_line (source_at files.now self.now.file) self.now.offset) }
    {
        let name = files.file_name(self.file).unwrap();
        let line = files.file_line_map(self.file).unwrap().line(self.offset);
        format!(in alloc; "{name} line {line}")
    }
}
