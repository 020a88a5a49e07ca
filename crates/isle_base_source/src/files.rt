//! Source files and the lines of their texts.
//!
//! Names and behaviour follow the module `files` of the Rust crate `cranelift-isle`. Offsets are in
//! bytes, and lines are counted from 0.

ghost use Rattle.std.specs.Prelude.{◌≡◌, ℕ, ◌+◌, ◌^◌, ◌<◌, List, [], Some, length, map, count_by};
ghost use Rattle.std.specs.Prelude.{nat_eq, nat_le, slice_get, IfOk};
ghost use Rattle.std.specs.Cmp.{partial_equiv_from_equiv};
ghost use Rattle.std.specs.Cmp.Lexicographic.{lists_equiv, lists_per, nat_list_eq_equiv, pointwise};
ghost use Rattle.std.specs.Option.{option_copied, option_map};
ghost use Rattle.isle_base_source.specs.Lines.{line, line_ends};
ghost use Rattle.isle_base_source.specs.Source.{source_of, is_same_source, is_same_source_equiv};

use std::alloc::{AllocError, Global};
use std::marker::Model;
use std::ops::Index;

/// The files of one compilation, each with its name, text and line map.
///
/// A file is identified by its index, from 0, as in `Pos::file`. Two values are equal if their
/// names and texts are.
#[derive(Debug, Drop)]
pub struct Files {
    sources: Vec<SourceFile>,
}

impl Model for Files {
    ghost use Rattle.std.specs.Prelude.{List};
    ghost use Rattle.isle_base_source.specs.Source.{Source};

    ghost Value = { List Source };

    ghost view = { λ files. files.sources.items };
}

impl Clone for Files {
    ghost is_clone = { λ files copy. copy ≡ files };

    fn clone(&self) -> Result<Self, AllocError> {
        Ok(Files {
            sources: self.sources.clone()?,
        })
    }
}

impl PartialEq for Files {
    ghost eq = { pointwise is_same_source };

    ghost laws = { lists_per (partial_equiv_from_equiv is_same_source_equiv) };

    fn eq(&self, other: &Files) -> bool {
        self.sources == other.sources
    }
}

impl Eq for Files {
    ghost laws = { lists_equiv is_same_source_equiv };
}

#[derive(Debug, Drop)]
struct SourceFile {
    name: String,
    text: String,
    line_map: LineMap,
}

impl Model for SourceFile {
    ghost use Rattle.std.specs.Prelude.{◌≡◌, string_bytes};
    ghost use Rattle.isle_base_source.specs.Source.{Source};
    ghost use Rattle.isle_base_source.specs.Lines.{line_ends};

    ghost Value = { Source };

    ghost view = { λ f. record { name = string_bytes f.name; text = string_bytes f.text } };

    ghost invariant = { λ file. file.line_map ≡ line_ends (string_bytes file.text) };
}

impl Clone for SourceFile {
    ghost is_clone = { λ file copy. copy ≡ file };

    fn clone(&self) -> Result<Self, AllocError> {
        Ok(SourceFile {
            name: self.name.clone()?,
            text: self.text.clone()?,
            line_map: self.line_map.clone()?,
        })
    }
}

impl PartialEq for SourceFile {
    ghost eq = { is_same_source };

    ghost laws = { partial_equiv_from_equiv is_same_source_equiv };

    /// Line maps are not compared, since the texts determine them.
    fn eq(&self, other: &SourceFile) -> bool {
        self.name == other.name && self.text == other.text
    }
}

/// The line ends of a text: the byte offset after each line feed.
///
/// A line feed belongs to the line that it ends, and the last line may be empty.
#[derive(Debug, Drop)]
pub struct LineMap {
    line_ends: Vec<usize>,
}

impl Model for LineMap {
    ghost use Rattle.std.specs.Prelude.{ℕ, List};
    ghost use Rattle.std.specs.List.Sorted.{IsNonDecreasing};

    ghost Value = { List ℕ };

    ghost view = { λ map. map.line_ends.items };

    ghost invariant = { λ map. IsNonDecreasing map.line_ends.items };
}

impl Clone for LineMap {
    ghost is_clone = { λ map copy. copy ≡ map };

    fn clone(&self) -> Result<Self, AllocError> {
        Ok(LineMap {
            line_ends: self.line_ends.clone()?,
        })
    }
}

impl PartialEq for LineMap {
    ghost eq = { pointwise nat_eq };

    ghost laws = { partial_equiv_from_equiv nat_list_eq_equiv };

    fn eq(&self, other: &LineMap) -> bool {
        self.line_ends == other.line_ends
    }
}

impl Eq for LineMap {
    ghost laws = { nat_list_eq_equiv };
}

impl Index<usize> for LineMap {
    type Output = usize;

    ghost can_index = { λ map number. number < length map };

    ghost index_gives = { λ map number end. slice_get map number ≡ Some end };

    /// The byte offset after the line feed with this index, from 0.
    ///
    /// The text must have such a line feed; check with `get`.
    fn index(&self, index: usize) -> &usize {
        &self.line_ends[index]
    }
}

impl LineMap {
    /// The map of the empty text.
    pub fn default(alloc: Global) -> Self
        ensures { result ≡ line_ends [] }
    {
        LineMap {
            line_ends: Vec::new(alloc),
        }
    }

    /// The map of a text.
    pub fn from_str(alloc: Global, text: &str) -> Result<Self, AllocError>
        ensures ends { IfOk result (λ map. map ≡ line_ends text.now) }
        // The map holds the offset after each line feed, in order, and nothing else.
        ensures each { IfOk result (λ map. (n : ℕ) → slice_get text.now n ≡ Some 10
            → slice_get map (line text.now n) ≡ Some (n + 1)) }
        ensures count { IfOk result (λ map. length map ≡ line text.now (length text.now)) }
    {
        let mut line_ends = Vec::new(alloc);
        for (offset, byte) in text.as_bytes().iter().enumerate() {
            if *byte == b'\n' {
                line_ends.push(offset + 1)?;
            }
        }
        Ok(LineMap { line_ends })
    }

    /// The line of a byte offset, counted from 0: the number of line feeds before the offset.
    ///
    /// An offset past the end of the text is on the last line.
    pub fn line(&self, pos: usize) -> usize
        ensures below { result ≡ count_by (λ end. nat_le end pos) self.now }
        ensures of_text { (text : List ℕ) → self.now ≡ line_ends text → result ≡ line text pos }
        ensures small { result < 2 ^ 63 }
    {
        self.line_ends.partition_point(|&end| end <= pos)
    }

    /// The byte offset after the line feed with this index, from 0, which is the start of the next
    /// line. Returns `None` if the text has no such line feed.
    pub fn get(&self, line: usize) -> Option<&usize>
        ensures { option_copied result ≡ slice_get self.now line }
    {
        self.line_ends.get(line)
    }
}

impl Files {
    pub fn default(alloc: Global) -> Self
        ensures { result ≡ [] }
    {
        Files {
            sources: Vec::new(alloc),
        }
    }

    /// Builds the files with these names and texts, in the same order.
    pub fn from_names_and_contents(
        alloc: Global,
        files: Vec<(String, String)>,
    ) -> Result<Self, AllocError>
        ensures { IfOk result (λ made. made ≡ map source_of files.items) }
    {
        let mut sources = Vec::new(alloc);
        for (name, text) in files {
            let line_map = LineMap::from_str(alloc, &text)?;
            sources.push(SourceFile {
                name,
                text,
                line_map,
            })?;
        }
        Ok(Files { sources })
    }

    /// The name of a file, or `None` if no file has this index.
    pub fn file_name(&self, file: usize) -> Option<&str>
        ensures { option_copied result ≡ option_map
            (λ source. source.name) (slice_get self.now file) }
    {
        self.sources.get(file).map(|source| source.name.as_str())
    }

    /// The text of a file, or `None` if no file has this index.
    pub fn file_text(&self, file: usize) -> Option<&str>
        ensures { option_copied result ≡ option_map
            (λ source. source.text) (slice_get self.now file) }
    {
        self.sources.get(file).map(|source| source.text.as_str())
    }

    /// The line map of a file, or `None` if no file has this index.
    pub fn file_line_map(&self, file: usize) -> Option<&LineMap>
        ensures { option_copied result
            ≡ option_map (λ source. line_ends source.text) (slice_get self.now file) }
    {
        self.sources.get(file).map(|source| &source.line_map)
    }
}
