//! The mistakes of a manifest that is TOML.

ghost use Rattle.std.specs.Prelude.{◌≡◌, IfOk, Some, map, string_bytes, true};
ghost use Rattle.std.specs.Option.{option_copied, option_map};
ghost use Rattle.toml.specs.View.{array_view, table_view, view};
ghost use Rattle.isle_cli.specs.Arguments.{is_among};
ghost use Rattle.isle_program_manifest.specs.Mistakes.{in_exclude, in_files, in_levels, in_lints};
ghost use Rattle.isle_program_manifest.specs.Mistakes.{in_lints_table, in_list, in_name};
ghost use Rattle.isle_program_manifest.specs.Mistakes.{in_name_text, in_path, in_paths, in_program};
ghost use Rattle.isle_program_manifest.specs.Mistakes.{in_program_key, in_programs, in_tool};
ghost use Rattle.isle_program_manifest.specs.Mistakes.{list_key, message, mistake, mistake_in};
ghost use Rattle.isle_program_manifest.specs.Mistakes.{mistake_of, noun, place, place_by};
ghost use Rattle.isle_program_manifest.specs.Mistakes.{unknown_key, wanted};
ghost use Rattle.isle_program_manifest.specs.Paths as Paths;

use crate::levels::Tool;
use crate::places::{line_from, lints_key, lints_name, start};
use crate::values::{level_in, member};
use std::alloc::{AllocError, Global};
use toml::value::Array;
use toml::{Table, Value};

/// What kind of mistake it is.
#[derive(Clone, Copy)]
pub(crate) enum Kind {
    /// A key that a manifest does not have.
    UnknownKey,
    /// A key that a program must have.
    MissingKey,
    /// A value of a wrong type.
    WrongType,
    /// An empty name or list.
    Empty,
    /// A path that leads out of the manifest's folder.
    LeadsOut,
    /// A name that two programs have.
    NameTwice,
    /// A key of `lints` that is that of no tool.
    UnknownTool,
    /// A key of `lints` whose value is no table.
    WrongTable,
    /// A name whose value is no level.
    WrongLevel(Tool),
    /// A name that the tool does not know.
    UnknownName(Tool),
}

/// A mistake.
#[derive(Clone, Copy)]
pub(crate) struct Mistake<'a> {
    pub kind: Kind,
    /// The key that the mistake is about, or the path or the name.
    pub word: &'a str,
    /// The number of its program, if it is in one.
    pub program: Option<usize>,
}

/// The first mistake, but for names that two programs have.
pub(crate) fn mistake_in(manifest: &Table) -> Option<Mistake<'_>>
    ensures { option_map mistake_of result ≡ mistake_in (table_view manifest.now) }
{
    if let Some(word) = unknown_key(manifest, &["program", "exclude", "lints"]) {
        return about(Kind::UnknownKey, word, None);
    }
    if let Some(mistake) = in_program_key(member(manifest, "program")) {
        return Some(mistake);
    }
    if let Some(mistake) = in_exclude(member(manifest, "exclude")) {
        return Some(mistake);
    }
    in_lints(member(manifest, "lints"))
}

/// The first key that is none of the known ones.
fn unknown_key<'a>(table: &'a Table, known: &[&str]) -> Option<&'a str>
    ensures { option_copied result
        ≡ unknown_key (map (λ key. key.now) known.now) (table_view table.now) }
{
    'members: for (key, _value) in table.iter() {
        if !is_among(known, key.as_str()) {
            return Some(key.as_str());
        }
    }
    None
}

fn is_among(words: &[&str], word: &str) -> bool
    ensures { result ≡ is_among (map (λ other. other.now) words.now) word.now }
{
    for other in words {
        if *other == word {
            return true;
        }
    }
    false
}

/// The first mistake in the programs.
fn in_program_key(value: Option<&Value>) -> Option<Mistake<'_>>
    ensures { option_map mistake_of result
        ≡ in_program_key (option_map (λ v. view v.now) value.entry) }
{
    match value {
        None => None,
        Some(value) => {
            match value.as_array() {
                Some(programs) => in_programs(programs),
                None => about(Kind::WrongType, "program", None),
            }
        }
    }
}

/// A mistake of this kind, about a key.
fn about<'a>(kind: Kind, word: &'a str, program: Option<usize>) -> Option<Mistake<'a>>
    ensures { option_map mistake_of result ≡ Some (mistake kind word.now program) }
{
    Some(Mistake {
        kind,
        word,
        program,
    })
}

fn in_programs(programs: &Array) -> Option<Mistake<'_>>
    ensures { option_map mistake_of result ≡ in_programs 0 (array_view programs.now) }
{
    for (number, program) in programs.iter().enumerate() {
        if let Some(mistake) = in_program(number, program.as_table()) {
            return Some(mistake);
        }
    }
    None
}

/// The first mistake in the program with this number.
fn in_program(number: usize, program: Option<&Table>) -> Option<Mistake<'_>>
    ensures { option_map mistake_of result
        ≡ in_program number (option_map (λ t. table_view t.now) program.entry) }
{
    let program = match program {
        Some(program) => program,
        None => return about(Kind::WrongType, "program", None),
    };
    if let Some(word) = unknown_key(program, &["name", "files"]) {
        return about(Kind::UnknownKey, word, Some(number));
    }
    if let Some(mistake) = in_name(number, member(program, "name")) {
        return Some(mistake);
    }
    in_files(number, member(program, "files"))
}

fn in_name(number: usize, value: Option<&Value>) -> Option<Mistake<'_>>
    ensures { option_map mistake_of result
        ≡ in_name number (option_map (λ v. view v.now) value.entry) }
{
    let value = match value {
        Some(value) => value,
        None => return about(Kind::MissingKey, "name", Some(number)),
    };
    match value.as_str() {
        Some(name) if name.is_empty() => about(Kind::Empty, "name", Some(number)),
        Some(_) => None,
        None => about(Kind::WrongType, "name", Some(number)),
    }
}

fn in_files(number: usize, value: Option<&Value>) -> Option<Mistake<'_>>
    ensures { option_map mistake_of result
        ≡ in_files number (option_map (λ v. view v.now) value.entry) }
{
    let value = match value {
        Some(value) => value,
        None => return about(Kind::MissingKey, "files", Some(number)),
    };
    match value.as_array() {
        Some(paths) => in_list(number, paths),
        None => about(Kind::WrongType, "files", Some(number)),
    }
}

fn in_list(number: usize, paths: &Array) -> Option<Mistake<'_>>
    ensures { option_map mistake_of result ≡ in_list number (Some (array_view paths.now)) }
{
    if paths.is_empty() {
        about(Kind::Empty, "files", Some(number))
    } else {
        in_paths(Some(number), paths)
    }
}

/// The first mistake in the list of a program, or of what no program has.
fn in_paths(program: Option<usize>, paths: &Array) -> Option<Mistake<'_>>
    ensures { option_map mistake_of result ≡ in_paths program (array_view paths.now) }
{
    for path in paths {
        if let Some(mistake) = in_path(program, path.as_str()) {
            return Some(mistake);
        }
    }
    None
}

fn in_path(program: Option<usize>, path: Option<&str>) -> Option<Mistake<'_>>
    ensures { option_map mistake_of result ≡ in_path program (option_copied path.entry) }
{
    match path {
        Some(path) if leads_out(path.as_bytes()) => about(Kind::LeadsOut, path, program),
        Some(_) => None,
        None => about(Kind::WrongType, list_key(program), program),
    }
}

/// The key of a list of paths.
fn list_key(program: Option<usize>) -> &'static str
    ensures { result.now ≡ list_key program }
{
    match program {
        Some(_) => "files",
        None => "exclude",
    }
}

/// The first mistake in the list of what no program has, which may be empty.
fn in_exclude(value: Option<&Value>) -> Option<Mistake<'_>>
    ensures { option_map mistake_of result
        ≡ in_exclude (option_map (λ v. view v.now) value.entry) }
{
    match value {
        None => None,
        Some(value) => {
            match value.as_array() {
                Some(paths) => in_paths(None, paths),
                None => about(Kind::WrongType, "exclude", None),
            }
        }
    }
}

/// The first mistake in the levels.
fn in_lints(value: Option<&Value>) -> Option<Mistake<'_>>
    ensures { option_map mistake_of result
        ≡ in_lints (option_map (λ v. view v.now) value.entry) }
{
    match value {
        None => None,
        Some(value) => {
            match value.as_table() {
                Some(tools) => in_lints_table(tools),
                None => about(Kind::WrongType, "lints", None),
            }
        }
    }
}

fn in_lints_table(tools: &Table) -> Option<Mistake<'_>>
    ensures { option_map mistake_of result ≡ in_lints_table (Some (table_view tools.now)) }
{
    if let Some(word) = unknown_key(tools, &[Tool::IsleLint.key(), Tool::IsleCheck.key()]) {
        return about(Kind::UnknownTool, word, None);
    }
    if let Some(mistake) = in_tool(Tool::IsleLint, member(tools, Tool::IsleLint.key())) {
        return Some(mistake);
    }
    in_tool(Tool::IsleCheck, member(tools, Tool::IsleCheck.key()))
}

/// The first mistake in the table of a tool.
fn in_tool(tool: Tool, value: Option<&Value>) -> Option<Mistake<'_>>
    ensures { option_map mistake_of result
        ≡ in_tool tool (option_map (λ v. view v.now) value.entry) }
{
    match value {
        None => None,
        Some(value) => {
            match value.as_table() {
                Some(names) => in_levels(tool, names),
                None => about(Kind::WrongTable, tool.key(), None),
            }
        }
    }
}

fn in_levels(tool: Tool, names: &Table) -> Option<Mistake<'_>>
    ensures { option_map mistake_of result ≡ in_levels tool (table_view names.now) }
{
    'members: for (name, value) in names.iter() {
        if level_in(value).is_none() {
            return about(Kind::WrongLevel(tool), name.as_str(), None);
        }
    }
    None
}

/// Returns whether a path is absolute, or some part of it is `..`.
fn leads_out(path: &[u8]) -> bool
    ensures { result ≡ Paths.leads_out path.now }
{
    begins_with_slash(path) || has_up(path)
}

fn begins_with_slash(path: &[u8]) -> bool
    ensures { result ≡ Paths.begins_with 47 path.now }
{
    match path {
        [first, ..] => *first == b'/',
        [] => false,
    }
}

/// Returns whether some part of a path is `..`.
fn has_up(path: &[u8]) -> bool
    ensures { result ≡ Paths.has_up true path.now }
{
    let mut starts = true;
    for (i, byte) in path.iter().enumerate() {
        if starts && is_up(&path[i..]) {
            return true;
        }
        starts = *byte == b'/';
    }
    false
}

/// Returns whether the first part of a path is `..`.
fn is_up(path: &[u8]) -> bool
    ensures { result ≡ Paths.is_up path.now }
{
    path == b"..".as_slice() || path.starts_with(b"../")
}

impl Mistake<'_> {
    /// What the mistake is, in words.
    pub(crate) fn message(&self, alloc: Global) -> Result<String, AllocError>
        ensures { IfOk result (λ text. string_bytes text ≡ message (mistake_of self.now)) }
    {
        let word = self.word;
        match self.kind {
            Kind::UnknownKey => format!(in alloc; "unknown key '{word}'"),
            Kind::MissingKey => format!(in alloc; "missing key '{word}'"),
            Kind::WrongType => format!(in alloc; "'{word}' must be {}", wanted(word)),
            Kind::Empty => format!(in alloc; "'{word}' is empty"),
            Kind::LeadsOut => format!(in alloc; "path '{word}' leads out of the folder"),
            Kind::NameTwice => format!(in alloc; "two programs are named '{word}'"),
            Kind::UnknownTool => format!(in alloc; "unknown key '{word}'"),
            Kind::WrongTable => format!(in alloc; "'{word}' must be a table"),
            Kind::WrongLevel(_) => {
                format!(in alloc; "'{word}' must be \"allow\", \"warn\" or \"deny\"")
            }
            Kind::UnknownName(tool) => format!(in alloc; "unknown {} '{word}'", noun(tool)),
        }
    }

    /// Where the mistake is shown: the byte offset of its key or its path in the manifest's text.
    ///
    /// The values of TOML have no places, so the key is searched for, as the first word of a line.
    pub(crate) fn place(&self, text: &[u8]) -> usize
        ensures { result ≡ place text.now (mistake_of self.now) }
    {
        let from = start(text, self.program);
        match self.kind {
            Kind::MissingKey => from,
            Kind::UnknownKey | Kind::WrongType | Kind::Empty => {
                line_from(text, true, from, self.word.as_bytes())
            }
            Kind::NameTwice => line_from(text, true, from, b"name"),
            Kind::LeadsOut => {
                let list = line_from(text, true, from, list_key(self.program).as_bytes());
                line_from(text, true, list, self.word.as_bytes())
            }
            Kind::UnknownTool | Kind::WrongTable => lints_key(text, self.word.as_bytes()),
            Kind::WrongLevel(tool) | Kind::UnknownName(tool) => {
                lints_name(text, tool.key().as_bytes(), self.word.as_bytes())
            }
        }
    }
}

/// What the value of a key must be.
fn wanted(key: &str) -> &'static str
    ensures { result.now ≡ wanted key.now }
{
    match key {
        "name" => "a string",
        "files" => "a list of strings",
        "exclude" => "a list of strings",
        "program" => "a list of tables",
        _ => "a table",
    }
}

/// What a name stands for that a tool does not know.
fn noun(tool: Tool) -> &'static str
    ensures { result.now ≡ noun tool }
{
    match tool {
        Tool::IsleLint => "lint",
        Tool::IsleCheck => "kind",
    }
}
