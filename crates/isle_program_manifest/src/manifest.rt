//! What a manifest says: its programs, and the levels for each tool.

ghost use Rattle.std.specs.Prelude.{◌≡◌, ◌++◌, [], IfErr, IfOk, List, None, OnOk, Some, map};
ghost use Rattle.std.specs.Prelude.{option_map, option_to_list, string_bytes, unwrap_or, ℕ};
ghost use Rattle.std.specs.Option.{option_and_then};
ghost use Rattle.toml.specs.Data as toml_data;
ghost use Rattle.toml.specs.Errors.{IsMemory, IsWithin};
ghost use Rattle.toml.specs.Parse.{parse_document};
ghost use Rattle.toml.specs.View.{table_view, view};
ghost use Rattle.isle_program_manifest.specs.Levels.{level_in, levels, name_level};
ghost use Rattle.isle_program_manifest.specs.Levels.{name_level_of};
ghost use Rattle.isle_program_manifest.specs.Manifest.{IsFaultOf, IsManifest, IsRefused};
ghost use Rattle.isle_program_manifest.specs.Manifest.{IsRejected, has_name, items_in, levels_of};
ghost use Rattle.isle_program_manifest.specs.Manifest.{manifest_of, name_twice, program};
ghost use Rattle.isle_program_manifest.specs.Manifest.{program_of, programs, programs_of, strings};
ghost use Rattle.isle_program_manifest.specs.Manifest.{text_in};
ghost use Rattle.isle_program_manifest.specs.Mistakes.{mistake, mistake_of};
ghost use Rattle.isle_program_manifest.specs.declared.manifest.ManifestFault.TheVariants.{Memory};
ghost use Rattle.isle_program_manifest.specs.declared.mistakes.Kind.TheVariants.{UnknownName};

use crate::levels::{NameLevel, Tool};
use crate::mistakes::{Kind, Mistake, mistake_in};
use crate::values::{level_in, member};
use std::alloc::{AllocError, Global};
use toml::{Table, Value};

/// The name of a manifest's file.
pub const FILE_NAME: &str = "isle.toml";

/// What a manifest says.
#[derive(Drop)]
pub struct Manifest {
    /// The programs, in order. No two have one name.
    pub programs: Vec<ProgramFiles>,
    /// The levels for `isle-lint`, by name. No two have one name.
    pub lint_levels: Vec<NameLevel>,
    /// The levels for `isle-check`, by name. No two have one name.
    pub check_levels: Vec<NameLevel>,
}

/// A program.
#[derive(Drop)]
pub struct ProgramFiles {
    /// Its name, which is not empty.
    pub name: String,
    /// The entries of its list of files: paths and patterns, relative to the manifest's folder.
    pub files: Vec<String>,
    /// The entries of the manifest's list of what no program has, in the same form.
    pub exclude: Vec<String>,
}

/// Why there is no manifest.
#[derive(Drop)]
pub enum ManifestFault {
    /// Out of memory.
    Memory,
    /// The text is no TOML, or no manifest.
    Rejected {
        /// The byte offset in the text at which this is shown.
        offset: usize,
        /// Why, in words.
        message: String,
    },
}

impl From<AllocError> for ManifestFault {
    ghost from_gives = { λ _ fault. fault ≡ Memory };

    fn from(_error: AllocError) -> ManifestFault {
        ManifestFault::Memory
    }
}

/// Reads the text of a manifest.
///
/// It fails with `Memory`, and with `Rejected` if the text is no TOML, or has an unknown key, a
/// key that is missing, a value of a wrong type, an empty name or list, a path that leads out of
/// the manifest's folder, a word that is no level, or two programs of one name. Only the first
/// mistake is told. Whether a tool knows the names of its levels is not asked.
pub fn manifest_of(alloc: Global, text: &str) -> Result<Manifest, ManifestFault>
    ensures ok { IfOk result (λ manifest. IsManifest text.now (manifest_of manifest)) }
    ensures err { IfErr result (λ fault. IsRefused text.now fault) }
{
    let table = match toml::table_from_str(alloc, text) {
        Ok(table) => table,
        Err(error) => return Err(toml_fault(alloc, &error)),
    };
    if let Some(mistake) = mistake_in(&table) {
        return Err(fault_of(alloc, text, &mistake));
    }
    let programs = programs_of(alloc, &table)?;
    if let Some(mistake) = name_twice(&programs) {
        return Err(fault_of(alloc, text, &mistake));
    }
    let lint_levels = levels_of(alloc, Tool::IsleLint, &table)?;
    let check_levels = levels_of(alloc, Tool::IsleCheck, &table)?;
    Ok(Manifest {
        programs,
        lint_levels,
        check_levels,
    })
}

/// The fault of a manifest in which a level has a name that its tool does not know.
pub fn unknown_name(alloc: Global, text: &str, tool: Tool, name: &str) -> ManifestFault
    ensures { IsFaultOf text.now (mistake (UnknownName tool) name.now None) result }
{
    let mistake = Mistake {
        kind: Kind::UnknownName(tool),
        word: name,
        program: None,
    };
    fault_of(alloc, text, &mistake)
}

/// Why a text is no TOML.
fn toml_fault(alloc: Global, error: &toml::de::Error) -> ManifestFault
    ensures { (text : List ℕ) → IsWithin text error.now
        → (¬ IsMemory error.now → parse_document text ≡ None) → IsRefused text result }
{
    match error.span() {
        None => ManifestFault::Memory,
        Some(span) => rejected(span.start, String::from_str(alloc, error.message())),
    }
}

/// The fault of a mistake.
fn fault_of(alloc: Global, text: &str, mistake: &Mistake<'_>) -> ManifestFault
    ensures { IsFaultOf text.now (mistake_of mistake.now) result }
{
    rejected(mistake.place(text.as_bytes()), mistake.message(alloc))
}

/// A fault with this message, if there is memory for it.
fn rejected(offset: usize, message: Result<String, AllocError>) -> ManifestFault
    ensures { IsRejected offset message result }
{
    match message {
        Ok(message) => ManifestFault::Rejected { offset, message },
        Err(_) => ManifestFault::Memory,
    }
}

/// The programs of a value without mistakes.
fn programs_of(alloc: Global, manifest: &Table) -> Result<Vec<ProgramFiles>, AllocError>
    ensures { IfOk result (λ all. map program_of all.items
        ≡ programs_of (table_view manifest.now)) }
{
    let exclude = member(manifest, "exclude");
    match member(manifest, "program") {
        Some(value) => programs_in(alloc, exclude, value),
        None => Ok(Vec::new(alloc)),
    }
}

/// The programs of an array, with the entries of what no program has.
fn programs_in(
    alloc: Global,
    exclude: Option<&Value>,
    value: &Value,
) -> Result<Vec<ProgramFiles>, AllocError>
    ensures { IfOk result (λ all. map program_of all.items
        ≡ programs (strings (items_in (option_map (λ v. view v.now) exclude.entry)))
        (unwrap_or (toml_data.as_array (view value.now)) toml_data.no_items)) }
{
    let mut programs = Vec::new(alloc);
    if let Some(array) = value.as_array() {
        for value in array {
            add_program(alloc, exclude, value, &mut programs)?;
        }
    }
    Ok(programs)
}

/// Adds the program of a table.
fn add_program(
    alloc: Global,
    exclude: Option<&Value>,
    value: &Value,
    programs: &mut Vec<ProgramFiles>,
) -> Result<(), AllocError>
    ensures { OnOk result (map program_of programs.new.items ≡ map program_of programs.old.items
        ++ option_to_list (option_map
        (program (strings (items_in (option_map (λ v. view v.now) exclude.entry))))
        (toml_data.as_table (view value.now)))) }
{
    if let Some(table) = value.as_table() {
        let name = text_at(alloc, member(table, "name"))?;
        let files = strings_at(alloc, member(table, "files"))?;
        let exclude = strings_at(alloc, exclude)?;
        programs.push(ProgramFiles {
            name,
            files,
            exclude,
        })?;
    }
    Ok(())
}

/// The levels of a tool.
fn levels_of(alloc: Global, tool: Tool, manifest: &Table) -> Result<Vec<NameLevel>, AllocError>
    ensures { IfOk result (λ all. map name_level_of all.items
        ≡ levels_of tool (table_view manifest.now)) }
{
    match table_at(member(manifest, "lints")) {
        Some(tools) => levels_at(alloc, table_at(member(tools, tool.key()))),
        None => Ok(Vec::new(alloc)),
    }
}

/// The table that a value is.
fn table_at<'a>(value: Option<&'a Value>) -> Option<&'a Table>
    ensures { option_map (λ t. table_view t.now) result
        ≡ option_and_then toml_data.as_table (option_map (λ v. view v.now) value.entry) }
{
    match value {
        Some(value) => value.as_table(),
        None => None,
    }
}

/// The levels of a table; none without one.
fn levels_at(alloc: Global, table: Option<&Table>) -> Result<Vec<NameLevel>, AllocError>
    ensures { IfOk result (λ all. map name_level_of all.items ≡ levels
        (unwrap_or (option_map (λ t. table_view t.now) table.entry) toml_data.no_members)) }
{
    match table {
        Some(table) => levels_in(alloc, table),
        None => Ok(Vec::new(alloc)),
    }
}

fn levels_in(alloc: Global, table: &Table) -> Result<Vec<NameLevel>, AllocError>
    ensures { IfOk result (λ all. map name_level_of all.items
        ≡ levels (table_view table.now)) }
{
    let mut levels = Vec::new(alloc);
    'members: for (name, value) in table.iter() {
        add_level(name, value, &mut levels)?;
    }
    Ok(levels)
}

/// Adds the level of a name, if the value is one.
fn add_level(name: &String, value: &Value, levels: &mut Vec<NameLevel>) -> Result<(), AllocError>
    ensures { OnOk result (map name_level_of levels.new.items ≡ map name_level_of levels.old.items
        ++ option_to_list (option_map (name_level (string_bytes name.now))
        (level_in (view value.now)))) }
{
    if let Some(level) = level_in(value) {
        let name = name.clone()?;
        levels.push(NameLevel { name, level })?;
    }
    Ok(())
}

/// A string; empty without one.
fn text_at(alloc: Global, value: Option<&Value>) -> Result<String, AllocError>
    ensures { IfOk result (λ text. string_bytes text
        ≡ text_in (option_map (λ v. view v.now) value.entry)) }
{
    match value {
        Some(value) => String::from_str(alloc, value.as_str().unwrap_or("")),
        None => Ok(String::new(alloc)),
    }
}

/// The strings of an array; none without one.
fn strings_at(alloc: Global, value: Option<&Value>) -> Result<Vec<String>, AllocError>
    ensures { IfOk result (λ all. map string_bytes all.items
        ≡ strings (items_in (option_map (λ v. view v.now) value.entry))) }
{
    match value {
        Some(value) => strings_in(alloc, value),
        None => Ok(Vec::new(alloc)),
    }
}

fn strings_in(alloc: Global, value: &Value) -> Result<Vec<String>, AllocError>
    ensures { IfOk result (λ all. map string_bytes all.items
        ≡ strings (unwrap_or (toml_data.as_array (view value.now)) toml_data.no_items)) }
{
    let mut strings = Vec::new(alloc);
    if let Some(array) = value.as_array() {
        for value in array {
            add_string(alloc, value, &mut strings)?;
        }
    }
    Ok(strings)
}

/// Adds a string, if the value is one.
fn add_string(alloc: Global, value: &Value, strings: &mut Vec<String>) -> Result<(), AllocError>
    ensures { OnOk result (map string_bytes strings.new.items ≡ map string_bytes strings.old.items
        ++ option_to_list (toml_data.as_str (view value.now))) }
{
    if let Some(text) = value.as_str() {
        strings.push(String::from_str(alloc, text)?)?;
    }
    Ok(())
}

/// The first program that has the name of an earlier one, as a mistake.
fn name_twice(programs: &[ProgramFiles]) -> Option<Mistake<'_>>
    ensures { option_map mistake_of result ≡ name_twice [] (map program_of programs.now) }
{
    for (number, program) in programs.iter().enumerate() {
        let name = program.name.as_str();
        if has_name(&programs[..number], name) {
            return Some(Mistake {
                kind: Kind::NameTwice,
                word: name,
                program: Some(number),
            });
        }
    }
    None
}

/// Returns whether one of the programs has this name.
fn has_name(programs: &[ProgramFiles], name: &str) -> bool
    ensures { result ≡ has_name (map program_of programs.now) name.now }
{
    for program in programs {
        if program.name.as_str() == name {
            return true;
        }
    }
    false
}
