//! The programs that the command line of a tool asks for.

use crate::disk::{Listed, find, paths_of};
use crate::levels::{NameLevel, Tool};
use crate::manifest::{
    FILE_NAME, Manifest, ManifestFault, ProgramFiles, manifest_of, unknown_name,
};
use crate::membership::has_file;
use isle_base_source::files::LineMap;
use isle_cli::messages::message_line;
use isle_cli::program::Program;
use isle_cli::sources::{fault_line, read_file};
use isle_cli::streams::{ReadFault, fault_of};
use std::alloc::{AllocError, AllocFailed, Global};
use std::env;
use std::env::Env;
use std::fs::{Files, canonicalize};

/// A program that is asked for.
#[derive(Drop)]
pub struct Chosen {
    pub name: String,
    /// Its files, and the entries that stand for none.
    pub listed: Listed,
}

/// Why no programs are chosen.
#[derive(Drop)]
pub enum ChoiceFault {
    /// Out of memory.
    Memory,
    /// There is no manifest or no such folder, or one can't be read: the line that says so.
    Unread(String),
    /// The manifest has a mistake, or no program of a name: the line that says so.
    Mistaken(String),
}

impl From<AllocError> for ChoiceFault {
    fn from(_error: AllocError) -> ChoiceFault {
        ChoiceFault::Memory
    }
}

impl<T: Drop> From<AllocFailed<T>> for ChoiceFault {
    fn from(_error: AllocFailed<T>) -> ChoiceFault {
        ChoiceFault::Memory
    }
}

/// A manifest, and the programs of it that are asked for.
#[derive(Drop)]
pub struct Choice {
    pub programs: Vec<Chosen>,
    /// The path of the manifest, as it is shown.
    pub path: String,
    /// Its text.
    pub text: String,
    /// The levels for `isle-lint`.
    pub lint_levels: Vec<NameLevel>,
    /// The levels for `isle-check`.
    pub check_levels: Vec<NameLevel>,
}

/// The nearest manifest at or above a folder, and its programs of these names, in the manifest's
/// order; all of its programs, if there are no names. Without a folder it is the current one.
///
/// Paths are shown relative to the current folder, if they lead no more than up from it.
pub fn choose<R: Files + Env + AllocGlobal + Clone + Drop>(
    rt: &R,
    tool: &Program,
    folder: Option<&str>,
    names: &[String],
) -> Result<Choice, ChoiceFault> {
    let top = match manifest_folder(rt, tool, folder)? {
        Some(top) => top,
        None => {
            let line = format!(in rt.alloc(); "{}: no {FILE_NAME} here or above\n", tool.name)?;
            return Err(ChoiceFault::Unread(line));
        }
    };
    let path = in_folder(rt, top.as_str(), FILE_NAME)?;
    let text = text_at(rt, tool, path.as_str())?;
    let manifest = match manifest_of(rt.alloc(), text.as_str()) {
        Ok(manifest) => manifest,
        Err(fault) => return Err(mistaken(rt.alloc(), path.as_str(), text.as_str(), fault)),
    };
    if let Some(name) = unknown_program(&manifest, names) {
        let line = format!(in rt.alloc(); "{}: {path} has no program '{name}'\n", tool.name)?;
        return Err(ChoiceFault::Mistaken(line));
    }
    let programs = with_files(rt, top.as_str(), &manifest, names)?;
    Ok(Choice {
        programs,
        path,
        text,
        lint_levels: manifest.lint_levels,
        check_levels: manifest.check_levels,
    })
}

/// The text of a manifest.
fn text_at<R: Files + AllocGlobal + Clone + Drop>(
    rt: &R,
    tool: &Program,
    path: &str,
) -> Result<String, ChoiceFault> {
    match read_file(rt, path) {
        Ok(text) => Ok(text),
        Err(ReadFault::Memory) => Err(ChoiceFault::Memory),
        Err(fault) => {
            let line = fault_line(rt.alloc(), tool, path, fault)?;
            Err(ChoiceFault::Unread(line))
        }
    }
}

/// The fault of a manifest in which a level has a name that the tool does not know.
pub fn unknown_level(alloc: Global, choice: &Choice, tool: Tool, name: &str) -> ChoiceFault {
    let text = choice.text.as_str();
    mistaken(
        alloc,
        choice.path.as_str(),
        text,
        unknown_name(alloc, text, tool, name),
    )
}

/// A line for each entry that stands for no file, each once.
pub fn missing_notes<R: AllocGlobal>(
    rt: &R,
    tool: &Program,
    programs: &[Chosen],
) -> Result<String, AllocError> {
    let mut notes = String::new(rt.alloc());
    let mut told: Vec<String> = Vec::new(rt.alloc());
    for program in programs {
        for entry in &program.listed.missing {
            if !has_file(&told, entry.as_str()) {
                let name = tool.name;
                let note = format!(in rt.alloc(); "{name}: note: {entry}: no such file\n")?;
                notes.push_str(note.as_str())?;
                told.push(entry.clone()?)?;
            }
        }
    }
    Ok(notes)
}

/// The line of a manifest's mistake.
fn mistaken(alloc: Global, path: &str, text: &str, fault: ManifestFault) -> ChoiceFault {
    match fault {
        ManifestFault::Memory => ChoiceFault::Memory,
        ManifestFault::Rejected { offset, message } => {
            match mistake_line(alloc, path, text, offset, message.as_str()) {
                Ok(line) => ChoiceFault::Mistaken(line),
                Err(_) => ChoiceFault::Memory,
            }
        }
    }
}

fn mistake_line(
    alloc: Global,
    path: &str,
    text: &str,
    offset: usize,
    message: &str,
) -> Result<String, AllocError> {
    let lines = LineMap::from_str(alloc, text)?;
    let offset = offset.min(usize::MAX - 1);
    message_line(alloc, path, text, &lines, offset, "error", message)
}

/// The first of the names that no program has.
fn unknown_program<'a>(manifest: &Manifest, names: &'a [String]) -> Option<&'a str> {
    for name in names {
        let name = name.as_str();
        let is_known = |program: &ProgramFiles| program.name.as_str() == name;
        if !manifest.programs.iter().any(is_known) {
            return Some(name);
        }
    }
    None
}

/// The programs of these names, or all of them, with their files.
fn with_files<R: Files + AllocGlobal + Clone + Drop>(
    rt: &R,
    top: &str,
    manifest: &Manifest,
    names: &[String],
) -> Result<Vec<Chosen>, ChoiceFault> {
    let mut chosen = Vec::new(rt.alloc());
    for program in &manifest.programs {
        if is_wanted(names, program.name.as_str()) {
            let name = program.name.clone()?;
            let listed = paths_of(rt, top, program)?;
            chosen.push(Chosen { name, listed })?;
        }
    }
    Ok(chosen)
}

fn is_wanted(names: &[String], name: &str) -> bool {
    names.is_empty() || has_file(names, name)
}

/// The folder of the nearest manifest, as it is shown; the current folder is empty.
fn manifest_folder<R: Files + Env + AllocGlobal + Clone + Drop>(
    rt: &R,
    tool: &Program,
    folder: Option<&str>,
) -> Result<Option<String>, ChoiceFault> {
    let current = current_folder(rt)?;
    let from = match folder {
        Some(folder) => real_folder(rt, tool, folder)?,
        None => current.clone()?,
    };
    match find(rt, from.as_str())? {
        Some(path) => {
            let top = path.as_str().strip_suffix(FILE_NAME).unwrap_or("");
            Ok(Some(shown(rt, current.as_str(), top)?))
        }
        None => Ok(None),
    }
}

/// The path of a folder without links and `..`, so that what is above it is a beginning of it.
fn real_folder<R: Files + AllocGlobal>(
    rt: &R,
    tool: &Program,
    folder: &str,
) -> Result<String, ChoiceFault> {
    match canonicalize(rt, folder) {
        Ok(path) => Ok(String::from_str(rt.alloc(), path.as_str())?),
        Err(error) => match fault_of(error) {
            ReadFault::Memory => Err(ChoiceFault::Memory),
            fault => {
                let line = fault_line(rt.alloc(), tool, folder, fault)?;
                Err(ChoiceFault::Unread(line))
            }
        },
    }
}

/// The current folder; empty if it can't be told.
fn current_folder<R: Files + Env + AllocGlobal + Clone + Drop>(
    rt: &R,
) -> Result<String, AllocError> {
    match env::current_dir(rt) {
        Ok(path) => String::from_str(rt.alloc(), path.as_str()),
        Err(_) => Ok(String::new(rt.alloc())),
    }
}

/// A folder, whose path ends with `/`, seen from the current one.
fn shown<R: AllocGlobal>(rt: &R, current: &str, top: &str) -> Result<String, AllocError> {
    let here = format!(in rt.alloc(); "{current}/")?;
    if let Some(below) = top.strip_prefix(here.as_str()) {
        return String::from_str(rt.alloc(), below.trim_end_matches('/'));
    }
    match here.as_str().strip_prefix(top) {
        Some(left) if top != "/" => {
            let mut ups = String::new(rt.alloc());
            for part in left.split('/') {
                if !part.is_empty() {
                    ups.push_str("../")?;
                }
            }
            String::from_str(rt.alloc(), ups.as_str().trim_end_matches('/'))
        }
        _ if top == "/" => String::from_str(rt.alloc(), "/."),
        _ => String::from_str(rt.alloc(), top.trim_end_matches('/')),
    }
}

/// A path in a folder; an empty folder is the current one.
fn in_folder<R: AllocGlobal>(rt: &R, folder: &str, path: &str) -> Result<String, AllocError> {
    if folder.is_empty() {
        return String::from_str(rt.alloc(), path);
    }
    format!(in rt.alloc(); "{folder}/{path}")
}
