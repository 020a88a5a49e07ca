//! The files below a folder.

ghost use Rattle.std.specs.Prelude.{◌≡◌, ◌++◌, List, ℕ, IfOk, OnOk, map, string_bytes, true};
ghost use Rattle.isle_cli.specs.Sources.{IsListing, TellsFaults, are_taken, fault_line, is_taken};

use crate::patterns::is_excluded;
use crate::program::Program;
use crate::sources::{empty_line, fault_line};
use crate::streams::{ReadFault, fault_of};
use std::alloc::AllocError;
use std::fs::{DirEntry, Files, read_dir};
use std::io;

/// The suffix of the names of ISLE files.
const SUFFIX: &str = ".isle";

/// A file or a folder.
#[derive(Drop)]
struct Entry {
    path: String,
    is_folder: bool,
}

/// The names of the files that a name of the command line stands for, as `files_of` finds them. A
/// line is added to `faults`, too, if it is a folder without an ISLE file.
pub fn files_named<R: Files + AllocGlobal + Clone + Drop>(
    rt: &R,
    program: &Program,
    name: &str,
    excluded: &[String],
    faults: &mut String,
) -> Result<Vec<String>, AllocError>
    ensures { IfOk result (λ files. (told : List ℕ)
        × IsListing program.now (map string_bytes excluded.now) name.now
        (map string_bytes files.items) told
        × (string_bytes faults.new ≡ string_bytes faults.old ++ told)) }
{
    let told = faults.len();
    let files = files_of(rt, program, name, excluded, faults)?;
    if files.is_empty() && faults.len() == told {
        let line = empty_line(rt.alloc(), program, name)?;
        faults.push_str(line.as_str())?;
    }
    Ok(files)
}

/// The names of the files that a name stands for: itself, or, if it is a folder, each file below it
/// whose name ends in `.isle`, in order of name.
///
/// Below a folder, hidden folders and links are left out, and what one of the patterns excludes. A
/// line is added to `faults` for each file or folder that can't be read, and the other files are
/// returned all the same.
pub fn files_of<R: Files + AllocGlobal + Clone + Drop>(
    rt: &R,
    program: &Program,
    name: &str,
    excluded: &[String],
    faults: &mut String,
) -> Result<Vec<String>, AllocError>
    ensures told { OnOk result
        (TellsFaults program.now (string_bytes faults.old) (string_bytes faults.new)) }
    ensures taken { IfOk result (λ files. are_taken (map string_bytes excluded.now) name.now
        (map string_bytes files.items) ≡ true) }
{
    let mut files = Vec::new(rt.alloc());
    let is_folder = match rt.metadata(name) {
        Ok(metadata) => metadata.is_dir(),
        Err(error) => {
            push_fault(rt, program, name, error, faults)?;
            return Ok(files);
        }
    };
    let path = String::from_str(rt.alloc(), name)?;
    let mut pending = vec![in rt.alloc(); Entry { path, is_folder }]?;
    for _ in 0..u64::MAX {
        match pending.pop() {
            None => return Ok(files),
            Some(entry) if !is_taken(excluded, name, entry.path.as_str()) => {}
            Some(entry) if entry.is_folder => {
                push_entries(rt, program, entry.path.as_str(), &mut pending, faults)?;
            }
            Some(entry) => files.push(entry.path)?,
        }
    }
    Ok(files)
}

/// Returns whether a path counts below this name: it is the name, or no pattern excludes it.
fn is_taken(excluded: &[String], name: &str, path: &str) -> bool
    ensures { result ≡ is_taken (map string_bytes excluded.now) name.now path.now }
{
    path == name || !is_excluded(excluded, path)
}

/// Puts the entries of a folder on top of the pending ones, the first name last.
fn push_entries<R: Files + AllocGlobal + Clone + Drop>(
    rt: &R,
    program: &Program,
    folder: &str,
    pending: &mut Vec<Entry>,
    faults: &mut String,
) -> Result<(), AllocError>
    ensures { OnOk result
        (TellsFaults program.now (string_bytes faults.old) (string_bytes faults.new)) }
{
    let entries = match read_dir(rt, folder) {
        Ok(entries) => entries,
        Err(error) => return push_fault(rt, program, folder, error, faults),
    };
    let mut inside = Vec::new(rt.alloc());
    for entry in entries {
        match entry.and_then(|entry| entry_of(rt, &entry)) {
            Ok(Some(entry)) => inside.push(entry)?,
            Ok(None) => {}
            Err(error) => push_fault(rt, program, folder, error, faults)?,
        }
    }
    inside.sort_by(|a, b| b.path.cmp(&a.path))?;
    for entry in inside {
        pending.push(entry)?;
    }
    Ok(())
}

/// The entry, if it is a folder that isn't hidden or an ISLE file.
fn entry_of<R: Files + AllocGlobal>(rt: &R, entry: &DirEntry<R>) -> io::Result<Option<Entry>> {
    let name = entry.file_name();
    let kind = entry.file_type()?;
    let is_folder = kind.is_dir() && !name.starts_with('.');
    let is_file = kind.is_file() && name.ends_with(SUFFIX);
    if !is_folder && !is_file {
        return Ok(None);
    }
    let path = String::from_str(rt.alloc(), entry.path().as_str())?;
    Ok(Some(Entry { path, is_folder }))
}

/// Adds the line that says why a name can't be read. Fails if the error is that memory ran out.
fn push_fault<R: Files + AllocGlobal>(
    rt: &R,
    program: &Program,
    name: &str,
    error: io::Error,
    faults: &mut String,
) -> Result<(), AllocError>
    ensures { OnOk result ((fault : ReadFault) × (string_bytes faults.new
        ≡ string_bytes faults.old ++ fault_line program.now name.now fault)) }
{
    match fault_of(error) {
        ReadFault::Memory => Err(AllocError),
        fault => {
            let line = fault_line(rt.alloc(), program, name, fault)?;
            faults.push_str(line.as_str())?;
            Ok(())
        }
    }
}
