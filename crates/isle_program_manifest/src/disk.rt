//! Manifests and the files of programs on the disk. No contract can say what is there.

use crate::manifest::{FILE_NAME, ProgramFiles};
use crate::membership::{has_file, is_left_out};
use isle_cli::folders::files_of;
use isle_cli::patterns::covers;
use isle_cli::program::Program;
use std::alloc::{AllocError, Global};
use std::fs::Files;

/// Whom `files_of` names in messages that nobody reads.
pub const NOBODY: Program = Program {
    name: "",
    usage: "",
    help: "",
    version: "",
};

/// The files of a program.
#[derive(Drop)]
pub struct Listed {
    /// Their paths, in the order of the list, each once.
    pub paths: Vec<String>,
    /// The entries of the list that stand for no file, whether it is left out or not, or for a
    /// folder that can't be read whole.
    pub missing: Vec<String>,
}

/// The path of the nearest `isle.toml` in a folder or above it. The folder is an absolute path: of
/// a relative one only the folders in it are looked at.
pub fn find<R: Files + AllocGlobal + Clone + Drop>(
    rt: &R,
    folder: &str,
) -> Result<Option<String>, AllocError> {
    let mut folder = folder.trim_end_matches('/');
    for _ in 0..=folder.len() {
        let path = format!(in rt.alloc(); "{folder}/{FILE_NAME}")?;
        if is_file(rt, path.as_str()) {
            return Ok(Some(path));
        }
        match folder.rsplit_once('/') {
            Some((above, _)) => folder = above,
            None => return Ok(None),
        }
    }
    Ok(None)
}

/// The files of a program of a manifest in this folder, without those that are left out. They are
/// named by paths that begin with the folder and `/`; an empty folder is the current one, and then
/// the paths are relative.
pub fn paths_of<R: Files + AllocGlobal + Clone + Drop>(
    rt: &R,
    folder: &str,
    program: &ProgramFiles,
) -> Result<Listed, AllocError> {
    let exclude = bare_entries(rt.alloc(), &program.exclude)?;
    let mut paths = Vec::new(rt.alloc());
    let mut missing = Vec::new(rt.alloc());
    for entry in &program.files {
        let mut faults = String::new(rt.alloc());
        let files = files_at(rt, folder, bare(entry.as_str()), &mut faults)?;
        if files.is_empty() || !faults.is_empty() {
            missing.push(entry.clone()?)?;
        }
        for file in files {
            let path = inside(folder, file.as_str());
            if !is_left_out(&exclude, bare(entry.as_str()), path)
                && !has_file(&paths, file.as_str())
            {
                paths.push(file)?;
            }
        }
    }
    Ok(Listed { paths, missing })
}

/// Returns whether a path relative to the manifest's folder is that of a file of the program, if
/// its file exists.
pub fn is_listed(alloc: Global, program: &ProgramFiles, path: &str) -> Result<bool, AllocError> {
    let exclude = bare_entries(alloc, &program.exclude)?;
    for entry in &program.files {
        let entry = bare(entry.as_str());
        let is_here = entry.is_empty() || entry == "." || covers(entry, path);
        if is_here && !is_left_out(&exclude, entry, path) {
            return Ok(true);
        }
    }
    Ok(false)
}

/// An entry without `./` before it and `/` behind it.
fn bare(entry: &str) -> &str {
    entry.trim_start_matches("./").trim_end_matches('/')
}

fn bare_entries(alloc: Global, entries: &[String]) -> Result<Vec<&str>, AllocError> {
    let mut all = Vec::new(alloc);
    for entry in entries {
        all.push(bare(entry.as_str()))?;
    }
    Ok(all)
}

/// The path of a file relative to the folder that its path begins with.
fn inside<'a>(folder: &str, path: &'a str) -> &'a str {
    let inside = path.strip_prefix(folder).unwrap_or(path);
    inside.trim_start_matches('/').trim_start_matches("./")
}

/// Returns whether a path leads to a file; `false` if it can't be told.
pub fn is_file<R: Files>(rt: &R, path: &str) -> bool {
    match rt.metadata(path) {
        Ok(metadata) => metadata.is_file(),
        Err(_) => false,
    }
}

/// The files that a bare entry stands for. A line is added to `faults` for each file or folder that
/// can't be read.
fn files_at<R: Files + AllocGlobal + Clone + Drop>(
    rt: &R,
    folder: &str,
    entry: &str,
    faults: &mut String,
) -> Result<Vec<String>, AllocError> {
    match entry.split_once('*') {
        None => files_of(
            rt,
            &NOBODY,
            joined(rt, folder, entry)?.as_str(),
            &[],
            faults,
        ),
        Some((front, _)) => {
            let above = front.rsplit_once('/').map_or("", |parts| parts.0);
            let top = joined(rt, folder, above)?;
            let files = files_of(rt, &NOBODY, top.as_str(), &[], faults)?;
            covered(rt, folder, entry, files)
        }
    }
}

/// The files that an entry covers, among files whose paths begin with the folder.
fn covered<R: AllocGlobal>(
    rt: &R,
    folder: &str,
    entry: &str,
    files: Vec<String>,
) -> Result<Vec<String>, AllocError> {
    let mut kept = Vec::new(rt.alloc());
    for file in files {
        if covers(entry, inside(folder, file.as_str())) {
            let path = file.as_str().trim_start_matches("./");
            kept.push(String::from_str(rt.alloc(), path)?)?;
        }
    }
    Ok(kept)
}

/// A path in a folder; `.` is the current one.
fn joined<R: AllocGlobal>(rt: &R, folder: &str, path: &str) -> Result<String, AllocError> {
    match (folder, path) {
        ("", "") => String::from_str(rt.alloc(), "."),
        ("", path) => String::from_str(rt.alloc(), path),
        (folder, "") => String::from_str(rt.alloc(), folder),
        (folder, path) => format!(in rt.alloc(); "{folder}/{path}"),
    }
}
