//! The files below an editor's folders, read from the machine's disk.

use crate::disk::{Disk, File, View};
use crate::documents::{Document, document_at, has_file};
use isle_base_source::files::LineMap;
use isle_cli::folders::files_of;
use isle_cli::messages::message_line;
use isle_cli::patterns::covers;
use isle_cli::sources::{SourceFault, read_file};
use isle_lsp_frames::uris::{path_of, uri_of};
use isle_program_manifest::disk::{NOBODY, find, is_listed, paths_of};
use isle_program_manifest::manifest::{Manifest, ManifestFault, ProgramFiles, manifest_of};
use isle_program_manifest::membership;
use std::alloc::{AllocError, Global};
use std::collections::HashMap;
use std::fs::{Files, canonicalize};
use std::io::ErrorKind;

/// The words that may stand between `(decl` and the name that it declares.
const DECLARATION_WORDS: [&str; 4] = ["pure", "multi", "partial", "rec"];

/// The disk of the machine.
#[derive(Clone, Copy)]
pub struct Folders<'a, R> {
    rt: &'a R,
}

impl<'a, R> Folders<'a, R> {
    /// The disk of this machine.
    pub fn new(rt: &'a R) -> Folders<'a, R> {
        Folders { rt }
    }
}

impl<R: Files + AllocGlobal + Clone + Drop> Disk for Folders<'_, R> {
    fn look(
        &mut self,
        alloc: Global,
        folders: &[String],
        documents: &[Document],
        uri: &str,
    ) -> Result<View, AllocError> {
        let mut view = View::nothing(alloc);
        view.file = match document_at(documents, uri) {
            Some(document) => String::from_str(alloc, document.file.as_str())?,
            None => file_of(self.rt, uri)?,
        };
        let tops = real_folders(self.rt, folders)?;
        for folder in &tops {
            add_folder(self.rt, folder.as_str(), &tops, documents, &mut view)?;
        }
        add_asked(self.rt, documents, &mut view)?;
        Ok(view)
    }
}

/// Adds the file of the view, if it is no open document and in none of the folders.
fn add_asked<R: Files + AllocGlobal + Clone + Drop>(
    rt: &R,
    documents: &[Document],
    view: &mut View,
) -> Result<(), AllocError> {
    let path = view.file.as_str();
    let is_known = view.files.iter().any(|file| file.path.as_str() == path);
    if is_known || has_file(documents, path) || !path.starts_with('/') {
        return Ok(());
    }
    add_file(rt, path, documents, &mut view.files)
}

/// The file that a URI names: its real path, or the URI itself if it names none.
fn file_of<R: Files + AllocGlobal>(rt: &R, uri: &str) -> Result<String, AllocError> {
    match path_of(rt.alloc(), uri)? {
        Some(path) => real_path(rt, path.as_str()),
        None => String::from_str(rt.alloc(), uri),
    }
}

/// The path without links. For a file that is not there, it begins with the real path of the
/// deepest folder that is.
fn real_path<R: Files + AllocGlobal>(rt: &R, path: &str) -> Result<String, AllocError> {
    let mut folder = path;
    for _ in 0..=path.len() {
        if let Some(mut real) = existing_path(rt, folder)? {
            real.push_str(path.strip_prefix(folder).unwrap_or(""))?;
            return Ok(real);
        }
        match folder.rsplit_once('/') {
            Some((above, _)) => folder = above,
            None => break,
        }
    }
    String::from_str(rt.alloc(), path)
}

/// The real path of a file or a folder that exists.
fn existing_path<R: Files + AllocGlobal>(rt: &R, path: &str) -> Result<Option<String>, AllocError> {
    match canonicalize(rt, path) {
        Ok(real) => Ok(Some(String::from_str(rt.alloc(), real.as_str())?)),
        Err(error) if error.kind() == ErrorKind::OutOfMemory => Err(AllocError),
        Err(_) => Ok(None),
    }
}

/// The real paths of the folders with these URIs that exist.
fn real_folders<R: Files + AllocGlobal>(
    rt: &R,
    folders: &[String],
) -> Result<Vec<String>, AllocError> {
    let mut tops = Vec::new(rt.alloc());
    for uri in folders {
        if let Some(path) = path_of(rt.alloc(), uri.as_str())? {
            if let Some(folder) = existing_path(rt, path.as_str())? {
                tops.push(folder)?;
            }
        }
    }
    Ok(tops)
}

/// Adds the files of one of the editor's folders, each once, and the programs that they make: those
/// of the nearest `isle.toml` in the folder or above it. Without one, or if it has a mistake, a
/// folder below another one of the editor's has its files there.
fn add_folder<R: Files + AllocGlobal + Clone + Drop>(
    rt: &R,
    folder: &str,
    tops: &[String],
    documents: &[Document],
    view: &mut View,
) -> Result<(), AllocError> {
    if let Some(path) = find(rt, folder)? {
        let top = folder_of(path.as_str());
        if !top.is_empty() {
            match manifest_at(rt, path.as_str())? {
                Ok(manifest) => return add_manifest(rt, top, &manifest, documents, view),
                Err(mistake) => note_mistake(rt, path.as_str(), mistake, view)?,
            }
        }
    }
    if is_in_another(folder, tops) {
        return Ok(());
    }
    add_all_files(rt, folder, documents, view)
}

/// Notes the mistake in a manifest. Of several mistakes that in the manifest nearest to the view's
/// file is noted, or else the first.
fn note_mistake<R: Files + AllocGlobal + Clone + Drop>(
    rt: &R,
    path: &str,
    mistake: String,
    view: &mut View,
) -> Result<(), AllocError> {
    if view.mistake.is_none() || is_nearest(rt, path, view.file.as_str())? {
        view.mistake = Some(mistake);
    }
    Ok(())
}

/// Returns whether a manifest is the nearest one in the folder of a file or above it.
fn is_nearest<R: Files + AllocGlobal + Clone + Drop>(
    rt: &R,
    path: &str,
    file: &str,
) -> Result<bool, AllocError> {
    match find(rt, folder_of(file))? {
        Some(nearest) => Ok(nearest.as_str() == path),
        None => Ok(false),
    }
}

/// Returns whether a folder is below one of these.
fn is_in_another(folder: &str, tops: &[String]) -> bool {
    for top in tops {
        if top.as_str() != folder && is_above(top.as_str(), folder) {
            return true;
        }
    }
    false
}

/// Adds the programs of the manifest in a folder.
fn add_manifest<R: Files + AllocGlobal + Clone + Drop>(
    rt: &R,
    top: &str,
    manifest: &Manifest,
    documents: &[Document],
    view: &mut View,
) -> Result<(), AllocError> {
    for program in &manifest.programs {
        add_program(rt, top, program, documents, view)?;
    }
    Ok(())
}

/// The manifest in a file, or why nothing is renamed while it is there.
fn manifest_at<R: Files + AllocGlobal + Clone + Drop>(
    rt: &R,
    path: &str,
) -> Result<Result<Manifest, String>, AllocError> {
    match read_file(rt, path) {
        Ok(text) => manifest_in(rt.alloc(), path, text.as_str()),
        Err(SourceFault::Memory) => Err(AllocError),
        Err(_) => Ok(Err(format!(in rt.alloc(); "cannot rename: {path}: cannot be read")?)),
    }
}

/// The manifest with this path and text, or why nothing is renamed while it is there.
fn manifest_in(
    alloc: Global,
    path: &str,
    text: &str,
) -> Result<Result<Manifest, String>, AllocError> {
    match manifest_of(alloc, text) {
        Ok(manifest) => Ok(Ok(manifest)),
        Err(ManifestFault::Memory) => Err(AllocError),
        Err(ManifestFault::Rejected { offset, message }) => {
            Ok(Err(mistake_at(alloc, path, text, offset, message.as_str())?))
        }
    }
}

/// Why nothing is renamed while a manifest has a mistake.
fn mistake_at(
    alloc: Global,
    path: &str,
    text: &str,
    offset: usize,
    message: &str,
) -> Result<String, AllocError> {
    let lines = LineMap::from_str(alloc, text)?;
    let offset = offset.min(usize::MAX - 1);
    let line = message_line(alloc, path, text, &lines, offset, "error", message)?;
    let line = line.as_str().trim_end();
    format!(in alloc; "cannot rename: {line}")
}

/// Adds a program of the manifest in a folder, and those of its files that are not there yet. An
/// entry that stands for no file is held as a path of its own, which leads to none.
fn add_program<R: Files + AllocGlobal + Clone + Drop>(
    rt: &R,
    top: &str,
    program: &ProgramFiles,
    documents: &[Document],
    view: &mut View,
) -> Result<(), AllocError> {
    let mut paths = Vec::new(rt.alloc());
    let listed = paths_of(rt, top, program)?;
    for path in listed.paths {
        if let Some(path) = existing_path(rt, path.as_str())? {
            if !view.files.iter().any(|file| file.path == path) {
                add_file(rt, path.as_str(), documents, &mut view.files)?;
            }
            add_path(&mut paths, path)?;
        }
    }
    for entry in listed.missing {
        add_path(&mut paths, format!(in rt.alloc(); "{top}/{entry}")?)?;
    }
    for document in documents {
        let path = document.file.as_str();
        if is_covered(rt.alloc(), top, program, path)? && !membership::has_file(&paths, path) {
            paths.push(String::from_str(rt.alloc(), path)?)?;
        }
    }
    view.programs.push(paths)?;
    Ok(())
}

/// Adds a path, unless it is there.
fn add_path(paths: &mut Vec<String>, path: String) -> Result<(), AllocError> {
    if membership::has_file(paths, path.as_str()) {
        return Ok(());
    }
    paths.push(path)?;
    Ok(())
}

/// Returns whether a path is that of a file of the program of a manifest in a folder.
fn is_covered(
    alloc: Global,
    top: &str,
    program: &ProgramFiles,
    path: &str,
) -> Result<bool, AllocError> {
    match path.strip_prefix(top) {
        Some(rest) if rest.starts_with('/') => {
            is_listed(alloc, program, rest.trim_start_matches('/'))
        }
        _ => Ok(false),
    }
}

/// Adds a file, unless it can't be read. Only a regular file is read, and none that is open.
fn add_file<R: Files + AllocGlobal + Clone + Drop>(
    rt: &R,
    path: &str,
    documents: &[Document],
    files: &mut Vec<File>,
) -> Result<(), AllocError> {
    if !is_file(rt, path) {
        return Ok(());
    }
    if let Some(text) = text_of(rt, path, documents)? {
        let uri = uri_of(rt.alloc(), path)?;
        let path = String::from_str(rt.alloc(), path)?;
        files.push(File { path, uri, text })?;
    }
    Ok(())
}

/// The text of a file, if it can be read. That of an open one is left out.
fn text_of<R: Files + AllocGlobal + Clone + Drop>(
    rt: &R,
    path: &str,
    documents: &[Document],
) -> Result<Option<String>, AllocError> {
    if has_file(documents, path) {
        return Ok(Some(String::new(rt.alloc())));
    }
    match read_file(rt, path) {
        Ok(text) => Ok(Some(text)),
        Err(SourceFault::Memory) => Err(AllocError),
        Err(_) => Ok(None),
    }
}

fn is_file<R: Files>(rt: &R, path: &str) -> bool {
    match rt.metadata(path) {
        Ok(metadata) => metadata.is_file(),
        Err(_) => false,
    }
}

/// Adds all files below a folder, each once, and the programs that they make.
fn add_all_files<R: Files + AllocGlobal + Clone + Drop>(
    rt: &R,
    folder: &str,
    documents: &[Document],
    view: &mut View,
) -> Result<(), AllocError> {
    let files = read_folder(rt, folder, documents)?;
    let texts = folder_texts(rt.alloc(), folder, &files, documents)?;
    add_programs(rt.alloc(), &texts, &mut view.programs)?;
    drop(texts);
    let known = view.files.len();
    for file in files {
        let mut before = view.files.iter().take(known);
        if !before.any(|other| other.path == file.path) {
            view.files.push(file)?;
        }
    }
    Ok(())
}

/// The ISLE files below a folder, sorted by path. Hidden folders, links and unreadable files are
/// left out.
fn read_folder<R: Files + AllocGlobal + Clone + Drop>(
    rt: &R,
    folder: &str,
    documents: &[Document],
) -> Result<Vec<File>, AllocError> {
    let mut files = Vec::new(rt.alloc());
    let mut faults = String::new(rt.alloc());
    for path in files_of(rt, &NOBODY, folder, &[], &mut faults)? {
        add_file(rt, path.as_str(), documents, &mut files)?;
    }
    Ok(files)
}

/// A file of a folder as it is now: an open document, or a file on the disk.
#[derive(Clone, Copy)]
struct FolderText<'a> {
    path: &'a str,
    text: &'a str,
}

/// The files of a folder as they are now, each once, without those in hidden folders. An open
/// document need not be on the disk. Of two documents of one file the later one counts.
fn folder_texts<'a>(
    alloc: Global,
    folder: &str,
    files: &'a [File],
    documents: &'a [Document],
) -> Result<Vec<FolderText<'a>>, AllocError> {
    let mut texts = Vec::new(alloc);
    for document in documents.iter().rev() {
        let path = document.file.as_str();
        if is_visible(folder, path) && !has_path(&texts, path) {
            let text = document.text.as_str();
            texts.push(FolderText { path, text })?;
        }
    }
    for file in files {
        let path = file.path.as_str();
        if !has_path(&texts, path) {
            let text = file.text.as_str();
            texts.push(FolderText { path, text })?;
        }
    }
    Ok(texts)
}

/// Returns whether a file is among these.
fn has_path(texts: &[FolderText], path: &str) -> bool {
    texts.iter().any(|text| text.path == path)
}

/// Adds the programs of a folder: one of all its files, unless they declare a term twice. Then the
/// files of each folder below make one with those of the folders above it.
fn add_programs(
    alloc: Global,
    texts: &[FolderText],
    programs: &mut Vec<Vec<String>>,
) -> Result<(), AllocError> {
    let folders = folders_in(alloc, texts)?;
    if !declares_twice(alloc, texts, &folders)? {
        programs.push(all_paths(alloc, texts)?)?;
        return Ok(());
    }
    for folder in folders {
        programs.push(paths_above(alloc, texts, folder)?)?;
    }
    Ok(())
}

/// The folders of files, each once, sorted.
fn folders_in<'a>(alloc: Global, texts: &[FolderText<'a>]) -> Result<Vec<&'a str>, AllocError> {
    let mut folders = Vec::new(alloc);
    for text in texts {
        folders.push(folder_of(text.path))?;
    }
    folders.sort()?;
    folders.dedup();
    Ok(folders)
}

/// The paths of the files that are in a folder or in one above it, sorted.
fn paths_above(
    alloc: Global,
    texts: &[FolderText],
    folder: &str,
) -> Result<Vec<String>, AllocError> {
    let mut paths = Vec::new(alloc);
    for text in texts {
        if is_above(folder_of(text.path), folder) {
            paths.push(String::from_str(alloc, text.path)?)?;
        }
    }
    paths.sort()?;
    Ok(paths)
}

/// The paths of all files, sorted.
fn all_paths(alloc: Global, texts: &[FolderText]) -> Result<Vec<String>, AllocError> {
    let mut paths = Vec::new(alloc);
    for text in texts {
        paths.push(String::from_str(alloc, text.path)?)?;
    }
    paths.sort()?;
    Ok(paths)
}

fn folder_of(path: &str) -> &str {
    match path.rsplit_once('/') {
        Some((folder, _)) => folder,
        None => "",
    }
}

/// Returns whether a folder is another one, or above it.
fn is_above(folder: &str, other: &str) -> bool {
    match other.strip_prefix(folder) {
        Some(rest) => rest.is_empty() || rest.starts_with('/'),
        None => false,
    }
}

/// Returns whether a path is below a folder, and in no hidden folder there.
fn is_visible(folder: &str, path: &str) -> bool {
    match folder_of(path).strip_prefix(folder) {
        Some(rest) => (rest.is_empty() || rest.starts_with('/')) && !rest.contains("/."),
        None => false,
    }
}

/// Returns whether two files declare one term, neither of which is in a folder above the other's.
/// A declaration begins a line with `(decl `. A file whose folder is above or below each other one
/// need not be read.
fn declares_twice(
    alloc: Global,
    texts: &[FolderText],
    folders: &[&str],
) -> Result<bool, AllocError> {
    let mut declared = HashMap::new(alloc);
    for text in texts {
        let folder = folder_of(text.path);
        if is_apart(folder, folders) && !are_declared_in(&mut declared, text.text, folder)? {
            return Ok(true);
        }
    }
    Ok(false)
}

/// Returns whether one of these folders is neither above a folder nor below it.
fn is_apart(folder: &str, folders: &[&str]) -> bool {
    folders.iter().any(|other| !is_above(folder, other) && !is_above(other, folder))
}

/// Notes the terms that a text of a folder declares, until one is declared elsewhere. Returns
/// whether there is none.
fn are_declared_in<'a>(
    declared: &mut HashMap<&'a str, &'a str>,
    text: &'a str,
    folder: &'a str,
) -> Result<bool, AllocError> {
    for (number, part) in text.split("\n(decl ").enumerate() {
        let words = if number == 0 {
            part.strip_prefix("(decl ").unwrap_or("")
        } else {
            part
        };
        if let Some(name) = declared_name(words) {
            if !is_declared_in(declared, name, folder)? {
                return Ok(false);
            }
        }
    }
    Ok(true)
}

/// Notes that a file of a folder declares a term. The deepest such folder so far is kept for each
/// term. Returns whether that is the same folder as this one, or above it, or below it.
fn is_declared_in<'a>(
    declared: &mut HashMap<&'a str, &'a str>,
    name: &'a str,
    folder: &'a str,
) -> Result<bool, AllocError> {
    match declared.insert(name, folder)? {
        Some(deepest) if is_above(folder, deepest) => {
            declared.insert(name, deepest)?;
            Ok(true)
        }
        Some(deepest) => Ok(is_above(deepest, folder)),
        None => Ok(true),
    }
}

/// The term that the words after `(decl ` declare.
fn declared_name(words: &str) -> Option<&str> {
    let word = words
        .split_ascii_whitespace()
        .find(|word| !DECLARATION_WORDS.contains(word))?;
    word.split(['(', ')', ';']).next()
}
