//! The texts of a program: the files on the disk, each as it is open or as it is there, and the
//! open documents that are none of these.

ghost use Rattle.std.specs.Prelude.{◌≡◌, ◌++◌, ◌&&◌, IfOk, OnOk, filter, map, not, option_map};
ghost use Rattle.std.specs.Prelude.{string_bytes};
ghost use Rattle.isle_lsp_files.specs.Disks.{file_of, view_of};
ghost use Rattle.isle_lsp_files.specs.Documents.{document_of};
ghost use Rattle.isle_lsp_files.specs.Texts as wanted;
ghost use Rattle.isle_lsp_features.specs.Programs.{text_of};
ghost use Rattle.isle_program_manifest.specs.Membership as Membership;

use crate::disk::{File, View};
use crate::documents::{Document, has_file};
use isle_lsp_features::Text;
use isle_lsp_text::positions::PositionEncoding;
use isle_program_manifest::membership;
use isle_program_manifest::membership::union_with;
use std::alloc::{AllocError, Global};

/// The texts that a request is about: those of the programs that have the file that it names, or
/// all if it names none.
pub fn program_of<'a>(
    alloc: Global,
    encoding: PositionEncoding,
    documents: &'a [Document],
    view: &'a View,
    names_file: bool,
) -> Result<Vec<Text<'a>>, AllocError>
    ensures { IfOk result (λ program. map text_of program.items
        ≡ wanted.program_of encoding names_file (map document_of documents.now)
        (view_of view.now)) }
{
    let texts = all_texts(alloc, encoding, documents, view)?;
    if names_file {
        texts_beside(alloc, view, &texts)
    } else {
        Ok(texts)
    }
}

/// All texts: the files of the view, as they are open or on the disk, and then the other open
/// documents. So a text keeps its place when its document is opened, changed or closed.
fn all_texts<'a>(
    alloc: Global,
    encoding: PositionEncoding,
    documents: &'a [Document],
    view: &'a View,
) -> Result<Vec<Text<'a>>, AllocError>
    ensures { IfOk result (λ texts. map text_of texts.items
        ≡ wanted.all_texts encoding (map document_of documents.now) (view_of view.now)) }
{
    let opened = open_texts(alloc, encoding, documents, view)?;
    let mut texts = file_texts(alloc, encoding, view, &opened)?;
    add_others(view, &opened, &mut texts)?;
    Ok(texts)
}

/// Adds the open documents that are none of the view's files.
fn add_others<'a>(
    view: &View,
    opened: &[Text<'a>],
    texts: &mut Vec<Text<'a>>,
) -> Result<(), AllocError>
    ensures { OnOk result (map text_of texts.new.items ≡ map text_of texts.old.items
        ++ filter (λ t. not (wanted.shows (view_of view.now) t.file)) (map text_of opened.now)) }
{
    for text in opened {
        if !shows(view, text.file) {
            texts.push(*text)?;
        }
    }
    Ok(())
}

/// Returns whether a view shows this file.
fn shows(view: &View, file: &str) -> bool
    ensures { result ≡ wanted.shows (view_of view.now) file.now }
{
    for shown in &view.files {
        if shown.path.as_str() == file {
            return true;
        }
    }
    false
}

/// The files of a view, each as it is open, or else as it is on the disk.
fn file_texts<'a>(
    alloc: Global,
    encoding: PositionEncoding,
    view: &'a View,
    opened: &[Text<'a>],
) -> Result<Vec<Text<'a>>, AllocError>
    ensures { IfOk result (λ texts. map text_of texts.items
        ≡ wanted.file_texts encoding (view_of view.now) (map text_of opened.now)) }
{
    let mut texts = Vec::new(alloc);
    for file in &view.files {
        texts.push(file_text(encoding, view, opened, file))?;
    }
    Ok(texts)
}

fn file_text<'a>(
    encoding: PositionEncoding,
    view: &'a View,
    opened: &[Text<'a>],
    file: &'a File,
) -> Text<'a>
    ensures { text_of result
        ≡ wanted.file_text encoding (view_of view.now) (map text_of opened.now) (file_of file.now) }
{
    match text_at(opened, file.path.as_str()) {
        Some(text) => text,
        None => closed_text(encoding, view, file),
    }
}

/// The first text of a file, if there is one.
fn text_at<'a>(texts: &[Text<'a>], file: &str) -> Option<Text<'a>>
    ensures { option_map text_of result ≡ wanted.text_at file.now (map text_of texts.now) }
{
    for text in texts {
        if text.file == file {
            return Some(*text);
        }
    }
    None
}

/// The open documents, each file once.
fn open_texts<'a>(
    alloc: Global,
    encoding: PositionEncoding,
    documents: &'a [Document],
    view: &View,
) -> Result<Vec<Text<'a>>, AllocError>
    ensures { IfOk result (λ texts. map text_of texts.items
        ≡ wanted.open_texts encoding (view_of view.now) (map document_of documents.now)) }
{
    let mut texts = Vec::new(alloc);
    let mut rest = documents;
    while let [document, later @ ..] = rest {
        if !has_file(later, document.file.as_str()) {
            texts.push(open_text(encoding, view, document))?;
        }
        rest = later;
    }
    Ok(texts)
}

fn open_text<'a>(encoding: PositionEncoding, view: &View, document: &'a Document) -> Text<'a>
    ensures { text_of result
        ≡ wanted.open_text encoding (view_of view.now) (document_of document.now) }
{
    Text {
        encoding,
        uri: document.uri.as_str(),
        file: document.file.as_str(),
        is_shared: is_shared(view, document.file.as_str()),
        version: document.version,
        text: document.text.as_str(),
    }
}

fn closed_text<'a>(encoding: PositionEncoding, view: &View, file: &'a File) -> Text<'a>
    ensures { text_of result ≡ wanted.closed_text encoding (view_of view.now) (file_of file.now) }
{
    Text {
        encoding,
        uri: file.uri.as_str(),
        file: file.path.as_str(),
        is_shared: is_shared(view, file.path.as_str()),
        version: None,
        text: file.text.as_str(),
    }
}

/// Returns whether a program has this file and not the view's.
fn is_shared(view: &View, file: &str) -> bool
    ensures { result ≡ wanted.is_shared (view_of view.now) file.now }
{
    for program in &view.programs {
        if membership::has_file(program, file)
            && !membership::has_file(program, view.file.as_str())
        {
            return true;
        }
    }
    false
}

/// The texts of the programs that have the view's file, and that file itself.
fn texts_beside<'a>(
    alloc: Global,
    view: &View,
    texts: &[Text<'a>],
) -> Result<Vec<Text<'a>>, AllocError>
    ensures { IfOk result (λ beside. map text_of beside.items
        ≡ filter (wanted.is_beside (view_of view.now)) (map text_of texts.now)) }
{
    let paths = union_with(alloc, view.file.as_str(), &view.programs)?;
    let mut beside = Vec::new(alloc);
    for text in texts {
        if text.file == view.file.as_str() || membership::has_file(&paths, text.file) {
            beside.push(*text)?;
        }
    }
    Ok(beside)
}

/// The programs that have a file, each as its texts. A program with a file that is not there or
/// can't be read is left out.
pub fn programs_of<'a>(
    alloc: Global,
    encoding: PositionEncoding,
    documents: &'a [Document],
    view: &'a View,
    file: &str,
) -> Result<Vec<Vec<Text<'a>>>, AllocError>
    ensures { IfOk result (λ programs. map (λ p. map text_of p.items) programs.items
        ≡ wanted.programs_of encoding (map document_of documents.now) (view_of view.now) file.now) }
{
    let texts = all_texts(alloc, encoding, documents, view)?;
    programs_in(alloc, view, file, &texts)
}

fn programs_in<'a>(
    alloc: Global,
    view: &View,
    file: &str,
    texts: &[Text<'a>],
) -> Result<Vec<Vec<Text<'a>>>, AllocError>
    ensures { IfOk result (λ programs. map (λ p. map text_of p.items) programs.items
        ≡ wanted.programs_in (view_of view.now) file.now (map text_of texts.now)) }
{
    let mut programs = Vec::new(alloc);
    for program in &view.programs {
        if membership::has_file(program, file) && is_whole(texts, program) {
            programs.push(texts_in(alloc, texts, program)?)?;
        }
    }
    Ok(programs)
}

/// Returns whether a program has both the view's file and another one.
pub fn is_together(view: &View, file: &str) -> bool
    ensures { result ≡ wanted.is_together (view_of view.now) file.now }
{
    for program in &view.programs {
        if has_both(program, view.file.as_str(), file) {
            return true;
        }
    }
    false
}

fn has_both(program: &[String], file: &str, other: &str) -> bool
    ensures { result ≡ (Membership.has_file file.now (map string_bytes program.now)
        && Membership.has_file other.now (map string_bytes program.now)) }
{
    membership::has_file(program, file) && membership::has_file(program, other)
}

/// Returns whether each of these files has a text.
fn is_whole(texts: &[Text], files: &[String]) -> bool
    ensures { result ≡ wanted.is_whole (map text_of texts.now) (map string_bytes files.now) }
{
    for file in files {
        if text_at(texts, file.as_str()).is_none() {
            return false;
        }
    }
    true
}

/// The texts of these files, in this order.
fn texts_in<'a>(
    alloc: Global,
    texts: &[Text<'a>],
    files: &[String],
) -> Result<Vec<Text<'a>>, AllocError>
    ensures { IfOk result (λ found. map text_of found.items
        ≡ wanted.texts_in (map text_of texts.now) (map string_bytes files.now)) }
{
    let mut found = Vec::new(alloc);
    for file in files {
        if let Some(text) = text_at(texts, file.as_str()) {
            found.push(text)?;
        }
    }
    Ok(found)
}
