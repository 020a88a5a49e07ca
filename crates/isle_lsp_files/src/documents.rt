//! The documents that an editor has open.

ghost use Rattle.std.specs.Prelude.{◌≡◌, ◌<◌, ◌++◌, ◌∷◌, [], IfSome, OnOk, length, map};
ghost use Rattle.std.specs.Prelude.{option_map, string_bytes};
ghost use Rattle.std.specs.List.{remove};
ghost use Rattle.isle_lsp_files.specs.Documents.{document, document_at, document_of, has_file};
ghost use Rattle.isle_lsp_files.specs.Documents.{without};

use std::alloc::{AllocError, Global};

/// An open document.
#[derive(Drop)]
pub struct Document {
    /// The URI by which the editor names it.
    pub uri: String,
    /// The file that it is: a real path, or the URI if that names no file.
    pub file: String,
    /// The version that the editor gave it.
    pub version: Option<i64>,
    /// Its current text.
    pub text: String,
}

/// The document with this URI, if it is open.
pub fn document_at<'a>(documents: &'a [Document], uri: &str) -> Option<&'a Document>
    ensures { option_map (λ document. document_of document.now) result
        ≡ document_at uri.now (map document_of documents.now) }
{
    for document in documents {
        if document.uri.as_str() == uri {
            return Some(document);
        }
    }
    None
}

/// Returns whether one of the documents is this file.
pub fn has_file(documents: &[Document], file: &str) -> bool
    ensures { result ≡ has_file file.now (map document_of documents.now) }
{
    for document in documents {
        if document.file.as_str() == file {
            return true;
        }
    }
    false
}

/// The index of the document with this URI.
fn place_of(documents: &[Document], uri: &str) -> Option<usize>
    ensures some { IfSome result (λ i. (i < length documents.now)
        × (without uri.now (map document_of documents.now)
        ≡ map document_of (remove documents.now i))) }
    ensures none { result ≡ None
        → without uri.now (map document_of documents.now) ≡ map document_of documents.now }
{
    for (i, document) in documents.iter().enumerate() {
        if document.uri.as_str() == uri {
            return Some(i);
        }
    }
    None
}

/// Removes the document with this URI, if it is open.
pub fn close(documents: &mut Vec<Document>, uri: &str)
    ensures { map document_of documents.new.items
        ≡ without uri.now (map document_of documents.old.items) }
{
    if let Some(at) = place_of(documents, uri) {
        documents.remove(at);
    }
}

/// Adds a document at the end, and removes the one that had its URI.
///
/// After an `Err` no document with this URI is open.
pub fn open(
    alloc: Global,
    documents: &mut Vec<Document>,
    uri: &str,
    file: String,
    version: Option<i64>,
    text: String,
) -> Result<(), AllocError>
    ensures { OnOk result (map document_of documents.new.items
        ≡ without uri.now (map document_of documents.old.items)
        ++ document uri.now (string_bytes file) version (string_bytes text) ∷ []) }
{
    close(documents, uri);
    let uri = String::from_str(alloc, uri)?;
    documents.push(Document {
        uri,
        file,
        version,
        text,
    })?;
    Ok(())
}
