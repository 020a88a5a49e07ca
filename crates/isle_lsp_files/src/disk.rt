//! The disk, as a session sees it: the files of the editor's folders, read anew at each look.

ghost use Rattle.std.specs.Prelude.{None, List, Option, map, string_bytes};
ghost use Rattle.std.specs.Prelude.{◌≡◌};
ghost use Rattle.isle_lsp_files.specs.Disks.{Looks, Moment, asked, no_view, view_of};
ghost use Rattle.isle_lsp_files.specs.Documents.{document_of};

use crate::documents::Document;
use std::alloc::{AllocError, Global};

/// A file on the disk.
#[derive(Drop)]
pub struct File {
    /// Its real path, without links.
    pub path: String,
    /// The URI of that path.
    pub uri: String,
    /// Its text. Where the file is open, its document has the text, and this one is empty.
    pub text: String,
}

/// What a look at the disk shows.
#[derive(Drop)]
pub struct View {
    /// The file that a URI names: its real path, or the URI itself if it names none.
    pub file: String,
    /// The ISLE files of the folders, sorted by path.
    pub files: Vec<File>,
    /// The programs that they make, each as a list of paths.
    pub programs: Vec<Vec<String>>,
    /// Why nothing is renamed: the mistake in the nearest `isle.toml` of a folder, if there is one.
    /// Of several mistakes that in the `isle.toml` nearest to the file is told.
    pub mistake: Option<String>,
}

impl View {
    /// A view that shows nothing.
    pub fn nothing(alloc: Global) -> View
        ensures { view_of result ≡ no_view }
    {
        View {
            file: String::new(alloc),
            files: Vec::new(alloc),
            programs: Vec::new(alloc),
            mistake: None,
        }
    }
}

/// The disk. What it shows may differ from look to look.
pub trait Disk {
    /// The moments at which it is looked at from here on, if they are known.
    ghost moments: { Self → Option (List Moment) } = { λ _. None };

    /// Looks at the files of folders, which are given by their URIs, and at the file that the URI
    /// of a document names. Open documents are files, too, whether they are on the disk or not. A
    /// folder or a file that can't be read shows nothing.
    fn look(
        &mut self,
        alloc: Global,
        folders: &[String],
        documents: &[Document],
        uri: &str,
    ) -> Result<View, AllocError>
        ensures { Looks (Self.moments self.old) (Self.moments self.new)
            (asked (map string_bytes folders.now) (map document_of documents.now) uri.now) result };
}
