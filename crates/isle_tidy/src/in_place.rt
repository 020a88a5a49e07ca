//! Tidying files in place: all of a file, or nothing of it.

ghost use Rattle.std.specs.Prelude.{◌≡◌, IfErr, IfOk, None, OnOk, string_bytes};
ghost use Rattle.isle_cli.specs.Streams.{Writes};
ghost use Rattle.isle_tidy_core.specs.Tidied.{IsTidyTextOf, IsUntidy};
ghost use Rattle.isle_tidy.specs.Doing.{IsFileFailure, IsJudged};

use crate::listings::Listing;
use crate::pieces::{is_untidy, put_tidied};
use isle_cli::failure::Failure;
use isle_cli::sources::read_file;
use isle_cli::streams::{ReadFault, fault_of};
use std::fs::{Files, Metadata, OpenFile, OpenOptions};
use std::io::ErrorKind;
use std::os::unix::fs::MetadataExt;
use std::path::PathBuf;
use std::{fs, io};

/// The number of names that are tried for the new file beside the old one.
const NAMES: u32 = 100;

/// The seconds after which a new file beside another one was left by a run that was killed.
const STALE: i64 = 60 * 60;

/// A file that was read.
#[derive(Drop)]
pub struct FileText {
    /// Its path, without links.
    path: PathBuf,
    /// Its owner and permissions.
    metadata: Metadata,
    /// Its text.
    pub text: String,
}

/// Reads a file in UTF-8, which must be a regular one. A link is followed.
pub fn read_regular<R: Files + AllocGlobal>(rt: &R, name: &str) -> Result<FileText, ReadFault> {
    let path = fs::canonicalize(rt, name).map_err(fault_of)?;
    let metadata = rt.metadata(path.as_str()).map_err(fault_of)?;
    if !metadata.is_file() {
        return Err(ReadFault::NotRegular);
    }
    let text = read_file(rt, path.as_str())?;
    Ok(FileText {
        path,
        metadata,
        text,
    })
}

/// Why a file can't be written.
#[derive(Clone, Copy)]
pub enum WriteFault {
    /// The user may not write it, or no file beside it.
    Denied,
    /// The device is full.
    Full,
    /// The user may write no more.
    Quota,
    /// The file system is not to be written.
    ReadOnly,
    /// Another reason.
    Other,
}

impl WriteFault {
    /// The reason in words.
    pub fn words(self) -> &'static str {
        match self {
            WriteFault::Denied => "permission denied",
            WriteFault::Full => "no space left on device",
            WriteFault::Quota => "disk quota exceeded",
            WriteFault::ReadOnly => "read-only file system",
            WriteFault::Other => "can't be written",
        }
    }
}

/// Why a file can't be written, from the error of the system.
pub fn write_fault_of(error: &io::Error) -> WriteFault {
    match error.kind() {
        ErrorKind::PermissionDenied => WriteFault::Denied,
        ErrorKind::StorageFull => WriteFault::Full,
        ErrorKind::QuotaExceeded => WriteFault::Quota,
        ErrorKind::ReadOnlyFilesystem => WriteFault::ReadOnly,
        _ => WriteFault::Other,
    }
}

/// Tidies a file of this name that was read, and returns whether its text was untidy. If it is to
/// be listed, the file is left alone.
///
/// The tidy text is written to a new file beside the old one, with the old one's owner and
/// permissions. Once it is synced to disk, the new file replaces the old one. After an error the
/// old file is unchanged, and the new one is removed. If the error is `Output`, `fault` is why.
pub fn tidy_file<R: Files + AllocGlobal>(
    rt: &R,
    name: &str,
    file: &FileText,
    listing: Option<Listing>,
    fault: &mut WriteFault,
) -> Result<bool, Failure>
    ensures judged { IfOk result (λ is_untidy. IsJudged (string_bytes file.now.text) is_untidy) }
    ensures failed { IfErr result IsFileFailure }
{
    let text = file.text.as_str();
    let is_untidy = is_untidy(rt.alloc(), name, text)?;
    if !is_untidy {
        return Ok(false);
    }
    match listing {
        None => replace(rt, file.path.as_str(), &file.metadata, text, listing, fault)?,
        Some(_) => {}
    }
    Ok(true)
}

/// Replaces a file by a new one with the tidy text of `text`, which must be untidy. `listing` must
/// be `None`.
fn replace<R: Files + AllocGlobal>(
    rt: &R,
    path: &str,
    old: &Metadata,
    text: &str,
    listing: Option<Listing>,
    fault: &mut WriteFault,
) -> Result<(), Failure>
    requires untidy { IsUntidy text.now }
    requires unlisted { listing ≡ None }
    ensures { IfErr result IsFileFailure }
{
    // Whoever may not write the file may not replace it either.
    match OpenOptions::new().write(true).open(rt, path) {
        Ok(file) => drop(file),
        Err(error) => return Err(unwritable(&error, fault)),
    }
    let (name, mut file) = new_beside(rt, path, fault)?;
    let made = fill(rt, name.as_str(), &mut file, old, text, fault);
    drop(file);
    let placed = match made {
        Ok(()) => put_in_place(rt, name.as_str(), path, fault),
        Err(failure) => Err(failure),
    };
    if placed.is_err() {
        let _ = rt.remove_file(name.as_str());
    }
    placed
}

/// Gives a new file the name of the old one, which it replaces.
fn put_in_place<R: Files>(
    rt: &R,
    name: &str,
    path: &str,
    fault: &mut WriteFault,
) -> Result<(), Failure>
    ensures { IfErr result IsFileFailure }
{
    match rt.rename(name, path) {
        Ok(()) => Ok(()),
        Err(error) => Err(unwritable(&error, fault)),
    }
}

/// The failure of writing a file, from the error of the system, of which `fault` is set.
fn unwritable(error: &io::Error, fault: &mut WriteFault) -> Failure
    ensures { IsFileFailure result }
{
    *fault = write_fault_of(error);
    Failure::Output
}

/// Creates an empty file beside another one, and returns it and its name.
fn new_beside<R: Files + AllocGlobal>(
    rt: &R,
    path: &str,
    fault: &mut WriteFault,
) -> Result<(String, R::File), Failure>
    ensures { IfErr result IsFileFailure }
{
    for number in 0..NAMES {
        let name = format!(in rt.alloc(); "{path}.isle-tidy-{number}")?;
        let made = OpenOptions::new()
            .write(true)
            .create_new(true)
            .open(rt, name.as_str());
        match made {
            Ok(file) => {
                for older in 0..number {
                    remove_stale(rt, path, older, &file);
                }
                return Ok((name, file));
            }
            Err(error) if error.kind() == ErrorKind::AlreadyExists => {}
            Err(error) => return Err(unwritable(&error, fault)),
        }
    }
    Err(Failure::Output)
}

/// Removes the file with a smaller number than a new file's if a killed run has left it: if it was
/// written long before. A file that another run is writing now stays.
fn remove_stale<R: Files + AllocGlobal>(rt: &R, path: &str, number: u32, new: &R::File) {
    let name = match format!(in rt.alloc(); "{path}.isle-tidy-{number}") {
        Ok(name) => name,
        Err(_) => return,
    };
    match (rt.symlink_metadata(name.as_str()), new.metadata()) {
        (Ok(old), Ok(new)) => {
            if old.is_file() && new.mtime().saturating_sub(old.mtime()) > STALE {
                let _ = rt.remove_file(name.as_str());
            }
        }
        _ => {}
    }
}

/// Sets the owner and permissions of a new file to those of an old one, writes the tidy text of
/// `text` to it, and syncs it to disk.
fn fill<R: Files + AllocGlobal>(
    rt: &R,
    name: &str,
    file: &mut R::File,
    old: &Metadata,
    text: &str,
    fault: &mut WriteFault,
) -> Result<(), Failure>
    ensures written { OnOk result (Writes (R.File.contents file.old) (R.File.contents file.new)
        (IsTidyTextOf text.now)) }
    ensures failed { IfErr result IsFileFailure }
{
    match hand_over(rt, name, file, old) {
        Ok(()) => {}
        Err(error) => return Err(unwritable(&error, fault)),
    }
    put_tidied(rt.alloc(), name, text, file, fault)?;
    match file.sync_all() {
        Ok(()) => Ok(()),
        Err(error) => Err(unwritable(&error, fault)),
    }
}

/// Sets the owner and permissions of a new file to those of an old one.
fn hand_over<R: Files>(rt: &R, name: &str, file: &R::File, old: &Metadata) -> io::Result<()> {
    let new = file.metadata()?;
    if new.uid() != old.uid() || new.gid() != old.gid() {
        rt.chown(name, Some(old.uid()), Some(old.gid()))?;
    }
    file.set_permissions(old.permissions())
}
