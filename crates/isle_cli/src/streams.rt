//! Reading to the end and writing whole texts, for any reader and any writer.

ghost use Rattle.std.specs.Prelude.{◌≡◌, ◌<◌, length, string_bytes, IfErr, IfOk, IsUtf8, Ok, OnOk};
ghost use Rattle.std.specs.Prelude.{false};
ghost use Rattle.std.specs.Io.{StartsWith, appended_bytes};
ghost use Rattle.std.specs.Io.KnownBytes.{Appends, Consumes, IsAtEnd};
ghost use Rattle.std.specs.IoError.{error_kind};
ghost use Rattle.std.specs.Str.Lossy.{utf8_valid_len};
ghost use Rattle.isle_cli.specs.Streams.{AppendsBeginning, IsBroken, IsStreamFault, fault_of};
ghost use Rattle.isle_cli.specs.declared.streams.ReadFault.TheVariants.{Memory, NotUtf8};

use std::alloc::{AllocError, AllocFailed, Global};
use std::io;
use std::io::{ErrorKind, Read, Write};

/// The most bytes that one read asks for.
const READ_LEN: usize = 64 * 1024;

/// The three streams of a program.
#[derive(Drop)]
pub struct Streams<I, W, E> {
    /// Standard input.
    pub input: I,
    /// Standard output.
    pub output: W,
    /// Standard error, for the messages of failures.
    pub faults: E,
}

impl<I, W, E> Streams<I, W, E> {
    pub fn new(input: I, output: W, faults: E) -> Self
        ensures input { result.input ≡ input }
        ensures output { result.output ≡ output }
        ensures faults { result.faults ≡ faults }
    {
        Streams {
            input,
            output,
            faults,
        }
    }
}

/// Why no text was read.
#[derive(Clone, Copy)]
pub enum ReadFault {
    /// There is no such file or folder.
    Missing,
    /// The user may not read it.
    Denied,
    /// It is a folder.
    Folder,
    /// It isn't a regular file, where one is needed.
    NotRegular,
    /// It isn't UTF-8: this many bytes precede the first one that is wrong.
    NotUtf8(usize),
    /// It can't be read to its end, for another reason.
    Unreadable,
    /// Out of memory.
    Memory,
}

impl From<AllocError> for ReadFault {
    ghost from_gives = { λ _ fault. fault ≡ Memory };

    fn from(_error: AllocError) -> ReadFault {
        ReadFault::Memory
    }
}

impl<T: Drop> From<AllocFailed<T>> for ReadFault {
    ghost from_gives = { λ _ fault. fault ≡ Memory };

    fn from(_error: AllocFailed<T>) -> ReadFault {
        ReadFault::Memory
    }
}

/// Why nothing can be read, from the error of the system.
pub fn fault_of(error: io::Error) -> ReadFault
    ensures kind { result ≡ fault_of (error_kind error) }
    ensures broken { IsBroken result }
{
    match error.kind() {
        ErrorKind::NotFound => ReadFault::Missing,
        ErrorKind::PermissionDenied => ReadFault::Denied,
        ErrorKind::IsADirectory => ReadFault::Folder,
        ErrorKind::OutOfMemory => ReadFault::Memory,
        _ => ReadFault::Unreadable,
    }
}

/// Reads a text in UTF-8 to its end.
///
/// An interrupted read is repeated. After an error the bytes read so far are lost.
pub fn read_text<R: Read>(alloc: Global, input: &mut R) -> Result<String, ReadFault>
    ensures consumed { IfOk result (λ text.
        Consumes (R.remaining input.old) (R.remaining input.new) (string_bytes text)) }
    ensures ended { OnOk result (IsAtEnd (R.remaining input.new)) }
    ensures fault { IfErr result (λ fault.
        IsStreamFault (R.remaining input.old) (R.remaining input.new) fault) }
{
    let mut bytes = Vec::new(alloc);
    let mut buffer = [0; READ_LEN];
    for _ in 0..u64::MAX {
        if !read_more(input, &mut buffer, &mut bytes)? {
            return text_of(bytes);
        }
    }
    Err(ReadFault::Unreadable)
}

/// The text that bytes are.
fn text_of(bytes: Vec<u8>) -> Result<String, ReadFault>
    ensures ok { IfOk result (λ text. string_bytes text ≡ bytes.items) }
    ensures err { IfErr result (λ fault. fault ≡ NotUtf8 (utf8_valid_len bytes.items)) }
    ensures not_utf8 { IfErr result (λ _. ¬ (IsUtf8 bytes.items)) }
{
    match String::from_utf8(bytes) {
        Ok(text) => Ok(text),
        Err(error) => Err(ReadFault::NotUtf8(error.utf8_error().valid_up_to())),
    }
}

/// Reads once, and returns whether there may be more. An interrupted read adds no bytes.
fn read_more<R: Read>(
    input: &mut R,
    buffer: &mut [u8],
    bytes: &mut Vec<u8>,
) -> Result<bool, ReadFault>
    requires { 0 < length buffer.old }
    ensures grows { OnOk result (StartsWith bytes.new.items bytes.old.items) }
    ensures consumed { OnOk result (Consumes (R.remaining input.old) (R.remaining input.new)
        (appended_bytes bytes.old.items bytes.new.items)) }
    ensures ended { result ≡ Ok false → IsAtEnd (R.remaining input.new) }
    ensures broken { IfErr result IsBroken }
{
    match input.read(buffer) {
        Ok(n) => {
            bytes.extend_from_slice(&buffer[..n])?;
            Ok(n != 0)
        }
        Err(error) if error.kind() == ErrorKind::Interrupted => Ok(true),
        Err(error) => Err(fault_of(error)),
    }
}

/// Writes all bytes, in as many calls as the writer needs, and flushes it.
///
/// An interrupted call is repeated. After any other error the writer has a beginning of the bytes,
/// which std's `write_all` does not promise.
pub fn write_whole<W: Write>(writer: &mut W, bytes: &[u8]) -> io::Result<()>
    ensures ok { OnOk result (Appends (W.contents writer.old) (W.contents writer.new) bytes.now) }
    ensures part { AppendsBeginning (W.contents writer.old) (W.contents writer.new) bytes.now }
{
    let mut written = 0;
    for _ in 0..u64::MAX {
        if written >= bytes.len() {
            return writer.flush();
        }
        match writer.write(&bytes[written..]) {
            Ok(0) => return Err(io::Error::from(ErrorKind::WriteZero)),
            Ok(n) => written += n,
            Err(error) if error.kind() == ErrorKind::Interrupted => {}
            Err(error) => return Err(error),
        }
    }
    Err(io::Error::from(ErrorKind::WriteZero))
}
