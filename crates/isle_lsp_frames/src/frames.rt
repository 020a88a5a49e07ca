//! The frames of messages: header lines, a blank line, and the bytes of the message.
//!
//! A header line ends with CR LF and has at most 4096 bytes. A header has at most 16 lines,
//! including the blank one, and states the length of the message once: `Content-Length: 17`. The
//! name is matched in any case, and other lines are ignored. Spaces and tabs may stand around the
//! number. Lengths are in bytes.

ghost use Rattle.std.specs.Prelude.{◌≡◌, ◌≢◌, ◌⊎◌, ℕ, bytes_eq, codes, ◌≤◌, ◌<◌, ◌++◌, []};
ghost use Rattle.std.specs.Prelude.{List, length, option_map, IfOk, IfErr, OnErr, OnOk, IfSome};
ghost use Rattle.std.specs.Prelude.{reverse, option_to_list};
ghost use Rattle.std.specs.Prelude.{IsTrue, ◌↔◌, EachIndex, slice_index, string_bytes, true, false};
ghost use Rattle.std.specs.Int.{IsInRange};
ghost use Rattle.std.specs.Io.KnownBytes.{Appends, Consumes, Keeps};
ghost use Rattle.isle_cli.specs.Streams.{AppendsBeginning};
ghost use Rattle.isle_cli.specs.declared.failure.Failure as failures;
ghost use Rattle.isle_lsp_frames.specs.Frames.{Gives, IsBroken, IsLine, after_blanks};
ghost use Rattle.isle_lsp_frames.specs.Frames.{field_length};
ghost use Rattle.isle_lsp_frames.specs.Frames.{frame, frame_at};
ghost use Rattle.isle_lsp_frames.specs.Frames.{head, head_at, header_length, length_after};
ghost use Rattle.isle_lsp_frames.specs.Frames.{length_value, number_of, only_one};
ghost use Rattle.isle_lsp_frames.specs.declared.frames.FrameFault.TheVariants.{Memory};

use isle_cli::failure::Failure;
use isle_cli::streams::write_whole;
use std::alloc::{AllocError, AllocFailed, Global};
use std::io::{BufRead, ErrorKind, Read, Write};
use std::{io, str};

/// The maximal number of lines in a header, including the blank one.
const MAX_LINES: u32 = 16;

/// The maximal length of a header line in bytes.
const MAX_LINE_LEN: usize = 4096;

/// The maximal length of a message in bytes.
const MAX_LEN: usize = 67_108_864;

/// The name of the header line with the length, in lower case, with its colon.
const LENGTH_NAME: &[u8] = b"content-length:";

/// The reason why a message cannot be read.
#[derive(Drop)]
pub enum FrameFault {
    /// The header is malformed, or does not state the length exactly once.
    Malformed,
    /// The input ends within the message.
    Cut,
    /// The message is longer than 64 MiB.
    TooLong,
    /// Reading the input failed.
    Unreadable,
    /// Out of memory.
    Memory,
}

impl From<AllocError> for FrameFault {
    ghost from_gives = { λ _ fault. fault ≡ Memory };

    fn from(_error: AllocError) -> FrameFault {
        FrameFault::Memory
    }
}

impl<T: Drop> From<AllocFailed<T>> for FrameFault {
    ghost from_gives = { λ _ fault. fault ≡ Memory };

    fn from(_error: AllocFailed<T>) -> FrameFault {
        FrameFault::Memory
    }
}

/// Returns whether all bytes are decimal digits.
fn are_digits(bytes: &[u8]) -> bool
    ensures { IsTrue result ↔ EachIndex bytes.now (λ i. IsInRange 48 57 (slice_index bytes.now i)) }
{
    bytes.iter().all(|b| b.is_ascii_digit())
}

/// Parses a decimal number.
fn number_of(digits: &[u8]) -> Option<usize>
    ensures { result ≡ number_of digits.now }
{
    if !are_digits(digits) {
        return None;
    }
    match str::from_utf8(digits) {
        Ok(text) => text.parse::<usize>().ok(),
        Err(_) => None,
    }
}

/// The value without the spaces and tabs in front of it.
fn after_blanks(value: &[u8]) -> &[u8]
    ensures { result.now ≡ after_blanks value.now }
{
    let mut rest = value;
    while let [b' ' | b'\t', more @ ..] = rest {
        rest = more;
    }
    rest
}

/// The value without the spaces and tabs behind it.
fn before_blanks(value: &[u8]) -> &[u8]
    ensures { result.now ≡ reverse (after_blanks (reverse value.now)) }
{
    let mut rest = value;
    while let [more @ .., b' ' | b'\t'] = rest {
        rest = more;
    }
    rest
}

/// The value of a header line that states the length.
fn length_value(field: &[u8]) -> Option<&[u8]>
    ensures { option_map (λ value. value.now) result ≡ length_value field.now }
{
    if field.len() < LENGTH_NAME.len() {
        return None;
    }
    let (name, value) = field.split_at(LENGTH_NAME.len());
    if name.eq_ignore_ascii_case(LENGTH_NAME) {
        Some(value)
    } else {
        None
    }
}

/// The length that a header line states, if any. The line is without its CR LF.
#[tactic(auto, unfolding(crate::specs::Frames::field_length))]
fn field_length(field: &[u8]) -> Result<Option<usize>, FrameFault>
    ensures { result ≡ field_length field.now }
{
    match length_value(field) {
        None => Ok(None),
        Some(value) => match number_of(before_blanks(after_blanks(value))) {
            Some(n) => Ok(Some(n)),
            None => Err(FrameFault::Malformed),
        },
    }
}

/// The length that a header line states, if any.
#[tactic(auto, unfolding(crate::specs::Frames::header_length))]
fn header_length(line: &[u8]) -> Result<Option<usize>, FrameFault>
    ensures { result ≡ header_length line.now }
{
    if line.len() > MAX_LINE_LEN {
        return Err(FrameFault::Malformed);
    }
    match line.strip_suffix(b"\r\n") {
        None => Err(FrameFault::Malformed),
        Some(field) => field_length(field),
    }
}

/// The one of two lengths that is present.
fn only_one(found: Option<usize>, known: Option<usize>) -> Result<Option<usize>, FrameFault>
    ensures { result ≡ only_one found known }
{
    match (found, known) {
        (Some(_), Some(_)) => Err(FrameFault::Malformed),
        (Some(n), None) | (None, Some(n)) => Ok(Some(n)),
        (None, None) => Ok(None),
    }
}

/// The length that is known after a further header line.
#[tactic(auto, unfolding(crate::specs::Frames::length_after))]
fn length_after(line: &[u8], known: Option<usize>) -> Result<Option<usize>, FrameFault>
    ensures { result ≡ length_after line.now known }
{
    match header_length(line) {
        Ok(found) => only_one(found, known),
        Err(fault) => Err(fault),
    }
}

/// Returns whether a line ends the header.
fn is_blank(line: &[u8]) -> bool
    ensures { result ≡ bytes_eq line.now (codes "\r\n") }
{
    line == b"\r\n".as_slice()
}

/// Returns whether the input is at its end.
fn is_at_end<R: BufRead>(input: &mut R) -> Result<bool, FrameFault>
    ensures kept { Keeps (R.remaining input.old) (R.remaining input.new) }
    ensures ended { result ≡ Ok true → IfSome (R.remaining input.old) (λ bytes. bytes ≡ []) }
    ensures more { result ≡ Ok false → IfSome (R.remaining input.old) (λ bytes. 0 < length bytes) }
    ensures err { IfErr result (λ fault. fault ≡ FrameFault.Unreadable) }
{
    for _ in 0..u64::MAX {
        match input.fill_buf() {
            Ok(bytes) => return Ok(bytes.is_empty()),
            Err(error) if error.kind() == ErrorKind::Interrupted => {}
            Err(_) => return Err(FrameFault::Unreadable),
        }
    }
    Err(FrameFault::Unreadable)
}

/// Reads a byte, or returns `None` at the end of the input.
fn read_byte<R: Read>(input: &mut R) -> Result<Option<u8>, FrameFault>
    ensures some { IfOk result (λ found. Consumes (R.remaining input.old) (R.remaining input.new)
        (option_to_list found)) }
    ensures none { result ≡ Ok None → IfSome (R.remaining input.old) (λ bytes. bytes ≡ []) }
    ensures err { IfErr result (λ fault. fault ≡ FrameFault.Unreadable) }
{
    let mut buffer = [0; 1];
    for _ in 0..u64::MAX {
        match input.read(&mut buffer) {
            Ok(0) => return Ok(None),
            Ok(_) => return Ok(Some(buffer[0])),
            Err(error) if error.kind() == ErrorKind::Interrupted => {}
            Err(_) => return Err(FrameFault::Unreadable),
        }
    }
    Err(FrameFault::Unreadable)
}

/// Reads a line with its LF, or the bytes up to the end of the input. Of a line that is too long it
/// reads one byte more than a line may have.
fn read_line<R: Read>(alloc: Global, input: &mut R) -> Result<Vec<u8>, FrameFault>
    ensures ok { (bytes : List ℕ) → R.remaining input.old ≡ Some bytes
        → IfOk result (λ line. IsLine bytes line.items (R.remaining input.new)) }
    ensures few { IfOk result (λ line. length line.items ≤ 4097) }
    ensures err { IfErr result IsBroken }
{
    let mut line = Vec::new(alloc);
    for _ in 0..=MAX_LINE_LEN {
        let Some(byte) = read_byte(input)? else {
            return Ok(line);
        };
        line.push(byte)?;
        if byte == b'\n' {
            return Ok(line);
        }
    }
    Ok(line)
}

/// Reads the header, and returns the length that it states.
fn read_head<R: BufRead>(alloc: Global, input: &mut R) -> Result<usize, FrameFault>
    ensures { (bytes : List ℕ) → R.remaining input.old ≡ Some bytes
        → Gives (λ n. n) (R.remaining input.new) result (head_at 16 None bytes) }
{
    let mut known = None;
    for _ in 0..MAX_LINES {
        let line = read_line(alloc, input)?;
        let text = line.as_slice();
        if is_blank(text) {
            let Some(length) = known else {
                return Err(FrameFault::Malformed);
            };
            return Ok(length);
        }
        known = length_after(text, known)?;
    }
    Err(FrameFault::Malformed)
}

fn read_body<R: Read>(alloc: Global, input: &mut R, len: usize) -> Result<Vec<u8>, FrameFault>
    ensures ok { IfOk result (λ body. Consumes (R.remaining input.old) (R.remaining input.new)
        body.items × (length body.items ≡ len)) }
    ensures cut { result ≡ Err FrameFault.Cut
        → IfSome (R.remaining input.old) (λ bytes. length bytes < len) }
    ensures fault { IfErr result
        (λ fault. (fault ≢ FrameFault.Malformed) × (fault ≢ FrameFault.TooLong)) }
{
    let mut body = Vec::new(alloc);
    let mut buffer = [0; 4096];
    for _ in 0..u64::MAX {
        let wanted = len - body.len();
        if wanted == 0 {
            return Ok(body);
        }
        let room = wanted.min(buffer.len());
        match input.read(&mut buffer[..room]) {
            Ok(0) => return Err(FrameFault::Cut),
            Ok(n) => body.extend_from_slice(&buffer[..n])?,
            Err(error) if error.kind() == ErrorKind::Interrupted => {}
            Err(_) => return Err(FrameFault::Unreadable),
        }
    }
    Err(FrameFault::Unreadable)
}

/// Reads the next message, or `None` at the end of the input.
///
/// After an `Err` some bytes of the input have been read and are lost.
pub fn read_frame<R: BufRead>(alloc: Global, input: &mut R) -> Result<Option<Vec<u8>>, FrameFault>
    // The message, and the rest of the input, are those of the bytes.
    ensures { (bytes : List ℕ) → R.remaining input.old ≡ Some bytes
        → Gives (λ found. option_map (λ body. body.items) found)
        (R.remaining input.new) result (frame_at bytes) }
{
    if is_at_end(input)? {
        return Ok(None);
    }
    let length = read_head(alloc, input)?;
    if length > MAX_LEN {
        return Err(FrameFault::TooLong);
    }
    let body = read_body(alloc, input, length)?;
    Ok(Some(body))
}

/// Writes a message with its header, and flushes the writer.
///
/// The error is `Memory` or `Output`. After it the writer has received a prefix of the frame.
pub fn write_frame<W: Write>(alloc: Global, output: &mut W, body: &[u8]) -> Result<(), Failure>
    ensures ok { OnOk result
        (Appends (W.contents output.old) (W.contents output.new) (frame body.now)) }
    ensures part { OnErr result
        (AppendsBeginning (W.contents output.old) (W.contents output.new) (frame body.now)) }
    ensures err { IfErr result
        (λ failure. (failure ≡ Failure.Memory) ⊎ (failure ≡ Failure.Output)) }
{
    let head = head_of(alloc, body.len())?;
    match write_parts(output, head.as_bytes(), body) {
        Ok(()) => Ok(()),
        Err(_) => Err(Failure::Output),
    }
}

/// The header of a message of this length.
fn head_of(alloc: Global, len: usize) -> Result<String, AllocError>
    ensures { IfOk result (λ made. string_bytes made ≡ head len) }
{
    format!(in alloc; "Content-Length: {len}\r\n\r\n")
}

/// Writes two parts, the second only if the first is written completely.
fn write_parts<W: Write>(output: &mut W, first: &[u8], second: &[u8]) -> io::Result<()>
    ensures ok { OnOk result
        (Appends (W.contents output.old) (W.contents output.new) (first.now ++ second.now)) }
    ensures part { AppendsBeginning (W.contents output.old) (W.contents output.new)
        (first.now ++ second.now) }
{
    write_whole(output, first)?;
    write_whole(output, second)
}

/// A law: a written frame reads back, whatever follows it.
pub fn reads_back()
    ensures { (body rest : List ℕ) → length body ≤ 67108864
        → frame_at (frame body ++ rest) ≡ Ok (Some body, rest) }
{}
