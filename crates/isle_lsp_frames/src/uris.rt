//! The URIs of files.

ghost use Rattle.std.specs.Prelude.{◌≡◌, ℕ, ◌==◌, List, Some, true, false, IfOk, IsUtf8};
ghost use Rattle.std.specs.Prelude.{option_map, string_bytes};
ghost use Rattle.std.specs.List.{list_any};
ghost use Rattle.isle_lsp_frames.specs.Uris as wanted;

use percent_encoding::{AsciiSet, CONTROLS, ascii_set, percent_decode, utf8_percent_encode};
use std::alloc::{AllocError, Global};

/// The beginning of the URI of a file.
const SCHEME: &str = "file://";

/// The name of this machine as a host.
const LOCAL: &str = "localhost";

/// The ASCII bytes that are escaped in the URI of a file: those of the URL Standard's path set,
/// `%` and the backslash.
const ESCAPED: AsciiSet = ascii_set!(
    CONTROLS
        .add(b' ')
        .add(b'"')
        .add(b'#')
        .add(b'%')
        .add(b'<')
        .add(b'>')
        .add(b'?')
        .add(b'\\')
        .add(b'^')
        .add(b'`')
        .add(b'{')
        .add(b'}')
);

/// The path that the URI of a file names, or `None` for any other URI.
///
/// The scheme is `file` and the host is empty or `localhost`, each in any case. The path is
/// absolute, ends at `?` or `#`, and is decoded: its escapes must give UTF-8 without NUL.
#[tactic(auto, unfolding(crate::specs::Uris::path_in))]
pub fn path_of(alloc: Global, uri: &str) -> Result<Option<String>, AllocError>
    ensures { IfOk result (λ path. option_map string_bytes path ≡ wanted.path_in uri.now) }
{
    match behind(uri.as_bytes(), SCHEME.as_bytes()) {
        Some(rest) => path_after(alloc, without_host(rest)),
        None => Ok(None),
    }
}

/// The URI of the file at a path: `file://` and the path, escaped.
#[tactic(auto, unfolding(crate::specs::Uris::uri_of))]
pub fn uri_of(alloc: Global, path: &str) -> Result<String, AllocError>
    ensures { IfOk result (λ uri. string_bytes uri ≡ wanted.uri_of path.now) }
{
    let mut uri = String::from_str(alloc, SCHEME)?;
    utf8_percent_encode(path, ESCAPED).append_to(&mut uri)?;
    Ok(uri)
}

/// What follows a word, which is matched in any case.
fn behind<'a>(text: &'a [u8], word: &[u8]) -> Option<&'a [u8]>
    ensures { option_map (λ rest. rest.now) result ≡ wanted.behind word.now text.now }
{
    if text.len() < word.len() {
        return None;
    }
    let (front, rest) = text.split_at(word.len());
    if front.eq_ignore_ascii_case(word) {
        Some(rest)
    } else {
        None
    }
}

/// The text without the host's name, if that is `localhost`.
fn without_host(text: &[u8]) -> &[u8]
    ensures { result.now ≡ wanted.without_host text.now }
{
    behind(text, LOCAL.as_bytes()).unwrap_or(text)
}

/// The path in the text after the host.
fn path_after(alloc: Global, text: &[u8]) -> Result<Option<String>, AllocError>
    ensures { IfOk result (λ path. option_map string_bytes path ≡ wanted.path_after text.now) }
{
    if text.first() != Some(&b'/') {
        return Ok(None);
    }
    let mut bytes = Vec::new(alloc);
    percent_decode(bare(text)).append_to(&mut bytes)?;
    Ok(path_with(bytes))
}

/// The text up to a query or a fragment.
fn bare(text: &[u8]) -> &[u8]
    ensures { result.now ≡ wanted.bare text.now }
{
    for (i, &byte) in text.iter().enumerate() {
        if byte == b'?' || byte == b'#' {
            return &text[..i];
        }
    }
    text
}

/// The path that these bytes are.
fn path_with(bytes: Vec<u8>) -> Option<String>
    ensures { option_map string_bytes result ≡ wanted.path_with bytes.items }
{
    if bytes.contains(&0) {
        return None;
    }
    match String::from_utf8(bytes) {
        Ok(path) => Some(path),
        Err(_) => None,
    }
}

/// A law: the URI of a file names its path.
pub fn names_its_path()
    ensures { (path : List ℕ) → IsUtf8 path → wanted.is_absolute path ≡ true
        → list_any (λ b. b == 0) path ≡ false
        → wanted.path_in (wanted.uri_of path) ≡ Some path }
{}
