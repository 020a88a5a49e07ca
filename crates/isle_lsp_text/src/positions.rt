//! Positions, and the byte offsets that they stand for.

ghost use Rattle.std.specs.Prelude.{◌≡◌, ◌+◌, ◌<◌, ◌≤◌, drop, length, slice_index};
ghost use Rattle.std.specs.Str.{IsCharBoundary};
ghost use Rattle.isle_lsp_text.specs.Positions.{IsPlace, IsWhole, ends_line, is_inner, is_line_end};
ghost use Rattle.isle_lsp_text.specs.Positions.{offset_from, position_at, stops, unit_count};
ghost use Rattle.isle_lsp_text.specs.Positions.{utf16_count};

/// What the protocol counts on a line: the server chooses one of those that the client offers.
#[derive(Clone, Copy)]
pub enum PositionEncoding {
    /// Bytes of UTF-8.
    Utf8,
    /// Units of UTF-16, which every client supports.
    Utf16,
}

/// A position in a text, as the protocol counts.
#[derive(Clone, Copy)]
pub struct Position {
    /// The line.
    pub line: usize,
    /// The number of units before it on its line.
    pub unit: usize,
}

/// A part of a text, as the protocol counts.
#[derive(Clone, Copy)]
pub struct Range {
    /// Its start.
    pub start: Position,
    /// Its end.
    pub end: Position,
}

/// A place in a text: a byte offset, and its position.
#[derive(Clone, Copy)]
pub struct Place {
    /// The byte offset.
    pub offset: usize,
    /// The position of that offset.
    pub position: Position,
}

/// The start of a text.
pub const START: Place = Place {
    offset: 0,
    position: Position { line: 0, unit: 0 },
};

/// The place of a byte offset, found by a walk from a place nearby. An offset past the end of the
/// text means its end.
///
/// If the place nearby is not after the offset, only the bytes between the two are read, and
/// otherwise those from the start of the text. So offsets in ascending order cost one pass over the
/// text.
pub fn place_at(encoding: PositionEncoding, text: &str, nearby: Place, offset: usize) -> Place
    requires { IsPlace encoding text.now nearby }
    ensures position { result.position ≡ position_at encoding offset text.now }
    ensures place { IsPlace encoding text.now result }
{
    let end = offset.min(text.len());
    if nearby.offset <= end {
        place_after(encoding, text, nearby, end)
    } else {
        place_after(encoding, text, START, end)
    }
}

/// The place of an offset, found by a walk from a place at or before it.
fn place_after(encoding: PositionEncoding, text: &str, from: Place, offset: usize) -> Place
    requires from { IsPlace encoding text.now from }
    requires order { from.offset ≤ offset }
    requires within { offset ≤ length text.now }
    ensures position { result.position ≡ position_at encoding offset text.now }
    ensures place { IsPlace encoding text.now result }
{
    let bytes = text.as_bytes();
    let mut line = from.position.line;
    let mut unit = from.position.unit;
    for i in from.offset..offset {
        if ends_line(bytes, i) {
            line += 1;
            unit = 0;
        } else {
            unit += unit_count(encoding, bytes[i]);
        }
    }
    let position = Position { line, unit };
    Place { offset, position }
}

/// The byte offset of a position.
///
/// A unit past the end of its line means that end, and a line past the last one the end of the
/// text. A unit of UTF-16 inside a character means the start of that character, and one of UTF-8
/// its end.
pub fn offset_of(encoding: PositionEncoding, text: &str, position: Position) -> usize
    ensures offset { result ≡ offset_from encoding position.line position.unit text.now }
    ensures whole { IsWhole text.now result }
    ensures boundary { IsCharBoundary text.now result }
{
    find_offset(encoding, text.as_bytes(), position)
}

fn find_offset(encoding: PositionEncoding, bytes: &[u8], position: Position) -> usize
    ensures { result ≡ offset_from encoding position.line position.unit bytes.now }
{
    let mut lines = position.line;
    let mut units = position.unit;
    for (i, byte) in bytes.iter().enumerate() {
        if lines > 0 {
            if ends_line(bytes, i) {
                lines -= 1;
            }
        } else if stops(encoding, units, *byte) {
            return i;
        } else {
            units = units.saturating_sub(unit_count(encoding, *byte));
        }
    }
    bytes.len()
}

/// Returns whether the way to a unit of a line ends before this byte: the line does, or the units
/// that are left would cut the character that begins here.
fn stops(encoding: PositionEncoding, units: usize, byte: u8) -> bool
    ensures { result ≡ stops encoding units byte }
{
    is_line_end(byte) || (!is_inner(byte) && units < unit_count(encoding, byte))
}

/// Returns whether a line ends after the byte at index `i`.
fn ends_line(bytes: &[u8], i: usize) -> bool
    requires { i < length bytes.now }
    ensures { result ≡ ends_line (slice_index bytes.now i) (drop (i + 1) bytes.now) }
{
    match bytes[i] {
        b'\n' => true,
        b'\r' => i + 1 >= bytes.len() || bytes[i + 1] != b'\n',
        _ => false,
    }
}

/// Returns whether a byte is part of a line end.
pub(crate) fn is_line_end(byte: u8) -> bool
    ensures { result ≡ is_line_end byte }
{
    byte == b'\n' || byte == b'\r'
}

/// Returns whether a byte belongs to a character that an earlier byte begins.
fn is_inner(byte: u8) -> bool
    ensures { result ≡ is_inner byte }
{
    byte > 127 && byte < 192
}

/// The number of units that a byte adds to those before it.
fn unit_count(encoding: PositionEncoding, byte: u8) -> usize
    ensures count { result ≡ unit_count encoding byte }
    ensures bound { result ≤ 2 }
{
    match encoding {
        PositionEncoding::Utf8 => 1,
        PositionEncoding::Utf16 => utf16_count(byte),
    }
}

/// The number of UTF-16 units of the character that begins with this byte; 0 if none does.
pub fn utf16_count(byte: u8) -> usize
    ensures count { result ≡ utf16_count byte }
    ensures bound { result ≤ 2 }
{
    if is_inner(byte) {
        0
    } else if byte < 240 {
        1
    } else {
        2
    }
}
