//! The places of mistakes in the text of a manifest.

ghost use Rattle.std.specs.Prelude.{◌≡◌, drop};
ghost use Rattle.isle_program_manifest.specs.Places as Places;

/// The header of a program.
const HEADER: &[u8] = b"[[program";

/// The byte offset at which the program with this number begins; 0 without a number.
pub(crate) fn start(text: &[u8], program: Option<usize>) -> usize
    ensures { result ≡ Places.start text.now program }
{
    match program {
        Some(number) => header(text, number),
        None => 0,
    }
}

/// The byte offset of the header of the program with this number.
fn header(text: &[u8], number: usize) -> usize
    ensures { result ≡ Places.header text.now number }
{
    let mut offset = line_from(text, true, 0, HEADER);
    for _ in 0..number {
        offset = line_from(text, false, offset, HEADER);
    }
    offset
}

/// The first byte offset from this one on at which a word is the first of a line; this one, if
/// there is none. `starts` says that the line begins here.
pub(crate) fn line_from(text: &[u8], starts: bool, from: usize, word: &[u8]) -> usize
    ensures { result ≡ Places.line_from text.now starts from word.now }
{
    place_from(text, false, starts, from, word)
}

/// The byte offset of a key in the table `lints`, as in `[lints.KEY]`.
pub(crate) fn lints_key(text: &[u8], key: &[u8]) -> usize
    ensures { result ≡ Places.lints_key text.now key.now }
{
    let lints = line_from(text, true, 0, b"lints");
    place_from(text, true, true, lints, key)
}

/// The byte offset of a name in the table at a key of `lints`.
pub(crate) fn lints_name(text: &[u8], key: &[u8], name: &[u8]) -> usize
    ensures { result ≡ Places.lints_name text.now key.now name.now }
{
    line_from(text, true, lints_key(text, key), name)
}

/// The first byte offset from this one on at which a word stands: as the first of a line, or
/// `inside` one, too; this offset, if there is none. `starts` says that it may stand here.
fn place_from(text: &[u8], inside: bool, starts: bool, from: usize, word: &[u8]) -> usize
    ensures { result ≡ Places.place_from text.now inside starts from word.now }
{
    let mut starts = starts;
    for offset in from..text.len() {
        if starts && is_at(word, &text[offset..]) {
            return offset;
        }
        starts = starts_after(inside, starts, text[offset]);
    }
    from
}

/// Returns whether a word is at the front of these bytes, and ends there.
fn is_at(word: &[u8], bytes: &[u8]) -> bool
    ensures { result ≡ Places.is_at word.now bytes.now }
{
    bytes.starts_with(word) && !goes_on(&bytes[word.len()..])
}

/// Returns whether a key goes on with these bytes.
fn goes_on(bytes: &[u8]) -> bool
    ensures { result ≡ Places.goes_on bytes.now }
{
    match bytes {
        [first, ..] => is_key_byte(*first),
        [] => false,
    }
}

/// Returns whether a byte may stand in a key without quotation marks.
fn is_key_byte(byte: u8) -> bool
    ensures { result ≡ Places.is_key_byte byte }
{
    byte.is_ascii_alphanumeric() || byte == b'-' || byte == b'_'
}

/// Returns whether a word may come after this byte.
fn starts_after(inside: bool, starts: bool, byte: u8) -> bool
    ensures { result ≡ Places.starts_after inside starts byte }
{
    if inside {
        !is_key_byte(byte)
    } else {
        byte == b'\n' || starts && is_before_word(byte)
    }
}

/// Returns whether a byte may be before the first word of a line: a blank, `[` or a quotation mark.
fn is_before_word(byte: u8) -> bool
    ensures { result ≡ Places.is_before_word byte }
{
    byte == b' ' || byte == b'\t' || byte == b'[' || byte == b'"' || byte == b'\''
}
