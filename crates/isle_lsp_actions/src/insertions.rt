//! Where `_` may be put before a name, and a line above a list.

ghost use Rattle.std.specs.Prelude.{◌≡◌, take};
ghost use Rattle.isle_base.specs.Skips.{begins_with};
ghost use Rattle.isle_lsp_actions.specs.Insertions as wanted;

/// Returns whether a name begins with `_`, which says that it need not be used, or with the `$` of
/// a constant.
pub fn is_marked(name: &str) -> bool
    ensures { result ≡ begins_with wanted.is_mark name.now }
{
    match name.as_bytes() {
        [first, ..] => matches!(first, b'_' | b'$'),
        [] => false,
    }
}

/// Returns whether a blank or a `(` is right before an offset, or nothing.
///
/// Behind another byte, `_` could become a part of the token before.
pub fn stands_apart(text: &str, offset: usize) -> bool
    ensures { result ≡ wanted.stands_apart text.now offset }
{
    match before(text, offset).last() {
        Some(byte) => is_apart(*byte),
        None => true,
    }
}

#[tactic(auto, unfolding(isle_base::specs::Skips::is_blank))]
fn is_apart(byte: u8) -> bool
    ensures { result ≡ wanted.is_apart byte }
{
    matches!(byte, b' ' | b'\t' | b'\n' | b'\r' | b'(')
}

/// The bytes of a text before an offset.
fn before(text: &str, offset: usize) -> &[u8]
    ensures { result.now ≡ take offset text.now }
{
    let bytes = text.as_bytes();
    &bytes[..offset.min(bytes.len())]
}

/// The offset at which the line of an offset begins, or `None` if something other than blanks is
/// before the offset on its line.
pub fn line_of(text: &str, offset: usize) -> Option<usize>
    ensures { result ≡ wanted.line_of text.now offset }
{
    let start = indent_start(before(text, offset));
    if ends_line(before(text, start)) {
        Some(start)
    } else {
        None
    }
}

/// The number of bytes before the blanks at the end of these.
fn indent_start(before: &[u8]) -> usize
    ensures start { result ≡ wanted.indent_start before.now }
{
    let mut start = before.len();
    while start > 0 && is_indent(before[start - 1]) {
        start -= 1;
    }
    start
}

fn is_indent(byte: u8) -> bool
    ensures { result ≡ wanted.is_indent byte }
{
    matches!(byte, b' ' | b'\t')
}

/// Returns whether a line begins behind these bytes.
fn ends_line(before: &[u8]) -> bool
    ensures { result ≡ wanted.ends_line before.now }
{
    match before.last() {
        Some(byte) => matches!(byte, b'\n' | b'\r'),
        None => true,
    }
}

/// The line end that a text has: CR LF if its first LF follows a CR, and otherwise LF.
pub fn line_end(text: &str) -> &'static str
    ensures { result.now ≡ wanted.line_end text.now }
{
    if has_crlf(text.as_bytes()) {
        "\r\n"
    } else {
        "\n"
    }
}

/// Returns whether the first LF of a text follows a CR.
fn has_crlf(text: &[u8]) -> bool
    ensures { result ≡ wanted.has_crlf text.now }
{
    let mut rest = text;
    while let [byte, more @ ..] = rest {
        if *byte == b'\n' {
            return false;
        }
        if *byte == b'\r' && begins_with_line_feed(more) {
            return true;
        }
        rest = more;
    }
    false
}

fn begins_with_line_feed(text: &[u8]) -> bool
    ensures { result ≡ begins_with wanted.is_line_feed text.now }
{
    match text {
        [first, ..] => *first == b'\n',
        [] => false,
    }
}
