//! The text that `Display` writes for an error.
ghost use Rattle.std.specs.Prelude.{◌≡◌, ◌+◌, ◌^◌, ◌<◌, ◌≤◌, ◌-◌, ◌==◌, if◌then◌else◌, not, true};
ghost use Rattle.std.specs.Prelude.{◌++◌, [], ◌∷◌};
ghost use Rattle.std.specs.Prelude.{codes, length, slice_index};
ghost use Rattle.std.specs.Fmt.{WritesStyledOnOk, decimal};
ghost use Rattle.std.specs.List.{flat_map, list_all};
ghost use Rattle.isle_base_source.specs.Diagnostic.{error_text, found_text, label_text, message};
ghost use Rattle.isle_base_source.specs.Labels.{all_fit, error_fits, labels, span_fits};
ghost use Rattle.isle_base_source.specs.Bytes.{line_feed};
ghost use Rattle.isle_base_source.specs.Lines.{has_line_feed, line, line_ends, line_text, column};

use crate::error::{Error, Span};
use crate::files::{Files, LineMap};
use std::fmt;

pub fn write_errors<W: fmt::Write>(
    f: &mut fmt::Formatter<W>,
    files: &Files,
    errors: &[Error],
) -> fmt::Result
    requires { all_fit files.now errors.now ≡ true }
    ensures { WritesStyledOnOk W.write_str_gives f.old result
        (flat_map (error_text files.now) errors.now) f.new }
{
    for error in errors {
        write_error(f, files, error)?;
    }
    Ok(())
}

fn write_error<W: fmt::Write>(
    f: &mut fmt::Formatter<W>,
    files: &Files,
    error: &Error,
) -> fmt::Result
    requires { error_fits files.now error.now ≡ true }
    ensures { WritesStyledOnOk W.write_str_gives f.old result
        (error_text files.now error.now) f.new }
{
    write_message(f, error)?;
    f.write_str("\n")?;
    write_error_labels(f, files, error)?;
    f.write_str("\n")
}

/// Writes the message of an error, without its place.
pub fn write_message<W: fmt::Write>(f: &mut fmt::Formatter<W>, error: &Error) -> fmt::Result
    ensures { WritesStyledOnOk W.write_str_gives f.old result (message error.now) f.new }
{
    match error {
        Error::ParseError { msg, .. } => write_reason(f, "parse error: ", msg),
        Error::TypeError { msg, .. } => write_reason(f, "type error: ", msg),
        Error::UnreachableError { msg, .. } => write_reason(f, "unreachable rule: ", msg),
        Error::OverlapError { msg, .. } => write_reason(f, "overlap error: ", msg),
        Error::RecursionError { msg, .. } => write_reason(f, "recursion error: ", msg),
        Error::ShadowedError { .. } => {
            f.write_str("more general higher-priority rule shadows other rules")
        }
    }
}

fn write_reason<W: fmt::Write>(f: &mut fmt::Formatter<W>, kind: &str, reason: &str) -> fmt::Result
    ensures { WritesStyledOnOk W.write_str_gives f.old result (kind.now ++ reason.now) f.new }
{
    f.write_str(kind)?;
    f.write_str(reason)
}

/// Writes the places of an error.
fn write_error_labels<W: fmt::Write>(
    f: &mut fmt::Formatter<W>,
    files: &Files,
    error: &Error,
) -> fmt::Result
    requires { error_fits files.now error.now ≡ true }
    ensures { WritesStyledOnOk W.write_str_gives f.old result
        (flat_map (label_text files.now) (labels error.now)) f.new }
{
    match error {
        Error::ParseError { span, .. }
        | Error::TypeError { span, .. }
        | Error::UnreachableError { span, .. }
        | Error::RecursionError { span, .. } => write_label(f, files, span),
        Error::OverlapError { rules, .. } => write_labels(f, files, rules),
        Error::ShadowedError { shadowed, mask } => {
            write_label(f, files, mask)?;
            write_labels(f, files, shadowed)
        }
    }
}

fn write_labels<W: fmt::Write>(
    f: &mut fmt::Formatter<W>,
    files: &Files,
    spans: &[Span],
) -> fmt::Result
    requires { list_all (span_fits files.now) spans.now ≡ true }
    ensures { WritesStyledOnOk W.write_str_gives f.old result
        (flat_map (label_text files.now) spans.now) f.new }
{
    for span in spans {
        write_label(f, files, span)?;
    }
    Ok(())
}

/// Writes one place: its file, line and column, and the line itself, always ended by a line feed.
fn write_label<W: fmt::Write>(f: &mut fmt::Formatter<W>, files: &Files, span: &Span) -> fmt::Result
    requires { span_fits files.now span.now ≡ true }
    ensures { WritesStyledOnOk W.write_str_gives f.old result
        (label_text files.now span.now) f.new }
{
    let pos = span.from;
    let name = files.file_name(pos.file).unwrap();
    let text = files.file_text(pos.file).unwrap();
    let line_map = files.file_line_map(pos.file).unwrap();
    let line = source_line(text, line_map, pos.offset);
    write_place(f, name, line.number + 1, line.column + 1, line.text)?;
    write_line_end(f, line.is_last)
}

/// Writes the line feed that the last line of a text lacks.
fn write_line_end<W: fmt::Write>(f: &mut fmt::Formatter<W>, is_last: bool) -> fmt::Result
    ensures { WritesStyledOnOk W.write_str_gives f.old result
        (if is_last then line_feed ∷ [] else []) f.new }
{
    if is_last { f.write_str("\n") } else { Ok(()) }
}

fn write_place<W: fmt::Write>(
    f: &mut fmt::Formatter<W>,
    name: &str,
    number: usize,
    column: usize,
    line: &str,
) -> fmt::Result
    ensures { WritesStyledOnOk W.write_str_gives f.old result
        (name.now ++ codes ":" ++ decimal number ++ codes ":" ++ decimal column
        ++ codes ": " ++ line.now)
        f.new }
{
    f.write_str(name)?;
    f.write_str(":")?;
    write_number(f, number)?;
    f.write_str(":")?;
    write_number(f, column)?;
    f.write_str(": ")?;
    f.write_str(line)
}

/// Writes a number in decimal, regardless of the formatter's options.
fn write_number<W: fmt::Write>(f: &mut fmt::Formatter<W>, number: usize) -> fmt::Result
    ensures { WritesStyledOnOk W.write_str_gives f.old result (decimal number) f.new }
{
    if number < 10 {
        return write_digit(f, number);
    }
    write_number(f, number / 10)?;
    write_digit(f, number % 10)
}

fn write_digit<W: fmt::Write>(f: &mut fmt::Formatter<W>, digit: usize) -> fmt::Result
    requires { digit < 10 }
    ensures { WritesStyledOnOk W.write_str_gives f.old result ((48 + digit) ∷ []) f.new }
{
    f.write_char((b'0' + digit as u8) as char)
}

/// Writes the number of errors if there is more than one.
pub fn write_count<W: fmt::Write>(f: &mut fmt::Formatter<W>, count: usize) -> fmt::Result
    ensures { WritesStyledOnOk W.write_str_gives f.old result (found_text count) f.new }
{
    if count > 1 {
        f.write_str("found ")?;
        write_number(f, count)?;
        f.write_str(" errors\n")?;
    }
    Ok(())
}

/// The line of a text that contains an offset.
#[derive(Drop)]
struct SourceLine<'a> {
    /// The line number, from 0.
    number: usize,
    /// The number of bytes before the offset on its line.
    column: usize,
    /// The line, with its line feed if it has one.
    text: &'a str,
    /// Whether this is the last line, which has no line feed.
    is_last: bool,
}

fn source_line<'a>(text: &'a str, line_map: &LineMap, offset: usize) -> SourceLine<'a>
    requires { line_map.now ≡ line_ends text.now }
    ensures number { result.number ≡ line text.now offset }
    ensures small { result.number < 2 ^ 63 }
    ensures column { result.column ≡ column text.now offset }
    ensures text { result.text.now ≡ line_text text.now (line text.now offset) }
    ensures last { result.is_last ≡ not (has_line_feed text.now (line text.now offset)) }
{
    let number = line_map.line(offset);
    let begin = line_begin(line_map, number);
    let end = line_map.get(number).copied().unwrap_or(text.len());
    SourceLine {
        number,
        column: offset - begin,
        text: &text[begin..end],
        is_last: line_map.get(number).is_none(),
    }
}

/// The byte offset at which a line begins.
fn line_begin(line_map: &LineMap, number: usize) -> usize
    requires { number ≤ length line_map.now }
    ensures { result ≡ (if number == 0 then 0 else slice_index line_map.now (number - 1)) }
{
    match number.checked_sub(1) {
        None => 0,
        Some(previous) => line_map[previous],
    }
}
