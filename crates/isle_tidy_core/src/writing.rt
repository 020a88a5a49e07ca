//! Writing the entries of a document.

ghost use Rattle.std.specs.Prelude.{◌≡◌, ◌++◌, [], OnOk, replicate, string_bytes};
ghost use Rattle.isle_base.specs.Bytes.{line_feed, space};
ghost use Rattle.isle_tidy_core.specs.Streams.{gap_text_from, text_from};
ghost use Rattle.isle_tidy_layout.specs.EntriesView.{lexeme_of};
ghost use Rattle.isle_tidy_layout.specs.Placing.{tidied};
ghost use Rattle.isle_tidy_layout.specs.Writing.{gap_text, indentation, spelling, start_text};

use isle_tidy_layout::entries::{Gap, Lexeme};
use isle_tidy_layout::placer::trimmed;
use isle_tidy_layout::placing::Kind;
use std::alloc::AllocError;

fn put_spaces(out: &mut String, count: usize) -> Result<(), AllocError>
    ensures { OnOk result (string_bytes out.new ≡ string_bytes out.old ++ replicate count space) }
{
    for _ in 0..count {
        out.push_str(" ")?;
    }
    Ok(())
}

/// Writes line ends.
fn put_lines(out: &mut String, count: usize) -> Result<(), AllocError>
    ensures { OnOk result (string_bytes out.new
        ≡ string_bytes out.old ++ replicate count line_feed) }
{
    for _ in 0..count {
        out.push_str("\n")?;
    }
    Ok(())
}

/// Writes the line ends of empty lines, and spaces up to a column.
fn put_indentation(out: &mut String, empty: usize, column: usize) -> Result<(), AllocError>
    ensures { OnOk result (string_bytes out.new
        ≡ string_bytes out.old ++ indentation empty column) }
{
    put_lines(out, empty)?;
    put_spaces(out, column)
}

/// Writes a gap between two entries.
fn put_gap(out: &mut String, gap: Gap) -> Result<(), AllocError>
    ensures { OnOk result (string_bytes out.new ≡ string_bytes out.old ++ gap_text gap) }
{
    match gap {
        Gap::Beside(width) => put_spaces(out, width),
        Gap::Tabbed(0) => Ok(()),
        Gap::Tabbed(width) => {
            out.push_str("\t")?;
            put_spaces(out, width - 1)
        }
        Gap::Below(empty, column) => {
            out.push_str("\n")?;
            put_indentation(out, empty, column)
        }
    }
}

fn put_start(out: &mut String, gap: Gap) -> Result<(), AllocError>
    ensures { OnOk result (string_bytes out.new ≡ string_bytes out.old ++ start_text gap) }
{
    match gap {
        Gap::Beside(_) | Gap::Tabbed(_) => Ok(()),
        Gap::Below(empty, column) => put_indentation(out, empty, column),
    }
}

/// Writes a lexeme: a line comment without the spaces and tabs at its end, any other as it is.
pub(crate) fn put_lexeme(out: &mut String, lexeme: &Lexeme) -> Result<(), AllocError>
    ensures { OnOk result (string_bytes out.new
        ≡ string_bytes out.old ++ spelling (tidied (lexeme_of lexeme.now))) }
{
    match lexeme {
        Lexeme::Opening => out.push_str("("),
        Lexeme::Closing => out.push_str(")"),
        Lexeme::At => out.push_str("@"),
        Lexeme::Atom(text) => out.push_str(text),
        Lexeme::LineComment(text) => {
            out.push_str(";")?;
            out.push_str(trimmed(text))
        }
        Lexeme::BlockComment(text) => {
            out.push_str("(;")?;
            out.push_str(text)
        }
    }
}

/// Writes a gap after an entry of the kind `before`, or at the start of a text.
pub(crate) fn put_gap_after(out: &mut String, before: Kind, gap: Gap) -> Result<(), AllocError>
    ensures { OnOk result (string_bytes out.new
        ≡ string_bytes out.old ++ gap_text_from before gap) }
{
    match before {
        Kind::Start => put_start(out, gap),
        _ => put_gap(out, gap),
    }
}

/// Writes the last line end of a text, unless it has no entries.
pub(crate) fn put_final(out: &mut String, before: Kind) -> Result<(), AllocError>
    ensures { OnOk result (string_bytes out.new ≡ string_bytes out.old ++ text_from before []) }
{
    match before {
        Kind::Start => Ok(()),
        _ => out.push_str("\n"),
    }
}
