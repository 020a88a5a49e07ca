//! Messages of one line about positions in several texts, which are numbered from 0.

ghost use Rattle.std.specs.Prelude.{◌≡◌, IfOk, map, option_map, string_bytes};
ghost use Rattle.isle_base_source.specs.Lines.{line_ends};
ghost use Rattle.isle_cli.specs.Messages.{message_line};
ghost use Rattle.isle_cli.specs.Sources.{source_of};
ghost use Rattle.isle_program.specs.Messages.{line_at, line_of, shown_offset};

use isle_base::lexer::Pos;
use isle_base_source::files::LineMap;
use isle_cli::messages::message_line;
use isle_cli::sources::Source;
use std::alloc::{AllocError, Global};

/// The line of a message about a position; empty if no text has the number of its file.
pub fn line_at(
    alloc: Global,
    sources: &[Source],
    pos: Pos,
    kind: &str,
    message: &str,
) -> Result<String, AllocError>
    ensures { IfOk result (λ line. string_bytes line
        ≡ line_at (map source_of sources.now) pos kind.now message.now) }
{
    line_of(alloc, sources.get(pos.file), pos.offset, kind, message)
}

/// The line of a message about a byte offset; empty without a text.
fn line_of(
    alloc: Global,
    source: Option<&Source>,
    offset: usize,
    kind: &str,
    message: &str,
) -> Result<String, AllocError>
    ensures { IfOk result (λ line. string_bytes line
        ≡ line_of (option_map (λ s. source_of s.now) source.entry) offset kind.now message.now) }
{
    match source {
        Some(source) => {
            let lines = LineMap::from_str(alloc, source.text.as_str())?;
            place_line(alloc, source, &lines, offset, kind, message)
        }
        None => Ok(String::new(alloc)),
    }
}

/// The line of a message about a byte offset in a text. `lines` are the text's.
fn place_line(
    alloc: Global,
    source: &Source,
    lines: &LineMap,
    offset: usize,
    kind: &str,
    message: &str,
) -> Result<String, AllocError>
    requires { lines.now ≡ line_ends (string_bytes source.now.text) }
    ensures { IfOk result (λ line. string_bytes line
        ≡ message_line (source_of source.now) (shown_offset offset) kind.now message.now) }
{
    let offset = offset.min(usize::MAX - 1);
    let name = source.name.as_str();
    let text = source.text.as_str();
    message_line(alloc, name, text, lines, offset, kind, message)
}
