//! Places in the texts of a program.

ghost use Rattle.std.specs.Prelude.{◌≡◌, map, option_map};
ghost use Rattle.isle_lsp_features.specs.Programs.{question_of, text_of};
ghost use Rattle.isle_lsp_features.specs.Places as wanted;

use crate::{Question, Text};
use isle_base::lexer::Pos;
use isle_lsp_protocol::parameters::position_of;
use isle_lsp_text::positions::{PositionEncoding, offset_of};

/// A text of a program.
#[derive(Clone, Copy)]
pub struct File<'a> {
    /// How positions in the text are counted.
    pub encoding: PositionEncoding,
    /// Its number.
    pub number: usize,
    /// The text.
    pub text: &'a str,
}

/// A place in a program.
#[derive(Clone, Copy)]
pub struct Place<'a> {
    /// How positions in the text are counted.
    pub encoding: PositionEncoding,
    /// The number of its text, and the byte offset in it.
    pub pos: Pos,
    /// The text.
    pub text: &'a str,
}

/// The text of this file.
pub fn file_of<'a>(program: &[Text<'a>], name: &str) -> Option<File<'a>>
    ensures { option_map wanted.file_of result
        ≡ wanted.file_from 0 name.now (map text_of program.now) }
{
    for (number, source) in program.iter().enumerate() {
        if source.file == name {
            return Some(File {
                encoding: source.encoding,
                number,
                text: source.text,
            });
        }
    }
    None
}

/// The place that a request is about.
pub fn place_of<'a>(program: &[Text<'a>], question: Question) -> Option<Place<'a>>
    ensures { option_map wanted.place_of result
        ≡ wanted.place_in (question_of question.entry) (map text_of program.now) }
{
    match (
        file_of(program, question.file),
        position_of(question.message),
    ) {
        (Some(file), Some(position)) => Some(Place {
            encoding: file.encoding,
            pos: Pos::new(file.number, offset_of(file.encoding, file.text, position)),
            text: file.text,
        }),
        _ => None,
    }
}
