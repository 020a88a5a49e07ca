//! The format of messages.

ghost use Rattle.std.specs.Prelude.{◌≡◌, map};
ghost use Rattle.isle_cli.specs.Arguments.{given_of};
ghost use Rattle.isle_program.specs.reports.Formats.{format_in, format_named, is_format_usable};
ghost use Rattle.isle_program.specs.reports.Formats.{human_in, named_in, with_colour};

use crate::reports::colours::{Colour, colour_of};
use isle_cli::arguments::{Argument, setting_of};

/// The option that names the format.
pub const FORMAT_OPTION: &str = "--message-format";

/// How messages are written.
#[derive(Clone, Copy)]
pub enum Format {
    /// Lines for people: `FILE:LINE:COLUMN: SEVERITY: MESSAGE [KIND]`.
    Human,
    /// The same with colours, as terminals show them.
    Coloured,
    /// A JSON object for each message, on a line of its own.
    Json,
    /// A workflow command of GitHub for each message.
    Github,
}

impl Format {
    /// The format of this name, or `None` if there is none.
    pub fn named(name: &str) -> Option<Format>
        ensures { result ≡ format_named name.now }
    {
        match name {
            "human" => Some(Format::Human),
            "json" => Some(Format::Json),
            "github" => Some(Format::Github),
            _ => None,
        }
    }
}

/// The format that the last `--message-format` names, or `Human` without one. It is `Human`, too,
/// if there is no format of that name. Where the last `--color` is `always`, it is `Coloured` in
/// place of `Human`.
pub fn format_of(arguments: &[Argument]) -> Format
    ensures { result ≡ format_in (map given_of arguments.now) }
{
    with_colour(colour_of(arguments), named_of(arguments))
}

/// The format, with colours where they are always wanted.
fn with_colour(colour: Colour, format: Format) -> Format
    ensures { result ≡ with_colour colour format }
{
    match format {
        Format::Human => human_in(colour),
        Format::Coloured => Format::Coloured,
        Format::Json => Format::Json,
        Format::Github => Format::Github,
    }
}

/// The format of lines for people.
fn human_in(colour: Colour) -> Format
    ensures { result ≡ human_in colour }
{
    match colour {
        Colour::Always => Format::Coloured,
        Colour::Auto => Format::Human,
        Colour::Never => Format::Human,
    }
}

/// The format that the last `--message-format` names, or `Human`.
fn named_of(arguments: &[Argument]) -> Format
    ensures { result ≡ named_in (map given_of arguments.now) }
{
    match setting_of(arguments, FORMAT_OPTION) {
        Some(name) => Format::named(name).unwrap_or(Format::Human),
        None => Format::Human,
    }
}

/// Returns whether the value of an option is the name of a format, if the option is that for the
/// format.
pub fn is_format_usable(option: &str, value: &str) -> bool
    ensures { result ≡ is_format_usable option.now value.now }
{
    option != FORMAT_OPTION || Format::named(value).is_some()
}
