//! Colours of lines for people: when they are wanted, and their control sequences (ECMA-48).

ghost use Rattle.std.specs.Prelude.{◌≡◌, ◌++◌, [], ◌∷◌, IfOk, OnOk, codes, map, string_bytes};
ghost use Rattle.isle_cli.specs.Arguments.{given_of};
ghost use Rattle.isle_program.specs.reports.Colours.{colour_in, colour_named, coloured_line};
ghost use Rattle.isle_program.specs.reports.Colours.{is_auto, is_colour_usable, place_text};
ghost use Rattle.isle_program.specs.reports.Colours.{settled, severity_code, severity_text};
ghost use Rattle.isle_program.specs.reports.Colours.{styled};
ghost use Rattle.isle_program.specs.reports.Messages.{message_of};

use crate::reports::lines::Place;
use crate::reports::message::{Message, Severity, shown_text};
use isle_cli::arguments::{Argument, setting_of};
use std::alloc::{AllocError, Global};

/// The option that says when lines for people have colours.
pub const COLOUR_OPTION: &str = "--color";

/// When lines for people have colours.
#[derive(Clone, Copy)]
pub enum Colour {
    /// Where a terminal shows them.
    Auto,
    Always,
    Never,
}

impl Colour {
    /// The choice of this name, or `None` if there is none.
    pub fn named(name: &str) -> Option<Colour>
        ensures { result ≡ colour_named name.now }
    {
        match name {
            "auto" => Some(Colour::Auto),
            "always" => Some(Colour::Always),
            "never" => Some(Colour::Never),
            _ => None,
        }
    }

    /// Returns whether it is `Auto`.
    fn is_auto(self) -> bool
        ensures { result ≡ is_auto self }
    {
        match self {
            Colour::Auto => true,
            Colour::Always | Colour::Never => false,
        }
    }
}

/// The choice that the last `--color` names, or `Auto` without one. It is `Auto`, too, if there is
/// no choice of that name.
pub fn colour_of(arguments: &[Argument]) -> Colour
    ensures { result ≡ colour_in (map given_of arguments.now) }
{
    match setting_of(arguments, COLOUR_OPTION) {
        Some(name) => Colour::named(name).unwrap_or(Colour::Auto),
        None => Colour::Auto,
    }
}

/// Returns whether the value of an option is the name of a choice, if the option is that for
/// colours.
pub fn is_colour_usable(option: &str, value: &str) -> bool
    ensures { result ≡ is_colour_usable option.now value.now }
{
    option != COLOUR_OPTION || Colour::named(value).is_some()
}

/// Adds `--color always` where `auto` counts, and a terminal shows the lines.
pub fn settle(
    alloc: Global,
    is_terminal: bool,
    arguments: &mut Vec<Argument>,
) -> Result<(), AllocError>
    ensures { OnOk result (map given_of arguments.new.items
        ≡ settled is_terminal (map given_of arguments.old.items)) }
{
    if is_terminal && colour_of(arguments).is_auto() {
        let option = String::from_str(alloc, COLOUR_OPTION)?;
        let value = String::from_str(alloc, "always")?;
        arguments.push(Argument::Setting(option, value))?;
    }
    Ok(())
}

/// The line of a message about a place, with its line end: the place is bold, the word for the
/// severity is bold and in its colour, and the text is plain.
pub(crate) fn coloured_line(
    alloc: Global,
    name: &str,
    place: Place,
    message: &Message,
) -> Result<String, AllocError>
    ensures { IfOk result (λ line. string_bytes line
        ≡ coloured_line name.now place.line place.column (message_of message.now)) }
{
    let place = place_text(alloc, name, place)?;
    let severity = severity_text(alloc, message.severity)?;
    let shown = shown_text(alloc, message)?;
    format!(in alloc; "{place} {severity} {shown}\n")
}

/// `FILE:LINE:COLUMN:`.
fn place_text(alloc: Global, name: &str, place: Place) -> Result<String, AllocError>
    ensures { IfOk result (λ text. string_bytes text
        ≡ place_text name.now place.line place.column) }
{
    let (line, column) = (place.line, place.column);
    let text = format!(in alloc; "{name}:{line}:{column}:")?;
    styled(alloc, "1", text.as_str())
}

/// The word for a severity, with a colon.
fn severity_text(alloc: Global, severity: Severity) -> Result<String, AllocError>
    ensures { IfOk result (λ text. string_bytes text ≡ severity_text severity) }
{
    let word = severity.word();
    let text = format!(in alloc; "{word}:")?;
    styled(alloc, severity_code(severity), text.as_str())
}

/// The parameters for a severity: bold, and red, yellow or cyan.
fn severity_code(severity: Severity) -> &'static str
    ensures { result.now ≡ severity_code severity }
{
    match severity {
        Severity::Error => "1;31",
        Severity::Warning => "1;33",
        Severity::Note => "1;36",
    }
}

/// The text between the sequence with these parameters and the one that ends all styles.
fn styled(alloc: Global, code: &str, text: &str) -> Result<String, AllocError>
    ensures { IfOk result (λ all. string_bytes all ≡ styled code.now text.now) }
{
    format!(in alloc; "\u{1b}[{code}m{text}\u{1b}[0m")
}
