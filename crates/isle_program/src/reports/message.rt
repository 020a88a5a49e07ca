//! A message, without its place.

ghost use Rattle.std.specs.Prelude.{◌≡◌, IfOk, string_bytes};
ghost use Rattle.isle_program.specs.reports.Messages.{kind_text, message_of, plain_text};
ghost use Rattle.isle_program.specs.reports.Messages.{severity_word, shown_text};

use std::alloc::{AllocError, Global};

/// How bad it is what a message tells.
#[derive(Clone, Copy)]
pub enum Severity {
    Error,
    Warning,
    /// It tells more of the error before.
    Note,
}

impl Severity {
    /// The word for it in a message.
    pub fn word(self) -> &'static str
        ensures { result.now ≡ severity_word self }
    {
        match self {
            Severity::Error => "error",
            Severity::Warning => "warning",
            Severity::Note => "note",
        }
    }
}

/// A message about a place.
#[derive(Clone, Copy)]
pub struct Message<'a> {
    pub severity: Severity,
    /// The name of its kind, such as a lint; empty if it has none.
    pub kind: &'a str,
    pub text: &'a str,
    /// The names of the programs that it is told of, as ` [x64, aarch64]`; empty if that is no
    /// matter.
    pub programs: &'a str,
}

/// The text with the kind, if there is one, and the programs: `TEXT [KIND] [PROGRAM, ..]`.
pub fn shown_text(alloc: Global, message: &Message) -> Result<String, AllocError>
    ensures { IfOk result (λ text. string_bytes text ≡ shown_text (message_of message.now)) }
{
    let (text, programs) = (message.text, message.programs);
    let kind = kind_text(alloc, message.kind)?;
    format!(in alloc; "{text}{kind}{programs}")
}

/// The kind in brackets; nothing for none.
fn kind_text(alloc: Global, kind: &str) -> Result<String, AllocError>
    ensures { IfOk result (λ text. string_bytes text ≡ kind_text kind.now) }
{
    if kind.is_empty() {
        return Ok(String::new(alloc));
    }
    format!(in alloc; " [{kind}]")
}

/// The text with the programs, but without the kind.
pub fn plain_text(alloc: Global, message: &Message) -> Result<String, AllocError>
    ensures { IfOk result (λ text. string_bytes text ≡ plain_text (message_of message.now)) }
{
    let (text, programs) = (message.text, message.programs);
    format!(in alloc; "{text}{programs}")
}
