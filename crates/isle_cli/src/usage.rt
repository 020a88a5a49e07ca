//! The messages of usage errors: the first unknown option, and the usage.

ghost use Rattle.std.specs.Prelude.{◌≡◌, Some, is_some, map, string_bytes};
ghost use Rattle.std.specs.Option.{option_copied, option_map};
ghost use Rattle.isle_cli.specs.Arguments.{anything_awaited, joined_setting, taken};
ghost use Rattle.isle_cli.specs.Failure.{status_of};
ghost use Rattle.isle_cli.specs.Streams.{AppendsBeginning};
ghost use Rattle.isle_cli.specs.Usage.{awaited_next, unknown_word, usage_behind, usage_text};
ghost use Rattle.isle_cli.specs.Usage.{words_text};

use crate::arguments::{Options, is_name_word, parts_at_equals};
use crate::failure::Failure;
use crate::program::{Program, report};
use crate::streams::write_whole;
use std::io;
use std::io::Write;

/// What the next word may be.
#[derive(Clone, Copy)]
enum Next<'a> {
    /// An option, or a name.
    Anything,
    /// The value of this option.
    Value(&'a str),
    /// A name, whatever it begins with.
    Names,
}

/// Writes the message of a failure of these words to standard error, and returns the exit status.
///
/// The message for `Usage` is the usage. If an option is unknown, the line
/// `PROGRAM: unknown option 'WORD'` comes before it, about the first one. Otherwise the message is
/// that of `report`. Errors of standard error are ignored: it then has a beginning of the message.
pub fn report_words<E: Write>(
    program: &Program,
    options: &Options,
    words: &[String],
    failure: &Failure,
    faults: &mut E,
) -> u8
    ensures status { result ≡ status_of failure.now }
    ensures text { AppendsBeginning (E.contents faults.old) (E.contents faults.new)
        (words_text program.now options.now (map string_bytes words.now) failure.now) }
{
    match failure {
        Failure::Usage => {
            let _ = write_usage(program, options, words, faults);
            failure.status()
        }
        _ => report(program, failure, faults),
    }
}

/// Writes the usage, after a line about the first unknown option, if there is one.
fn write_usage<E: Write>(
    program: &Program,
    options: &Options,
    words: &[String],
    faults: &mut E,
) -> io::Result<()>
    ensures { AppendsBeginning (E.contents faults.old) (E.contents faults.new)
        (usage_text program.now options.now (map string_bytes words.now)) }
{
    match unknown_word(options, words) {
        None => write_whole(faults, program.usage.as_bytes()),
        Some(word) => write_unknown(program, word, faults),
    }
}

/// Writes that an option is unknown, and the usage.
fn write_unknown<E: Write>(program: &Program, word: &str, faults: &mut E) -> io::Result<()>
    ensures { AppendsBeginning (E.contents faults.old) (E.contents faults.new)
        (usage_behind program.now (Some word.now)) }
{
    write_whole(faults, program.name.as_bytes())?;
    write_whole(faults, ": unknown option '".as_bytes())?;
    write_whole(faults, word.as_bytes())?;
    write_whole(faults, "'\n".as_bytes())?;
    write_whole(faults, program.usage.as_bytes())
}

/// The first word that looks like an option and is none of the program's, where an option may
/// stand.
pub fn unknown_word<'a>(options: &Options, words: &'a [String]) -> Option<&'a str>
    ensures { option_copied result
        ≡ unknown_word options.now anything_awaited (map string_bytes words.now) }
{
    let mut now = Next::Anything;
    for word in words {
        match options.next(now, word.as_str()) {
            Some(next) => now = next,
            None => return Some(word.as_str()),
        }
    }
    None
}

impl Options {
    /// What may follow a word; `None` if it is an unknown option.
    fn next<'a>(&self, now: Next<'a>, word: &'a str) -> Option<Next<'a>>
        ensures { option_map awaited_next result
            ≡ option_map (λ t. t.1) (taken self.now (awaited_next now.entry) word.now) }
    {
        match now {
            Next::Anything => self.next_any(word),
            Next::Value(_) => Some(Next::Anything),
            Next::Names => Some(Next::Names),
        }
    }

    /// What may follow a word that may be an option or a name; `None` if it is an unknown option.
    fn next_any<'a>(&self, word: &'a str) -> Option<Next<'a>>
        ensures { option_map awaited_next result
            ≡ option_map (λ t. t.1) (taken self.now anything_awaited word.now) }
    {
        if word == "--" {
            return Some(Next::Names);
        }
        if self.is_setting(word) {
            return Some(Next::Value(word));
        }
        if self.is_flag(word) || self.is_joined(word) || is_name_word(word) {
            return Some(Next::Anything);
        }
        None
    }

    /// Returns whether a word is an option and its value, such as `--width=60`.
    fn is_joined(&self, word: &str) -> bool
        ensures { result ≡ is_some (joined_setting self.now word.now) }
    {
        match parts_at_equals(word) {
            Some((option, _)) => self.is_setting(option),
            None => false,
        }
    }
}
