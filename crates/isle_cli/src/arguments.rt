//! The arguments of a command line: options, which may stand anywhere, and names.

ghost use Rattle.std.specs.Prelude.{◌≡◌, ◌⊎◌, ◌++◌, IfErr, IfOk, None, OnOk, Some, map};
ghost use Rattle.std.specs.Prelude.{option_to_list, string_bytes};
ghost use Rattle.std.specs.Option.{option_copied, option_map};
ghost use Rattle.isle_cli.specs.Arguments.{anything_awaited, asked, awaited_of, given};
ghost use Rattle.isle_cli.specs.Arguments.{given_of, gives_either, gives_flag, is_among};
ghost use Rattle.isle_cli.specs.Arguments.{is_flag, is_name, is_setting, is_this_flag};
ghost use Rattle.isle_cli.specs.Arguments.{excluded, joined_setting, last_setting, name_list};
ghost use Rattle.isle_cli.specs.Arguments.{parts_at_equals, request_of, setting_list, stdin_name};
ghost use Rattle.isle_cli.specs.Arguments.{taken, taken_of};
ghost use Rattle.isle_cli.specs.declared.failure.Failure.TheVariants.{Memory, Usage};

use crate::failure::Failure;
use std::alloc::{AllocError, Global};

/// The name that stands for standard input.
pub const INPUT_NAME: &str = "<stdin>";

/// The option that leaves files and folders out of the folders of the command line; it may be
/// repeated.
pub const EXCLUDE_OPTION: &str = "--exclude";

/// The options of a program, besides `--help` and `-h`, `--version` and `-V`, and
/// `--stdin-name NAME`, which every program accepts.
#[derive(Clone, Copy)]
pub struct Options {
    /// The options without a value, such as `--check`.
    pub flags: &'static [&'static str],
    /// The options with a value, such as `--width`. The value is the next word, or follows `=` in
    /// the option's word.
    pub settings: &'static [&'static str],
}

/// An argument: a word of the command line, or an option with its value.
#[derive(Drop)]
pub enum Argument {
    /// An option without a value.
    Flag(String),
    /// An option and its value.
    Setting(String, String),
    /// A name; `-` stands for standard input.
    Name(String),
}

/// What the user asks for.
#[derive(Drop)]
pub enum Request {
    /// Print the help.
    Help,
    /// Print the version.
    Version,
    /// Do the program's work with these arguments.
    Work(Vec<Argument>),
}

/// What the next word may be.
#[derive(Drop)]
enum Awaited {
    /// An option, or a name.
    Anything,
    /// The value of this option.
    Value(String),
    /// A name, whatever it begins with.
    Names,
}

/// The argument that a word completes, if any, and what the next word may be.
#[derive(Drop)]
struct Taken {
    argument: Option<Argument>,
    awaited: Awaited,
}

/// Parses the words of a command line, without the program's name.
///
/// Options may stand anywhere among the names; after `--` every word is a name. A word that begins
/// with `-` is an option, except `-` alone, which is a name. An option may be repeated.
///
/// The value of an option is the next word, or follows the first `=` of the option's word.
///
/// It fails with `Usage` if an option is unknown or its value is missing, and with `Memory`.
/// Otherwise `--help` takes precedence over `--version`, and both over the work.
pub fn requested(alloc: Global, options: &Options, words: &[String]) -> Result<Request, Failure>
    ensures ok { IfOk result (λ request. asked options.now (map string_bytes words.now)
        ≡ Some (request_of request)) }
    ensures err { IfErr result (λ failure. (failure ≡ Memory)
        ⊎ (failure ≡ Usage) × (asked options.now (map string_bytes words.now) ≡ None)) }
{
    let arguments = arguments_of(alloc, options, words)?;
    if has_either(&arguments, "--help", "-h") {
        return Ok(Request::Help);
    }
    if has_either(&arguments, "--version", "-V") {
        return Ok(Request::Version);
    }
    Ok(Request::Work(arguments))
}

/// Parses options and names.
fn arguments_of(
    alloc: Global,
    options: &Options,
    words: &[String],
) -> Result<Vec<Argument>, Failure>
    ensures ok { IfOk result (λ arguments. given options.now anything_awaited
        (map string_bytes words.now) ≡ Some (map given_of arguments.items)) }
    ensures err { IfErr result (λ failure. (failure ≡ Memory) ⊎ (failure ≡ Usage)
        × (given options.now anything_awaited (map string_bytes words.now) ≡ None)) }
{
    let mut arguments = Vec::new(alloc);
    let mut awaited = Awaited::Anything;
    for word in words {
        let taken = take(alloc, options, awaited, word.as_str())?;
        awaited = taken.awaited;
        push_argument(&mut arguments, taken.argument)?;
    }
    match awaited {
        Awaited::Value(_) => Err(Failure::Usage),
        Awaited::Anything => Ok(arguments),
        Awaited::Names => Ok(arguments),
    }
}

/// Adds the argument that a word completes, if any.
fn push_argument(
    arguments: &mut Vec<Argument>,
    argument: Option<Argument>,
) -> Result<(), AllocError>
    ensures { OnOk result (map given_of arguments.new.items
        ≡ map given_of arguments.old.items ++ option_to_list (option_map given_of argument)) }
{
    match argument {
        Some(argument) => Ok(arguments.push(argument)?),
        None => Ok(()),
    }
}

/// Parses one word.
fn take(alloc: Global, options: &Options, awaited: Awaited, word: &str) -> Result<Taken, Failure>
    ensures ok { IfOk result (λ next. taken options.now (awaited_of awaited) word.now
        ≡ Some (taken_of next)) }
    ensures err { IfErr result (λ failure. (failure ≡ Memory) ⊎ (failure ≡ Usage)
        × (taken options.now (awaited_of awaited) word.now ≡ None)) }
{
    let word = String::from_str(alloc, word)?;
    match awaited {
        Awaited::Anything => take_any(alloc, options, word),
        Awaited::Value(option) => Ok(Taken {
            argument: Some(Argument::Setting(option, word)),
            awaited: Awaited::Anything,
        }),
        Awaited::Names => Ok(Taken {
            argument: Some(Argument::Name(word)),
            awaited: Awaited::Names,
        }),
    }
}

/// Parses a word that may be an option or a name.
fn take_any(alloc: Global, options: &Options, word: String) -> Result<Taken, Failure>
    ensures ok { IfOk result (λ next. taken options.now anything_awaited (string_bytes word)
        ≡ Some (taken_of next)) }
    ensures err { IfErr result (λ failure. (failure ≡ Memory) ⊎ (failure ≡ Usage)
        × (taken options.now anything_awaited (string_bytes word) ≡ None)) }
{
    if word.as_str() == "--" {
        return Ok(Taken {
            argument: None,
            awaited: Awaited::Names,
        });
    }
    if options.is_setting(word.as_str()) {
        return Ok(Taken {
            argument: None,
            awaited: Awaited::Value(word),
        });
    }
    if options.is_flag(word.as_str()) {
        return Ok(Taken {
            argument: Some(Argument::Flag(word)),
            awaited: Awaited::Anything,
        });
    }
    if let Some(setting) = joined_setting(alloc, options, word.as_str())? {
        return Ok(Taken {
            argument: Some(setting),
            awaited: Awaited::Anything,
        });
    }
    if is_name_word(word.as_str()) {
        return Ok(Taken {
            argument: Some(Argument::Name(word)),
            awaited: Awaited::Anything,
        });
    }
    Err(Failure::Usage)
}

/// The option and its value in a word such as `--width=60`, if the part before its first `=` is an
/// option with a value.
fn joined_setting(
    alloc: Global,
    options: &Options,
    word: &str,
) -> Result<Option<Argument>, AllocError>
    ensures { IfOk result (λ argument. option_map given_of argument
        ≡ joined_setting options.now word.now) }
{
    match parts_at_equals(word) {
        Some((option, value)) if options.is_setting(option) => {
            let option = String::from_str(alloc, option)?;
            let value = String::from_str(alloc, value)?;
            Ok(Some(Argument::Setting(option, value)))
        }
        _ => Ok(None),
    }
}

/// The parts of a word before and after its first `=`.
pub(crate) fn parts_at_equals(word: &str) -> Option<(&str, &str)>
    ensures { option_map (λ parts. (parts.0.now, parts.1.now)) result
        ≡ parts_at_equals word.now }
{
    word.split_once('=')
}

impl Options {
    /// Returns whether a word is an option without a value.
    pub(crate) fn is_flag(&self, word: &str) -> bool
        ensures { result ≡ is_flag self.now word.now }
    {
        word == "--help"
            || word == "-h"
            || word == "--version"
            || word == "-V"
            || is_among(self.flags, word)
    }

    /// Returns whether a word is an option with a value.
    pub(crate) fn is_setting(&self, word: &str) -> bool
        ensures { result ≡ is_setting self.now word.now }
    {
        word == "--stdin-name" || is_among(self.settings, word)
    }
}

fn is_among(words: &[&str], word: &str) -> bool
    ensures { result ≡ is_among (map (λ other. other.now) words.now) word.now }
{
    for other in words {
        if *other == word {
            return true;
        }
    }
    false
}

/// Returns whether a word is no option: it is `-`, or does not begin with `-`.
pub(crate) fn is_name_word(word: &str) -> bool
    ensures { result ≡ is_name word.now }
{
    word == "-" || !word.starts_with('-')
}

/// Returns whether an option without a value is given, in full or by its letter.
fn has_either(arguments: &[Argument], flag: &str, letter: &str) -> bool
    ensures { result ≡ gives_either flag.now letter.now (map given_of arguments.now) }
{
    has_flag(arguments, flag) || has_flag(arguments, letter)
}

/// Returns whether an option without a value is given.
pub fn has_flag(arguments: &[Argument], flag: &str) -> bool
    ensures { result ≡ gives_flag flag.now (map given_of arguments.now) }
{
    for argument in arguments {
        if argument.is_this_flag(flag) {
            return true;
        }
    }
    false
}

/// The value of an option, if it is given: the last one.
pub fn setting_of<'a>(arguments: &'a [Argument], option: &str) -> Option<&'a str>
    ensures { option_copied result ≡ last_setting option.now None (map given_of arguments.now) }
{
    let mut value = None;
    for argument in arguments {
        if let Argument::Setting(name, given) = argument {
            if name.as_str() == option {
                value = Some(given.as_str());
            }
        }
    }
    value
}

/// The name of standard input: the value of `--stdin-name`, or `<stdin>`.
pub fn stdin_name_of(arguments: &[Argument]) -> &str
    ensures { result.now ≡ stdin_name (map given_of arguments.now) }
{
    setting_of(arguments, "--stdin-name").unwrap_or(INPUT_NAME)
}

/// The patterns of `--exclude`, in order.
pub fn excluded_of(alloc: Global, arguments: &[Argument]) -> Result<Vec<String>, AllocError>
    ensures { IfOk result (λ patterns. map string_bytes patterns.items
        ≡ excluded (map given_of arguments.now)) }
{
    settings_of(alloc, arguments, EXCLUDE_OPTION)
}

/// The values of an option, in order.
pub fn settings_of(
    alloc: Global,
    arguments: &[Argument],
    option: &str,
) -> Result<Vec<String>, AllocError>
    ensures { IfOk result (λ values. map string_bytes values.items
        ≡ setting_list option.now (map given_of arguments.now)) }
{
    let mut values = Vec::new(alloc);
    for argument in arguments {
        if let Argument::Setting(name, value) = argument {
            if name.as_str() == option {
                values.push(value.clone()?)?;
            }
        }
    }
    Ok(values)
}

/// The names, in order.
pub fn names_of(alloc: Global, arguments: &[Argument]) -> Result<Vec<String>, AllocError>
    ensures { IfOk result (λ names. map string_bytes names.items
        ≡ name_list (map given_of arguments.now)) }
{
    let mut names = Vec::new(alloc);
    for argument in arguments {
        if let Argument::Name(name) = argument {
            names.push(name.clone()?)?;
        }
    }
    Ok(names)
}

impl Argument {
    /// Returns whether the argument is this option without a value.
    fn is_this_flag(&self, word: &str) -> bool
        ensures { result ≡ is_this_flag word.now (given_of self.now) }
    {
        match self {
            Argument::Flag(flag) => flag.as_str() == word,
            Argument::Setting(..) | Argument::Name(_) => false,
        }
    }
}
