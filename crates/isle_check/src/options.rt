//! The command line: the help, and the kinds of findings that are allowed.

ghost use Rattle.std.specs.Prelude.{◌≡◌, codes, map};
ghost use Rattle.std.specs.Option.{option_copied};
ghost use Rattle.isle_cli.specs.Arguments.{given_of};
ghost use Rattle.isle_check.specs.Options.{are_usable, is_kind_option, is_kind_usable, is_usable};
ghost use Rattle.isle_check.specs.Options.{unknown_kind};
ghost use Rattle.isle_program_manifest.specs.Levels.{name_level_of};

use isle_check_core::is_kind;
use isle_cli::arguments::Argument;
use isle_cli::version;
use isle_program::reports::colours::is_colour_usable;
use isle_program::reports::format::is_format_usable;
use isle_program_manifest::levels::NameLevel;

/// The version.
pub const VERSION: &str = version!("isle-check");

/// The help.
pub const HELP: &str = "\
usage: isle-check [--allow KIND] [--warn KIND] [--deny KIND] [--message-format FORMAT]
                  [--color WHEN] [--exclude PATTERN] [--stdin-name NAME] [--program NAME]
                  [--all-programs] [FILE ..]

Checks a complete ISLE program, as the compiler does before it makes code. All files are one
program. A folder stands for every .isle file below it, and - for standard input. With no FILE,
standard input is checked.

The errors come in groups. Those of a group are reported only if no earlier group has any, and
warnings only if there is no error. Lines that begin with note: belong to the error before them.

With --program or --all-programs, programs of the nearest isle.toml are checked, each by itself. It
is looked for in the current folder and above it, or in the one folder that is given. The file may
give levels to kinds in a table [lints.isle-check]: allow, warn or deny, as the options of these
names do. An option that names a kind takes precedence over its level.

Options:
  --allow KIND             leave out findings of this kind; may be repeated
  --warn KIND              report errors of this kind as warnings; may be repeated
  --deny KIND              report warnings of this kind as errors, also after --warn;
                           may be repeated
  --message-format FORMAT  write findings as human (the default), json or github
  --color WHEN             colour findings for people: always, never or auto (the default), which
                           is where standard output is a terminal and NO_COLOR is unset or empty;
                           with several, the last counts
  --exclude PATTERN        leave out of folders what the pattern matches; may be repeated
  --stdin-name NAME        use NAME for standard input in messages
  --program NAME           check this program of isle.toml; may be repeated
  --all-programs           check all programs of isle.toml
  --print-programs         check nothing, but print each program of isle.toml with its files
  --                       treat all later arguments as files
  -h, --help               print this help
  -V, --version            print the version

With json, each line is an object with the file, line, column, severity, kind and message. With
github, it is a workflow command that makes GitHub annotate the line.

Errors of types and constants:
  duplicate-type           a type has the name of an earlier one, or of a built-in type
  built-in-type            a type has the name of a built-in type
  nodebug-primitive        a primitive type is marked nodebug
  extern-primitive         a primitive type is marked extern
  extern-nodebug           a type is marked both extern and nodebug
  duplicate-variant        a type has two variants of one name
  duplicate-field          a variant has two fields of one name
  unknown-field-type       the type of a field is not known
  unknown-constant-type    the type of a constant is not known
Errors of declared terms:
  duplicate-declaration    a term is declared twice
  multi-partial            a term is declared both multi and partial
  unknown-argument-type    the type of an argument is not known
  unknown-result-type      the type of a result is not known
  duplicate-variant-term   a variant has the full name of a declared term, or of another variant
Errors of the roots of rules, and of extractors:
  rule-without-term           the left side of a rule is not a term
  rule-for-unknown-term       a rule defines a term that is not declared
  rule-for-variant            a rule defines a variant
  extractor-for-unknown-term  an extractor is that of a term that is not declared
  unknown-term-in-extractor   an extractor uses a term that is not known
  extractor-for-variant       an extractor is that of a variant
  extractor-for-multi-term    an extractor is that of a multi term
  duplicate-extractor         a term has two extractors
  recursive-extractor         an extractor uses itself, or one that does
Errors of converters:
  unknown-inner-type    the inner type is not known
  unknown-outer-type    the outer type is not known
  unknown-converter     the term is not known
  duplicate-converter   two types have two converters
Errors of external definitions:
  constructor-for-unknown-term         the term of an external constructor is not declared
  constructor-for-variant              an external constructor is that of a variant
  constructor-with-rules               a term has rules and an external constructor
  duplicate-constructor                a term has two external constructors
  external-extractor-for-unknown-term  the term of an external extractor is not declared
  external-extractor-for-variant       an external extractor is that of a variant
  two-extractors                       a term has an external extractor and an internal one
  duplicate-external-extractor         a term has two external extractors
Errors of rules:
  integer-type           an integer stands for a value of a type that has no integers
  integer-without-type   an integer stands where no type is known
  boolean-type           true or false stands for a value of another type
  unknown-constant       a constant is not known
  constant-type          a constant stands for a value of another type
  rebound-variable       the variable of a @ is bound already
  variable-type          a variable stands for a value of another type
  unknown-variable       a variable is not known
  unknown-variable-type  the type of a variable of a let is not known
  unknown-term           a term is not known
  term-type              a term stands for a value of another type
  argument-count         a term has another number of arguments than is declared
  no-extractor           a term in a pattern has no extractor
  no-constructor         a term in an expression has no constructor
  undefined-term         a declared term has no rules, no extractor and no external definition
  impure-term            a term that is not pure stands where only pure ones may
  multi-term             a multi term stands in a rule of a term that is not multi
  partial-term           a partial term stands where none may
  multi-priority         a rule of a multi term has a priority
  macro-argument         a macro argument stands in a rule
  deep-rule              a rule nests too deeply to be checked
Errors of rules beside one another:
  unreachable-rule  a rule would match two different values at one place
  rule-overlap      rules of one priority can match the same values
  rule-shadow       a rule matches all that others of lower priorities match
Warnings:
  duplicate-constant             a constant is declared twice, and its last type counts
  extractor-parameters           an extractor has more or fewer parameters than its term arguments
  endless-conversion             a conversion of types does not come to an end
  dropped-pattern                a pattern's extractor has a parameter without an argument
  condition-without-constructor  a term in a condition has no constructor
  multi-extractor                a multi extractor is used in a rule of a term that is not multi
  part-of-itself                 a rule would match a value that is a part of itself
  shadow-with-equal-values       a rule matches all that others of lower priorities match, which
                                 ask for equal values

Exit status:
  0  no error was found
  1  an error was found, or an input does not parse
  2  usage error, or a mistake in isle.toml
  3  an input cannot be read, or is not UTF-8, or a folder has no .isle file
  4  out of memory
  5  the output cannot be written
";

/// Returns the first name among levels that is no kind's.
pub fn unknown_kind(levels: &[NameLevel]) -> Option<&str>
    ensures { option_copied result ≡ unknown_kind (map name_level_of levels.now) }
{
    for level in levels {
        if !is_kind(level.name.as_str()) {
            return Some(level.name.as_str());
        }
    }
    None
}

/// Returns whether each option for kinds names one, each `--message-format` a format, and
/// each `--color` a choice.
pub fn are_usable(arguments: &[Argument]) -> bool
    ensures { result ≡ are_usable (map given_of arguments.now) }
{
    for argument in arguments {
        if !is_usable(argument) {
            return false;
        }
    }
    true
}

/// Returns whether an argument names a kind, a format or a choice of colours, if it has to.
fn is_usable(argument: &Argument) -> bool
    ensures { result ≡ is_usable (given_of argument.now) }
{
    match argument {
        Argument::Setting(option, value) => {
            is_kind_usable(option.as_str(), value.as_str())
                && is_format_usable(option.as_str(), value.as_str())
                && is_colour_usable(option.as_str(), value.as_str())
        }
        Argument::Flag(_) | Argument::Name(_) => true,
    }
}

/// Returns whether the value of an option names a kind, if it has to.
fn is_kind_usable(option: &str, value: &str) -> bool
    ensures { result ≡ is_kind_usable option.now value.now }
{
    !is_kind_option(option) || is_kind(value)
}

fn is_kind_option(option: &str) -> bool
    ensures { result ≡ is_kind_option option.now }
{
    option == "--allow" || option == "--warn" || option == "--deny"
}
