//! The command line: the help, and the options.

ghost use Rattle.std.specs.Prelude.{◌≡◌, IfErr, IfOk, map};
ghost use Rattle.isle_cli.specs.Arguments.{given_of};
ghost use Rattle.isle_cli.specs.declared.failure.Failure.TheVariants.{Usage};
ghost use Rattle.isle_expand.specs.Program.{AreOwn, GivesWidth, IsThis, given_width};

use isle_cli::arguments::{Argument, EXCLUDE_OPTION, Options, setting_of};
use isle_cli::failure::Failure;
use isle_cli::program::Program;
use isle_cli::version;
use isle_cli::words::{DEFAULT_WIDTH, parsed_width};

/// This program.
pub const PROGRAM: Program = Program {
    name: "isle-expand",
    usage: "usage: isle-expand [--width N] [--exclude PATTERN] [--stdin-name NAME] \
            [--program NAME] [FILE ..]\n",
    help: HELP,
    version: VERSION,
};

/// The version.
pub const VERSION: &str = version!("isle-expand");

/// The help.
pub const HELP: &str = "\
usage: isle-expand [--width N] [--exclude PATTERN] [--stdin-name NAME] [--program NAME]
                   [FILE ..]

Inlines every extractor of a complete ISLE program, and prints the result. Extractors, declarations
that only they define, and comments are dropped. The result should compile to the same code, except
in three cases, and each of those prints a warning.

The files are one program. A folder stands for every .isle file below it, and - for standard input.
With no FILE, standard input is expanded.

With --program, a program of the nearest isle.toml is expanded. It is looked for in the current
folder and above it, or in the one folder that is given.

Options:
  --width N          break lines that are wider than N bytes (78 by default)
  --exclude PATTERN  leave out of folders what the pattern matches; may be repeated
  --stdin-name NAME  use NAME for standard input in messages
  --program NAME     expand the program NAME of isle.toml
  --                 treat all later arguments as files
  -h, --help         print this help
  -V, --version      print the version

Exit status:
  0  success
  1  an input does not parse, or an extractor cannot be inlined
  2  usage error, or a mistake in isle.toml
  3  an input cannot be read, or is not UTF-8, or a folder has no .isle file,
     or there is no isle.toml
  4  out of memory
  5  the output cannot be written
";

/// `PROGRAM`, with a contract, since no clause can name a constant that holds references.
pub fn this_program() -> Program
    ensures { IsThis result }
{
    PROGRAM
}

/// Its own options.
pub fn own_options() -> Options
    ensures { AreOwn result }
{
    Options {
        flags: &[],
        settings: &["--width", EXCLUDE_OPTION],
    }
}

/// The width that the arguments give: the last value of `--width`, or 78.
///
/// It fails with `Usage` if that value is no width.
pub fn width_of(arguments: &[Argument]) -> Result<usize, Failure>
    ensures ok { IfOk result (λ width. GivesWidth (map given_of arguments.now)
        × (width ≡ given_width (map given_of arguments.now))) }
    ensures err { IfErr result (λ failure. (failure ≡ Usage)
        × (¬ (GivesWidth (map given_of arguments.now)))) }
{
    match setting_of(arguments, "--width") {
        Some(word) => parsed_width(word).ok_or(Failure::Usage),
        None => Ok(DEFAULT_WIDTH),
    }
}
