//! The command line: the help, and the lints that the options enable.

ghost use Rattle.std.specs.Prelude.{◌≡◌, ◌⊎◌, IfErr, IfOk, OnOk, false};
ghost use Rattle.std.specs.Prelude.{filter, map, true};
ghost use Rattle.std.specs.Option.{option_copied};
ghost use Rattle.isle_cli.specs.Arguments.{given_of};
ghost use Rattle.isle_cli.specs.declared.failure.Failure.TheVariants.{Memory, Usage};
ghost use Rattle.isle_lint.specs.Options.{are_usable, is_asked_for, is_lint_option};
ghost use Rattle.isle_lint.specs.Options.{is_lint_usable, is_on, is_usable, is_warned, lints_on};
ghost use Rattle.isle_lint.specs.Options.{names_lint, unknown_lint};
ghost use Rattle.isle_program_manifest.specs.Levels.{name_level_of};

use isle_cli::arguments::{Argument, has_flag};
use isle_cli::failure::Failure;
use isle_cli::version;
use isle_lint_core::Lint;
use isle_program::reports::colours::is_colour_usable;
use isle_program::reports::format::is_format_usable;
use isle_program_findings::naming::{counts, is_named};
use isle_program_manifest::levels::NameLevel;
use std::alloc::{AllocError, Global};

/// The version.
pub const VERSION: &str = version!("isle-lint");

/// The help.
pub const HELP: &str = "\
usage: isle-lint [--all] [--lint NAME] [--allow NAME] [--warn NAME] [--deny NAME]
                 [--message-format FORMAT] [--color WHEN] [--exclude PATTERN] [--stdin-name NAME]
                 [--program NAME] [--all-programs] [FILE ..]

Lints ISLE source: finds what the compiler accepts but is likely a mistake. For what it rejects, use
isle-check.

All files are linted as one program. A folder stands for every .isle file below it, and - for
standard input. With no FILE, standard input is linted.

With --program or --all-programs, programs of the nearest isle.toml are linted, each by itself. It
is looked for in the current folder and above it, or in the one folder that is given. The file may
give levels to lints in a table [lints.isle-lint]: allow, warn or deny, as the options of these
names do. An option that names a lint takes precedence over its level.

Options:
  --all                    enable all lints
  --lint NAME              enable a lint; may be repeated
  --allow NAME             disable a lint; may be repeated, and takes precedence over the others
  --warn NAME              enable a lint, but let its findings leave the exit status at 0;
                           may be repeated
  --deny NAME              enable a lint, and let its findings count, also after --warn;
                           may be repeated
  --message-format FORMAT  write findings as human (the default), json or github
  --color WHEN             colour findings for people: always, never or auto (the default), which
                           is where standard output is a terminal and NO_COLOR is unset or empty;
                           with several, the last counts
  --exclude PATTERN        leave out of folders what the pattern matches; may be repeated
  --stdin-name NAME        use NAME for standard input in messages
  --program NAME           lint this program of isle.toml; may be repeated
  --all-programs           lint all programs of isle.toml
  --                       treat all later arguments as files
  -h, --help               print this help
  -V, --version            print the version

With json, each line is an object with the file, line, column, severity, kind and message. With
github, it is a workflow command that makes GitHub annotate the line.

The comment `; isle-lint: allow NAME` above a definition disables a lint for it.

Lints that are enabled by default:
  unused-let               a variable of a let is never used
  duplicate-rule-name      an earlier rule has the same name
Other lints:
  unused-binding           the variable before an @ is never used
  unused-pattern-variable  a variable of a pattern is never used
  shadowed-variable        a variable of a let hides another of the same name

Exit status:
  0  nothing was found, or only what --warn names
  1  something else was found, or an input does not parse
  2  usage error, or a mistake in isle.toml
  3  an input cannot be read, or is not UTF-8, or a folder has no .isle file
  4  out of memory
  5  the output cannot be written
";

/// The lints that the arguments enable.
///
/// It fails with `Usage` if `--lint`, `--allow`, `--warn` or `--deny` names no lint,
/// `--message-format` no format, or `--color` no choice, and with `Memory`.
pub fn lints_of(alloc: Global, arguments: &[Argument]) -> Result<Vec<Lint>, Failure>
    ensures ok { IfOk result (λ lints. lints.items ≡ lints_on (map given_of arguments.now)) }
    ensures usable { OnOk result (are_usable (map given_of arguments.now) ≡ true) }
    ensures err { IfErr result (λ failure. (failure ≡ Memory) ⊎ (failure ≡ Usage)
        × (are_usable (map given_of arguments.now) ≡ false)) }
{
    if !are_usable(arguments) {
        return Err(Failure::Usage);
    }
    let lints = on_among(alloc, arguments, &Lint::ALL)?;
    Ok(lints)
}

/// Those of the lints that are enabled.
fn on_among(alloc: Global, arguments: &[Argument], lints: &[Lint]) -> Result<Vec<Lint>, AllocError>
    ensures { IfOk result (λ on. on.items ≡ filter (is_on (map given_of arguments.now)) lints.now) }
{
    let mut on = Vec::new(alloc);
    for lint in lints {
        if is_on(arguments, *lint) {
            on.push(*lint)?;
        }
    }
    Ok(on)
}

/// The first name among levels that is no lint's.
pub fn unknown_lint(levels: &[NameLevel]) -> Option<&str>
    ensures { option_copied result ≡ unknown_lint (map name_level_of levels.now) }
{
    for level in levels {
        if Lint::named(level.name.as_str()).is_none() {
            return Some(level.name.as_str());
        }
    }
    None
}

/// Returns whether each option for lints names one, each `--message-format` a format, and
/// each `--color` a choice.
pub fn are_usable(arguments: &[Argument]) -> bool
    ensures { result ≡ are_usable (map given_of arguments.now) }
{
    for argument in arguments {
        if !is_usable(argument) {
            return false;
        }
    }
    true
}

/// Returns whether an argument names a lint, a format or a choice of colours, if it has to.
fn is_usable(argument: &Argument) -> bool
    ensures { result ≡ is_usable (given_of argument.now) }
{
    match argument {
        Argument::Setting(option, value) => {
            is_lint_usable(option.as_str(), value.as_str())
                && is_format_usable(option.as_str(), value.as_str())
                && is_colour_usable(option.as_str(), value.as_str())
        }
        Argument::Flag(_) | Argument::Name(_) => true,
    }
}

/// Returns whether the value of an option names a lint, if it has to.
fn is_lint_usable(option: &str, value: &str) -> bool
    ensures { result ≡ is_lint_usable option.now value.now }
{
    !is_lint_option(option) || Lint::named(value).is_some()
}

/// Returns whether the value of an option names a lint.
fn is_lint_option(option: &str) -> bool
    ensures { result ≡ is_lint_option option.now }
{
    option == "--lint" || option == "--allow" || option == "--warn" || option == "--deny"
}

/// Returns whether a lint is enabled: `--allow` does not name it, and `--lint`, `--warn`, `--deny`,
/// `--all` or the default enable it.
fn is_on(arguments: &[Argument], lint: Lint) -> bool
    ensures { result ≡ is_on (map given_of arguments.now) lint }
{
    if names_lint(arguments, "--allow", lint) {
        return false;
    }
    if is_asked_for(arguments, lint) {
        return true;
    }
    lint.is_default() || has_flag(arguments, "--all")
}

/// Returns whether an option that enables a lint names this one.
fn is_asked_for(arguments: &[Argument], lint: Lint) -> bool
    ensures { result ≡ is_asked_for (map given_of arguments.now) lint }
{
    names_lint(arguments, "--lint", lint)
        || names_lint(arguments, "--warn", lint)
        || names_lint(arguments, "--deny", lint)
}

/// Returns whether some argument is this option with this lint.
fn names_lint(arguments: &[Argument], option: &str, lint: Lint) -> bool
    ensures { result ≡ names_lint option.now lint (map given_of arguments.now) }
{
    is_named(arguments, option, lint.name())
}

/// Returns whether the findings of a lint leave the exit status at 0: of `--warn` and `--deny`, the
/// last one that names it is `--warn`.
pub fn is_warned(arguments: &[Argument], lint: Lint) -> bool
    ensures { result ≡ is_warned (map given_of arguments.now) lint }
{
    !counts(arguments, lint.name(), true)
}
