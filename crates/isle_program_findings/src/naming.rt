//! Options with the name of a lint, or of a kind of findings.

ghost use Rattle.std.specs.Prelude.{◌≡◌, map};
ghost use Rattle.isle_cli.specs.Arguments.{given_of};
ghost use Rattle.isle_program_findings.specs.Naming.{counts, counts_after, is_named, is_naming};

use isle_cli::arguments::Argument;

/// Returns whether some argument is this option with this name.
pub fn is_named(arguments: &[Argument], option: &str, name: &str) -> bool
    ensures { result ≡ is_named option.now name.now (map given_of arguments.now) }
{
    for argument in arguments {
        if is_naming(argument, option, name) {
            return true;
        }
    }
    false
}

/// Returns whether findings of this name count, if they do by themselves, or not: the last one of
/// `--warn` and `--deny` that names it decides.
pub fn counts(arguments: &[Argument], name: &str, by_itself: bool) -> bool
    ensures { result ≡ counts by_itself (map given_of arguments.now) name.now }
{
    let mut so_far = by_itself;
    for argument in arguments {
        so_far = counts_after(argument, name, so_far);
    }
    so_far
}

/// The same after an argument, if they count before it, or not.
fn counts_after(argument: &Argument, name: &str, before: bool) -> bool
    ensures { result ≡ counts_after name.now before (given_of argument.now) }
{
    if is_naming(argument, "--warn", name) {
        return false;
    }
    if is_naming(argument, "--deny", name) {
        return true;
    }
    before
}

/// Returns whether an argument is this option with this name.
fn is_naming(argument: &Argument, option: &str, name: &str) -> bool
    ensures { result ≡ is_naming option.now name.now (given_of argument.now) }
{
    match argument {
        Argument::Setting(given, value) => given.as_str() == option && value.as_str() == name,
        Argument::Flag(_) | Argument::Name(_) => false,
    }
}
