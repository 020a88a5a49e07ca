//! What a program says about itself and about its failures.

ghost use Rattle.std.specs.Prelude.{◌≡◌, ◌⊎◌, ◌++◌, IfErr, OnOk};
ghost use Rattle.std.specs.Io.KnownBytes.{Appends, Keeps};
ghost use Rattle.isle_cli.specs.Failure.{IsDiagnostic, status_of, text_of};
ghost use Rattle.isle_cli.specs.Streams.{AppendsBeginning, WritesBeginning};
ghost use Rattle.isle_cli.specs.declared.failure.Failure.TheVariants.{Output};

use crate::failure::Failure;
use crate::streams::write_whole;
use std::io;
use std::io::Write;

/// A program: its name, and the texts that it prints about itself.
#[derive(Clone, Copy)]
pub struct Program {
    /// Its name, with which its messages begin.
    pub name: &'static str,
    /// How to call it: one line, with its line end, for standard error after a usage error.
    pub usage: &'static str,
    /// The text of `--help`; empty if the program has no such option.
    pub help: &'static str,
    /// The text of `--version`; empty if the program has no such option.
    pub version: &'static str,
}

/// The text of `--version`: the name of a tool, the version of the tools, and in parentheses the
/// version of `cranelift-isle` whose syntax they accept.
#[macro_export]
macro_rules! version {
    ($name:literal) => {
        concat!($name, " 0.2.0 (ISLE 0.137.1)\n")
    };
}

/// Writes the message of a failure to standard error, and returns the exit status.
///
/// The message is the text of `Refused`, the usage for `Usage`, and otherwise the program's name
/// and the reason: `: input is unreadable or not UTF-8`, `: out of memory` or `: output failed`.
/// Errors of standard error are ignored: it then has a beginning of the message.
pub fn report<E: Write>(program: &Program, failure: &Failure, faults: &mut E) -> u8
    ensures status { result ≡ status_of failure.now }
    ensures text { AppendsBeginning (E.contents faults.old) (E.contents faults.new)
        (text_of program.now failure.now) }
{
    let _ = write_failure(program, failure, faults);
    failure.status()
}

/// Writes the message of a failure.
fn write_failure<E: Write>(program: &Program, failure: &Failure, faults: &mut E) -> io::Result<()>
    ensures { AppendsBeginning (E.contents faults.old) (E.contents faults.new)
        (text_of program.now failure.now) }
{
    match failure {
        Failure::Refused(text) => write_whole(faults, text.as_bytes()),
        Failure::Usage => write_whole(faults, program.usage.as_bytes()),
        Failure::Input => write_both(faults, program.name, ": input is unreadable or not UTF-8\n"),
        Failure::Memory => write_both(faults, program.name, ": out of memory\n"),
        Failure::Output => write_both(faults, program.name, ": output failed\n"),
    }
}

/// Writes two texts, the second only if all of the first was written.
fn write_both<W: Write>(writer: &mut W, first: &str, second: &str) -> io::Result<()>
    ensures { AppendsBeginning (W.contents writer.old) (W.contents writer.new)
        (first.now ++ second.now) }
{
    write_whole(writer, first.as_bytes())?;
    write_whole(writer, second.as_bytes())
}

/// Writes a text to the output. After an error the output has a beginning of it.
pub fn put<W: Write>(output: &mut W, text: &str) -> Result<(), Failure>
    ensures ok { OnOk result (Appends (W.contents output.old) (W.contents output.new) text.now) }
    ensures err { IfErr result (λ failure. (failure ≡ Output)
        × AppendsBeginning (W.contents output.old) (W.contents output.new) text.now) }
{
    match write_whole(output, text.as_bytes()) {
        Ok(()) => Ok(()),
        Err(_) => Err(Failure::Output),
    }
}

/// Writes a text to the output, such as that of `--help`, and returns the exit status: 0, or 5
/// after an error of the output, with a message on standard error.
pub fn tell<W: Write, E: Write>(program: &Program, text: &str, output: &mut W, faults: &mut E) -> u8
    ensures statuses { (result ≡ 0) ⊎ (result ≡ 5) }
    ensures done { result ≡ 0
        → Appends (W.contents output.old) (W.contents output.new) text.now }
    ensures cut { result ≡ 5
        → AppendsBeginning (W.contents output.old) (W.contents output.new) text.now }
    ensures quiet { result ≡ 0 → Keeps (E.contents faults.old) (E.contents faults.new) }
    ensures told { result ≡ 5 → WritesBeginning (E.contents faults.old) (E.contents faults.new)
        (IsDiagnostic program.now result) }
{
    match put(output, text) {
        Ok(()) => 0,
        Err(failure) => report(program, &failure, faults),
    }
}
