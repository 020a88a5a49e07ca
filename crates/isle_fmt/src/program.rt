//! The program, for any reader and writers.

ghost use Rattle.std.specs.Prelude.{◌≡◌, ◌≢◌, ◌≤◌, map, string_bytes, IfOk, IfErr, OnOk};
ghost use Rattle.std.specs.Io.KnownBytes.{Keeps};
ghost use Rattle.isle_syntax.specs.Format.{IsFormatted, IsRefused};
ghost use Rattle.isle_cli.specs.Streams.{ReadsText, Writes, WritesBeginning};
ghost use Rattle.isle_cli.specs.Words.{GiveWidth, given_width};
ghost use Rattle.isle_fmt.specs.Failure.{Explains, IsDiagnostic, IsFormatFailure, IsRefusal};
ghost use Rattle.isle_fmt.specs.Failure.{IsThis};

use isle_base::diagnostics::diagnostic;
use isle_cli::arguments::INPUT_NAME;
use isle_cli::failure::Failure;
use isle_cli::program::{Program, report};
use isle_cli::streams::{Streams, read_text, write_whole};
use isle_cli::words::width_of;
use isle_syntax::lexer::Fault;
use std::alloc::Global;
use std::io::{Read, Write};

/// This program. It has no options: every word but a width is a usage error.
pub const PROGRAM: Program = Program {
    name: "isle-fmt",
    usage: "usage: isle-fmt [WIDTH]\n",
    help: "",
    version: "",
};

/// `PROGRAM`, with a contract, since no clause can name a constant that holds references.
fn this_program() -> Program
    ensures { IsThis result }
{
    PROGRAM
}

/// Formats the input to the output, and returns the exit status.
///
/// `words` is the command line without the program's name. It is checked before anything is read.
/// The input is read whole before it is formatted, and nothing is written before the whole output
/// is ready.
///
/// | Status | When | Standard error gets |
/// |---|---|---|
/// | 0 | the formatted text is written | nothing |
/// | 1 | the input does not parse | the message, and the line of the error |
/// | 2 | there are several words, or one that is no width | `usage: isle-fmt [WIDTH]` |
/// | 3 | the input is unreadable | `isle-fmt: input is unreadable or not UTF-8` |
/// | 4 | out of memory | `isle-fmt: out of memory` |
/// | 5 | the output fails, after a beginning of the text | `isle-fmt: output failed` |
///
/// The line of the error comes after `<stdin>:LINE:COLUMN: `, both counted from 1.
///
/// A width is one or more ASCII digits, for a number of bytes that fits `usize`; it is 78 by
/// default. Errors of standard error do not change the status.
pub fn run<R: Read, W: Write, E: Write>(
    alloc: Global,
    words: &[String],
    streams: &mut Streams<R, W, E>,
) -> u8
    ensures statuses { result ≤ 5 }

    // Status 2 depends on the command line alone, and then nothing is read.
    ensures usage { result ≡ 2 → ¬ (GiveWidth (map string_bytes words.now)) }
    ensures width { result ≢ 2 → GiveWidth (map string_bytes words.now) }
    ensures unread { result ≡ 2
        → Keeps (R.remaining streams.old.input) (R.remaining streams.new.input) }

    // With status 0, 1 or 5 the input was valid UTF-8 and was read to its end.
    ensures formatted { result ≡ 0
        → ReadsText (R.remaining streams.old.input) (R.remaining streams.new.input)
        (λ text. Writes (W.contents streams.old.output) (W.contents streams.new.output)
        (IsFormatted (given_width (map string_bytes words.now)) text)) }
    ensures refused { result ≡ 1
        → ReadsText (R.remaining streams.old.input) (R.remaining streams.new.input)
        (λ text. IsRefused text
        × WritesBeginning (E.contents streams.old.faults) (E.contents streams.new.faults)
        (IsRefusal text)) }
    ensures cut { result ≡ 5
        → ReadsText (R.remaining streams.old.input) (R.remaining streams.new.input)
        (λ text. WritesBeginning (W.contents streams.old.output) (W.contents streams.new.output)
        (IsFormatted (given_width (map string_bytes words.now)) text)) }

    // Any other status leaves the output alone.
    ensures unwritten { result ≢ 0 → result ≢ 5
        → Keeps (W.contents streams.old.output) (W.contents streams.new.output) }

    // Standard error gets nothing, or the message of the status, or a beginning of it.
    ensures quiet { result ≡ 0
        → Keeps (E.contents streams.old.faults) (E.contents streams.new.faults) }
    ensures told { result ≢ 0
        → WritesBeginning (E.contents streams.old.faults) (E.contents streams.new.faults)
        (IsDiagnostic result) }
{
    match formatted(alloc, words, &mut streams.input, &mut streams.output) {
        Ok(()) => 0,
        Err(failure) => report(&this_program(), &failure, &mut streams.faults),
    }
}

/// Formats the input to the output.
fn formatted<R: Read, W: Write>(
    alloc: Global,
    words: &[String],
    input: &mut R,
    output: &mut W,
) -> Result<(), Failure>
    ensures width { OnOk result (GiveWidth (map string_bytes words.now)) }
    ensures ok { OnOk result (ReadsText (R.remaining input.old) (R.remaining input.new)
        (λ text. Writes (W.contents output.old) (W.contents output.new)
        (IsFormatted (given_width (map string_bytes words.now)) text))) }
    ensures err { IfErr result (λ failure. Explains failure (map string_bytes words.now)
        (R.remaining input.old) (R.remaining input.new)
        (W.contents output.old) (W.contents output.new)) }
{
    let width = width_of(words)?;
    let text = read_text(alloc, input)?;
    let answer = answer_to(alloc, text.as_str(), width)?;
    match write_whole(output, answer.as_bytes()) {
        Ok(()) => Ok(()),
        Err(_) => Err(Failure::Output),
    }
}

/// The formatted text, or why there is none.
fn answer_to(alloc: Global, text: &str, width: usize) -> Result<String, Failure>
    ensures ok { IfOk result (λ answer. IsFormatted width text.now (string_bytes answer)) }
    ensures err { IfErr result (λ failure. IsFormatFailure failure text.now) }
{
    match isle_syntax::format(alloc, text, width) {
        Ok(answer) => Ok(answer),
        Err(Fault::Error(error)) => {
            Err(Failure::Refused(diagnostic(alloc, INPUT_NAME, text, error)?))
        }
        Err(Fault::Failed) => unreachable!(),
        Err(Fault::Memory) => Err(Failure::Memory),
    }
}
