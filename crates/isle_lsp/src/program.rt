//! The command line of the program.

ghost use Rattle.std.specs.Prelude.{◌≡◌, ◌≤◌, ◌⊎◌, Some, false, map, string_bytes, true};
ghost use Rattle.std.specs.Io.KnownBytes.{Keeps};
ghost use Rattle.isle_cli.specs.Streams.{AppendsBeginning, WritesBeginning};
ghost use Rattle.isle_lsp.specs.CommandLine.{AreWrong, AskFor, IsFailureText, Prints};
ghost use Rattle.isle_lsp.specs.CommandLine.{asks_nothing, is_no_help, usage};
ghost use Rattle.isle_lsp.specs.Conversations.{Converses, World};

use crate::conversation::converse;
use isle_cli::arguments::{Options, Request, requested};
use isle_cli::failure::Failure;
use isle_cli::program::{Program, report, tell};
use isle_cli::version;
use isle_lsp_files::disk::Disk;
use std::alloc::Global;
use std::io::{BufRead, Write};

/// This program.
pub const PROGRAM: Program = Program {
    name: "isle-lsp",
    usage: "usage: isle-lsp [--stdio | --help | --version]\n",
    help: HELP,
    version: VERSION,
};

/// The version.
const VERSION: &str = version!("isle-lsp");

/// The help.
const HELP: &str = "\
usage: isle-lsp [--stdio | --help | --version]

A language server for ISLE. An editor starts it, and speaks the Language Server Protocol with it on
its standard input and output.

Options:
  --stdio        accepted for compatibility; stdio is the only transport
  -h, --help     print this help
  -V, --version  print the version

Exit status:
  0  the editor sent `shutdown` and then `exit`
  1  `exit` came before `shutdown`, or the input ended early or was malformed
  2  usage error
  3  the input cannot be read
  4  out of memory
  5  the output cannot be written
";

/// It has no options of its own.
const OPTIONS: Options = Options {
    flags: &[],
    settings: &[],
};

/// Serves an editor, and returns the exit status.
///
/// | Status | When |
/// |---|---|
/// | 0 | `exit` came after `shutdown`, or the help or the version is printed |
/// | 1 | `exit` came before `shutdown`, or the input ended early or was malformed |
/// | 2 | usage error; standard error gets the usage |
/// | 3 | standard input can't be read |
/// | 4 | out of memory |
/// | 5 | the output can't be written |
pub fn run<D: Disk, I: BufRead, W: Write, E: Write>(
    alloc: Global,
    disk: &mut D,
    words: &[String],
    input: &mut I,
    output: &mut W,
    faults: &mut E,
) -> u8
    ensures statuses { result ≤ 5 }

    // No words, or `--stdio` alone, begin a session.
    ensures told { asks_nothing (map string_bytes words.now) ≡ true → (world : World)
        → I.remaining input.old ≡ Some world.bytes → D.moments disk.old ≡ Some world.moments
        → Converses world result
        (I.remaining input.new) (W.contents output.old) (W.contents output.new) }

    // Other words print the help or the version, or are wrong. Then nothing is read.
    ensures prints { asks_nothing (map string_bytes words.now) ≡ false → Prints
        (map string_bytes words.now) result (W.contents output.old) (W.contents output.new) }
    ensures unread { asks_nothing (map string_bytes words.now) ≡ false
        → (D.moments disk.new ≡ D.moments disk.old)
        × (I.remaining input.new ≡ I.remaining input.old) }

    // Status 2 is a usage error.
    ensures usage { result ≡ 2 → AreWrong (map string_bytes words.now) }
    ensures wrong { AreWrong (map string_bytes words.now) → (result ≡ 4) ⊎ ((result ≡ 2)
        × AppendsBeginning (E.contents faults.old) (E.contents faults.new) usage) }

    // With status 0 standard error gets nothing, and past 1 the text of the status.
    ensures quiet { result ≡ 0 → Keeps (E.contents faults.old) (E.contents faults.new) }
    ensures reason { 2 ≤ result → WritesBeginning (E.contents faults.old)
        (E.contents faults.new) (IsFailureText result) }
{
    if asks_nothing(words) {
        return converse(alloc, disk, input, output, faults);
    }
    inform(alloc, words, output, faults)
}

/// Prints the help or the version, if the words ask for it, and returns the exit status.
fn inform<W: Write, E: Write>(alloc: Global, words: &[String], output: &mut W, faults: &mut E) -> u8
    ensures statuses { result ≤ 5 }
    ensures prints { Prints (map string_bytes words.now) result
        (W.contents output.old) (W.contents output.new) }
    ensures usage { result ≡ 2
        → AskFor (map string_bytes words.now) (λ what. is_no_help what ≡ true) }
    ensures wrong { AskFor (map string_bytes words.now) (λ what. is_no_help what ≡ true)
        → (result ≡ 4) ⊎ ((result ≡ 2)
        × AppendsBeginning (E.contents faults.old) (E.contents faults.new) usage) }
    ensures quiet { result ≡ 0 → Keeps (E.contents faults.old) (E.contents faults.new) }
    ensures reason { 2 ≤ result → WritesBeginning (E.contents faults.old)
        (E.contents faults.new) (IsFailureText result) }
{
    match requested(alloc, &OPTIONS, words) {
        Ok(Request::Help) => tell(&PROGRAM, PROGRAM.help, output, faults),
        Ok(Request::Version) => tell(&PROGRAM, PROGRAM.version, output, faults),
        Ok(Request::Work(_)) => report(&PROGRAM, &Failure::Usage, faults),
        Err(failure) => report(&PROGRAM, &failure, faults),
    }
}

/// Returns whether the words ask to serve an editor.
fn asks_nothing(words: &[String]) -> bool
    ensures { result ≡ asks_nothing (map string_bytes words.now) }
{
    match words.split_first() {
        Some((word, later)) => word.as_str() == "--stdio" && later.is_empty(),
        None => true,
    }
}
