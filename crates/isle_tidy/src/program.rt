//! The program, for any files, reader and writers.

ghost use Rattle.std.specs.Prelude.{◌≡◌, ◌≢◌, ◌≤◌, ◌⊎◌, ◌++◌, [], IfErr, IfOk, None, Some, codes};
ghost use Rattle.std.specs.Prelude.{List, false, length, map, string_bytes, true, ℕ};
ghost use Rattle.std.specs.Io.KnownBytes.{Keeps};
ghost use Rattle.isle_cli.specs.Arguments.{excluded, given_of, is_among, name_list, stdin_name};
ghost use Rattle.isle_cli.specs.Failure as frame;
ghost use Rattle.isle_cli.specs.Failure.{status_of};
ghost use Rattle.isle_cli.specs.Sources.{IsListing, fault_line};
ghost use Rattle.isle_cli.specs.Streams.{AppendsBeginning, WritesBeginning};
ghost use Rattle.isle_tidy_core.specs.Tidied.{IsUntidy};
ghost use Rattle.isle_tidy.specs.Doing.{Cuts, CutsInput, Does, DoesTask, EndsFile, EndsInput};
ghost use Rattle.isle_tidy.specs.Doing.{EndsName, EndsText, Explains, Finds, FindsInput};
ghost use Rattle.isle_tidy.specs.Doing.{HandlesFiles, LeavesOutput, Misses, MissesInput};
ghost use Rattle.isle_tidy.specs.Doing.{RunsAndTells, RunsOnAsked, RunsOnFiles, RunsOnNames};
ghost use Rattle.isle_tidy.specs.Doing.{TellsText, changes_text, listing_of, names_input};
ghost use Rattle.isle_tidy.specs.Program.{AreOwn, AsAsked, AskForNothing, HaveNames, IsDiagnostic};
ghost use Rattle.isle_tidy.specs.Program.{IsThis};

use crate::in_place::{FileText, WriteFault, read_regular, tidy_file};
use crate::listings::{Listing, listing_of, option_of, put_listing};
use crate::manifests;
use crate::pieces::{is_untidy, put_tidied};
use isle_cli::arguments::{
    Argument, EXCLUDE_OPTION, Options, Request, excluded_of, names_of, requested, stdin_name_of,
};
use isle_cli::failure::Failure;
use isle_cli::folders::files_named;
use isle_cli::messages::counted;
use isle_cli::program::{Program, report, tell};
use isle_cli::sources::fault_line;
use isle_cli::streams::{ReadFault, Streams, read_text, write_whole};
use isle_cli::usage::report_words;
use isle_cli::version;
use std::alloc::{AllocError, Global};
use std::fs::Files;
use std::io::{Read, Write};

/// This program.
pub const PROGRAM: Program = Program {
    name: "isle-tidy",
    usage: "usage: isle-tidy [--check] [--diff] [--exclude PATTERN] [--stdin-name NAME] \
            [--program NAME] [--all-programs] [FILE ..]\n",
    help: HELP,
    version: VERSION,
};

/// Its version.
pub const VERSION: &str = version!("isle-tidy");

/// Its help.
pub const HELP: &str = "\
usage: isle-tidy [--check] [--diff] [--exclude PATTERN] [--stdin-name NAME] [--program NAME]
                 [--all-programs] [FILE ..]

Fixes the indentation and spacing of ISLE source to match Cranelift's style. All comments and line
breaks are kept.

Each FILE is rewritten in place. A folder stands for every .isle file below it, and - for standard
input, which goes to standard output. With no FILE, standard input is tidied.

With --program or --all-programs, the files of programs of the nearest isle.toml are rewritten. It
is looked for in the current folder and above it, or in the one folder that is given.

Options:
  --check            list the files that would change, and change nothing
  --diff             print what would change as a unified diff, and change nothing, also
                     with --check
  --exclude PATTERN  leave out of folders what the pattern matches; may be repeated
  --stdin-name NAME  use NAME for standard input in messages
  --program NAME     tidy the files of the program NAME of isle.toml; may be repeated
  --all-programs     tidy the files of each program of isle.toml
  --                 treat all later arguments as files
  -h, --help         print this help
  -V, --version      print the version

Exit status (with several files, the greatest of theirs):
  0  success; with --check or --diff, nothing would change
  1  an input cannot be tidied; with --check or --diff, one would change
  2  usage error, or a mistake in isle.toml
  3  an input cannot be read, or is not UTF-8, or a folder has no .isle file,
     or there is no isle.toml
  4  out of memory
  5  an output cannot be written
";

/// `PROGRAM`, with a contract, since no clause can name a constant that holds references.
pub fn this_program() -> Program
    ensures { IsThis result }
{
    PROGRAM
}

/// Its own options.
fn own_options() -> Options
    ensures { AreOwn result }
{
    Options {
        flags: &["--check", "--diff"],
        settings: &[EXCLUDE_OPTION],
    }
}

/// Tidies standard input to standard output, or files in place, and returns the exit status.
///
/// | Status | When |
/// |---|---|
/// | 0 | all is tidied; with `--check` or `--diff`, all is tidy |
/// | 1 | a text can't be tidied, or with `--check` or `--diff` one would change |
/// | 2 | usage error |
/// | 3 | an input can't be read or isn't UTF-8, or a folder has no ISLE file |
/// | 4 | out of memory |
/// | 5 | standard output or a file can't be written whole |
///
/// `words` is the command line without the program's name. It names files, folders, each of which
/// stands for every `.isle` file below it, and `-`, which stands for standard input. The whole
/// command line is checked before any file is touched. An error in one file does not stop the
/// others, but nothing more is listed once the output has failed; the status is the greatest of
/// theirs.
///
/// With `--check` the output gets the name of each input that would change, in a line. With
/// `--diff` it gets the diff, which `patch -p0` applies where the names are paths below the current
/// folder.
pub fn run<R: Files + AllocGlobal + Clone + Drop, I: Read, W: Write, E: Write>(
    rt: &R,
    words: &[String],
    streams: &mut Streams<I, W, E>,
) -> u8
    ensures statuses { result ≤ 5 }

    // Status 2 depends on the command line alone, and then nothing is read.
    ensures usage { result ≡ 2 → AskForNothing (map string_bytes words.now) }
    ensures unread { result ≡ 2
        → Keeps (I.remaining streams.old.input) (I.remaining streams.new.input) }
    ensures asked { result ≢ 2 → result ≢ 4 → AsAsked (map string_bytes words.now)
        (λ program request. HandlesFiles request
        (I.remaining streams.old.input) (I.remaining streams.new.input)) }
    ensures starved { result ≡ 4
        → Keeps (I.remaining streams.old.input) (I.remaining streams.new.input)
        ⊎ AsAsked (map string_bytes words.now)
        (λ program request. HandlesFiles request
        (I.remaining streams.old.input) (I.remaining streams.new.input)) }

    // The request is done, or standard input is rejected or found untidy.
    ensures done { result ≡ 0 → AsAsked (map string_bytes words.now)
        (λ program request. Does program request
        (I.remaining streams.old.input) (I.remaining streams.new.input)
        (W.contents streams.old.output) (W.contents streams.new.output)) }
    ensures found { result ≡ 1 → AsAsked (map string_bytes words.now)
        (λ program request. Finds request
        (I.remaining streams.old.input) (I.remaining streams.new.input)
        (W.contents streams.old.output) (W.contents streams.new.output)
        (E.contents streams.old.faults) (E.contents streams.new.faults)) }

    // Each name has its status, in order, up to the first one for which the output fails, where
    // names are listed; or memory was refused before the first one.
    ensures named { result ≢ 2 → (result ≡ 4)
        × Keeps (I.remaining streams.old.input) (I.remaining streams.new.input)
        × Keeps (W.contents streams.old.output) (W.contents streams.new.output)
        ⊎ AsAsked (map string_bytes words.now)
        (λ program request. RunsOnAsked program request result
        (I.remaining streams.old.input) (I.remaining streams.new.input)
        (W.contents streams.old.output) (W.contents streams.new.output)
        (E.contents streams.old.faults) (E.contents streams.new.faults)) }

    // Tidying files in place leaves the output alone.
    ensures in_place { Keeps (W.contents streams.old.output) (W.contents streams.new.output)
        ⊎ AsAsked (map string_bytes words.now)
        (λ program request. LeavesOutput request
        (W.contents streams.old.output) (W.contents streams.new.output)) }

    // The output has a beginning. Without names, any other status leaves it alone.
    ensures cut { result ≡ 5 → AsAsked (map string_bytes words.now)
        (λ program request. Cuts program request
        (I.remaining streams.old.input) (I.remaining streams.new.input)
        (W.contents streams.old.output) (W.contents streams.new.output)) }
    ensures unwritten { 2 ≤ result → result ≢ 5 → ¬ (HaveNames (map string_bytes words.now))
        → Keeps (W.contents streams.old.output) (W.contents streams.new.output) }

    // Standard error gets nothing, or, without names, the message of the status, or a beginning;
    // with status 3 the line that says why standard input can't be read.
    ensures quiet { result ≡ 0
        → Keeps (E.contents streams.old.faults) (E.contents streams.new.faults) }
    ensures told { 2 ≤ result → result ≢ 3 → ¬ (HaveNames (map string_bytes words.now))
        → WritesBeginning (E.contents streams.old.faults) (E.contents streams.new.faults)
        (IsDiagnostic (map string_bytes words.now) result) }
    ensures missed { result ≡ 3 → AsAsked (map string_bytes words.now)
        (λ program request. Misses program request
        (I.remaining streams.old.input) (I.remaining streams.new.input)
        (E.contents streams.old.faults) (E.contents streams.new.faults)) }
{
    let (program, options) = (this_program(), own_options());
    match requested(rt.alloc(), &options, words) {
        Ok(Request::Help) => {
            tell(
                &program,
                PROGRAM.help,
                &mut streams.output,
                &mut streams.faults,
            )
        }
        Ok(Request::Version) => {
            tell(
                &program,
                PROGRAM.version,
                &mut streams.output,
                &mut streams.faults,
            )
        }
        Ok(Request::Work(arguments)) => work(rt, &program, &arguments, streams),
        Err(failure) => {
            report_words(
                &program,
                &manifests::OPTIONS,
                words,
                &failure,
                &mut streams.faults,
            )
        }
    }
}

/// What to do with each input.
#[derive(Clone, Copy)]
pub struct Task<'a> {
    /// The program.
    pub program: &'a Program,
    /// What is listed of texts that would change; `None` if they are tidied.
    pub listing: Option<Listing>,
    /// The name of standard input in messages.
    pub stdin_name: &'a str,
    /// The arguments, which may exclude files and folders.
    pub arguments: &'a [Argument],
}

/// Does what the arguments ask for.
fn work<R: Files + AllocGlobal + Clone + Drop, I: Read, W: Write, E: Write>(
    rt: &R,
    program: &Program,
    arguments: &[Argument],
    streams: &mut Streams<I, W, E>,
) -> u8
    ensures statuses { result ≤ 5 }
    ensures used { result ≢ 2 }
    ensures files { name_list (map given_of arguments.now) ≢ []
        → names_input (map given_of arguments.now) ≡ false
        → Keeps (I.remaining streams.old.input) (I.remaining streams.new.input) }
    ensures in_place { name_list (map given_of arguments.now) ≢ []
        → names_input (map given_of arguments.now) ≡ false
        → listing_of (map given_of arguments.now) ≡ None
        → Keeps (W.contents streams.old.output) (W.contents streams.new.output) }
    ensures done { result ≡ 0 → DoesTask (map given_of arguments.now)
        (I.remaining streams.old.input) (I.remaining streams.new.input)
        (W.contents streams.old.output) (W.contents streams.new.output) }
    ensures found { result ≡ 1 → name_list (map given_of arguments.now) ≡ []
        → FindsInput (listing_of (map given_of arguments.now))
        (stdin_name (map given_of arguments.now))
        (I.remaining streams.old.input) (I.remaining streams.new.input)
        (W.contents streams.old.output) (W.contents streams.new.output)
        (E.contents streams.old.faults) (E.contents streams.new.faults) }
    ensures named { name_list (map given_of arguments.now) ≢ [] → (result ≡ 4)
        × Keeps (I.remaining streams.old.input) (I.remaining streams.new.input)
        × Keeps (W.contents streams.old.output) (W.contents streams.new.output)
        ⊎ RunsAndTells program.now (listing_of (map given_of arguments.now))
        (stdin_name (map given_of arguments.now)) (name_list (map given_of arguments.now)) result
        (I.remaining streams.old.input) (I.remaining streams.new.input)
        (W.contents streams.old.output) (W.contents streams.new.output)
        (E.contents streams.old.faults) (E.contents streams.new.faults) }
    ensures cut { result ≡ 5 → name_list (map given_of arguments.now) ≡ []
        → CutsInput (listing_of (map given_of arguments.now))
        (stdin_name (map given_of arguments.now))
        (I.remaining streams.old.input) (I.remaining streams.new.input)
        (W.contents streams.old.output) (W.contents streams.new.output) }
    ensures unwritten { 2 ≤ result → result ≢ 5 → name_list (map given_of arguments.now) ≡ []
        → Keeps (W.contents streams.old.output) (W.contents streams.new.output) }
    ensures quiet { result ≡ 0
        → Keeps (E.contents streams.old.faults) (E.contents streams.new.faults) }
    ensures told { 2 ≤ result → result ≢ 3 → name_list (map given_of arguments.now) ≡ []
        → WritesBeginning (E.contents streams.old.faults) (E.contents streams.new.faults)
        (frame.IsDiagnostic program.now result) }
    ensures missed { result ≡ 3 → name_list (map given_of arguments.now) ≡ []
        → MissesInput program.now (stdin_name (map given_of arguments.now))
        (I.remaining streams.old.input) (I.remaining streams.new.input)
        (E.contents streams.old.faults) (E.contents streams.new.faults) }
{
    let task = Task {
        program,
        listing: listing_of(arguments),
        stdin_name: stdin_name_of(arguments),
        arguments,
    };
    match names_of(rt.alloc(), arguments) {
        Ok(names) if names.is_empty() => run_on_input(rt.alloc(), &task, streams),
        Ok(names) => run_on_names(rt, &task, &names, streams),
        Err(_) => report(program, &Failure::Memory, &mut streams.faults),
    }
}

/// Tidies the input to the output, or lists it if it would change, and returns the exit status.
fn run_on_input<I: Read, W: Write, E: Write>(
    alloc: Global,
    task: &Task<'_>,
    streams: &mut Streams<I, W, E>,
) -> u8
    ensures { EndsInput task.now.program.now task.now.listing task.now.stdin_name.now result
        (I.remaining streams.old.input) (I.remaining streams.new.input)
        (W.contents streams.old.output) (W.contents streams.new.output)
        (E.contents streams.old.faults) (E.contents streams.new.faults) }
{
    match read_text(alloc, &mut streams.input) {
        Ok(text) => {
            run_on_given(
                alloc,
                task,
                text.as_str(),
                &mut streams.output,
                &mut streams.faults,
            )
        }
        Err(fault) => report_unread_input(alloc, task, fault, &mut streams.faults),
    }
}

/// Writes why standard input can't be read to standard error, and returns the exit status.
fn report_unread_input<E: Write>(
    alloc: Global,
    task: &Task<'_>,
    fault: ReadFault,
    faults: &mut E,
) -> u8
    ensures statuses { (result ≡ 3) ⊎ (result ≡ 4) }
    ensures missed { result ≡ 3 → AppendsBeginning (E.contents faults.old) (E.contents faults.new)
        (fault_line task.now.program.now task.now.stdin_name.now fault) }
    ensures starved { result ≡ 4 → WritesBeginning (E.contents faults.old) (E.contents faults.new)
        (frame.IsDiagnostic task.now.program.now result) }
{
    match unread_line(alloc, task.program, task.stdin_name, fault) {
        Ok(line) => {
            let _ = write_whole(faults, line.as_bytes());
            Failure::Input.status()
        }
        Err(_) => report(task.program, &Failure::Memory, faults),
    }
}

/// Does what is asked with the text of the input, and returns the exit status.
fn run_on_given<W: Write, E: Write>(
    alloc: Global,
    task: &Task<'_>,
    text: &str,
    output: &mut W,
    faults: &mut E,
) -> u8
    ensures { EndsText task.now.program.now task.now.listing task.now.stdin_name.now text.now result
        (W.contents output.old) (W.contents output.new)
        (E.contents faults.old) (E.contents faults.new) }
{
    match tell_text(alloc, task, text, output) {
        Ok(true) => 0,
        Ok(false) => 1,
        Err(failure) => report(task.program, &failure, faults),
    }
}

/// Writes the tidy text of a text to the output, or lists it if it would change. Returns `false` if
/// it is listed.
fn tell_text<W: Write>(
    alloc: Global,
    task: &Task<'_>,
    text: &str,
    output: &mut W,
) -> Result<bool, Failure>
    ensures ok { IfOk result (λ is_done. TellsText is_done task.now.listing task.now.stdin_name.now
        text.now (W.contents output.old) (W.contents output.new)) }
    ensures err { IfErr result (λ failure. Explains failure task.now.listing
        task.now.stdin_name.now text.now (W.contents output.old) (W.contents output.new)) }
{
    match task.listing {
        None => {
            let mut fault = WriteFault::Other;
            match put_tidied(alloc, task.stdin_name, text, output, &mut fault) {
                Ok(()) => Ok(true),
                Err(failure) => Err(failure),
            }
        }
        Some(listing) => list_text(alloc, listing, task.stdin_name, text, output),
    }
}

/// Lists a text of this name on the output if it would change, and returns whether it is tidy.
fn list_text<W: Write>(
    alloc: Global,
    listing: Listing,
    name: &str,
    text: &str,
    output: &mut W,
) -> Result<bool, Failure>
    ensures ok { IfOk result (λ is_tidy. TellsText is_tidy (Some listing) name.now text.now
        (W.contents output.old) (W.contents output.new)) }
    ensures err { IfErr result (λ failure. Explains failure (Some listing) name.now text.now
        (W.contents output.old) (W.contents output.new)) }
{
    match is_untidy(alloc, name, text) {
        Ok(true) => match put_listing(alloc, listing, name, text, output) {
            Ok(()) => Ok(false),
            Err(failure) => Err(failure),
        },
        Ok(false) => Ok(true),
        Err(failure) => Err(failure),
    }
}

/// Tidies or lists the inputs of these names in turn. The status is the greatest of theirs. If they
/// are listed, a line says how many files would change, if any would.
fn run_on_names<R: Files + AllocGlobal + Clone + Drop, I: Read, W: Write, E: Write>(
    rt: &R,
    task: &Task<'_>,
    names: &[String],
    streams: &mut Streams<I, W, E>,
) -> u8
    ensures statuses { result ≤ 5 }
    ensures used { result ≢ 2 }
    ensures unread { is_among (map string_bytes names.now) (codes "-") ≡ false
        → Keeps (I.remaining streams.old.input) (I.remaining streams.new.input) }
    ensures unwritten { result ≡ 0 → is_among (map string_bytes names.now) (codes "-") ≡ false
        → Keeps (W.contents streams.old.output) (W.contents streams.new.output) }
    ensures in_place { is_among (map string_bytes names.now) (codes "-") ≡ false
        → task.now.listing ≡ None
        → Keeps (W.contents streams.old.output) (W.contents streams.new.output) }
    ensures quiet { result ≡ 0
        → Keeps (E.contents streams.old.faults) (E.contents streams.new.faults) }
    ensures named { RunsAndTells task.now.program.now task.now.listing task.now.stdin_name.now
        (map string_bytes names.now) result
        (I.remaining streams.old.input) (I.remaining streams.new.input)
        (W.contents streams.old.output) (W.contents streams.new.output)
        (E.contents streams.old.faults) (E.contents streams.new.faults) }
{
    let mut untidy = 0;
    let status = run_on_each(rt, task, names, streams, &mut untidy);
    tell_changes(rt.alloc(), task, status, untidy, &mut streams.faults);
    status
}

/// Writes to standard error how many files would change, if any would, and how to change them. If
/// the output has failed, not all were counted, and nothing is written.
pub fn tell_changes<E: Write>(
    alloc: Global,
    task: &Task<'_>,
    status: u8,
    untidy: usize,
    faults: &mut E,
)
    ensures quiet { status ≡ 0 → Keeps (E.contents faults.old) (E.contents faults.new) }
    ensures told { AppendsBeginning (E.contents faults.old) (E.contents faults.new)
        (changes_text task.now.program.now task.now.listing untidy) }
{
    if status == 0 || is_over(task, status) {
        return;
    }
    match changes_text(alloc, task, untidy) {
        Ok(text) => {
            let _ = write_whole(faults, text.as_bytes());
        }
        Err(_) => {}
    }
}

/// The line that says how many files would change, and how to change them; empty if none would.
fn changes_text(alloc: Global, task: &Task<'_>, untidy: usize) -> Result<String, AllocError>
    ensures { IfOk result (λ text. string_bytes text
        ≡ changes_text task.now.program.now task.now.listing untidy) }
{
    if untidy == 0 {
        return Ok(String::new(alloc));
    }
    let files = counted(alloc, untidy, "file")?;
    let name = task.program.name;
    let option = option_of(task.listing);
    format!(in alloc; "{name}: {files} would change; run the same command without {option}\n")
}

/// The same, without the line about the files that would change: they are added to `untidy`.
fn run_on_each<R: Files + AllocGlobal + Clone + Drop, I: Read, W: Write, E: Write>(
    rt: &R,
    task: &Task<'_>,
    names: &[String],
    streams: &mut Streams<I, W, E>,
    untidy: &mut usize,
) -> u8
    ensures { RunsOnNames task.now.program.now task.now.listing task.now.stdin_name.now
        (map string_bytes names.now) result
        (I.remaining streams.old.input) (I.remaining streams.new.input)
        (W.contents streams.old.output) (W.contents streams.new.output)
        (E.contents streams.old.faults) (E.contents streams.new.faults) }
{
    let mut status: u8 = 0;
    for name in names {
        if is_over(task, status) {
            return status;
        }
        let done = run_on_name(rt, task, name.as_str(), streams, untidy);
        status = status.max(done);
    }
    status
}

/// Returns whether inputs are listed and the output has failed: a file that is listed has no other
/// failure of this status.
fn is_over(task: &Task<'_>, status: u8) -> bool
    ensures listed { result ≡ true → task.now.listing ≢ None }
    ensures cut { result ≡ true → status ≡ 5 }
{
    match task.listing {
        None => false,
        Some(_) => status == 5,
    }
}

/// Tidies standard input, a file, or the files below a folder.
fn run_on_name<R: Files + AllocGlobal + Clone + Drop, I: Read, W: Write, E: Write>(
    rt: &R,
    task: &Task<'_>,
    name: &str,
    streams: &mut Streams<I, W, E>,
    untidy: &mut usize,
) -> u8
    ensures { EndsName task.now.program.now task.now.listing task.now.stdin_name.now name.now result
        (I.remaining streams.old.input) (I.remaining streams.new.input)
        (W.contents streams.old.output) (W.contents streams.new.output)
        (E.contents streams.old.faults) (E.contents streams.new.faults) }
{
    if name == "-" {
        run_on_input(rt.alloc(), task, streams)
    } else {
        run_on_path(
            rt,
            task,
            name,
            &mut streams.output,
            &mut streams.faults,
            untidy,
        )
    }
}

/// Tidies files, and the files below folders. Those that would change are added to `untidy`.
pub fn run_on_paths<R: Files + AllocGlobal + Clone + Drop, W: Write, E: Write>(
    rt: &R,
    task: &Task<'_>,
    names: &[String],
    output: &mut W,
    faults: &mut E,
    untidy: &mut usize,
) -> u8
    ensures { RunsOnFiles task.now.listing (length names.now) result
        (W.contents output.old) (W.contents output.new)
        (E.contents faults.old) (E.contents faults.new) }
{
    let mut status: u8 = 0;
    for name in names {
        if is_over(task, status) {
            return status;
        }
        let done = run_on_path(rt, task, name.as_str(), output, faults, untidy);
        status = status.max(done);
    }
    status
}

/// Tidies a file, or the files below a folder.
fn run_on_path<R: Files + AllocGlobal + Clone + Drop, W: Write, E: Write>(
    rt: &R,
    task: &Task<'_>,
    name: &str,
    output: &mut W,
    faults: &mut E,
    untidy: &mut usize,
) -> u8
    ensures { RunsOnFiles task.now.listing 1 result
        (W.contents output.old) (W.contents output.new)
        (E.contents faults.old) (E.contents faults.new) }
{
    let mut lines = String::new(rt.alloc());
    match files_at(rt, task, name, &mut lines) {
        Ok(files) if lines.is_empty() => run_on_files(rt, task, &files, output, faults, untidy),
        Ok(files) => {
            let _ = write_whole(faults, lines.as_bytes());
            run_on_files(rt, task, &files, output, faults, untidy).max(3)
        }
        Err(_) => report(task.program, &Failure::Memory, faults),
    }
}

/// The files that a name stands for, without those that are excluded. A line is added to `lines`
/// for each that can't be read, and for a folder without an ISLE file.
fn files_at<R: Files + AllocGlobal + Clone + Drop>(
    rt: &R,
    task: &Task<'_>,
    name: &str,
    lines: &mut String,
) -> Result<Vec<String>, AllocError>
    ensures { IfOk result (λ files. (told : List ℕ) × IsListing task.now.program.now
        (excluded (map given_of task.now.arguments.now)) name.now
        (map string_bytes files.items) told
        × (string_bytes lines.new ≡ string_bytes lines.old ++ told)) }
{
    let excluded = excluded_of(rt.alloc(), task.arguments)?;
    files_named(rt, task.program, name, &excluded, lines)
}

/// Tidies each file, or lists those that would change. The status is the greatest of theirs.
fn run_on_files<R: Files + AllocGlobal, W: Write, E: Write>(
    rt: &R,
    task: &Task<'_>,
    names: &[String],
    output: &mut W,
    faults: &mut E,
    untidy: &mut usize,
) -> u8
    ensures { RunsOnFiles task.now.listing (length names.now) result
        (W.contents output.old) (W.contents output.new)
        (E.contents faults.old) (E.contents faults.new) }
{
    let mut status: u8 = 0;
    for name in names {
        if is_over(task, status) {
            return status;
        }
        let done = run_on_file(rt, task, name.as_str(), output, faults, untidy);
        status = status.max(done);
    }
    status
}

/// Tidies a file, or lists it if it would change.
fn run_on_file<R: Files + AllocGlobal, W: Write, E: Write>(
    rt: &R,
    task: &Task<'_>,
    name: &str,
    output: &mut W,
    faults: &mut E,
    untidy: &mut usize,
) -> u8
    ensures { EndsFile task.now.listing result (W.contents output.old) (W.contents output.new)
        (E.contents faults.old) (E.contents faults.new) }
{
    match read_regular(rt, name) {
        Ok(file) => run_on_text(rt, task, name, &file, output, faults, untidy),
        Err(fault) => report_unread(rt.alloc(), task.program, name, fault, faults),
    }
}

/// Tidies a file that was read, or lists it if it would change.
fn run_on_text<R: Files + AllocGlobal, W: Write, E: Write>(
    rt: &R,
    task: &Task<'_>,
    name: &str,
    file: &FileText,
    output: &mut W,
    faults: &mut E,
    untidy: &mut usize,
) -> u8
    ensures { EndsFile task.now.listing result (W.contents output.old) (W.contents output.new)
        (E.contents faults.old) (E.contents faults.new) }
{
    let mut fault = WriteFault::Other;
    match tidy_file(rt, name, file, task.listing, &mut fault) {
        Ok(true) => match task.listing {
            None => 0,
            Some(listing) => {
                *untidy = untidy.saturating_add(1);
                let text = file.text.as_str();
                listed(
                    rt.alloc(),
                    task.program,
                    listing,
                    name,
                    text,
                    output,
                    faults,
                )
            }
        },
        Ok(false) => 0,
        Err(failure) => report_on_file(&failure, fault, name, faults),
    }
}

/// Writes why a file can't be read to standard error, and returns the exit status.
fn report_unread<E: Write>(
    alloc: Global,
    program: &Program,
    name: &str,
    fault: ReadFault,
    faults: &mut E,
) -> u8
    ensures statuses { (result ≡ 3) ⊎ (result ≡ 4) }
    ensures told { result ≡ 3 → AppendsBeginning (E.contents faults.old) (E.contents faults.new)
        (fault_line program.now name.now fault) }
{
    match unread_line(alloc, program, name, fault) {
        Ok(line) => {
            let _ = write_whole(faults, line.as_bytes());
            Failure::Input.status()
        }
        Err(_) => report_on_file(&Failure::Memory, WriteFault::Other, name, faults),
    }
}

/// The line that says why a file can't be read, if memory wasn't the reason.
fn unread_line(
    alloc: Global,
    program: &Program,
    name: &str,
    fault: ReadFault,
) -> Result<String, AllocError>
    ensures { IfOk result (λ line. string_bytes line ≡ fault_line program.now name.now fault) }
{
    match fault {
        ReadFault::Memory => Err(AllocError),
        _ => fault_line(alloc, program, name, fault),
    }
}

/// Lists a file that would change on the output, and returns the exit status.
fn listed<W: Write, E: Write>(
    alloc: Global,
    program: &Program,
    listing: Listing,
    name: &str,
    text: &str,
    output: &mut W,
    faults: &mut E,
) -> u8
    requires { IsUntidy text.now }
    ensures { EndsFile (Some listing) result (W.contents output.old) (W.contents output.new)
        (E.contents faults.old) (E.contents faults.new) }
{
    match put_listing(alloc, listing, name, text, output) {
        Ok(()) => 1,
        Err(failure) => report_unlisted(program, &failure, name, faults),
    }
}

/// Writes why a file could not be listed to standard error, and returns the exit status.
fn report_unlisted<E: Write>(program: &Program, failure: &Failure, name: &str, faults: &mut E) -> u8
    ensures { result ≡ status_of failure.now }
{
    match failure {
        Failure::Output => report(program, failure, faults),
        _ => report_on_file(failure, WriteFault::Other, name, faults),
    }
}

/// Writes the message of a file's failure to standard error, and returns the exit status. `fault`
/// is why the file can't be written, if that is the failure.
fn report_on_file<E: Write>(failure: &Failure, fault: WriteFault, name: &str, faults: &mut E) -> u8
    ensures { result ≡ status_of failure.now }
{
    match failure {
        Failure::Refused(line) => {
            let _ = write_whole(faults, line.as_bytes());
        }
        _ => {
            let _ = write_whole(faults, b"isle-tidy: ");
            let _ = write_whole(faults, name.as_bytes());
            let _ = write_whole(faults, b": ");
            let _ = write_whole(faults, reason(failure, fault).as_bytes());
            let _ = write_whole(faults, b"\n");
        }
    }
    failure.status()
}

/// The reason, which follows the file's name in the message.
fn reason(failure: &Failure, fault: WriteFault) -> &'static str {
    match failure {
        Failure::Refused(_) => "can't be tidied",
        Failure::Usage => "is no file",
        Failure::Input => "unreadable",
        Failure::Memory => "out of memory",
        Failure::Output => fault.words(),
    }
}
