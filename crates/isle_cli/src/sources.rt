//! The texts that a command line names: standard input, files, and the files below folders.

ghost use Rattle.std.specs.Prelude.{◌≡◌, ◌++◌, [], IfOk, OnOk, map, string_bytes};
ghost use Rattle.isle_base.specs.Diagnostics.{only_file};
ghost use Rattle.isle_cli.specs.Arguments.{given_of};
ghost use Rattle.isle_cli.specs.Sources.{Adds, AreReadFrom, GiveFiles, GivesFile, GivesInput};
ghost use Rattle.isle_cli.specs.Sources.{GivesName, GivesPath, IsReadFrom, empty_line, fault_line};
ghost use Rattle.isle_cli.specs.Sources.{reason_of, source_of};

use crate::arguments::{Argument, excluded_of, names_of, stdin_name_of};
use crate::folders::files_named;
use crate::program::Program;
pub use crate::streams::ReadFault as SourceFault;
use crate::streams::{ReadFault, fault_of, read_text};
use std::alloc::{AllocError, Global};
use std::fs::{Files, OpenOptions};
use std::io::Read;

/// A text, and its name in messages.
#[derive(Drop)]
pub struct Source {
    /// Its name in messages.
    pub name: String,
    /// The text.
    pub text: String,
}

/// The texts that could be read, in the order of their names on the command line, and the messages
/// about the others.
#[derive(Drop)]
pub struct Sources {
    /// The texts.
    pub list: Vec<Source>,
    /// A line for each name that can't be read.
    pub faults: String,
}

/// Reads the texts that the names among the arguments of a command line stand for: standard input
/// for `-`, a file, or the files that `files_named` finds below a folder. Without names it reads
/// standard input.
///
/// A line is added to `faults` for each text that can't be read and each folder without an ISLE
/// file, and the others are read all the same.
pub fn read_sources<R: Files + AllocGlobal + Clone + Drop, I: Read>(
    rt: &R,
    program: &Program,
    arguments: &[Argument],
    input: &mut I,
) -> Result<Sources, AllocError>
    ensures { IfOk result (λ read. IsReadFrom (map given_of arguments.now) program.now
        (I.remaining input.old) (I.remaining input.new)
        (map source_of read.list.items) (string_bytes read.faults)) }
{
    let names = names_of(rt.alloc(), arguments)?;
    let excluded = excluded_of(rt.alloc(), arguments)?;
    read_names(
        rt,
        program,
        &names,
        &excluded,
        stdin_name_of(arguments),
        input,
    )
}

/// Reads the texts that these names stand for.
fn read_names<R: Files + AllocGlobal + Clone + Drop, I: Read>(
    rt: &R,
    program: &Program,
    names: &[String],
    excluded: &[String],
    stdin_name: &str,
    input: &mut I,
) -> Result<Sources, AllocError>
    ensures { IfOk result (λ read. AreReadFrom (map string_bytes names.now)
        (map string_bytes excluded.now) stdin_name.now program.now
        (I.remaining input.old) (I.remaining input.new)
        (map source_of read.list.items) (string_bytes read.faults)) }
{
    let mut read = Sources::none(rt.alloc());
    if names.is_empty() {
        read_input(rt.alloc(), program, stdin_name, input, &mut read)?;
        return Ok(read);
    }
    for name in names {
        read_name(
            rt,
            program,
            name.as_str(),
            excluded,
            stdin_name,
            input,
            &mut read,
        )?;
    }
    Ok(read)
}

impl Sources {
    /// No texts and no faults.
    fn none(alloc: Global) -> Sources
        ensures list { map source_of result.list.items ≡ [] }
        ensures faults { string_bytes result.faults ≡ [] }
    {
        Sources {
            list: Vec::new(alloc),
            faults: String::new(alloc),
        }
    }

    /// Adds a text.
    fn push(&mut self, alloc: Global, name: &str, text: String) -> Result<(), AllocError>
        ensures list { OnOk result (map source_of self.new.list.items
            ≡ map source_of self.old.list.items ++ only_file name.now (string_bytes text)) }
        ensures faults { string_bytes self.new.faults ≡ string_bytes self.old.faults }
    {
        let name = String::from_str(alloc, name)?;
        self.list.push(Source { name, text })?;
        Ok(())
    }

    /// Adds the line that says why a name can't be read.
    fn push_fault(
        &mut self,
        alloc: Global,
        program: &Program,
        name: &str,
        fault: ReadFault,
    ) -> Result<(), AllocError>
        ensures list { map source_of self.new.list.items ≡ map source_of self.old.list.items }
        ensures faults { OnOk result (string_bytes self.new.faults
            ≡ string_bytes self.old.faults ++ fault_line program.now name.now fault) }
    {
        let line = fault_line(alloc, program, name, fault)?;
        self.faults.push_str(line.as_str())?;
        Ok(())
    }
}

/// Adds standard input, a file, or the files below a folder.
fn read_name<R: Files + AllocGlobal + Clone + Drop, I: Read>(
    rt: &R,
    program: &Program,
    name: &str,
    excluded: &[String],
    stdin_name: &str,
    input: &mut I,
    read: &mut Sources,
) -> Result<(), AllocError>
    ensures { OnOk result (Adds (map source_of read.old.list.items)
        (map source_of read.new.list.items)
        (string_bytes read.old.faults) (string_bytes read.new.faults)
        (GivesName (map string_bytes excluded.now) stdin_name.now program.now name.now
        (I.remaining input.old) (I.remaining input.new))) }
{
    if name == "-" {
        read_input(rt.alloc(), program, stdin_name, input, read)
    } else {
        read_path(rt, program, name, excluded, read)
    }
}

/// Adds standard input.
fn read_input<I: Read>(
    alloc: Global,
    program: &Program,
    stdin_name: &str,
    input: &mut I,
    read: &mut Sources,
) -> Result<(), AllocError>
    ensures { OnOk result (Adds (map source_of read.old.list.items)
        (map source_of read.new.list.items)
        (string_bytes read.old.faults) (string_bytes read.new.faults)
        (GivesInput stdin_name.now program.now (I.remaining input.old) (I.remaining input.new))) }
{
    match read_text(alloc, input) {
        Ok(text) => read.push(alloc, stdin_name, text),
        Err(ReadFault::Memory) => Err(AllocError),
        Err(fault) => read.push_fault(alloc, program, stdin_name, fault),
    }
}

/// Adds a file, or the files below a folder.
fn read_path<R: Files + AllocGlobal + Clone + Drop>(
    rt: &R,
    program: &Program,
    name: &str,
    excluded: &[String],
    read: &mut Sources,
) -> Result<(), AllocError>
    ensures { OnOk result (Adds (map source_of read.old.list.items)
        (map source_of read.new.list.items)
        (string_bytes read.old.faults) (string_bytes read.new.faults)
        (GivesPath (map string_bytes excluded.now) program.now name.now)) }
{
    let files = files_named(rt, program, name, excluded, &mut read.faults)?;
    read_files(rt, program, &files, read)
}

/// Adds files.
fn read_files<R: Files + AllocGlobal>(
    rt: &R,
    program: &Program,
    paths: &[String],
    read: &mut Sources,
) -> Result<(), AllocError>
    ensures { OnOk result (Adds (map source_of read.old.list.items)
        (map source_of read.new.list.items)
        (string_bytes read.old.faults) (string_bytes read.new.faults)
        (GiveFiles program.now (map string_bytes paths.now))) }
{
    for path in paths {
        read_one(rt, program, path.as_str(), read)?;
    }
    Ok(())
}

/// Adds a file.
fn read_one<R: Files + AllocGlobal>(
    rt: &R,
    program: &Program,
    path: &str,
    read: &mut Sources,
) -> Result<(), AllocError>
    ensures { OnOk result (Adds (map source_of read.old.list.items)
        (map source_of read.new.list.items)
        (string_bytes read.old.faults) (string_bytes read.new.faults)
        (GivesFile program.now path.now)) }
{
    match read_file(rt, path) {
        Ok(text) => read.push(rt.alloc(), path, text),
        Err(ReadFault::Memory) => Err(AllocError),
        Err(fault) => read.push_fault(rt.alloc(), program, path, fault),
    }
}

/// Reads a file in UTF-8.
pub fn read_file<R: Files + AllocGlobal>(rt: &R, name: &str) -> Result<String, ReadFault> {
    let mut file = OpenOptions::new()
        .read(true)
        .open(rt, name)
        .map_err(fault_of)?;
    read_text(rt.alloc(), &mut file)
}

/// The line that says why a name can't be read: `PROGRAM: NAME: REASON`, with its line end.
pub fn fault_line(
    alloc: Global,
    program: &Program,
    name: &str,
    fault: ReadFault,
) -> Result<String, AllocError>
    ensures { IfOk result (λ line. string_bytes line ≡ fault_line program.now name.now fault) }
{
    let reason = reason_of(alloc, fault)?;
    format!(in alloc; "{}: {name}: {reason}\n", program.name)
}

/// The line that says that a folder has no ISLE file, with its line end.
pub fn empty_line(alloc: Global, program: &Program, name: &str) -> Result<String, AllocError>
    ensures { IfOk result (λ line. string_bytes line ≡ empty_line program.now name.now) }
{
    format!(in alloc; "{}: no .isle file in '{name}'\n", program.name)
}

/// The reason in words.
fn reason_of(alloc: Global, fault: ReadFault) -> Result<String, AllocError>
    ensures { IfOk result (λ reason. string_bytes reason ≡ reason_of fault) }
{
    match fault {
        ReadFault::Missing => String::from_str(alloc, "no such file or directory"),
        ReadFault::Denied => String::from_str(alloc, "permission denied"),
        ReadFault::Folder => String::from_str(alloc, "is a directory"),
        ReadFault::NotRegular => String::from_str(alloc, "not a regular file"),
        ReadFault::NotUtf8(offset) => format!(in alloc; "not UTF-8 at byte {offset}"),
        ReadFault::Unreadable => String::from_str(alloc, "unreadable"),
        ReadFault::Memory => String::from_str(alloc, "out of memory"),
    }
}
