//! The programs that a command line asks for, and their texts.

ghost use Rattle.std.specs.Prelude.{◌≡◌, ◌⊎◌, IfErr, IfOk};
ghost use Rattle.isle_cli.specs.declared.failure.Failure.TheVariants.{Memory, Usage};

use crate::choice::{Choice, ChoiceFault, Chosen, choose};
use crate::membership::add_all;
use isle_cli::arguments::{
    Argument, EXCLUDE_OPTION, Options, Request, has_flag, names_of, requested, setting_of,
    settings_of,
};
use isle_cli::failure::Failure;
use isle_cli::program::Program;
use isle_cli::sources::{Source, Sources, fault_line, read_file};
use isle_cli::streams::{ReadFault, write_whole};
use std::alloc::{AllocError, Global};
use std::env::Env;
use std::fs::Files;
use std::io::Write;

/// The option that asks for all programs of the manifest.
pub const ALL_OPTION: &str = "--all-programs";

/// The option that names one of them.
pub const NAME_OPTION: &str = "--program";

/// The arguments of a command line with these options, if it asks for work on programs of a
/// manifest.
pub fn asked_programs(alloc: Global, options: &Options, words: &[String]) -> Option<Vec<Argument>> {
    let arguments = match requested(alloc, options, words).ok()? {
        Request::Work(arguments) => arguments,
        Request::Help | Request::Version => return None,
    };
    if has_flag(&arguments, ALL_OPTION) || setting_of(&arguments, NAME_OPTION).is_some() {
        Some(arguments)
    } else {
        None
    }
}

/// The programs that the arguments ask for, of the nearest manifest at or above the folder that
/// they name, or the current one.
///
/// It fails with `Usage` if they name more than one folder or exclude anything, which is for a
/// manifest to say, and with `Memory`.
pub fn chosen_programs<R: Files + Env + AllocGlobal + Clone + Drop>(
    rt: &R,
    tool: &Program,
    arguments: &[Argument],
) -> Result<Result<Vec<Chosen>, ChoiceFault>, Failure>
    ensures { IfErr result (λ failure. (failure ≡ Memory) ⊎ (failure ≡ Usage)) }
{
    match asked_choice(rt, tool, arguments)? {
        Ok(choice) => Ok(Ok(choice.programs)),
        Err(fault) => Ok(Err(fault)),
    }
}

/// The same, with the manifest that has them. It fails as `chosen_programs` does.
pub fn asked_choice<R: Files + Env + AllocGlobal + Clone + Drop>(
    rt: &R,
    tool: &Program,
    arguments: &[Argument],
) -> Result<Result<Choice, ChoiceFault>, Failure>
    ensures { IfErr result (λ failure. (failure ≡ Memory) ⊎ (failure ≡ Usage)) }
{
    if setting_of(arguments, EXCLUDE_OPTION).is_some() {
        return Err(Failure::Usage);
    }
    let folders = names_of(rt.alloc(), arguments)?;
    let names = program_names(rt.alloc(), arguments)?;
    match folders.as_slice() {
        [] => Ok(choose(rt, tool, None, &names)),
        [folder] => Ok(choose(rt, tool, Some(folder.as_str()), &names)),
        _ => Err(Failure::Usage),
    }
}

/// The names of the programs that are asked for; none for all of them.
fn program_names(alloc: Global, arguments: &[Argument]) -> Result<Vec<String>, AllocError> {
    if has_flag(arguments, ALL_OPTION) {
        return Ok(Vec::new(alloc));
    }
    settings_of(alloc, arguments, NAME_OPTION)
}

/// Writes why no programs are chosen, and returns the exit status: 2 for a mistake of the manifest
/// or of a name, and 3 where there is no manifest. It fails with `Memory`.
pub fn tell_choice<E: Write>(fault: ChoiceFault, faults: &mut E) -> Result<u8, Failure>
    ensures ok { IfOk result (λ status. (status ≡ 2) ⊎ (status ≡ 3)) }
    ensures err { IfErr result (λ failure. failure ≡ Memory) }
{
    match fault {
        ChoiceFault::Memory => Err(Failure::Memory),
        ChoiceFault::Mistaken(line) => {
            let _ = write_whole(faults, line.as_bytes());
            Ok(2)
        }
        ChoiceFault::Unread(line) => {
            let _ = write_whole(faults, line.as_bytes());
            Ok(3)
        }
    }
}

/// The paths of the programs' files, each once.
pub fn all_paths(alloc: Global, programs: &[Chosen]) -> Result<Vec<String>, AllocError> {
    let mut paths = Vec::new(alloc);
    for program in programs {
        add_all(&mut paths, &program.listed.paths)?;
    }
    Ok(paths)
}

/// Reads the files of the programs, each once.
pub fn read_texts<R: Files + AllocGlobal + Clone + Drop>(
    rt: &R,
    tool: &Program,
    programs: &[Chosen],
) -> Result<Sources, AllocError> {
    let mut list = Vec::new(rt.alloc());
    let mut faults = String::new(rt.alloc());
    for name in all_paths(rt.alloc(), programs)? {
        match read_file(rt, name.as_str()) {
            Ok(text) => list.push(Source { name, text })?,
            Err(ReadFault::Memory) => return Err(AllocError),
            Err(fault) => {
                let line = fault_line(rt.alloc(), tool, name.as_str(), fault)?;
                faults.push_str(line.as_str())?;
            }
        }
    }
    Ok(Sources { list, faults })
}
