//! Which programs a file belongs to, where each program is the list of its paths.

ghost use Rattle.std.specs.Prelude.{◌≡◌, IfOk, OnOk, List, map, string_bytes, ℕ};
ghost use Rattle.std.specs.List.{list_any};
ghost use Rattle.isle_program_manifest.specs.Membership as Membership;
ghost use Rattle.isle_cli.specs.Patterns.{covers};

use isle_cli::patterns::covers;
use std::alloc::{AllocError, Global};

/// Returns whether an entry of a program's list does not take a path in, though it covers it: one
/// of the entries of what no program has covers the path, too, and the entry is not the path.
pub fn is_left_out(exclude: &[&str], entry: &str, path: &str) -> bool
    ensures { result
        ≡ Membership.is_left_out (map (λ other. other.now) exclude.now) entry.now path.now }
{
    entry != path && is_covered(exclude, path)
}

/// Returns whether one of the entries covers a path.
fn is_covered(entries: &[&str], path: &str) -> bool
    ensures { result ≡ list_any (λ entry. covers entry path.now)
        (map (λ entry. entry.now) entries.now) }
{
    for entry in entries {
        if covers(entry, path) {
            return true;
        }
    }
    false
}

/// The numbers of the programs that have a file, in order, from 0.
pub fn programs_with(
    alloc: Global,
    file: &str,
    programs: &[Vec<String>],
) -> Result<Vec<usize>, AllocError>
    ensures { IfOk result (λ numbers. numbers.items ≡ Membership.programs_with file.now 0
        (map (λ paths. map string_bytes paths.items) programs.now)) }
{
    let mut numbers = Vec::new(alloc);
    for (number, paths) in programs.iter().enumerate() {
        if has_file(paths, file) {
            numbers.push(number)?;
        }
    }
    Ok(numbers)
}

/// The paths of all programs that have a file, in order, each once; none if no program has it.
pub fn union_with(
    alloc: Global,
    file: &str,
    programs: &[Vec<String>],
) -> Result<Vec<String>, AllocError>
    ensures { IfOk result (λ paths. map string_bytes paths.items ≡ Membership.union_with file.now
        (map (λ paths. map string_bytes paths.items) programs.now)) }
{
    let mut union = Vec::new(alloc);
    for paths in programs {
        if has_file(paths, file) {
            add_all(&mut union, paths)?;
        }
    }
    Ok(union)
}

/// Returns whether one of the paths is a file.
pub fn has_file(paths: &[String], file: &str) -> bool
    ensures { result ≡ Membership.has_file file.now (map string_bytes paths.now) }
{
    for path in paths {
        if path.as_str() == file {
            return true;
        }
    }
    false
}

/// Adds the paths that are not there yet.
pub fn add_all(paths: &mut Vec<String>, more: &[String]) -> Result<(), AllocError>
    ensures { OnOk result (map string_bytes paths.new.items
        ≡ Membership.all_added (map string_bytes paths.old.items) (map string_bytes more.now)) }
{
    for path in more {
        if !has_file(paths, path.as_str()) {
            paths.push(path.clone()?)?;
        }
    }
    Ok(())
}
