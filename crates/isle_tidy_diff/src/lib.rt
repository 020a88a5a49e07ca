//! The unified diff of a text and its tidied one, as `diff -u` writes it.
#![tactic(auto)]

ghost use Rattle.std.specs.Prelude.{◌≡◌, IfOk};
ghost use Rattle.isle_tidy_diff.specs.Unified.{IsDiff, IsWritten, name_end};

pub mod edits;
pub mod hunks;
mod lines;

use edits::edits;
use hunks::push_hunks;
use std::alloc::{AllocError, Global};

/// The unified diff of an old text and a new one, in UTF-8; empty if they are equal.
///
/// Both texts have the same name in it. It shows three lines around each change. It need not be
/// the shortest one: lines are compared one after another, and a blank line of the old text is
/// dropped if the new text goes on with another line. So it is short if lines change in place or
/// blank lines go, as in tidying.
pub fn diff(alloc: Global, name: &str, old: &str, new: &str) -> Result<Vec<u8>, AllocError>
    ensures { IfOk result (λ diff. IsDiff name.now old.now new.now diff.items) }
{
    if old == new {
        return Ok(Vec::new(alloc));
    }
    written(alloc, name, old.as_bytes(), new.as_bytes())
}

/// The unified diff of two texts: their names, and the hunks.
fn written(alloc: Global, name: &str, old: &[u8], new: &[u8]) -> Result<Vec<u8>, AllocError>
    ensures { IfOk result (λ diff. IsWritten name.now old.now new.now diff.items) }
{
    let edits = edits(alloc, old, new)?;
    let end = name_end(name);
    let names = format!(in alloc; "--- {name}{end}\n+++ {name}{end}\n")?;
    let mut diff = Vec::new(alloc);
    diff.extend_from_slice(names.as_bytes())?;
    push_hunks(alloc, &edits, &mut diff)?;
    Ok(diff)
}

/// What `patch` needs behind a name that has a blank.
fn name_end(name: &str) -> &'static str
    ensures { result.now ≡ name_end name.now }
{
    if name.as_bytes().contains(&b' ') {
        "\t"
    } else {
        ""
    }
}
