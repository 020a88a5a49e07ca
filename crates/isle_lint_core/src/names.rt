//! Lists of names: which occur twice.

ghost use Rattle.std.specs.Prelude.{◌≡◌, ◌∷◌, [], ◌++◌, List, IfOk, OnOk, not};
ghost use Rattle.isle_ast_names.specs.Tree.{Name};
ghost use Rattle.isle_ast_names.specs.TreeView.{name_of};
ghost use Rattle.isle_lint_core.specs.Names.{has, is_private, kept_if, names_at, repeated};
ghost use Rattle.isle_lint_core.specs.Seen.{Knows};

use isle_ast::ast::Ident;
use std::alloc::{AllocError, Global};
use std::collections::BTreeSet;

/// Adds a name if it counts.
pub fn add_if<'a>(
    counts: bool,
    name: &'a Ident,
    found: &mut Vec<&'a Ident>,
) -> Result<(), AllocError>
    ensures { OnOk result (names_at found.new.items
        ≡ names_at found.old.items ++ kept_if counts (name_of name.now)) }
{
    if counts {
        found.push(name)?;
    }
    Ok(())
}

pub fn has(names: &[&Ident], text: &str) -> bool
    ensures { result ≡ has (names_at names.now) text.now }
{
    for name in names {
        if name.0.as_str() == text {
            return true;
        }
    }
    false
}

/// Returns whether a name begins with `_`.
pub fn is_private(text: &str) -> bool
    ensures { result ≡ is_private text.now }
{
    match text.as_bytes() {
        [first, ..] => *first == b'_',
        [] => false,
    }
}

/// The names that are equal to a name before them, by text.
pub fn repeats<'a>(alloc: Global, names: &[&'a Ident]) -> Result<Vec<&'a Ident>, AllocError>
    ensures { IfOk result
        (λ found. names_at found.items ≡ repeated [] (names_at names.now)) }
{
    let mut seen = BTreeSet::new(alloc);
    find_repeats(alloc, &mut seen, names)
}

/// The names that are in `seen` or equal to a name before them. Adds all of them to `seen`.
fn find_repeats<'a>(
    alloc: Global,
    seen: &mut BTreeSet<&'a str>,
    names: &[&'a Ident],
) -> Result<Vec<&'a Ident>, AllocError>
    ensures { IfOk result (λ found. (earlier : List Name) → Knows seen.old earlier
        → names_at found.items ≡ repeated earlier (names_at names.now)) }
{
    let mut found = Vec::new(alloc);
    for name in names {
        let is_new = put(seen, name)?;
        add_if(!is_new, name, &mut found)?;
    }
    Ok(found)
}

/// Adds a name to `seen`. Returns whether it is new.
fn put<'a>(seen: &mut BTreeSet<&'a str>, name: &'a Ident) -> Result<bool, AllocError>
    ensures new { IfOk result (λ new. (names : List Name) → Knows seen.old names
        → new ≡ not (has names (name_of name.now).text)) }
    ensures known { OnOk result ((names : List Name) → Knows seen.old names
        → Knows seen.new (name_of name.now ∷ names)) }
{
    Ok(seen.insert(name.0.as_str())?)
}
