//! Findings.

ghost use Rattle.std.specs.Prelude.{◌≡◌, ◌++◌, IfOk, OnOk, map, string_bytes};
ghost use Rattle.isle_lint_core.specs.Finding.{all_found, finding_of, message_of};
ghost use Rattle.isle_lint_core.specs.Names.{names_at};

use crate::lint::Lint;
use crate::names::is_private;
use isle_ast::ast::Ident;
use isle_base::lexer::Pos;
use std::alloc::{AllocError, Global};

/// A name that a lint finds. Findings are ordered by position, then by lint, then by name.
#[derive(Clone, Copy, Debug, PartialEq, Eq, PartialOrd, Ord)]
pub struct Finding<'a> {
    /// The position of the name.
    pub pos: Pos,
    pub lint: Lint,
    pub name: &'a str,
}

impl<'a> Finding<'a> {
    /// Returns the message of the lint, with the name: `unused variable 'x'`. An `Err` means out of
    /// memory.
    pub fn message(&self, alloc: Global) -> Result<String, AllocError>
        ensures { IfOk result (λ text. string_bytes text ≡ message_of (finding_of self.now)) }
    {
        let mut text = String::from_str(alloc, self.lint.message())?;
        text.push_str(" '")?;
        text.push_str(self.name)?;
        text.push_str("'")?;
        Ok(text)
    }
}

/// Adds a finding of a lint for each name that doesn't begin with `_`.
pub fn add<'a>(
    found: &mut Vec<Finding<'a>>,
    lint: Lint,
    names: &[&'a Ident],
) -> Result<(), AllocError>
    ensures { OnOk result (map finding_of found.new.items
        ≡ map finding_of found.old.items ++ all_found lint (names_at names.now)) }
{
    for name in names {
        if !is_private(name.0.as_str()) {
            found.push(Finding {
                pos: name.1,
                lint,
                name: name.0.as_str(),
            })?;
        }
    }
    Ok(())
}
