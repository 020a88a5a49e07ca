//! An encoding as bytes of what `isle-check` and `isle-lint` find, for callers in other languages.
//!
//! It is a version and the list of the findings. A finding is a flag, 1 for an error and 0 for a
//! warning, then the name of its kind or of its lint, its position, its message, and the list of
//! its notes. A note is a position and a message. Numbers, flags, lists, texts and positions are
//! written as in the encoding of a tree, so the result is valid UTF-8.
//!
//! `specs/findings/Encoded.antt` defines the encoding, and the law `laws::encodings_end` says that
//! it loses nothing.

ghost use Rattle.std.specs.Prelude.{◌≡◌, IfOk, false, string_bytes};
ghost use Rattle.isle_ast.specs.MacroArgs.{definitions_have_macro_arg};
ghost use Rattle.isle_ast.specs.TreeView.{definitions_of};
ghost use Rattle.isle_encoding.specs.findings.Encoded.{IsEncodedLints, encoded_checks};

mod checks;
pub mod laws;
mod lints;
mod notes;
mod told;

use crate::findings::checks::put_findings;
use crate::findings::lints::put_lint_findings;
use isle_ast::ast::Def;
use isle_check_core::check;
use isle_lint_core::{Lint, findings};
use std::alloc::{AllocError, Global};

/// Checks a program as `isle_check_core::check` does, and encodes what is found: its errors, or
/// without an error its warnings.
///
/// No template may hold a macro argument, `Pattern::MacroArg`, which the parser never makes. An
/// `Err` means out of memory.
pub fn encode_checks(alloc: Global, defs: &[Def]) -> Result<String, AllocError>
    requires { definitions_have_macro_arg (definitions_of defs.now) ≡ false }
    ensures { IfOk result
        (λ bytes. string_bytes bytes ≡ encoded_checks (definitions_of defs.now)) }
{
    let found = check(alloc, defs)?;
    let mut out = String::new(alloc);
    put_findings(alloc, &mut out, &found)?;
    Ok(out)
}

/// Runs lints on a program as `isle_lint_core::findings` does, and encodes what they find.
///
/// Comments that allow a lint are no part of a tree, so they change nothing. An `Err` means out of
/// memory.
pub fn encode_lints(alloc: Global, defs: &[Def], lints: &[Lint]) -> Result<String, AllocError>
    ensures { IfOk result
        (λ bytes. IsEncodedLints lints.now (definitions_of defs.now) (string_bytes bytes)) }
{
    let found = findings(alloc, defs, lints)?;
    let mut out = String::new(alloc);
    put_lint_findings(alloc, &mut out, &found)?;
    Ok(out)
}
