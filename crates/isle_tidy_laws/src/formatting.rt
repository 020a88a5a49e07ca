//! The output of `format` is tidy.

ghost use Rattle.std.specs.Prelude.{IfOk, string_bytes};
ghost use Rattle.isle_tidy_core.specs.Tidied.{IsTidyTextOf};

use isle_syntax::format;
use isle_syntax::lexer::Fault;
use std::alloc::Global;

/// Calls `isle_syntax::format`, as a law of it: at every width its output is tidy, so
/// `isle_tidy_core::tidy` does not change it.
pub fn formatted(alloc: Global, text: &str, width: usize) -> Result<String, Fault>
    ensures { IfOk result (λ answer. IsTidyTextOf (string_bytes answer) (string_bytes answer)) }
{
    format(alloc, text, width)
}
