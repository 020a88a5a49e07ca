//! Formats one definition after another.

ghost use Rattle.std.specs.Prelude.{◌≡◌, ◌↔◌, Err, IfErr, IsErrOf, List, Ok, OnOk, [], ℕ};
ghost use Rattle.std.specs.Prelude.{false, string_bytes, true};
ghost use Rattle.isle_base.specs.Steps.{IfError};
ghost use Rattle.isle_base.specs.declared.fault.Fault.TheVariants.{Failed};
ghost use Rattle.isle_parser.specs.NextDefinition.{RefusesNext, has_failed};
ghost use Rattle.isle_syntax.specs.Format.{IsFormatted};
ghost use Rattle.isle_syntax.specs.Streaming.{IsAtStart, IsDone, IsPut, IsRefusedWith};

use isle_base::lexer::Fault;
use isle_parser::dropping::drop_definition;
use isle_parser::parser::Parser;
use isle_printer::lines::put_definition;
use isle_printer::printer::{Looks, PrintFault};
use std::alloc::Global;

/// Appends the prints of a parser's remaining definitions, one after another.
pub(crate) fn put_all(
    alloc: Global,
    parser: &mut Parser,
    width: usize,
    answer: &mut String,
) -> Result<(), Fault>
    requires empty { string_bytes answer.old ≡ [] }
    requires ready { has_failed parser.old ≡ false }
    ensures formatted { (text : List ℕ) → IsAtStart text parser.old
        → OnOk result (IsFormatted width text (string_bytes answer.new)) }
    ensures refused { (text : List ℕ) → IsAtStart text parser.old
        → IfErr result (IfError (IsRefusedWith text)) }
    ensures never_failed { IsErrOf result Failed → ⊥ }
{
    while put_next(alloc, parser, width, answer)? {}
    Ok(())
}

/// Appends the print of the next definition, and returns whether there was one.
fn put_next(
    alloc: Global,
    parser: &mut Parser,
    width: usize,
    answer: &mut String,
) -> Result<bool, Fault>
    ensures put { result ≡ Ok true
        → IsPut width parser.old parser.new (string_bytes answer.old) (string_bytes answer.new) }
    ensures done { result ≡ Ok false → IsDone parser.old parser.new }
    ensures kept { result ≡ Ok false → string_bytes answer.new ≡ string_bytes answer.old }
    ensures refused { IfErr result (IfError (RefusesNext parser.old.cursor)) }
    ensures failed { IsErrOf result Failed ↔ (has_failed parser.old ≡ true) }
{
    let next = parser.next_def(alloc)?;
    let Some(def) = next else {
        return Ok(false);
    };
    let put = put_definition(alloc, &def, width, &mut Looks::new(), answer);
    drop_definition(def);
    match put {
        Ok(()) => Ok(true),
        Err(PrintFault::MacroArg) => unreachable!(),
        Err(PrintFault::Memory) => Err(Fault::Memory),
    }
}
