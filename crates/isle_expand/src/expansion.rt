//! The expansion of a program, from its texts to the print.

ghost use Rattle.std.specs.Prelude.{◌≡◌, IfErr, IfOk, None, codes, false, map, string_bytes};
ghost use Rattle.isle_base.specs.Place.{nowhere};
ghost use Rattle.isle_ast.specs.Erased.{erase};
ghost use Rattle.isle_ast.specs.MacroArgs.{definitions_have_macro_arg};
ghost use Rattle.isle_ast.specs.Spelt.{IsSpelt};
ghost use Rattle.isle_ast.specs.TreeView.{definitions_of};
ghost use Rattle.isle_ast.specs.Writable.{AreWritable};
ghost use Rattle.isle_cli.specs.Sources.{source_of};
ghost use Rattle.isle_cli.specs.declared.failure.Failure.TheVariants.{Memory};
ghost use Rattle.isle_printer.specs.Printed.{IsPrinted};
ghost use Rattle.isle_expand_core.specs.Depth.{IsFirstDeep};
ghost use Rattle.isle_expand_core.specs.Views.{misuse_of};
ghost use Rattle.isle_expand_core.specs.Misuses.{misuse_pos, misuse_text};
ghost use Rattle.isle_expand_warnings.specs.Warnings.{warning_of, warnings_of};
ghost use Rattle.isle_expand.specs.Expansion.{AreWarnings, IsExpandFailure, IsPrintOfExpansion};
ghost use Rattle.isle_expand.specs.Expansion.{IsProgramOf, deep_line, warning_line};
ghost use Rattle.isle_expand.specs.Expansion.{warning_lines};
ghost use Rattle.isle_program.specs.Messages.{line_at};
ghost use Rattle.isle_program.specs.Reading.{IsReading};

use isle_base::lexer::Pos;
use isle_cli::failure::Failure;
use isle_cli::sources::Source;
use isle_expand_core::depth::first_deep;
use isle_expand_core::{ExpandFault, Misuse, Warning, expand, warnings};
use isle_parser::dropping::drop_definitions;
use isle_program::messages::line_at;
use isle_program::reports::format::Format;
use isle_program::reports::refusals::told_refusals;
use isle_program::trees::{Reading, drop_reading, read_all, refused_count};
use isle_syntax::ast::Def;
use isle_syntax::printer::{PrintFault, print};
use std::alloc::{AllocError, Global};

/// The output for a program.
#[derive(Drop)]
pub struct Answer {
    /// The print of the expansion.
    pub print: String,
    /// A line for each implicit conversion that the expansion may lose.
    pub warnings: String,
}

/// The print of the expansion of a program, and its warnings.
///
/// It fails with `Refused` if a text is refused, an expansion would nest too deeply, or an
/// extractor is misused, and with `Memory`.
pub fn answer_to(alloc: Global, sources: &[Source], width: usize) -> Result<Answer, Failure>
    ensures print { IfOk result (λ answer. IsPrintOfExpansion width (map source_of sources.now)
        (string_bytes answer.print)) }
    ensures warnings { IfOk result
        (λ answer. AreWarnings (map source_of sources.now) (string_bytes answer.warnings)) }
    ensures err { IfErr result
        (λ failure. IsExpandFailure failure (map source_of sources.now)) }
{
    let reading = read_all(alloc, sources)?;
    let answer = answer_to_reading(alloc, sources, &reading, width);
    drop_reading(reading);
    answer
}

/// The same of a program that is parsed.
fn answer_to_reading(
    alloc: Global,
    sources: &[Source],
    reading: &Reading,
    width: usize,
) -> Result<Answer, Failure>
    requires { IsReading (map source_of sources.now) (definitions_of reading.now.defs.items)
        reading.now.refusals.items }
    ensures print { IfOk result (λ answer. IsPrintOfExpansion width (map source_of sources.now)
        (string_bytes answer.print)) }
    ensures warnings { IfOk result
        (λ answer. AreWarnings (map source_of sources.now) (string_bytes answer.warnings)) }
    ensures err { IfErr result
        (λ failure. IsExpandFailure failure (map source_of sources.now)) }
{
    if refused_count(&reading.refusals) != 0 {
        let shown = told_refusals(alloc, Format::Human, sources, &reading.refusals)?;
        return Err(Failure::Refused(shown));
    }
    answer_to_program(alloc, sources, &reading.defs, width)
}

/// The same of the definitions of a program.
fn answer_to_program(
    alloc: Global,
    sources: &[Source],
    defs: &[Def],
    width: usize,
) -> Result<Answer, Failure>
    requires program { IsProgramOf (map source_of sources.now) (definitions_of defs.now) }
    requires plain { definitions_have_macro_arg (definitions_of defs.now) ≡ false }
    ensures print { IfOk result (λ answer. IsPrintOfExpansion width (map source_of sources.now)
        (string_bytes answer.print)) }
    ensures warnings { IfOk result
        (λ answer. AreWarnings (map source_of sources.now) (string_bytes answer.warnings)) }
    ensures err { IfErr result
        (λ failure. IsExpandFailure failure (map source_of sources.now)) }
{
    let print = printed_expansion(alloc, sources, defs, width)?;
    let warnings = told_warnings(alloc, sources, defs)?;
    Ok(Answer { print, warnings })
}

/// What is wrong with a definition whose expansion would nest too deeply.
const TOO_DEEP: &str = "more than 500 patterns in one another once extractors are expanded";

/// The print of the expansion of definitions. It fails with the first definition whose expansion
/// would nest too deeply, or else the first misuse of an extractor.
fn printed_expansion(
    alloc: Global,
    sources: &[Source],
    defs: &[Def],
    width: usize,
) -> Result<String, Failure>
    requires program { IsProgramOf (map source_of sources.now) (definitions_of defs.now) }
    requires plain { definitions_have_macro_arg (definitions_of defs.now) ≡ false }
    ensures ok { IfOk result (λ print. IsPrintOfExpansion width (map source_of sources.now)
        (string_bytes print)) }
    ensures err { IfErr result
        (λ failure. IsExpandFailure failure (map source_of sources.now)) }
{
    match first_deep(alloc, defs)? {
        Some(pos) => Err(Failure::Refused(deep_line(alloc, sources, pos)?)),
        None => printed_shallow_expansion(alloc, sources, defs, width),
    }
}

/// The same of definitions whose expansion does not nest too deeply.
fn printed_shallow_expansion(
    alloc: Global,
    sources: &[Source],
    defs: &[Def],
    width: usize,
) -> Result<String, Failure>
    requires program { IsProgramOf (map source_of sources.now) (definitions_of defs.now) }
    requires plain { definitions_have_macro_arg (definitions_of defs.now) ≡ false }
    requires shallow { IsFirstDeep (definitions_of defs.now) None }
    ensures ok { IfOk result (λ print. IsPrintOfExpansion width (map source_of sources.now)
        (string_bytes print)) }
    ensures err { IfErr result
        (λ failure. IsExpandFailure failure (map source_of sources.now)) }
{
    match expand(alloc, defs) {
        Ok(expansion) => {
            let print = print_writable(alloc, &expansion, width);
            drop_definitions(expansion);
            print
        }
        Err(ExpandFault::Misuse(misuse)) => {
            Err(Failure::Refused(misuse_line(alloc, sources, &misuse)?))
        }
        Err(ExpandFault::Memory) => Err(Failure::Memory),
    }
}

/// The line of a definition whose expansion would nest too deeply.
fn deep_line(alloc: Global, sources: &[Source], pos: Pos) -> Result<String, AllocError>
    ensures { IfOk result
        (λ line. string_bytes line ≡ deep_line (map source_of sources.now) pos) }
{
    line_at(alloc, sources, pos, "error", TOO_DEEP)
}

/// Prints writable definitions.
fn print_writable(alloc: Global, defs: &[Def], width: usize) -> Result<String, Failure>
    requires { AreWritable (definitions_of defs.now) }
    ensures printed { IfOk result
        (λ answer. IsPrinted width (definitions_of defs.now) (string_bytes answer)) }
    ensures read_back { IfOk result
        (λ answer. IsSpelt nowhere (string_bytes answer) (erase (definitions_of defs.now))) }
    ensures err { IfErr result (λ failure. failure ≡ Memory) }
{
    match print(alloc, defs, width) {
        Ok(answer) => Ok(answer),
        Err(PrintFault::MacroArg) => unreachable!(),
        Err(PrintFault::Memory) => Err(Failure::Memory),
    }
}

/// The line of a misuse of an extractor.
fn misuse_line(alloc: Global, sources: &[Source], misuse: &Misuse) -> Result<String, AllocError>
    ensures { IfOk result (λ line. string_bytes line ≡ line_at (map source_of sources.now)
        (misuse_pos (misuse_of misuse.now)) (codes "error")
        (misuse_text (misuse_of misuse.now))) }
{
    let message = misuse.to_string(alloc)?;
    line_at(alloc, sources, misuse.pos(), "error", message.as_str())
}

/// The lines of the warnings about definitions.
fn told_warnings(alloc: Global, sources: &[Source], defs: &[Def]) -> Result<String, AllocError>
    requires { IsProgramOf (map source_of sources.now) (definitions_of defs.now) }
    ensures { IfOk result
        (λ lines. AreWarnings (map source_of sources.now) (string_bytes lines)) }
{
    let warnings = warnings(alloc, defs)?;
    warning_lines(alloc, sources, &warnings)
}

fn warning_lines(
    alloc: Global,
    sources: &[Source],
    warnings: &[Warning],
) -> Result<String, AllocError>
    ensures { IfOk result (λ lines. string_bytes lines
        ≡ warning_lines (map source_of sources.now) (warnings_of warnings.now)) }
{
    let mut lines = String::new(alloc);
    for warning in warnings {
        let line = warning_line(alloc, sources, warning)?;
        lines.push_str(line.as_str())?;
    }
    Ok(lines)
}

fn warning_line(alloc: Global, sources: &[Source], warning: &Warning) -> Result<String, AllocError>
    ensures { IfOk result (λ line. string_bytes line
        ≡ warning_line (map source_of sources.now) (warning_of warning.now)) }
{
    let message = warning.to_string(alloc)?;
    line_at(alloc, sources, warning.pos(), "warning", message.as_str())
}
