//! The S-expressions of rules, conditions and extractors. Functions prepend to the tape.

ghost use Rattle.std.specs.Prelude.{IfOk, IsErrOf, IsSome, None, OnOk, Some, [], false, map};
ghost use Rattle.std.specs.Prelude.{◌∷◌, ◌≡◌};
ghost use Rattle.isle_ast_names.specs.TreeView.{optional_name_of};
ghost use Rattle.isle_ast_rules.specs.MacroArgs.{condition_has_macro_arg, extractor_has_macro_arg};
ghost use Rattle.isle_ast_rules.specs.MacroArgs.{rule_has_macro_arg};
ghost use Rattle.isle_ast_rules.specs.TreeView.{condition_of, conditions_of, extractor_of, rule_of};
ghost use Rattle.isle_printer.specs.RuleShapes.{condition_shape, extractor_shape, priority_shape};
ghost use Rattle.isle_printer.specs.RuleShapes.{rule_name_shape, rule_shape};
ghost use Rattle.isle_printer_layout.specs.Pieces.{put_before};
ghost use Rattle.isle_printer_layout.specs.Sexp.{unless};
ghost use Rattle.isle_printer_layout.specs.SexpView.{sexp_of};
ghost use Rattle.isle_printer_layout.specs.declared.sexpr.PrintFault.TheVariants.{MacroArg, Memory};

use super::expressions::expression;
use super::patterns::pattern;
use super::to_sexpr::ToSExpr;
use isle_ast::ast::{Extractor, Ident, IfLet, Rule};
use isle_printer_layout::names::{headed_names, name};
use isle_printer_layout::{PrintFault, SExpr, Tape, sexpr_of};
use std::alloc::{AllocError, Global};

impl ToSExpr for IfLet {
    ghost meaning = { λ c. unless
        (condition_has_macro_arg (condition_of c)) (condition_shape (condition_of c)) };

    fn to_sexpr(&self, alloc: Global) -> Result<SExpr, PrintFault>
        ensures meant { IfOk result (λ s. unless
            (condition_has_macro_arg (condition_of self.now))
            (condition_shape (condition_of self.now))
            ≡ Some (sexp_of s)) }
        ensures refused { IsErrOf result MacroArg → unless
            (condition_has_macro_arg (condition_of self.now))
            (condition_shape (condition_of self.now))
            ≡ None }
        ensures memory { IsErrOf result Memory → IsSome (unless
            (condition_has_macro_arg (condition_of self.now))
            (condition_shape (condition_of self.now))) }
        ensures plain { IsErrOf result Memory
            → condition_has_macro_arg (condition_of self.now) ≡ false }
    {
        if self.has_macro_arg() {
            return Err(PrintFault::MacroArg);
        }
        let mut tape = Tape::new(alloc)?;
        condition(self, &mut tape)?;
        Ok(sexpr_of(tape.pieces(), alloc)?)
    }
}

impl ToSExpr for Rule {
    ghost meaning = { λ r. unless (rule_has_macro_arg (rule_of r)) (rule_shape (rule_of r)) };

    fn to_sexpr(&self, alloc: Global) -> Result<SExpr, PrintFault>
        ensures meant { IfOk result (λ s. unless
            (rule_has_macro_arg (rule_of self.now))
            (rule_shape (rule_of self.now))
            ≡ Some (sexp_of s)) }
        ensures refused { IsErrOf result MacroArg → unless
            (rule_has_macro_arg (rule_of self.now))
            (rule_shape (rule_of self.now))
            ≡ None }
        ensures memory { IsErrOf result Memory → IsSome (unless
            (rule_has_macro_arg (rule_of self.now))
            (rule_shape (rule_of self.now))) }
        ensures plain { IsErrOf result Memory
            → rule_has_macro_arg (rule_of self.now) ≡ false }
    {
        if self.has_macro_arg() {
            return Err(PrintFault::MacroArg);
        }
        let mut tape = Tape::new(alloc)?;
        rule(self, &mut tape)?;
        Ok(sexpr_of(tape.pieces(), alloc)?)
    }
}

impl ToSExpr for Extractor {
    ghost meaning = { λ e. unless
        (extractor_has_macro_arg (extractor_of e)) (extractor_shape (extractor_of e)) };

    fn to_sexpr(&self, alloc: Global) -> Result<SExpr, PrintFault>
        ensures meant { IfOk result (λ s. unless
            (extractor_has_macro_arg (extractor_of self.now))
            (extractor_shape (extractor_of self.now))
            ≡ Some (sexp_of s)) }
        ensures refused { IsErrOf result MacroArg → unless
            (extractor_has_macro_arg (extractor_of self.now))
            (extractor_shape (extractor_of self.now))
            ≡ None }
        ensures memory { IsErrOf result Memory → IsSome (unless
            (extractor_has_macro_arg (extractor_of self.now))
            (extractor_shape (extractor_of self.now))) }
        ensures plain { IsErrOf result Memory
            → extractor_has_macro_arg (extractor_of self.now) ≡ false }
    {
        if self.has_macro_arg() {
            return Err(PrintFault::MacroArg);
        }
        let mut tape = Tape::new(alloc)?;
        extractor(self, &mut tape)?;
        Ok(sexpr_of(tape.pieces(), alloc)?)
    }
}

/// Prepends a condition, always as `if-let`.
fn condition<'src>(condition: &'src IfLet, tape: &mut Tape<'src>) -> Result<(), AllocError>
    ensures { OnOk result
        (tape.new ≡ put_before (condition_shape (condition_of condition.now) ∷ []) tape.old) }
{
    let outer = tape.close()?;
    expression(&condition.expr, tape)?;
    pattern(&condition.pattern, tape)?;
    tape.atom("if-let")?;
    tape.open(outer)
}

/// Prepends a rule.
pub(super) fn rule<'src>(rule: &'src Rule, tape: &mut Tape<'src>) -> Result<(), AllocError>
    ensures { OnOk result (tape.new ≡ put_before (rule_shape (rule_of rule.now) ∷ []) tape.old) }
{
    let outer = tape.close()?;
    expression(&rule.expr, tape)?;
    each_condition(&rule.iflets, tape)?;
    pattern(&rule.pattern, tape)?;
    priority(rule.prio, tape)?;
    rule_name(&rule.name, tape)?;
    tape.atom("rule")?;
    tape.open(outer)
}

/// Prepends the name of a rule, if it has one.
fn rule_name<'src>(ident: &'src Option<Ident>, tape: &mut Tape<'src>) -> Result<(), AllocError>
    ensures { OnOk result
        (tape.new ≡ put_before (rule_name_shape (optional_name_of ident.now)) tape.old) }
{
    match ident {
        Some(ident) => name(ident, tape),
        None => Ok(()),
    }
}

/// Prepends a priority, if there is one.
fn priority(prio: Option<i64>, tape: &mut Tape) -> Result<(), AllocError>
    ensures { OnOk result (tape.new ≡ put_before (priority_shape prio) tape.old) }
{
    if let Some(prio) = prio {
        tape.owned(prio.to_string(tape.alloc())?)?;
    }
    Ok(())
}

/// Prepends conditions.
fn each_condition<'src>(conditions: &'src [IfLet], tape: &mut Tape<'src>) -> Result<(), AllocError>
    ensures { OnOk result
        (tape.new ≡ put_before (map condition_shape (conditions_of conditions.now)) tape.old) }
{
    for at in (0..conditions.len()).rev() {
        condition(&conditions[at], tape)?;
    }
    Ok(())
}

/// Prepends an extractor.
pub(super) fn extractor<'src>(
    extractor: &'src Extractor,
    tape: &mut Tape<'src>,
) -> Result<(), AllocError>
    ensures { OnOk result
        (tape.new ≡ put_before (extractor_shape (extractor_of extractor.now) ∷ []) tape.old) }
{
    let outer = tape.close()?;
    pattern(&extractor.template, tape)?;
    headed_names(&extractor.term, &extractor.args, tape)?;
    tape.atom("extractor")?;
    tape.open(outer)
}
