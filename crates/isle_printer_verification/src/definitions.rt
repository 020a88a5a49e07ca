//! The S-expressions of specs, spec macros and states. Each function prepends to the tape.

ghost use Rattle.std.specs.Prelude.{◌≡◌, [], ◌∷◌, map, OnOk};
ghost use Rattle.isle_ast_verification.specs.TreeView.{modified_of, spec_definition_of};
ghost use Rattle.isle_ast_verification.specs.TreeView.{spec_macro_of};
ghost use Rattle.isle_ast_verification.specs.TreeView.{specs_of, state_of};
ghost use Rattle.isle_printer_layout.specs.Pieces.{put_before};
ghost use Rattle.isle_printer_verification.specs.SpecShapes.{clause_shape, modifies_shape};
ghost use Rattle.isle_printer_verification.specs.SpecShapes.{spec_definition_shape};
ghost use Rattle.isle_printer_verification.specs.SpecShapes.{spec_macro_shape};
ghost use Rattle.isle_printer_verification.specs.SpecShapes.{state_shape};

use super::models::model_type;
use super::spec_expressions::{each_spec, spec};
use isle_ast_verification::{Modifies, Spec, SpecExpr, SpecMacro, State};
use isle_printer_layout::Tape;
use isle_printer_layout::names::{headed_names, name};
use std::alloc::AllocError;

/// Prepends a spec: a clause for each kind that is not empty, and one for each modified state.
pub fn spec_definition<'src>(spec: &'src Spec, tape: &mut Tape<'src>) -> Result<(), AllocError>
    ensures { OnOk result (tape.new
        ≡ put_before (spec_definition_shape (spec_definition_of spec.now) ∷ []) tape.old) }
{
    let outer = tape.close()?;
    each_modifies(&spec.modifies, tape)?;
    clause(&spec.matches, "match", tape)?;
    clause(&spec.requires_, "require", tape)?;
    clause(&spec.provides, "provide", tape)?;
    headed_names(&spec.term, &spec.args, tape)?;
    tape.atom("spec")?;
    tape.open(outer)
}

/// Prepends a clause, unless it has no spec expressions.
fn clause<'src>(
    specs: &'src [SpecExpr],
    word: &'src str,
    tape: &mut Tape<'src>,
) -> Result<(), AllocError>
    ensures { OnOk result
        (tape.new ≡ put_before (clause_shape word.now (specs_of specs.now)) tape.old) }
{
    if specs.is_empty() {
        return Ok(());
    }
    let outer = tape.close()?;
    each_spec(specs, tape)?;
    tape.atom(word)?;
    tape.open(outer)
}

/// Prepends the states that a term modifies.
fn each_modifies<'src>(states: &'src [Modifies], tape: &mut Tape<'src>) -> Result<(), AllocError>
    ensures { OnOk result
        (tape.new ≡ put_before (map modifies_shape (map modified_of states.now)) tape.old) }
{
    for at in (0..states.len()).rev() {
        modifies(&states[at], tape)?;
    }
    Ok(())
}

/// Prepends a state that a term modifies, with the condition if there is one.
pub fn modifies<'src>(modifies: &'src Modifies, tape: &mut Tape<'src>) -> Result<(), AllocError>
    ensures { OnOk result
        (tape.new ≡ put_before (modifies_shape (modified_of modifies.now) ∷ []) tape.old) }
{
    let outer = tape.close()?;
    if let Some(cond) = &modifies.cond {
        name(cond, tape)?;
    }
    name(&modifies.state, tape)?;
    tape.atom("modifies")?;
    tape.open(outer)
}

/// Prepends a macro of spec expressions.
pub fn spec_macro<'src>(
    definition: &'src SpecMacro,
    tape: &mut Tape<'src>,
) -> Result<(), AllocError>
    ensures { OnOk result (tape.new
        ≡ put_before (spec_macro_shape (spec_macro_of definition.now) ∷ []) tape.old) }
{
    let outer = tape.close()?;
    spec(&definition.body, tape)?;
    headed_names(&definition.name, &definition.params, tape)?;
    tape.atom("macro")?;
    tape.open(outer)
}

/// Prepends a state.
pub fn state<'src>(state: &'src State, tape: &mut Tape<'src>) -> Result<(), AllocError>
    ensures { OnOk result
        (tape.new ≡ put_before (state_shape (state_of state.now) ∷ []) tape.old) }
{
    let outer = tape.close()?;
    let inner = tape.close()?;
    spec(&state.default, tape)?;
    tape.atom("default")?;
    tape.open(inner)?;
    let inner = tape.close()?;
    model_type(&state.ty, tape)?;
    tape.atom("type")?;
    tape.open(inner)?;
    name(&state.name, tape)?;
    tape.atom("state")?;
    tape.open(outer)
}
