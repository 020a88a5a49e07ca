//! The S-expressions of definitions.

ghost use Rattle.std.specs.Prelude.{IfOk, IsErrOf, IsSome, None, OnOk, Some, [], false, true};
ghost use Rattle.std.specs.Prelude.{◌∷◌, ◌≡◌};
ghost use Rattle.isle_ast.specs.MacroArgs.{definition_has_macro_arg};
ghost use Rattle.isle_ast.specs.TreeView.{definition_of};
ghost use Rattle.isle_printer.specs.DefinitionShapes.{definition_shape};
ghost use Rattle.isle_printer_layout.specs.Pieces.{nothing_made, put_before};
ghost use Rattle.isle_printer_layout.specs.Sexp.{unless};
ghost use Rattle.isle_printer_layout.specs.SexpView.{sexp_of};
ghost use Rattle.isle_printer_layout.specs.declared.sexpr.PrintFault.TheVariants.{MacroArg, Memory};

use super::rules;
use super::to_sexpr::{Put, ToSExpr};
use isle_ast::ast::Def;
use isle_printer_layout::{Pieces, PrintFault, SExpr, Tape, sexpr_of};
use isle_printer_verification::definitions as specs;
use std::alloc::{AllocError, Global};

impl ToSExpr for Def {
    ghost meaning = { λ d. unless
        (definition_has_macro_arg (definition_of d)) (definition_shape (definition_of d)) };

    fn to_sexpr(&self, alloc: Global) -> Result<SExpr, PrintFault>
        ensures meant { IfOk result (λ s. unless
            (definition_has_macro_arg (definition_of self.now))
            (definition_shape (definition_of self.now))
            ≡ Some (sexp_of s)) }
        ensures refused { IsErrOf result MacroArg → unless
            (definition_has_macro_arg (definition_of self.now))
            (definition_shape (definition_of self.now))
            ≡ None }
        ensures memory { IsErrOf result Memory → IsSome (unless
            (definition_has_macro_arg (definition_of self.now))
            (definition_shape (definition_of self.now))) }
        ensures plain { IsErrOf result Memory
            → definition_has_macro_arg (definition_of self.now) ≡ false }
    {
        Ok(sexpr_of(pieces_of(alloc, self)?, alloc)?)
    }
}

/// The pieces of a definition's S-expression, unless the definition contains a macro argument.
pub(crate) fn pieces_of<'src>(alloc: Global, def: &'src Def) -> Result<Pieces<'src>, PrintFault>
    ensures plain { IfOk result (λ _. definition_has_macro_arg (definition_of def.now) ≡ false) }
    ensures made { IfOk result
        (λ pieces. pieces
        ≡ put_before (definition_shape (definition_of def.now) ∷ []) nothing_made) }
    ensures refused { IsErrOf result MacroArg
        → definition_has_macro_arg (definition_of def.now) ≡ true }
    ensures memory { IsErrOf result Memory
        → definition_has_macro_arg (definition_of def.now) ≡ false }
{
    if def.has_macro_arg() {
        return Err(PrintFault::MacroArg);
    }
    let mut tape = Tape::new(alloc)?;
    definition(def, &mut tape)?;
    Ok(tape.pieces())
}

/// Prepends a definition.
fn definition<'src>(def: &'src Def, tape: &mut Tape<'src>) -> Result<(), AllocError>
    ensures { OnOk result
        (tape.new ≡ put_before (definition_shape (definition_of def.now) ∷ []) tape.old) }
{
    match def {
        Def::Pragma(pragma) => match *pragma {},
        Def::TypeDef(ty) => ty.put(tape),
        Def::Rule(rule) => rules::rule(rule, tape),
        Def::Extractor(extractor) => rules::extractor(extractor, tape),
        Def::Decl(decl) => decl.put(tape),
        Def::Attr(attr) => attr.put(tape),
        Def::Spec(spec) => specs::spec_definition(spec, tape),
        Def::SpecMacro(definition) => specs::spec_macro(definition, tape),
        Def::Model(model) => model.put(tape),
        Def::State(state) => specs::state(state, tape),
        Def::Form(form) => form.put(tape),
        Def::Instantiation(instantiation) => instantiation.put(tape),
        Def::Extern(external) => external.put(tape),
        Def::Converter(converter) => converter.put(tape),
    }
}
