//! The S-expressions of definitions of terms. Functions prepend to the tape.

ghost use Rattle.std.specs.Prelude.{OnOk, [], codes, map, ◌∷◌, ◌≡◌};
ghost use Rattle.isle_ast.specs.TreeView.{attribute_of, conversion_of, declaration_of, extern_of};
ghost use Rattle.isle_ast.specs.TreeView.{form_of, instantiation_of, kind_of, signatures_of};
ghost use Rattle.isle_ast.specs.TreeView.{target_of};
ghost use Rattle.isle_ast_names.specs.TreeView.{name_of, names_of, optional_name_of};
ghost use Rattle.isle_printer.specs.DefinitionShapes.{attribute_shape, conversion_shape};
ghost use Rattle.isle_printer.specs.DefinitionShapes.{declaration_shape, extern_shape};
ghost use Rattle.isle_printer.specs.DefinitionShapes.{form_definition_shape, instance_shapes};
ghost use Rattle.isle_printer.specs.DefinitionShapes.{instantiation_shape, kind_shape, tag_shape};
ghost use Rattle.isle_printer.specs.DefinitionShapes.{target_shape};
ghost use Rattle.isle_printer_layout.specs.NameShapes.{form_shape};
ghost use Rattle.isle_printer_layout.specs.Pieces.{put_before};
ghost use Rattle.isle_printer_layout.specs.Sexp.{atom};

use super::models::each_signature;
use super::to_sexpr::Put;
use isle_ast::ast::{
    Attr, AttrKind, AttrTarget, Converter, Decl, Extern, Form, Ident, Instantiation, Signature,
};
use isle_printer_layout::Tape;
use isle_printer_layout::names::{constant, flag, name, names};
use std::alloc::AllocError;

impl Put for Decl {
    ghost shape = { λ d. declaration_shape (declaration_of d) };

    fn put<'src>(&'src self, tape: &mut Tape<'src>) -> Result<(), AllocError> {
        let outer = tape.close()?;
        name(&self.ret_ty, tape)?;
        names(&self.arg_tys, tape)?;
        name(&self.term, tape)?;
        flag("rec", self.rec, tape)?;
        flag("partial", self.partial, tape)?;
        flag("multi", self.multi, tape)?;
        flag("pure", self.pure, tape)?;
        tape.atom("decl")?;
        tape.open(outer)
    }
}

impl Put for Form {
    ghost shape = { λ f. form_definition_shape (form_of f) };

    fn put<'src>(&'src self, tape: &mut Tape<'src>) -> Result<(), AllocError> {
        let outer = tape.close()?;
        each_signature(&self.signatures, tape)?;
        name(&self.name, tape)?;
        tape.atom("form")?;
        tape.open(outer)
    }
}

impl Put for Instantiation {
    ghost shape = { λ i. instantiation_shape (instantiation_of i) };

    fn put<'src>(&'src self, tape: &mut Tape<'src>) -> Result<(), AllocError> {
        let outer = tape.close()?;
        each_tag(&self.tags, tape)?;
        instance(&self.form, &self.signatures, tape)?;
        name(&self.term, tape)?;
        tape.atom("instantiate")?;
        tape.open(outer)
    }
}

impl Put for Extern {
    ghost shape = { λ e. extern_shape (extern_of e) };

    fn put<'src>(&'src self, tape: &mut Tape<'src>) -> Result<(), AllocError> {
        let outer = tape.close()?;
        match self {
            Extern::Extractor {
                term,
                func,
                pos: _,
                infallible,
            } => {
                name(func, tape)?;
                name(term, tape)?;
                flag("infallible", *infallible, tape)?;
                tape.atom("extractor")?;
            }
            Extern::Constructor { term, func, pos: _ } => {
                name(func, tape)?;
                name(term, tape)?;
                tape.atom("constructor")?;
            }
            Extern::Const {
                name: ident,
                ty,
                pos: _,
            } => {
                name(ty, tape)?;
                constant(ident, tape)?;
                tape.atom("const")?;
            }
        }
        tape.atom("extern")?;
        tape.open(outer)
    }
}

impl Put for Converter {
    ghost shape = { λ c. conversion_shape (conversion_of c) };

    fn put<'src>(&'src self, tape: &mut Tape<'src>) -> Result<(), AllocError> {
        let outer = tape.close()?;
        name(&self.term, tape)?;
        name(&self.outer_ty, tape)?;
        name(&self.inner_ty, tape)?;
        tape.atom("convert")?;
        tape.open(outer)
    }
}

impl Put for AttrKind {
    ghost shape = { λ k. kind_shape (kind_of k) };

    fn put<'src>(&'src self, tape: &mut Tape<'src>) -> Result<(), AllocError> {
        match self {
            AttrKind::Chain => verification("chain", tape),
            AttrKind::Priority => verification("priority", tape),
            AttrKind::Tag(name) => tag(name, tape),
        }
    }
}

impl Put for Attr {
    ghost shape = { λ a. attribute_shape (attribute_of a) };

    fn put<'src>(&'src self, tape: &mut Tape<'src>) -> Result<(), AllocError> {
        let outer = tape.close()?;
        each_kind(&self.kinds, tape)?;
        target(&self.target, tape)?;
        tape.atom("attr")?;
        tape.open(outer)
    }
}

/// Prepends the form if there is one, else the signatures.
fn instance<'src>(
    form: &'src Option<Ident>,
    signatures: &'src [Signature],
    tape: &mut Tape<'src>,
) -> Result<(), AllocError>
    ensures { OnOk result (tape.new
        ≡ put_before (instance_shapes (optional_name_of form.now) (signatures_of signatures.now))
        tape.old) }
{
    match form {
        Some(form) => name(form, tape),
        None => each_signature(signatures, tape),
    }
}

/// Prepends tags.
fn each_tag<'src>(tags: &'src [Ident], tape: &mut Tape<'src>) -> Result<(), AllocError>
    ensures { OnOk result (tape.new ≡ put_before (map tag_shape (names_of tags.now)) tape.old) }
{
    for at in (0..tags.len()).rev() {
        tag(&tags[at], tape)?;
    }
    Ok(())
}

/// Prepends a tag.
fn tag<'src>(tag: &'src Ident, tape: &mut Tape<'src>) -> Result<(), AllocError>
    ensures { OnOk result (tape.new ≡ put_before (tag_shape (name_of tag.now) ∷ []) tape.old) }
{
    let outer = tape.close()?;
    name(tag, tape)?;
    tape.atom("tag")?;
    tape.open(outer)
}

/// Prepends the target of an attribute.
fn target<'src>(target: &'src AttrTarget, tape: &mut Tape<'src>) -> Result<(), AllocError>
    ensures { OnOk result (tape.new ≡ put_before (target_shape (target_of target.now)) tape.old) }
{
    match target {
        AttrTarget::Term(term) => name(term, tape),
        AttrTarget::Rule(rule) => {
            name(rule, tape)?;
            tape.atom("rule")
        }
    }
}

/// Prepends the attributes of a definition.
fn each_kind<'src>(kinds: &'src [AttrKind], tape: &mut Tape<'src>) -> Result<(), AllocError>
    ensures { OnOk result
        (tape.new ≡ put_before (map kind_shape (map kind_of kinds.now)) tape.old) }
{
    for at in (0..kinds.len()).rev() {
        kinds[at].put(tape)?;
    }
    Ok(())
}

/// Prepends the list of `veri` and a word.
fn verification<'src>(word: &'src str, tape: &mut Tape<'src>) -> Result<(), AllocError>
    ensures { OnOk result (tape.new
        ≡ put_before (form_shape (codes "veri") (atom word.now ∷ []) ∷ []) tape.old) }
{
    let outer = tape.close()?;
    tape.atom(word)?;
    tape.atom("veri")?;
    tape.open(outer)
}
