//! Declarations, attributes, externals and conversions of terms; and pragmas.
#![tactic(auto, unfolding(crate::specs::DefinitionReaders::declaration, crate::specs::DefinitionReaders::conversion, crate::specs::TermReaders::attribute, crate::specs::TermReaders::kind, isle_parser_cursor::specs::Reading::in_parentheses, crate::specs::TermReaders::kind_inside, crate::specs::TermReaders::veri_kind, crate::specs::TermReaders::extern_definition, crate::specs::TermReaders::extern_etor, crate::specs::TermReaders::extern_constant))]

ghost use Rattle.std.specs.Prelude.{◌≡◌, IfErr, map};
ghost use Rattle.isle_ast.specs.TreeView.{attribute_of, conversion_of, declaration_of, extern_of};
ghost use Rattle.isle_ast.specs.TreeView.{kind_of};
ghost use Rattle.isle_parser.specs.DefinitionReaders.{conversion, declaration, pragma};
ghost use Rattle.isle_parser.specs.TermReaders.{attribute, extern_constant, extern_definition};
ghost use Rattle.isle_parser.specs.TermReaders.{extern_etor, kind, kind_inside, veri_kind};
ghost use Rattle.isle_parser_cursor.specs.Outcomes.{IsPlace, ReadsOff, Stops, left, source};
ghost use Rattle.isle_parser_cursor.specs.Reading.{at_rparen, many};

use isle_ast::ast::{Attr, AttrKind, AttrTarget, Converter, Decl, Extern, Pragma};
use isle_base::lexer::Pos;
use isle_parser_cursor::cursor::{Cursor, Stop};
use isle_parser_rules::names::parse_const;
use std::alloc::Global;

pub(super) fn parse_decl(cursor: &mut Cursor, alloc: Global) -> Result<Decl, Stop>
    ensures { ReadsOff declaration_of declaration cursor.old result cursor.new }
{
    let pos = cursor.pos();

    let pure = cursor.eat_sym_str(alloc, "pure")?;
    let multi = cursor.eat_sym_str(alloc, "multi")?;
    let partial = cursor.eat_sym_str(alloc, "partial")?;
    let rec = cursor.eat_sym_str(alloc, "rec")?;

    let term = cursor.parse_ident(alloc)?;
    let arg_tys = cursor.parse_idents(alloc)?;
    let ret_ty = cursor.parse_ident(alloc)?;

    Ok(Decl {
        term,
        arg_tys,
        ret_ty,
        pure,
        multi,
        partial,
        rec,
        pos,
    })
}

pub(super) fn parse_converter(cursor: &mut Cursor, alloc: Global) -> Result<Converter, Stop>
    ensures { ReadsOff conversion_of conversion cursor.old result cursor.new }
{
    let pos = cursor.pos();
    let inner_ty = cursor.parse_ident(alloc)?;
    let outer_ty = cursor.parse_ident(alloc)?;
    let term = cursor.parse_ident(alloc)?;
    Ok(Converter {
        term,
        inner_ty,
        outer_ty,
        pos,
    })
}

/// Rejects every pragma, since none is defined.
pub(super) fn parse_pragma(cursor: &mut Cursor, alloc: Global) -> Result<Pragma, Stop>
    ensures same { source cursor.new ≡ source cursor.old }
    ensures refused { IfErr result (Stops (pragma (left cursor.old)) (source cursor.new)) }
{
    let place = cursor.place();
    let ident = cursor.parse_ident(alloc)?;
    let pragma = ident.0.as_str();
    Err(cursor.refuse_at(place, format!(in alloc; "Unknown pragma '{pragma}'")))
}

pub(super) fn parse_attr(cursor: &mut Cursor, alloc: Global) -> Result<Attr, Stop>
    ensures { ReadsOff attribute_of attribute cursor.old result cursor.new }
{
    let pos = cursor.pos();
    let rule = cursor.eat_sym_str(alloc, "rule")?;
    let name = cursor.parse_ident(alloc)?;
    let target = if rule {
        AttrTarget::Rule(name)
    } else {
        AttrTarget::Term(name)
    };
    let kinds = parse_attr_kinds(cursor, alloc)?;
    Ok(Attr { target, kinds, pos })
}

/// Parses attributes, up to the closing parenthesis.
fn parse_attr_kinds(cursor: &mut Cursor, alloc: Global) -> Result<Vec<AttrKind>, Stop>
    ensures { ReadsOff (λ ks. map kind_of ks.items) (many at_rparen kind) cursor.old result
        cursor.new }
{
    let mut kinds = Vec::new(alloc);
    while !cursor.is_rparen() {
        kinds.push(parse_attr_kind(cursor, alloc)?)?;
    }
    Ok(kinds)
}

fn parse_attr_kind(cursor: &mut Cursor, alloc: Global) -> Result<AttrKind, Stop>
    ensures { ReadsOff kind_of kind cursor.old result cursor.new }
{
    cursor.expect_lparen(alloc)?;
    let kind = parse_attr_kind_inside(cursor, alloc)?;
    cursor.close(alloc, kind)
}

fn parse_attr_kind_inside(cursor: &mut Cursor, alloc: Global) -> Result<AttrKind, Stop>
    ensures { ReadsOff kind_of kind_inside cursor.old result cursor.new }
{
    let place = cursor.place();
    let word = cursor.expect_word(alloc)?;
    match word {
        "veri" => parse_attr_kind_veri(cursor, alloc),
        "tag" => Ok(AttrKind::Tag(cursor.parse_ident(alloc)?)),
        _ => Err(cursor.refuse_at(place, format!(in alloc; "Not a valid attribute: {word}"))),
    }
}

fn parse_attr_kind_veri(cursor: &mut Cursor, alloc: Global) -> Result<AttrKind, Stop>
    ensures { ReadsOff kind_of veri_kind cursor.old result cursor.new }
{
    let place = cursor.place();
    let word = cursor.expect_word(alloc)?;
    match word {
        "chain" => Ok(AttrKind::Chain),
        "priority" => Ok(AttrKind::Priority),
        _ => Err(cursor.refuse_at(
            place,
            format!(in alloc; "Not a valid verification attribute: {word}"),
        )),
    }
}

pub(super) fn parse_extern(cursor: &mut Cursor, alloc: Global) -> Result<Extern, Stop>
    ensures { ReadsOff extern_of extern_definition cursor.old result cursor.new }
{
    let place = cursor.place();
    let pos = cursor.pos();
    if cursor.eat_sym_str(alloc, "constructor")? {
        let term = cursor.parse_ident(alloc)?;
        let func = cursor.parse_ident(alloc)?;
        return Ok(Extern::Constructor { term, func, pos });
    }
    parse_extern_extractor(cursor, alloc, place, pos)
}

/// Parses an external extractor at position `pos`, or else a constant. The token after `extern` is
/// at `place`.
fn parse_extern_extractor(
    cursor: &mut Cursor,
    alloc: Global,
    place: Pos,
    pos: Pos,
) -> Result<Extern, Stop>
    requires { IsPlace (source cursor.old) place }
    ensures { ReadsOff extern_of (extern_etor pos) cursor.old result cursor.new }
{
    if cursor.eat_sym_str(alloc, "extractor")? {
        let infallible = cursor.eat_sym_str(alloc, "infallible")?;
        let term = cursor.parse_ident(alloc)?;
        let func = cursor.parse_ident(alloc)?;
        return Ok(Extern::Extractor {
            term,
            func,
            pos,
            infallible,
        });
    }
    parse_extern_const(cursor, alloc, place)
}

/// Parses an external constant. The token after `extern` is at `place`.
fn parse_extern_const(cursor: &mut Cursor, alloc: Global, place: Pos) -> Result<Extern, Stop>
    requires { IsPlace (source cursor.old) place }
    ensures { ReadsOff extern_of extern_constant cursor.old result cursor.new }
{
    if cursor.eat_sym_str(alloc, "const")? {
        let pos = cursor.pos();
        let name = parse_const(cursor, alloc)?;
        let ty = cursor.parse_ident(alloc)?;
        return Ok(Extern::Const { name, ty, pos });
    }
    Err(cursor.refuse_at(
        place,
        String::from_str(
            alloc,
            "Invalid extern: must be (extern constructor ...), (extern extractor ...) or \
             (extern const ...)",
        ),
    ))
}
