//! Forms and instantiations.
#![tactic(auto, unfolding(crate::specs::FormReaders::form_definition, crate::specs::FormReaders::signatures, crate::specs::FormReaders::signature, crate::specs::FormReaders::signature_inside, isle_parser_cursor::specs::Reading::in_parentheses, crate::specs::FormReaders::instantiation_of_term, crate::specs::FormReaders::tag, crate::specs::FormReaders::tag_inside))]

ghost use Rattle.isle_ast.specs.TreeView.{form_of, instantiation_of, signature_of, signatures_of};
ghost use Rattle.isle_ast_names.specs.TreeView.{name_of, names_of};
ghost use Rattle.isle_parser.specs.FormReaders.{form_definition, instantiation_of_term, signature};
ghost use Rattle.isle_parser.specs.FormReaders.{signatures, tag};
ghost use Rattle.isle_parser_cursor.specs.Outcomes.{ReadsOff};
ghost use Rattle.isle_parser_cursor.specs.Reading.{at_rparen, many};

use isle_ast::ast::{Form, Instantiation, Signature};
use isle_ast_names::Ident;
use isle_parser_cursor::cursor::{Cursor, Stop};
use isle_parser_verification::models::{parse_tagged_type, parse_tagged_types};
use std::alloc::Global;

pub(super) fn parse_form(cursor: &mut Cursor, alloc: Global) -> Result<Form, Stop>
    ensures { ReadsOff form_of form_definition cursor.old result cursor.new }
{
    let pos = cursor.pos();
    let name = cursor.parse_ident(alloc)?;
    let signatures = parse_signatures(cursor, alloc)?;
    Ok(Form {
        name,
        signatures,
        pos,
    })
}

/// Parses signatures, up to the closing parenthesis.
fn parse_signatures(cursor: &mut Cursor, alloc: Global) -> Result<Vec<Signature>, Stop>
    ensures { ReadsOff (λ ss. signatures_of ss.items) signatures cursor.old result cursor.new }
{
    let mut signatures = Vec::new(alloc);
    while !cursor.is_rparen() {
        signatures.push(parse_signature(cursor, alloc)?)?;
    }
    Ok(signatures)
}

fn parse_signature(cursor: &mut Cursor, alloc: Global) -> Result<Signature, Stop>
    ensures { ReadsOff signature_of signature cursor.old result cursor.new }
{
    cursor.expect_lparen(alloc)?;
    let pos = cursor.pos();
    let args = parse_tagged_types(cursor, alloc, "args")?;
    let ret = parse_tagged_type(cursor, alloc, "ret")?;
    cursor.close(alloc, Signature { args, ret, pos })
}

/// Parses a term's own signatures if `(` is ahead, else a form and tags.
pub(super) fn parse_instantiation(cursor: &mut Cursor, alloc: Global) -> Result<Instantiation, Stop>
    ensures { ReadsOff instantiation_of instantiation_of_term cursor.old result cursor.new }
{
    let pos = cursor.pos();
    let term = cursor.parse_ident(alloc)?;
    if cursor.is_lparen() {
        let signatures = parse_signatures(cursor, alloc)?;
        return Ok(Instantiation {
            term,
            form: None,
            signatures,
            tags: Vec::new(alloc),
            pos,
        });
    }
    let form = cursor.parse_ident(alloc)?;
    let tags = parse_tags(cursor, alloc)?;
    Ok(Instantiation {
        term,
        form: Some(form),
        signatures: Vec::new(alloc),
        tags,
        pos,
    })
}

/// Parses tags, up to the closing parenthesis.
fn parse_tags(cursor: &mut Cursor, alloc: Global) -> Result<Vec<Ident>, Stop>
    ensures { ReadsOff (λ is. names_of is.items) (many at_rparen tag) cursor.old result cursor.new }
{
    let mut tags = Vec::new(alloc);
    while !cursor.is_rparen() {
        tags.push(parse_tag(cursor, alloc)?)?;
    }
    Ok(tags)
}

fn parse_tag(cursor: &mut Cursor, alloc: Global) -> Result<Ident, Stop>
    ensures { ReadsOff name_of tag cursor.old result cursor.new }
{
    cursor.expect_lparen(alloc)?;
    let place = cursor.place();
    let word = cursor.expect_word(alloc)?;
    if word != "tag" {
        return Err(cursor.refuse_at(
            place,
            format!(in alloc; "Not a valid instantiate attribute: {word}"),
        ));
    }
    let tag = cursor.parse_ident(alloc)?;
    cursor.close(alloc, tag)
}
