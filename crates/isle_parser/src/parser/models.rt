//! Models of the types and constants.
#![tactic(auto, unfolding(crate::specs::ModelReaders::model_definition, isle_parser_cursor::specs::Reading::in_parentheses, crate::specs::ModelReaders::model_content_inside, crate::specs::ModelReaders::const_inside))]

ghost use Rattle.isle_ast.specs.TreeView.{model_content_of, model_definition_of};
ghost use Rattle.isle_parser.specs.ModelReaders.{model_content_inside, model_definition};
ghost use Rattle.isle_parser_cursor.specs.Outcomes.{IsPlace, ReadsOff, source};

use isle_ast::ast::{Model, ModelValue};
use isle_base::lexer::Pos;
use isle_parser_cursor::cursor::{Cursor, Stop};
use isle_parser_verification::models::parse_model_type;
use isle_parser_verification::spec_expressions::parse_spec_expr;
use std::alloc::Global;

pub(super) fn parse_model(cursor: &mut Cursor, alloc: Global) -> Result<Model, Stop>
    ensures { ReadsOff model_definition_of model_definition cursor.old result cursor.new }
{
    let place = cursor.place();
    let name = cursor.parse_ident(alloc)?;
    cursor.expect_lparen(alloc)?;
    let val = parse_model_value(cursor, alloc, place)?;
    cursor.close(alloc, Model { name, val })
}

/// Parses the contents of a model. The model's name is at `place`.
fn parse_model_value(cursor: &mut Cursor, alloc: Global, place: Pos) -> Result<ModelValue, Stop>
    requires { IsPlace (source cursor.old) place }
    ensures { ReadsOff model_content_of model_content_inside cursor.old result cursor.new }
{
    if cursor.eat_sym_str(alloc, "type")? {
        return Ok(ModelValue::TypeValue(parse_model_type(cursor, alloc)?));
    }
    if cursor.eat_sym_str(alloc, "const")? {
        return Ok(ModelValue::ConstValue(parse_spec_expr(cursor, alloc)?));
    }
    Err(cursor.refuse_at(
        place,
        String::from_str(alloc, "Model must be a type or const"),
    ))
}
