//! Tokens as numbers, five for each.

ghost use Rattle.std.specs.Prelude.{◌≡◌, ◌++◌, ◌∷◌, [], IfOk, OnOk, map};
ghost use Rattle.serde_json.specs.View.{view};
ghost use Rattle.isle_lsp_colours.specs.Tokens.{column_after, count, encoded, numbers, origin};

use crate::classes::Class;
use crate::tokens::Token;
use isle_lsp_text::positions::{Position, PositionEncoding, START, place_at};
use serde_json::Value;
use std::alloc::{AllocError, Global};

/// The numbers of tokens in order, as JSON.
pub fn token_values(
    alloc: Global,
    encoding: PositionEncoding,
    text: &str,
    tokens: &[Token],
) -> Result<Vec<Value>, AllocError>
    ensures { IfOk result (λ values. map view values.items
        ≡ map count (encoded encoding text.now origin tokens.now)) }
{
    let mut values = Vec::new(alloc);
    let mut last = START;
    for token in tokens {
        let start = place_at(encoding, text, last, token.from);
        let end = place_at(encoding, text, start, token.to);
        add(
            last.position,
            start.position,
            end.position,
            token.class,
            &mut values,
        )?;
        last = start;
    }
    Ok(values)
}

/// Adds the numbers of a token, where the token before it begins at `before`.
fn add(
    before: Position,
    start: Position,
    end: Position,
    class: Class,
    values: &mut Vec<Value>,
) -> Result<(), AllocError>
    ensures { OnOk result (map view values.new.items
        ≡ map view values.old.items ++ map count (numbers before start end class)) }
{
    push(start.line.saturating_sub(before.line), values)?;
    push(column_after(before, start), values)?;
    push(end.unit.saturating_sub(start.unit), values)?;
    push(class.kind.type_number(), values)?;
    push(class.modifiers(), values)?;
    Ok(())
}

fn push(number: usize, values: &mut Vec<Value>) -> Result<(), AllocError>
    ensures { OnOk result (map view values.new.items
        ≡ map view values.old.items ++ count number ∷ []) }
{
    values.push(Value::from(number))?;
    Ok(())
}

/// The units on its line before a token, or between it and the one before, if that is on its line.
fn column_after(before: Position, start: Position) -> usize
    ensures { result ≡ column_after before start }
{
    if start.line == before.line {
        start.unit.saturating_sub(before.unit)
    } else {
        start.unit
    }
}
