//! What stands next at a place in an ISLE text.

ghost use Rattle.std.specs.Prelude.{◌≡◌, [], IfOk, OnOk, reverse};
ghost use Rattle.isle_base.specs.TokenView.{token_of_ref};
ghost use Rattle.isle_lsp_context.specs.Places.{IsSlotAt, closed, counted, goes_on, innermost};
ghost use Rattle.isle_lsp_context.specs.Places.{is_before, joined, lists_after, named, opened};
ghost use Rattle.isle_lsp_context.specs.Places.{slot_from};

use crate::scanning::{end_before, is_fault_before, pass, scan};
use crate::slot::Slot;
use crate::steps::{behind_at, behind_integer, behind_list, behind_symbol, inner};
use isle_base::scanner::{Scanner, TokenRef};
use std::alloc::{AllocError, Global};

/// What stands next at a byte offset of a text, in the innermost list around it. Its `)` may be
/// missing, and one that ends at the offset ends the list. A symbol or an integer that ends at the
/// offset may go on there, and does not count yet.
///
/// Parentheses in comments do not count, and lists that are open where a definition begins
/// (`begins_definition`) end there. Outside of all lists, and if a lexical error is before the
/// offset, anything may stand.
pub fn slot_at(alloc: Global, text: &str, offset: usize) -> Result<Slot, AllocError>
    ensures { IfOk result (λ slot. IsSlotAt text.now offset slot) }
{
    match scan(alloc, text)? {
        Some(scanner) => slot_ahead(alloc, scanner, text, offset),
        None => Ok(Slot::Any),
    }
}

/// What stands next at an offset, by the tokens that a scanner has not read yet.
fn slot_ahead(
    alloc: Global,
    mut scanner: Scanner,
    text: &str,
    offset: usize,
) -> Result<Slot, AllocError>
    ensures { IfOk result
        (λ slot. slot ≡ slot_from text.now offset scanner.entry.ending [] scanner.entry.coming) }
{
    let mut lists = Vec::new(alloc);
    while let Some(ahead) = scanner.peek() {
        let (pos, token) = *ahead;
        if !is_before(token, scanner.pos().offset, offset) {
            return Ok(innermost(&lists));
        }
        end_before(text, pos.offset, &mut lists);
        add(&mut lists, token)?;
        pass(alloc, &mut scanner)?;
    }
    if is_fault_before(&scanner, offset) {
        return Ok(Slot::Any);
    }
    Ok(innermost(&lists))
}

/// Returns whether a token that ends at `after` counts at a place.
fn is_before(token: TokenRef, after: usize, place: usize) -> bool
    ensures { result ≡ is_before place (token_of_ref token.entry) after }
{
    if goes_on(token) {
        after < place
    } else {
        after <= place
    }
}

/// Returns whether a token that ends at a place may go on there.
fn goes_on(token: TokenRef) -> bool
    ensures { result ≡ goes_on (token_of_ref token.entry) }
{
    matches!(token, TokenRef::Symbol(_) | TokenRef::Int(_))
}

/// Processes a token.
fn add(lists: &mut Vec<Slot>, token: TokenRef) -> Result<(), AllocError>
    ensures { OnOk result (reverse lists.new.items
        ≡ lists_after (token_of_ref token.entry) (reverse lists.old.items)) }
{
    match token {
        TokenRef::LParen => open(lists),
        TokenRef::RParen => close(lists),
        TokenRef::Symbol(symbol) => name(lists, symbol),
        TokenRef::Int(_) => count(lists),
        TokenRef::At => join(lists),
    }
}

/// Opens a list.
fn open(lists: &mut Vec<Slot>) -> Result<(), AllocError>
    ensures { OnOk result (reverse lists.new.items ≡ opened (reverse lists.old.items)) }
{
    let slot = match lists.last() {
        Some(outer) => inner(*outer),
        None => Slot::Definition,
    };
    lists.push(slot)?;
    Ok(())
}

/// Closes a list, which is an item of the next.
fn close(lists: &mut Vec<Slot>) -> Result<(), AllocError>
    ensures { OnOk result (reverse lists.new.items ≡ closed (reverse lists.old.items)) }
{
    lists.pop();
    if let Some(outer) = lists.pop() {
        lists.push(behind_list(outer))?;
    }
    Ok(())
}

/// Adds a symbol to the innermost list.
fn name(lists: &mut Vec<Slot>, symbol: &str) -> Result<(), AllocError>
    ensures { OnOk result
        (reverse lists.new.items ≡ named symbol.now (reverse lists.old.items)) }
{
    if let Some(slot) = lists.pop() {
        lists.push(behind_symbol(symbol, slot))?;
    }
    Ok(())
}

/// Adds an integer to the innermost list.
fn count(lists: &mut Vec<Slot>) -> Result<(), AllocError>
    ensures { OnOk result (reverse lists.new.items ≡ counted (reverse lists.old.items)) }
{
    if let Some(slot) = lists.pop() {
        lists.push(behind_integer(slot))?;
    }
    Ok(())
}

/// Adds an `@` to the innermost list.
fn join(lists: &mut Vec<Slot>) -> Result<(), AllocError>
    ensures { OnOk result (reverse lists.new.items ≡ joined (reverse lists.old.items)) }
{
    if let Some(slot) = lists.pop() {
        lists.push(behind_at(slot))?;
    }
    Ok(())
}

/// What stands next in the innermost list, which is the last of these.
fn innermost(lists: &[Slot]) -> Slot
    ensures { result ≡ innermost (reverse lists.now) }
{
    match lists.last() {
        Some(slot) => *slot,
        None => Slot::Any,
    }
}
