//! The call that a place in an ISLE text is in.

ghost use Rattle.std.specs.Prelude.{◌≡◌, ◌+◌, ◌<◌, ◌^◌, [], IfOk, OnOk, option_map, ℕ};
ghost use Rattle.isle_base.specs.TokenView.{token_of_ref};
ghost use Rattle.isle_lsp_context.specs.Calls.{AreAtMost, IsCallAround, argument_count, call_of};
ghost use Rattle.isle_lsp_context.specs.Calls.{awaits_bindings, counted, innermost, inside};
ghost use Rattle.isle_lsp_context.specs.Calls.{joined, level_after, level_of, levels_of};
ghost use Rattle.isle_lsp_context.specs.Calls.{lists_after, lists_at, nested, opened, with_item};

use crate::scanning::{end_before, is_fault_before, pass, scan};
use isle_base::scanner::{Scanner, TokenRef};
use std::alloc::{AllocError, Global};

/// A call, as far as it is written.
#[derive(Clone, Copy)]
pub struct Call<'a> {
    /// What is called: the symbol with which the list begins.
    pub head: &'a str,
    /// The number of arguments that end before the place.
    pub arguments: usize,
}

/// A list that is open at a place, as far as it is written.
#[derive(Clone, Copy)]
enum Level<'a> {
    /// A definition with nothing in it yet.
    Definition,
    /// A list that is no call, but has calls in it: a rule, an extractor or a binding of a `let`.
    Holder,
    /// The bindings of a `let`.
    Bindings,
    /// A list of another definition.
    Other,
    /// An expression or a pattern with nothing in it yet.
    Empty,
    /// One that begins with something other than a symbol.
    Headless,
    /// One that begins with a symbol.
    Call(Call<'a>),
}

/// The call that a byte offset of a text is in.
///
/// It is the innermost list in a rule or in an extractor around the offset that begins with a symbol
/// which ends before the offset. Its `)` may be missing, and one that ends at the offset ends the
/// list. An argument is a symbol, an integer or a list behind the first symbol, and one that ends at
/// the offset does not count yet. An `@` that ends at the offset or before it makes what is on its
/// sides one argument, as in `x @ (f y)`.
///
/// The list of the bindings of a `let` is no call, and neither is a binding in it: between the calls
/// in a binding it is `None`, as it is outside of calls, and if a lexical error is before the
/// offset. Parentheses in comments do not count, and lists that are open where a definition begins
/// (`begins_definition`) end there.
pub fn call_around<'a>(
    alloc: Global,
    text: &'a str,
    offset: usize,
) -> Result<Option<Call<'a>>, AllocError>
    ensures { IfOk result (λ call. IsCallAround text.now offset (option_map call_of call)) }
{
    match scan(alloc, text)? {
        Some(scanner) => Ok(innermost(lists_at(alloc, text, scanner, offset)?)),
        None => Ok(None),
    }
}

/// The lists that are open at an offset of a text, the innermost last, by the tokens that a scanner
/// has not read yet. There are none if a lexical error is before the offset.
fn lists_at<'a>(
    alloc: Global,
    text: &str,
    mut scanner: Scanner<'a>,
    offset: usize,
) -> Result<Vec<Level<'a>>, AllocError>
    ensures { IfOk result (λ lists. levels_of lists.items
        ≡ lists_at text.now offset scanner.entry.ending [] scanner.entry.coming) }
{
    let mut lists = Vec::new(alloc);
    while let Some(ahead) = scanner.peek() {
        let (pos, token) = *ahead;
        let to = scanner.pos().offset;
        if to > offset {
            return Ok(lists);
        }
        end_before(text, pos.offset, &mut lists);
        add(&mut lists, token, to < offset)?;
        pass(alloc, &mut scanner)?;
    }
    if is_fault_before(&scanner, offset) {
        return Ok(Vec::new(alloc));
    }
    Ok(lists)
}

/// Processes a token. One that ends at the place does not count as an item yet, but after an `@` the
/// last item goes on at once.
fn add<'a>(
    lists: &mut Vec<Level<'a>>,
    token: TokenRef<'a>,
    ends_before: bool,
) -> Result<(), AllocError>
    requires { (most : ℕ) × AreAtMost most (levels_of lists.old.items) × (most + 1 < 2 ^ 64) }
    ensures { OnOk result (levels_of lists.new.items
        ≡ lists_after ends_before (token_of_ref token.entry) (levels_of lists.old.items)) }
{
    nest(lists, token)?;
    if ends_before || matches!(token, TokenRef::At) {
        count(lists, token)?;
    }
    Ok(())
}

/// Opens a list at a `(`, and closes one at a `)`.
fn nest<'a>(lists: &mut Vec<Level<'a>>, token: TokenRef<'a>) -> Result<(), AllocError>
    ensures { OnOk result (levels_of lists.new.items
        ≡ nested (token_of_ref token.entry) (levels_of lists.old.items)) }
{
    match token {
        TokenRef::LParen => open(lists)?,
        TokenRef::RParen => {
            lists.pop();
        }
        TokenRef::Symbol(_) | TokenRef::Int(_) | TokenRef::At => {}
    }
    Ok(())
}

/// Opens a list in the innermost one.
fn open(lists: &mut Vec<Level>) -> Result<(), AllocError>
    ensures { OnOk result
        (levels_of lists.new.items ≡ opened (levels_of lists.old.items)) }
{
    match lists.pop() {
        Some(level) => {
            lists.push(level)?;
            lists.push(inside(level))?;
        }
        None => lists.push(Level::Definition)?,
    }
    Ok(())
}

/// A list that begins in this one.
fn inside(level: Level) -> Level
    ensures { level_of result ≡ inside (level_of level.entry) }
{
    match level {
        Level::Definition | Level::Other => Level::Other,
        Level::Bindings => Level::Holder,
        Level::Holder | Level::Empty | Level::Headless => Level::Empty,
        Level::Call(call) if awaits_bindings(call) => Level::Bindings,
        Level::Call(_) => Level::Empty,
    }
}

/// Returns whether the next list in a call is that of the bindings of a `let`.
fn awaits_bindings(call: Call) -> bool
    ensures { result ≡ awaits_bindings (call_of call.entry) }
{
    call.head == "let" && call.arguments == 0
}

/// Counts a token in the innermost list.
fn count<'a>(lists: &mut Vec<Level<'a>>, token: TokenRef<'a>) -> Result<(), AllocError>
    requires { (most : ℕ) × AreAtMost most (levels_of lists.old.items) × (most + 1 < 2 ^ 64) }
    ensures { OnOk result (levels_of lists.new.items
        ≡ counted (token_of_ref token.entry) (levels_of lists.old.items)) }
{
    if let Some(level) = lists.pop() {
        lists.push(level_after(level, token))?;
    }
    Ok(())
}

/// A list after one of its tokens.
fn level_after<'a>(level: Level<'a>, token: TokenRef<'a>) -> Level<'a>
    requires { argument_count (level_of level) + 1 < 2 ^ 64 }
    ensures { level_of result ≡ level_after (token_of_ref token.entry) (level_of level.entry) }
{
    match (token, level) {
        (TokenRef::LParen, _) => level,
        (TokenRef::Symbol("rule" | "extractor"), Level::Definition) => Level::Holder,
        (TokenRef::Symbol(head), Level::Empty) => Level::Call(Call { head, arguments: 0 }),
        (TokenRef::RParen | TokenRef::Symbol(_) | TokenRef::Int(_), _) => with_item(level),
        (TokenRef::At, _) => joined(level),
    }
}

/// A list with one item more.
fn with_item(level: Level) -> Level
    requires { argument_count (level_of level) + 1 < 2 ^ 64 }
    ensures { level_of result ≡ with_item (level_of level.entry) }
{
    match level {
        Level::Definition => Level::Other,
        Level::Holder | Level::Bindings | Level::Other => level,
        Level::Empty | Level::Headless => Level::Headless,
        Level::Call(call) => Level::Call(Call {
            head: call.head,
            arguments: call.arguments + 1,
        }),
    }
}

/// A list in which the last item goes on.
fn joined(level: Level) -> Level
    ensures { level_of result ≡ joined (level_of level.entry) }
{
    match level {
        Level::Definition => Level::Other,
        Level::Holder | Level::Bindings | Level::Other => level,
        Level::Empty | Level::Headless => Level::Headless,
        Level::Call(call) => Level::Call(Call {
            head: call.head,
            arguments: call.arguments.saturating_sub(1),
        }),
    }
}

/// The innermost call of these lists, the last of which is the innermost.
fn innermost<'a>(mut lists: Vec<Level<'a>>) -> Option<Call<'a>>
    ensures { option_map call_of result ≡ innermost (levels_of lists.entry.items) }
{
    while let Some(level) = lists.pop() {
        match level {
            Level::Call(call) => return Some(call),
            Level::Empty | Level::Headless => {}
            Level::Definition | Level::Holder | Level::Bindings | Level::Other => return None,
        }
    }
    None
}
