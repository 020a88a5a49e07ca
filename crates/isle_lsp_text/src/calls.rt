//! The definitions of an ISLE text that call terms: those that implement a name, which are rules,
//! extractors and the `extern`s of constructors and of extractors.

ghost use Rattle.std.specs.Prelude.{◌≡◌, ◌++◌, [], IfOk, OnOk, map};
ghost use Rattle.std.specs.List.{list_any};
ghost use Rattle.std.specs.Str.{bytes_eq};
ghost use Rattle.isle_base.specs.TokenView.{token_of_ref};
ghost use Rattle.isle_lsp_text.specs.Calls.{AreCallers, AreDefinitions, AreWords, caller_at};
ghost use Rattle.isle_lsp_text.specs.Calls.{calls_at, is_definition, new_word, new_words};

use crate::definitions::begins_definition;
use crate::implementations::implemented;
use crate::lists::{ListSpan, list_around, lists};
use isle_base::lexer::Fault;
use isle_base::scanner::{Scanner, TokenRef};
use std::alloc::{AllocError, Global};

/// A definition that implements a name. Offsets count bytes.
#[derive(Clone, Copy)]
pub struct Caller {
    /// The offset of its `(`.
    pub from: usize,
    /// The offset after its `)`.
    pub to: usize,
    /// The offset of the name.
    pub name: usize,
}

/// The definitions that implement names, in the order of these names.
///
/// The names are those that `implemented` finds. A definition is a list in no other list, or one
/// with whose `(` a definition begins (`begins_definition`), whatever is open before it. A name
/// whose definition does not end is left out.
pub fn callers(alloc: Global, text: &str) -> Result<Vec<Caller>, AllocError>
    ensures { IfOk result (λ found. AreCallers text.now found.items) }
{
    let names = implemented(alloc, text)?;
    let definitions = definitions(alloc, text)?;
    let mut found = Vec::new(alloc);
    for name in &names {
        if let Some(caller) = caller_at(&definitions, *name) {
            found.push(caller)?;
        }
    }
    Ok(found)
}

/// The lists of a text that are definitions, in the order in which they end.
fn definitions(alloc: Global, text: &str) -> Result<Vec<ListSpan>, AllocError>
    ensures { IfOk result (λ found. AreDefinitions text.now found.items) }
{
    let lists = lists(alloc, text)?;
    let mut found = Vec::new(alloc);
    for list in &lists {
        if is_definition(text, list) {
            found.push(*list)?;
        }
    }
    Ok(found)
}

/// Returns whether a list is a definition.
#[tactic(auto, unfolding(crate::specs::Calls::is_definition))]
fn is_definition(text: &str, list: &ListSpan) -> bool
    ensures { result ≡ is_definition text.now list.now }
{
    list.depth == 0 || begins_definition(text, list.from)
}

/// The definition that implements the name at an offset, which is the innermost one around it.
fn caller_at(definitions: &[ListSpan], name: usize) -> Option<Caller>
    ensures { result ≡ caller_at definitions.now name }
{
    match list_around(definitions, 0, name) {
        Some(list) => Some(Caller {
            from: list.from,
            to: list.to,
            name,
        }),
        None => None,
    }
}

/// Returns whether an offset is in a definition, but not that of the name that it implements.
pub fn calls_at(caller: &Caller, offset: usize) -> bool
    ensures { result ≡ calls_at offset caller.now }
{
    caller.from < offset && offset < caller.to && offset != caller.name
}

/// Returns whether `calls_at` holds for one of these definitions.
pub fn some_calls_at(callers: &[Caller], offset: usize) -> bool
    ensures { result ≡ list_any (calls_at offset) callers.now }
{
    for caller in callers {
        if calls_at(caller, offset) {
            return true;
        }
    }
    false
}

/// The symbols of a text at offsets at which one of these definitions may call (`calls_at`), each
/// text of a symbol once, in the order in which they are first there.
///
/// After a lexical error there are no more.
pub fn words<'a>(
    alloc: Global,
    text: &'a str,
    callers: &[Caller],
) -> Result<Vec<&'a str>, AllocError>
    ensures { IfOk result (λ found. AreWords text.now callers.now
        (map (λ word. word.now) found.items)) }
{
    match Scanner::new(alloc, 0, text) {
        Ok(scanner) => words_ahead(alloc, scanner, callers),
        Err(Fault::Error(_)) => Ok(Vec::new(alloc)),
        Err(Fault::Failed | Fault::Memory) => Err(AllocError),
    }
}

/// The same among the tokens that a scanner has not read yet.
fn words_ahead<'a>(
    alloc: Global,
    mut scanner: Scanner<'a>,
    callers: &[Caller],
) -> Result<Vec<&'a str>, AllocError>
    ensures { IfOk result (λ found. map (λ word. word.now) found.items
        ≡ new_words callers.now [] scanner.entry.coming) }
{
    let mut found = Vec::new(alloc);
    while let Some(ahead) = scanner.peek() {
        let (pos, token) = *ahead;
        if some_calls_at(callers, pos.offset) {
            add_word(token, &mut found)?;
        }
        if scanner.step().is_none() {
            return Ok(found);
        }
    }
    Ok(found)
}

/// Adds a symbol, unless it is there.
fn add_word<'a>(token: TokenRef<'a>, found: &mut Vec<&'a str>) -> Result<(), AllocError>
    ensures { OnOk result (map (λ word. word.now) found.new.items
        ≡ map (λ word. word.now) found.old.items
        ++ new_word (map (λ word. word.now) found.old.items) (token_of_ref token.entry)) }
{
    match token {
        TokenRef::Symbol(word) => {
            if !has_word(found, word) {
                found.push(word)?;
            }
        }
        TokenRef::LParen | TokenRef::RParen | TokenRef::Int(_) | TokenRef::At => {}
    }
    Ok(())
}

/// Returns whether a word is among these.
fn has_word(words: &[&str], word: &str) -> bool
    ensures { result ≡ list_any (λ w. bytes_eq w word.now) (map (λ w. w.now) words.now) }
{
    words.contains(&word)
}
