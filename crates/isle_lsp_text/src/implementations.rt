//! The names that an ISLE text implements: the roots of rules and of extractors, and the names in
//! `extern` definitions of constructors and extractors.

ghost use Rattle.std.specs.Prelude.{◌≡◌, ◌∷◌, ◌++◌, [], IfOk, OnOk};
ghost use Rattle.isle_base.specs.TokenView.{token_of_ref};
ghost use Rattle.isle_lsp_text.specs.Implementations.{AreImplemented, depth_at, implemented_at};
ghost use Rattle.isle_lsp_text.specs.Implementations.{implemented_from, is_implemented, next};
ghost use Rattle.isle_lsp_text.specs.Implementations.{part_after, part_named};

use crate::definitions::begins_definition;
use crate::lists::depth_after;
use isle_base::lexer::Fault;
use isle_base::scanner::{Scanner, TokenRef};
use std::alloc::{AllocError, Global};

/// The part of a definition in which a token stands, as far as the tokens before it tell.
#[derive(Clone, Copy)]
pub enum DefinitionPart {
    /// Its keyword.
    Keyword,
    /// What comes after `rule`: a name, a priority or the root.
    Name,
    /// What comes after the name of a rule: a priority or the root.
    Priority,
    /// Where only the `(` of the root may come.
    Front,
    /// The first token of the root.
    Root,
    /// The second word of an `extern`.
    External,
    /// What comes after `extern constructor` or `extern extractor`.
    Names,
    /// Anything else.
    Rest,
}

/// The offsets at which a text implements the name that is there, in order.
///
/// A rule and an extractor implement the name that their root begins with, which is a list: that of
/// an extractor follows at once, and that of a rule after its name and its priority, if it has them.
/// An `extern` of a constructor or of an extractor implements the names after these two words. A
/// line that begins a definition (`begins_definition`) ends all lists before it. After a lexical
/// error there are no more.
pub fn implemented(alloc: Global, text: &str) -> Result<Vec<usize>, AllocError>
    ensures { IfOk result (λ found. AreImplemented text.now found.items) }
{
    match Scanner::new(alloc, 0, text) {
        Ok(scanner) => implemented_ahead(alloc, text, scanner),
        Err(Fault::Error(_)) => Ok(Vec::new(alloc)),
        Err(Fault::Failed | Fault::Memory) => Err(AllocError),
    }
}

/// The same for the tokens of a text that a scanner has not read yet, the first of which is in no
/// list.
fn implemented_ahead(
    alloc: Global,
    text: &str,
    mut scanner: Scanner,
) -> Result<Vec<usize>, AllocError>
    ensures { IfOk result (λ found. found.items
        ≡ implemented_from text.now 0 (DefinitionPart.Keyword) scanner.entry.coming) }
{
    let mut depth = 0;
    let mut part = DefinitionPart::Keyword;
    let mut found = Vec::new(alloc);
    while let Some(ahead) = scanner.peek() {
        let (pos, token) = *ahead;
        let here = depth_at(text, pos.offset, depth);
        if is_implemented(here, part, token) {
            found.push(pos.offset)?;
        }
        part = part_after(here, part, token);
        depth = depth_after(here, token)?;
        if scanner.step().is_none() {
            return Ok(found);
        }
    }
    Ok(found)
}

/// In how many lists a token at this offset stands, if so many are open.
#[tactic(auto, unfolding(crate::specs::Implementations::depth_at))]
fn depth_at(text: &str, offset: usize, depth: usize) -> usize
    ensures { result ≡ depth_at text.now offset depth }
{
    if begins_definition(text, offset) {
        0
    } else {
        depth
    }
}

/// Returns whether a token is a name that its definition implements.
fn is_implemented(depth: usize, part: DefinitionPart, token: TokenRef) -> bool
    ensures { result ≡ is_implemented depth part (token_of_ref token.entry) }
{
    depth > 0
        && matches!(part, DefinitionPart::Root | DefinitionPart::Names)
        && matches!(token, TokenRef::Symbol(_))
}

/// The part that the token after this one stands in. The token stands in so many lists.
fn part_after(depth: usize, part: DefinitionPart, token: TokenRef) -> DefinitionPart
    ensures { result ≡ part_after depth part (token_of_ref token.entry) }
{
    if depth == 0 {
        DefinitionPart::Keyword
    } else {
        next(part, token)
    }
}

/// The part of a definition after a token of it.
fn next(part: DefinitionPart, token: TokenRef) -> DefinitionPart
    ensures { result ≡ next part (token_of_ref token.entry) }
{
    match (part, token) {
        (DefinitionPart::Keyword, TokenRef::Symbol(word)) => part_named(word),
        (DefinitionPart::Name, TokenRef::Symbol(_)) => DefinitionPart::Priority,
        (DefinitionPart::Name | DefinitionPart::Priority, TokenRef::Int(_)) => {
            DefinitionPart::Front
        }
        (
            DefinitionPart::Name | DefinitionPart::Priority | DefinitionPart::Front,
            TokenRef::LParen,
        ) => DefinitionPart::Root,
        (DefinitionPart::External, TokenRef::Symbol("constructor" | "extractor")) => {
            DefinitionPart::Names
        }
        (DefinitionPart::Names, TokenRef::LParen) => DefinitionPart::Rest,
        (DefinitionPart::Names, _) => part,
        _ => DefinitionPart::Rest,
    }
}

/// The part of a definition after its keyword.
fn part_named(keyword: &str) -> DefinitionPart
    ensures { result ≡ part_named keyword.now }
{
    match keyword {
        "rule" => DefinitionPart::Name,
        "extractor" => DefinitionPart::Front,
        "extern" => DefinitionPart::External,
        _ => DefinitionPart::Rest,
    }
}
