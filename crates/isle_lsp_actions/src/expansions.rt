//! The action that expands a use of an internal extractor: it puts what the use stands for in its
//! place.

ghost use Rattle.std.specs.Prelude.{◌≡◌, [], IfOk, Some, map, option_map, slice_get, string_bytes};
ghost use Rattle.std.specs.List.{list_all};
ghost use Rattle.isle_base.specs.Spellings.{in_symbol};
ghost use Rattle.isle_base.specs.Token as tokens;
ghost use Rattle.isle_base.specs.TokenView.{token_of_ref};
ghost use Rattle.isle_lsp_actions.specs.Actions.{action_of};
ghost use Rattle.isle_lsp_actions.specs.Expansions as wanted;
ghost use Rattle.isle_lsp_actions.specs.Expansions.{AreExpansions, IsExpanding, IsExpansion};
ghost use Rattle.isle_lsp_actions.specs.Expansions.{IsUseAmong, IsUseAt, use_of};
ghost use Rattle.isle_lsp_actions.specs.Extractors.{extractor_of};
ghost use Rattle.isle_lsp_actions.specs.Items as parts;
ghost use Rattle.isle_lsp_actions.specs.Tokens.{lexeme_of};
ghost use Rattle.isle_lsp_actions.specs.Told.{is_text};

use crate::actions::{Action, ActionKind};
use crate::extractors::{Extractor, extractors};
use crate::items::{items, texts_of};
use crate::templates::substituted;
use crate::tokens::{Lexeme, is_opening, tokens_in};
use isle_base::scanner::TokenRef;
use isle_lsp_context::places::slot_at;
use isle_lsp_context::slot::Slot;
use std::alloc::{AllocError, Global};

/// A list of a text that begins with a name.
#[derive(Drop)]
pub struct Use<'a> {
    /// The name.
    pub name: &'a str,
    /// The byte offset of its `(`.
    pub from: usize,
    /// The byte offset behind its `)`.
    pub to: usize,
    /// The items behind the name, as they are written.
    pub arguments: Vec<&'a str>,
}

/// The action that expands the use at an offset of a text, if one is there that stands for the same
/// in each of these programs, which are given by their texts. There is none without a program.
///
/// A use is a list where a pattern may stand, but not as the root of a rule. It is at the offsets
/// from its `(` to the end of its name. It stands for what the only extractor with this name in the
/// program makes of it.
pub fn expanding(
    alloc: Global,
    text: &str,
    programs: &[Vec<&str>],
    place: usize,
) -> Result<Option<Action>, AllocError>
    ensures { IfOk result (λ action. IsExpanding text.now
        (map (λ p. map (λ t. t.now) p.items) programs.now) place (option_map action_of action)) }
{
    let Some(found) = use_at(alloc, text, place)? else {
        return Ok(None);
    };
    let expansions = expansions(alloc, programs, &found)?;
    match agreed(&expansions) {
        Some(new) => Ok(Some(action(alloc, &found, new)?)),
        None => Ok(None),
    }
}

/// The pattern at an offset of a text that may be a use of an extractor.
fn use_at<'a>(alloc: Global, text: &'a str, place: usize) -> Result<Option<Use<'a>>, AllocError>
    ensures { IfOk result (λ found. IsUseAt text.now place (option_map use_of found)) }
{
    let tokens = tokens_in(alloc, text)?;
    match use_ahead(alloc, text, headed_at(&tokens, place))? {
        Some(found) => if_pattern(alloc, text, found),
        None => Ok(None),
    }
}

/// The tokens from the last `(` on that is directly before a name, if the offset is between the
/// start of the one and the end of the other.
fn headed_at<'t, 'a>(tokens: &'t [Lexeme<'a>], place: usize) -> &'t [Lexeme<'a>]
    ensures { map lexeme_of result.now
        ≡ wanted.headed_at place [] (map lexeme_of tokens.now) }
{
    let mut found: &[Lexeme] = &[];
    let mut rest = tokens;
    while let [_, more @ ..] = rest {
        if is_headed_at(rest, place) {
            found = rest;
        }
        rest = more;
    }
    found
}

/// Returns whether these tokens begin with a `(` and a name, and the offset is neither before the
/// one nor behind the other.
fn is_headed_at(tokens: &[Lexeme], place: usize) -> bool
    ensures { result ≡ wanted.is_headed_at place (map lexeme_of tokens.now) }
{
    match tokens {
        [first, second, ..] => {
            is_opening(first) && is_symbol(second) && first.from <= place && place <= second.to
        }
        _ => false,
    }
}

fn is_symbol(token: &Lexeme) -> bool
    ensures { result ≡ tokens.is_symbol (lexeme_of token.now).token }
{
    matches!(token.token, TokenRef::Symbol(_))
}

/// The list that begins with these tokens, if it ends.
fn use_ahead<'a>(
    alloc: Global,
    text: &'a str,
    tokens: &[Lexeme<'a>],
) -> Result<Option<Use<'a>>, AllocError>
    ensures { IfOk result (λ found. option_map use_of found
        ≡ wanted.use_ahead text.now (map lexeme_of tokens.now)) }
{
    match tokens {
        [first, second, rest @ ..] => use_with(alloc, text, first.from, second.token, rest),
        _ => Ok(None),
    }
}

/// The list from an offset on with this head, if it is a name and the list ends.
fn use_with<'a>(
    alloc: Global,
    text: &'a str,
    from: usize,
    head: TokenRef<'a>,
    rest: &[Lexeme],
) -> Result<Option<Use<'a>>, AllocError>
    ensures { let ahead = parts.items text.now (map lexeme_of rest.now) in IfOk result (λ found.
        option_map use_of found ≡ wanted.use_with text.now from (token_of_ref head.entry) ahead) }
{
    let TokenRef::Symbol(name) = head else {
        return Ok(None);
    };
    match items(alloc, text, rest)? {
        Some(found) => Ok(Some(Use {
            name,
            from,
            to: found.to,
            arguments: texts_of(alloc, text, &found.parts)?,
        })),
        None => Ok(None),
    }
}

/// A list, if it stands where a pattern may stand, and apart from what is around it.
fn if_pattern<'a>(alloc: Global, text: &str, found: Use<'a>) -> Result<Option<Use<'a>>, AllocError>
    ensures { IfOk result (λ kept. IsUseAmong text.now (Some (use_of found.entry))
        (option_map use_of kept)) }
{
    let slot = slot_at(alloc, text, found.from)?;
    if is_pattern(slot) && !is_glued(text, found.from, found.to) {
        Ok(Some(found))
    } else {
        Ok(None)
    }
}

/// Returns whether what may stand here is a pattern, other than the root of a rule.
fn is_pattern(slot: Slot) -> bool
    ensures { result ≡ wanted.is_pattern slot }
{
    matches!(slot, Slot::Pattern | Slot::IfLet)
}

/// Returns whether a byte of a symbol or of a number is directly before a part of a text, or
/// directly behind it.
fn is_glued(text: &str, from: usize, to: usize) -> bool
    ensures { result ≡ wanted.is_glued text.now from to }
{
    let bytes = text.as_bytes();
    (from > 0 && is_in_symbol(bytes, from - 1)) || is_in_symbol(bytes, to)
}

fn is_in_symbol(bytes: &[u8], at: usize) -> bool
    ensures { result ≡ wanted.is_in_symbol (slice_get bytes.now at) }
{
    match bytes.get(at) {
        Some(byte) => in_symbol(*byte),
        None => false,
    }
}

/// Returns whether a symbol can go on with a byte.
#[tactic(auto, unfolding(isle_base::specs::Spellings::in_symbol, isle_base::specs::Skips::is_blank))]
fn in_symbol(byte: u8) -> bool
    ensures { result ≡ in_symbol byte }
{
    !matches!(
        byte,
        b'(' | b')' | b';' | b'@' | FORM_FEED | b' ' | b'\t' | b'\n' | b'\r'
    )
}

const FORM_FEED: u8 = 12;

/// What a use stands for in each of these programs.
fn expansions(
    alloc: Global,
    programs: &[Vec<&str>],
    found: &Use,
) -> Result<Vec<Option<String>>, AllocError>
    ensures { let texts = map (λ p. map (λ t. t.now) p.items) programs.now in IfOk result (λ news.
        AreExpansions texts (use_of found.now) (map (option_map string_bytes) news.items)) }
{
    let mut expansions = Vec::new(alloc);
    for texts in programs {
        expansions.push(expansion(alloc, texts, found)?)?;
    }
    Ok(expansions)
}

/// What a use stands for in a program with these texts, or `None` if it has not just one extractor
/// with its name, or one with another number of parameters.
fn expansion(alloc: Global, texts: &[&str], found: &Use) -> Result<Option<String>, AllocError>
    ensures { IfOk result (λ new. IsExpansion (map (λ t. t.now) texts.now) (use_of found.now)
        (option_map string_bytes new)) }
{
    let extractors = extractors(alloc, texts, found.name)?;
    match extractors.as_slice() {
        [extractor] => expansion_by(alloc, extractor, found),
        _ => Ok(None),
    }
}

/// What a use stands for by an extractor, if that is whole.
fn expansion_by(
    alloc: Global,
    extractor: &Option<Extractor>,
    found: &Use,
) -> Result<Option<String>, AllocError>
    ensures { IfOk result (λ new. wanted.IsExpansionBy (option_map extractor_of extractor.now)
        (use_of found.now) (option_map string_bytes new)) }
{
    match extractor {
        Some(extractor) => substituted(alloc, extractor, &found.arguments),
        None => Ok(None),
    }
}

/// What all of these are, if they are the same.
fn agreed(news: &[Option<String>]) -> Option<&str>
    ensures { option_map (λ new. new.now) result
        ≡ wanted.agreed (map (option_map string_bytes) news.now) }
{
    match news {
        [first, others @ ..] => agreed_on(first, others),
        [] => None,
    }
}

/// What the first is, if the others are the same.
fn agreed_on<'a>(first: &'a Option<String>, others: &[Option<String>]) -> Option<&'a str>
    ensures { let others = map (option_map string_bytes) others.now in
        option_map (λ new. new.now) result
        ≡ wanted.agreed_on (option_map string_bytes first.now) others }
{
    let Some(new) = first else {
        return None;
    };
    if are_all(new.as_str(), others) {
        Some(new.as_str())
    } else {
        None
    }
}

/// Returns whether all of these are this text.
fn are_all(text: &str, others: &[Option<String>]) -> bool
    ensures { result ≡ list_all (is_text text.now) (map (option_map string_bytes) others.now) }
{
    for other in others {
        if !is_same(text, other) {
            return false;
        }
    }
    true
}

/// Returns whether there is a text, and it is this one.
fn is_same(text: &str, other: &Option<String>) -> bool
    ensures { result ≡ is_text text.now (option_map string_bytes other.now) }
{
    match other {
        Some(other) => other.as_str() == text,
        None => false,
    }
}

/// The action that puts a text in place of a use.
fn action(alloc: Global, found: &Use, new: &str) -> Result<Action, AllocError>
    ensures { IfOk result
        (λ action. action_of action ≡ wanted.expanding (use_of found.now) new.now) }
{
    let name = found.name;
    Ok(Action {
        title: format!(in alloc; "Expand `{name}`")?,
        kind: ActionKind::Inlining,
        from: found.from,
        to: found.to,
        new_text: String::from_str(alloc, new)?,
    })
}
