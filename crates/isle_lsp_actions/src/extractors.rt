//! The internal extractors of a program, by the tokens of its texts.

ghost use Rattle.std.specs.Prelude.{◌≡◌, ◌++◌, IfOk, OnOk, drop, map, option_map};
ghost use Rattle.isle_lsp_actions.specs.Extractors as wanted;
ghost use Rattle.isle_lsp_actions.specs.Extractors.{AreExtractors, AreExtractorsIn, extractor_of};
ghost use Rattle.isle_lsp_actions.specs.Items.{items_of};
ghost use Rattle.isle_lsp_actions.specs.Tokens.{lexeme_of};
ghost use Rattle.isle_lsp_text.specs.Implementations.{depth_at};

use crate::items::{items, texts_of};
use crate::tokens::{Lexeme, is_opening, is_word, tokens_in, written};
use isle_lsp_text::definitions::begins_definition;
use isle_lsp_text::lists::depth_after;
use isle_lsp_text::wholes::Part;
use std::alloc::{AllocError, Global};

/// What `(extractor (E x y) T)` tells of `E`, as it is written.
#[derive(Drop)]
pub struct Extractor<'a> {
    /// Its parameters, here `x` and `y`.
    pub parameters: Vec<&'a str>,
    /// Its template, here `T`.
    pub template: &'a str,
}

/// The extractors with this name in the texts of a program, in order, or `None` in place of one
/// that is not whole.
///
/// A definition is in no other list, and a line that begins one (`begins_definition`) ends all
/// lists before it. After a lexical error a text has no more.
pub fn extractors<'a>(
    alloc: Global,
    texts: &[&'a str],
    name: &str,
) -> Result<Vec<Option<Extractor<'a>>>, AllocError>
    ensures { IfOk result (λ found. AreExtractors (map (λ t. t.now) texts.now) name.now
        (map (option_map extractor_of) found.items)) }
{
    let mut found = Vec::new(alloc);
    for text in texts {
        let tokens = tokens_in(alloc, text)?;
        add_extractors(alloc, text, name, &tokens, &mut found)?;
    }
    Ok(found)
}

/// Adds the extractors with this name in a text with these tokens.
fn add_extractors<'a>(
    alloc: Global,
    text: &'a str,
    name: &str,
    tokens: &[Lexeme],
    found: &mut Vec<Option<Extractor<'a>>>,
) -> Result<(), AllocError>
    ensures { OnOk result (map (option_map extractor_of) found.new.items
        ≡ map (option_map extractor_of) found.old.items
        ++ wanted.extractors_from text.now name.now 0 (map lexeme_of tokens.now)) }
{
    let mut depth = 0;
    let mut rest = tokens;
    while let [token, more @ ..] = rest {
        let here = depth_at(text, token.from, depth);
        if here == 0 && begins_extractor(name, rest) {
            found.push(extractor_at(alloc, text, rest)?)?;
        }
        depth = depth_after(here, token.token)?;
        rest = more;
    }
    Ok(())
}

/// In how many lists a token at this offset stands, if so many are open.
#[tactic(auto, unfolding(isle_lsp_text::specs::Implementations::depth_at))]
fn depth_at(text: &str, offset: usize, depth: usize) -> usize
    ensures { result ≡ depth_at text.now offset depth }
{
    if begins_definition(text, offset) {
        0
    } else {
        depth
    }
}

/// Returns whether these tokens begin the definition of an extractor with this name.
fn begins_extractor(name: &str, tokens: &[Lexeme]) -> bool
    ensures { result ≡ wanted.begins_extractor name.now (map lexeme_of tokens.now) }
{
    is_headed("extractor", tokens) && is_headed(name, behind(tokens, 2))
}

/// Returns whether these tokens begin with a `(` and this symbol.
fn is_headed(name: &str, tokens: &[Lexeme]) -> bool
    ensures { result ≡ wanted.is_headed name.now (map lexeme_of tokens.now) }
{
    match tokens {
        [first, second, ..] => is_opening(first) && is_word(second, name),
        _ => false,
    }
}

/// The extractor that is defined with these tokens: `(`, `extractor`, `(`, its name, and so on.
fn extractor_at<'a>(
    alloc: Global,
    text: &'a str,
    tokens: &[Lexeme],
) -> Result<Option<Extractor<'a>>, AllocError>
    ensures { IfOk result (λ found. option_map extractor_of found
        ≡ wanted.extractor_at text.now (map lexeme_of tokens.now)) }
{
    let Some(parameters) = items(alloc, text, behind(tokens, 4))? else {
        return Ok(None);
    };
    let Some(definition) = items(alloc, text, behind(tokens, 2))? else {
        return Ok(None);
    };
    with_template(
        alloc,
        text,
        &parameters.parts,
        second_of_two(&definition.parts),
    )
}

/// These tokens without the first ones.
fn behind<'t, 'a>(tokens: &'t [Lexeme<'a>], count: usize) -> &'t [Lexeme<'a>]
    ensures { result.now ≡ drop count tokens.now }
{
    &tokens[count.min(tokens.len())..]
}

/// The second of two parts.
fn second_of_two(parts: &[Part]) -> Option<Part>
    ensures { result ≡ wanted.second_of_two parts.now }
{
    match parts {
        [_, second] => Some(*second),
        _ => None,
    }
}

/// An extractor with these parameters, if it has a template.
fn with_template<'a>(
    alloc: Global,
    text: &'a str,
    parameters: &[Part],
    template: Option<Part>,
) -> Result<Option<Extractor<'a>>, AllocError>
    ensures { IfOk result (λ found. option_map extractor_of found
        ≡ wanted.with_template text.now parameters.now template) }
{
    match template {
        Some(template) => Ok(Some(Extractor {
            parameters: texts_of(alloc, text, parameters)?,
            template: written(text, template),
        })),
        None => Ok(None),
    }
}
