//! What a use of an extractor stands for: its template, with the arguments of the use in place of
//! the parameters.

ghost use Rattle.std.specs.Prelude.{◌≡◌, IfOk, false, map, option_map, string_bytes, true};
ghost use Rattle.isle_base.specs.Skips.{begins_with};
ghost use Rattle.isle_base.specs.TokenView.{token_of_ref};
ghost use Rattle.isle_lsp_actions.specs.Extractors.{extractor_of};
ghost use Rattle.isle_lsp_actions.specs.Templates as wanted;
ghost use Rattle.isle_lsp_actions.specs.Templates.{IsSubstituted};
ghost use Rattle.isle_lsp_actions.specs.Tokens.{lexeme_of};

use crate::extractors::Extractor;
use crate::tokens::{Lexeme, begins_with_at, begins_with_at_any, is_opening, spelled, tokens_in};
use isle_base::scanner::TokenRef;
use std::alloc::{AllocError, Global};

/// What a use of an extractor with these arguments stands for, or `None` if they are not as many as
/// the parameters.
///
/// It is the tokens of the template in one line, with a blank between two of them, but none behind
/// `(` and none before `)`. Each parameter is replaced by its argument as it is written. It is a
/// variable `x`, or `x @ _`; in `x @ P` with another pattern `P` the name stays.
pub fn substituted(
    alloc: Global,
    extractor: &Extractor,
    arguments: &[&str],
) -> Result<Option<String>, AllocError>
    ensures { IfOk result (λ new. IsSubstituted (extractor_of extractor.now)
        (map (λ a. a.now) arguments.now) (option_map string_bytes new)) }
{
    let template = extractor.template;
    let parameters = extractor.parameters.as_slice();
    if parameters.len() != arguments.len() {
        return Ok(None);
    }
    let tokens = tokens_in(alloc, template)?;
    let pieces = pieces(alloc, template, parameters, arguments, &tokens)?;
    Ok(Some(joined(alloc, &pieces)?))
}

/// The tokens of a template as they are written, with arguments in place of parameters.
fn pieces<'a>(
    alloc: Global,
    template: &'a str,
    parameters: &[&str],
    arguments: &[&'a str],
    tokens: &[Lexeme],
) -> Result<Vec<&'a str>, AllocError>
    ensures { let ps = map (λ p. p.now) parameters.now in
        let given = map (λ a. a.now) arguments.now in
        let tokens = map lexeme_of tokens.now in IfOk result (λ found.
        map (λ piece. piece.now) found.items
        ≡ wanted.pieces_from template.now ps given 0 false tokens) }
{
    let mut found = Vec::new(alloc);
    let mut replaced = 0;
    let mut is_head = false;
    let mut rest = tokens;
    while let [token, more @ ..] = rest {
        if replaced > 0 {
            replaced -= 1;
            is_head = false;
        } else {
            let argument = argument_at(is_head, token, more, parameters, arguments);
            found.push(argument.unwrap_or(spelled(template, token)))?;
            replaced = replaced_behind(argument, more);
            is_head = is_opening(token);
        }
        rest = more;
    }
    Ok(found)
}

/// The argument in place of a token of a template, which is directly behind a `(` or not, and
/// before these tokens: none if the token is no parameter, the name of a term, or the name in
/// `x @ P`.
fn argument_at<'a>(
    is_head: bool,
    token: &Lexeme,
    rest: &[Lexeme],
    parameters: &[&str],
    arguments: &[&'a str],
) -> Option<&'a str>
    ensures { option_map (λ a. a.now) result ≡ wanted.argument_at is_head (lexeme_of token.now)
        (map lexeme_of rest.now) (map (λ p. p.now) parameters.now)
        (map (λ a. a.now) arguments.now) }
{
    if is_head || !ends_place(rest) {
        None
    } else {
        argument_of(token.token, parameters, arguments)
    }
}

/// Returns whether a variable before these tokens is alone, or before `@ _`.
fn ends_place(rest: &[Lexeme]) -> bool
    ensures { result ≡ wanted.ends_place (map lexeme_of rest.now) }
{
    !begins_with_at(rest) || begins_with_at_any(rest)
}

/// The argument for a token, if it is a parameter.
fn argument_of<'a>(token: TokenRef, parameters: &[&str], arguments: &[&'a str]) -> Option<&'a str>
    ensures { option_map (λ a. a.now) result ≡ wanted.argument_of (token_of_ref token.entry)
        (map (λ p. p.now) parameters.now) (map (λ a. a.now) arguments.now) }
{
    match token {
        TokenRef::Symbol(name) if !is_fixed(name) => argument_for(name, parameters, arguments),
        _ => None,
    }
}

/// Returns whether a symbol is no variable in a pattern.
fn is_fixed(name: &str) -> bool
    ensures { result ≡ wanted.is_fixed name.now }
{
    name == "_" || name == "true" || name == "false" || begins_with_dollar(name)
}

fn begins_with_dollar(name: &str) -> bool
    ensures { result ≡ begins_with wanted.is_dollar name.now }
{
    match name.as_bytes() {
        [first, ..] => *first == b'$',
        [] => false,
    }
}

/// The argument for the first parameter with this name.
fn argument_for<'a>(
    name: &str,
    mut parameters: &[&str],
    mut arguments: &[&'a str],
) -> Option<&'a str>
    ensures { option_map (λ a. a.now) result ≡ wanted.argument_for name.now
        (map (λ p. p.now) parameters.entry.now) (map (λ a. a.now) arguments.entry.now) }
{
    while let [parameter, later @ ..] = parameters {
        let [argument, others @ ..] = arguments else {
            return None;
        };
        if *parameter == name {
            return Some(*argument);
        }
        parameters = later;
        arguments = others;
    }
    None
}

/// The number of tokens behind a parameter that its argument replaces, too: those of `@ _`.
fn replaced_behind(argument: Option<&str>, rest: &[Lexeme]) -> usize
    ensures { result ≡ wanted.replaced_behind (option_map (λ a. a.now) argument.entry)
        (map lexeme_of rest.now) }
{
    if argument.is_some() && begins_with_at(rest) {
        2
    } else {
        0
    }
}

/// Pieces as a text, with a blank between two of them, but none behind `(` and none before `)`.
fn joined(alloc: Global, pieces: &[&str]) -> Result<String, AllocError>
    ensures { IfOk result (λ text. string_bytes text
        ≡ wanted.joined true (map (λ piece. piece.now) pieces.now)) }
{
    let mut text = String::new(alloc);
    let mut is_first = true;
    for piece in pieces {
        if !is_first && *piece != ")" {
            text.push(' ')?;
        }
        text.push_str(piece)?;
        is_first = *piece == "(";
    }
    Ok(text)
}
