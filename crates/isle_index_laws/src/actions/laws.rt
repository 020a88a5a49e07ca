//! Laws of actions, stated as the contracts of functions that do nothing.

ghost use Rattle.std.specs.Prelude.{ℕ, List};
ghost use Rattle.std.specs.List.{AllByRecursion};
ghost use Rattle.isle_base.specs.Lexing.{lexes};
ghost use Rattle.isle_base.specs.Token.{Lexeme, end};
ghost use Rattle.isle_lsp_actions.specs.Actions.{prefixing};
ghost use Rattle.isle_lsp_actions.specs.Names.{names_of};
ghost use Rattle.isle_lsp_actions.specs.declared.told.Told.{Told};
ghost use Rattle.isle_index_laws.specs.actions.Prefixed.{IsPrefixed};
ghost use Rattle.isle_lsp_text.specs.declared.lists.ListSpan.{ListSpan};

/// Where an action puts `_` before a name, the text then lexes to its tokens, with a `_` more in
/// that name. This is said of texts that lex to their end.
pub fn prefixed_texts_lex_to_prefixed_tokens()
    ensures { (text : List ℕ) (tokens : List Lexeme) (told : Told) (definition : ListSpan)
        → lexes text tokens end → AllByRecursion (IsPrefixed text tokens)
        (prefixing text (names_of tokens) told definition) }
{}
