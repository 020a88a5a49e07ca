//! Laws of the tokens, each stated as the contract of a function that does nothing.

ghost use Rattle.std.specs.Prelude.{◌≡◌, List, Option, Some, length, map, slice_get, ℕ};
ghost use Rattle.std.specs.List.{AllByRecursion};
ghost use Rattle.isle_base.specs.Lexing.{lexes};
ghost use Rattle.isle_base.specs.Token.{Ending, Lexeme};
ghost use Rattle.isle_lsp_colours.specs.Classes.{type_name, type_names, type_number};
ghost use Rattle.isle_lsp_colours.specs.Tokens.{AreInOrder, decoded, encoded, origin, told};
ghost use Rattle.isle_lsp_colours.specs.Tokens.{IsOnOneLine, tokens_of};
ghost use Rattle.isle_lsp_colours.specs.declared.classes.Class.{Class};
ghost use Rattle.isle_lsp_colours.specs.declared.classes.TokenKind.{TokenKind};
ghost use Rattle.isle_lsp_colours.specs.declared.tokens.Token.{Token};
ghost use Rattle.isle_lsp_text.specs.declared.positions.PositionEncoding.{PositionEncoding};

/// The number of a type is its index in the legend.
pub fn numbers_are_indices()
    ensures { (kind : TokenKind) → slice_get type_names (type_number kind) ≡ Some (type_name kind) }
{}

/// The tokens of a text that have a class are in order, and none overlaps another.
pub fn in_order()
    ensures { (text : List ℕ) (tokens : List Lexeme) (ending : Ending) (name : ℕ → Option Class)
        (within : Option (ℕ × ℕ)) → lexes text tokens ending
        → AreInOrder (length text) 0 (tokens_of name within tokens) }
{}

/// The numbers of tokens that are in order tell of each where it begins, its length, its type and
/// its modifiers.
pub fn numbers_tell()
    ensures { (enc : PositionEncoding) (text : List ℕ) (size : ℕ) (tokens : List Token)
        → AreInOrder size 0 tokens
        → decoded origin (encoded enc text origin tokens) ≡ map (told enc text) tokens }
{}

/// A token of a text is on one line. So its length in the numbers is that of its characters, in
/// units of the encoding.
pub fn on_one_line()
    ensures { (enc : PositionEncoding) (text : List ℕ) (tokens : List Lexeme) (ending : Ending)
        → lexes text tokens ending
        → AllByRecursion (λ x. IsOnOneLine enc text x.offset x.after) tokens }
{}
