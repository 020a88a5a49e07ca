//! Laws of positions and of lexing. They have no code to run.

ghost use Rattle.std.specs.Prelude.{◌≡◌, ◌↔◌, ℕ, List, IsTrue};
ghost use Rattle.isle_base_source.specs.declared.error.Error.{Error};
ghost use Rattle.isle_base.specs.UpstreamLexing.{upstream_lexes};
ghost use Rattle.isle_base.specs.Lexing.{HasOneLexing, lexes};
ghost use Rattle.isle_base.specs.Place.{Placed};
ghost use Rattle.isle_base.specs.Steps.{Refuses, RefuseAlike, Takes};
ghost use Rattle.isle_base.specs.Token.{Feed, Lexeme, end};
ghost use Rattle.isle_base.specs.TokenView.{token_of};

use crate::lexer::Token;
pub use isle_base_source::laws::positions_are_ordered;

/// Each text has exactly one sequence of tokens, and one ending.
pub fn one_lexing()
    ensures { (text : List ℕ) → HasOneLexing text }
{}

/// If a text had tokens up to its end under upstream's rules, where a lone `-` is no symbol, it has
/// the same tokens under these.
pub fn upstream_tokens_stay()
    ensures { (text : List ℕ) (tokens : List Lexeme)
        → upstream_lexes text tokens end → lexes text tokens end }
{}

/// Two tokens compare as equal exactly if they have the same kind and value.
pub fn tokens_are_equal_as_written()
    ensures { (a b : Token) → IsTrue (⟦<Token as PartialEq>⟧.eq a b) ↔ (token_of a ≡ token_of b) }
{}

/// A lexer's value in contracts determines what it returns next. So a lexer and its copy return the
/// same tokens, up to the same error, unless memory runs out.
pub fn copies_go_on_alike()
    ensures token { (feed : Feed) (x y : Placed) (a b : Feed)
        → Takes feed x a → Takes feed y b → (x ≡ y) × (a ≡ b) }
    ensures refusal { (feed : Feed) (e f : Error) (a b : Feed)
        → Refuses feed e a → Refuses feed f b → RefuseAlike e f × (a ≡ b) }
    ensures no_choice { (feed : Feed) (x : Placed) (e : Error) (a b : Feed)
        → Takes feed x a → Refuses feed e b → ⊥ }
{}
