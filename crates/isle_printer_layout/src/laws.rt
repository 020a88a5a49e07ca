//! Laws of S-expressions and their layouts. A law has no code to run: its contract is the theorem.

ghost use Rattle.std.specs.Prelude.{◌≡◌, ◌≤◌, ◌<◌, ◌+◌, ◌^◌, ◌↔◌, ℕ, List, [], IsTrue, None};
ghost use Rattle.isle_base.specs.Lexing.{lexes};
ghost use Rattle.isle_base.specs.Place.{nowhere, placed};
ghost use Rattle.isle_base.specs.Token.{Tok, Lexeme, end};
ghost use Rattle.isle_printer_layout.specs.AnyTokens.{AnyTokensOf};
ghost use Rattle.isle_printer_layout.specs.Choices.{Choice, BreaksNoOther, IsLeast, IsLayout};
ghost use Rattle.isle_printer_layout.specs.Choices.{render};
ghost use Rattle.isle_printer_layout.specs.Layout.{layout};
ghost use Rattle.isle_printer_layout.specs.Lengths.{record_of};
ghost use Rattle.isle_printer_layout.specs.ReadBack.{unplaced};
ghost use Rattle.isle_printer_layout.specs.Sexp.{Sexp};
ghost use Rattle.isle_printer_layout.specs.SexpView.{sexp_of};

use super::sexpr::SExpr;

/// A list that is broken at one width is broken at every smaller width.
pub fn narrower_breaks_more()
    ensures { (s : Sexp) (narrow wide : ℕ) (c d : Choice s) → narrow ≤ wide
        → IsLeast wide s c → IsLeast narrow s d → BreaksNoOther s c d }
{}

/// At each width, an S-expression has exactly one least choice of broken lists that fits.
pub fn least_choice_is_one()
    ensures { (width : ℕ) (s : Sexp) (c d : Choice s)
        → IsLeast width s c → IsLeast width s d → c ≡ d }
{}

/// The layout by rules, list by list, is the text of the least choice of broken lists that fits. So
/// an S-expression has exactly one layout at each width.
pub fn rules_give_least_choice()
    ensures { (width : ℕ) (s : Sexp) (text : List ℕ)
        → IsLayout width s text ↔ (text ≡ layout width s) }
{}

/// If an S-expression's atoms are texts of tokens, its text lexes to exactly these tokens, for
/// every choice of broken lists and so at every width.
pub fn rendered_text_lexes()
    ensures { (s : Sexp) (c : Choice s) (level : ℕ) (tokens : List Tok) → AnyTokensOf s tokens []
        → (l : List Lexeme) × lexes (render s c level) l end
        × (placed nowhere l ≡ unplaced tokens) }
{}

/// Two S-expressions compare as equal exactly if they are of the same kind, with the same texts and
/// parts.
pub fn s_expressions_are_compared()
    ensures { (a b : SExpr) → IsTrue (⟦<SExpr as PartialEq>⟧.eq a b) ↔ (sexp_of a ≡ sexp_of b) }
{}

/// A length of 2^64 is recorded as too large. A length recorded so fits no room, and stays so if
/// more is added.
pub fn past_the_greatest_fits_nowhere()
    ensures greatest { record_of (2 ^ 64) ≡ None }
    ensures nowhere { (length room : ℕ) → record_of length ≡ None → room < 2 ^ 64
        → length ≤ room → ⊥ }
    ensures stays { (length more : ℕ) → record_of length ≡ None
        → record_of (length + more) ≡ None }
{}
