//! Laws of documents, which run no code.

ghost use Rattle.std.specs.Prelude.{◌≡◌, ℕ, List, map, true};
ghost use Rattle.isle_base.specs.Lexing.{lexes};
ghost use Rattle.isle_base.specs.Token.{Lexeme, end};
ghost use Rattle.isle_tidy_layout.specs.Entries.{Entry};
ghost use Rattle.isle_tidy_core.specs.Ends.{body_of, entries_with, line_end_of, mark_of, with_ends};
ghost use Rattle.isle_tidy_core.specs.Grammar.{IsDocument, lexemes};
ghost use Rattle.isle_tidy_core.specs.Matched.{tokens_match};
ghost use Rattle.isle_tidy_core.specs.Outside.{Outside, ends_without_blank, has_few_lines};
ghost use Rattle.isle_tidy_layout.specs.Placing.{placed, tidied};
ghost use Rattle.isle_tidy_core.specs.Tidied.{IsTidyTextOf, breaks, capped_breaks};
ghost use Rattle.isle_tidy_core.specs.Tokens.{HaveSameTokens};
ghost use Rattle.isle_tidy_core.specs.declared.ends.LineEnd.{LineEnd};
ghost use Rattle.isle_tidy_core.specs.declared.ends.LineEnd.TheVariants.{Lf};
ghost use Rattle.isle_tidy_layout.specs.Writing.{written};

/// A law, which runs no code: a text has one document at most.
pub fn one_document()
    ensures { (text : List ℕ) (document other : List Entry)
        → IsDocument text document → IsDocument text other → document ≡ other }
{}

/// A law, which runs no code: the text of a document that is placed has that document.
pub fn placed_text_has_placed_document()
    ensures { (text : List ℕ) (document : List Entry)
        → IsDocument text document → IsDocument (written (placed document)) (placed document) }
{}

/// A law, which runs no code: the tidy text of a tidy text is that text.
pub fn tidying_again_changes_nothing()
    ensures { (text answer again : List ℕ)
        → IsTidyTextOf text answer → IsTidyTextOf answer again → again ≡ answer }
{}

/// A law, which runs no code: the same lexemes stay in the same order, line comments without the
/// spaces and tabs at their ends. The same lexemes begin lines, after at most two empty lines.
pub fn lexemes_and_lines_stay()
    ensures same_lexemes { (entries : List Entry)
        → lexemes (placed entries) ≡ map tidied (lexemes entries) }
    ensures same_lines { (entries : List Entry)
        → breaks (placed entries) ≡ capped_breaks (breaks entries) }
{}

/// A law, which runs no code: a text and its tidy text have the same tokens, offsets aside.
pub fn same_tokens_stay()
    ensures { (text answer : List ℕ) → IsTidyTextOf text answer → HaveSameTokens text answer }
{}

/// A law, which runs no code: a text has a document exactly if it lexes up to its end and the
/// parentheses of its tokens match.
pub fn matched_texts_have_documents()
    ensures matched { (text : List ℕ) (tokens : List Lexeme) → lexes text tokens end
        → tokens_match tokens ≡ true → (document : List Entry) × IsDocument text document }
    ensures only { (text : List ℕ) (document : List Entry) → IsDocument text document
        → (tokens : List Lexeme) × lexes text tokens end × (tokens_match tokens ≡ true) }
{}

/// A law, which runs no code: outside block comments, no line of a tidy text ends with a space or a
/// tab. Its lines are those behind its byte order mark, with LF at their ends.
pub fn no_line_ends_with_a_blank()
    ensures { (text answer : List ℕ) → IsTidyTextOf text answer
        → Outside ends_without_blank (with_ends Lf (body_of answer)) }
{}

/// A law, which runs no code: outside block comments, at most two empty lines stand in a row in a
/// tidy text. Its lines are those behind its byte order mark, with LF at their ends.
pub fn no_three_lines_are_empty()
    ensures { (text answer : List ℕ) → IsTidyTextOf text answer
        → Outside has_few_lines (with_ends Lf (body_of answer)) }
{}

/// A law, which runs no code: a text with other line ends has the same document, but for the line
/// ends in its block comments.
pub fn line_ends_change_block_comments_alone()
    ensures { (line_end : LineEnd) (text : List ℕ) (document : List Entry)
        → IsDocument text document
        → IsDocument (with_ends line_end text) (entries_with line_end document) }
{}

/// A law, which runs no code: a tidy text has the byte order mark of its text, if that stands
/// apart, and behind it each line end is that of the text.
pub fn marks_and_line_ends_stay()
    ensures mark { (text answer : List ℕ) → IsTidyTextOf text answer
        → mark_of answer ≡ mark_of text }
    ensures line_ends { (text answer : List ℕ) → IsTidyTextOf text answer
        → with_ends (line_end_of text) (body_of answer) ≡ body_of answer }
{}
