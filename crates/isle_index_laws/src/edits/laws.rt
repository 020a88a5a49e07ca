//! Laws of edited texts, which run no code.

ghost use Rattle.std.specs.Prelude.{◌≡◌, ℕ, List, true};
ghost use Rattle.std.specs.List.Sorted.{IsSorted};
ghost use Rattle.isle_ast.specs.Spelt.{IsSpelt};
ghost use Rattle.isle_ast.specs.Tree.{Definition};
ghost use Rattle.isle_base.specs.Lexing.{lexes};
ghost use Rattle.isle_base.specs.Place.{in_file, placed};
ghost use Rattle.isle_base.specs.Token.{Lexeme, end};
ghost use Rattle.isle_base_source.specs.PositionOrder.{position_cmp};
ghost use Rattle.isle_base_source.specs.declared.pos.Pos.{Pos};
ghost use Rattle.isle_resolve.specs.Names.{NameNode};
ghost use Rattle.isle_index.specs.Renamed.{are_apart, replaced};
ghost use Rattle.isle_index.specs.Renaming.{IsAccepted, Part, is_new_name, part_of};
ghost use Rattle.isle_resolve.specs.Scopes.{seen};
ghost use Rattle.isle_index_laws.specs.SpeltTexts.{AreSpelt, SpeltText, definitions_of};
ghost use Rattle.isle_index_laws.specs.edits.EditedTexts.{AreNamed, AreNotGlued, AreSpeltEdited};
ghost use Rattle.isle_index_laws.specs.edits.EditedTexts.{SpellsUpToPositions, edited_text};
ghost use Rattle.isle_index_laws.specs.edits.EditedTexts.{edited_tokens};
ghost use Rattle.isle_index_laws.specs.edits.Ranges.{AreRanges};
ghost use Rattle.isle_resolve.specs.Events.{events};
ghost use Rattle.isle_resolve.specs.Mapped.{map_definitions};

/// A law, which runs no code: an edited text lexes to the edited tokens. If a text lexes to its
/// end, and at some positions stand tokens that begin with a name, the text with a new name there
/// lexes to its tokens with the new name there, each at its new offsets. No name that changes may
/// directly follow a number.
pub fn edited_texts_lex_to_edited_tokens()
    ensures { (file : ℕ) (places : List Pos) (text : List ℕ) (tokens : List Lexeme)
        (name : NameNode) (part : Part) (new : List ℕ) → lexes text tokens end
        → is_new_name new ≡ true
        → IsSorted position_cmp places → are_apart places ≡ true
        → AreNamed file places name part (placed (in_file file) tokens)
        → AreNotGlued file places name part text
        → lexes (edited_text file places name part new text)
        (edited_tokens file places name part new tokens) end }
{}

/// A law, which runs no code: if a text spells definitions, the text with the new name at the
/// positions that `Index::rename` returns spells the definitions with the new name there, up to
/// their positions. So it is parsed as them.
pub fn edited_texts_spell_renamed_definitions()
    ensures { (file : ℕ) (text : List ℕ) (ds : List Definition) (name : NameNode)
        (new : List ℕ) (places : List Pos) → IsSpelt (in_file file) text ds
        → IsAccepted name new (seen (events ds)) places
        → AreNotGlued file places name (part_of name (seen (events ds))) text
        → SpellsUpToPositions (in_file file)
        (edited_text file places name (part_of name (seen (events ds))) new text)
        (map_definitions (replaced places (part_of name (seen (events ds))) new) ds) }
{}

/// A law, which runs no code: the same of each text of a program.
pub fn edited_programs_spell_renamed_definitions()
    ensures { (file : ℕ) (ts : List SpeltText) (name : NameNode) (new : List ℕ)
        (places : List Pos) → AreSpelt file ts
        → IsAccepted name new (seen (events (definitions_of ts))) places
        → AreSpeltEdited places name (part_of name (seen (events (definitions_of ts)))) new
        file ts }
{}

/// A law, which runs no code: where the name begins and ends at the positions that `Index::rename`
/// returns, no character and no CR LF is cut. So the positions of its two ends, in lines and units
/// of UTF-8 or UTF-16, have its offsets. The texts are UTF-8.
pub fn edits_are_ranges()
    ensures { (file : ℕ) (ts : List SpeltText) (name : NameNode) (new : List ℕ)
        (places : List Pos) → AreSpelt file ts
        → IsAccepted name new (seen (events (definitions_of ts))) places
        → AreRanges places name (part_of name (seen (events (definitions_of ts)))) file ts }
{}
