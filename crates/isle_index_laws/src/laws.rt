//! Laws of renaming, of writable trees and of the tokens that spell them, which run no code.

ghost use Rattle.std.specs.Prelude.{◌≡◌, ℕ, List, None, true};
ghost use Rattle.isle_ast.specs.Grammar.{SpellsDefinitions};
ghost use Rattle.isle_ast.specs.Tree.{Definition};
ghost use Rattle.isle_ast.specs.Writable.{AreWritable};
ghost use Rattle.isle_ast_names.specs.Tree.{Name};
ghost use Rattle.isle_base.specs.Place.{Placed};
ghost use Rattle.isle_base_source.specs.declared.pos.Pos.{Pos};
ghost use Rattle.isle_resolve.specs.Names.{NameNode};
ghost use Rattle.isle_index.specs.Renamed.{Renames, are_apart, places_of, replaced};
ghost use Rattle.isle_index.specs.Renaming.{IsAccepted, part_of, refusal};
ghost use Rattle.isle_resolve.specs.Scopes.{seen};
ghost use Rattle.isle_index_laws.specs.Kept.{AreKept};
ghost use Rattle.isle_index_laws.specs.RenamedTokens.{positions, renamed_tokens};
ghost use Rattle.isle_index_laws.specs.SpeltTexts.{AreSpelt, AreSpeltWith, SpeltText};
ghost use Rattle.isle_index_laws.specs.SpeltTexts.{definitions_of};
ghost use Rattle.isle_resolve.specs.Events.{events};
ghost use Rattle.isle_resolve.specs.Mapped.{map_definitions};

/// A law, which runs no code: definitions stay writable if each of their names that changes gets a
/// text that can replace its own.
pub fn replaced_names_keep_definitions_writable()
    ensures { (ds : List Definition) (f : Name → Name) → AreWritable ds → AreKept f (events ds)
        → AreWritable (map_definitions f ds) }
{}

/// A law, which runs no code: renaming keeps definitions writable. If `Index::rename` returns
/// positions, and writable definitions get the new text there, they are writable still.
pub fn renamed_definitions_are_writable()
    ensures { (ds : List Definition) (name : NameNode) (new : List ℕ) (f : Name → Name)
        → AreWritable ds → refusal name new (seen (events ds)) ≡ None
        → Renames f name new (seen (events ds)) → AreWritable (map_definitions f ds) }
{}

/// A law, which runs no code: the same of the positions that `Index::rename` returns, if no two
/// names of the definitions are at one position.
pub fn replacing_keeps_definitions_writable()
    ensures { (ds : List Definition) (name : NameNode) (new : List ℕ) (places : List Pos)
        → AreWritable ds → are_apart (places_of (seen (events ds))) ≡ true
        → IsAccepted name new (seen (events ds)) places
        → AreWritable (map_definitions
        (replaced places (part_of name (seen (events ds))) new) ds) }
{}

/// A law, which runs no code: no two names of a text are at one position, if no two tokens are.
pub fn names_of_tokens_are_apart()
    ensures { (ds : List Definition) (ts : List Placed) → SpellsDefinitions ds ts
        → are_apart (positions ts) ≡ true → are_apart (places_of (seen (events ds))) ≡ true }
{}

/// A law, which runs no code: no two names of a program are at one position. Its texts are those of
/// files with numbers of their own.
pub fn names_of_a_program_are_apart()
    ensures { (file : ℕ) (ts : List SpeltText) → AreSpelt file ts
        → are_apart (places_of (seen (events (definitions_of ts)))) ≡ true }
{}

/// A law, which runs no code: where tokens spell definitions, the tokens with the new text at the
/// positions that `Index::rename` returns spell the definitions with the new text there.
pub fn renamed_tokens_spell_renamed_definitions()
    ensures { (ds : List Definition) (ts : List Placed) (name : NameNode) (new : List ℕ)
        (places : List Pos) → SpellsDefinitions ds ts → are_apart (positions ts) ≡ true
        → IsAccepted name new (seen (events ds)) places
        → SpellsDefinitions
        (map_definitions (replaced places (part_of name (seen (events ds))) new) ds)
        (renamed_tokens places name (part_of name (seen (events ds))) new ts) }
{}

/// A law, which runs no code: the same of a program. With the new text at the positions that
/// `Index::rename` returns, the tokens of each text spell its definitions with the new text there.
pub fn renamed_tokens_spell_renamed_programs()
    ensures { (file : ℕ) (ts : List SpeltText) (name : NameNode) (new : List ℕ)
        (places : List Pos) → AreSpelt file ts
        → IsAccepted name new (seen (events (definitions_of ts))) places
        → AreSpeltWith
        (replaced places (part_of name (seen (events (definitions_of ts)))) new)
        (renamed_tokens places name (part_of name (seen (events (definitions_of ts)))) new)
        file ts }
{}
