//! Laws of names that are renamed, which run no code.

ghost use Rattle.std.specs.Prelude.{◌≡◌, Decides, ℕ, List, None, map, true};
ghost use Rattle.std.specs.List.{list_any};
ghost use Rattle.isle_ast.specs.Tree.{Definition};
ghost use Rattle.isle_ast_names.specs.Tree.{Name};
ghost use Rattle.isle_base_source.specs.declared.pos.Pos.{Pos};
ghost use Rattle.isle_resolve.specs.Names.{NameNode, is_of};
ghost use Rattle.isle_index.specs.Renamed.{Renames, after_renaming, are_apart, places_of, replaced};
ghost use Rattle.isle_index.specs.Renaming.{IsAccepted, can_be_renamed, is_new_name, part_of};
ghost use Rattle.isle_index.specs.Renaming.{refusal, with_part};
ghost use Rattle.isle_resolve.specs.Scopes.{SeenNode, seen};
ghost use Rattle.isle_index_laws.specs.Fresh.{IsFresh};
ghost use Rattle.isle_resolve.specs.Event.{EventNode};
ghost use Rattle.isle_resolve.specs.Events.{events};
ghost use Rattle.isle_resolve.specs.Mapped.{map_definitions};

/// A law, which runs no code: the positions that `Index::rename` returns are those of the name. If
/// no two names of the definitions are at one position, replacing the old text by the new one at
/// these positions, in the part of the name that gets it, gives the name its new text, and leaves
/// all other names as they are.
pub fn places_are_those_of_the_name()
    ensures { (ds : List Definition) (name : NameNode) (new : List ℕ) (places : List Pos)
        → are_apart (places_of (seen (events ds))) ≡ true
        → IsAccepted name new (seen (events ds)) places
        → Renames (replaced places (part_of name (seen (events ds))) new) name new
        (seen (events ds)) }
{}

/// A law, which runs no code: renaming keeps what names mean. If `Index::rename` returns positions,
/// and the definitions get the new text there, each name of the program occurs at exactly the
/// positions where it did before: the name itself with its new text, and every other name with its
/// own. So no variable is captured, and no two names become one.
pub fn renaming_keeps_what_names_mean()
    ensures { (ds : List Definition) (name : NameNode) (new : List ℕ) (f : Name → Name)
        → refusal name new (seen (events ds)) ≡ None
        → Renames f name new (seen (events ds))
        → (m : NameNode) → list_any (is_of m) (seen (events ds)) ≡ true
        → map (is_of (after_renaming name new (seen (events ds)) m))
        (seen (events (map_definitions f ds)))
        ≡ map (is_of m) (seen (events ds)) }
{}

/// A law, which runs no code: what `Index::rename` accepts for some new text can be renamed, as
/// `Index::can_be_renamed` says. So a name that can't be renamed is rejected for every new text.
pub fn accepted_names_can_be_renamed()
    ensures { (name : NameNode) (new : List ℕ) (ss : List SeenNode)
        → refusal name new ss ≡ None → can_be_renamed name ss ≡ true }
{}

/// A law, which runs no code: a name that can be renamed, as `Index::can_be_renamed` says, gets
/// each text that can be a new name, if no name of the program begins with the name that it makes:
/// of a variant, with its type, the dot and the text.
pub fn fresh_texts_are_accepted()
    ensures { (name : NameNode) (new : List ℕ) (es : List EventNode)
        → can_be_renamed name (seen es) ≡ true → is_new_name new ≡ true
        → IsFresh (with_part (part_of name (seen es)) new) es
        → refusal name new (seen es) ≡ None }
{}

/// A law, which runs no code: a name can be renamed, as `Index::can_be_renamed` says, exactly if
/// `Index::rename` accepts some new text for it.
pub fn names_can_be_renamed_if_some_text_is_accepted()
    ensures { (name : NameNode) (es : List EventNode)
        → Decides (can_be_renamed name (seen es))
        ((new : List ℕ) × (refusal name new (seen es) ≡ None)) }
{}
