//! Laws of names. They have no code to run.

ghost use Rattle.std.specs.Prelude.{◌≡◌, ◌↔◌, ◌++◌, ℕ, List, IsTrue, Some, true, false};
ghost use Rattle.std.specs.List.{list_all};
ghost use Rattle.std.specs.declared.cmp.Ordering.TheVariants.{Equal};
ghost use Rattle.isle_base.specs.Spellings.{begins_symbol, in_symbol, Spelling};
ghost use Rattle.isle_base_source.specs.PositionOrder.{IsInRange};
ghost use Rattle.isle_base.specs.Skips.{begins_with};
ghost use Rattle.isle_base.specs.Token.{symbol};
ghost use Rattle.isle_ast_names.specs.Identifier.{is_identifier};
ghost use Rattle.isle_ast_names.specs.NameOrder.{name_cmp, name_hash};
ghost use Rattle.isle_ast_names.specs.Tree.{Name};
ghost use Rattle.isle_ast_names.specs.TreeView.{name_of};

use crate::Ident;
use std::hash::Hash;

/// The order, equality and hash of identifiers depend only on their texts and positions, and agree.
pub fn identifiers_are_ordered()
    ensures order { (a b : Ident) → ⟦<Ident as Ord>⟧.cmp a b ≡ name_cmp (name_of a) (name_of b) }
    ensures partial_order { (a b : Ident)
        → ⟦<Ident as PartialOrd>⟧.partial_cmp a b ≡ Some (name_cmp (name_of a) (name_of b)) }
    ensures equality { (a b : Ident)
        → IsTrue (⟦<Ident as PartialEq>⟧.eq a b) ↔ (name_of a ≡ name_of b) }
    ensures equal_in_order { (a b : Ident)
        → (name_cmp (name_of a) (name_of b) ≡ Equal) ↔ (name_of a ≡ name_of b) }
    ensures hash { (a b : Ident) → name_of a ≡ name_of b
        → ⟦<Ident as Hash>⟧.hash_input a ≡ ⟦<Ident as Hash>⟧.hash_input b }
    ensures fed { (a : Ident) → ⟦<Ident as Hash>⟧.hash_input a ≡ name_hash (name_of a) }
    ensures equal_in_hash { (m n : Name) → IsInRange m.pos → IsInRange n.pos
        → (name_hash m ≡ name_hash n) ↔ (m ≡ n) }
{}

/// No byte of an identifier ends a symbol, and its first byte begins one. So an identifier is read
/// as one symbol if a byte that ends symbols, or the end of the text, follows it.
pub fn identifiers_are_symbols()
    ensures begins { (text : List ℕ) → is_identifier text ≡ true → begins_with begins_symbol text
        ≡ true }
    ensures none_ends { (text : List ℕ) → is_identifier text ≡ true → list_all in_symbol text
        ≡ true }
    ensures one_symbol { (text rest : List ℕ) → is_identifier text ≡ true
        → begins_with in_symbol rest ≡ false → Spelling (text ++ rest) (symbol text) rest }
{}
