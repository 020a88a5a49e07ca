//! A law of positions. It has no code to run.

ghost use Rattle.std.specs.Prelude.{◌≡◌, ◌↔◌, IsTrue, Some};
ghost use Rattle.std.specs.declared.cmp.Ordering.TheVariants.{Equal};
ghost use Rattle.isle_base_source.specs.PositionOrder.{IsInRange, position_cmp, position_hash};

use crate::pos::Pos;
use std::hash::Hash;

/// Positions are ordered by file, then by offset. Their order, equality and hash agree, and two
/// positions compare as equal exactly if they are the same.
pub fn positions_are_ordered()
    ensures order { (a b : Pos) → ⟦<Pos as Ord>⟧.cmp a b ≡ position_cmp a b }
    ensures partial_order { (a b : Pos)
        → ⟦<Pos as PartialOrd>⟧.partial_cmp a b ≡ Some (position_cmp a b) }
    ensures equality { (a b : Pos) → IsTrue (⟦<Pos as PartialEq>⟧.eq a b) ↔ (a ≡ b) }
    ensures equal_in_order { (a b : Pos) → (position_cmp a b ≡ Equal) ↔ (a ≡ b) }
    ensures hash { (a : Pos) → ⟦<Pos as Hash>⟧.hash_input a ≡ position_hash a }
    ensures equal_in_hash { (a b : Pos) → IsInRange a → IsInRange b
        → (position_hash a ≡ position_hash b) ↔ (a ≡ b) }
{}
