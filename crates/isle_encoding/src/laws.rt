//! Laws of the encoding. They have no code to run.

ghost use Rattle.std.specs.Prelude.{◌≡◌, ◌++◌, List, ℕ};
ghost use Rattle.isle_ast.specs.Tree.{Definition};
ghost use Rattle.isle_encoding.specs.Encoded.{encoded};

/// An encoding shows where it ends: if the encodings of two trees are prefixes of the same bytes,
/// the trees are equal, and so are the bytes after them. So no part of a tree is lost.
#[tactic(auto, using(crate::proofs::DefinitionEnds::encoded_ends))]
pub fn encodings_end()
    ensures { (a b : List Definition) (r s : List ℕ) → encoded a ++ r ≡ encoded b ++ s
        → (a ≡ b) × (r ≡ s) }
{}
