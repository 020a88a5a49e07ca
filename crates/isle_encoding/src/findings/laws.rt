//! Laws of the encoding. They have no code to run.

ghost use Rattle.std.specs.Prelude.{◌≡◌, ◌++◌, List, ℕ};
ghost use Rattle.isle_encoding.specs.findings.Encoded.{ToldNode, encoded};

/// An encoding shows where it ends: if the encodings of two lists of findings are prefixes of the
/// same bytes, the lists are equal, and so are the bytes after them. So nothing is lost.
#[tactic(auto, using(crate::proofs::FindingEnds::encoded_ends))]
pub fn encodings_end()
    ensures { (a b : List ToldNode) (r s : List ℕ) → encoded a ++ r ≡ encoded b ++ s
        → (a ≡ b) × (r ≡ s) }
{}
