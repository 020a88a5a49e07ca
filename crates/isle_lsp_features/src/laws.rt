//! Laws of the pieces of a text, each stated as the contract of a function that does nothing.

ghost use Rattle.std.specs.Prelude.{◌≡◌, ◌∷◌, [], List, None, Some, ℕ};
ghost use Rattle.isle_ast.specs.Tree.{Definition};
ghost use Rattle.isle_base_source.specs.declared.error.Error as errors;
ghost use Rattle.isle_lsp_features.specs.Pieces.{ArePieces, Piece, broken, most_pieces, tree};
ghost use Rattle.isle_program.specs.Nesting.{FirstDeep};
ghost use Rattle.isle_program.specs.Reading.{IsRefusedWith, IsTreeOf};

/// A text that spells a tree, and does not nest too deeply, is one piece: that tree.
pub fn whole()
    ensures { (file : ℕ) (text : List ℕ) (ds : List Definition) (ps : List Piece)
        → FirstDeep text None → IsTreeOf file text ds
        → ArePieces file most_pieces (Some text) ps → ps ≡ tree ds ∷ [] }
{}

/// The first piece of a text that spells no tree, and does not nest too deeply, ends with an error
/// for which the whole text is refused.
pub fn first_error()
    ensures { (file : ℕ) (text : List ℕ) (e : errors.Error) (ps : List Piece)
        → FirstDeep text None → IsRefusedWith file text e
        → ArePieces file most_pieces (Some text) ps
        → (ds : List Definition) × (f : errors.Error) × (more : List Piece)
        × (ps ≡ broken ds f ∷ more) × IsRefusedWith file text f }
{}
