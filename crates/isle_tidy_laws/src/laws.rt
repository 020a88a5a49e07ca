//! Laws of texts that parse, and of printed texts, which run no code.

ghost use Rattle.std.specs.Prelude.{◌↔◌, [], ℕ, List};
ghost use Rattle.isle_base.specs.Place.{nowhere};
ghost use Rattle.isle_base_source.specs.declared.pos.Pos.{Pos};
ghost use Rattle.isle_ast.specs.Spelt.{IsSpelt};
ghost use Rattle.isle_ast.specs.Tree.{Definition};
ghost use Rattle.isle_ast.specs.Writable.{AreWritable};
ghost use Rattle.isle_tidy_core.specs.Ends.{body_of};
ghost use Rattle.isle_tidy_core.specs.Grammar.{IsDocument};
ghost use Rattle.isle_tidy_core.specs.Refused.{HasDocument};
ghost use Rattle.isle_tidy_core.specs.Tidied.{IsTidyTextOf};
ghost use Rattle.isle_tidy_laws.specs.Indentation.{LinesFit};
ghost use Rattle.isle_tidy_laws.specs.Prints.{AllHaveAtoms, AllHavePlainHeads, print_of};
ghost use Rattle.isle_tidy_layout.specs.Entries.{Entry};
ghost use Rattle.isle_printer.specs.Printed.{IsPrinted};
ghost use Rattle.isle_printer_layout.specs.Sexp.{Sexp};

/// A law, which runs no code: the print of S-expressions at a width is its own tidy text, if their
/// atoms are atoms of ISLE and no list in them begins with a binding.
pub fn prints_of_lists_are_tidy()
    ensures { (width : ℕ) (ss : List Sexp) → AllHaveAtoms ss → AllHavePlainHeads ss
        → IsTidyTextOf (print_of width ss) (print_of width ss) }
{}

/// A law, which runs no code: the print of writable definitions at a width is its own tidy text.
/// Definitions that a text parses as are writable, so `tidy` never changes the output of `format`.
pub fn prints_of_definitions_are_tidy()
    ensures { (width : ℕ) (ds : List Definition) (text : List ℕ) → AreWritable ds
        → IsPrinted width ds text → IsTidyTextOf text text }
{}

/// A law, which runs no code: a text that parses as definitions has a document. So `tidy` accepts
/// each text that `parse` accepts.
pub fn spelt_texts_have_documents()
    ensures { (place : ℕ → Pos) (text : List ℕ) (ds : List Definition)
        → IsSpelt place text ds → HasDocument text }
{}

/// A law, which runs no code: a text and its tidy text parse as the same definitions, positions
/// aside.
pub fn tidying_keeps_trees()
    ensures { (text answer : List ℕ) (ds : List Definition)
        → IsTidyTextOf text answer → IsSpelt nowhere text ds ↔ IsSpelt nowhere answer ds }
{}

/// A law, which runs no code: in a tidy text, lines that begin in the same list begin in the same
/// column, except for those that begin with `)`. Lines outside of lists begin in column 0. The
/// columns of the first line are those behind the byte order mark.
pub fn lines_of_a_list_have_one_column()
    ensures { (text answer : List ℕ) → IsTidyTextOf text answer
        → (document : List Entry) × IsDocument (body_of answer) document × LinesFit [] document }
{}
