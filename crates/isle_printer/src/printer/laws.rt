//! Laws of the printer. A law has no code to run: its contract is the theorem.

ghost use Rattle.std.specs.Prelude.{List, true, ℕ, ◌↔◌, ◌≡◌, ◌≤◌};
ghost use Rattle.isle_ast.specs.Erased.{erase};
ghost use Rattle.isle_ast.specs.MacroArgs.{definitions_have_macro_arg};
ghost use Rattle.isle_ast.specs.Spelt.{IsSpelt};
ghost use Rattle.isle_ast.specs.Tree.{Definition};
ghost use Rattle.isle_ast.specs.Writable.{AreWritable};
ghost use Rattle.isle_base.specs.Place.{nowhere};
ghost use Rattle.isle_printer.specs.Printed.{IsPrinted};
ghost use Rattle.isle_printer.specs.ReadBack.{HaveSameTokens, ReadsBack, ReadsBackIfWritable};
ghost use Rattle.isle_printer_layout.specs.ShortLines.{HasShortLines};

pub use isle_printer_layout::laws::{
    least_choice_is_one, narrower_breaks_more, past_the_greatest_fits_nowhere, rendered_text_lexes,
    rules_give_least_choice, s_expressions_are_compared,
};

/// If some tokens spell definitions, their print at every width spells them too, erased. The erased
/// definitions have the same print.
pub fn prints_read_back()
    ensures reads_back { (width : ℕ) (ds : List Definition) (text : List ℕ)
        → IsPrinted width ds text → ReadsBack ds text }
    ensures erased { (width : ℕ) (ds : List Definition) (text : List ℕ)
        → IsPrinted width ds text ↔ IsPrinted width (erase ds) text }
{}

/// The print of definitions, at any width, spells them, erased, exactly if they are writable. Then
/// it has the same tokens at every width, offsets aside. Definitions that contain a macro argument
/// have no print, and are not writable.
pub fn writable_definitions_read_back()
    ensures spelt { (width : ℕ) (ds : List Definition) (text : List ℕ) → AreWritable ds
        → IsPrinted width ds text → IsSpelt nowhere text (erase ds) }
    ensures exactly { (width : ℕ) (ds : List Definition) (text : List ℕ)
        → IsPrinted width ds text → ReadsBackIfWritable ds text }
    ensures same_tokens { (width other : ℕ) (ds : List Definition) (text another : List ℕ)
        → AreWritable ds → IsPrinted width ds text → IsPrinted other ds another
        → HaveSameTokens text another }
    ensures macro_args { (ds : List Definition)
        → definitions_have_macro_arg ds ≡ true → AreWritable ds → ⊥ }
{}

/// Lines of the print of writable definitions are short at every width from 1. A line that contains
/// a whole list is at most as long as the width, its indentation, and one byte for each empty list
/// on it.
pub fn prints_have_short_lines()
    ensures { (width : ℕ) (ds : List Definition) (text : List ℕ) → 1 ≤ width → AreWritable ds
        → IsPrinted width ds text → HasShortLines width text }
{}
