//! Laws of the layout, which run no code.

ghost use Rattle.std.specs.Prelude.{◌≡◌, List};
ghost use Rattle.isle_tidy_layout.specs.Entries.{Entry};
ghost use Rattle.isle_tidy_layout.specs.Placing.{placed};
ghost use Rattle.isle_tidy_layout.specs.Printed.{AllHavePlainHeads, Print, printed};

/// A law, which runs no code: entries that are placed stay where they are.
pub fn placed_again()
    ensures { (entries : List Entry) → placed (placed entries) ≡ placed entries }
{}

/// A law, which runs no code: prints in which no broken list begins with a binding stay as they
/// are.
pub fn prints_stay()
    ensures { (prints : List Print) → AllHavePlainHeads prints
        → placed (printed prints) ≡ printed prints }
{}
