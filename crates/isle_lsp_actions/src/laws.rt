//! A law of actions, stated as the contract of a function that does nothing.

ghost use Rattle.std.specs.Prelude.{◌≡◌, ◌≤◌, ℕ, List, length};
ghost use Rattle.std.specs.List.{AllByRecursion};
ghost use Rattle.serde_json.specs.Data.{Items};
ghost use Rattle.isle_lsp_actions.specs.Actions.{all_actions};
ghost use Rattle.isle_lsp_actions.specs.Names.{Name};
ghost use Rattle.isle_lsp_text.specs.declared.lists.ListSpan.{ListSpan};
ghost use Rattle.isle_lsp_text.specs.declared.positions.PositionEncoding.{PositionEncoding};

/// Each action for diagnostics inserts its text at an offset of the document.
pub fn actions_are_within_the_text()
    ensures { (enc : PositionEncoding) (text : List ℕ) (names : List Name)
        (lists : List ListSpan) (diagnostics : Items)
        → AllByRecursion (λ a. (a.from ≡ a.to) × (a.to ≤ length text))
        (all_actions enc text names lists diagnostics) }
{}
