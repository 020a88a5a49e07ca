//! A law of events, which runs no code.

ghost use Rattle.std.specs.Prelude.{◌≡◌, List, map};
ghost use Rattle.isle_ast.specs.Tree.{Definition};
ghost use Rattle.isle_ast_names.specs.Tree.{Name};
ghost use Rattle.isle_resolve.specs.Events.{events};
ghost use Rattle.isle_resolve.specs.Mapped.{map_definitions, map_event};

/// A law, which runs no code: replacing the names of definitions replaces the names of their
/// events, and changes nothing else. So each event is about one identifier of the tree, or about
/// two if it defines a variant, and no event depends on the text of a name.
pub fn events_follow_names()
    ensures { (f : Name → Name) (ds : List Definition)
        → events (map_definitions f ds) ≡ map (map_event f) (events ds) }
{}
