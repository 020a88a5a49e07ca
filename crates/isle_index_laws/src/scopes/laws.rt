//! Laws of scopes, which run no code.

ghost use Rattle.std.specs.Prelude.{◌↔◌, ◌≡◌, ◌∷◌, [], List, Some};
ghost use Rattle.isle_ast.specs.Tree.{Definition};
ghost use Rattle.isle_ast_names.specs.Tree.{Name};
ghost use Rattle.isle_resolve.specs.Names.{NameNode};
ghost use Rattle.isle_index.specs.Occurrences.{definitions};
ghost use Rattle.isle_resolve.specs.Scopes.{seen};
ghost use Rattle.isle_resolve.specs.Events.{events};
ghost use Rattle.isle_index_laws.specs.scopes.Definitions.{IsKnownAs, definition_at};
ghost use Rattle.isle_index_laws.specs.scopes.Reads.{IsReadAs, IsUnknown, OccursAs};
ghost use Rattle.isle_index_laws.specs.scopes.Uses.{HasBinder, HasFirst, HasNoBinder};

/// A law, which runs no code: the unknown variables of a program are exactly the reads without a
/// binder. A use of a variable, among the events of the definitions, has no binder exactly if an
/// expression of a rule reads it where nothing in scope has its name.
pub fn unknown_variables_are_reads_without_a_binder()
    ensures { (ds : List Definition) (name : Name)
        → HasNoBinder name (seen (events ds)) ↔ IsUnknown ds name }
{}

/// A law, which runs no code: what a variable means where it is read. The event that binds it is
/// about this other name exactly if, in the tree, that is the nearest variable of its text in
/// scope: the last one that a `let` around it has bound, or else the first of the patterns before
/// it.
pub fn reads_mean_the_nearest_variables()
    ensures { (ds : List Definition) (name binder : Name)
        → HasBinder name binder (seen (events ds)) ↔ IsReadAs ds name (Some binder) }
{}

/// A law, which runs no code: what a variable of a pattern means, and a parameter of an extractor.
/// The event that binds it is about this other name exactly if, in the tree, that is the first
/// variable of its text in the patterns of the rule, or among the parameters and in the template of
/// the extractor.
pub fn patterns_mean_their_first_variables()
    ensures { (ds : List Definition) (name binder : Name)
        → HasFirst name binder (seen (events ds)) ↔ OccursAs ds name binder }
{}

/// A law, which runs no code: the index finds just one definition of a variable that is read, and
/// that is the variable that it means in the tree. So an editor that asks for the definition of a
/// variable in an expression is led to the `let` or the pattern that binds it there.
pub fn definitions_of_reads_are_their_variables()
    ensures { (ds : List Definition) (read binder : Name) → IsReadAs ds read (Some binder)
        → (name : NameNode) × IsKnownAs read name (seen (events ds))
        × (definitions name (seen (events ds)) ≡ definition_at binder ∷ []) }
{}
