//! Laws of typing, which run no code.

ghost use Rattle.std.specs.Prelude.{◌≡◌, ℕ, List, Some, suc};
ghost use Rattle.isle_ast_rules.specs.Tree.{PatternNode};
ghost use Rattle.isle_check_environment.specs.signatures.Environment.{EnvironmentNode};
ghost use Rattle.isle_check_typing.specs.PatternTypes.{type_at};
ghost use Rattle.isle_check_typing.specs.Progress.{ProgressNode};
ghost use Rattle.isle_check_typing.specs.Typed.{TypedNode};
ghost use Rattle.isle_check_typing.specs.Typings.{Typing};

/// A law, which runs no code: once the depth is enough, more depth changes nothing.
pub fn more_depth_changes_nothing()
    ensures { (env : EnvironmentNode) (depth : ℕ) (p : PatternNode) (ty : List ℕ)
        (s : ProgressNode) (made : Typing TypedNode) → type_at depth env p ty s ≡ Some made
        → type_at (suc depth) env p ty s ≡ Some made }
{}
