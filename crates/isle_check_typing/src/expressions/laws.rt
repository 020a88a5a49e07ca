//! Laws of typing, which run no code.

ghost use Rattle.std.specs.Prelude.{◌≡◌, ℕ, List, Option, Some, suc};
ghost use Rattle.isle_ast_rules.specs.Tree.{Expression};
ghost use Rattle.isle_check_environment.specs.signatures.Environment.{EnvironmentNode};
ghost use Rattle.isle_check_typing.specs.Progress.{ProgressNode};
ghost use Rattle.isle_check_typing.specs.Typings.{Typing};
ghost use Rattle.isle_check_typing.specs.declared.expressions.flags.Flags.{Flags};
ghost use Rattle.isle_check_typing.specs.expressions.ExpressionTypes.{expression_at};
ghost use Rattle.isle_check_typing.specs.expressions.TypedExpressions.{TypedExpressionNode};

/// A law, which runs no code: once the depth is enough, more depth changes nothing.
pub fn more_depth_changes_nothing()
    ensures { (env : EnvironmentNode) (flags : Flags) (depth : ℕ) (e : Expression)
        (wanted : Option (List ℕ)) (s : ProgressNode) (made : Typing TypedExpressionNode)
        → expression_at depth env flags e wanted s ≡ Some made
        → expression_at (suc depth) env flags e wanted s ≡ Some made }
{}
