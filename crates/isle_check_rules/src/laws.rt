//! Laws of the errors of rules, which run no code.

ghost use Rattle.std.specs.Prelude.{◌≡◌, ℕ, List, Ok, suc};
ghost use Rattle.isle_ast.specs.Tree.{Definition};
ghost use Rattle.isle_check_environment.specs.signatures.Environment.{EnvironmentNode};
ghost use Rattle.isle_check_rules.specs.RuleFaults.{rule_faults};
ghost use Rattle.isle_check_rules.specs.RuleTypes.{RulesTyping};

/// A law, which runs no code: once the depth is enough, more depth changes nothing.
pub fn more_depth_changes_nothing()
    ensures { (env : EnvironmentNode) (depth : ℕ) (ds : List Definition) (made : RulesTyping)
        → rule_faults depth env ds ≡ Ok made → rule_faults (suc depth) env ds ≡ Ok made }
{}
