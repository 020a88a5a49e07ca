//! Laws of the findings of a program, which run no code.

ghost use Rattle.std.specs.Prelude.{◌≡◌, List, false, true};
ghost use Rattle.std.specs.List.{All};
ghost use Rattle.isle_ast.specs.Tree.{Definition};
ghost use Rattle.isle_check_environment.specs.signatures.Environment.{environment};
ghost use Rattle.isle_check_rules.specs.TypedRules.{TypedRuleNode};
ghost use Rattle.isle_check_laws.specs.RightProgram.{AreRight};
ghost use Rattle.isle_check_core.specs.Findings.{findings, has_error, is_error};
ghost use Rattle.isle_check_laws.specs.Broken.{IsBroken};
ghost use Rattle.isle_check_laws.specs.NoErrors.{HasNoError, is_of_rule};

/// A law, which runs no code: each error among the findings of a program names what is wrong there.
pub fn errors_name_what_is_broken()
    ensures { (ds : List Definition)
        → All (λ f. is_error f.kind ≡ true → IsBroken ds f.kind f.pos) (findings ds) }
{}

/// A law, which runs no code: if none of the findings of a program is an error, no group has one,
/// although only the first group that has any is told.
pub fn no_error_means_every_group_is_empty()
    ensures { (ds : List Definition) → has_error (findings ds) ≡ false → HasNoError ds }
{}

/// A law, which runs no code: and if no group has an error, none of the findings is one.
pub fn empty_groups_mean_no_error()
    ensures { (ds : List Definition) → HasNoError ds → has_error (findings ds) ≡ false }
{}

/// A law, which runs no code: if none of the findings of a program is an error, nor says that a
/// pattern is left out, the program is right by the rules of types.
pub fn no_error_means_right_by_the_rules()
    ensures { (ds : List Definition) → has_error (findings ds) ≡ false
        → All (λ f. is_of_rule f.kind ≡ false) (findings ds)
        → (typed : List TypedRuleNode) × AreRight (environment ds) ds typed }
{}
