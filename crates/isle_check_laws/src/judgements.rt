//! Laws of typing and of the rules of types, which run no code.

ghost use Rattle.std.specs.Prelude.{◌≡◌, ◌≢◌, ◌↔◌, ℕ, [], List, None, Option, Some};
ghost use Rattle.std.specs.List.{All};
ghost use Rattle.isle_ast_rules.specs.Tree.{Expression, ExpressionList, PatternList};
ghost use Rattle.isle_ast_rules.specs.Tree.{PatternNode, RuleDefinition};
ghost use Rattle.isle_ast.specs.Tree.{Definition};
ghost use Rattle.isle_check_environment.specs.Parts.{rules_in};
ghost use Rattle.isle_check_environment.specs.signatures.Environment.{EnvironmentNode};
ghost use Rattle.isle_check_typing.specs.PatternTypes.{type_at};
ghost use Rattle.isle_check_typing.specs.Progress.{ProgressNode, VariableNode};
ghost use Rattle.isle_check_typing.specs.Typed.{TypedNode, type_of};
ghost use Rattle.isle_check_typing.specs.Typings.{Typing};
ghost use Rattle.isle_check_typing.specs.declared.expressions.flags.Flags.{Flags};
ghost use Rattle.isle_check_typing.specs.expressions.ExpressionTypes.{expression_at};
ghost use Rattle.isle_check_typing.specs.expressions.TypedExpressions.{TypedExpressionNode};
ghost use Rattle.isle_check_typing.specs.expressions.TypedExpressions.{type_of_expression};
ghost use Rattle.isle_check_rules.specs.RuleTypes.{RuleTyping, type_rule};
ghost use Rattle.isle_check_rules.specs.TypedRules.{TypedRuleNode};
ghost use Rattle.isle_check_laws.specs.HasExpressionType.{HasExpressionType};
ghost use Rattle.isle_check_laws.specs.HasExpressionType.{HaveExpressionTypes, IsWanted};
ghost use Rattle.isle_check_laws.specs.HasType.{HasType, HaveTypes};
ghost use Rattle.isle_check_laws.specs.IsTypedRule.{IsTypedRule};
ghost use Rattle.isle_check_laws.specs.RightProgram.{AreRight, AreTypedRules, HasRoot};
ghost use Rattle.isle_check_laws.specs.Untold.{AreExpressionsTypedAs, AreTypedAs};
ghost use Rattle.isle_check_laws.specs.Untold.{HasPart, IsExpressionTypedAs};
ghost use Rattle.isle_check_laws.specs.Untold.{IsRuleTypedAs, IsTypedAs, root_term};

/// A law, which runs no code: a pattern has a type by the rules, with this typed pattern and these
/// variables after it, exactly if it is typed so at some depth without a new error.
pub fn patterns_are_typed_by_the_rules()
    ensures { (env : EnvironmentNode) (p : PatternNode) (ty : List ℕ) (s : ProgressNode)
        (typed : TypedNode) (after : List VariableNode)
        → IsTypedAs env p ty s typed after ↔ HasType env p ty s.bound typed after }
{}

/// A law, which runs no code: if the typing of a pattern adds no error, it gives a typed pattern,
/// and the pattern has the type by the rules.
pub fn patterns_without_an_error_have_a_type()
    ensures { (env : EnvironmentNode) (depth : ℕ) (p : PatternNode) (ty : List ℕ)
        (s : ProgressNode) (made : Typing TypedNode) → type_at depth env p ty s ≡ Some made
        → made.after.faults ≡ s.faults → HasPart (HasType env p ty s.bound) made }
{}

/// A law, which runs no code: a pattern has one typed pattern of a type, and one list of variables
/// after it.
pub fn patterns_have_one_typing()
    ensures { (env : EnvironmentNode) (p : PatternNode) (ty : List ℕ)
        (bound : List VariableNode) (typed other : TypedNode) (after later : List VariableNode)
        → HasType env p ty bound typed after → HasType env p ty bound other later
        → (typed ≡ other) × (after ≡ later) }
{}

/// A law, which runs no code: a typed pattern has the type that is wanted.
pub fn typed_patterns_have_the_type()
    ensures { (env : EnvironmentNode) (p : PatternNode) (ty : List ℕ)
        (bound : List VariableNode) (typed : TypedNode) (after : List VariableNode)
        → HasType env p ty bound typed after → type_of typed ≡ ty }
{}

/// A law, which runs no code: patterns have types by the rules exactly if they are as many and are
/// typed so at some depth without a new error.
pub fn arguments_are_typed_by_the_rules()
    ensures { (env : EnvironmentNode) (ps : PatternList) (types : List (List ℕ))
        (s : ProgressNode) (typed : List TypedNode) (after : List VariableNode)
        → AreTypedAs env ps types s typed after ↔ HaveTypes env ps types s.bound typed after }
{}

/// A law, which runs no code: an expression has the type that is wanted by the rules, with this
/// typed expression and these variables after it, exactly if it is typed so at some depth without a
/// new error.
pub fn expressions_are_typed_by_the_rules()
    ensures { (env : EnvironmentNode) (flags : Flags) (e : Expression)
        (wanted : Option (List ℕ)) (s : ProgressNode) (typed : TypedExpressionNode)
        (after : List VariableNode) → IsExpressionTypedAs env flags e wanted s typed after
        ↔ HasExpressionType env flags e wanted s.bound typed after }
{}

/// A law, which runs no code: if the typing of an expression adds no error, it gives a typed
/// expression, and the expression has the type that is wanted by the rules.
pub fn expressions_without_an_error_have_a_type()
    ensures { (env : EnvironmentNode) (flags : Flags) (depth : ℕ) (e : Expression)
        (wanted : Option (List ℕ)) (s : ProgressNode) (made : Typing TypedExpressionNode)
        → expression_at depth env flags e wanted s ≡ Some made → made.after.faults ≡ s.faults
        → HasPart (HasExpressionType env flags e wanted s.bound) made }
{}

/// A law, which runs no code: an expression has one typed expression where a type is wanted, or
/// where none is, and one list of variables after it.
pub fn expressions_have_one_typing()
    ensures { (env : EnvironmentNode) (flags : Flags) (e : Expression)
        (wanted : Option (List ℕ)) (bound : List VariableNode)
        (typed other : TypedExpressionNode) (after later : List VariableNode)
        → HasExpressionType env flags e wanted bound typed after
        → HasExpressionType env flags e wanted bound other later
        → (typed ≡ other) × (after ≡ later) }
{}

/// A law, which runs no code: a typed expression has the type that is wanted, if one is.
pub fn typed_expressions_have_the_type()
    ensures { (env : EnvironmentNode) (flags : Flags) (e : Expression)
        (wanted : Option (List ℕ)) (bound : List VariableNode) (typed : TypedExpressionNode)
        (after : List VariableNode) → HasExpressionType env flags e wanted bound typed after
        → IsWanted (type_of_expression typed) wanted }
{}

/// A law, which runs no code: expressions have types by the rules exactly if they are as many and
/// are typed so at some depth without a new error.
pub fn expression_arguments_are_typed_by_the_rules()
    ensures { (env : EnvironmentNode) (flags : Flags) (es : ExpressionList)
        (types : List (List ℕ)) (s : ProgressNode) (typed : List TypedExpressionNode)
        (after : List VariableNode) → AreExpressionsTypedAs env flags es types s typed after
        ↔ HaveExpressionTypes env flags es types s.bound typed after }
{}

/// A law, which runs no code: a rule has this typed rule by the rules of types exactly if it is
/// typed so at some depth without an error.
pub fn rules_are_typed_by_the_rules()
    ensures { (env : EnvironmentNode) (r : RuleDefinition) (typed : TypedRuleNode)
        → IsRuleTypedAs env r typed ↔ IsTypedRule env r typed }
{}

/// A law, which runs no code: if the typing of a rule gives no error, and the rule's left side is a
/// term that is known, it gives a typed rule, which the rule has by the rules of types. A rule
/// whose left side is no such term gives no error here.
pub fn rules_without_an_error_are_typed()
    ensures { (env : EnvironmentNode) (depth : ℕ) (r : RuleDefinition) (made : RuleTyping)
        → type_rule depth env r ≡ Some made → made.faults ≡ []
        → root_term env r.pattern ≢ None
        → (typed : TypedRuleNode) × ((made.typed ≡ Some typed) × IsTypedRule env r typed) }
{}

/// A law, which runs no code: a rule has one typed rule.
pub fn rules_have_one_typing()
    ensures { (env : EnvironmentNode) (r : RuleDefinition) (typed other : TypedRuleNode)
        → IsTypedRule env r typed → IsTypedRule env r other → typed ≡ other }
{}

/// A law, which runs no code: if the left sides of a program's rules are terms that are known, the
/// rules have these typed rules without an error at some depth exactly if the program is right:
/// each rule has its typed rule by the rules of types, each declared term is defined, and the terms
/// of right sides have constructors.
pub fn programs_without_an_error_are_right()
    ensures { (env : EnvironmentNode) (ds : List Definition) (typed : List TypedRuleNode)
        → All (HasRoot env) (rules_in ds) → AreTypedRules env ds typed ↔ AreRight env ds typed }
{}
