//! Laws of valuations, and of runs of rules, which run no code.

ghost use Rattle.std.specs.Prelude.{◌≡◌, ◌≢◌, ◌↔◌, Decides, ℕ, List, [], false, int_lt};
ghost use Rattle.std.specs.Prelude.{true};
ghost use Rattle.isle_ast_rules.specs.Tree.{RuleDefinition};
ghost use Rattle.isle_check_environment.specs.signatures.Environment.{EnvironmentNode};
ghost use Rattle.isle_check_rules.specs.TypedRules.{TypedRuleNode};
ghost use Rattle.isle_check_laws.specs.IsTypedRule.{IsTypedRule};
ghost use Rattle.isle_check_places.specs.Clashes.{clashes_after};
ghost use Rattle.isle_check_places.specs.Comparing.{apart, within};
ghost use Rattle.isle_check_places.specs.Places.{ConstrainedNode, ConstraintNode, Place};
ghost use Rattle.isle_check_places.specs.Places.{same_constraint, same_place};
ghost use Rattle.isle_check_places.specs.Settling.{EqualityNode, settle, settled};
ghost use Rattle.isle_check_places.specs.Settling.{unequal};
ghost use Rattle.isle_check_overlaps.specs.Candidates.{CandidateNode, hides};
ghost use Rattle.isle_check_overlaps.specs.Candidates.{hides_with_equals, overlap};
ghost use Rattle.isle_check_matchings.specs.Asks.{TermsNode};
ghost use Rattle.isle_check_matchings.specs.Matchings.{constraints_of, equalities_of, matching};
ghost use Rattle.isle_check_matchings.specs.RuleAsks.{rule_asks};
ghost use Rattle.isle_check_laws.specs.Closed.{IsClosed};
ghost use Rattle.isle_check_laws.specs.Compared.{Covers, IsCompared, Meet};
ghost use Rattle.isle_check_laws.specs.Extensional.{IsExtensional};
ghost use Rattle.isle_check_laws.specs.PlaceValues.{AreEqual, IsMet, valuation};
ghost use Rattle.isle_check_laws.specs.Runs.{Runs};
ghost use Rattle.isle_check_laws.specs.UsedTerms.{AreSingle, rule_terms};
ghost use Rattle.isle_check_laws.specs.Worlds.{World};
ghost use Rattle.isle_check_laws.specs.Valuations.{HaveCommon, Satisfies, Valuation};

/// A law, which runs no code: two places are the same exactly if they are equal.
pub fn places_are_the_same_if_equal()
    ensures { (p q : Place) → Decides (same_place p q) (p ≡ q) }
{}

/// A law, which runs no code: two constraints are the same exactly if they are equal.
pub fn constraints_are_the_same_if_equal()
    ensures { (c d : ConstraintNode) → Decides (same_constraint c d) (c ≡ d) }
{}

/// A law, which runs no code: constraints have no clash exactly if some valuation satisfies them.
pub fn constraints_without_a_clash_are_satisfied()
    ensures { (cs : List ConstrainedNode)
        → (clashes_after [] cs ≡ []) ↔ ((values : Valuation) × Satisfies values cs) }
{}

/// A law, which runs no code: two lists of constraints without a clash are apart exactly if no
/// valuation satisfies both.
pub fn constraints_are_apart_if_no_valuation_satisfies_both()
    ensures { (cs ds : List ConstrainedNode) → clashes_after [] cs ≡ [] → clashes_after [] ds ≡ []
        → (apart cs ds ≡ true) ↔ (HaveCommon cs ds → ⊥) }
{}

/// A law, which runs no code: constraints are within others, which have no clash, exactly if each
/// valuation that satisfies the others satisfies them.
pub fn constraints_are_within_others_if_these_imply_them()
    ensures { (cs ds : List ConstrainedNode) → clashes_after [] ds ≡ []
        → (within cs ds ≡ true)
        ↔ ((values : Valuation) → Satisfies values ds → Satisfies values cs) }
{}

/// A law, which runs no code: the constraints of a rule that is compared have no clash.
pub fn compared_rules_have_no_clash()
    ensures { (k : TermsNode) (r : TypedRuleNode) (c : CandidateNode) → IsCompared k r c
        → clashes_after [] c.constraints ≡ [] }
{}

/// A law, which runs no code: rules that are compared overlap exactly if they are of one term and
/// of one priority, and some valuation satisfies the constraints of both.
pub fn rules_overlap_if_a_valuation_satisfies_both()
    ensures { (k : TermsNode) (r s : TypedRuleNode) (a b : CandidateNode) → IsCompared k r a
        → IsCompared k s b → (overlap a b ≡ true) ↔ Meet a b }
{}

/// A law, which runs no code: of rules that are compared, one hides another exactly if it is of a
/// higher priority and of the same term, neither has equal places without a constraint, and each
/// valuation that satisfies the other's constraints satisfies its own.
pub fn rules_hide_what_implies_them()
    ensures { (k : TermsNode) (high low : TypedRuleNode) (a b : CandidateNode)
        → IsCompared k high a → IsCompared k low b → (hides a b ≡ true) ↔ Covers a b }
{}

/// A law, which runs no code: what a rule that runs asks holds of the values at places. Its
/// constraints do, and its equalities are of values that are equal.
pub fn rules_that_run_get_what_they_ask<V>()
    ensures { (k : TermsNode) (w : World V) (r : TypedRuleNode) (input : ℕ → V) → Runs k w r input
        → Satisfies (valuation w input) (constraints_of (rule_asks k r))
        × AreEqual w input (equalities_of (rule_asks k r)) }
{}

/// A law, which runs no code: what holds of the values at places still holds when equal places are
/// settled, and then no two constraints of equal places differ.
pub fn settling_keeps_what_holds<V>()
    ensures { (w : World V) (input : ℕ → V) (cs : List ConstrainedNode) (es : List EqualityNode)
        (sweeps : ℕ) → Satisfies (valuation w input) cs → AreEqual w input es
        → IsMet w input (settle sweeps cs es) }
{}

/// A law, which runs no code: a rule that has a clash, or whose equal places have constraints that
/// differ, never runs.
pub fn unreachable_rules_never_run<V>()
    ensures { (k : TermsNode) (w : World V) (r : TypedRuleNode) (input : ℕ → V) → Runs k w r input
        → ((matching k r).clashes ≡ []) × ((matching k r).settled ≢ unequal) }
{}

/// A law, which runs no code: rules that are apart never run on one input.
pub fn rules_that_are_apart_never_run_together<V>()
    ensures { (k : TermsNode) (w : World V) (input : ℕ → V) (r s : TypedRuleNode)
        (a b : CandidateNode) → IsCompared k r a → IsCompared k s b
        → apart a.constraints b.constraints ≡ true → Runs k w r input → Runs k w s input → ⊥ }
{}

/// A law, which runs no code: rules of one term and one priority that don't overlap never run on
/// one input.
pub fn rules_that_do_not_overlap_never_run_together<V>()
    ensures { (k : TermsNode) (w : World V) (input : ℕ → V) (r s : TypedRuleNode)
        (a b : CandidateNode) → IsCompared k r a → IsCompared k s b → r.term ≡ s.term
        → r.prio ≡ s.prio → overlap a b ≡ false → Runs k w r input → Runs k w s input → ⊥ }
{}

/// A law, which runs no code: a closed rule runs if what it asks holds of the values at places.
pub fn closed_rules_run_if_they_get_what_they_ask<V>()
    ensures { (k : TermsNode) (w : World V) (r : TypedRuleNode) (input : ℕ → V) → IsClosed k r
        → Satisfies (valuation w input) (constraints_of (rule_asks k r))
        → AreEqual w input (equalities_of (rule_asks k r)) → Runs k w r input }
{}

/// A law, which runs no code: a rule that has its typed rule by the rules of types is closed, if
/// none of the terms that it uses in its arguments and conditions is multi.
pub fn typed_rules_are_closed()
    ensures { (env : EnvironmentNode) (k : TermsNode) (r : RuleDefinition) (typed : TypedRuleNode)
        → k.terms ≡ env.terms → IsTypedRule env r typed → AreSingle k (rule_terms typed)
        → IsClosed k typed }
{}

/// A law, which runs no code: in a world in which values are equal if they look so, what is settled
/// holds only if that of which it is settled holds.
pub fn settling_keeps_what_is_asked<V>()
    ensures { (w : World V) (input : ℕ → V) (cs ds : List ConstrainedNode)
        (es fs : List EqualityNode) (sweeps : ℕ) → IsExtensional w
        → settle sweeps cs es ≡ settled ds fs → Satisfies (valuation w input) ds
        → AreEqual w input fs → Satisfies (valuation w input) cs × AreEqual w input es }
{}

/// A law, which runs no code: a rule that is hidden is never taken. In a world in which values are
/// equal if they look so, where it runs, the closed rule runs that hides it: of its term, and of a
/// higher priority.
pub fn hidden_rules_are_never_taken<V>()
    ensures { (k : TermsNode) (w : World V) (input : ℕ → V) (high low : TypedRuleNode)
        (a b : CandidateNode) → IsExtensional w → IsClosed k high → IsCompared k high a
        → IsCompared k low b → hides a b ≡ true → Runs k w low input
        → Runs k w high input × ((high.term ≡ low.term) × (int_lt low.prio high.prio ≡ true)) }
{}

/// A law, which runs no code: a rule that is hidden by one with equal values is never taken. The
/// constraints and the equal places of the one that hides it are its own, or follow from these.
pub fn rules_hidden_with_equals_are_never_taken<V>()
    ensures { (k : TermsNode) (w : World V) (input : ℕ → V) (high low : TypedRuleNode)
        (a b : CandidateNode) → IsExtensional w → IsClosed k high → IsCompared k high a
        → IsCompared k low b → hides_with_equals a b ≡ true → Runs k w low input
        → Runs k w high input × ((high.term ≡ low.term) × (int_lt low.prio high.prio ≡ true)) }
{}
