//! Laws of expansions, for all definitions, which run no code.

ghost use Rattle.std.specs.Prelude.{◌≡◌, ◌↔◌, List, None, Some};
ghost use Rattle.isle_base_source.specs.declared.pos.Pos.{Pos};
ghost use Rattle.isle_ast_names.specs.Tree.{Name};
ghost use Rattle.isle_ast.specs.Tree.{Definition};
ghost use Rattle.isle_ast.specs.Writable.{AreWritable};
ghost use Rattle.isle_ast_rules.specs.Tree.{PatternNode, PatternList, term_pattern};
ghost use Rattle.isle_expand_core.specs.Cases.{TermExpands, UseExpands};
ghost use Rattle.isle_expand_core.specs.Definitions.{AreExpanded, AreFree, IsFree};
ghost use Rattle.isle_expand_core.specs.Expansion.{Expands};
ghost use Rattle.isle_expand_core.specs.Misuses.{IsFirstMisuse, MisuseNode};
ghost use Rattle.isle_expand_core.specs.Macros.{MacroNode, macros_in, meant};

/// A law, which runs no code: a pattern has at most one expansion, and so have definitions.
pub fn one_expansion()
    ensures pattern { (ds : List Definition) (p q r : PatternNode)
        → Expands ds p q → Expands ds p r → q ≡ r }
    ensures definitions { (ds es fs : List Definition)
        → AreExpanded ds es → AreExpanded ds fs → es ≡ fs }
{}

/// A law, which runs no code: no use of an extractor is left in an expansion.
pub fn no_use_is_left()
    ensures pattern { (ds : List Definition) (p q : PatternNode)
        → Expands ds p q → IsFree (macros_in ds) q }
    ensures definitions { (ds es : List Definition)
        → AreExpanded ds es → AreFree (macros_in ds) es }
{}

/// A law, which runs no code: a use expands to its macro's template, expanded, with its arguments,
/// expanded, in their places, and to nothing else. A term that is no use expands to itself with its
/// arguments expanded.
pub fn terms_by_cases()
    ensures uses { (ds : List Definition) (term : Name) (args : PatternList) (place : Pos)
        (m : MacroNode) (q : PatternNode) → meant term.text (macros_in ds) ≡ Some m
        → Expands ds (term_pattern term args place) q ↔ UseExpands ds m args q }
    ensures others { (ds : List Definition) (term : Name) (args : PatternList) (place : Pos)
        (q : PatternNode) → meant term.text (macros_in ds) ≡ None
        → Expands ds (term_pattern term args place) q ↔ TermExpands ds term args place q }
{}

/// A law, which runs no code: definitions with a misuse have no expansion.
pub fn misused_have_none()
    ensures { (ds es : List Definition) (n : MisuseNode)
        → IsFirstMisuse ds n → AreExpanded ds es → ⊥ }
{}

/// A law, which runs no code: the expansion of writable definitions is writable.
pub fn writable_stays_writable()
    ensures { (ds es : List Definition) → AreExpanded ds es → AreWritable ds → AreWritable es }
{}
