//! Laws of the grammar that follow from the parser. They have no code to run.

ghost use Rattle.std.specs.Prelude.{◌≡◌, ◌↔◌, ◌∷◌, List, false};
ghost use Rattle.isle_ast.specs.Grammar.{SpellsDefinition, SpellsDefinitions};
ghost use Rattle.isle_ast.specs.Tree.{Definition};
ghost use Rattle.isle_ast_rules.specs.ExpressionGrammar.{SpellsExpression};
ghost use Rattle.isle_ast_rules.specs.PatternGrammar.{SpellsPattern};
ghost use Rattle.isle_ast_rules.specs.Tree.{Expression, PatternNode};
ghost use Rattle.isle_base.specs.Place.{Placed};
ghost use Rattle.isle_parser_cursor.specs.Reading.{is_ahead, is_at};

/// If prefixes of the same tokens spell two patterns, and neither is followed by an `@`, the
/// patterns and the tokens after them are the same. Otherwise the tokens `x @ y` spell both the
/// prefix `x` and `x @ y`. Two expressions are the same whatever follows them.
pub fn patterns_and_expressions_are_read_once()
    ensures patterns { (p q : PatternNode) (all i j : List Placed) → is_ahead is_at i ≡ false
        → is_ahead is_at j ≡ false → SpellsPattern p all i → SpellsPattern q all j → (p ≡ q)
        × (i ≡ j) }
    ensures expressions { (x y : Expression) (all i j : List Placed) → SpellsExpression x all i
        → SpellsExpression y all j → (x ≡ y) × (i ≡ j) }
{}

/// Tokens spell a list of definitions exactly if a prefix spells the first one and the tokens after
/// it spell the others, and the prefixes spell at most one definition. So the definitions that
/// `next_def` returns, up to `None`, are the list that `parse` returns.
pub fn definitions_are_read_one_after_another()
    ensures one_after_another { (d : Definition) (ds : List Definition) (all : List Placed)
        → SpellsDefinitions (d ∷ ds) all ↔ ((rest : List Placed) × SpellsDefinition d all rest
        × SpellsDefinitions ds rest) }
    ensures once { (d e : Definition) (all i j : List Placed) → SpellsDefinition d all i
        → SpellsDefinition e all j → (d ≡ e) × (i ≡ j) }
{}
