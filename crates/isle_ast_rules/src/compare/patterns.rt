//! Comparison of patterns.

ghost use Rattle.std.specs.Prelude.{◌≡◌, ◌&&◌};
ghost use Rattle.std.specs.Cmp.{partial_equiv_from_equiv};
ghost use Rattle.std.specs.Ordering.{on};
ghost use Rattle.isle_ast_rules.specs.SamePattern.{patterns_equiv, same_pattern, same_patterns};
ghost use Rattle.isle_ast_rules.specs.TreeView.{pattern_of, pattern_list_of, patterns_of};

use crate::Pattern;

impl PartialEq for Pattern {
    ghost eq = { on pattern_of same_pattern };

    ghost laws = { partial_equiv_from_equiv patterns_equiv };

    fn eq(&self, other: &Pattern) -> bool {
        same_pattern(self, other)
    }
}

impl Eq for Pattern {
    ghost laws = { patterns_equiv };
}

#[cycle(same)]
fn same_pattern(a: &Pattern, b: &Pattern) -> bool
    ensures { result ≡ same_pattern (pattern_of a.now) (pattern_of b.now) }
{
    match a {
        Pattern::Var { var, pos } => {
            matches!(b, Pattern::Var { var: other, pos: place } if var == other && pos == place)
        }
        Pattern::BindPattern { var, subpat, pos } => {
            matches!(b, Pattern::BindPattern { var: other, subpat: inner, pos: place }
                if var == other && same_pattern(subpat, inner) && pos == place)
        }
        Pattern::ConstBool { val, pos } => {
            matches!(b, Pattern::ConstBool { val: other, pos: place }
                if val == other && pos == place)
        }
        Pattern::ConstInt { val, pos } => {
            matches!(b, Pattern::ConstInt { val: other, pos: place }
                if val == other && pos == place)
        }
        Pattern::ConstPrim { val, pos } => {
            matches!(b, Pattern::ConstPrim { val: other, pos: place }
                if val == other && pos == place)
        }
        Pattern::Term { sym, args, pos } => {
            matches!(b, Pattern::Term { sym: other, args: others, pos: place }
                if sym == other && same_patterns(args, others) && pos == place)
        }
        Pattern::Wildcard { pos } => matches!(b, Pattern::Wildcard { pos: place } if pos == place),
        Pattern::And { subpats, pos } => {
            matches!(b, Pattern::And { subpats: others, pos: place }
                if same_patterns(subpats, others) && pos == place)
        }
        Pattern::MacroArg { index, pos } => {
            matches!(b, Pattern::MacroArg { index: other, pos: place }
                if index == other && pos == place)
        }
    }
}

#[cycle(same)]
fn same_patterns(patterns: &Vec<Pattern>, others: &Vec<Pattern>) -> bool
    ensures { result
        ≡ same_patterns (pattern_list_of (patterns_of patterns.now.items))
        (pattern_list_of (patterns_of others.now.items)) }
{
    if patterns.len() != others.len() {
        return false;
    }
    for i in 0..patterns.len() {
        if !same_pattern(&patterns[i], &others[i]) {
            return false;
        }
    }
    true
}
