//! Patterns of rules, conditions and extractors.
#![tactic(auto, unfolding(crate::specs::PatternReaders::integer_pattern, crate::specs::PatternReaders::symbol_pattern, crate::specs::PatternReaders::word_pattern, crate::specs::PatternReaders::true_pattern, crate::specs::PatternReaders::false_pattern, crate::specs::PatternReaders::variable_pattern, crate::specs::PatternReaders::pattern_head, crate::specs::Appended::appended))]

ghost use Rattle.std.specs.Prelude.{◌≡◌, ◌++◌, [], ◌∷◌, IfErr, IfOk};
ghost use Rattle.isle_ast_names.specs.TreeView.{optional_name_of};
ghost use Rattle.isle_ast_rules.specs.TreeView.{pattern_of, patterns_of};
ghost use Rattle.isle_parser_cursor.specs.Outcomes.{IsParserRefusal, ReadsOff, left, source};
ghost use Rattle.isle_parser_cursor.specs.Reading.{at_rparen, in_parentheses, many};
ghost use Rattle.isle_parser_cursor.specs.declared.cursor.Stop.TheVariants.{Memory};
ghost use Rattle.isle_parser_rules.specs.Appended.{appended};
ghost use Rattle.isle_parser_rules.specs.PatternReaders.{group_node, integer_pattern, is_fixed};
ghost use Rattle.isle_parser_rules.specs.PatternReaders.{pattern, pattern_head, pattern_inside};
ghost use Rattle.isle_parser_rules.specs.PatternReaders.{symbol_pattern, variable_pattern};

use crate::names::{parse_const, take_at};
use isle_ast_names::Ident;
use isle_ast_rules::Pattern;
use isle_base::lexer::Pos;
use isle_parser_cursor::cursor::{Cursor, Stop};
use std::alloc::Global;

// The frames of this cycle limit the depth of nesting. So all that does not recurse is in functions
// of its own, and a frame holds few nodes.

#[cycle(pattern)]
#[tactic(auto, using(crate::proofs::PatternParts::pattern_is, crate::proofs::PatternParts::variable_is), unfolding(crate::specs::PatternReaders::pattern_layer, crate::specs::PatternReaders::integer_pattern))]
pub(super) fn parse_pattern(cursor: &mut Cursor, alloc: Global) -> Result<Pattern, Stop>
    ensures { ReadsOff pattern_of pattern cursor.old result cursor.new }
{
    let pos = cursor.pos();
    if cursor.is_int() {
        return parse_pattern_int(cursor, alloc, pos);
    }
    if cursor.is_sym() {
        if is_fixed(cursor) {
            return parse_pattern_symbol(cursor, alloc, pos);
        }
        return parse_pattern_variable(cursor, alloc, pos);
    }
    if cursor.is_lparen() {
        return parse_pattern_parens(cursor, alloc, pos);
    }
    Err(refuse_pattern(cursor, alloc))
}

/// Parses an integer as a pattern at this position.
#[inline(never)]
fn parse_pattern_int(cursor: &mut Cursor, alloc: Global, pos: Pos) -> Result<Pattern, Stop>
    ensures { ReadsOff pattern_of (integer_pattern pos) cursor.old result cursor.new }
{
    let val = cursor.parse_int(alloc)?;
    Ok(Pattern::ConstInt { val, pos })
}

/// Rejects a token that begins no pattern.
#[inline(never)]
fn refuse_pattern(cursor: &Cursor, alloc: Global) -> Stop
    ensures { IsParserRefusal (source cursor.now) result }
{
    cursor.refuse_at(
        cursor.place(),
        String::from_str(alloc, "Unexpected pattern"),
    )
}

/// Returns whether a constant, `_`, `true` or `false` is ahead. Any other symbol is a variable.
fn is_fixed(cursor: &Cursor) -> bool
    ensures { result ≡ is_fixed (left cursor.now) }
{
    cursor.is_const() || cursor.is_word("_") || cursor.is_word("true") || cursor.is_word("false")
}

/// Parses a pattern that begins with a symbol at this position.
#[cycle(pattern)]
#[inline(never)]
fn parse_pattern_symbol(cursor: &mut Cursor, alloc: Global, pos: Pos) -> Result<Pattern, Stop>
    ensures { ReadsOff pattern_of (symbol_pattern pos pattern) cursor.old result cursor.new }
{
    if cursor.is_const() {
        let val = parse_const(cursor, alloc)?;
        return Ok(Pattern::ConstPrim { val, pos });
    }
    if cursor.eat_sym_str(alloc, "_")? {
        return Ok(Pattern::Wildcard { pos });
    }
    if cursor.eat_sym_str(alloc, "true")? {
        return Ok(Pattern::ConstBool { val: true, pos });
    }
    if cursor.eat_sym_str(alloc, "false")? {
        return Ok(Pattern::ConstBool { val: false, pos });
    }
    parse_pattern_variable(cursor, alloc, pos)
}

/// Parses a variable, and after `@` the pattern that it is bound to.
#[cycle(pattern)]
#[inline(never)]
fn parse_pattern_variable(cursor: &mut Cursor, alloc: Global, pos: Pos) -> Result<Pattern, Stop>
    ensures { ReadsOff pattern_of (variable_pattern pos pattern) cursor.old result cursor.new }
{
    let var = cursor.parse_ident(alloc)?;
    if !cursor.is_at() {
        return Ok(Pattern::Var { var, pos });
    }
    take_at(cursor, alloc)?;
    let bound = parse_pattern(cursor, alloc)?;
    let subpat = boxed(alloc, bound)?;
    Ok(Pattern::BindPattern { var, subpat, pos })
}

/// Moves a pattern to the heap.
#[inline(never)]
fn boxed(alloc: Global, pattern: Pattern) -> Result<Box<Pattern>, Stop>
    ensures boxed { IfOk result (λ b. b.value ≡ pattern) }
    ensures memory { IfErr result (λ e. e ≡ Memory) }
{
    Ok(Box::new(alloc, pattern)?)
}

/// Parses an `and` or a term with its patterns, in parentheses. The `(` is at this position.
#[cycle(pattern)]
#[inline(never)]
#[tactic(auto, using(crate::proofs::PatternParts::group_is), unfolding(crate::specs::PatternReaders::pattern_group))]
fn parse_pattern_parens(cursor: &mut Cursor, alloc: Global, pos: Pos) -> Result<Pattern, Stop>
    ensures { ReadsOff pattern_of (in_parentheses (pattern_inside pos pattern)) cursor.old result
        cursor.new }
{
    let sym = parse_pattern_head(cursor, alloc)?;
    let args = parse_patterns(cursor, alloc)?;
    cursor.expect_rparen(alloc)?;
    Ok(group(sym, args, pos))
}

/// Parses `(`, then `and`, which returns `None`, or the name of a term.
#[inline(never)]
fn parse_pattern_head(cursor: &mut Cursor, alloc: Global) -> Result<Option<Ident>, Stop>
    ensures { ReadsOff optional_name_of pattern_head cursor.old result cursor.new }
{
    cursor.expect_lparen(alloc)?;
    if cursor.eat_sym_str(alloc, "and")? {
        return Ok(None);
    }
    let sym = cursor.parse_ident(alloc)?;
    Ok(Some(sym))
}

/// The node of these patterns after the name of a term, or after `and`.
fn group(sym: Option<Ident>, patterns: Vec<Pattern>, pos: Pos) -> Pattern
    ensures { pattern_of result
        ≡ group_node pos (optional_name_of sym) (patterns_of patterns.items) }
{
    match sym {
        Some(sym) => Pattern::Term {
            sym,
            args: patterns,
            pos,
        },
        None => Pattern::And {
            subpats: patterns,
            pos,
        },
    }
}

/// Parses patterns, up to the closing parenthesis.
#[cycle(pattern)]
#[inline(always)]
fn parse_patterns(cursor: &mut Cursor, alloc: Global) -> Result<Vec<Pattern>, Stop>
    ensures { ReadsOff (λ ps. patterns_of ps.items) (many at_rparen pattern) cursor.old result
        cursor.new }
{
    let mut patterns = Vec::new(alloc);
    while !cursor.is_rparen() {
        append_pattern(cursor, alloc, &mut patterns)?;
    }
    Ok(patterns)
}

/// Parses a pattern, and appends it to these.
#[cycle(pattern)]
#[inline(never)]
#[tactic(auto, using(crate::proofs::PatternParts::group_ahead), unfolding(crate::specs::PatternReaders::pattern_group, crate::specs::Appended::appended))]
fn append_pattern(
    cursor: &mut Cursor,
    alloc: Global,
    patterns: &mut Vec<Pattern>,
) -> Result<(), Stop>
    ensures { ReadsOff (λ _. patterns_of patterns.new.items) (appended pattern (patterns_of
        patterns.old.items)) cursor.old result cursor.new }
{
    if !cursor.is_lparen() {
        return append_single_pattern(cursor, alloc, patterns);
    }
    let pos = cursor.pos();
    let sym = parse_pattern_head(cursor, alloc)?;
    let args = parse_patterns(cursor, alloc)?;
    cursor.expect_rparen(alloc)?;
    push_group(patterns, sym, args, pos)
}

/// As `append_pattern`, for a pattern that is usually not in parentheses.
#[cycle(pattern)]
#[inline(never)]
fn append_single_pattern(
    cursor: &mut Cursor,
    alloc: Global,
    patterns: &mut Vec<Pattern>,
) -> Result<(), Stop>
    ensures { ReadsOff (λ _. patterns_of patterns.new.items) (appended pattern (patterns_of
        patterns.old.items)) cursor.old result cursor.new }
{
    let pattern = parse_pattern(cursor, alloc)?;
    patterns.push(pattern)?;
    Ok(())
}

/// Appends a pattern in parentheses.
#[inline(never)]
fn push_group(
    patterns: &mut Vec<Pattern>,
    sym: Option<Ident>,
    args: Vec<Pattern>,
    pos: Pos,
) -> Result<(), Stop>
    ensures items { IfOk result (λ _. patterns_of patterns.new.items
        ≡ patterns_of patterns.old.items
        ++ group_node pos (optional_name_of sym) (patterns_of args.items) ∷ []) }
    ensures memory { IfErr result (λ e. e ≡ Memory) }
{
    patterns.push(group(sym, args, pos))?;
    Ok(())
}
