//! Definitions for verification: specs of terms, macros of spec expressions, and states.
#![tactic(auto, unfolding(crate::specs::SpecDefinitionReaders::spec_definition, crate::specs::SpecDefinitionReaders::clause, crate::specs::SpecDefinitionReaders::clause_inside, isle_parser_cursor::specs::Reading::in_parentheses, crate::specs::SpecDefinitionReaders::behind_clause_word, crate::specs::SpecDefinitionReaders::modified_state, crate::specs::SpecDefinitionReaders::spec_macro_definition, crate::specs::SpecDefinitionReaders::state_definition, crate::specs::SpecDefinitionReaders::default_inside))]

ghost use Rattle.isle_ast_verification.specs.TreeView.{modified_of, spec_definition_of};
ghost use Rattle.isle_ast_verification.specs.TreeView.{spec_macro_of, spec_of, state_of};
ghost use Rattle.isle_parser_cursor.specs.Outcomes.{IsPlace, ReadsOff, source};
ghost use Rattle.isle_parser_cursor.specs.Reading.{in_parentheses};
ghost use Rattle.isle_parser_verification.specs.SpecDefinitionReaders.{behind_clause_word, clause};
ghost use Rattle.isle_parser_verification.specs.SpecDefinitionReaders.{default_inside};
ghost use Rattle.isle_parser_verification.specs.SpecDefinitionReaders.{joined_clauses};
ghost use Rattle.isle_parser_verification.specs.SpecDefinitionReaders.{modified_state};
ghost use Rattle.isle_parser_verification.specs.SpecDefinitionReaders.{spec_definition};
ghost use Rattle.isle_parser_verification.specs.SpecDefinitionReaders.{spec_macro_definition};
ghost use Rattle.isle_parser_verification.specs.SpecDefinitionReaders.{state_definition};
ghost use Rattle.isle_parser_verification.specs.SpecParts.{clause_of, joined_of};

use crate::models::parse_tagged_type;
use crate::spec_expressions::{parse_spec_expr, parse_spec_exprs};
use isle_ast_verification::{Modifies, Spec, SpecExpr, SpecMacro, State};
use isle_base::lexer::Pos;
use isle_parser_cursor::cursor::{Cursor, Stop};
use std::alloc::Global;

/// A clause of a spec.
#[derive(Drop)]
enum Clause {
    /// A `provide` clause.
    Provide(Vec<SpecExpr>),
    /// A `require` clause.
    Require(Vec<SpecExpr>),
    /// A `match` clause.
    Match(Vec<SpecExpr>),
    /// A `modifies` clause.
    Modifies(Modifies),
}

/// The clauses of a spec, grouped by kind.
#[derive(Drop)]
struct Clauses {
    /// The expressions of all `provide` clauses.
    provides: Vec<SpecExpr>,
    /// The expressions of all `require` clauses.
    requires_: Vec<SpecExpr>,
    /// The expressions of all `match` clauses.
    matches: Vec<SpecExpr>,
    /// The states that the term modifies.
    modifies: Vec<Modifies>,
}

/// Parses a spec after its keyword.
pub fn parse_spec(cursor: &mut Cursor, alloc: Global) -> Result<Spec, Stop>
    ensures { ReadsOff spec_definition_of spec_definition cursor.old result cursor.new }
{
    let place = cursor.place();
    let pos = cursor.pos();
    let (term, args) = cursor.parse_headed(alloc)?;
    let clauses = parse_clauses(cursor, alloc, place)?;
    Ok(Spec {
        term,
        args,
        provides: clauses.provides,
        requires_: clauses.requires_,
        matches: clauses.matches,
        modifies: clauses.modifies,
        pos,
    })
}

/// Parses clauses, up to the closing parenthesis. The token after the spec's keyword is at `place`.
fn parse_clauses(cursor: &mut Cursor, alloc: Global, place: Pos) -> Result<Clauses, Stop>
    requires { IsPlace (source cursor.old) place }
    ensures { ReadsOff joined_of joined_clauses cursor.old result cursor.new }
{
    let mut provides = Vec::new(alloc);
    let mut requires_ = Vec::new(alloc);
    let mut matches = Vec::new(alloc);
    let mut modifies = Vec::new(alloc);
    while !cursor.is_rparen() {
        match parse_clause(cursor, alloc, place)? {
            Clause::Provide(mut exprs) => provides.append(&mut exprs)?,
            Clause::Require(mut exprs) => requires_.append(&mut exprs)?,
            Clause::Match(mut exprs) => matches.append(&mut exprs)?,
            Clause::Modifies(state) => modifies.push(state)?,
        }
    }
    Ok(Clauses {
        provides,
        requires_,
        matches,
        modifies,
    })
}

/// Parses a clause. The token after the spec's keyword is at `place`.
fn parse_clause(cursor: &mut Cursor, alloc: Global, place: Pos) -> Result<Clause, Stop>
    requires { IsPlace (source cursor.old) place }
    ensures { ReadsOff clause_of clause cursor.old result cursor.new }
{
    cursor.expect_lparen(alloc)?;
    let word = cursor.expect_word(alloc)?;
    let clause = parse_behind_clause_word(cursor, alloc, place, word)?;
    cursor.close(alloc, clause)
}

/// Parses a clause after its first word. The token after the spec's keyword is at `place`.
fn parse_behind_clause_word(
    cursor: &mut Cursor,
    alloc: Global,
    place: Pos,
    word: &str,
) -> Result<Clause, Stop>
    requires { IsPlace (source cursor.old) place }
    ensures { ReadsOff clause_of (behind_clause_word word.now) cursor.old result cursor.new }
{
    match word {
        "provide" => Ok(Clause::Provide(parse_spec_exprs(cursor, alloc)?)),
        "require" => Ok(Clause::Require(parse_spec_exprs(cursor, alloc)?)),
        "match" => Ok(Clause::Match(parse_spec_exprs(cursor, alloc)?)),
        "modifies" => Ok(Clause::Modifies(parse_modifies(cursor, alloc, place)?)),
        _ => Err(cursor.refuse_at(
            place,
            format!(in alloc;
                "Invalid spec: unexpected field {word}. \
                 Expect (provide ...), (require ...) or (match ...)"
            ),
        )),
    }
}

/// Parses a state, and the name of a condition if there is one.
fn parse_modifies(cursor: &mut Cursor, alloc: Global, place: Pos) -> Result<Modifies, Stop>
    requires { IsPlace (source cursor.old) place }
    ensures { ReadsOff modified_of modified_state cursor.old result cursor.new }
{
    let state = cursor.parse_ident(alloc)?;
    let cond = cursor.parse_optional_ident(alloc, place, "modifies condition")?;
    Ok(Modifies { state, cond })
}

/// Parses a macro after its keyword.
pub fn parse_spec_macro(cursor: &mut Cursor, alloc: Global) -> Result<SpecMacro, Stop>
    ensures { ReadsOff spec_macro_of spec_macro_definition cursor.old result cursor.new }
{
    let pos = cursor.pos();
    let (name, params) = cursor.parse_headed(alloc)?;
    let body = parse_spec_expr(cursor, alloc)?;
    Ok(SpecMacro {
        name,
        params,
        body,
        pos,
    })
}

/// Parses a state after its keyword.
pub fn parse_state(cursor: &mut Cursor, alloc: Global) -> Result<State, Stop>
    ensures { ReadsOff state_of state_definition cursor.old result cursor.new }
{
    let pos = cursor.pos();
    let name = cursor.parse_ident(alloc)?;
    let ty = parse_tagged_type(cursor, alloc, "type")?;
    let default = parse_default(cursor, alloc)?;
    Ok(State {
        name,
        ty,
        default,
        pos,
    })
}

/// Parses the default value of a state, in parentheses.
fn parse_default(cursor: &mut Cursor, alloc: Global) -> Result<SpecExpr, Stop>
    ensures { ReadsOff spec_of (in_parentheses default_inside) cursor.old result cursor.new }
{
    cursor.expect_lparen(alloc)?;
    let place = cursor.place();
    if !cursor.eat_sym_str(alloc, "default")? {
        return Err(cursor.refuse_at(
            place,
            String::from_str(alloc, "Invalid default: expected (default <expr>)"),
        ));
    }
    let default = parse_spec_expr(cursor, alloc)?;
    cursor.close(alloc, default)
}
