//! Single symbols in spec expressions: heads after a `(`, and words that are expressions by
//! themselves.
#![tactic(auto, unfolding(crate::specs::SpecWords::head_of, crate::specs::SpecWords::identified, crate::specs::SpecReaders::spec_word, crate::specs::SpecWords::word_of, crate::specs::SpecWords::binary_or_other, crate::specs::SpecWords::bit_vector_at, crate::specs::SpecWords::hexadecimal_or_plain, crate::specs::SpecWords::plain_word, crate::specs::SpecWords::head_word, crate::specs::SpecWords::keyword_head, crate::specs::SpecWords::other_head, crate::specs::SpecWords::bit_vector_of))]

ghost use Rattle.std.specs.Prelude.{◌≡◌, ◌≤◌, ◌<◌, IfOk, None, Some, codes, option_map};
ghost use Rattle.isle_ast_verification.specs.TreeView.{spec_of};
ghost use Rattle.isle_parser_cursor.specs.Outcomes.{IsParserRefusal, IsPlace, PassesOrRefuses};
ghost use Rattle.isle_parser_cursor.specs.Outcomes.{ReadsOff, left, source};
ghost use Rattle.isle_parser_cursor.specs.Reading.{is_ahead};
ghost use Rattle.isle_parser_verification.specs.SpecReaders.{spec_word};
ghost use Rattle.isle_parser_verification.specs.SpecFormHeads.{GivesOrRefuses, head_view};
ghost use Rattle.isle_parser_verification.specs.SpecWords.{are_identifiers, before_last};
ghost use Rattle.isle_parser_verification.specs.SpecWords.{begins_bit_vector, behind_mark};
ghost use Rattle.isle_parser_verification.specs.SpecWords.{bit_vector_of, can_be_head};
ghost use Rattle.isle_parser_verification.specs.SpecWords.{head_of, head_word};
ghost use Rattle.isle_parser_verification.specs.SpecWords.{hexadecimal_or_plain, operator_of};
ghost use Rattle.isle_parser_verification.specs.SpecWords.{other_head, plain_word, spec_head};
ghost use Rattle.isle_parser_verification.specs.SpecWords.{split_at_mark, variant_head, word_of};

use crate::operators::operator_of;
use isle_ast_names::Ident;
use isle_ast_verification::{SpecExpr, SpecOp};
use isle_base::lexer::Pos;
use isle_base::scanner::TokenRef;
use isle_parser_cursor::cursor::{Cursor, Stop};
use std::alloc::{AllocError, Global};

/// The head of an expression in parentheses: its first word, with the names in it.
#[derive(Drop)]
pub(super) enum Head {
    /// `switch`
    Switch,
    /// `let`
    Let,
    /// `with`
    With,
    /// `match`
    Match,
    /// `struct`
    Struct,
    /// `macro`
    Macro,
    /// `as`
    As,
    /// `variant?`, without its `?`
    Discriminator(String),
    /// `name!`, without its `!`
    Expansion(String),
    /// An operator.
    Operator(SpecOp),
    /// `:field`, without its `:`
    Field(String),
    /// `name.variant`, split at its first dot
    Variant(String, String),
}

/// Parses the head of an expression. The `(` before it is at `start`.
pub(super) fn parse_spec_head(cursor: &mut Cursor, alloc: Global, start: Pos) -> Result<Head, Stop>
    requires { IsPlace (source cursor.old) start }
    ensures { ReadsOff head_view spec_head cursor.old result cursor.new }
{
    if !is_head_ahead(cursor) {
        return Err(unexpected_spec(cursor, alloc, start));
    }
    let place = cursor.place();
    let word = cursor.expect_word(alloc)?;
    spec_head(cursor, alloc, start, place, word)
}

/// Returns whether a symbol is ahead that is no bit vector. Nothing else is taken for a head, so
/// a list without a head is rejected before the token after the one ahead is read.
fn is_head_ahead(cursor: &Cursor) -> bool
    ensures { result ≡ is_ahead can_be_head (left cursor.now) }
{
    match cursor.ahead() {
        Some(TokenRef::Symbol(word)) => !begins_bit_vector(word),
        _ => false,
    }
}

/// The head that this word is. The word is at `place`, and the names of a variant are at the `(`.
fn spec_head(
    cursor: &Cursor,
    alloc: Global,
    start: Pos,
    place: Pos,
    word: &str,
) -> Result<Head, Stop>
    requires start { IsPlace (source cursor.now) start }
    requires place { IsPlace (source cursor.now) place }
    ensures { GivesOrRefuses head_view (head_of word.now) (source cursor.now) result }
{
    match head_word(word, alloc)? {
        Some(head) => {
            check_names(cursor, alloc, start, place, &head)?;
            Ok(head)
        }
        None => Err(unexpected_spec(cursor, alloc, start)),
    }
}

/// Rejects a head if a name in it is not an identifier.
fn check_names(
    cursor: &Cursor,
    alloc: Global,
    start: Pos,
    place: Pos,
    head: &Head,
) -> Result<(), Stop>
    requires start { IsPlace (source cursor.now) start }
    requires place { IsPlace (source cursor.now) place }
    ensures { PassesOrRefuses (are_identifiers (head_view head.now)) (source cursor.now) result }
{
    match head {
        Head::Discriminator(name) | Head::Expansion(name) | Head::Field(name) => {
            cursor.check_identifier(alloc, place, name)
        }
        Head::Variant(name, variant) => {
            cursor.check_identifier(alloc, start, name)?;
            cursor.check_identifier(alloc, start, variant)
        }
        _ => Ok(()),
    }
}

/// Rejects the spec expression that begins at this place.
fn unexpected_spec(cursor: &Cursor, alloc: Global, place: Pos) -> Stop
    requires { IsPlace (source cursor.now) place }
    ensures { IsParserRefusal (source cursor.now) result }
{
    cursor.refuse_at(place, String::from_str(alloc, "Unexpected spec expression"))
}

/// Parses a symbol that is an expression by itself.
pub(super) fn parse_spec_word(cursor: &mut Cursor, alloc: Global) -> Result<SpecExpr, Stop>
    ensures { ReadsOff spec_of spec_word cursor.old result cursor.new }
{
    let place = cursor.place();
    let pos = cursor.pos();
    let word = cursor.expect_word(alloc)?;
    spec_word(cursor, alloc, place, pos, word)
}

/// The expression that this word at `place` is. Its position in the tree is `pos`.
fn spec_word(
    cursor: &Cursor,
    alloc: Global,
    place: Pos,
    pos: Pos,
    word: &str,
) -> Result<SpecExpr, Stop>
    requires { IsPlace (source cursor.now) place }
    ensures { GivesOrRefuses spec_of (word_of pos word.now) (source cursor.now) result }
{
    match binary_digits(word) {
        Some(digits) => match bit_vector_of(digits, 2, 1) {
            Some((val, width)) => Ok(SpecExpr::ConstBitVec { val, width, pos }),
            None => Err(cursor.refuse_at(
                place,
                String::from_str(alloc, "Not a constant binary bit vector"),
            )),
        },
        None => hexadecimal_or_plain(cursor, alloc, place, pos, word),
    }
}

/// As `spec_word`, for a word that does not begin with `#b`.
fn hexadecimal_or_plain(
    cursor: &Cursor,
    alloc: Global,
    place: Pos,
    pos: Pos,
    word: &str,
) -> Result<SpecExpr, Stop>
    requires { IsPlace (source cursor.now) place }
    ensures { GivesOrRefuses spec_of
        (hexadecimal_or_plain pos word.now (behind_mark (codes "#x") word.now))
        (source cursor.now) result }
{
    match hexadecimal_digits(word) {
        Some(digits) => match bit_vector_of(digits, 16, 4) {
            Some((val, width)) => Ok(SpecExpr::ConstBitVec { val, width, pos }),
            None => Err(cursor.refuse_at(
                place,
                String::from_str(alloc, "Not a constant hex bit vector"),
            )),
        },
        None => plain_word(cursor, alloc, place, pos, word),
    }
}

/// As `spec_word`, for `true`, `false` or a variable.
fn plain_word(
    cursor: &Cursor,
    alloc: Global,
    place: Pos,
    pos: Pos,
    word: &str,
) -> Result<SpecExpr, Stop>
    requires { IsPlace (source cursor.now) place }
    ensures { GivesOrRefuses spec_of (plain_word pos word.now) (source cursor.now) result }
{
    match word {
        "true" => Ok(SpecExpr::ConstBool { val: true, pos }),
        "false" => Ok(SpecExpr::ConstBool { val: false, pos }),
        _ => {
            cursor.check_identifier(alloc, place, word)?;
            let var = Ident(String::from_str(alloc, word)?, pos);
            Ok(SpecExpr::Var { var, pos })
        }
    }
}

/// The head that this word is, of any names: the first kind that fits. A bit vector is no head.
fn head_word(word: &str, alloc: Global) -> Result<Option<Head>, AllocError>
    ensures { IfOk result (λ head. option_map head_view head ≡ head_word word.now) }
{
    match word {
        "switch" => Ok(Some(Head::Switch)),
        "let" => Ok(Some(Head::Let)),
        "with" => Ok(Some(Head::With)),
        "match" => Ok(Some(Head::Match)),
        "struct" => Ok(Some(Head::Struct)),
        "macro" => Ok(Some(Head::Macro)),
        "as" => Ok(Some(Head::As)),
        _ => other_head(word, alloc),
    }
}

/// As `head_word`, for a word that is not a keyword.
fn other_head(word: &str, alloc: Global) -> Result<Option<Head>, AllocError>
    ensures { IfOk result (λ head. option_map head_view head ≡ other_head word.now) }
{
    if begins_bit_vector(word) {
        return Ok(None);
    }
    if let Some(variant) = before_last(word, '?') {
        return Ok(Some(Head::Discriminator(String::from_str(alloc, variant)?)));
    }
    if let Some(name) = before_last(word, '!') {
        return Ok(Some(Head::Expansion(String::from_str(alloc, name)?)));
    }
    if let Some(op) = operator_of(word) {
        return Ok(Some(Head::Operator(op)));
    }
    match behind_colon(word) {
        Some(field) => Ok(Some(Head::Field(String::from_str(alloc, field)?))),
        None => variant_head(word, alloc),
    }
}

/// The text before this mark, if the mark is the last character.
fn before_last(word: &str, mark: char) -> Option<&str>
    requires { mark < 128 }
    ensures { option_map (λ front. front.now) result ≡ before_last mark word.now }
{
    word.strip_suffix(mark)
}

/// The text after a leading colon.
fn behind_colon(word: &str) -> Option<&str>
    ensures { option_map (λ rest. rest.now) result ≡ behind_mark (codes ":") word.now }
{
    word.strip_prefix(':')
}

/// The texts before and after the first dot.
fn around_dot(word: &str) -> Option<(&str, &str)>
    ensures { option_map (λ parts. (parts.0.now, parts.1.now)) result ≡ split_at_mark 46 word.now }
{
    word.split_once('.')
}

/// The variant whose enum's name is before the first dot, and whose own name is after it.
fn variant_head(word: &str, alloc: Global) -> Result<Option<Head>, AllocError>
    ensures { IfOk result (λ head. option_map head_view head
        ≡ option_map (λ names. variant_head names.0 names.1) (split_at_mark 46 word.now)) }
{
    match around_dot(word) {
        Some((name, variant)) => {
            let name = String::from_str(alloc, name)?;
            let variant = String::from_str(alloc, variant)?;
            Ok(Some(Head::Variant(name, variant)))
        }
        None => Ok(None),
    }
}

fn binary_digits(word: &str) -> Option<&str>
    ensures { option_map (λ digits. digits.now) result ≡ behind_mark (codes "#b") word.now }
{
    word.strip_prefix("#b")
}

fn hexadecimal_digits(word: &str) -> Option<&str>
    ensures { option_map (λ digits. digits.now) result ≡ behind_mark (codes "#x") word.now }
{
    word.strip_prefix("#x")
}

/// Returns whether a word begins like a bit vector.
fn begins_bit_vector(word: &str) -> bool
    ensures { result ≡ begins_bit_vector word.now }
{
    binary_digits(word).is_some() || hexadecimal_digits(word).is_some()
}

/// The value and the width of these digits, of `bits` bits each.
fn bit_vector_of(digits: &str, radix: u32, bits: usize) -> Option<(u128, usize)>
    requires lower_bound { 2 ≤ radix }
    requires upper_bound { radix ≤ 36 }
    ensures { result ≡ bit_vector_of radix bits digits.now }
{
    let val = u128::from_str_radix(digits, radix).ok()?;
    let width = digits.len().checked_mul(bits)?;
    Some((val, width))
}
