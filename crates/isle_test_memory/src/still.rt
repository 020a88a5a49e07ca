//! Calls that never allocate, in groups. Each group makes the values that it works on first.

use crate::retry::word_of;
use isle_syntax::ast::{Def, Expr, Ident, Pattern, SpecExpr, writable};
use isle_syntax::error::{Error, Errors, ErrorsBuilder, Span};
use isle_syntax::files::{Files, LineMap};
use isle_syntax::lexer::{Fault, Lexer, Pos, Token, blank_end, line_comment_end, symbol_end};
use isle_syntax::parser::Parser;
use isle_syntax::printer::{Looks, PrintFault, SExpr, ToSExpr, fits};
use isle_test_nodes::trees::{drop_tree, parsed};
use std::alloc::{AllocError, Global};
use std::fmt::{self, Write};
use std::ops::Range;
use std::rc::Rc;

/// Returns whether the calls of a group give the right answers. With `is_asked` false, only the
/// values that they work on are made.
fn still(alloc: Global, call: &str, text: &str, is_asked: bool) -> Result<bool, Fault> {
    match call {
        "lexer" => lexers(alloc, text, is_asked),
        "tree" | "layout" => of_trees(alloc, call, text, is_asked),
        "places" => {
            let files = files_of(alloc, text)?;
            Ok(!is_asked || places(alloc, &files))
        }
        "builder" | "display" => Ok(of_errors(alloc, call, text, is_asked)?),
        _ => Ok(false),
    }
}

/// A word that says whether they do.
pub fn told_still(
    alloc: Global,
    call: &str,
    text: &str,
    is_asked: bool,
) -> Result<&'static str, AllocError> {
    match still(alloc, call, text, is_asked) {
        Ok(true) => Ok("right\n"),
        Err(Fault::Memory) => Err(AllocError),
        _ => Ok("wrong\n"),
    }
}

/// A lexer that has rejected its text.
fn failed(alloc: Global) -> Result<Lexer<'static>, Fault> {
    let mut lexer = Lexer::new(alloc, 1, "a 12ab")?;
    match word_of(lexer.next(alloc)) {
        "memory" => Err(Fault::Memory),
        _ => Ok(lexer),
    }
}

/// Calls of lexers, tokens and the ends of runs, and `Parser::new`; `next` for a failed lexer and
/// for one at its end.
fn lexers(alloc: Global, text: &str, is_asked: bool) -> Result<bool, Fault> {
    let refused = failed(alloc)?;
    let lexer = Lexer::new(alloc, 1, text)?;
    if !is_asked {
        return Ok(true);
    }
    let is_failed = says_failed(alloc, refused);
    let is_right = is_ahead(&lexer, text) && is_symbol_ahead(&lexer);
    drop(Parser::new(lexer));
    Ok(is_right && is_failed && are_ends(text.as_bytes()) && ends(alloc))
}

/// Returns whether a lexer has a token of file 1 ahead, and its position is in the text.
fn is_ahead(lexer: &Lexer, text: &str) -> bool {
    let is_token = match lexer.peek() {
        Some((pos, token)) => pos.file == 1 && !pos.is_unknown() && !token.is_int(),
        None => false,
    };
    is_token && lexer.pos().offset <= text.len() && !lexer.eof()
}

/// Returns whether a symbol or a `(` is ahead.
fn is_symbol_ahead(lexer: &Lexer) -> bool {
    match lexer.peek() {
        Some((_, Token::LParen)) => true,
        Some((_, token)) => token.is_sym(),
        None => false,
    }
}

/// Returns whether runs from the first byte end within the bytes, and that of blanks at once.
fn are_ends(bytes: &[u8]) -> bool {
    let is_within = symbol_end(bytes, 0) <= bytes.len();
    is_within && blank_end(bytes, 0) == 0 && line_comment_end(bytes, 0) <= bytes.len()
}

fn says_failed(alloc: Global, mut lexer: Lexer) -> bool {
    !lexer.eof() && word_of(lexer.next(alloc)) == "failed"
}

/// Returns whether a lexer is at its end, and `next` says so.
fn is_at_end(alloc: Global, mut lexer: Lexer) -> bool {
    lexer.eof() && word_of(lexer.next(alloc)) == "end"
}

/// Returns whether a lexer for a text without tokens is at its end.
fn ends(alloc: Global) -> bool {
    match Lexer::new(alloc, 1, " ") {
        Ok(lexer) => is_at_end(alloc, lexer),
        Err(_) => false,
    }
}

/// The calls of trees, or of the S-expression of the first definition.
fn of_trees(alloc: Global, call: &str, text: &str, is_asked: bool) -> Result<bool, Fault> {
    let tree = parsed(alloc, 1, text);
    let answer = match &tree {
        Ok(defs) => told_of_trees(alloc, call, defs, is_asked),
        Err(Fault::Memory) => Err(Fault::Memory),
        Err(_) => Ok(false),
    };
    drop_tree(tree);
    answer
}

fn told_of_trees(alloc: Global, call: &str, defs: &[Def], is_asked: bool) -> Result<bool, Fault> {
    match call {
        "tree" => Ok(!is_asked || trees(defs)),
        _ => layouts(alloc, defs, is_asked),
    }
}

/// Returns whether an S-expression fits the greatest room, and not an empty one.
fn is_laid_out(sexpr: &SExpr) -> bool {
    let mut looks = Looks::new();
    fits(sexpr, usize::MAX, &mut looks) && !fits(sexpr, 0, &mut looks)
}

fn layouts(alloc: Global, defs: &[Def], is_asked: bool) -> Result<bool, Fault> {
    let Some(def) = defs.first() else {
        return Ok(false);
    };
    match def.to_sexpr(alloc) {
        Ok(sexpr) => Ok(!is_asked || is_laid_out(&sexpr)),
        Err(PrintFault::Memory) => Err(Fault::Memory),
        Err(PrintFault::MacroArg) => Ok(false),
    }
}

/// Calls of trees.
fn trees(defs: &[Def]) -> bool {
    let mut terms: usize = 0;
    let mut known = true;
    let mut count = |pos: Pos, _sym: &Ident| {
        terms = terms.saturating_add(1);
        known &= !pos.is_unknown();
    };
    let mut is_right = writable(defs);
    for def in defs {
        is_right &= def.is_writable() && !def.has_macro_arg();
        if let Def::Rule(rule) = def {
            rule.pattern.terms(&mut count);
            rule.expr.terms(&mut count);
            is_right &= is_placed(&rule.pattern, &rule.expr);
        }
        if let Def::Spec(spec) = def {
            is_right &= are_placed(&spec.provides);
        }
    }
    is_right && known && terms > 0
}

/// Returns whether a pattern, its symbol if it has one, and an expression are in file 1.
fn is_placed(pattern: &Pattern, expr: &Expr) -> bool {
    let is_root = pattern.root_term().map_or(true, |sym| sym.1.file == 1);
    is_root && pattern.pos().file == 1 && expr.pos().file == 1
}

/// Returns whether spec expressions are in file 1.
fn are_placed(exprs: &[SpecExpr]) -> bool {
    exprs.iter().all(|expr| expr.pos().file == 1)
}

/// Calls of files, line maps, positions and spans.
fn places(alloc: Global, files: &Files) -> bool {
    let is_empty = Files::default(alloc).file_name(0).is_none();
    let is_start = LineMap::default(alloc).line(9) == 0;
    let range = Range::from(&Span::new_single(Pos::new(1, 7)));
    let is_known = match files.file_line_map(1) {
        Some(map) => map.line(0) == 0 && map.get(0).is_some_and(|end| map[0] == *end),
        None => false,
    };
    let is_text = files.file_name(1) == Some("b.isle") && files.file_text(2).is_none();
    is_empty && is_start && range.start == 7 && range.end == 8 && is_known && is_text
}

fn named(alloc: Global, name: &str, text: &str) -> Result<(String, String), AllocError> {
    Ok((name.to_string(alloc)?, text.to_string(alloc)?))
}

/// Two files with the same text.
fn files_of(alloc: Global, text: &str) -> Result<Files, AllocError> {
    let mut pairs = Vec::new(alloc);
    pairs.push(named(alloc, "a.isle", text)?)?;
    pairs.push(named(alloc, "b.isle", text)?)?;
    Files::from_names_and_contents(alloc, pairs)
}

/// A parse error in file 1, with this message.
fn error(alloc: Global, msg: &str) -> Result<Error, AllocError> {
    Ok(Error::ParseError {
        msg: msg.to_string(alloc)?,
        span: Span::new_single(Pos::new(1, 2)),
    })
}

/// Two errors.
fn two_errors(alloc: Global) -> Result<Vec<Error>, AllocError> {
    let mut errors = Vec::new(alloc);
    errors.push(error(alloc, "first")?)?;
    errors.push(error(alloc, "second")?)?;
    Ok(errors)
}

/// The calls of errors, or of Display.
fn of_errors(alloc: Global, call: &str, text: &str, is_asked: bool) -> Result<bool, AllocError> {
    let files = Rc::new(alloc, files_of(alloc, text)?)?;
    let errors = two_errors(alloc)?;
    let builder = ErrorsBuilder::new(alloc)?;
    if !is_asked {
        return Ok(true);
    }
    Ok(told_of_errors(call, builder, errors, files))
}

/// Calls of errors, and those of the builder that never allocate.
fn told_of_errors(
    call: &str,
    builder: ErrorsBuilder,
    errors: Vec<Error>,
    files: Rc<Files>,
) -> bool {
    let is_accepted = Errors::accepts(&errors, &files);
    let builder = builder.errors(errors).files(files);
    if !builder.is_buildable() {
        return false;
    }
    let errors = builder.build();
    match call {
        "builder" => is_accepted && errors.errors().len() == 2,
        _ => displays(&errors),
    }
}

/// A writer into a fixed buffer that fails after a number of writes.
#[derive(Drop)]
struct Fixed {
    bytes: [u8; 256],
    len: usize,
    /// The length after each write.
    ends: [usize; 64],
    count: usize,
    room: usize,
    refused: usize,
}

impl Fixed {
    fn new(room: usize) -> Fixed {
        Fixed {
            bytes: [0; 256],
            len: 0,
            ends: [0; 64],
            count: 0,
            room,
            refused: 0,
        }
    }

    fn written(&self) -> &[u8] {
        self.bytes.get(..self.len).unwrap_or(&[])
    }
}

impl Write for Fixed {
    fn write_str(&mut self, piece: &str) -> fmt::Result {
        if self.count >= self.room {
            self.refused = self.refused.saturating_add(1);
            return Err(fmt::Error);
        }
        for byte in piece.bytes() {
            match self.bytes.get_mut(self.len) {
                Some(place) => *place = byte,
                None => return Err(fmt::Error),
            }
            self.len = self.len.saturating_add(1);
        }
        if let Some(end) = self.ends.get_mut(self.count) {
            *end = self.len;
        }
        self.count = self.count.saturating_add(1);
        Ok(())
    }
}

/// The beginning of the message, up to the source line.
const SHOWN: &[u8] = b"parse error: first\nb.isle:1:3: ";

/// Returns whether nothing follows the first write that fails, and the writer then holds the first
/// `length` bytes of the whole message.
fn is_cut(errors: &Errors, whole: &Fixed, room: usize, length: usize) -> bool {
    let mut part = Fixed::new(room);
    let is_refused = write!(part, "{errors}").is_err() && part.refused == 1;
    is_refused && part.len == length && whole.written().starts_with(part.written())
}

/// Display of the errors into a fixed buffer, and with each write failing in turn.
fn displays(errors: &Errors) -> bool {
    let mut whole = Fixed::new(usize::MAX);
    let mut is_right = write!(whole, "{errors}").is_ok() && whole.written().starts_with(SHOWN);
    let mut length = 0;
    for room in 0..whole.count {
        is_right &= is_cut(errors, &whole, room, length);
        length = whole.ends.get(room).copied().unwrap_or(0);
    }
    is_right && length == whole.len
}
