//! Cases of many texts: the beginnings of one, or one with each character damaged in turn.

use crate::errors::refusal_of;
use isle_syntax::error::Error;
use isle_syntax::format;
use isle_syntax::lexer::{Fault, Lexer};
use isle_test_nodes::trees::{drop_tree, parsed};
use std::alloc::{AllocError, Global};

/// The result for many texts: their number, the places of the accepted ones, a hash of the other
/// ones' errors, and the last text on which a call was wrong.
#[derive(Drop)]
struct Tally {
    count: usize,
    accepted: Vec<usize>,
    shown: u32,
    wrong: Option<String>,
}

impl Tally {
    fn new(alloc: Global) -> Tally {
        Tally {
            count: 0,
            accepted: Vec::new(alloc),
            shown: 2_166_136_261,
            wrong: None,
        }
    }

    /// Counts an accepted text, or a rejected one, whose error it adds to the FNV-1a hash.
    fn add_shown(&mut self, shown: &str, is_accepted: bool) -> Result<(), AllocError> {
        let place = self.count;
        self.count = place.saturating_add(1);
        if is_accepted {
            self.accepted.push(place)?;
        } else {
            for byte in shown.bytes() {
                self.shown = (self.shown ^ u32::from(byte)).wrapping_mul(16_777_619);
            }
        }
        Ok(())
    }

    /// Adds a text. A call is wrong if `parse` and `format` disagree, if an error lies outside the
    /// text, or if the error of a rejected text is no parse error.
    fn add(&mut self, alloc: Global, text: &str) -> Result<(), AllocError> {
        let shown = refusal_of(alloc, text)?;
        let is_accepted = shown.as_str() == "accepted";
        let is_told = is_accepted || shown.starts_with("parse error: ");
        self.add_shown(&shown, is_accepted)?;
        if !is_told || !are_calls_right(alloc, text, is_accepted) {
            self.wrong = Some(text.to_string(alloc)?);
        }
        Ok(())
    }

    /// Adds the text of three pieces.
    fn add_joined(
        &mut self,
        alloc: Global,
        before: &str,
        piece: &str,
        behind: &str,
    ) -> Result<(), AllocError> {
        let text = format!(in alloc; "{before}{piece}{behind}")?;
        self.add(alloc, &text)
    }

    fn told(&self, alloc: Global) -> Result<String, AllocError> {
        match &self.wrong {
            Some(text) => format!(in alloc; "wrong at {text:?}"),
            None => format!(in alloc;
                "{} texts, accepted {:?}, the others shown as {:08x}",
                self.count, self.accepted, self.shown
            ),
        }
    }
}

/// Returns whether a lexer, `parse` and `format` answer as they should.
fn are_calls_right(alloc: Global, text: &str, is_accepted: bool) -> bool {
    is_read(alloc, text)
        && is_parsed(alloc, text, is_accepted)
        && is_formatted(alloc, text, is_accepted)
}

/// Returns whether a parse error begins in the text or at its end.
fn is_within(fault: &Fault, text: &str) -> bool {
    matches!(fault, Fault::Error(Error::ParseError { span, .. }) if span.from.offset <= text.len())
}

/// Returns whether a lexer reads a text up to its end, or rejects it within the text.
fn is_read(alloc: Global, text: &str) -> bool {
    let mut lexer = match Lexer::new(alloc, 0, text) {
        Ok(lexer) => lexer,
        Err(fault) => return is_within(&fault, text),
    };
    for _ in 0..text.len() + 1 {
        match lexer.next(alloc) {
            Ok(Some(next)) => drop(next),
            Ok(None) => return true,
            Err(fault) => return is_within(&fault, text),
        }
    }
    false
}

/// Returns whether an accepted text has a value, and any other one a fault within the text.
fn is_right<T>(answer: &Result<T, Fault>, text: &str, is_accepted: bool) -> bool {
    match answer {
        Ok(_) => is_accepted,
        Err(fault) => !is_accepted && is_within(fault, text),
    }
}

/// Returns whether an accepted text is parsed, and any other one rejected within the text.
fn is_parsed(alloc: Global, text: &str, is_accepted: bool) -> bool {
    let tree = parsed(alloc, 0, text);
    let is_right = is_right(&tree, text, is_accepted);
    drop_tree(tree);
    is_right
}

/// Returns whether an accepted text is formatted at the widths 0, 1 and the greatest, and any other
/// one rejected within the text.
fn is_formatted(alloc: Global, text: &str, is_accepted: bool) -> bool {
    let mut are_right = true;
    for width in [0, 1, usize::MAX] {
        are_right &= is_right(&format(alloc, text, width), text, is_accepted);
    }
    are_right
}

/// The result for each beginning of a text that ends at a character boundary.
pub fn beginnings(alloc: Global, text: &str) -> Result<String, AllocError> {
    let mut tally = Tally::new(alloc);
    for (end, _) in text.char_indices() {
        tally.add(alloc, text.get(..end).unwrap_or(""))?;
    }
    tally.add(alloc, text)?;
    tally.told(alloc)
}

/// The result for a text with a piece in place of each of its characters in turn.
pub fn damaged(alloc: Global, piece: &str, text: &str) -> Result<String, AllocError> {
    let mut tally = Tally::new(alloc);
    let mut chars = text.char_indices();
    for _ in 0..text.len() {
        match chars.next() {
            None => break,
            Some((start, _)) => {
                let before = text.get(..start).unwrap_or("");
                tally.add_joined(alloc, before, piece, chars.as_str())?;
            }
        }
    }
    tally.told(alloc)
}
