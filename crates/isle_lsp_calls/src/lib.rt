//! The call hierarchy of the Language Server Protocol: which rules and extractors of a program use
//! a term, and which terms these use.
//!
//! A program is a list of texts, each with its URI in the editor; the index numbers them as they
//! stand there. Offsets count bytes from 0, as everywhere else.
#![tactic(auto)]

pub mod incoming;
pub mod items;
pub mod outgoing;
mod outlines;
pub mod ranges;
mod rulers;

use isle_lsp_text::positions::PositionEncoding;

/// A text of a program.
#[derive(Clone, Copy)]
pub struct Source<'a> {
    /// How positions in the text are counted.
    pub encoding: PositionEncoding,
    /// Its URI, as the client spells it.
    pub uri: &'a str,
    /// The text.
    pub text: &'a str,
}
