//! The kinds of entries, the heads of lists, and the widths of gaps between entries.

ghost use Rattle.std.specs.Prelude.{◌≡◌, ℕ};
ghost use Rattle.isle_tidy_layout.specs.EntriesView.{lexeme_of};
ghost use Rattle.isle_tidy_layout.specs.Heads.{is_body_head as is_body_head_in};
ghost use Rattle.isle_tidy_layout.specs.Placing.{head_of as head_in, kind_of, room, some};
ghost use Rattle.isle_tidy_layout.specs.Placing.{result_width as width_in_result};

use crate::entries::Lexeme;

/// The kind of an entry, or the start of the text.
#[derive(Clone, Copy, PartialEq, Eq)]
pub enum Kind {
    /// The start of the text.
    Start,
    /// `(`.
    Open,
    /// `)`.
    Close,
    /// `@`.
    At,
    /// A symbol or an integer.
    Atom,
    LineComment,
    BlockComment,
}

/// The kind of a list's first item, on which the column of a new line in the list depends.
#[derive(Clone, Copy, PartialEq, Eq)]
pub enum Head {
    /// There is no item yet.
    NoHead,
    /// A list.
    ListHead,
    /// `let`, `type`, `spec`, `switch` or `instantiate`, whose lists have a body.
    BodyHead,
    /// Another atom, or `@`.
    PlainHead,
}

impl Kind {
    #[inline(always)]
    pub fn of(lexeme: &Lexeme) -> Kind
        ensures { result ≡ kind_of (lexeme_of lexeme.now) }
    {
        match lexeme {
            Lexeme::Opening => Kind::Open,
            Lexeme::Closing => Kind::Close,
            Lexeme::At => Kind::At,
            Lexeme::Atom(_) => Kind::Atom,
            Lexeme::LineComment(_) => Kind::LineComment,
            Lexeme::BlockComment(_) => Kind::BlockComment,
        }
    }
}

/// Returns the head of a list whose first item begins with this lexeme.
pub(crate) fn head_of(lexeme: &Lexeme) -> Head
    ensures { result ≡ head_in (lexeme_of lexeme.now) }
{
    match lexeme {
        Lexeme::Opening => Head::ListHead,
        Lexeme::At => Head::PlainHead,
        Lexeme::Atom(text) => {
            if is_body_head(text) {
                Head::BodyHead
            } else {
                Head::PlainHead
            }
        }
        Lexeme::Closing | Lexeme::LineComment(_) | Lexeme::BlockComment(_) => Head::NoHead,
    }
}

#[tactic(auto, unfolding(crate::specs::Heads::is_body_head))]
fn is_body_head(text: &str) -> bool
    ensures { result ≡ is_body_head_in text.now }
{
    text == "let" || text == "type" || text == "spec" || text == "switch" || text == "instantiate"
}

/// Returns the width, or 1 if it is 0.
#[inline(always)]
fn some_width(width: usize) -> usize
    ensures { result ≡ width_in_result some width }
{
    if width == 0 { 1 } else { width }
}

/// Returns the width in the result of a gap on a line, between entries of these kinds.
#[inline(always)]
pub(crate) fn result_width(before: Kind, kind: Kind, width: usize) -> usize
    ensures { result ≡ width_in_result (room before kind) width }
{
    match kind {
        Kind::Close => 0,
        Kind::At => match before {
            Kind::Open => 0,
            _ => width,
        },
        Kind::LineComment => match before {
            Kind::At => width,
            _ => some_width(width),
        },
        _ => match before {
            Kind::Open => 0,
            Kind::At => width,
            _ => some_width(width),
        },
    }
}
