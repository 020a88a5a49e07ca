//! The entries of a document: its lexemes, and the gap before each.

/// The gap before an entry.
#[derive(Clone, Copy, PartialEq, Eq)]
pub enum Gap {
    /// On the same line, after this many spaces.
    Beside(usize),
    /// On the same line, after this many spaces and tabs, at least one of them a tab.
    Tabbed(usize),
    /// On a new line, after this many empty lines, at this column. The first entry of a text is
    /// below the start of the text.
    Below(usize, usize),
}

/// A lexeme as it is written. Its text is borrowed from the source.
#[derive(Clone, Copy)]
pub enum Lexeme<'src> {
    /// The `(` of a list.
    Opening,
    /// The `)` of a list.
    Closing,
    /// `@`.
    At,
    /// A symbol or an integer.
    Atom(&'src str),
    /// A line comment: the text after its `;`, without the line end.
    LineComment(&'src str),
    /// A block comment: the text after its `(;`, including the `;)` that ends it.
    BlockComment(&'src str),
}

/// A lexeme, and the gap before it.
#[derive(Clone, Copy)]
pub struct Entry<'src> {
    pub gap: Gap,
    pub lexeme: Lexeme<'src>,
}
