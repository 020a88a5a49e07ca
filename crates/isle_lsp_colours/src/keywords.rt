//! The words of the language.

ghost use Rattle.std.specs.Prelude.{◌≡◌};
ghost use Rattle.isle_lsp_colours.specs.Keywords.{is_keyword};

/// The words that definitions, patterns and expressions begin with, and the flags of definitions.
const KEYWORDS: [&str; 42] = [
    "pragma",
    "type",
    "primitive",
    "enum",
    "struct",
    "nodebug",
    "decl",
    "pure",
    "multi",
    "partial",
    "rec",
    "rule",
    "if-let",
    "if",
    "let",
    "and",
    "extern",
    "extractor",
    "infallible",
    "constructor",
    "const",
    "convert",
    "attr",
    "veri",
    "chain",
    "priority",
    "tag",
    "spec",
    "provide",
    "require",
    "match",
    "modifies",
    "switch",
    "with",
    "as",
    "macro",
    "model",
    "form",
    "args",
    "ret",
    "state",
    "instantiate",
];

/// Returns whether a symbol is one of them.
pub fn is_keyword(symbol: &str) -> bool
    ensures { result ≡ is_keyword symbol.now }
{
    KEYWORDS.contains(&symbol)
}
