//! The definitions in texts.

ghost use Rattle.std.specs.Prelude.{◌≡◌, ◌++◌, IfOk, OnOk, map, option_map, option_to_list};
ghost use Rattle.std.specs.List.{flat_map};
ghost use Rattle.serde_json.specs.Data.{array};
ghost use Rattle.serde_json.specs.View.{items_of};
ghost use Rattle.isle_lsp_features.specs.Programs.{text_of};
ghost use Rattle.isle_index.specs.Held.{all_in};
ghost use Rattle.isle_index.specs.Symbols.{symbol_of, symbols};
ghost use Rattle.isle_lsp_protocol.specs.Items.{item_data, items_data};
ghost use Rattle.isle_lsp_features.specs.Defined as wanted;
ghost use Rattle.isle_lsp_features.specs.Defined.{AreDocumentSymbols};
ghost use Rattle.isle_lsp_text.specs.Positions.{IsPlace};

use crate::Text;
use crate::places::File;
use isle_index::{Index, Symbol, SymbolKind};
use isle_lsp_protocol::items::Item;
use isle_lsp_text::lists::{ListSpan, lists};
use isle_lsp_text::positions::{Place as TextPlace, PositionEncoding, START};
use isle_lsp_text::ranges::{range_between, range_near};
use isle_lsp_text::wholes::whole_of;
use std::alloc::{AllocError, Global};

/// The definitions in a text of a program, in order.
pub fn document_symbols<'a>(
    alloc: Global,
    index: &Index,
    file: File,
) -> Result<Vec<Item<'a>>, AllocError>
    ensures { IfOk result (λ items. AreDocumentSymbols file.entry.encoding file.entry.text.now
        (symbols file.entry.number (all_in index.now)) (items_data items.items)) }
{
    let lists = lists(alloc, file.text)?;
    let symbols = index.symbols(alloc, file.number)?;
    symbol_items(alloc, file.encoding, file.text, &lists, &symbols)
}

fn symbol_items<'a>(
    alloc: Global,
    encoding: PositionEncoding,
    text: &str,
    lists: &[ListSpan],
    symbols: &[Symbol],
) -> Result<Vec<Item<'a>>, AllocError>
    ensures { IfOk result (λ items. items_data items.items
        ≡ array (items_of (map (wanted.symbol_data encoding text.now lists.now)
        (map symbol_of symbols.now)))) }
{
    let mut items = Vec::new(alloc);
    let mut near = START;
    for symbol in symbols {
        let item = symbol_item(alloc, encoding, text, lists, &mut near, symbol)?;
        items.push(item)?;
    }
    Ok(items)
}

#[tactic(auto, unfolding(crate::specs::Defined::symbol_data))]
fn symbol_item<'a>(
    alloc: Global,
    encoding: PositionEncoding,
    text: &str,
    lists: &[ListSpan],
    near: &mut TextPlace,
    symbol: &Symbol,
) -> Result<Item<'a>, AllocError>
    requires { IsPlace encoding text.now near.old }
    ensures item { IfOk result (λ item. item_data item
        ≡ wanted.symbol_data encoding text.now lists.now (symbol_of symbol.now)) }
    ensures near { IsPlace encoding text.now near.new }
{
    let is_variant = is_variant(symbol.kind);
    let whole = whole_of(text, lists, is_variant, symbol.pos.offset, symbol.len);
    let range = range_between(encoding, text, near, whole.from, whole.to);
    let selection = range_near(encoding, text, near, symbol.pos.offset, symbol.len);
    Ok(Item::DocumentSymbol {
        name: String::from_str(alloc, symbol.text.as_str())?,
        kind: number_of(symbol.kind),
        range,
        selection,
    })
}

fn is_variant(kind: SymbolKind) -> bool
    ensures { result ≡ wanted.is_variant kind }
{
    match kind {
        SymbolKind::Variant => true,
        SymbolKind::Term | SymbolKind::Type | SymbolKind::Constant | SymbolKind::Variable => false,
    }
}

/// The definitions in a program whose names match a query, file by file.
pub fn workspace_symbols<'a>(
    alloc: Global,
    program: &[Text<'a>],
    index: &Index,
    query: &str,
) -> Result<Vec<Item<'a>>, AllocError>
    ensures { IfOk result (λ items. items_data items.items ≡ wanted.workspace_symbols query.now
        (map text_of program.now) (all_in index.now)) }
{
    let mut items = Vec::new(alloc);
    for (file, source) in program.iter().enumerate() {
        let symbols = index.symbols(alloc, file)?;
        add_matching(alloc, *source, &symbols, query, &mut items)?;
    }
    Ok(items)
}

/// Adds the symbols of a file whose names match a query.
fn add_matching<'a>(
    alloc: Global,
    source: Text<'a>,
    symbols: &[Symbol],
    query: &str,
    items: &mut Vec<Item<'a>>,
) -> Result<(), AllocError>
    ensures { OnOk result (map item_data items.new.items ≡ map item_data items.old.items
        ++ flat_map (wanted.symbol_in query.now (text_of source.entry))
        (map symbol_of symbols.now)) }
{
    let mut near = START;
    for symbol in symbols {
        if let Some(item) = matching_symbol(alloc, source, &mut near, symbol, query)? {
            items.push(item)?;
        }
    }
    Ok(())
}

/// A symbol of a file as an item, if its name matches a query.
#[tactic(auto, unfolding(crate::specs::Defined::symbol_in))]
fn matching_symbol<'a>(
    alloc: Global,
    source: Text<'a>,
    near: &mut TextPlace,
    symbol: &Symbol,
    query: &str,
) -> Result<Option<Item<'a>>, AllocError>
    requires { IsPlace source.encoding source.text.now near.old }
    ensures item { IfOk result (λ item. option_to_list (option_map item_data item)
        ≡ wanted.symbol_in query.now (text_of source.entry) (symbol_of symbol.now)) }
    ensures near { IsPlace source.entry.encoding source.entry.text.now near.new }
{
    if !has_letters(symbol.text.as_str(), query) {
        return Ok(None);
    }
    let range = range_near(
        source.encoding,
        source.text,
        near,
        symbol.pos.offset,
        symbol.len,
    );
    Ok(Some(Item::WorkspaceSymbol {
        name: String::from_str(alloc, symbol.text.as_str())?,
        kind: number_of(symbol.kind),
        uri: source.uri,
        range,
    }))
}

/// Returns whether the bytes of a query occur in a name in the same order, but not necessarily side
/// by side. The case of ASCII letters is ignored.
fn has_letters(name: &str, query: &str) -> bool
    ensures { result ≡ wanted.has_letters query.now name.now }
{
    let mut letters = query.as_bytes();
    for byte in name.as_bytes() {
        letters = letters_left(letters, *byte);
    }
    letters.is_empty()
}

/// The letters of the query that are still to be found after a byte of the name.
fn letters_left(letters: &[u8], byte: u8) -> &[u8]
    ensures { result.now ≡ wanted.letters_left letters.now byte }
{
    match letters.split_first() {
        Some((first, rest)) if first.eq_ignore_ascii_case(&byte) => rest,
        _ => letters,
    }
}

/// The protocol's number of a kind of symbol.
fn number_of(kind: SymbolKind) -> usize
    ensures { result ≡ wanted.number_of kind }
{
    match kind {
        SymbolKind::Term => 12,
        SymbolKind::Type => 23,
        SymbolKind::Variant => 22,
        SymbolKind::Constant => 14,
        SymbolKind::Variable => 13,
    }
}
