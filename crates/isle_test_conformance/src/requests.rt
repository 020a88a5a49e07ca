//! Requests to the index of a program.

use isle_index::{Index, Kind, Name, Refusal, SymbolKind};
use isle_syntax::ast::Def;
use isle_syntax::lexer::{Fault, Pos};
use isle_test_nodes::answer::Answer;
use isle_test_nodes::case::Case;
use isle_test_nodes::trees::{drop_tree, parsed};
use std::alloc::{AllocError, Global};

/// Adds the answer of a request to the index of a program.
pub fn put_request(
    alloc: Global,
    case: &Case,
    program: &str,
    out: &mut Answer,
) -> Result<(), Fault> {
    let mut answer = Answer::new(alloc);
    let tree = parsed(alloc, 0, program);
    let told = match &tree {
        Ok(defs) => put_answer(alloc, case, defs, &mut answer),
        Err(_) => Ok(()),
    };
    drop_tree(tree);
    out.show_text(&answer);
    Ok(told?)
}

fn put_answer(
    alloc: Global,
    case: &Case,
    defs: &[Def],
    out: &mut Answer,
) -> Result<(), AllocError> {
    let mut index = Index::new(alloc);
    index.add(alloc, defs)?;
    let place = Pos::new(0, case.number(0));
    match case.call.as_str() {
        "index" => {
            out.show(&index.symbols(alloc, 0)?.len());
            out.put(" symbols\n");
            Ok(())
        }
        "index_symbols" => put_symbols(alloc, &index, out),
        "index_candidates" => put_candidates(alloc, &index, place, case, out),
        _ => put_answer_of_name(alloc, &index, place, case, out),
    }
}

/// Adds the answer of a request about the name at a place.
fn put_answer_of_name(
    alloc: Global,
    index: &Index,
    place: Pos,
    case: &Case,
    out: &mut Answer,
) -> Result<(), AllocError> {
    let Some(name) = index.name_at(alloc, place)? else {
        out.put("nothing\n");
        return Ok(());
    };
    match case.call.as_str() {
        "index_at" => put_occurrences(alloc, index, &name, out)?,
        "index_can_rename" => out.show(&index.can_be_renamed(alloc, &name)?),
        _ => put_renamed(alloc, index, &name, case.text(0), out)?,
    }
    out.put("\n");
    Ok(())
}

/// Adds a name, its occurrences, each definition with a `*`, and how many definitions it has.
fn put_occurrences(
    alloc: Global,
    index: &Index,
    name: &Name,
    out: &mut Answer,
) -> Result<(), AllocError> {
    put_name(name, out);
    for occurrence in &index.occurrences(alloc, name)? {
        put_place(occurrence.pos, occurrence.len, out);
        out.put(if occurrence.is_definition { "*" } else { "" });
    }
    out.put(", ");
    out.show(&index.definitions(alloc, name)?.len());
    out.put(" defined");
    Ok(())
}

/// Adds the offset and the length of a name.
fn put_place(pos: Pos, len: usize, out: &mut Answer) {
    out.put(" ");
    out.show(&pos.offset);
    out.put("+");
    out.show(&len);
}

fn put_name(name: &Name, out: &mut Answer) {
    out.put(match name {
        Name::Global { kind, .. } => kind_word(*kind),
        Name::Variable { .. } => "Variable",
    });
    out.put(" ");
    out.put(name.text());
    out.put(":");
}

/// Adds a line for each definition of the program.
fn put_symbols(alloc: Global, index: &Index, out: &mut Answer) -> Result<(), AllocError> {
    for symbol in &index.symbols(alloc, 0)? {
        out.put(symbol_word(symbol.kind));
        out.put(" ");
        out.put(&symbol.text);
        put_place(symbol.pos, symbol.len, out);
        out.put("\n");
    }
    Ok(())
}

/// Adds a line for each name that begins with the case's text and may be written at a place.
fn put_candidates(
    alloc: Global,
    index: &Index,
    place: Pos,
    case: &Case,
    out: &mut Answer,
) -> Result<(), AllocError> {
    let (from, prefix) = (case.number(1), case.text(0).as_bytes());
    for candidate in &index.candidates(alloc, place, from, prefix)? {
        out.put(symbol_word(candidate.kind));
        out.put(" ");
        out.put(&candidate.text);
        out.put("\n");
    }
    Ok(())
}

/// Adds a name with the places that change when it is renamed, and behind `>` how many bytes of the
/// name stay there in front of what changes, if some do, or why it can't be renamed.
fn put_renamed(
    alloc: Global,
    index: &Index,
    name: &Name,
    new: &str,
    out: &mut Answer,
) -> Result<(), AllocError> {
    match index.rename(alloc, name, new)? {
        Ok(places) => {
            put_name(name, out);
            let part = index.part_of(alloc, name)?;
            for place in &places {
                out.put(" ");
                out.show(&place.offset);
                put_front(part.front_len(*place), out);
            }
        }
        Err(refusal) => out.put(refusal_word(refusal)),
    }
    Ok(())
}

/// Adds how many bytes of a name stay in front of what changes, if some do.
fn put_front(len: usize, out: &mut Answer) {
    if len > 0 {
        out.put(">");
        out.show(&len);
    }
}

/// The word for the kind of a name.
fn kind_word(kind: Kind) -> &'static str {
    match kind {
        Kind::Term => "Term",
        Kind::Type => "Type",
        Kind::Constant => "Constant",
    }
}

/// The word for the kind of a symbol.
fn symbol_word(kind: SymbolKind) -> &'static str {
    match kind {
        SymbolKind::Term => "Term",
        SymbolKind::Type => "Type",
        SymbolKind::Variant => "Variant",
        SymbolKind::Constant => "Constant",
        SymbolKind::Variable => "Variable",
    }
}

/// The word for the reason of a refusal.
fn refusal_word(refusal: Refusal) -> &'static str {
    match refusal {
        Refusal::NotAName => "NotAName",
        Refusal::Undefined => "Undefined",
        Refusal::Variant => "Variant",
        Refusal::Taken => "Taken",
        Refusal::Captured => "Captured",
    }
}
