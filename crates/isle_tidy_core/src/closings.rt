//! The `)` that follow an entry on its line.

ghost use Rattle.std.specs.Prelude.{◌≡◌, ◌≤◌, List, drop, length};
ghost use Rattle.isle_tidy_core.specs.Grammar.{SpellsEntries};
ghost use Rattle.isle_tidy_layout.specs.Entries.{Entry as EntryNode};
ghost use Rattle.isle_tidy_layout.specs.EntriesView.{lexeme_of};
ghost use Rattle.isle_tidy_layout.specs.Placing.{Here, closings, kind_of, placed_gap};
ghost use Rattle.isle_tidy_layout.specs.declared.entries.Gap.TheVariants.{Beside};

use isle_tidy_layout::columns::is_space_or_tab;
use isle_tidy_layout::entries::{Entry, Gap, Lexeme};

/// Counts the `)` at an offset, with only spaces and tabs among them.
#[inline(never)]
fn closings_at(bytes: &[u8], from: usize) -> usize
    requires { from ≤ length bytes.now }
    ensures { (entries : List EntryNode) → SpellsEntries (Beside 0) entries (drop from bytes.now)
        → closings entries ≡ result }
{
    let mut count = 0;
    let mut at = from;
    while at < bytes.len() {
        let byte = bytes[at];
        if byte == b')' {
            count += 1;
        } else if !is_space_or_tab(byte) {
            return count;
        }
        at += 1;
    }
    count
}

/// Counts the `)` that follow an entry on its line, if its place depends on them: if it is a `)`
/// that begins a line. Otherwise returns 0. So each run of `)` is counted once.
pub(crate) fn closings_after(text: &str, entry: &Entry, end: usize) -> usize
    requires { end ≤ length text.now }
    ensures { (here : Here) (entries : List EntryNode)
        → SpellsEntries (Beside 0) entries (drop end text.now)
        → placed_gap here entry.now.gap (kind_of (lexeme_of entry.now.lexeme)) (closings entries)
        ≡ placed_gap here entry.now.gap (kind_of (lexeme_of entry.now.lexeme)) result }
{
    match entry.gap {
        Gap::Beside(_) | Gap::Tabbed(_) => 0,
        Gap::Below(_, _) => match entry.lexeme {
            Lexeme::Closing => closings_at(text.as_bytes(), end),
            Lexeme::Opening
            | Lexeme::At
            | Lexeme::Atom(_)
            | Lexeme::LineComment(_)
            | Lexeme::BlockComment(_) => 0,
        },
    }
}
