//! Placing the entries of a document, one after another.

ghost use Rattle.std.specs.Prelude.{◌≡◌, ◌+◌, ◌<◌, ◌≤◌, ◌^◌, ◌∷◌, ◌++◌, ℕ, List, [], IfOk, Some};
ghost use Rattle.std.specs.Prelude.{length, suc, true};
ghost use Rattle.isle_tidy_layout.specs.Columns.{IsPrintable};
ghost use Rattle.isle_tidy_layout.specs.Entries.{Entry as EntryNode};
ghost use Rattle.isle_tidy_layout.specs.EntriesView.{lexeme_of};
ghost use Rattle.isle_tidy_layout.specs.Placing.{Here, OpenList, at_most_two as two_at_most};
ghost use Rattle.isle_tidy_layout.specs.Placing.{column_of as column_in};
ghost use Rattle.isle_tidy_layout.specs.Placing.{empty_lines as empty_lines_of, kind_of};
ghost use Rattle.isle_tidy_layout.specs.Placing.{passed, placed_gap, reached, text_start};
ghost use Rattle.isle_tidy_layout.specs.Placing.{width_of as width_in};
ghost use Rattle.isle_tidy_layout.specs.Placing.{column_after as column_after_of};
ghost use Rattle.isle_tidy_layout.specs.Placing.{tidied};
ghost use Rattle.isle_tidy_layout.specs.Placing.{trimmed as trimmed_bytes};
ghost use Rattle.isle_tidy_layout.specs.Writing.{spelling};
ghost use Rattle.isle_tidy_layout.specs.PlacerView.{IsAt};
ghost use Rattle.isle_tidy_layout.specs.Stack.{IsSmall, IsStack};
ghost use Rattle.isle_tidy_layout.specs.declared.columns.Columns.{Columns};
ghost use Rattle.isle_tidy_layout.specs.declared.stack.Opened.{Opened};

use crate::changes::{add_item, begin, close, open};
use crate::columns::{Columns, column_after, is_space_or_tab};
use crate::entries::{Gap, Lexeme};
use crate::placing::{Kind, result_width};
use crate::stack::{Opened, line_column, line_of};
use std::alloc::{AllocError, Global};

/// Columns stay below this. No line that fits in memory is as long.
const MAX_COLUMNS: usize = 1 << 62;

/// Places the entries of a document, one after another.
///
/// It keeps the open lists and their arguments, but no entries.
#[derive(Drop)]
pub struct Placer {
    /// The kind of the last entry.
    pub before: Kind,
    /// The number of the current line.
    row: usize,
    /// The columns of its first entry.
    line: Columns,
    /// The columns after the last entry.
    end: Columns,
    /// The open lists, the innermost last.
    lists: Vec<Opened>,
    /// Their arguments, an inner list's after an outer one's.
    arguments: Vec<Columns>,
}

fn at_most_two(empty: usize) -> usize
    ensures { result ≡ two_at_most empty }
{
    match empty {
        0 => 0,
        1 => 1,
        _ => 2,
    }
}

/// Returns how many of `empty` empty lines are kept: at most two, and none at the start.
fn empty_lines(before: Kind, empty: usize) -> usize
    ensures { result ≡ empty_lines_of before empty }
{
    match before {
        Kind::Start => 0,
        _ => at_most_two(empty),
    }
}

/// Returns the width of a gap on a line, or the column after one that begins a line.
fn width_of(gap: Gap) -> usize
    ensures { result ≡ width_in gap }
{
    match gap {
        Gap::Beside(width) | Gap::Tabbed(width) => width,
        Gap::Below(_, column) => column,
    }
}

/// Makes columns. Fails if one is not below `MAX_COLUMNS`.
#[inline(always)]
fn small(in_source: usize, in_result: usize) -> Result<Columns, AllocError>
    ensures { IfOk result (λ r. IsSmall r
        × (r ≡ record { source = in_source; result = in_result })) }
{
    if in_source < MAX_COLUMNS && in_result < MAX_COLUMNS {
        Ok(Columns {
            source: in_source,
            result: in_result,
        })
    } else {
        Err(AllocError)
    }
}

/// Shifts columns to the right. Fails if one is not below `MAX_COLUMNS` then.
#[inline(always)]
fn moved(from: Columns, by_source: usize, by_result: usize) -> Result<Columns, AllocError>
    ensures { IfOk result (λ r. IsSmall r
        × (r ≡ record { source = from.source + by_source; result = from.result + by_result })) }
{
    match (
        from.source.checked_add(by_source),
        from.result.checked_add(by_result),
    ) {
        (Some(source), Some(result)) => small(source, result),
        _ => Err(AllocError),
    }
}

/// Adds one. Fails if the sum does not fit.
fn next(number: usize) -> Result<usize, AllocError>
    ensures { IfOk result (λ n. n ≡ suc number) }
{
    match number.checked_add(1) {
        Some(next) => Ok(next),
        None => Err(AllocError),
    }
}

/// Removes the spaces and tabs at the end of a line comment's text.
#[tactic(auto, using(crate::proofs::Trims::trimmed_less, crate::proofs::Trims::trimmed_here, crate::proofs::Trims::boundary_less))]
pub fn trimmed(text: &str) -> &str
    ensures { result.now ≡ trimmed_bytes text.now }
{
    let bytes = text.as_bytes();
    let mut end = bytes.len();
    while end > 0 {
        if !is_space_or_tab(bytes[end - 1]) {
            return &text[..end];
        }
        end -= 1;
    }
    ""
}

/// Returns the columns after a lexeme that begins at `at`. With `is_printable` its bytes are known
/// to be printable ASCII.
#[inline(always)]
fn after(at: Columns, lexeme: &Lexeme, is_printable: bool) -> Result<Columns, AllocError>
    requires small { IsSmall at }
    requires printable { is_printable ≡ true → IsPrintable (lexeme_of lexeme.now) }
    ensures { IfOk result (λ r. IsSmall r × (r ≡ record {
      source = column_after_of at.source (spelling (lexeme_of lexeme.now));
      result = column_after_of at.result (spelling (tidied (lexeme_of lexeme.now)));
    })) }
{
    match lexeme {
        Lexeme::Opening | Lexeme::Closing | Lexeme::At => moved(at, 1, 1),
        Lexeme::Atom(text) => {
            let bytes = text.as_bytes();
            if is_printable {
                return moved(at, bytes.len(), bytes.len());
            }
            small(
                column_after(at.source, bytes),
                column_after(at.result, bytes),
            )
        }
        Lexeme::LineComment(text) => {
            let kept = trimmed(text);
            if is_printable {
                return moved(at, text.len() + 1, kept.len() + 1);
            }
            small(
                column_after(at.source + 1, text.as_bytes()),
                column_after(at.result + 1, kept.as_bytes()),
            )
        }
        Lexeme::BlockComment(text) => {
            let bytes = text.as_bytes();
            small(
                column_after(at.source + 2, bytes),
                column_after(at.result + 2, bytes),
            )
        }
    }
}

impl Placer {
    /// Makes a placer that is at the start of a document.
    pub fn new(alloc: Global) -> Placer
        ensures { IsAt result text_start }
    {
        let origin = Columns {
            source: 0,
            result: 0,
        };
        Placer {
            before: Kind::Start,
            row: 0,
            line: origin,
            end: origin,
            lists: Vec::new(alloc),
            arguments: Vec::new(alloc),
        }
    }

    /// Returns the column of a line that begins with an entry, which `closings` further `)` follow.
    fn column_of(&self, kind: Kind, closings: usize, column: usize) -> usize
        requires { (here : Here) × IsAt self.now here }
        ensures { (here : Here) → IsAt self.now here
            → result ≡ column_in here.lists kind closings column }
    {
        match kind {
            Kind::Close => line_of(&self.lists, closings),
            _ => line_column(&self.lists, &self.arguments, column),
        }
    }

    /// Returns the gap in the result before the next entry.
    #[inline(always)]
    fn gap(&self, gap: Gap, kind: Kind, closings: usize) -> Gap
        requires { (here : Here) × IsAt self.now here }
        ensures { (here : Here) → IsAt self.now here
            → result ≡ placed_gap here gap kind closings }
    {
        match gap {
            Gap::Beside(width) => Gap::Beside(result_width(self.before, kind, width)),
            Gap::Tabbed(_) => Gap::Beside(result_width(self.before, kind, 1)),
            Gap::Below(empty, column) => {
                let column = self.column_of(kind, closings, column);
                Gap::Below(empty_lines(self.before, empty), column)
            }
        }
    }

    /// Goes past a gap, which is `gap` in the source and `placed` in the result.
    #[inline(always)]
    fn reach(&mut self, kind: Kind, gap: Gap, placed: Gap) -> Result<(), AllocError>
        requires { (here : Here) × IsAt self.old here }
        ensures { (here : Here) → IsAt self.old here
            → IfOk result (λ _. IsAt self.new (reached here kind gap placed)) }
    {
        match gap {
            Gap::Beside(width) | Gap::Tabbed(width) => {
                self.end = moved(self.end, width, width_of(placed))?;
            }
            Gap::Below(_, column) => {
                let at = small(column, width_of(placed))?;
                self.row = next(self.row)?;
                self.line = at;
                self.end = at;
                begin(&mut self.lists, kind, at.result);
            }
        }
        Ok(())
    }

    /// Goes past a lexeme.
    #[inline(always)]
    fn pass(&mut self, lexeme: &Lexeme, is_printable: bool) -> Result<(), AllocError>
        requires here { (here : Here) × IsAt self.old here }
        requires printable { is_printable ≡ true → IsPrintable (lexeme_of lexeme.now) }
        ensures { (here : Here) → IsAt self.old here
            → IfOk result (λ _. IsAt self.new (passed here (lexeme_of lexeme.now))) }
    {
        match lexeme {
            Lexeme::Opening => {
                add_item(
                    &mut self.lists,
                    &mut self.arguments,
                    lexeme,
                    self.row,
                    self.end,
                )?;
                open(
                    &mut self.lists,
                    &self.arguments,
                    self.row,
                    self.end,
                    self.line,
                )?;
            }
            Lexeme::Closing => close(&mut self.lists, &mut self.arguments),
            Lexeme::At | Lexeme::Atom(_) => {
                add_item(
                    &mut self.lists,
                    &mut self.arguments,
                    lexeme,
                    self.row,
                    self.end,
                )?;
            }
            Lexeme::LineComment(_) | Lexeme::BlockComment(_) => {}
        }
        self.end = after(self.end, lexeme, is_printable)?;
        self.before = Kind::of(lexeme);
        Ok(())
    }

    /// Places the next entry, and returns its gap in the result.
    ///
    /// `closings` is the number of `)` that follow the entry on its line. `is_printable` may be
    /// `true` only if all bytes of the entry are printable ASCII. That is faster.
    ///
    /// Fails if memory runs out, or if a line is 2^62 columns long. The placer is of no use then.
    #[inline(always)]
    pub fn place(
        &mut self,
        gap: Gap,
        lexeme: &Lexeme,
        closings: usize,
        is_printable: bool,
    ) -> Result<Gap, AllocError>
        requires here { (here : Here) × IsAt self.old here }
        requires printable { is_printable ≡ true → IsPrintable (lexeme_of lexeme.now) }
        ensures { (here : Here) → IsAt self.old here → IfOk result (λ placed.
            let kind = kind_of (lexeme_of lexeme.now) in
            (placed ≡ placed_gap here gap kind closings)
            × IsAt self.new (passed (reached here kind gap placed) (lexeme_of lexeme.now))) }
    {
        let kind = Kind::of(lexeme);
        let placed = self.gap(gap, kind, closings);
        self.reach(kind, gap, placed)?;
        self.pass(lexeme, is_printable)?;
        Ok(placed)
    }
}
