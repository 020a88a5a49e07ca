//! How an entry changes the open lists.

ghost use Rattle.std.specs.Prelude.{◌≡◌, ◌≢◌, ◌+◌, ◌<◌, ◌≤◌, ◌^◌, ◌∷◌, ◌++◌, ℕ, List, [], IfOk};
ghost use Rattle.std.specs.Prelude.{Some, length};
ghost use Rattle.isle_tidy_layout.specs.Placing.{Here, OpenList, begun};
ghost use Rattle.isle_tidy_layout.specs.EntriesView.{lexeme_of};
ghost use Rattle.isle_tidy_layout.specs.Placing.{head_of as head_in};
ghost use Rattle.isle_tidy_layout.specs.Placing.{item_more as one_item_more, outer};
ghost use Rattle.isle_tidy_layout.specs.Stack.{IsSmall, IsStack};
ghost use Rattle.isle_tidy_layout.specs.declared.placing.Head.TheVariants.{NoHead};
ghost use Rattle.isle_tidy_layout.specs.declared.columns.Columns.{Columns};
ghost use Rattle.isle_tidy_layout.specs.declared.stack.Opened.{Opened};
ghost use Rattle.std.specs.Prelude.{None};

use crate::columns::Columns;
use crate::entries::Lexeme;
use crate::placing::{Head, Kind, head_of};
use crate::stack::{Opened, innermost};
use std::alloc::AllocError;

/// Replaces the innermost list.
fn set_innermost(lists: &mut Vec<Opened>, list: Opened)
    requires { 0 < length lists.old.items }
    ensures { (below : List Opened) (o : Opened) → lists.old.items ≡ below ++ (o ∷ [])
        → lists.new.items ≡ below ++ (list ∷ []) }
{
    let last = lists.len() - 1;
    lists[last] = list;
}

/// Records the column of a line that begins in the innermost list. A `)` begins none.
pub fn begin(lists: &mut Vec<Opened>, kind: Kind, column: usize)
    ensures { (ls : List OpenList) (arguments : List Columns) → IsStack ls lists.old.items arguments
        → IsStack (begun kind column ls) lists.new.items arguments }
{
    if lists.is_empty() {
        return;
    }
    match kind {
        Kind::Close => {}
        _ => {
            let mut list = innermost(lists);
            list.lines = Some(column);
            set_innermost(lists, list);
        }
    }
}

/// Sets the head of the innermost list, by the lexeme that its first item begins with.
fn set_head(lists: &mut Vec<Opened>, lexeme: &Lexeme)
    requires { 0 < length lists.old.items }
    ensures { (below : List Opened) (o : Opened) → lists.old.items ≡ below ++ (o ∷ [])
        → lists.new.items ≡ below ++ (record o { head = head_in (lexeme_of lexeme.now) } ∷ []) }
{
    let mut list = innermost(lists);
    list.head = head_of(lexeme);
    set_innermost(lists, list);
}

/// Adds an item to the innermost list: as its head, or as an argument if it is on the row of the
/// list's `(`. The text of the lexeme is read only for a head.
#[inline(always)]
pub fn add_item(
    lists: &mut Vec<Opened>,
    arguments: &mut Vec<Columns>,
    lexeme: &Lexeme,
    row: usize,
    at: Columns,
) -> Result<(), AllocError>
    requires { head_in (lexeme_of lexeme.now) ≢ NoHead }
    ensures { (ls : List OpenList) → IsStack ls lists.old.items arguments.old.items
        → IfOk result (λ _. IsStack (one_item_more (head_in (lexeme_of lexeme.now)) row at ls)
        lists.new.items arguments.new.items) }
{
    if lists.is_empty() {
        return Ok(());
    }
    let list = innermost(lists);
    match list.head {
        Head::NoHead => set_head(lists, lexeme),
        _ => {
            if list.row == row {
                arguments.push(at)?;
            }
        }
    }
    Ok(())
}

/// Opens a list whose `(` is at the columns `at`, on a line that begins at `line`.
pub fn open(
    lists: &mut Vec<Opened>,
    arguments: &Vec<Columns>,
    row: usize,
    at: Columns,
    line: Columns,
) -> Result<(), AllocError>
    requires at_small { IsSmall at }
    requires line_small { IsSmall line }
    ensures { (ls : List OpenList) → IsStack ls lists.old.items arguments.now.items
        → IfOk result (λ _. IsStack (record {
          row = row;
          parenthesis = at;
          line = line;
          head = NoHead;
          arguments = [];
          lines = None;
        } ∷ ls) lists.new.items arguments.now.items) }
{
    let first = arguments.len();
    lists.push(Opened {
        row,
        parenthesis: at,
        line,
        head: Head::NoHead,
        first,
        lines: None,
    })?;
    Ok(())
}

/// Closes the innermost list, if there is one.
pub fn close(lists: &mut Vec<Opened>, arguments: &mut Vec<Columns>)
    ensures { (ls : List OpenList) → IsStack ls lists.old.items arguments.old.items
        → IsStack (outer ls) lists.new.items arguments.new.items }
{
    if let Some(list) = lists.pop() {
        arguments.truncate(list.first);
    }
}
