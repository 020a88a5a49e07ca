//! The open lists, and the columns of the lines that begin in them.

ghost use Rattle.std.specs.Prelude.{◌≡◌, ◌+◌, ◌++◌, ◌∷◌, ◌<◌, ◌≤◌, ◌^◌, ℕ, List, [], None, Some};
ghost use Rattle.std.specs.Prelude.{drop, length, unwrap_or};
ghost use Rattle.isle_tidy_layout.specs.Placing.{OpenList, first_line as first_line_of};
ghost use Rattle.isle_tidy_layout.specs.Placing.{hanging, result_column as result_of};
ghost use Rattle.isle_tidy_layout.specs.Placing.{line_column as line_column_in};
ghost use Rattle.isle_tidy_layout.specs.Placing.{line_of as line_of_lists};
ghost use Rattle.isle_tidy_layout.specs.Placing.{right_of as right_of_column};
ghost use Rattle.isle_tidy_layout.specs.Placing.{usual_column as usual_column_of};
ghost use Rattle.isle_tidy_layout.specs.declared.columns.Columns.{Columns};
ghost use Rattle.isle_tidy_layout.specs.declared.stack.Opened.{Opened};
ghost use Rattle.isle_tidy_layout.specs.Stack.{IsSmall, IsStack, IsTop, list_of};

use crate::columns::{Columns, result_column};
use crate::placing::{Head, Kind};

/// An open list. All open lists keep their arguments in one vector, an inner list after an outer
/// one.
#[derive(Clone, Copy)]
pub struct Opened {
    /// The line number of its `(`.
    pub row: usize,
    /// The columns of its `(`.
    pub parenthesis: Columns,
    /// The columns of the first entry on that line.
    pub line: Columns,
    /// The kind of its first item.
    pub head: Head,
    /// The index of its first argument in that vector.
    pub first: usize,
    /// The column in the result of the lines that begin in it, once there is one.
    pub lines: Option<usize>,
}

fn right_of(n: usize, columns: Columns) -> Columns
    requires small { IsSmall columns }
    requires few { n ≤ 4 }
    ensures { result ≡ right_of_column n columns }
{
    Columns {
        source: columns.source + n,
        result: columns.result + n,
    }
}

/// Returns the column in the result of one 1, 2 or 4 to the right of the `(`.
fn by_parenthesis(list: &Opened, column: usize) -> Option<usize>
    requires { IsSmall list.now.parenthesis }
    ensures { result ≡ result_of column (right_of_column 1 list.now.parenthesis
        ∷ right_of_column 2 list.now.parenthesis ∷ right_of_column 4 list.now.parenthesis ∷ []) }
{
    let p = list.parenthesis;
    result_column(column, &[right_of(1, p), right_of(2, p), right_of(4, p)])
}

/// Returns the column in the result of one 2 or 4 to the right of the line, if the list has no
/// argument.
fn by_line(list: &Opened, arguments: &[Columns], column: usize) -> Option<usize>
    requires { IsSmall list.now.line }
    ensures { result ≡ result_of column (hanging arguments.now list.now.line) }
{
    if arguments.is_empty() {
        result_column(column, &[right_of(2, list.line), right_of(4, list.line)])
    } else {
        None
    }
}

/// Returns the column of the first line that begins in a list, if the author's is not kept.
fn usual_column(list: &Opened, arguments: &[Columns]) -> usize
    requires { IsSmall list.now.parenthesis }
    ensures { result ≡ usual_column_of list.now.head list.now.parenthesis arguments.now }
{
    match list.head {
        Head::NoHead | Head::ListHead => list.parenthesis.result + 1,
        Head::BodyHead => list.parenthesis.result + 2,
        Head::PlainHead => {
            if arguments.is_empty() {
                list.parenthesis.result + 2
            } else {
                arguments[0].result
            }
        }
    }
}

/// Returns the column of the first line that begins in a list, and that the author put at `column`.
#[inline(never)]
fn first_line(list: &Opened, arguments: &[Columns], column: usize) -> usize
    requires parenthesis { IsSmall list.now.parenthesis }
    requires line { IsSmall list.now.line }
    ensures { result ≡ first_line_of (list_of list.now arguments.now) column }
{
    if let Some(result) = result_column(column, arguments) {
        return result;
    }
    if let Some(result) = by_parenthesis(list, column) {
        return result;
    }
    if let Some(result) = by_line(list, arguments, column) {
        return result;
    }
    usual_column(list, arguments)
}

pub fn innermost(lists: &[Opened]) -> Opened
    requires { 0 < length lists.now }
    ensures top { (ls : List OpenList) (arguments : List Columns) → IsStack ls lists.now arguments
        → IsTop ls arguments result }
    ensures last { (below : List Opened) (o : Opened) → lists.now ≡ below ++ (o ∷ []) → result ≡ o }
{
    lists[lists.len() - 1]
}

fn arguments_from(arguments: &[Columns], first: usize) -> &[Columns]
    requires { first ≤ length arguments.now }
    ensures { result.now ≡ drop first arguments.now }
{
    &arguments[first..]
}

/// Returns the column of a line that begins in a list.
fn list_column(list: &Opened, arguments: &[Columns], column: usize) -> usize
    requires within { list.now.first ≤ length arguments.now }
    requires parenthesis { IsSmall list.now.parenthesis }
    requires line { IsSmall list.now.line }
    ensures { result ≡ unwrap_or list.now.lines
        (first_line_of (list_of list.now (drop list.now.first arguments.now)) column) }
{
    match list.lines {
        Some(known) => known,
        None => first_line(list, arguments_from(arguments, list.first), column),
    }
}

/// Returns the column of a line that begins in the innermost list, or 0 if none is open.
pub fn line_column(lists: &[Opened], arguments: &[Columns], column: usize) -> usize
    requires { (ls : List OpenList) × IsStack ls lists.now arguments.now }
    ensures { (ls : List OpenList) → IsStack ls lists.now arguments.now
        → result ≡ line_column_in ls column }
{
    if lists.is_empty() {
        return 0;
    }
    let list = innermost(lists);
    list_column(&list, arguments, column)
}

/// Returns the column of the line with the `(` of the list that has `inner` open lists in it, or 0
/// if there is none.
pub fn line_of(lists: &[Opened], inner: usize) -> usize
    ensures { (ls : List OpenList) (arguments : List Columns) → IsStack ls lists.now arguments
        → result ≡ line_of_lists ls inner }
{
    if inner < lists.len() {
        lists[lists.len() - 1 - inner].line.result
    } else {
        0
    }
}
