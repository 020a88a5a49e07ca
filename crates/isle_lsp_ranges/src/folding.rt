//! The parts of a text that fold.

ghost use Rattle.std.specs.Prelude.{◌≡◌, ◌<◌, ◌+◌, ◌++◌, ◌≤◌, IfOk, OnOk, ℕ, drop, length, map};
ghost use Rattle.std.specs.Prelude.{slice_index};
ghost use Rattle.serde_json.specs.Data.{depth};
ghost use Rattle.serde_json.specs.View.{view};
ghost use Rattle.isle_lsp_ranges.specs.Foldings as wanted;
ghost use Rattle.isle_lsp_ranges.specs.Foldings.{AreFoldings, comment_data, folds, last_line};
ghost use Rattle.isle_lsp_ranges.specs.Foldings.{line_in, list_data, run_end};

use crate::breaks::{breaks, comments, line_in};
use isle_lsp_text::lists::{ListSpan, lists};
use serde_json::{Value, json};
use std::alloc::{AllocError, Global};

/// The folds of a text, as an array of the protocol's `FoldingRange`, in the order of their first
/// lines: for each line the outermost list that begins there, if it ends on a later line, and each
/// run of at least two lines that are comments.
pub fn folding_ranges(alloc: Global, text: &str) -> Result<Value, AllocError>
    ensures folds { IfOk result (λ value. AreFoldings text.now (view value)) }
    ensures shallow { IfOk result (λ value. depth (view value) ≤ 120) }
{
    let bytes = text.as_bytes();
    let breaks = breaks(alloc, bytes)?;
    let lists = lists(alloc, text)?;
    let ends = last_lines(alloc, bytes, &breaks, &lists)?;
    let comments = comments(alloc, bytes, &breaks)?;
    let mut folds = Vec::new(alloc);
    let mut is_after_comment = false;
    for line in 0..comments.len() {
        add_list(alloc, &mut folds, line, ends[line])?;
        if !is_after_comment {
            let end = run_end(&comments, line);
            add_comment(alloc, &mut folds, line, end)?;
        }
        is_after_comment = comments[line];
    }
    Ok(Value::Array(folds))
}

/// For each line of a text the last one on which one of these lists ends that begins there.
fn last_lines(
    alloc: Global,
    text: &[u8],
    breaks: &[usize],
    lists: &[ListSpan],
) -> Result<Vec<usize>, AllocError>
    requires { breaks.now ≡ wanted.breaks text.now }
    ensures len { IfOk result (λ ends. length ends.items ≡ length breaks.now + 1) }
    ensures each { IfOk result (λ ends. (line : ℕ) → line ≤ length breaks.now
        → slice_index ends.items line ≡ last_line (line_in breaks.now) line lists.now) }
{
    let mut ends = Vec::new(alloc);
    for line in 0..breaks.len() + 1 {
        ends.push(line)?;
    }
    for list in lists {
        let start = line_in(text, breaks, list.from);
        let end = line_in(text, breaks, list.to.saturating_sub(1));
        ends[start] = end.max(ends[start]);
    }
    Ok(ends)
}

/// The last line of the run of comments that begins with a line.
fn run_end(comments: &[bool], line: usize) -> usize
    requires { line < length comments.now }
    ensures { result ≡ run_end line (drop line comments.now) }
{
    let mut end = line;
    while comments[end] && end + 1 < comments.len() && comments[end + 1] {
        end += 1;
    }
    end
}

/// Adds the fold of a list, unless it is on one line.
fn add_list(
    alloc: Global,
    found: &mut Vec<Value>,
    start: usize,
    end: usize,
) -> Result<(), AllocError>
    ensures { OnOk result (map view found.new.items
        ≡ map view found.old.items ++ folds (list_data start end) start end) }
{
    if start < end {
        found.push(json!(in alloc; {"startLine": start, "endLine": end})?)?;
    }
    Ok(())
}

/// Adds the fold of a run of comments, unless it is one line.
fn add_comment(
    alloc: Global,
    found: &mut Vec<Value>,
    start: usize,
    end: usize,
) -> Result<(), AllocError>
    ensures { OnOk result (map view found.new.items
        ≡ map view found.old.items ++ folds (comment_data start end) start end) }
{
    if start < end {
        found.push(json!(in alloc; {"startLine": start, "endLine": end, "kind": "comment"})?)?;
    }
    Ok(())
}
