//! A quick check that a text has a document. It makes no error message.

ghost use Rattle.std.specs.Prelude.{◌≡◌, ◌≤◌, ◌+◌, ◌∷◌, IfSome, List, drop, length, true};
ghost use Rattle.std.specs.List.{prefix_len};
ghost use Rattle.isle_base.specs.Skips.{is_blank};
ghost use Rattle.isle_tidy_core.specs.Grammar.{matches};
ghost use Rattle.isle_tidy_core.specs.Refused.{HasDocument};
ghost use Rattle.isle_tidy_layout.specs.Entries.{Lexeme as LexemeNode};
ghost use Rattle.isle_tidy_layout.specs.EntriesView.{lexeme_of};

use crate::lexemes::lexeme_at;
use crate::reader::blanks_end;
use isle_tidy_layout::entries::Lexeme;

/// Returns how many lists are open after a lexeme, if `depth` are open before it. Returns `None` at
/// a `)` without its `(`.
#[inline(always)]
fn depth_after(depth: usize, lexeme: &Lexeme) -> Option<usize>
    ensures { IfSome result (λ after. (xs : List LexemeNode)
        → matches depth (lexeme_of lexeme.now ∷ xs) ≡ matches after xs) }
{
    match lexeme {
        Lexeme::Opening => depth.checked_add(1),
        Lexeme::Closing => depth.checked_sub(1),
        _ => Some(depth),
    }
}

/// Finds the first byte at or after `from` that is not a blank, or the end. Most runs of blanks are
/// one space, so that is tried first.
#[inline(always)]
fn start_at(bytes: &[u8], from: usize) -> usize
    requires { from ≤ length bytes.now }
    ensures end { result ≡ from + prefix_len is_blank (drop from bytes.now) }
    ensures within { result ≤ length bytes.now }
{
    if from + 1 < bytes.len() {
        if bytes[from] > b' ' {
            return from;
        }
        if bytes[from] == b' ' && bytes[from + 1] > b' ' {
            return from + 1;
        }
    }
    blanks_end(bytes, from)
}

/// Returns `true` only if a text has a document. After `false`, call `check_parentheses` for the
/// error.
pub(crate) fn has_document(text: &str) -> bool
    ensures { result ≡ true → HasDocument text.now }
{
    let mut at = 0;
    let mut depth: usize = 0;
    loop {
        let start = start_at(text.as_bytes(), at);
        if start == text.len() {
            return depth == 0;
        }
        let Some((lexeme, end)) = lexeme_at(text, start) else {
            return false;
        };
        let Some(after) = depth_after(depth, &lexeme) else {
            return false;
        };
        depth = after;
        at = end;
    }
}
