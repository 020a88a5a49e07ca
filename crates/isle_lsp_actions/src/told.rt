//! What a request for code actions tells.

ghost use Rattle.std.specs.Prelude.{◌≡◌, codes, option_and_then, option_map};
ghost use Rattle.serde_json.specs.Find.{as_array, pointer};
ghost use Rattle.serde_json.specs.View.{items_view, view};
ghost use Rattle.isle_lsp_actions.specs.Told as wanted;

use isle_lint_core::Lint;
use isle_lsp_protocol::parameters::position_in;
use isle_lsp_text::positions::{Position, PositionEncoding, offset_of};
use serde_json::Value;

/// The source of the diagnostics of lints.
const SOURCE: &str = "isle";

/// What a diagnostic of a lint tells about a text.
#[derive(Clone, Copy)]
pub struct Told {
    /// The lint.
    pub lint: Lint,
    /// The byte offset at which its range begins.
    pub from: usize,
    /// The byte offset at which its range ends.
    pub to: usize,
}

/// What a diagnostic tells about a text, or `None` if it is not one of a lint.
pub fn told_in(encoding: PositionEncoding, text: &str, diagnostic: &Value) -> Option<Told>
    ensures { result ≡ wanted.told_in encoding text.now (view diagnostic.now) }
{
    if !is_text(SOURCE, text_in(diagnostic, "source")) {
        return None;
    }
    let lint = lint_in(diagnostic)?;
    let start = position_at(diagnostic, "/range/start")?;
    let end = position_at(diagnostic, "/range/end")?;
    let from = offset_of(encoding, text, start);
    let to = offset_of(encoding, text, end);
    Some(Told { lint, from, to })
}

/// Returns whether there is a text, and it is this one.
fn is_text(text: &str, other: Option<&str>) -> bool
    ensures { result ≡ wanted.is_text text.now (option_map (λ t. t.now) other.entry) }
{
    match other {
        Some(other) => other == text,
        None => false,
    }
}

fn text_in<'a>(value: &'a Value, key: &str) -> Option<&'a str>
    ensures { option_map (λ text. text.now) result ≡ wanted.text_in key.now (view value.now) }
{
    value.get(key).and_then(Value::as_str)
}

/// The lint that a diagnostic names.
fn lint_in(diagnostic: &Value) -> Option<Lint>
    ensures { result ≡ option_and_then wanted.lint_named
        (wanted.text_in (codes "code") (view diagnostic.now)) }
{
    Lint::named(text_in(diagnostic, "code")?)
}

/// The position at this place of a value.
fn position_at(value: &Value, path: &str) -> Option<Position>
    ensures { result ≡ wanted.position_at path.now (view value.now) }
{
    position_in(value.pointer(path)?)
}

/// The diagnostics that the client shows at the place of the request.
pub fn diagnostics_in(message: &Value) -> &[Value]
    ensures { items_view result.now ≡ wanted.diagnostics_in (view message.now) }
{
    match array_at(message, "/params/context/diagnostics") {
        Some(diagnostics) => diagnostics,
        None => &[],
    }
}

fn array_at<'a>(message: &'a Value, path: &str) -> Option<&'a [Value]>
    ensures { option_map (λ items. items_view items.now) result
        ≡ option_and_then as_array (pointer path.now (view message.now)) }
{
    match message.pointer(path).and_then(Value::as_array) {
        Some(items) => Some(items.as_slice()),
        None => None,
    }
}

/// Returns whether a request wants quick fixes, as it does if it names no kinds that it wants only.
pub fn wants_fixes(message: &Value) -> bool
    ensures { result ≡ wanted.wants_fixes (view message.now) }
{
    match kinds_in(message) {
        Some(kinds) => has_kind_of_fixes(kinds),
        None => true,
    }
}

/// The kinds that a request wants only.
fn kinds_in(message: &Value) -> Option<&[Value]>
    ensures { option_map (λ items. items_view items.now) result
        ≡ wanted.kinds_in (view message.now) }
{
    array_at(message, "/params/context/only")
}

fn has_kind_of_fixes(kinds: &[Value]) -> bool
    ensures { result ≡ wanted.has_kind_of_fixes (items_view kinds.now) }
{
    for kind in kinds {
        if is_kind_of_fixes(kind) {
            return true;
        }
    }
    false
}

/// Returns whether quick fixes are of a kind: their own, or the empty one, which all are of.
fn is_kind_of_fixes(kind: &Value) -> bool
    ensures { result ≡ wanted.is_kind_of_fixes (view kind.now) }
{
    is_text("quickfix", kind.as_str()) || is_text("", kind.as_str())
}

/// Returns whether a request wants actions that put in place of a use what it stands for.
pub fn wants_inlining(message: &Value) -> bool
    ensures { result ≡ wanted.wants_inlining (view message.now) }
{
    match kinds_in(message) {
        Some(kinds) => has_kind_of_inlining(kinds),
        None => true,
    }
}

fn has_kind_of_inlining(kinds: &[Value]) -> bool
    ensures { result ≡ wanted.has_kind_of_inlining (items_view kinds.now) }
{
    for kind in kinds {
        if is_kind_of_inlining(kind) {
            return true;
        }
    }
    false
}

/// Returns whether these actions are of a kind: their own, or one that it is a kind of.
fn is_kind_of_inlining(kind: &Value) -> bool
    ensures { result ≡ wanted.is_kind_of_inlining (view kind.now) }
{
    is_text("refactor.inline", kind.as_str())
        || is_text("refactor", kind.as_str())
        || is_text("", kind.as_str())
}

/// The byte offset at which the range of a request begins.
pub fn asked_at(encoding: PositionEncoding, text: &str, message: &Value) -> Option<usize>
    ensures { result ≡ wanted.asked_at encoding text.now (view message.now) }
{
    match position_at(message, "/params/range/start") {
        Some(start) => Some(offset_of(encoding, text, start)),
        None => None,
    }
}
