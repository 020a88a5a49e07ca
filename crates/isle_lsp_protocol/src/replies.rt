//! Responses to requests: results and errors.

ghost use Rattle.std.specs.Prelude.{◌≡◌, IfOk, OnOk, option_map, string_bytes};
ghost use Rattle.serde_json.specs.Data.{number as numeral};
ghost use Rattle.serde_json.specs.Find.{of_integer};
ghost use Rattle.serde_json.specs.View.{number_view, view};
ghost use Rattle.isle_lsp_protocol.specs.Items.{list_data, listing_data};
ghost use Rattle.isle_lsp_protocol.specs.Replies as wanted;
ghost use Rattle.isle_lsp_protocol.specs.Replies.{IsReplyId, outcome_of};
ghost use Rattle.isle_lsp_protocol.specs.Written.{Adds};

use crate::items::{Item, Listing, plain_changes, put_list};
use crate::machine::ErrorCode;
use crate::writing::{into_text, put_text};
use json::Writer;
use serde_json::{Number, Value, json};
use std::alloc::{AllocError, Global};

/// The outcome of a request.
#[derive(Drop)]
pub enum Outcome<'a> {
    /// The result.
    Done(Value),
    /// The result, as a list.
    Listed(Listing<'a>),
    /// An error, with its message.
    Failed(ErrorCode, &'static str),
}

/// The outcome of a request that fails with the usual message of an error code.
pub fn error_outcome<'a>(code: ErrorCode) -> Outcome<'a>
    ensures { outcome_of result ≡ wanted.error_outcome code }
{
    Outcome::Failed(code, reason_of(code))
}

/// The `id` of the response to a message: the message's own, or null if it has none.
pub fn reply_id(message: &Option<Value>) -> Result<Value, AllocError>
    ensures same { IfOk result (λ id. view id ≡ wanted.reply_id (option_map view message.now)) }
    ensures kind { IfOk result (λ id. IsReplyId (view id)) }
{
    let id = match message {
        Some(message) => message.get("id"),
        None => None,
    };
    match id {
        Some(id) if id.is_string() || id.is_number() => id.clone(),
        _ => Ok(Value::Null),
    }
}

/// The text of the response with this outcome. The `id` is a string, a number or null.
pub fn reply(alloc: Global, id: Value, outcome: Outcome) -> Result<String, AllocError>
    ensures { IfOk result (λ text. IsReplyId (view id) → wanted.IsTextOf
        (wanted.reply (view id) (outcome_of outcome.entry)) (string_bytes text)) }
{
    match outcome {
        Outcome::Done(value) => response(alloc, id, value),
        Outcome::Listed(listing) => listing_response(alloc, &id, &listing),
        Outcome::Failed(code, reason) => error_response(alloc, id, code, reason),
    }
}

/// The text of a response with this result.
pub fn response(alloc: Global, id: Value, outcome: Value) -> Result<String, AllocError>
    ensures { IfOk result (λ text. wanted.IsTextOf (wanted.response (view id) (view outcome))
        (string_bytes text)) }
{
    let value = response_value(alloc, id, outcome)?;
    value.to_string(alloc)
}

fn response_value(alloc: Global, id: Value, outcome: Value) -> Result<Value, AllocError>
    ensures { IfOk result (λ value. view value ≡ wanted.response (view id) (view outcome)) }
{
    json!(in alloc; {"jsonrpc": "2.0", "id": id, "result": outcome})
}

/// The text of a response whose result is a list. The `id` is a string, a number or null.
pub fn listing_response(alloc: Global, id: &Value, listing: &Listing) -> Result<String, AllocError>
    ensures { IfOk result (λ text. IsReplyId (view id.now) → wanted.IsTextOf
        (wanted.response (view id.now) (listing_data listing.now)) (string_bytes text)) }
{
    match listing {
        Listing::Items(items) => list_response(alloc, id, items, false),
        Listing::Changes(items) => list_response(alloc, id, items, true),
        Listing::PlainChanges(items) => {
            let changes = plain_changes(alloc, items)?;
            response(alloc, id.clone()?, changes)
        }
    }
}

/// The text of a response whose result is written item by item.
fn list_response(
    alloc: Global,
    id: &Value,
    items: &[Item],
    are_changes: bool,
) -> Result<String, AllocError>
    ensures { IfOk result (λ text. IsReplyId (view id.now) → wanted.IsTextOf
        (wanted.response (view id.now) (list_data are_changes items.now)) (string_bytes text)) }
{
    let mut out = Writer::new(Vec::new(alloc));
    put_response(&mut out, id, items, are_changes)?;
    Ok(into_text(out))
}

fn put_response(
    out: &mut Writer,
    id: &Value,
    items: &[Item],
    are_changes: bool,
) -> Result<(), AllocError>
    ensures before { out.new.before ≡ out.old.before }
    ensures adds { OnOk result (IsReplyId (view id.now) → Adds (wanted.response (view id.now)
        (list_data are_changes items.now)) out.old.tokens out.new.tokens) }
{
    out.begin_object()?;
    out.key("id")?;
    put_id(out, id)?;
    put_text(out, "jsonrpc", "2.0")?;
    out.key("result")?;
    put_list(out, items, are_changes)?;
    out.end_object()
}

fn put_id(out: &mut Writer, id: &Value) -> Result<(), AllocError>
    ensures before { out.new.before ≡ out.old.before }
    ensures adds { OnOk result (IsReplyId (view id.now)
        → Adds (view id.now) out.old.tokens out.new.tokens) }
{
    match (id.as_str(), id.as_number()) {
        (Some(text), _) => out.string(text),
        (None, Some(number)) => put_number(out, number),
        (None, None) => out.null(),
    }
}

fn put_number(out: &mut Writer, number: &Number) -> Result<(), AllocError>
    ensures before { out.new.before ≡ out.old.before }
    ensures adds { OnOk result
        (Adds (numeral (number_view number.now)) out.old.tokens out.new.tokens) }
{
    match (number.as_u64(), number.as_i64()) {
        (Some(n), _) => out.u64(n),
        (None, Some(n)) => out.i64(n),
        (None, None) => out.float_with_plus(number.as_f64().unwrap_or(0.0)),
    }
}

/// The text of a response with this error and message.
pub fn error_response(
    alloc: Global,
    id: Value,
    code: ErrorCode,
    reason: &str,
) -> Result<String, AllocError>
    ensures { IfOk result (λ text. wanted.IsTextOf
        (wanted.error_response (view id) code reason.now) (string_bytes text)) }
{
    let value = error_value(alloc, id, code, reason)?;
    value.to_string(alloc)
}

fn error_value(alloc: Global, id: Value, code: ErrorCode, reason: &str) -> Result<Value, AllocError>
    ensures { IfOk result (λ value. view value ≡ wanted.error_response (view id) code reason.now) }
{
    let number = number_of(code);
    json!(in alloc; {"jsonrpc": "2.0", "id": id, "error": {"code": number, "message": reason}})
}

/// The protocol's number of an error code.
fn number_of(code: ErrorCode) -> i64
    ensures { of_integer result ≡ wanted.number_of code }
{
    match code {
        ErrorCode::ParseError => -32700,
        ErrorCode::InvalidRequest => -32600,
        ErrorCode::MethodNotFound => -32601,
        ErrorCode::InvalidParams => -32602,
        ErrorCode::ServerNotInitialized => -32002,
        ErrorCode::RequestFailed => -32803,
    }
}

/// The usual message of an error code.
pub fn reason_of(code: ErrorCode) -> &'static str
    ensures { result.now ≡ wanted.reason_of code }
{
    match code {
        ErrorCode::ParseError => "the message is not JSON",
        ErrorCode::InvalidRequest => "expected a single request",
        ErrorCode::MethodNotFound => "method not found",
        ErrorCode::InvalidParams => "missing or invalid parameters",
        ErrorCode::ServerNotInitialized => "the server is not initialized",
        ErrorCode::RequestFailed => "the request failed",
    }
}
