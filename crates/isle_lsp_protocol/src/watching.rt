//! The files that the client is to watch.

ghost use Rattle.std.specs.Prelude.{◌≡◌, IfOk, Some, string_bytes};
ghost use Rattle.serde_json.specs.Read.{read};
ghost use Rattle.isle_lsp_protocol.specs.Watching.{watch_request};

use std::alloc::{AllocError, Global};

/// The request to watch all files that a program can consist of, as JSON.
const WATCH_REQUEST: &str = "{\
    \"id\":\"isle-lsp/watch\",\
    \"jsonrpc\":\"2.0\",\
    \"method\":\"client/registerCapability\",\
    \"params\":{\"registrations\":[{\
    \"id\":\"isle-lsp/files\",\
    \"method\":\"workspace/didChangeWatchedFiles\",\
    \"registerOptions\":{\"watchers\":[\
    {\"globPattern\":\"**/*.isle\"},\
    {\"globPattern\":\"**/isle.toml\"}]}}]}}";

/// The text of the request that asks the client to watch files: all `.isle` files, and those that
/// say which files make a program. An `Err` means out of memory.
pub fn watch_request(alloc: Global) -> Result<String, AllocError>
    ensures { IfOk result (λ text. read (string_bytes text) ≡ Some watch_request) }
{
    String::from_str(alloc, WATCH_REQUEST)
}
