//! What the server can do, as it tells the client when a session begins.

ghost use Rattle.std.specs.Prelude.{◌≡◌, IfErr, IfOk, Some};
ghost use Rattle.serde_json.specs.Read.{read};
ghost use Rattle.serde_json.specs.View.{view};
ghost use Rattle.isle_cli.specs.declared.failure.Failure.TheVariants.{Memory};
ghost use Rattle.isle_lsp_protocol.specs.Capabilities.{initialize_result};

use isle_cli::failure::Failure;
use isle_lsp_text::positions::PositionEncoding;
use serde_json::Value;
use std::alloc::Global;

/// The result of `initialize` as JSON, with an encoding of positions.
macro_rules! initialize_result {
    ($encoding:literal) => {
        concat!(
            "{\
            \"capabilities\":{\
            \"callHierarchyProvider\":true,\
            \"codeActionProvider\":{\"codeActionKinds\":[\"quickfix\",\"refactor.inline\"]},\
            \"completionProvider\":{\"resolveProvider\":true,\"triggerCharacters\":[\".\",\"$\"]},\
            \"definitionProvider\":true,\
            \"documentFormattingProvider\":true,\
            \"documentHighlightProvider\":true,\
            \"documentOnTypeFormattingProvider\":{\"firstTriggerCharacter\":\")\",\
            \"moreTriggerCharacter\":[\"\\n\"]},\
            \"documentRangeFormattingProvider\":true,\
            \"documentSymbolProvider\":true,\
            \"foldingRangeProvider\":true,\
            \"hoverProvider\":true,\
            \"implementationProvider\":true,\
            \"inlayHintProvider\":true,\
            \"positionEncoding\":\"",
            $encoding,
            "\",\
            \"referencesProvider\":true,\
            \"renameProvider\":{\"prepareProvider\":true},\
            \"selectionRangeProvider\":true,\
            \"semanticTokensProvider\":{\"full\":true,\"legend\":{\
            \"tokenModifiers\":[\"declaration\",\"readonly\"],\
            \"tokenTypes\":[\"keyword\",\"type\",\"enumMember\",\"function\",\"variable\",\
            \"parameter\",\"number\"]},\"range\":true},\
            \"signatureHelpProvider\":{\"triggerCharacters\":[\" \",\"(\"]},\
            \"textDocumentSync\":{\"change\":2,\"openClose\":true},\
            \"workspace\":{\"workspaceFolders\":{\"changeNotifications\":true,\"supported\":true}},\
            \"workspaceSymbolProvider\":true},\
            \"serverInfo\":{\"name\":\"isle-lsp\",\"version\":\"0.137.1\"}}"
        )
    };
}

/// The result if positions count bytes.
const UTF8_RESULT: &str = initialize_result!("utf-8");

/// The result if they count units of UTF-16.
const UTF16_RESULT: &str = initialize_result!("utf-16");

/// The result of `initialize`: what the server can do, the encoding of positions among it, and its
/// name and version. The only error is `Memory`.
pub fn initialize_result(alloc: Global, encoding: PositionEncoding) -> Result<Value, Failure>
    ensures ok { IfOk result (λ value. view value ≡ initialize_result encoding) }
    ensures err { IfErr result (λ failure. failure ≡ Memory) }
{
    match encoding {
        PositionEncoding::Utf8 => parsed(alloc, UTF8_RESULT),
        PositionEncoding::Utf16 => parsed(alloc, UTF16_RESULT),
    }
}

/// The value of a text that is JSON. The only error is `Memory`.
fn parsed(alloc: Global, text: &str) -> Result<Value, Failure>
    ensures ok { IfOk result (λ value. read text.now ≡ Some (view value)) }
    ensures err { IfErr result (λ failure. failure ≡ Memory) }
{
    match Value::from_str(alloc, text) {
        Ok(value) => Ok(value),
        Err(_) => Err(Failure::Memory),
    }
}
