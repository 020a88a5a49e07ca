//! The states of a session, and the server's action on each message.
//!
//! Messages are decoded first, so nothing here depends on JSON, texts or positions.

ghost use Rattle.std.specs.Prelude.{◌≡◌, ◌≢◌};
ghost use Rattle.isle_lsp_protocol.specs.Machine.{next_state, action_of};

/// The state of a session.
#[derive(Clone, Copy)]
pub enum State {
    /// Only `initialize` is answered.
    Fresh,
    /// Requests are answered.
    Running,
    /// `shutdown` has come: only `exit` may follow.
    ShutDown,
    /// `exit` has come after `shutdown`.
    Ended,
    /// `exit` has come before `shutdown`.
    Aborted,
}

/// The method of a request.
#[derive(Clone, Copy)]
pub enum Request {
    /// The capabilities of the server.
    Initialize,
    /// The end of the session.
    Shutdown,
    /// A request that is answered from an open document alone.
    Document(DocumentRequest),
    /// The definitions of a document.
    DocumentSymbol,
    /// The definitions of the workspace whose names match a query.
    WorkspaceSymbol,
    /// The definitions of a name.
    Definition,
    /// The rules, the extractor and the `extern` of a term.
    Implementation,
    /// The uses of a name.
    References,
    /// The uses of a name in its document.
    DocumentHighlight,
    /// The text that describes a name.
    Hover,
    /// The signature of the term that is called at a place.
    SignatureHelp,
    /// The names that complete a partly written one.
    Completion,
    /// The text that describes one of these names.
    ResolveCompletion,
    /// The range of a name that can be renamed.
    PrepareRename,
    /// The edits that rename a name.
    Rename,
    /// The types of variables, shown beside them.
    InlayHint,
    /// The edits that take care of a finding, or that expand an extractor.
    CodeAction,
    /// The term whose calls are asked about.
    PrepareCallHierarchy,
    /// The calls of a term.
    IncomingCalls,
    /// The calls that a term makes.
    OutgoingCalls,
    /// Any other method.
    Unknown,
}

/// The method of a request that is answered from the text of an open document, without the files on
/// disk.
#[derive(Clone, Copy)]
pub enum DocumentRequest {
    /// The edits that format the document.
    Formatting,
    /// The edits that format lines of the document.
    RangeFormatting,
    /// The edits that format a line after a character was typed.
    OnTypeFormatting,
    /// The parts of the document that can be folded.
    FoldingRange,
    /// The parts of the document that a selection grows to.
    SelectionRange,
    /// The tokens of the document, with their types.
    SemanticTokens,
    /// The tokens of a part of the document, with their types.
    SemanticTokensRange,
}

/// The method of a notification.
#[derive(Clone, Copy)]
pub enum Notification {
    /// The client has received the response to `initialize`.
    Initialized,
    /// The server is to exit.
    Exit,
    /// A document was opened.
    DidOpen,
    /// A document was changed.
    DidChange,
    /// A document was closed.
    DidClose,
    /// The folders of the workspace have changed.
    DidChangeWorkspaceFolders,
    /// Files that the client watches have changed.
    DidChangeWatchedFiles,
    /// Any other method, which the server ignores.
    Other,
}

/// A message from the client.
#[derive(Clone, Copy)]
pub enum Message {
    /// A request.
    Request(Request),
    /// A notification.
    Notification(Notification),
    /// A response, which is a message without a method. The server ignores it.
    Response,
    /// JSON that is not a message of the protocol, such as a batch.
    Invalid,
    /// Anything that is not JSON.
    Broken,
}

/// The code of an error response.
#[derive(Clone, Copy)]
pub enum ErrorCode {
    /// The message is not JSON: -32700.
    ParseError,
    /// The message is not expected in this state: -32600.
    InvalidRequest,
    /// The server does not have the method: -32601.
    MethodNotFound,
    /// The parameters are missing or invalid: -32602.
    InvalidParams,
    /// `initialize` has not come: -32002.
    ServerNotInitialized,
    /// The request cannot be fulfilled: -32803.
    RequestFailed,
}

/// The server's action on a message.
#[derive(Clone, Copy)]
pub enum Action {
    /// Ignore it.
    Ignore,
    /// Answer the request.
    Answer(Request),
    /// Reject the request.
    Reject(ErrorCode),
    /// Handle the notification.
    Handle(Notification),
}

/// The state after a message, and the server's action on the message.
pub fn step(state: State, message: Message) -> (State, Action)
    // Before `initialize` every other request is rejected, and nothing changes.
    ensures before { (request : _) → state ≡ State.Fresh → message ≡ Message.Request request
        → request ≢ Request.Initialize
        → (result.0 ≡ State.Fresh) × (result.1 ≡ Action.Reject ErrorCode.ServerNotInitialized) }
    // Only a session that runs handles notifications.
    ensures handles { (notification : _) → result.1 ≡ Action.Handle notification
        → state ≡ State.Running }
    // After `shutdown` every request is rejected.
    ensures after { (request : _) → state ≡ State.ShutDown → message ≡ Message.Request request
        → result.1 ≡ Action.Reject ErrorCode.InvalidRequest }
    // All of it.
    ensures state { result.0 ≡ next_state state message }
    ensures action { result.1 ≡ action_of state message }
{
    match (state, message) {
        (State::Ended | State::Aborted, _) => (state, Action::Ignore),
        (_, Message::Broken) => (state, Action::Reject(ErrorCode::ParseError)),
        (_, Message::Invalid) => (state, Action::Reject(ErrorCode::InvalidRequest)),
        (_, Message::Response) => (state, Action::Ignore),
        (State::ShutDown, Message::Notification(Notification::Exit)) => (
            State::Ended,
            Action::Ignore,
        ),
        (_, Message::Notification(Notification::Exit)) => (State::Aborted, Action::Ignore),
        (State::Running, Message::Notification(notification)) => (
            state,
            Action::Handle(notification),
        ),
        (_, Message::Notification(_)) => (state, Action::Ignore),
        (State::Fresh, Message::Request(Request::Initialize)) => {
            (State::Running, Action::Answer(Request::Initialize))
        }
        (State::Fresh, Message::Request(_)) => (
            state,
            Action::Reject(ErrorCode::ServerNotInitialized),
        ),
        (State::ShutDown, Message::Request(_)) => (
            state,
            Action::Reject(ErrorCode::InvalidRequest),
        ),
        (State::Running, Message::Request(Request::Initialize)) => {
            (state, Action::Reject(ErrorCode::InvalidRequest))
        }
        (State::Running, Message::Request(Request::Unknown)) => {
            (state, Action::Reject(ErrorCode::MethodNotFound))
        }
        (State::Running, Message::Request(Request::Shutdown)) => {
            (State::ShutDown, Action::Answer(Request::Shutdown))
        }
        (State::Running, Message::Request(request)) => (state, Action::Answer(request)),
    }
}
