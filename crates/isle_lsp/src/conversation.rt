//! The main loop of a session with an editor, over any reader and any two writers.

ghost use Rattle.std.specs.Prelude.{◌≡◌, ◌≢◌, ◌⊎◌, ◌≤◌, ℕ, IfErr, IfOk, List, OnErr, OnOk, Some};
ghost use Rattle.std.specs.Prelude.{map, option_map, string_bytes};
ghost use Rattle.std.specs.Io.KnownBytes.{Appends, Keeps};
ghost use Rattle.serde_json.specs.View.{view};
ghost use Rattle.isle_cli.specs.declared.failure.Failure.TheVariants.{Memory, Output, Usage};
ghost use Rattle.isle_cli.specs.Streams.{AppendsBeginning, WritesBeginning};
ghost use Rattle.isle_lsp.specs.CommandLine.{IsFailureText};
ghost use Rattle.isle_lsp.specs.Conversations.{AnswersAs, AnswersWithin, Converses, EndsAs};
ghost use Rattle.isle_lsp.specs.Conversations.{Explains, FromFault, IsEarly, IsOver, IsRefusal};
ghost use Rattle.isle_lsp.specs.Conversations.{Ran, ShowsWithin, StopsAt, World, frames};
ghost use Rattle.isle_lsp.specs.Conversations.{has_exited};
ghost use Rattle.isle_lsp_files.specs.Disks.{Moment, view_of};
ghost use Rattle.isle_lsp.specs.Serving.{asked, asked_first, held_of, named_uri};

use crate::program::PROGRAM;
use crate::server::{Kept, Server, note, perform};
use isle_cli::failure::Failure;
use isle_cli::program::report;
use isle_lsp_files::disk::{Disk, View};
use isle_lsp_frames::{FrameFault, read_frame, write_frame};
use isle_lsp_protocol::decoding::{decode, message_in};
use isle_lsp_protocol::machine::{Action, Notification, Request, State, step};
use isle_lsp_protocol::parameters::uri_of;
use serde_json::Value;
use std::alloc::{AllocError, Global};
use std::io::{BufRead, Write};

/// Runs the session until `exit` or the end of the input, and returns the exit status: 0, 1, 3, 4
/// or 5. Standard error gets the message of the status, if any.
pub fn converse<D: Disk, I: BufRead, W: Write, E: Write>(
    alloc: Global,
    disk: &mut D,
    input: &mut I,
    output: &mut W,
    faults: &mut E,
) -> u8
    ensures statuses { result ≤ 5 }
    ensures no_usage { result ≢ 2 }
    ensures told { (world : World) → I.remaining input.old ≡ Some world.bytes
        → D.moments disk.old ≡ Some world.moments → Converses world result
        (I.remaining input.new) (W.contents output.old) (W.contents output.new) }
    ensures quiet { result ≡ 0 → Keeps (E.contents faults.old) (E.contents faults.new) }
    ensures reason { 2 ≤ result → WritesBeginning (E.contents faults.old)
        (E.contents faults.new) (IsFailureText result) }
{
    match main_loop(alloc, disk, input, output) {
        Ok(state) => end_status(alloc, state, faults),
        Err(failure) => report(&PROGRAM, &failure, faults),
    }
}

/// The exit status of a session that ended in this state.
fn end_status<E: Write>(alloc: Global, state: State, faults: &mut E) -> u8
    ensures statuses { result ≤ 5 }
    ensures no_usage { result ≢ 2 }
    ensures state { EndsAs state result }
    ensures quiet { result ≡ 0 → Keeps (E.contents faults.old) (E.contents faults.new) }
    ensures reason { 2 ≤ result → WritesBeginning (E.contents faults.old)
        (E.contents faults.new) (IsFailureText result) }
{
    match state {
        State::Ended => 0,
        State::Aborted => 1,
        State::Fresh | State::Running | State::ShutDown => report_end(alloc, faults),
    }
}

/// Reports that the input ends before `exit`, and returns the exit status.
fn report_end<E: Write>(alloc: Global, faults: &mut E) -> u8
    ensures statuses { result ≤ 5 }
    ensures no_usage { result ≢ 2 }
    ensures early { IsEarly result }
    ensures quiet { result ≡ 0 → Keeps (E.contents faults.old) (E.contents faults.new) }
    ensures reason { 2 ≤ result → WritesBeginning (E.contents faults.old)
        (E.contents faults.new) (IsFailureText result) }
{
    report(
        &PROGRAM,
        &refusal(alloc, "the input ends before `exit`"),
        faults,
    )
}

/// Answers one message after another, until `exit` or the end of the input.
fn main_loop<D: Disk, I: BufRead, W: Write>(
    alloc: Global,
    disk: &mut D,
    input: &mut I,
    output: &mut W,
) -> Result<State, Failure>
    ensures ok { (world : World) → I.remaining input.old ≡ Some world.bytes
        → D.moments disk.old ≡ Some world.moments → IfOk result (λ state. Ran world state
        (I.remaining input.new) (W.contents output.old) (W.contents output.new)) }
    ensures over { (world : World) → I.remaining input.old ≡ Some world.bytes
        → D.moments disk.old ≡ Some world.moments
        → IfOk result (λ state. IsOver state (I.remaining input.new)) }
    ensures err { (world : World) → I.remaining input.old ≡ Some world.bytes
        → D.moments disk.old ≡ Some world.moments
        → IfErr result (λ failure. Explains failure world
        (W.contents output.old) (W.contents output.new)) }
    ensures kind { IfErr result (λ failure. failure ≢ Usage) }
{
    let mut server = Server::new(alloc);
    let mut kept = Kept::new(alloc);
    for _ in 0..u64::MAX {
        let body = match read_frame(alloc, input) {
            Ok(Some(body)) => body,
            Ok(None) => return Ok(server.state),
            Err(fault) => return Err(failure_of(alloc, fault)),
        };
        answer_message(alloc, disk, &mut server, &mut kept, body, output)?;
        if has_exited(server.state) {
            return Ok(server.state);
        }
    }
    Err(Failure::Input)
}

/// Returns whether `exit` has come.
fn has_exited(state: State) -> bool
    ensures { result ≡ has_exited state }
{
    match state {
        State::Fresh | State::Running | State::ShutDown => false,
        State::Ended | State::Aborted => true,
    }
}

/// Handles a message, and writes what it sends.
fn answer_message<D: Disk, W: Write>(
    alloc: Global,
    disk: &mut D,
    server: &mut Server,
    kept: &mut Kept,
    body: Vec<u8>,
    output: &mut W,
) -> Result<(), Failure>
    ensures ok { (moments : List Moment) → D.moments disk.old ≡ Some moments
        → OnOk result (AnswersAs (held_of server.old) moments body.items (held_of server.new)
        (D.moments disk.new) (W.contents output.old) (W.contents output.new)) }
    ensures err { (moments : List Moment) → D.moments disk.old ≡ Some moments
        → OnErr result (StopsAt (held_of server.old) moments body.items
        (W.contents output.old) (W.contents output.new)) }
    ensures kind { IfErr result (λ failure. (failure ≡ Memory) ⊎ (failure ≡ Output)) }
{
    let sent = handle_message(alloc, disk, server, kept, body)?;
    write_frames(alloc, output, &sent)
}

/// Writes messages, each with its header.
fn write_frames<W: Write>(alloc: Global, output: &mut W, texts: &[String]) -> Result<(), Failure>
    ensures ok { OnOk result (Appends (W.contents output.old) (W.contents output.new)
        (frames (map string_bytes texts.now))) }
    ensures part { OnErr result (AppendsBeginning (W.contents output.old)
        (W.contents output.new) (frames (map string_bytes texts.now))) }
    ensures kind { IfErr result (λ failure. (failure ≡ Memory) ⊎ (failure ≡ Output)) }
{
    for text in texts {
        write_frame(alloc, output, text.as_bytes())?;
    }
    Ok(())
}

/// Handles a message, and returns the texts to send.
fn handle_message<D: Disk>(
    alloc: Global,
    disk: &mut D,
    server: &mut Server,
    kept: &mut Kept,
    body: Vec<u8>,
) -> Result<Vec<String>, Failure>
    ensures ok { (moments : List Moment) → D.moments disk.old ≡ Some moments
        → IfOk result (λ sent. AnswersWithin (held_of server.old) moments body.items
        (held_of server.new) (D.moments disk.new) (map string_bytes sent.items)) }
    ensures err { IfErr result (λ failure. failure ≡ Memory) }
{
    let message = decode(alloc, body.as_slice())?;
    drop(body);
    let (state, action) = step(server.state, message_in(&message));
    let opened = opened_view(alloc, disk, action, &message)?;
    server.state = state;
    note(alloc, server, action, &message, &opened)?;
    let shown = view_for(alloc, disk, server, action, &message)?;
    perform(alloc, server, kept, action, &message, &shown)
}

/// What the disk shows of a document that an action opens: which file it is. It is not looked at
/// for another action.
fn opened_view<D: Disk>(
    alloc: Global,
    disk: &mut D,
    action: Action,
    message: &Option<Value>,
) -> Result<View, AllocError>
    ensures { (moments : List Moment) → D.moments disk.old ≡ Some moments
        → IfOk result (λ shown. ShowsWithin (asked_first action (option_map view message.now))
        moments (D.moments disk.new) (view_of shown)) }
{
    match action {
        Action::Handle(Notification::DidOpen) => disk.look(alloc, &[], &[], named_uri(message)),
        _ => Ok(View::nothing(alloc)),
    }
}

/// What the disk shows of what a noted action needs to be performed. It is not looked at if the
/// action needs nothing.
fn view_for<D: Disk>(
    alloc: Global,
    disk: &mut D,
    server: &Server,
    action: Action,
    message: &Option<Value>,
) -> Result<View, AllocError>
    ensures { (moments : List Moment) → D.moments disk.old ≡ Some moments
        → IfOk result (λ shown. ShowsWithin (asked action (option_map view message.now)
        (held_of server.now)) moments (D.moments disk.new) (view_of shown)) }
{
    let uri = named_uri(message);
    match action {
        Action::Answer(
            Request::Initialize | Request::Shutdown | Request::Document(_) | Request::Unknown,
        ) => Ok(View::nothing(alloc)),
        Action::Answer(_) => disk.look(alloc, &server.folders, &server.documents, uri),
        Action::Handle(Notification::DidOpen | Notification::DidChange | Notification::DidClose) =>
            disk.look(alloc, &server.folders, &server.documents, uri),
        Action::Handle(
            Notification::DidChangeWorkspaceFolders | Notification::DidChangeWatchedFiles,
        ) => disk.look(alloc, &server.folders, &server.documents, uri),
        _ => Ok(View::nothing(alloc)),
    }
}

/// The URI of the document that a message names, or nothing if it names none.
fn named_uri(message: &Option<Value>) -> &str
    ensures { result.now ≡ named_uri (option_map view message.now) }
{
    match message {
        Some(message) => uri_of(message).unwrap_or(""),
        None => "",
    }
}

/// The failure of a session at a message that cannot be read.
fn failure_of(alloc: Global, fault: FrameFault) -> Failure
    ensures { FromFault fault result }
{
    match fault {
        FrameFault::Malformed => refusal(alloc, "malformed header"),
        FrameFault::Cut => refusal(alloc, "the input ends inside a message"),
        FrameFault::TooLong => refusal(alloc, "a message is longer than 64 MiB"),
        FrameFault::Unreadable => Failure::Input,
        FrameFault::Memory => Failure::Memory,
    }
}

/// The failure of a session whose input does not follow the protocol.
fn refusal(alloc: Global, reason: &str) -> Failure
    ensures { IsRefusal result }
{
    match format!(in alloc; "{}: {reason}\n", PROGRAM.name) {
        Ok(text) => Failure::Refused(text),
        Err(_) => Failure::Memory,
    }
}
