//! A session answers the requests of a script. Some requests collect edits in a list, which another
//! request then makes.
ghost use Rattle.std.specs.Prelude.{◌≡◌, ◌++◌, ℕ, List, Option, None};
ghost use Rattle.std.specs.Prelude.{codes, decimal, true, IfOk};
ghost use Rattle.tangle_files.specs.declared.edits.Edit.{Edit as EditRead};
ghost use Rattle.tangle_script.specs.Endings.{ConversationEnds};
ghost use Rattle.tangle_script.specs.Requests.{is_edit};
ghost use Rattle.tangle_script.specs.Requests.Request.{Begin as begin_request};
ghost use Rattle.tangle_script.specs.Requests.Request.{Cancel as cancel_request};
ghost use Rattle.tangle_script.specs.Requests.Request.{Commit as commit_request};
ghost use Rattle.tangle_script.specs.Requests.Request.{Create as create, Discard as discard};
ghost use Rattle.tangle_script.specs.Requests.Request.{Insert as insert, Remove as remove};
ghost use Rattle.tangle_script.specs.Requests.Request.{Replace as replace};
ghost use Rattle.tangle_script.specs.Script.{IsAnswer, WritesAnswer, conversation};
ghost use Rattle.tangle_files.specs.Lines.{FileTable};
ghost use Rattle.tangle_files.specs.Roles.{RolesRead};
ghost use Rattle.tangle_session.specs.Headline.{Call, History, output_at};
ghost use Rattle.ctangle_cli.specs.Conversation.{HasError, answers, calls_of_conversation};
ghost use Rattle.ctangle_cli.specs.Conversation.{edit_line};
ghost use Rattle.ctangle_cli.specs.Conversation.{edit_number, list_line, listed_faults};
ghost use Rattle.ctangle_cli.specs.Conversation.{marks_request, request_for, session_and_draft};
ghost use Rattle.ctangle_cli.specs.Conversation.{shown};

use crate::messages::{is_error_among, name_of, say, write_faults};
use itoa::Buffer;
use std::alloc::{AllocError, Global};
use tangle_lines::{Edit, Fault, Feed, MarkMode, Refusal, Sink};
use tangle_script::{Project, Request, SinkFailed, run_script};
use tangle_session::{ListRefusal, Session};

// What happened to an edit that was not refused.
#[derive(Clone, Copy, Debug, PartialEq, Eq)]
enum Accepted {
    Made,
    Held,
}

// Writes the answer to an edit that is refused.
fn write_refusal<S: Sink>(name: &[u8], sink: &mut S) -> Result<(), SinkFailed>
    ensures { WritesAnswer (S.stream sink.old) (S.stream sink.new)
        (codes "no " ++ name.now ++ codes "\n") result }
{
    say(sink, &[b"no ", name, b"\n"])
}

fn write_edit_answer<S: Sink>(
    answer: Result<Accepted, Refusal>,
    sink: &mut S,
) -> Result<(), SinkFailed>
    ensures { WritesAnswer (S.stream sink.old) (S.stream sink.new) (edit_line answer) result }
{
    match answer {
        Ok(Accepted::Made) => say(sink, &[b"ok\n"]),
        Ok(Accepted::Held) => say(sink, &[b"held\n"]),
        Err(refusal) => write_refusal(name_of(refusal), sink),
    }
}

// The number, from 1, of the edit for which the list is refused; 0 where memory ran out.
fn edit_number(refused: ListRefusal) -> u128
    ensures { result ≡ edit_number refused }
{
    match refused.refusal {
        Refusal::NoMemory => 0,
        _ => refused.at as u128 + 1,
    }
}

fn write_list_answer<S: Sink>(done: Result<(), ListRefusal>, sink: &mut S) -> Result<(), SinkFailed>
    ensures { WritesAnswer (S.stream sink.old) (S.stream sink.new) (list_line done) result }
{
    match done {
        Ok(()) => say(sink, &[b"ok\n"]),
        Err(refused) => {
            let mut digits = Buffer::new();
            let number = digits.format(edit_number(refused)).as_bytes();
            say(
                sink,
                &[b"no ", name_of(refused.refusal), b" ", number, b"\n"],
            )
        }
    }
}

// Writes the output file of this name after a line with its size, or that there is none.
fn show<S: Sink>(session: &Session, name: &[u8], sink: &mut S) -> Result<(), SinkFailed>
    ensures { WritesAnswer (S.stream sink.old) (S.stream sink.new)
        (shown name.now (output_at session.now.files session.now.roles name.now)) result }
{
    let Some(size) = session.output_size(name) else {
        return say(sink, &[b"no NoOutput\n"]);
    };
    let mut digits = Buffer::new();
    say(
        sink,
        &[b"= ", name, b" ", digits.format(size).as_bytes(), b"\n"],
    )?;
    match session.write_output(name, sink) {
        Ok(_) => Ok(()),
        Err(_) => Err(SinkFailed),
    }
}

// Writes the number of faults, and their lines.
fn list_faults<S: Sink>(faults: &[Fault], sink: &mut S) -> Result<(), SinkFailed>
    ensures { WritesAnswer (S.stream sink.old) (S.stream sink.new)
        (listed_faults faults.now) result }
{
    let mut digits = Buffer::new();
    say(
        sink,
        &[b"faults ", digits.format(faults.len()).as_bytes(), b"\n"],
    )?;
    write_faults(faults, sink)
}

// Writes the number of nodes that were expanded last.
fn write_work<S: Sink>(work: u64, sink: &mut S) -> Result<(), SinkFailed>
    ensures { WritesAnswer (S.stream sink.old) (S.stream sink.new)
        (codes "work " ++ decimal work ++ codes "\n") result }
{
    let mut digits = Buffer::new();
    say(sink, &[b"work ", digits.format(work).as_bytes(), b"\n"])
}

fn insertion(alloc: Global, at: u32, file: &[u8], text: &[u8]) -> Result<Edit, AllocError>
    ensures { IfOk result (λ made. request_for made ≡ insert at file.now text.now) }
{
    let file = Vec::from_slice(alloc, file)?;
    let text = Vec::from_slice(alloc, text)?;
    let at = at as usize;
    Ok(Edit::Insert { file, at, text })
}

fn replacement(alloc: Global, at: u32, file: &[u8], text: &[u8]) -> Result<Edit, AllocError>
    ensures { IfOk result (λ made. request_for made ≡ replace at file.now text.now) }
{
    let file = Vec::from_slice(alloc, file)?;
    let text = Vec::from_slice(alloc, text)?;
    let at = at as usize;
    Ok(Edit::Replace { file, at, text })
}

fn removal(alloc: Global, at: u32, file: &[u8]) -> Result<Edit, AllocError>
    ensures { IfOk result (λ made. request_for made ≡ remove at file.now) }
{
    let file = Vec::from_slice(alloc, file)?;
    let at = at as usize;
    Ok(Edit::Remove { file, at })
}

fn creation(alloc: Global, file: &[u8]) -> Result<Edit, AllocError>
    ensures { IfOk result (λ made. request_for made ≡ create file.now) }
{
    let file = Vec::from_slice(alloc, file)?;
    Ok(Edit::Create { file })
}

fn discarding(alloc: Global, file: &[u8]) -> Result<Edit, AllocError>
    ensures { IfOk result (λ made. request_for made ≡ discard file.now) }
{
    let file = Vec::from_slice(alloc, file)?;
    Ok(Edit::Discard { file })
}

fn setting(mode: MarkMode) -> Result<Edit, AllocError>
    ensures { IfOk result (λ made. request_for made ≡ marks_request mode) }
{
    Ok(Edit::Marks { mode })
}

// Makes the edit that a request asks for or, while a list is open, holds it in the list. The edit
// is an error where there was no memory for its bytes.
fn make_or_hold(
    session: &mut Session,
    draft: &mut Option<Vec<Edit>>,
    edit: Result<Edit, AllocError>,
) -> Result<Accepted, Refusal>
    ensures { (request : _) → IfOk edit (λ made. request_for made ≡ request)
        → is_edit request ≡ true
        → IsAnswer answers (session_and_draft session.old draft.old) request (edit_line result)
        (session_and_draft session.new draft.new) }
{
    let edit = edit?;
    match draft {
        Some(held) => {
            held.push(edit)?;
            Ok(Accepted::Held)
        }
        None => {
            session.apply(&edit)?;
            Ok(Accepted::Made)
        }
    }
}

// Carries out a request for an edit, and writes the answer.
fn answer_edit<S: Sink>(
    session: &mut Session,
    draft: &mut Option<Vec<Edit>>,
    edit: Result<Edit, AllocError>,
    sink: &mut S,
) -> Result<(), SinkFailed>
    ensures { (request : _) → IfOk edit (λ made. request_for made ≡ request)
        → is_edit request ≡ true
        → (output : List ℕ)
        × IsAnswer answers (session_and_draft session.old draft.old) request output
        (session_and_draft session.new draft.new)
        × WritesAnswer (S.stream sink.old) (S.stream sink.new) output result }
{
    let answer = make_or_hold(session, draft, edit);
    write_edit_answer(answer, sink)
}

// Opens a list and writes the answer: a bad command where a list is open already.
fn begin<S: Sink>(
    alloc: Global,
    draft: &mut Option<Vec<Edit>>,
    sink: &mut S,
) -> Result<(), SinkFailed>
    ensures { (session : _) → (output : List ℕ)
        × answers (session_and_draft session draft.old) begin_request output
        (session_and_draft session draft.new)
        × WritesAnswer (S.stream sink.old) (S.stream sink.new) output result }
{
    match draft {
        Some(_) => say(sink, &[b"no BadCommand\n"]),
        None => {
            *draft = Some(Vec::new(alloc));
            say(sink, &[b"ok\n"])
        }
    }
}

// Drops the open list and writes the answer: a bad command where none is open.
fn cancel<S: Sink>(draft: &mut Option<Vec<Edit>>, sink: &mut S) -> Result<(), SinkFailed>
    ensures { (session : _) → (output : List ℕ)
        × answers (session_and_draft session draft.old) cancel_request output
        (session_and_draft session draft.new)
        × WritesAnswer (S.stream sink.old) (S.stream sink.new) output result }
{
    match draft {
        None => say(sink, &[b"no BadCommand\n"]),
        Some(_) => {
            *draft = None;
            say(sink, &[b"ok\n"])
        }
    }
}

// Makes all edits of the open list or none, closes the list, and writes the answer: a bad command
// where none is open.
fn commit<S: Sink>(
    session: &mut Session,
    draft: &mut Option<Vec<Edit>>,
    sink: &mut S,
) -> Result<(), SinkFailed>
    ensures { (output : List ℕ)
        × answers (session_and_draft session.old draft.old) commit_request output
        (session_and_draft session.new draft.new)
        × WritesAnswer (S.stream sink.old) (S.stream sink.new) output result }
{
    match draft.take() {
        None => say(sink, &[b"no BadCommand\n"]),
        Some(held) => {
            let done = session.apply_all(&held);
            write_list_answer(done, sink)
        }
    }
}

// The project that answers a script: a session, with the list of edits that is open.
struct SessionProject;

impl Project for SessionProject {
    type Session = Session;

    type Draft = Option<Vec<Edit>>;

    ghost use Rattle.ctangle_cli.specs.Conversation.{HasError, SessionAndDraft};
    ghost use Rattle.ctangle_cli.specs.Conversation.{answers, session_and_draft};

    ghost State = { SessionAndDraft };

    ghost state = { session_and_draft };

    ghost answers = { answers };

    ghost has_error = { HasError };

    fn answer<S: Sink>(
        alloc: Global,
        session: &mut Session,
        draft: &mut Option<Vec<Edit>>,
        request: &Request<'_>,
        sink: &mut S,
    ) -> Result<(), SinkFailed> {
        match request {
            Request::Insert { at, file, text } => {
                answer_edit(session, draft, insertion(alloc, *at, file, text), sink)
            }
            Request::Replace { at, file, text } => {
                answer_edit(session, draft, replacement(alloc, *at, file, text), sink)
            }
            Request::Remove { at, file } => {
                answer_edit(session, draft, removal(alloc, *at, file), sink)
            }
            Request::Create { file } => answer_edit(session, draft, creation(alloc, file), sink),
            Request::Discard { file } => answer_edit(session, draft, discarding(alloc, file), sink),
            Request::MarksFull => answer_edit(session, draft, setting(MarkMode::Full), sink),
            Request::MarksNone => answer_edit(session, draft, setting(MarkMode::Bare), sink),
            Request::Begin => begin(alloc, draft, sink),
            Request::Commit => commit(session, draft, sink),
            Request::Cancel => cancel(draft, sink),
            Request::Show { file } => show(session, file, sink),
            Request::Faults => list_faults(session.faults(), sink),
            Request::Work => write_work(session.last_work(), sink),
            Request::Quit => say(sink, &[b"ok\n"]),
            Request::BadCommand => say(sink, &[b"no BadCommand\n"]),
        }
    }

    fn has_error(session: &Session) -> bool {
        is_error_among(session.faults())
    }
}

/// Answers a script of edits and questions, and returns the status with which the program ends.
/// While a list of edits is open, edits are held, and questions are answered from the session
/// without them. A list that is still open at the end of the run is dropped. The edits that are
/// made go on with any history of the session: the calls of the answers come after its own.
///
/// The status is 0, or 1 where an error is among the faults at the end of the script. It is 3 where
/// the reader or the writer failed, the script is longer than `SCRIPT_LIMIT`, or memory ran out for
/// a command of more than 4,096 bytes.
pub fn run_retangle<R: Feed, S: Sink>(
    alloc: Global,
    session: &mut Session,
    feed: &mut R,
    sink: &mut S,
) -> u8
    ensures { (draft : Option (List EditRead)) × (ends : ConversationEnds answers HasError
        (conversation (record { session = session.old; draft = None })
        (S.stream sink.old) (R.remaining feed.old) (R.failures feed.old))
        (conversation (record { session = session.new; draft = draft })
        (S.stream sink.new) (R.remaining feed.new) (R.failures feed.new)) result)
        × ((files : FileTable) (roles : RolesRead) (calls : List Call)
        → History files roles calls session.old
        → History files roles (calls ++ calls_of_conversation ends) session.new) }
{
    let mut draft = None;
    run_script::<SessionProject, R, S>(alloc, session, &mut draft, feed, sink)
}
