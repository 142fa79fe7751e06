//! Runs a script: each command is answered before more of the script is read.
ghost use Rattle.std.specs.Prelude.{◌≡◌, ◌≤◌, length, take, OnOk};
ghost use Rattle.tangle_script.specs.Buffer.{bytes};
ghost use Rattle.tangle_script.specs.Commands.{OnlyWaits, ended_commands, pending};
ghost use Rattle.tangle_script.specs.Script.{exchange, conversation};
ghost use Rattle.tangle_script.specs.Endings.{IsStatus, ConversationEnds};
ghost use Rattle.tangle_script.specs.NothingRead.{Status3NeedsFailure};
ghost use Rattle.tangle_script.specs.Short.{ShortNeedsNoMemory};
ghost use Rattle.tangle_script.specs.Turns.{EndsPart, EndsBy};

use crate::answering::{End, answer_all, answer_last};
use crate::buffer::{Buffer, CHUNK};
use crate::commands::ends_a_line;
use crate::project::Project;
use std::alloc::Global;
use tangle_streams::{Feed, Sink};

/// The most bytes that a script may have.
pub const SCRIPT_LIMIT: usize = 67_108_864;

// Answers the commands that have ended in the buffer, and drops their bytes. None of them ends in
// the first `searched` bytes, which are searched again only where a line feed comes after them; so
// a long line costs no more than its length.
fn answer_chunk<P: Project, S: Sink>(
    alloc: Global,
    session: &mut P::Session,
    draft: &mut P::Draft,
    buffer: &mut Buffer,
    searched: usize,
    sink: &mut S,
) -> Result<(), End>
    requires within { searched ≤ length (bytes buffer.old) }
    requires waits { OnlyWaits (take searched (bytes buffer.old)) }
    ensures answered { EndsPart P.answers result
        (exchange (P.state session.old draft.old) (S.stream sink.old))
        (exchange (P.state session.new draft.new) (S.stream sink.new))
        (ended_commands (bytes buffer.old)) }
    ensures pending { OnOk result (bytes buffer.new ≡ pending (bytes buffer.old)) }
{
    if !ends_a_line(&buffer.as_slice()[searched..]) {
        return Ok(());
    }
    let used = answer_all::<P, S>(alloc, session, draft, buffer.as_slice(), sink)?;
    buffer.discard(used);
    Ok(())
}

// Reads the script to its end, and answers the commands that have ended after each chunk.
fn read_script<P: Project, R: Feed, S: Sink>(
    alloc: Global,
    session: &mut P::Session,
    draft: &mut P::Draft,
    feed: &mut R,
    sink: &mut S,
) -> End
    ensures { EndsBy P.answers P.has_error result
        (conversation (P.state session.old draft.old) (S.stream sink.old)
        (R.remaining feed.old) (R.failures feed.old))
        (conversation (P.state session.new draft.new) (S.stream sink.new)
        (R.remaining feed.new) (R.failures feed.new)) }
{
    let mut buffer = Buffer::new(alloc);
    let mut count = 0;
    while count <= SCRIPT_LIMIT {
        if let Err(_) = buffer.make_space() {
            return End::Failed;
        }
        let searched = buffer.as_slice().len();
        // At the limit, one byte shows that the script is longer.
        let given = match buffer.read(feed, CHUNK.min(SCRIPT_LIMIT - count).max(1)) {
            Some(given) => given,
            None => return End::Failed,
        };
        if given == 0 {
            return answer_last::<P, S>(alloc, session, draft, buffer.as_slice(), sink);
        }
        if count == SCRIPT_LIMIT {
            return End::Failed;
        }
        if let Err(end) = answer_chunk::<P, S>(alloc, session, draft, &mut buffer, searched, sink) {
            return end;
        }
        count += given;
    }
    End::Failed
}

fn status_at_end<P: Project>(session: &P::Session) -> u8
    ensures { (draft : P.Draft) → IsStatus P.has_error (P.state session.now draft) result }
{
    if P::has_error(session) { 1 } else { 0 }
}

/// Answers a script. Returns the status of the run: 1 where an error is among the faults at its
/// end, else 0. The status is 3 where the reader or the writer failed, the script is longer than
/// [`SCRIPT_LIMIT`], or memory ran out for a command of more than 4,096 bytes.
pub fn run_script<P: Project, R: Feed, S: Sink>(
    alloc: Global,
    session: &mut P::Session,
    draft: &mut P::Draft,
    feed: &mut R,
    sink: &mut S,
) -> u8
    ensures { ConversationEnds P.answers P.has_error
        (conversation (P.state session.old draft.old) (S.stream sink.old)
        (R.remaining feed.old) (R.failures feed.old))
        (conversation (P.state session.new draft.new) (S.stream sink.new)
        (R.remaining feed.new) (R.failures feed.new))
        result }
{
    match read_script::<P, R, S>(alloc, session, draft, feed, sink) {
        End::Done => status_at_end::<P>(session),
        End::Failed => 3,
    }
}

/// A run in which no byte of the script was read and neither the reader nor the writer failed does
/// not end with status 3. So the contract refuses a body that always returns 3.
pub fn status_3_needs_a_failure<P: Project>()
    ensures { Status3NeedsFailure P.answers P.has_error }
{}

/// If each command of a script has at most 4,096 bytes, with a line feed after its line and one
/// after its text, a run allocates nothing of its own. It ends with status 3 only where the reader
/// or the writer failed, or the script is longer than [`SCRIPT_LIMIT`].
pub fn short_commands_need_no_memory<P: Project>()
    ensures { ShortNeedsNoMemory P.answers P.has_error }
{}
