//! Answers the commands in a part of a script.
ghost use Rattle.std.specs.Prelude.{◌≡◌, ◌≤◌, drop, length, IfOk};
ghost use Rattle.std.specs.Option.{option_copied};
ghost use Rattle.tangle_script.specs.Commands.{OnlyWaits, all_commands, ended_commands};
ghost use Rattle.tangle_script.specs.Commands.{found_commands, is_no_command, pending};
ghost use Rattle.tangle_script.specs.Script.{exchange};
ghost use Rattle.tangle_script.specs.Turns.{EndsPart, EndsScript};

use crate::commands::{first_command, last_command};
use crate::project::Project;
use crate::request::parse;
use std::alloc::Global;
use tangle_streams::Sink;

/// Why a run ends.
#[derive(Clone, Copy, Debug, PartialEq, Eq)]
pub enum End {
    /// A `quit` was answered, or the script came to its end.
    Done,
    /// The reader or the writer failed, or memory ran out.
    Failed,
}

fn is_no_command(line: &[u8], text: Option<&[u8]>) -> bool
    ensures { result ≡ is_no_command line.now (option_copied text.entry) }
{
    match text {
        Some(_) => false,
        None => line.is_empty(),
    }
}

// Answers a line with its text. `Err` says that the run ends at it. An empty line is no command.
#[tactic(auto, using(crate::proofs::ConversationLemmas::line_answers))]
fn answer_line<P: Project, S: Sink>(
    alloc: Global,
    session: &mut P::Session,
    draft: &mut P::Draft,
    line: &[u8],
    text: Option<&[u8]>,
    sink: &mut S,
) -> Result<(), End>
    ensures { EndsPart P.answers result
        (exchange (P.state session.old draft.old) (S.stream sink.old))
        (exchange (P.state session.new draft.new) (S.stream sink.new))
        (found_commands line.now (option_copied text.entry)) }
{
    if is_no_command(line, text) {
        return Ok(());
    }
    let request = parse(line, text);
    match P::answer(alloc, session, draft, &request, sink) {
        Ok(_) if request.is_quit() => Err(End::Done),
        Ok(_) => Ok(()),
        Err(_) => Err(End::Failed),
    }
}

/// Answers the commands that have ended in these bytes. Returns the number of their bytes.
///
/// # Errors
///
/// `End::Done` where one of them is `quit`, which is answered; `End::Failed` where the sink failed
/// before it took all of an answer.
#[tactic(auto, using(crate::proofs::ConversationLemmas::commands_under))]
pub fn answer_all<P: Project, S: Sink>(
    alloc: Global,
    session: &mut P::Session,
    draft: &mut P::Draft,
    bytes: &[u8],
    sink: &mut S,
) -> Result<usize, End>
    ensures answered { EndsPart P.answers result
        (exchange (P.state session.old draft.old) (S.stream sink.old))
        (exchange (P.state session.new draft.new) (S.stream sink.new))
        (ended_commands bytes.now) }
    ensures used { IfOk result (λ used.
        (pending bytes.now ≡ drop used bytes.now) × (used ≤ length bytes.now)) }
{
    let mut rest = bytes;
    while let Some(found) = first_command(rest) {
        answer_line::<P, S>(alloc, session, draft, found.line, found.text, sink)?;
        rest = found.rest;
    }
    Ok(bytes.len() - rest.len())
}

/// Answers the command at the end of a script: a line without a line feed, or one whose text is
/// missing or has no line feed. Returns `End::Failed` where the sink failed before it took all of
/// the answer.
#[tactic(auto, using(crate::proofs::ConversationLemmas::last_ends))]
pub fn answer_last<P: Project, S: Sink>(
    alloc: Global,
    session: &mut P::Session,
    draft: &mut P::Draft,
    bytes: &[u8],
    sink: &mut S,
) -> End
    requires { OnlyWaits bytes.now }
    ensures { EndsScript P.answers result
        (exchange (P.state session.old draft.old) (S.stream sink.old))
        (exchange (P.state session.new draft.new) (S.stream sink.new))
        (all_commands bytes.now) }
{
    let (line, text) = last_command(bytes);
    match answer_line::<P, S>(alloc, session, draft, line, text, sink) {
        Ok(_) => End::Done,
        Err(end) => end,
    }
}
