//! A history made by one call: a session is started, and lists of edits are passed to it.
ghost use Rattle.std.specs.Prelude.{◌≡◌, [], List, length, map, IfOk, IfSome, IfNone, IsOkUnless, Err};
ghost use Rattle.std.specs.Vec.{vec_capacity};
ghost use Rattle.tangle_files.specs.Lines.{FileTable};
ghost use Rattle.tangle_files.specs.Roles.{RolesRead};
ghost use Rattle.tangle_files.specs.declared.refusal.Refusal.TheVariants.{NoMemory as no_memory};
ghost use Rattle.tangle_session.specs.Headline.{HasMade, History, accepted, list_calls};
ghost use Rattle.tangle_session.specs.Sessions.{start_refusal};

use crate::refusing::ListRefusal;
use crate::session::{Session, refusal_to_start};
use std::alloc::Global;
use tangle_lines::{Edit, Files, Refusal, Roles};

// Passes each list of edits to the session, and pushes its answer.
fn apply_each(
    session: &mut Session,
    lists: &[Vec<Edit>],
    mut answers: Vec<Result<(), ListRefusal>>,
) -> Vec<Result<(), ListRefusal>>
    requires empty { answers.items ≡ [] }
    requires capacity { vec_capacity answers ≡ length lists.now }
    ensures answered { length result.items ≡ length lists.now }
    ensures history { (files : FileTable) (roles : RolesRead) → History files roles [] session.old
        → History files roles (list_calls (map (λ edits. edits.items) lists.now) result.items)
        session.new }
{
    for edits in lists {
        answers.push_reserved(session.apply_all(edits));
    }
    answers
}

/// Starts a session, and passes these lists of edits to it, each by [`Session::apply_all`]. Gives
/// the session and the answer of each list. Whatever the answers are, the session shows the names,
/// the sizes and the bytes of the output files and the faults that plain tangling gives for the
/// files and the roles with the edits of the accepted lists made.
///
/// # Errors
///
/// Those of [`Session::start`], and `NoMemory` where there is none for the answers; the files and
/// the roles are returned unchanged. A refused list is no error: its answer is the refusal, and the
/// next list is passed.
pub fn start_and_edit(
    alloc: Global,
    files: Files,
    roles: Roles,
    lists: &[Vec<Edit>],
) -> Result<(Session, Vec<Result<(), ListRefusal>>), (Files, Roles, Refusal)>
    ensures answered { IfOk result (λ made. length made.1.items ≡ length lists.now) }
    ensures history { IfOk result (λ made.
        History files roles
        (list_calls (map (λ edits. edits.items) lists.now) made.1.items) made.0) }
    ensures made { IfOk result (λ made.
        HasMade files roles
        (accepted (list_calls (map (λ edits. edits.items) lists.now) made.1.items)) made.0) }
    ensures refused { IfSome (start_refusal files roles)
        (λ refusal. result ≡ Err (files, roles, refusal)) }
    ensures only { IfNone (start_refusal files roles)
        (IsOkUnless result (files, roles, no_memory)) }
{
    if let Some(refusal) = refusal_to_start(&files, &roles) {
        return Err((files, roles, refusal));
    }
    let answers = match Vec::with_capacity(alloc, lists.len()) {
        Ok(answers) => answers,
        Err(_) => return Err((files, roles, Refusal::NoMemory)),
    };
    let mut session = Session::start(alloc, files, roles)?;
    let answers = apply_each(&mut session, lists, answers);
    Ok((session, answers))
}
