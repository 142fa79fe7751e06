//! The project that answers a script.
ghost use Rattle.std.specs.Prelude.{ℕ, List, Bool};
ghost use Rattle.tangle_script.specs.Requests.{Request, request_read};
ghost use Rattle.tangle_script.specs.Script.{IsAnswer, WritesAnswer};

use crate::request::Request;
use std::alloc::Global;
use tangle_streams::Sink;

/// The sink failed before it took all of an answer.
#[derive(Clone, Copy, Debug, PartialEq, Eq)]
pub struct SinkFailed;

/// A project that answers a script.
pub trait Project {
    /// The session that answers requests, and that edits change.
    type Session;

    /// What a run keeps beside the session, and drops at its end: the open list of edits, if there
    /// is one.
    // Apart from the session: a struct of both would need a clause on the session in each function.
    type Draft;

    // What contracts say of a session with its draft.
    ghost State: { Type 0 };

    // The state of a session with its draft.
    ghost state: { Self.Session → Self.Draft → State };

    // The request is answered in the first state by these bytes, and leads to the second state.
    ghost answers: { State → Request → List ℕ → State → Type 0 };

    // Whether an error is among the faults in this state.
    ghost has_error: { State → Bool → Type 0 };

    /// Carries out the request, and writes the answer.
    ///
    /// # Errors
    ///
    /// `SinkFailed` where the sink failed. The request is carried out even then.
    fn answer<S: Sink>(
        alloc: Global,
        session: &mut Self::Session,
        draft: &mut Self::Draft,
        request: &Request<'_>,
        sink: &mut S,
    ) -> Result<(), SinkFailed>
        ensures { (output : List ℕ)
            × IsAnswer answers (state session.old draft.old) (request_read request.now) output
            (state session.new draft.new)
            × WritesAnswer (S.stream sink.old) (S.stream sink.new) output result };

    /// Whether an error is among the faults of the session.
    fn has_error(session: &Self::Session) -> bool
        ensures { (draft : Self.Draft) → has_error (state session.now draft) result };
}
