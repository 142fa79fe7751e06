//! A script that another project than a session answers.
ghost use Rattle.std.specs.Prelude.{◌≡◌, ◌==◌, ⊤, ℕ};

use std::alloc::Global;
use std::test::Fail;
use tangle_lines::{IoFeed, IoSink, Sink};
use tangle_script::{Project, Request, SinkFailed, run_script};

/// It answers nothing. Its session counts the edits, of which the first is an error, and its draft
/// the lists that were begun.
struct Counts;

impl Project for Counts {
    type Session = u64;

    type Draft = u64;

    ghost State = { ℕ };

    ghost state = { λ session draft. session };

    ghost answers = { λ s r text t. ⊤ };

    ghost has_error = { λ s error. error ≡ (s == 1) };

    fn answer<S: Sink>(
        _alloc: Global,
        session: &mut u64,
        draft: &mut u64,
        request: &Request<'_>,
        _sink: &mut S,
    ) -> Result<(), SinkFailed> {
        match request {
            Request::Begin => *draft = draft.saturating_add(1),
            Request::MarksNone => *session = session.saturating_add(1),
            _ => {}
        }
        Ok(())
    }

    fn has_error(session: &u64) -> bool {
        *session == 1
    }
}

// What a project keeps besides is passed through a run, and is there at its end.
#[test]
fn drafts(rt: HostRuntime) -> Result<(), Fail> {
    let (mut edits, mut draft) = (0, 5);
    let mut feed = IoFeed::new(b"begin\nmarks none\nbegin\nquit\nbegin\n".as_slice());
    let mut sink = IoSink::new(Vec::new(rt.alloc()));
    let status = run_script::<Counts, _, _>(
        rt.alloc(),
        &mut edits,
        &mut draft,
        &mut feed,
        &mut sink,
    );
    assert_eq!(rt; (status, edits, draft), (1, 1, 7));
    Ok(())
}
