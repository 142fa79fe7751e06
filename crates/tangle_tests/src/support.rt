//! What the tests share: files and sessions in memory.
use std::alloc::Global;
use std::test::Fail;
use tangle_lines::{Files, Refusal, Roles};
use tangle_session::Session;

/// Capacity for all that a test writes.
pub(crate) const AMPLE: usize = 1_000_000;

/// A table of these files, each a name and its bytes.
pub(crate) fn files_with(alloc: Global, files: &[(&[u8], &[u8])]) -> Result<Files, Refusal> {
    let mut table = Files::new(alloc);
    for (name, bytes) in files {
        table.add(name, bytes)?;
    }
    Ok(table)
}

// This is a function of its own, so that the clauses of a start are used once.
fn started(alloc: Global, files: Files, roles: Roles) -> Option<Session> {
    Session::start(alloc, files, roles).ok()
}

/// A session of one file, the web `a.w`, with the main file `a.c`.
pub(crate) fn start(alloc: Global, web: &[u8]) -> Result<Session, Fail> {
    let files = files_with(alloc, &[(b"a.w", web)])?;
    let roles = Roles::new(alloc, b"a.w", None, b"a.c")?;
    Ok(started(alloc, files, roles).ok_or("not started")?)
}
