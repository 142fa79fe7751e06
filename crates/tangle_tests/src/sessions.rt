//! Sessions by calls that no program makes: starts that are refused, an edit whose text has a line
//! feed, and whole histories.
use crate::support::{AMPLE, files_with, start};
use std::alloc::{AllocError, Global};
use std::process::Abort;
use std::test::Fail;
use tangle_lines::{Edit, Files, Refusal, Roles};
use tangle_memory_folder::MemorySink;
use tangle_session::{ListRefusal, Session, start_and_edit};

// This is a function of its own, so that the clauses of a start are used once.
fn refused_start(alloc: Global, files: Files, roles: Roles) -> Option<(Files, Roles, Refusal)> {
    Session::start(alloc, files, roles).err()
}

// The same of histories.
fn started(
    alloc: Global,
    files: Files,
    roles: Roles,
    lists: &[Vec<Edit>],
) -> Option<(Session, Vec<Result<(), ListRefusal>>)> {
    start_and_edit(alloc, files, roles, lists).ok()
}

// The web and the change file of starts that are refused over `b.w` and `a.ch`.
const STARTS: [(&[u8], Option<&[u8]>, Refusal); 5] = [
    (b"a.w", None, Refusal::NoWeb),
    (b"a.w", Some(b"a.ch"), Refusal::NoWeb),
    (b"a.w", Some(b"b.ch"), Refusal::NoWeb),
    (b"b.w", Some(b"b.ch"), Refusal::NoChange),
    (b"b.w", Some(b"b.w "), Refusal::NoChange),
];

// The start is refused for this reason, and gives files and roles back.
fn start_without_its_files(
    rt: &impl Abort,
    alloc: Global,
    web: &[u8],
    change: Option<&[u8]>,
    refusal: Refusal,
) -> Result<(), Fail> {
    let files = files_with(alloc, &[(b"b.w", b"@ A.\n@c\nx\n"), (b"a.ch", b"@x\n")])?;
    let roles = Roles::new(alloc, web, change, b"b.c")?;
    let (files, roles, reason) = refused_start(alloc, files, roles).ok_or("started")?;
    assert_eq!(rt; (reason, files.count()), (refusal, 2));
    assert!(rt; roles.web() == web && roles.change() == change);
    assert!(rt; roles.out() == b"b.c".as_slice());
    Ok(())
}

#[test]
fn starts_without_their_files(rt: HostRuntime) -> Result<(), Fail> {
    for (web, change, refusal) in &STARTS {
        start_without_its_files(&rt, rt.alloc(), web, *change, *refusal)?;
    }
    Ok(())
}

fn insertion(alloc: Global, file: &[u8], at: usize, text: &[u8]) -> Result<Edit, AllocError> {
    let file = Vec::from_slice(alloc, file)?;
    let text = Vec::from_slice(alloc, text)?;
    Ok(Edit::Insert { file, at, text })
}

// Insertions into a web of five lines, each with its refusal: that of a text with a line feed comes
// after those of the file and of the number.
const REFUSED: [(&[u8], usize, &[u8], Refusal); 4] = [
    (b"a.w", 1, b"x\ny", Refusal::BadLine),
    (b"a.w", 9, b"x\ny", Refusal::NoSuchLine),
    (b"", 9, b"\n", Refusal::BadName),
    (b"zz", 9, b"\n", Refusal::UnknownFile),
];

// A text of line feeds that is too long for a line.
fn long_text(alloc: Global) -> Result<Edit, AllocError> {
    let file = Vec::from_slice(alloc, b"a.w")?;
    let text = vec![in alloc; b'\n'; 65_536]?;
    Ok(Edit::Replace { file, at: 5, text })
}

// The edit is refused for this reason, and leaves the work and the lines of the web.
fn check_refused(rt: &impl Abort, session: &mut Session, edit: &Edit, refusal: Refusal) {
    assert_eq!(rt; session.apply(edit).err(), Some(refusal));
    let lines = session.files().lines(b"a.w").map(|lines| lines.len());
    assert_eq!(rt;
        (session.files().count(), lines, session.last_work()),
        (1, Some(5), 2)
    );
}

fn check_refusals(rt: &impl Abort, alloc: Global, session: &mut Session) -> Result<(), Fail> {
    for (file, at, text, refusal) in &REFUSED {
        check_refused(rt, session, &insertion(alloc, file, *at, text)?, *refusal);
    }
    check_refused(rt, session, &long_text(alloc)?, Refusal::BadLine);
    let accepted = insertion(alloc, b"a.w", 6, b"x")?;
    assert_eq!(rt; session.apply(&accepted), Ok(()));
    Ok(())
}

#[test]
fn refused_edits(rt: HostRuntime) -> Result<(), Fail> {
    let mut session = start(rt.alloc(), b"@ A.\n@c\nint x=@<v@>;\n@ @<v@>=\n1\n")?;
    check_refusals(&rt, rt.alloc(), &mut session)
}

// Two names that use each other, and a named file.
const CYCLE: &[u8] = b"@ P.\n@c\n@<A@>\n@ @<A@>=\n@<B@>\n@ @<B@>=\n@<A@>\n@ @(h.h@>=\nint h;\n";

// The main file where the cycle is broken.
const BROKEN_CYCLE: &[u8] =
    b"/*1:*/\n#line 2 \"a.w\"\n\n /*2:*/\n#line 4 \"a.w\"\n\n /*3:*/\n#line 6 \"a.w\"\n\nb;\n\
      /*:3*/\n#line 5 \"a.w\"\n\n/*:2*/\n#line 3 \"a.w\"\n\n/*:1*/\n";

// A list that breaks the cycle.
fn breaking(alloc: Global) -> Result<Vec<Edit>, AllocError> {
    let file = Vec::from_slice(alloc, b"a.w")?;
    let mut edits = Vec::new(alloc);
    edits.push(insertion(alloc, b"a.w", 7, b"b;")?)?;
    edits.push(Edit::Remove { file, at: 8 })?;
    Ok(edits)
}

// The cycle is broken: three nodes were expanded, and there are the main file, `h.h` and no fault.
fn check_broken(rt: &impl Abort, alloc: Global, session: &Session) -> Result<(), Fail> {
    let mut sink = MemorySink::new(alloc, AMPLE);
    let size = BROKEN_CYCLE.len() as u128;
    assert_eq!(rt; session.output_size(b"a.c"), Some(size));
    assert_eq!(rt; session.write_output(b"a.c", &mut sink), Ok(size));
    assert!(rt; sink.bytes() == BROKEN_CYCLE);
    assert_eq!(rt; (session.faults().len(), session.last_work()), (0, 3));
    let lines = session
        .files()
        .lines(session.roles().web())
        .ok_or("the web")?;
    assert_eq!(rt; lines.len(), 9);
    assert!(rt; lines.get(6).ok_or("the line")?.bytes() == b"b;".as_slice());
    let mut names = session.output_names();
    assert!(rt; names.next() == Some(b"a.c") && names.next() == Some(b"h.h"));
    assert!(rt; names.next().is_none());
    Ok(())
}

// An edit of a line that isn't there is refused, and the list is made.
fn check_history(rt: &impl Abort, alloc: Global, session: &mut Session) -> Result<(), Fail> {
    let refused = insertion(alloc, b"a.w", 99, b"x")?;
    assert_eq!(rt; session.apply(&refused), Err(Refusal::NoSuchLine));
    assert_eq!(rt; session.apply_all(&breaking(alloc)?), Ok(()));
    check_broken(rt, alloc, session)
}

#[test]
fn a_history(rt: HostRuntime) -> Result<(), Fail> {
    let mut session = start(rt.alloc(), CYCLE)?;
    check_history(&rt, rt.alloc(), &mut session)
}

// Two lists: one that is refused for its third edit, and the one that breaks the cycle.
fn refused_and_breaking(alloc: Global) -> Result<Vec<Vec<Edit>>, AllocError> {
    let mut refused = breaking(alloc)?;
    refused.push(insertion(alloc, b"a.w", 99, b"x")?)?;
    let mut lists = Vec::new(alloc);
    lists.push(refused)?;
    lists.push(breaking(alloc)?)?;
    Ok(lists)
}

#[test]
fn a_history_in_one_call(rt: HostRuntime) -> Result<(), Fail> {
    let lists = refused_and_breaking(rt.alloc())?;
    let files = files_with(rt.alloc(), &[(b"a.w", CYCLE)])?;
    let roles = Roles::new(rt.alloc(), b"a.w", None, b"a.c")?;
    let (session, answers) = started(rt.alloc(), files, roles, &lists).ok_or("started")?;
    let refusal = Refusal::NoSuchLine;
    assert!(rt; answers.as_slice() == [Err(ListRefusal { at: 2, refusal }), Ok(())].as_slice());
    check_broken(&rt, rt.alloc(), &session)
}
