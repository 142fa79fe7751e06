//! Writers that fail, at a byte or at a flush: what was written is the front of the whole, and the
//! session is as it was.
ghost use Rattle.std.specs.Prelude.{None};

use crate::support::{AMPLE, start};
use ctangle_cli::run_retangle;
use std::alloc::Global;
use std::io::{self, ErrorKind, Write};
use std::process::Abort;
use std::test::Fail;
use tangle_lines::{Feed, IoFeed, IoSink, Refusal, Sink, WriteFault, write_after};
use tangle_memory_folder::MemorySink;
use tangle_session::Session;

/// A writer that takes one byte a call until it has taken `left` further ones, and then fails.
#[derive(Drop)]
struct OneByOne {
    bytes: Vec<u8>,
    left: usize,
    failures: u64,
}

impl Sink for OneByOne {
    ghost stream = { λ sink. record { taken = None; failures = sink.failures } };

    fn take(&mut self, bytes: &[u8]) -> Option<usize> {
        let Some(byte) = bytes.first() else {
            return Some(0);
        };
        if self.left == 0 || self.bytes.push(*byte).is_err() {
            self.failures = self.failures.saturating_add(1);
            return None;
        }
        self.left -= 1;
        Some(1)
    }

    fn failures(&self) -> u64 {
        self.failures
    }
}

const ONE_PIECE: &[u8] = b"@ A.\n@c\nint x;\n";

const ONE_PIECE_IN_C: &[u8] = b"/*1:*/\n#line 2 \"a.w\"\n\nint x;\n/*:1*/\n";

// Each name but the last uses the next one twice, so the program is too large.
const DOUBLING: &[u8] = b"@ P.\n@c\n@<n00@>\n@ @<n00@>=\n@<n01@>@<n01@>\n\
    @ @<n01@>=\n@<n02@>@<n02@>\n@ @<n02@>=\n@<n03@>@<n03@>\n@ @<n03@>=\n@<n04@>@<n04@>\n\
    @ @<n04@>=\n@<n05@>@<n05@>\n@ @<n05@>=\n@<n06@>@<n06@>\n@ @<n06@>=\n@<n07@>@<n07@>\n\
    @ @<n07@>=\n@<n08@>@<n08@>\n@ @<n08@>=\n@<n09@>@<n09@>\n@ @<n09@>=\n@<n10@>@<n10@>\n\
    @ @<n10@>=\n@<n11@>@<n11@>\n@ @<n11@>=\n@<n12@>@<n12@>\n@ @<n12@>=\n@<n13@>@<n13@>\n\
    @ @<n13@>=\n@<n14@>@<n14@>\n@ @<n14@>=\n@<n15@>@<n15@>\n@ @<n15@>=\n@<n16@>@<n16@>\n\
    @ @<n16@>=\n@<n17@>@<n17@>\n@ @<n17@>=\n@<n18@>@<n18@>\n@ @<n18@>=\n@<n19@>@<n19@>\n\
    @ @<n19@>=\n@<n20@>@<n20@>\n@ @<n20@>=\n@<n21@>@<n21@>\n@ @<n21@>=\n@<n22@>@<n22@>\n\
    @ @<n22@>=\n@<n23@>@<n23@>\n@ @<n23@>=\n@<n24@>@<n24@>\n@ @<n24@>=\n@<n25@>@<n25@>\n\
    @ @<n25@>=\n@<n26@>@<n26@>\n@ @<n26@>=\n@<n27@>@<n27@>\n@ @<n27@>=\n@<n28@>@<n28@>\n\
    @ @<n28@>=\n@<n29@>@<n29@>\n@ @<n29@>=\n1\n@ @(s.h@>=\n1\n";

// Webs, each with the name and the text of an output, and the number of nodes that a start expands.
const OUTPUTS: [(&[u8], &[u8], &[u8], u64); 2] = [
    (ONE_PIECE, b"a.c", ONE_PIECE_IN_C, 1),
    (
        DOUBLING,
        b"s.h",
        b"/*32:*/\n#line 64 \"a.w\"\n\n1\n/*:32*/\n",
        22,
    ),
];

// An output is written to writers that fail after each number of bytes: one takes a byte at each
// call and then reports a failure, the other takes all bytes up to its capacity, and then none.
fn fail_at_each_byte(
    rt: &impl Abort,
    alloc: Global,
    session: &Session,
    name: &[u8],
    text: &[u8],
) -> Result<(), Fail> {
    for count in 0..=text.len() {
        let mut by_bytes = OneByOne {
            bytes: Vec::new(alloc),
            left: count,
            failures: 0,
        };
        let mut at_once = MemorySink::new(alloc, count);
        let expected = if count == text.len() {
            Ok(count as u128)
        } else {
            Err(Refusal::WriteFault(count as u128))
        };
        assert_eq!(rt; session.write_output(name, &mut by_bytes), expected);
        assert_eq!(rt; session.write_output(name, &mut at_once), expected);
        let front = text.get(..count).ok_or("the front")?;
        assert!(rt; by_bytes.bytes.as_slice() == front && at_once.bytes() == front);
    }
    Ok(())
}

fn check_output(
    rt: &impl Abort,
    alloc: Global,
    session: &Session,
    name: &[u8],
    text: &[u8],
) -> Result<(), Fail> {
    fail_at_each_byte(rt, alloc, session, name, text)?;
    assert_eq!(rt; session.output_size(name), Some(text.len() as u128));
    Ok(())
}

fn check_web(
    rt: &impl Abort,
    alloc: Global,
    web: &[u8],
    name: &[u8],
    text: &[u8],
    work: u64,
) -> Result<(), Fail> {
    let session = start(alloc, web)?;
    assert_eq!(rt; session.last_work(), work);
    check_output(rt, alloc, &session, name, text)
}

#[test]
fn writers_that_fail_at_each_byte(rt: HostRuntime) -> Result<(), Fail> {
    for (web, name, text, work) in &OUTPUTS {
        check_web(&rt, rt.alloc(), web, name, text, *work)?;
    }
    Ok(())
}

const SCRIPT: &[u8] = b"work\nreplace 3 a.w\nint y;\nshow a.c\nremove 9 a.w\nfaults\nquit\n";

const ANSWERS: &[u8] =
    b"work 1\nok\n= a.c 36\n/*1:*/\n#line 2 \"a.w\"\n\nint y;\n/*:1*/\nno NoSuchLine\nfaults 0\n\
      ok\n";

// Answers the script to a writer of this capacity: the status, how often reader and writer
// failed, and what was written.
fn converse(alloc: Global, session: &mut Session, capacity: usize) -> (u8, u64, u64, MemorySink) {
    let mut written = MemorySink::new(alloc, capacity);
    let mut script = IoFeed::new(SCRIPT);
    let status = run_retangle(alloc, session, &mut script, &mut written);
    (status, script.failures(), written.failures(), written)
}

fn check_conversation(
    rt: &impl Abort,
    alloc: Global,
    session: &mut Session,
    capacity: usize,
    status: u8,
    failures: u64,
) {
    let (ended, of_reader, of_writer, written) = converse(alloc, session, capacity);
    assert_eq!(rt; (ended, of_reader, of_writer), (status, 0, failures));
    assert!(rt; Some(written.bytes()) == ANSWERS.get(..capacity.min(ANSWERS.len())));
}

fn check_edited_line(rt: &impl Abort, session: &Session) -> Result<(), Fail> {
    let lines = session.files().lines(b"a.w").ok_or("the web")?;
    assert!(rt; lines.get(2).ok_or("the line")?.bytes() == b"int y;".as_slice());
    Ok(())
}

fn check_conversations(rt: &impl Abort, alloc: Global, session: &mut Session) -> Result<(), Fail> {
    for (capacity, status, failures) in [(7, 3, 1), (AMPLE, 0, 0)] {
        check_conversation(rt, alloc, session, capacity, status, failures);
        check_edited_line(rt, session)?;
    }
    Ok(())
}

// An edit that was accepted before the writer failed stays made.
#[test]
fn a_conversation_whose_writer_fails(rt: HostRuntime) -> Result<(), Fail> {
    let mut session = start(rt.alloc(), ONE_PIECE)?;
    check_conversations(&rt, rt.alloc(), &mut session)
}

// A writer that takes all and can't pass it on.
#[derive(Drop)]
struct Stuck;

impl Write for Stuck {
    fn write(&mut self, bytes: &[u8]) -> io::Result<usize> {
        Ok(bytes.len())
    }

    fn flush(&mut self) -> io::Result<()> {
        Err(io::Error::from(ErrorKind::StorageFull))
    }
}

// What is written, and the numbers of failures before a flush and after it.
fn flushed<W: Write + Drop>(writer: W) -> (Result<u128, WriteFault>, u64, u64) {
    let mut sink = IoSink::new(writer);
    let written = write_after(&mut sink, Ok(0), b"kept back");
    let before = sink.failures();
    sink.flush();
    (written, before, sink.failures())
}

#[test]
fn a_failed_flush_is_a_failure(rt: HostRuntime) {
    assert_eq!(rt; flushed(Stuck), (Ok(9), 0, 1));
    assert_eq!(rt; flushed(Vec::new(rt.alloc())), (Ok(9), 0, 0));
}
