//! Runs over a folder in memory, of which a call or a writer fails.
use crate::support::AMPLE;
use ctangle_cli::run_ctangle;
use std::alloc::Global;
use std::test::Fail;
use tangle_memory_folder::{MemoryFolder, MemorySink};

const IN_C: &[u8] = b"/*1:*/\n#line 2 \"a.w\"\n\nint x;\n/*:1*/\n";

const NOT_WRITTEN: &[u8] = b"ctangle: cannot write a.c\n";

// The number of calls before the one that fails, the capacity of the writers, the status and the
// line of the run, and the bytes of the main file, if it was created.
type Ending = (u64, usize, u8, &'static [u8], Option<&'static [u8]>);

const ENDINGS: [Ending; 5] = [
    (0, AMPLE, 3, b"ctangle: cannot read a.w\n", None),
    (1, AMPLE, 3, NOT_WRITTEN, None),
    // the call that fails is `close`
    (2, AMPLE, 3, NOT_WRITTEN, Some(IN_C)),
    (3, AMPLE, 0, b"", Some(IN_C)),
    (3, 7, 3, NOT_WRITTEN, Some(b"/*1:*/\n")),
];

// A folder with a web. Its writers have this capacity, and it fails at the call after `calls`.
fn folder_failing(alloc: Global, calls: u64, capacity: usize) -> Result<MemoryFolder, Fail> {
    let mut folder = MemoryFolder::new(alloc, capacity);
    folder.put(alloc, b"a.w", b"@ A.\n@c\nint x;\n")?;
    folder.fail_after(calls);
    Ok(folder)
}

#[test]
fn folders_that_fail(rt: HostRuntime) -> Result<(), Fail> {
    for (calls, capacity, status, line, bytes) in &ENDINGS {
        let mut folder = folder_failing(rt.alloc(), *calls, *capacity)?;
        let mut err = MemorySink::new(rt.alloc(), AMPLE);
        let ended = run_ctangle(rt.alloc(), &[b"a"], &mut folder, &mut err);
        assert_eq!(rt; ended, *status);
        assert!(rt; err.bytes() == *line);
        assert_eq!(rt; folder.asked().len(), 1);
        assert!(rt; folder.asked()[0].as_slice() == b"a.w".as_slice());
        assert_eq!(rt; folder.created().len(), if bytes.is_some() { 1 } else { 0 });
        for file in folder.created() {
            assert!(rt; file.name.as_slice() == b"a.c".as_slice());
            assert!(rt; Some(file.bytes.as_slice()) == *bytes);
        }
    }
    Ok(())
}
