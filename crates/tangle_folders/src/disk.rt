//! The folder of the file system.
ghost use Rattle.std.specs.Prelude.{◌≡◌, None};
ghost use Rattle.tangle_streams.specs.Streams.{one_more_failure};

use crate::folder::{FILE_LIMIT, Folder, FolderFault};
use std::alloc::Global;
use std::fs::OpenFile;
use std::io::{BufWriter, ErrorKind, Read};
use std::rt::Files;
use std::{fs, io, str};
use tangle_streams::{IoSink, Sink};

/// The current folder of the program. It reports no files to contracts.
///
/// Outputs are buffered until `close` flushes them, so a full disk may be found only there.
#[derive(Drop)]
pub struct Disk<'r, R: Files> {
    rt: &'r R,
    failures: u64,
}

impl<'r, R: Files> Disk<'r, R> {
    /// The current folder of the program, with no failure counted.
    pub fn new(rt: &'r R) -> Self
        ensures { result.failures ≡ 0 }
    {
        Disk { rt, failures: 0 }
    }

    fn count_failure(&mut self)
        ensures { self.new.failures ≡ one_more_failure self.old.failures }
    {
        self.failures = self.failures.saturating_add(1);
    }
}

// The path of a name: `None` if it is not UTF-8, which the library's paths have to be, or has a
// zero byte, which the system's names cannot have.
fn path_of(name: &[u8]) -> Option<&str> {
    if name.contains(&0) {
        return None;
    }
    str::from_utf8(name).ok()
}

fn fault_of(error: &io::Error) -> FolderFault {
    match error.kind() {
        ErrorKind::NotFound => FolderFault::Missing,
        ErrorKind::OutOfMemory => FolderFault::NoMemory,
        _ => FolderFault::Failed,
    }
}

// The most bytes that are read of a file. One byte more than the limit is enough to see that a
// file is too big.
const MOST_READ: usize = FILE_LIMIT + 1;

// A buffer that need not grow if the file has the size that the system reports: the end of the file
// is found while there is room for one byte more. That size may be wrong, and then the buffer grows.
// If it cannot be allocated, the file may be smaller, so the buffer begins empty.
fn buffer_for(alloc: Global, file: &impl OpenFile) -> Vec<u8> {
    let size = match file.metadata() {
        Ok(metadata) => metadata.len().min(MOST_READ as u64) as usize,
        Err(_) => 0,
    };
    match Vec::with_capacity(alloc, size + 1) {
        Ok(buffer) => buffer,
        Err(_) => Vec::new(alloc),
    }
}

// The bytes of a file, up to one byte more than the limit.
fn read_at<R: Files>(rt: &R, alloc: Global, path: &str) -> io::Result<Vec<u8>> {
    let file = fs::open(rt, path)?;
    let mut bytes = buffer_for(alloc, &file);
    file.take(MOST_READ as u64).read_to_end(&mut bytes)?;
    Ok(bytes)
}

// Creates a file and its buffered writer. If no buffer can be allocated, the file is there by then:
// the writer has no buffer, since a refused `create` may leave no file.
fn create_at<R: Files>(rt: &R, alloc: Global, path: &str) -> io::Result<BufWriter<R::File>> {
    match BufWriter::new(alloc, fs::create(rt, path)?) {
        Err(error) if error.kind() == ErrorKind::OutOfMemory => {
            BufWriter::with_capacity(alloc, 0, fs::create(rt, path)?)
        }
        buffered => buffered,
    }
}

impl<'r, R: Files> Folder for Disk<'r, R> {
    type Out = IoSink<BufWriter<R::File>>;

    ghost state = { λ disk. record {
      files = None;
      created = None;
      asked = None;
      failed = None;
      failures = disk.failures;
    } };

    fn read_file(&mut self, alloc: Global, name: &[u8]) -> Result<Vec<u8>, FolderFault> {
        let Some(path) = path_of(name) else {
            return Err(FolderFault::Missing);
        };
        match read_at(self.rt, alloc, path) {
            Ok(bytes) if bytes.len() <= FILE_LIMIT => Ok(bytes),
            Ok(_) => Err(FolderFault::TooBig),
            Err(error) => {
                let fault = fault_of(&error);
                if fault == FolderFault::Failed {
                    self.count_failure();
                }
                Err(fault)
            }
        }
    }

    fn create(
        &mut self,
        alloc: Global,
        name: &[u8],
    ) -> Result<IoSink<BufWriter<R::File>>, FolderFault> {
        let Some(path) = path_of(name) else {
            self.count_failure();
            return Err(FolderFault::Failed);
        };
        match create_at(self.rt, alloc, path) {
            Ok(writer) => Ok(IoSink::new(writer)),
            Err(error) => {
                let fault = fault_of(&error);
                if fault != FolderFault::NoMemory {
                    self.count_failure();
                }
                Err(fault)
            }
        }
    }

    fn close(&mut self, out: IoSink<BufWriter<R::File>>) -> Result<(), FolderFault> {
        let mut out = out;
        let had_failed = out.failures() != 0;
        out.flush();
        if out.failures() != 0 {
            self.count_failure();
        }
        if had_failed || out.failures() == 0 {
            Ok(())
        } else {
            Err(FolderFault::Failed)
        }
    }
}
