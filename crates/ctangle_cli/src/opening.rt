//! The first steps of both programs: the arguments of the command line, and streams of lines.
ghost use Rattle.std.specs.Prelude.{◌≡◌};

use std::alloc::AllocError;
use std::env;
use std::io::{ErrorKind, LineWriter, Write};
use tangle_lines::IoSink;

/// The arguments of the command line, the program's name first. If an argument is not UTF-8, all
/// are left out, so that the usage is reported. No clause says more of them: they are what the
/// system gives.
///
/// # Errors
///
/// `AllocError` where an allocation failed.
pub fn command_line(rt: &HostRuntime) -> Result<Vec<String>, AllocError> {
    match env::args(rt) {
        Ok(arguments) => arguments.collect(rt.alloc()),
        Err(error) if error.kind() == ErrorKind::OutOfMemory => Err(AllocError),
        Err(_) => Ok(Vec::new(rt.alloc())),
    }
}

/// A sink that passes each whole line on to a stream. Where there is no memory to keep a line, it
/// passes on each write.
pub fn lines_to<W: Write + Drop + Copy>(rt: &HostRuntime, stream: W) -> IoSink<LineWriter<W>>
    ensures { result.failures ≡ 0 }
{
    // So a failure of standard error is seen before an output is created.
    match LineWriter::new(rt.alloc(), stream) {
        Ok(lines) => IoSink::new(lines),
        Err(_) => IoSink::new(LineWriter::with_capacity(rt.alloc(), 0, stream).unwrap()),
    }
}
