//! The lines that the programs write on the error stream.
ghost use Rattle.std.specs.Prelude.{◌≡◌, ◌<◌, ◌^◌, ◌++◌, [], length};
ghost use Rattle.std.specs.List.{fold, list_any};
ghost use Rattle.tangle_faults.specs.Faults.{is_error};
ghost use Rattle.tangle_script.specs.Script.{WritesAnswer};
ghost use Rattle.tangle_streams.specs.Streams.{IsWritten};
ghost use Rattle.tangle_loading.specs.Endings.{ending_of};
ghost use Rattle.ctangle_cli.specs.Messages.{ending_line};
ghost use Rattle.ctangle_cli.specs.Messages.{fault_lines, refusal_name, unwritten_line};

use std::alloc::Global;
use tangle_folders::FolderFault;
use tangle_lines::{Fault, IoSink, Refusal, Sink, WriteFault, write_after, write_fault};
use tangle_loading::LoadFault;
use tangle_script::SinkFailed;

/// The name of a refusal, as the programs print it.
pub fn name_of<'a>(refusal: Refusal) -> &'a [u8]
    ensures { result.now ≡ refusal_name refusal }
{
    match refusal {
        Refusal::BadName => b"BadName",
        Refusal::FileExists => b"FileExists",
        Refusal::TooManyFiles => b"TooManyFiles",
        Refusal::LineTooLong => b"LineTooLong",
        Refusal::TooManyLines => b"TooManyLines",
        Refusal::NoMemory => b"NoMemory",
        Refusal::UnknownFile => b"UnknownFile",
        Refusal::NoSuchLine => b"NoSuchLine",
        Refusal::BadLine => b"BadLine",
        Refusal::NoWeb => b"NoWeb",
        Refusal::NoChange => b"NoChange",
        Refusal::RoleFile => b"RoleFile",
        Refusal::NoOutput => b"NoOutput",
        Refusal::WriteFault(_) => b"WriteFault",
    }
}

// Writes these bytes, one part after another. Returns their number.
fn write_parts<E: Sink>(err: &mut E, parts: &[&[u8]]) -> Result<u128, WriteFault>
    requires { length (fold (λ front part. front ++ part.now) [] parts.now) < 2 ^ 128 }
    ensures { IsWritten (E.stream err.old) (E.stream err.new)
        (fold (λ front part. front ++ part.now) [] parts.now) result }
{
    let mut written = Ok(0);
    for part in parts {
        written = write_after(err, written, part);
    }
    written
}

/// Writes why loading ended without files, in one line after the program's name. Returns the length
/// of the line.
///
/// # Errors
///
/// `WriteFault(n)` where the stream failed, or took no byte, after the first `n` bytes of the line.
pub fn write_load<'a, E: Sink>(
    program: &'a [u8],
    fault: &'a LoadFault,
    err: &mut E,
) -> Result<u128, WriteFault>
    ensures { IsWritten (E.stream err.old) (E.stream err.new)
        (ending_line program.now (ending_of fault.now)) result }
{
    match fault {
        LoadFault::CannotRead(name) => {
            write_parts(err, &[program, b": cannot read ", name.as_slice(), b"\n"])
        }
        LoadFault::Refused(name, refusal) => {
            write_parts(
                err,
                &[
                    program,
                    b": ",
                    name.as_slice(),
                    b": ",
                    name_of(*refusal),
                    b"\n",
                ],
            )
        }
        LoadFault::NoMemory => write_parts(err, &[program, b": NoMemory\n"]),
    }
}

/// Writes the line that reports an unwritten output. Returns its length.
///
/// # Errors
///
/// `WriteFault(n)` where the stream failed, or took no byte, after the first `n` bytes of the line.
pub fn write_unwritten<E: Sink>(
    name: &[u8],
    fault: FolderFault,
    err: &mut E,
) -> Result<u128, WriteFault>
    ensures { IsWritten (E.stream err.old) (E.stream err.new) (unwritten_line fault name.now)
        result }
{
    match fault {
        FolderFault::NoMemory => write_load(b"ctangle", &LoadFault::NoMemory, err),
        FolderFault::Missing => write_parts(err, &[b"ctangle: cannot write ", name, b"\n"]),
        FolderFault::Failed => write_parts(err, &[b"ctangle: cannot write ", name, b"\n"]),
        FolderFault::TooBig => write_parts(err, &[b"ctangle: cannot write ", name, b"\n"]),
    }
}

/// Writes the line of each fault.
///
/// # Errors
///
/// `SinkFailed` where the stream failed, or took no byte, before it had all the lines.
pub fn write_faults<E: Sink>(faults: &[Fault], err: &mut E) -> Result<(), SinkFailed>
    ensures { WritesAnswer (E.stream err.old) (E.stream err.new) (fault_lines faults.now) result }
{
    for fault in faults {
        match write_fault(fault, err) {
            Ok(_) => {}
            Err(_) => return Err(SinkFailed),
        }
    }
    Ok(())
}

/// Writes the lines of all faults at once, since each write on a stream takes time. Where there is
/// no memory to keep them, it writes one after another.
///
/// # Errors
///
/// `SinkFailed` where the stream failed, or took no byte, before it had all the lines.
pub fn write_faults_at_once<E: Sink>(
    alloc: Global,
    faults: &[Fault],
    err: &mut E,
) -> Result<(), SinkFailed>
    ensures { WritesAnswer (E.stream err.old) (E.stream err.new) (fault_lines faults.now) result }
{
    let mut lines = IoSink::new(Vec::new(alloc));
    match write_faults(faults, &mut lines) {
        Ok(()) => say(err, &[lines.into_inner().as_slice()]),
        Err(_) => write_faults(faults, err),
    }
}

/// Writes these bytes, one part after another.
///
/// # Errors
///
/// `SinkFailed` where the sink failed, or took no byte, before it had all of them.
pub fn say<S: Sink>(sink: &mut S, parts: &[&[u8]]) -> Result<(), SinkFailed>
    ensures { WritesAnswer (S.stream sink.old) (S.stream sink.new)
        (fold (λ front part. front ++ part.now) [] parts.now) result }
{
    for part in parts {
        match write_after(sink, Ok(0), part) {
            Ok(_) => {}
            Err(_) => return Err(SinkFailed),
        }
    }
    Ok(())
}

/// Whether a fault is an error.
pub fn is_error_among(faults: &[Fault]) -> bool
    ensures { result ≡ list_any is_error faults.now }
{
    faults.iter().any(|fault| fault.is_error())
}
