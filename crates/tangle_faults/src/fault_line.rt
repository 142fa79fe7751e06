//! The line of a fault.
ghost use Rattle.std.specs.Prelude.{◌≡◌, ◌^◌, ◌<◌, length, decimal};
ghost use Rattle.std.specs.Option.{option_copied};
ghost use Rattle.tangle_faults.specs.FaultLine.{wording, bracketed, ending_bytes, place_bytes};
ghost use Rattle.tangle_faults.specs.FaultLine.{fault_line, place_bytes_if_any};
ghost use Rattle.tangle_faults.specs.FaultLine.{severity as severity_of};
ghost use Rattle.tangle_streams.specs.Streams.{IsWritten, IsWrittenAfter};

use crate::faults::{Fault, FaultKind, Place};
use itoa::Buffer;
use tangle_streams::{Sink, WriteFault, write_after};

/// The kind of text that ends the message of a fault.
#[derive(Clone, Copy, Debug, PartialEq, Eq)]
pub enum Ending {
    Nothing,
    /// The name of a file, unchanged.
    FileName,
    Count,
    /// The name of a section, in angle brackets.
    SectionName,
    /// The name of a section, or that the program is meant, where the fault has no place.
    NameOrProgram,
}

/// The message of a fault of this kind without its ending, and the kind of the ending.
fn wording(kind: FaultKind) -> (&'static [u8], Ending)
    ensures message { result.0.now ≡ (wording kind).0 }
    ensures ending { result.1 ≡ (wording kind).1 }
{
    match kind {
        FaultKind::StrayMark => (b"@y or @z out of place", Ending::Nothing),
        FaultKind::MissingY => (b"change without @y", Ending::Nothing),
        FaultKind::MissingZ => (b"change without @z", Ending::Nothing),
        FaultKind::EmptyOld => (b"change without old lines", Ending::Nothing),
        FaultKind::IncludeNoName => (b"inclusion without a file name", Ending::Nothing),
        FaultKind::IncludeMissing => (b"included file not found: ", Ending::FileName),
        FaultKind::IncludeTooDeep => (b"inclusion too deep", Ending::Nothing),
        FaultKind::ChangeMismatch => (b"old lines that do not match: ", Ending::Count),
        FaultKind::SourceTooLong => (b"too many lines", Ending::Nothing),
        FaultKind::ChangeUnused => (b"change never used", Ending::Nothing),
        FaultKind::LimboCode => (b"code before the first section", Ending::Nothing),
        FaultKind::CodeInC => (b"definition code in C text", Ending::Nothing),
        FaultKind::UseInDirective => (
            b"section name or @h in a preprocessor line",
            Ending::Nothing,
        ),
        FaultKind::NameInMacro => (b"section name in a macro", Ending::Nothing),
        FaultKind::MisplacedH => (b"@h in a macro", Ending::Nothing),
        FaultKind::MacroName => (b"macro must start with an identifier", Ending::Nothing),
        FaultKind::ControlText => (b"control text did not end", Ending::Nothing),
        FaultKind::RawString => (b"raw string", Ending::Nothing),
        FaultKind::StringAt => (b"single @ in quoted text", Ending::Nothing),
        FaultKind::StringEnd => (b"quoted text did not end", Ending::Nothing),
        FaultKind::VerbatimEnd => (b"verbatim text did not end", Ending::Nothing),
        FaultKind::AsciiBad => (b"bad ASCII constant", Ending::Nothing),
        FaultKind::CommentEnd => (b"comment did not end", Ending::Nothing),
        FaultKind::NameEnd => (b"section name did not end", Ending::Nothing),
        FaultKind::NameEquals => (
            b"missing section start before a definition",
            Ending::Nothing,
        ),
        FaultKind::NoFullName => (b"no full name for ", Ending::SectionName),
        FaultKind::Ambiguous => (b"several full names for ", Ending::SectionName),
        FaultKind::PrefixName => (b"begins another name: ", Ending::SectionName),
        FaultKind::Undefined => (b"undefined: ", Ending::SectionName),
        FaultKind::Unused => (b"never used: ", Ending::SectionName),
        FaultKind::SelfContaining => (b"contains itself: ", Ending::SectionName),
        FaultKind::TooLarge => (b"too large: ", Ending::NameOrProgram),
        FaultKind::FileClash => (b"file name is the main file's: ", Ending::SectionName),
        FaultKind::FileTwice => (b"file has another name: ", Ending::SectionName),
        FaultKind::NoProgram => (b"no program text", Ending::Nothing),
    }
}

/// Writes the line of a fault. Returns its length in bytes. The wording differs from that of CWEB's
/// programs: see docs/faults.md.
///
/// # Errors
///
/// `WriteFault(n)` where the sink failed, or took no byte, after the first `n` bytes of the line.
pub fn write_fault<S: Sink>(fault: &Fault, sink: &mut S) -> Result<u128, WriteFault>
    ensures { IsWritten (S.stream sink.old) (S.stream sink.new) (fault_line fault.now) result }
{
    let kind = fault.kind();
    let (message, ending) = wording(kind);
    let placed = write_place_if_any(sink, Ok(0), fault.place());
    let rated = write_after(sink, placed, severity(kind));
    let reported = write_after(sink, rated, message);
    let ended = write_ending(sink, reported, ending, fault);
    write_after(sink, ended, b"\n")
}

/// The word that comes before the message of a fault of this kind.
fn severity(kind: FaultKind) -> &'static [u8]
    ensures { result.now ≡ severity_of kind }
{
    if kind.is_error() {
        b"error: "
    } else {
        b"warning: "
    }
}

/// Writes the place of a fault, if it has one, unless `so_far` is an error.
fn write_place_if_any<S: Sink>(
    sink: &mut S,
    so_far: Result<u128, WriteFault>,
    place: Option<&Place>,
) -> Result<u128, WriteFault>
    ensures written { IsWrittenAfter (S.stream sink.old) (S.stream sink.new) so_far
        (place_bytes_if_any (option_copied place.entry)) result }
    ensures short { length (place_bytes_if_any (option_copied place.entry)) < 2 ^ 65 }
{
    match place {
        Some(place) => write_place(sink, so_far, place),
        None => so_far,
    }
}

/// Writes a place, which comes before the message of a fault, unless `so_far` is an error.
fn write_place<S: Sink>(
    sink: &mut S,
    so_far: Result<u128, WriteFault>,
    place: &Place,
) -> Result<u128, WriteFault>
    ensures written { IsWrittenAfter (S.stream sink.old) (S.stream sink.new) so_far
        (place_bytes place.now) result }
    ensures short { length (place_bytes place.now) < 2 ^ 65 }
{
    let mut digits = Buffer::new();
    let file = write_after(sink, so_far, place.file());
    let colon = write_after(sink, file, b":");
    let line = write_after(sink, colon, digits.format(place.line()).as_bytes());
    write_after(sink, line, b": ")
}

/// Writes the ending of a fault's message, unless `so_far` is an error.
fn write_ending<S: Sink>(
    sink: &mut S,
    so_far: Result<u128, WriteFault>,
    ending: Ending,
    fault: &Fault,
) -> Result<u128, WriteFault>
    ensures written { IsWrittenAfter (S.stream sink.old) (S.stream sink.new) so_far
        (ending_bytes ending fault.now) result }
    ensures short { length (ending_bytes ending fault.now) < 2 ^ 65 }
{
    match ending {
        Ending::Nothing => so_far,
        Ending::FileName => write_after(sink, so_far, fault.subject()),
        Ending::Count => write_count(sink, so_far, fault.count()),
        Ending::SectionName => write_bracketed(sink, so_far, fault.subject()),
        Ending::NameOrProgram => match fault.place() {
            None => write_after(sink, so_far, b"the unnamed program"),
            Some(_) => write_bracketed(sink, so_far, fault.subject()),
        },
    }
}

/// Writes a number, unless `so_far` is an error.
fn write_count<S: Sink>(
    sink: &mut S,
    so_far: Result<u128, WriteFault>,
    count: usize,
) -> Result<u128, WriteFault>
    ensures written { IsWrittenAfter (S.stream sink.old) (S.stream sink.new) so_far (decimal count)
        result }
    ensures short { length (decimal count) < 2 ^ 64 }
{
    let mut digits = Buffer::new();
    write_after(sink, so_far, digits.format(count).as_bytes())
}

/// Writes a name in angle brackets, unless `so_far` is an error.
fn write_bracketed<S: Sink>(
    sink: &mut S,
    so_far: Result<u128, WriteFault>,
    name: &[u8],
) -> Result<u128, WriteFault>
    ensures { IsWrittenAfter (S.stream sink.old) (S.stream sink.new) so_far (bracketed name.now)
        result }
{
    let opened = write_after(sink, so_far, b"<");
    let named = write_after(sink, opened, name);
    write_after(sink, named, b">")
}
