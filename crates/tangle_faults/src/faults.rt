//! Places and faults.
ghost use Rattle.std.specs.Prelude.{◌≡◌, [], ◌∷◌, ◌++◌, IfOk, OnOk};
ghost use Rattle.std.specs.Option.{option_copied};
ghost use Rattle.tangle_faults.specs.Faults.{fault_at, fault_about, fault_counting, fault_unplaced};
ghost use Rattle.tangle_faults.specs.Faults.{is_error, is_error_kind};

use std::alloc::Global;
use std::marker::Model;
use tangle_streams::NoMemory;

/// The kind of a fault. The first ten kinds belong to change files and reading, those from
/// `LimboCode` on to scanning, and those from `NoFullName` on to names and outputs.
#[derive(Clone, Copy, Debug, PartialEq, Eq)]
pub enum FaultKind {
    /// An `@y` or `@z` out of place.
    StrayMark,
    /// A change that ends without its `@y`.
    MissingY,
    /// A change that ends without its `@z`.
    MissingZ,
    /// A change without old lines.
    EmptyOld,
    /// An inclusion without the name of a file.
    IncludeNoName,
    /// An inclusion of a file that is not in the table. The fault has the file's name.
    IncludeMissing,
    /// An inclusion in the tenth open file.
    IncludeTooDeep,
    /// Old lines of a change that differ from the lines of the web. The fault has their number.
    ChangeMismatch,
    /// A line after the 2,000,000 that are read.
    SourceTooLong,
    /// A change that was never used. Only the first one is reported.
    ChangeUnused,
    /// A control code before the first section.
    LimboCode,
    /// A control code that begins a definition, in C text.
    CodeInC,
    /// A section name or `@h` in a preprocessor line.
    UseInDirective,
    /// A section name that ends a macro and begins no definition.
    NameInMacro,
    /// An `@h` in a macro.
    MisplacedH,
    /// A macro that does not start with an identifier.
    MacroName,
    /// A control text that did not end.
    ControlText,
    /// A raw string of C++ that does not end where C++ ends it.
    RawString,
    /// A single `@` in quoted or verbatim text.
    StringAt,
    /// A quoted text that did not end.
    StringEnd,
    /// A verbatim text that did not end on its line.
    VerbatimEnd,
    /// A bad ASCII constant.
    AsciiBad,
    /// A comment that did not end.
    CommentEnd,
    /// A section name that did not end.
    NameEnd,
    /// Text that looks like a definition, without a section start before it.
    NameEquals,
    /// An abbreviation that begins no full name. The fault has the abbreviation.
    NoFullName,
    /// An abbreviation that begins several full names. The fault has the abbreviation.
    Ambiguous,
    /// A full name that begins another one. This is a warning; it has the name.
    PrefixName,
    /// A section that is used and never defined. The fault has its name.
    Undefined,
    /// A section that is never used. This is a warning; it has the name.
    Unused,
    /// A section that contains itself. The fault has its name.
    SelfContaining,
    /// A section that is too heavy or too deep. The fault has its name, or no place where it is
    /// about the unnamed program.
    TooLarge,
    /// A file with `@(` that is the main file, by its plain form. The fault has the name.
    FileClash,
    /// A file with `@(` that is an earlier one by another name. The fault has the name.
    FileTwice,
    /// A web without program text. This is a warning.
    NoProgram,
}

impl FaultKind {
    /// Whether a fault of this kind is an error; otherwise it is a warning.
    pub fn is_error(self) -> bool
        ensures { result ≡ is_error_kind self }
    {
        match self {
            FaultKind::PrefixName | FaultKind::Unused | FaultKind::NoProgram => false,
            _ => true,
        }
    }
}

/// The place of a line: the name of its file, and the number of the line in it.
#[derive(Drop)]
pub struct Place {
    file: Vec<u8>,
    line: u32,
}

impl Model for Place {
    ghost use Rattle.tangle_faults.specs.Faults.{PlaceRead};

    ghost Value = { PlaceRead };

    ghost view = { λ p. record { file = p.file.items; line = p.line } };
}

impl Place {
    /// The place of the line with this number, from 1, of the file with this name.
    fn new(alloc: Global, file: &[u8], line: u32) -> Result<Self, NoMemory>
        ensures { IfOk result (λ p. p ≡ record { file = file.now; line = line }) }
    {
        let file = Vec::from_slice(alloc, file)?;
        Ok(Place { file, line })
    }

    /// The name of the file.
    pub fn file(&self) -> &[u8]
        ensures { result.now ≡ self.now.file }
    {
        self.file.as_slice()
    }

    /// The number of the line, from 1.
    pub fn line(&self) -> u32
        ensures { result ≡ self.now.line }
    {
        self.line
    }
}

/// A fault of the sources: its kind, its place, and the name or number that its message has.
// It has copies of the names: a shared table of files would have to be passed by every caller.
#[derive(Drop)]
pub struct Fault {
    kind: FaultKind,
    place: Option<Place>,
    subject: Vec<u8>,
    count: usize,
}

impl Model for Fault {
    ghost use Rattle.tangle_faults.specs.Faults.{FaultRead};

    ghost Value = { FaultRead };

    ghost view = { λ f. record {
      kind = f.kind;
      place = f.place;
      subject = f.subject.items;
      count =
          f.count;
    } };
}

impl Fault {
    /// A fault at a line.
    ///
    /// # Errors
    ///
    /// `NoMemory` where an allocation failed.
    pub fn at(alloc: Global, kind: FaultKind, file: &[u8], line: u32) -> Result<Self, NoMemory>
        ensures { IfOk result (λ f. f ≡ fault_at kind (record { file = file.now; line = line })) }
    {
        let place = Some(Place::new(alloc, file, line)?);
        Ok(Fault {
            place,
            ..Fault::unplaced(alloc, kind)
        })
    }

    /// A fault at a line, about a file or a name.
    ///
    /// # Errors
    ///
    /// `NoMemory` where an allocation failed.
    pub fn about(
        alloc: Global,
        kind: FaultKind,
        file: &[u8],
        line: u32,
        subject: &[u8],
    ) -> Result<Self, NoMemory>
        ensures { IfOk result (λ f. f ≡ fault_about kind (record { file = file.now; line = line })
            subject.now) }
    {
        let subject = Vec::from_slice(alloc, subject)?;
        Ok(Fault {
            subject,
            ..Fault::at(alloc, kind, file, line)?
        })
    }

    /// A fault at a line, with a number in its message.
    ///
    /// # Errors
    ///
    /// `NoMemory` where an allocation failed.
    pub fn counting(
        alloc: Global,
        kind: FaultKind,
        file: &[u8],
        line: u32,
        count: usize,
    ) -> Result<Self, NoMemory>
        ensures { IfOk result (λ f. f ≡ fault_counting kind
            (record { file = file.now; line = line }) count) }
    {
        Ok(Fault {
            count,
            ..Fault::at(alloc, kind, file, line)?
        })
    }

    /// A fault without a place. Nothing is allocated.
    pub fn unplaced(alloc: Global, kind: FaultKind) -> Self
        ensures { result ≡ fault_unplaced kind }
    {
        Fault {
            kind,
            place: None,
            subject: Vec::new(alloc),
            count: 0,
        }
    }

    /// The kind of the fault.
    pub fn kind(&self) -> FaultKind
        ensures { result ≡ self.now.kind }
    {
        self.kind
    }

    /// The place of the fault, if it has one.
    pub fn place(&self) -> Option<&Place>
        ensures { option_copied result ≡ self.now.place }
    {
        self.place.as_ref()
    }

    /// The file or the name that the fault is about; empty if its message has none.
    pub fn subject(&self) -> &[u8]
        ensures { result.now ≡ self.now.subject }
    {
        self.subject.as_slice()
    }

    /// The number in the fault's message, or 0 if it has none.
    pub fn count(&self) -> usize
        ensures { result ≡ self.now.count }
    {
        self.count
    }

    /// Whether the fault is an error; otherwise it is a warning.
    pub fn is_error(&self) -> bool
        ensures { result ≡ is_error self.now }
    {
        self.kind.is_error()
    }
}

/// Adds a fault at a line to the list.
///
/// # Errors
///
/// `NoMemory` where an allocation failed.
pub fn add_fault(
    alloc: Global,
    kind: FaultKind,
    file: &[u8],
    line: u32,
    faults: &mut Vec<Fault>,
) -> Result<(), NoMemory>
    ensures { OnOk result (faults.new.items ≡ faults.old.items
        ++ fault_at kind (record { file = file.now; line = line }) ∷ []) }
{
    faults.push(Fault::at(alloc, kind, file, line)?)?;
    Ok(())
}
