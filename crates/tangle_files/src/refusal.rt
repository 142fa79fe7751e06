//! Why a call is refused.
ghost use Rattle.std.specs.Prelude.{◌≡◌};

use std::alloc::{AllocError, AllocFailed};
use tangle_streams::NoMemory;
use thiserror::Error;

/// Why a call is refused. This crate returns the first nine; crates that use it return the others.
#[derive(Clone, Copy, Debug, PartialEq, Eq, Error)]
pub enum Refusal {
    /// The name is empty, longer than 255 bytes, or has a line feed.
    #[error("a bad file name")]
    BadName,
    /// There is already a file of this name.
    #[error("the file exists")]
    FileExists,
    /// There are already 256 files.
    #[error("too many files")]
    TooManyFiles,
    /// A line has more than 65,535 bytes.
    #[error("a line is too long")]
    LineTooLong,
    /// A file has more than 1,000,000 lines.
    #[error("too many lines")]
    TooManyLines,
    /// An allocation failed.
    #[error("no memory")]
    NoMemory,
    /// There is no file of this name.
    #[error("no such file")]
    UnknownFile,
    /// The file has no line of this number.
    #[error("no such line")]
    NoSuchLine,
    /// The text of an edit has a line feed.
    #[error("a line feed in a line")]
    BadLine,
    /// No file has the role of the web.
    #[error("no web file")]
    NoWeb,
    /// No file has the role of the change file.
    #[error("no change file")]
    NoChange,
    /// The file has a role, so it cannot be removed.
    #[error("the file has a role")]
    RoleFile,
    /// There is no output of this name.
    #[error("no such output")]
    NoOutput,
    /// The writer failed or took no byte. The number counts the bytes already written.
    #[error("the writer failed after {0} bytes")]
    WriteFault(u128),
}

impl From<NoMemory> for Refusal {
    ghost use Rattle.tangle_files.specs.declared.refusal.Refusal.TheVariants.{NoMemory};

    ghost from_gives = { λ _ e. e ≡ NoMemory };

    fn from(_e: NoMemory) -> Refusal {
        Refusal::NoMemory
    }
}

impl From<AllocError> for Refusal {
    ghost use Rattle.tangle_files.specs.declared.refusal.Refusal.TheVariants.{NoMemory};

    ghost from_gives = { λ _ e. e ≡ NoMemory };

    fn from(_e: AllocError) -> Refusal {
        Refusal::NoMemory
    }
}

impl<T: Drop> From<AllocFailed<T>> for Refusal {
    ghost use Rattle.tangle_files.specs.declared.refusal.Refusal.TheVariants.{NoMemory};

    ghost from_gives = { λ _ e. e ≡ NoMemory };

    fn from(_e: AllocFailed<T>) -> Refusal {
        Refusal::NoMemory
    }
}
