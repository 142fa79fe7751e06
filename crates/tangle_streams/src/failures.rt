//! Failures that do not depend on the arguments: of an allocation, of a writer.
use std::alloc::{AllocError, AllocFailed};
use thiserror::Error;

/// An allocation failed.
#[derive(Clone, Copy, Debug, PartialEq, Eq, Error)]
#[error("no memory")]
pub struct NoMemory;

/// The writer failed or took no byte. The number counts the bytes already written.
#[derive(Clone, Copy, Debug, PartialEq, Eq, Error)]
#[error("the writer failed after {0} bytes")]
pub struct WriteFault(pub u128);

impl From<AllocError> for NoMemory {
    fn from(_e: AllocError) -> NoMemory {
        NoMemory
    }
}

impl<T: Drop> From<AllocFailed<T>> for NoMemory {
    fn from(_e: AllocFailed<T>) -> NoMemory {
        NoMemory
    }
}
