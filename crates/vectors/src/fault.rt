// Why a line has no outcome.
use std::alloc::{AllocError, AllocFailed};
use std::error::Error;
use std::fmt;

#[derive(Clone, Copy, Debug, PartialEq, Eq)]
pub enum Fault {
    // The line is no vector.
    NotAVector,
    // Key or input have not the length that the algorithm takes, or do not read.
    OtherLength,
    OutOfMemory,
}

impl fmt::Display for Fault {
    fn fmt<W: fmt::Write>(&self, f: &mut fmt::Formatter<W>) -> fmt::Result {
        f.write_str(match self {
            Fault::NotAVector => "not a vector",
            Fault::OtherLength => "key or input have another length",
            Fault::OutOfMemory => "memory allocation failed",
        })
    }
}

impl Error for Fault {}

impl<T: Drop> From<AllocFailed<T>> for Fault {
    fn from(_failed: AllocFailed<T>) -> Fault {
        Fault::OutOfMemory
    }
}

impl From<AllocError> for Fault {
    fn from(_failed: AllocError) -> Fault {
        Fault::OutOfMemory
    }
}
