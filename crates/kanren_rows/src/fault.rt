//! What is wrong with a table.

use std::alloc::{AllocError, AllocFailed};

/// Why a case can't be tried.
#[derive(Clone, Copy, Debug)]
pub(crate) enum Fault {
    /// There was no memory.
    Memory,
    /// A line of the table isn't what it must be.
    Wrong(&'static str),
}

impl Fault {
    /// What is said of it.
    pub(crate) fn text(&self) -> &'static str {
        match self {
            Fault::Memory => "no memory",
            Fault::Wrong(text) => text,
        }
    }
}

impl From<AllocError> for Fault {
    fn from(_error: AllocError) -> Fault {
        Fault::Memory
    }
}

impl<T: Drop> From<AllocFailed<T>> for Fault {
    fn from(_error: AllocFailed<T>) -> Fault {
        Fault::Memory
    }
}
