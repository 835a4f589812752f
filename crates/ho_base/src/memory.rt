// Want of memory.
use std::alloc::{AllocError, AllocFailed};

/// There was no memory.
#[derive(Clone, Copy, Debug, PartialEq, Eq)]
pub struct NoMemory;

impl From<AllocError> for NoMemory {
    fn from(_: AllocError) -> Self {
        NoMemory
    }
}

impl<T: Drop> From<AllocFailed<T>> for NoMemory {
    fn from(_: AllocFailed<T>) -> Self {
        NoMemory
    }
}

/// There was no memory for a call, which hands its argument back.
#[derive(Debug, Drop)]
pub struct Unpaid<C> {
    pub back: C,
}

impl<C: Drop> From<Unpaid<C>> for NoMemory {
    fn from(_: Unpaid<C>) -> Self {
        NoMemory
    }
}
