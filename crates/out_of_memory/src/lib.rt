//! The answer for want of memory, one type for every crate of the store.
#![tactic(auto)]

use std::alloc::{AllocError, AllocFailed};

/// No memory was left for a call. It is merged with no other fault, and no contract says when it comes; what a contract
/// says is that the value on which the call was made is then as it was before.
#[derive(Clone, Copy, Debug, PartialEq, Eq)]
pub struct Memory;

impl From<AllocError> for Memory {
    fn from(_error: AllocError) -> Memory {
        Memory
    }
}

impl<T: Drop> From<AllocFailed<T>> for Memory {
    fn from(_refused: AllocFailed<T>) -> Memory {
        Memory
    }
}
