//! Why a case was not tried.

use std::alloc::{AllocError, AllocFailed};

#[derive(Clone, Copy)]
pub enum CaseError {
    /// It is not written as a case is.
    Form(&'static str),
    Memory,
}

impl From<AllocError> for CaseError {
    fn from(_: AllocError) -> Self {
        CaseError::Memory
    }
}

impl<T: Drop> From<AllocFailed<T>> for CaseError {
    fn from(_: AllocFailed<T>) -> Self {
        CaseError::Memory
    }
}
