use std::alloc::{AllocError, AllocFailed};
use thiserror::Error;

/// A file couldn't be written, renamed, removed, looked for or synced, or memory was refused.
#[derive(Clone, Copy, Debug, PartialEq, Eq, Error)]
#[error("a folder failed")]
pub struct FolderFault;

impl From<AllocError> for FolderFault {
    fn from(_: AllocError) -> FolderFault {
        FolderFault
    }
}

impl<T: Drop> From<AllocFailed<T>> for FolderFault {
    fn from(_: AllocFailed<T>) -> FolderFault {
        FolderFault
    }
}
