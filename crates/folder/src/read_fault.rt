use std::alloc::{AllocError, AllocFailed};
use thiserror::Error;

/// Why a folder isn't read.
#[derive(Clone, Copy, Debug, PartialEq, Eq, Error)]
pub enum FolderReadFault {
    #[error("a folder can't be read")]
    Unread,
    #[error("out of memory")]
    NoMemory,
}

impl From<AllocError> for FolderReadFault {
    ghost use Rattle.folder.specs.declared.read_fault.FolderReadFault.TheVariants.{NoMemory};
    ghost use Rattle.std.specs.Prelude.{◌≡◌};

    ghost from_gives = { λ _ fault. fault ≡ NoMemory };

    fn from(_: AllocError) -> FolderReadFault {
        FolderReadFault::NoMemory
    }
}

impl<T: Drop> From<AllocFailed<T>> for FolderReadFault {
    ghost use Rattle.folder.specs.declared.read_fault.FolderReadFault.TheVariants.{NoMemory};
    ghost use Rattle.std.specs.Prelude.{◌≡◌};

    ghost from_gives = { λ _ fault. fault ≡ NoMemory };

    fn from(_: AllocFailed<T>) -> FolderReadFault {
        FolderReadFault::NoMemory
    }
}
