//! Why a ladder doesn't go on.

ghost use Rattle.std.specs.Prelude.{◌≡◌};

use crate::kept::Kept;
use channel_folder::{ReopenFault, WhyNot};
use folder::FolderReadFault;
use std::alloc::{AllocError, AllocFailed};
use thiserror::Error;

/// Why a ladder doesn't go on in its folder. Renditions are counted from 0.
#[derive(Clone, Copy, Debug, PartialEq, Eq, Error)]
pub enum ResumingFault {
    /// The folder can't be read.
    #[error("the folder can't be read")]
    Unread,
    /// A file of it can't be renamed or removed.
    #[error("the folder can't be changed")]
    Outlet,
    #[error("out of memory")]
    NoMemory,
    /// This rendition doesn't go on.
    #[error("rendition {0}: {1}")]
    Not(usize, WhyNot),
    /// A segment that this rendition's playlist lists doesn't open under the key of this index.
    #[error("rendition {0} doesn't open under its key {1}")]
    OtherKeys(usize, u64),
}

impl From<AllocError> for ResumingFault {
    ghost use Rattle.channel.specs.declared.fault.ResumingFault.TheVariants.{NoMemory};

    ghost from_gives = { λ _ fault. fault ≡ NoMemory };

    fn from(_: AllocError) -> ResumingFault {
        ResumingFault::NoMemory
    }
}

impl<T: Drop> From<AllocFailed<T>> for ResumingFault {
    ghost use Rattle.channel.specs.declared.fault.ResumingFault.TheVariants.{NoMemory};

    ghost from_gives = { λ _ fault. fault ≡ NoMemory };

    fn from(_: AllocFailed<T>) -> ResumingFault {
        ResumingFault::NoMemory
    }
}

impl From<FolderReadFault> for ResumingFault {
    ghost use Rattle.channel.specs.Faults.{of_reading};

    ghost from_gives = { λ why fault. fault ≡ of_reading why };

    fn from(why: FolderReadFault) -> ResumingFault {
        match why {
            FolderReadFault::Unread => ResumingFault::Unread,
            FolderReadFault::NoMemory => ResumingFault::NoMemory,
        }
    }
}

impl From<Kept<ResumingFault>> for ResumingFault {
    ghost from_gives = { λ kept fault. fault ≡ kept.fault };

    fn from(kept: Kept<ResumingFault>) -> ResumingFault {
        kept.into_fault()
    }
}

impl From<AllocError> for Kept<ResumingFault> {
    ghost use Rattle.channel.specs.declared.fault.ResumingFault.TheVariants.{NoMemory};

    ghost from_gives = { λ _ kept. kept.fault ≡ NoMemory };

    fn from(_: AllocError) -> Kept<ResumingFault> {
        ResumingFault::NoMemory.into()
    }
}

impl From<FolderReadFault> for Kept<ResumingFault> {
    ghost use Rattle.channel.specs.Faults.{of_reading};

    ghost from_gives = { λ why kept. kept.fault ≡ of_reading why };

    fn from(why: FolderReadFault) -> Kept<ResumingFault> {
        let fault = match why {
            FolderReadFault::Unread => ResumingFault::Unread,
            FolderReadFault::NoMemory => ResumingFault::NoMemory,
        };
        fault.into()
    }
}

impl From<ReopenFault> for Kept<ResumingFault> {
    ghost use Rattle.channel.specs.Faults.{of_reopening};

    ghost from_gives = { λ why kept. kept.fault ≡ of_reopening why };

    fn from(why: ReopenFault) -> Kept<ResumingFault> {
        let fault = match why {
            ReopenFault::Unread => ResumingFault::Unread,
            ReopenFault::NoMemory => ResumingFault::NoMemory,
            ReopenFault::Of(r, why) => ResumingFault::Not(r, why),
        };
        fault.into()
    }
}
