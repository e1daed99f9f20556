//! Why a text isn't read as a media playlist.

ghost use Rattle.std.specs.Prelude.{◌≡◌};
ghost use Rattle.media_reading.specs.declared.list_fault.ListFault.TheVariants.{NoMemory};

use std::alloc::AllocError;
use thiserror::Error;

/// Why a text isn't read as a media playlist.
#[derive(Clone, Copy, Debug, PartialEq, Eq, Error)]
pub enum ListFault {
    /// No playlist goes on with the line of this number, counted from 1, or none ends before it.
    #[error("line {0} isn't one that a packager writes there")]
    NotProfile(u64),
    /// There was no memory for the playlist.
    #[error("out of memory")]
    NoMemory,
}

impl From<AllocError> for ListFault {
    ghost from_gives = { λ _ fault. fault ≡ NoMemory };

    fn from(_error: AllocError) -> ListFault {
        ListFault::NoMemory
    }
}
