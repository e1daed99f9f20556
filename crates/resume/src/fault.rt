//! Why a rendition doesn't go on.

ghost use Rattle.std.specs.Prelude.{◌≡◌};
ghost use Rattle.resume.specs.declared.fault.ResumeFault.TheVariants.{Foreign, NoMemory};

use std::alloc::AllocError;
use thiserror::Error;

/// Why a rendition doesn't go on from its playlists.
#[derive(Clone, Copy, Debug, PartialEq, Eq, Error)]
pub enum ResumeFault {
    /// The playlists have ended: nothing may be added to them (RFC 8216, 6.2.1).
    #[error("the playlist has ended")]
    Ended,
    /// The media playlist has another target duration, which may not change (RFC 8216, 6.2.1).
    #[error("the playlist has another target duration")]
    OtherTarget,
    /// The media playlist's vectors are under another salt, or under none where there is one.
    #[error("the playlist has another salt")]
    OtherSalt,
    /// The media playlist is one of an event and the run isn't, or the other way.
    #[error("the playlist is one of another kind")]
    OtherKind,
    /// The next segment's number or that of its discontinuity is past the last, or more segments are listed than a run goes on
    /// behind.
    #[error("the playlist has come to the last number")]
    Limit,
    /// The two playlists and the files aren't those of one rendition of this name.
    #[error("the playlists aren't those of one rendition of this name")]
    Foreign,
    /// There was no memory for the rows.
    #[error("out of memory")]
    NoMemory,
}

impl From<AllocError> for ResumeFault {
    ghost from_gives = { λ _ fault. fault ≡ NoMemory };

    fn from(_error: AllocError) -> ResumeFault {
        ResumeFault::NoMemory
    }
}

/// The playlists and the files aren't those of one rendition. It can't be let go, so that it's told as that.
pub(crate) struct Apart;

impl From<Apart> for ResumeFault {
    ghost from_gives = { λ _ fault. fault ≡ Foreign };

    fn from(found: Apart) -> ResumeFault {
        let Apart = found;
        ResumeFault::Foreign
    }
}
