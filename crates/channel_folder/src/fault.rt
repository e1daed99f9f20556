//! Why a channel doesn't go on.
ghost use Rattle.std.specs.Prelude.{◌≡◌};

use crate::kept::Kept;
use folder::FolderReadFault;
use std::alloc::{AllocError, AllocFailed};
use thiserror::Error;

/// Why a rendition doesn't go on.
#[derive(Clone, Copy, Debug, PartialEq, Eq, Error)]
pub enum WhyNot {
    /// Its playlists and files aren't those of one rendition of this name.
    #[error("the playlists aren't those of one rendition of this name")]
    Foreign,
    /// The playlists have ended: nothing may be added to them (RFC 8216, 6.2.1).
    #[error("the playlist has ended")]
    Ended,
    /// The media playlist has another target duration, which may not change (RFC 8216, 6.2.1).
    #[error("the playlist has another target duration")]
    OtherTarget,
    /// The media playlist's vectors are under another salt, or under none where there is one.
    #[error("the playlist has another salt")]
    OtherSalt,
    /// The media playlist is one of an event and the run isn't, or the other way.
    #[error("the playlist is one of another kind")]
    OtherKind,
    /// It had another number of discontinuities than one before it.
    #[error("the rendition had another number of discontinuities")]
    Uneven,
    /// The file of this segment isn't there, which is listed.
    #[error("segment {0} is listed, and its file isn't there")]
    Lost(u64),
    /// The file of this segment is there, which isn't listed and comes next or later.
    #[error("segment {0} isn't listed, and its file is there")]
    Ahead(u64),
    /// The next segment's number or that of its discontinuity is past the last, or more segments are listed than a run goes on
    /// behind.
    #[error("the playlist has come to the last number")]
    Limit,
}

/// Why a channel doesn't go on.
#[derive(Clone, Copy, Debug, PartialEq, Eq, Error)]
pub enum ReopenFault {
    /// The folder can't be read.
    #[error("a folder can't be read")]
    Unread,
    /// There was no memory for what was read.
    #[error("out of memory")]
    NoMemory,
    /// A rendition, counted from 0, doesn't go on.
    #[error("rendition {0}: {1}")]
    Of(usize, WhyNot),
}

impl From<Kept<ReopenFault>> for ReopenFault {
    ghost from_gives = { λ kept fault. fault ≡ kept.fault };

    fn from(kept: Kept<ReopenFault>) -> ReopenFault {
        kept.into_fault()
    }
}

impl<T: Drop> From<AllocFailed<T>> for Kept<ReopenFault> {
    ghost use Rattle.channel_folder.specs.declared.fault.ReopenFault.TheVariants.{NoMemory};

    ghost from_gives = { λ _ kept. kept.fault ≡ NoMemory };

    fn from(_: AllocFailed<T>) -> Kept<ReopenFault> {
        ReopenFault::NoMemory.into()
    }
}

/// Why one rendition isn't reopened.
#[derive(Clone, Copy)]
pub(crate) enum ReopenStop {
    Unread,
    NoMemory,
    Why(WhyNot),
}

impl From<AllocError> for Kept<ReopenStop> {
    ghost use Rattle.channel_folder.specs.declared.fault.ReopenStop.TheVariants.{NoMemory};

    ghost from_gives = { λ _ kept. kept.fault ≡ NoMemory };

    fn from(_: AllocError) -> Kept<ReopenStop> {
        ReopenStop::NoMemory.into()
    }
}

impl<T: Drop> From<AllocFailed<T>> for Kept<ReopenStop> {
    ghost use Rattle.channel_folder.specs.declared.fault.ReopenStop.TheVariants.{NoMemory};

    ghost from_gives = { λ _ kept. kept.fault ≡ NoMemory };

    fn from(_: AllocFailed<T>) -> Kept<ReopenStop> {
        ReopenStop::NoMemory.into()
    }
}

impl From<WhyNot> for Kept<ReopenStop> {
    ghost use Rattle.channel_folder.specs.declared.fault.ReopenStop.TheVariants.{Why};

    ghost from_gives = { λ why kept. kept.fault ≡ Why why };

    fn from(why: WhyNot) -> Kept<ReopenStop> {
        ReopenStop::Why(why).into()
    }
}

impl From<FolderReadFault> for Kept<ReopenStop> {
    ghost use Rattle.channel_folder.specs.StopOf.{stop_of_read};

    ghost from_gives = { λ fault kept. kept.fault ≡ stop_of_read fault };

    fn from(fault: FolderReadFault) -> Kept<ReopenStop> {
        let stop = match fault {
            FolderReadFault::Unread => ReopenStop::Unread,
            FolderReadFault::NoMemory => ReopenStop::NoMemory,
        };
        stop.into()
    }
}

impl From<Kept<FolderReadFault>> for Kept<ReopenStop> {
    ghost use Rattle.channel_folder.specs.StopOf.{stop_of_read};

    ghost from_gives = { λ found kept. kept.fault ≡ stop_of_read found.fault };

    fn from(found: Kept<FolderReadFault>) -> Kept<ReopenStop> {
        found.into_fault().into()
    }
}

impl From<Kept<FolderReadFault>> for FolderReadFault {
    ghost from_gives = { λ kept fault. fault ≡ kept.fault };

    fn from(kept: Kept<FolderReadFault>) -> FolderReadFault {
        kept.into_fault()
    }
}

impl From<AllocError> for Kept<FolderReadFault> {
    ghost use Rattle.folder.specs.declared.read_fault.FolderReadFault.TheVariants.{NoMemory};

    ghost from_gives = { λ _ kept. kept.fault ≡ NoMemory };

    fn from(_: AllocError) -> Kept<FolderReadFault> {
        FolderReadFault::NoMemory.into()
    }
}
