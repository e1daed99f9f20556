//! Why segments don't unpack.

ghost use Rattle.std.specs.Prelude.{◌≡◌};
ghost use Rattle.hls_check.specs.declared.fault.UnpackFault.TheVariants.{NoMemory};

use std::alloc::{AllocError, AllocFailed};
use thiserror::Error;

/// Why the segments of a playlist don't unpack. Entries are counted from 0. Of several faults the first kind is told that
/// any entry has, at the least such entry.
#[derive(Clone, Copy, Debug, PartialEq, Eq, Error)]
pub enum UnpackFault {
    /// There are no bytes for this entry, or no key of its index.
    #[error("entry {0} has no segment or no key")]
    Missing(usize),
    /// The bytes of this entry are those of no text, under its key and the vector of its number.
    #[error("entry {0} doesn't open")]
    Closed(usize),
    /// The text of this entry doesn't begin with a segment head.
    #[error("entry {0} doesn't begin with its tables")]
    NoHead(usize),
    /// There was no memory for a text that was opened, or for the packets.
    #[error("out of memory")]
    NoMemory,
}

impl From<AllocError> for UnpackFault {
    ghost from_gives = { λ _ fault. fault ≡ NoMemory };

    fn from(_error: AllocError) -> UnpackFault {
        UnpackFault::NoMemory
    }
}

impl<T: Drop> From<AllocFailed<T>> for UnpackFault {
    ghost from_gives = { λ _ fault. fault ≡ NoMemory };

    fn from(_error: AllocFailed<T>) -> UnpackFault {
        UnpackFault::NoMemory
    }
}
