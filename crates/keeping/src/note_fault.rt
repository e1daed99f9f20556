ghost use Rattle.std.specs.Prelude.{◌≡◌};
ghost use Rattle.keeping.specs.declared.note_fault.NoteFault.TheVariants.{NoMemory};

use std::alloc::AllocError;

/// Why a media playlist isn't noted.
#[derive(Clone, Copy, Debug, PartialEq, Eq)]
pub enum NoteFault {
    /// It isn't a media playlist, or doesn't go on from the one before.
    Refused,
    /// Memory for it is refused.
    NoMemory,
}

impl From<AllocError> for NoteFault {
    ghost from_gives = { λ _ fault. fault ≡ NoMemory };

    fn from(_: AllocError) -> NoteFault {
        NoteFault::NoMemory
    }
}
