ghost use Rattle.std.specs.Prelude.{◌≡◌};

use crate::kept::Kept;
use crate::key_word::KeyFileFault;
use crate::within::OutsideLimits;
use std::alloc::AllocError;
use thiserror::Error;

/// Why words and numbers tell no ladder.
#[derive(Clone, Copy, Debug, PartialEq, Eq, Error)]
pub enum LadderFault {
    /// The entry of this number, counted from 1, has fewer than four colons, no size, or a key that is neither 32 hex
    /// digits nor the name of a file.
    #[error("entry {0} isn't NAME:CODECS:WxH:KEY[+KEY..]:PATH")]
    BadEntry(usize),
    /// The salt isn't 32 hex digits.
    #[error("the salt isn't 32 hex digits")]
    BadVector,
    /// An entry has more than 4,096 keys.
    #[error("there are too many keys")]
    TooMany,
    /// The keys take turns after no segment at all.
    #[error("the keys take turns after no segment")]
    ZeroPeriod,
    /// A number is outside its limits, or the renditions can't be listed together.
    #[error("the settings aren't allowed")]
    Settings,
    /// The file of a key can't be read.
    #[error("a key file can't be read")]
    Unread,
    /// A key file of the entry of this number, counted from 1, is neither 16 bytes nor 32 hex digits with at most one LF behind
    /// them.
    #[error("a key file of entry {0} is neither 16 bytes nor 32 hex digits")]
    BadKeyFile(usize),
    #[error("out of memory")]
    NoMemory,
}

impl LadderFault {
    ghost use Rattle.commands.specs.Statuses.{ladder_status};

    /// The status that a process ends with: 2 for a bad entry or salt, else 1.
    pub fn status(&self) -> u8
        ensures { result ≡ ladder_status self.now }
    {
        match self {
            LadderFault::BadEntry(_) | LadderFault::BadVector => 2,
            _ => 1,
        }
    }
}

impl From<AllocError> for LadderFault {
    ghost use Rattle.commands.specs.declared.ladder_fault.LadderFault.TheVariants.{NoMemory};

    ghost from_gives = { λ _ fault. fault ≡ NoMemory };

    fn from(_: AllocError) -> LadderFault {
        LadderFault::NoMemory
    }
}

impl From<Kept<LadderFault>> for LadderFault {
    ghost from_gives = { λ why fault. fault ≡ why.fault };

    fn from(why: Kept<LadderFault>) -> LadderFault {
        why.into_fault()
    }
}

impl From<AllocError> for Kept<LadderFault> {
    ghost use Rattle.commands.specs.declared.ladder_fault.LadderFault.TheVariants.{NoMemory};

    ghost from_gives = { λ _ why. why.fault ≡ NoMemory };

    fn from(_: AllocError) -> Kept<LadderFault> {
        LadderFault::NoMemory.into()
    }
}

impl From<OutsideLimits> for Kept<LadderFault> {
    ghost use Rattle.commands.specs.declared.ladder_fault.LadderFault.TheVariants.{Settings};

    ghost from_gives = { λ _ why. why.fault ≡ Settings };

    fn from(found: OutsideLimits) -> Kept<LadderFault> {
        let OutsideLimits = found;
        LadderFault::Settings.into()
    }
}

impl From<Kept<KeyFileFault>> for Kept<LadderFault> {
    ghost use Rattle.commands.specs.Told.{ladder_fault_of};

    ghost from_gives = { λ found why. why.fault ≡ ladder_fault_of found.fault };

    fn from(found: Kept<KeyFileFault>) -> Kept<LadderFault> {
        let fault = match found.into_fault() {
            KeyFileFault::Unread => LadderFault::Unread,
            KeyFileFault::BadKeyFile(number) => LadderFault::BadKeyFile(number),
            KeyFileFault::NoMemory => LadderFault::NoMemory,
        };
        fault.into()
    }
}
