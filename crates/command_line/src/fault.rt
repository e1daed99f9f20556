ghost use Rattle.std.specs.Prelude.{◌≡◌};

use channel::ResumingFault;
use commands::{
    CheckingFault, CipherFault, KeyListFault, LadderFault, LadderPackingFault, OpeningFault,
    SealingFault, SettingsFault,
};
use ladder_items::PackFault;
use live_board::BoardFault;
use read_ahead::InputFault;
use std::alloc::{AllocError, AllocFailed};

/// Why the program ends without having done its work. It prints as the line that standard error gets.
#[derive(Debug, Drop)]
pub enum Fault {
    /// The command line isn't one; clap's text says why, or is the help that was asked for.
    Usage(clap::Error),
    /// A word of the command line isn't UTF-8.
    NotUtf8,
    /// Its words tell no key and vector.
    Cipher(CipherFault),
    /// They tell no settings.
    Settings(SettingsFault),
    /// They tell no keys.
    KeyList(KeyListFault),
    /// They tell no ladder.
    Ladder(LadderFault),
    /// Memory for the command line was refused.
    NoMemory,
    /// Another packager works in the folder.
    Busy,
    Sealing(SealingFault),
    Opening(OpeningFault),
    /// A ladder doesn't go on in its folder.
    Resuming(ResumingFault),
    /// A stream of a ladder can't be opened.
    Unopened(InputFault),
    Packing(PackFault),
    LadderPacking(LadderPackingFault),
    Checking(CheckingFault),
}

impl Fault {
    ghost use Rattle.command_line.specs.Faults.{status_of};

    /// The status that the process ends with: 2 for a refused command line, else 1.
    pub fn status(&self) -> u8
        ensures { result ≡ status_of self.now }
    {
        match self {
            Fault::Usage(_) | Fault::NotUtf8 => 2,
            Fault::Cipher(fault) => fault.status(),
            Fault::Settings(fault) => fault.status(),
            Fault::KeyList(fault) => fault.status(),
            Fault::Ladder(fault) => fault.status(),
            _ => 1,
        }
    }
}

impl From<AllocError> for Fault {
    ghost use Rattle.command_line.specs.declared.fault.Fault.TheVariants.{NoMemory};

    ghost from_gives = { λ _ fault. fault ≡ NoMemory };

    fn from(_: AllocError) -> Fault {
        Fault::NoMemory
    }
}

impl<T: Drop> From<AllocFailed<T>> for Fault {
    ghost use Rattle.command_line.specs.declared.fault.Fault.TheVariants.{NoMemory};

    ghost from_gives = { λ _ fault. fault ≡ NoMemory };

    fn from(_: AllocFailed<T>) -> Fault {
        Fault::NoMemory
    }
}

impl From<clap::Error> for Fault {
    ghost use Rattle.command_line.specs.Faults.{IsRefusal};

    ghost from_gives = { IsRefusal };

    fn from(error: clap::Error) -> Fault {
        match error.kind() {
            clap::error::ErrorKind::OutOfMemory => Fault::NoMemory,
            _ => Fault::Usage(error),
        }
    }
}

impl From<CipherFault> for Fault {
    ghost use Rattle.command_line.specs.declared.fault.Fault.TheVariants.{Cipher};

    ghost from_gives = { λ why fault. fault ≡ Cipher why };

    fn from(why: CipherFault) -> Fault {
        Fault::Cipher(why)
    }
}

impl From<SettingsFault> for Fault {
    ghost use Rattle.command_line.specs.declared.fault.Fault.TheVariants.{Settings};

    ghost from_gives = { λ why fault. fault ≡ Settings why };

    fn from(why: SettingsFault) -> Fault {
        Fault::Settings(why)
    }
}

impl From<KeyListFault> for Fault {
    ghost use Rattle.command_line.specs.declared.fault.Fault.TheVariants.{KeyList};

    ghost from_gives = { λ why fault. fault ≡ KeyList why };

    fn from(why: KeyListFault) -> Fault {
        Fault::KeyList(why)
    }
}

impl From<SealingFault> for Fault {
    ghost use Rattle.command_line.specs.declared.fault.Fault.TheVariants.{Sealing};

    ghost from_gives = { λ why fault. fault ≡ Sealing why };

    fn from(why: SealingFault) -> Fault {
        Fault::Sealing(why)
    }
}

impl From<OpeningFault> for Fault {
    ghost use Rattle.command_line.specs.declared.fault.Fault.TheVariants.{Opening};

    ghost from_gives = { λ why fault. fault ≡ Opening why };

    fn from(why: OpeningFault) -> Fault {
        Fault::Opening(why)
    }
}

impl From<PackFault> for Fault {
    ghost use Rattle.command_line.specs.declared.fault.Fault.TheVariants.{Packing};

    ghost from_gives = { λ why fault. fault ≡ Packing why };

    fn from(why: PackFault) -> Fault {
        Fault::Packing(why)
    }
}

impl From<CheckingFault> for Fault {
    ghost use Rattle.command_line.specs.declared.fault.Fault.TheVariants.{Checking};

    ghost from_gives = { λ why fault. fault ≡ Checking why };

    fn from(why: CheckingFault) -> Fault {
        Fault::Checking(why)
    }
}

impl From<LadderFault> for Fault {
    ghost use Rattle.command_line.specs.declared.fault.Fault.TheVariants.{Ladder};

    ghost from_gives = { λ why fault. fault ≡ Ladder why };

    fn from(why: LadderFault) -> Fault {
        Fault::Ladder(why)
    }
}

impl From<ResumingFault> for Fault {
    ghost use Rattle.command_line.specs.declared.fault.Fault.TheVariants.{Resuming};

    ghost from_gives = { λ why fault. fault ≡ Resuming why };

    fn from(why: ResumingFault) -> Fault {
        Fault::Resuming(why)
    }
}

impl From<InputFault> for Fault {
    ghost use Rattle.command_line.specs.declared.fault.Fault.TheVariants.{Unopened};

    ghost from_gives = { λ why fault. fault ≡ Unopened why };

    fn from(why: InputFault) -> Fault {
        Fault::Unopened(why)
    }
}

impl From<LadderPackingFault> for Fault {
    ghost use Rattle.command_line.specs.declared.fault.Fault.TheVariants.{LadderPacking};

    ghost from_gives = { λ why fault. fault ≡ LadderPacking why };

    fn from(why: LadderPackingFault) -> Fault {
        Fault::LadderPacking(why)
    }
}

/// One viewer always finds a place.
impl From<BoardFault> for Fault {
    ghost use Rattle.command_line.specs.declared.fault.Fault.TheVariants.{NoMemory};

    ghost from_gives = { λ _ fault. fault ≡ NoMemory };

    fn from(_: BoardFault) -> Fault {
        Fault::NoMemory
    }
}
