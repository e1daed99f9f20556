//! How much is read ahead at the most, and how long an input is waited for.
ghost use Rattle.std.specs.Prelude.{◌≡◌, ◌+◌, ◌*◌, ◌≤◌, ◌^◌};
ghost use Rattle.read_ahead.specs.Shares.{room_for};
ghost use Rattle.read_ahead.specs.declared.limits.TheConstants.{BLOCK, BLOCKS, FILE_MOMENT, FILE_ROOM, LEAST_WAIT, MOMENT, READ, ROOM, SLOTS, SPARES, WASTE};

use item_io::PIECE;
use std::time::Duration;

/// The most bytes of an input that lie ready where no other bound is asked for, but for a block that was put where none did.
pub const ROOM: usize = 32 << 20;

/// The most bytes of a plain file that lie ready where no other bound is asked for, in the same way: few enough to be in the
/// processor's cache when they are looked at.
pub const FILE_ROOM: usize = 8 << 20;

/// The most blocks of an input that lie ready.
pub const BLOCKS: usize = 32 << 10;

/// The most messages of an input that lie ready: its blocks, that it's open, and its end.
pub const SLOTS: usize = BLOCKS + 8;

/// The most bytes that an input is asked for at once: three pieces, which a source can give without joining blocks.
pub const READ: usize = 3 * PIECE;

/// The most blocks that are kept to be read into again, of all inputs together: as many as fill the room of a plain file.
pub const SPARES: usize = 148;

/// The least room of an input. A block needs no more.
pub const BLOCK: usize = 64 << 10;

/// The most bytes that an input is asked for at once where they are thrown away.
pub const WASTE: usize = 16 << 10;

/// How long the writers of all FIFOs are waited for before it begins without them, in milliseconds.
pub const MOMENT: u64 = 100;

/// How long the next bytes of a plain file are waited for before it's said that none lie ready, in milliseconds.
pub const FILE_MOMENT: u64 = 2;

/// The least time that is waited for news of inputs which may fall silent, in milliseconds.
pub const LEAST_WAIT: u64 = 1;

/// What the bounds are.
pub fn bounds_are_these()
    ensures room { ROOM ≡ 32 * 2 ^ 20 }
    ensures file_room { FILE_ROOM ≡ 8 * 2 ^ 20 }
    ensures read { READ ≡ 56_400 }
    ensures spares { SPARES ≡ 148 }
    ensures fill { SPARES * READ ≤ FILE_ROOM }
    ensures block { BLOCK ≡ 2 ^ 16 }
    ensures blocks { BLOCKS ≡ 2 ^ 15 }
    ensures slots { SLOTS ≡ 2 ^ 15 + 8 }
    ensures waste { WASTE ≡ 2 ^ 14 }
    ensures moment { MOMENT ≡ 100 }
    ensures file_moment { FILE_MOMENT ≡ 2 }
    ensures least_wait { LEAST_WAIT ≡ 1 }
{}

/// How inputs are read ahead.
#[derive(Clone, Copy, Debug, Drop)]
pub struct Limits {
    /// An input that gives nothing for so long fails. If absent, it is waited for as long as it takes.
    pub stall: Option<Duration>,
    /// The most MiB that lie ready of all inputs together. If absent, 32 of each, or 8 of a plain file.
    pub ahead: Option<u64>,
}

impl Limits {
    /// The most bytes that lie ready of each of so many inputs, or of each that is a plain file, but for a block that was put where
    /// none did.
    pub fn room(self, inputs: usize, is_file: bool) -> usize
        ensures { result ≡ room_for self.ahead inputs is_file }
    {
        let Some(ahead) = self.ahead else {
            return if is_file { FILE_ROOM } else { ROOM };
        };
        let bytes = ahead.saturating_mul(1 << 20) as usize;
        (bytes / inputs.max(1)).max(BLOCK)
    }
}
