ghost use Rattle.std.specs.Prelude.{◌≡◌, ◌+◌, ◌/◌, ◌<◌, ◌≤◌, ◌^◌, ◌++◌, [], length, vec_len, vec_capacity, IfOk, OnOk, OnErr};
ghost use Rattle.ts_packet.specs.Packets.{decided, packets, rest_of, skipped};
ghost use Rattle.ts_packet.specs.State.{AreAllAhead, GrowsAlike, IsKept, LacksRoomBehind};

use crate::joined::Joined;
use crate::lengths::{PACKET, UNDECIDED};
use crate::scan::{ahead, scan, scan_piece};
use arrayvec::ArrayVec;
use ghost_list::GhostList;
use std::alloc::AllocError;
use std::marker::Model;

/// Takes the packets from a stream of bytes that comes in pieces.
///
/// Clauses see a reader as the list of the bytes that it was fed since it stood as new. What it gives depends on that
/// list alone, so it doesn't matter how the stream was cut into pieces. A reader keeps at most 376 bytes.
#[derive(Drop)]
pub struct Reader {
    rest: ArrayVec<u8, UNDECIDED>,
    locked: bool,
    passed: u64,
    fed: GhostList<u8>,
}

impl Model for Reader {
    ghost use Rattle.std.specs.Prelude.{ℕ, ◌<◌, ◌^◌, List, length};
    ghost use Rattle.ts_packet.specs.State.{Keeps};

    ghost Value = { List ℕ };

    ghost view = { λ r. r.fed.items };

    ghost invariant = { λ r. Keeps r.fed.items r.locked r.rest.items r.passed × (length r.fed.items < 2 ^ 63) };
}

/// How many bytes of a stream lie in no packet.
#[derive(Clone, Copy, Debug, PartialEq, Eq)]
pub struct Skipped {
    pub bytes: u64,
}

impl Reader {
    /// A reader that was fed nothing.
    pub fn new() -> Reader
        ensures { result ≡ [] }
    {
        Reader {
            rest: ArrayVec::new(),
            locked: false,
            passed: 0,
            fed: GhostList::new(),
        }
    }

    /// Takes the next piece of the stream, and appends the packets that are decided now: those that come first
    /// however the stream goes on. The caller feeds fewer than 2^63 bytes.
    ///
    /// A refusal leaves the reader and the packets as they were.
    pub fn feed(&mut self, piece: &[u8], out: &mut Vec<[u8; 188]>) -> Result<(), AllocError>
        requires { length self.old + length piece.now < 2 ^ 63 }
        ensures fed { OnOk result (self.new ≡ self.old ++ piece.now) }
        ensures packets { OnOk result (GrowsAlike (decided self.old) (decided self.new) out.old.items out.new.items) }
        ensures err { OnErr result ((self.new ≡ self.old) × (out.new.items ≡ out.old.items)) }
        ensures scarce { OnErr result (vec_capacity out.old < vec_len out.old + (UNDECIDED + length piece.now) / PACKET) }
        ensures room { OnErr result (vec_capacity out.old < vec_len out.old + (length (rest_of self.old).bytes + length piece.now) / PACKET) }
        ensures capacity { vec_capacity out.old ≤ vec_capacity out.new }
    {
        let left = scan_piece(&self.rest, self.locked, piece, out)?;
        self.rest = left.rest;
        self.locked = left.locked;
        self.passed += left.passed as u64;
        self.fed.append(piece);
        Ok(())
    }

    /// Takes the next piece of the stream as `feed` does, and copies none of the packets that stand in it one behind another
    /// from its first byte on, where the packet before it ended: these are lent, and those behind them appended.
    ///
    /// A refusal leaves the reader and the packets as they were.
    pub fn feed_lending<'a>(
        &mut self,
        piece: &'a [u8],
        out: &mut Vec<[u8; 188]>,
    ) -> Result<&'a [[u8; 188]], AllocError>
        requires { length self.old + length piece.now < 2 ^ 63 }
        ensures fed { OnOk result (self.new ≡ self.old ++ piece.now) }
        ensures packets { IfOk result (λ lent. GrowsAlike (decided self.old ++ lent.now) (decided self.new) out.old.items out.new.items) }
        ensures lent { IfOk result (λ lent. AreAllAhead self.old piece.now lent.now) }
        ensures err { OnErr result ((self.new ≡ self.old) × (out.new.items ≡ out.old.items)) }
        ensures scarce { OnErr result (vec_capacity out.old < vec_len out.old + (UNDECIDED + length piece.now) / PACKET) }
        ensures room { OnErr result (vec_capacity out.old < vec_len out.old + (length (rest_of self.old).bytes + length piece.now) / PACKET) }
        ensures behind { OnErr result (LacksRoomBehind self.old piece.now (vec_len out.old) (vec_capacity out.old)) }
        ensures capacity { vec_capacity out.old ≤ vec_capacity out.new }
    {
        let lent = ahead(&self.rest, self.locked, piece);
        let behind = &piece[PACKET * lent.len()..];
        let left = scan_piece(&self.rest, self.locked, behind, out)?;
        self.rest = left.rest;
        self.locked = left.locked;
        self.passed += left.passed as u64;
        self.fed.append(piece);
        Ok(lent)
    }

    /// Ends the stream: appends the packets that weren't decided yet, and tells how many bytes were skipped.
    /// The reader then stands as a new one. A refusal leaves the reader and the packets as they were.
    pub fn finish(&mut self, out: &mut Vec<[u8; 188]>) -> Result<Skipped, AllocError>
        ensures packets { OnOk result (GrowsAlike (decided self.old) (packets self.old) out.old.items out.new.items) }
        ensures skipped { IfOk result (λ gone. gone.bytes ≡ skipped self.old) }
        ensures fresh { OnOk result (self.new ≡ []) }
        ensures err { OnErr result ((self.new ≡ self.old) × (out.new.items ≡ out.old.items)) }
        ensures scarce { OnErr result (vec_capacity out.old < vec_len out.old + UNDECIDED / PACKET) }
        ensures room { OnErr result (vec_capacity out.old < vec_len out.old + length (rest_of self.old).bytes / PACKET) }
        ensures capacity { vec_capacity out.old ≤ vec_capacity out.new }
    {
        let bytes = Joined::new(&self.rest, &[]);
        out.reserve(bytes.len() / PACKET)?;
        let scanned = scan(&bytes, self.locked, true, out);
        let left = bytes.len() - scanned.at;
        let skipped = self.passed + scanned.passed as u64 + left as u64;
        *self = Reader::new();
        Ok(Skipped { bytes: skipped })
    }

    /// How many bytes are kept until more of the stream has come: those behind which nothing is decided yet.
    pub fn kept(&self) -> usize
        ensures rest { IsKept self.now result }
        ensures exact { result ≡ length (rest_of self.now).bytes }
        ensures most { result ≤ UNDECIDED }
    {
        self.rest.len()
    }
}
