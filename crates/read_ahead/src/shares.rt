//! How much a source gives at a read, so that all are done with what lies ready in the same number of turns.
ghost use Rattle.std.specs.Prelude.{◌≡◌, ◌<◌, max};
ghost use Rattle.read_ahead.specs.Shares.{parts, share, turns};

use crate::backlog::Backlog;
use item_io::PIECE;
use ts_packet::PACKET;

/// So many things in parts of this size: how many parts.
pub fn parts_of(count: usize, size: usize) -> usize
    requires { 0 < size }
    ensures { result ≡ parts count size }
{
    count.div_ceil(size)
}

/// In how many turns all inputs of which more is given have given what lies ready.
#[tactic(auto, using(crate::proofs::Turns::turns_some))]
pub fn turns_of(backlogs: &[Backlog]) -> usize
    ensures is { result ≡ turns backlogs.now }
    ensures some { 0 < result }
{
    let mut most = 1;
    for backlog in backlogs {
        if !backlog.left {
            most = most.max(parts_of(backlog.bytes, PIECE));
        }
    }
    most
}

/// How many of so many bytes a source gives in one of so many turns: whole packets, so that a stream which begins with one is given
/// from packet to packet.
pub fn share_of(bytes: usize, turns: usize) -> usize
    requires { 0 < turns }
    ensures is { result ≡ share bytes turns }
    ensures some { 0 < result }
{
    let packets = parts_of(parts_of(bytes, turns), PACKET).max(1);
    packets.saturating_mul(PACKET)
}
