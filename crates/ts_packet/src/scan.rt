ghost use Rattle.std.specs.Prelude.{◌≡◌, ◌+◌, ◌-◌, ◌/◌, ◌<◌, ◌≤◌, ◌^◌, ◌*◌, ◌++◌, [], false, true, IfOk, OnErr, length, drop, vec_len, vec_capacity};
ghost use Rattle.ts_packet.specs.Packets.{begins, fits, is_sync_or_beyond};
ghost use Rattle.ts_packet.specs.State.{needed, Scans};

use crate::joined::Joined;
use crate::lengths::{PACKET, UNDECIDED};
use arrayvec::ArrayVec;
use std::alloc::AllocError;

/// Where a scan ended: the place of the rest, whether a packet ends there, and how many bytes were passed over.
#[derive(Clone, Copy)]
pub(crate) struct Scanned {
    pub at: usize,
    pub locked: bool,
    pub passed: usize,
}

fn is_sync_or_beyond(bytes: &Joined<'_>, at: usize) -> bool
    ensures { result ≡ is_sync_or_beyond bytes.now at }
{
    at >= bytes.len() || bytes.byte(at) == 0x47
}

/// Whether a packet begins at a place: behind a packet where one fits there, else at a lock point.
fn begins(bytes: &Joined<'_>, at: usize, locked: bool) -> bool
    requires fits { at + PACKET ≤ length bytes.now }
    requires small { length bytes.now < 2 ^ 63 }
    ensures { result ≡ begins locked (drop at bytes.now) }
{
    if bytes.byte(at) != 0x47 {
        return false;
    }
    locked || (is_sync_or_beyond(bytes, at + PACKET) && is_sync_or_beyond(bytes, at + 2 * PACKET))
}

/// How many bytes tell whether a packet begins at the first of them.
fn needed(at_end: bool, locked: bool) -> usize
    ensures { result ≡ needed at_end locked }
{
    if at_end || locked {
        PACKET
    } else {
        UNDECIDED + 1
    }
}

/// The packets that stand one behind another from the first byte of a piece on, where a packet ends there.
pub(crate) fn ahead<'a>(
    rest: &ArrayVec<u8, UNDECIDED>,
    locked: bool,
    piece: &'a [u8],
) -> &'a [[u8; 188]]
    ensures within { PACKET * length result.now ≤ length piece.now }
    ensures scans { Scans false locked (rest.now.items ++ piece.now) [] result.now locked (rest.now.items ++ drop (PACKET * length result.now) piece.now) 0 }
    ensures all { locked ≡ true → rest.now.items ≡ [] → fits piece.now (PACKET * length result.now) ≡ false }
{
    if locked && rest.is_empty() {
        return packets_ahead(piece);
    }
    &[]
}

/// The packets that stand one behind another from the first byte on, behind a packet.
fn packets_ahead(bytes: &[u8]) -> &[[u8; 188]]
    ensures within { PACKET * length result.now ≤ length bytes.now }
    ensures scans { Scans false true bytes.now [] result.now true (drop (PACKET * length result.now) bytes.now) 0 }
    ensures all { fits bytes.now (PACKET * length result.now) ≡ false }
{
    let (packets, _) = bytes.as_chunks::<188>();
    let mut count = 0;
    while count < packets.len() && packets[count][0] == 0x47 {
        count += 1;
    }
    &packets[..count]
}

/// What a scan of a piece of a stream left: the bytes that aren't decided, whether a packet ends where they begin, and how many
/// bytes were passed over.
#[derive(Drop)]
pub(crate) struct Left {
    pub rest: ArrayVec<u8, UNDECIDED>,
    pub locked: bool,
    pub passed: usize,
}

/// Appends the packets that are decided by the rest of a stream with a piece behind it.
pub(crate) fn scan_piece(
    rest: &ArrayVec<u8, UNDECIDED>,
    locked: bool,
    piece: &[u8],
    out: &mut Vec<[u8; 188]>,
) -> Result<Left, AllocError>
    requires { length rest.now.items + length piece.now < 2 ^ 63 }
    ensures scans { IfOk result (λ left. Scans false locked (rest.now.items ++ piece.now) out.old.items out.new.items left.locked left.rest.items left.passed) }
    ensures few { IfOk result (λ left. length left.rest.items < needed false left.locked) }
    ensures err { OnErr result (out.new.items ≡ out.old.items) }
    ensures scarce { OnErr result (vec_capacity out.old < vec_len out.old + (length rest.now.items + length piece.now) / PACKET) }
    ensures capacity { vec_capacity out.old ≤ vec_capacity out.new }
{
    let bytes = Joined::new(rest, piece);
    out.reserve(bytes.len() / PACKET)?;
    let scanned = scan(&bytes, locked, false, out);
    Ok(Left {
        rest: bytes.rest(scanned.at),
        locked: scanned.locked,
        passed: scanned.passed,
    })
}

/// Appends the packets that these bytes tell, up to a rest of too few bytes.
pub(crate) fn scan(
    bytes: &Joined<'_>,
    was_locked: bool,
    at_end: bool,
    out: &mut Vec<[u8; 188]>,
) -> Scanned
    requires room { vec_len out.old + length bytes.now / PACKET ≤ vec_capacity out.old }
    requires small { length bytes.now < 2 ^ 63 }
    ensures within { result.at ≤ length bytes.now }
    ensures few { length bytes.now - result.at < needed at_end result.locked }
    ensures scans { Scans at_end was_locked bytes.now out.old.items out.new.items result.locked (drop result.at bytes.now) result.passed }
    ensures capacity { vec_capacity out.old ≤ vec_capacity out.new }
{
    let mut at = 0;
    let mut locked = was_locked;
    let mut passed = 0;
    while bytes.len() - at >= needed(at_end, locked) {
        if begins(bytes, at, locked) {
            out.push_reserved(bytes.packet(at));
            at += PACKET;
            locked = true;
            continue;
        }
        at += 1;
        locked = false;
        passed += 1;
    }
    Scanned { at, locked, passed }
}
