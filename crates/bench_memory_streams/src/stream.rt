//! A stream with a key frame every six seconds.

use fixture_standard_stream::{PAT, PMT, filled};

/// How many packets it has.
pub const PACKETS: u64 = 800_000;

/// A key frame stands in each so many packets.
const APART: u64 = 2_000;

/// What the packet of a key frame begins with, up to its PTS.
const KEY: &[u8] = b"\x47\x41\x00\x30\x01\x40\x00\x00\x01\xe0\x00\x00\x80\x80\x05";

/// A packet in which a frame goes on.
const MORE: &[u8] = b"\x47\x01\x00\x10";

/// A PTS with its marker bits (ISO/IEC 13818-1, 2.4.3.7).
fn stamp(ticks: u64) -> [u8; 5] {
    [
        0x21 | ((ticks >> 29) & 0x0E) as u8,
        ((ticks >> 22) & 0xFF) as u8,
        1 | ((ticks >> 14) & 0xFE) as u8,
        ((ticks >> 7) & 0xFF) as u8,
        1 | (ticks % 128 * 2) as u8,
    ]
}

/// The packet of a number: tables, and then a key frame every six seconds.
pub fn packet(n: u64) -> [u8; 188] {
    match n {
        0 => filled(PAT, &[]),
        1 => filled(PMT, &[]),
        _ if n % APART == 2 => filled(KEY, &stamp((n / APART).wrapping_mul(540_000))),
        _ => filled(MORE, &[]),
    }
}
