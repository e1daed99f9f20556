ghost use Rattle.std.specs.Prelude.{◌≡◌, ◌<◌, ◌≤◌, ◌^◌, length, IfOk, OnErr, flat_map};
ghost use Rattle.ts_packet.specs.Packets.{packets, skipped};

use crate::lengths::PACKET;
use crate::reader::{Reader, Skipped};
use std::alloc::{AllocError, Global};

/// All packets of a stream, and how many of its bytes lie in none.
#[derive(Drop)]
pub struct Stream {
    pub packets: Vec<[u8; 188]>,
    pub skipped: Skipped,
}

/// Reads a whole stream that comes in pieces. The answer doesn't depend on how it was cut. The caller feeds fewer than
/// 2^63 bytes.
pub fn read_pieces(alloc: Global, pieces: &[Vec<u8>]) -> Result<Stream, AllocError>
    requires { length (flat_map (λ piece. piece.items) pieces.now) < 2 ^ 63 }
    ensures packets { IfOk result (λ all. all.packets.items ≡ packets (flat_map (λ piece. piece.items) pieces.now)) }
    ensures skipped { IfOk result (λ all. all.skipped.bytes ≡ skipped (flat_map (λ piece. piece.items) pieces.now)) }
    ensures scarce { OnErr result (PACKET ≤ length (flat_map (λ piece. piece.items) pieces.now)) }
{
    let mut reader = Reader::new();
    let mut packets = Vec::new(alloc);
    for piece in pieces {
        reader.feed(piece, &mut packets)?;
    }
    let skipped = reader.finish(&mut packets)?;
    Ok(Stream { packets, skipped })
}
