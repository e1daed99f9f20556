ghost use Rattle.std.specs.Prelude.{◌≡◌, ◌<◌, ℕ, List, OnOk, IfOk, IfErr, IsErrOf};
ghost use Rattle.ts_packet.specs.Packets.{packets};
ghost use Rattle.commands.specs.Counts.{HasRoom, ReadsFewer, ReadingCounts};
ghost use Rattle.commands.specs.Streams.{ReadsAll};

use crate::reading::ReadingFault;
use item_io::{PIECE, READS, Source};
use std::alloc::Global;
use ts_packet::Reader;

/// All packets of an input, which is read to its end. Of the last read that it may have no byte is kept, as in
/// [`read_all`](crate::reading::read_all).
pub(crate) fn read_packets<S: Source>(
    alloc: Global,
    input: &mut S,
) -> Result<Vec<[u8; 188]>, ReadingFault>
    requires room { HasRoom (S.input.reads input.old) (S.input.failures input.old) }
    ensures packets { IfOk result (λ found. (bytes : List ℕ)
        × ReadsAll (S.input.left input.old) (S.input.left input.new) bytes × (found.items ≡ packets bytes)) }
    ensures ok_counts { OnOk result (ReadsFewer (S.input.reads input.old) (S.input.reads input.new) (S.input.failures input.old) (S.input.failures input.new)) }
    ensures counts { IfErr result (ReadingCounts (S.input.reads input.old) (S.input.reads input.new) (S.input.failures input.old)
        (S.input.failures input.new)) }

    // Memory is wanted only for bytes that a read gave.
    ensures scarce { IsErrOf result ReadingFault.NoMemory → S.input.reads input.old < S.input.reads input.new }
{
    let mut reader = Reader::new();
    let mut packets = Vec::new(alloc);
    let mut piece = [0; PIECE];
    for _ in 0..READS - 1 {
        let count = input.read(&mut piece)?;
        if count == 0 {
            reader.finish(&mut packets)?;
            return Ok(packets);
        }
        reader.feed(&piece[..count], &mut packets)?;
    }
    if input.read(&mut piece)? == 0 {
        reader.finish(&mut packets)?;
        return Ok(packets);
    }
    Err(ReadingFault::ReadLimit)
}
