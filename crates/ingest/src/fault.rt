ghost use Rattle.std.specs.Prelude.{◌≡◌, ◌⊎◌, IfOk, OnErr};
ghost use Rattle.cutter.specs.declared.fault.CutFault.TheVariants.{NoMemory, Ended};
ghost use Rattle.ingest.specs.Streams.{as_cut};

use cutter::CutFault;
use std::alloc::AllocError;

/// Why a stream of bytes isn't cut any further: the faults of a cutter that are the stream's own.
#[derive(Clone, Copy, Debug, PartialEq, Eq)]
pub enum StreamFault {
    /// No tables were ever put in force. Told at the end alone.
    NoProgram,
    /// No segment begins. Told at the end alone.
    NoStart,
    /// The segment of this number lasts longer than the target, to the nearest second.
    LongSegment(u64),
    /// The segment of this number would have too many packets.
    BigSegment(u64),
    /// A segment behind the last number, or a time out of range.
    Limit,
}

/// The fault of the stream that a cutter tells. Want of memory is none, and a cutter that goes on doesn't tell Ended.
pub(crate) fn of_stream(fault: CutFault) -> Result<StreamFault, AllocError>
    ensures told { IfOk result (λ told. fault ≡ as_cut told) }
    ensures scarce { OnErr result ((fault ≡ NoMemory) ⊎ (fault ≡ Ended)) }
{
    match fault {
        CutFault::NoProgram => Ok(StreamFault::NoProgram),
        CutFault::NoStart => Ok(StreamFault::NoStart),
        CutFault::LongSegment(number) => Ok(StreamFault::LongSegment(number)),
        CutFault::BigSegment(number) => Ok(StreamFault::BigSegment(number)),
        CutFault::Limit => Ok(StreamFault::Limit),
        CutFault::NoMemory | CutFault::Ended => Err(AllocError),
    }
}
