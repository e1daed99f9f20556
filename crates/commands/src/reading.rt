ghost use Rattle.std.specs.Prelude.{◌≡◌, ◌<◌, length, OnOk, IfOk, IfErr, IsErrOf};
ghost use Rattle.commands.specs.Counts.{HasRoom, ReadsFewer, ReadingCounts};
ghost use Rattle.commands.specs.Streams.{ReadsAll};

use item_io::{PIECE, READS, ReadFault, Source};
use std::alloc::{AllocError, Global};

/// Why an input isn't read to its end.
#[derive(Clone, Copy, Debug, PartialEq, Eq, Drop)]
pub(crate) enum ReadingFault {
    /// A read failed.
    Unread,
    /// 2^40 reads each gave a byte, and the end hadn't come.
    ReadLimit,
    /// Memory was refused.
    NoMemory,
}

impl From<AllocError> for ReadingFault {
    ghost use Rattle.commands.specs.declared.reading.ReadingFault.TheVariants.{NoMemory};

    ghost from_gives = { λ _ fault. fault ≡ NoMemory };

    fn from(_: AllocError) -> ReadingFault {
        ReadingFault::NoMemory
    }
}

impl From<ReadFault> for ReadingFault {
    ghost use Rattle.commands.specs.declared.reading.ReadingFault.TheVariants.{Unread};

    ghost from_gives = { λ _ fault. fault ≡ Unread };

    fn from(_: ReadFault) -> ReadingFault {
        ReadingFault::Unread
    }
}

/// All bytes of an input, which is read to its end. Of the last read that it may have no byte is kept, so want of memory is
/// never told in place of the limit.
pub(crate) fn read_all<S: Source>(alloc: Global, input: &mut S) -> Result<Vec<u8>, ReadingFault>
    requires room { HasRoom (S.input.reads input.old) (S.input.failures input.old) }
    ensures all { IfOk result (λ bytes. ReadsAll (S.input.left input.old) (S.input.left input.new) bytes.items) }
    ensures ok_counts { OnOk result (ReadsFewer (S.input.reads input.old) (S.input.reads input.new) (S.input.failures input.old) (S.input.failures input.new)) }
    ensures counts { IfErr result (ReadingCounts (S.input.reads input.old) (S.input.reads input.new) (S.input.failures input.old)
        (S.input.failures input.new)) }

    ensures some { IfOk result (λ bytes. 0 < length bytes.items → S.input.reads input.old < S.input.reads input.new) }

    // Memory is wanted only for bytes that a read gave.
    ensures scarce { IsErrOf result ReadingFault.NoMemory → S.input.reads input.old < S.input.reads input.new }
{
    let mut bytes = Vec::new(alloc);
    let mut piece = [0; PIECE];
    for _ in 0..READS - 1 {
        let count = input.read(&mut piece)?;
        if count == 0 {
            return Ok(bytes);
        }
        bytes.extend_from_slice(&piece[..count])?;
    }
    if input.read(&mut piece)? == 0 {
        return Ok(bytes);
    }
    Err(ReadingFault::ReadLimit)
}
