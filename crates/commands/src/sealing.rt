ghost use Rattle.std.specs.Prelude.{◌≡◌, ◌≢◌, IfOk, OnOk, IfErr, IsErrOf};
ghost use Rattle.commands.specs.Counts.{HasRoom, ReadsFewer, SealingCounts};
ghost use Rattle.commands.specs.Streams.{WritesSealed, BeginsSealed, HasBegun, LeavesSealed, ReadsSealed};

use crate::output::{Output, write_hex_line};
use crate::packets::read_packets;
use crate::reading::ReadingFault;
use aes_cbc::Key;
use item_io::{OutletFault, Source};
use std::alloc::{AllocError, Global};
use thiserror::Error;

/// Why `seal` ends without having done its work.
#[derive(Clone, Copy, Debug, PartialEq, Eq, Error)]
pub enum SealingFault {
    /// A read failed.
    #[error("the input can't be read")]
    Unread,
    /// 2^40 reads each gave a byte, and the end hadn't come.
    #[error("the input takes too many reads")]
    ReadLimit,
    /// A write failed; what was written is a prefix of the line.
    #[error("the line can't be written")]
    Unwritten,
    #[error("out of memory")]
    NoMemory,
}

impl From<AllocError> for SealingFault {
    ghost use Rattle.commands.specs.declared.sealing.SealingFault.TheVariants.{NoMemory};

    ghost from_gives = { λ _ fault. fault ≡ NoMemory };

    fn from(_: AllocError) -> SealingFault {
        SealingFault::NoMemory
    }
}

impl From<ReadingFault> for SealingFault {
    ghost use Rattle.commands.specs.Told.{sealing_of};

    ghost from_gives = { λ why fault. fault ≡ sealing_of why };

    fn from(why: ReadingFault) -> SealingFault {
        match why {
            ReadingFault::Unread => SealingFault::Unread,
            ReadingFault::ReadLimit => SealingFault::ReadLimit,
            ReadingFault::NoMemory => SealingFault::NoMemory,
        }
    }
}

impl From<OutletFault> for SealingFault {
    ghost use Rattle.commands.specs.declared.sealing.SealingFault.TheVariants.{Unwritten};

    ghost from_gives = { λ _ fault. fault ≡ Unwritten };

    fn from(_: OutletFault) -> SealingFault {
        SealingFault::Unwritten
    }
}

/// What `seal` writes of an input that it reads to its end. Nothing is written yet, so no fault here is that of a write.
fn sealed_packets<S: Source>(
    alloc: Global,
    key: &Key,
    vector: &[u8; 16],
    input: &mut S,
) -> Result<Vec<u8>, SealingFault>
    requires room { HasRoom (S.input.reads input.old) (S.input.failures input.old) }
    ensures ok { IfOk result (λ sealed. ReadsSealed key.now vector.now (S.input.left input.old) (S.input.left input.new) sealed.items) }
    ensures ok_counts { OnOk result (ReadsFewer (S.input.reads input.old) (S.input.reads input.new) (S.input.failures input.old) (S.input.failures input.new)) }
    ensures unwritten { IfErr result (λ fault. fault ≢ SealingFault.Unwritten) }
    ensures counts { IfErr result (SealingCounts (S.input.reads input.old) (S.input.reads input.new) (S.input.failures input.old)
        (S.input.failures input.new)) }
    ensures scarce { IsErrOf result SealingFault.NoMemory →
        HasBegun (S.input.reads input.old) (S.input.reads input.new) (S.input.left input.old) (S.input.left input.new) }
{
    let packets = read_packets(alloc, input)?;
    let sealed = aes_cbc::seal(alloc, key, vector, packets.as_flattened())?;
    Ok(sealed)
}

/// The command `seal`: reads the input to its end, takes its packets, and writes them, sealed under a key and a vector
/// without a segment head, as one line of lower-case hex digits.
///
/// Unread is told exactly where a read failed, and ReadLimit exactly where 2^40 reads each gave a byte. Before every fault
/// but Unwritten nothing was written; at Unwritten a prefix of that line was.
pub fn seal<S: Source, W: Output>(
    alloc: Global,
    key: &Key,
    vector: &[u8; 16],
    input: &mut S,
    output: &mut W,
) -> Result<(), SealingFault>
    requires room { HasRoom (S.input.reads input.old) (S.input.failures input.old) }
    ensures ok { OnOk result (WritesSealed key.now vector.now (S.input.left input.old) (S.input.left input.new) (W.contents output.old)
        (W.contents output.new)) }
    ensures ok_counts { OnOk result (ReadsFewer (S.input.reads input.old) (S.input.reads input.new) (S.input.failures input.old) (S.input.failures input.new)) }
    ensures unwritten { IsErrOf result SealingFault.Unwritten →
        BeginsSealed key.now vector.now (S.input.left input.old) (S.input.left input.new) (W.contents output.old) (W.contents output.new) }
    ensures flushed { OnOk result (W.flushed output.new) }
    ensures left { IsErrOf result SealingFault.Unwritten → LeavesSealed (W.unflushed output.new) key.now vector.now (S.input.left input.old)
        (S.input.left input.new) (W.contents output.old) (W.contents output.new) }
    ensures untouched { IfErr result (λ fault. fault ≢ SealingFault.Unwritten → output.new ≡ output.old) }
    ensures counts { IfErr result (SealingCounts (S.input.reads input.old) (S.input.reads input.new) (S.input.failures input.old)
        (S.input.failures input.new)) }

    // Memory is wanted only for bytes that a read gave, or once the end has come.
    ensures scarce { IsErrOf result SealingFault.NoMemory →
        HasBegun (S.input.reads input.old) (S.input.reads input.new) (S.input.left input.old) (S.input.left input.new) }
{
    let sealed = sealed_packets(alloc, key, vector, input)?;
    write_hex_line(output, &sealed)?;
    Ok(())
}
