ghost use Rattle.std.specs.Prelude.{◌≡◌, ◌≢◌, ◌<◌, ◌⊎◌, ◌%◌, ℕ, List, length, OnOk, IfOk, IfErr, IsErrOf, true, false, is_err, Ok};
ghost use Rattle.std.specs.List.{list_all};
ghost use Rattle.aes_cbc.specs.Opening.{Seals, IsInBlocks, IsNotBlocks};
ghost use Rattle.hex.specs.Hex.{decode_of, is_hex_digit};
ghost use Rattle.commands.specs.Counts.{HasRoom, ReadsFewer, OpeningCounts};
ghost use Rattle.commands.specs.Hex.{without_end};
ghost use Rattle.commands.specs.Streams.{WritesOpened, BeginsOpened, LeavesOpened, OpensInput, ReadsOther, ReadsNoBlocks, ReadsNoSealed};

use crate::kept::Kept;
use crate::output::{Output, write_hex_line};
use crate::reading::{ReadingFault, read_all};
use aes_cbc::{Key, OpenFault};
use hex::FromHexError;
use item_io::{OutletFault, Source};
use std::alloc::Global;
use thiserror::Error;

/// Why `open` ends without having done its work.
#[derive(Clone, Copy, Debug, PartialEq, Eq, Error)]
pub enum OpeningFault {
    /// A read failed.
    #[error("the input can't be read")]
    Unread,
    /// 2^40 reads each gave a byte, and the end hadn't come.
    #[error("the input takes too many reads")]
    ReadLimit,
    /// The input isn't one line of an even number of hex digits.
    #[error("the input isn't a line of hex digits")]
    BadHex,
    /// The sealed bytes aren't whole blocks, or there are none.
    #[error("the sealed bytes aren't whole blocks")]
    NotBlocks,
    /// No text has these sealed bytes under the key and the vector.
    #[error("no text has these sealed bytes")]
    BadPadding,
    /// A write failed; what was written is a prefix of the line.
    #[error("the line can't be written")]
    Unwritten,
    #[error("out of memory")]
    NoMemory,
}

impl From<Kept<OpeningFault>> for OpeningFault {
    ghost from_gives = { λ why fault. fault ≡ why.fault };

    fn from(why: Kept<OpeningFault>) -> OpeningFault {
        why.into_fault()
    }
}

impl From<ReadingFault> for Kept<OpeningFault> {
    ghost use Rattle.commands.specs.Told.{opening_of_reading};

    ghost from_gives = { λ found why. why.fault ≡ opening_of_reading found };

    fn from(found: ReadingFault) -> Kept<OpeningFault> {
        let fault = match found {
            ReadingFault::Unread => OpeningFault::Unread,
            ReadingFault::ReadLimit => OpeningFault::ReadLimit,
            ReadingFault::NoMemory => OpeningFault::NoMemory,
        };
        fault.into()
    }
}

impl From<OpenFault> for Kept<OpeningFault> {
    ghost use Rattle.commands.specs.Told.{opening_of};

    ghost from_gives = { λ found why. why.fault ≡ opening_of found };

    fn from(found: OpenFault) -> Kept<OpeningFault> {
        let fault = match found {
            OpenFault::NotBlocks => OpeningFault::NotBlocks,
            OpenFault::BadPadding => OpeningFault::BadPadding,
            OpenFault::NoMemory => OpeningFault::NoMemory,
        };
        fault.into()
    }
}

impl From<OutletFault> for OpeningFault {
    ghost use Rattle.commands.specs.declared.opening.OpeningFault.TheVariants.{Unwritten};

    ghost from_gives = { λ _ fault. fault ≡ Unwritten };

    fn from(_: OutletFault) -> OpeningFault {
        OpeningFault::Unwritten
    }
}

/// The text without one last LF, where there is one.
pub(crate) fn without_end(text: &[u8]) -> &[u8]
    ensures { result.now ≡ without_end text.now }
{
    match text.split_last() {
        Some((b'\n', front)) => front,
        _ => text,
    }
}

/// Whether a byte is a hex digit of either case.
fn is_digit(byte: u8) -> bool
    ensures { result ≡ is_hex_digit byte }
{
    (b'A' <= byte && byte <= b'F')
        || (b'a' <= byte && byte <= b'f')
        || (b'0' <= byte && byte <= b'9')
}

fn are_digits(text: &[u8]) -> bool
    ensures { result ≡ list_all is_hex_digit text.now }
{
    text.iter().all(|b| is_digit(*b))
}

/// The bytes that a line of hex digits of either case stands for; its end may be missing. An odd number of digits, or
/// another character, is told though there is no memory.
fn decode_line(alloc: Global, line: &[u8]) -> Result<Vec<u8>, Kept<OpeningFault>>
    ensures ok { IfOk result (λ bytes. decode_of (without_end line.now) ≡ Ok bytes.items) }
    ensures bad { IfErr result (λ why. why.fault ≡ OpeningFault.BadHex → is_err (decode_of (without_end line.now)) ≡ true) }
    ensures no_memory { IfErr result (λ why. why.fault ≡ OpeningFault.NoMemory → length (without_end line.now) % 2 ≢ 1) }
    ensures only { IfErr result (λ why. (why.fault ≡ OpeningFault.BadHex) ⊎ (why.fault ≡ OpeningFault.NoMemory)) }
    ensures digits { IfErr result (λ why. why.fault ≡ OpeningFault.NoMemory → is_err (decode_of (without_end line.now)) ≡ false) }

    // No digits take no memory, with an LF behind them or without.
    ensures some { IfErr result (λ why. why.fault ≡ OpeningFault.NoMemory → 0 < length (without_end line.now)) }
{
    let digits = without_end(line);
    if digits.is_empty() {
        return Ok(Vec::new(alloc));
    }
    match hex::decode(alloc, digits) {
        Ok(bytes) => Ok(bytes),
        Err(FromHexError::OutOfMemory) => {
            if are_digits(digits) {
                return Err(OpeningFault::NoMemory.into());
            }
            Err(OpeningFault::BadHex.into())
        }
        Err(_) => Err(OpeningFault::BadHex.into()),
    }
}

/// The text that has these sealed bytes. NoMemory is told only where there is one.
fn opened(
    alloc: Global,
    key: &Key,
    vector: &[u8; 16],
    sealed: &[u8],
) -> Result<Vec<u8>, Kept<OpeningFault>>
    ensures ok { IfOk result (λ plain. Seals key.now vector.now plain.items sealed.now) }
    ensures not_blocks { IfErr result (λ why. why.fault ≡ OpeningFault.NotBlocks → IsNotBlocks sealed.now) }
    ensures bad_padding { IfErr result (λ why. why.fault ≡ OpeningFault.BadPadding →
        IsInBlocks sealed.now × ((plain : List ℕ) → ¬ Seals key.now vector.now plain sealed.now)) }
    ensures no_memory { IfErr result (λ why. why.fault ≡ OpeningFault.NoMemory → (plain : List ℕ) × Seals key.now vector.now plain sealed.now) }
    ensures scarce { IfErr result (λ why. why.fault ≡ OpeningFault.NoMemory → 0 < length sealed.now) }
    ensures only { IfErr result (λ why. (why.fault ≡ OpeningFault.NotBlocks) ⊎ (why.fault ≡ OpeningFault.BadPadding) ⊎ (why.fault ≡ OpeningFault.NoMemory)) }
{
    let plain = aes_cbc::open(alloc, key, vector, sealed)?;
    Ok(plain)
}

/// What `open` writes of an input that it reads to its end. Nothing is written yet, so no fault here is that of a write.
fn opened_line<S: Source>(
    alloc: Global,
    key: &Key,
    vector: &[u8; 16],
    input: &mut S,
) -> Result<Vec<u8>, Kept<OpeningFault>>
    requires room { HasRoom (S.input.reads input.old) (S.input.failures input.old) }
    ensures ok { IfOk result (λ plain. OpensInput key.now vector.now (S.input.left input.old) (S.input.left input.new) plain.items) }
    ensures ok_counts { OnOk result (ReadsFewer (S.input.reads input.old) (S.input.reads input.new) (S.input.failures input.old) (S.input.failures input.new)) }
    ensures unwritten { IfErr result (λ why. why.fault ≢ OpeningFault.Unwritten) }
    ensures bad_hex { IfErr result (λ why. why.fault ≡ OpeningFault.BadHex → ReadsOther (S.input.left input.old) (S.input.left input.new)) }
    ensures not_blocks { IfErr result (λ why. why.fault ≡ OpeningFault.NotBlocks → ReadsNoBlocks (S.input.left input.old) (S.input.left input.new)) }
    ensures bad_padding { IfErr result (λ why. why.fault ≡ OpeningFault.BadPadding →
        ReadsNoSealed key.now vector.now (S.input.left input.old) (S.input.left input.new)) }
    ensures counts { IfErr result (λ why. OpeningCounts (S.input.reads input.old) (S.input.reads input.new) (S.input.failures input.old)
        (S.input.failures input.new) why.fault) }
    ensures scarce { IfErr result (λ why. why.fault ≡ OpeningFault.NoMemory → S.input.reads input.old < S.input.reads input.new) }
{
    let line = read_all(alloc, input)?;
    let sealed = decode_line(alloc, &line)?;
    let plain = opened(alloc, key, vector, &sealed)?;
    Ok(plain)
}

/// The command `open`: reads one line of hex digits to the input's end, opens the bytes that they stand for under a key
/// and a vector, and writes the text that has those sealed bytes as one line of lower-case hex digits.
///
/// Unread is told exactly where a read failed, and ReadLimit exactly where 2^40 reads each gave a byte. BadHex is told
/// before NotBlocks, and that before BadPadding. Before every fault but Unwritten nothing was written; at Unwritten a
/// prefix of that line was.
pub fn open<S: Source, W: Output>(
    alloc: Global,
    key: &Key,
    vector: &[u8; 16],
    input: &mut S,
    output: &mut W,
) -> Result<(), OpeningFault>
    requires room { HasRoom (S.input.reads input.old) (S.input.failures input.old) }
    ensures ok { OnOk result (WritesOpened key.now vector.now (S.input.left input.old) (S.input.left input.new) (W.contents output.old)
        (W.contents output.new)) }
    ensures ok_counts { OnOk result (ReadsFewer (S.input.reads input.old) (S.input.reads input.new) (S.input.failures input.old) (S.input.failures input.new)) }
    ensures unwritten { IsErrOf result OpeningFault.Unwritten →
        BeginsOpened key.now vector.now (S.input.left input.old) (S.input.left input.new) (W.contents output.old) (W.contents output.new) }
    ensures flushed { OnOk result (W.flushed output.new) }
    ensures left { IsErrOf result OpeningFault.Unwritten → LeavesOpened (W.unflushed output.new) key.now vector.now (S.input.left input.old)
        (S.input.left input.new) (W.contents output.old) (W.contents output.new) }
    ensures bad_hex { IsErrOf result OpeningFault.BadHex → ReadsOther (S.input.left input.old) (S.input.left input.new) }
    ensures not_blocks { IsErrOf result OpeningFault.NotBlocks → ReadsNoBlocks (S.input.left input.old) (S.input.left input.new) }
    ensures bad_padding { IsErrOf result OpeningFault.BadPadding → ReadsNoSealed key.now vector.now (S.input.left input.old) (S.input.left input.new) }
    ensures untouched { IfErr result (λ fault. fault ≢ OpeningFault.Unwritten → output.new ≡ output.old) }
    ensures counts { IfErr result (OpeningCounts (S.input.reads input.old) (S.input.reads input.new) (S.input.failures input.old)
        (S.input.failures input.new)) }

    // Memory is wanted only for bytes that a read gave.
    ensures scarce { IsErrOf result OpeningFault.NoMemory → S.input.reads input.old < S.input.reads input.new }
{
    let plain = opened_line(alloc, key, vector, input)?;
    write_hex_line(output, &plain)?;
    Ok(())
}
