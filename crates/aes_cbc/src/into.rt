//! Texts that are sealed into a writer, a chunk at a time, so that no sealed text is held.

ghost use Rattle.std.specs.Prelude.{◌≡◌, ◌+◌, ◌≤◌, ◌++◌, length, vec_len, vec_capacity, IfOk, IfErr, OnOk};
ghost use Rattle.std.specs.List.{concat};
ghost use Rattle.std.specs.Io.KnownBytes.{Appends};
ghost use Rattle.aes_cbc.specs.Chain.{cbc, blocks, sealed_text};
ghost use Rattle.aes_cbc.specs.Opening.{last_block};
ghost use Rattle.aes_cbc.specs.declared.fault.SealFault.TheVariants.{NoMemory, Unwritten};
ghost use Rattle.aes_cbc.specs.declared.into.TheConstants.{CHUNK};

use crate::behind::{append_pieces, seal_head, seal_rest, seal_text};
use crate::fault::SealFault;
use crate::key::Key;
use std::io::Write;

/// How many bytes are sealed before they are written: whole pieces.
pub const CHUNK: usize = 65536;

/// Writes all bytes.
pub(crate) fn write_out<W: Write>(out: &mut W, bytes: &[u8]) -> Result<(), SealFault>
    ensures written { OnOk result (Appends (W.contents out.old) (W.contents out.new) bytes.now) }
    ensures fault { IfErr result (λ fault. fault ≡ Unwritten) }
{
    match out.write_all(bytes) {
        Ok(()) => Ok(()),
        Err(_) => Err(SealFault::Unwritten),
    }
}

/// Encrypts a chunk in the buffer, as a chain from `vector` on, and writes it. The last block of the chain comes back.
fn write_chunk<W: Write>(
    key: &Key,
    vector: &[u8; 16],
    buffer: &mut Vec<u8>,
    chunk: &[u8],
    out: &mut W,
) -> Result<[u8; 16], SealFault>
    requires chunk { length chunk.now ≡ CHUNK }
    requires room { CHUNK ≤ vec_capacity buffer.old }
    ensures written { OnOk result (Appends (W.contents out.old) (W.contents out.new) (concat (cbc key.now vector.now (blocks chunk.now)))) }
    ensures last { IfOk result (λ last. last ≡ last_block vector.now (cbc key.now vector.now (blocks chunk.now))) }
    ensures fault { IfErr result (λ fault. fault ≡ Unwritten) }
    ensures capacity { vec_capacity buffer.old ≤ vec_capacity buffer.new }
{
    buffer.clear();
    let last = append_pieces(key, vector, buffer, chunk);
    write_out(out, buffer)?;
    Ok(last)
}

/// Seals the rest of a text of which whole blocks are written, chunk by chunk in the buffer: the chain goes on from `vector`.
pub(crate) fn write_rest<W: Write>(
    key: &Key,
    vector: &[u8; 16],
    buffer: &mut Vec<u8>,
    rest: &[u8],
    out: &mut W,
) -> Result<(), SealFault>
    requires room { CHUNK ≤ vec_capacity buffer.old }
    ensures written { OnOk result (Appends (W.contents out.old) (W.contents out.new) (sealed_text key.now vector.now rest.now)) }
    ensures fault { IfErr result (λ fault. fault ≡ Unwritten) }
    ensures capacity { vec_capacity buffer.old ≤ vec_capacity buffer.new }
{
    let mut last = *vector;
    let mut rest = rest;
    'chunk: while rest.len() >= CHUNK {
        let (chunk, next) = rest.split_at(CHUNK);
        last = write_chunk(key, &last, buffer, chunk, out)?;
        rest = next;
    }
    buffer.clear();
    seal_rest(key, &last, buffer, rest);
    write_out(out, buffer)
}

/// Seals a text, behind which there is room for a chunk, with more behind it into a writer.
pub(crate) fn write_text<W: Write>(
    key: &Key,
    vector: &[u8; 16],
    text: &mut Vec<u8>,
    more: &[u8],
    out: &mut W,
) -> Result<(), SealFault>
    requires room { vec_len text.old + CHUNK ≤ vec_capacity text.old }
    ensures written { OnOk result (Appends (W.contents out.old) (W.contents out.new)
        (sealed_text key.now vector.now (text.old.items ++ more.now))) }
    ensures fault { IfErr result (λ fault. fault ≡ Unwritten) }
    ensures capacity { vec_capacity text.old ≤ vec_capacity text.new }
{
    if more.len() < 16 {
        seal_text(key, vector, text, more);
        return write_out(out, text);
    }
    let (last, rest) = seal_head(key, vector, text, more);
    write_out(out, text)?;
    write_rest(key, &last, text, rest, out)
}

/// Writes what [`seal_behind`](crate::seal_behind) makes of a text with more behind it: the text filled up to a whole block first, and
/// then at most [`CHUNK`] bytes at once. The text's own buffer holds each chunk, so what it has afterwards means nothing. Takes memory
/// only where the vector has no room for a chunk behind the text, and if there is none, text and writer are as before.
pub fn seal_into<W: Write>(
    key: &Key,
    vector: &[u8; 16],
    text: &mut Vec<u8>,
    more: &[u8],
    out: &mut W,
) -> Result<(), SealFault>
    ensures written { OnOk result (Appends (W.contents out.old) (W.contents out.new)
        (sealed_text key.now vector.now (text.old.items ++ more.now))) }
    ensures room { vec_len text.old + CHUNK ≤ vec_capacity text.old → IfErr result (λ fault. fault ≡ Unwritten) }
    ensures scarce { IfErr result (λ fault. fault ≡ NoMemory → (text.new.items ≡ text.old.items) × (out.new ≡ out.old)) }
    ensures capacity { vec_capacity text.old ≤ vec_capacity text.new }
{
    text.reserve_exact(CHUNK)?;
    write_text(key, vector, text, more, out)
}
