//! Two texts that are sealed side by side into a writer each, a chunk at a time, each under its own key from its own vector on.

ghost use Rattle.std.specs.Prelude.{◌≡◌, ◌+◌, ◌≤◌, ◌++◌, [], length, slice_index_or, vec_len, vec_capacity, IfErr, IsOk, OnOk};
ghost use Rattle.std.specs.List.{concat};
ghost use Rattle.std.specs.Io.KnownBytes.{Appends};
ghost use Rattle.aes_cbc.specs.Chain.{cbc, blocks, sealed_text};
ghost use Rattle.aes_cbc.specs.Opening.{last_block};
ghost use Rattle.aes_cbc.specs.declared.fault.SealFault.TheVariants.{NoMemory, Unwritten};
ghost use Rattle.aes_cbc.specs.declared.into.TheConstants.{CHUNK};

use crate::behind::seal_head;
use crate::behind_side_by_side::append_two_pieces;
use crate::fault::SealFault;
use crate::into::{CHUNK, write_out, write_rest, write_text};
use crate::key::Key;
use std::alloc::AllocError;
use std::io::Write;

/// What was answered for each of two texts.
type Answers = (Result<(), SealFault>, Result<(), SealFault>);

/// Makes room for a chunk behind each of two texts.
pub(crate) fn make_both_room(first: &mut Vec<u8>, second: &mut Vec<u8>) -> Result<(), AllocError>
    ensures first_items { first.new.items ≡ first.old.items }
    ensures second_items { second.new.items ≡ second.old.items }
    ensures first_ok { OnOk result (vec_len first.new + CHUNK ≤ vec_capacity first.new) }
    ensures second_ok { OnOk result (vec_len second.new + CHUNK ≤ vec_capacity second.new) }
    ensures room { vec_len first.old + CHUNK ≤ vec_capacity first.old
        → vec_len second.old + CHUNK ≤ vec_capacity second.old → IsOk result }
    ensures first_capacity { vec_capacity first.old ≤ vec_capacity first.new }
    ensures second_capacity { vec_capacity second.old ≤ vec_capacity second.new }
{
    first.reserve_exact(CHUNK)?;
    second.reserve_exact(CHUNK)
}

/// Encrypts a chunk of each of two texts in its buffer, as chains from the vectors on. The last blocks of the chains come back.
fn encrypt_two_chunks(
    keys: (&Key, &Key),
    vectors: &[[u8; 16]; 2],
    first: &mut Vec<u8>,
    second: &mut Vec<u8>,
    chunks: (&[u8], &[u8]),
) -> [[u8; 16]; 2]
    requires first_chunk { length chunks.0.now ≡ CHUNK }
    requires second_chunk { length chunks.1.now ≡ CHUNK }
    requires first_room { CHUNK ≤ vec_capacity first.old }
    requires second_room { CHUNK ≤ vec_capacity second.old }
    ensures first_items { first.new.items
        ≡ concat (cbc keys.entry.0.now (slice_index_or vectors.now 0 []) (blocks chunks.entry.0.now)) }
    ensures second_items { second.new.items
        ≡ concat (cbc keys.entry.1.now (slice_index_or vectors.now 1 []) (blocks chunks.entry.1.now)) }
    ensures first_last { slice_index_or result 0 [] ≡ last_block (slice_index_or vectors.now 0 [])
        (cbc keys.entry.0.now (slice_index_or vectors.now 0 []) (blocks chunks.entry.0.now)) }
    ensures second_last { slice_index_or result 1 [] ≡ last_block (slice_index_or vectors.now 1 [])
        (cbc keys.entry.1.now (slice_index_or vectors.now 1 []) (blocks chunks.entry.1.now)) }
    ensures first_capacity { vec_capacity first.old ≤ vec_capacity first.new }
    ensures second_capacity { vec_capacity second.old ≤ vec_capacity second.new }
{
    first.clear();
    second.clear();
    append_two_pieces(keys, vectors, first, second, chunks)
}

/// Goes on with a text, if what came before it is written: seals its rest and writes it, chunk by chunk.
fn go_on<W: Write>(
    before: Result<(), SealFault>,
    key: &Key,
    vector: &[u8; 16],
    buffer: &mut Vec<u8>,
    rest: &[u8],
    out: &mut W,
) -> Result<(), SealFault>
    requires room { CHUNK ≤ vec_capacity buffer.old }
    requires before { IfErr before (λ fault. fault ≡ Unwritten) }
    ensures before { OnOk result (IsOk before) }
    ensures written { OnOk result (Appends (W.contents out.old) (W.contents out.new) (sealed_text key.now vector.now rest.now)) }
    ensures fault { IfErr result (λ fault. fault ≡ Unwritten) }
    ensures capacity { vec_capacity buffer.old ≤ vec_capacity buffer.new }
{
    before?;
    write_rest(key, vector, buffer, rest, out)
}

/// Seals the rests of two texts, of which whole blocks are written as `before` tells, chunk by chunk side by side as long as both have
/// some and no writer has failed. The chains go on from the vectors.
pub(crate) fn write_two_rests<W: Write>(
    before: Answers,
    keys: (&Key, &Key),
    vectors: &[[u8; 16]; 2],
    first: &mut Vec<u8>,
    second: &mut Vec<u8>,
    rests: (&[u8], &[u8]),
    first_out: &mut W,
    second_out: &mut W,
) -> Answers
    requires first_room { CHUNK ≤ vec_capacity first.old }
    requires second_room { CHUNK ≤ vec_capacity second.old }
    requires first_before { IfErr before.0 (λ fault. fault ≡ Unwritten) }
    requires second_before { IfErr before.1 (λ fault. fault ≡ Unwritten) }
    ensures first_before { OnOk result.0 (IsOk before.0) }
    ensures second_before { OnOk result.1 (IsOk before.1) }
    ensures first_written { OnOk result.0 (Appends (W.contents first_out.old) (W.contents first_out.new)
        (sealed_text keys.entry.0.now (slice_index_or vectors.now 0 []) rests.entry.0.now)) }
    ensures second_written { OnOk result.1 (Appends (W.contents second_out.old) (W.contents second_out.new)
        (sealed_text keys.entry.1.now (slice_index_or vectors.now 1 []) rests.entry.1.now)) }
    ensures first_fault { IfErr result.0 (λ fault. fault ≡ Unwritten) }
    ensures second_fault { IfErr result.1 (λ fault. fault ≡ Unwritten) }
    ensures first_capacity { vec_capacity first.old ≤ vec_capacity first.new }
    ensures second_capacity { vec_capacity second.old ≤ vec_capacity second.new }
{
    let mut lasts = *vectors;
    let mut rests = rests;
    let mut wrote = before;
    'chunk: while wrote.0.is_ok()
        && wrote.1.is_ok()
        && rests.0.len() >= CHUNK
        && rests.1.len() >= CHUNK
    {
        let (first_chunk, first_rest) = rests.0.split_at(CHUNK);
        let (second_chunk, second_rest) = rests.1.split_at(CHUNK);
        let chunks = (first_chunk, second_chunk);
        lasts = encrypt_two_chunks(keys, &lasts, first, second, chunks);
        wrote = (write_out(first_out, first), write_out(second_out, second));
        rests = (first_rest, second_rest);
    }
    (
        go_on(wrote.0, keys.0, &lasts[0], first, rests.0, first_out),
        go_on(wrote.1, keys.1, &lasts[1], second, rests.1, second_out),
    )
}

/// Seals two texts, behind which there is room for a chunk, with more behind each into its writer.
pub(crate) fn write_two_texts<W: Write>(
    keys: (&Key, &Key),
    vectors: &[[u8; 16]; 2],
    first: &mut Vec<u8>,
    second: &mut Vec<u8>,
    more: (&[u8], &[u8]),
    first_out: &mut W,
    second_out: &mut W,
) -> Answers
    requires first_room { vec_len first.old + CHUNK ≤ vec_capacity first.old }
    requires second_room { vec_len second.old + CHUNK ≤ vec_capacity second.old }
    ensures first_written { OnOk result.0 (Appends (W.contents first_out.old) (W.contents first_out.new)
        (sealed_text keys.entry.0.now (slice_index_or vectors.now 0 []) (first.old.items ++ more.entry.0.now))) }
    ensures second_written { OnOk result.1 (Appends (W.contents second_out.old) (W.contents second_out.new)
        (sealed_text keys.entry.1.now (slice_index_or vectors.now 1 []) (second.old.items ++ more.entry.1.now))) }
    ensures first_fault { IfErr result.0 (λ fault. fault ≡ Unwritten) }
    ensures second_fault { IfErr result.1 (λ fault. fault ≡ Unwritten) }
    ensures first_capacity { vec_capacity first.old ≤ vec_capacity first.new }
    ensures second_capacity { vec_capacity second.old ≤ vec_capacity second.new }
{
    if more.0.len() < 16 || more.1.len() < 16 {
        return (
            write_text(keys.0, &vectors[0], first, more.0, first_out),
            write_text(keys.1, &vectors[1], second, more.1, second_out),
        );
    }
    let (first_last, first_rest) = seal_head(keys.0, &vectors[0], first, more.0);
    let (second_last, second_rest) = seal_head(keys.1, &vectors[1], second, more.1);
    let wrote = (write_out(first_out, first), write_out(second_out, second));
    let lasts = [first_last, second_last];
    let rests = (first_rest, second_rest);
    write_two_rests(
        wrote, keys, &lasts, first, second, rests, first_out, second_out,
    )
}

/// Writes two texts with more behind each, sealed under its key from its vector on: what [`seal_into`](crate::seal_into) does with each.
/// Where one writer fails, the other text goes on to its end. Takes memory only where one of the vectors has no room for a chunk behind
/// its text, and if there is none, texts and writers are as before.
pub fn seal_two_into<W: Write>(
    keys: (&Key, &Key),
    vectors: &[[u8; 16]; 2],
    first: &mut Vec<u8>,
    second: &mut Vec<u8>,
    more: (&[u8], &[u8]),
    first_out: &mut W,
    second_out: &mut W,
) -> (Result<(), SealFault>, Result<(), SealFault>)
    ensures first_written { OnOk result.0 (Appends (W.contents first_out.old) (W.contents first_out.new)
        (sealed_text keys.entry.0.now (slice_index_or vectors.now 0 []) (first.old.items ++ more.entry.0.now))) }
    ensures second_written { OnOk result.1 (Appends (W.contents second_out.old) (W.contents second_out.new)
        (sealed_text keys.entry.1.now (slice_index_or vectors.now 1 []) (second.old.items ++ more.entry.1.now))) }
    ensures first_room { vec_len first.old + CHUNK ≤ vec_capacity first.old
        → vec_len second.old + CHUNK ≤ vec_capacity second.old → IfErr result.0 (λ fault. fault ≡ Unwritten) }
    ensures second_room { vec_len first.old + CHUNK ≤ vec_capacity first.old
        → vec_len second.old + CHUNK ≤ vec_capacity second.old → IfErr result.1 (λ fault. fault ≡ Unwritten) }
    ensures first_scarce { IfErr result.0 (λ fault. fault ≡ NoMemory → (first.new.items ≡ first.old.items) × (first_out.new ≡ first_out.old)) }
    ensures second_scarce { IfErr result.1 (λ fault. fault ≡ NoMemory → (second.new.items ≡ second.old.items) × (second_out.new ≡ second_out.old)) }
    ensures first_capacity { vec_capacity first.old ≤ vec_capacity first.new }
    ensures second_capacity { vec_capacity second.old ≤ vec_capacity second.new }
{
    if make_both_room(first, second).is_err() {
        return (Err(SealFault::NoMemory), Err(SealFault::NoMemory));
    }
    write_two_texts(keys, vectors, first, second, more, first_out, second_out)
}
