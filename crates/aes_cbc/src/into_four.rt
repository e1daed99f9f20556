//! Four texts that are sealed side by side into a writer each, a chunk at a time, each under its own key from its own vector on.

ghost use Rattle.std.specs.Prelude.{◌≡◌, ◌+◌, ◌≤◌, ◌++◌, [], length, slice_index_or, vec_len, vec_capacity, IfErr, IsOk, OnOk};
ghost use Rattle.std.specs.List.{concat};
ghost use Rattle.std.specs.Io.KnownBytes.{Appends};
ghost use Rattle.aes_cbc.specs.Chain.{cbc, blocks, sealed_text};
ghost use Rattle.aes_cbc.specs.Opening.{last_block};
ghost use Rattle.aes_cbc.specs.declared.fault.SealFault.TheVariants.{NoMemory, Unwritten};
ghost use Rattle.aes_cbc.specs.declared.into.TheConstants.{CHUNK};

use crate::behind::seal_head;
use crate::behind_side_by_side::append_four_pieces;
use crate::fault::SealFault;
use crate::into::{CHUNK, write_out};
use crate::into_side_by_side::{make_both_room, write_two_rests, write_two_texts};
use crate::key::Key;
use std::alloc::AllocError;
use std::io::Write;

/// What was answered for each of four texts.
type Answers = (
    Result<(), SealFault>,
    Result<(), SealFault>,
    Result<(), SealFault>,
    Result<(), SealFault>,
);

/// Makes room for a chunk behind each of four texts.
fn make_room_for_all(
    first: &mut Vec<u8>,
    second: &mut Vec<u8>,
    third: &mut Vec<u8>,
    fourth: &mut Vec<u8>,
) -> Result<(), AllocError>
    ensures first_items { first.new.items ≡ first.old.items }
    ensures second_items { second.new.items ≡ second.old.items }
    ensures third_items { third.new.items ≡ third.old.items }
    ensures fourth_items { fourth.new.items ≡ fourth.old.items }
    ensures first_ok { OnOk result (vec_len first.new + CHUNK ≤ vec_capacity first.new) }
    ensures second_ok { OnOk result (vec_len second.new + CHUNK ≤ vec_capacity second.new) }
    ensures third_ok { OnOk result (vec_len third.new + CHUNK ≤ vec_capacity third.new) }
    ensures fourth_ok { OnOk result (vec_len fourth.new + CHUNK ≤ vec_capacity fourth.new) }
    ensures room { vec_len first.old + CHUNK ≤ vec_capacity first.old
        → vec_len second.old + CHUNK ≤ vec_capacity second.old
        → vec_len third.old + CHUNK ≤ vec_capacity third.old
        → vec_len fourth.old + CHUNK ≤ vec_capacity fourth.old → IsOk result }
    ensures first_capacity { vec_capacity first.old ≤ vec_capacity first.new }
    ensures second_capacity { vec_capacity second.old ≤ vec_capacity second.new }
    ensures third_capacity { vec_capacity third.old ≤ vec_capacity third.new }
    ensures fourth_capacity { vec_capacity fourth.old ≤ vec_capacity fourth.new }
{
    make_both_room(first, second)?;
    make_both_room(third, fourth)
}

/// Encrypts a chunk of each of four texts in its buffer, as chains from the vectors on, and writes it. The last blocks of the chains
/// come back.
fn write_four_chunks<W: Write>(
    keys: (&Key, &Key, &Key, &Key),
    vectors: &[[u8; 16]; 4],
    first: &mut Vec<u8>,
    second: &mut Vec<u8>,
    third: &mut Vec<u8>,
    fourth: &mut Vec<u8>,
    chunks: (&[u8], &[u8], &[u8], &[u8]),
    first_out: &mut W,
    second_out: &mut W,
    third_out: &mut W,
    fourth_out: &mut W,
) -> ([[u8; 16]; 4], Answers)
    requires first_chunk { length chunks.0.now ≡ CHUNK }
    requires second_chunk { length chunks.1.now ≡ CHUNK }
    requires third_chunk { length chunks.2.now ≡ CHUNK }
    requires fourth_chunk { length chunks.3.now ≡ CHUNK }
    requires first_room { CHUNK ≤ vec_capacity first.old }
    requires second_room { CHUNK ≤ vec_capacity second.old }
    requires third_room { CHUNK ≤ vec_capacity third.old }
    requires fourth_room { CHUNK ≤ vec_capacity fourth.old }
    ensures first_written { OnOk result.1.0 (Appends (W.contents first_out.old) (W.contents first_out.new)
        (concat (cbc keys.entry.0.now (slice_index_or vectors.now 0 []) (blocks chunks.entry.0.now)))) }
    ensures second_written { OnOk result.1.1 (Appends (W.contents second_out.old) (W.contents second_out.new)
        (concat (cbc keys.entry.1.now (slice_index_or vectors.now 1 []) (blocks chunks.entry.1.now)))) }
    ensures third_written { OnOk result.1.2 (Appends (W.contents third_out.old) (W.contents third_out.new)
        (concat (cbc keys.entry.2.now (slice_index_or vectors.now 2 []) (blocks chunks.entry.2.now)))) }
    ensures fourth_written { OnOk result.1.3 (Appends (W.contents fourth_out.old) (W.contents fourth_out.new)
        (concat (cbc keys.entry.3.now (slice_index_or vectors.now 3 []) (blocks chunks.entry.3.now)))) }
    ensures first_last { slice_index_or result.0 0 [] ≡ last_block (slice_index_or vectors.now 0 [])
        (cbc keys.entry.0.now (slice_index_or vectors.now 0 []) (blocks chunks.entry.0.now)) }
    ensures second_last { slice_index_or result.0 1 [] ≡ last_block (slice_index_or vectors.now 1 [])
        (cbc keys.entry.1.now (slice_index_or vectors.now 1 []) (blocks chunks.entry.1.now)) }
    ensures third_last { slice_index_or result.0 2 [] ≡ last_block (slice_index_or vectors.now 2 [])
        (cbc keys.entry.2.now (slice_index_or vectors.now 2 []) (blocks chunks.entry.2.now)) }
    ensures fourth_last { slice_index_or result.0 3 [] ≡ last_block (slice_index_or vectors.now 3 [])
        (cbc keys.entry.3.now (slice_index_or vectors.now 3 []) (blocks chunks.entry.3.now)) }
    ensures first_fault { IfErr result.1.0 (λ fault. fault ≡ Unwritten) }
    ensures second_fault { IfErr result.1.1 (λ fault. fault ≡ Unwritten) }
    ensures third_fault { IfErr result.1.2 (λ fault. fault ≡ Unwritten) }
    ensures fourth_fault { IfErr result.1.3 (λ fault. fault ≡ Unwritten) }
    ensures first_capacity { vec_capacity first.old ≤ vec_capacity first.new }
    ensures second_capacity { vec_capacity second.old ≤ vec_capacity second.new }
    ensures third_capacity { vec_capacity third.old ≤ vec_capacity third.new }
    ensures fourth_capacity { vec_capacity fourth.old ≤ vec_capacity fourth.new }
{
    first.clear();
    second.clear();
    third.clear();
    fourth.clear();
    let lasts = append_four_pieces(keys, vectors, first, second, third, fourth, chunks);
    let wrote = (
        write_out(first_out, first),
        write_out(second_out, second),
        write_out(third_out, third),
        write_out(fourth_out, fourth),
    );
    (lasts, wrote)
}

/// Seals the rests of four texts, of which whole blocks are written as `before` tells, chunk by chunk side by side as long as all have
/// some and no writer has failed, and then two and two. The chains go on from the vectors.
fn write_four_rests<W: Write>(
    before: Answers,
    keys: (&Key, &Key, &Key, &Key),
    vectors: &[[u8; 16]; 4],
    first: &mut Vec<u8>,
    second: &mut Vec<u8>,
    third: &mut Vec<u8>,
    fourth: &mut Vec<u8>,
    rests: (&[u8], &[u8], &[u8], &[u8]),
    first_out: &mut W,
    second_out: &mut W,
    third_out: &mut W,
    fourth_out: &mut W,
) -> Answers
    requires first_room { CHUNK ≤ vec_capacity first.old }
    requires second_room { CHUNK ≤ vec_capacity second.old }
    requires third_room { CHUNK ≤ vec_capacity third.old }
    requires fourth_room { CHUNK ≤ vec_capacity fourth.old }
    requires first_before { IfErr before.0 (λ fault. fault ≡ Unwritten) }
    requires second_before { IfErr before.1 (λ fault. fault ≡ Unwritten) }
    requires third_before { IfErr before.2 (λ fault. fault ≡ Unwritten) }
    requires fourth_before { IfErr before.3 (λ fault. fault ≡ Unwritten) }
    ensures first_before { OnOk result.0 (IsOk before.0) }
    ensures second_before { OnOk result.1 (IsOk before.1) }
    ensures third_before { OnOk result.2 (IsOk before.2) }
    ensures fourth_before { OnOk result.3 (IsOk before.3) }
    ensures first_written { OnOk result.0 (Appends (W.contents first_out.old) (W.contents first_out.new)
        (sealed_text keys.entry.0.now (slice_index_or vectors.now 0 []) rests.entry.0.now)) }
    ensures second_written { OnOk result.1 (Appends (W.contents second_out.old) (W.contents second_out.new)
        (sealed_text keys.entry.1.now (slice_index_or vectors.now 1 []) rests.entry.1.now)) }
    ensures third_written { OnOk result.2 (Appends (W.contents third_out.old) (W.contents third_out.new)
        (sealed_text keys.entry.2.now (slice_index_or vectors.now 2 []) rests.entry.2.now)) }
    ensures fourth_written { OnOk result.3 (Appends (W.contents fourth_out.old) (W.contents fourth_out.new)
        (sealed_text keys.entry.3.now (slice_index_or vectors.now 3 []) rests.entry.3.now)) }
    ensures first_fault { IfErr result.0 (λ fault. fault ≡ Unwritten) }
    ensures second_fault { IfErr result.1 (λ fault. fault ≡ Unwritten) }
    ensures third_fault { IfErr result.2 (λ fault. fault ≡ Unwritten) }
    ensures fourth_fault { IfErr result.3 (λ fault. fault ≡ Unwritten) }
    ensures first_capacity { vec_capacity first.old ≤ vec_capacity first.new }
    ensures second_capacity { vec_capacity second.old ≤ vec_capacity second.new }
    ensures third_capacity { vec_capacity third.old ≤ vec_capacity third.new }
    ensures fourth_capacity { vec_capacity fourth.old ≤ vec_capacity fourth.new }
{
    let mut lasts = *vectors;
    let mut rests = rests;
    let mut wrote = before;
    'chunk: while wrote.0.is_ok()
        && wrote.1.is_ok()
        && wrote.2.is_ok()
        && wrote.3.is_ok()
        && rests.0.len() >= CHUNK
        && rests.1.len() >= CHUNK
        && rests.2.len() >= CHUNK
        && rests.3.len() >= CHUNK
    {
        let (first_chunk, first_rest) = rests.0.split_at(CHUNK);
        let (second_chunk, second_rest) = rests.1.split_at(CHUNK);
        let (third_chunk, third_rest) = rests.2.split_at(CHUNK);
        let (fourth_chunk, fourth_rest) = rests.3.split_at(CHUNK);
        let chunks = (first_chunk, second_chunk, third_chunk, fourth_chunk);
        (lasts, wrote) = write_four_chunks(
            keys, &lasts, first, second, third, fourth, chunks, first_out, second_out, third_out,
            fourth_out,
        );
        rests = (first_rest, second_rest, third_rest, fourth_rest);
    }
    let (one, two) = write_two_rests(
        (wrote.0, wrote.1),
        (keys.0, keys.1),
        &[lasts[0], lasts[1]],
        first,
        second,
        (rests.0, rests.1),
        first_out,
        second_out,
    );
    let (three, four) = write_two_rests(
        (wrote.2, wrote.3),
        (keys.2, keys.3),
        &[lasts[2], lasts[3]],
        third,
        fourth,
        (rests.2, rests.3),
        third_out,
        fourth_out,
    );
    (one, two, three, four)
}

/// Seals four texts, behind which there is room for a chunk, with more behind each into its writer.
fn write_four_texts<W: Write>(
    keys: (&Key, &Key, &Key, &Key),
    vectors: &[[u8; 16]; 4],
    first: &mut Vec<u8>,
    second: &mut Vec<u8>,
    third: &mut Vec<u8>,
    fourth: &mut Vec<u8>,
    more: (&[u8], &[u8], &[u8], &[u8]),
    first_out: &mut W,
    second_out: &mut W,
    third_out: &mut W,
    fourth_out: &mut W,
) -> Answers
    requires first_room { vec_len first.old + CHUNK ≤ vec_capacity first.old }
    requires second_room { vec_len second.old + CHUNK ≤ vec_capacity second.old }
    requires third_room { vec_len third.old + CHUNK ≤ vec_capacity third.old }
    requires fourth_room { vec_len fourth.old + CHUNK ≤ vec_capacity fourth.old }
    ensures first_written { OnOk result.0 (Appends (W.contents first_out.old) (W.contents first_out.new)
        (sealed_text keys.entry.0.now (slice_index_or vectors.now 0 []) (first.old.items ++ more.entry.0.now))) }
    ensures second_written { OnOk result.1 (Appends (W.contents second_out.old) (W.contents second_out.new)
        (sealed_text keys.entry.1.now (slice_index_or vectors.now 1 []) (second.old.items ++ more.entry.1.now))) }
    ensures third_written { OnOk result.2 (Appends (W.contents third_out.old) (W.contents third_out.new)
        (sealed_text keys.entry.2.now (slice_index_or vectors.now 2 []) (third.old.items ++ more.entry.2.now))) }
    ensures fourth_written { OnOk result.3 (Appends (W.contents fourth_out.old) (W.contents fourth_out.new)
        (sealed_text keys.entry.3.now (slice_index_or vectors.now 3 []) (fourth.old.items ++ more.entry.3.now))) }
    ensures first_fault { IfErr result.0 (λ fault. fault ≡ Unwritten) }
    ensures second_fault { IfErr result.1 (λ fault. fault ≡ Unwritten) }
    ensures third_fault { IfErr result.2 (λ fault. fault ≡ Unwritten) }
    ensures fourth_fault { IfErr result.3 (λ fault. fault ≡ Unwritten) }
    ensures first_capacity { vec_capacity first.old ≤ vec_capacity first.new }
    ensures second_capacity { vec_capacity second.old ≤ vec_capacity second.new }
    ensures third_capacity { vec_capacity third.old ≤ vec_capacity third.new }
    ensures fourth_capacity { vec_capacity fourth.old ≤ vec_capacity fourth.new }
{
    if more.0.len() < 16 || more.1.len() < 16 || more.2.len() < 16 || more.3.len() < 16 {
        let (one, two) = write_two_texts(
            (keys.0, keys.1),
            &[vectors[0], vectors[1]],
            first,
            second,
            (more.0, more.1),
            first_out,
            second_out,
        );
        let (three, four) = write_two_texts(
            (keys.2, keys.3),
            &[vectors[2], vectors[3]],
            third,
            fourth,
            (more.2, more.3),
            third_out,
            fourth_out,
        );
        return (one, two, three, four);
    }
    let (first_last, first_rest) = seal_head(keys.0, &vectors[0], first, more.0);
    let (second_last, second_rest) = seal_head(keys.1, &vectors[1], second, more.1);
    let (third_last, third_rest) = seal_head(keys.2, &vectors[2], third, more.2);
    let (fourth_last, fourth_rest) = seal_head(keys.3, &vectors[3], fourth, more.3);
    let wrote = (
        write_out(first_out, first),
        write_out(second_out, second),
        write_out(third_out, third),
        write_out(fourth_out, fourth),
    );
    let lasts = [first_last, second_last, third_last, fourth_last];
    let rests = (first_rest, second_rest, third_rest, fourth_rest);
    write_four_rests(
        wrote, keys, &lasts, first, second, third, fourth, rests, first_out, second_out, third_out,
        fourth_out,
    )
}

/// Writes four texts with more behind each, sealed under its key from its vector on: what [`seal_into`](crate::seal_into) does with
/// each. Where one writer fails, the other texts go on to their ends. Takes memory only where one of the vectors has no room for a
/// chunk behind its text, and if there is none, texts and writers are as before.
pub fn seal_four_into<W: Write>(
    keys: (&Key, &Key, &Key, &Key),
    vectors: &[[u8; 16]; 4],
    first: &mut Vec<u8>,
    second: &mut Vec<u8>,
    third: &mut Vec<u8>,
    fourth: &mut Vec<u8>,
    more: (&[u8], &[u8], &[u8], &[u8]),
    first_out: &mut W,
    second_out: &mut W,
    third_out: &mut W,
    fourth_out: &mut W,
) -> (
    Result<(), SealFault>,
    Result<(), SealFault>,
    Result<(), SealFault>,
    Result<(), SealFault>,
)
    ensures first_written { OnOk result.0 (Appends (W.contents first_out.old) (W.contents first_out.new)
        (sealed_text keys.entry.0.now (slice_index_or vectors.now 0 []) (first.old.items ++ more.entry.0.now))) }
    ensures second_written { OnOk result.1 (Appends (W.contents second_out.old) (W.contents second_out.new)
        (sealed_text keys.entry.1.now (slice_index_or vectors.now 1 []) (second.old.items ++ more.entry.1.now))) }
    ensures third_written { OnOk result.2 (Appends (W.contents third_out.old) (W.contents third_out.new)
        (sealed_text keys.entry.2.now (slice_index_or vectors.now 2 []) (third.old.items ++ more.entry.2.now))) }
    ensures fourth_written { OnOk result.3 (Appends (W.contents fourth_out.old) (W.contents fourth_out.new)
        (sealed_text keys.entry.3.now (slice_index_or vectors.now 3 []) (fourth.old.items ++ more.entry.3.now))) }
    ensures first_room { vec_len first.old + CHUNK ≤ vec_capacity first.old
        → vec_len second.old + CHUNK ≤ vec_capacity second.old
        → vec_len third.old + CHUNK ≤ vec_capacity third.old
        → vec_len fourth.old + CHUNK ≤ vec_capacity fourth.old → IfErr result.0 (λ fault. fault ≡ Unwritten) }
    ensures second_room { vec_len first.old + CHUNK ≤ vec_capacity first.old
        → vec_len second.old + CHUNK ≤ vec_capacity second.old
        → vec_len third.old + CHUNK ≤ vec_capacity third.old
        → vec_len fourth.old + CHUNK ≤ vec_capacity fourth.old → IfErr result.1 (λ fault. fault ≡ Unwritten) }
    ensures third_room { vec_len first.old + CHUNK ≤ vec_capacity first.old
        → vec_len second.old + CHUNK ≤ vec_capacity second.old
        → vec_len third.old + CHUNK ≤ vec_capacity third.old
        → vec_len fourth.old + CHUNK ≤ vec_capacity fourth.old → IfErr result.2 (λ fault. fault ≡ Unwritten) }
    ensures fourth_room { vec_len first.old + CHUNK ≤ vec_capacity first.old
        → vec_len second.old + CHUNK ≤ vec_capacity second.old
        → vec_len third.old + CHUNK ≤ vec_capacity third.old
        → vec_len fourth.old + CHUNK ≤ vec_capacity fourth.old → IfErr result.3 (λ fault. fault ≡ Unwritten) }
    ensures first_scarce { IfErr result.0 (λ fault. fault ≡ NoMemory → (first.new.items ≡ first.old.items) × (first_out.new ≡ first_out.old)) }
    ensures second_scarce { IfErr result.1 (λ fault. fault ≡ NoMemory → (second.new.items ≡ second.old.items) × (second_out.new ≡ second_out.old)) }
    ensures third_scarce { IfErr result.2 (λ fault. fault ≡ NoMemory → (third.new.items ≡ third.old.items) × (third_out.new ≡ third_out.old)) }
    ensures fourth_scarce { IfErr result.3 (λ fault. fault ≡ NoMemory → (fourth.new.items ≡ fourth.old.items) × (fourth_out.new ≡ fourth_out.old)) }
    ensures first_capacity { vec_capacity first.old ≤ vec_capacity first.new }
    ensures second_capacity { vec_capacity second.old ≤ vec_capacity second.new }
    ensures third_capacity { vec_capacity third.old ≤ vec_capacity third.new }
    ensures fourth_capacity { vec_capacity fourth.old ≤ vec_capacity fourth.new }
{
    if make_room_for_all(first, second, third, fourth).is_err() {
        return (
            Err(SealFault::NoMemory),
            Err(SealFault::NoMemory),
            Err(SealFault::NoMemory),
            Err(SealFault::NoMemory),
        );
    }
    write_four_texts(
        keys, vectors, first, second, third, fourth, more, first_out, second_out, third_out,
        fourth_out,
    )
}
