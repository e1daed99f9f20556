//! Texts of which parts are appended while they are sealed side by side, each under its own key from its own vector on.

ghost use Rattle.std.specs.Prelude.{◌≡◌, ◌+◌, ◌*◌, ◌/◌, ◌%◌, ◌≤◌, ◌++◌, [], length, slice_index_or, vec_len, vec_capacity, IfOk, IsOk, OnErr};
ghost use Rattle.std.specs.List.{concat};
ghost use Rattle.aes_cbc.specs.Chain.{cbc, blocks, sealed_text};
ghost use Rattle.aes_cbc.specs.Opening.{last_block};
ghost use Rattle.aes_cbc.specs.declared.behind.TheConstants.{PIECE};

use crate::behind::{PIECE, make_room, seal_head, seal_rest, seal_text};
use crate::key::Key;
use crate::pairs::{first_of, joined, second_of};
use crate::side_by_side::last_block;
use std::alloc::AllocError;
use std::simd::prelude::*;

/// Appends a piece to each of two texts, encrypted as chains from the vectors on. The last blocks of the chains come back.
fn append_two_encrypted(
    keys: (&Key, &Key),
    vectors: &[[u8; 16]; 2],
    first: &mut Vec<u8>,
    second: &mut Vec<u8>,
    pieces: (&[u8], &[u8]),
) -> [[u8; 16]; 2]
    requires first_piece { length pieces.0.now ≡ PIECE }
    requires second_piece { length pieces.1.now ≡ PIECE }
    requires first_room { vec_len first.old + PIECE ≤ vec_capacity first.old }
    requires second_room { vec_len second.old + PIECE ≤ vec_capacity second.old }
    ensures first_items { first.new.items ≡ first.old.items
        ++ concat (cbc keys.entry.0.now (slice_index_or vectors.now 0 []) (blocks pieces.entry.0.now)) }
    ensures second_items { second.new.items ≡ second.old.items
        ++ concat (cbc keys.entry.1.now (slice_index_or vectors.now 1 []) (blocks pieces.entry.1.now)) }
    ensures first_last { slice_index_or result 0 [] ≡ last_block (slice_index_or vectors.now 0 [])
        (cbc keys.entry.0.now (slice_index_or vectors.now 0 []) (blocks pieces.entry.0.now)) }
    ensures second_last { slice_index_or result 1 [] ≡ last_block (slice_index_or vectors.now 1 [])
        (cbc keys.entry.1.now (slice_index_or vectors.now 1 []) (blocks pieces.entry.1.now)) }
    ensures first_len { vec_len first.new ≡ vec_len first.old + PIECE }
    ensures second_len { vec_len second.new ≡ vec_len second.old + PIECE }
    ensures first_capacity { vec_capacity first.old ≤ vec_capacity first.new }
    ensures second_capacity { vec_capacity second.old ≤ vec_capacity second.new }
{
    let mut first_front = [0; PIECE];
    let mut second_front = [0; PIECE];
    let mut last = joined(u8x16::from_array(vectors[0]), u8x16::from_array(vectors[1]));
    'block: for i in 0..PIECE / 16 {
        let blocks = joined(
            u8x16::from_array(pieces.0.as_chunks::<16>().0[i]),
            u8x16::from_array(pieces.1.as_chunks::<16>().0[i]),
        );
        let next = Key::encrypt_two(keys, blocks ^ last);
        first_front[16 * i..16 * i + 16].copy_from_slice(&first_of(next));
        second_front[16 * i..16 * i + 16].copy_from_slice(&second_of(next));
        last = next;
    }
    first.extend_from_slice(&first_front).unwrap();
    second.extend_from_slice(&second_front).unwrap();
    [
        last_block(keys.0, vectors[0], &first_front),
        last_block(keys.1, vectors[1], &second_front),
    ]
}

/// Appends as many whole pieces to each of two texts, encrypted one by one as chains from the vectors on. The last blocks of the chains
/// come back.
pub(crate) fn append_two_pieces(
    keys: (&Key, &Key),
    vectors: &[[u8; 16]; 2],
    first: &mut Vec<u8>,
    second: &mut Vec<u8>,
    pieces: (&[u8], &[u8]),
) -> [[u8; 16]; 2]
    requires whole { length pieces.0.now % PIECE ≡ 0 }
    requires same { length pieces.1.now ≡ length pieces.0.now }
    requires first_room { vec_len first.old + length pieces.0.now ≤ vec_capacity first.old }
    requires second_room { vec_len second.old + length pieces.1.now ≤ vec_capacity second.old }
    ensures first_items { first.new.items ≡ first.old.items
        ++ concat (cbc keys.entry.0.now (slice_index_or vectors.now 0 []) (blocks pieces.entry.0.now)) }
    ensures second_items { second.new.items ≡ second.old.items
        ++ concat (cbc keys.entry.1.now (slice_index_or vectors.now 1 []) (blocks pieces.entry.1.now)) }
    ensures first_last { slice_index_or result 0 [] ≡ last_block (slice_index_or vectors.now 0 [])
        (cbc keys.entry.0.now (slice_index_or vectors.now 0 []) (blocks pieces.entry.0.now)) }
    ensures second_last { slice_index_or result 1 [] ≡ last_block (slice_index_or vectors.now 1 [])
        (cbc keys.entry.1.now (slice_index_or vectors.now 1 []) (blocks pieces.entry.1.now)) }
    ensures first_len { vec_len first.new ≡ vec_len first.old + length pieces.entry.0.now }
    ensures second_len { vec_len second.new ≡ vec_len second.old + length pieces.entry.1.now }
    ensures first_capacity { vec_capacity first.old ≤ vec_capacity first.new }
    ensures second_capacity { vec_capacity second.old ≤ vec_capacity second.new }
{
    let mut lasts = *vectors;
    let mut rests = pieces;
    'piece: while rests.0.len() >= PIECE {
        let (first_piece, first_rest) = rests.0.split_at(PIECE);
        let (second_piece, second_rest) = rests.1.split_at(PIECE);
        let pieces = (first_piece, second_piece);
        lasts = append_two_encrypted(keys, &lasts, first, second, pieces);
        rests = (first_rest, second_rest);
    }
    lasts
}

/// Seals the rests that are to come behind two texts of whole blocks, which are encrypted: piece by piece side
/// by side as long as both have some, and the chains go on from the vectors.
fn seal_two_rests(
    keys: (&Key, &Key),
    vectors: &[[u8; 16]; 2],
    first: &mut Vec<u8>,
    second: &mut Vec<u8>,
    rests: (&[u8], &[u8]),
)
    requires first_whole { vec_len first.old % 16 ≡ 0 }
    requires second_whole { vec_len second.old % 16 ≡ 0 }
    requires first_room { 16 * ((vec_len first.old + length rests.0.now) / 16 + 1) ≤ vec_capacity first.old }
    requires second_room { 16 * ((vec_len second.old + length rests.1.now) / 16 + 1) ≤ vec_capacity second.old }
    ensures first_items { first.new.items
        ≡ first.old.items ++ sealed_text keys.entry.0.now (slice_index_or vectors.now 0 []) rests.entry.0.now }
    ensures second_items { second.new.items
        ≡ second.old.items ++ sealed_text keys.entry.1.now (slice_index_or vectors.now 1 []) rests.entry.1.now }
    ensures first_len { vec_len first.new ≡ 16 * ((vec_len first.old + length rests.entry.0.now) / 16 + 1) }
    ensures second_len { vec_len second.new ≡ 16 * ((vec_len second.old + length rests.entry.1.now) / 16 + 1) }
    ensures first_capacity { vec_capacity first.old ≤ vec_capacity first.new }
    ensures second_capacity { vec_capacity second.old ≤ vec_capacity second.new }
{
    let common = rests.0.len().min(rests.1.len());
    let whole = common - common % PIECE;
    let (first_pieces, first_rest) = rests.0.split_at(whole);
    let (second_pieces, second_rest) = rests.1.split_at(whole);
    let lasts = append_two_pieces(keys, vectors, first, second, (first_pieces, second_pieces));
    seal_rest(keys.0, &lasts[0], first, first_rest);
    seal_rest(keys.1, &lasts[1], second, second_rest);
}

/// Seals two texts with more behind each, for all of which there is room.
fn seal_two_texts(
    keys: (&Key, &Key),
    vectors: &[[u8; 16]; 2],
    first: &mut Vec<u8>,
    second: &mut Vec<u8>,
    more: (&[u8], &[u8]),
)
    requires first_room { 16 * ((vec_len first.old + length more.0.now) / 16 + 1) ≤ vec_capacity first.old }
    requires second_room { 16 * ((vec_len second.old + length more.1.now) / 16 + 1) ≤ vec_capacity second.old }
    ensures first_items { first.new.items
        ≡ sealed_text keys.entry.0.now (slice_index_or vectors.now 0 []) (first.old.items ++ more.entry.0.now) }
    ensures second_items { second.new.items
        ≡ sealed_text keys.entry.1.now (slice_index_or vectors.now 1 []) (second.old.items ++ more.entry.1.now) }
    ensures first_len { vec_len first.new ≡ 16 * ((vec_len first.old + length more.entry.0.now) / 16 + 1) }
    ensures second_len { vec_len second.new ≡ 16 * ((vec_len second.old + length more.entry.1.now) / 16 + 1) }
    ensures first_capacity { vec_capacity first.old ≤ vec_capacity first.new }
    ensures second_capacity { vec_capacity second.old ≤ vec_capacity second.new }
{
    if more.0.len() < 16 || more.1.len() < 16 {
        seal_text(keys.0, &vectors[0], first, more.0);
        seal_text(keys.1, &vectors[1], second, more.1);
        return;
    }
    let (first_last, first_rest) = seal_head(keys.0, &vectors[0], first, more.0);
    let (second_last, second_rest) = seal_head(keys.1, &vectors[1], second, more.1);
    let lasts = [first_last, second_last];
    let rests = (first_rest, second_rest);
    seal_two_rests(keys, &lasts, first, second, rests);
}

/// Appends more to two texts, and pads and encrypts them, each under its key from its vector on: what
/// [`seal_behind`](crate::seal_behind) makes of each. Takes memory only where one has no room for it, and if there is none both are as
/// before.
pub fn seal_two_behind(
    keys: (&Key, &Key),
    vectors: &[[u8; 16]; 2],
    first: &mut Vec<u8>,
    second: &mut Vec<u8>,
    more: (&[u8], &[u8]),
) -> Result<(), AllocError>
    ensures first_items { IfOk result (λ _. first.new.items
        ≡ sealed_text keys.entry.0.now (slice_index_or vectors.now 0 []) (first.old.items ++ more.entry.0.now)) }
    ensures second_items { IfOk result (λ _. second.new.items
        ≡ sealed_text keys.entry.1.now (slice_index_or vectors.now 1 []) (second.old.items ++ more.entry.1.now)) }
    ensures first_len { IfOk result (λ _. vec_len first.new ≡ 16 * ((vec_len first.old + length more.entry.0.now) / 16 + 1)) }
    ensures second_len { IfOk result (λ _. vec_len second.new ≡ 16 * ((vec_len second.old + length more.entry.1.now) / 16 + 1)) }
    ensures first_capacity { vec_capacity first.old ≤ vec_capacity first.new }
    ensures second_capacity { vec_capacity second.old ≤ vec_capacity second.new }
    ensures room { 16 * ((vec_len first.old + length more.entry.0.now) / 16 + 1) ≤ vec_capacity first.old
        → 16 * ((vec_len second.old + length more.entry.1.now) / 16 + 1) ≤ vec_capacity second.old → IsOk result }
    ensures first_err { OnErr result (first.new.items ≡ first.old.items) }
    ensures second_err { OnErr result (second.new.items ≡ second.old.items) }
{
    make_room(first, more.0)?;
    make_room(second, more.1)?;
    seal_two_texts(keys, vectors, first, second, more);
    Ok(())
}

/// Appends a piece to each of four texts, encrypted as chains from the vectors on. The last blocks of the chains come back.
fn append_four_encrypted(
    keys: (&Key, &Key, &Key, &Key),
    vectors: &[[u8; 16]; 4],
    first: &mut Vec<u8>,
    second: &mut Vec<u8>,
    third: &mut Vec<u8>,
    fourth: &mut Vec<u8>,
    pieces: (&[u8], &[u8], &[u8], &[u8]),
) -> [[u8; 16]; 4]
    requires first_piece { length pieces.0.now ≡ PIECE }
    requires second_piece { length pieces.1.now ≡ PIECE }
    requires third_piece { length pieces.2.now ≡ PIECE }
    requires fourth_piece { length pieces.3.now ≡ PIECE }
    requires first_room { vec_len first.old + PIECE ≤ vec_capacity first.old }
    requires second_room { vec_len second.old + PIECE ≤ vec_capacity second.old }
    requires third_room { vec_len third.old + PIECE ≤ vec_capacity third.old }
    requires fourth_room { vec_len fourth.old + PIECE ≤ vec_capacity fourth.old }
    ensures first_items { first.new.items ≡ first.old.items
        ++ concat (cbc keys.entry.0.now (slice_index_or vectors.now 0 []) (blocks pieces.entry.0.now)) }
    ensures second_items { second.new.items ≡ second.old.items
        ++ concat (cbc keys.entry.1.now (slice_index_or vectors.now 1 []) (blocks pieces.entry.1.now)) }
    ensures third_items { third.new.items ≡ third.old.items
        ++ concat (cbc keys.entry.2.now (slice_index_or vectors.now 2 []) (blocks pieces.entry.2.now)) }
    ensures fourth_items { fourth.new.items ≡ fourth.old.items
        ++ concat (cbc keys.entry.3.now (slice_index_or vectors.now 3 []) (blocks pieces.entry.3.now)) }
    ensures first_last { slice_index_or result 0 [] ≡ last_block (slice_index_or vectors.now 0 [])
        (cbc keys.entry.0.now (slice_index_or vectors.now 0 []) (blocks pieces.entry.0.now)) }
    ensures second_last { slice_index_or result 1 [] ≡ last_block (slice_index_or vectors.now 1 [])
        (cbc keys.entry.1.now (slice_index_or vectors.now 1 []) (blocks pieces.entry.1.now)) }
    ensures third_last { slice_index_or result 2 [] ≡ last_block (slice_index_or vectors.now 2 [])
        (cbc keys.entry.2.now (slice_index_or vectors.now 2 []) (blocks pieces.entry.2.now)) }
    ensures fourth_last { slice_index_or result 3 [] ≡ last_block (slice_index_or vectors.now 3 [])
        (cbc keys.entry.3.now (slice_index_or vectors.now 3 []) (blocks pieces.entry.3.now)) }
    ensures first_len { vec_len first.new ≡ vec_len first.old + PIECE }
    ensures second_len { vec_len second.new ≡ vec_len second.old + PIECE }
    ensures third_len { vec_len third.new ≡ vec_len third.old + PIECE }
    ensures fourth_len { vec_len fourth.new ≡ vec_len fourth.old + PIECE }
    ensures first_capacity { vec_capacity first.old ≤ vec_capacity first.new }
    ensures second_capacity { vec_capacity second.old ≤ vec_capacity second.new }
    ensures third_capacity { vec_capacity third.old ≤ vec_capacity third.new }
    ensures fourth_capacity { vec_capacity fourth.old ≤ vec_capacity fourth.new }
{
    let mut first_front = [0; PIECE];
    let mut second_front = [0; PIECE];
    let mut third_front = [0; PIECE];
    let mut fourth_front = [0; PIECE];
    let mut front_last = joined(u8x16::from_array(vectors[0]), u8x16::from_array(vectors[1]));
    let mut back_last = joined(u8x16::from_array(vectors[2]), u8x16::from_array(vectors[3]));
    'block: for i in 0..PIECE / 16 {
        let front = joined(
            u8x16::from_array(pieces.0.as_chunks::<16>().0[i]),
            u8x16::from_array(pieces.1.as_chunks::<16>().0[i]),
        );
        let back = joined(
            u8x16::from_array(pieces.2.as_chunks::<16>().0[i]),
            u8x16::from_array(pieces.3.as_chunks::<16>().0[i]),
        );
        let next = Key::encrypt_four(keys, front ^ front_last, back ^ back_last);
        first_front[16 * i..16 * i + 16].copy_from_slice(&first_of(next.0));
        second_front[16 * i..16 * i + 16].copy_from_slice(&second_of(next.0));
        third_front[16 * i..16 * i + 16].copy_from_slice(&first_of(next.1));
        fourth_front[16 * i..16 * i + 16].copy_from_slice(&second_of(next.1));
        front_last = next.0;
        back_last = next.1;
    }
    first.extend_from_slice(&first_front).unwrap();
    second.extend_from_slice(&second_front).unwrap();
    third.extend_from_slice(&third_front).unwrap();
    fourth.extend_from_slice(&fourth_front).unwrap();
    [
        last_block(keys.0, vectors[0], &first_front),
        last_block(keys.1, vectors[1], &second_front),
        last_block(keys.2, vectors[2], &third_front),
        last_block(keys.3, vectors[3], &fourth_front),
    ]
}

/// Appends as many whole pieces to each of four texts, encrypted one by one as chains from the vectors on. The last blocks of the
/// chains come back.
pub(crate) fn append_four_pieces(
    keys: (&Key, &Key, &Key, &Key),
    vectors: &[[u8; 16]; 4],
    first: &mut Vec<u8>,
    second: &mut Vec<u8>,
    third: &mut Vec<u8>,
    fourth: &mut Vec<u8>,
    pieces: (&[u8], &[u8], &[u8], &[u8]),
) -> [[u8; 16]; 4]
    requires whole { length pieces.0.now % PIECE ≡ 0 }
    requires second_same { length pieces.1.now ≡ length pieces.0.now }
    requires third_same { length pieces.2.now ≡ length pieces.0.now }
    requires fourth_same { length pieces.3.now ≡ length pieces.0.now }
    requires first_room { vec_len first.old + length pieces.0.now ≤ vec_capacity first.old }
    requires second_room { vec_len second.old + length pieces.1.now ≤ vec_capacity second.old }
    requires third_room { vec_len third.old + length pieces.2.now ≤ vec_capacity third.old }
    requires fourth_room { vec_len fourth.old + length pieces.3.now ≤ vec_capacity fourth.old }
    ensures first_items { first.new.items ≡ first.old.items
        ++ concat (cbc keys.entry.0.now (slice_index_or vectors.now 0 []) (blocks pieces.entry.0.now)) }
    ensures second_items { second.new.items ≡ second.old.items
        ++ concat (cbc keys.entry.1.now (slice_index_or vectors.now 1 []) (blocks pieces.entry.1.now)) }
    ensures third_items { third.new.items ≡ third.old.items
        ++ concat (cbc keys.entry.2.now (slice_index_or vectors.now 2 []) (blocks pieces.entry.2.now)) }
    ensures fourth_items { fourth.new.items ≡ fourth.old.items
        ++ concat (cbc keys.entry.3.now (slice_index_or vectors.now 3 []) (blocks pieces.entry.3.now)) }
    ensures first_last { slice_index_or result 0 [] ≡ last_block (slice_index_or vectors.now 0 [])
        (cbc keys.entry.0.now (slice_index_or vectors.now 0 []) (blocks pieces.entry.0.now)) }
    ensures second_last { slice_index_or result 1 [] ≡ last_block (slice_index_or vectors.now 1 [])
        (cbc keys.entry.1.now (slice_index_or vectors.now 1 []) (blocks pieces.entry.1.now)) }
    ensures third_last { slice_index_or result 2 [] ≡ last_block (slice_index_or vectors.now 2 [])
        (cbc keys.entry.2.now (slice_index_or vectors.now 2 []) (blocks pieces.entry.2.now)) }
    ensures fourth_last { slice_index_or result 3 [] ≡ last_block (slice_index_or vectors.now 3 [])
        (cbc keys.entry.3.now (slice_index_or vectors.now 3 []) (blocks pieces.entry.3.now)) }
    ensures first_len { vec_len first.new ≡ vec_len first.old + length pieces.entry.0.now }
    ensures second_len { vec_len second.new ≡ vec_len second.old + length pieces.entry.1.now }
    ensures third_len { vec_len third.new ≡ vec_len third.old + length pieces.entry.2.now }
    ensures fourth_len { vec_len fourth.new ≡ vec_len fourth.old + length pieces.entry.3.now }
    ensures first_capacity { vec_capacity first.old ≤ vec_capacity first.new }
    ensures second_capacity { vec_capacity second.old ≤ vec_capacity second.new }
    ensures third_capacity { vec_capacity third.old ≤ vec_capacity third.new }
    ensures fourth_capacity { vec_capacity fourth.old ≤ vec_capacity fourth.new }
{
    let mut lasts = *vectors;
    let mut rests = pieces;
    'piece: while rests.0.len() >= PIECE {
        let (first_piece, first_rest) = rests.0.split_at(PIECE);
        let (second_piece, second_rest) = rests.1.split_at(PIECE);
        let (third_piece, third_rest) = rests.2.split_at(PIECE);
        let (fourth_piece, fourth_rest) = rests.3.split_at(PIECE);
        let pieces = (first_piece, second_piece, third_piece, fourth_piece);
        lasts = append_four_encrypted(keys, &lasts, first, second, third, fourth, pieces);
        rests = (first_rest, second_rest, third_rest, fourth_rest);
    }
    lasts
}

/// Seals the rests that are to come behind four texts of whole blocks, which are encrypted: piece by piece side
/// by side as long as all have some, and then two and two. The chains go on from the vectors.
fn seal_four_rests(
    keys: (&Key, &Key, &Key, &Key),
    vectors: &[[u8; 16]; 4],
    first: &mut Vec<u8>,
    second: &mut Vec<u8>,
    third: &mut Vec<u8>,
    fourth: &mut Vec<u8>,
    rests: (&[u8], &[u8], &[u8], &[u8]),
)
    requires first_whole { vec_len first.old % 16 ≡ 0 }
    requires second_whole { vec_len second.old % 16 ≡ 0 }
    requires third_whole { vec_len third.old % 16 ≡ 0 }
    requires fourth_whole { vec_len fourth.old % 16 ≡ 0 }
    requires first_room { 16 * ((vec_len first.old + length rests.0.now) / 16 + 1) ≤ vec_capacity first.old }
    requires second_room { 16 * ((vec_len second.old + length rests.1.now) / 16 + 1) ≤ vec_capacity second.old }
    requires third_room { 16 * ((vec_len third.old + length rests.2.now) / 16 + 1) ≤ vec_capacity third.old }
    requires fourth_room { 16 * ((vec_len fourth.old + length rests.3.now) / 16 + 1) ≤ vec_capacity fourth.old }
    ensures first_items { first.new.items
        ≡ first.old.items ++ sealed_text keys.entry.0.now (slice_index_or vectors.now 0 []) rests.entry.0.now }
    ensures second_items { second.new.items
        ≡ second.old.items ++ sealed_text keys.entry.1.now (slice_index_or vectors.now 1 []) rests.entry.1.now }
    ensures third_items { third.new.items
        ≡ third.old.items ++ sealed_text keys.entry.2.now (slice_index_or vectors.now 2 []) rests.entry.2.now }
    ensures fourth_items { fourth.new.items
        ≡ fourth.old.items ++ sealed_text keys.entry.3.now (slice_index_or vectors.now 3 []) rests.entry.3.now }
    ensures first_len { vec_len first.new ≡ 16 * ((vec_len first.old + length rests.entry.0.now) / 16 + 1) }
    ensures second_len { vec_len second.new ≡ 16 * ((vec_len second.old + length rests.entry.1.now) / 16 + 1) }
    ensures third_len { vec_len third.new ≡ 16 * ((vec_len third.old + length rests.entry.2.now) / 16 + 1) }
    ensures fourth_len { vec_len fourth.new ≡ 16 * ((vec_len fourth.old + length rests.entry.3.now) / 16 + 1) }
    ensures first_capacity { vec_capacity first.old ≤ vec_capacity first.new }
    ensures second_capacity { vec_capacity second.old ≤ vec_capacity second.new }
    ensures third_capacity { vec_capacity third.old ≤ vec_capacity third.new }
    ensures fourth_capacity { vec_capacity fourth.old ≤ vec_capacity fourth.new }
{
    let front = rests.0.len().min(rests.1.len());
    let back = rests.2.len().min(rests.3.len());
    let common = front.min(back);
    let whole = common - common % PIECE;
    let (first_pieces, first_rest) = rests.0.split_at(whole);
    let (second_pieces, second_rest) = rests.1.split_at(whole);
    let (third_pieces, third_rest) = rests.2.split_at(whole);
    let (fourth_pieces, fourth_rest) = rests.3.split_at(whole);
    let pieces = (first_pieces, second_pieces, third_pieces, fourth_pieces);
    let lasts = append_four_pieces(keys, vectors, first, second, third, fourth, pieces);
    seal_two_rests(
        (keys.0, keys.1),
        &[lasts[0], lasts[1]],
        first,
        second,
        (first_rest, second_rest),
    );
    seal_two_rests(
        (keys.2, keys.3),
        &[lasts[2], lasts[3]],
        third,
        fourth,
        (third_rest, fourth_rest),
    );
}

/// Seals four texts with more behind each, for all of which there is room.
fn seal_four_texts(
    keys: (&Key, &Key, &Key, &Key),
    vectors: &[[u8; 16]; 4],
    first: &mut Vec<u8>,
    second: &mut Vec<u8>,
    third: &mut Vec<u8>,
    fourth: &mut Vec<u8>,
    more: (&[u8], &[u8], &[u8], &[u8]),
)
    requires first_room { 16 * ((vec_len first.old + length more.0.now) / 16 + 1) ≤ vec_capacity first.old }
    requires second_room { 16 * ((vec_len second.old + length more.1.now) / 16 + 1) ≤ vec_capacity second.old }
    requires third_room { 16 * ((vec_len third.old + length more.2.now) / 16 + 1) ≤ vec_capacity third.old }
    requires fourth_room { 16 * ((vec_len fourth.old + length more.3.now) / 16 + 1) ≤ vec_capacity fourth.old }
    ensures first_items { first.new.items
        ≡ sealed_text keys.entry.0.now (slice_index_or vectors.now 0 []) (first.old.items ++ more.entry.0.now) }
    ensures second_items { second.new.items
        ≡ sealed_text keys.entry.1.now (slice_index_or vectors.now 1 []) (second.old.items ++ more.entry.1.now) }
    ensures third_items { third.new.items
        ≡ sealed_text keys.entry.2.now (slice_index_or vectors.now 2 []) (third.old.items ++ more.entry.2.now) }
    ensures fourth_items { fourth.new.items
        ≡ sealed_text keys.entry.3.now (slice_index_or vectors.now 3 []) (fourth.old.items ++ more.entry.3.now) }
    ensures first_len { vec_len first.new ≡ 16 * ((vec_len first.old + length more.entry.0.now) / 16 + 1) }
    ensures second_len { vec_len second.new ≡ 16 * ((vec_len second.old + length more.entry.1.now) / 16 + 1) }
    ensures third_len { vec_len third.new ≡ 16 * ((vec_len third.old + length more.entry.2.now) / 16 + 1) }
    ensures fourth_len { vec_len fourth.new ≡ 16 * ((vec_len fourth.old + length more.entry.3.now) / 16 + 1) }
    ensures first_capacity { vec_capacity first.old ≤ vec_capacity first.new }
    ensures second_capacity { vec_capacity second.old ≤ vec_capacity second.new }
    ensures third_capacity { vec_capacity third.old ≤ vec_capacity third.new }
    ensures fourth_capacity { vec_capacity fourth.old ≤ vec_capacity fourth.new }
{
    if more.0.len() < 16 || more.1.len() < 16 || more.2.len() < 16 || more.3.len() < 16 {
        seal_two_texts(
            (keys.0, keys.1),
            &[vectors[0], vectors[1]],
            first,
            second,
            (more.0, more.1),
        );
        seal_two_texts(
            (keys.2, keys.3),
            &[vectors[2], vectors[3]],
            third,
            fourth,
            (more.2, more.3),
        );
        return;
    }
    let (first_last, first_rest) = seal_head(keys.0, &vectors[0], first, more.0);
    let (second_last, second_rest) = seal_head(keys.1, &vectors[1], second, more.1);
    let (third_last, third_rest) = seal_head(keys.2, &vectors[2], third, more.2);
    let (fourth_last, fourth_rest) = seal_head(keys.3, &vectors[3], fourth, more.3);
    let lasts = [first_last, second_last, third_last, fourth_last];
    let rests = (first_rest, second_rest, third_rest, fourth_rest);
    seal_four_rests(keys, &lasts, first, second, third, fourth, rests);
}

/// Appends more to four texts, and pads and encrypts them, each under its key from its vector on: what
/// [`seal_behind`](crate::seal_behind) makes of each. Takes memory only where one has no room for it, and if there is none all are as
/// before.
pub fn seal_four_behind(
    keys: (&Key, &Key, &Key, &Key),
    vectors: &[[u8; 16]; 4],
    first: &mut Vec<u8>,
    second: &mut Vec<u8>,
    third: &mut Vec<u8>,
    fourth: &mut Vec<u8>,
    more: (&[u8], &[u8], &[u8], &[u8]),
) -> Result<(), AllocError>
    ensures first_items { IfOk result (λ _. first.new.items
        ≡ sealed_text keys.entry.0.now (slice_index_or vectors.now 0 []) (first.old.items ++ more.entry.0.now)) }
    ensures second_items { IfOk result (λ _. second.new.items
        ≡ sealed_text keys.entry.1.now (slice_index_or vectors.now 1 []) (second.old.items ++ more.entry.1.now)) }
    ensures third_items { IfOk result (λ _. third.new.items
        ≡ sealed_text keys.entry.2.now (slice_index_or vectors.now 2 []) (third.old.items ++ more.entry.2.now)) }
    ensures fourth_items { IfOk result (λ _. fourth.new.items
        ≡ sealed_text keys.entry.3.now (slice_index_or vectors.now 3 []) (fourth.old.items ++ more.entry.3.now)) }
    ensures first_len { IfOk result (λ _. vec_len first.new ≡ 16 * ((vec_len first.old + length more.entry.0.now) / 16 + 1)) }
    ensures second_len { IfOk result (λ _. vec_len second.new ≡ 16 * ((vec_len second.old + length more.entry.1.now) / 16 + 1)) }
    ensures third_len { IfOk result (λ _. vec_len third.new ≡ 16 * ((vec_len third.old + length more.entry.2.now) / 16 + 1)) }
    ensures fourth_len { IfOk result (λ _. vec_len fourth.new ≡ 16 * ((vec_len fourth.old + length more.entry.3.now) / 16 + 1)) }
    ensures first_capacity { vec_capacity first.old ≤ vec_capacity first.new }
    ensures second_capacity { vec_capacity second.old ≤ vec_capacity second.new }
    ensures third_capacity { vec_capacity third.old ≤ vec_capacity third.new }
    ensures fourth_capacity { vec_capacity fourth.old ≤ vec_capacity fourth.new }
    ensures room { 16 * ((vec_len first.old + length more.entry.0.now) / 16 + 1) ≤ vec_capacity first.old
        → 16 * ((vec_len second.old + length more.entry.1.now) / 16 + 1) ≤ vec_capacity second.old
        → 16 * ((vec_len third.old + length more.entry.2.now) / 16 + 1) ≤ vec_capacity third.old
        → 16 * ((vec_len fourth.old + length more.entry.3.now) / 16 + 1) ≤ vec_capacity fourth.old → IsOk result }
    ensures first_err { OnErr result (first.new.items ≡ first.old.items) }
    ensures second_err { OnErr result (second.new.items ≡ second.old.items) }
    ensures third_err { OnErr result (third.new.items ≡ third.old.items) }
    ensures fourth_err { OnErr result (fourth.new.items ≡ fourth.old.items) }
{
    make_room(first, more.0)?;
    make_room(second, more.1)?;
    make_room(third, more.2)?;
    make_room(fourth, more.3)?;
    seal_four_texts(keys, vectors, first, second, third, fourth, more);
    Ok(())
}
