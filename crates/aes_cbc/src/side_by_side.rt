//! Texts of any lengths sealed side by side, each under its own key from its own vector on: faster than one by one.

ghost use Rattle.std.specs.Prelude.{◌≡◌, ◌⊎◌, ◌%◌, ◌*◌, ◌/◌, ◌+◌, ◌≤◌, [], length, slice_index_or, vec_len, vec_capacity, IfOk, IsOk, OnErr};
ghost use Rattle.std.specs.List.{concat};
ghost use Rattle.aes_cbc.specs.Block.{IsBlock};
ghost use Rattle.aes_cbc.specs.Chain.{cbc, blocks, sealed_text};
ghost use Rattle.aes_cbc.specs.Opening.{last_block};

use crate::blocks::block_before;
use crate::cbc::encrypt_chain;
use crate::chains::{encrypt_four_chains, encrypt_two_chains};
use crate::key::Key;
use crate::padding::{pad_four, pad_two};
use std::alloc::AllocError;

/// The block that a chain goes on from behind its front, which is encrypted.
pub(crate) fn last_block(key: &Key, vector: [u8; 16], front: &[u8]) -> [u8; 16]
    ensures value { result ≡ last_block vector (blocks front.now) }
    ensures key { IsBlock key.now }
{
    // A proof learns here that the key is 16 bytes.
    let _ = key.as_bytes();
    *block_before(&vector, front.as_chunks::<16>().0)
}

/// Encrypts two texts of whole blocks where they lie: side by side as far as both go.
pub(crate) fn encrypt_two(
    keys: (&Key, &Key),
    vectors: &[[u8; 16]; 2],
    first: &mut [u8],
    second: &mut [u8],
)
    requires first { length first.old % 16 ≡ 0 }
    requires second { length second.old % 16 ≡ 0 }
    ensures first { first.new ≡ concat (cbc keys.entry.0.now (slice_index_or vectors.now 0 []) (blocks first.old)) }
    ensures second { second.new ≡ concat (cbc keys.entry.1.now (slice_index_or vectors.now 1 []) (blocks second.old)) }
{
    let (first_key, second_key) = keys;
    let common = lesser(first.len(), second.len());
    let (first_front, first_back) = first.split_at_mut(common);
    let (second_front, second_back) = second.split_at_mut(common);
    encrypt_two_chains(keys, vectors, first_front, second_front);
    let first_last = last_block(first_key, vectors[0], first_front);
    let second_last = last_block(second_key, vectors[1], second_front);
    encrypt_chain(first_back, first_key, &first_last);
    encrypt_chain(second_back, second_key, &second_last);
}

/// Encrypts four texts of whole blocks where they lie: side by side as far as all go, and then two and two.
pub(crate) fn encrypt_four(
    keys: (&Key, &Key, &Key, &Key),
    vectors: &[[u8; 16]; 4],
    first: &mut [u8],
    second: &mut [u8],
    third: &mut [u8],
    fourth: &mut [u8],
)
    requires first { length first.old % 16 ≡ 0 }
    requires second { length second.old % 16 ≡ 0 }
    requires third { length third.old % 16 ≡ 0 }
    requires fourth { length fourth.old % 16 ≡ 0 }
    ensures first { first.new ≡ concat (cbc keys.entry.0.now (slice_index_or vectors.now 0 []) (blocks first.old)) }
    ensures second { second.new ≡ concat (cbc keys.entry.1.now (slice_index_or vectors.now 1 []) (blocks second.old)) }
    ensures third { third.new ≡ concat (cbc keys.entry.2.now (slice_index_or vectors.now 2 []) (blocks third.old)) }
    ensures fourth { fourth.new ≡ concat (cbc keys.entry.3.now (slice_index_or vectors.now 3 []) (blocks fourth.old)) }
{
    let (first_key, second_key, third_key, fourth_key) = keys;
    let common = lesser(
        lesser(first.len(), second.len()),
        lesser(third.len(), fourth.len()),
    );
    let (first_front, first_back) = first.split_at_mut(common);
    let (second_front, second_back) = second.split_at_mut(common);
    let (third_front, third_back) = third.split_at_mut(common);
    let (fourth_front, fourth_back) = fourth.split_at_mut(common);
    encrypt_four_chains(
        keys,
        vectors,
        first_front,
        second_front,
        third_front,
        fourth_front,
    );
    let first_last = last_block(first_key, vectors[0], first_front);
    let second_last = last_block(second_key, vectors[1], second_front);
    let third_last = last_block(third_key, vectors[2], third_front);
    let fourth_last = last_block(fourth_key, vectors[3], fourth_front);
    encrypt_two(
        (first_key, second_key),
        &[first_last, second_last],
        first_back,
        second_back,
    );
    encrypt_two(
        (third_key, fourth_key),
        &[third_last, fourth_last],
        third_back,
        fourth_back,
    );
}

/// The lesser of two lengths of whole blocks.
fn lesser(a: usize, b: usize) -> usize
    requires { (a % 16 ≡ 0) × (b % 16 ≡ 0) }
    ensures least { (result ≤ a) × (result ≤ b) }
    ensures whole { result % 16 ≡ 0 }
    ensures either { (result ≡ a) ⊎ (result ≡ b) }
{
    if a < b { a } else { b }
}

/// Pads two texts and encrypts them where they lie, each under its key from its vector on: what [`seal`](crate::seal) makes
/// of each. Takes memory only where one has no room for the padding, and if there is none both are as before.
pub fn seal_two_in_place(
    keys: (&Key, &Key),
    vectors: &[[u8; 16]; 2],
    first: &mut Vec<u8>,
    second: &mut Vec<u8>,
) -> Result<(), AllocError>
    ensures first_items { IfOk result (λ _. first.new.items ≡ sealed_text keys.entry.0.now (slice_index_or vectors.now 0 []) first.old.items) }
    ensures second_items { IfOk result (λ _. second.new.items ≡ sealed_text keys.entry.1.now (slice_index_or vectors.now 1 []) second.old.items) }
    ensures first_len { IfOk result (λ _. vec_len first.new ≡ 16 * (vec_len first.old / 16 + 1)) }
    ensures second_len { IfOk result (λ _. vec_len second.new ≡ 16 * (vec_len second.old / 16 + 1)) }
    ensures first_capacity { vec_capacity first.old ≤ vec_capacity first.new }
    ensures second_capacity { vec_capacity second.old ≤ vec_capacity second.new }
    ensures room { 16 * (vec_len first.old / 16 + 1) ≤ vec_capacity first.old
        → 16 * (vec_len second.old / 16 + 1) ≤ vec_capacity second.old → IsOk result }
    ensures first_err { OnErr result (first.new.items ≡ first.old.items) }
    ensures second_err { OnErr result (second.new.items ≡ second.old.items) }
{
    pad_two(first, second)?;
    encrypt_two(keys, vectors, first, second);
    Ok(())
}

/// Pads four texts and encrypts them where they lie, each under its key from its vector on: what [`seal`](crate::seal) makes
/// of each. Takes memory only where one has no room for the padding, and if there is none all are as before.
pub fn seal_four_in_place(
    keys: (&Key, &Key, &Key, &Key),
    vectors: &[[u8; 16]; 4],
    first: &mut Vec<u8>,
    second: &mut Vec<u8>,
    third: &mut Vec<u8>,
    fourth: &mut Vec<u8>,
) -> Result<(), AllocError>
    ensures first_items { IfOk result (λ _. first.new.items ≡ sealed_text keys.entry.0.now (slice_index_or vectors.now 0 []) first.old.items) }
    ensures second_items { IfOk result (λ _. second.new.items ≡ sealed_text keys.entry.1.now (slice_index_or vectors.now 1 []) second.old.items) }
    ensures third_items { IfOk result (λ _. third.new.items ≡ sealed_text keys.entry.2.now (slice_index_or vectors.now 2 []) third.old.items) }
    ensures fourth_items { IfOk result (λ _. fourth.new.items ≡ sealed_text keys.entry.3.now (slice_index_or vectors.now 3 []) fourth.old.items) }
    ensures first_len { IfOk result (λ _. vec_len first.new ≡ 16 * (vec_len first.old / 16 + 1)) }
    ensures second_len { IfOk result (λ _. vec_len second.new ≡ 16 * (vec_len second.old / 16 + 1)) }
    ensures third_len { IfOk result (λ _. vec_len third.new ≡ 16 * (vec_len third.old / 16 + 1)) }
    ensures fourth_len { IfOk result (λ _. vec_len fourth.new ≡ 16 * (vec_len fourth.old / 16 + 1)) }
    ensures first_capacity { vec_capacity first.old ≤ vec_capacity first.new }
    ensures second_capacity { vec_capacity second.old ≤ vec_capacity second.new }
    ensures third_capacity { vec_capacity third.old ≤ vec_capacity third.new }
    ensures fourth_capacity { vec_capacity fourth.old ≤ vec_capacity fourth.new }
    ensures room { 16 * (vec_len first.old / 16 + 1) ≤ vec_capacity first.old
        → 16 * (vec_len second.old / 16 + 1) ≤ vec_capacity second.old
        → 16 * (vec_len third.old / 16 + 1) ≤ vec_capacity third.old
        → 16 * (vec_len fourth.old / 16 + 1) ≤ vec_capacity fourth.old → IsOk result }
    ensures first_err { OnErr result (first.new.items ≡ first.old.items) }
    ensures second_err { OnErr result (second.new.items ≡ second.old.items) }
    ensures third_err { OnErr result (third.new.items ≡ third.old.items) }
    ensures fourth_err { OnErr result (fourth.new.items ≡ fourth.old.items) }
{
    pad_four(first, second, third, fourth)?;
    encrypt_four(keys, vectors, first, second, third, fourth);
    Ok(())
}
