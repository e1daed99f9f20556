//! A key of AES-128 with its round keys.

ghost use Rattle.std.specs.Prelude.{◌≡◌, ◌+◌, ◌<◌, ◌++◌, map, take, drop};
ghost use Rattle.aes_cbc.specs.Block.{IsBlock};
ghost use Rattle.aes_cbc.specs.Cipher.{aes};
ghost use Rattle.aes_cbc.specs.KeyExpansion.{round_key};
ghost use Rattle.aes_cbc.specs.Tower.{keyed, last_keyed};
ghost use Rattle.aes_cbc.specs.InverseCipher.{inv_aes};
ghost use Rattle.aes_cbc.specs.Pairs.{ArePair};

use crate::inverse_round::{inv_round, last_inv_round};
use crate::inverse_sbox::entered;
use crate::pairs::joined;
use crate::round::{last_round, round};
use crate::sbox::last_keyed;
use crate::schedule::{RoundKey, mixing_keys, round_keys, unmixing_keys};
use crate::tower::into_tower;
use crate::{pair_inverse_round, pair_inverse_sbox, pair_round, pair_tower};
use std::marker::Model;
use std::simd::prelude::*;

/// A key of AES-128: 16 bytes (FIPS 197, 3.1). Contracts see these bytes. The round keys, and those that are unmixed for
/// decryption, are computed once.
#[derive(Drop)]
pub struct Key {
    bytes: [u8; 16],
    mixing_keys: [RoundKey; 9],
    last_key: u8x16,
    tenth_key: u8x16,
    unmixing_keys: [RoundKey; 9],
}

impl Model for Key {
    ghost use Rattle.std.specs.Prelude.{ℕ, List};
    ghost use Rattle.aes_cbc.specs.KeyLanes.{AreKeyLanes};

    ghost Value = { List ℕ };

    ghost view = { λ k. k.bytes };

    ghost invariant = { λ k. AreKeyLanes k.bytes k.mixing_keys k.last_key k.tenth_key k.unmixing_keys };
}

impl Key {
    /// The key of these bytes, with its round keys (FIPS 197, 5.2 and 5.3.5).
    pub fn new(bytes: [u8; 16]) -> Key
        ensures { result ≡ bytes }
    {
        let keys = round_keys(&bytes);
        let tenth_key = u8x16::from_array(keys[10]);
        Key {
            bytes,
            mixing_keys: mixing_keys(&keys),
            last_key: last_keyed(tenth_key),
            tenth_key,
            unmixing_keys: unmixing_keys(&keys),
        }
    }

    /// The bytes of the key.
    pub fn as_bytes(&self) -> &[u8; 16]
        ensures bytes { result.now ≡ self.now }
        ensures block { IsBlock self.now }
    {
        &self.bytes
    }

    /// The cipher block of a block (FIPS 197, 5.1).
    #[inline(always)]
    pub(crate) fn encrypt_lanes(&self, block: u8x16) -> u8x16
        ensures cipher { result ≡ aes self.now block }
        ensures block { IsBlock result }
    {
        let mut state = into_tower(block ^ u8x16::from_array(self.bytes));
        'round: for i in 0..9 {
            let next = round(state, self.mixing_keys[i].lanes);
            state = next;
        }
        last_round(state, self.last_key)
    }

    /// The cipher blocks of two blocks side by side, each under its own key.
    #[inline(always)]
    pub(crate) fn encrypt_two(keys: (&Key, &Key), blocks: u8x32) -> u8x32
        ensures ciphers { ArePair result (aes keys.entry.0.now (take 16 blocks)) (aes keys.entry.1.now (drop 16 blocks)) }
        ensures first { IsBlock (take 16 result) }
        ensures second { IsBlock (drop 16 result) }
    {
        let mut state = pair_tower::into_tower(blocks ^ both_keys(keys.0, keys.1));
        'round: for i in 0..9 {
            let next = pair_round::round(state, both_mixing_keys(keys.0, keys.1, i));
            state = next;
        }
        pair_round::last_round(state, both_last_keys(keys.0, keys.1))
    }

    /// The cipher blocks of four blocks, two and two side by side, each under its own key.
    #[inline(always)]
    pub(crate) fn encrypt_four(
        keys: (&Key, &Key, &Key, &Key),
        front: u8x32,
        back: u8x32,
    ) -> (u8x32, u8x32)
        ensures front { ArePair result.0 (aes keys.entry.0.now (take 16 front)) (aes keys.entry.1.now (drop 16 front)) }
        ensures back { ArePair result.1 (aes keys.entry.2.now (take 16 back)) (aes keys.entry.3.now (drop 16 back)) }
        ensures first { IsBlock (take 16 result.0) }
        ensures second { IsBlock (drop 16 result.0) }
        ensures third { IsBlock (take 16 result.1) }
        ensures fourth { IsBlock (drop 16 result.1) }
    {
        let (first_key, second_key, third_key, fourth_key) = keys;
        let mut front_state = pair_tower::into_tower(front ^ both_keys(first_key, second_key));
        let mut back_state = pair_tower::into_tower(back ^ both_keys(third_key, fourth_key));
        'round: for i in 0..9 {
            let front_keys = both_mixing_keys(first_key, second_key, i);
            let back_keys = both_mixing_keys(third_key, fourth_key, i);
            front_state = pair_round::round(front_state, front_keys);
            back_state = pair_round::round(back_state, back_keys);
        }
        (
            pair_round::last_round(front_state, both_last_keys(first_key, second_key)),
            pair_round::last_round(back_state, both_last_keys(third_key, fourth_key)),
        )
    }

    /// The block of which a block is the cipher block (FIPS 197, 5.3.5).
    #[inline(always)]
    pub(crate) fn decrypt_lanes(&self, block: u8x16) -> u8x16
        ensures plain { result ≡ inv_aes self.now block }
        ensures key { IsBlock self.now }
        ensures block { IsBlock block }
    {
        let mut state = entered(block ^ self.tenth_key);
        'round: for i in 0..9 {
            let next = inv_round(state, self.unmixing_keys[i].lanes);
            state = next;
        }
        last_inv_round(state, u8x16::from_array(self.bytes))
    }

    /// The same of four blocks side by side.
    #[inline(always)]
    pub(crate) fn decrypt_four(
        &self,
        first: u8x16,
        second: u8x16,
        third: u8x16,
        fourth: u8x16,
    ) -> (u8x16, u8x16, u8x16, u8x16)
        ensures first { result.0 ≡ inv_aes self.now first }
        ensures second { result.1 ≡ inv_aes self.now second }
        ensures third { result.2 ≡ inv_aes self.now third }
        ensures fourth { result.3 ≡ inv_aes self.now fourth }
        ensures key { IsBlock self.now }
    {
        let mut first_state = entered(first ^ self.tenth_key);
        let mut second_state = entered(second ^ self.tenth_key);
        let mut third_state = entered(third ^ self.tenth_key);
        let mut fourth_state = entered(fourth ^ self.tenth_key);
        'round: for i in 0..9 {
            let round_key = self.unmixing_keys[i].lanes;
            first_state = inv_round(first_state, round_key);
            second_state = inv_round(second_state, round_key);
            third_state = inv_round(third_state, round_key);
            fourth_state = inv_round(fourth_state, round_key);
        }
        let last_key = u8x16::from_array(self.bytes);
        (
            last_inv_round(first_state, last_key),
            last_inv_round(second_state, last_key),
            last_inv_round(third_state, last_key),
            last_inv_round(fourth_state, last_key),
        )
    }

    /// The same of eight blocks, two and two side by side.
    #[inline(always)]
    pub(crate) fn decrypt_eight(
        &self,
        first: u8x32,
        second: u8x32,
        third: u8x32,
        fourth: u8x32,
    ) -> (u8x32, u8x32, u8x32, u8x32)
        ensures first { ArePair result.0 (inv_aes self.now (take 16 first)) (inv_aes self.now (drop 16 first)) }
        ensures second { ArePair result.1 (inv_aes self.now (take 16 second)) (inv_aes self.now (drop 16 second)) }
        ensures third { ArePair result.2 (inv_aes self.now (take 16 third)) (inv_aes self.now (drop 16 third)) }
        ensures fourth { ArePair result.3 (inv_aes self.now (take 16 fourth)) (inv_aes self.now (drop 16 fourth)) }
    {
        let tenth_keys = joined(self.tenth_key, self.tenth_key);
        let mut first_state = pair_inverse_sbox::entered(first ^ tenth_keys);
        let mut second_state = pair_inverse_sbox::entered(second ^ tenth_keys);
        let mut third_state = pair_inverse_sbox::entered(third ^ tenth_keys);
        let mut fourth_state = pair_inverse_sbox::entered(fourth ^ tenth_keys);
        'round: for i in 0..9 {
            let round_key = self.unmixing_keys[i].lanes;
            let round_keys = joined(round_key, round_key);
            first_state = pair_inverse_round::inv_round(first_state, round_keys);
            second_state = pair_inverse_round::inv_round(second_state, round_keys);
            third_state = pair_inverse_round::inv_round(third_state, round_keys);
            fourth_state = pair_inverse_round::inv_round(fourth_state, round_keys);
        }
        let last_key = u8x16::from_array(self.bytes);
        let last_keys = joined(last_key, last_key);
        (
            pair_inverse_round::last_inv_round(first_state, last_keys),
            pair_inverse_round::last_inv_round(second_state, last_keys),
            pair_inverse_round::last_inv_round(third_state, last_keys),
            pair_inverse_round::last_inv_round(fourth_state, last_keys),
        )
    }

    /// The cipher block of `block` (FIPS 197, 5.1).
    pub fn encrypt_block(&self, block: &[u8; 16]) -> [u8; 16]
        ensures { result ≡ aes self.now block.now }
    {
        self.encrypt_lanes(u8x16::from_array(*block)).to_array()
    }

    /// The block of which `block` is the cipher block (FIPS 197, 5.3).
    pub fn decrypt_block(&self, block: &[u8; 16]) -> [u8; 16]
        ensures value { result ≡ inv_aes self.now block.now }
        ensures inverse { aes self.now result ≡ block.now }
    {
        self.decrypt_lanes(u8x16::from_array(*block)).to_array()
    }
}

/// Two keys side by side.
#[inline(always)]
fn both_keys(first: &Key, second: &Key) -> u8x32
    ensures both { ArePair result first.now second.now }
    ensures first { IsBlock first.now }
    ensures second { IsBlock second.now }
{
    joined(
        u8x16::from_array(first.bytes),
        u8x16::from_array(second.bytes),
    )
}

/// Their round keys `i + 1`, as rounds that mix take them.
#[inline(always)]
fn both_mixing_keys(first: &Key, second: &Key, i: usize) -> u8x32
    requires { i < 9 }
    ensures { result ≡ map keyed (round_key first.now (i + 1)) ++ map keyed (round_key second.now (i + 1)) }
{
    joined(first.mixing_keys[i].lanes, second.mixing_keys[i].lanes)
}

/// Their last round keys, as the last round takes them.
#[inline(always)]
fn both_last_keys(first: &Key, second: &Key) -> u8x32
    ensures { result ≡ map last_keyed (round_key first.now 10) ++ map last_keyed (round_key second.now 10) }
{
    joined(first.last_key, second.last_key)
}
