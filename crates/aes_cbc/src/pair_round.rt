//! The rounds of the cipher (FIPS 197, 5.1) on two blocks side by side whose bytes are in the tower, each under its round key.

ghost use Rattle.std.specs.Prelude.{◌≡◌, ℕ, List, map, ◌++◌};
ghost use Rattle.aes_cbc.specs.Block.{IsBlock};
ghost use Rattle.aes_cbc.specs.Round.{sub_bytes, shift_rows, mix_columns, add_round_key};
ghost use Rattle.aes_cbc.specs.Tower.{tower, keyed, last_keyed};

use crate::pair_sbox::{last_substituted, substituted};
use std::simd::prelude::*;

/// ShiftRows of both.
const SHIFTED: [usize; 32] = [
    0, 5, 10, 15, 4, 9, 14, 3, 8, 13, 2, 7, 12, 1, 6, 11, 16, 21, 26, 31, 20, 25, 30, 19, 24, 29,
    18, 23, 28, 17, 22, 27,
];

/// ShiftRows, and each column turned up by one row.
const TURNED_ONCE: [usize; 32] = [
    5, 10, 15, 0, 9, 14, 3, 4, 13, 2, 7, 8, 1, 6, 11, 12, 21, 26, 31, 16, 25, 30, 19, 20, 29, 18,
    23, 24, 17, 22, 27, 28,
];

/// By two rows.
const TURNED_TWICE: [usize; 32] = [
    10, 15, 0, 5, 14, 3, 4, 9, 2, 7, 8, 13, 6, 11, 12, 1, 26, 31, 16, 21, 30, 19, 20, 25, 18, 23,
    24, 29, 22, 27, 28, 17,
];

/// By three rows.
const TURNED_THRICE: [usize; 32] = [
    15, 0, 5, 10, 3, 4, 9, 14, 7, 8, 13, 2, 11, 12, 1, 6, 31, 16, 21, 26, 19, 20, 25, 30, 23, 24,
    29, 18, 27, 28, 17, 22,
];

/// A whole round.
#[inline(always)]
pub(crate) fn round(state: u8x32, round_keys: u8x32) -> u8x32
    ensures { (s t k l : List ℕ) → IsBlock s → IsBlock t → IsBlock k → IsBlock l
        → state ≡ map tower (s ++ t) → round_keys ≡ map keyed k ++ map keyed l
        → result ≡ map tower (add_round_key (mix_columns (shift_rows (sub_bytes s))) k
        ++ add_round_key (mix_columns (shift_rows (sub_bytes t))) l) }
{
    let (once, twice) = substituted(state);
    let thrice = once ^ twice;
    let first: u8x32 = twice.swizzle(SHIFTED);
    let second: u8x32 = thrice.swizzle(TURNED_ONCE);
    let third: u8x32 = once.swizzle(TURNED_TWICE);
    let fourth: u8x32 = once.swizzle(TURNED_THRICE);
    ((first ^ second) ^ (third ^ fourth)) ^ round_keys
}

/// The last round, which does not mix and leaves the tower.
#[inline(always)]
pub(crate) fn last_round(state: u8x32, round_keys: u8x32) -> u8x32
    ensures { (s t k l : List ℕ) → IsBlock s → IsBlock t → IsBlock k → IsBlock l
        → state ≡ map tower (s ++ t) → round_keys ≡ map last_keyed k ++ map last_keyed l
        → result ≡ add_round_key (shift_rows (sub_bytes s)) k ++ add_round_key (shift_rows (sub_bytes t)) l }
{
    let shifted: u8x32 = last_substituted(state).swizzle(SHIFTED);
    shifted ^ round_keys
}
