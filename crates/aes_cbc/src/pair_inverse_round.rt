//! The rounds of the inverse cipher on two blocks side by side, as `inverse_round` has them for one (FIPS 197, 5.3.5).

ghost use Rattle.std.specs.Prelude.{◌≡◌, ℕ, List, map, ◌++◌};
ghost use Rattle.aes_cbc.specs.Block.{IsBlock};
ghost use Rattle.aes_cbc.specs.Round.{add_round_key};
ghost use Rattle.aes_cbc.specs.InverseCipher.{inv_sub_bytes, inv_shift_rows, inv_mix_columns};
ghost use Rattle.aes_cbc.specs.InverseTower.{entered};

use crate::pair_inverse_sbox::{last_unmixed, unmixed};
use std::simd::prelude::*;

/// InvShiftRows of both.
const INV_SHIFTED: [usize; 32] = [
    0, 13, 10, 7, 4, 1, 14, 11, 8, 5, 2, 15, 12, 9, 6, 3, 16, 29, 26, 23, 20, 17, 30, 27, 24, 21,
    18, 31, 28, 25, 22, 19,
];

/// InvShiftRows, and each column turned up by one row.
const INV_TURNED_ONCE: [usize; 32] = [
    13, 10, 7, 0, 1, 14, 11, 4, 5, 2, 15, 8, 9, 6, 3, 12, 29, 26, 23, 16, 17, 30, 27, 20, 21, 18,
    31, 24, 25, 22, 19, 28,
];

/// By two rows.
const INV_TURNED_TWICE: [usize; 32] = [
    10, 7, 0, 13, 14, 11, 4, 1, 2, 15, 8, 5, 6, 3, 12, 9, 26, 23, 16, 29, 30, 27, 20, 17, 18, 31,
    24, 21, 22, 19, 28, 25,
];

/// By three rows.
const INV_TURNED_THRICE: [usize; 32] = [
    7, 0, 13, 10, 11, 4, 1, 14, 15, 8, 5, 2, 3, 12, 9, 6, 23, 16, 29, 26, 27, 20, 17, 30, 31, 24,
    21, 18, 19, 28, 25, 22,
];

/// A whole round of the inverse cipher, both with the same unmixed round key.
#[inline(always)]
pub(crate) fn inv_round(state: u8x32, round_keys: u8x32) -> u8x32
    ensures { (s t k : List ℕ) → IsBlock s → IsBlock t → IsBlock k → state ≡ map entered (s ++ t)
        → round_keys ≡ map entered (inv_mix_columns k) ++ map entered (inv_mix_columns k)
        → result ≡ map entered (inv_mix_columns (add_round_key (inv_sub_bytes (inv_shift_rows s)) k)
        ++ inv_mix_columns (add_round_key (inv_sub_bytes (inv_shift_rows t)) k)) }
{
    let (fourteen, eleven, thirteen, nine) = unmixed(state);
    let first: u8x32 = fourteen.swizzle(INV_SHIFTED);
    let second: u8x32 = eleven.swizzle(INV_TURNED_ONCE);
    let third: u8x32 = thirteen.swizzle(INV_TURNED_TWICE);
    let fourth: u8x32 = nine.swizzle(INV_TURNED_THRICE);
    ((first ^ second) ^ (third ^ fourth)) ^ round_keys
}

/// The last round of the inverse cipher, both with the same round key as it is.
#[inline(always)]
pub(crate) fn last_inv_round(state: u8x32, round_keys: u8x32) -> u8x32
    ensures { (s t k : List ℕ) → IsBlock s → IsBlock t → IsBlock k → state ≡ map entered (s ++ t) → round_keys ≡ k ++ k
        → result ≡ add_round_key (inv_sub_bytes (inv_shift_rows s)) k ++ add_round_key (inv_sub_bytes (inv_shift_rows t)) k }
{
    let shifted: u8x32 = last_unmixed(state).swizzle(INV_SHIFTED);
    shifted ^ round_keys
}
