//! The inverse S-box (FIPS 197, 5.3.2) at all bytes of two blocks side by side.

ghost use Rattle.std.specs.Prelude.{◌≡◌, ℕ, ◌<◌, List, map, All};
ghost use Rattle.aes_cbc.specs.InverseCipher.{inv_sub_byte};
ghost use Rattle.aes_cbc.specs.InverseTower.{entered, unmixed};

use crate::inverse_sbox::{
    ENTERED_HIGH, ENTERED_LOW, FOUR_LEFT, FOUR_RIGHT, LAST_LEFT, LAST_RIGHT, NINE_LEFT, NINE_RIGHT,
    SEVEN_LEFT, SEVEN_RIGHT, TWICE_LEFT, TWICE_RIGHT,
};
use crate::pair_lanes::{high_halves, look_up, low_halves};
use crate::pair_tower::halves;
use std::simd::prelude::*;

/// The bytes as the rounds of the inverse cipher take them: through the inverse of the S-box's affine map, in the tower.
#[inline(always)]
pub(crate) fn entered(bytes: u8x32) -> u8x32
    ensures { result ≡ map entered bytes }
{
    look_up(&ENTERED_LOW, low_halves(bytes)) ^ look_up(&ENTERED_HIGH, high_halves(bytes))
}

/// The inverse S-box times 14, 11, 13 and 9, as the next round takes it less its constant, which the round keys have.
#[inline(always)]
pub(crate) fn unmixed(bytes: u8x32) -> (u8x32, u8x32, u8x32, u8x32)
    ensures fourteen { (s : List ℕ) → All (λ b. b < 256) s → bytes ≡ map entered s → result.0 ≡ map (unmixed 14) s }
    ensures eleven { (s : List ℕ) → All (λ b. b < 256) s → bytes ≡ map entered s → result.1 ≡ map (unmixed 11) s }
    ensures thirteen { (s : List ℕ) → All (λ b. b < 256) s → bytes ≡ map entered s → result.2 ≡ map (unmixed 13) s }
    ensures nine { (s : List ℕ) → All (λ b. b < 256) s → bytes ≡ map entered s → result.3 ≡ map (unmixed 9) s }
{
    let (left, right) = halves(bytes);
    let nine = look_up(&NINE_LEFT, left) ^ look_up(&NINE_RIGHT, right);
    let seven = look_up(&SEVEN_LEFT, left) ^ look_up(&SEVEN_RIGHT, right);
    let twice = look_up(&TWICE_LEFT, left) ^ look_up(&TWICE_RIGHT, right);
    let four = look_up(&FOUR_LEFT, left) ^ look_up(&FOUR_RIGHT, right);
    // Sums with a part in common: with look-ups for each, the compiler shuffles the halves of each one by one.
    (nine ^ seven, nine ^ twice, nine ^ four, nine)
}

/// The inverse S-box, out of the tower.
#[inline(always)]
pub(crate) fn last_unmixed(bytes: u8x32) -> u8x32
    ensures { (s : List ℕ) → All (λ b. b < 256) s → bytes ≡ map entered s → result ≡ map inv_sub_byte s }
{
    let (left, right) = halves(bytes);
    look_up(&LAST_LEFT, left) ^ look_up(&LAST_RIGHT, right)
}
