//! The inverse S-box (FIPS 197, 5.3.2) at all bytes of a block at once.

ghost use Rattle.std.specs.Prelude.{◌≡◌, ℕ, ◌<◌, List, map, All};
ghost use Rattle.aes_cbc.specs.InverseCipher.{inv_sub_byte};
ghost use Rattle.aes_cbc.specs.InverseTower.{entered, unmixed};

use crate::lanes::{high_halves, look_up, low_halves};
use crate::tower::halves;
use std::simd::prelude::*;

/// The inverse of the S-box's affine map, in the tower, at the low half of a byte.
pub(crate) const ENTERED_LOW: [u8; 16] = [
    232, 183, 188, 227, 236, 179, 184, 231, 242, 173, 166, 249, 246, 169, 162, 253,
];

/// What the high half adds.
pub(crate) const ENTERED_HIGH: [u8; 16] = [
    0, 101, 5, 96, 230, 131, 227, 134, 148, 241, 145, 244, 114, 23, 119, 18,
];

/// What the left half adds to 7 times the inverse S-box, as the next round takes it.
pub(crate) const SEVEN_LEFT: [u8; 16] = [
    0, 6, 82, 188, 197, 145, 238, 195, 121, 186, 45, 43, 84, 127, 151, 232,
];

/// What the right half adds.
pub(crate) const SEVEN_RIGHT: [u8; 16] = [
    0, 136, 125, 19, 68, 177, 110, 204, 87, 155, 162, 42, 245, 223, 57, 230,
];

/// What the left half adds to twice the inverse S-box.
pub(crate) const TWICE_LEFT: [u8; 16] = [
    0, 148, 50, 12, 193, 103, 62, 85, 205, 152, 107, 255, 166, 89, 243, 170,
];

/// What the right half adds.
pub(crate) const TWICE_RIGHT: [u8; 16] = [
    0, 46, 142, 33, 47, 143, 175, 1, 14, 15, 174, 128, 160, 32, 161, 129,
];

/// What the left half adds to 4 times the inverse S-box.
pub(crate) const FOUR_LEFT: [u8; 16] = [
    0, 116, 55, 124, 140, 207, 75, 248, 240, 8, 179, 199, 67, 132, 187, 63,
];

/// What the right half adds.
pub(crate) const FOUR_RIGHT: [u8; 16] = [
    0, 130, 17, 200, 126, 237, 217, 252, 182, 74, 37, 167, 147, 52, 111, 91,
];

/// What the left half adds to 9 times the inverse S-box.
pub(crate) const NINE_LEFT: [u8; 16] = [
    0, 214, 134, 154, 83, 3, 28, 133, 201, 76, 153, 79, 80, 31, 213, 202,
];

/// What the right half adds.
pub(crate) const NINE_RIGHT: [u8; 16] = [
    0, 73, 215, 236, 137, 23, 59, 192, 101, 165, 251, 178, 158, 44, 94, 114,
];

/// What the left half adds to the inverse S-box.
pub(crate) const LAST_LEFT: [u8; 16] = [
    0, 64, 249, 126, 83, 234, 135, 19, 45, 62, 148, 212, 185, 109, 170, 199,
];

/// What the right half adds.
pub(crate) const LAST_RIGHT: [u8; 16] = [
    0, 29, 68, 147, 15, 86, 215, 18, 156, 142, 197, 216, 89, 129, 75, 202,
];

/// The bytes as the rounds of the inverse cipher take them: through the inverse of the S-box's affine map, in the tower.
#[inline(always)]
pub(crate) fn entered(bytes: u8x16) -> u8x16
    ensures { result ≡ map entered bytes }
{
    look_up(&ENTERED_LOW, low_halves(bytes)) ^ look_up(&ENTERED_HIGH, high_halves(bytes))
}

/// The inverse S-box times 14, 11, 13 and 9, as the next round takes it less its constant, which the round keys have.
#[inline(always)]
pub(crate) fn unmixed(bytes: u8x16) -> (u8x16, u8x16, u8x16, u8x16)
    ensures fourteen { (s : List ℕ) → All (λ b. b < 256) s → bytes ≡ map entered s → result.0 ≡ map (unmixed 14) s }
    ensures eleven { (s : List ℕ) → All (λ b. b < 256) s → bytes ≡ map entered s → result.1 ≡ map (unmixed 11) s }
    ensures thirteen { (s : List ℕ) → All (λ b. b < 256) s → bytes ≡ map entered s → result.2 ≡ map (unmixed 13) s }
    ensures nine { (s : List ℕ) → All (λ b. b < 256) s → bytes ≡ map entered s → result.3 ≡ map (unmixed 9) s }
{
    let (left, right) = halves(bytes);
    let nine = look_up(&NINE_LEFT, left) ^ look_up(&NINE_RIGHT, right);
    let seven = look_up(&SEVEN_LEFT, left) ^ look_up(&SEVEN_RIGHT, right);
    let twice = look_up(&TWICE_LEFT, left) ^ look_up(&TWICE_RIGHT, right);
    let four = look_up(&FOUR_LEFT, left) ^ look_up(&FOUR_RIGHT, right);
    // Sums with a part in common: with look-ups for each, the compiler shuffles the halves of each one by one.
    (nine ^ seven, nine ^ twice, nine ^ four, nine)
}

/// The inverse S-box, out of the tower.
#[inline(always)]
pub(crate) fn last_unmixed(bytes: u8x16) -> u8x16
    ensures { (s : List ℕ) → All (λ b. b < 256) s → bytes ≡ map entered s → result ≡ map inv_sub_byte s }
{
    let (left, right) = halves(bytes);
    look_up(&LAST_LEFT, left) ^ look_up(&LAST_RIGHT, right)
}
