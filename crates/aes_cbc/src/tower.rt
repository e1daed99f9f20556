//! GF(2^8) as pairs of elements of GF(2^4), in which an inverse is looked up half by half (FIPS 197, 4.2 and 5.1.1).

ghost use Rattle.std.specs.Prelude.{◌≡◌, map};
ghost use Rattle.aes_cbc.specs.Tower.{tower, left_half, right_half};

use crate::lanes::{high_halves, look_up, low_halves};
use std::simd::prelude::*;

/// What the low half of a byte adds to it in the tower.
pub(crate) const TOWER_LOW: [u8; 16] = [
    0, 112, 42, 90, 152, 232, 178, 194, 8, 120, 34, 82, 144, 224, 186, 202,
];

/// What the high half adds.
pub(crate) const TOWER_HIGH: [u8; 16] = [
    0, 77, 124, 49, 125, 48, 1, 76, 129, 204, 253, 176, 252, 177, 128, 205,
];

/// The inverses in GF(2^4), and 128 for that of 0.
pub(crate) const INVERSES: [u8; 16] = [128, 1, 8, 13, 15, 6, 5, 14, 2, 12, 11, 10, 9, 3, 7, 4];

/// The inverses times a constant of the tower.
pub(crate) const SCALED_INVERSES: [u8; 16] = [
    128, 7, 11, 15, 6, 10, 4, 1, 9, 8, 5, 2, 12, 14, 13, 3,
];

/// The bytes in the tower.
#[inline(always)]
pub(crate) fn into_tower(bytes: u8x16) -> u8x16
    ensures { result ≡ map tower bytes }
{
    look_up(&TOWER_LOW, low_halves(bytes)) ^ look_up(&TOWER_HIGH, high_halves(bytes))
}

/// The two halves at which what is linear in the inverses of bytes in the tower is looked up.
#[inline(always)]
pub(crate) fn halves(bytes: u8x16) -> (u8x16, u8x16)
    ensures left { result.0 ≡ map left_half bytes }
    ensures right { result.1 ≡ map right_half bytes }
{
    let low = low_halves(bytes);
    let high = high_halves(bytes);
    let both = low ^ high;
    let scaled = look_up(&SCALED_INVERSES, low);
    let left = look_up(&INVERSES, high) ^ scaled;
    let right = look_up(&INVERSES, both) ^ scaled;
    let left_half = look_up(&INVERSES, left) ^ both;
    let right_half = look_up(&INVERSES, right) ^ high;
    (left_half, right_half)
}
