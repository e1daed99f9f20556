//! The bytes of two blocks side by side in the tower, and their halves.

ghost use Rattle.std.specs.Prelude.{◌≡◌, map};
ghost use Rattle.aes_cbc.specs.Tower.{tower, left_half, right_half};

use crate::pair_lanes::{high_halves, look_up, low_halves};
use crate::tower::{INVERSES, SCALED_INVERSES, TOWER_HIGH, TOWER_LOW};
use std::simd::prelude::*;

/// The bytes in the tower.
#[inline(always)]
pub(crate) fn into_tower(bytes: u8x32) -> u8x32
    ensures { result ≡ map tower bytes }
{
    look_up(&TOWER_LOW, low_halves(bytes)) ^ look_up(&TOWER_HIGH, high_halves(bytes))
}

/// The two halves at which what is linear in the inverses of bytes in the tower is looked up.
#[inline(always)]
pub(crate) fn halves(bytes: u8x32) -> (u8x32, u8x32)
    ensures left { result.0 ≡ map left_half bytes }
    ensures right { result.1 ≡ map right_half bytes }
{
    let low = low_halves(bytes);
    let high = high_halves(bytes);
    let both = low ^ high;
    let scaled = look_up(&SCALED_INVERSES, low);
    let left = look_up(&INVERSES, high) ^ scaled;
    let right = look_up(&INVERSES, both) ^ scaled;
    let left_half = look_up(&INVERSES, left) ^ both;
    let right_half = look_up(&INVERSES, right) ^ high;
    (left_half, right_half)
}
