//! The S-box (FIPS 197, 5.1.1) at all bytes of two blocks side by side.

ghost use Rattle.std.specs.Prelude.{◌≡◌, ℕ, ◌<◌, List, map, All};
ghost use Rattle.aes_cbc.specs.Tower.{tower, once, twice, last};

use crate::pair_lanes::look_up;
use crate::pair_tower::halves;
use crate::sbox::{LAST_LEFT, LAST_RIGHT, ONCE_LEFT, ONCE_RIGHT, TWICE_LEFT, TWICE_RIGHT};
use std::simd::prelude::*;

/// The S-box in the tower of bytes in the tower, and twice that, both less what the S-box adds. The round keys have it.
#[inline(always)]
pub(crate) fn substituted(bytes: u8x32) -> (u8x32, u8x32)
    ensures once { (s : List ℕ) → All (λ b. b < 256) s → bytes ≡ map tower s → result.0 ≡ map once s }
    ensures twice { (s : List ℕ) → All (λ b. b < 256) s → bytes ≡ map tower s → result.1 ≡ map twice s }
{
    let (left, right) = halves(bytes);
    (
        look_up(&ONCE_LEFT, left) ^ look_up(&ONCE_RIGHT, right),
        look_up(&TWICE_LEFT, left) ^ look_up(&TWICE_RIGHT, right),
    )
}

/// The S-box of bytes in the tower, out of the tower, less what the S-box adds.
#[inline(always)]
pub(crate) fn last_substituted(bytes: u8x32) -> u8x32
    ensures { (s : List ℕ) → All (λ b. b < 256) s → bytes ≡ map tower s → result ≡ map last s }
{
    let (left, right) = halves(bytes);
    look_up(&LAST_LEFT, left) ^ look_up(&LAST_RIGHT, right)
}
