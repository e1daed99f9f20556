//! Look-ups at all bytes of two blocks side by side, each in a table of 16 bytes that is shuffled by them.

ghost use Rattle.std.specs.Prelude.{◌≡◌, ◌/◌, ◌%◌, map, All, true};
ghost use Rattle.aes_cbc.specs.Look.{look, is_place};

use std::simd::prelude::*;

/// Each byte looked up in a table. From 128 on it gives 0.
#[inline(always)]
pub(crate) fn look_up(table: &[u8; 16], places: u8x32) -> u8x32
    requires { All (λ j. is_place j ≡ true) places }
    ensures { result ≡ map (look table.now) places }
{
    let twice: u8x32 = u8x16::from_array(*table).swizzle([
        0, 1, 2, 3, 4, 5, 6, 7, 8, 9, 10, 11, 12, 13, 14, 15, 0, 1, 2, 3, 4, 5, 6, 7, 8, 9, 10, 11,
        12, 13, 14, 15,
    ]);
    twice.swizzle_dyn_within::<16>(places)
}

/// The low four bits of each byte.
#[inline(always)]
pub(crate) fn low_halves(bytes: u8x32) -> u8x32
    ensures { result ≡ map (λ x. x % 16) bytes }
{
    bytes & u8x32::splat(15)
}

/// The high four bits of each byte.
#[inline(always)]
pub(crate) fn high_halves(bytes: u8x32) -> u8x32
    ensures { result ≡ map (λ x. x / 16) bytes }
{
    bytes >> u8x32::splat(4)
}
