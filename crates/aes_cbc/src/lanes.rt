//! Look-ups at all bytes of a block at once, each in a table of 16 bytes that is shuffled by them.

ghost use Rattle.std.specs.Prelude.{◌≡◌, ◌/◌, ◌%◌, map, All, true};
ghost use Rattle.aes_cbc.specs.Look.{look, is_place};

use std::simd::prelude::*;

/// Each byte looked up in a table. From 128 on it gives 0.
#[inline(always)]
pub(crate) fn look_up(table: &[u8; 16], places: u8x16) -> u8x16
    requires { All (λ j. is_place j ≡ true) places }
    ensures { result ≡ map (look table.now) places }
{
    u8x16::from_array(*table).swizzle_dyn_within::<16>(places)
}

/// The low four bits of each byte.
#[inline(always)]
pub(crate) fn low_halves(bytes: u8x16) -> u8x16
    ensures { result ≡ map (λ x. x % 16) bytes }
{
    bytes & u8x16::splat(15)
}

/// The high four bits of each byte.
#[inline(always)]
pub(crate) fn high_halves(bytes: u8x16) -> u8x16
    ensures { result ≡ map (λ x. x / 16) bytes }
{
    bytes >> u8x16::splat(4)
}
