//! Two blocks side by side.

ghost use Rattle.std.specs.Prelude.{◌≡◌, take, drop};
ghost use Rattle.aes_cbc.specs.Pairs.{ArePair};

use std::simd::prelude::*;

/// Two blocks side by side.
#[inline(always)]
pub(crate) fn joined(first: u8x16, second: u8x16) -> u8x32
    ensures { ArePair result first second }
{
    first.shuffle(
        second,
        [
            0, 1, 2, 3, 4, 5, 6, 7, 8, 9, 10, 11, 12, 13, 14, 15, 16, 17, 18, 19, 20, 21, 22, 23,
            24, 25, 26, 27, 28, 29, 30, 31,
        ],
    )
}

/// The first of two blocks side by side.
#[inline(always)]
pub(crate) fn first_of(both: u8x32) -> [u8; 16]
    ensures { result ≡ take 16 both }
{
    let block: u8x16 = both.extract::<0, 16>();
    block.to_array()
}

/// The second of two blocks side by side.
#[inline(always)]
pub(crate) fn second_of(both: u8x32) -> [u8; 16]
    ensures { result ≡ drop 16 both }
{
    let block: u8x16 = both.extract::<16, 16>();
    block.to_array()
}
