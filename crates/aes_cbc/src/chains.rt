//! Chains of several texts side by side (SP 800-38A, 6.2), each from its own vector on under its own key.

ghost use Rattle.std.specs.Prelude.{◌≡◌, ◌%◌, [], length, slice_index_or};
ghost use Rattle.std.specs.List.{concat};
ghost use Rattle.aes_cbc.specs.Chain.{cbc, blocks};

use crate::key::Key;
use crate::pairs::{first_of, joined, second_of};
use std::simd::prelude::*;

/// Encrypts two texts of as many whole blocks where they lie.
pub(crate) fn encrypt_two_chains(
    keys: (&Key, &Key),
    vectors: &[[u8; 16]; 2],
    first: &mut [u8],
    second: &mut [u8],
)
    requires whole { length first.old % 16 ≡ 0 }
    requires second { length second.old ≡ length first.old }
    ensures first { first.new ≡ concat (cbc keys.entry.0.now (slice_index_or vectors.now 0 []) (blocks first.old)) }
    ensures second { second.new ≡ concat (cbc keys.entry.1.now (slice_index_or vectors.now 1 []) (blocks second.old)) }
{
    let mut last = joined(u8x16::from_array(vectors[0]), u8x16::from_array(vectors[1]));
    'block: for i in 0..first.len() / 16 {
        let blocks = joined(
            u8x16::from_array(first.as_chunks::<16>().0[i]),
            u8x16::from_array(second.as_chunks::<16>().0[i]),
        );
        let next = Key::encrypt_two(keys, blocks ^ last);
        first[16 * i..16 * i + 16].copy_from_slice(&first_of(next));
        second[16 * i..16 * i + 16].copy_from_slice(&second_of(next));
        last = next;
    }
}

/// Encrypts four texts of as many whole blocks where they lie.
pub(crate) fn encrypt_four_chains(
    keys: (&Key, &Key, &Key, &Key),
    vectors: &[[u8; 16]; 4],
    first: &mut [u8],
    second: &mut [u8],
    third: &mut [u8],
    fourth: &mut [u8],
)
    requires whole { length first.old % 16 ≡ 0 }
    requires second { length second.old ≡ length first.old }
    requires third { length third.old ≡ length first.old }
    requires fourth { length fourth.old ≡ length first.old }
    ensures first { first.new ≡ concat (cbc keys.entry.0.now (slice_index_or vectors.now 0 []) (blocks first.old)) }
    ensures second { second.new ≡ concat (cbc keys.entry.1.now (slice_index_or vectors.now 1 []) (blocks second.old)) }
    ensures third { third.new ≡ concat (cbc keys.entry.2.now (slice_index_or vectors.now 2 []) (blocks third.old)) }
    ensures fourth { fourth.new ≡ concat (cbc keys.entry.3.now (slice_index_or vectors.now 3 []) (blocks fourth.old)) }
{
    let mut front_last = joined(u8x16::from_array(vectors[0]), u8x16::from_array(vectors[1]));
    let mut back_last = joined(u8x16::from_array(vectors[2]), u8x16::from_array(vectors[3]));
    'block: for i in 0..first.len() / 16 {
        let front = joined(
            u8x16::from_array(first.as_chunks::<16>().0[i]),
            u8x16::from_array(second.as_chunks::<16>().0[i]),
        );
        let back = joined(
            u8x16::from_array(third.as_chunks::<16>().0[i]),
            u8x16::from_array(fourth.as_chunks::<16>().0[i]),
        );
        let next = Key::encrypt_four(keys, front ^ front_last, back ^ back_last);
        first[16 * i..16 * i + 16].copy_from_slice(&first_of(next.0));
        second[16 * i..16 * i + 16].copy_from_slice(&second_of(next.0));
        third[16 * i..16 * i + 16].copy_from_slice(&first_of(next.1));
        fourth[16 * i..16 * i + 16].copy_from_slice(&second_of(next.1));
        front_last = next.0;
        back_last = next.1;
    }
}
