//! Tests of texts that are sealed side by side: each comes out as it does alone.

use crate::asserts::assert_same;
use aes_cbc::{Key, seal, seal_four_in_place, seal_two_in_place};
use std::alloc::{AllocError, Global};
use std::test::Fail;

/// Lengths of texts: none, whole blocks, and others, the longest in each place.
const LENGTHS: [[usize; 4]; 6] = [
    [0, 0, 0, 0],
    [16, 16, 16, 16],
    [188, 0, 15, 47],
    [1, 376, 33, 16],
    [31, 32, 564, 5],
    [48, 17, 2, 752],
];

/// A text of so many bytes, another one for each number.
pub(crate) fn text(alloc: Global, length: usize, number: u8) -> Result<Vec<u8>, AllocError> {
    let mut bytes = Vec::new(alloc);
    for place in 0..length {
        bytes.push(((place % 256) as u8).wrapping_mul(7).wrapping_add(number))?;
    }
    Ok(bytes)
}

/// A key and a vector of a number.
pub(crate) fn lane(number: u8) -> (Key, [u8; 16]) {
    (Key::new([number; 16]), [number.wrapping_add(100); 16])
}

/// Whether the bytes are this text sealed alone.
fn is_sealed(alloc: Global, bytes: &[u8], length: usize, number: u8) -> Result<bool, AllocError> {
    let (key, vector) = lane(number);
    let plain = text(alloc, length, number)?;
    let alone = seal(alloc, &key, &vector, &plain)?;
    Ok(alone.as_slice() == bytes)
}

/// Whether four texts of these lengths come out as each does alone.
fn four_are_sealed(alloc: Global, lengths: [usize; 4]) -> Result<bool, AllocError> {
    let mut first = text(alloc, lengths[0], 0)?;
    let mut second = text(alloc, lengths[1], 1)?;
    let mut third = text(alloc, lengths[2], 2)?;
    let mut fourth = text(alloc, lengths[3], 3)?;
    let (a, b, c, d) = (lane(0), lane(1), lane(2), lane(3));
    seal_four_in_place(
        (&a.0, &b.0, &c.0, &d.0),
        &[a.1, b.1, c.1, d.1],
        &mut first,
        &mut second,
        &mut third,
        &mut fourth,
    )?;
    Ok(
        is_sealed(alloc, &first, lengths[0], 0)?
            && is_sealed(alloc, &second, lengths[1], 1)?
            && is_sealed(alloc, &third, lengths[2], 2)?
            && is_sealed(alloc, &fourth, lengths[3], 3)?,
    )
}

/// Whether two texts of the first two lengths do.
fn two_are_sealed(alloc: Global, lengths: [usize; 4]) -> Result<bool, AllocError> {
    let mut first = text(alloc, lengths[0], 0)?;
    let mut second = text(alloc, lengths[1], 1)?;
    let (a, b) = (lane(0), lane(1));
    seal_two_in_place((&a.0, &b.0), &[a.1, b.1], &mut first, &mut second)?;
    Ok(is_sealed(alloc, &first, lengths[0], 0)? && is_sealed(alloc, &second, lengths[1], 1)?)
}

#[test]
fn each_text_comes_out_as_alone(rt: HostRuntime) -> Result<(), Fail> {
    for lengths in LENGTHS {
        let four = four_are_sealed(rt.alloc(), lengths)?;
        let two = two_are_sealed(rt.alloc(), lengths)?;
        assert_same(&rt, lengths, (four, two), (true, true));
    }
    Ok(())
}
