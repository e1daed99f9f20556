//! Tests of texts whose rest is appended while they are sealed: each comes out as the whole text does.

use crate::asserts::assert_same;
use crate::side_by_side::{lane, text};
use aes_cbc::{seal, seal_behind, seal_four_behind, seal_two_behind};
use std::alloc::{AllocError, Global};
use std::test::Fail;

/// How many bytes of a text lie there, and how many are appended.
type Parts = (usize, usize);

/// Rests of no piece, of less than one, of just one, and of several; the longest in each place, and heads at each side of a border.
const PARTS: [[Parts; 4]; 11] = [
    [(0, 0), (376, 0), (0, 16), (188, 188)],
    [(376, 4_096), (376, 4_095), (376, 3_720), (5, 4_096)],
    [(376, 12_408), (564, 4_888), (752, 188), (376, 8_272)],
    [(564, 188), (376, 12_032), (1_316, 9_024), (0, 12_288)],
    [(1_316, 8_460), (376, 0), (376, 16_356), (31, 4_097)],
    [(0, 15), (15, 16), (16, 16), (1, 15)],
    [(0, 1_023), (0, 1_024), (0, 1_025), (0, 2_063)],
    [(15, 1_024), (15, 1_023), (15, 1_025), (15, 4_096)],
    [(16, 1_025), (16, 2_063), (16, 1_024), (16, 1_040)],
    [(376, 1_032), (376, 1_031), (376, 1_033), (376, 2_063)],
    [(15, 1_041), (0, 1_040), (16, 3_088), (376, 5_160)],
];

/// The bytes that lie there, with the whole text and what is appended to them.
fn cut(alloc: Global, parts: Parts, number: u8) -> Result<(Vec<u8>, Vec<u8>), AllocError> {
    let whole = text(alloc, parts.0.saturating_add(parts.1), number)?;
    let mut front = Vec::new(alloc);
    for place in 0..parts.0.min(whole.len()) {
        front.push(whole[place])?;
    }
    Ok((front, whole))
}

/// What is behind so many bytes.
fn behind(whole: &[u8], front: usize) -> &[u8] {
    whole.get(front..).unwrap_or(&[])
}

/// Whether the bytes are this text sealed as a whole.
fn is_sealed(alloc: Global, bytes: &[u8], whole: &[u8], number: u8) -> Result<bool, AllocError> {
    let (key, vector) = lane(number);
    let sealed = seal(alloc, &key, &vector, whole)?;
    Ok(sealed.as_slice() == bytes)
}

/// Whether a text of these parts comes out as a whole one does.
fn one_is_sealed(alloc: Global, parts: Parts) -> Result<bool, AllocError> {
    let (mut first, whole) = cut(alloc, parts, 0)?;
    let (key, vector) = lane(0);
    seal_behind(&key, &vector, &mut first, behind(&whole, parts.0))?;
    is_sealed(alloc, &first, &whole, 0)
}

/// Whether two texts of the first two parts do.
fn two_are_sealed(alloc: Global, parts: [Parts; 4]) -> Result<bool, AllocError> {
    let (mut first, one) = cut(alloc, parts[0], 0)?;
    let (mut second, two) = cut(alloc, parts[1], 1)?;
    let (a, b) = (lane(0), lane(1));
    let more = (behind(&one, parts[0].0), behind(&two, parts[1].0));
    seal_two_behind((&a.0, &b.0), &[a.1, b.1], &mut first, &mut second, more)?;
    Ok(is_sealed(alloc, &first, &one, 0)? && is_sealed(alloc, &second, &two, 1)?)
}

/// Whether four texts do.
fn four_are_sealed(alloc: Global, parts: [Parts; 4]) -> Result<bool, AllocError> {
    let (mut first, one) = cut(alloc, parts[0], 0)?;
    let (mut second, two) = cut(alloc, parts[1], 1)?;
    let (mut third, three) = cut(alloc, parts[2], 2)?;
    let (mut fourth, four) = cut(alloc, parts[3], 3)?;
    let (a, b, c, d) = (lane(0), lane(1), lane(2), lane(3));
    let more = (
        behind(&one, parts[0].0),
        behind(&two, parts[1].0),
        behind(&three, parts[2].0),
        behind(&four, parts[3].0),
    );
    seal_four_behind(
        (&a.0, &b.0, &c.0, &d.0),
        &[a.1, b.1, c.1, d.1],
        &mut first,
        &mut second,
        &mut third,
        &mut fourth,
        more,
    )?;
    Ok(
        is_sealed(alloc, &first, &one, 0)?
            && is_sealed(alloc, &second, &two, 1)?
            && is_sealed(alloc, &third, &three, 2)?
            && is_sealed(alloc, &fourth, &four, 3)?,
    )
}

#[test]
fn each_text_comes_out_as_a_whole_one(rt: HostRuntime) -> Result<(), Fail> {
    for parts in PARTS {
        let one = one_is_sealed(rt.alloc(), parts[0])?;
        let two = two_are_sealed(rt.alloc(), parts)?;
        let four = four_are_sealed(rt.alloc(), parts)?;
        assert_same(&rt, parts, (one, two, four), (true, true, true));
    }
    Ok(())
}
