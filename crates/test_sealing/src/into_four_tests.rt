//! Tests of four texts that are sealed into writers side by side: each comes out as the whole text does.

use crate::asserts::assert_same;
use crate::into_tests::{Narrow, Parts, Told, behind, cut, sealed_len, told};
use crate::side_by_side::lane;
use aes_cbc::{CHUNK, SealFault, seal_four_into};
use std::alloc::{AllocError, Global};

/// Four texts of as many chunks, and of more in any place.
const FOUR_PARTS: [[Parts; 4]; 5] = [
    [
        (0, 3 * CHUNK + 5),
        (376, 3 * CHUNK + 8),
        (5, 3 * CHUNK + 11),
        (15, 3 * CHUNK + 1),
    ],
    [
        (376, CHUNK + 8),
        (5, 2 * CHUNK),
        (0, 4 * CHUNK),
        (31, CHUNK + 16),
    ],
    [(0, 2 * CHUNK), (0, CHUNK - 1), (5, CHUNK), (5, CHUNK + 11)],
    [
        (376, CHUNK + 8),
        (376, CHUNK + 8),
        (376, 15),
        (376, CHUNK + 8),
    ],
    [(0, 0), (0, 15), (0, 16), (5, 15)],
];

/// How much room four writers have of which one is full at some time, or two are.
const FULL: [[usize; 4]; 7] = [
    [0, usize::MAX, usize::MAX, usize::MAX],
    [usize::MAX, 100, usize::MAX, usize::MAX],
    [usize::MAX, usize::MAX, CHUNK + 100, usize::MAX],
    [usize::MAX, usize::MAX, usize::MAX, CHUNK + 400],
    [CHUNK + 384, usize::MAX, usize::MAX, 2 * CHUNK],
    [usize::MAX, usize::MAX, 0, 2 * CHUNK + 400],
    [0, 1, 15, 16],
];

/// Seals four texts into writers with so much room.
fn into_four(
    alloc: Global,
    parts: &[Parts; 4],
    rooms: &[usize; 4],
) -> Result<(Told, Told, Told, Told), AllocError> {
    let (mut first, one) = cut(alloc, parts[0], 0)?;
    let (mut second, two) = cut(alloc, parts[1], 1)?;
    let (mut third, three) = cut(alloc, parts[2], 2)?;
    let (mut fourth, four) = cut(alloc, parts[3], 3)?;
    let (a, b, c, d) = (lane(0), lane(1), lane(2), lane(3));
    let mut first_out = Narrow::new(alloc, rooms[0]);
    let mut second_out = Narrow::new(alloc, rooms[1]);
    let mut third_out = Narrow::new(alloc, rooms[2]);
    let mut fourth_out = Narrow::new(alloc, rooms[3]);
    let answers = seal_four_into(
        (&a.0, &b.0, &c.0, &d.0),
        &[a.1, b.1, c.1, d.1],
        &mut first,
        &mut second,
        &mut third,
        &mut fourth,
        (
            behind(&one, parts[0].0),
            behind(&two, parts[1].0),
            behind(&three, parts[2].0),
            behind(&four, parts[3].0),
        ),
        &mut first_out,
        &mut second_out,
        &mut third_out,
        &mut fourth_out,
    );
    Ok((
        told(alloc, answers.0, &first_out.taken, &one, 0)?,
        told(alloc, answers.1, &second_out.taken, &two, 1)?,
        told(alloc, answers.2, &third_out.taken, &three, 2)?,
        told(alloc, answers.3, &fourth_out.taken, &four, 3)?,
    ))
}

/// What is told of a text whose writer has so much room: it failed where that isn't enough.
fn wanted(parts: Parts, room: usize) -> Told {
    let len = sealed_len(parts);
    if room < len {
        return (Err(SealFault::Unwritten), room, true);
    }
    (Ok(()), len, true)
}

#[test]
fn four_texts_are_written_as_they_are_sealed(rt: HostRuntime) -> Result<(), AllocError> {
    for parts in FOUR_PARTS {
        let came = into_four(rt.alloc(), &parts, &[usize::MAX; 4])?;
        let all = (
            wanted(parts[0], usize::MAX),
            wanted(parts[1], usize::MAX),
            wanted(parts[2], usize::MAX),
            wanted(parts[3], usize::MAX),
        );
        assert_same(&rt, parts, came, all);
    }
    Ok(())
}

#[test]
fn a_failed_write_leaves_the_other_three(rt: HostRuntime) -> Result<(), AllocError> {
    let parts = [
        (376, 3 * CHUNK),
        (5, 3 * CHUNK + 20),
        (0, 2 * CHUNK),
        (376, 3 * CHUNK + 8),
    ];
    for rooms in FULL {
        let came = into_four(rt.alloc(), &parts, &rooms)?;
        let all = (
            wanted(parts[0], rooms[0]),
            wanted(parts[1], rooms[1]),
            wanted(parts[2], rooms[2]),
            wanted(parts[3], rooms[3]),
        );
        assert_same(&rt, rooms, came, all);
    }
    Ok(())
}
