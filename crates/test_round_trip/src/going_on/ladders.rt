//! The discontinuities of a ladder's renditions.
use crate::going_on::rows::row;
use ladder_items::{Gone, Kind};
use resume::{Restored, UnevenFault, begin, go_on_beside, lags, most_breaks};
use std::alloc::{AllocError, Global};
use std::process::Abort;

/// How many discontinuities are gone and how many of the earlier rows are some, of each rendition that has playlists; and the
/// most that one had, or the first that doesn't go with one before it.
type Case = (
    Kind,
    [Option<(u64, u64)>; 3],
    Result<Option<u128>, UnevenFault>,
);

const LADDERS: [Case; 12] = [
    (Kind::Live, [None, None, None], Ok(None)),
    (
        Kind::Live,
        [Some((3, 1)), Some((2, 2)), Some((4, 0))],
        Ok(Some(4)),
    ),
    (Kind::Live, [None, Some((2, 2)), Some((4, 0))], Ok(Some(4))),
    (
        Kind::Live,
        [Some((3, 1)), Some((3, 2)), Some((4, 0))],
        Ok(Some(5)),
    ),
    (Kind::Live, [Some((0, 0)), None, Some((0, 1))], Ok(Some(1))),
    (Kind::Live, [Some((9, 0)), None, Some((0, 1))], Ok(Some(9))),
    (Kind::Event, [None, None, None], Ok(None)),
    (
        Kind::Event,
        [Some((0, 1)), Some((0, 1)), Some((0, 1))],
        Ok(Some(1)),
    ),
    (
        Kind::Event,
        [Some((0, 1)), Some((0, 2)), Some((0, 2))],
        Err(UnevenFault(1)),
    ),
    (
        Kind::Event,
        [Some((0, 2)), Some((0, 2)), Some((0, 1))],
        Err(UnevenFault(2)),
    ),
    (
        Kind::Event,
        [Some((0, 0)), Some((0, 0)), None],
        Err(UnevenFault(2)),
    ),
    (Kind::Event, [None, Some((0, 0)), None], Err(UnevenFault(1))),
];

/// A rendition with so many discontinuities.
fn restored(alloc: Global, gone: u64, listed: u64) -> Result<Restored, AllocError> {
    let mut earlier = Vec::new(alloc);
    for i in 0..listed {
        earlier.push(row(alloc, i.wrapping_mul(7).wrapping_add(6))?)?;
        earlier.push(row(alloc, i.wrapping_mul(7))?)?;
    }
    Ok(Restored {
        gone: Gone {
            rows: 100,
            frames: 200,
            discontinuities: gone,
        },
        earlier,
        next: 104,
    })
}

fn ladder(
    alloc: Global,
    renditions: &[Option<(u64, u64)>],
) -> Result<Vec<Option<Restored>>, AllocError> {
    let mut ladder = Vec::new(alloc);
    for rendition in renditions {
        match rendition {
            Some((gone, listed)) => ladder.push(Some(restored(alloc, *gone, *listed)?))?,
            None => ladder.push(None)?,
        }
    }
    Ok(ladder)
}

#[test]
fn discontinuities_are_even(rt: HostRuntime) -> Result<(), AllocError> {
    for (kind, renditions, wanted) in LADDERS {
        let found = ladder(rt.alloc(), &renditions)?;
        assert!(&rt; most_breaks(kind, &found) == wanted);
    }
    Ok(())
}

/// How many discontinuities the others had, and how many came before the first segment of a rendition that begins.
const BEGUN: [(Option<u128>, Option<u64>); 5] = [
    (None, Some(0)),
    (Some(0), Some(1)),
    (Some(0xFFFF_FFFD), Some(0xFFFF_FFFE)),
    (Some(0xFFFF_FFFE), None),
    (Some(1 << 64), None),
];

#[test]
fn renditions_begin(rt: HostRuntime) {
    for (most, wanted) in BEGUN {
        let begun = begin(rt.alloc(), most);
        assert!(&rt; begun.map(|one| one.gone.discontinuities) == wanted);
    }
}

/// A rendition that had 5 discontinuities: the most that one had, whether it had fewer, and what came before its next list, where
/// it may be: how many rows, I-frames and discontinuities, and how many rows are listed still.
const BESIDE: [(Option<u128>, bool, Option<(u64, u128, u64, usize)>); 6] = [
    (None, false, Some((100, 200, 3, 4))),
    (Some(5), false, Some((100, 200, 3, 4))),
    (Some(6), true, Some((104, 208, 6, 0))),
    (Some(0xFFFF_FFFE), true, Some((104, 208, 0xFFFF_FFFE, 0))),
    (Some(0xFFFF_FFFF), true, None),
    (Some(1 << 64), true, None),
];

#[test]
fn renditions_go_on_beside_others(rt: HostRuntime) -> Result<(), AllocError> {
    for (most, behind, wanted) in BESIDE {
        let restored = restored(rt.alloc(), 3, 2)?;
        assert!(&rt; lags(&restored, most) == behind);
        let found = go_on_beside(rt.alloc(), restored, most).map(|one| {
            (
                one.gone.rows,
                one.gone.frames,
                one.gone.discontinuities,
                one.earlier.len(),
            )
        });
        assert!(&rt; found == wanted);
    }
    Ok(())
}
