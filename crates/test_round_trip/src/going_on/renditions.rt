//! Renditions that go on.
use crate::going_on::rows::{
    EVENT, LIVE, SALT, SALTED, give, restored, resumed, row, size, texts_of, window,
};
use ladder_items::{Gone, Kind};
use media_playlist::{Window, WindowFault};
use resume::{ResumeFault, Wanted};
use std::alloc::{AllocError, Global};
use std::process::Abort;

/// A run that gave so many rows, asks for a least number of them, and what is gone then: rows, and discontinuities.
const RUNS: [(u64, Wanted, u64, u64, u64); 8] = [
    (20, LIVE, 5, 15, 2),
    (1, LIVE, 5, 0, 0),
    (7, LIVE, 1, 3, 0),
    (20, LIVE, 12, 8, 1),
    (20, SALTED, 5, 15, 2),
    (20, EVENT, 5, 0, 0),
    (9, EVENT, 5, 0, 0),
    (5, SALTED_EVENT, 5, 0, 0),
];

const SALTED_EVENT: Wanted = Wanted {
    target: 6,
    kind: Kind::Event,
    salt: Some(SALT),
};

/// Both windows show the same texts.
fn assert_alike(
    rt: &impl Abort,
    one: &Window,
    other: &Window,
    ended: bool,
) -> Result<(), AllocError> {
    let (one, other) = (texts_of(one, ended)?, texts_of(other, ended)?);
    assert!(rt; one.media.as_str() == other.media.as_str());
    assert!(rt; one.frames.as_str() == other.frames.as_str());
    Ok(())
}

/// A run is killed behind some rows, and the next one goes on for 20: all its playlists are those of one run of all rows.
fn goes_on(
    rt: &impl Abort,
    alloc: Global,
    (count, wanted, least, rows, breaks): (u64, Wanted, u64, u64, u64),
) -> Result<(), ResumeFault> {
    let mut whole = window(alloc, "v", wanted, least)?;
    assert!(rt; give(rt, alloc, &mut whole, 0, count).is_ok());
    let from = restored(alloc, "v", wanted, &texts_of(&whole, false)?)?;
    let gone = Gone {
        rows,
        frames: 2 * u128::from(rows),
        discontinuities: breaks,
    };
    assert!(rt;
        from.gone == gone
            && from.next == count
            && from.earlier.len() as u64 == count.saturating_sub(rows)
    );
    for (i, earlier) in from.earlier.iter().enumerate() {
        let number = rows + i as u64;
        assert!(rt; earlier.number == number && earlier.size == size(number));
        assert!(rt; earlier.frames.as_slice() == row(alloc, number)?.frames.as_slice());
    }
    let Ok(mut later) = resumed(rt, alloc, wanted, least, from) else {
        return Err(ResumeFault::NoMemory);
    };
    assert_alike(rt, &whole, &later, true)?;
    for i in 0..20 {
        let number = count.saturating_add(i);
        let behind = number.saturating_add(1);
        assert!(rt; give(rt, alloc, &mut whole, number, behind).is_ok());
        assert!(rt; give(rt, alloc, &mut later, number, behind).is_ok());
        assert_alike(rt, &whole, &later, number % 2 == 0)?;
    }
    Ok(())
}

#[test]
fn renditions_go_on(rt: HostRuntime) -> Result<(), ResumeFault> {
    for run in RUNS {
        goes_on(&rt, rt.alloc(), run)?;
    }
    Ok(())
}
