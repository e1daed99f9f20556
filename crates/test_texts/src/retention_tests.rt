//! Tests of how long segments are kept.

use crate::asserts::assert_same;
use retention::Retention;
use std::alloc::{AllocError, Global};
use std::process::Abort;

/// The place from which on segments are kept, behind each of so many segments of six seconds; each playlist lists the last
/// `window`.
fn places(
    rt: &impl Abort,
    alloc: Global,
    count: u64,
    window: u64,
    least: u64,
) -> Result<Vec<u64>, AllocError> {
    let mut kept = Retention::new(alloc, least);
    let mut places = Vec::new(alloc);
    for n in 0..count {
        let first = (n + 1).saturating_sub(window);
        assert!(rt; kept.first_listed() <= first && first <= kept.count() && kept.count() < 1000);
        kept.push(6_000_000, first)?;
        places.push(kept.kept_from())?;
    }
    Ok(places)
}

/// With a window of five: a segment leaves with the sixth behind it, and goes when its own duration and the longest
/// playlist's, 36 s together, have passed since; a least time of a minute makes it eleven segments.
#[test]
fn segments_go_in_time(rt: HostRuntime) -> Result<(), AllocError> {
    let table: [(u64, u64, u64, &[u64]); 4] = [
        (15, 5, 0, &[0, 0, 0, 0, 0, 0, 0, 0, 0, 0, 0, 1, 2, 3, 4]),
        (
            18,
            5,
            60_000_000,
            &[0, 0, 0, 0, 0, 0, 0, 0, 0, 0, 0, 0, 0, 0, 0, 0, 1, 2],
        ),
        (5, 1, 0, &[0, 0, 0, 1, 2]),
        (12, 50, 0, &[0; 12]),
    ];
    for (count, window, least, wanted) in table {
        let found = places(&rt, rt.alloc(), count, window, least)?;
        assert_same(&rt, count, found.as_slice(), wanted);
    }
    Ok(())
}
