//! How long segments of an earlier run are kept at least.
use crate::asserts::assert_same;
use media_playlist::least_behind;
use std::test::Fail;

/// The target, the window, how many rows were listed, and the microseconds: rows of a target of 2 seconds last 2.499999 at
/// most.
const LEAST: [(u64, u64, u64, u64); 6] = [
    (2, 5, 3, 14_999_994),
    (2, 3, 5, 14_999_994),
    (2, 1, 1, 10_999_998),
    (2, 0, 0, 10_999_998),
    (3_600, 10_000, 10_000, 36_008_600_489_999),
    (u64::MAX, 1, 1, u64::MAX),
];

#[test]
fn the_longest_playlist_and_a_row(rt: HostRuntime) -> Result<(), Fail> {
    for (target, window, listed, wanted) in LEAST {
        assert_same(
            &rt,
            (target, window, listed),
            least_behind(target, window, listed),
            wanted,
        );
    }
    Ok(())
}
