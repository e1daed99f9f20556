use crate::asserts::assert_same;
use crate::fixtures::{Given, Pattern, drain, drain_lent, pattern_of, source_of};
use std::test::Fail;

#[test]
fn bytes_come_in_order(rt: HostRuntime) -> Result<(), Fail> {
    for (len, piece, size) in [
        (0, 1, 10),
        (1, 1, 10),
        (1000, 1, 7),
        (1000, 7, 1000),
        (1000, 300, 18_800),
        (300_000, 1316, 18_800),
        (300_000, 70_000, 18_800),
        (3_000_000, 70_000, 100_000),
    ] {
        for fails in [false, true] {
            for falters in [false, true] {
                let input = Pattern {
                    at: 0,
                    len,
                    piece,
                    fails,
                    falters,
                    faltered: false,
                };
                let want = Given {
                    count: len,
                    wrong: 0,
                    failed: fails,
                };
                let mut given = None;
                if let Some(mut source) = source_of(rt, rt.alloc(), input)? {
                    given = Some(drain(rt.alloc(), &mut source, size)?);
                }
                assert_same(&rt, (len, piece, size, fails, falters), given, Some(want));
            }
        }
    }
    Ok(())
}

#[test]
fn lent_bytes_are_those_that_are_read(rt: HostRuntime) -> Result<(), Fail> {
    for (len, piece, size) in [
        (0, 1, 10),
        (1000, 1, 7),
        (1000, 7, 1000),
        (1000, 300, 18_800),
        (300_000, 1316, 18_800),
        (300_000, 70_000, 18_800),
        (3_000_000, 70_000, 100_000),
    ] {
        for fails in [false, true] {
            let input = Pattern {
                fails,
                ..pattern_of(len, piece)
            };
            let want = Given {
                count: len,
                wrong: 0,
                failed: fails,
            };
            let mut given = None;
            if let Some(mut source) = source_of(rt, rt.alloc(), input)? {
                given = Some(drain_lent(rt.alloc(), &mut source, size)?);
            }
            assert_same(&rt, (len, piece, size, fails), given, Some(want));
        }
    }
    Ok(())
}
