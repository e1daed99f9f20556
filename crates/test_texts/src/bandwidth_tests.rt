ghost use Rattle.std.specs.Prelude.{◌≤◌, ◌<◌, ◌^◌, length};

use crate::asserts::assert_same;
use bandwidth::{Meter, Peak};
use std::alloc::{AllocError, Global};
use std::process::Abort;

/// A meter with a target of so many seconds that was pushed these rows, of bytes and microseconds. A row of no
/// microseconds lasts one.
fn meter(alloc: Global, target: u64, rows: &[(u32, u32)]) -> Result<Meter, AllocError>
    requires least { 1 ≤ target }
    requires most { target ≤ 3600 }
    requires few { length rows.now < 2 ^ 52 }
{
    let mut meter = Meter::new(alloc, target);
    for (size, micros) in rows {
        meter.push(u64::from(*size), u64::from(*micros).max(1))?;
    }
    Ok(meter)
}

/// A target in seconds, and rows of bytes and microseconds.
type Rows<'a> = (u64, &'a [(u32, u32)]);

/// The rate of the peak, the rows from which to which it is, and whether it is in range. Behind them is the average.
type Rates = ((u64, u64, u64, bool), u64);

/// Fails unless the meter of these rows tells these rates.
fn assert_rates(
    rt: &impl Abort,
    alloc: Global,
    (target, rows): Rows<'_>,
    ((rate, from, to, ranged), average): Rates,
) -> Result<(), AllocError> {
    assert!(rt; 1 <= target && target <= 3600 && rows.len() < 100);
    let meter = meter(alloc, target, rows)?;
    let peak = Peak {
        rate,
        from,
        to,
        ranged,
    };
    let came = (meter.peak(), meter.average());
    assert_same(rt, (target, rows), came, (Some(peak), Some(average)));
    Ok(())
}

#[test]
fn no_rows(rt: HostRuntime) {
    let meter = Meter::new(rt.alloc(), 6);
    assert_same(&rt, 0, (meter.peak(), meter.average()), (None, None));
}

/// Single rows about the ends of the range, at an even target and at an odd one, and the greatest row. The average is the
/// peak.
const SINGLE: [(u64, u32, u32, u64, bool); 10] = [
    (6, 900, 2_999_999, 2401, false),
    (6, 900, 3_000_000, 2400, true),
    (6, 900, 9_000_000, 800, true),
    (6, 900, 9_000_001, 800, false),
    (6, 900, 18_000_000, 400, false),
    (1, 1, 499_999, 17, false),
    (1, 1, 500_000, 16, true),
    (1, 1, 1_500_000, 6, true),
    (1, 1, 1_500_001, 6, false),
    (1, u32::MAX, 1, 34_359_738_360_000_000, false),
];

#[test]
fn single_rows(rt: HostRuntime) -> Result<(), AllocError> {
    for (target, size, micros, rate, ranged) in SINGLE {
        let rows = [(size, micros)];
        assert_rates(
            &rt,
            rt.alloc(),
            (target, &rows),
            ((rate, 0, 0, ranged), rate),
        )?;
    }
    Ok(())
}

/// Three rows in turn, of which the first two are a run in range. Then the segments of the stream of two key frames and its
/// I-frames, behind the first and at the end. Then runs whose rates are equal: each row and both together, the second row and
/// both together, and single rows. Then two rates that round to one number, and a run in range that hides a greater row.
const RUNS: [(Rows<'static>, Rates); 12] = [
    ((6, &[(100, 2_000_000)]), ((400, 0, 0, false), 400)),
    (
        (6, &[(100, 2_000_000), (900, 2_000_000)]),
        ((2000, 0, 1, true), 2000),
    ),
    (
        (6, &[(100, 2_000_000), (900, 2_000_000), (100, 2_000_000)]),
        ((2000, 0, 1, true), 1467),
    ),
    ((6, &[(768, 6_000_000)]), ((1024, 0, 0, true), 1024)),
    (
        (6, &[(768, 6_000_000), (768, 3_040_000)]),
        ((2022, 1, 1, true), 1360),
    ),
    ((6, &[(188, 6_000_000)]), ((251, 0, 0, true), 251)),
    (
        (6, &[(188, 6_000_000), (188, 3_040_000)]),
        ((495, 1, 1, true), 333),
    ),
    (
        (6, &[(300, 3_000_000), (300, 3_000_000)]),
        ((800, 0, 0, true), 800),
    ),
    (
        (6, &[(100, 1_000_000), (300, 3_000_000)]),
        ((800, 0, 1, true), 800),
    ),
    (
        (60, &[(100, 1_000_000), (200, 2_000_000)]),
        ((800, 0, 0, false), 800),
    ),
    (
        (6, &[(1000, 3_000_001), (1000, 3_000_000)]),
        ((2667, 1, 1, true), 2667),
    ),
    (
        (6, &[(5000, 1_000_000), (100, 5_000_000), (100, 5_000_000)]),
        ((6800, 0, 1, true), 3782),
    ),
];

#[test]
fn runs_of_rows(rt: HostRuntime) -> Result<(), AllocError> {
    for (rows, rates) in RUNS {
        assert_rates(&rt, rt.alloc(), rows, rates)?;
    }
    Ok(())
}
