//! Runs that a read, a put or a gate stops, and runs in which a later segment is sealed first.

use crate::asserts::assert_same;
use crate::gates::{Behind, TURNS};
use crate::run_jobs::{Job, SEVEN, TWO, WELL, packed, told, told_beside};
use item_io::FailingOutlet;
use ladder_items::PackFault;
use std::alloc::Global;
use std::sync::Wait;
use std::test::Fail;
use std::thread::Threads;
use work_desk::FreeGate;

/// What one worker makes of a stream.
fn by_one_worker<R: Threads + Wait + Sync>(
    rt: &R,
    alloc: Global,
    stream: &'static [&'static [u8]],
) -> Result<FailingOutlet, Fail> {
    let job = Job {
        stream,
        workers: 1,
        ..WELL
    };
    let (ended, _) = packed(rt, alloc, &job, &FreeGate)?;
    Ok(ended.outlet)
}

/// Streams whose segment 0 is sealed behind another: how many workers there are, how many plans may be outstanding, and
/// that other segment.
const LATE: [(&[&[u8]], usize, u64, u64); 2] = [(TWO, 2, 2, 1), (SEVEN, 3, 3, 2)];

#[test]
fn items_come_in_sequence(rt: HostRuntime) -> Result<(), Fail> {
    for (stream, workers, queue, other) in LATE {
        let whole = by_one_worker(&rt, rt.alloc(), stream)?;
        let job = Job {
            stream,
            workers,
            queue,
            ..WELL
        };
        let gate = Behind::new(other, TURNS);
        let (told, begins) = told_beside(&rt, rt.alloc(), &job, &gate, whole.items())?;
        assert_same(
            &rt,
            (workers, told),
            begins && told.1 == whole.items().len() && matches!(told.0, Ok((_, _, 0, 0, _))),
            true,
        );
    }
    Ok(())
}

/// Where up to four segments begin a round of two workers, how many rounds there are hangs on what is sealed first; what is given
/// doesn't.
#[test]
fn longer_rounds_give_the_same(rt: HostRuntime) -> Result<(), Fail> {
    let whole = by_one_worker(&rt, rt.alloc(), SEVEN)?;
    for piece in [188, 18_800] {
        let job = Job {
            stream: SEVEN,
            piece,
            batch: Some(4),
            ..WELL
        };
        let (told, begins) = told_beside(&rt, rt.alloc(), &job, &FreeGate, whole.items())?;
        assert_same(
            &rt,
            ("pieces of", piece, told),
            begins && matches!(told, (Ok((7, 7, 0, 0, 2..=4)), 30, 1, 7)),
            true,
        );
    }
    Ok(())
}

/// Where two plans may be outstanding, segment 2 isn't sealed before segment 0 is given.
#[test]
fn a_segment_that_waits_too_long_is_held(rt: HostRuntime) -> Result<(), Fail> {
    for piece in [188, 18_800] {
        let job = Job {
            stream: SEVEN,
            piece,
            queue: 2,
            ..WELL
        };
        let told = told(&rt, rt.alloc(), &job, &Behind::new(2, 100_000))?;
        assert_same(
            &rt,
            ("pieces of", piece),
            told,
            (Err(PackFault::Held(0, 0)), 0, 1, 0),
        );
    }
    Ok(())
}

#[test]
fn a_put_that_fails_stops_the_run(rt: HostRuntime) -> Result<(), Fail> {
    let whole = by_one_worker(&rt, rt.alloc(), TWO)?;
    for workers in [1, 2] {
        for failing_put in 1..11 {
            let job = Job {
                workers,
                failing_put,
                ..WELL
            };
            let (told, begins) = told_beside(&rt, rt.alloc(), &job, &FreeGate, whole.items())?;
            let (numbers, items, inputs, _) = told;
            assert_same(
                &rt,
                (workers, "workers"),
                (numbers, items.saturating_add(1) as u64, inputs, begins),
                (Err(PackFault::Outlet), failing_put, 1, true),
            );
        }
    }
    Ok(())
}

/// The packet behind the cut is the fifth of six: what was closed before a read failed is given.
#[test]
fn a_read_that_fails_ends_an_input(rt: HostRuntime) -> Result<(), Fail> {
    let whole = by_one_worker(&rt, rt.alloc(), TWO)?;
    for workers in [1, 2] {
        for failing_read in 1..8 {
            let job = Job {
                piece: 188,
                workers,
                failing_read,
                ..WELL
            };
            let (told, begins) = told_beside(&rt, rt.alloc(), &job, &FreeGate, whole.items())?;
            let (numbers, items, inputs, _) = told;
            let count = if failing_read < 6 { 0 } else { 4 };
            assert_same(
                &rt,
                (workers, "workers, read", failing_read),
                (numbers, items, inputs, begins),
                (Err(PackFault::Read(0)), count, 1, true),
            );
        }
    }
    Ok(())
}
