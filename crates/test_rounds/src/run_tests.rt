use crate::asserts::assert_same;
use crate::gates::{AllBut, Meeting};
use crate::run_jobs::{Job, Numbers, SEVEN, TWO, WELL, told};
use ladder_items::PackFault;
use std::test::Fail;
use work_desk::FreeGate;

#[test]
fn workers_seal_both_segments(rt: HostRuntime) -> Result<(), Fail> {
    for workers in [1, 2, 4] {
        for piece in [188, 18_800] {
            let job = Job {
                piece,
                workers,
                ..WELL
            };
            let told = told(&rt, rt.alloc(), &job, &FreeGate)?;
            assert_same(
                &rt,
                (workers, "pieces of", piece, told),
                matches!(told, (Ok((2, 2, 0, 0, _)), 10, 1, 2)),
                true,
            );
        }
    }
    Ok(())
}

/// Seven segments: how long reads are, how many workers there are, how many plans may be outstanding, and the rounds. A
/// round begins once as many plans are closed as there are workers, or as may be outstanding where that is less. One read
/// brings six of the seven.
const ROUNDS: [(usize, usize, u64, u64); 6] = [
    (188, 2, 2, 4),
    (188, 2, 4, 4),
    (188, 4, 2, 4),
    (188, 1, 4, 7),
    (18_800, 2, 2, 2),
    (18_800, 7, 7, 1),
];

#[test]
fn rounds_begin_with_enough_plans(rt: HostRuntime) -> Result<(), Fail> {
    for (piece, workers, queue, rounds) in ROUNDS {
        let job = Job {
            stream: SEVEN,
            piece,
            workers,
            queue,
            ..WELL
        };
        let told = told(&rt, rt.alloc(), &job, &FreeGate)?;
        assert_same(
            &rt,
            (workers, "pieces of", piece),
            told,
            (Ok((7, 7, 0, 0, rounds)), 30, 1, 7),
        );
    }
    Ok(())
}

/// How many segments wait for each other, as many as there are workers; of which stream; what its report tells; and how many
/// items come.
const MEETINGS: [(usize, &[&[u8]], Numbers, usize); 2] = [
    (2, TWO, (2, 2, 0, 0, 1), 10),
    (4, SEVEN, (7, 7, 0, 0, 2), 30),
];

#[test]
fn all_workers_meet(rt: HostRuntime) -> Result<(), Fail> {
    for (workers, stream, numbers, items) in MEETINGS {
        let gate = Meeting::new(workers as u64);
        let job = Job {
            stream,
            workers,
            ..WELL
        };
        let told = told(&rt, rt.alloc(), &job, &gate)?;
        let mut asked = [0; 4];
        for (n, there) in asked.iter_mut().enumerate() {
            *there = u64::from(n < workers);
        }
        assert_same(
            &rt,
            (workers, "workers"),
            (told, gate.record()),
            ((Ok(numbers), items, 1, numbers.0), (asked, workers as u64)),
        );
    }
    Ok(())
}

#[test]
fn a_held_segment_stops_the_run(rt: HostRuntime) -> Result<(), Fail> {
    let told = told(&rt, rt.alloc(), &WELL, &AllBut(0))?;
    assert_same(
        &rt,
        "a held segment stops the run",
        told,
        (Err(PackFault::Held(0, 0)), 0, 1, 0),
    );
    Ok(())
}

#[test]
fn a_run_has_1_to_64_workers(rt: HostRuntime) -> Result<(), Fail> {
    for workers in [0, 65] {
        let job = Job { workers, ..WELL };
        let told = told(&rt, rt.alloc(), &job, &FreeGate)?;
        assert_same(&rt, workers, told, (Err(PackFault::Settings), 0, 1, 0));
    }
    Ok(())
}
