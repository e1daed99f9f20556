//! Reads and puts that fail, each in its turn.
use crate::asserts::assert_same;
use crate::many::{Sealers, Seen, run_seen};
use crate::run::{CUT, PLAY, Play, WELL, Ways, played, settings, told_beside};
use crate::stream::{Change, TWO_SEGMENTS, stream_of};
use item_io::Item;
use pipeline::{PackFault, Settings};
use std::alloc::Global;
use std::sync::Wait;
use std::test::Fail;
use std::thread::Threads;
use work_desk::FreeGate;

/// The first put of a run that is told otherwise where it fails: its items are then those before it.
fn first_other_put<R: Threads + Wait + Sync>(
    rt: &R,
    alloc: Global,
    whole: &[Item],
) -> Result<Option<u64>, Fail> {
    for failing_put in 1..11 {
        let ways = Ways {
            failing_put,
            ..WELL
        };
        let told = told_beside(rt, alloc, &Play { ways, ..PLAY }, whole)?;
        if told != (Some(PackFault::Outlet), failing_put as usize - 1, true) {
            return Ok(Some(failing_put));
        }
    }
    Ok(None)
}

#[test]
fn each_put_fails(rt: HostRuntime) -> Result<(), Fail> {
    let whole = played(rt.alloc(), &PLAY)?;
    let other = first_other_put(&rt, rt.alloc(), whole.outlet.items())?;
    assert_same(&rt, "each put fails", other, None);
    Ok(())
}

/// The first read of a run that is told otherwise where it fails. Its six packets are read by six reads, and its end by a
/// seventh. The packet behind the cut is the fifth.
fn first_other_read<R: Threads + Wait + Sync>(
    rt: &R,
    alloc: Global,
    whole: &[Item],
) -> Result<Option<u64>, Fail> {
    for failing_read in 1..8 {
        let ways = Ways {
            piece: 188,
            failing_read,
            ..WELL
        };
        let told = told_beside(rt, alloc, &Play { ways, ..PLAY }, whole)?;
        let count = if failing_read < 6 { 0 } else { 4 };
        if told != (Some(PackFault::Read(0)), count, true) {
            return Ok(Some(failing_read));
        }
    }
    Ok(None)
}

#[test]
fn each_read_fails(rt: HostRuntime) -> Result<(), Fail> {
    let whole = played(rt.alloc(), &PLAY)?;
    let other = first_other_read(&rt, rt.alloc(), whole.outlet.items())?;
    assert_same(&rt, "each read fails", other, None);
    Ok(())
}

/// How many snapshots were shown behind the first: one for each segment, and one for each end.
fn shown(seen: &Seen) -> u64 {
    let mut shown: u64 = 0;
    for (count, ended) in seen.counts.iter().zip(&seen.ended) {
        shown = shown
            .saturating_add(*count)
            .saturating_add(u64::from(*ended));
    }
    shown
}

/// What two workers make of rendition a, whose reader fails behind its first segment, and of b, where this put fails: the
/// fault, how many items were given, how many snapshots were shown, and whether those were of one segment of a and of two of b,
/// which has ended.
fn shown_at<R: Threads + Wait + Sync>(
    rt: &R,
    alloc: Global,
    inputs: &[&[u8]],
    settings: &Settings,
    failing_put: u64,
) -> Result<(Option<PackFault>, u64, u64, bool), Fail> {
    let ways = Ways {
        piece: 940,
        failing_read: 2,
        failing_put,
        ..WELL
    };
    let sealers = Sealers {
        workers: 2,
        gate: &FreeGate,
    };
    let seen = run_seen(rt, alloc, inputs, ways, settings, sealers)?;
    let (fault, count) = seen.ran.told();
    let is_last = seen.counts.as_slice() == [1, 2].as_slice()
        && seen.ended.as_slice() == [false, true].as_slice();
    Ok((fault, count as u64, shown(&seen), is_last))
}

/// The first put that is told otherwise, or 0 where the run is without one that fails. Rendition a's reader fails behind its
/// first segment, b's is whole: 14 items, of which one put or none fails. Behind the four items of each segment and the two of
/// b's end a snapshot is shown, at once.
fn first_other_shown<R: Threads + Wait + Sync>(
    rt: &R,
    alloc: Global,
    inputs: &[&[u8]],
    settings: &Settings,
) -> Result<Option<u64>, Fail> {
    let whole = shown_at(rt, alloc, inputs, settings, 0)?;
    if whole != (Some(PackFault::Read(0)), 14, 4, true) {
        return Ok(Some(0));
    }
    for failing_put in 1..15 {
        let (fault, count, shown, _) = shown_at(rt, alloc, inputs, settings, failing_put)?;
        if fault != Some(PackFault::Outlet) || count != failing_put - 1 || shown != count / 4 {
            return Ok(Some(failing_put));
        }
    }
    Ok(None)
}

#[test]
fn a_snapshot_is_shown_behind_each_segment(rt: HostRuntime) -> Result<(), Fail> {
    let stream = stream_of(rt.alloc(), TWO_SEGMENTS, Change::None)?;
    let settings = settings(rt.alloc(), &["a", "b"], 1, 1, CUT, 5)?;
    let inputs = [stream.as_slice(), stream.as_slice()];
    let other = first_other_shown(&rt, rt.alloc(), &inputs, &settings)?;
    assert_same(&rt, "a snapshot is shown behind each segment", other, None);
    Ok(())
}
