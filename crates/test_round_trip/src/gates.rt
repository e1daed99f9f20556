//! A gate that lets the segments of a round through from the last to the first.
use crate::asserts::assert_same;
use crate::many::{Sealers, run_on};
use crate::run::{CUT, PLAY, Play, WELL, played, settings};
use crate::stream::Video::Key;
use crate::stream::{Change, stream_of};
use item_io::Item;
use pipeline::{PackFault, Settings};
use std::alloc::Global;
use std::sync::Wait;
use std::sync::atomic::{AtomicU64, Ordering};
use std::test::Fail;
use std::thread::Threads;
use work_desk::{Gate, NoFile};

/// Three segments, of which each passes behind the next one, and the last one at once. It looks so often whether the next one
/// has passed, and then holds a segment.
#[derive(Drop)]
struct LastFirst {
    /// The lowest segment that has passed.
    lowest: AtomicU64,
    turns: u64,
}

impl LastFirst {
    fn new(turns: u64) -> LastFirst {
        LastFirst {
            lowest: AtomicU64::new(3),
            turns,
        }
    }
}

impl Gate for LastFirst {
    type File = NoFile;

    ghost lets = { λ _ _ _. Unit {0} };

    ghost stops = { λ _ _ _. Unit {0} };

    fn pass(&self, _rendition: usize, number: u64) -> bool {
        for _ in 0..self.turns {
            if self.lowest.load(Ordering::SeqCst) <= number.saturating_add(1) {
                self.lowest.store(number, Ordering::SeqCst);
                return true;
            }
        }
        false
    }
}

/// Three segments.
const THREE: Play = Play {
    frames: &[Key(0), Key(540_000), Key(1_080_000)],
    ..PLAY
};

/// What three workers make of the three segments, where so many may be outstanding and the gate looks so often: the fault, how
/// many items are given, and whether those are a prefix of these.
fn told_of_three<R: Threads + Wait + Sync>(
    rt: &R,
    alloc: Global,
    queue: u64,
    turns: u64,
    whole: &[Item],
) -> Result<(Option<PackFault>, usize, bool), Fail> {
    let mut settings = settings(alloc, &["v"], 1, 1, CUT, 5)?;
    settings.queue = queue;
    let stream = stream_of(alloc, THREE.frames, Change::None)?;
    told_under(rt, alloc, &settings, &stream, turns, whole)
}

/// The same under these settings.
fn told_under<R: Threads + Wait + Sync>(
    rt: &R,
    alloc: Global,
    settings: &Settings,
    stream: &[u8],
    turns: u64,
    whole: &[Item],
) -> Result<(Option<PackFault>, usize, bool), Fail> {
    let gate = LastFirst::new(turns);
    let sealers = Sealers {
        workers: 3,
        gate: &gate,
    };
    let ran = run_on(rt, alloc, &[stream], WELL, settings, sealers)?;
    let (fault, count) = ran.told();
    Ok((fault, count, whole.starts_with(ran.outlet.items())))
}

/// Where two plans may be outstanding, segment 2 isn't fed before segment 0 is given.
#[test]
fn segments_pass_from_the_last_to_the_first(rt: HostRuntime) -> Result<(), Fail> {
    let whole = played(rt.alloc(), &THREE)?;
    let items = whole.outlet.items();
    let told = told_of_three(&rt, rt.alloc(), 3, 100_000_000, items)?;
    assert_same(
        &rt,
        "segments pass from the last to the first",
        (items.len(), told),
        (14, (None, 14, true)),
    );
    let held = told_of_three(&rt, rt.alloc(), 2, 1_000_000, items)?;
    assert_same(
        &rt,
        ("held", held),
        matches!(held, (Some(PackFault::Held(0, 0 | 1)), 0, _)),
        true,
    );
    Ok(())
}
