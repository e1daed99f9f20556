//! Looks at snapshots while others are shown: `view_board WORD VIEWERS BYTES LOOKS`, where WORD is `board`, for a board of
//! `live_board`, or `mutex`, for one snapshot under a lock.
//!
//! Each viewer looks so often in a thread of its own, and each time reads a playlist of so many bytes. Beside them the
//! first thread shows a new snapshot about every millisecond. It prints nothing.
#![tactic(auto)]

use live_board::{HeldPublisher, Snapshot, Viewer, board};
use std::alloc::{AllocError, Global};
use std::env;
use std::process::ExitCode;
use std::sync::atomic::{AtomicU64, Ordering};
use std::sync::{Arc, Mutex, Wait};
use std::thread::{self, Threads};
use std::time::{Clock, Duration};

/// What is looked at: how many viewers look how often, and how many bytes they read each time.
#[derive(Clone, Copy)]
struct Job {
    viewers: usize,
    bytes: u64,
    looks: u64,
}

/// A snapshot of one rendition with so many segments, whose playlist has so many bytes.
fn snapshot(alloc: Global, count: u64, bytes: u64) -> Result<Snapshot, AllocError> {
    let mut text = String::new(alloc);
    for _ in 0..bytes {
        text.push('x')?;
    }
    let mut shown = Snapshot {
        counts: Vec::new(alloc),
        ended: Vec::new(alloc),
        totals: Vec::new(alloc),
        media: Vec::new(alloc),
        frames: Vec::new(alloc),
        master: String::new(alloc),
    };
    shown.counts.push(count)?;
    shown.ended.push(false)?;
    shown.media.push(Arc::new(alloc, text)?)?;
    shown.frames.push(Arc::new(alloc, String::new(alloc))?)?;
    Ok(shown)
}

/// Reads what is shown.
fn read(shown: &Snapshot) -> u64 {
    let mut sum = shown.counts.first().copied().unwrap_or(0);
    if let Some(text) = shown.media.first() {
        for byte in text.as_bytes() {
            sum = sum.wrapping_add(u64::from(*byte));
        }
    }
    sum
}

/// Looks at a board. What was read comes back, so that it is read.
fn look(viewer: Viewer, looks: u64, looking: &AtomicU64) -> u64 {
    let mut viewer = viewer;
    let mut sum = 0u64;
    for _ in 0..looks {
        match viewer.view() {
            Ok(view) => {
                sum = sum.wrapping_add(read(view.snapshot()));
                viewer = view.close();
            }
            Err(back) => viewer = back,
        }
    }
    drop(viewer);
    looking.fetch_sub(1, Ordering::SeqCst);
    sum
}

/// Looks at a snapshot under a lock.
fn look_locked<R: Wait>(rt: &R, shown: &Mutex<Snapshot>, looks: u64, looking: &AtomicU64) -> u64 {
    let mut sum = 0u64;
    for _ in 0..looks {
        sum = sum.wrapping_add(read(&shown.lock(rt)));
    }
    looking.fetch_sub(1, Ordering::SeqCst);
    sum
}

/// Whether someone looks, a millisecond later.
fn looks_on<R: Clock>(rt: &R, looking: &AtomicU64) -> bool {
    thread::sleep(rt, Duration::from_millis(1));
    looking.load(Ordering::SeqCst) > 0
}

/// Shows snapshots on a board until nobody looks.
fn on_a_board<R: Threads + Wait + Clock + Sync>(rt: &R, alloc: Global, job: Job) -> Option<()> {
    let Job {
        viewers,
        bytes,
        looks,
    } = job;
    if !(1..=64).contains(&viewers) {
        return None;
    }
    let first = snapshot(alloc, 0, bytes).ok()?;
    let (publisher, viewers) = board(rt, alloc, first, viewers).ok()?;
    let looking = AtomicU64::new(0);
    let shared = &looking;
    let held = HeldPublisher { publisher, rt };
    thread::scope(thread::scope_env(), rt, |scope| -> Option<()> {
        let mut held = held;
        for viewer in viewers {
            shared.fetch_add(1, Ordering::SeqCst);
            if scope.spawn(move || look(viewer, looks, shared)).is_err() {
                return None;
            }
        }
        let mut count = 0u64;
        for _ in 0..u64::MAX {
            if !looks_on(rt, shared) {
                break;
            }
            count = count.wrapping_add(1);
            let next = snapshot(alloc, count, bytes).ok()?;
            held.publisher.publish(rt, alloc, next).ok()?;
        }
        Some(())
    })
}

/// Shows snapshots under a lock until nobody looks.
fn under_a_lock<R: Threads + Wait + Clock + Sync>(rt: &R, alloc: Global, job: Job) -> Option<()> {
    let Job {
        viewers,
        bytes,
        looks,
    } = job;
    let shown = Mutex::new(snapshot(alloc, 0, bytes).ok()?);
    let looking = AtomicU64::new(0);
    let (lock, shared) = (&shown, &looking);
    thread::scope(thread::scope_env(), rt, |scope| -> Option<()> {
        for _ in 0..viewers {
            shared.fetch_add(1, Ordering::SeqCst);
            if scope
                .spawn(move || look_locked(rt, lock, looks, shared))
                .is_err()
            {
                return None;
            }
        }
        let mut count = 0u64;
        for _ in 0..u64::MAX {
            if !looks_on(rt, shared) {
                break;
            }
            count = count.wrapping_add(1);
            let next = snapshot(alloc, count, bytes).ok()?;
            let before = core::mem::replace(&mut *lock.lock(rt), next);
            drop(before);
        }
        Some(())
    })
}

/// Shows snapshots as the words ask.
fn shown<R: Threads + Wait + Clock + Sync>(
    rt: &R,
    alloc: Global,
    words: &mut env::Args,
) -> Option<()> {
    let word = words.next()?;
    let job = Job {
        viewers: words.next()?.parse::<usize>().ok()?,
        bytes: words.next()?.parse::<u64>().ok()?,
        looks: words.next()?.parse::<u64>().ok()?,
    };
    match word.as_str() {
        "board" => on_a_board(rt, alloc, job),
        "mutex" => under_a_lock(rt, alloc, job),
        _ => None,
    }
}

fn main(rt: HostRuntime) -> ExitCode {
    let Ok(mut words) = env::args(&rt) else {
        return ExitCode::FAILURE;
    };
    let _ = words.next();
    match shown(&rt, rt.alloc(), &mut words) {
        Some(()) => ExitCode::SUCCESS,
        None => ExitCode::FAILURE,
    }
}
