//! Viewers that look all the time.

use crate::asserts::assert_same;
use crate::run_jobs::{Ended, Job, SEVEN, WELL, nothing, pack, packed, settings_of};
use item_io::Item;
use ladder_items::Settings;
use live_board::{HeldPublisher, Snapshot, Viewer, board};
use std::alloc::Global;
use std::sync::{Arc, Wait};
use std::test::Fail;
use std::thread::{self, JoinHandle, Threads};
use work_desk::FreeGate;

/// How many viewers look.
const VIEWERS: usize = 4;

/// How often a run is watched, so that threads meet in many orders.
const TIMES: u64 = 20;

/// The first text of some, no text where there is none.
fn first(texts: &[Arc<String>]) -> &str {
    match texts.first() {
        Some(text) => text.as_str(),
        None => "",
    }
}

/// The media and the I-frame playlist of so many segments, and the last master playlist before. No text stands for none.
fn texts_at(items: &[Item], wanted: u64, with_end: bool) -> (&str, &str, &str) {
    let mut texts = ("", "", "");
    let mut masters: u64 = 0;
    for item in items {
        match item {
            Item::Media {
                count,
                ended,
                text,
                ..
            } if *count == wanted && *ended == with_end => texts.0 = text,
            Item::Frames {
                count,
                ended,
                text,
                ..
            } if *count == wanted && *ended == with_end => texts.1 = text,
            Item::Master { text } if masters < wanted => {
                masters = masters.saturating_add(1);
                texts.2 = text;
            }
            _ => {}
        }
    }
    texts
}

/// How many bytes so many segments have.
fn bytes_at(items: &[Item], wanted: u64) -> u128 {
    let mut sum: u128 = 0;
    for item in items {
        if let Item::Segment { number, bytes, .. } = item
            && *number < wanted
        {
            sum = sum.saturating_add(bytes.len() as u128);
        }
    }
    sum
}

/// Whether a snapshot has the bytes and the texts of its count.
fn has_its_texts(snapshot: &Snapshot, items: &[Item]) -> bool {
    let count = snapshot.counts.first().copied().unwrap_or(0);
    let ended = snapshot.ended.first().copied().unwrap_or(false);
    let (media, frames, master) = texts_at(items, count, ended);
    let bytes = snapshot.totals.first().map_or(0, |all| all.bytes);
    bytes == bytes_at(items, count)
        && first(&snapshot.media) == media
        && first(&snapshot.frames) == frames
        && snapshot.master.as_str() == master
}

/// Looks until the rendition ended, and tells whether no count fell and each snapshot had the bytes and the texts of its
/// count.
fn sees_the_run(viewer: Viewer, items: &[Item]) -> bool {
    let mut viewer = viewer;
    let mut last = 0;
    for _ in 0..10_000_000 {
        let Ok(view) = viewer.view() else {
            return false;
        };
        let snapshot = view.snapshot();
        let count = snapshot.counts.first().copied().unwrap_or(0);
        let ended = snapshot.ended.first().copied().unwrap_or(false);
        let right = last <= count && has_its_texts(snapshot, items);
        viewer = view.close();
        last = count;
        if !right || ended {
            return right;
        }
    }
    false
}

/// Packs while each viewer looks in a thread of its own, and tells how many saw a prefix of what the run shows, up to its
/// end.
fn watched<'r, R: Threads + Wait + Sync>(
    alloc: Global,
    job: &Job,
    settings: &Settings,
    items: &[Item],
    held: HeldPublisher<'r, R>,
    viewers: Vec<Viewer>,
) -> (HeldPublisher<'r, R>, Option<Ended>, usize) {
    let rt = held.rt;
    thread::scope(
        thread::scope_env(),
        rt,
        |scope| -> (HeldPublisher<'_, R>, Option<Ended>, usize) {
            let mut running: Vec<JoinHandle<bool>> = Vec::new(alloc);
            for viewer in viewers {
                let Ok(child) = scope.spawn(move || sees_the_run(viewer, items)) else {
                    break;
                };
                if running.push(child).is_err() {
                    break;
                }
            }
            let (publisher, ended) = pack(rt, alloc, job, settings, &FreeGate, held.release());
            let mut right: usize = 0;
            for child in running {
                if child.join(rt) {
                    right = right.saturating_add(1);
                }
            }
            (HeldPublisher { publisher, rt }, ended, right)
        },
    )
}

/// Packs once before viewers, and tells how many saw beginnings of these items, and whether the run ended well.
fn watched_once<R: Threads + Wait + Sync>(
    rt: &R,
    alloc: Global,
    job: &Job,
    settings: &Settings,
    items: &[Item],
) -> Result<(usize, bool), Fail> {
    let (publisher, viewers) = board(rt, alloc, nothing(alloc)?, VIEWERS)?;
    let held = HeldPublisher { publisher, rt };
    let (held, ended, right) = watched(alloc, job, settings, items, held, viewers);
    held.release().end(rt);
    Ok((right, matches!(ended, Some(Ended { answer: Ok(_), .. }))))
}

#[test]
fn viewers_see_beginnings_of_the_run(rt: HostRuntime) -> Result<(), Fail> {
    let alloc = rt.alloc();
    let job = Job {
        stream: SEVEN,
        piece: 188,
        ..WELL
    };
    let settings = settings_of(alloc, &job)?;
    let (whole, _) = packed(&rt, alloc, &job, &FreeGate)?;
    for _ in 0..TIMES {
        let seen = watched_once(&rt, alloc, &job, &settings, whole.outlet.items())?;
        assert_same(
            &rt,
            "viewers see beginnings of the run",
            seen,
            (VIEWERS, true),
        );
    }
    Ok(())
}
