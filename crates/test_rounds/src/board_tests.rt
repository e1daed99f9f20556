//! Boards whose viewers look alone, and beside a publisher in another thread.

ghost use Rattle.std.specs.Prelude.{◌≡◌, ◌++◌, ◌∷◌, [], OnOk, OnErr};

use crate::asserts::assert_same;
use live_board::{BoardFault, HeldPublisher, Publisher, Snapshot, Totals, Viewer, board};
use std::alloc::{AllocError, Global};
use std::sync::{Arc, Wait};
use std::test::Fail;
use std::thread::{self, JoinHandle, Threads};

/// Totals that tell a count, each in its own way.
fn totals_of(count: u64) -> Totals {
    Totals {
        micros: u128::from(count) * 4,
        bytes: u128::from(count) * 3,
        peak: count,
        average: count / 2,
    }
}

/// A snapshot with these counts, whose texts tell them too.
fn counted(alloc: Global, counts: &[u64]) -> Result<Snapshot, AllocError> {
    let mut all = Vec::new(alloc);
    let mut ended = Vec::new(alloc);
    let mut totals = Vec::new(alloc);
    let mut media = Vec::new(alloc);
    let mut frames = Vec::new(alloc);
    for &count in counts {
        all.push(count)?;
        ended.push(count == 100)?;
        totals.push(totals_of(count))?;
        media.push(Arc::new(alloc, format!(in alloc; "media {count}")?)?)?;
        frames.push(Arc::new(alloc, format!(in alloc; "frames {count}")?)?)?;
    }
    Ok(Snapshot {
        counts: all,
        ended,
        totals,
        media,
        frames,
        master: format!(in alloc; "master {}", counts.len())?,
    })
}

/// Publishes a snapshot with these counts.
fn publish<R: Wait>(
    rt: &R,
    alloc: Global,
    publisher: &mut Publisher,
    counts: &[u64],
) -> Result<(), BoardFault>
    ensures { publisher.new.board ≡ publisher.old.board }
{
    match counted(alloc, counts) {
        Ok(snapshot) => publisher.publish(rt, alloc, snapshot),
        Err(_) => Err(BoardFault::NoMemory),
    }
}

/// The first count that a viewer sees, none where the publisher is gone.
fn seen(viewer: Viewer) -> (Viewer, Option<u64>)
    ensures { result.0.board ≡ viewer.board }
{
    match viewer.view() {
        Ok(view) => {
            let count = view.snapshot().counts.first().copied();
            (view.close(), count)
        }
        Err(viewer) => (viewer, None),
    }
}

/// The first count that a viewer who was told sees, and what it sees when the publisher has ended.
fn seen_to_end<R: Wait>(held: HeldPublisher<'_, R>, viewer: Viewer) -> (Option<u64>, Option<u64>)
    requires { viewer.board ≡ held.publisher.board }
{
    let mut told = viewer;
    held.publisher.tell(&mut told);
    let (told, before) = seen(told);
    let rt = held.rt;
    held.release().end(rt);
    (before, seen(told).1)
}

#[test]
fn a_told_viewer_sees_the_last_until_the_end(rt: HostRuntime) -> Result<(), Fail> {
    let alloc = rt.alloc();
    let (publisher, mut viewers) = board(&rt, alloc, counted(alloc, &[0])?, 1)?;
    let viewer = viewers.pop();
    let mut held = HeldPublisher { publisher, rt: &rt };
    let first = publish(&rt, alloc, &mut held.publisher, &[1]);
    let second = publish(&rt, alloc, &mut held.publisher, &[2]);
    let is_last = held.publisher.counts() == [2].as_slice();
    let mut shown = (None, None);
    if let Some(viewer) = viewer {
        shown = seen_to_end(held, viewer);
    }
    assert_same(
        &rt,
        "a told viewer sees the last until the end",
        (first, second, is_last, shown),
        (Ok(()), Ok(()), true, (Some(2), None)),
    );
    Ok(())
}

/// The counts and the ends of a snapshot, its last totals, its first media and its last I-frame playlist, and its master.
fn told(alloc: Global, shown: &Snapshot) -> Result<String, AllocError> {
    let media = shown.media.first().map(|text| text.as_str());
    let frames = shown.frames.last().map(|text| text.as_str());
    let totals = shown.totals.last().copied();
    let times = totals.map(|all| (all.micros, all.bytes, all.peak, all.average));
    format!(in alloc;
        "{:?} {:?} {times:?} {media:?} {frames:?} {}",
        shown.counts.as_slice(),
        shown.ended.as_slice(),
        shown.master
    )
}

/// That of what a viewer sees.
fn told_by(alloc: Global, viewer: Viewer) -> Result<String, AllocError> {
    match viewer.view() {
        Ok(view) => {
            let text = told(alloc, view.snapshot());
            drop(view.close());
            text
        }
        Err(_gone) => String::from_str(alloc, "no view"),
    }
}

#[test]
fn a_view_shows_the_texts_of_its_snapshot(rt: HostRuntime) -> Result<(), Fail> {
    let alloc = rt.alloc();
    let (publisher, mut viewers) = board(&rt, alloc, counted(alloc, &[0, 0])?, 64)?;
    let count = viewers.len();
    let mut held = HeldPublisher { publisher, rt: &rt };
    let answer = publish(&rt, alloc, &mut held.publisher, &[100, 7]);
    let mut text = Ok(String::new(alloc));
    if let Some(viewer) = viewers.pop() {
        text = told_by(alloc, viewer);
    }
    let wanted =
        "[100, 7] [true, false] Some((28, 21, 7, 3)) Some(\"media 100\") Some(\"frames 7\") master 2";
    assert_same(
        &rt,
        "what one of 64 sees",
        (count, answer, text?.as_str()),
        (64, Ok(()), wanted),
    );
    Ok(())
}

/// A rendition would fall behind its two segments that are shown.
const OWN: BoardFault = BoardFault::Backwards {
    rendition: 0,
    shown: 2,
};

/// A rendition of which nothing is shown would get none.
const OTHER: BoardFault = BoardFault::Backwards {
    rendition: 1,
    shown: 0,
};

/// Publishes snapshots that fall behind two segments of one rendition: one of less, the same again, one of another rendition
/// besides, and one of none.
fn publish_falls<R: Wait>(
    rt: &R,
    alloc: Global,
    publisher: &mut Publisher,
) -> [Result<(), BoardFault>; 4]
    ensures { publisher.new.board ≡ publisher.old.board }
{
    [
        publish(rt, alloc, publisher, &[1]),
        publish(rt, alloc, publisher, &[1]),
        publish(rt, alloc, publisher, &[3, 0]),
        publish(rt, alloc, publisher, &[]),
    ]
}

/// The first count that a viewer sees before and behind a third segment.
fn seen_to_grow<R: Wait>(
    rt: &R,
    alloc: Global,
    publisher: &mut Publisher,
    viewer: Viewer,
) -> (Option<u64>, Option<u64>)
    requires { publisher.old.board ≡ viewer.board }
{
    let mut viewer = viewer;
    publisher.tell(&mut viewer);
    let (mut viewer, before) = seen(viewer);
    if publish(rt, alloc, publisher, &[3]).is_err() {
        return (before, None);
    }
    publisher.tell(&mut viewer);
    (before, seen(viewer).1)
}

#[test]
fn a_refused_snapshot_leaves_what_is_shown(rt: HostRuntime) -> Result<(), Fail> {
    let alloc = rt.alloc();
    let (publisher, mut viewers) = board(&rt, alloc, counted(alloc, &[2])?, 1)?;
    let viewer = viewers.pop();
    let mut held = HeldPublisher { publisher, rt: &rt };
    let told = publish_falls(&rt, alloc, &mut held.publisher);
    let mut shown = (None, None);
    if let Some(viewer) = viewer {
        shown = seen_to_grow(&rt, alloc, &mut held.publisher, viewer);
    }
    let falls = [Err(OWN), Err(OWN), Err(OTHER), Err(OWN)];
    assert_same(
        &rt,
        "a refused snapshot leaves what is shown",
        (told, shown),
        (falls, (Some(2), Some(3))),
    );
    Ok(())
}

/// Looks so often, and tells how often a count fell or the publisher was gone.
fn look_often(viewer: Viewer, times: u64) -> (Viewer, u64) {
    let mut viewer = viewer;
    let mut wrong: u64 = 0;
    let mut last: u64 = 0;
    for _ in 0..times {
        match viewer.view() {
            Ok(view) => {
                let now = view.snapshot().counts.first().copied().unwrap_or(0);
                if now < last {
                    wrong = wrong.saturating_add(1);
                }
                last = now;
                viewer = view.close();
            }
            Err(back) => {
                wrong = wrong.saturating_add(1);
                viewer = back;
            }
        }
    }
    (viewer, wrong)
}

/// Publishes 100 snapshots while each viewer looks 1,000 times in a thread of its own, and tells how often something
/// was wrong.
fn publish_beside<'r, R: Threads + Wait + Sync>(
    rt: &'r R,
    alloc: Global,
    held: HeldPublisher<'r, R>,
    viewers: Vec<Viewer>,
) -> (HeldPublisher<'r, R>, u64) {
    thread::scope(
        thread::scope_env(),
        rt,
        |scope| -> (HeldPublisher<'_, R>, u64) {
            let mut held = held;
            let mut running: Vec<JoinHandle<(Viewer, u64)>> = Vec::new(alloc);
            let mut wrong: u64 = 0;
            for viewer in viewers {
                let Ok(child) = scope.spawn(move || look_often(viewer, 1000)) else {
                    wrong = wrong.saturating_add(1);
                    break;
                };
                if running.push(child).is_err() {
                    wrong = wrong.saturating_add(1);
                    break;
                }
            }
            for count in 1..101 {
                if publish(rt, alloc, &mut held.publisher, &[count]).is_err() {
                    wrong = wrong.saturating_add(1);
                }
            }
            for child in running {
                let (_viewer, bad) = child.join(rt);
                wrong = wrong.saturating_add(bad);
            }
            (held, wrong)
        },
    )
}

#[test]
fn counts_never_fall_in_four_threads(rt: HostRuntime) -> Result<(), Fail> {
    let alloc = rt.alloc();
    let (publisher, viewers) = board(&rt, alloc, counted(alloc, &[0])?, 4)?;
    let count = viewers.len();
    let held = HeldPublisher { publisher, rt: &rt };
    let (held, wrong) = publish_beside(&rt, alloc, held, viewers);
    let is_last = held.publisher.counts() == [100].as_slice();
    assert_same(
        &rt,
        "counts never fall in four threads",
        (count, wrong, is_last),
        (4, 0, true),
    );
    Ok(())
}

/// Publishes in a scope beside a thread in which a viewer looks.
fn publish_in_a_scope<R: Threads + Wait + Sync>(
    rt: &R,
    alloc: Global,
    viewer: Viewer,
    publisher: Publisher,
    snapshot: Snapshot,
) -> (Publisher, Result<(), BoardFault>)
    ensures ok { OnOk result.1 (result.0.list ≡ publisher.list ++ snapshot ∷ []) }
    ensures err { OnErr result.1 (result.0.list ≡ publisher.list) }
{
    let held = HeldPublisher { publisher, rt };
    let (held, answer) = thread::scope(
        thread::scope_env(),
        rt,
        |scope| -> (HeldPublisher<'_, R>, Result<(), BoardFault>)
            ensures ok { OnOk result.1 (result.0.publisher.list ≡ held.entry.publisher.list ++ snapshot ∷ []) }
            ensures err { OnErr result.1 (result.0.publisher.list ≡ held.entry.publisher.list) }
        {
            let child = scope.spawn(move || look_often(viewer, 10));
            let mut held = held;
            let answer = held.publisher.publish(rt, alloc, snapshot);
            if let Ok(child) = child {
                let _ = child.join(rt);
            }
            (held, answer)
        },
    );
    (held.release(), answer)
}

#[test]
fn a_publisher_comes_back_from_a_scope(rt: HostRuntime) -> Result<(), Fail> {
    let alloc = rt.alloc();
    let next = counted(alloc, &[1])?;
    let (publisher, mut viewers) = board(&rt, alloc, counted(alloc, &[0])?, 1)?;
    let Some(viewer) = viewers.pop() else {
        publisher.end(&rt);
        return Err(Fail::from("no viewer"));
    };
    let (publisher, answer) = publish_in_a_scope(&rt, alloc, viewer, publisher, next);
    let count = publisher.counts().first().copied();
    publisher.end(&rt);
    assert_same(
        &rt,
        "a publisher comes back from a scope",
        (answer, count),
        (Ok(()), Some(1)),
    );
    Ok(())
}
