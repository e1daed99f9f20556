//! A board that is asked.

ghost use Rattle.std.specs.Prelude.{◌≡◌};

use live_board::{BoardFault, HeldPublisher, Publisher, Snapshot, Viewer, board};
use std::alloc::{AllocError, Global};
use std::sync::{Arc, Wait};

/// A snapshot of one rendition with so many segments.
fn counted(alloc: Global, count: u64) -> Result<Snapshot, AllocError> {
    let mut shown = Snapshot {
        counts: Vec::new(alloc),
        ended: Vec::new(alloc),
        totals: Vec::new(alloc),
        media: Vec::new(alloc),
        frames: Vec::new(alloc),
        master: String::new(alloc),
    };
    shown.counts.push(count)?;
    shown.ended.push(false)?;
    shown
        .media
        .push(Arc::new(alloc, format!(in alloc; "media {count}")?)?)?;
    shown
        .frames
        .push(Arc::new(alloc, format!(in alloc; "frames {count}")?)?)?;
    Ok(shown)
}

/// The snapshot, at the second try where memory was refused.
fn made(alloc: Global, count: u64) -> Result<Snapshot, AllocError> {
    match counted(alloc, count) {
        Ok(shown) => Ok(shown),
        Err(_) => counted(alloc, count),
    }
}

/// Shows a snapshot with this count.
fn shown<R: Wait>(
    rt: &R,
    alloc: Global,
    publisher: &mut Publisher,
    count: u64,
) -> Result<(), BoardFault>
    ensures { publisher.new.board ≡ publisher.old.board }
{
    match made(alloc, count) {
        Ok(snapshot) => publisher.publish(rt, alloc, snapshot),
        Err(_) => Err(BoardFault::NoPlace),
    }
}

/// The count that a viewer sees.
fn seen(viewer: Viewer) -> (Viewer, Option<u64>)
    ensures { result.0.board ≡ viewer.board }
{
    match viewer.view() {
        Ok(view) => {
            let count = view.snapshot().counts.first().copied();
            (view.close(), count)
        }
        Err(viewer) => (viewer, None),
    }
}

/// Shows the snapshot behind this count, and again where it was refused. Tells how it went.
fn go_on<R: Wait>(
    rt: &R,
    alloc: Global,
    publisher: &mut Publisher,
    viewer: Viewer,
    count: u64,
) -> (Viewer, &'static str)
    requires { viewer.board ≡ publisher.old.board }
    ensures { result.0.board ≡ publisher.new.board }
{
    let next = count.saturating_add(1);
    let first = shown(rt, alloc, publisher, next);
    if first.is_ok() {
        return (viewer, "at once");
    }
    let same = publisher.counts().first().copied() == Some(count);
    let mut viewer = viewer;
    publisher.tell(&mut viewer);
    let (viewer, before) = seen(viewer);
    let second = shown(rt, alloc, publisher, next);
    let good = first == Err(BoardFault::NoMemory) && same && before == Some(count);
    if good && second.is_ok() {
        (viewer, "again")
    } else {
        (viewer, "wrong")
    }
}

/// Shows three snapshots, and looks. None where there is no memory to begin.
pub(crate) fn publishing<R: Wait + Print>(rt: &R, alloc: Global) -> Option<()> {
    let first = made(alloc, 0).ok()?;
    let (publisher, mut viewers) = board(rt, alloc, first, 1).ok()?;
    let mut held = HeldPublisher { publisher, rt };
    let viewer = viewers.pop()?;
    let (viewer, one) = go_on(rt, alloc, &mut held.publisher, viewer, 0);
    let (viewer, two) = go_on(rt, alloc, &mut held.publisher, viewer, 1);
    let (viewer, three) = go_on(rt, alloc, &mut held.publisher, viewer, 2);
    let mut viewer = viewer;
    held.publisher.tell(&mut viewer);
    let count = seen(viewer).1.unwrap_or(0);
    let _ = println!(rt; "board: {one}, {two}, {three}, then {count}");
    Some(())
}
