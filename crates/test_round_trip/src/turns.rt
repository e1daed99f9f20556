//! In which order renditions have their turns, and what a fault of one leaves of the others.
use crate::asserts::assert_same;
use crate::back::first_lost;
use crate::run::{CUT, WELL, Ways, has_values, last_media, run, run_each_way, settings};
use crate::stream::Video::Key;
use crate::stream::{Change, TWO_SEGMENTS, stream_of};
use item_io::{FailingOutlet, Item, ReaderSource};
use pipeline::{PackFault, Settings, pack_serial};
use std::alloc::{AllocError, Global};
use std::io;
use std::io::Read;
use std::sync::Wait;
use std::test::Fail;
use std::thread::Threads;

/// An item's kind and rendition. A playlist that has an end is in capitals.
fn kind(item: &Item) -> (&'static str, usize) {
    match item {
        Item::Segment { rendition, .. } => ("segment", *rendition),
        Item::Media {
            rendition,
            ended,
            ..
        } => (if *ended { "MEDIA" } else { "media" }, *rendition),
        Item::Frames {
            rendition,
            ended,
            ..
        } => (if *ended { "FRAMES" } else { "frames" }, *rendition),
        Item::Master { .. } => ("master", 0),
    }
}

/// The kinds of some items, in their order.
fn kinds(alloc: Global, items: &[Item]) -> Result<Vec<(&'static str, usize)>, AllocError> {
    let mut kinds = Vec::new(alloc);
    for item in items {
        kinds.push(kind(item))?;
    }
    Ok(kinds)
}

/// What two renditions give whose streams of two segments are read at once: the first segment closes within the stream,
/// the second at its end.
const IN_TURN: [(&str, usize); 20] = [
    ("segment", 0),
    ("media", 0),
    ("frames", 0),
    ("master", 0),
    ("segment", 1),
    ("media", 1),
    ("frames", 1),
    ("master", 0),
    ("segment", 0),
    ("media", 0),
    ("frames", 0),
    ("master", 0),
    ("MEDIA", 0),
    ("FRAMES", 0),
    ("segment", 1),
    ("media", 1),
    ("frames", 1),
    ("master", 0),
    ("MEDIA", 1),
    ("FRAMES", 1),
];

#[test]
fn renditions_take_turns(rt: HostRuntime) -> Result<(), Fail> {
    let stream = stream_of(rt.alloc(), TWO_SEGMENTS, Change::None)?;
    let settings = settings(rt.alloc(), &["a", "b"], 1, 1, CUT, 5)?;
    let ran = run(rt.alloc(), &[&stream, &stream], WELL, &settings)?;
    let kinds = kinds(rt.alloc(), ran.outlet.items())?;
    assert_same(
        &rt,
        "renditions take turns",
        (ran.told(), kinds.as_slice()),
        ((None, 20), IN_TURN.as_slice()),
    );
    Ok(())
}

/// A reader that gives at most a packet a read.
#[derive(Drop)]
struct PacketReader<'a> {
    left: &'a [u8],
}

impl Read for PacketReader<'_> {
    fn read(&mut self, buf: &mut [u8]) -> io::Result<usize> {
        let most = buf.len().min(188);
        let (buf, _) = buf.split_at_mut(most);
        self.left.read(buf)
    }
}

/// How many bytes of a stream aren't read, packet by packet, where put `n` fails.
fn unread_at_put(alloc: Global, stream: &[u8], settings: &Settings, n: u64) -> Result<usize, Fail> {
    let mut sources = Vec::new(alloc);
    sources.push(ReaderSource::new(PacketReader { left: stream }))?;
    let mut outlet = FailingOutlet::new(alloc, n);
    match pack_serial(alloc, &mut sources, settings, &mut outlet) {
        Err(PackFault::Outlet) => {}
        _ => return Err(Fail::from("another answer")),
    }
    match sources.pop() {
        Some(source) => Ok(source.into_reader().left.len()),
        None => Err(Fail::from("no input")),
    }
}

/// The packet behind the cut is the fifth of six: a segment is put as soon as it is there, and a put that fails ends the
/// run before another read.
#[test]
fn items_are_put_at_once(rt: HostRuntime) -> Result<(), Fail> {
    let stream = stream_of(rt.alloc(), TWO_SEGMENTS, Change::None)?;
    let settings = settings(rt.alloc(), &["v"], 1, 1, CUT, 5)?;
    for n in 1..11 {
        let unread = unread_at_put(rt.alloc(), &stream, &settings, n)?;
        let wanted = if n < 5 { 188 } else { 0 };
        assert_same(&rt, ("put", n), unread, wanted);
    }
    Ok(())
}

/// Whether rendition `b` alone came to its end, with two segments.
fn b_is_whole(alloc: Global, items: &[Item]) -> Result<bool, AllocError> {
    let media = last_media(items);
    Ok(
        items.len() == 4 + 10
            && has_values(alloc, media, "b.", "0.ts 1.ts ")?
            && has_values(alloc, media, "#EXT-X-ENDLIST", " ")?,
    )
}

/// Whether b came to its end, and all that both gave is read back.
fn are_read_back(alloc: Global, items: &[Item]) -> Result<bool, AllocError> {
    for r in [0, 1] {
        if first_lost(alloc, items, r, &[[0; 16]])?.is_some() {
            return Ok(false);
        }
    }
    b_is_whole(alloc, items)
}

/// The fault of a run of a and b, and whether b came to its end and all that was given is read back.
fn told_of_two<R: Threads + Wait + Sync>(
    rt: &R,
    alloc: Global,
    inputs: &[&[u8]],
    ways: Ways,
    settings: &Settings,
) -> Result<(Option<PackFault>, bool), Fail> {
    let ran = run_each_way(rt, alloc, inputs, ways, settings)?;
    let are = are_read_back(alloc, ran.outlet.items())?;
    Ok((ran.told().0, are))
}

#[test]
fn a_fault_ends_one_rendition_alone(rt: HostRuntime) -> Result<(), Fail> {
    let whole = stream_of(rt.alloc(), TWO_SEGMENTS, Change::None)?;
    let long = stream_of(
        rt.alloc(),
        &[Key(0), Key(540_000), Key(1_260_000)],
        Change::None,
    )?;
    let broken = Ways {
        piece: 940,
        failing_read: 2,
        ..WELL
    };
    let table = [
        (long.as_slice(), WELL, PackFault::LongSegment(0, 1)),
        (whole.as_slice(), broken, PackFault::Read(0)),
    ];
    let settings = settings(rt.alloc(), &["a", "b"], 1, 1, CUT, 5)?;
    for (first, ways, fault) in table {
        let told = told_of_two(&rt, rt.alloc(), &[first, &whole], ways, &settings)?;
        assert_same(&rt, fault, told, (Some(fault), true));
    }
    Ok(())
}
