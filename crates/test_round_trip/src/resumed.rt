//! Runs that go on behind earlier ones.
use crate::asserts::assert_same;
use crate::run::{CUT, Ran, WELL, last_frames, last_master, last_media, rendition, run_beside};
use crate::stream::{Change, TWO_SEGMENTS, stream_of};
use hls_check::check;
use item_io::Item;
use pipeline::{FrameRow, Gone, Kind, PackFault, Rendition, Row, Settings, seen_number};
use std::alloc::{AllocError, Global};
use std::sync::Wait;
use std::test::Fail;
use std::thread::Threads;

/// Seven segments came before, of twenty I-frames, three of them discontinuities.
const GONE: Gone = Gone {
    rows: 7,
    frames: 20,
    discontinuities: 3,
};

/// One rendition of two keys that take turns of two segments each, behind what came before.
fn settings(alloc: Global) -> Result<Settings, Fail> {
    let first = rendition(alloc, "v", 2, 2, None)?;
    let behind = Rendition {
        keys: first.keys.behind(GONE.rows),
        gone: GONE,
        ..first
    };
    let mut renditions = Vec::new(alloc);
    renditions.push(behind)?;
    Ok(Settings {
        renditions,
        cut: CUT,
        kind: Kind::Live,
        window: 5,
        queue: 4,
    })
}

/// What one thread makes of two segments under these settings, where two workers make the same.
fn packed<R: Threads + Wait + Sync>(
    rt: &R,
    alloc: Global,
    settings: &Settings,
) -> Result<Ran, Fail> {
    let stream = stream_of(alloc, TWO_SEGMENTS, Change::None)?;
    run_beside(rt, alloc, &[&stream], WELL, settings, &[2])
}

const MEDIA: &str = "#EXTM3U
#EXT-X-VERSION:4
#EXT-X-TARGETDURATION:6
#EXT-X-MEDIA-SEQUENCE:7
#EXT-X-DISCONTINUITY-SEQUENCE:3
#EXT-X-DISCONTINUITY
#EXT-X-KEY:METHOD=AES-128,URI=\"v.1.key\"
#EXTINF:6.000000,
v.7.ts
#EXT-X-KEY:METHOD=AES-128,URI=\"v.0.key\"
#EXTINF:3.040000,
v.8.ts
#EXT-X-ENDLIST
";

const FRAMES: &str = "#EXTM3U
#EXT-X-VERSION:4
#EXT-X-TARGETDURATION:6
#EXT-X-MEDIA-SEQUENCE:20
#EXT-X-DISCONTINUITY-SEQUENCE:3
#EXT-X-I-FRAMES-ONLY
#EXT-X-DISCONTINUITY
#EXT-X-KEY:METHOD=AES-128,URI=\"v.1.key\",IV=0x00000000000000000000000000000007
#EXTINF:6.000000,
#EXT-X-BYTERANGE:188@376
v.7.ts
#EXT-X-KEY:METHOD=AES-128,URI=\"v.0.key\",IV=0x00000000000000000000000000000008
#EXTINF:3.040000,
#EXT-X-BYTERANGE:188@376
v.8.ts
#EXT-X-ENDLIST
";

/// Whether the segments among some items have the numbers from this one on, and are those that the text lists, under two
/// keys.
fn come_back(alloc: Global, items: &[Item], from: u64, text: &str) -> Result<bool, AllocError> {
    let mut segments = Vec::new(alloc);
    let mut next = from;
    for item in items {
        if let Item::Segment { number, bytes, .. } = item {
            if *number != next {
                return Ok(false);
            }
            next = next.saturating_add(1);
            segments.push(Vec::from_slice(alloc, bytes)?)?;
        }
    }
    match check(alloc, text, &segments, &[[0; 16], [1; 16]]) {
        Ok(checked) => Ok(checked.segments == segments.len()),
        Err(_) => Ok(false),
    }
}

#[test]
fn two_segments_behind_seven(rt: HostRuntime) -> Result<(), Fail> {
    let ran = packed(&rt, rt.alloc(), &settings(rt.alloc())?)?;
    let items = ran.outlet.items();
    let back = come_back(rt.alloc(), items, 7, MEDIA)?;
    assert_same(
        &rt,
        "two segments behind seven",
        (ran.told(), last_media(items), last_frames(items), back),
        ((None, 10), MEDIA, FRAMES, true),
    );
    Ok(())
}

/// Five segments are gone, of eighteen I-frames, two of them discontinuities.
const FEWER: Gone = Gone {
    rows: 5,
    frames: 18,
    discontinuities: 2,
};

/// The row of a segment of three million bytes and six seconds, which is one I-frame.
fn row(alloc: Global, number: u64, key: u64, discontinuity: bool) -> Result<Row, AllocError> {
    let mut frames = Vec::new(alloc);
    frames.push(FrameRow {
        offset: 376,
        len: 188,
        micros: 6_000_000,
    })?;
    Ok(Row {
        number,
        size: 3_000_000,
        micros: 6_000_000,
        key,
        discontinuity,
        frames,
    })
}

/// The rows of segments 5 and 6, of which the second is a discontinuity.
fn rows(alloc: Global) -> Result<Vec<Row>, AllocError> {
    let mut rows = Vec::new(alloc);
    for (number, key) in [(5, 0), (6, 1)] {
        rows.push(row(alloc, number, key, number == 6)?)?;
    }
    Ok(rows)
}

/// The same rendition, of which the last two of the seven are still listed.
fn listed_settings(alloc: Global) -> Result<Settings, Fail> {
    let first = rendition(alloc, "v", 2, 2, None)?;
    let behind = Rendition {
        keys: first.keys.behind(7),
        gone: FEWER,
        earlier: rows(alloc)?,
        ..first
    };
    let mut renditions = Vec::new(alloc);
    renditions.push(behind)?;
    Ok(Settings {
        renditions,
        cut: CUT,
        kind: Kind::Live,
        window: 5,
        queue: 4,
    })
}

const LISTED_MEDIA: &str = "#EXTM3U
#EXT-X-VERSION:4
#EXT-X-TARGETDURATION:6
#EXT-X-MEDIA-SEQUENCE:5
#EXT-X-DISCONTINUITY-SEQUENCE:2
#EXT-X-KEY:METHOD=AES-128,URI=\"v.0.key\"
#EXTINF:6.000000,
v.5.ts
#EXT-X-DISCONTINUITY
#EXT-X-KEY:METHOD=AES-128,URI=\"v.1.key\"
#EXTINF:6.000000,
v.6.ts
#EXT-X-DISCONTINUITY
#EXTINF:6.000000,
v.7.ts
#EXT-X-KEY:METHOD=AES-128,URI=\"v.0.key\"
#EXTINF:3.040000,
v.8.ts
#EXT-X-ENDLIST
";

const LISTED_FRAMES: &str = "#EXTM3U
#EXT-X-VERSION:4
#EXT-X-TARGETDURATION:6
#EXT-X-MEDIA-SEQUENCE:18
#EXT-X-DISCONTINUITY-SEQUENCE:2
#EXT-X-I-FRAMES-ONLY
#EXT-X-KEY:METHOD=AES-128,URI=\"v.0.key\",IV=0x00000000000000000000000000000005
#EXTINF:6.000000,
#EXT-X-BYTERANGE:188@376
v.5.ts
#EXT-X-DISCONTINUITY
#EXT-X-KEY:METHOD=AES-128,URI=\"v.1.key\",IV=0x00000000000000000000000000000006
#EXTINF:6.000000,
#EXT-X-BYTERANGE:188@376
v.6.ts
#EXT-X-DISCONTINUITY
#EXT-X-KEY:METHOD=AES-128,URI=\"v.1.key\",IV=0x00000000000000000000000000000007
#EXTINF:6.000000,
#EXT-X-BYTERANGE:188@376
v.7.ts
#EXT-X-KEY:METHOD=AES-128,URI=\"v.0.key\",IV=0x00000000000000000000000000000008
#EXTINF:3.040000,
#EXT-X-BYTERANGE:188@376
v.8.ts
#EXT-X-ENDLIST
";

#[test]
fn two_segments_behind_two_that_are_listed(rt: HostRuntime) -> Result<(), Fail> {
    let ran = packed(&rt, rt.alloc(), &listed_settings(rt.alloc())?)?;
    let items = ran.outlet.items();
    assert_same(
        &rt,
        "two segments behind two that are listed",
        (ran.told(), last_media(items), last_frames(items)),
        ((None, 10), LISTED_MEDIA, LISTED_FRAMES),
    );
    let known = last_master(items).contains("BANDWIDTH=4000000,");
    assert_same(&rt, "the bandwidth that is known", known, true);
    Ok(())
}

#[test]
fn faults_name_the_numbers_that_players_see(rt: HostRuntime) -> Result<(), Fail> {
    let settings = settings(rt.alloc())?;
    let table = [
        (PackFault::LongSegment(0, 0), Some(7)),
        (PackFault::BigSegment(0, 3), Some(10)),
        (PackFault::Held(0, 1), Some(8)),
        (PackFault::LongSegment(1, 3), Some(3)),
        (PackFault::Limit(0), None),
    ];
    for (fault, number) in table {
        let seen = seen_number(fault, &settings);
        assert_same(&rt, fault, seen, number);
    }
    Ok(())
}
