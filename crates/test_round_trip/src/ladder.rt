//! Several renditions, keys that take turns, and a window that slides.
use crate::asserts::assert_same;
use crate::back::{first_lost, is_whole};
use crate::run::{
    CUT, PLAY, Play, Ran, WELL, has_values, last_master, last_media, played_each_way, run_each_way,
    settings,
};
use crate::stream::Video::{Key, Other};
use crate::stream::{Change, TWO_SEGMENTS, Video, stream_of};
use item_io::Item;
use pipeline::PackFault;
use std::alloc::{AllocError, Global};
use std::sync::Wait;
use std::test::Fail;
use std::thread::Threads;

const MASTER: &str = "#EXTM3U
#EXT-X-VERSION:4
#EXT-X-STREAM-INF:BANDWIDTH=2022,AVERAGE-BANDWIDTH=1360,CODECS=\"avc1.4d401e\",RESOLUTION=640x360
a.m3u8
#EXT-X-STREAM-INF:BANDWIDTH=2022,AVERAGE-BANDWIDTH=1360,CODECS=\"avc1.4d401e\",RESOLUTION=640x360
hd%201.m3u8
#EXT-X-I-FRAME-STREAM-INF:BANDWIDTH=495,AVERAGE-BANDWIDTH=333,CODECS=\"avc1.4d401e\",RESOLUTION=640x360,URI=\"a.iframes.m3u8\"
#EXT-X-I-FRAME-STREAM-INF:BANDWIDTH=495,AVERAGE-BANDWIDTH=333,CODECS=\"avc1.4d401e\",RESOLUTION=640x360,URI=\"hd%201.iframes.m3u8\"
";

/// Packs a ladder of these names on one thread and on many, with so many inputs, 32 at most, of two segments each.
pub fn packed_alike<R: Threads + Wait + Sync>(
    rt: &R,
    alloc: Global,
    names: &[&str],
    inputs: usize,
) -> Result<Ran, Fail> {
    let settings = settings(alloc, names, 1, 1, CUT, 5)?;
    let stream = stream_of(alloc, TWO_SEGMENTS, Change::None)?;
    let all: [&[u8]; 32] = [stream.as_slice(); 32];
    run_each_way(rt, alloc, &all[..inputs.min(32)], WELL, &settings)
}

/// Whether two renditions have this master playlist, the last media playlist lists both segments, and all comes back.
fn are_two(alloc: Global, items: &[Item]) -> Result<(bool, bool, bool), AllocError> {
    let lists = has_values(alloc, last_media(items), "hd%201.", "0.ts 1.ts ")?;
    let first = first_lost(alloc, items, 0, &[[0; 16]])?;
    let second = first_lost(alloc, items, 1, &[[0; 16]])?;
    Ok((
        last_master(items) == MASTER,
        lists,
        first.is_none() && second.is_none(),
    ))
}

#[test]
fn two_renditions_in_one_master(rt: HostRuntime) -> Result<(), Fail> {
    let ran = packed_alike(&rt, rt.alloc(), &["a", "hd 1"], 2)?;
    let are = are_two(rt.alloc(), ran.outlet.items())?;
    assert_same(
        &rt,
        "two renditions in one master",
        (ran.told(), are),
        ((None, 20), (true, true, true)),
    );
    Ok(())
}

/// Names that no rendition may have, and two inputs for one rendition.
const REFUSED: [(&str, usize); 4] = [("a.b", 1), ("master", 1), ("", 1), ("v", 2)];

#[test]
fn settings_that_are_not_allowed(rt: HostRuntime) -> Result<(), Fail> {
    for (name, inputs) in REFUSED {
        let ran = packed_alike(&rt, rt.alloc(), &[name], inputs)?;
        assert_same(
            &rt,
            (name, inputs),
            ran.told(),
            (Some(PackFault::Settings), 0),
        );
    }
    Ok(())
}

/// Five segments.
const FIVE: &[Video] = &[
    Key(0),
    Key(540_000),
    Key(1_080_000),
    Key(1_620_000),
    Key(2_160_000),
];

/// Whether a run is whole whose two keys take turns, and its last playlist names them in turn.
fn have_turns(alloc: Global, ran: &Ran) -> Result<(bool, bool), AllocError> {
    let whole = is_whole(alloc, ran, 22, &[[0; 16], [1; 16]])?;
    let media = last_media(ran.outlet.items());
    let tag = "#EXT-X-KEY:METHOD=AES-128,URI=";
    let keys = "\"v.0.key\" \"v.1.key\" \"v.0.key\" ";
    Ok((whole, has_values(alloc, media, tag, keys)?))
}

#[test]
fn keys_take_turns(rt: HostRuntime) -> Result<(), Fail> {
    let play = Play {
        frames: FIVE,
        keys: (2, 2),
        ..PLAY
    };
    let ran = played_each_way(&rt, rt.alloc(), &play)?;
    let have = have_turns(rt.alloc(), &ran)?;
    assert_same(&rt, "keys take turns", have, (true, true));
    Ok(())
}

/// The lines of sequences and discontinuities of the playlists behind 4, 5, 6 and 7 segments.
const SLIDES: &str =
    "MEDIA-SEQUENCE:1 DISCONTINUITY-SEQUENCE:0 DISCONTINUITY MEDIA-SEQUENCE:2 DISCONTINUITY-SEQUENCE:1 \
MEDIA-SEQUENCE:3 DISCONTINUITY-SEQUENCE:1 MEDIA-SEQUENCE:4 DISCONTINUITY-SEQUENCE:1 ";

/// Appends such lines of a playlist.
fn push_slide(slides: &mut String, text: &str) -> Result<(), AllocError> {
    for line in text.lines() {
        if let Some(tag) = line.strip_prefix("#EXT-X-") {
            if tag.starts_with("MEDIA-SEQUENCE") || tag.starts_with("DISCONTINUITY") {
                slides.push_str(tag)?;
                slides.push(' ')?;
            }
        }
    }
    Ok(())
}

/// Such lines of the media playlists behind at least four segments.
fn slides_of(alloc: Global, items: &[Item]) -> Result<String, AllocError> {
    let mut slides = String::new(alloc);
    for item in items {
        if let Item::Media {
            count,
            ended,
            text,
            ..
        } = item
        {
            if *count >= 4 && !*ended {
                push_slide(&mut slides, text)?;
            }
        }
    }
    Ok(slides)
}

/// Seven segments of six seconds, of which the second stands behind a discontinuity.
pub const SEVEN_BEHIND_A_JUMP: &[Video] = &[
    Key(0),
    Other(536_400),
    Key(9_000_000),
    Key(9_540_000),
    Key(10_080_000),
    Key(10_620_000),
    Key(11_160_000),
    Key(11_700_000),
    Other(12_236_400),
];

/// Whether a run is whole, and its playlists have the lines of sequences and discontinuities.
fn slides(alloc: Global, ran: &Ran) -> Result<(bool, bool), AllocError> {
    let whole = is_whole(alloc, ran, 30, &[[0; 16]])?;
    let slides = slides_of(alloc, ran.outlet.items())?;
    Ok((whole, slides.as_str() == SLIDES))
}

#[test]
fn a_window_slides_past_a_discontinuity(rt: HostRuntime) -> Result<(), Fail> {
    let play = Play {
        frames: SEVEN_BEHIND_A_JUMP,
        window: 3,
        ..PLAY
    };
    let ran = played_each_way(&rt, rt.alloc(), &play)?;
    let told = slides(rt.alloc(), &ran)?;
    assert_same(
        &rt,
        "a window slides past a discontinuity",
        told,
        (true, true),
    );
    Ok(())
}
