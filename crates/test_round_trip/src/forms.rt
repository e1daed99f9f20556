//! Salted vectors, playlists of an event, as many renditions as there may be, and each prefix of a stream.
use crate::allowed::NAMES;
use crate::asserts::assert_same;
use crate::back::is_whole;
use crate::cases::SEVEN;
use crate::ladder::{SEVEN_BEHIND_A_JUMP, packed_alike};
use crate::run::{
    CUT, Form, PLAIN, PLAY, Play, Ran, WELL, last_frames, last_media, played_each_way, run_beside,
    settings,
};
use crate::stream::{Change, TWO_SEGMENTS, stream_of};
use item_io::Item;
use pipeline::{Kind, PackFault, Settings};
use std::alloc::Global;
use std::sync::Wait;
use std::test::Fail;
use std::thread::Threads;

/// A salt of the bytes F0 to FF.
const SALTED: Form = Form {
    salt: Some(*b"\xf0\xf1\xf2\xf3\xf4\xf5\xf6\xf7\xf8\xf9\xfa\xfb\xfc\xfd\xfe\xff"),
    ..PLAIN
};

const EVENT: Form = Form {
    kind: Kind::Event,
    ..PLAIN
};

const MEDIA: &str = "#EXTM3U
#EXT-X-VERSION:4
#EXT-X-TARGETDURATION:6
#EXT-X-MEDIA-SEQUENCE:0
#EXT-X-DISCONTINUITY-SEQUENCE:0
#EXT-X-KEY:METHOD=AES-128,URI=\"v.0.key\",IV=0xF0F1F2F3F4F5F6F7F8F9FAFBFCFDFEFF
#EXTINF:6.000000,
v.0.ts
#EXT-X-KEY:METHOD=AES-128,URI=\"v.0.key\",IV=0xF0F1F2F3F4F5F6F7F8F9FAFBFCFDFEFE
#EXTINF:3.040000,
v.1.ts
#EXT-X-ENDLIST
";

const FRAMES: &str = "#EXTM3U
#EXT-X-VERSION:4
#EXT-X-TARGETDURATION:6
#EXT-X-MEDIA-SEQUENCE:0
#EXT-X-DISCONTINUITY-SEQUENCE:0
#EXT-X-I-FRAMES-ONLY
#EXT-X-KEY:METHOD=AES-128,URI=\"v.0.key\",IV=0xF0F1F2F3F4F5F6F7F8F9FAFBFCFDFEFF
#EXTINF:6.000000,
#EXT-X-BYTERANGE:188@376
v.0.ts
#EXT-X-KEY:METHOD=AES-128,URI=\"v.0.key\",IV=0xF0F1F2F3F4F5F6F7F8F9FAFBFCFDFEFE
#EXTINF:3.040000,
#EXT-X-BYTERANGE:188@376
v.1.ts
#EXT-X-ENDLIST
";

#[test]
fn two_segments_under_a_salt(rt: HostRuntime) -> Result<(), Fail> {
    let form = SALTED;
    let ran = played_each_way(&rt, rt.alloc(), &Play { form, ..PLAY })?;
    let whole = is_whole(rt.alloc(), &ran, 10, &[[0; 16]])?;
    let items = ran.outlet.items();
    assert_same(
        &rt,
        "two segments under a salt",
        (whole, last_media(items), last_frames(items)),
        (true, MEDIA, FRAMES),
    );
    Ok(())
}

#[test]
fn keys_take_turns_under_a_salt(rt: HostRuntime) -> Result<(), Fail> {
    let play = Play {
        frames: SEVEN,
        keys: (2, 2),
        window: 3,
        form: SALTED,
        ..PLAY
    };
    let ran = played_each_way(&rt, rt.alloc(), &play)?;
    let whole = is_whole(rt.alloc(), &ran, 30, &[[0; 16], [1; 16]])?;
    assert_same(&rt, "keys take turns under a salt", whole, true);
    Ok(())
}

/// How many lines a text has, whether its first segment is listed, and whether it is told to be of an event.
fn head(text: &str) -> (usize, bool, bool) {
    (
        text.lines().count(),
        text.lines().nth(3) == Some("#EXT-X-MEDIA-SEQUENCE:0"),
        text.lines().nth(5) == Some("#EXT-X-PLAYLIST-TYPE:EVENT"),
    )
}

#[test]
fn an_event_lists_all_segments(rt: HostRuntime) -> Result<(), Fail> {
    let play = Play {
        frames: SEVEN,
        window: 1,
        form: EVENT,
        ..PLAY
    };
    let ran = played_each_way(&rt, rt.alloc(), &play)?;
    let whole = is_whole(rt.alloc(), &ran, 30, &[[0; 16]])?;
    let items = ran.outlet.items();
    assert_same(
        &rt,
        "an event lists all segments",
        (whole, head(last_media(items)), head(last_frames(items))),
        (true, (22, true, true), (36, true, true)),
    );
    Ok(())
}

/// How often this line stands in a text.
fn times(text: &str, wanted: &str) -> usize {
    text.lines().filter(|line| *line == wanted).count()
}

/// The first number of segments of which a media playlist has another sequence of discontinuities than 0, or another number of
/// discontinuities: one behind the first segment.
fn first_other_event(items: &[Item]) -> Option<u64> {
    for item in items {
        if let Item::Media { count, text, .. } = item {
            let begins = times(text, "#EXT-X-DISCONTINUITY-SEQUENCE:0");
            let signs = times(text, "#EXT-X-DISCONTINUITY");
            if begins != 1 || signs != usize::from(*count > 1) {
                return Some(*count);
            }
        }
    }
    None
}

#[test]
fn an_event_with_a_discontinuity(rt: HostRuntime) -> Result<(), Fail> {
    let play = Play {
        frames: SEVEN_BEHIND_A_JUMP,
        window: 3,
        form: EVENT,
        ..PLAY
    };
    let ran = played_each_way(&rt, rt.alloc(), &play)?;
    let other = first_other_event(ran.outlet.items());
    assert_same(
        &rt,
        "an event with a discontinuity",
        (ran.told(), other),
        ((None, 30), None),
    );
    Ok(())
}

#[test]
fn as_many_renditions_as_there_may_be(rt: HostRuntime) -> Result<(), Fail> {
    let ran = packed_alike(&rt, rt.alloc(), &NAMES[..32], 32)?;
    assert_same(
        &rt,
        "as many renditions as there may be",
        ran.told(),
        (None, 320),
    );
    Ok(())
}

/// What a prefix of the stream of two segments gives, from so many bytes on: the fault, or how many microseconds are
/// told; and how many items.
const BEGINNINGS: [(usize, Result<u128, PackFault>, usize); 6] = [
    (0, Err(PackFault::NoProgram(0)), 0),
    (376, Err(PackFault::NoStart(0)), 0),
    (564, Ok(40_000), 6),
    (752, Ok(3_040_000), 6),
    (940, Ok(6_040_000), 10),
    (1128, Ok(9_040_000), 10),
];

/// Whether these bytes as a whole input give what they should, on one thread and with two workers.
fn is_as_wanted<R: Threads + Wait + Sync>(
    rt: &R,
    alloc: Global,
    input: &[u8],
    settings: &Settings,
) -> Result<bool, Fail> {
    let Ran { answer, outlet } = run_beside(rt, alloc, &[input], WELL, settings, &[2])?;
    let micros = match answer {
        Ok(report) => Ok(report.micros.first().copied().unwrap_or(0)),
        Err(fault) => Err(fault),
    };
    let mut right = false;
    for (least, wanted, items) in BEGINNINGS {
        if least <= input.len() {
            right = micros == wanted && outlet.items().len() == items;
        }
    }
    Ok(right)
}

/// The first length of a prefix of a stream that gives otherwise.
fn first_other_beginning<R: Threads + Wait + Sync>(
    rt: &R,
    alloc: Global,
    stream: &[u8],
    settings: &Settings,
) -> Result<Option<usize>, Fail> {
    for len in 0..=stream.len() {
        if !is_as_wanted(rt, alloc, &stream[..len], settings)? {
            return Ok(Some(len));
        }
    }
    Ok(None)
}

#[test]
fn each_beginning_of_a_stream(rt: HostRuntime) -> Result<(), Fail> {
    let stream = stream_of(rt.alloc(), TWO_SEGMENTS, Change::None)?;
    let settings = settings(rt.alloc(), &["v"], 1, 1, CUT, 5)?;
    let other = first_other_beginning(&rt, rt.alloc(), &stream, &settings)?;
    assert_same(
        &rt,
        "each beginning of a stream",
        (stream.len(), other),
        (1128, None),
    );
    Ok(())
}
