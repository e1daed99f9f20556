//! Whole texts of both playlists.

use crate::fixtures::assert_text;
use crate::windows::{Given, Kind, give, give_two, window_of};
use media_playlist::{Window, WindowFault};
use std::alloc::{AllocError, Global};
use std::process::Abort;

/// Fails unless both playlists are these texts.
fn assert_texts(
    rt: &impl Abort,
    window: &Window,
    ended: bool,
    media: &str,
    frames: &str,
) -> Result<(), AllocError> {
    assert_text(rt, &window.media_text(ended)?, media);
    assert_text(rt, &window.iframe_text(ended)?, frames);
    Ok(())
}

/// A window, the rows that it is pushed, whether its playlists have ended, and their texts.
struct Case {
    kind: Kind,
    rows: &'static [Given],
    ended: bool,
    media: &'static str,
    frames: &'static str,
}

/// Pushes a case's rows to a window, and looks at its playlists.
fn plays(
    rt: &impl Abort,
    alloc: Global,
    window: &mut Window,
    case: &Case,
) -> Result<(), WindowFault> {
    for row in case.rows {
        give(rt, alloc, window, *row)?;
    }
    assert_texts(rt, window, case.ended, case.media, case.frames)?;
    Ok(())
}

fn play_all(rt: &impl Abort, alloc: Global, cases: &[Case]) -> Result<(), WindowFault> {
    for case in cases {
        let mut window = window_of(alloc, case.kind)?;
        plays(rt, alloc, &mut window, case)?;
    }
    Ok(())
}

const NO_ROWS: [Case; 3] = [
    Case {
        kind: Kind::Live("v", 5),
        rows: &[],
        ended: false,
        media: "",
        frames: "",
    },
    Case {
        kind: Kind::Live("v", 5),
        rows: &[],
        ended: true,
        media: "",
        frames: "",
    },
    Case {
        kind: Kind::Event,
        rows: &[],
        ended: true,
        media: "",
        frames: "",
    },
];

#[test]
fn no_rows(rt: HostRuntime) -> Result<(), WindowFault> {
    play_all(&rt, rt.alloc(), &NO_ROWS)
}

const MEDIA: &str = "#EXTM3U
#EXT-X-VERSION:4
#EXT-X-TARGETDURATION:6
#EXT-X-MEDIA-SEQUENCE:0
#EXT-X-DISCONTINUITY-SEQUENCE:0
#EXT-X-KEY:METHOD=AES-128,URI=\"v.0.key\"
#EXTINF:6.000000,
v.0.ts
#EXTINF:3.040000,
v.1.ts
#EXT-X-ENDLIST
";

const IFRAMES: &str = "#EXTM3U
#EXT-X-VERSION:4
#EXT-X-TARGETDURATION:6
#EXT-X-MEDIA-SEQUENCE:0
#EXT-X-DISCONTINUITY-SEQUENCE:0
#EXT-X-I-FRAMES-ONLY
#EXT-X-KEY:METHOD=AES-128,URI=\"v.0.key\",IV=0x00000000000000000000000000000000
#EXTINF:6.000000,
#EXT-X-BYTERANGE:188@376
v.0.ts
#EXT-X-KEY:METHOD=AES-128,URI=\"v.0.key\",IV=0x00000000000000000000000000000001
#EXTINF:3.040000,
#EXT-X-BYTERANGE:188@376
v.1.ts
#EXT-X-ENDLIST
";

const SALTED_MEDIA: &str = "#EXTM3U
#EXT-X-VERSION:4
#EXT-X-TARGETDURATION:6
#EXT-X-MEDIA-SEQUENCE:0
#EXT-X-DISCONTINUITY-SEQUENCE:0
#EXT-X-KEY:METHOD=AES-128,URI=\"v.0.key\",IV=0xF0F1F2F3F4F5F6F7F8F9FAFBFCFDFEFF
#EXTINF:6.000000,
v.0.ts
#EXT-X-KEY:METHOD=AES-128,URI=\"v.0.key\",IV=0xF0F1F2F3F4F5F6F7F8F9FAFBFCFDFEFE
#EXTINF:3.040000,
v.1.ts
#EXT-X-ENDLIST
";

const SALTED_IFRAMES: &str = "#EXTM3U
#EXT-X-VERSION:4
#EXT-X-TARGETDURATION:6
#EXT-X-MEDIA-SEQUENCE:0
#EXT-X-DISCONTINUITY-SEQUENCE:0
#EXT-X-I-FRAMES-ONLY
#EXT-X-KEY:METHOD=AES-128,URI=\"v.0.key\",IV=0xF0F1F2F3F4F5F6F7F8F9FAFBFCFDFEFF
#EXTINF:6.000000,
#EXT-X-BYTERANGE:188@376
v.0.ts
#EXT-X-KEY:METHOD=AES-128,URI=\"v.0.key\",IV=0xF0F1F2F3F4F5F6F7F8F9FAFBFCFDFEFE
#EXTINF:3.040000,
#EXT-X-BYTERANGE:188@376
v.1.ts
#EXT-X-ENDLIST
";

const TWO_KEY_FRAMES: [Case; 2] = [
    Case {
        kind: Kind::Live("v", 5),
        rows: &[(0, 6_000_000, 0, false), (1, 3_040_000, 0, false)],
        ended: true,
        media: MEDIA,
        frames: IFRAMES,
    },
    Case {
        kind: Kind::Salted,
        rows: &[(0, 6_000_000, 0, false), (1, 3_040_000, 0, false)],
        ended: true,
        media: SALTED_MEDIA,
        frames: SALTED_IFRAMES,
    },
];

#[test]
fn two_key_frames_plain_and_salted(rt: HostRuntime) -> Result<(), WindowFault> {
    play_all(&rt, rt.alloc(), &TWO_KEY_FRAMES)
}

const EVENT_MEDIA: &str = "#EXTM3U
#EXT-X-VERSION:4
#EXT-X-TARGETDURATION:6
#EXT-X-MEDIA-SEQUENCE:0
#EXT-X-DISCONTINUITY-SEQUENCE:0
#EXT-X-PLAYLIST-TYPE:EVENT
#EXT-X-KEY:METHOD=AES-128,URI=\"v.0.key\"
#EXTINF:5.000000,
v.0.ts
";

const EVENT_IFRAMES: &str = "#EXTM3U
#EXT-X-VERSION:4
#EXT-X-TARGETDURATION:6
#EXT-X-MEDIA-SEQUENCE:0
#EXT-X-DISCONTINUITY-SEQUENCE:0
#EXT-X-PLAYLIST-TYPE:EVENT
#EXT-X-I-FRAMES-ONLY
#EXT-X-KEY:METHOD=AES-128,URI=\"v.0.key\",IV=0x00000000000000000000000000000000
#EXTINF:5.000000,
#EXT-X-BYTERANGE:188@376
v.0.ts
";

const EVENT: Case = Case {
    kind: Kind::Event,
    rows: &[(0, 5_000_000, 0, false)],
    ended: false,
    media: EVENT_MEDIA,
    frames: EVENT_IFRAMES,
};

#[test]
fn a_row_of_an_event(rt: HostRuntime) -> Result<(), WindowFault> {
    play_all(&rt, rt.alloc(), &[EVENT])
}

const KEYS_IN_TURN: &str = "#EXTM3U
#EXT-X-VERSION:4
#EXT-X-TARGETDURATION:6
#EXT-X-MEDIA-SEQUENCE:0
#EXT-X-DISCONTINUITY-SEQUENCE:0
#EXT-X-KEY:METHOD=AES-128,URI=\"hd%201.0.key\"
#EXTINF:1.000000,
hd%201.0.ts
#EXTINF:1.000000,
hd%201.1.ts
#EXT-X-KEY:METHOD=AES-128,URI=\"hd%201.1.key\"
#EXTINF:1.000000,
hd%201.2.ts
#EXTINF:1.000000,
hd%201.3.ts
#EXT-X-KEY:METHOD=AES-128,URI=\"hd%201.0.key\"
#EXTINF:1.000000,
hd%201.4.ts
";

const KEYS_IN_TURN_IFRAMES: &str = "#EXTM3U
#EXT-X-VERSION:4
#EXT-X-TARGETDURATION:6
#EXT-X-MEDIA-SEQUENCE:0
#EXT-X-DISCONTINUITY-SEQUENCE:0
#EXT-X-I-FRAMES-ONLY
#EXT-X-KEY:METHOD=AES-128,URI=\"hd%201.0.key\",IV=0x00000000000000000000000000000000
#EXTINF:1.000000,
#EXT-X-BYTERANGE:188@376
hd%201.0.ts
#EXT-X-KEY:METHOD=AES-128,URI=\"hd%201.0.key\",IV=0x00000000000000000000000000000001
#EXTINF:1.000000,
#EXT-X-BYTERANGE:188@376
hd%201.1.ts
#EXT-X-KEY:METHOD=AES-128,URI=\"hd%201.1.key\",IV=0x00000000000000000000000000000002
#EXTINF:1.000000,
#EXT-X-BYTERANGE:188@376
hd%201.2.ts
#EXT-X-KEY:METHOD=AES-128,URI=\"hd%201.1.key\",IV=0x00000000000000000000000000000003
#EXTINF:1.000000,
#EXT-X-BYTERANGE:188@376
hd%201.3.ts
#EXT-X-KEY:METHOD=AES-128,URI=\"hd%201.0.key\",IV=0x00000000000000000000000000000004
#EXTINF:1.000000,
#EXT-X-BYTERANGE:188@376
hd%201.4.ts
";

const KEYS: Case = Case {
    kind: Kind::Live("hd 1", 5),
    rows: &[
        (0, 1_000_000, 0, false),
        (1, 1_000_000, 0, false),
        (2, 1_000_000, 1, false),
        (3, 1_000_000, 1, false),
        (4, 1_000_000, 0, false),
    ],
    ended: false,
    media: KEYS_IN_TURN,
    frames: KEYS_IN_TURN_IFRAMES,
};

#[test]
fn keys_in_turn(rt: HostRuntime) -> Result<(), WindowFault> {
    play_all(&rt, rt.alloc(), &[KEYS])
}

/// An I-frame playlist of one row with two I-frames.
const TWO_FRAMES: &str = "#EXTM3U
#EXT-X-VERSION:4
#EXT-X-TARGETDURATION:6
#EXT-X-MEDIA-SEQUENCE:0
#EXT-X-DISCONTINUITY-SEQUENCE:0
#EXT-X-I-FRAMES-ONLY
#EXT-X-DISCONTINUITY
#EXT-X-KEY:METHOD=AES-128,URI=\"v.7.key\",IV=0x00000000000000000000000000000000
#EXTINF:2.000000,
#EXT-X-BYTERANGE:188@376
v.0.ts
#EXTINF:4.000000,
#EXT-X-BYTERANGE:376@564
v.0.ts
";

/// Pushes a row of two I-frames, and looks at the text of the I-frame playlist.
fn both_frames_are_told(
    rt: &impl Abort,
    alloc: Global,
    window: &mut Window,
) -> Result<(), WindowFault> {
    give_two(rt, alloc, window, 0, 7, true)?;
    assert_text(rt, &window.iframe_text(false)?, TWO_FRAMES);
    Ok(())
}

#[test]
fn two_frames_of_a_row(rt: HostRuntime) -> Result<(), WindowFault> {
    let mut window = window_of(rt.alloc(), Kind::Live("v", 5))?;
    both_frames_are_told(&rt, rt.alloc(), &mut window)
}
