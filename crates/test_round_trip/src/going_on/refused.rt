//! Playlists that a run doesn't go on from.
use crate::going_on::rows::{
    EVENT, LIVE, SALT, SALTED, Texts, give, restored, sizes, texts_of, window,
};
use ladder_items::Gone;
use media_reading::read_media;
use resume::{ResumeFault, Wanted, restore};
use std::alloc::{AllocError, Global};
use std::process::Abort;

/// What a run asks of the playlists of a salted rendition with a target duration of six seconds, and why it doesn't go on.
const WANTED: [(&str, Wanted, bool, Option<ResumeFault>); 9] = [
    ("v", SALTED, false, None),
    ("v", SALTED, true, Some(ResumeFault::Ended)),
    (
        "v",
        Wanted { target: 7, ..EVENT },
        true,
        Some(ResumeFault::Ended),
    ),
    (
        "v",
        Wanted { target: 7, ..EVENT },
        false,
        Some(ResumeFault::OtherTarget),
    ),
    ("v", EVENT, false, Some(ResumeFault::OtherSalt)),
    ("v", LIVE, false, Some(ResumeFault::OtherSalt)),
    (
        "v",
        Wanted {
            salt: Some([8; 16]),
            ..LIVE
        },
        false,
        Some(ResumeFault::OtherSalt),
    ),
    (
        "v",
        Wanted {
            salt: Some(SALT),
            ..EVENT
        },
        false,
        Some(ResumeFault::OtherKind),
    ),
    ("w", SALTED, false, Some(ResumeFault::Foreign)),
];

/// A run of 20 segments is killed, or has ended.
#[test]
fn other_renditions_are_told(rt: HostRuntime) -> Result<(), ResumeFault> {
    let alloc = rt.alloc();
    let mut run = window(alloc, "v", SALTED, 5)?;
    assert!(&rt; give(&rt, alloc, &mut run, 0, 20).is_ok());
    for (name, wanted, ended, fault) in WANTED {
        let texts = texts_of(&run, ended)?;
        assert!(&rt; restored(alloc, name, wanted, &texts).err() == fault);
    }
    Ok(())
}

/// A line of the I-frame playlist of three segments, counted from 1, and what stands there instead.
const OTHER_LINES: [(usize, &str); 14] = [
    (2, "#EXT-X-VERSION:5\n"),
    (3, "#EXT-X-TARGETDURATION:7\n"),
    (4, "#EXT-X-MEDIA-SEQUENCE:07\n"),
    (5, "#EXT-X-DISCONTINUITY-SEQUENCE:1\n"),
    (6, ""),
    (7, ""),
    (
        7,
        "#EXT-X-DISCONTINUITY\n#EXT-X-KEY:METHOD=AES-128,URI=\"v.0.key\",IV=0x00000000000000000000000000000000\n",
    ),
    (8, "#EXTINF:2.00000,\n"),
    (8, "#EXTINF:2.000001,\n"),
    (9, "#EXT-X-BYTERANGE:188@0376\n"),
    (10, "v.1.ts\n"),
    (10, "v.0.ts\r\n"),
    (13, "w.0.ts\n"),
    (27, "v.2.ts"),
];

/// A text in which another one stands in place of a line.
fn changed(alloc: Global, text: &str, line: usize, other: &str) -> Result<String, AllocError> {
    let mut out = String::new(alloc);
    for (at, one) in text.lines().enumerate() {
        if at.wrapping_add(1) == line {
            out.push_str(other)?;
        } else {
            out.push_str(one)?;
            out.push('\n')?;
        }
    }
    Ok(out)
}

#[test]
fn other_texts_are_foreign(rt: HostRuntime) -> Result<(), ResumeFault> {
    let alloc = rt.alloc();
    let mut run = window(alloc, "v", LIVE, 5)?;
    assert!(&rt; give(&rt, alloc, &mut run, 0, 3).is_ok());
    let texts = texts_of(&run, false)?;
    assert!(&rt; restored(alloc, "v", LIVE, &texts).is_ok());
    for (line, other) in OTHER_LINES {
        let other = Texts {
            media: String::from_str(alloc, &texts.media)?,
            frames: changed(alloc, &texts.frames, line, other)?,
        };
        assert!(&rt; restored(alloc, "v", LIVE, &other).err() == Some(ResumeFault::Foreign));
    }
    Ok(())
}

/// How many sizes of files stand beside three segments, and whether they are those of the segments.
const COUNTS: [(usize, bool); 5] = [(0, false), (1, false), (2, false), (3, true), (4, false)];

#[test]
fn each_segment_has_a_size(rt: HostRuntime) -> Result<(), ResumeFault> {
    let alloc = rt.alloc();
    let mut run = window(alloc, "v", LIVE, 5)?;
    assert!(&rt; give(&rt, alloc, &mut run, 0, 3).is_ok());
    let texts = texts_of(&run, false)?;
    let Ok(listing) = read_media(alloc, &texts.media) else {
        return Err(ResumeFault::Foreign);
    };
    for (count, wanted) in COUNTS {
        let sizes = sizes(alloc, 0, count)?;
        let found = restore(alloc, "v", LIVE, &listing, &texts.frames, &sizes);
        assert!(&rt; found.is_ok() == wanted);
    }
    let found = restore(alloc, "v", LIVE, &listing, &texts.frames, &[1, 1 << 32, 1]);
    assert!(&rt; found.err() == Some(ResumeFault::Foreign));
    Ok(())
}

/// What is gone before three rows, rows and discontinuities, and whether the numbers are used up behind them.
const NUMBERS: [(u64, u64, bool); 6] = [
    (0xFFFF_FFFB, 0, false),
    (0xFFFF_FFFC, 0, true),
    (0x1_0000_0000, 0, true),
    (0, 0xFFFF_FFFB, false),
    (0, 0xFFFF_FFFC, true),
    (0xFFFF_FFFB, 0xFFFF_FFFB, false),
];

#[test]
fn numbers_are_used_up(rt: HostRuntime) -> Result<(), ResumeFault> {
    let alloc = rt.alloc();
    for (rows, discontinuities, used_up) in NUMBERS {
        let gone = Gone {
            rows,
            frames: 0,
            discontinuities,
        };
        let mut run = window(alloc, "v", LIVE, 5)?.behind(gone);
        assert!(&rt; give(&rt, alloc, &mut run, rows, rows + 3).is_ok());
        let fault = if used_up {
            Some(ResumeFault::Limit)
        } else {
            None
        };
        assert!(&rt; restored(alloc, "v", LIVE, &texts_of(&run, false)?).err() == fault);
    }
    Ok(())
}
