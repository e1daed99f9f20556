//! Streams of one rendition: what is given of each, and the fault that is told.
use crate::asserts::assert_same;
use crate::back::{first_lost, has_one_meaning_changed};
use crate::run::{
    CUT, PLAY, Play, WELL, Ways, are_sizes, has_values, last_frames, last_media, played_each_way,
};
use crate::stream::Video::{Key, Other};
use crate::stream::{Change, TWO_SEGMENTS, Video};
use cutter::CutSettings;
use item_io::Item;
use pipeline::PackFault;
use std::alloc::{AllocError, Global};
use std::sync::Wait;
use std::test::Fail;
use std::thread::Threads;

/// What is wanted of a run: the fault, how many items, the sizes of the segments, and what stands behind a tag of the last media
/// and of the last I-frame playlist.
#[derive(Clone, Copy)]
struct Wanted {
    fault: Option<PackFault>,
    items: usize,
    sizes: &'static [usize],
    media: (&'static str, &'static str),
    iframes: (&'static str, &'static str),
}

/// A stream that is given whole: its frames, what is done to it, its target duration, how many segments are listed at least, how
/// many items are given, and what they have.
#[derive(Clone, Copy)]
struct Whole {
    frames: &'static [Video],
    change: Change,
    target: u64,
    window: u64,
    items: usize,
    sizes: &'static [usize],
    media: (&'static str, &'static str),
    iframes: (&'static str, &'static str),
}

/// Two segments.
const TWO: Whole = Whole {
    frames: TWO_SEGMENTS,
    change: Change::None,
    target: 6,
    window: 5,
    items: 10,
    sizes: &[768, 768],
    media: (DURATION, "6.000000, 3.040000, "),
    iframes: (RANGE, "188@376 188@376 "),
};

/// Two segments of one packet each.
const SHORT: Whole = Whole {
    sizes: &[576, 576],
    ..TWO
};

const DURATION: &str = "#EXTINF:";

const RANGE: &str = "#EXT-X-BYTERANGE:";

const SEQUENCE: &str = "#EXT-X-MEDIA-SEQUENCE:";

const END: &str = "#EXT-X-ENDLIST";

/// Seven segments of six seconds.
pub const SEVEN: &[Video] = &[
    Key(0),
    Key(540_000),
    Key(1_080_000),
    Key(1_620_000),
    Key(2_160_000),
    Key(2_700_000),
    Key(3_240_000),
    Other(3_776_400),
];

/// Streams with bytes too many or too few.
const DAMAGED: [Whole; 3] = [
    Whole {
        change: Change::NoiseBefore,
        ..TWO
    },
    Whole {
        change: Change::LeaveOut(6 * 188 - 1),
        sizes: &[768, 576],
        media: (DURATION, "6.000000, 0.040000, "),
        ..TWO
    },
    // a packet without its last byte is read with the next one's sync byte, and the next one is lost
    Whole {
        frames: &[
            Key(0),
            Other(180_000),
            Other(360_000),
            Key(540_000),
            Other(810_000),
        ],
        change: Change::LeaveOut(4 * 188 - 1),
        ..TWO
    },
];

/// Where streams are cut, and how long their segments last.
const CUT_UP: [Whole; 4] = [
    // the time wraps
    Whole {
        frames: &[Key(8_589_934_000), Key(539_408)],
        media: (DURATION, "6.000000, 0.040000, "),
        ..SHORT
    },
    Whole {
        frames: &[Key(0), Key(720_000)],
        target: 8,
        media: (DURATION, "8.000000, 0.040000, "),
        ..SHORT
    },
    Whole {
        frames: &[Key(0), Key(585_000)],
        target: 7,
        media: (DURATION, "6.500000, 0.040000, "),
        ..SHORT
    },
    Whole {
        frames: &[Key(0), Key(584_999)],
        media: (DURATION, "6.499989, 0.040000, "),
        ..SHORT
    },
];

/// A jump of time, and two I-frames in a segment.
const JUMPS: [Whole; 4] = [
    // a jump of time
    Whole {
        frames: &[Key(0), Other(270_000), Other(324_270_000), Key(324_540_000)],
        sizes: &[944, 576],
        media: (DURATION, "3.040000, 0.040000, "),
        ..TWO
    },
    Whole {
        frames: &[Key(0), Other(270_000), Other(324_270_000), Key(324_540_000)],
        sizes: &[944, 576],
        media: ("#EXT-X-DISCONTINUITY", "-SEQUENCE:0  "),
        ..TWO
    },
    // two I-frames in a segment
    Whole {
        frames: &[Key(0), Key(180_000), Key(540_000)],
        sizes: &[768, 576],
        media: (DURATION, "6.000000, 0.040000, "),
        iframes: (RANGE, "188@376 188@564 188@376 "),
        ..TWO
    },
    Whole {
        frames: &[Key(0), Key(180_000), Key(540_000)],
        sizes: &[768, 576],
        media: (DURATION, "6.000000, 0.040000, "),
        iframes: (DURATION, "2.000000, 4.000000, 0.040000, "),
        ..TWO
    },
];

/// Three targets stay listed.
const LISTED: Whole = Whole {
    frames: SEVEN,
    items: 30,
    sizes: &[576, 576, 576, 576, 576, 576, 768],
    media: (SEQUENCE, "4 "),
    iframes: (SEQUENCE, "4 "),
    ..TWO
};

/// Streams of which nothing is given, what is done to them, and their faults.
const REFUSED: [(&[Video], Change, PackFault); 5] = [
    (TWO_SEGMENTS, Change::BadCrc, PackFault::NoProgram(0)),
    (TWO_SEGMENTS, Change::Empty, PackFault::NoProgram(0)),
    (&[], Change::None, PackFault::NoStart(0)),
    (
        &[Key(0), Key(720_000)],
        Change::None,
        PackFault::LongSegment(0, 0),
    ),
    (
        &[Key(0), Key(585_000)],
        Change::None,
        PackFault::LongSegment(0, 0),
    ),
];

/// The first of the items and texts that isn't as wanted.
fn wrong(
    alloc: Global,
    wanted: &Wanted,
    items: &[Item],
) -> Result<Option<&'static str>, AllocError> {
    if !are_sizes(items, wanted.sizes) {
        return Ok(Some("sizes"));
    }
    let (tag, values) = wanted.media;
    if !has_values(alloc, last_media(items), tag, values)? {
        return Ok(Some("media"));
    }
    let (tag, values) = wanted.iframes;
    if !has_values(alloc, last_frames(items), tag, values)? {
        return Ok(Some("I-frames"));
    }
    if first_lost(alloc, items, 0, &[[0; 16]])?.is_some() {
        return Ok(Some("segments"));
    }
    if !has_one_meaning_changed(alloc, last_media(items))? {
        return Ok(Some("a changed text"));
    }
    Ok(None)
}

/// The first thing that isn't as wanted of a run.
fn wrong_in<R: Threads + Wait + Sync>(
    rt: &R,
    alloc: Global,
    play: &Play,
    wanted: &Wanted,
) -> Result<Option<&'static str>, Fail> {
    let ran = played_each_way(rt, alloc, play)?;
    if ran.told() != (wanted.fault, wanted.items) {
        return Ok(Some("fault or items"));
    }
    Ok(wrong(alloc, wanted, ran.outlet.items())?)
}

impl Whole {
    fn play(self) -> Play {
        Play {
            frames: self.frames,
            change: self.change,
            cut: CutSettings {
                target: self.target,
                ..CUT
            },
            window: self.window,
            ..PLAY
        }
    }

    fn wanted(self) -> Wanted {
        Wanted {
            fault: None,
            items: self.items,
            sizes: self.sizes,
            media: self.media,
            iframes: self.iframes,
        }
    }
}

/// The first of some streams that isn't given whole as wanted.
fn first_wrong<R: Threads + Wait + Sync>(
    rt: &R,
    alloc: Global,
    streams: &[Whole],
) -> Result<Option<(usize, &'static str)>, Fail> {
    for (n, whole) in streams.iter().enumerate() {
        if let Some(wrong) = wrong_in(rt, alloc, &whole.play(), &whole.wanted())? {
            return Ok(Some((n, wrong)));
        }
    }
    Ok(None)
}

#[test]
fn streams_with_damage(rt: HostRuntime) -> Result<(), Fail> {
    assert_same(
        &rt,
        "streams with damage",
        first_wrong(&rt, rt.alloc(), &DAMAGED)?,
        None,
    );
    Ok(())
}

#[test]
fn streams_are_cut(rt: HostRuntime) -> Result<(), Fail> {
    assert_same(
        &rt,
        "streams are cut",
        first_wrong(&rt, rt.alloc(), &CUT_UP)?,
        None,
    );
    Ok(())
}

#[test]
fn jumps_and_iframes(rt: HostRuntime) -> Result<(), Fail> {
    assert_same(
        &rt,
        "jumps and iframes",
        first_wrong(&rt, rt.alloc(), &JUMPS)?,
        None,
    );
    Ok(())
}

#[test]
fn a_window_of_any_size_lists_three_targets(rt: HostRuntime) -> Result<(), Fail> {
    for window in [3, 1] {
        let listed = Whole { window, ..LISTED };
        let wrong = wrong_in(&rt, rt.alloc(), &listed.play(), &listed.wanted())?;
        assert_same(&rt, ("a window of", window), wrong, None);
    }
    Ok(())
}

/// The fault of a stream, and how many items it gives.
fn told_of<R: Threads + Wait + Sync>(
    rt: &R,
    alloc: Global,
    play: &Play,
) -> Result<(Option<PackFault>, usize), Fail> {
    Ok(played_each_way(rt, alloc, play)?.told())
}

#[test]
fn faults_of_streams(rt: HostRuntime) -> Result<(), Fail> {
    for (frames, change, fault) in REFUSED {
        let play = Play {
            frames,
            change,
            ..PLAY
        };
        let told = told_of(&rt, rt.alloc(), &play)?;
        assert_same(&rt, fault, told, (Some(fault), 0));
    }
    Ok(())
}

#[test]
fn as_many_packets_as_a_segment_may_have(rt: HostRuntime) -> Result<(), Fail> {
    let cut = CutSettings { most: 2, ..CUT };
    let wrong = wrong_in(&rt, rt.alloc(), &Play { cut, ..PLAY }, &TWO.wanted())?;
    assert_same(&rt, "as many packets as a segment may have", wrong, None);
    Ok(())
}

#[test]
fn a_packet_more_than_a_segment_may_have(rt: HostRuntime) -> Result<(), Fail> {
    let cut = CutSettings { most: 1, ..CUT };
    let told = told_of(&rt, rt.alloc(), &Play { cut, ..PLAY })?;
    assert_same(
        &rt,
        "a packet more than a segment may have",
        told,
        (Some(PackFault::BigSegment(0, 0)), 0),
    );
    Ok(())
}

#[test]
fn a_read_that_fails_is_no_end(rt: HostRuntime) -> Result<(), Fail> {
    let ways = Ways {
        piece: 940,
        failing_read: 2,
        ..WELL
    };
    let wanted = Wanted {
        fault: Some(PackFault::Read(0)),
        items: 4,
        sizes: &[768],
        media: (END, ""),
        iframes: (END, ""),
    };
    let wrong = wrong_in(&rt, rt.alloc(), &Play { ways, ..PLAY }, &wanted)?;
    assert_same(&rt, "a read that fails is no end", wrong, None);
    Ok(())
}

#[test]
fn a_put_that_fails_stops_the_run(rt: HostRuntime) -> Result<(), Fail> {
    let ways = Ways {
        failing_put: 3,
        ..WELL
    };
    let wanted = Wanted {
        fault: Some(PackFault::Outlet),
        items: 2,
        sizes: &[768],
        media: (DURATION, "6.000000, "),
        iframes: (RANGE, ""),
    };
    let wrong = wrong_in(&rt, rt.alloc(), &Play { ways, ..PLAY }, &wanted)?;
    assert_same(&rt, "a put that fails stops the run", wrong, None);
    Ok(())
}
