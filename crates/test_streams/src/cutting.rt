//! Where streams are cut, and what is left out.

use crate::outcomes::Row::{Breaks, GoesOn};
use crate::outcomes::{Case, FIRST, come};
use crate::stream_fixtures::SETTINGS;
use crate::stream_fixtures::Step::{Frame, Key, Pat, Pmt, PmtWithSound, Scrambled, Sound, Video};
use cutter::CutSettings;
use std::test::Fail;

const CUTS: [Case; 4] = [
    Case {
        name: "two segments",
        settings: &SETTINGS,
        steps: &[
            Pat,
            Pmt,
            Key(0),
            Frame(270_000),
            Key(540_000),
            Frame(810_000),
        ],
        rows: &[
            GoesOn(540_000, &[2, 3], FIRST),
            GoesOn(273_600, &[4, 5], FIRST),
        ],
        fault: None,
    },
    Case {
        name: "a segment over the end of the clock",
        settings: &SETTINGS,
        steps: &[Pat, Pmt, Key(8_589_934_000), Key(539_408)],
        rows: &[GoesOn(540_000, &[2], FIRST), GoesOn(3600, &[3], FIRST)],
        fault: None,
    },
    Case {
        name: "key frames within a segment",
        settings: &SETTINGS,
        steps: &[
            Pat,
            Pmt,
            Key(0),
            Key(180_000),
            Video,
            Frame(183_600),
            Key(539_999),
            Key(540_000),
        ],
        rows: &[
            GoesOn(
                540_000,
                &[2, 3, 4, 5, 6],
                &[(0, 188, 0), (188, 376, 180_000), (752, 188, 539_999)],
            ),
            GoesOn(3600, &[7], FIRST),
        ],
        fault: None,
    },
    // a key frame that isn't above the last one is no counted point
    Case {
        name: "frames out of order",
        settings: &SETTINGS,
        steps: &[
            Pat,
            Pmt,
            Frame(3_600),
            Key(10_800),
            Frame(3_600),
            Frame(7_200),
            Key(10_800),
            Key(7_200),
            Frame(21_600),
            Frame(14_400),
        ],
        rows: &[GoesOn(14_400, &[3, 4, 5, 6, 7, 8, 9], FIRST)],
        fault: None,
    },
];

#[test]
fn segments_and_their_iframes(rt: HostRuntime) -> Result<(), Fail> {
    come(rt.alloc(), &CUTS)
}

const OUTSIDE: [Case; 2] = [
    Case {
        name: "packets before the first cut",
        settings: &SETTINGS,
        steps: &[
            Key(0),
            Pat,
            PmtWithSound,
            Sound,
            Frame(4_500_000),
            Key(4_503_600),
            Sound,
        ],
        rows: &[GoesOn(3600, &[5, 6], &[(0, 376, 0)])],
        fault: None,
    },
    // the scrambled start ends the I-frame
    Case {
        name: "a scrambled start",
        settings: &SETTINGS,
        steps: &[Pat, Pmt, Key(0), Scrambled(540_000), Frame(540_000)],
        rows: &[GoesOn(543_600, &[2, 3, 4], FIRST)],
        fault: None,
    },
];

#[test]
fn packets_that_make_no_cut(rt: HostRuntime) -> Result<(), Fail> {
    come(rt.alloc(), &OUTSIDE)
}

/// A target of ten seconds, which are the gap.
const TEN: CutSettings = CutSettings {
    target: 10,
    ..SETTINGS
};

const BREAKS: [Case; 5] = [
    Case {
        name: "a jump of time",
        settings: &SETTINGS,
        steps: &[
            Pat,
            Pmt,
            Key(0),
            Frame(270_000),
            Frame(324_270_000),
            Key(324_540_000),
        ],
        rows: &[
            GoesOn(273_600, &[2, 3, 4], FIRST),
            Breaks(3600, &[5], FIRST),
        ],
        fault: None,
    },
    Case {
        name: "a gap",
        settings: &TEN,
        steps: &[Pat, Pmt, Key(0), Key(900_000)],
        rows: &[GoesOn(900_000, &[2], FIRST), GoesOn(3600, &[3], FIRST)],
        fault: None,
    },
    Case {
        name: "a gap and one tick more",
        settings: &TEN,
        steps: &[Pat, Pmt, Key(0), Key(900_001)],
        rows: &[GoesOn(3600, &[2], FIRST), Breaks(3600, &[3], FIRST)],
        fault: None,
    },
    Case {
        name: "tables that change",
        settings: &SETTINGS,
        steps: &[Pat, Pmt, Key(0), Frame(270_000), PmtWithSound, Key(300_000)],
        rows: &[GoesOn(300_000, &[2, 3], FIRST), Breaks(3600, &[5], FIRST)],
        fault: None,
    },
    // tables and the sound that they don't have are left out
    Case {
        name: "tables that change back",
        settings: &SETTINGS,
        steps: &[
            Pat,
            Pmt,
            Key(0),
            Pmt,
            Key(90_000),
            PmtWithSound,
            Frame(180_000),
            Sound,
            Pmt,
            Sound,
            Key(270_000),
        ],
        rows: &[GoesOn(
            273_600,
            &[2, 4, 6, 7, 10],
            &[(0, 188, 0), (188, 188, 90_000), (752, 188, 270_000)],
        )],
        fault: None,
    },
];

#[test]
fn times_and_tables_that_break(rt: HostRuntime) -> Result<(), Fail> {
    come(rt.alloc(), &BREAKS)
}
