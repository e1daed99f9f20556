//! Streams that aren't cut, or not to their end.

use crate::outcomes::Row::GoesOn;
use crate::outcomes::{Case, FIRST, FOUR, come};
use crate::stream_fixtures::Step::{BadPat, Frame, Key, Pat, Pmt, PmtWithSound, Sound};
use crate::stream_fixtures::{SETTINGS, Step};
use cutter::{CutFault, CutSettings};
use std::test::Fail;

/// The tables alone.
const TABLES: &[Step] = &[Pat, Pmt];

/// Those that ask for another program.
const OF_PROGRAM_2: CutSettings = CutSettings {
    program: Some(2),
    ..SETTINGS
};

const WITHOUT: [Case; 5] = [
    Case {
        name: "no packets",
        settings: &SETTINGS,
        steps: &[],
        rows: &[],
        fault: Some(CutFault::NoProgram),
    },
    Case {
        name: "a PAT with a bad CRC",
        settings: &SETTINGS,
        steps: &[BadPat, Pmt, Key(0)],
        rows: &[],
        fault: Some(CutFault::NoProgram),
    },
    Case {
        name: "another program",
        settings: &OF_PROGRAM_2,
        steps: TABLES,
        rows: &[],
        fault: Some(CutFault::NoProgram),
    },
    Case {
        name: "tables alone",
        settings: &SETTINGS,
        steps: TABLES,
        rows: &[],
        fault: Some(CutFault::NoStart),
    },
    Case {
        name: "sound alone",
        settings: &SETTINGS,
        steps: &[Pat, Pmt, PmtWithSound, Sound],
        rows: &[],
        fault: Some(CutFault::NoStart),
    },
];

#[test]
fn streams_without_a_segment(rt: HostRuntime) -> Result<(), Fail> {
    come(rt.alloc(), &WITHOUT)
}

/// Two key frames eight seconds apart.
const EIGHT: &[Step] = &[Pat, Pmt, Key(0), Key(720_000)];

/// A target of eight seconds.
const OF_EIGHT: CutSettings = CutSettings {
    target: 8,
    ..SETTINGS
};

/// A target of seven seconds.
const OF_SEVEN: CutSettings = CutSettings {
    target: 7,
    ..SETTINGS
};

const LONG: [Case; 7] = [
    Case {
        name: "eight seconds",
        settings: &SETTINGS,
        steps: EIGHT,
        rows: &[],
        fault: Some(CutFault::LongSegment(0)),
    },
    Case {
        name: "eight seconds within the target",
        settings: &OF_EIGHT,
        steps: EIGHT,
        rows: &[GoesOn(720_000, &[2], FIRST), GoesOn(3600, &[3], FIRST)],
        fault: None,
    },
    Case {
        name: "the last tick that rounds to the target",
        settings: &SETTINGS,
        steps: &[Pat, Pmt, Key(0), Key(584_999)],
        rows: &[GoesOn(584_999, &[2], FIRST), GoesOn(3600, &[3], FIRST)],
        fault: None,
    },
    Case {
        name: "the first tick that doesn't",
        settings: &SETTINGS,
        steps: &[Pat, Pmt, Key(0), Key(585_000)],
        rows: &[],
        fault: Some(CutFault::LongSegment(0)),
    },
    Case {
        name: "a target of one second more",
        settings: &OF_SEVEN,
        steps: &[Pat, Pmt, Key(0), Key(585_000)],
        rows: &[GoesOn(585_000, &[2], FIRST), GoesOn(3600, &[3], FIRST)],
        fault: None,
    },
    Case {
        name: "eight seconds behind a plan",
        settings: &SETTINGS,
        steps: &[Pat, Pmt, Key(0), Key(540_000), Key(1_260_000)],
        rows: &[GoesOn(540_000, &[2], FIRST)],
        fault: Some(CutFault::LongSegment(1)),
    },
    Case {
        name: "eight seconds at the end",
        settings: &SETTINGS,
        steps: &[Pat, Pmt, Key(0), Frame(720_000)],
        rows: &[],
        fault: Some(CutFault::LongSegment(0)),
    },
];

#[test]
fn segments_longer_than_the_target(rt: HostRuntime) -> Result<(), Fail> {
    come(rt.alloc(), &LONG)
}

/// One packet at the most.
const OF_ONE_PACKET: CutSettings = CutSettings {
    most: 1,
    ..SETTINGS
};

/// Two packets at the most.
const OF_TWO_PACKETS: CutSettings = CutSettings {
    most: 2,
    ..SETTINGS
};

const BIG: [Case; 3] = [
    Case {
        name: "one packet",
        settings: &OF_ONE_PACKET,
        steps: FOUR,
        rows: &[],
        fault: Some(CutFault::BigSegment(0)),
    },
    Case {
        name: "one packet, behind a plan",
        settings: &OF_ONE_PACKET,
        steps: &[Pat, Pmt, Key(0), Key(540_000), Frame(810_000)],
        rows: &[GoesOn(540_000, &[2], FIRST)],
        fault: Some(CutFault::BigSegment(1)),
    },
    Case {
        name: "two packets",
        settings: &OF_TWO_PACKETS,
        steps: FOUR,
        rows: &[
            GoesOn(540_000, &[2, 3], FIRST),
            GoesOn(273_600, &[4, 5], FIRST),
        ],
        fault: None,
    },
];

#[test]
fn the_most_packets_of_a_body(rt: HostRuntime) -> Result<(), Fail> {
    come(rt.alloc(), &BIG)
}
