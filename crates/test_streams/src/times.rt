//! The PTS that a packet brings, and the times of a clock.

use crate::asserts::assert_same;
use crate::table_fixtures::{filled, write};
use pes_time::{Clock, ClockFault, Stamp, pts};
use std::test::Fail;
use ts_packet::{Packet, PacketFault};

/// The first packet of a key frame at 540,000 ticks. The other bytes of the packet are FF.
const KEY_FRAME: &[u8] =
    b"\x47\x41\x00\x30\x01\x40\x00\x00\x01\xe0\x00\x00\x80\x80\x05\x21\x00\x21\x7a\xc1";

/// How long the payload of a packet is, and the PTS that it brings.
fn brought(bytes: &[u8; 188]) -> Result<(usize, Option<u64>), PacketFault> {
    let packet = Packet::parse(bytes)?;
    Ok((packet.payload().len(), pts(&packet)))
}

/// The packet of the key frame, with other bytes from a place on.
fn key_frame_with(at: usize, others: &[u8]) -> [u8; 188] {
    let mut bytes = filled(KEY_FRAME, b"");
    write(&mut bytes, at, others);
    bytes
}

#[test]
fn pts_of_key_frames(rt: HostRuntime) {
    let frames = [
        brought(&key_frame_with(0, b"")),
        brought(&key_frame_with(15, b"\x2f\xff\xff\xff\xff")),
    ];
    assert_same(
        &rt,
        "pts of key frames",
        frames,
        [Ok((182, Some(540_000))), Ok((182, Some(8_589_934_591)))],
    );
}

/// Bytes that aren't looked at.
const IGNORED: [(usize, &[u8]); 10] = [
    // no payload_unit_start_indicator
    (1, b"\x01"),
    (9, b"\xef"),
    (10, b"\xff"),
    (11, b"\xff"),
    (12, b"\xbf"),
    (13, b"\xc0"),
    (14, b"\xff"),
    // other bits before the PTS, and the three markers
    (15, b"\xd0"),
    (17, b"\x20"),
    (19, b"\xc0"),
];

/// Bytes that no packet with a PTS has.
const FOREIGN: [(usize, &[u8]); 14] = [
    // transport_scrambling_control
    (3, b"\x70"),
    (3, b"\xb0"),
    (3, b"\xf0"),
    // no payload
    (3, b"\x20"),
    // the start code
    (6, b"\x01"),
    (7, b"\x01"),
    (8, b"\x00"),
    // stream_id
    (9, b"\xdf"),
    (9, b"\xf0"),
    // '10'
    (12, b"\x40"),
    (12, b"\xc0"),
    // PTS_DTS_flags
    (13, b"\x00"),
    (13, b"\x7f"),
    // PES_header_data_length
    (14, b"\x04"),
];

/// Refuses the first of some bytes with which the key frame brings another PTS.
fn bring(cases: &[(usize, &[u8])], wanted: Option<u64>) -> Result<(), Fail> {
    for (at, others) in cases {
        let (_, came) = brought(&key_frame_with(*at, others))?;
        if came != wanted {
            return Err(Fail::new(format_args!("{others:?} at {at}: {came:?}")));
        }
    }
    Ok(())
}

#[test]
fn bytes_that_are_not_looked_at() -> Result<(), Fail> {
    bring(&IGNORED, Some(540_000))
}

#[test]
fn packets_without_a_pts() -> Result<(), Fail> {
    bring(&FOREIGN, None)
}

/// The packet of the key frame with an adaptation field of this length, and as much of its payload as there is room for.
fn with_adaptation(len: u8) -> [u8; 188] {
    let mut bytes = filled(&[0x47, 0x41, 0x00, 0x30, len, 0x40], b"");
    write(&mut bytes, 5 + usize::from(len), &KEY_FRAME[6..]);
    bytes
}

#[test]
fn payload_of_thirteen_bytes(rt: HostRuntime) {
    let short = [
        brought(&with_adaptation(170)),
        brought(&with_adaptation(169)),
    ];
    assert_same(
        &rt,
        "payload of thirteen bytes",
        short,
        [Ok((13, None)), Ok((14, Some(540_000)))],
    );
}

/// A time and its epoch, or why there is none.
type Told = Result<(i64, u64), ClockFault>;

fn told(stamp: Result<Stamp, ClockFault>) -> Told {
    match stamp {
        Ok(stamp) => Ok((stamp.time, stamp.epoch)),
        Err(fault) => Err(fault),
    }
}

/// What a clock with a gap of ten seconds tells of three PTS values.
fn times(values: [u64; 3]) -> [Told; 3] {
    let mut clock = Clock::new(900_000);
    let [a, b, c] = values;
    [
        told(clock.push(a)),
        told(clock.push(b)),
        told(clock.push(c)),
    ]
}

/// Two PTS values, and what is told of them.
const PAIRS: [([u64; 2], [Told; 2]); 5] = [
    (
        [8_589_934_000, 539_408],
        [Ok((8_589_934_000, 0)), Ok((8_590_474_000, 0))],
    ),
    ([3_000, 0], [Ok((3_000, 0)), Ok((0, 0))]),
    ([0, 8_589_934_591], [Ok((0, 0)), Ok((-1, 0))]),
    ([0, 4_294_967_295], [Ok((0, 0)), Ok((4_294_967_295, 1))]),
    ([0, 4_294_967_296], [Ok((0, 0)), Ok((-4_294_967_296, 1))]),
];

#[test]
fn times_and_epochs_of_two(rt: HostRuntime) {
    for ([first, second], told) in &PAIRS {
        let [one, two, _] = times([*first, *second, *second]);
        assert_same(&rt, (second, first), [one, two], *told);
    }
}

#[test]
fn a_jump_of_more_than_the_gap(rt: HostRuntime) {
    assert_same(
        &rt,
        "a jump of more than the gap",
        times([0, 900_000, 1_800_001]),
        [Ok((0, 0)), Ok((900_000, 0)), Ok((1_800_001, 1))],
    );
}

#[test]
fn a_refused_value_leaves_the_clock(rt: HostRuntime) {
    assert_same(
        &rt,
        "a refused value leaves the clock",
        times([8_589_934_000, 8_589_934_592, 539_408]),
        [
            Ok((8_589_934_000, 0)),
            Err(ClockFault::Range),
            Ok((8_590_474_000, 0)),
        ],
    );
}
