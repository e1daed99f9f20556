//! The standard stream: two segments of six seconds. It is for tests, and for programs that are measured or that run where
//! memory is refused.
#![tactic(auto)]

use cutter::{CutSettings, Plan, cut_stream};
use segment_job::{Keys, Sealed, seal_plan};
use std::alloc::{AllocError, Global};

/// Program 1 with its PMT on PID 0x1000.
pub const PAT: &[u8] =
    b"\x47\x40\x00\x10\x00\x00\xb0\x0d\x00\x01\xc1\x00\x00\x00\x01\xf0\x00\x2a\xb1\x04\xb2";

/// H.264 on PID 0x100 with the PCR.
pub const PMT: &[u8] =
    b"\x47\x50\x00\x10\x00\x02\xb0\x12\x00\x01\xc1\x00\x00\xe1\x00\xf0\x00\x1b\xe1\x00\xf0\x00\x15\xbd\x4d\x56";

/// A key frame at 0 ticks.
pub const KEY_FRAME: &[u8] =
    b"\x47\x41\x00\x30\x01\x40\x00\x00\x01\xe0\x00\x00\x80\x80\x05\x21\x00\x01\x00\x01";

/// Another frame, at 270,000 ticks.
pub const FRAME: &[u8] =
    b"\x47\x41\x00\x11\x00\x00\x01\xe0\x00\x00\x80\x80\x05\x21\x00\x11\x3d\x61";

/// A key frame at 540,000 ticks.
pub const SECOND_KEY_FRAME: &[u8] =
    b"\x47\x41\x00\x32\x01\x40\x00\x00\x01\xe0\x00\x00\x80\x80\x05\x21\x00\x21\x7a\xc1";

/// Another frame, at 810,000 ticks.
pub const LAST_FRAME: &[u8] =
    b"\x47\x41\x00\x13\x00\x00\x01\xe0\x00\x00\x80\x80\x05\x21\x00\x31\xb8\x21";

/// What its packets begin with.
pub const STREAM: [&[u8]; 6] = [PAT, PMT, KEY_FRAME, FRAME, SECOND_KEY_FRAME, LAST_FRAME];

/// Segments of six seconds.
pub const SETTINGS: CutSettings = CutSettings {
    program: None,
    segment: 540_000,
    target: 6,
    gap: 900_000,
    frame: 3600,
    most: 1_000_000,
};

/// A packet that begins with these bytes, and others behind them, and ends in bytes FF.
pub fn filled(begin: &[u8], behind: &[u8]) -> [u8; 188] {
    let mut packet = [0xFF; 188];
    for (there, byte) in packet.iter_mut().zip(begin.iter().chain(behind)) {
        *there = *byte;
    }
    packet
}

/// Appends packets that begin with these bytes and end in bytes FF.
pub fn append_packets(out: &mut Vec<u8>, begins: &[&[u8]]) -> Result<(), AllocError> {
    for begin in begins {
        out.extend_from_slice(&filled(begin, &[]))?;
    }
    Ok(())
}

/// Its six packets; none where memory is refused.
pub fn packets(alloc: Global) -> Option<Vec<[u8; 188]>> {
    let mut packets = Vec::new(alloc);
    for begin in STREAM {
        packets.push(filled(begin, &[])).ok()?;
    }
    Some(packets)
}

/// The plans of its two segments; none where memory is refused.
pub fn plans(alloc: Global) -> Option<Vec<Plan>> {
    let packets = packets(alloc)?;
    let mut plans = Vec::new(alloc);
    cut_stream(alloc, 0, SETTINGS, &packets, &mut plans).ok()?;
    Some(plans)
}

/// One key for all segments; none where memory is refused.
pub fn key(alloc: Global) -> Option<Keys> {
    let mut bytes = Vec::new(alloc);
    bytes.push([7; 16]).ok()?;
    Keys::new(bytes, 1).ok()
}

/// The keys of its one rendition; none where memory is refused.
pub fn keys(alloc: Global) -> Option<Vec<Keys>> {
    let mut all = Vec::new(alloc);
    all.reserve(1).ok()?;
    all.push_reserved(key(alloc)?);
    Some(all)
}

/// The segment of a plan; none where memory is refused.
pub fn sealed(alloc: Global, plan: &Plan) -> Option<Sealed<'_>> {
    seal_plan(alloc, plan.lend(), &key(alloc)?).ok()
}
