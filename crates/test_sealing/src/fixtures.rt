//! Streams, plans and keys for tests.

use crate::asserts::assert_same;
use crate::told::{Name, name};
use cutter::{Lent, Plan, cut_stream};
use fixture_standard_stream::{
    FRAME, KEY_FRAME, LAST_FRAME, PAT, PMT, SECOND_KEY_FRAME, SETTINGS, STREAM, filled,
};
use flow_core::Collector;
use segment_job::Keys;
use std::alloc::{AllocError, Global};
use std::process::Abort;
use std::test::Fail;

/// Program 1, H.264 on PID 0x100 with the PCR and AAC on PID 0x101, in the packet behind that of the standard stream.
const PMT_WITH_SOUND: &[u8] =
    b"\x47\x50\x00\x11\x00\x02\xb0\x17\x00\x01\xc1\x00\x00\xe1\x00\xf0\x00\x1b\xe1\x00\xf0\x00\x0f\xe1\x01\xf0\x00\x2f\x44\xb9\x9b";

/// A key frame at 300,000 ticks.
const EARLY_KEY_FRAME: &[u8] =
    b"\x47\x41\x00\x32\x01\x40\x00\x00\x01\xe0\x00\x00\x80\x80\x05\x21\x00\x13\x27\xc1";

/// The standard stream without the frame between its key frames.
const OTHER_STREAM: [&[u8]; 5] = [PAT, PMT, KEY_FRAME, SECOND_KEY_FRAME, LAST_FRAME];

/// A stream of two segments, the second of which has sound.
pub(crate) const NEW_TABLES: [&[u8]; 6] = [
    PAT,
    PMT,
    KEY_FRAME,
    FRAME,
    PMT_WITH_SOUND,
    EARLY_KEY_FRAME,
];

/// Packets that begin with these bytes.
fn packets_of(alloc: Global, stream: &[&[u8]]) -> Result<Vec<[u8; 188]>, AllocError> {
    let mut packets = Vec::new(alloc);
    for begin in stream {
        packets.push(filled(begin, &[]))?;
    }
    Ok(packets)
}

/// Appends the plans of a rendition's stream.
fn append_plans(
    alloc: Global,
    rendition: usize,
    stream: &[&[u8]],
    plans: &mut Vec<Plan>,
) -> Result<(), Fail> {
    let packets = packets_of(alloc, stream)?;
    Ok(cut_stream(alloc, rendition, SETTINGS, &packets, plans)?)
}

/// The plans of a stream.
pub(crate) fn plans_of(alloc: Global, stream: &[&[u8]]) -> Result<Vec<Plan>, Fail> {
    let mut plans = Vec::new(alloc);
    append_plans(alloc, 0, stream, &mut plans)?;
    Ok(plans)
}

/// Plans, and keys under which their segments are right or wrong.
#[derive(Drop)]
pub(crate) struct Things {
    pub(crate) alloc: Global,
    /// Two of the standard stream as rendition 0, two of it as rendition 1, and those of another stream as rendition 0.
    pub(crate) plans: Vec<Plan>,
    /// The key of bytes 7.
    pub(crate) right: Keys,
    /// The key of bytes 8.
    pub(crate) wrong: Keys,
}

/// The place of the other stream's first plan.
pub(crate) const OTHER: usize = 4;

impl Things {
    pub(crate) fn new(alloc: Global) -> Result<Things, Fail> {
        let mut things = Things {
            alloc,
            plans: Vec::new(alloc),
            right: key_of(alloc, 7)?,
            wrong: key_of(alloc, 8)?,
        };
        things.fill()?;
        Ok(things)
    }

    fn fill(&mut self) -> Result<(), Fail> {
        append_plans(self.alloc, 0, &STREAM, &mut self.plans)?;
        append_plans(self.alloc, 1, &STREAM, &mut self.plans)?;
        append_plans(self.alloc, 0, &OTHER_STREAM, &mut self.plans)
    }
}

/// One key of sixteen such bytes.
pub(crate) fn key_of(alloc: Global, byte: u8) -> Result<Keys, Fail> {
    Ok(Keys::new(Vec::from_array(alloc, [[byte; 16]])?, 1)?)
}

/// The keys of so many renditions: all have the key of bytes 7.
pub(crate) fn keys_of(alloc: Global, renditions: usize) -> Result<Vec<Keys>, Fail> {
    let mut keys = Vec::new(alloc);
    for _ in 0..renditions {
        keys.reserve(1)?;
        keys.push_reserved(key_of(alloc, 7)?);
    }
    Ok(keys)
}

/// Whether these are the plans that a collector misses.
pub(crate) fn misses(collector: &Collector<'_>, names: &[Name]) -> Result<bool, AllocError> {
    let missing = collector.missing()?;
    Ok(are_named(&missing, names))
}

fn are_named(plans: &[Lent<'_>], names: &[Name]) -> bool {
    if plans.len() != names.len() {
        return false;
    }
    for at in 0..names.len() {
        if name(plans[at].plan()) != names[at] {
            return false;
        }
    }
    true
}

/// Stops a test where other bytes came than are wanted.
pub(crate) fn same(rt: &impl Abort, what: &str, came: &[u8], wanted: &[u8]) {
    assert_same(rt, what, came, wanted);
}
