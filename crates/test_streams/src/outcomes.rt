//! What comes of streams.

use crate::spools::hold;
use crate::stream_fixtures::Step::{Frame, Key, Pat, Pmt};
use crate::stream_fixtures::{Step, is_allowed, stream};
use cutter::{CutFault, CutSettings, Plan, cut_stream};
use std::alloc::Global;
use std::test::Fail;

/// Offset, length and start of I-frames.
type Frames = &'static [(u64, u64, u64)];

/// What is to come of a plan: how long it lasts, the places of its packets in the stream, and its I-frames.
pub(crate) enum Row {
    GoesOn(u64, &'static [usize], Frames),
    /// It is a discontinuity.
    Breaks(u64, &'static [usize], Frames),
}

/// A stream, its plans, and its fault.
pub(crate) struct Case {
    pub name: &'static str,
    pub settings: &'static CutSettings,
    pub steps: &'static [Step],
    pub rows: &'static [Row],
    pub fault: Option<CutFault>,
}

/// What a segment of one key frame in front has.
pub(crate) const FIRST: Frames = &[(0, 188, 0)];

/// Two segments of two packets.
pub(crate) const FOUR: &[Step] = &[
    Pat,
    Pmt,
    Key(0),
    Frame(270_000),
    Key(540_000),
    Frame(810_000),
];

/// Appends the plans of a stream, and tells its fault.
pub(crate) fn cut(
    alloc: Global,
    settings: CutSettings,
    packets: &[[u8; 188]],
    out: &mut Vec<Plan>,
) -> Option<CutFault> {
    if !is_allowed(settings) {
        return Some(CutFault::Ended);
    }
    cut_stream(alloc, 0, settings, packets, out).err()
}

/// Whether bytes are those of the packets at these places.
fn is_body(body: &[u8], packets: &[[u8; 188]], places: &[usize]) -> bool {
    let (bodies, rest) = body.as_chunks::<188>();
    for (packet, place) in bodies.iter().zip(places) {
        if packets.get(*place) != Some(packet) {
            return false;
        }
    }
    rest.is_empty() && bodies.len() == places.len()
}

/// Whether I-frames are at these offsets, lengths and starts.
fn are_frames(plan: &Plan, frames: &[(u64, u64, u64)]) -> bool {
    for (frame, wanted) in plan.frames.iter().zip(frames) {
        if (frame.offset, frame.len, frame.start) != *wanted {
            return false;
        }
    }
    plan.frames.len() == frames.len()
}

/// Whether a plan is that of a row with this number.
fn is_row(plan: &Plan, number: usize, row: &Row, packets: &[[u8; 188]]) -> bool {
    if plan.number != number as u64 || usize::from(plan.pat_counter) != number % 16 {
        return false;
    }
    let (discontinuity, ticks, body, frames) = match row {
        Row::GoesOn(ticks, body, frames) => (false, *ticks, *body, *frames),
        Row::Breaks(ticks, body, frames) => (true, *ticks, *body, *frames),
    };
    if plan.ticks != ticks || plan.discontinuity != discontinuity {
        return false;
    }
    are_frames(plan, frames) && is_body(&plan.body, packets, body)
}

/// Whether plans are those of the rows.
fn are_rows(plans: &[Plan], rows: &[Row], packets: &[[u8; 188]]) -> bool {
    if plans.len() != rows.len() {
        return false;
    }
    for number in 0..plans.len() {
        if !is_row(&plans[number], number, &rows[number], packets) {
            return false;
        }
    }
    true
}

/// Refuses a stream of which something else comes, through spools too.
fn comes(
    alloc: Global,
    case: &Case,
    packets: &[[u8; 188]],
    plans: &mut Vec<Plan>,
) -> Result<(), Fail> {
    let fault = cut(alloc, *case.settings, packets, plans);
    if fault != case.fault || !are_rows(plans, case.rows, packets) {
        return Err(Fail::new(format_args!("{}: {plans:?}, {fault:?}", case.name)));
    }
    if hold(alloc, *case.settings, packets, plans, fault)? {
        return Ok(());
    }
    Err(Fail::new(format_args!("{}: other plans in spools", case.name)))
}

/// Refuses the first stream of which something else comes.
pub(crate) fn come(alloc: Global, cases: &[Case]) -> Result<(), Fail> {
    for case in cases {
        let packets = stream(alloc, case.steps)?;
        let mut plans = Vec::new(alloc);
        let end = comes(alloc, case, &packets, &mut plans);
        drop(plans);
        end?;
    }
    Ok(())
}
