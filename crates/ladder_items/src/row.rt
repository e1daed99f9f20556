ghost use Rattle.std.specs.Prelude.{OnErr, ◌≡◌, ◌+◌, ◌*◌, ◌<◌, ◌≤◌, ◌^◌, All, length, drop, IfOk};
ghost use Rattle.cutter.specs.Ordered.{IsInside, end_before};
ghost use Rattle.playlist_text.specs.Numbers;
ghost use Rattle.segment_job.specs.Rotation.{number_of};
ghost use Rattle.ladder_items.specs.Rows.{frame_row};
ghost use Rattle.ladder_items.specs.Rows;

use cutter::{Frame, PlanRef};
use media_playlist::{FrameRow, Row};
use playlist_text::micros;
use segment_job::{Keys, Sealed};
use std::alloc::{AllocError, Global};

/// The row of a sealed segment in its playlists. Its I-frames lie within its body and its time, which are small.
#[tactic(auto, unfolding(crate::specs::Rows::row_of))]
pub fn row_of(alloc: Global, sealed: &Sealed<'_>, keys: &Keys) -> Result<Row, AllocError>
    requires number { number_of keys.now sealed.now.plan.number < 2 ^ 64 }
    requires short { sealed.now.plan.ticks < 2 ^ 45 }
    requires small { length sealed.now.plan.body < 2 ^ 31 }
    requires inside { All (IsInside (length sealed.now.plan.body) sealed.now.plan.ticks) sealed.now.plan.frames }
    ensures row { IfOk result (λ row. row ≡ Rows.row_of keys.now sealed.now) }
    ensures size { length sealed.now.bytes < 2 ^ 32 }
    ensures scarce { OnErr result (0 < length sealed.now.plan.frames) }
{
    segment_job::key_and_vector_make_one_segment();
    let plan = sealed.plan();
    Ok(Row {
        number: keys.number(plan.number) as u64,
        size: sealed.size(),
        micros: whole_micros(plan.ticks),
        key: keys.index(plan.number),
        discontinuity: plan.discontinuity || (plan.number == 0 && keys.number(0) > 0),
        frames: frame_rows(alloc, sealed.head_len(), plan)?,
    })
}

/// The I-frames of a segment behind a head of so many bytes.
fn frame_rows(alloc: Global, head: u64, plan: PlanRef<'_>) -> Result<Vec<FrameRow>, AllocError>
    requires head { head < 2 ^ 32 }
    requires short { plan.ticks < 2 ^ 45 }
    requires small { length plan.body.now < 2 ^ 32 }
    requires inside { All (IsInside (length plan.body.now) plan.ticks) plan.frames.now }
    ensures ok { IfOk result (λ rows. rows.items ≡ Rows.frame_rows head plan.entry.ticks plan.entry.frames.now) }
    ensures scarce { OnErr result (0 < length plan.entry.frames.now) }
{
    let frames = plan.frames;
    let mut rows = Vec::new(alloc);
    for i in 0..frames.len() {
        let end = end_of(plan.ticks, frames, i);
        rows.push(frame_row(head, frames[i], end))?;
    }
    Ok(rows)
}

/// Where the time of I-frame `i` ends: at the start of the next one, or with the segment.
fn end_of(ticks: u64, frames: &[Frame], i: usize) -> u64
    requires { i < length frames.now }
    ensures { result ≡ end_before ticks (drop (i + 1) frames.now) }
{
    match frames.get(i + 1) {
        Some(next) => next.start,
        None => ticks,
    }
}

fn frame_row(head: u64, frame: Frame, end: u64) -> FrameRow
    requires head { head < 2 ^ 32 }
    requires offset { frame.offset < 2 ^ 32 }
    requires start { frame.start < 2 ^ 45 }
    requires end { end < 2 ^ 45 }
    ensures { result ≡ Rows.frame_row head frame end }
{
    FrameRow {
        offset: head + frame.offset,
        len: frame.len,
        micros: whole_micros(end).saturating_sub(whole_micros(frame.start)),
    }
}

/// Whole microseconds of ticks, to the nearest.
fn whole_micros(ticks: u64) -> u64
    requires { ticks < 2 ^ 45 }
    ensures { result ≡ Numbers.micros ticks }
{
    micros(ticks) as u64
}
