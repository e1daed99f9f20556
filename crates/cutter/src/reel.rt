//! Plans that are closed, and the body that goes on behind them.

ghost use Rattle.std.specs.Prelude.{◌≡◌, ◌≤◌, ◌++◌, ◌∷◌, [], List, Some, None, IfSome, IfNone, IsOk, OnOk, OnErr, slice_get, slice_range, length, vec_capacity};
ghost use Rattle.cutter.specs.Plans.{SegmentPlan};
ghost use Rattle.cutter.specs.Lent.{lent};
ghost use Rattle.cutter.specs.Segments.{bytes_of, AddsNothing};
ghost use Rattle.cutter.specs.Framing.{framed, frames_by, no_frames, IsWithin};
ghost use Rattle.cutter.specs.Reels.{labelled, plan_in, unfilled};

use crate::framing::{Pending, end_frame, pending_from};
use crate::lent::PlanRef;
use crate::plan::{Frame, Plan};
use crate::point::Mark;
use crate::room::{NoRoom, append, push};
use pes_time::Stamp;
use psi_tables::Tables;
use std::alloc::Global;
use std::marker::Model;

/// All of a plan but its body and its I-frames.
#[derive(Drop)]
pub(crate) struct Label {
    pub rendition: usize,
    pub number: u64,
    pub tables: Tables,
    pub pat_counter: u8,
    pub pmt_counter: u8,
    pub ticks: u64,
    pub discontinuity: bool,
}

/// A closed plan, and where its body and its I-frames lie.
#[derive(Drop)]
pub(crate) struct PlanAt {
    label: Label,
    body_at: usize,
    body_end: usize,
    frames_at: usize,
    frames_end: usize,
}

/// The bodies of closed plans in one run of bytes, one behind the other, and behind them the body that goes on.
///
/// Clauses see the plans, and the body that goes on with its I-frames.
#[derive(Drop)]
pub(crate) struct Reel {
    bytes: Vec<u8>,
    frames: Vec<Frame>,
    plans_at: Vec<PlanAt>,
    body_at: usize,
    frames_at: usize,
    pending: Option<Pending>,
}

impl Model for Reel {
    ghost use Rattle.cutter.specs.Reels.{Filled};

    ghost Value = { Filled };

    ghost use Rattle.cutter.specs.Reels.{filled_by, IsLaid};

    ghost view = { filled_by };

    ghost invariant = { IsLaid };
}

impl Reel {
    /// A reel that holds nothing.
    pub(crate) fn new(alloc: Global) -> Reel
        ensures { result ≡ unfilled }
    {
        Reel {
            bytes: Vec::new(alloc),
            frames: Vec::new(alloc),
            plans_at: Vec::new(alloc),
            body_at: 0,
            frames_at: 0,
            pending: None,
        }
    }

    /// How many plans are closed.
    pub(crate) fn plans(&self) -> usize
        ensures { result ≡ length self.now.plans }
    {
        self.plans_at.len()
    }

    /// A closed plan, lent.
    pub(crate) fn plan(&self, i: usize) -> Option<PlanRef<'_>>
        ensures some { IfSome result (λ plan. slice_get self.now.plans i ≡ Some (lent plan)) }
        ensures none { IfNone result (length self.now.plans ≤ i) }
    {
        if i >= self.plans_at.len() {
            return None;
        }
        Some(lend_plan_at(&self.plans_at[i], &self.bytes, &self.frames))
    }

    /// The first plan, its body and its I-frames moved out. The rest is let go.
    pub(crate) fn into_first(self) -> Option<Plan>
        ensures { result ≡ slice_get self.plans 0 }
    {
        let Reel {
            mut bytes,
            mut frames,
            mut plans_at,
            ..
        } = self;
        plans_at.truncate(1);
        let Some(plan_at) = plans_at.pop() else {
            return None;
        };
        bytes.truncate(plan_at.body_end);
        frames.truncate(plan_at.frames_end);
        let PlanAt { label, .. } = plan_at;
        Some(Plan {
            rendition: label.rendition,
            number: label.number,
            tables: label.tables,
            pat_counter: label.pat_counter,
            pmt_counter: label.pmt_counter,
            body: bytes,
            frames,
            ticks: label.ticks,
            discontinuity: label.discontinuity,
        })
    }

    /// How many bytes the body that goes on has with one packet more.
    pub(crate) fn size_with(&self, mark: &Mark<'_>) -> u64
        ensures { result ≡ length (self.now.body ++ bytes_of mark.now) }
    {
        (self.bytes.len() - self.body_at + mark.bytes().len()) as u64
    }

    /// Takes one packet more into the body that goes on, of a segment that begins at this stamp.
    pub(crate) fn add(&mut self, head: Stamp, mark: &Mark<'_>) -> Result<(), NoRoom>
        ensures ok { OnOk result (self.new ≡ record self.old { body = self.old.body ++ bytes_of mark.now; framing = framed head self.old.framing mark.now }) }
        ensures err { OnErr result (self.new.plans ≡ self.old.plans) }
        ensures none { AddsNothing mark.now → IsOk result }
    {
        let offset = (self.bytes.len() - self.body_at) as u64;
        append(&mut self.bytes, mark.bytes())?;
        if mark.look.starts_video {
            let pending = self.pending;
            end_frame(&mut self.frames, pending, offset)?;
            self.pending = pending_from(head, offset, mark.counted);
        }
        Ok(())
    }

    /// Closes the body that goes on, and begins the next one with these bytes.
    pub(crate) fn close(
        &mut self,
        label: Label,
        next: &[u8],
        pending: Option<Pending>,
    ) -> Result<(), NoRoom>
        requires { IsWithin pending 0 }
        ensures ok { OnOk result (self.new ≡ record {
          plans = self.old.plans ++ labelled label self.old.body (frames_by self.old.framing) ∷ [];
          body = next.now;
          framing = record { ended = []; pending = pending; offset = length next.now };
        }) }
        ensures err { OnErr result (self.new.plans ≡ self.old.plans) }
    {
        let body_end = self.bytes.len();
        let offset = (body_end - self.body_at) as u64;
        append(&mut self.bytes, next)?;
        end_frame(&mut self.frames, self.pending, offset)?;
        let frames_end = self.frames.len();
        let plan_at = PlanAt {
            label,
            body_at: self.body_at,
            body_end,
            frames_at: self.frames_at,
            frames_end,
        };
        push(&mut self.plans_at, plan_at)?;
        self.body_at = body_end;
        self.frames_at = frames_end;
        self.pending = pending;
        Ok(())
    }

    /// Lets go of the last plan: its body goes on, with that behind it.
    pub(crate) fn reopen(&mut self)
        ensures plans { (plans : List SegmentPlan) (last : SegmentPlan) → self.old.plans ≡ plans ++ last ∷ [] → self.new.plans ≡ plans }
        ensures body { (plans : List SegmentPlan) (last : SegmentPlan) → self.old.plans ≡ plans ++ last ∷ []
            → self.new.body ≡ last.body ++ self.old.body }
        ensures frames { (plans : List SegmentPlan) (last : SegmentPlan) → self.old.plans ≡ plans ++ last ∷ []
            → self.new.framing.ended ≡ last.frames ++ self.old.framing.ended }

        // No I-frame goes on in it. Where there is no plan, it stays as it is.
        ensures pending { (plans : List SegmentPlan) (last : SegmentPlan) → self.old.plans ≡ plans ++ last ∷ [] → self.new.framing.pending ≡ None }
        ensures offset { self.new.framing.offset ≡ length self.new.body }
        ensures none { self.old.plans ≡ [] → self.new ≡ self.old }
    {
        let Some(plan_at) = self.plans_at.pop() else {
            return;
        };
        self.body_at = plan_at.body_at;
        self.frames_at = plan_at.frames_at;
        self.pending = None;
    }

    /// Lets go of all that it holds, but for its memory.
    pub(crate) fn clear(&mut self)
        ensures { self.new ≡ unfilled }
    {
        empty(&mut self.bytes, &mut self.frames, &mut self.plans_at);
        self.body_at = 0;
        self.frames_at = 0;
        self.pending = None;
    }

    /// Holds a copy of the body that goes on in another, and no plans.
    pub(crate) fn copy_open(&mut self, other: &Reel) -> Result<(), NoRoom>
        ensures ok { OnOk result (self.new ≡ record other.now { plans = [] }) }
        ensures none { other.now.body ≡ [] → other.now.framing.ended ≡ [] → IsOk result }
    {
        self.clear();
        let body = bytes_part(&other.bytes, other.body_at, other.bytes.len());
        append(&mut self.bytes, body)?;
        let frames = frames_part(&other.frames, other.frames_at, other.frames.len());
        append(&mut self.frames, frames)?;
        self.pending = other.pending;
        Ok(())
    }
}

/// Empties what a reel holds, and leaves each its memory.
fn empty(bytes: &mut Vec<u8>, frames: &mut Vec<Frame>, plans_at: &mut Vec<PlanAt>)
    ensures bytes { (bytes.new.items ≡ []) × (vec_capacity bytes.new ≡ vec_capacity bytes.old) }
    ensures frames { (frames.new.items ≡ []) × (vec_capacity frames.new ≡ vec_capacity frames.old) }
    ensures plans { (plans_at.new.items ≡ []) × (vec_capacity plans_at.new ≡ vec_capacity plans_at.old) }
{
    bytes.clear();
    frames.clear();
    plans_at.clear();
}

/// A closed plan, lent.
fn lend_plan_at<'s>(plan_at: &'s PlanAt, bytes: &'s [u8], frames: &'s [Frame]) -> PlanRef<'s>
    requires body { (plan_at.now.body_at ≤ plan_at.now.body_end) × (plan_at.now.body_end ≤ length bytes.now) }
    requires frames { (plan_at.now.frames_at ≤ plan_at.now.frames_end) × (plan_at.now.frames_end ≤ length frames.now) }
    ensures { lent result ≡ plan_in bytes.now frames.now plan_at.now }
{
    PlanRef {
        rendition: plan_at.label.rendition,
        number: plan_at.label.number,
        tables: &plan_at.label.tables,
        pat_counter: plan_at.label.pat_counter,
        pmt_counter: plan_at.label.pmt_counter,
        body: bytes_part(bytes, plan_at.body_at, plan_at.body_end),
        frames: frames_part(frames, plan_at.frames_at, plan_at.frames_end),
        ticks: plan_at.label.ticks,
        discontinuity: plan_at.label.discontinuity,
    }
}

fn bytes_part(bytes: &[u8], at: usize, end: usize) -> &[u8]
    requires { (at ≤ end) × (end ≤ length bytes.now) }
    ensures { result.now ≡ slice_range bytes.now at end }
{
    &bytes[at..end]
}

fn frames_part(frames: &[Frame], at: usize, end: usize) -> &[Frame]
    requires { (at ≤ end) × (end ≤ length frames.now) }
    ensures { result.now ≡ slice_range frames.now at end }
{
    &frames[at..end]
}
