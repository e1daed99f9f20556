ghost use Rattle.std.specs.Prelude.{◌≡◌, Decides};
ghost use Rattle.cutter.specs.Lent.{lent};

use crate::plan::{Frame, Plan, same_bytes, same_frames};
use psi_tables::Tables;
use std::marker::Model;

/// A plan whose tables, body and I-frames are borrowed, as those of a spool are. Its fields are a `Plan`'s, and clauses see
/// it as the plan of the same values, by `lent`.
#[derive(Clone, Copy)]
pub struct PlanRef<'s> {
    pub rendition: usize,
    pub number: u64,
    pub tables: &'s Tables,
    pub pat_counter: u8,
    pub pmt_counter: u8,
    pub body: &'s [u8],
    pub frames: &'s [Frame],
    pub ticks: u64,
    pub discontinuity: bool,
}

impl Plan {
    /// The plan, lent.
    pub fn lend(&self) -> PlanRef<'_>
        ensures { lent result ≡ self.now }
    {
        PlanRef {
            rendition: self.rendition,
            number: self.number,
            tables: &self.tables,
            pat_counter: self.pat_counter,
            pmt_counter: self.pmt_counter,
            body: &self.body,
            frames: &self.frames,
            ticks: self.ticks,
            discontinuity: self.discontinuity,
        }
    }
}

impl<'s> PlanRef<'s> {
    /// Whether two plans are the same: each number, the tables, each byte of the body and each I-frame.
    pub fn same(self, other: PlanRef<'_>) -> bool
        ensures { Decides result (lent self.entry ≡ lent other.entry) }
    {
        if self.rendition != other.rendition {
            return false;
        }
        if self.number != other.number {
            return false;
        }
        if self.pat_counter != other.pat_counter {
            return false;
        }
        if self.pmt_counter != other.pmt_counter {
            return false;
        }
        if self.ticks != other.ticks {
            return false;
        }
        if self.discontinuity != other.discontinuity {
            return false;
        }
        if !self.tables.same(other.tables) {
            return false;
        }
        if !same_bytes(self.body, other.body) {
            return false;
        }
        same_frames(self.frames, other.frames)
    }
}

/// A lent plan as a part of other values, a list's or a struct's, which clauses see as the plan.
#[derive(Drop)]
pub struct Lent<'s> {
    plan: PlanRef<'s>,
}

impl<'s> Model for Lent<'s> {
    ghost use Rattle.cutter.specs.Plans.{SegmentPlan};
    ghost use Rattle.cutter.specs.Lent.{lent};

    ghost Value = { SegmentPlan };

    ghost view = { λ l. lent l.plan };
}

impl<'s> Lent<'s> {
    /// A lent plan.
    pub fn of(plan: PlanRef<'s>) -> Lent<'s>
        ensures { result ≡ lent plan.entry }
    {
        Lent { plan }
    }

    /// The plan itself.
    pub fn plan(&self) -> PlanRef<'s>
        ensures { lent result ≡ self.now }
    {
        self.plan
    }
}
