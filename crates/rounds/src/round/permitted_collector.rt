//! What a round collects: nothing that wasn't let through, of its own plans.

ghost use Rattle.std.specs.Prelude.{◌≡◌, ◌<◌, ◌≤◌, IfErr, IfNone, IfSome, OnErr, OnOk, OnSome, Decides, [], Some, length, slice_get};
ghost use Rattle.cutter.specs.Lent.{lent};
ghost use Rattle.flow_core.specs.Gatherings.{awaited, missing_in, sequence_at, with_sequence};
ghost use Rattle.flow_core.specs.Sequences.{GivesBack, IsRight, Lacks, following, passed, with_plan, with_segment};
ghost use Rattle.flow_core.specs.Slots.{leading};
ghost use Rattle.segment_job.specs.Segments.{sealed_segment};
ghost use Rattle.limits.specs.declared.TheConstants.{LAST_SEGMENT};
ghost use Rattle.rounds.specs.Permitted.{HoldsPermitted, HoldsPlanned};
ghost use Rattle.work_desk.specs.Permits.{AreKnownByNumber};

use cutter::PlanRef;
use flow_core::{CollectFault, Collected, Collector};
use segment_job::Sealed;
use std::marker::{Model, PhantomData};
use work_desk::Permit;

/// A collector. Each plan that it expects may be fed, and each segment that it holds may be sealed. A plan that may be fed is known by
/// its rendition and its number, so a segment is right without a look at the bytes of its plan.
#[derive(Drop)]
pub struct PermittedCollector<'s, P: Permit> {
    inner: Collector<'s>,
    of: PhantomData<P>,
}

impl<'s, P: Permit> Model for PermittedCollector<'s, P> {
    ghost use Rattle.flow_core.specs.Gatherings.{Gathering};
    ghost use Rattle.rounds.specs.Permitted.{HoldsPermitted, HoldsPlanned};
    ghost use Rattle.work_desk.specs.Permits.{AreKnownByNumber};

    ghost Value = { Gathering };

    ghost view = { λ c. c.inner };

    ghost invariant = { λ c. HoldsPermitted P.permits c.inner.sequences × HoldsPlanned P.plans c.inner.sequences × AreKnownByNumber P.plans };
}

impl<'s, P: Permit> PermittedCollector<'s, P> {
    /// A collector that holds no other segment, and expects no other plan.
    pub fn over(collector: Collector<'s>) -> PermittedCollector<'s, P>
        requires permitted { HoldsPermitted P.permits collector.sequences }
        requires planned { HoldsPlanned P.plans collector.sequences }
        requires known { AreKnownByNumber P.plans }
        ensures { result ≡ collector.entry }
    {
        PermittedCollector {
            inner: collector,
            of: PhantomData,
        }
    }

    /// Whether one more plan may be expected.
    pub fn room(&self) -> bool
        ensures { Decides result (awaited self.now.sequences < self.now.most) }
    {
        self.inner.room()
    }

    /// How many plans are expected that weren't handed out.
    pub fn awaited(&self) -> usize
        ensures { result ≡ awaited self.now.sequences }
    {
        self.inner.awaited()
    }

    /// The first plan that is expected and for which no right segment came, if there is any.
    pub fn first_missing(&self) -> Option<PlanRef<'s>>
        ensures planned { IfSome result (λ plan. P.plans (lent plan)) }
        ensures some { IfSome result (λ plan. Lacks (sequence_at self.now plan.rendition) (lent plan)) }
        ensures first { IfSome result (λ plan. slice_get (missing_in self.now.sequences) 0 ≡ Some (lent plan)) }
        ensures none { IfNone result (missing_in self.now.sequences ≡ []) }
    {
        self.inner.first_missing()
    }

    /// Expects a plan that may be fed, as the collector does.
    pub fn expect(&mut self, plan: PlanRef<'s>) -> Result<(), PlanRef<'s>>
        requires planned { P.plans (lent plan) }
        requires room { awaited self.old.sequences < self.old.most }
        requires rendition { plan.rendition < length self.old.sequences }
        requires number { plan.number ≡ following (sequence_at self.old plan.rendition) }
        requires low { plan.number ≤ LAST_SEGMENT }
        ensures ok { OnOk result (self.new ≡ with_sequence self.old plan.entry.rendition
            (with_plan (sequence_at self.old plan.entry.rendition) (lent plan.entry))) }
        ensures err { OnErr result (self.new ≡ self.old) }
    {
        self.inner.expect(plan)
    }

    /// Takes a segment that may be sealed, of a plan that may be fed, if it is right, as the collector does.
    pub fn collect(&mut self, segment: Sealed<'s>) -> Result<Collected, CollectFault<'s>>
        requires permitted { P.permits segment.plan.rendition segment.plan.number }
        requires planned { P.plans segment.plan }
        ensures right { OnOk result (IsRight (sequence_at self.old segment.entry.plan.rendition) segment.entry) }
        ensures ok { OnOk result (self.new ≡ with_sequence self.old segment.entry.plan.rendition
            (with_segment (sequence_at self.old segment.entry.plan.rendition) segment.entry)) }
        ensures err { OnErr result (self.new ≡ self.old) }
        ensures fault { IfErr result (GivesBack (sequence_at self.old segment.entry.plan.rendition) segment.entry) }
    {
        self.inner.collect_known(segment)
    }

    /// Hands out the lowest segment of a rendition that wasn't handed out, where it came. It may be sealed.
    pub fn next(&mut self, rendition: usize) -> Option<Sealed<'s>>
        ensures permitted { IfSome result (λ segment. P.permits segment.plan.rendition segment.plan.number) }
        ensures first { IfSome result (λ segment. slice_get (sequence_at self.old rendition).slots 0
            ≡ Some (record { plan = segment.plan; segment = Some segment })) }
        ensures sealed { IfSome result (λ segment. segment ≡ sealed_segment (sequence_at self.old rendition).keys segment.plan) }
        ensures number { IfSome result (λ segment. (segment.plan.rendition ≡ rendition) × (segment.plan.number ≡ (sequence_at self.old rendition).next)) }
        ensures some { OnSome result (self.new ≡ with_sequence self.old rendition (passed (sequence_at self.old rendition))) }
        ensures none { IfNone result ((self.new ≡ self.old) × (leading (sequence_at self.old rendition).slots ≡ 0)) }
    {
        self.inner.next(rendition)
    }
}
