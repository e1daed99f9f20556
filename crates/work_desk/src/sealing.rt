//! What becomes of the plans that a worker claimed.

ghost use Rattle.std.specs.Prelude.{◌≡◌, IfErr, IfNone, IfOk, IfSome, true};
ghost use Rattle.cutter.specs.Lent.{lent};
ghost use Rattle.segment_job.specs.Segments.{sealed_from, unsealed_segment};
ghost use Rattle.flow_core.specs.declared.outcome.Outcome.TheVariants.{Refused, Sealed as IsSealed};
ghost use Rattle.flow_core.specs.Lists.{In};
ghost use Rattle.flow_core.specs.Queues.{IsOwnOutcome};
ghost use Rattle.flow_core.specs.Steps.{Delivers};
ghost use Rattle.work_desk.specs.Permits.{AreKnownByNumber, IsPermitted, LetsOnly};
ghost use Rattle.work_desk.specs.Readiness.{IsFinished, segment_in};
ghost use Rattle.work_desk.specs.Works.{IsAnswer, IsBegun, IsTurnedAway, outcome_of};

use crate::desk::Job;
use crate::gate::{Gate, Permit};
use crate::permitted::PermittedQueue;
use crate::ready::{Ready, seal_all, seal_both};
use crate::shelf::Shelf;
use crate::steps::deliver;
use cutter::PlanRef;
use flow_core::{Claim, Outcome};
use folder::WriteFile;
use segment_job::{Keys, Outgoing, Sealed, Unsealed};
use std::alloc::{AllocError, Global};
use std::marker::PhantomData;
use std::sync::Wait;
use std::sync::ledger::Ledger;

/// A claimed plan whose segment is to be sealed.
pub(crate) struct Begun<'s, F: WriteFile> {
    claim: Claim<'s>,
    segment: Ready<'s, F>,
    pub ghost own: { (segment_in segment).plan ≡ claim.plan },
}

impl<'s, F: WriteFile> Begun<'s, F> {
    /// The claim and the segment.
    fn into_parts(self) -> (Claim<'s>, Ready<'s, F>)
        ensures claim { result.0 ≡ self.entry.claim }
        ensures segment { result.1 ≡ self.entry.segment }
        ensures own { (segment_in result.1).plan ≡ result.0.plan }
    {
        let Begun { claim, segment } = self;
        (claim, segment)
    }
}

/// A claimed plan, and what became of it. Nobody can take the two apart: all that can be done with it is to deliver it.
pub(crate) struct Worked<'s> {
    claim: Claim<'s>,
    outcome: Outcome<'s>,
}

impl<'s> Worked<'s> {
    /// A claimed plan whose segment was sealed; Refused where its file couldn't be written.
    fn sealed(claim: Claim<'s>, segment: Option<Sealed<'s>>) -> Worked<'s>
        ensures claim { result.claim ≡ claim.entry }
        ensures sealed { IfSome segment.entry (λ it. result.outcome ≡ IsSealed it) }
        ensures refused { IfNone segment.entry (result.outcome ≡ Refused) }
    {
        let outcome = match segment {
            Some(segment) => Outcome::Sealed(segment),
            None => Outcome::Refused,
        };
        Worked { claim, outcome }
    }

    /// Delivers it. Nothing changes where nobody has that claim at this queue, which may be known by its plan's rendition and number.
    pub(crate) fn deliver_to<L: Ledger, M: Ledger, P: Permit>(
        self,
        queue: &mut PermittedQueue<'s, L, M, P>,
        known: bool,
    )
        requires own { IsOwnOutcome self.claim.plan self.outcome }
        requires permitted { IsPermitted P.permits self.outcome }
        requires known { known ≡ true → AreKnownByNumber P.plans × P.plans self.claim.plan }
        ensures yes { In self.entry.claim queue.old.claimed → Delivers queue.old self.entry.claim self.entry.outcome queue.new }
        ensures no { (In self.entry.claim queue.old.claimed → ⊥) → queue.new ≡ queue.old }
    {
        let Worked { claim, outcome } = self;
        deliver(queue, claim, outcome, known);
    }
}

/// Why a claimed plan isn't sealed.
#[derive(Clone, Copy, Debug, PartialEq, Eq)]
pub(crate) enum Why {
    /// The gate doesn't let it through.
    Held,
    /// Its rendition has no keys.
    NoKeys,
    /// There is no memory for its segment.
    NoMemory,
}

/// A claimed plan that isn't sealed, and why.
pub(crate) struct TurnedAway<'s> {
    claim: Claim<'s>,
    why: Why,
}

impl<'s> TurnedAway<'s> {
    /// What is handed in: Held, or Refused.
    pub(crate) fn into_worked(self) -> Worked<'s>
        ensures claim { result.claim ≡ self.entry.claim }
        ensures outcome { result.outcome ≡ outcome_of self.entry.why }
        ensures own { IsOwnOutcome self.entry.claim.plan result.outcome }
    {
        let TurnedAway { claim, why } = self;
        let outcome = match why {
            Why::Held => Outcome::Held,
            Why::NoKeys | Why::NoMemory => Outcome::Refused,
        };
        Worked { claim, outcome }
    }
}

/// What the gate answered about a claimed plan. Nobody makes one without asking, and a worker needs one to claim another plan.
#[derive(Drop)]
pub(crate) struct Asked {
    passes: bool,
}

impl Asked {
    /// Asks a gate whether the segment of a plan may be sealed.
    fn about<G: Gate>(gate: &G, plan: PlanRef<'_>) -> Asked
        ensures { IsAnswer (G.lets gate.now) (G.stops gate.now) (lent plan.entry) result }
    {
        Asked {
            passes: gate.pass(plan.rendition, plan.number),
        }
    }
}

/// What a worker has to seal with: the keys of each rendition, by its number, and the gate that it asks.
#[derive(Drop)]
pub(crate) struct Means<'k, G, P: Permit> {
    alloc: Global,
    keys: &'k [Keys],
    gate: &'k G,
    of: PhantomData<P>,
}

impl<'k, G: Gate, P: Permit> Means<'k, G, P> {
    /// The right keys, and a gate that lets through only what may be sealed.
    pub(crate) fn new(alloc: Global, keys: &'k [Keys], gate: &'k G) -> Means<'k, G, P>
        requires only { LetsOnly (G.lets gate.now) P.permits }
        requires keys { P.keys keys.now }
        ensures keys { result.keys.now ≡ keys.entry.now }
        ensures gate { result.gate.now ≡ gate.entry.now }
    {
        Means {
            alloc,
            keys,
            gate,
            of: PhantomData,
        }
    }

    /// Asks the gate about a claimed plan, and makes its segment ready to be sealed, into a file of the gate's or in a buffer from the
    /// shelf. Where that can't be, says why. Either way with the gate's answer.
    pub(crate) fn begin<'s, R: Wait>(
        &self,
        rt: &R,
        shelf: &Shelf,
        job: Job<'s>,
    ) -> (Asked, Result<Begun<'s, G::File>, TurnedAway<'s>>)
        ensures asked { IsAnswer (G.lets self.now.gate.now) (G.stops self.now.gate.now) job.entry.claim.plan result.0 }
        ensures claim { IfOk result.1 (λ begun. begun.claim ≡ job.entry.claim) }
        ensures begun { IfOk result.1 (λ begun. IsBegun (G.lets self.now.gate.now) self.now.keys.now job.entry.claim.plan
            (segment_in begun.segment)) }
        ensures same { IfErr result.1 (λ away. away.claim ≡ job.entry.claim) }
        ensures away { IfErr result.1 (λ away. IsTurnedAway (G.lets self.now.gate.now) (G.stops self.now.gate.now) self.now.keys.now
            job.entry.claim.plan away.why) }
    {
        let claim = job.into_claim();
        let asked = Asked::about(self.gate, claim.plan());
        let made = match self.ready(rt, shelf, claim.plan(), &asked) {
            Ok(segment) => Ok(Begun { claim, segment }),
            Err(why) => Err(TurnedAway { claim, why }),
        };
        (asked, made)
    }

    /// The segment of a plan about which the gate was asked, ready to be sealed; or why it can't be.
    fn ready<'s, R: Wait>(
        &self,
        rt: &R,
        shelf: &Shelf,
        plan: PlanRef<'s>,
        asked: &Asked,
    ) -> Result<Ready<'s, G::File>, Why>
        requires { IsAnswer (G.lets self.now.gate.now) (G.stops self.now.gate.now) (lent plan) asked.now }
        ensures ok { IfOk result (λ ready. IsBegun (G.lets self.now.gate.now) self.now.keys.now (lent plan.entry) (segment_in ready)) }
        ensures err { IfErr result (IsTurnedAway (G.lets self.now.gate.now) (G.stops self.now.gate.now) self.now.keys.now (lent plan.entry)) }
    {
        if !asked.passes {
            return Err(Why::Held);
        }
        let Some(own) = self.keys.get(plan.rendition) else {
            return Err(Why::NoKeys);
        };
        match self.ready_by(rt, shelf, plan, own) {
            Ok(ready) => Ok(ready),
            Err(_) => Err(Why::NoMemory),
        }
    }

    /// The segment of a plan under the keys of its rendition, ready to be sealed.
    fn ready_by<'s, R: Wait>(
        &self,
        rt: &R,
        shelf: &Shelf,
        plan: PlanRef<'s>,
        keys: &Keys,
    ) -> Result<Ready<'s, G::File>, AllocError>
        ensures { IfOk result (λ ready. segment_in ready ≡ unsealed_segment keys.now (lent plan.entry)) }
    {
        if let Some(file) = self.gate.file(plan.rendition, plan.number) {
            let segment = Outgoing::of(self.alloc, plan, keys, file)?;
            return Ok(Ready::IntoFile(segment));
        }
        let buffer = shelf.take(rt, plan.body.len());
        let segment = Unsealed::within(self.alloc, plan, keys, buffer)?;
        Ok(Ready::InMemory(segment))
    }
}

/// Seals the segment of a claimed plan.
pub(crate) fn finish_one<'s, F: WriteFile>(begun: Begun<'s, F>) -> Worked<'s>
    ensures claim { result.claim ≡ begun.entry.claim }
    ensures finished { IsFinished (sealed_from (segment_in begun.entry.segment)) result.outcome }
    ensures own { IsOwnOutcome begun.entry.claim.plan result.outcome }
{
    let (claim, segment) = begun.into_parts();
    Worked::sealed(claim, segment.seal())
}

/// Seals the segments of two claimed plans side by side.
pub(crate) fn finish_two<'s, F: WriteFile>(
    first: Begun<'s, F>,
    second: Begun<'s, F>,
) -> (Worked<'s>, Worked<'s>)
    ensures first_claim { result.0.claim ≡ first.entry.claim }
    ensures first { IsFinished (sealed_from (segment_in first.entry.segment)) result.0.outcome }
    ensures first_own { IsOwnOutcome first.entry.claim.plan result.0.outcome }
    ensures second_claim { result.1.claim ≡ second.entry.claim }
    ensures second { IsFinished (sealed_from (segment_in second.entry.segment)) result.1.outcome }
    ensures second_own { IsOwnOutcome second.entry.claim.plan result.1.outcome }
{
    let (first_claim, first) = first.into_parts();
    let (second_claim, second) = second.into_parts();
    let (one, two) = seal_both(first, second);
    (
        Worked::sealed(first_claim, one),
        Worked::sealed(second_claim, two),
    )
}

/// Seals the segments of four claimed plans side by side.
pub(crate) fn finish_four<'s, F: WriteFile>(
    first: Begun<'s, F>,
    second: Begun<'s, F>,
    third: Begun<'s, F>,
    fourth: Begun<'s, F>,
) -> (Worked<'s>, Worked<'s>, Worked<'s>, Worked<'s>)
    ensures first_claim { result.0.claim ≡ first.entry.claim }
    ensures first { IsFinished (sealed_from (segment_in first.entry.segment)) result.0.outcome }
    ensures first_own { IsOwnOutcome first.entry.claim.plan result.0.outcome }
    ensures second_claim { result.1.claim ≡ second.entry.claim }
    ensures second { IsFinished (sealed_from (segment_in second.entry.segment)) result.1.outcome }
    ensures second_own { IsOwnOutcome second.entry.claim.plan result.1.outcome }
    ensures third_claim { result.2.claim ≡ third.entry.claim }
    ensures third { IsFinished (sealed_from (segment_in third.entry.segment)) result.2.outcome }
    ensures third_own { IsOwnOutcome third.entry.claim.plan result.2.outcome }
    ensures fourth_claim { result.3.claim ≡ fourth.entry.claim }
    ensures fourth { IsFinished (sealed_from (segment_in fourth.entry.segment)) result.3.outcome }
    ensures fourth_own { IsOwnOutcome fourth.entry.claim.plan result.3.outcome }
{
    let (first_claim, first) = first.into_parts();
    let (second_claim, second) = second.into_parts();
    let (third_claim, third) = third.into_parts();
    let (fourth_claim, fourth) = fourth.into_parts();
    let (one, two, three, four) = seal_all(first, second, third, fourth);
    (
        Worked::sealed(first_claim, one),
        Worked::sealed(second_claim, two),
        Worked::sealed(third_claim, three),
        Worked::sealed(fourth_claim, four),
    )
}
