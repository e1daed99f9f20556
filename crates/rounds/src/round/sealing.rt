//! Collects what is done at the desk, and seals on this thread what is missing.

ghost use Rattle.std.specs.Prelude.{◌≡◌, ◌<◌, ◌≤◌, ◌^◌, ◌+◌, [], true, false, IfErr, IfOk, OnErr, OnOk, length};
ghost use Rattle.cutter.specs.Lent.{lent};
ghost use Rattle.flow_core.specs.Gatherings.{sequence_at, missing_in};
ghost use Rattle.flow_core.specs.Sequences.{IsRight, Lacks};
ghost use Rattle.flow_core.specs.declared.outcome.Outcome.TheVariants.{Held as HeldBack};
ghost use Rattle.ladder_items.specs.declared.fault.PackFault.TheVariants.{Held, NoMemory};
ghost use Rattle.rounds.specs.Collected.{Collects, TakesIn};
ghost use Rattle.rounds.specs.Gated.{Follows, IsLeft, IsUnsealed, SealsOwn};
ghost use Rattle.rounds.specs.Rounds.{HasKeys, Keeps, gathered};
ghost use Rattle.work_desk.specs.Permits.{IsPermitted, IsPlanned, LetsOnly};

use crate::round::permitted_collector::PermittedCollector;
use crate::round::sealer::Sealer;
use cutter::PlanRef;
use flow_core::{Delivery, Fed, FeedFault, Obstacle, Outcome};
use ladder_items::{PackFault, Settings};
use segment_job::{Sealed, seal_plan};
use work_desk::{Gate, Permit, Seen};

/// Collects a sealed segment, and returns whether it was right.
#[tactic(auto, using(crate::proofs::Collecting::keeps_same))]
fn collect<'s, P: Permit>(collector: &mut PermittedCollector<'s, P>, sealed: Sealed<'s>) -> bool
    requires permitted { P.permits sealed.plan.rendition sealed.plan.number }
    requires planned { P.plans sealed.plan }
    ensures keeps { Keeps collector.old collector.new }
    ensures right { result ≡ true → gathered collector.new.sequences ≡ gathered collector.old.sequences + 1 }
    ensures wrong { result ≡ false → collector.new ≡ collector.old }
    ensures sure { IsRight (sequence_at collector.old sealed.entry.plan.rendition) sealed.entry → result ≡ true }
    ensures fewer { result ≡ true → length (missing_in collector.new.sequences) + 1 ≡ length (missing_in collector.old.sequences) }
    ensures collects { Collects collector.old sealed.entry collector.new }
{
    let Ok(_) = collector.collect(sealed) else {
        return false;
    };
    true
}

/// The receipt for what a desk handed out of a plan, and was taken in. Only [`take_in`] makes one.
#[derive(Drop)]
pub struct TakenIn {
    rendition: usize,
    number: u64,
}

/// Takes in what is done, and returns the receipt. A sealed segment that isn't right is thrown away, as is a refusal. Of a segment that a worker held back
/// the gate is asked again: where it stops that one, the run stops, and else this thread will seal it.
#[tactic(auto, using(crate::proofs::Collecting::keeps_same))]
pub fn take_in<'s, G: Gate, P: Permit>(
    gate: &G,
    collector: &mut PermittedCollector<'s, P>,
    done: Delivery<'s>,
    right: &mut u64,
    thrown: &mut u64,
) -> Result<TakenIn, PackFault>
    requires permitted { IsPermitted P.permits done.outcome }
    requires planned { IsPlanned P.plans done.outcome }
    requires few { right.old + thrown.old + 1 < 2 ^ 64 }
    ensures keeps { Keeps collector.old collector.new }
    ensures counted { right.new + thrown.new ≡ right.old + thrown.old + 1 }
    ensures fair { right.new + gathered collector.old.sequences ≡ right.old + gathered collector.new.sequences }
    ensures rest { length (missing_in collector.new.sequences) ≤ length (missing_in collector.old.sequences) }
    ensures taken { TakesIn done.entry.outcome collector.old collector.new }
    ensures of { IfOk result (λ took. (took.rendition ≡ done.entry.rendition) × (took.number ≡ done.entry.number)) }
    ensures held { OnErr result (done.entry.outcome ≡ HeldBack) }
    ensures unheld { OnOk result (done.entry.outcome ≡ HeldBack → G.lets gate.now done.entry.rendition done.entry.number) }
    ensures fault { IfErr result (λ fault. (fault ≡ Held done.entry.rendition done.entry.number) × G.stops gate.now done.entry.rendition done.entry.number) }
{
    let (rendition, number, outcome) = done.into_parts();
    let took = TakenIn { rendition, number };
    match outcome {
        Outcome::Sealed(sealed) => {
            if collect(collector, sealed) {
                *right += 1;
                return Ok(took);
            }
            *thrown += 1;
            Ok(took)
        }
        Outcome::Refused => {
            *thrown += 1;
            Ok(took)
        }
        Outcome::Held => {
            *thrown += 1;
            if gate.pass(rendition, number) {
                return Ok(took);
            }
            Err(PackFault::Held(rendition, number))
        }
    }
}

impl<'g, G: Gate> Sealer<'g, G> {
    /// Asks the gate about a plan, and seals it on this thread. If its sealed segment has come in the meantime, that one stays.
    #[tactic(auto, using(crate::proofs::Collecting::keeps_same))]
    pub fn seal_own<'s, P: Permit>(
        &self,
        settings: &Settings,
        plan: PlanRef<'s>,
        collector: &mut PermittedCollector<'s, P>,
    ) -> Result<(), PackFault>
        requires only { LetsOnly (G.lets self.now.gate.now) P.permits }
        requires planned { P.plans (lent plan) }
        requires keys { HasKeys settings.now collector.old }
        ensures keeps { Keeps collector.old collector.new }
        ensures more { gathered collector.old.sequences ≤ gathered collector.new.sequences }
        ensures ok { OnOk result (SealsOwn (G.lets self.now.gate.now) (lent plan.entry) collector.old collector.new) }
        ensures err { OnErr result (collector.new ≡ collector.old) }
        ensures fault { IfErr result (IsUnsealed (G.lets self.now.gate.now) (G.stops self.now.gate.now) (lent plan.entry)) }
        ensures within { IfErr result (λ fault. fault ≡ NoMemory → plan.entry.rendition < length settings.now.renditions) }
    {
        if !self.gate.pass(plan.rendition, plan.number) {
            return Err(PackFault::Held(plan.rendition, plan.number));
        }
        let Some(rendition) = settings.renditions.get(plan.rendition) else {
            return Ok(());
        };
        let sealed = seal_plan(self.alloc, plan, &rendition.keys)?;
        collect(collector, sealed);
        Ok(())
    }

    /// Does what the desk's answer to a plan asks for, and hands that answer on: a plan that the desk took is left to the workers; want
    /// of memory is told; and a plan that it refused is sealed on this thread.
    #[tactic(auto, using(crate::proofs::Collecting::keeps_same))]
    pub fn follow<'s, P: Permit>(
        &self,
        answer: Result<Fed<'s>, FeedFault<'s>>,
        settings: &Settings,
        plan: PlanRef<'s>,
        collector: &mut PermittedCollector<'s, P>,
    ) -> Result<Result<Fed<'s>, FeedFault<'s>>, PackFault>
        requires only { LetsOnly (G.lets self.now.gate.now) P.permits }
        requires planned { P.plans (lent plan) }
        requires keys { HasKeys settings.now collector.old }
        ensures keeps { Keeps collector.old collector.new }
        ensures more { gathered collector.old.sequences ≤ gathered collector.new.sequences }
        ensures follows { Follows (G.lets self.now.gate.now) (G.stops self.now.gate.now) (lent plan.entry) collector.old collector.new answer.entry result }
    {
        let refused = match answer {
            Ok(fed) => return Ok(Ok(fed)),
            Err(refused) => refused,
        };
        match refused.why() {
            Obstacle::NoMemory => Err(PackFault::NoMemory),
            Obstacle::Full | Obstacle::Closed | Obstacle::Twice => {
                self.seal_own(settings, plan, collector)?;
                Ok(Err(refused))
            }
        }
    }

    /// Seals everything that is missing on this thread, once the desk was seen with nothing outstanding.
    #[tactic(auto, using(crate::proofs::Collecting::keeps_same))]
    pub fn seal_missing<P: Permit>(
        &self,
        settings: &Settings,
        collector: &mut PermittedCollector<'_, P>,
        _seen: Seen,
    ) -> Result<(), PackFault>
        requires over { _seen.outstanding ≡ 0 }
        requires only { LetsOnly (G.lets self.now.gate.now) P.permits }
        requires keys { HasKeys settings.now collector.old }
        ensures keeps { Keeps collector.old collector.new }
        ensures more { gathered collector.old.sequences ≤ gathered collector.new.sequences }
        ensures all { OnOk result (missing_in collector.new.sequences ≡ []) }
        ensures fault { IfErr result (IsLeft (G.lets self.now.gate.now) (G.stops self.now.gate.now) collector.new) }
    {
        while let Some(plan) = collector.first_missing() {
            self.seal_own(settings, plan, collector)?;
        }
        Ok(())
    }
}
