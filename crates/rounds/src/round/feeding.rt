//! Feeding: the collector expects each plan of the full spools, and the plan goes to the desk or is sealed on this thread.

ghost use Rattle.std.specs.Prelude.{◌≡◌, ◌≢◌, ◌⊎◌, ◌+◌, ◌<◌, ◌≤◌, [], ℕ, IfErr, IfOk, OnErr, OnOk, length};
ghost use Rattle.cutter.specs.Lent.{lent};
ghost use Rattle.flow_core.specs.Gatherings.{awaited, sequence_at, with_sequence};
ghost use Rattle.flow_core.specs.Sequences.{following, with_plan};
ghost use Rattle.ladder_items.specs.declared.fault.PackFault.TheVariants.{NoMemory};
ghost use Rattle.rounds.specs.Rounds.{Breaks, BreaksAll, BreaksSpool, FeedsAll, FeedsPlan, FeedsSpool, HasAllUnfed, IsFirstUnfed, IsUnfed, unfed_of};
ghost use Rattle.rounds.specs.Gated.{IsGatesWord, IsHandedOn, IsUnsealed};
ghost use Rattle.rounds.specs.Permitted.{AreAllPlanned, AreSpoolsPlanned};
ghost use Rattle.rounds.specs.Rounds.{HasKeys, IsFair, Keeps, ReadsNoneIn, ShowsFewer, due_in, gathered, plans_in};
ghost use Rattle.work_desk.specs.Permits.{LetsOnly};
ghost use Rattle.limits.specs.declared.TheConstants.{LAST_SEGMENT};

use crate::round::machine::Round;
use crate::round::permitted_collector::PermittedCollector;
use crate::round::sealer::Sealer;
use cutter::{PlanRef, Spool};
use flow_core::{Fed, FeedFault};
use item_io::{Outlet, Source};
use ladder_items::{PackFault, Settings};
use std::sync::Wait;
use std::sync::ledger::Ledger;
use work_desk::{Desk, Gate, Permit};

impl<'d, 's, 'r, S: Source, O: Outlet, L: Ledger, M: Ledger, P: Permit, R: Wait> Round<
    'd,
    's,
    'r,
    S,
    O,
    L,
    M,
    P,
    R,
> {
    /// Feeds every plan of the full spools, rendition by rendition.
    pub fn feed_all<G: Gate>(
        &mut self,
        sealer: &Sealer<'_, G>,
        settings: &Settings,
        spools: &'s [Spool],
    ) -> Result<(), PackFault>
        requires only { LetsOnly (G.lets sealer.now.gate.now) P.permits }
        requires planned { AreSpoolsPlanned P.plans spools.now }
        requires somewhere { HasAllUnfed S.input O.output settings.now spools.now self.old }
        ensures ok { OnOk result (FeedsAll S.input O.output settings.now spools.now self.old self.new) }
        ensures err { IfErr result (BreaksAll S.input O.output settings.now spools.now self.old self.new) }
        ensures held { IfErr result (IsGatesWord (G.stops sealer.now.gate.now)) }
        ensures none_read { ReadsNoneIn self.old self.new }
        ensures due { OnOk result (due_in self.new ≡ due_in self.old + plans_in spools.now) }
        ensures short { IfErr result (ShowsFewer self.new.broadcast (due_in self.old + plans_in spools.now)) }
        ensures fair { OnOk result (IsFair self.old self.new) }
        ensures none { OnErr result ((k : ℕ) × (unfed_of spools.now k ≢ [])) }
    {
        for r in 0..spools.len() {
            self.feed_spool(sealer, settings, r, &spools[r])?;
        }
        Ok(())
    }

    /// Feeds every plan of rendition `r`.
    fn feed_spool<G: Gate>(
        &mut self,
        sealer: &Sealer<'_, G>,
        settings: &Settings,
        r: usize,
        spool: &'s Spool,
    ) -> Result<(), PackFault>
        requires within { r < length settings.now.renditions }
        requires only { LetsOnly (G.lets sealer.now.gate.now) P.permits }
        requires planned { AreAllPlanned P.plans spool.now }
        requires somewhere { IsUnfed S.input O.output settings.now r spool.now self.old }
        ensures ok { OnOk result (FeedsSpool S.input O.output settings.now r spool.now self.old self.new) }
        ensures err { IfErr result (BreaksSpool S.input O.output settings.now r spool.now self.old self.new) }
        ensures held { IfErr result (IsGatesWord (G.stops sealer.now.gate.now)) }
        ensures none_read { ReadsNoneIn self.old self.new }
        ensures due { OnOk result (due_in self.new ≡ due_in self.old + length spool.now) }
        ensures short { IfErr result (ShowsFewer self.new.broadcast (due_in self.old + length spool.now)) }
        ensures fair { OnOk result (IsFair self.old self.new) }
        ensures none { OnErr result (spool.now ≢ []) }
    {
        for i in 0..spool.plans() {
            let Some(plan) = spool.plan(i) else {
                continue;
            };
            let _ = self.feed_plan(sealer, settings, r, plan)?;
        }
        Ok(())
    }

    /// Feeds the first plan of rendition `r` that hasn't been fed, once there is room for it. Returns the desk's answer: its receipt, or
    /// its refusal, where the plan was sealed on this thread.
    fn feed_plan<G: Gate>(
        &mut self,
        sealer: &Sealer<'_, G>,
        settings: &Settings,
        r: usize,
        plan: PlanRef<'s>,
    ) -> Result<Result<Fed<'s>, FeedFault<'s>>, PackFault>
        requires within { r < length settings.now.renditions }
        requires only { LetsOnly (G.lets sealer.now.gate.now) P.permits }
        requires planned { P.plans (lent plan) }
        requires somewhere { IsFirstUnfed S.input O.output settings.now r (lent plan) self.old }
        ensures ok { OnOk result (FeedsPlan S.input O.output settings.now r (lent plan.entry) self.old self.new) }
        ensures handed { IfOk result (IsHandedOn (G.lets sealer.now.gate.now) (lent plan.entry) self.new.collector) }
        ensures err { IfErr result (Breaks S.input O.output settings.now self.old self.new) }
        ensures held { IfErr result (IsGatesWord (G.stops sealer.now.gate.now)) }
        ensures none_read { ReadsNoneIn self.old self.new }
        ensures due { OnOk result (due_in self.new ≡ due_in self.old + 1) }
        ensures short { IfErr result (ShowsFewer self.new.broadcast (due_in self.old + 1)) }
        ensures fair { OnOk result (IsFair self.old self.new) }
    {
        self.make_room(sealer, settings)?;
        expect(&mut self.collector, plan)?;
        let fed = offer(
            self.broadcast.rt(),
            sealer,
            settings,
            self.desk,
            plan,
            &mut self.collector,
        )?;
        Ok(fed)
    }
}

/// Has the collector expect a plan, for which there is room.
fn expect<'s, P: Permit>(
    collector: &mut PermittedCollector<'s, P>,
    plan: PlanRef<'s>,
) -> Result<(), PackFault>
    requires planned { P.plans (lent plan) }
    requires room { awaited collector.old.sequences < collector.old.most }
    requires rendition { plan.rendition < length collector.old.sequences }
    requires number { plan.number ≡ following (sequence_at collector.old plan.rendition) }
    requires low { plan.number ≤ LAST_SEGMENT }
    ensures ok { OnOk result (collector.new
        ≡ with_sequence collector.old plan.entry.rendition (with_plan (sequence_at collector.old plan.entry.rendition) (lent plan.entry))) }
    ensures fault { IfErr result (λ fault. fault ≡ NoMemory) }
{
    match collector.expect(plan) {
        Ok(()) => Ok(()),
        Err(_) => Err(PackFault::NoMemory),
    }
}

/// Offers a plan to the workers. If the desk refuses it, it is sealed on this thread. Returns the desk's answer.
fn offer<'s, G: Gate, L: Ledger, M: Ledger, P: Permit, R: Wait>(
    rt: &R,
    sealer: &Sealer<'_, G>,
    settings: &Settings,
    desk: &Desk<'s, L, M, P>,
    plan: PlanRef<'s>,
    collector: &mut PermittedCollector<'s, P>,
) -> Result<Result<Fed<'s>, FeedFault<'s>>, PackFault>
    requires only { LetsOnly (G.lets sealer.now.gate.now) P.permits }
    requires planned { P.plans (lent plan) }
    requires keys { HasKeys settings.now collector.old }
    ensures keeps { Keeps collector.old collector.new }
    ensures more { gathered collector.old.sequences ≤ gathered collector.new.sequences }
    ensures handed { IfOk result (IsHandedOn (G.lets sealer.now.gate.now) (lent plan.entry) collector.new) }
    ensures fault { IfErr result (λ fault. (fault ≡ NoMemory) ⊎ IsUnsealed (G.lets sealer.now.gate.now) (G.stops sealer.now.gate.now) (lent plan.entry) fault) }
{
    let answer = desk.feed(rt, plan);
    sealer.follow(answer, settings, plan, collector)
}
