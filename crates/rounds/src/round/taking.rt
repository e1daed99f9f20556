//! Taking: takes in what is done at the desk, then gives what is ready.

ghost use Rattle.std.specs.Prelude.{◌≡◌, ◌≢◌, ◌⊎◌, ◌+◌, ◌<◌, ◌≤◌, [], true, false, length, IfErr, IfNone, IfOk, IfSome, OnErr, OnOk};
ghost use Rattle.flow_core.specs.Gatherings.{awaited, missing_in};
ghost use Rattle.rounds.specs.Gated.{IsGatesWord, IsHeldBack, IsLeft, IsOwnFault, IsUnheld};
ghost use Rattle.rounds.specs.Rounds.{Breaks, HasKeys, IsExact, IsFair, IsSomewhere, Keeps, LosesNone, Moves, NoneReady, ReadsNoneIn, gathered};
ghost use Rattle.rounds.specs.Rounds.{ShowsFewer, due_in};
ghost use Rattle.work_desk.specs.Permits.{IsPermitted, IsPlanned, LetsOnly};

use crate::round::machine::Round;
use crate::round::permitted_collector::PermittedCollector;
use crate::round::sealer::Sealer;
use crate::round::sealing::{TakenIn, take_in};
use crate::round::taker::Taker;
use flow_core::Delivery;
use item_io::{Outlet, Source};
use ladder_items::{PackFault, Settings};
use std::sync::Wait;
use std::sync::ledger::Ledger;
use work_desk::{Desk, Gate, Pass, Permit, Seen};

impl<'d, 's, 'r, S: Source, O: Outlet, L: Ledger, M: Ledger, P: Permit, R: Wait> Round<
    'd,
    's,
    'r,
    S,
    O,
    L,
    M,
    P,
    R,
> {
    /// Waits and gives what is ready until one more plan may be expected.
    pub fn make_room<G: Gate>(
        &mut self,
        sealer: &Sealer<'_, G>,
        settings: &Settings,
    ) -> Result<(), PackFault>
        requires only { LetsOnly (G.lets sealer.now.gate.now) P.permits }
        requires somewhere { IsSomewhere S.input O.output settings.now self.old }
        ensures ok { OnOk result (Moves S.input O.output settings.now self.old self.new) }
        ensures err { IfErr result (Breaks S.input O.output settings.now self.old self.new) }
        ensures held { IfErr result (IsGatesWord (G.stops sealer.now.gate.now)) }
        ensures none_read { ReadsNoneIn self.old self.new }
        ensures due { OnOk result (due_in self.new ≡ due_in self.old) }
        ensures short { IfErr result (ShowsFewer self.new.broadcast (due_in self.old)) }
        ensures fair { OnOk result (IsFair self.old self.new) }
        ensures room { OnOk result (awaited self.new.collector.sequences < self.new.collector.most) }
        ensures none { OnErr result (awaited self.old.collector.sequences < self.old.collector.most → ⊥) }
        ensures told { IfErr result (IsOwnFault (G.lets sealer.now.gate.now) (G.stops sealer.now.gate.now) self.old.collector self.new.collector) }
    {
        for _ in self.broadcast.rt().forever() {
            if self.collector.room() {
                break;
            }
            self.wait_and_give(sealer, settings)?;
        }
        Ok(())
    }

    /// Gives everything that is expected, in sequence.
    pub fn give_expected<G: Gate>(
        &mut self,
        sealer: &Sealer<'_, G>,
        settings: &Settings,
    ) -> Result<(), PackFault>
        requires only { LetsOnly (G.lets sealer.now.gate.now) P.permits }
        requires somewhere { IsSomewhere S.input O.output settings.now self.old }
        ensures ok { OnOk result (Moves S.input O.output settings.now self.old self.new) }
        ensures err { IfErr result (Breaks S.input O.output settings.now self.old self.new) }
        ensures held { IfErr result (IsGatesWord (G.stops sealer.now.gate.now)) }
        ensures none_read { ReadsNoneIn self.old self.new }
        ensures due { OnOk result (due_in self.new ≡ due_in self.old) }
        ensures short { IfErr result (ShowsFewer self.new.broadcast (due_in self.old)) }
        ensures fair { OnOk result (IsFair self.old self.new) }
        ensures all { OnOk result (awaited self.new.collector.sequences ≡ 0) }
        ensures none { OnErr result (awaited self.old.collector.sequences ≢ 0) }
        ensures told { IfErr result (IsOwnFault (G.lets sealer.now.gate.now) (G.stops sealer.now.gate.now) self.old.collector self.new.collector) }
    {
        for _ in self.broadcast.rt().forever() {
            if self.collector.awaited() == 0 {
                break;
            }
            self.wait_and_give(sealer, settings)?;
        }
        Ok(())
    }

    /// Waits until something is done, takes in everything that is done, and gives what is then ready.
    fn wait_and_give<G: Gate>(
        &mut self,
        sealer: &Sealer<'_, G>,
        settings: &Settings,
    ) -> Result<(), PackFault>
        requires only { LetsOnly (G.lets sealer.now.gate.now) P.permits }
        requires somewhere { IsSomewhere S.input O.output settings.now self.old }
        ensures ok { OnOk result (Moves S.input O.output settings.now self.old self.new) }
        ensures err { IfErr result (Breaks S.input O.output settings.now self.old self.new) }
        ensures held { IfErr result (IsGatesWord (G.stops sealer.now.gate.now)) }
        ensures none_read { ReadsNoneIn self.old self.new }
        ensures due { OnOk result (due_in self.new ≡ due_in self.old) }
        ensures short { IfErr result (ShowsFewer self.new.broadcast (due_in self.old)) }
        ensures fair { OnOk result (IsFair self.old self.new) }
        ensures further { OnOk result ((self.old.taker.pass.count < self.new.taker.pass.count) ⊎ (missing_in self.new.collector.sequences ≡ [])) }
        ensures dry { OnOk result (NoneReady self.new.collector) }
        ensures fewer { OnOk result (awaited self.new.collector.sequences ≤ awaited self.old.collector.sequences) }
        ensures told { IfErr result (IsOwnFault (G.lets sealer.now.gate.now) (G.stops sealer.now.gate.now) self.old.collector self.new.collector) }
    {
        wait_or_seal(
            self.broadcast.rt(),
            sealer,
            settings,
            self.desk,
            &mut self.taker,
            &mut self.collector,
        )?;
        self.take_and_give(sealer, settings)?;
        Ok(())
    }

    /// Takes in everything that is done, and gives what is then ready.
    pub fn take_and_give<G: Gate>(
        &mut self,
        sealer: &Sealer<'_, G>,
        settings: &Settings,
    ) -> Result<(), PackFault>
        requires only { LetsOnly (G.lets sealer.now.gate.now) P.permits }
        requires somewhere { IsSomewhere S.input O.output settings.now self.old }
        ensures ok { OnOk result (Moves S.input O.output settings.now self.old self.new) }
        ensures err { IfErr result (Breaks S.input O.output settings.now self.old self.new) }
        ensures held { IfErr result (IsGatesWord (G.stops sealer.now.gate.now)) }
        ensures none_read { ReadsNoneIn self.old self.new }
        ensures due { OnOk result (due_in self.new ≡ due_in self.old) }
        ensures short { IfErr result (ShowsFewer self.new.broadcast (due_in self.old)) }
        ensures exact { OnOk result (IsExact self.old self.new) }
        ensures kept { OnOk result (LosesNone self.old self.new) }
        ensures dry { OnOk result (NoneReady self.new.collector) }
        ensures fewer { OnOk result (awaited self.new.collector.sequences ≤ awaited self.old.collector.sequences) }
        ensures told { IfErr result (λ fault. IsUnheld fault → awaited self.new.collector.sequences < awaited self.old.collector.sequences) }
    {
        let seen = take_all(
            self.broadcast.rt(),
            sealer.gate,
            self.desk,
            &mut self.taker,
            &mut self.collector,
        )?;
        self.give_all_ready(sealer.alloc, settings, seen)?;
        Ok(())
    }
}

/// Takes what has been done longest from the desk. With `wait`, waits for it as long as anything is outstanding. Where there is
/// nothing, returns what was seen at the desk.
fn hand_out<'s, L: Ledger, M: Ledger, P: Permit, R: Wait>(
    rt: &R,
    desk: &Desk<'s, L, M, P>,
    wait: bool,
    pass: &mut Pass<M>,
) -> Result<Delivery<'s>, Seen>
    ensures counted { OnOk result (pass.new.count ≡ pass.old.count + 1) }
    ensures uncounted { OnErr result (pass.new.count ≡ pass.old.count) }
    ensures permitted { IfOk result (λ delivery. IsPermitted P.permits delivery.outcome) }
    ensures planned { IfOk result (λ delivery. IsPlanned P.plans delivery.outcome) }
    ensures none { IfErr result (λ seen. seen.done ≡ 0) }
    ensures over { IfErr result (λ seen. wait ≡ true → seen.outstanding ≡ 0) }
{
    if wait {
        return desk.await_done(rt, pass);
    }
    desk.look_done(rt, pass)
}

/// Takes in what the desk hands out, and returns the receipt. Where that is nothing, returns what was seen there.
fn take_one<'s, G: Gate, L: Ledger, M: Ledger, P: Permit, R: Wait>(
    rt: &R,
    gate: &G,
    desk: &Desk<'s, L, M, P>,
    wait: bool,
    taker: &mut Taker<M>,
    collector: &mut PermittedCollector<'s, P>,
) -> Result<Result<TakenIn, Seen>, PackFault>
    ensures keeps { Keeps collector.old collector.new }
    ensures fair { taker.new.right + gathered collector.old.sequences ≡ taker.old.right + gathered collector.new.sequences }
    ensures counted { IfOk result (λ took. OnOk took (taker.new.pass.count ≡ taker.old.pass.count + 1)) }
    ensures uncounted { IfOk result (λ took. OnErr took ((taker.new.pass.count ≡ taker.old.pass.count) × (collector.new ≡ collector.old))) }
    ensures none { IfOk result (λ took. IfErr took (λ seen. seen.done ≡ 0)) }
    ensures over { IfOk result (λ took. IfErr took (λ seen. wait ≡ true → seen.outstanding ≡ 0)) }
    ensures more { taker.old.pass.count ≤ taker.new.pass.count }
    ensures rest { length (missing_in collector.new.sequences) ≤ length (missing_in collector.old.sequences) }
    ensures fault { IfErr result (IsHeldBack (G.stops gate.now)) }
{
    let Taker {
        pass,
        right,
        thrown,
    } = taker;
    let done = match hand_out(rt, desk, wait, pass) {
        Ok(done) => done,
        Err(seen) => return Ok(Err(seen)),
    };
    prove!(pass.count > 0);
    let took = take_in(gate, collector, done, right, thrown)?;
    Ok(Ok(took))
}

/// Takes in everything that is done, until the desk is seen with nothing of the kind.
fn take_all<'s, G: Gate, L: Ledger, M: Ledger, P: Permit, R: Wait>(
    rt: &R,
    gate: &G,
    desk: &Desk<'s, L, M, P>,
    taker: &mut Taker<M>,
    collector: &mut PermittedCollector<'s, P>,
) -> Result<Seen, PackFault>
    ensures keeps { Keeps collector.old collector.new }
    ensures fair { taker.new.right + gathered collector.old.sequences ≡ taker.old.right + gathered collector.new.sequences }
    ensures more { taker.old.pass.count ≤ taker.new.pass.count }
    ensures rest { length (missing_in collector.new.sequences) ≤ length (missing_in collector.old.sequences) }
    ensures none { IfOk result (λ seen. seen.done ≡ 0) }
    ensures fault { IfErr result (IsHeldBack (G.stops gate.now)) }
{
    for _ in rt.forever() {
        if let Err(seen) = take_one(rt, gate, desk, false, taker, collector)? {
            return Ok(seen);
        }
    }
    unreachable!()
}

/// Waits until something is done, and takes it in. If nothing is outstanding, seals what is missing on this thread.
fn wait_or_seal<'s, G: Gate, L: Ledger, M: Ledger, P: Permit, R: Wait>(
    rt: &R,
    sealer: &Sealer<'_, G>,
    settings: &Settings,
    desk: &Desk<'s, L, M, P>,
    taker: &mut Taker<M>,
    collector: &mut PermittedCollector<'s, P>,
) -> Result<(), PackFault>
    requires only { LetsOnly (G.lets sealer.now.gate.now) P.permits }
    requires keys { HasKeys settings.now collector.old }
    ensures keeps { Keeps collector.old collector.new }
    ensures fair { taker.new.right + gathered collector.old.sequences ≤ taker.old.right + gathered collector.new.sequences }
    ensures exact { taker.old.pass.count < taker.new.pass.count
        → taker.new.right + gathered collector.old.sequences ≡ taker.old.right + gathered collector.new.sequences }
    ensures untaken { taker.new.pass.count ≡ taker.old.pass.count → OnOk result (taker.new.right ≡ taker.old.right) }
    ensures further { OnOk result ((taker.old.pass.count < taker.new.pass.count) ⊎ (missing_in collector.new.sequences ≡ [])) }
    ensures fault { IfErr result (λ fault. IsHeldBack (G.stops sealer.now.gate.now) fault
        ⊎ IsLeft (G.lets sealer.now.gate.now) (G.stops sealer.now.gate.now) collector.new fault) }
{
    match take_one(rt, sealer.gate, desk, true, taker, collector)? {
        Ok(_) => Ok(()),
        Err(seen) => sealer.seal_missing(settings, collector, seen),
    }
}
