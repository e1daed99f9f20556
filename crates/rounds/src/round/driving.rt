//! Driving: the calling thread feeds the full spools, reads the next round, and gives what is expected.

ghost use Rattle.std.specs.Prelude.{◌≡◌, ◌⊎◌, ◌+◌, ◌<◌, ◌≤◌, IfErr, IfOk, OnErr, OnOk, length, map};
ghost use Rattle.ingest.specs.Lanes.{HasBroken};
ghost use Rattle.flow_core.specs.Gatherings.{awaited, sequences_from};
ghost use Rattle.ladder_items.specs.Ladder.{RenditionValue};
ghost use Rattle.rounds.specs.Courses.{ReadsMore, turns_in};
ghost use Rattle.rounds.specs.Gated.{IsGatesWord};
ghost use Rattle.rounds.specs.Paces.{HasEnough, ReadsEnough, ReadsForNext, wanted};
ghost use Rattle.rounds.specs.Rounds.{Breaks, IsBehind, IsBroken, IsDriven, IsExact, IsSomeFull, IsSomewhere, Moves, NoneReady, StopsInTime};
ghost use Rattle.rounds.specs.Rounds.{ShowsFewer, StopsShort, due_in};
ghost use Rattle.rounds.specs.Showing.{counts_of};
ghost use Rattle.rounds.specs.Permitted.{AreSpoolsPlanned};
ghost use Rattle.work_desk.specs.Permits.{AreKnownByNumber, LetsOnly};
ghost use Rattle.item_io.specs.declared.limits.TheConstants.{PIECE};

use crate::giving::snapshots::counts;
use crate::round::machine::Round;
use crate::round::permitted_collector::PermittedCollector;
use crate::round::sealer::Sealer;
use crate::run::first::copy_keys;
use crate::run::pace::Pace;
use cutter::Spool;
use flow_core::Collector;
use item_io::{Outlet, PIECE, Source};
use ladder_items::{PackFault, Playlists, Settings};
use std::alloc::{AllocError, Global};
use std::sync::Wait;
use std::sync::ledger::Ledger;
use work_desk::{Gate, Permit, SinglesTaken};

/// A collector that goes on after the segments given so far.
pub fn collector_behind<'s, P: Permit>(
    alloc: Global,
    settings: &Settings,
    playlists: &[Playlists],
) -> Result<PermittedCollector<'s, P>, AllocError>
    requires { AreKnownByNumber P.plans }
    ensures ok { IfOk result (λ collector. collector ≡ record {
      most = settings.now.queue;
      sequences = sequences_from 0 (map (λ (r : RenditionValue). r.keys) settings.now.renditions) (counts_of playlists.now);
    }) }
    ensures scarce { OnErr result ((0 < length settings.now.renditions) ⊎ (0 < length playlists.now)) }
{
    let keys = copy_keys(alloc, &settings.renditions)?;
    let starts = counts(alloc, playlists)?;
    let collector = Collector::starting(alloc, keys, starts, settings.queue as usize)?;
    Ok(PermittedCollector::over(collector))
}

impl<'d, 's, 'r, S: Source, O: Outlet, L: Ledger, M: Ledger, P: Permit, R: Wait> Round<
    'd,
    's,
    'r,
    S,
    O,
    L,
    M,
    P,
    R,
> {
    /// Drives the round: feeds the plans of the full spools, reads for the next round what is ready, and gives every segment in
    /// sequence.
    pub fn drive<G: Gate>(
        &mut self,
        sealer: &Sealer<'_, G>,
        settings: &Settings,
        pace: Pace,
        spools: &'s [Spool],
    ) -> Result<(), PackFault>
        requires only { LetsOnly (G.lets sealer.now.gate.now) P.permits }
        requires planned { AreSpoolsPlanned P.plans spools.now }
        requires each { length spools.now ≡ length settings.now.renditions }
        requires on { IsSomeFull S.input O.output settings.now spools.now self.old.broadcast }
        requires behind { IsBehind settings.now self.old }
        ensures ok { OnOk result (IsDriven S.input O.output settings.now spools.now pace
            self.old.broadcast self.old.taker.right self.new.broadcast self.new.taker.right) }
        ensures err { IfErr result (IsBroken S.input O.output settings.now spools.now self.old.broadcast self.new.broadcast) }
        ensures held { IfErr result (IsGatesWord (G.stops sealer.now.gate.now)) }
        ensures left { IfErr result (StopsShort spools.now self.old.broadcast self.new.broadcast) }
        ensures enough { OnOk result (ReadsForNext S.tells pace self.old.broadcast.course self.new.broadcast.course) }
    {
        let mut buffer = [0; PIECE];
        self.feed_all(sealer, settings, spools)?;
        let singles = self.desk.take_singles(self.broadcast.rt());
        self.read_on(sealer, settings, pace, singles, &mut buffer)?;
        self.give_expected(sealer, settings)?;
        Ok(())
    }

    /// Reads what is ready, until enough is closed for the next round, and between turns gives what has come sealed. Where enough is
    /// closed already, nothing is read.
    fn read_on<G: Gate>(
        &mut self,
        sealer: &Sealer<'_, G>,
        settings: &Settings,
        pace: Pace,
        _singles: SinglesTaken,
        buffer: &mut [u8],
    ) -> Result<(), PackFault>
        requires only { LetsOnly (G.lets sealer.now.gate.now) P.permits }
        requires whole { length buffer.old ≡ PIECE }
        requires somewhere { IsSomewhere S.input O.output settings.now self.old }
        ensures ok { OnOk result (Moves S.input O.output settings.now self.old self.new) }
        ensures err { IfErr result (Breaks S.input O.output settings.now self.old self.new) }
        ensures held { IfErr result (IsGatesWord (G.stops sealer.now.gate.now)) }
        ensures further { OnOk result (ReadsMore self.old.broadcast.course self.new.broadcast.course) }
        ensures exact { OnOk result (IsExact self.old self.new) }
        ensures due { OnOk result (due_in self.new ≡ due_in self.old) }
        ensures left { IfErr result (λ fault. HasBroken self.new.broadcast.course.lanes.items ⊎ ShowsFewer self.new.broadcast (due_in self.old) fault) }
        ensures dry { OnOk result (turns_in self.old.broadcast.course < turns_in self.new.broadcast.course → NoneReady self.new.collector) }
        ensures soon { OnOk result (turns_in self.old.broadcast.course < turns_in self.new.broadcast.course
            → StopsInTime S.input O.output settings.now pace self.old self.new) }
        ensures enough { OnOk result (ReadsEnough S.tells pace (awaited self.new.collector.sequences)
            self.old.broadcast.course self.new.broadcast.course) }
        ensures idle { OnOk result (HasEnough (wanted pace (awaited self.old.collector.sequences) 0) self.old.broadcast.course
            → self.new ≡ self.old) }
        ensures none { OnErr result (HasEnough (wanted pace (awaited self.old.collector.sequences) 0) self.old.broadcast.course → ⊥) }
    {
        let rt = self.broadcast.rt();
        let before = self.broadcast.turns_had();
        for _ in rt.forever() {
            let awaited = self.collector.awaited();
            let turns = self.broadcast.turns_had() - before;
            if self.broadcast.is_enough(pace, awaited, turns) {
                return Ok(());
            }
            if !self.broadcast.read_ready(buffer)? {
                return Ok(());
            }
            self.take_and_give(sealer, settings)?;
        }
        unreachable!()
    }
}
