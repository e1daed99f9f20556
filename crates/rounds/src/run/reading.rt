//! Reading: a turn is one read of a rendition's source. Each rendition has its turns when its source is ready.

ghost use Rattle.std.specs.Prelude.{◌≡◌, ◌+◌, ◌<◌, ◌≤◌, ◌^◌, [], ℕ, Decides, IfOk, OnErr, OnOk, None, Some, true, false, length, slice_get, slice_set};
ghost use Rattle.ingest.specs.Lanes.{HasBroken};
ghost use Rattle.ingest.specs.declared.lane.Lane.{Lane};
ghost use Rattle.rounds.specs.Courses.{HadNone, HadOne, HadOneAtMost, HasClosed, HasTurns, IsRun, LeavesAt, NoneWaits, OthersStay, ReadsMore, ReadsOn};
ghost use Rattle.rounds.specs.Courses.{ReadsShort, Rests, turns_at, turns_in};
ghost use Rattle.rounds.specs.Heralds.{AreHeard, TellsAll};
ghost use Rattle.rounds.specs.Paces.{HasEnough, ReadsEnough, StopsSoon, closed_in, wanted};
ghost use Rattle.rounds.specs.declared.run.telling.TheConstants.{RENDITIONS};
ghost use Rattle.item_io.specs.declared.limits.TheConstants.{PIECE, READS};

use crate::run::course::Course;
use crate::run::herald::Herald;
use crate::run::pace::Pace;
use crate::run::telling::Telling;
use ingest::Lane;
use item_io::{Outlet, Source};
use std::alloc::AllocError;
use std::sync::Wait;

impl<S: Source, O: Outlet> Course<S, O> {
    /// Whether rendition `r` hasn't stopped, nor had all its turns.
    fn goes_on(&self, r: usize) -> bool
        requires within { r < length self.now.lanes.items }
        requires each { length self.now.turns.items ≡ length self.now.lanes.items }
        ensures going { result ≡ true → (lane : Lane) → slice_get self.now.lanes.items r ≡ Some lane → lane.stop ≡ None }
        ensures below { result ≡ true → turns_at self.now r < self.now.reads }
        ensures rests { result ≡ false → (lane : Lane) → slice_get self.now.lanes.items r ≡ Some lane → lane.stop ≡ None
            → self.now.reads ≤ turns_at self.now r }
    {
        if self.lanes[r].stop.is_some() {
            return false;
        }
        self.turns[r] < self.reads
    }

    /// Whether the source of rendition `r` is ready.
    fn is_ready(&mut self, r: usize) -> bool
        requires within { r < length self.old.sources.items }
        ensures same { self.new ≡ record self.old { sources = self.new.sources } }
        ensures sources { self.new.sources.items ≡ self.old.sources.items }
        ensures ready { (source : S) → slice_get self.old.sources.items r ≡ Some source → S.tells source ≡ false → result ≡ true }
    {
        self.sources[r].is_ready()
    }

    /// Counts a turn of rendition `r`, and leaves its source if that was the last one.
    fn count_turn(&mut self, r: usize)
        requires within { r < length self.old.turns.items }
        requires below { turns_at self.old r < self.old.reads }
        requires most { self.old.reads ≤ READS }
        requires source { r < length self.old.sources.items }
        ensures same { self.new ≡ record self.old { sources = self.new.sources; turns = self.new.turns } }
        ensures last { self.old.reads ≤ turns_at self.old r + 1 → LeavesAt S.input r self.old.sources.items self.new.sources.items }
        ensures sources { turns_at self.old r + 1 < self.old.reads → self.new.sources.items ≡ self.old.sources.items }
        ensures turns { self.new.turns.items ≡ slice_set self.old.turns.items r (turns_at self.old r + 1) }
    {
        let count = self.turns[r] + 1;
        self.turns[r] = count;
        if count >= self.reads {
            self.sources[r].leave();
        }
    }

    /// Gives rendition `r`, which goes on, its turn.
    fn take_turn(&mut self, r: usize, buffer: &mut [u8]) -> Result<(), AllocError>
        requires whole { length buffer.old ≡ PIECE }
        requires within { r < length self.old.lanes.items }
        requires on { IsRun S.input O.output self.old }
        requires going { (lane : Lane) → slice_get self.old.lanes.items r ≡ Some lane → lane.stop ≡ None }
        requires below { turns_at self.old r < self.old.reads }
        ensures ok { OnOk result (ReadsOn S.input O.output self.old self.new) }
        ensures err { OnErr result (ReadsShort S.input O.output self.old self.new) }
        ensures same { self.new ≡ record self.old { sources = self.new.sources; lanes = self.new.lanes; turns = self.new.turns } }
        ensures count { length self.new.lanes.items ≡ length self.old.lanes.items }
        ensures turns { OnOk result (turns_in self.new ≡ turns_in self.old + 1) }
        ensures others { OthersStay r self.old self.new }
        ensures had { OnOk result (HadOne S.input r self.old self.new) }
        ensures unfailed { OnErr result ((source now : S) → slice_get self.old.sources.items r ≡ Some source
            → slice_get self.new.sources.items r ≡ Some now → S.input.failures now ≡ S.input.failures source) }
        ensures unstopped { OnErr result ((lane now : Lane) → slice_get self.old.lanes.items r ≡ Some lane
            → slice_get self.new.lanes.items r ≡ Some now → now.stop ≡ lane.stop) }
        ensures broken { OnErr result (HasBroken self.new.lanes.items) }
    {
        self.lanes[r].turn(&mut self.sources[r], buffer)?;
        self.count_turn(r);
        Ok(())
    }

    /// Gives rendition `r` its turn if it goes on and is ready. Returns whether it did.
    fn read_one(&mut self, r: usize, buffer: &mut [u8]) -> Result<bool, AllocError>
        requires whole { length buffer.old ≡ PIECE }
        requires within { r < length self.old.lanes.items }
        requires on { IsRun S.input O.output self.old }
        ensures ok { OnOk result (ReadsOn S.input O.output self.old self.new) }
        ensures err { OnErr result (ReadsShort S.input O.output self.old self.new) }
        ensures same { self.new ≡ record self.old { sources = self.new.sources; lanes = self.new.lanes; turns = self.new.turns } }
        ensures count { length self.new.lanes.items ≡ length self.old.lanes.items }
        ensures further { OnOk result (ReadsMore self.old self.new) }
        ensures told { IfOk result (λ any. Decides any (turns_in self.old < turns_in self.new)) }
        ensures others { OthersStay r self.old self.new }
        ensures once { OnOk result (turns_in self.new ≤ turns_in self.old + 1) }
        ensures one { OnOk result (HadOneAtMost S.input r self.old self.new) }
        ensures had { OnOk result ((source : S) → slice_get self.old.sources.items r ≡ Some source → S.tells source ≡ false → HasTurns r self.old
            → HadOne S.input r self.old self.new) }
        ensures idle { IfOk result (λ any. any ≡ false → HadNone r self.old self.new) }
        ensures none { OnErr result ((lane : Lane) → slice_get self.old.lanes.items r ≡ Some lane → lane.stop ≡ None) }
        ensures unread { OnErr result (turns_at self.old r < self.old.reads) }
        ensures broken { OnErr result (HasBroken self.new.lanes.items) }
    {
        if !self.goes_on(r) {
            return Ok(false);
        }
        if !self.is_ready(r) {
            return Ok(false);
        }
        self.take_turn(r, buffer)?;
        Ok(true)
    }

    /// Gives each rendition that goes on and is ready one turn: each whose source can't tell is. Returns whether any had one.
    pub fn read_ready(&mut self, buffer: &mut [u8]) -> Result<bool, AllocError>
        requires whole { length buffer.old ≡ PIECE }
        requires on { IsRun S.input O.output self.old }
        ensures ok { OnOk result (ReadsOn S.input O.output self.old self.new) }
        ensures err { OnErr result (ReadsShort S.input O.output self.old self.new) }
        ensures same { OnOk result (self.new ≡ record self.old { sources = self.new.sources; lanes = self.new.lanes; turns = self.new.turns }) }
        ensures further { OnOk result (ReadsMore self.old self.new) }
        ensures told { IfOk result (λ any. Decides any (turns_in self.old < turns_in self.new)) }
        ensures once { OnOk result (turns_in self.new ≤ turns_in self.old + length self.old.lanes.items) }
        ensures each { OnOk result ((k : ℕ) → HadOneAtMost S.input k self.old self.new) }
        ensures had { OnOk result ((k : ℕ) (source : S) → slice_get self.old.sources.items k ≡ Some source → S.tells source ≡ false
            → HasTurns k self.old → HadOne S.input k self.old self.new) }
        ensures idle { IfOk result (λ any. any ≡ false → NoneWaits S.tells self.new) }
        ensures none { OnErr result (Rests self.old → ⊥) }
        ensures broken { OnErr result (HasBroken self.new.lanes.items) }
    {
        let mut any = false;
        for r in 0..self.lanes.len() {
            any |= self.read_one(r, buffer)?;
        }
        Ok(any)
    }

    /// Reads until there is enough for a round by its pace, where nothing is awaited, or a plan is closed and no source is ready, or
    /// nothing is left to read: nothing where that is so already. Waits for sources meanwhile, and tells the faults that stand by then.
    pub fn read_more<R: Wait, H: Herald>(
        &mut self,
        rt: &R,
        pace: Pace,
        buffer: &mut [u8],
        telling: &mut Telling<'_, H>,
    ) -> Result<(), AllocError>
        requires whole { length buffer.old ≡ PIECE }
        requires on { IsRun S.input O.output self.old }
        ensures ok { OnOk result (ReadsOn S.input O.output self.old self.new) }
        ensures err { OnErr result (ReadsShort S.input O.output self.old self.new) }
        ensures playlists { OnOk result (self.new.playlists ≡ self.old.playlists) }
        ensures further { OnOk result (ReadsMore self.old self.new) }
        ensures idle { OnOk result (HasEnough (wanted pace 0 0) self.old → self.new ≡ self.old) }
        ensures enough { OnOk result (ReadsEnough S.tells pace 0 self.old self.new) }
        ensures some { OnOk result (HasEnough 1 self.new) }
        ensures soon { OnOk result (turns_in self.old < turns_in self.new → StopsSoon S.input O.output pace self.old self.new) }
        ensures none { OnErr result (HasEnough (wanted pace 0 0) self.old → ⊥) }
        ensures broken { OnErr result (HasBroken self.new.lanes.items) }
        ensures told { OnOk result (AreHeard (H.was_told telling.old.herald.now) RENDITIONS telling.old.told self.old.lanes.items
            → AreHeard (H.was_told telling.old.herald.now) RENDITIONS telling.new.told self.new.lanes.items) }
        ensures herald { telling.new.herald ≡ telling.old.herald }
    {
        let before = self.turns_had();
        for _ in rt.forever() {
            let turns = self.turns_had() - before;
            if self.is_enough(pace, 0, turns) {
                return Ok(());
            }
            if self.read_ready(buffer)? {
                continue;
            }
            if self.has_closed(1) {
                return Ok(());
            }
            self.wait(telling);
        }
        unreachable!()
    }

    /// Tells the faults that stand, and waits until a source is ready, where nothing is closed and something is left to read.
    fn wait<H: Herald>(&mut self, telling: &mut Telling<'_, H>)
        requires none { HasEnough 1 self.old → ⊥ }
        ensures same { self.new ≡ record self.old { sources = self.new.sources } }
        ensures sources { self.new.sources.items ≡ self.old.sources.items }
        ensures told { TellsAll (H.was_told telling.old.herald.now) RENDITIONS telling.old.told self.old.lanes.items telling.new.told }
        ensures herald { telling.new.herald ≡ telling.old.herald }
    {
        self.tell_faults(telling);
        S::wait_any(&mut self.sources);
    }

    /// Whether `least` plans are closed, and at least one, or nothing is left to read.
    fn has_closed(&self, least: usize) -> bool
        requires each { length self.now.turns.items ≡ length self.now.lanes.items }
        ensures { Decides result (HasEnough least self.now) }
    {
        if self.rests() {
            return true;
        }
        let closed = count_closed(&self.lanes);
        if closed == 0 {
            return false;
        }
        closed >= least as u128
    }

    /// Whether nothing is left to read.
    pub fn rests(&self) -> bool
        requires each { length self.now.turns.items ≡ length self.now.lanes.items }
        ensures { Decides result (Rests self.now) }
    {
        for r in 0..self.lanes.len() {
            if self.goes_on(r) {
                return false;
            }
        }
        true
    }

    /// Whether enough is read for the next round, while `awaited` segments of the round before are still to be given, and after so many
    /// turns.
    pub fn is_enough(&self, pace: Pace, awaited: usize, turns: u128) -> bool
        requires each { length self.now.turns.items ≡ length self.now.lanes.items }
        ensures { Decides result (HasEnough (wanted pace awaited turns) self.now) }
    {
        self.has_closed(pace.wanted(awaited, turns))
    }

    /// How many turns all renditions had together.
    pub fn turns_had(&self) -> u128
        ensures is { result ≡ turns_in self.now }
        ensures small { result < 2 ^ 127 }
    {
        let mut all = 0;
        for had in &self.turns {
            all += u128::from(*had);
        }
        all
    }
}

/// Whether any plan is closed and not yet swapped out.
pub fn any_closed(lanes: &[Lane]) -> bool
    ensures some { result ≡ true → HasClosed lanes.now }
    ensures none { result ≡ false → (k : ℕ) (lane : Lane) → slice_get lanes.now k ≡ Some lane → lane.intake.filled ≡ [] }
{
    for lane in lanes {
        if lane.intake.plans() > 0 {
            return true;
        }
    }
    false
}

/// How many plans are closed and not yet swapped out.
fn count_closed(lanes: &[Lane]) -> u128
    ensures is { result ≡ closed_in lanes.now }
    ensures small { result < 2 ^ 127 }
{
    let mut all = 0;
    for lane in lanes {
        all += lane.intake.plans() as u128;
    }
    all
}
