//! What a round shows: nothing that wasn't let through.

ghost use Rattle.std.specs.Prelude.{◌≡◌, ◌<◌, ◌^◌, ℕ, IfErr, IfOk, IfSome, OnErr, OnOk, Decides, false, length};
ghost use Rattle.ingest.specs.Lanes.{HasBroken};
ghost use Rattle.ladder_items.specs.Ladder.{IsAllowed, rendition_at};
ghost use Rattle.ladder_items.specs.Putting.{SaysFailures};
ghost use Rattle.live_board.specs.Counts.{counts_shown};
ghost use Rattle.rounds.specs.Courses.{GivesNext, GivesNextInPart, HadOneAtMost, IsNextOf, IsRun, NoneWaits, ReadsMore, ReadsNone, ReadsOn};
ghost use Rattle.rounds.specs.Courses.{ReadsShort, Rests, turns_in};
ghost use Rattle.rounds.specs.Paces.{HasEnough, wanted};
ghost use Rattle.rounds.specs.Permitted.{ShowsPermitted};
ghost use Rattle.rounds.specs.Showing.{counts_of};
ghost use Rattle.segment_job.specs.Segments.{sealed_segment};
ghost use Rattle.item_io.specs.declared.limits.TheConstants.{PIECE};

use crate::giving::broadcast::Broadcast;
use crate::run::pace::Pace;
use item_io::{Outlet, PIECE, Source};
use ladder_items::{PackFault, Settings};
use segment_job::Sealed;
use std::alloc::{AllocError, Global};
use std::marker::{Model, PhantomData};
use std::sync::Wait;
use work_desk::Permit;

/// A broadcast. Each segment that it shows may be sealed.
#[derive(Drop)]
pub struct PermittedBroadcast<'r, S, O, P: Permit, R: Wait> {
    inner: Broadcast<'r, S, O, R>,
    of: PhantomData<P>,
}

impl<'r, S, O, P: Permit, R: Wait> Model for PermittedBroadcast<'r, S, O, P, R> {
    ghost use Rattle.rounds.specs.declared.giving.broadcast.Broadcast.{Broadcast};
    ghost use Rattle.rounds.specs.Permitted.{ShowsPermitted};

    ghost Value = { Broadcast S O R };

    ghost view = { λ b. b.inner };

    ghost invariant = { λ b. ShowsPermitted P.permits b.inner.held.publisher.list };
}

impl<'r, S, O, P: Permit, R: Wait> PermittedBroadcast<'r, S, O, P, R> {
    /// A broadcast that shows no other segment.
    pub fn over(broadcast: Broadcast<'r, S, O, R>) -> PermittedBroadcast<'r, S, O, P, R>
        requires { ShowsPermitted P.permits broadcast.held.publisher.list }
        ensures { result ≡ broadcast.entry }
    {
        PermittedBroadcast {
            inner: broadcast,
            of: PhantomData,
        }
    }

    /// The broadcast.
    pub fn into_inner(self) -> Broadcast<'r, S, O, R>
        ensures is { result ≡ self.entry }
        ensures shown { ShowsPermitted P.permits result.held.publisher.list }
    {
        let PermittedBroadcast { inner, of: _ } = self;
        inner
    }

    /// The runtime of its publisher.
    pub fn rt(&self) -> &'r R {
        self.inner.held.rt
    }
}

impl<'r, S: Source, O: Outlet, P: Permit, R: Wait> PermittedBroadcast<'r, S, O, P, R> {
    /// How many turns all renditions had together.
    pub fn turns_had(&self) -> u128
        ensures is { result ≡ turns_in self.now.course }
        ensures small { result < 2 ^ 127 }
    {
        self.inner.course.turns_had()
    }

    /// Whether what is closed is enough for the next round.
    pub fn is_enough(&self, pace: Pace, awaited: usize, turns: u128) -> bool
        requires each { length self.now.course.turns.items ≡ length self.now.course.lanes.items }
        ensures { Decides result (HasEnough (wanted pace awaited turns) self.now.course) }
    {
        self.inner.course.is_enough(pace, awaited, turns)
    }

    /// Gives each rendition that goes on and is ready one turn, as the course does.
    pub fn read_ready(&mut self, buffer: &mut [u8]) -> Result<bool, AllocError>
        requires whole { length buffer.old ≡ PIECE }
        requires on { IsRun S.input O.output self.old.course }
        ensures ok { OnOk result (ReadsOn S.input O.output self.old.course self.new.course) }
        ensures err { OnErr result (ReadsShort S.input O.output self.old.course self.new.course) }
        ensures same { OnOk result (self.new.course
            ≡ record self.old.course { sources = self.new.course.sources; lanes = self.new.course.lanes; turns = self.new.course.turns }) }
        ensures further { OnOk result (ReadsMore self.old.course self.new.course) }
        ensures told { IfOk result (λ any. Decides any (turns_in self.old.course < turns_in self.new.course)) }
        ensures each { OnOk result ((k : ℕ) → HadOneAtMost S.input k self.old.course self.new.course) }
        ensures idle { IfOk result (λ any. any ≡ false → NoneWaits S.tells self.new.course) }
        ensures none { OnErr result (Rests self.old.course → ⊥) }
        ensures broken { OnErr result (HasBroken self.new.course.lanes.items) }
        ensures held { self.new.held.publisher ≡ self.old.held.publisher }
    {
        self.inner.course.read_ready(buffer)
    }

    /// Gives a sealed segment that may be sealed, the next of rendition `r`, as the broadcast does.
    pub fn give_segment(
        &mut self,
        alloc: Global,
        settings: &Settings,
        r: usize,
        sealed: Sealed<'_>,
    ) -> Result<Option<Vec<u8>>, PackFault>
        requires permitted { P.permits sealed.plan.rendition sealed.plan.number }
        requires failures { O.output.failures self.old.course.outlet < 2 ^ 63 }
        requires allowed { IsAllowed settings.now }
        requires next { IsNextOf settings.now r sealed.plan self.old.course }
        requires sealed { sealed ≡ sealed_segment (rendition_at settings.now r).keys sealed.plan }
        requires shows { counts_shown self.old.held.publisher.list ≡ counts_of self.old.course.playlists.items }
        ensures ok { OnOk result (GivesNext O.output settings.now r sealed.entry.plan self.old self.new) }
        ensures err { OnErr result (GivesNextInPart O.output settings.now r sealed.entry.plan self.old self.new) }
        ensures buffer { IfOk result (λ buffer. IfSome buffer (λ it. it.items ≡ sealed.entry.bytes)) }
        ensures board { self.new.held.publisher.board ≡ self.old.held.publisher.board }
        ensures none_read { ReadsNone self.old.course self.new.course }
        ensures failures { OnOk result (O.output.failures self.new.course.outlet ≡ O.output.failures self.old.course.outlet) }
        ensures fault { IfErr result (λ fault. SaysFailures fault (O.output.failures self.old.course.outlet) (O.output.failures self.new.course.outlet)) }
    {
        self.inner.give_segment(alloc, settings, r, sealed)
    }
}
