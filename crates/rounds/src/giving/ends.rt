//! Gives the ends of the renditions that have nothing left to give.

ghost use Rattle.std.specs.Prelude.{◌≡◌, ◌≢◌, ◌<◌, [], ℕ, IfErr, OnErr, OnOk, Some, false, length, slice_get, slice_index_or};
ghost use Rattle.ingest.specs.Lanes.{is_good};
ghost use Rattle.ingest.specs.declared.lane.Lane.{Lane};
ghost use Rattle.live_board.specs.Counts.{counts_shown};
ghost use Rattle.rounds.specs.Courses.{HasEndDue, HasGoodEnds, IsEndDue, IsSomeBetween, ReadsNone, StaysBetween, StopsAt, StopsBetween};
ghost use Rattle.rounds.specs.Gated.{IsUnheld};
ghost use Rattle.rounds.specs.Heralds.{AllTold};
ghost use Rattle.rounds.specs.declared.run.telling.TheConstants.{RENDITIONS};

use crate::giving::broadcast::Broadcast;
use crate::run::telling::Telling;
use item_io::{Outlet, Source};
use ladder_items::{PackFault, Settings};
use std::alloc::Global;
use std::sync::Wait;

impl<'r, S: Source, O: Outlet, R: Wait> Broadcast<'r, S, O, R> {
    /// Gives the end of rendition `r` if its input ended well, nothing of it is left to give, and its end hasn't been given.
    fn give_end_of(&mut self, alloc: Global, settings: &Settings, r: usize) -> Result<(), PackFault>
        requires within { r < length settings.now.renditions }
        requires on { IsSomeBetween S.input O.output settings.now self.old }
        ensures ok { OnOk result (StaysBetween S.input O.output settings.now self.old self.new) }
        ensures err { IfErr result (StopsBetween S.input O.output settings.now self.old self.new) }
        ensures unheld { IfErr result IsUnheld }
        ensures shown { counts_shown self.new.held.publisher.list ≡ counts_shown self.old.held.publisher.list }
        ensures none_read { ReadsNone self.old.course self.new.course }
        ensures playlists { self.new.course.playlists ≡ self.old.course.playlists }
        ensures ended { OnOk result ((lane : Lane) → slice_get self.old.course.lanes.items r ≡ Some lane → lane.intake.filled ≡ []
            → slice_index_or self.new.course.ended.items r false ≡ is_good lane.stop) }
        ensures others { OnOk result ((k : ℕ) → k ≢ r
            → slice_index_or self.new.course.ended.items k false ≡ slice_index_or self.old.course.ended.items k false) }
        ensures none { OnErr result (IsEndDue r self.old.course) }
        ensures unshown { OnErr result (self.new.held.publisher.list ≡ self.old.held.publisher.list) }
    {
        let lane = &self.course.lanes[r];
        if lane.intake.plans() > 0 {
            return Ok(());
        }
        if lane.is_good() == self.course.ended[r] {
            return Ok(());
        }
        self.give_its_end(alloc, settings, r)?;
        Ok(())
    }

    /// Gives the end of each rendition whose input ended well, that has nothing left to give, and whose end hasn't been given. Each
    /// fault that stands was told before.
    pub fn give_ends<H>(
        &mut self,
        alloc: Global,
        settings: &Settings,
        _telling: &Telling<'_, H>,
    ) -> Result<(), PackFault>
        requires told { AllTold RENDITIONS _telling.now.told self.old.course.lanes.items }
        requires on { IsSomeBetween S.input O.output settings.now self.old }
        ensures ok { OnOk result (StaysBetween S.input O.output settings.now self.old self.new) }
        ensures err { IfErr result (StopsBetween S.input O.output settings.now self.old self.new) }
        ensures unheld { IfErr result IsUnheld }
        ensures shown { counts_shown self.new.held.publisher.list ≡ counts_shown self.old.held.publisher.list }
        ensures none_read { ReadsNone self.old.course self.new.course }
        ensures playlists { self.new.course.playlists ≡ self.old.course.playlists }
        ensures ended { OnOk result (HasGoodEnds settings.now self.new.course) }
        ensures none { OnErr result (HasEndDue settings.now self.old.course) }
        ensures left { OnErr result (StopsAt S.input O.output settings.now self.old self.new) }
    {
        for r in 0..settings.renditions.len() {
            self.give_end_of(alloc, settings, r)?;
        }
        Ok(())
    }
}
