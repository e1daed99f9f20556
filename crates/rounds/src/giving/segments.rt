//! Gives a segment or an end: puts its items to the outlet, then publishes a snapshot.

ghost use Rattle.std.specs.Prelude.{◌++◌, ◌<◌, ◌^◌, ◌∷◌, ◌≡◌, All, IfErr, IfOk, IfSome, OnErr, OnOk, [], false, length};
ghost use Rattle.ladder_items.specs.Ladder.{IsAllowed, rendition_at};
ghost use Rattle.ladder_items.specs.Putting.{SaysFailures};
ghost use Rattle.ladder_items.specs.declared.fault.PackFault.TheVariants.{NoMemory};
ghost use Rattle.live_board.specs.Counts.{NoneFalls, counts_shown};
ghost use Rattle.rounds.specs.Courses.{GivesItsEnd, GivesItsEndInPart, GivesNext, GivesNextInPart, GoesOn, IsNextOf, ReadsNone};
ghost use Rattle.rounds.specs.Showing.{counts_of, facts_of};
ghost use Rattle.segment_job.specs.Segments.{sealed_segment};

use crate::giving::broadcast::Broadcast;
use crate::giving::snapshots::publish;
use crate::run::course::Course;
use item_io::{Outlet, Source};
use ladder_items::{PackFault, Settings, give_end, give_sealed};
use live_board::HeldPublisher;
use segment_job::Sealed;
use std::alloc::Global;
use std::sync::Wait;

impl<'r, S: Source, O: Outlet, R: Wait> Broadcast<'r, S, O, R> {
    /// Gives a sealed segment, the next of rendition `r`, followed by its playlists, and publishes a snapshot. Returns the buffer that
    /// the segment lay in, if it did.
    pub fn give_segment(
        &mut self,
        alloc: Global,
        settings: &Settings,
        r: usize,
        sealed: Sealed<'_>,
    ) -> Result<Option<Vec<u8>>, PackFault>
        requires failures { O.output.failures self.old.course.outlet < 2 ^ 63 }
        requires allowed { IsAllowed settings.now }
        requires next { IsNextOf settings.now r sealed.plan self.old.course }
        requires sealed { sealed ≡ sealed_segment (rendition_at settings.now r).keys sealed.plan }
        requires shows { counts_shown self.old.held.publisher.list ≡ counts_of self.old.course.playlists.items }
        ensures ok { OnOk result (GivesNext O.output settings.now r sealed.entry.plan self.old self.new) }
        ensures err { OnErr result (GivesNextInPart O.output settings.now r sealed.entry.plan self.old self.new) }
        ensures buffer { IfOk result (λ buffer. IfSome buffer (λ it. it.items ≡ sealed.entry.bytes)) }
        ensures board { self.new.held.publisher.board ≡ self.old.held.publisher.board }
        ensures none_read { ReadsNone self.old.course self.new.course }
        ensures failures { OnOk result (O.output.failures self.new.course.outlet ≡ O.output.failures self.old.course.outlet) }
        ensures fault { IfErr result (λ fault. SaysFailures fault (O.output.failures self.old.course.outlet) (O.output.failures self.new.course.outlet)) }
    {
        let buffer = give_sealed(
            alloc,
            &mut self.course.outlet,
            settings,
            r,
            sealed,
            &mut self.course.playlists,
        )?;
        publish_given(alloc, settings, &self.course, &mut self.held)?;
        Ok(buffer)
    }

    /// Gives the end of rendition `r`, which is its final playlists, and publishes a snapshot.
    pub fn give_its_end(
        &mut self,
        alloc: Global,
        settings: &Settings,
        r: usize,
    ) -> Result<(), PackFault>
        requires failures { O.output.failures self.old.course.outlet < 2 ^ 63 }
        requires allowed { IsAllowed settings.now }
        requires next { GoesOn settings.now r self.old.course }
        requires shows { counts_shown self.old.held.publisher.list ≡ counts_of self.old.course.playlists.items }
        ensures ok { OnOk result (GivesItsEnd O.output settings.now r self.old self.new) }
        ensures err { OnErr result (GivesItsEndInPart O.output settings.now r self.old self.new) }
        ensures board { self.new.held.publisher.board ≡ self.old.held.publisher.board }
        ensures none_read { ReadsNone self.old.course self.new.course }
        ensures playlists { self.new.course.playlists ≡ self.old.course.playlists }
        ensures shown { counts_shown self.new.held.publisher.list ≡ counts_shown self.old.held.publisher.list }
        ensures failures { OnOk result (O.output.failures self.new.course.outlet ≡ O.output.failures self.old.course.outlet) }
        ensures fault { IfErr result (λ fault. SaysFailures fault (O.output.failures self.old.course.outlet) (O.output.failures self.new.course.outlet)) }
    {
        give_end(&mut self.course.outlet, settings, r, &self.course.playlists)?;
        self.course.ended[r] = true;
        publish_given(alloc, settings, &self.course, &mut self.held)?;
        Ok(())
    }
}

/// Publishes a snapshot of what has been given.
fn publish_given<S: Source, O: Outlet, R: Wait>(
    alloc: Global,
    settings: &Settings,
    course: &Course<S, O>,
    held: &mut HeldPublisher<'_, R>,
) -> Result<(), PackFault>
    requires allowed { IsAllowed settings.now }
    requires going { All (λ shown. shown.ended ≡ false) course.now.playlists.items }
    requires each { length course.now.playlists.items ≡ length settings.now.renditions }
    requires ends { length course.now.ended.items ≡ length course.now.playlists.items }
    requires rising { NoneFalls (counts_shown held.old.publisher.list) (counts_of course.now.playlists.items) }
    ensures ok { OnOk result (held.new.publisher.list
        ≡ held.old.publisher.list ++ facts_of settings.now.renditions course.now.playlists.items course.now.ended.items ∷ []) }
    ensures err { OnErr result (held.new.publisher.list ≡ held.old.publisher.list) }
    ensures board { held.new.publisher.board ≡ held.old.publisher.board }
    ensures fault { IfErr result (λ fault. fault ≡ NoMemory) }
{
    publish(
        held.rt,
        alloc,
        &mut held.publisher,
        &settings.renditions,
        &course.playlists,
        &course.ended,
    )
}
