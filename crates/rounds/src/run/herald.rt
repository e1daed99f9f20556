//! Faults are told when they stand, while the other renditions are packed on.

ghost use Rattle.std.specs.Prelude.{◌≡◌, ◌<◌, ℕ};
ghost use Rattle.rounds.specs.Heralds.{TellsAll, TellsOne};
ghost use Rattle.rounds.specs.declared.run.telling.TheConstants.{RENDITIONS};
ghost use Rattle.ladder_items.specs.declared.fault.PackFault.{PackFault};

use crate::run::course::Course;
use crate::run::telling::{RENDITIONS, Telling, fault_of};
use ingest::Stop;
use ladder_items::PackFault;

/// Who is told how a run goes on: each rendition's fault as soon as it stands, and how many segments are complete. What a run
/// gives doesn't depend on it.
pub trait Herald {
    /// It was told this fault.
    ghost was_told: { Self → PackFault → Type 0 } = { λ _ _. Unit {0} };

    /// It was told that so many segments are complete.
    ghost was_completed: { Self → ℕ → Type 0 } = { λ _ _. Unit {0} };

    /// A rendition gives no more, since it has this fault: no read of it follows. It's told once.
    fn tell(&self, fault: PackFault)
        ensures { was_told self.now fault };

    /// So many segments were completed by now, of all renditions together. Those that weren't listed yet are sealed next.
    fn completed(&self, segments: u128)
        ensures { was_completed self.now segments };
}

/// Nobody: faults are told by the answer of the run alone.
#[derive(Clone, Copy, Debug, Drop)]
pub struct Nobody;

impl Herald for Nobody {
    fn tell(&self, _fault: PackFault) {}

    fn completed(&self, _segments: u128) {}
}

impl<'h, H: Herald> Telling<'h, H> {
    /// Tells the fault of rendition `r`, if it stopped by one that wasn't told yet.
    fn tell(&mut self, r: usize, stop: Option<Stop>)
        requires { r < RENDITIONS }
        ensures ok { TellsOne (H.was_told self.old.herald.now) self.old.told r stop self.new.told }
        ensures herald { self.new.herald ≡ self.old.herald }
    {
        if self.has_told(r) {
            return;
        }
        if let Some(found) = fault_of(r, stop) {
            self.tell_first(found);
        }
    }
}

impl<S, O> Course<S, O> {
    /// Tells the faults of all renditions that weren't told yet.
    pub fn tell_faults<H: Herald>(&self, telling: &mut Telling<'_, H>)
        ensures ok { TellsAll (H.was_told telling.old.herald.now) RENDITIONS telling.old.told self.now.lanes.items telling.new.told }
        ensures herald { telling.new.herald ≡ telling.old.herald }
    {
        for r in 0..self.lanes.len().min(RENDITIONS) {
            telling.tell(r, self.lanes[r].stop);
        }
    }
}
