//! Swapping: the full spools of all renditions are swapped for spare ones.

ghost use Rattle.std.specs.Prelude.{◌≡◌, ◌≢◌, ◌<◌, [], ℕ, false, true, IfOk, IsOk, OnErr, OnOk, Some, length, slice_get};
ghost use Rattle.ingest.specs.Streams.{HasNoneOpen};
ghost use Rattle.ingest.specs.declared.lane.Lane.{Lane};
ghost use Rattle.rounds.specs.Courses.{NoneClosed};
ghost use Rattle.rounds.specs.Rounds.{SwapsOne, SwapsOut, SwapsShort, TakesClosed};

use crate::run::course::Course;
use cutter::Spool;
use item_io::{Outlet, Source};
use std::alloc::{AllocError, Global};

impl<S: Source, O: Outlet> Course<S, O> {
    /// Swaps the spools of all renditions, none of which has plans waiting, for the spare ones, and returns the full ones.
    pub fn swap_all(&mut self, alloc: Global, spare: Vec<Spool>) -> Result<Vec<Spool>, AllocError>
        requires each { length spare.items ≡ length self.old.lanes.items }
        ensures ok { IfOk result (λ full. SwapsOut S.input O.output self.old self.new full.items) }
        ensures err { OnErr result (SwapsShort S.input O.output self.old self.new) }
        ensures same { self.new ≡ record self.old { lanes = self.new.lanes } }
        ensures count { length self.new.lanes.items ≡ length self.old.lanes.items }
        ensures each { IfOk result (λ full. length full.items ≡ length self.old.lanes.items) }
        ensures empty { OnOk result (NoneClosed self.new.lanes.items) }
        ensures taken { IfOk result (λ full. TakesClosed self.old.lanes.items self.new.lanes.items full.items) }
    {
        let mut full = Vec::new(alloc);
        for spool in spare {
            let r = full.len();
            full.reserve(1)?;
            full.push_reserved(self.swap_one(r, spool)?);
        }
        Ok(full)
    }

    /// Swaps the spool of rendition `r`, which has no plans waiting, and returns the full one.
    fn swap_one(&mut self, r: usize, spare: Spool) -> Result<Spool, AllocError>
        requires within { r < length self.old.lanes.items }
        ensures ok { IfOk result (SwapsOne S.input O.output r self.old self.new) }
        ensures empty { OnOk result ((lane : Lane) → slice_get self.new.lanes.items r ≡ Some lane → lane.intake.filled ≡ []) }
        ensures taken { IfOk result (λ full. (lane now : Lane) → slice_get self.old.lanes.items r ≡ Some lane → slice_get self.new.lanes.items r ≡ Some now
            → (full ≡ lane.intake.filled) × (now.stop ≡ lane.stop)) }
        ensures others { OnOk result ((k : ℕ) → k ≢ r → slice_get self.new.lanes.items k ≡ slice_get self.old.lanes.items k) }
        ensures err { OnErr result (self.new.lanes.items ≡ self.old.lanes.items) }
        ensures ended { (lane : Lane) → slice_get self.old.lanes.items r ≡ Some lane → lane.intake.ended ≡ true → IsOk result }
        ensures none { (lane : Lane) → slice_get self.old.lanes.items r ≡ Some lane → lane.intake.ended ≡ false
            → HasNoneOpen lane.intake → IsOk result }
        ensures same { self.new ≡ record self.old { lanes = self.new.lanes } }
        ensures count { length self.new.lanes.items ≡ length self.old.lanes.items }
    {
        match self.lanes[r].intake.swap(spare) {
            Ok(full) => Ok(full),
            Err(_) => Err(AllocError),
        }
    }
}
