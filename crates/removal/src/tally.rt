//! Segments that were removed are counted, for whoever watches a run.

ghost use Rattle.std.specs.Prelude.{◌≡◌, ℕ, ◌+◌, ◌<◌, ◌^◌, ◌∷◌, [], true, false, OnErr, OnOk};
ghost use Rattle.item_io.specs.Items.{item_value, segment_with};
ghost use Rattle.item_io.specs.Outlets.{BreaksOff, Grows};
ghost use Rattle.keeping.specs.Keepings.{removed_of};
ghost use Rattle.removal.specs.Since.{HoldsSince, HoldsSinceUpTo, since_view};

use folder::{AheadFile, Folder};
use item_io::{Item, Outlet, OutletFault};
use keeping::KeepingOutlet;
use std::marker::Model;

/// Who is told how many segments were removed. What a run does doesn't depend on it.
pub trait RemovalHerald {
    /// It was told that so many were removed.
    ghost was_removed: { Self → ℕ → Type 0 } = { λ _ _. Unit {0} };

    /// So many were removed by now, of all renditions together.
    fn removed(&self, segments: u128)
        ensures { was_removed self.now segments };
}

/// An outlet that tells at first and behind each item how many segments were removed. Clauses see the outlet alone; what it holds says
/// also with which renditions it began. How many were removed by then was always told.
#[derive(Drop)]
pub struct Tallied<'t, F, T: RemovalHerald> {
    outlet: KeepingOutlet<F>,
    tally: &'t T,
    told: u128,
}

impl<'t, F, T: RemovalHerald> Model for Tallied<'t, F, T> {
    ghost use Rattle.std.specs.Prelude.{◌≡◌};
    ghost use Rattle.keeping.specs.Holding.{KeepingState};
    ghost use Rattle.keeping.specs.Keepings.{removed_of};

    ghost Value = { KeepingState F };

    ghost view = { λ o. o.outlet };

    ghost invariant = { λ o. (o.told ≡ removed_of o.outlet.renditions) × T.was_removed o.tally.now o.told };
}

impl<'t, F: Folder, T: RemovalHerald> Tallied<'t, F, T> {
    /// Over an outlet.
    pub fn over(outlet: KeepingOutlet<F>, tally: &'t T) -> Tallied<'t, F, T>
        ensures { result ≡ outlet }
    {
        let told = tell(&outlet, tally);
        Tallied {
            outlet,
            tally,
            told,
        }
    }

    /// The outlet. How many were removed was told.
    pub fn into_outlet(self) -> KeepingOutlet<F>
        ensures is { result ≡ self.entry }
        ensures told { (tally : T) × T.was_removed tally (removed_of result.renditions) }
    {
        let Tallied {
            outlet,
            tally: _,
            told: _,
        } = self;
        outlet
    }
}

impl<F: Folder, T: RemovalHerald> Outlet for Tallied<'_, F, T> {
    ghost output = { since_view F.made };

    fn put(&mut self, item: &Item) -> Result<(), OutletFault>
        requires { self.old.files.failures < 2 ^ 63 }
        ensures grown { OnOk result (Grows (HoldsSince F.made self.old) (HoldsSince F.made self.new) (item_value item.now ∷ [])) }
        ensures ok { OnOk result (self.new.files.failures ≡ self.old.files.failures) }
        ensures kept { OnErr result (Grows (HoldsSince F.made self.old) (HoldsSince F.made self.new) []) }
        ensures refused { OnErr result (self.old.files.failures ≡ 0 →
            BreaksOff (HoldsSince F.made self.old) (HoldsSinceUpTo F.made self.new) [] (item_value item.now)) }
        ensures failed { OnErr result (self.new.files.failures ≡ self.old.files.failures + 1) }
    {
        let answer = self.outlet.put(item);
        self.told = tell(&self.outlet, self.tally);
        answer
    }

    fn take(&mut self, rendition: usize, number: u64, name: &str, file: AheadFile) -> bool
        ensures taken { result ≡ true → Grows (HoldsSince F.made self.old) (HoldsSince F.made self.new)
            (segment_with rendition number name.now file.bytes ∷ []) }
        ensures kept { result ≡ false → Grows (HoldsSince F.made self.old) (HoldsSince F.made self.new) [] }
        ensures failures { self.new.files.failures ≡ self.old.files.failures }
    {
        let took = self.outlet.take(rendition, number, name, file);
        self.told = tell(&self.outlet, self.tally);
        took
    }
}

/// Tells how many segments an outlet removed, and answers it.
fn tell<F: Folder, T: RemovalHerald>(outlet: &KeepingOutlet<F>, tally: &T) -> u128
    ensures is { result ≡ removed_of outlet.now.renditions }
    ensures told { T.was_removed tally.now result }
{
    let removed = outlet.removed();
    tally.removed(removed);
    removed
}
