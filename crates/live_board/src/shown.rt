//! What the two copies hold.

ghost use Rattle.std.specs.Prelude.{◌≡◌, IsOk, MatchResult};
ghost use Rattle.std.specs.Arc.{arc_value};

use crate::history::History;
use crate::snapshot::Snapshot;
use left_right::Absorb;
use std::alloc::AllocError;
use std::sync::Arc;

/// A snapshot, and the history that it ends.
#[derive(Drop)]
pub struct Moment {
    pub snapshot: Snapshot,
    pub history: History,
}

/// One of the two copies. An operation is the next moment, which replaces the one before.
#[derive(Drop)]
pub struct Shown {
    pub moment: Arc<Moment>,
}

impl Absorb<Arc<Moment>> for Shown {
    type State = Moment;

    ghost state = { λ s. arc_value s.moment };

    ghost applied = { λ _ operation. arc_value operation };

    fn absorb_first(&mut self, operation: &Arc<Moment>, _other: &Shown) -> Result<(), AllocError> {
        self.moment = Arc::try_clone(operation)?;
        Ok(())
    }

    fn absorb_second(&mut self, operation: Arc<Moment>, _other: &Shown) -> Result<(), Arc<Moment>>
        ensures absorbed { MatchResult result (λ _. arc_value self.new.moment ≡ arc_value operation)
            (λ back. (back ≡ operation) × (arc_value self.new.moment ≡ arc_value self.old.moment)) }
        ensures succeeds { ⊥ → IsOk result }
        ensures never { IsOk result }
    {
        self.moment = operation;
        Ok(())
    }
}
