//! What a run tells of itself while it goes on, for several threads.
ghost use Rattle.std.specs.Prelude.{◌≡◌, ◌≤◌, IfOk, length};
ghost use Rattle.std.specs.Arc.{arc_value};
ghost use Rattle.program.specs.declared.told.Tellings.{Tellings};
ghost use Rattle.ladder_items.specs.Ladder.{IsAllowed, Ladder};
ghost use Rattle.program.specs.declared.bulletin.TheConstants.{RENDITIONS};

use crate::bulletin::{Bulletin, NotedCompleted, NotedFault, NotedRemoved};
use pipeline::PackFault;
use std::alloc::AllocError;
use std::sync::{Arc, Mutex, Wait};

/// Each rendition of a ladder has a place of its own.
pub fn each_has_a_place()
    ensures { (ladder : Ladder) → IsAllowed ladder → length ladder.renditions ≤ RENDITIONS }
{}

/// Who keeps in mind what a run tells of itself.
pub trait KeepsTellings {
    /// Where it is kept.
    ghost kept: { Self → Tellings };

    /// Where it is kept, for one more owner.
    fn tellings(&self) -> Result<Arc<Tellings>, AllocError>
        ensures { IfOk result (λ told. arc_value told ≡ kept self.now) };
}

/// What was told so far, for several threads.
#[derive(Drop)]
pub struct Tellings {
    told: Mutex<Bulletin>,
}

impl Tellings {
    /// Nothing was told yet.
    pub fn new() -> Tellings {
        Tellings {
            told: Mutex::new(Bulletin::nothing()),
        }
    }

    /// What was told so far.
    pub fn so_far<R: Wait>(&self, rt: &R) -> Bulletin {
        *self.told.lock(rt)
    }

    /// Keeps in mind that this fault was told.
    pub fn note_fault<R: Wait>(&self, rt: &R, fault: PackFault) -> NotedFault
        ensures { result.fault ≡ fault }
    {
        self.told.lock(rt).note_fault(fault)
    }

    /// So many segments are complete.
    pub fn note_completed<R: Wait>(&self, rt: &R, segments: u128) -> NotedCompleted
        ensures { result.segments ≡ segments }
    {
        self.told.lock(rt).note_completed(segments)
    }

    /// So many segments were removed.
    pub fn note_removed<R: Wait>(&self, rt: &R, segments: u128) -> NotedRemoved
        ensures { result.segments ≡ segments }
    {
        self.told.lock(rt).note_removed(segments)
    }
}
