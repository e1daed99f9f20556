//! What a run told of itself so far.
ghost use Rattle.std.specs.Prelude.{◌≡◌, ◌++◌, ◌∷◌, All, Contains, IsSome, List, None, Option, Some, replicate};
ghost use Rattle.ladder_items.specs.declared.fault.PackFault.{PackFault};

use limits::MOST_RENDITIONS;
use pipeline::PackFault;

/// As many renditions as a ladder has at the most.
pub const RENDITIONS: usize = MOST_RENDITIONS as usize;

/// What was told so far.
#[derive(Clone, Copy, Drop)]
pub struct Bulletin {
    /// The faults of renditions, in the order in which they were told.
    pub faults: [Option<PackFault>; RENDITIONS],
    /// How many segments are complete, of all renditions.
    pub completed: u128,
    /// How many segments were removed.
    pub removed: u128,
}

/// It is kept in mind that this fault was told.
#[derive(Drop)]
pub struct NotedFault {
    fault: PackFault,
}

/// It is kept in mind that so many segments are complete.
#[derive(Drop)]
pub struct NotedCompleted {
    segments: u128,
}

/// It is kept in mind that so many segments were removed.
#[derive(Drop)]
pub struct NotedRemoved {
    segments: u128,
}

impl Bulletin {
    /// Nothing was told yet.
    pub fn nothing() -> Bulletin
        ensures faults { result.faults ≡ replicate RENDITIONS None }
        ensures completed { result.completed ≡ 0 }
        ensures removed { result.removed ≡ 0 }
    {
        Bulletin {
            faults: [None; RENDITIONS],
            completed: 0,
            removed: 0,
        }
    }

    /// This fault was told.
    pub fn note_fault(&mut self, fault: PackFault) -> NotedFault
        ensures kept { self.new ≡ record self.old { faults = self.new.faults } }
        ensures noted { Contains self.old.faults None → (front behind : List (Option PackFault)) × All IsSome front ×
            (self.old.faults ≡ front ++ None ∷ behind) × (self.new.faults ≡ front ++ Some fault ∷ behind) }
        ensures full { All IsSome self.old.faults → self.new.faults ≡ self.old.faults }
        ensures fault { result.fault ≡ fault }
    {
        note_in(&mut self.faults, fault);
        NotedFault { fault }
    }

    /// So many segments are complete.
    pub fn note_completed(&mut self, segments: u128) -> NotedCompleted
        ensures noted { self.new ≡ record self.old { completed = segments } }
        ensures segments { result.segments ≡ segments }
    {
        self.completed = segments;
        NotedCompleted { segments }
    }

    /// So many segments were removed.
    pub fn note_removed(&mut self, segments: u128) -> NotedRemoved
        ensures noted { self.new ≡ record self.old { removed = segments } }
        ensures segments { result.segments ≡ segments }
    {
        self.removed = segments;
        NotedRemoved { segments }
    }
}

/// Puts a fault into the first place that is free. Where none is, it is left out.
#[tactic(auto, using(crate::proofs::Naming::noted_at))]
fn note_in(faults: &mut [Option<PackFault>], fault: PackFault)
    ensures noted { Contains faults.old None → (front behind : List (Option PackFault)) × All IsSome front ×
        (faults.old ≡ front ++ None ∷ behind) × (faults.new ≡ front ++ Some fault ∷ behind) }
    ensures full { All IsSome faults.old → faults.new ≡ faults.old }
{
    for place in 0..faults.len() {
        if faults[place].is_none() {
            faults[place] = Some(fault);
            return;
        }
    }
}
