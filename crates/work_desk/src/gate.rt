//! What is asked before a segment is sealed.

ghost use Rattle.std.specs.Prelude.{◌≡◌, [], ℕ, IfSome, List, Some, true, false};
ghost use Rattle.cutter.specs.Plans.{SegmentPlan};
ghost use Rattle.segment_job.specs.Rotation.{KeyRotation};

use crate::no_file::NoFile;
use folder::WriteFile;
use std::marker::Brand;

/// Who is asked before each segment is sealed, and may have a file for it. Many workers ask at once.
pub trait Gate {
    /// A file that a segment is sealed into.
    type File: WriteFile + Send + Drop;

    /// What holds of a segment, by its rendition and its number, that was let through.
    ghost lets: { Self → ℕ → ℕ → Type 0 };

    /// What holds of a segment that was held back.
    ghost stops: { Self → ℕ → ℕ → Type 0 };

    /// Whether the segment may be sealed.
    fn pass(&self, rendition: usize, number: u64) -> bool
        ensures passed { result ≡ true → lets self.now rendition number }
        ensures held { result ≡ false → stops self.now rendition number };

    /// A file for a segment that was let through, in which there is nothing yet. None where there is none: then the segment is sealed
    /// in memory.
    fn file(&self, _rendition: usize, _number: u64) -> Option<Self::File>
        ensures { IfSome result (λ file. Self.File.contents file ≡ Some []) }
    {
        None
    }
}

/// A gate that lets everything through, and has no files.
#[derive(Clone, Copy, Debug, Drop)]
pub struct FreeGate;

impl Gate for FreeGate {
    type File = NoFile;

    ghost lets = { λ _ _ _. Unit {0} };

    ghost stops = { λ _ _ _. ⊥ };

    fn pass(&self, _rendition: usize, _number: u64) -> bool {
        true
    }
}

/// Which plans may be fed, which segments may be sealed, by their rendition and their number, and under which keys. A type stands for it,
/// which a run picks by its spools, its gate and its settings: so what a desk of that type hands out is known to be of one of those plans
/// and to have been let through, and its workers have those keys.
pub trait Permit {
    ghost permits: { ℕ → ℕ → Type 0 };

    /// Whether these are the keys of each rendition, by its number.
    ghost keys: { List KeyRotation → Type 0 };

    /// Whether this is one of the plans that may be fed.
    ghost plans: { SegmentPlan → Type 0 };
}

impl Permit for Brand {
    ghost permits = { λ _ _. Unit {0} };

    ghost keys = { λ _. Unit {0} };

    ghost plans = { λ _. Unit {0} };
}
