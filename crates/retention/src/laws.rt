//! What it is good for that a segment is kept so long.
ghost use Rattle.std.specs.Prelude.{◌≡◌, ◌+◌, ◌*◌, ◌<◌, ◌≤◌, ℕ, List, ◌++◌, All, length, drop};
ghost use Rattle.retention.specs.declared.step.Step.{Step};
ghost use Rattle.retention.specs.Steps.{AreSteps, MayGo, IsKeptFrom, IsLongOut, IsLongest, first_of, time};

/// No segment that the last playlist lists may go.
pub fn none_is_removed_that_is_listed()
    ensures { (least : ℕ) (steps : List Step) (n i : ℕ) → AreSteps steps → MayGo least steps n →
        i + 1 ≡ length steps → n < first_of steps i }
{}

/// Before a segment may go, no playlist lists it for as long as its own duration and that of the longest playlist that ever
/// listed it (RFC 8216, 6.2.2).
pub fn none_is_removed_too_early()
    ensures { (least : ℕ) (steps : List Step) (n : ℕ) → AreSteps steps → MayGo least steps n → IsLongOut steps n }
{}

/// What may go now may go at any later time.
pub fn what_may_go_may_go_later()
    ensures { (least : ℕ) (steps more : List Step) (n : ℕ) → AreSteps steps → MayGo least steps n → MayGo least (steps ++ more) n }
{}

/// There is one place from which on segments are kept, and it never falls.
pub fn one_place_is_kept_from()
    ensures one { (least : ℕ) (steps : List Step) (j k : ℕ) → IsKeptFrom least steps j → IsKeptFrom least steps k → j ≡ k }
    ensures rises { (least : ℕ) (steps more : List Step) (j k : ℕ) → AreSteps steps → IsKeptFrom least steps j →
        IsKeptFrom least (steps ++ more) k → j ≤ k }
{}

/// The segments that are kept last no longer, together, than twice the longest playlist and two segments.
pub fn files_that_are_kept_are_bounded()
    ensures { (least : ℕ) (steps : List Step) (j most longest_segment : ℕ) → AreSteps steps → IsKeptFrom least steps j →
        IsLongest least steps most → All (λ step. step.micros ≤ longest_segment) steps →
        time (drop j steps) ≤ 2 * most + 2 * longest_segment }
{}
