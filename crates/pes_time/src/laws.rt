//! What the words of the contracts mean.
ghost use Rattle.std.specs.Prelude.{◌≡◌, ℕ, ℤ, List, [], ◌∷◌, ◌++◌};
ghost use Rattle.pes_time.specs.Times.{times, epoch, stamp_of, ArePts, AreTimes};

/// The times of a list of PTS values: the first is the first PTS, and each next one is equal to its PTS modulo 2^33 and
/// lies at least -2^32 and below 2^32 from the time before. There is one such list.
pub fn times_are_the_ones()
    ensures are { (list : List ℕ) → ArePts list → AreTimes list (times list) }
    ensures only { (list : List ℕ) (us : List ℤ) → ArePts list → AreTimes list us → us ≡ times list }
{}

/// One PTS more adds one time, that of its stamp, and leaves the times before as they are. The stamp's epoch is the
/// number of the times up to it that lie more than the gap from the one before.
pub fn stamps_go_on()
    ensures time { (gap : ℕ) (list : List ℕ) (pts : ℕ) →
        times (list ++ pts ∷ []) ≡ times list ++ (stamp_of gap list pts).time ∷ [] }
    ensures epoch { (gap : ℕ) (list : List ℕ) (pts : ℕ) →
        (stamp_of gap list pts).epoch ≡ epoch gap (times (list ++ pts ∷ [])) }
{}
