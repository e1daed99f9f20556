//! The pace of a run: how many closed segments make a round.

ghost use Rattle.std.specs.Prelude.{◌≡◌};
ghost use Rattle.rounds.specs.Paces.{pace_of, wanted};

/// How many turns are had for a round, at the least, before one segment is enough: what is read in them, at most 18,800 bytes in each,
/// is 47 MB. So what is held is bounded by bytes too, and not by the number of segments alone.
const TURNS: u128 = 2500;

/// How many for each worker: 23.5 MB. Fewer would leave workers idle where segments are that large.
const TURNS_A_WORKER: u128 = 1250;

/// How many closed segments, over all renditions, begin the next round.
#[derive(Clone, Copy)]
pub struct Pace {
    /// How many are enough once all of the round before has been given.
    pub least: usize,
    /// How many are enough while segments of the round before are still to be given.
    pub most: usize,
    /// After how many turns one is enough. It is at any time where no source is ready.
    pub turns: u128,
}

impl Pace {
    /// The pace for this many workers and rounds of `batch` segments.
    pub fn new(workers: usize, batch: usize) -> Pace
        ensures { result ≡ pace_of workers batch }
    {
        Pace {
            least: batch.min(workers),
            most: batch,
            turns: TURNS.max(TURNS_A_WORKER * workers as u128),
        }
    }

    /// How many closed segments begin the next round, while so many of the round before are still to be given, and after so many turns.
    pub fn wanted(&self, awaited: usize, turns: u128) -> usize
        ensures { result ≡ wanted self.now awaited turns }
    {
        if turns >= self.turns {
            return 1;
        }
        if awaited == 0 {
            return self.least;
        }
        self.most
    }
}
