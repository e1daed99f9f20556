//! Whether a run fits its settings, its inputs, its workers and its publisher.

ghost use Rattle.std.specs.Prelude.{◌≡◌, Decides, length, replicate};
ghost use Rattle.live_board.specs.Counts.{counts_shown};
ghost use Rattle.rounds.specs.Shown.{Fits};

use ladder_items::{Settings, is_allowed};
use limits::{LEAST, MOST_WORKERS};
use live_board::Publisher;

/// Whether the settings are allowed, there are as many inputs as renditions, there are 1 to 64 workers, and the publisher has
/// that many renditions, none of which has a segment. It takes no memory.
pub fn fits(settings: &Settings, inputs: usize, workers: usize, publisher: &Publisher) -> bool
    ensures { Decides result (Fits settings.now inputs workers (counts_shown publisher.now.list)) }
{
    if (workers as u64) < LEAST || workers as u64 > MOST_WORKERS {
        return false;
    }
    if !shows_none(publisher.counts(), settings.renditions.len()) {
        return false;
    }
    is_allowed(settings, inputs)
}

/// Whether these are the counts of `renditions` renditions, none of which has a segment.
fn shows_none(counts: &[u64], renditions: usize) -> bool
    ensures { Decides result (counts.now ≡ replicate renditions 0) }
{
    if counts.len() != renditions {
        return false;
    }
    for count in counts {
        if *count != 0 {
            return false;
        }
    }
    true
}
