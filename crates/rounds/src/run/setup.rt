//! What a run is given: the setup that stays the same, and the endpoints that come back.

ghost use Rattle.std.specs.Prelude.{◌≡◌, false, min};
ghost use Rattle.rounds.specs.Paces.{pace_in};

use crate::run::pace::Pace;
use ladder_items::Settings;
use live_board::Publisher;
use std::alloc::Global;
use work_desk::Shelf;

/// What stays the same from a run's first round to its last.
#[derive(Drop)]
pub struct Setup<'a, G, R> {
    pub rt: &'a R,
    pub alloc: Global,
    pub settings: &'a Settings,
    /// How many threads seal, 1 to 64.
    pub workers: usize,
    /// What is asked before a segment is sealed, by a worker or by the calling thread.
    pub gate: &'a G,
    /// How many closed segments, over all renditions, begin a round at the latest.
    ///
    /// When all of the round before has been given, one for each worker is enough, or at least one where no source is ready; and one is,
    /// once 23.5 MB were read for each worker, and 47 MB at least. With a batch of 1, a segment waits for no other to be closed; with
    /// fewer than there are workers, some workers are idle in most rounds; with more, workers wait less often for each other, and more
    /// segments are held at a time. What is given doesn't depend on it.
    pub batch: usize,
    /// Whether a worker takes a second segment wherever one waits, since two side by side take about the time of one, as with AVX2; or
    /// only where more wait than workers are idle. With pairs, the gate mustn't hold one segment until it was asked about another, as one
    /// worker may have both.
    pub pairs: bool,
    /// The buffers that segments are sealed in: those of a round are used again in the next. As many as are held at a time are enough.
    pub shelf: Shelf,
}

impl<'a, G, R> Setup<'a, G, R> {
    /// A setup without pairs, with a batch of one segment for each worker, or of as many as the queue holds where that is fewer.
    pub fn new(
        rt: &'a R,
        alloc: Global,
        settings: &'a Settings,
        workers: usize,
        gate: &'a G,
    ) -> Setup<'a, G, R>
        ensures settings { result.settings.now ≡ settings.now }
        ensures gate { result.gate.now ≡ gate.now }
        ensures workers { result.workers ≡ workers }
        ensures batch { result.batch ≡ min workers settings.now.queue }
        ensures pairs { result.pairs ≡ false }
    {
        Setup {
            rt,
            alloc,
            settings,
            workers,
            gate,
            batch: workers.min(settings.queue as usize),
            pairs: false,
            shelf: Shelf::new(alloc, workers),
        }
    }

    /// The pace of a run with this setup.
    pub fn pace(&self) -> Pace
        ensures { result ≡ pace_in self.now }
    {
        Pace::new(self.workers, self.batch)
    }
}

/// What a run reads from, gives to and publishes with.
pub struct Endpoints<S, O> {
    pub sources: Vec<S>,
    pub outlet: O,
    pub publisher: Publisher,
    /// At most how many reads of an input may return bytes.
    pub reads: u64,
}
