//! Times, as the clock said them.
ghost use Rattle.std.specs.Prelude.{◌≡◌};

use std::time::{Clock, Instant};

/// The time when the clock was looked at; none where it can't be read. Only such a look makes one.
#[derive(Clone, Copy)]
pub struct ClockReading {
    at: Option<Instant>,
}

impl ClockReading {
    /// The time now.
    pub fn now<R: Clock>(rt: &R) -> ClockReading {
        ClockReading {
            at: Instant::now(rt).ok(),
        }
    }

    /// The time, where it is known.
    pub fn at(self) -> Option<Instant>
        ensures { result ≡ self.at }
    {
        self.at
    }
}
