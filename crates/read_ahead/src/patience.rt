//! How long a wait for news may take.
ghost use Rattle.std.specs.Prelude.{◌≡◌, ◌-◌, ◌*◌, ◌^◌, None, Some, IfSome, length, max};
ghost use Rattle.std.specs.Duration.{as_nanos};
ghost use Rattle.read_ahead.specs.Sources.{longest_silence};
ghost use Rattle.read_ahead.specs.declared.limits.TheConstants.{LEAST_WAIT};
ghost use Rattle.std.specs.Prelude.{IsSome};

use crate::clock_reading::ClockReading;
use crate::counts::Counts;
use crate::limits::LEAST_WAIT;
use std::time::Duration;

/// How long no input falls silent that is given; none where none ever does, or the clock can't be read.
#[derive(Clone, Copy)]
pub struct Patience {
    most: Option<Duration>,
}

impl Patience {
    /// From now on, where an input falls silent behind this stall, if any does.
    pub fn new(stall: Option<Duration>, now: ClockReading, counts: &Counts) -> Patience
        ensures never { stall ≡ None → result.most ≡ None }
        ensures unknown { now.at ≡ None → result.most ≡ None }
        ensures some { IfSome stall (λ limit. IfSome now.at (λ _. IsSome result.most × IfSome result.most (λ most. as_nanos most
            ≡ max (LEAST_WAIT * 10 ^ 6) (as_nanos limit
            - longest_silence now.at counts.now.backlogs.items counts.now.since.items (length counts.now.backlogs.items))))) }
    {
        let Some(limit) = stall else {
            return Patience { most: None };
        };
        if now.at().is_none() {
            return Patience { most: None };
        }
        let most = time_left(limit, counts.longest_silence(now));
        Patience { most: Some(most) }
    }

    /// How long that is.
    pub fn most(self) -> Option<Duration>
        ensures { result ≡ self.most }
    {
        self.most
    }
}

/// How much of a stall is left behind a silence, but no less than the least time that is waited.
fn time_left(stall: Duration, silence: Duration) -> Duration
    ensures { as_nanos result ≡ max (LEAST_WAIT * 10 ^ 6) (as_nanos stall - as_nanos silence) }
{
    let left = stall.saturating_sub(silence);
    let least = Duration::from_millis(LEAST_WAIT);
    if left.as_nanos() < least.as_nanos() {
        return least;
    }
    left
}
