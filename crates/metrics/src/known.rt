//! What is known of renditions besides what a board shows of them.

ghost use Rattle.std.specs.Prelude.{◌≡◌, ◌-◌, sum};

use crate::glance::Glance;
use crate::seen::Sighting;

/// How a rendition's input stands.
#[derive(Clone, Copy, Debug, PartialEq, Eq, Drop)]
pub struct InputSample {
    /// How many bytes of it were read ahead and aren't packed yet.
    pub ahead: u64,
    /// For how long nothing came of it, in microseconds.
    pub silent: u128,
}

/// What is known of each rendition: when its last segment was seen first, how its input stands, and the name of the fault that
/// it ended by. What isn't known of one is nothing.
#[derive(Clone, Copy, Debug, Drop)]
pub struct Known<'a> {
    pub seen: &'a [Sighting],
    pub inputs: &'a [InputSample],
    pub faults: &'a [Option<&'static str>],
}

/// How many of so many segments that are complete weren't listed by then.
pub fn waiting(completed: u128, glance: &Glance) -> u128
    ensures { result ≡ completed - sum glance.now.counts.items }
{
    let mut left = completed;
    for count in &glance.counts {
        left = left.saturating_sub(u128::from(*count));
    }
    left
}
