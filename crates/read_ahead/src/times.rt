//! Times against limits.
ghost use Rattle.std.specs.Prelude.{◌≡◌};
ghost use Rattle.std.specs.Duration.{as_nanos};
ghost use Rattle.read_ahead.specs.Times.{is_past};

use std::time::{Duration, Instant};

/// Whether a limit has passed since something began; where a time isn't known, as is said.
pub fn has_passed(
    begun: Option<Instant>,
    now: Option<Instant>,
    limit: Duration,
    unknown: bool,
) -> bool
    ensures { result ≡ is_past begun now (as_nanos limit) unknown }
{
    match (begun, now) {
        (Some(begun), Some(now)) => now.duration_since(begun).as_nanos() >= limit.as_nanos(),
        _ => unknown,
    }
}
