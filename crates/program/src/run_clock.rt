//! The time of a run, in microseconds.
ghost use Rattle.std.specs.Prelude.{◌≡◌, ◌/◌, IfSome, None};
ghost use Rattle.std.specs.Duration.{as_nanos};

use std::time::{Clock, Duration, Instant, SystemTime, UNIX_EPOCH};

/// Microseconds since 1970; 0 where there is no clock.
pub fn since_1970<R: Clock>(rt: &R) -> u128 {
    let Ok(now) = SystemTime::now(rt) else {
        return 0;
    };
    micros_in(now.duration_since(UNIX_EPOCH).ok())
}

/// Microseconds since then; 0 where there is no clock.
pub fn since<R: Clock>(rt: &R, begun: Option<Instant>) -> u128 {
    let Some(begun) = begun else {
        return 0;
    };
    micros_in(begun.elapsed(rt).ok())
}

/// How many microseconds have passed; 0 where that isn't known.
fn micros_in(passed: Option<Duration>) -> u128
    ensures some { IfSome passed (λ time. result ≡ as_nanos time / 1000) }
    ensures none { passed ≡ None → result ≡ 0 }
{
    match passed {
        Some(time) => time.as_micros(),
        None => 0,
    }
}
