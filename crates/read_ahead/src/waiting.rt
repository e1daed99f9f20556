//! Waiting for several inputs at once.
ghost use Rattle.std.specs.Prelude.{◌≡◌, ◌≢◌, ◌<◌, [], All, Any, IfErr, IfOk, IsOk, None, OnErr, OnOk, Some, false, length, map, true};
ghost use Rattle.read_ahead.specs.Sources.{IsSound, IsUnknown, MayBegin, seen_first};
ghost use Rattle.read_ahead.specs.Times.{is_moment_over};
ghost use Rattle.read_ahead.specs.declared.incoming.Phase.TheVariants.{Failed, Opening};

use crate::ahead::Ahead;
use crate::backlogs::Backlogs;
use crate::clock_reading::ClockReading;
use crate::incoming::Incoming;
use crate::input::Contents;
use crate::limits::MOMENT;
use crate::readiness::{Readiness, Unready};
use crate::times::has_passed;
use std::sync::Wait;
use std::time::{Clock, Duration};

/// An input can't be opened, or was silent for too long. It can't be let go, so that it's told as that.
pub struct Unopened;

/// Waits until a run may begin with all inputs; fails as soon as one can't be opened. Those that may wait for their writers are
/// waited for a moment.
pub fn wait_open<R: Wait + Clock, I: Contents>(
    rt: &R,
    backlogs: &Backlogs,
    inputs: &mut [Incoming<I>],
) -> Result<(), Unopened>
    requires { All (IsSound I.holds) inputs.old }
    ensures sound { All (IsSound I.holds) inputs.new }
    ensures same { map (seen_first I.holds) inputs.new ≡ map (seen_first I.holds) inputs.old }
    ensures open { OnOk result (All MayBegin inputs.new) }
    ensures refused { OnErr result (Any (λ i. i.phase ≡ Failed) inputs.new) }
    ensures none { inputs.old ≡ [] → IsOk result }
{
    let begun = ClockReading::now(rt);
    for _ in rt.forever() {
        let seen = backlogs.news(rt);
        let now = ClockReading::now(rt);
        if let Some(are_open) = are_open(rt, inputs, begun, now) {
            return if are_open { Ok(()) } else { Err(Unopened) };
        }
        let _ = backlogs.wait_for(rt, seen, Duration::from_millis(MOMENT));
    }
    unreachable!()
}

/// Whether a run may begin with all inputs: false where one can't be opened, none while that isn't known. They have been waited
/// for since then.
fn are_open<R: Wait + Clock, I: Contents>(
    rt: &R,
    inputs: &mut [Incoming<I>],
    begun: ClockReading,
    now: ClockReading,
) -> Option<bool>
    requires { All (IsSound I.holds) inputs.old }
    ensures sound { All (IsSound I.holds) inputs.new }
    ensures same { map (seen_first I.holds) inputs.new ≡ map (seen_first I.holds) inputs.old }
    ensures open { result ≡ Some true → All MayBegin inputs.new }
    ensures early { result ≡ Some true → is_moment_over begun.at now.at ≡ false → All (λ i. i.phase ≢ Opening) inputs.new }
    ensures refused { result ≡ Some false → Any (λ i. i.phase ≡ Failed) inputs.new }
    ensures unknown { result ≡ None → Any (IsUnknown (is_moment_over begun.at now.at)) inputs.new }
    ensures unfailed { result ≡ None → All (λ i. i.phase ≢ Failed) inputs.new }
    ensures none { inputs.old ≡ [] → result ≡ Some true }
{
    let is_over = has_passed(begun.at(), now.at(), Duration::from_millis(MOMENT), true);
    let mut are_known = true;
    for number in 0..inputs.len() {
        let Some(is_open) = inputs[number].is_open(rt, is_over) else {
            are_known = false;
            continue;
        };
        if !is_open {
            return Some(false);
        }
    }
    are_known.then_some(true)
}

/// Waits until one of these sources is ready, and answers that it was.
pub fn wait_ready<R: Wait + Clock + Copy, I: Contents>(
    rt: &R,
    sources: &mut [Ahead<R, I>],
) -> Readiness
    requires { 0 < length sources.old }
    ensures same { sources.new ≡ sources.old }
    ensures ready { result.is_ready ≡ true }
{
    for _ in rt.forever() {
        let seen = sources[0].news();
        match first_ready(sources) {
            Ok(ready) => return ready,
            Err(unready) => {
                let _ = sources[0].wait_past(seen, unready);
            }
        }
    }
    unreachable!()
}

/// That one of these sources is ready, or that as many as they are aren't.
fn first_ready<R: Wait + Clock + Copy, I: Contents>(
    sources: &mut [Ahead<R, I>],
) -> Result<Readiness, Unready>
    ensures same { sources.new ≡ sources.old }
    ensures ready { IfOk result (λ ready. ready.is_ready ≡ true) }
    ensures none { IfErr result (λ unready. unready.count ≡ length sources.old) }
{
    let mut unready = Unready::none();
    for number in 0..sources.len() {
        let readiness = sources[number].would_answer();
        if readiness.is_ready() {
            return Ok(readiness);
        }
        unready.add(readiness);
    }
    Err(unready)
}
