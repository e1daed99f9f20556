//! Who is woken when a desk takes no more plans.

ghost use Rattle.std.specs.Prelude.{◌≡◌};

use crate::steps::Ended;
use std::sync::Condvar;

/// The receipt for a desk that takes no more plans, and whose workers were woken, so that they end. Only those who wake them make
/// one.
#[derive(Drop)]
pub struct Closed {
    ended: Ended,
}

/// Wakes the workers: no more plans are fed, and none was given up.
pub(crate) fn wake_closed(workers: &Condvar, ended: Ended) -> Closed
    requires { ended.given_up ≡ 0 }
    ensures { result.ended ≡ ended }
{
    workers.notify_all();
    Closed { ended }
}

/// Wakes the workers and the taker: no more plans are fed, and none waits.
pub(crate) fn wake_stopped(workers: &Condvar, taker: &Condvar, ended: Ended) -> Closed
    requires { ended.left ≡ 0 }
    ensures { result.ended ≡ ended }
{
    workers.notify_all();
    taker.notify_all();
    Closed { ended }
}
