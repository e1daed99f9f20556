//! Whether a read of a source would answer at once.
ghost use Rattle.std.specs.Prelude.{◌≡◌, ◌+◌, ◌<◌, ◌^◌, false, true};
ghost use Rattle.read_ahead.specs.Sources.{LiesReady};

use crate::counts::Silence;
use crate::incoming::Incoming;
use crate::input::Contents;

/// Whether a read of the source of an input would answer at once, when it was looked at. Only such a look makes one.
#[derive(Drop)]
pub struct Readiness {
    number: usize,
    is_ready: bool,
}

impl Readiness {
    /// Of one that was left.
    pub fn of_left(number: usize, _was_left: bool) -> Readiness
        requires { _was_left ≡ true }
        ensures of { result.number ≡ number }
        ensures unready { result.is_ready ≡ false }
    {
        Readiness {
            number,
            is_ready: false,
        }
    }

    /// Of one of which something lies ready.
    pub fn of_ready<I: Contents>(incoming: &Incoming<I>) -> Readiness
        requires { LiesReady incoming.now }
        ensures of { result.number ≡ incoming.now.number }
        ensures ready { result.is_ready ≡ true }
    {
        Readiness {
            number: incoming.number,
            is_ready: true,
        }
    }

    /// Of one of which nothing does, whose input has been silent for so long.
    pub fn of_silence(silence: Silence) -> Readiness
        ensures of { result.number ≡ silence.number }
        ensures ready { result.is_ready ≡ silence.is_over }
    {
        Readiness {
            number: silence.number(),
            is_ready: silence.is_over(),
        }
    }

    /// Whether it would.
    pub fn is_ready(&self) -> bool
        ensures { result ≡ self.now.is_ready }
    {
        self.is_ready
    }
}

/// How many looks found a source that isn't ready, or an input that isn't silent for too long.
#[derive(Drop)]
pub struct Unready {
    count: usize,
}

impl Unready {
    /// Of no look.
    pub fn none() -> Unready
        ensures { result.count ≡ 0 }
    {
        Unready { count: 0 }
    }

    /// Of an input of which nothing came.
    pub fn of(_silence: Silence) -> Unready
        requires { _silence.is_over ≡ false }
        ensures { result.count ≡ 1 }
    {
        Unready { count: 1 }
    }

    /// One more.
    pub fn add(&mut self, _readiness: Readiness)
        requires unready { _readiness.is_ready ≡ false }
        requires few { self.old.count + 1 < 2 ^ 64 }
        ensures { self.new.count ≡ self.old.count + 1 }
    {
        self.count += 1;
    }
}
