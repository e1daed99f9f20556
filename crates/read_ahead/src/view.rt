//! How inputs stand, for whoever watches a run. No claim on bytes rests on it.
ghost use Rattle.std.specs.Prelude.{◌≡◌, ◌<◌, IfOk, OnErr, length};
ghost use Rattle.std.specs.Duration.{as_nanos};
ghost use Rattle.read_ahead.specs.Sources.{inputs_of, silence_of};

use crate::backlog::Backlog;
use crate::backlogs::Backlogs;
use std::alloc::{AllocError, Global};
use std::sync::{Arc, Wait};
use std::time::{Clock, Duration, Instant};

/// How an input stands.
#[derive(Clone, Copy, Debug, PartialEq, Eq, Drop)]
pub struct InputState {
    /// How many bytes of it were read ahead and not given yet.
    pub bytes: usize,
    /// How long it has been waited for. Nothing where it has ended, or no more of it is given.
    pub silent: Duration,
}

/// A view of all inputs of one call of `open_all`, while others read them.
#[derive(Drop)]
pub struct InputsView {
    pub(crate) backlogs: Arc<Backlogs, Global>,
}

impl InputsView {
    /// How each input stands, by number.
    pub fn look<R: Wait + Clock>(
        &self,
        rt: &R,
        alloc: Global,
    ) -> Result<Vec<InputState>, AllocError>
        ensures each { IfOk result (λ states. length states.items ≡ inputs_of self.now) }
        ensures scarce { OnErr result (0 < inputs_of self.now) }
    {
        self.backlogs.states(rt, alloc)
    }
}

/// How an input stands now that was waited for since then, if it is.
pub fn state_of(backlog: &Backlog, since: Option<Instant>, now: Option<Instant>) -> InputState
    ensures bytes { result.bytes ≡ backlog.now.bytes }
    ensures silent { as_nanos result.silent ≡ silence_of backlog.now.left since now }
{
    InputState {
        bytes: backlog.bytes,
        silent: silence(backlog.left, since, now),
    }
}

/// How long it has been waited for.
pub fn silence(left: bool, since: Option<Instant>, now: Option<Instant>) -> Duration
    ensures { as_nanos result ≡ silence_of left since now }
{
    if left {
        return Duration::ZERO;
    }
    match (since, now) {
        (Some(since), Some(now)) => now.duration_since(since),
        _ => Duration::ZERO,
    }
}
