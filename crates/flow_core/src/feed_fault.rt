//! What a queue answers of a plan that it doesn't take.

ghost use Rattle.std.specs.Prelude.{◌≡◌};
ghost use Rattle.cutter.specs.Lent.{lent};

use cutter::PlanRef;
use std::marker::Model;

/// Why a plan isn't fed, the first that holds.
#[derive(Clone, Copy, Debug, PartialEq, Eq)]
pub enum Obstacle {
    /// As many plans are outstanding as may be.
    Full,
    /// The queue was closed, or 2^64 - 1 plans were fed.
    Closed,
    /// An outstanding plan has its rendition and number.
    Twice,
    /// There was no memory.
    NoMemory,
}

/// A plan that a queue didn't take, which comes back, and why. Nobody else makes one. The queue is as it was.
#[derive(Drop)]
pub struct FeedFault<'s> {
    plan: PlanRef<'s>,
    why: Obstacle,
}

impl<'s> Model for FeedFault<'s> {
    ghost use Rattle.flow_core.specs.Steps.{NotFed};
    ghost use Rattle.cutter.specs.Lent.{lent};

    ghost Value = { NotFed };

    ghost view = { λ f. record { plan = lent f.plan; why = f.why } };
}

impl<'s> FeedFault<'s> {
    /// A plan that isn't fed, and why.
    pub(crate) fn of(plan: PlanRef<'s>, why: Obstacle) -> FeedFault<'s>
        ensures { result ≡ record { plan = lent plan.entry; why = why } }
    {
        FeedFault { plan, why }
    }

    /// The plan.
    pub fn plan(&self) -> PlanRef<'s>
        ensures { lent result ≡ self.now.plan }
    {
        self.plan
    }

    /// Why it isn't fed.
    pub fn why(&self) -> Obstacle
        ensures { result ≡ self.now.why }
    {
        self.why
    }
}
