//! What a queue answers to who fed it a plan.

ghost use Rattle.std.specs.Prelude.{◌≡◌};
ghost use Rattle.cutter.specs.Lent.{lent};

use cutter::{Lent, PlanRef};
use std::marker::Model;

/// The receipt for a plan that was fed to a queue. Nobody else makes one.
#[derive(Drop)]
pub struct Fed<'s> {
    plan: Lent<'s>,
}

impl<'s> Model for Fed<'s> {
    ghost use Rattle.cutter.specs.Plans.{SegmentPlan};

    ghost Value = { SegmentPlan };

    ghost view = { λ f. f.plan };
}

impl<'s> Fed<'s> {
    /// The receipt for a plan.
    pub(crate) fn of(plan: PlanRef<'s>) -> Fed<'s>
        ensures { result ≡ lent plan.entry }
    {
        Fed {
            plan: Lent::of(plan),
        }
    }

    /// The plan.
    pub fn plan(&self) -> PlanRef<'s>
        ensures { lent result ≡ self.now }
    {
        self.plan.plan()
    }
}
