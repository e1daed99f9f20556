ghost use Rattle.std.specs.Prelude.{◌≡◌, ◌≤◌, [], Some, IfSome, IfNone, slice_get, length};
ghost use Rattle.cutter.specs.Lent.{lent};

use crate::lent::PlanRef;
use crate::plan::Plan;
use crate::reel::Reel;
use std::alloc::Global;
use std::marker::Model;

/// The bodies, I-frames and tables of closed plans. Clauses see the list of those plans. A spool that is turned in is emptied
/// and keeps its room.
#[derive(Drop)]
pub struct Spool {
    pub(crate) reel: Reel,
}

impl Model for Spool {
    ghost use Rattle.std.specs.Prelude.{List};
    ghost use Rattle.cutter.specs.Plans.{SegmentPlan};

    ghost Value = { List SegmentPlan };

    ghost view = { λ s. s.reel.plans };
}

impl Spool {
    /// A spool of no plans, which takes no memory yet.
    pub fn new(alloc: Global) -> Spool
        ensures { result ≡ [] }
    {
        Spool {
            reel: Reel::new(alloc),
        }
    }

    /// How many plans it holds.
    pub fn plans(&self) -> usize
        ensures { result ≡ length self.now }
    {
        self.reel.plans()
    }

    /// One of them, from 0 on, lent.
    pub fn plan(&self, i: usize) -> Option<PlanRef<'_>>
        ensures some { IfSome result (λ plan. slice_get self.now i ≡ Some (lent plan)) }
        ensures none { IfNone result (length self.now ≤ i) }
    {
        self.reel.plan(i)
    }

    /// The first plan, its body moved out. The rest is let go.
    pub(crate) fn into_first(self) -> Option<Plan>
        ensures { result ≡ slice_get self 0 }
    {
        let Spool { reel } = self;
        reel.into_first()
    }
}
