ghost use Rattle.std.specs.Prelude.{◌≡◌, IfOk};
ghost use Rattle.cutter.specs.Lent.{lent};
ghost use Rattle.segment_job.specs.Segments.{sealed_from};

use crate::plain::head_text;
use crate::text::{Text, seal_text};
use cutter::PlanRef;
use std::alloc::{AllocError, Global};
use std::marker::Model;

/// What a sealed segment was made of: a plan, under a key from a vector on. It can be sealed once more.
///
/// Clauses see the three.
#[derive(Drop)]
pub struct Origin<'s> {
    plan: PlanRef<'s>,
    key: [u8; 16],
    vector: [u8; 16],
}

impl<'s> Model for Origin<'s> {
    ghost use Rattle.cutter.specs.Lent.{lent};
    ghost use Rattle.segment_job.specs.Segments.{UnsealedSegment};

    ghost Value = { UnsealedSegment };

    ghost view = { λ o. record { plan = lent o.plan; key = o.key; vector = o.vector } };
}

impl<'s> Origin<'s> {
    /// Of a plan, under a key from a vector on.
    pub(crate) fn new(plan: PlanRef<'s>, key: [u8; 16], vector: [u8; 16]) -> Origin<'s>
        ensures { result ≡ record { plan = lent plan.entry; key = key; vector = vector } }
    {
        Origin { plan, key, vector }
    }

    /// The plan.
    pub fn plan(&self) -> PlanRef<'s>
        ensures { lent result ≡ self.now.plan }
    {
        self.plan
    }

    /// Seals it, in memory.
    pub fn seal(&self, alloc: Global) -> Result<Vec<u8>, AllocError>
        ensures { IfOk result (λ bytes. bytes.items ≡ (sealed_from self.now).bytes) }
    {
        let head = head_text(alloc, self.plan, Vec::new(alloc))?;
        let mut text = Text::new(self.key, self.vector, head);
        seal_text(&mut text, self.plan.body);
        Ok(text.bytes)
    }
}
