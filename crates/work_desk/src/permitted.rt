//! A queue in which nothing stands sealed that wasn't let through.

ghost use Rattle.std.specs.Prelude.{◌≡◌, []};

use crate::gate::Permit;
use flow_core::Queue;
use std::marker::{Model, PhantomData};
use std::sync::ledger::Ledger;

/// A queue. Each of its plans may be fed, and all that was sealed of them may be.
#[derive(Drop)]
pub struct PermittedQueue<'s, L: Ledger, M: Ledger, P: Permit> {
    pub(crate) inner: Queue<'s, L, M>,
    of: PhantomData<P>,
}

impl<'s, L: Ledger, M: Ledger, P: Permit> Model for PermittedQueue<'s, L, M, P> {
    ghost use Rattle.flow_core.specs.Queues.{QueueValue};
    ghost use Rattle.work_desk.specs.Permits.{ArePermitted, ArePlanned};

    ghost Value = { QueueValue };

    ghost view = { λ q. q.inner };

    ghost invariant = { λ q. ArePermitted P.permits q.inner.done × ArePlanned P.plans q.inner };
}

impl<'s, L: Ledger, M: Ledger, P: Permit> PermittedQueue<'s, L, M, P> {
    /// A queue that nothing happened to.
    pub(crate) fn first(queue: Queue<'s, L, M>) -> PermittedQueue<'s, L, M, P>
        requires { (queue.waiting ≡ []) × (queue.claimed ≡ []) × (queue.done ≡ []) }
        ensures { result ≡ queue.entry }
    {
        PermittedQueue {
            inner: queue,
            of: PhantomData,
        }
    }
}
