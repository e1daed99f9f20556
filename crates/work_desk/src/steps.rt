//! What the calls of a desk do to its queue, under the lock.

ghost use Rattle.std.specs.Prelude.{◌≡◌, ◌+◌, ◌<◌, ◌≤◌, ◌∷◌, [], IfErr, IfOk, IfSome, IsSome, None, OnErr, OnOk, false, true, length, Decides};
ghost use Rattle.cutter.specs.Lent.{lent};
ghost use Rattle.flow_core.specs.Lists.{In};
ghost use Rattle.flow_core.specs.Queues.{KnowsClaimed, outstanding, IsOwnOutcome};
ghost use Rattle.flow_core.specs.declared.outcome.Outcome.TheVariants.{Sealed as IsSealed};
ghost use Rattle.flow_core.specs.Steps.{Claims, Delivers, Feeds, Gives, IsFirst, Refuses, closed_queue, stopped_queue};
ghost use Rattle.work_desk.specs.Permits.{AreKnownByNumber, IsPermitted, IsPlanned};
ghost use Rattle.work_desk.specs.Waiting.{WorkersWait, TakerWaits, seen_in};

use crate::gate::Permit;
use crate::pass::Pass;
use crate::permitted::PermittedQueue;
use cutter::PlanRef;
use flow_core::{Claim, Delivery, Fed, FeedFault, Outcome, Queue};
use segment_job::Sealed;
use std::marker::Model;
use std::sync::ledger::Ledger;

/// What a step saw of the queue where it found nothing. Only a step makes one: it is the receipt that somebody looked under
/// the lock.
#[derive(Drop)]
pub struct Seen {
    closed: bool,
    waiting: usize,
    done: usize,
    outstanding: usize,
}

impl Model for Seen {
    ghost use Rattle.work_desk.specs.Waiting.{Sight};

    ghost Value = { Sight };

    ghost view = { λ s. record { closed = s.closed; waiting = s.waiting; done = s.done; outstanding = s.outstanding } };
}

/// What is seen of a queue.
fn look<L: Ledger, M: Ledger, P: Permit>(queue: &PermittedQueue<'_, L, M, P>) -> Seen
    ensures { result ≡ seen_in queue.now }
{
    Seen {
        closed: queue.inner.is_closed(),
        waiting: queue.inner.waiting(),
        done: queue.inner.done(),
        outstanding: queue.inner.outstanding(),
    }
}

/// Whether a worker waits for so many plans.
pub fn workers_wait<L: Ledger, M: Ledger, P: Permit>(
    queue: &PermittedQueue<'_, L, M, P>,
    fewest: usize,
) -> bool
    ensures { Decides result (WorkersWait fewest queue.now) }
{
    if queue.inner.is_closed() {
        return false;
    }
    queue.inner.waiting() < fewest
}

/// Whether the taker waits.
pub fn taker_waits<L: Ledger, M: Ledger, P: Permit>(queue: &PermittedQueue<'_, L, M, P>) -> bool
    ensures { Decides result (TakerWaits queue.now) }
{
    if queue.inner.has_done() {
        return false;
    }
    queue.inner.outstanding() > 0
}

/// A plan that may be fed waits from now on, and its receipt is returned. Where the queue doesn't take it, the plan comes back.
pub fn feed<'s, L: Ledger, M: Ledger, P: Permit>(
    queue: &mut PermittedQueue<'s, L, M, P>,
    plan: PlanRef<'s>,
) -> Result<Fed<'s>, FeedFault<'s>>
    requires planned { P.plans (lent plan) }
    ensures ok { OnOk result (Feeds queue.old (lent plan.entry) queue.new) }
    ensures fed { IfOk result (λ fed. fed ≡ lent plan.entry) }
    ensures err { OnErr result (queue.new ≡ queue.old) }
    ensures fault { IfErr result (Refuses queue.old (lent plan.entry)) }
{
    queue.inner.feed(plan)
}

/// Claims the plan that waits the longest; none where no more plans are fed and none waits.
pub fn claim<'s, L: Ledger, M: Ledger, P: Permit>(
    queue: &mut PermittedQueue<'s, L, M, P>,
    pass: &mut Pass<L>,
) -> Result<Claim<'s>, Seen>
    requires { WorkersWait 1 queue.old → ⊥ }
    ensures some { IfOk result (λ claim. Claims queue.old claim queue.new) }
    ensures first { IfOk result (λ claim. (claim.worker ≡ pass.old.number) × (queue.old.waiting ≡ claim.plan ∷ queue.new.waiting)) }
    ensures planned { IfOk result (λ claim. P.plans claim.plan) }
    ensures none { OnErr result ((queue.new ≡ queue.old) × (queue.old.closed ≡ true) × (queue.old.waiting ≡ [])) }
    ensures seen { IfErr result (λ seen. seen ≡ seen_in queue.old) }
    ensures counted { OnOk result (pass.new.count ≡ pass.old.count + 1) }
    ensures uncounted { OnErr result (pass.new.count ≡ pass.old.count) }
    ensures number { pass.new.number ≡ pass.old.number }
{
    let Pass {
        number,
        count,
        share,
    } = pass;
    let Some(claim) = queue.inner.claim(*number, share) else {
        return Err(look(queue));
    };
    *count += 1;
    Ok(claim)
}

/// Claims the plan that waits the longest where more wait than are left to others; none elsewhere.
pub fn claim_more<'s, L: Ledger, M: Ledger, P: Permit>(
    queue: &mut PermittedQueue<'s, L, M, P>,
    left: usize,
    pass: &mut Pass<L>,
) -> Result<Claim<'s>, Seen>
    ensures some { IfOk result (λ claim. Claims queue.old claim queue.new) }
    ensures first { IfOk result (λ claim. (claim.worker ≡ pass.old.number) × (queue.old.waiting ≡ claim.plan ∷ queue.new.waiting)) }
    ensures planned { IfOk result (λ claim. P.plans claim.plan) }
    ensures more { OnOk result (left < length queue.old.waiting) }
    ensures none { OnErr result ((queue.new ≡ queue.old) × (length queue.old.waiting ≤ left)) }
    ensures seen { IfErr result (λ seen. seen ≡ seen_in queue.old) }
    ensures counted { OnOk result (pass.new.count ≡ pass.old.count + 1) }
    ensures uncounted { OnErr result (pass.new.count ≡ pass.old.count) }
    ensures number { pass.new.number ≡ pass.old.number }
{
    if queue.inner.waiting() <= left {
        return Err(look(queue));
    }
    claim(queue, pass)
}

/// Where claims are made in pairs, claims the plan behind one that was claimed, if any waits, or says what was seen.
pub fn claim_beside<'s, L: Ledger, M: Ledger, P: Permit>(
    queue: &mut PermittedQueue<'s, L, M, P>,
    pairs: bool,
    pass: &mut Pass<L>,
) -> Option<Result<Claim<'s>, Seen>>
    ensures some { IfSome result (λ beside. IfOk beside (λ claim. Claims queue.old claim queue.new)) }
    ensures first { IfSome result (λ beside. IfOk beside (λ claim.
        (claim.worker ≡ pass.old.number) × (queue.old.waiting ≡ claim.plan ∷ queue.new.waiting))) }
    ensures planned { IfSome result (λ beside. IfOk beside (λ claim. P.plans claim.plan)) }
    ensures none { IfSome result (λ beside. IfErr beside (λ seen. (queue.new ≡ queue.old) × (queue.old.waiting ≡ []) × (seen.waiting ≡ 0))) }
    ensures counted { IfSome result (λ beside. OnOk beside (pass.new.count ≡ pass.old.count + 1)) }
    ensures uncounted { IfSome result (λ beside. OnErr beside (pass.new.count ≡ pass.old.count)) }
    ensures alone { pairs ≡ false → (result ≡ None) × (queue.new ≡ queue.old) × (pass.new.count ≡ pass.old.count) }
    ensures paired { pairs ≡ true → IsSome result }
    ensures number { pass.new.number ≡ pass.old.number }
{
    if !pairs {
        return None;
    }
    Some(claim_more(queue, 0, pass))
}

/// Something became of a claimed plan. Nothing changes where nobody has that claim, which may be known by its plan's rendition and number.
pub fn deliver<'s, L: Ledger, M: Ledger, P: Permit>(
    queue: &mut PermittedQueue<'s, L, M, P>,
    claim: Claim<'s>,
    outcome: Outcome<'s>,
    known: bool,
)
    requires own { IsOwnOutcome claim.plan outcome }
    requires permitted { IsPermitted P.permits outcome }
    requires known { known ≡ true → AreKnownByNumber P.plans × P.plans claim.plan }
    ensures yes { In claim.entry queue.old.claimed → Delivers queue.old claim.entry outcome.entry queue.new }
    ensures no { (In claim.entry queue.old.claimed → ⊥) → queue.new ≡ queue.old }
{
    match outcome {
        Outcome::Sealed(segment) => {
            let _ = deliver_segment(&mut queue.inner, claim, segment, known);
        }
        Outcome::Refused => {
            let _ = queue.inner.refuse(claim);
        }
        Outcome::Held => {
            let _ = queue.inner.hold(claim);
        }
    }
}

/// The segment of a claimed plan is done. False where nobody has that claim, which may be known by its plan's rendition and number.
fn deliver_segment<'s, L: Ledger, M: Ledger>(
    queue: &mut Queue<'s, L, M>,
    claim: Claim<'s>,
    segment: Sealed<'s>,
    known: bool,
) -> bool
    requires own { segment.plan ≡ claim.plan }
    requires known { known ≡ true → KnowsClaimed queue.old.claimed claim.plan }
    ensures claimed { Decides result (In claim.entry queue.old.claimed) }
    ensures yes { result ≡ true → Delivers queue.old claim.entry (IsSealed segment.entry) queue.new }
    ensures no { result ≡ false → queue.new ≡ queue.old }
{
    if known {
        return queue.deliver_known(claim, segment);
    }
    queue.deliver(claim, segment)
}

/// Takes what has been done the longest; none where nothing is done.
pub fn take<'s, L: Ledger, M: Ledger, P: Permit>(
    queue: &mut PermittedQueue<'s, L, M, P>,
    pass: &mut Pass<M>,
) -> Result<Delivery<'s>, Seen>
    ensures some { IfOk result (λ delivery. Gives queue.old delivery queue.new) }
    ensures first { IfOk result (λ delivery. IsFirst delivery queue.old.done queue.new.done) }
    ensures permitted { IfOk result (λ delivery. IsPermitted P.permits delivery.outcome) }
    ensures planned { IfOk result (λ delivery. IsPlanned P.plans delivery.outcome) }
    ensures none { OnErr result ((queue.new ≡ queue.old) × (queue.old.done ≡ [])) }
    ensures seen { IfErr result (λ seen. seen ≡ seen_in queue.old) }
    ensures counted { OnOk result (pass.new.count ≡ pass.old.count + 1) }
    ensures uncounted { OnErr result (pass.new.count ≡ pass.old.count) }
    ensures number { pass.new.number ≡ pass.old.number }
{
    let Pass { count, share, .. } = pass;
    let Some(delivery) = queue.inner.take(share) else {
        return Err(look(queue));
    };
    *count += 1;
    Ok(delivery)
}

/// Takes what has been done the longest; none where nothing is outstanding.
pub fn take_awaited<'s, L: Ledger, M: Ledger, P: Permit>(
    queue: &mut PermittedQueue<'s, L, M, P>,
    pass: &mut Pass<M>,
) -> Result<Delivery<'s>, Seen>
    requires { TakerWaits queue.old → ⊥ }
    ensures some { IfOk result (λ delivery. Gives queue.old delivery queue.new) }
    ensures first { IfOk result (λ delivery. IsFirst delivery queue.old.done queue.new.done) }
    ensures permitted { IfOk result (λ delivery. IsPermitted P.permits delivery.outcome) }
    ensures planned { IfOk result (λ delivery. IsPlanned P.plans delivery.outcome) }
    ensures none { OnErr result ((queue.new ≡ queue.old) × (outstanding queue.old ≡ 0)) }
    ensures seen { IfErr result (λ seen. seen ≡ seen_in queue.old) }
    ensures counted { OnOk result (pass.new.count ≡ pass.old.count + 1) }
    ensures uncounted { OnErr result (pass.new.count ≡ pass.old.count) }
    ensures number { pass.new.number ≡ pass.old.number }
{
    take(queue, pass)
}

/// What a step saw that ended the queue: how many plans it gave up, and how many wait still. Only such a step makes one.
#[derive(Clone, Copy)]
pub struct Ended {
    given_up: usize,
    left: usize,
}

/// No more plans are fed.
pub fn close<L: Ledger, M: Ledger, P: Permit>(queue: &mut PermittedQueue<'_, L, M, P>) -> Ended
    ensures closed { queue.new ≡ closed_queue queue.old }
    ensures seen { result ≡ record { given_up = 0; left = length queue.old.waiting } }
{
    let before = queue.inner.waiting();
    queue.inner.close();
    Ended {
        given_up: before - queue.inner.waiting(),
        left: queue.inner.waiting(),
    }
}

/// No more plans are fed, and those that wait are given up.
pub fn stop<L: Ledger, M: Ledger, P: Permit>(queue: &mut PermittedQueue<'_, L, M, P>) -> Ended
    ensures stopped { queue.new ≡ stopped_queue queue.old }
    ensures seen { result ≡ record { given_up = length queue.old.waiting; left = 0 } }
{
    let before = queue.inner.waiting();
    queue.inner.stop();
    Ended {
        given_up: before - queue.inner.waiting(),
        left: queue.inner.waiting(),
    }
}
