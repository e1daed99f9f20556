//! A desk: a queue under a lock.

ghost use Rattle.std.specs.Prelude.{OnErr, ◌≡◌, ◌+◌, ◌<◌, ℕ, Err, None, Some, IfOk, IsOk, IsSome, OnOk, IfErr, IfSome, IfNone, true, false, vec_len, slice_get};
ghost use Rattle.cutter.specs.Lent.{lent};
ghost use Rattle.flow_core.specs.Queues.{IsOwnOutcome, first_queue};
ghost use Rattle.work_desk.specs.Batches.{AreJobsPlanned, IsPair, claims_in};
ghost use Rattle.work_desk.specs.Permits.{AreKnownByNumber, IsPermitted, IsPlanned};
ghost use Rattle.work_desk.specs.Waiting.{GivesBack, TakerWaits};

use crate::gate::Permit;
use crate::known::KnownPlans;
use crate::pass::Pass;
use crate::permitted::PermittedQueue;
use crate::sealing::{Asked, Worked};
use crate::shelf::Shelf;
use crate::singles::{Singles, SinglesTaken};
use crate::steps::{
    Seen, claim, claim_beside, claim_more, close, deliver, feed, stop, take, take_awaited,
    taker_waits, workers_wait,
};
use crate::waking::{Closed, wake_closed, wake_stopped};
use cutter::PlanRef;
use flow_core::{Claim, Delivery, Fed, FeedFault, Outcome, Queue};
use std::alloc::{AllocError, Global};
use std::sync::atomic::{AtomicUsize, Ordering};
use std::sync::ledger::{Blank, Ledger, Share};
use std::sync::{Condvar, Mutex, MutexGuard, Wait};

/// A queue that many threads share. Each call makes one step of it under its lock; one that waits looks again when it is woken.
/// What it hands out sealed may be: that was asked before it was delivered.
#[derive(Drop)]
pub struct Desk<'s, L: Ledger, M: Ledger, P: Permit> {
    queue: Mutex<PermittedQueue<'s, L, M, P>>,
    /// How many plans may be outstanding in it.
    most: usize,
    /// A plan was fed, or no more are.
    fed: Condvar,
    /// Something is done, or given up.
    done: Condvar,
    /// How many workers have no plan, those that haven't begun among them. It only guides whether one claims more.
    idle: AtomicUsize,
    /// Whether a worker takes a second plan wherever one waits.
    pairs: bool,
    /// Whether a worker with pairs takes a plan that waits alone.
    singles: Singles,
    /// Whether a claim is known by its plan's rendition and number.
    known: KnownPlans<P>,
    /// The buffers that workers seal in.
    shelf: &'s Shelf,
}

/// A plan that a worker claimed, and has to begin. Only a desk makes one, and all that can be done with it is
/// `Means::begin`.
pub(crate) struct Job<'s> {
    claim: Claim<'s>,
}

impl<'s> Job<'s> {
    /// The job of a claim.
    fn of(claim: Claim<'s>) -> Job<'s>
        ensures { result.claim ≡ claim.entry }
    {
        Job { claim }
    }

    /// The claim, to be begun.
    pub(crate) fn into_claim(self) -> Claim<'s>
        ensures { result ≡ self.entry.claim }
    {
        let Job { claim } = self;
        claim
    }
}

/// A job that a worker has to begin and, at a desk with pairs, the one that it seals beside it.
pub(crate) struct Jobs<'s> {
    pub job: Job<'s>,
    /// None at a desk without pairs. Where no more plans waited, what was seen there.
    pub beside: Option<Result<Job<'s>, Seen>>,
}

impl<'s> Jobs<'s> {
    /// The jobs of a claim, and of one beside it.
    fn of(claim: Claim<'s>, beside: Option<Result<Claim<'s>, Seen>>) -> Jobs<'s>
        ensures job { result.job.claim ≡ claim.entry }
        ensures none { IfNone beside.entry (result.beside ≡ None) }
        ensures some { IfSome beside.entry (λ it. IfOk it (λ claim. IfSome result.beside (λ made. IfOk made (λ job. job.claim ≡ claim)))) }
        ensures seen { IfSome beside.entry (λ it. IfErr it (λ seen. result.beside ≡ Some (Err seen))) }
        ensures ok { IfSome beside.entry (λ it. OnOk it (IfSome result.beside IsOk)) }
        ensures there { IfSome beside.entry (λ _. IsSome result.beside) }
    {
        let beside = match beside {
            Some(Ok(claim)) => Some(Ok(Job::of(claim))),
            Some(Err(seen)) => Some(Err(seen)),
            None => None,
        };
        Jobs {
            job: Job::of(claim),
            beside,
        }
    }
}

/// A desk that was opened, and who may use it.
#[derive(Drop)]
pub struct Opened<'s, L: Ledger, M: Ledger, P: Permit> {
    pub desk: Desk<'s, L, M, P>,
    /// A pass for each worker, by its number.
    pub workers: Vec<Pass<L>>,
    pub taker: Pass<M>,
    /// A share with no part of the book of claims, to which those of the workers are merged.
    pub rest: Share<L>,
}

/// A pass that wasn't used for each worker, by its number.
fn new_passes<L: Ledger>(
    alloc: Global,
    workers: usize,
    rest: &mut Share<L>,
) -> Result<Vec<Pass<L>>, AllocError>
    requires { (rest.old.parts ≡ workers) × (rest.old.amount ≡ 0) }
    ensures rest { OnOk result ((rest.new.parts ≡ 0) × (rest.new.amount ≡ 0)) }
    ensures passes { IfOk result (λ passes. vec_len passes ≡ workers) }
    ensures numbers { IfOk result (λ passes. (i : ℕ) (pass : Pass L) → slice_get passes.items i ≡ Some pass → (pass.number ≡ i) × (pass.count ≡ 0)) }
    ensures scarce { OnErr result (0 < workers) }
{
    let mut passes = Vec::with_capacity(alloc, workers)?;
    for number in 0..workers {
        passes.push(Pass::new(number, rest.split_off(1, 0)))?;
    }
    Ok(passes)
}

impl<'s, L: Ledger, M: Ledger, P: Permit> Desk<'s, L, M, P> {
    /// Opens a desk without pairs at which at most `queue` plans are outstanding, with two ledgers: of claims, with a part for each
    /// worker, and of what is taken, with one part. Workers seal in buffers from the shelf.
    pub fn new(
        alloc: Global,
        queue: usize,
        workers: usize,
        claims: Blank,
        takes: Blank,
        shelf: &'s Shelf,
    ) -> Result<Opened<'s, L, M, P>, AllocError>
        requires claims { (claims.name ≡ L.name) × (claims.parts ≡ L.parts) × (L.parts ≡ workers) }
        requires takes { (takes.name ≡ M.name) × (takes.parts ≡ M.parts) × (M.parts ≡ 1) }
        ensures passes { IfOk result (λ opened. vec_len opened.workers ≡ workers) }
        ensures parts { IfOk result (λ opened. opened.rest.parts + vec_len opened.workers ≡ L.parts) }
        ensures unused { IfOk result (λ opened. (opened.rest.amount ≡ 0) × (opened.taker.count ≡ 0)) }
        ensures numbers { IfOk result (λ opened. (i : ℕ) (pass : Pass L) → slice_get opened.workers.items i ≡ Some pass →
            (pass.number ≡ i) × (pass.count ≡ 0)) }
        ensures taker { IfOk result (λ opened. opened.taker.number ≡ workers) }
        ensures most { IfOk result (λ opened. opened.desk.most ≡ queue) }
        ensures pairs { IfOk result (λ opened. opened.desk.pairs ≡ false) }
        ensures known { IfOk result (λ opened. opened.desk.known ≡ false) }
        ensures scarce { OnErr result (0 < workers) }
    {
        let (claims, mut rest) = claims.open::<L>();
        let (takes, share) = takes.open::<M>();
        let workers_passes = new_passes(alloc, workers, &mut rest)?;
        Ok(Opened {
            desk: Desk::over(
                Queue::new(alloc, queue, claims, takes),
                queue,
                workers,
                shelf,
            ),
            workers: workers_passes,
            taker: Pass::new(workers, share),
            rest,
        })
    }

    /// A desk over a queue that nothing happened to, of at most so many plans.
    fn over(
        queue: Queue<'s, L, M>,
        most: usize,
        workers: usize,
        shelf: &'s Shelf,
    ) -> Desk<'s, L, M, P>
        requires { queue ≡ first_queue most }
        ensures most { result.most ≡ most }
        ensures pairs { result.pairs ≡ false }
        ensures known { result.known ≡ false }
    {
        Desk {
            queue: Mutex::new(PermittedQueue::first(queue)),
            most,
            fed: Condvar::new(),
            done: Condvar::new(),
            idle: AtomicUsize::new(workers),
            pairs: false,
            singles: Singles::new(),
            known: KnownPlans::by_all(),
            shelf,
        }
    }

    /// The same desk, at which a worker takes a second plan wherever one waits, before it asks about the first; or only where more wait
    /// than workers are idle, as at a new one. With AVX2 two segments are sealed side by side in about the time of one, and elsewhere in
    /// nearly twice that. A gate mustn't hold one plan until another was asked about, as one worker may have both.
    pub fn with_pairs(self, pairs: bool) -> Desk<'s, L, M, P>
        ensures pairs { result.pairs ≡ pairs }
        ensures known { result.known ≡ self.entry.known }
        ensures most { result.most ≡ self.entry.most }
    {
        let Desk {
            queue,
            most,
            fed,
            done,
            idle,
            pairs: _,
            singles,
            known,
            shelf,
        } = self;
        Desk {
            queue,
            most,
            fed,
            done,
            idle,
            pairs,
            singles,
            known,
            shelf,
        }
    }

    /// The same desk, where no two plans that may be fed have the same rendition and number: so what comes of a claim is known to be its
    /// own by those, and not by comparing the plan byte by byte under the lock.
    pub fn with_known_plans(self) -> Desk<'s, L, M, P>
        requires { AreKnownByNumber P.plans }
        ensures known { result.known ≡ true }
        ensures pairs { result.pairs ≡ self.entry.pairs }
        ensures most { result.most ≡ self.entry.most }
    {
        let Desk {
            queue,
            most,
            fed,
            done,
            idle,
            pairs,
            singles,
            known: _,
            shelf,
        } = self;
        Desk {
            queue,
            most,
            fed,
            done,
            idle,
            pairs,
            singles,
            known: KnownPlans::by_number(),
            shelf,
        }
    }

    /// The buffers that workers seal in.
    pub fn shelf(&self) -> &'s Shelf {
        self.shelf
    }

    /// A plan waits for a worker from now on, and its receipt is returned. Where it may not, the plan comes back.
    pub fn feed<R: Wait>(&self, rt: &R, plan: PlanRef<'s>) -> Result<Fed<'s>, FeedFault<'s>>
        requires { P.plans (lent plan) }
        ensures fed { IfOk result (λ fed. fed ≡ lent plan.entry) }
        ensures back { IfErr result (GivesBack (lent plan.entry)) }
    {
        let answer = feed(&mut self.queue.lock(rt), plan);
        self.fed.notify_one();
        answer
    }

    /// Waits for a plan, and claims the one that waits the longest. None where no more plans are fed and none waits.
    pub fn claim<R: Wait>(&self, rt: &R, pass: &mut Pass<L>) -> Option<Claim<'s>>
        ensures worker { IfSome result (λ claim. claim.worker ≡ pass.old.number) }
        ensures counted { IfSome result (λ _. pass.new.count ≡ pass.old.count + 1) }
        ensures uncounted { IfNone result (pass.new.count ≡ pass.old.count) }
        ensures number { pass.new.number ≡ pass.old.number }
    {
        self.begin_to_wait(pass);
        let locked = self.queue.lock(rt);
        let mut queue = self
            .fed
            .wait_while(rt, locked, |queue| workers_wait(queue, 1));
        self.idle.fetch_sub(1, Ordering::SeqCst);
        claim(&mut queue, pass).ok()
    }

    /// The same, as a job that a worker has to begin; at a desk with pairs with the plan behind it, if one waits, under the same lock.
    pub(crate) fn next_jobs<R: Wait>(&self, rt: &R, pass: &mut Pass<L>) -> Result<Jobs<'s>, Seen>
        ensures worker { IfOk result (λ jobs. jobs.job.claim.worker ≡ pass.old.number) }
        ensures counted { IfOk result (λ jobs. pass.new.count ≡ pass.old.count + 1 + claims_in jobs.beside) }
        ensures uncounted { OnErr result (pass.new.count ≡ pass.old.count) }
        ensures number { pass.new.number ≡ pass.old.number }
        ensures planned { IfOk result (AreJobsPlanned P.plans) }
        ensures over { IfErr result (λ seen. (seen.closed ≡ true) × (seen.waiting ≡ 0)) }
        ensures paired { self.now.pairs ≡ true → IfOk result (λ jobs. IsPair pass.old.number jobs.beside) }
        ensures alone { self.now.pairs ≡ false → IfOk result (λ jobs. jobs.beside ≡ None) }
    {
        self.begin_to_wait(pass);
        let locked = self.queue.lock(rt);
        let mut queue = self.fed.wait_while(
            rt,
            locked,
            |queue| workers_wait(queue, self.singles.fewest(self.pairs)),
        );
        self.idle.fetch_sub(1, Ordering::SeqCst);
        let first = claim(&mut queue, pass)?;
        Ok(Jobs::of(first, claim_beside(&mut queue, self.pairs, pass)))
    }

    /// From now on a plan that waits alone is taken, too: all that were at hand have been fed. Until then, a worker at a desk with pairs
    /// waits for two.
    pub fn take_singles<R: Wait>(&self, rt: &R) -> SinglesTaken {
        self.singles.take(rt, &self.queue, &self.fed)
    }

    /// A worker has no plan from now on. One that has made no claim yet was counted when the desk was opened.
    fn begin_to_wait(&self, pass: &Pass<L>) {
        if pass.count > 0 {
            self.idle.fetch_add(1, Ordering::SeqCst);
        }
    }

    /// Claims one more plan, the one that waits the longest, if more plans wait than workers are idle, as a job that a worker has to
    /// begin. It waits for the lock alone. So a worker that has a plan takes another beside it only where nobody else is free to, and
    /// only once it has asked the gate about the one that it has.
    pub(crate) fn more_job<R: Wait>(
        &self,
        rt: &R,
        pass: &mut Pass<L>,
        _asked: Asked,
    ) -> Result<Job<'s>, Seen>
        ensures worker { IfOk result (λ job. job.claim.worker ≡ pass.old.number) }
        ensures counted { OnOk result (pass.new.count ≡ pass.old.count + 1) }
        ensures uncounted { OnErr result (pass.new.count ≡ pass.old.count) }
        ensures number { pass.new.number ≡ pass.old.number }
        ensures planned { IfOk result (λ job. P.plans job.claim.plan) }
    {
        let mut queue = self.queue.lock(rt);
        let claim = claim_more(&mut queue, self.idle.load(Ordering::SeqCst), pass)?;
        Ok(Job::of(claim))
    }

    /// The same; at a desk with pairs with the plan behind it, if one waits, under the same lock.
    pub(crate) fn more_jobs<R: Wait>(
        &self,
        rt: &R,
        pass: &mut Pass<L>,
        _asked: Asked,
    ) -> Result<Jobs<'s>, Seen>
        ensures worker { IfOk result (λ jobs. jobs.job.claim.worker ≡ pass.old.number) }
        ensures counted { IfOk result (λ jobs. pass.new.count ≡ pass.old.count + 1 + claims_in jobs.beside) }
        ensures uncounted { OnErr result (pass.new.count ≡ pass.old.count) }
        ensures number { pass.new.number ≡ pass.old.number }
        ensures planned { IfOk result (AreJobsPlanned P.plans) }
        ensures paired { self.now.pairs ≡ true → IfOk result (λ jobs. IsPair pass.old.number jobs.beside) }
        ensures alone { self.now.pairs ≡ false → IfOk result (λ jobs. jobs.beside ≡ None) }
    {
        let mut queue = self.queue.lock(rt);
        let left = self
            .idle
            .load(Ordering::SeqCst)
            .max(self.singles.fewest(self.pairs) - 1);
        let first = claim_more(&mut queue, left, pass)?;
        Ok(Jobs::of(first, claim_beside(&mut queue, self.pairs, pass)))
    }

    /// Something became of a claimed plan, which was sealed if it is a segment of its own. Where nobody has that claim at
    /// this desk, nothing changes.
    pub fn deliver<R: Wait>(&self, rt: &R, claim: Claim<'s>, outcome: Outcome<'s>)
        requires own { IsOwnOutcome claim.plan outcome }
        requires permitted { IsPermitted P.permits outcome }
    {
        deliver(&mut self.queue.lock(rt), claim, outcome, false);
        self.done.notify_one();
    }

    /// What a worker made of a plan that it claimed becomes of that plan.
    pub(crate) fn hand_in<R: Wait>(&self, rt: &R, worked: Worked<'s>)
        requires own { IsOwnOutcome worked.claim.plan worked.outcome }
        requires permitted { IsPermitted P.permits worked.outcome }
        requires planned { P.plans worked.claim.plan }
    {
        worked.deliver_to(&mut self.queue.lock(rt), self.known.are_known());
        self.done.notify_one();
    }

    /// Takes what has been done the longest; none where nothing is done. It waits for the lock alone.
    pub fn take_done<R: Wait>(&self, rt: &R, pass: &mut Pass<M>) -> Option<Delivery<'s>>
        ensures permitted { IfSome result (λ delivery. IsPermitted P.permits delivery.outcome) }
        ensures planned { IfSome result (λ delivery. IsPlanned P.plans delivery.outcome) }
        ensures counted { IfSome result (λ _. pass.new.count ≡ pass.old.count + 1) }
        ensures uncounted { IfNone result (pass.new.count ≡ pass.old.count) }
        ensures number { pass.new.number ≡ pass.old.number }
    {
        self.look_done(rt, pass).ok()
    }

    /// The same, with what was seen where there is none.
    pub fn look_done<R: Wait>(&self, rt: &R, pass: &mut Pass<M>) -> Result<Delivery<'s>, Seen>
        ensures permitted { IfOk result (λ delivery. IsPermitted P.permits delivery.outcome) }
        ensures planned { IfOk result (λ delivery. IsPlanned P.plans delivery.outcome) }
        ensures none { IfErr result (λ seen. seen.done ≡ 0) }
        ensures counted { OnOk result (pass.new.count ≡ pass.old.count + 1) }
        ensures uncounted { OnErr result (pass.new.count ≡ pass.old.count) }
        ensures number { pass.new.number ≡ pass.old.number }
    {
        take(&mut self.queue.lock(rt), pass)
    }

    /// Waits until something is done, and takes what has been done the longest. None where nothing is outstanding.
    pub fn wait_done<R: Wait>(&self, rt: &R, pass: &mut Pass<M>) -> Option<Delivery<'s>>
        ensures permitted { IfSome result (λ delivery. IsPermitted P.permits delivery.outcome) }
        ensures planned { IfSome result (λ delivery. IsPlanned P.plans delivery.outcome) }
        ensures counted { IfSome result (λ _. pass.new.count ≡ pass.old.count + 1) }
        ensures uncounted { IfNone result (pass.new.count ≡ pass.old.count) }
        ensures number { pass.new.number ≡ pass.old.number }
    {
        self.await_done(rt, pass).ok()
    }

    /// The same, with what was seen where there is none.
    pub fn await_done<R: Wait>(&self, rt: &R, pass: &mut Pass<M>) -> Result<Delivery<'s>, Seen>
        ensures permitted { IfOk result (λ delivery. IsPermitted P.permits delivery.outcome) }
        ensures planned { IfOk result (λ delivery. IsPlanned P.plans delivery.outcome) }
        ensures counted { OnOk result (pass.new.count ≡ pass.old.count + 1) }
        ensures uncounted { OnErr result (pass.new.count ≡ pass.old.count) }
        ensures number { pass.new.number ≡ pass.old.number }
        ensures none { IfErr result (λ seen. (seen.done ≡ 0) × (seen.outstanding ≡ 0)) }
    {
        let singles = self.take_singles(rt);
        let mut queue = self.wait_for_done(rt, singles);
        take_awaited(&mut queue, pass)
    }

    /// Waits until something is done, or nothing is outstanding. Plans that wait alone are taken, since none is fed meanwhile.
    fn wait_for_done<R: Wait>(
        &self,
        rt: &R,
        _singles: SinglesTaken,
    ) -> MutexGuard<'_, PermittedQueue<'s, L, M, P>>
        ensures { TakerWaits result.value → ⊥ }
    {
        let locked = self.queue.lock(rt);
        self.done.wait_while(rt, locked, |queue| taker_waits(queue))
    }

    /// No more plans are fed. Workers end when none waits.
    pub fn close<R: Wait>(&self, rt: &R) -> Closed {
        let ended = close(&mut self.queue.lock(rt));
        wake_closed(&self.fed, ended)
    }

    /// No more plans are fed, and those that wait are given up. What is claimed or done goes on.
    pub fn stop<R: Wait>(&self, rt: &R) -> Closed {
        let ended = stop(&mut self.queue.lock(rt));
        wake_stopped(&self.fed, &self.done, ended)
    }

    /// Compares the desk's books with the shares of all workers and the taker's: what was claimed is what was taken, and
    /// what still stands in the desk, claimed or done, of which this tells the number.
    pub fn settle<R: Wait>(&self, rt: &R, claimers: &mut Share<L>, takers: &mut Share<M>) -> usize
        requires claims { claimers.old.parts ≡ L.parts }
        requires takes { takers.old.parts ≡ M.parts }
        ensures total { claimers.old.amount ≡ takers.old.amount + result }
        ensures claims { (claimers.new.amount ≡ claimers.old.amount) × (claimers.new.parts ≡ claimers.old.parts) }
        ensures takes { (takers.new.amount ≡ takers.old.amount) × (takers.new.parts ≡ takers.old.parts) }
    {
        self.queue.lock(rt).inner.settle(claimers, takers)
    }
}
