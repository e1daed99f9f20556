//! Tests of the queue.

ghost use Rattle.std.specs.Prelude.{◌≡◌};

use crate::asserts::assert_same;
use crate::fixtures::Things;
use crate::told::{Told, claimed, ended, given, queued};
use Event::{Claim as Claims, Close, Deliver, Feed, Hold, Look, Refuse, Stop, Take};
use Told::{Claimed, Closed, Done, Full, Held, Nothing, Refused, Sealed, Seen, Twice};
use flow_core::{Claim, Queue};
use segment_job::seal_plan;
use std::alloc::{AllocError, Global};
use std::marker::Brand;
use std::process::Abort;
use std::sync::ledger::{Blank, Ledger, Share};
use std::test::Fail;

/// One thing that a queue is asked.
#[derive(Clone, Copy)]
enum Event {
    /// The plan at a place is fed.
    Feed(usize),
    /// A worker claims.
    Claim(usize),
    /// The last claim that was made is delivered, sealed.
    Deliver,
    /// The last claim that was made is refused.
    Refuse,
    /// The last claim that was made is held back.
    Hold,
    Take,
    Close,
    Stop,
    Look,
}

/// A queue with the one share of each of its books, and the claims that were made.
struct Hands<'s, L: Ledger, M: Ledger> {
    queue: Queue<'s, L, M>,
    claimer: Share<L>,
    taker: Share<M>,
    claims: Vec<Claim<'s>>,
    ghost one_claimer: { claimer.parts ≡ 1 },
    ghost one_taker: { taker.parts ≡ 1 },
}

impl<'s, L: Ledger, M: Ledger> Hands<'s, L, M> {
    /// Feeds the plan at a place, and once more where there was no memory.
    fn feed(&mut self, things: &'s Things, at: usize) -> Told {
        let Some(plan) = things.plans.get(at) else {
            return Nothing;
        };
        match queued(self.queue.feed(plan.lend()), plan.lend()) {
            Told::NoMemory(_) => queued(self.queue.feed(plan.lend()), plan.lend()),
            told => told,
        }
    }

    fn claim(&mut self, worker: usize) -> Result<Told, AllocError> {
        let Hands {
            queue,
            claimer,
            claims,
            ..
        } = self;
        claims.reserve(1)?;
        Ok(claimed(queue.claim(worker, claimer), claims))
    }

    /// Delivers a claim, sealed. It is refused where there is no memory to seal it.
    fn deliver(&mut self, things: &Things, claim: Claim<'s>) -> Result<bool, AllocError> {
        match seal_plan(things.alloc, claim.plan(), &things.right) {
            Ok(segment) => Ok(self.queue.deliver(claim, segment)),
            Err(error) => {
                self.queue.refuse(claim);
                Err(error)
            }
        }
    }

    /// Ends the claim that was made last.
    fn finish(&mut self, things: &Things, event: Event) -> Result<Told, AllocError> {
        let Some(claim) = self.claims.pop() else {
            return Ok(Nothing);
        };
        let stood = match event {
            Refuse => self.queue.refuse(claim),
            Hold => self.queue.hold(claim),
            _ => self.deliver(things, claim)?,
        };
        Ok(ended(stood))
    }

    fn take(&mut self) -> Told {
        let Hands { queue, taker, .. } = self;
        match queue.take(taker) {
            Some(delivery) => given(&delivery),
            None => Nothing,
        }
    }

    fn seen(&self) -> Told {
        let queue = &self.queue;
        Seen(
            queue.outstanding(),
            queue.is_closed(),
            queue.has_waiting(),
            queue.has_done(),
        )
    }

    fn told(&mut self, things: &'s Things, event: Event) -> Result<Told, AllocError> {
        match event {
            Feed(at) => return Ok(self.feed(things, at)),
            Claims(worker) => return self.claim(worker),
            Deliver | Refuse | Hold => return self.finish(things, event),
            Take => return Ok(self.take()),
            Close => self.queue.close(),
            Stop => self.queue.stop(),
            Look => return Ok(self.seen()),
        }
        Ok(Done)
    }

    /// The first step that is answered otherwise, with what is answered.
    fn first_wrong(
        &mut self,
        things: &'s Things,
        steps: &[(Event, Told)],
    ) -> Result<Option<(usize, Told)>, AllocError> {
        for at in 0..steps.len() {
            let (event, wanted) = steps[at];
            let told = self.told(things, event)?;
            if told != wanted {
                return Ok(Some((at, told)));
            }
        }
        Ok(None)
    }

    /// How many plans the books leave.
    fn left(&mut self) -> usize
        requires { (L.parts ≡ 1) × (M.parts ≡ 1) }
    {
        let Hands {
            queue,
            claimer,
            taker,
            ..
        } = self;
        queue.settle(claimer, taker)
    }

    /// Plays steps: the first that is answered otherwise, and how many plans the books leave at the end.
    fn play(
        &mut self,
        things: &'s Things,
        steps: &[(Event, Told)],
    ) -> Result<(Option<(usize, Told)>, usize), AllocError>
        requires { (L.parts ≡ 1) × (M.parts ≡ 1) }
    {
        let wrong = self.first_wrong(things, steps)?;
        Ok((wrong, self.left()))
    }

    /// Refuses what is claimed still, which can't be dropped.
    fn end(self) {
        let Hands {
            mut queue,
            claimer: _,
            taker: _,
            mut claims,
        } = self;
        while let Some(claim) = claims.pop() {
            queue.refuse(claim);
        }
        claims.destroy_empty();
    }
}

/// Plays steps on a new queue of so many plans.
fn played_with<L: Ledger, M: Ledger>(
    claims: Blank,
    takes: Blank,
    things: &Things,
    most: usize,
    steps: &[(Event, Told)],
) -> Result<(Option<(usize, Told)>, usize), AllocError>
    requires claims { (claims.name ≡ L.name) × (claims.parts ≡ L.parts) × (L.parts ≡ 1) }
    requires takes { (takes.name ≡ M.name) × (takes.parts ≡ M.parts) × (M.parts ≡ 1) }
{
    let (claims, claimer) = claims.open::<L>();
    let (takes, taker) = takes.open::<M>();
    let mut hands = Hands {
        queue: Queue::new(things.alloc, most, claims, takes),
        claimer,
        taker,
        claims: Vec::new(things.alloc),
    };
    let played = hands.play(things, steps);
    hands.end();
    played
}

/// The same, with books and plans of its own.
fn played(
    alloc: Global,
    most: usize,
    steps: &[(Event, Told)],
) -> Result<(Option<(usize, Told)>, usize), Fail> {
    let things = Things::new(alloc)?;
    Ok(played_with::<Brand, Brand>(Blank::new(1), Blank::new(1), &things, most, steps)?)
}

/// Stops a test where a queue of so many plans answers otherwise, or its books don't leave so many plans.
fn check(
    rt: &impl Abort,
    alloc: Global,
    most: usize,
    steps: &[(Event, Told)],
    left: usize,
) -> Result<(), Fail> {
    let told = played(alloc, most, steps)?;
    assert_same(
        rt,
        "the first wrong step, and what is left",
        told,
        (None, left),
    );
    Ok(())
}

#[test]
fn a_queue_of_one(rt: HostRuntime) -> Result<(), Fail> {
    let steps = [
        (Feed(0), Done),
        (Feed(1), Full((0, 1))),
        (Claims(0), Claimed(0, (0, 0))),
        (Feed(1), Full((0, 1))),
        (Deliver, Done),
        (Feed(1), Full((0, 1))),
        (Take, Sealed((0, 0))),
        (Feed(1), Done),
        (Look, Seen(1, false, true, false)),
        (Stop, Done),
        (Claims(0), Nothing),
        (Look, Seen(0, true, false, false)),
    ];
    check(&rt, rt.alloc(), 1, &steps, 0)
}

#[test]
fn a_plan_twice(rt: HostRuntime) -> Result<(), Fail> {
    let steps = [
        (Feed(0), Done),
        (Feed(0), Twice((0, 0))),
        (Claims(3), Claimed(3, (0, 0))),
        (Feed(0), Twice((0, 0))),
        (Deliver, Done),
        (Feed(0), Twice((0, 0))),
        // the same number of another rendition
        (Feed(2), Done),
        (Feed(0), Twice((0, 0))),
        (Take, Sealed((0, 0))),
        (Feed(0), Done),
        (Claims(3), Claimed(3, (1, 0))),
        (Look, Seen(2, false, true, false)),
    ];
    check(&rt, rt.alloc(), 3, &steps, 1)
}

#[test]
fn a_queue_that_is_closed(rt: HostRuntime) -> Result<(), Fail> {
    let steps = [
        (Look, Seen(0, false, false, false)),
        (Feed(0), Done),
        (Look, Seen(1, false, true, false)),
        (Close, Done),
        // what is told first of Closed and Twice
        (Feed(0), Closed((0, 0))),
        (Look, Seen(1, true, true, false)),
        (Claims(0), Claimed(0, (0, 0))),
        (Refuse, Done),
        (Look, Seen(1, true, false, true)),
        (Take, Refused((0, 0))),
        (Take, Nothing),
    ];
    check(&rt, rt.alloc(), 2, &steps, 0)
}

#[test]
fn what_is_claimed_outlives_a_stop(rt: HostRuntime) -> Result<(), Fail> {
    let steps = [
        (Feed(0), Done),
        (Feed(1), Done),
        // what is told first of Full, Closed and Twice
        (Feed(1), Full((0, 1))),
        (Claims(1), Claimed(1, (0, 0))),
        (Stop, Done),
        (Look, Seen(1, true, false, false)),
        (Hold, Done),
        (Take, Held((0, 0))),
        (Feed(1), Closed((0, 1))),
    ];
    check(&rt, rt.alloc(), 2, &steps, 0)
}
