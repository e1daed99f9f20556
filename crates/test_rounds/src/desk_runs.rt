//! Runs of a desk for tests.

ghost use Rattle.std.specs.Prelude.{◌≡◌, ◌+◌, vec_len};

use cutter::{Plan, PlanRef};
use fixture_standard_stream::{keys, plans};
use segment_job::Keys;
use std::alloc::{AllocError, Global};
use std::marker::Brand;
use std::sync::Wait;
use std::sync::ledger::{Blank, Ledger, Share};
use std::test::Fail;
use std::thread::{self, JoinHandle, Threads};
use work_desk::{Delivery, Desk, Gate, Obstacle, Opened, Outcome, Pass, Shelf, Tally, work};

/// What is run: so many plans by so many workers, over a desk on which so many may be outstanding.
#[derive(Drop)]
pub(crate) struct Job<'g, G> {
    pub(crate) queue: usize,
    pub(crate) workers: usize,
    pub(crate) plans: u64,
    /// Whether each second plan is of a rendition that has no keys.
    pub(crate) half: bool,
    /// Whether a thread of its own stops the desk once all plans are fed. It is closed otherwise.
    pub(crate) stops: bool,
    /// Whether plans are claimed in pairs.
    pub(crate) pairs: bool,
    pub(crate) gate: &'g G,
}

/// Who uses a desk, the share to which those of the workers are merged, and what was taken so far.
#[derive(Drop)]
struct Crew<L: Ledger, M: Ledger> {
    workers: Vec<Pass<L>>,
    taker: Pass<M>,
    rest: Share<L>,
    taken: Taken,
}

/// What came of the plans, how often they were claimed, and what was left in the desk.
#[derive(Clone, Copy, Debug, PartialEq, Eq)]
pub(crate) struct Told {
    pub(crate) sealed: u64,
    pub(crate) refused: u64,
    pub(crate) held: u64,
    /// Deliveries that came twice or weren't asked for, and answers that have no reason.
    pub(crate) wrong: u64,
    pub(crate) claims: u64,
    /// How many workers of a desk with pairs claimed one plan more than pairs.
    pub(crate) odd: u64,
    pub(crate) left: usize,
}

/// What was taken so far.
#[derive(Drop)]
struct Taken {
    told: Told,
    /// Whether the plan of each number came.
    came: Vec<bool>,
}

impl Taken {
    fn new(alloc: Global, plans: u64) -> Result<Taken, AllocError> {
        let mut came = Vec::new(alloc);
        for _ in 0..plans {
            came.push(false)?;
        }
        let told = Told {
            sealed: 0,
            refused: 0,
            held: 0,
            wrong: 0,
            claims: 0,
            odd: 0,
            left: 0,
        };
        Ok(Taken { told, came })
    }

    fn is_wrong(&mut self) {
        self.told.wrong = self.told.wrong.saturating_add(1);
    }

    fn note(&mut self, delivery: &Delivery<'_>) {
        match self.came.get_mut(delivery.number() as usize) {
            Some(came) if !*came => *came = true,
            _ => self.is_wrong(),
        }
        match delivery.outcome() {
            Outcome::Sealed(sealed) if sealed.plan().number == delivery.number() => {
                self.told.sealed = self.told.sealed.saturating_add(1);
            }
            Outcome::Sealed(_) => self.is_wrong(),
            Outcome::Refused => self.told.refused = self.told.refused.saturating_add(1),
            Outcome::Held => self.told.held = self.told.held.saturating_add(1),
        }
    }
}

/// Feeds a plan, once there is room.
fn feed_one<'p, L: Ledger, M: Ledger, R: Wait>(
    rt: &R,
    desk: &Desk<'p, L, M, Brand>,
    taker: &mut Pass<M>,
    plan: PlanRef<'p>,
    taken: &mut Taken,
) {
    for _ in rt.forever() {
        match desk.feed(rt, plan) {
            Ok(_) => return,
            Err(fault) if fault.why() == Obstacle::Full => {}
            Err(_) => {
                taken.is_wrong();
                return;
            }
        }
        let Some(delivery) = desk.wait_done(rt, taker) else {
            taken.is_wrong();
            return;
        };
        taken.note(&delivery);
    }
}

/// Feeds all plans.
fn feed_all<'p, L: Ledger, M: Ledger, G, R: Wait>(
    rt: &R,
    desk: &Desk<'p, L, M, Brand>,
    taker: &mut Pass<M>,
    plans: &'p [Plan],
    job: &Job<'_, G>,
    taken: &mut Taken,
) {
    for number in 0..job.plans {
        let Some(plan) = plans.get((number % 2) as usize) else {
            taken.is_wrong();
            break;
        };
        let mut plan = plan.lend();
        plan.number = number;
        if job.half {
            plan.rendition = (number % 2) as usize;
        }
        feed_one(rt, desk, taker, plan, taken);
    }
}

/// Takes what is left.
fn take_all<L: Ledger, M: Ledger, R: Wait>(
    rt: &R,
    desk: &Desk<'_, L, M, Brand>,
    taker: &mut Pass<M>,
    taken: &mut Taken,
) {
    for _ in rt.forever() {
        let Some(delivery) = desk.wait_done(rt, taker) else {
            break;
        };
        taken.note(&delivery);
    }
}

/// Closes the desk, or has a thread of its own stop it, and takes what is left.
fn end<L: Ledger + Send + Sync, M: Ledger + Send + Sync, R: Threads + Wait + Sync>(
    rt: &R,
    desk: &Desk<'_, L, M, Brand>,
    taker: Pass<M>,
    taken: Taken,
    stops: bool,
) -> (Pass<M>, Taken) {
    thread::scope(thread::scope_env(), rt, |scope| -> (Pass<M>, Taken) {
        let (mut taker, mut taken) = (taker, taken);
        let stopper = if stops {
            scope.spawn(move || desk.stop(rt)).ok()
        } else {
            None
        };
        if stopper.is_none() {
            desk.close(rt);
        }
        take_all(rt, desk, &mut taker, &mut taken);
        if let Some(child) = stopper {
            child.join(rt);
        }
        (taker, taken)
    })
}

/// Joins each worker, and adds up what they claimed, and how many claimed an odd number.
fn gather<L: Ledger, R: Threads>(
    rt: &R,
    running: Vec<JoinHandle<Tally<L>>>,
    rest: &mut Share<L>,
) -> (u64, u64)
    ensures { rest.new.parts ≡ rest.old.parts + vec_len running }
{
    let mut left = running;
    let (mut claims, mut odd) = (0u64, 0u64);
    while let Some(child) = left.pop() {
        let Tally {
            worker: _,
            claims: count,
            share,
        } = child.join(rt);
        rest.merge(share);
        claims = claims.saturating_add(count);
        odd = odd.saturating_add(count % 2);
    }
    (claims, odd)
}

/// A run of a desk that is open.
fn in_scope<
    'p,
    L: Ledger + Send + Sync,
    M: Ledger + Send + Sync,
    G: Gate + Sync,
    R: Threads + Wait + Sync,
>(
    rt: &R,
    alloc: Global,
    desk: &Desk<'p, L, M, Brand>,
    crew: Crew<L, M>,
    plans: &'p [Plan],
    keys: &[Keys],
    job: &Job<'_, G>,
) -> Told
    requires parts { crew.rest.parts + vec_len crew.workers ≡ L.parts }
    requires one { M.parts ≡ 1 }
{
    let Crew {
        workers: passes,
        taker,
        rest,
        taken,
    } = crew;
    thread::scope(
        thread::scope_env(),
        rt,
        |scope| -> Told
            requires { (rest.parts + vec_len passes ≡ L.parts) × (M.parts ≡ 1) }
        {
            let (mut rest, mut taker, mut taken) = (rest, taker, taken);
            let workers = passes.len();
            let gate = job.gate;
            let mut running: Vec<JoinHandle<Tally<L>>> = Vec::new(alloc);
            for pass in passes {
                let Ok(child) = scope.spawn(move || work(rt, alloc, desk, pass, keys, gate)) else {
                    break;
                };
                if running.push(child).is_err() {
                    break;
                }
            }
            feed_all(rt, desk, &mut taker, plans, job, &mut taken);
            let _ = desk.take_singles(rt);
            let (mut taker, taken) = end(rt, desk, taker, taken, job.stops);
            let started = running.len();
            let mut told = taken.told;
            let (claims, odd) = gather(rt, running, &mut rest);
            told.claims = claims;
            told.odd = if job.pairs { odd } else { 0 };
            if started == workers {
                told.left = desk.settle(rt, &mut rest, &mut taker.share);
            } else {
                told.wrong = told.wrong.saturating_add(1);
            }
            told
        },
    )
}

fn run_with<
    L: Ledger + Send + Sync,
    M: Ledger + Send + Sync,
    G: Gate + Sync,
    R: Threads + Wait + Sync,
>(
    rt: &R,
    alloc: Global,
    claims: Blank,
    takes: Blank,
    plans: &[Plan],
    keys: &[Keys],
    job: &Job<'_, G>,
) -> Result<Told, Fail>
    requires claims { (claims.name ≡ L.name) × (claims.parts ≡ L.parts) × (L.parts ≡ job.now.workers) }
    requires takes { (takes.name ≡ M.name) × (takes.parts ≡ M.parts) × (M.parts ≡ 1) }
{
    let taken = Taken::new(alloc, job.plans)?;
    let shelf = Shelf::new(alloc, job.workers);
    let Opened {
        desk,
        workers,
        taker,
        rest,
    } = Desk::<'_, L, M, Brand>::new(alloc, job.queue, job.workers, claims, takes, &shelf)?;
    let crew = Crew {
        workers,
        taker,
        rest,
        taken,
    };
    let desk = desk.with_pairs(job.pairs);
    Ok(in_scope(rt, alloc, &desk, crew, plans, keys, job))
}

/// Runs a job so often, and tells what all runs told, or the first that told otherwise.
pub(crate) fn run<G: Gate + Sync, R: Threads + Wait + Sync>(
    rt: &R,
    alloc: Global,
    job: &Job<'_, G>,
    times: u64,
    wanted: Told,
) -> Result<Told, Fail> {
    let plans = plans(alloc).ok_or("no plans")?;
    let keys = keys(alloc).ok_or("no keys")?;
    for _ in 0..times {
        let told = run_with::<Brand, Brand, G, R>(
            rt,
            alloc,
            Blank::new(job.workers as u64),
            Blank::new(1),
            &plans,
            &keys,
            job,
        )?;
        if told != wanted {
            return Ok(told);
        }
    }
    Ok(wanted)
}
