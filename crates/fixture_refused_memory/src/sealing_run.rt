//! One run: what two workers make of eight plans.

ghost use Rattle.std.specs.Prelude.{◌≡◌, ◌+◌, vec_len};

use cutter::{Plan, PlanRef};
use segment_job::Keys;
use std::alloc::Global;
use std::marker::Brand;
use std::sync::Wait;
use std::sync::ledger::{Blank, Ledger, Share};
use std::thread::{self, JoinHandle, Threads};
use work_desk::{Delivery, Desk, FreeGate, Opened, Outcome, Pass, Shelf, Tally, work};

const WORKERS: usize = 2;

const PLANS: usize = 8;

/// How many plans were sealed, and how many refused.
#[derive(Clone, Copy, Drop)]
pub(crate) struct Told {
    pub(crate) sealed: u64,
    pub(crate) refused: u64,
}

/// What was taken so far.
#[derive(Clone, Copy, Drop)]
struct Taken {
    told: Told,
    /// Whether the plan of each number came.
    came: [bool; PLANS],
    /// Whether each plan came once at most, sealed as itself or refused, and all could be fed.
    right: bool,
}

impl Taken {
    fn new() -> Taken {
        Taken {
            told: Told {
                sealed: 0,
                refused: 0,
            },
            came: [false; PLANS],
            right: true,
        }
    }

    fn note(&mut self, delivery: &Delivery<'_>) {
        match self.came.get_mut(delivery.number() as usize) {
            Some(came) if !*came => *came = true,
            _ => self.right = false,
        }
        match delivery.outcome() {
            Outcome::Sealed(sealed) if sealed.plan().number == delivery.number() => {
                self.told.sealed = self.told.sealed.saturating_add(1);
            }
            Outcome::Refused => self.told.refused = self.told.refused.saturating_add(1),
            _ => self.right = false,
        }
    }

    /// What was taken, where each plan came, was claimed once, and nothing is left.
    fn told(&self, claims: u64, left: usize) -> Option<Told> {
        let whole = self.right && self.came.iter().all(|came| *came);
        if whole && claims == PLANS as u64 && left == 0 {
            Some(self.told)
        } else {
            None
        }
    }
}

/// Who uses a desk, and the share to which those of the workers are merged.
#[derive(Drop)]
struct Crew<L: Ledger, M: Ledger> {
    workers: Vec<Pass<L>>,
    taker: Pass<M>,
    rest: Share<L>,
}

/// Feeds all plans, which are two with other numbers, closes the desk and takes what came of them.
fn drive<'p, L: Ledger, M: Ledger, R: Wait>(
    rt: &R,
    desk: &Desk<'p, L, M, Brand>,
    taker: &mut Pass<M>,
    plans: &'p [Plan],
) -> Taken {
    let mut taken = Taken::new();
    for number in 0..PLANS {
        let fed = match plans.get(number % 2) {
            Some(plan) => feed(rt, desk, plan.lend(), number as u64),
            None => false,
        };
        taken.right = taken.right && fed;
    }
    desk.close(rt);
    for _ in rt.forever() {
        let Some(delivery) = desk.wait_done(rt, taker) else {
            break;
        };
        taken.note(&delivery);
    }
    taken
}

/// Feeds a plan under another number.
fn feed<'p, L: Ledger, M: Ledger, R: Wait>(
    rt: &R,
    desk: &Desk<'p, L, M, Brand>,
    plan: PlanRef<'p>,
    number: u64,
) -> bool {
    let mut plan = plan;
    plan.number = number;
    desk.feed(rt, plan).is_ok()
}

/// Joins each worker, and adds up what they claimed.
fn gather<L: Ledger, R: Threads>(
    rt: &R,
    running: Vec<JoinHandle<Tally<L>>>,
    rest: &mut Share<L>,
) -> u64
    ensures { rest.new.parts ≡ rest.old.parts + vec_len running }
{
    let mut left = running;
    let mut claims: u64 = 0;
    while let Some(child) = left.pop() {
        let Tally {
            worker: _,
            claims: count,
            share,
        } = child.join(rt);
        rest.merge(share);
        claims = claims.saturating_add(count);
    }
    claims
}

/// A run of a desk that is open; none where it told anything wrong.
fn in_scope<'p, L: Ledger + Send + Sync, M: Ledger + Send + Sync, R: Threads + Wait + Sync>(
    rt: &R,
    alloc: Global,
    desk: &Desk<'p, L, M, Brand>,
    crew: Crew<L, M>,
    plans: &'p [Plan],
    keys: &[Keys],
) -> Option<Told>
    requires { (crew.rest.parts + vec_len crew.workers ≡ L.parts) × (M.parts ≡ 1) }
{
    let Crew {
        workers: passes,
        taker,
        rest,
    } = crew;
    thread::scope(
        thread::scope_env(),
        rt,
        |scope| -> Option<Told>
            requires { (rest.parts + vec_len passes ≡ L.parts) × (M.parts ≡ 1) }
        {
            let (mut rest, mut taker, workers) = (rest, taker, passes.len());
            let mut running: Vec<JoinHandle<Tally<L>>> = Vec::new(alloc);
            for pass in passes {
                let Ok(child) = scope.spawn(move || work(rt, alloc, desk, pass, keys, &FreeGate))
                else {
                    break;
                };
                if running.push(child).is_err() {
                    break;
                }
            }
            let taken = drive(rt, desk, &mut taker, plans);
            let started = running.len();
            let claims = gather(rt, running, &mut rest);
            if started != workers {
                return None;
            }
            let left = desk.settle(rt, &mut rest, &mut taker.share);
            taken.told(claims, left)
        },
    )
}

fn run_with<L: Ledger + Send + Sync, M: Ledger + Send + Sync, R: Threads + Wait + Sync>(
    rt: &R,
    alloc: Global,
    claims: Blank,
    takes: Blank,
    plans: &[Plan],
    keys: &[Keys],
) -> Option<Told>
    requires claims { (claims.name ≡ L.name) × (claims.parts ≡ L.parts) × (L.parts ≡ 2) }
    requires takes { (takes.name ≡ M.name) × (takes.parts ≡ M.parts) × (M.parts ≡ 1) }
{
    let shelf = Shelf::new(alloc, WORKERS);
    let Opened {
        desk,
        workers,
        taker,
        rest,
    } = Desk::<'_, L, M, Brand>::new(alloc, PLANS, WORKERS, claims, takes, &shelf).ok()?;
    let crew = Crew {
        workers,
        taker,
        rest,
    };
    in_scope(rt, alloc, &desk, crew, plans, keys)
}

/// A run; none where it told anything wrong, or there was no memory to begin.
pub(crate) fn run<R: Threads + Wait + Sync>(
    rt: &R,
    alloc: Global,
    plans: &[Plan],
    keys: &[Keys],
) -> Option<Told> {
    run_with::<Brand, Brand, R>(
        rt,
        alloc,
        Blank::new(WORKERS as u64),
        Blank::new(1),
        plans,
        keys,
    )
}
