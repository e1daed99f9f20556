ghost use Rattle.std.specs.Prelude.{◌≡◌};

use crate::asserts::assert_same;
use crate::desk_runs::{Job, Told, run};
use cutter::PlanRef;
use fixture_standard_stream::plans;
use std::alloc::Global;
use std::marker::Brand;
use std::process::Abort;
use std::sync::Wait;
use std::sync::ledger::{Blank, Ledger};
use std::test::Fail;
use std::thread::Threads;
use work_desk::{Desk, FreeGate, Gate, NoFile, Obstacle, Opened, Outcome, Pass, Shelf};

/// How often each run is made, so that threads meet in many orders.
const TIMES: u64 = 200;

/// What a run tells of which so many plans were sealed.
const fn sealed(count: u64) -> Told {
    Told {
        sealed: count,
        refused: 0,
        held: 0,
        wrong: 0,
        claims: count,
        odd: 0,
        left: 0,
    }
}

/// Stops a test where a run of a job, which is made so often, tells otherwise.
fn check<G: Gate + Sync, R: Abort + Threads + Wait + Sync>(
    rt: &R,
    alloc: Global,
    case: &str,
    job: &Job<'_, G>,
    wanted: Told,
) -> Result<(), Fail> {
    let told = run(rt, alloc, job, TIMES, wanted)?;
    assert_same(rt, case, told, wanted);
    Ok(())
}

#[test]
fn two_workers_seal_both_plans(rt: HostRuntime) -> Result<(), Fail> {
    let job = Job {
        queue: 2,
        workers: 2,
        plans: 2,
        half: false,
        stops: false,
        pairs: false,
        gate: &FreeGate,
    };
    check(
        &rt,
        rt.alloc(),
        "two workers seal both plans",
        &job,
        sealed(2),
    )
}

#[test]
fn sixteen_workers_seal_each_plan_once(rt: HostRuntime) -> Result<(), Fail> {
    let job = Job {
        queue: 4,
        workers: 16,
        plans: 1000,
        half: false,
        stops: false,
        pairs: false,
        gate: &FreeGate,
    };
    check(
        &rt,
        rt.alloc(),
        "sixteen workers seal each plan once",
        &job,
        sealed(1000),
    )
}

/// One worker before a long queue seals its plans four at a time.
/// How many plans may be outstanding at a desk with pairs, and how many are fed; and how many workers claim one more than pairs.
const PAIRED: [(usize, u64, u64); 4] = [(8, 8, 0), (8, 2, 0), (8, 1, 1), (8, 7, 1)];

#[test]
fn plans_that_are_fed_in_a_row_are_claimed_in_pairs(rt: HostRuntime) -> Result<(), Fail> {
    for (queue, plans, odd) in PAIRED {
        let job = Job {
            queue,
            workers: 3,
            plans,
            half: false,
            stops: false,
            pairs: true,
            gate: &FreeGate,
        };
        let wanted = Told {
            odd,
            ..sealed(plans)
        };
        check(&rt, rt.alloc(), "pairs", &job, wanted)?;
    }
    Ok(())
}

#[test]
fn a_desk_of_one_plan_waits_for_no_pair(rt: HostRuntime) -> Result<(), Fail> {
    let job = Job {
        queue: 1,
        workers: 1,
        plans: 4,
        half: false,
        stops: false,
        pairs: true,
        gate: &FreeGate,
    };
    check(&rt, rt.alloc(), "one by one", &job, sealed(4))
}

#[test]
fn one_worker_seals_a_long_queue(rt: HostRuntime) -> Result<(), Fail> {
    let job = Job {
        queue: 16,
        workers: 1,
        plans: 103,
        half: false,
        stops: false,
        pairs: false,
        gate: &FreeGate,
    };
    check(
        &rt,
        rt.alloc(),
        "one worker seals a long queue",
        &job,
        sealed(103),
    )
}

/// A gate that holds one segment back.
#[derive(Drop)]
struct AllBut(u64);

impl Gate for AllBut {
    type File = NoFile;

    ghost lets = { λ _ _ _. Unit {0} };

    ghost stops = { λ _ _ _. Unit {0} };

    fn pass(&self, _rendition: usize, number: u64) -> bool {
        number != self.0
    }
}

#[test]
fn a_run_goes_on_behind_a_segment_that_is_held(rt: HostRuntime) -> Result<(), Fail> {
    let job = Job {
        queue: 2,
        workers: 2,
        plans: 3,
        half: false,
        stops: false,
        pairs: false,
        gate: &AllBut(1),
    };
    let wanted = Told {
        sealed: 2,
        held: 1,
        ..sealed(3)
    };
    check(
        &rt,
        rt.alloc(),
        "a run goes on behind a segment that is held",
        &job,
        wanted,
    )
}

/// A segment that is held back or refused among those that are sealed side by side is told for itself.
#[test]
fn one_of_four_that_is_held_or_refused_leaves_the_others(rt: HostRuntime) -> Result<(), Fail> {
    let job = Job {
        queue: 8,
        workers: 1,
        plans: 8,
        half: true,
        stops: false,
        pairs: false,
        gate: &AllBut(2),
    };
    let wanted = Told {
        sealed: 3,
        refused: 4,
        held: 1,
        ..sealed(8)
    };
    check(
        &rt,
        rt.alloc(),
        "one of four that is held or refused leaves the others",
        &job,
        wanted,
    )
}

#[test]
fn a_run_goes_on_where_each_second_plan_is_refused(rt: HostRuntime) -> Result<(), Fail> {
    let job = Job {
        queue: 1,
        workers: 2,
        plans: 8,
        half: true,
        stops: false,
        pairs: false,
        gate: &FreeGate,
    };
    let wanted = Told {
        sealed: 4,
        refused: 4,
        ..sealed(8)
    };
    check(
        &rt,
        rt.alloc(),
        "a run goes on where each second plan is refused",
        &job,
        wanted,
    )
}

#[test]
fn a_stop_wakes_workers_that_wait(rt: HostRuntime) -> Result<(), Fail> {
    let job = Job {
        queue: 1,
        workers: 4,
        plans: 0,
        half: false,
        stops: true,
        pairs: false,
        gate: &FreeGate,
    };
    check(
        &rt,
        rt.alloc(),
        "a stop wakes workers that wait",
        &job,
        sealed(0),
    )
}

#[test]
fn a_stop_wakes_a_taker_that_waits(rt: HostRuntime) -> Result<(), Fail> {
    let job = Job {
        queue: 1,
        workers: 0,
        plans: 1,
        half: false,
        stops: true,
        pairs: false,
        gate: &FreeGate,
    };
    check(
        &rt,
        rt.alloc(),
        "a stop wakes a taker that waits",
        &job,
        sealed(0),
    )
}

/// What is told of a plan that isn't fed.
fn told(why: Obstacle) -> &'static str {
    match why {
        Obstacle::Full => "full",
        Obstacle::Closed => "closed",
        Obstacle::Twice => "twice",
        Obstacle::NoMemory => "no memory",
    }
}

/// What is told of a plan that is fed, and the number of the plan that comes back.
fn feed<'s, L: Ledger, M: Ledger, R: Wait>(
    rt: &R,
    desk: &Desk<'s, L, M, Brand>,
    plan: PlanRef<'s>,
) -> (&'static str, u64) {
    match desk.feed(rt, plan) {
        Ok(fed) => ("waits", fed.plan().number),
        Err(fault) => (told(fault.why()), fault.plan().number),
    }
}

/// Whether a claim comes, which is refused.
fn refuses_one<L: Ledger, M: Ledger, R: Wait>(
    rt: &R,
    desk: &Desk<'_, L, M, Brand>,
    pass: &mut Pass<L>,
) -> bool {
    let Some(claim) = desk.claim(rt, pass) else {
        return false;
    };
    desk.deliver(rt, claim, Outcome::Refused);
    true
}

/// Feeds plan 0 twice and then plan 1, and plan 1 again where the desk was stopped. Tells each answer, and whether a claim
/// and a delivery come then.
fn fed_with<'s, L: Ledger, M: Ledger, R: Wait>(
    rt: &R,
    alloc: Global,
    claims: Blank,
    takes: Blank,
    queue: usize,
    plans: [PlanRef<'s>; 2],
) -> Result<(Vec<(&'static str, u64)>, bool, bool), Fail>
    requires claims { (claims.name ≡ L.name) × (claims.parts ≡ L.parts) × (L.parts ≡ 1) }
    requires takes { (takes.name ≡ M.name) × (takes.parts ≡ M.parts) × (M.parts ≡ 1) }
{
    let shelf = Shelf::new(alloc, 1);
    let Opened {
        desk,
        mut workers,
        mut taker,
        ..
    } = Desk::<'_, L, M, Brand>::new(alloc, queue, 1, claims, takes, &shelf)?;
    let Some(mut pass) = workers.pop() else {
        return Err(Fail::from("no pass"));
    };
    let [first, second] = plans;
    let mut told = Vec::new(alloc);
    told.push(feed(rt, &desk, first))?;
    told.push(feed(rt, &desk, first))?;
    told.push(feed(rt, &desk, second))?;
    desk.stop(rt);
    told.push(feed(rt, &desk, second))?;
    let claimed = refuses_one(rt, &desk, &mut pass);
    let done = desk.take_done(rt, &mut taker).is_some() || desk.wait_done(rt, &mut taker).is_some();
    Ok((told, claimed, done))
}

/// The same, with books of its own.
fn fed<R: Wait>(
    rt: &R,
    alloc: Global,
    queue: usize,
) -> Result<(Vec<(&'static str, u64)>, bool, bool), Fail> {
    let plans = plans(alloc).ok_or("no plans")?;
    let Some(first) = plans.first() else {
        return Err(Fail::from("no plan"));
    };
    let Some(second) = plans.last() else {
        return Err(Fail::from("no plan"));
    };
    fed_with::<Brand, Brand, R>(
        rt,
        alloc,
        Blank::new(1),
        Blank::new(1),
        queue,
        [first.lend(), second.lend()],
    )
}

#[test]
fn a_plan_is_refused_with_its_reason(rt: HostRuntime) -> Result<(), Fail> {
    let (told, claimed, done) = fed(&rt, rt.alloc(), 2)?;
    let wanted = [("waits", 0), ("twice", 0), ("waits", 1), ("closed", 1)];
    assert_same(
        &rt,
        "a queue of two",
        (told.as_slice(), claimed, done),
        (wanted.as_slice(), false, false),
    );
    let (told, _, _) = fed(&rt, rt.alloc(), 1)?;
    let wanted = [("waits", 0), ("full", 0), ("full", 1), ("closed", 1)];
    assert_same(&rt, "a queue of one", told.as_slice(), wanted.as_slice());
    Ok(())
}
