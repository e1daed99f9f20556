//! A queue and a flow that are asked.

ghost use Rattle.std.specs.Prelude.{◌≡◌};

use cutter::{Plan, PlanRef};
use fixture_standard_stream::keys;
use flow_core::{Flow, Obstacle, Queue};
use std::alloc::Global;
use std::marker::Brand;
use std::sync::ledger::{Blank, Ledger};

/// Feeds a plan to a queue, and again where there was no memory. Tells how it went.
fn feed<'s, L: Ledger, M: Ledger>(queue: &mut Queue<'s, L, M>, plan: PlanRef<'s>) -> &'static str {
    let before = queue.outstanding();
    let back = match queue.feed(plan) {
        Ok(fed) if fed.plan().same(plan) => return "at once",
        Ok(_) => return "wrong",
        Err(fault) if fault.why() == Obstacle::NoMemory => fault.plan(),
        Err(_) => return "wrong",
    };
    let same = queue.outstanding() == before && back.same(plan);
    let second = queue.feed(back);
    if same && second.is_ok() {
        "again"
    } else {
        "wrong"
    }
}

/// Feeds a plan to a flow, and again where there was no memory. Tells how it went.
fn flow<'s, L: Ledger, M: Ledger>(flow: &mut Flow<'s, L, M>, plan: PlanRef<'s>) -> &'static str {
    if plan.rendition >= flow.renditions() || plan.number >= 4_294_967_295 {
        return "wrong";
    }
    let before = (flow.queue().outstanding(), flow.collector().awaited());
    let Err(fault) = flow.feed(plan) else {
        return "at once";
    };
    if fault.why() != Obstacle::NoMemory {
        return "wrong";
    }
    let back = fault.plan();
    let after = (flow.queue().outstanding(), flow.collector().awaited());
    let second = flow.feed(plan);
    if before == after && back.same(plan) && second.is_ok() {
        "again"
    } else {
        "wrong"
    }
}

fn feeding_with<L: Ledger, M: Ledger, R: Print>(
    rt: &R,
    alloc: Global,
    claims: Blank,
    takes: Blank,
    plans: &[Plan],
) -> Option<()>
    requires claims { (claims.name ≡ L.name) × (claims.parts ≡ L.parts) }
    requires takes { (takes.name ≡ M.name) × (takes.parts ≡ M.parts) }
{
    let (claims, _) = claims.open::<L>();
    let (takes, _) = takes.open::<M>();
    let mut queue = Queue::new(alloc, 2, claims, takes);
    let one = feed(&mut queue, plans.first()?.lend());
    let two = feed(&mut queue, plans.get(1)?.lend());
    let count = queue.outstanding();
    let _ = println!(rt; "queue: {one}, {two}, then {count} outstanding");
    Some(())
}

fn flowing_with<L: Ledger, M: Ledger, R: Print>(
    rt: &R,
    alloc: Global,
    claims: Blank,
    takes: Blank,
    plans: &[Plan],
) -> Option<()>
    requires claims { (claims.name ≡ L.name) × (claims.parts ≡ L.parts) }
    requires takes { (takes.name ≡ M.name) × (takes.parts ≡ M.parts) }
{
    let (claims, _) = claims.open::<L>();
    let (takes, _) = takes.open::<M>();
    let starts = Vec::new(alloc);
    let mut it = Flow::starting(alloc, keys(alloc)?, starts, 2, claims, takes).ok()?;
    let one = flow(&mut it, plans.first()?.lend());
    let two = flow(&mut it, plans.get(1)?.lend());
    let (outstanding, expected) = (it.queue().outstanding(), it.collector().awaited());
    let _ = println!(rt; "flow: {one}, {two}, then {outstanding} outstanding, {expected} expected");
    Some(())
}

/// Feeds two plans to a queue. None where there is no memory to begin.
pub(crate) fn feeding<R: Print>(rt: &R, alloc: Global, plans: &[Plan]) -> Option<()> {
    feeding_with::<Brand, Brand, R>(rt, alloc, Blank::new(1), Blank::new(1), plans)
}

/// Feeds two plans to a flow. None where there is no memory to begin.
pub(crate) fn flowing<R: Print>(rt: &R, alloc: Global, plans: &[Plan]) -> Option<()> {
    flowing_with::<Brand, Brand, R>(rt, alloc, Blank::new(1), Blank::new(1), plans)
}
