//! A collector that is asked.

use cutter::{Plan, PlanRef};
use fixture_standard_stream::{keys, sealed};
use flow_core::{CollectFault, Collector};
use segment_job::Sealed;
use std::alloc::Global;

/// Expects a plan, and again where it comes back. Tells how it went.
fn expect<'s>(collector: &mut Collector<'s>, plan: PlanRef<'s>) -> &'static str {
    if !collector.room() || plan.number >= 4_294_967_295 {
        return "wrong";
    }
    let Some(following) = collector.following(plan.rendition) else {
        return "wrong";
    };
    if following != plan.number {
        return "wrong";
    }
    let before = collector.awaited();
    let Err(back) = collector.expect(plan) else {
        return "at once";
    };
    let same = collector.awaited() == before && back.same(plan);
    let second = collector.expect(back);
    if same && second.is_ok() {
        "again"
    } else {
        "wrong"
    }
}

/// Takes a segment, and again where it is given back for want of memory. Tells how it went.
fn collect<'s>(collector: &mut Collector<'s>, segment: Sealed<'s>) -> &'static str {
    let back = match collector.collect(segment) {
        Ok(_) => return "at once",
        Err(CollectFault::NoMemory(back)) => back,
        Err(_) => return "wrong",
    };
    match collector.collect(back) {
        Ok(_) => "again",
        Err(_) => "wrong",
    }
}

/// How many segments are handed out.
fn handed_out(collector: &mut Collector<'_>) -> usize {
    let mut count: usize = 0;
    for _ in 0..3 {
        if collector.next(0).is_some() {
            count = count.saturating_add(1);
        }
    }
    count
}

/// Expects two plans. None where there is no memory to begin.
pub(crate) fn expecting<R: Print>(rt: &R, alloc: Global, plans: &[Plan]) -> Option<()> {
    let (first, second) = (plans.first()?, plans.get(1)?);
    let mut collector = Collector::new(alloc, keys(alloc)?, 2).ok()?;
    let one = expect(&mut collector, first.lend());
    let two = expect(&mut collector, second.lend());
    let count = collector.awaited();
    let _ = println!(rt; "expect: {one}, {two}, then {count}");
    Some(())
}

/// Takes the segments of two plans, the later one first, and hands them out. None where there is no memory to begin.
pub(crate) fn collecting<R: Print>(rt: &R, alloc: Global, plans: &[Plan]) -> Option<()> {
    let (first, second) = (plans.first()?, plans.get(1)?);
    let (early, late) = (sealed(alloc, first)?, sealed(alloc, second)?);
    let mut collector = Collector::new(alloc, keys(alloc)?, 2).ok()?;
    let _ = expect(&mut collector, first.lend());
    let _ = expect(&mut collector, second.lend());
    let one = collect(&mut collector, late);
    let two = collect(&mut collector, early);
    let count = handed_out(&mut collector);
    let _ = println!(rt; "collect: {one}, {two}, then {count} out");
    Some(())
}
