//! Tests of the collector.

use crate::asserts::assert_same;
use crate::fixtures::{OTHER, Things, keys_of, misses};
use crate::told::{Name, Told, name, received};
use Event::{Expect, Follows, Give, GiveWrong, HandOut, HasRoom, Misses};
use Told::{Came, Done, Double, Is, Next, Nothing, Shown, Stray};
use flow_core::Collector;
use segment_job::{Keys, seal_plan};
use std::alloc::{AllocError, Global};
use std::process::Abort;
use std::test::Fail;

/// One thing that a collector is asked.
#[derive(Clone, Copy)]
enum Event {
    /// The plan at a place is expected.
    Expect(usize),
    /// The segment of the plan at a place comes.
    Give(usize),
    /// The same, under another key.
    GiveWrong(usize),
    /// A rendition hands out a segment.
    HandOut(usize),
    /// Whether these plans are missing.
    Misses(&'static [Name]),
    HasRoom,
    /// The number that a rendition expects next.
    Follows(usize),
}

/// Expects the plan at a place, which has to be the next of its rendition.
fn expect_once<'s>(
    collector: &mut Collector<'s>,
    things: &'s Things,
    at: usize,
) -> Result<Told, Fail> {
    let Some(plan) = things.plans.get(at) else {
        return Ok(Told::Nothing);
    };
    let plan = plan.lend();
    if !collector.room() {
        return Err(Fail::from("no room"));
    }
    if plan.number >= 4_294_967_295 {
        return Err(Fail::from("too great a number"));
    }
    if collector.following(plan.rendition) != Some(plan.number) {
        return Err(Fail::from("not the next plan of a rendition"));
    }
    match collector.expect(plan) {
        Ok(()) => Ok(Told::Done),
        Err(back) => Ok(Told::NoMemory(name(back))),
    }
}

/// The same, once more where it came back.
fn expect<'s>(collector: &mut Collector<'s>, things: &'s Things, at: usize) -> Result<Told, Fail> {
    match expect_once(collector, things, at)? {
        Told::NoMemory(_) => expect_once(collector, things, at),
        told => Ok(told),
    }
}

/// A segment of the plan at a place comes, sealed under these keys.
fn give<'s>(
    collector: &mut Collector<'s>,
    things: &'s Things,
    at: usize,
    keys: &Keys,
) -> Result<Told, AllocError> {
    let Some(plan) = things.plans.get(at) else {
        return Ok(Nothing);
    };
    let segment = seal_plan(things.alloc, plan.lend(), keys)?;
    Ok(received(&collector.collect(segment)))
}

fn hand_out(collector: &mut Collector<'_>, rendition: usize) -> Told {
    match collector.next(rendition) {
        Some(segment) => Shown(name(segment.plan())),
        None => Nothing,
    }
}

fn follows(collector: &Collector<'_>, rendition: usize) -> Told {
    match collector.following(rendition) {
        Some(number) => Next(number),
        None => Nothing,
    }
}

fn told<'s>(collector: &mut Collector<'s>, things: &'s Things, event: Event) -> Result<Told, Fail> {
    match event {
        Expect(at) => expect(collector, things, at),
        Give(at) => Ok(give(collector, things, at, &things.right)?),
        GiveWrong(at) => Ok(give(collector, things, at, &things.wrong)?),
        HandOut(rendition) => Ok(hand_out(collector, rendition)),
        Misses(names) => Ok(Is(misses(collector, names)?)),
        HasRoom => Ok(Is(collector.room())),
        Follows(rendition) => Ok(follows(collector, rendition)),
    }
}

/// The first step that is answered otherwise, with what is answered.
fn first_wrong<'s>(
    collector: &mut Collector<'s>,
    things: &'s Things,
    steps: &[(Event, Told)],
) -> Result<Option<(usize, Told)>, Fail> {
    for at in 0..steps.len() {
        let (event, wanted) = steps[at];
        let told = told(collector, things, event)?;
        if told != wanted {
            return Ok(Some((at, told)));
        }
    }
    Ok(None)
}

/// A collector of so many renditions, whose first plans have these numbers, where it is told.
fn collector<'s>(
    alloc: Global,
    renditions: usize,
    starts: Option<[u64; 2]>,
    most: usize,
) -> Result<Collector<'s>, Fail> {
    let Some(starts) = starts else {
        return Ok(Collector::new(alloc, keys_of(alloc, renditions)?, most)?);
    };
    let starts = Vec::from_array(alloc, starts)?;
    Ok(Collector::starting(alloc, keys_of(alloc, renditions)?, starts, most)?)
}

/// The same, with a collector and plans of its own.
fn wrong_step(
    alloc: Global,
    renditions: usize,
    starts: Option<[u64; 2]>,
    most: usize,
    steps: &[(Event, Told)],
) -> Result<Option<(usize, Told)>, Fail> {
    let things = Things::new(alloc)?;
    let mut collector = collector(alloc, renditions, starts, most)?;
    first_wrong(&mut collector, &things, steps)
}

/// Stops a test where a collector of so many renditions answers otherwise. At most so many plans are expected at a time.
fn check(
    rt: &impl Abort,
    alloc: Global,
    renditions: usize,
    starts: Option<[u64; 2]>,
    most: usize,
    steps: &[(Event, Told)],
) -> Result<(), Fail> {
    let wrong = wrong_step(alloc, renditions, starts, most, steps)?;
    assert_same(rt, "the first wrong step", wrong, None);
    Ok(())
}

#[test]
fn segments_in_any_order(rt: HostRuntime) -> Result<(), Fail> {
    let steps = [
        (Expect(0), Done),
        (Expect(1), Done),
        (Follows(0), Next(2)),
        (Give(1), Came(0)),
        (Give(1), Double((0, 1))),
        (Give(OTHER), Stray((0, 0))),
        (Misses(&[(0, 0)]), Is(true)),
        (HandOut(0), Nothing),
        (Give(0), Came(2)),
        (Misses(&[]), Is(true)),
        (HandOut(0), Shown((0, 0))),
        (Give(0), Double((0, 0))),
        (HandOut(0), Shown((0, 1))),
        (HandOut(0), Nothing),
    ];
    check(&rt, rt.alloc(), 1, None, 2, &steps)
}

#[test]
fn segments_that_are_not_right(rt: HostRuntime) -> Result<(), Fail> {
    let steps = [
        (Give(0), Stray((0, 0))),
        (Follows(0), Next(0)),
        (Follows(1), Nothing),
        (Expect(0), Done),
        (Expect(1), Done),
        (GiveWrong(0), Stray((0, 0))),
        // of a rendition that isn't there
        (Give(2), Stray((1, 0))),
        (HandOut(1), Nothing),
        (Give(0), Came(1)),
        (GiveWrong(0), Double((0, 0))),
    ];
    check(&rt, rt.alloc(), 1, None, 2, &steps)
}

#[test]
fn a_thousand_segments_come_back(rt: HostRuntime) -> Result<(), Fail> {
    let first = [(Expect(0), Done), (Expect(1), Done), (Give(1), Came(0))];
    let mut steps = Vec::from_array(rt.alloc(), first)?;
    for _ in 0..500 {
        steps.push((Give(OTHER), Stray((0, 0))))?;
        steps.push((Give(1), Double((0, 1))))?;
    }
    steps.push((Give(0), Came(2)))?;
    check(&rt, rt.alloc(), 1, None, 2, &steps)
}

#[test]
fn renditions_stand_alone(rt: HostRuntime) -> Result<(), Fail> {
    let steps = [
        (Expect(0), Done),
        (Expect(1), Done),
        (Expect(2), Done),
        (Expect(3), Done),
        (HasRoom, Is(false)),
        (Give(0), Came(1)),
        (Give(3), Came(0)),
        (Misses(&[(0, 1), (1, 0)]), Is(true)),
        (HandOut(1), Nothing),
        (HandOut(0), Shown((0, 0))),
        (HasRoom, Is(true)),
    ];
    check(&rt, rt.alloc(), 2, None, 4, &steps)
}

#[test]
fn a_rendition_that_begins_later(rt: HostRuntime) -> Result<(), Fail> {
    let steps = [
        (Expect(3), Done),
        (HasRoom, Is(false)),
        // what lies below the start came before
        (Give(2), Double((1, 0))),
        (Give(3), Came(1)),
        (HandOut(1), Shown((1, 1))),
        (HandOut(1), Nothing),
        (HasRoom, Is(true)),
    ];
    check(&rt, rt.alloc(), 2, Some([0, 1]), 1, &steps)
}
