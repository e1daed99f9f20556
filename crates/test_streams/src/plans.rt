//! The tables of plans, plans that are the same, and the end of a cutter.
ghost use Rattle.std.specs.Prelude.{◌≡◌, ◌≤◌, [], length};

use crate::asserts::assert_same;
use crate::outcomes::{FOUR, cut};
use crate::stream_fixtures::Step::{Key, LongPmt, LongPmtEnd, Pat, Pmt, PmtWithSound};
use crate::stream_fixtures::{SETTINGS, Step, is_section, stream};
use cutter::{CutFault, Cutter, Lent, Plan};
use std::alloc::Global;
use std::test::Fail;

/// Streams, and the PMT of each plan with the counter that it begins with.
const TABLES: [(&[Step], &[(Step, u8)]); 3] = [
    (FOUR, &[(Pmt, 0), (Pmt, 1)]),
    (
        &[Pat, Pmt, Key(0), PmtWithSound, Key(300_000)],
        &[(Pmt, 0), (PmtWithSound, 1)],
    ),
    (
        &[
            Pat,
            LongPmt,
            LongPmtEnd,
            Key(0),
            Key(540_000),
            Key(1_080_000),
            Key(1_620_000),
            Key(2_160_000),
            Key(2_700_000),
            Key(3_240_000),
            Key(3_780_000),
            Key(4_320_000),
        ],
        &[
            (LongPmt, 0),
            (LongPmt, 2),
            (LongPmt, 4),
            (LongPmt, 6),
            (LongPmt, 8),
            (LongPmt, 10),
            (LongPmt, 12),
            (LongPmt, 14),
            (LongPmt, 0),
        ],
    ),
];

/// The first plan that has another PMT or another counter, or how many there are where these are more or less.
fn first_other(plans: &[Plan], tables: &[(Step, u8)]) -> Option<usize> {
    for at in 0..plans.len() {
        let plan = &plans[at];
        match tables.get(at) {
            Some((step, counter))
                if *counter == plan.pmt_counter && is_section(plan.tables.section(), *step) => {}
            _ => return Some(at),
        }
    }
    if plans.len() == tables.len() {
        return None;
    }
    Some(plans.len())
}

/// The first plan of a stream that has another PMT or another counter.
fn first_wrong(
    alloc: Global,
    steps: &[Step],
    tables: &[(Step, u8)],
) -> Result<Option<usize>, Fail> {
    let packets = stream(alloc, steps)?;
    let mut plans = Vec::new(alloc);
    cut(alloc, SETTINGS, &packets, &mut plans);
    let wrong = first_other(&plans, tables);
    drop(plans);
    Ok(wrong)
}

#[test]
fn tables_of_plans(rt: HostRuntime) -> Result<(), Fail> {
    for (steps, tables) in &TABLES {
        assert_same(
            &rt,
            steps.len(),
            first_wrong(rt.alloc(), steps, tables)?,
            None,
        );
    }
    Ok(())
}

/// Of which plans the first one is the same: of the third and the fourth, and lent of itself and of the second.
fn same_as_first(plans: &[Plan]) -> Option<[bool; 4]> {
    let [first, second, third, fourth] = plans else {
        return None;
    };
    let lent = Lent::of(first.lend());
    Some([
        first.same(third),
        first.same(fourth),
        lent.plan().same(first.lend()),
        lent.plan().same(second.lend()),
    ])
}

#[test]
fn equal_plans(rt: HostRuntime) -> Result<(), Fail> {
    let packets = stream(rt.alloc(), FOUR)?;
    let mut plans = Vec::new(rt.alloc());
    cut(rt.alloc(), SETTINGS, &packets, &mut plans);
    cut(rt.alloc(), SETTINGS, &packets, &mut plans);
    let same = same_as_first(&plans);
    drop(plans);
    assert_same(&rt, "equal plans", same, Some([true, false, true, false]));
    Ok(())
}

/// What a cutter tells of the last packet, at the end, of a packet behind it, and at the end once more.
type Told = (
    Option<CutFault>,
    Result<Option<usize>, CutFault>,
    Option<CutFault>,
    Result<Option<usize>, CutFault>,
);

/// The rendition of the last plan, or the fault.
fn end(cutter: &mut Cutter) -> Result<Option<usize>, CutFault>
    ensures { cutter.new.list ≡ cutter.old.list }
{
    let Some(plan) = cutter.finish()? else {
        return Ok(None);
    };
    let rendition = plan.rendition;
    drop(plan);
    Ok(Some(rendition))
}

/// Shows a cutter some packets, few, and ends it.
fn ended(cutter: &mut Cutter, packets: &[[u8; 188]]) -> Told
    requires { cutter.old.list ≡ [] }
{
    let mut last = None;
    if packets.len() > 16 {
        return (last, Ok(None), None, Ok(None));
    }
    for packet in packets {
        last = cutter.push(packet).err();
    }
    (last, end(cutter), cutter.push(&[0; 188]).err(), end(cutter))
}

/// What a cutter of rendition 7 tells of a stream.
fn cutter_ended(alloc: Global, steps: &[Step]) -> Result<Told, Fail> {
    let packets = stream(alloc, steps)?;
    let mut cutter = Cutter::new(alloc, 7, SETTINGS);
    let told = ended(&mut cutter, &packets);
    drop(cutter);
    Ok(told)
}

#[test]
fn a_cutter_ends_at_a_fault(rt: HostRuntime) -> Result<(), Fail> {
    assert_same(
        &rt,
        "a cutter ends at a fault",
        cutter_ended(rt.alloc(), &[Pat, Pmt, Key(0), Key(720_000)])?,
        (
            Some(CutFault::LongSegment(0)),
            Err(CutFault::Ended),
            Some(CutFault::Ended),
            Err(CutFault::Ended),
        ),
    );
    Ok(())
}

#[test]
fn a_cutter_ends_at_the_end(rt: HostRuntime) -> Result<(), Fail> {
    assert_same(
        &rt,
        "a cutter ends at the end",
        cutter_ended(rt.alloc(), &[Pat, Pmt, Key(0)])?,
        (
            None,
            Ok(Some(7)),
            Some(CutFault::Ended),
            Err(CutFault::Ended),
        ),
    );
    Ok(())
}
