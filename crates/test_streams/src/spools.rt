//! Plans that are closed in spools are those of the stream, wherever the spools are turned out.
ghost use Rattle.std.specs.Prelude.{◌≡◌, []};

use crate::asserts::assert_same;
use crate::stream_fixtures::Step::{Key, Pat, Pmt, Sound, Video};
use crate::stream_fixtures::{SETTINGS, Step, is_allowed, stream};
use cutter::{CutFault, CutSettings, Plan, Spool, SpoolCutter};
use std::alloc::Global;
use std::test::Fail;

/// When a spool is turned out, beside the end of the stream.
#[derive(Clone, Copy)]
enum Turns {
    Never,
    /// Behind each plan.
    Plans,
    /// Behind each so many packets.
    Packets(usize),
}

const TURNS: [Turns; 6] = [
    Turns::Never,
    Turns::Plans,
    Turns::Packets(1),
    Turns::Packets(2),
    Turns::Packets(3),
    Turns::Packets(5),
];

/// A spool to turn in, and how many plans stood in those that were turned out, if all are those of the stream.
#[derive(Drop)]
struct Turned {
    spool: Spool,
    count: Option<usize>,
}

/// Whether the spool is turned out behind so many packets.
fn is_turn(turns: Turns, packets: usize, closed: bool) -> bool {
    match turns {
        Turns::Never => false,
        Turns::Plans => closed,
        Turns::Packets(every) => packets.checked_rem(every) == Some(0),
    }
}

/// How many plans there are with those of one more spool, if these are the next ones of the stream.
fn with_spool(count: usize, spool: &Spool, plans: &[Plan]) -> Option<usize> {
    let mut count = count;
    for place in 0..spool.plans() {
        let plan = spool.plan(place)?;
        if !plan.same(plans.get(count)?.lend()) {
            return None;
        }
        count = count.wrapping_add(1);
    }
    Some(count)
}

/// Turns the spool out, and looks at its plans. A turn that is refused is as one that isn't asked for.
fn turn_out(cutter: &mut SpoolCutter, turned: Turned, plans: &[Plan]) -> Turned
    ensures { cutter.new.list ≡ cutter.old.list }
{
    let Turned { spool, count } = turned;
    match cutter.swap(spool) {
        Ok(full) => {
            let count = count.and_then(|count| with_spool(count, &full, plans));
            Turned { spool: full, count }
        }
        Err(spool) => Turned { spool, count },
    }
}

/// Cuts a stream, turning its spools out into one another.
fn cut_in_spools(
    cutter: &mut SpoolCutter,
    packets: &[[u8; 188]],
    turns: Turns,
    first: Spool,
    plans: &[Plan],
) -> (Turned, Result<bool, CutFault>)
    requires { cutter.old.list ≡ [] }
{
    let mut turned = Turned {
        spool: first,
        count: Some(0),
    };
    let mut count = 0usize;
    for packet in packets {
        count = count.wrapping_add(1);
        match cutter.push(packet) {
            Ok(closed) => {
                if is_turn(turns, count, closed) {
                    turned = turn_out(cutter, turned, plans);
                }
            }
            Err(fault) => return (turned, Err(fault)),
        }
    }
    let end = cutter.finish();
    (turned, end)
}

/// Whether the spools of a cutter hold the plans of a stream, and its fault is told.
fn holds(
    cutter: &mut SpoolCutter,
    first: Spool,
    packets: &[[u8; 188]],
    turns: Turns,
    plans: &[Plan],
    fault: Option<CutFault>,
) -> Result<bool, CutFault>
    requires { cutter.old.list ≡ [] }
{
    let (turned, end) = cut_in_spools(cutter, packets, turns, first, plans);
    let left = cutter.plans();
    let told = turned.count.map(|count| count.wrapping_add(left));
    // once more, where the turn is refused
    let last = turn_out(cutter, turned, plans);
    let Turned { spool, count } = turn_out(cutter, last, plans);
    drop(spool);
    match end {
        Err(CutFault::NoMemory) => Err(CutFault::NoMemory),
        _ => Ok(end.err() == fault && told == count && count == Some(plans.len())),
    }
}

/// Whether a stream has these plans and this fault, wherever its spools are turned out.
pub(crate) fn hold(
    alloc: Global,
    settings: CutSettings,
    packets: &[[u8; 188]],
    plans: &[Plan],
    fault: Option<CutFault>,
) -> Result<bool, CutFault> {
    if !is_allowed(settings) {
        return Err(CutFault::Ended);
    }
    let mut hold = true;
    for turns in TURNS {
        let mut cutter = SpoolCutter::new(alloc, 0, settings);
        let spool = Spool::new(alloc);
        let held = holds(&mut cutter, spool, packets, turns, plans, fault);
        drop(cutter);
        hold &= held?;
    }
    Ok(hold)
}

/// Two segments, the first of two I-frames.
const TWO: &[Step] = &[Pat, Pmt, Key(0), Key(180_000), Video, Key(540_000), Sound];

/// How many plans a spool holds, the I-frames of the first one, each as offset, length and start, and the number of the one
/// behind them.
type Told = (usize, [(u64, u64, u64); 2], Option<u64>);

fn told(spool: &Spool) -> Option<Told> {
    let plan = spool.plan(0)?;
    let [first, second] = plan.frames else {
        return None;
    };
    let frames = [
        (first.offset, first.len, first.start),
        (second.offset, second.len, second.start),
    ];
    let plans = spool.plans();
    let next = match spool.plan(plans) {
        Some(plan) => Some(plan.number),
        None => None,
    };
    Some((plans, frames, next))
}

/// What the spool that is turned out tells.
fn turned_out(cutter: &mut SpoolCutter, spool: Spool) -> Option<Told> {
    match cutter.swap(spool) {
        Ok(full) => {
            let told = told(&full);
            drop(full);
            told
        }
        Err(spare) => {
            drop(spare);
            None
        }
    }
}

/// What is told at the end of a stream of spools that are turned out behind each four packets, how many plans stood in them,
/// how many are left, and what the last spool tells.
type End = (Result<bool, CutFault>, Option<usize>, usize, Option<Told>);

fn end_in_spools(cutter: &mut SpoolCutter, first: Spool, packets: &[[u8; 188]]) -> End
    requires { cutter.old.list ≡ [] }
{
    let (turned, end) = cut_in_spools(cutter, packets, Turns::Packets(4), first, &[]);
    let Turned { spool, count } = turned;
    let left = cutter.plans();
    (end, count, left, turned_out(cutter, spool))
}

#[test]
fn a_turn_within_an_iframe(rt: HostRuntime) -> Result<(), Fail> {
    let packets = stream(rt.alloc(), TWO)?;
    let mut cutter = SpoolCutter::new(rt.alloc(), 7, SETTINGS);
    let end = end_in_spools(&mut cutter, Spool::new(rt.alloc()), &packets);
    drop(cutter);
    assert_same(
        &rt,
        "a turn within an iframe",
        end,
        (
            Ok(true),
            Some(0),
            2,
            Some((2, [(0, 188, 0), (188, 376, 180_000)], None)),
        ),
    );
    Ok(())
}

/// What a spool cutter tells of a packet, at the end, of a packet behind it, and at the end once more.
fn ended(cutter: &mut SpoolCutter) -> [Result<bool, CutFault>; 4]
    requires { cutter.old.list ≡ [] }
{
    [
        cutter.push(&[0; 188]),
        cutter.finish(),
        cutter.push(&[0; 188]),
        cutter.finish(),
    ]
}

#[test]
fn a_spool_cutter_ends(rt: HostRuntime) {
    let mut cutter = SpoolCutter::new(rt.alloc(), 7, SETTINGS);
    let told = ended(&mut cutter);
    let plans = cutter.plans();
    drop(cutter);
    assert_same(
        &rt,
        "a spool cutter ends",
        told,
        [
            Ok(false),
            Err(CutFault::NoProgram),
            Err(CutFault::Ended),
            Err(CutFault::Ended),
        ],
    );
    assert_same(&rt, "a spool cutter ends", plans, 0);
}
