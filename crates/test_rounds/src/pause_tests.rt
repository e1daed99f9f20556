//! No input holds up another.

ghost use Rattle.std.specs.Prelude.{◌≡◌, ◌≤◌, All, IfOk, OnOk};
ghost use Rattle.item_io.specs.declared.limits.TheConstants.{READS};

use crate::asserts::assert_same;
use crate::fixtures::{rendition, settings};
use crate::pausing::Pausing;
use crate::run_jobs::SEVEN;
use fixture_standard_stream::append_packets;
use item_io::{FailingOutlet, FailingReader, Item, READS};
use ladder_items::{PackFault, Settings};
use live_board::{Publisher, Snapshot, board};
use rounds::{Ran, pack_parallel_reads};
use std::alloc::{AllocError, Global};
use std::sync::Wait;
use std::test::Fail;
use std::thread::Threads;
use work_desk::FreeGate;

/// The settings of two renditions.
pub(crate) fn two(alloc: Global) -> Result<Settings, Fail> {
    let mut settings = settings(alloc)?;
    settings.renditions.push(rendition(alloc, "w")?)?;
    Ok(settings)
}

/// A snapshot of two renditions without a segment.
pub(crate) fn nothing_of_two(alloc: Global) -> Result<Snapshot, AllocError> {
    Ok(Snapshot {
        counts: Vec::from_array(alloc, [0, 0])?,
        ended: Vec::from_array(alloc, [false, false])?,
        totals: Vec::new(alloc),
        media: Vec::new(alloc),
        frames: Vec::new(alloc),
        master: String::new(alloc),
    })
}

/// Adds a source of seven segments, so many times not ready, read in single packets.
fn add_source(alloc: Global, sources: &mut Vec<Pausing>, pauses: u64) -> Result<(), AllocError>
    requires { All (λ source. (source.reads ≡ 0) × (source.failures ≡ 0)) sources.old.items }
    ensures { OnOk result (All (λ source. (source.reads ≡ 0) × (source.failures ≡ 0)) sources.new.items) }
{
    let mut bytes = Vec::new(alloc);
    append_packets(&mut bytes, SEVEN)?;
    sources.push(Pausing::new(FailingReader::new(bytes, 188, 0), pauses))?;
    Ok(())
}

/// Two such sources.
fn sources(alloc: Global, pauses: [u64; 2]) -> Result<Vec<Pausing>, AllocError>
    ensures { IfOk result (λ sources. All (λ source. (source.reads ≡ 0) × (source.failures ≡ 0)) sources.items) }
{
    let mut sources = Vec::new(alloc);
    add_source(alloc, &mut sources, pauses[0])?;
    add_source(alloc, &mut sources, pauses[1])?;
    Ok(sources)
}

/// The renditions of the segments that were given, in their order.
fn order_of(alloc: Global, items: &[Item]) -> Result<Vec<usize>, AllocError> {
    let mut order = Vec::new(alloc);
    for item in items {
        if let Item::Segment { rendition, .. } = item {
            order.push(*rendition)?;
        }
    }
    Ok(order)
}

/// Packs these sources, of which nothing was read, with this limit of reads.
fn run<R: Threads + Wait + Sync>(
    rt: &R,
    alloc: Global,
    settings: &Settings,
    sources: Vec<Pausing>,
    publisher: Publisher,
    reads: u64,
) -> Ran<Pausing, FailingOutlet>
    requires new { All (λ source. (source.reads ≡ 0) × (source.failures ≡ 0)) sources.items }
    requires least { 1 ≤ reads }
    requires most { reads ≤ READS }
{
    let outlet = FailingOutlet::new(alloc, 0);
    pack_parallel_reads(
        rt, alloc, sources, settings, 1, &FreeGate, publisher, outlet, reads,
    )
}

/// Packs seven segments of two renditions, with this limit of reads, and tells the fault, and the order of the segments.
fn packed<R: Threads + Wait + Sync>(
    rt: &R,
    alloc: Global,
    pauses: [u64; 2],
    reads: u64,
) -> Result<(Option<PackFault>, Vec<usize>), Fail> {
    let settings = two(alloc)?;
    let sources = sources(alloc, pauses)?;
    let (publisher, _) = board(rt, alloc, nothing_of_two(alloc)?, 1)?;
    let reads = reads.max(1).min(READS);
    let Ran {
        sources: _,
        publisher,
        outlet,
        answer,
    } = run(rt, alloc, &settings, sources, publisher, reads);
    publisher.end(rt);
    Ok((answer.err(), order_of(alloc, outlet.items())?))
}

/// How often each input isn't ready, how many reads of each may give a byte, the fault, and the renditions of the segments in
/// their order. All of an input is ten packets.
const PAUSES: [([u64; 2], u64, Option<PackFault>, &[usize]); 6] = [
    (
        [0, 0],
        11,
        None,
        &[0, 1, 0, 1, 0, 1, 0, 1, 0, 1, 0, 1, 0, 1],
    ),
    (
        [0, 1000],
        11,
        None,
        &[0, 0, 0, 0, 0, 0, 0, 1, 1, 1, 1, 1, 1, 1],
    ),
    (
        [1000, 0],
        11,
        None,
        &[1, 1, 1, 1, 1, 1, 1, 0, 0, 0, 0, 0, 0, 0],
    ),
    (
        [1000, 1000],
        11,
        None,
        &[0, 1, 0, 1, 0, 1, 0, 1, 0, 1, 0, 1, 0, 1],
    ),
    (
        [0, 1000],
        10,
        Some(PackFault::ReadLimit(0)),
        &[0, 0, 0, 0, 0, 0, 1, 1, 1, 1, 1, 1],
    ),
    (
        [1000, 0],
        10,
        Some(PackFault::ReadLimit(0)),
        &[1, 1, 1, 1, 1, 1, 0, 0, 0, 0, 0, 0],
    ),
];

#[test]
fn a_silent_input_holds_up_no_other(rt: HostRuntime) -> Result<(), Fail> {
    for (pauses, reads, fault, order) in PAUSES {
        let told = packed(&rt, rt.alloc(), pauses, reads)?;
        assert_same(
            &rt,
            (pauses, reads),
            (told.0, told.1.as_slice()),
            (fault, order),
        );
    }
    Ok(())
}
