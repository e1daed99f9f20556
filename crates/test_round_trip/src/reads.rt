//! Inputs that have all their reads.
ghost use Rattle.std.specs.Prelude.{◌≡◌, All, IfOk};

use crate::asserts::assert_same;
use crate::run::{CUT, PLAY, Play, WELL, Ways, are_sizes, played_each_way, settings};
use item_io::{FailingOutlet, ReaderSource};
use pipeline::{PackFault, opening_board, pack_parallel_reads, pack_serial_reads};
use std::alloc::{AllocError, Global};
use std::io;
use std::io::Read;
use std::test::Fail;
use work_desk::FreeGate;

/// A byte a read of a stream of two segments: how many reads it has, the fault, the items and the sizes of the segments. Its
/// six packets are 1,128 bytes. The end is met by one more read than its bytes take, and the packet behind the cut is whole
/// with byte 940.
const READS: [(u64, Option<PackFault>, usize, &[usize]); 4] = [
    (1129, None, 10, &[768, 768]),
    (1128, Some(PackFault::ReadLimit(0)), 4, &[768]),
    (940, Some(PackFault::ReadLimit(0)), 4, &[768]),
    (939, Some(PackFault::ReadLimit(0)), 0, &[]),
];

#[test]
fn a_byte_a_read(rt: HostRuntime) -> Result<(), Fail> {
    for (reads, fault, items, sizes) in READS {
        let ways = Ways {
            piece: 1,
            reads,
            ..WELL
        };
        let ran = played_each_way(&rt, rt.alloc(), &Play { ways, ..PLAY })?;
        assert_same(
            &rt,
            (reads, "reads"),
            (ran.told(), are_sizes(ran.outlet.items(), sizes)),
            ((fault, items), true),
        );
    }
    Ok(())
}

/// A reader that never comes to an end, and how often it was read.
#[derive(Drop)]
struct Endless {
    reads: u64,
}

impl Read for Endless {
    fn read(&mut self, buf: &mut [u8]) -> io::Result<usize> {
        self.reads = self.reads.saturating_add(1);
        Ok(buf.len())
    }
}

/// One input that never comes to an end.
fn one_without_an_end(alloc: Global) -> Result<Vec<ReaderSource<Endless>>, AllocError>
    ensures { IfOk result (λ sources. All (λ source. (source.reads ≡ 0) × (source.failures ≡ 0)) sources.items) }
{
    let mut sources = Vec::new(alloc);
    sources.push(ReaderSource::new(Endless { reads: 0 }))?;
    Ok(sources)
}

/// How often the last input was read.
fn reads_of(sources: Vec<ReaderSource<Endless>>) -> Option<u64> {
    let mut sources = sources;
    let source = sources.pop()?;
    Some(source.into_reader().reads)
}

#[test]
fn an_input_without_an_end(rt: HostRuntime) -> Result<(), Fail> {
    let alloc = rt.alloc();
    let settings = settings(alloc, &["v"], 1, 1, CUT, 5)?;
    let mut sources = one_without_an_end(alloc)?;
    let mut outlet = FailingOutlet::new(alloc, 0);
    let answer = pack_serial_reads(alloc, &mut sources, &settings, &mut outlet, 100);
    let count = outlet.items().len();
    assert_same(
        &rt,
        "an input without an end",
        (answer.err(), count, reads_of(sources)),
        (Some(PackFault::ReadLimit(0)), 0, Some(100)),
    );
    Ok(())
}

#[test]
fn an_input_without_an_end_on_many_threads(rt: HostRuntime) -> Result<(), Fail> {
    let alloc = rt.alloc();
    let settings = settings(alloc, &["v"], 1, 1, CUT, 5)?;
    let sources = one_without_an_end(alloc)?;
    let outlet = FailingOutlet::new(alloc, 0);
    let (publisher, _viewers) = opening_board(&rt, alloc, 1, 1)?;
    let rounds::Ran {
        sources,
        publisher,
        outlet,
        answer,
    } = pack_parallel_reads(
        &rt, alloc, sources, &settings, 2, &FreeGate, publisher, outlet, 100,
    );
    publisher.end(&rt);
    let count = outlet.items().len();
    assert_same(
        &rt,
        "an input without an end on many threads",
        (answer.err(), count, reads_of(sources)),
        (Some(PackFault::ReadLimit(0)), 0, Some(100)),
    );
    Ok(())
}
